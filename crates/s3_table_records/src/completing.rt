//! What a completion stores.
ghost use Rattle.std.specs.Prelude.{◌≡◌, IfOk};
ghost use Rattle.s3_uploads.specs.Completion.{completed as completed_upload};
ghost use Rattle.s3_records.specs.OpenUploads.{completed_at, upload_at};
ghost use Rattle.s3_stored_bodies.specs.Numbers.{StillOutlive};
ghost use Rattle.s3_stored_rows.specs.Leaving.{LeavesNoMore};
ghost use Rattle.s3_table_records.specs.Kept.{kept, catalogue, IsKept};

use crate::uploads::found_upload;
use s3_bodies::Body;
use s3_names::{BucketName, Key, UploadId};
use s3_stored_bodies::StoredBodies;
use s3_stored_rows::StoredRows;
use s3_terms::{Code, NoMemory};
use s3_uploads::{CompletionError, ListedPart, Upload};
use s3_versions::Data;
use std::alloc::Global;

/// What the completion of an upload stores, or why it is refused, as `Records::completed` says.
pub(crate) fn completed<R: StoredRows, B: StoredBodies>(
    rows: &mut R,
    bodies: &mut B,
    alloc: Global,
    next: i64,
    bucket: &BucketName,
    key: &Key,
    id: UploadId,
    least: u64,
    listed: &[ListedPart],
) -> Result<Result<Data<Body>, Code>, NoMemory>
    requires kept { IsKept (kept (R.tables rows.old) (B.contents bodies.old) (B.uses bodies.old) next) }
    ensures value { IfOk result (λ stored. stored
        ≡ completed_at least listed.now (upload_at (catalogue (kept (R.tables rows.old) (B.contents bodies.old) (B.uses bodies.old) next)) bucket.now key.now id)) }
    ensures tables { R.tables rows.new ≡ R.tables rows.old }
    ensures contents { B.contents bodies.new ≡ B.contents bodies.old }
    ensures uses { B.uses bodies.new ≡ B.uses bodies.old }
    ensures stays { LeavesNoMore R.leaves rows.old rows.new }
    ensures outlives { StillOutlive B.outlives bodies.old bodies.new }
{
    match found_upload(rows, bodies, alloc, next, bucket, key, id)? {
        None => Ok(Err(Code::NoSuchUpload)),
        Some(upload) => joined(alloc, &upload, least, listed),
    }
}

// What the completion of this upload stores.
fn joined(
    alloc: Global,
    upload: &Upload<Body>,
    least: u64,
    listed: &[ListedPart],
) -> Result<Result<Data<Body>, Code>, NoMemory>
    ensures { IfOk result (λ stored. stored ≡ completed_upload least listed.now upload.now) }
{
    match upload.complete(alloc, least, listed) {
        Ok(stored) => Ok(Ok(stored)),
        Err(CompletionError::Refused(code)) => Ok(Err(code)),
        Err(CompletionError::NoMemory) => Err(NoMemory),
    }
}
