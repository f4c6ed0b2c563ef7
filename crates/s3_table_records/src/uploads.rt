//! Changes of uploads.
ghost use Rattle.std.specs.Prelude.{◌≡◌, ℤ, pos, ◌+ℤ◌, [], IsTrue, IfOk, IfSome, option_map};
ghost use Rattle.s3_records.specs.Catalogue.{has_bucket};
ghost use Rattle.s3_records.specs.Changes.{UploadAdded, UploadDropped};
ghost use Rattle.s3_records.specs.OpenUploads.{upload_at};
ghost use Rattle.s3_stored_bodies.specs.Numbers.{StillOutlive};
ghost use Rattle.s3_stored_rows.specs.Changes.{upload_columns};
ghost use Rattle.s3_stored_rows.specs.Leaving.{LeavesNoMore};
ghost use Rattle.s3_stored_rows.specs.Queries.{upload_of_id};
ghost use Rattle.s3_row_changes.specs.Trading.{sent_numbers};
ghost use Rattle.s3_row_changes.specs.Uploads.{AreRowsOf};
ghost use Rattle.s3_table_records.specs.Kept.{kept, catalogue, IsKept, Changes};

use crate::found::{FoundUpload, find_upload, told_upload};
use s3_bodies::Body;
use s3_names::{BucketName, Key, UploadId};
use s3_row_changes::UploadRows;
use s3_row_steps as steps;
use s3_rows::rows_tell_buckets;
use s3_stored_bodies::{StoredBodies, give_up_all};
use s3_stored_rows::StoredRows;
use s3_terms::NoMemory;
use s3_uploads::Upload;
use std::alloc::Global;

/// The upload of an id to a key, with its parts and their bytes; `None` where there is none.
pub(crate) fn found_upload<R: StoredRows, B: StoredBodies>(
    rows: &mut R,
    bodies: &mut B,
    alloc: Global,
    next: i64,
    bucket: &BucketName,
    key: &Key,
    id: UploadId,
) -> Result<Option<Upload<Body>>, NoMemory>
    requires kept { IsKept (kept (R.tables rows.old) (B.contents bodies.old) (B.uses bodies.old) next) }
    ensures value { IfOk result (λ found. found ≡ upload_at (catalogue (kept (R.tables rows.old) (B.contents bodies.old) (B.uses bodies.old) next)) bucket.now key.now id) }
    ensures tables { R.tables rows.new ≡ R.tables rows.old }
    ensures contents { B.contents bodies.new ≡ B.contents bodies.old }
    ensures uses { B.uses bodies.new ≡ B.uses bodies.old }
    ensures stays { LeavesNoMore R.leaves rows.old rows.new }
    ensures outlives { StillOutlive B.outlives bodies.old bodies.new }
{
    let _next = next;
    let found = steps::found_upload(rows, alloc, bucket, key, id)?;
    told_upload(rows, bodies, alloc, bucket, key, id, found.as_ref())
}

/// Begins an upload, as `Records::add_upload` says. Its row gets the rowid `next`.
pub(crate) fn add_upload<R: StoredRows, B: StoredBodies>(
    rows: &mut R,
    bodies: &mut B,
    alloc: Global,
    next: i64,
    bucket: &BucketName,
    key: &Key,
    id: UploadId,
    upload: &Upload<Body>,
) -> Result<(), NoMemory>
    requires kept { IsKept (kept (R.tables rows.old) (B.contents bodies.old) (B.uses bodies.old) next) }
    requires there { IsTrue (has_bucket (catalogue (kept (R.tables rows.old) (B.contents bodies.old) (B.uses bodies.old) next)) bucket.now) }
    requires begins { upload.now.parts ≡ [] }
    ensures changes { Changes (kept (R.tables rows.old) (B.contents bodies.old) (B.uses bodies.old) next)
        (kept (R.tables rows.new) (B.contents bodies.new) (B.uses bodies.new) (next +ℤ pos 1))
        bucket.now (UploadAdded key.now id upload.now) result }
    ensures stays { LeavesNoMore R.leaves rows.old rows.new }
    ensures outlives { StillOutlive B.outlives bodies.old bodies.new }
{
    rows_tell_buckets();
    match steps::add_upload(rows, alloc, next, bucket, key, id, upload) {
        Ok(gone) => {
            give_up_all(bodies, &gone);
            Ok(())
        }
        Err(failed) => Err(failed),
    }
}

/// Drops an upload, and answers it, as `Records::drop_upload` says.
pub(crate) fn drop_upload<R: StoredRows, B: StoredBodies>(
    rows: &mut R,
    bodies: &mut B,
    alloc: Global,
    next: i64,
    bucket: &BucketName,
    key: &Key,
    id: UploadId,
) -> Result<Option<Upload<Body>>, NoMemory>
    requires kept { IsKept (kept (R.tables rows.old) (B.contents bodies.old) (B.uses bodies.old) next) }
    ensures changes { Changes (kept (R.tables rows.old) (B.contents bodies.old) (B.uses bodies.old) next)
        (kept (R.tables rows.new) (B.contents bodies.new) (B.uses bodies.new) next)
        bucket.now (UploadDropped key.now id) result }
    ensures gone { IfOk result (λ gone. gone ≡ upload_at (catalogue (kept (R.tables rows.old) (B.contents bodies.old) (B.uses bodies.old) next)) bucket.now key.now id) }
    ensures stays { LeavesNoMore R.leaves rows.old rows.new }
    ensures outlives { StillOutlive B.outlives bodies.old bodies.new }
{
    let found = match find_upload(rows, bodies, alloc, next, bucket, key, id) {
        Ok(found) => found,
        Err(failed) => return Err(failed),
    };
    match drop_found(rows, bodies, alloc, next, bucket, key, id, &found) {
        Ok(()) => Ok(found.into_upload()),
        Err(failed) => Err(failed),
    }
}

// The same of what was found at its place, without an answer.
fn drop_found<R: StoredRows, B: StoredBodies>(
    rows: &mut R,
    bodies: &mut B,
    alloc: Global,
    next: i64,
    bucket: &BucketName,
    key: &Key,
    id: UploadId,
    found: &FoundUpload,
) -> Result<(), NoMemory>
    requires kept { IsKept (kept (R.tables rows.old) (B.contents bodies.old) (B.uses bodies.old) next) }
    requires found { option_map (λ (u : UploadRows). upload_columns u.upload) found.now.rows ≡ upload_of_id bucket.now key.now (pos id) (R.tables rows.old) }
    requires rows { IfSome found.now.rows (AreRowsOf (R.tables rows.old)) }
    requires names { found.now.told.names.items ≡ sent_numbers (R.tables rows.old) (upload_of_id bucket.now key.now (pos id) (R.tables rows.old)) }
    ensures changes { Changes (kept (R.tables rows.old) (B.contents bodies.old) (B.uses bodies.old) next)
        (kept (R.tables rows.new) (B.contents bodies.new) (B.uses bodies.new) next)
        bucket.now (UploadDropped key.now id) result }
    ensures stays { LeavesNoMore R.leaves rows.old rows.new }
    ensures outlives { StillOutlive B.outlives bodies.old bodies.new }
{
    match steps::drop_upload(rows, alloc, next, bucket, key, id, found.rows.as_ref()) {
        Ok(()) => {
            give_up_all(bodies, &found.told.names);
            Ok(())
        }
        Err(failed) => Err(failed),
    }
}
