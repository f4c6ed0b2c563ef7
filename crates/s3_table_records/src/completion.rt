//! The completion of an upload: the bodies of the listed parts are named once more, then the rows change, and what they no more name
//! goes last. No byte is copied or written.
ghost use Rattle.std.specs.Prelude.{◌≡◌, ◌<◌, ℕ, ℤ, pos, List, ◌+ℤ◌, All, Some, IsTrue, IfOk, IfSome, option_map};
ghost use Rattle.std.specs.Option.{option_copied};
ghost use Rattle.s3_versions.specs.Rules.{is_new_number, VersionPut};
ghost use Rattle.s3_records.specs.Catalogue.{has_bucket, versions_of};
ghost use Rattle.s3_records.specs.Changes.{UploadCompleted};
ghost use Rattle.s3_records.specs.OpenUploads.{upload_at, bytes_listed};
ghost use Rattle.s3_stored_bodies.specs.Numbers.{StillOutlive};
ghost use Rattle.s3_stored_rows.specs.Changes.{upload_columns};
ghost use Rattle.s3_stored_rows.specs.Leaving.{LeavesNoMore};
ghost use Rattle.s3_stored_rows.specs.Queries.{upload_of_id};
ghost use Rattle.s3_row_values.specs.Values.{data_with};
ghost use Rattle.s3_row_changes.specs.Trading.{sent_numbers};
ghost use Rattle.s3_row_changes.specs.Uploads.{AreRowsOf};
ghost use Rattle.s3_table_records.specs.Kept.{kept, catalogue, IsKept, Changes};

use crate::found::{FoundUpload, find_upload};
use crate::gone::give_up_both;
use crate::listed::listed_names;
use s3_bodies::Body;
use s3_calendar::Moment;
use s3_names::{BucketName, Key, UploadId};
use s3_row_changes::UploadRows;
use s3_row_steps as steps;
use s3_row_values::Described;
use s3_rows::{rows_tell_buckets, rows_tell_uploads, rows_tell_versions};
use s3_stored_bodies::{StoredBodies, give_up_all, share_all};
use s3_stored_rows::StoredRows;
use s3_terms::NoMemory;
use s3_uploads::{ListedPart, Upload};
use s3_versions::Data;
use std::alloc::Global;

/// Completes an upload, and answers it, as `Records::complete` says. The row of the version gets the rowid `next`.
pub(crate) fn complete<R: StoredRows, B: StoredBodies>(
    rows: &mut R,
    bodies: &mut B,
    alloc: Global,
    next: i64,
    bucket: &BucketName,
    key: &Key,
    id: UploadId,
    number: u64,
    moment: Moment,
    listed: &[ListedPart],
    stored: Data<Body>,
) -> Result<Option<Upload<Body>>, NoMemory>
    requires kept { IsKept (kept (R.tables rows.old) (B.contents bodies.old) (B.uses bodies.old) next) }
    requires there { IsTrue (has_bucket (catalogue (kept (R.tables rows.old) (B.contents bodies.old) (B.uses bodies.old) next)) bucket.now) }
    requires newer { IsTrue (is_new_number number (versions_of (catalogue (kept (R.tables rows.old) (B.contents bodies.old) (B.uses bodies.old) next)) bucket.now key.now)) }
    requires joined { bytes_listed listed.now (upload_at (catalogue (kept (R.tables rows.old) (B.contents bodies.old) (B.uses bodies.old) next)) bucket.now key.now id) ≡ Some stored.body }
    ensures changes { Changes (kept (R.tables rows.old) (B.contents bodies.old) (B.uses bodies.old) next)
        (kept (R.tables rows.new) (B.contents bodies.new) (B.uses bodies.new) (next +ℤ pos 1))
        bucket.now (UploadCompleted key.now id (VersionPut number moment stored)) result }
    ensures gone { IfOk result (λ gone. gone ≡ upload_at (catalogue (kept (R.tables rows.old) (B.contents bodies.old) (B.uses bodies.old) next)) bucket.now key.now id) }
    ensures stays { LeavesNoMore R.leaves rows.old rows.new }
    ensures outlives { StillOutlive B.outlives bodies.old bodies.new }
{
    let found = match find_upload(rows, bodies, alloc, next, bucket, key, id) {
        Ok(found) => found,
        Err(failed) => return Err(failed),
    };
    match complete_whole(
        rows, bodies, alloc, next, bucket, key, id, number, moment, listed, stored, &found,
    ) {
        Ok(()) => Ok(found.into_upload()),
        Err(failed) => Err(failed),
    }
}

// The same of what was found at the place of the upload, without an answer.
fn complete_whole<R: StoredRows, B: StoredBodies>(
    rows: &mut R,
    bodies: &mut B,
    alloc: Global,
    next: i64,
    bucket: &BucketName,
    key: &Key,
    id: UploadId,
    number: u64,
    moment: Moment,
    listed: &[ListedPart],
    stored: Data<Body>,
    found: &FoundUpload,
) -> Result<(), NoMemory>
    requires kept { IsKept (kept (R.tables rows.old) (B.contents bodies.old) (B.uses bodies.old) next) }
    requires there { IsTrue (has_bucket (catalogue (kept (R.tables rows.old) (B.contents bodies.old) (B.uses bodies.old) next)) bucket.now) }
    requires newer { IsTrue (is_new_number number (versions_of (catalogue (kept (R.tables rows.old) (B.contents bodies.old) (B.uses bodies.old) next)) bucket.now key.now)) }
    requires joined { bytes_listed listed.now (upload_at (catalogue (kept (R.tables rows.old) (B.contents bodies.old) (B.uses bodies.old) next)) bucket.now key.now id) ≡ Some stored.body }
    requires found { option_map (λ (u : UploadRows). upload_columns u.upload) found.now.rows ≡ upload_of_id bucket.now key.now (pos id) (R.tables rows.old) }
    requires rows { IfSome found.now.rows (AreRowsOf (R.tables rows.old)) }
    requires names { found.now.told.names.items ≡ sent_numbers (R.tables rows.old) (upload_of_id bucket.now key.now (pos id) (R.tables rows.old)) }
    ensures changes { Changes (kept (R.tables rows.old) (B.contents bodies.old) (B.uses bodies.old) next)
        (kept (R.tables rows.new) (B.contents bodies.new) (B.uses bodies.new) (next +ℤ pos 1))
        bucket.now (UploadCompleted key.now id (VersionPut number moment stored)) result }
    ensures stays { LeavesNoMore R.leaves rows.old rows.new }
    ensures outlives { StillOutlive B.outlives bodies.old bodies.new }
{
    let Data {
        tag,
        size,
        content_type,
        metadata,
        body: _,
    } = stored;
    let described = Described {
        tag,
        size,
        content_type,
        metadata,
    };
    complete_listed(
        rows, bodies, alloc, next, bucket, key, id, number, moment, listed, &described, found,
    )
}

// The same of what is stored, taken apart, whose bytes are those of the listed parts.
fn complete_listed<R: StoredRows, B: StoredBodies>(
    rows: &mut R,
    bodies: &mut B,
    alloc: Global,
    next: i64,
    bucket: &BucketName,
    key: &Key,
    id: UploadId,
    number: u64,
    moment: Moment,
    listed: &[ListedPart],
    described: &Described,
    found: &FoundUpload,
) -> Result<(), NoMemory>
    requires kept { IsKept (kept (R.tables rows.old) (B.contents bodies.old) (B.uses bodies.old) next) }
    requires there { IsTrue (has_bucket (catalogue (kept (R.tables rows.old) (B.contents bodies.old) (B.uses bodies.old) next)) bucket.now) }
    requires newer { IsTrue (is_new_number number (versions_of (catalogue (kept (R.tables rows.old) (B.contents bodies.old) (B.uses bodies.old) next)) bucket.now key.now)) }
    requires found { option_map (λ (u : UploadRows). upload_columns u.upload) found.now.rows ≡ upload_of_id bucket.now key.now (pos id) (R.tables rows.old) }
    requires rows { IfSome found.now.rows (AreRowsOf (R.tables rows.old)) }
    requires names { found.now.told.names.items ≡ sent_numbers (R.tables rows.old) (upload_of_id bucket.now key.now (pos id) (R.tables rows.old)) }
    ensures changes { (bytes : List ℕ) → bytes_listed listed.now (upload_at (catalogue (kept (R.tables rows.old) (B.contents bodies.old) (B.uses bodies.old) next)) bucket.now key.now id) ≡ Some bytes
        → Changes (kept (R.tables rows.old) (B.contents bodies.old) (B.uses bodies.old) next)
        (kept (R.tables rows.new) (B.contents bodies.new) (B.uses bodies.new) (next +ℤ pos 1))
        bucket.now (UploadCompleted key.now id (VersionPut number moment (record { tag = described.now.tag; size = described.now.size; content_type = described.now.content_type; metadata = described.now.metadata; body = bytes }))) result }
    ensures stays { LeavesNoMore R.leaves rows.old rows.new }
    ensures outlives { StillOutlive B.outlives bodies.old bodies.new }
{
    rows_tell_uploads();
    let names = match listed_names(rows, alloc, found.rows.as_ref(), listed) {
        Ok(names) => names,
        Err(failed) => return Err(failed),
    };
    complete_found(
        rows,
        bodies,
        alloc,
        next,
        bucket,
        key,
        id,
        number,
        moment,
        described,
        &names,
        found.rows.as_ref(),
        &found.told.names,
    )
}

// The same where the bytes that are stored stand under these numbers.
fn complete_found<R: StoredRows, B: StoredBodies>(
    rows: &mut R,
    bodies: &mut B,
    alloc: Global,
    next: i64,
    bucket: &BucketName,
    key: &Key,
    id: UploadId,
    number: u64,
    moment: Moment,
    described: &Described,
    listed: &[u64],
    found: Option<&UploadRows>,
    names: &[u64],
) -> Result<(), NoMemory>
    requires kept { IsKept (kept (R.tables rows.old) (B.contents bodies.old) (B.uses bodies.old) next) }
    requires there { IsTrue (has_bucket (catalogue (kept (R.tables rows.old) (B.contents bodies.old) (B.uses bodies.old) next)) bucket.now) }
    requires newer { IsTrue (is_new_number number (versions_of (catalogue (kept (R.tables rows.old) (B.contents bodies.old) (B.uses bodies.old) next)) bucket.now key.now)) }
    requires found { option_map (λ (u : UploadRows). upload_columns u.upload) (option_copied found) ≡ upload_of_id bucket.now key.now (pos id) (R.tables rows.old) }
    requires rows { IfSome (option_copied found) (AreRowsOf (R.tables rows.old)) }
    requires listed { All (λ number. 0 < B.uses bodies.old number) listed.now }
    requires names { names.now ≡ sent_numbers (R.tables rows.old) (upload_of_id bucket.now key.now (pos id) (R.tables rows.old)) }
    ensures changes { Changes (kept (R.tables rows.old) (B.contents bodies.old) (B.uses bodies.old) next)
        (kept (R.tables rows.new) (B.contents bodies.new) (B.uses bodies.new) (next +ℤ pos 1))
        bucket.now (UploadCompleted key.now id (VersionPut number moment (data_with (B.contents bodies.old) listed.now described.now))) result }
    ensures stays { LeavesNoMore R.leaves rows.old rows.new }
    ensures outlives { StillOutlive B.outlives bodies.old bodies.new }
{
    rows_tell_buckets();
    rows_tell_versions();
    if let Err(failed) = share_all(bodies, listed) {
        return Err(failed);
    }
    match steps::complete(
        rows, alloc, next, bucket, key, id, number, moment, described, listed, found,
    ) {
        Ok(gone) => {
            give_up_both(bodies, &gone, names);
            Ok(())
        }
        Err(failed) => {
            give_up_all(bodies, listed);
            Err(failed)
        }
    }
}
