//! Changes of uploads.
ghost use Rattle.std.specs.Prelude.{◌≡◌, ℤ, pos, ◌+ℤ◌, ◌++◌, [], IsTrue, IfOk, OnOk, OnErr, IfSome, option_map};
ghost use Rattle.std.specs.Option.{option_copied};
ghost use Rattle.s3_versions.specs.Rules.{is_new_number, VersionPut};
ghost use Rattle.s3_records.specs.Catalogue.{versions_of};
ghost use Rattle.s3_records.specs.Changes.{UploadAdded, UploadDropped, UploadCompleted};
ghost use Rattle.s3_rows.specs.Meaning.{catalogue_of};
ghost use Rattle.s3_rows.specs.Soundness.{AreSound, has_bucket_row, version_row};
ghost use Rattle.s3_rows.specs.TableChanges.{version_put, upload_put, upload_dropped};
ghost use Rattle.s3_stored_bodies.specs.Numbers.{Contents};
ghost use Rattle.s3_stored_rows.specs.Bodies.{encoding, version_numbers};
ghost use Rattle.s3_stored_rows.specs.Changes.{version_columns, upload_columns};
ghost use Rattle.s3_stored_rows.specs.Leaving.{LeavesNoMore};
ghost use Rattle.s3_stored_rows.specs.Queries.{version_of_id, upload_of_id};
ghost use Rattle.s3_row_values.specs.Values.{data_with};
ghost use Rattle.s3_row_changes.specs.Trading.{numbers_of, sent_numbers};
ghost use Rattle.s3_row_changes.specs.Uploads.{AreRowsOf};
ghost use Rattle.s3_row_steps.specs.Steps.{AreKept, Steps};

use crate::finding::versioning_of;
use crate::standing::{numbers_sent, replaced};
use s3_bodies::Body;
use s3_calendar::Moment;
use s3_names::{BucketName, Key, UploadId};
use s3_row_changes::{UploadRows, put_upload, upload_rows};
use s3_row_values::{Described, upload_row, version_row};
use s3_stored_rows::{StoredRows, StoredUpload, StoredVersion};
use s3_terms::NoMemory;
use s3_uploads::Upload;
use std::alloc::Global;

/// Begins an upload of this id to a key of a bucket, which has to be there, without parts. An upload that has the id goes with its
/// parts; the numbers are answered that these named. Its row gets the rowid `next`.
pub fn add_upload<R: StoredRows>(
    rows: &mut R,
    alloc: Global,
    next: i64,
    bucket: &BucketName,
    key: &Key,
    id: UploadId,
    upload: &Upload<Body>,
) -> Result<Vec<u64>, NoMemory>
    requires kept { AreKept next (R.tables rows.old) }
    requires there { IsTrue (has_bucket_row (R.tables rows.old).buckets bucket.now) }
    requires begins { upload.now.parts ≡ [] }
    ensures ok { IfOk result (λ gone. Steps (R.tables rows.old) (R.tables rows.new) (next +ℤ pos 1) bucket.now
        (λ _. UploadAdded key.now id upload.now) gone.items []) }
    ensures err { OnErr result (R.tables rows.new ≡ R.tables rows.old) }
    ensures stays { LeavesNoMore R.leaves rows.old rows.new }
{
    let upload = upload_row(alloc, next, bucket, key, id, upload)?;
    let gone = upload_rows(rows, alloc, bucket.as_bytes(), key.as_bytes(), upload.id)?;
    put_row(rows, alloc, upload, gone.as_ref())
}

// Puts in the row of an upload, in the place of the one that has its id, which goes with its parts, if there is one. The numbers
// are answered that these named.
fn put_row<R: StoredRows>(
    rows: &mut R,
    alloc: Global,
    upload: StoredUpload,
    gone: Option<&UploadRows>,
) -> Result<Vec<u64>, NoMemory>
    requires sound { AreSound (R.tables rows.old) }
    requires found { option_map (λ (u : UploadRows). upload_columns u.upload) (option_copied gone) ≡ upload_of_id upload.bucket.items upload.key.items upload.id (R.tables rows.old) }
    requires rows { IfSome (option_copied gone) (AreRowsOf (R.tables rows.old)) }
    ensures ok { IfOk result (λ numbers. (R.tables rows.new ≡ upload_put (upload_columns upload) (R.tables rows.old))
        × (numbers.items ≡ sent_numbers (R.tables rows.old) (upload_of_id upload.bucket.items upload.key.items upload.id (R.tables rows.old)))) }
    ensures err { OnErr result (R.tables rows.new ≡ R.tables rows.old) }
    ensures stays { LeavesNoMore R.leaves rows.old rows.new }
{
    let numbers = numbers_sent(alloc, gone)?;
    put_upload(rows, alloc, upload, gone)?;
    Ok(numbers)
}

/// Drops the upload of this id to a key with its parts, whose rows are `gone`, if there is one.
pub fn drop_upload<R: StoredRows>(
    rows: &mut R,
    alloc: Global,
    next: i64,
    bucket: &BucketName,
    key: &Key,
    id: UploadId,
    gone: Option<&UploadRows>,
) -> Result<(), NoMemory>
    requires kept { AreKept next (R.tables rows.old) }
    requires found { option_map (λ (u : UploadRows). upload_columns u.upload) (option_copied gone) ≡ upload_of_id bucket.now key.now (pos id) (R.tables rows.old) }
    requires rows { IfSome (option_copied gone) (AreRowsOf (R.tables rows.old)) }
    ensures ok { OnOk result (Steps (R.tables rows.old) (R.tables rows.new) next bucket.now
        (λ _. UploadDropped key.now id) (sent_numbers (R.tables rows.old) (upload_of_id bucket.now key.now (pos id) (R.tables rows.old))) []) }
    ensures err { OnErr result (R.tables rows.new ≡ R.tables rows.old) }
    ensures stays { LeavesNoMore R.leaves rows.old rows.new }
{
    match gone {
        Some(gone) => s3_row_changes::drop_upload(rows, alloc, gone),
        None => Ok(()),
    }
}

/// Completes an upload: puts a version, as `put_version` does, and drops the upload with its parts, whose rows are `upload`, if there
/// is one. The numbers are answered that the version named that goes; those of the parts aren't among them.
pub fn complete<R: StoredRows>(
    rows: &mut R,
    alloc: Global,
    next: i64,
    bucket: &BucketName,
    key: &Key,
    id: UploadId,
    number: u64,
    moment: Moment,
    described: &Described,
    numbers: &[u64],
    upload: Option<&UploadRows>,
) -> Result<Vec<u64>, NoMemory>
    requires kept { AreKept next (R.tables rows.old) }
    requires there { IsTrue (has_bucket_row (R.tables rows.old).buckets bucket.now) }
    requires newer { (contents : Contents) → IsTrue (is_new_number number (versions_of (catalogue_of (encoding contents) (R.tables rows.old)) bucket.now key.now)) }
    requires found { option_map (λ (u : UploadRows). upload_columns u.upload) (option_copied upload) ≡ upload_of_id bucket.now key.now (pos id) (R.tables rows.old) }
    requires rows { IfSome (option_copied upload) (AreRowsOf (R.tables rows.old)) }
    ensures ok { IfOk result (λ gone. Steps (R.tables rows.old) (R.tables rows.new) (next +ℤ pos 1) bucket.now
        (λ contents. UploadCompleted key.now id (VersionPut number moment (data_with contents numbers.now described.now)))
        (gone.items ++ sent_numbers (R.tables rows.old) (upload_of_id bucket.now key.now (pos id) (R.tables rows.old))) numbers.now) }
    ensures err { OnErr result (R.tables rows.new ≡ R.tables rows.old) }
    ensures stays { LeavesNoMore R.leaves rows.old rows.new }
{
    let versioning = versioning_of(rows, bucket)?;
    let version = version_row(
        alloc, next, bucket, key, versioning, number, moment, described, numbers,
    )?;
    put_completed(rows, alloc, bucket, key, id, version, upload)
}

// Puts in the row of a version, in the place of the one that has its id, and takes out the rows of the upload of this id to a key,
// if there is one. The numbers are answered that the version named that goes.
fn put_completed<R: StoredRows>(
    rows: &mut R,
    alloc: Global,
    bucket: &BucketName,
    key: &Key,
    id: UploadId,
    version: StoredVersion,
    upload: Option<&UploadRows>,
) -> Result<Vec<u64>, NoMemory>
    requires sound { AreSound (R.tables rows.old) }
    requires found { option_map (λ (u : UploadRows). upload_columns u.upload) (option_copied upload) ≡ upload_of_id bucket.now key.now (pos id) (R.tables rows.old) }
    requires rows { IfSome (option_copied upload) (AreRowsOf (R.tables rows.old)) }
    ensures ok { IfOk result (λ gone. (R.tables rows.new ≡ upload_dropped bucket.now key.now (pos id) (version_put (version_columns version) (R.tables rows.old)))
        × (gone.items ≡ numbers_of version_numbers (version_of_id version.bucket.items version.key.items version.id (R.tables rows.old)))) }
    ensures err { OnErr result (R.tables rows.new ≡ R.tables rows.old) }
    ensures stays { LeavesNoMore R.leaves rows.old rows.new }
{
    let gone = replaced(rows, alloc, &version)?;
    put_replacing(rows, alloc, bucket, key, id, version, gone.row, upload)?;
    Ok(gone.numbers)
}

// The same, where the rowid of the row that goes is `gone`, if there is one.
fn put_replacing<R: StoredRows>(
    rows: &mut R,
    alloc: Global,
    bucket: &BucketName,
    key: &Key,
    id: UploadId,
    version: StoredVersion,
    gone: Option<i64>,
    upload: Option<&UploadRows>,
) -> Result<(), NoMemory>
    requires sound { AreSound (R.tables rows.old) }
    requires gone { option_map version_row (version_of_id version.bucket.items version.key.items version.id (R.tables rows.old)) ≡ gone }
    requires found { option_map (λ (u : UploadRows). upload_columns u.upload) (option_copied upload) ≡ upload_of_id bucket.now key.now (pos id) (R.tables rows.old) }
    requires rows { IfSome (option_copied upload) (AreRowsOf (R.tables rows.old)) }
    ensures ok { OnOk result (R.tables rows.new ≡ upload_dropped bucket.now key.now (pos id) (version_put (version_columns version) (R.tables rows.old))) }
    ensures err { OnErr result (R.tables rows.new ≡ R.tables rows.old) }
    ensures stays { LeavesNoMore R.leaves rows.old rows.new }
{
    match upload {
        Some(upload) => s3_row_changes::complete(rows, alloc, version, gone, upload),
        None => s3_row_changes::put_version(rows, alloc, version, gone),
    }
}
