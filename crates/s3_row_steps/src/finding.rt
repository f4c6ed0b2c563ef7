//! The rows that a request asks for, and the versioning of its bucket.
ghost use Rattle.std.specs.Prelude.{◌≡◌, ◌≤◌, ◌^◌, ℤ, pos, IfOk, IfSome, MatchOption, Some, option_map};
ghost use Rattle.s3_names.specs.declared.ids.VersionId.{VersionId};
ghost use Rattle.s3_versions.specs.Rules.{asked_for};
ghost use Rattle.s3_columns.specs.Columns.{versioning_in};
ghost use Rattle.s3_records.specs.Catalogue.{versions_of, versioning_of};
ghost use Rattle.s3_rows.specs.Finding.{id_column};
ghost use Rattle.s3_rows.specs.Meaning.{version_of, catalogue_of};
ghost use Rattle.s3_stored_bodies.specs.Numbers.{Contents};
ghost use Rattle.s3_stored_rows.specs.Bodies.{encoding};
ghost use Rattle.s3_stored_rows.specs.Changes.{version_columns, upload_columns};
ghost use Rattle.s3_stored_rows.specs.Leaving.{LeavesNoMore};
ghost use Rattle.s3_stored_rows.specs.Queries.{version_of_id, upload_of_id};
ghost use Rattle.s3_row_changes.specs.Uploads.{AreRowsOf};
ghost use Rattle.s3_row_steps.specs.Steps.{AreKept, HaveSmallIds};

use s3_columns::{read_mode, write_id};
use s3_names::{BucketName, Key, UploadId, VersionId};
use s3_row_changes::{UploadRows, upload_rows};
use s3_stored_rows::{StoredBucket, StoredRows, StoredUpload, StoredVersion};
use s3_terms::NoMemory;
use s3_versions::Versioning;
use std::alloc::Global;

/// The row of the version that a request asks for: that of the id that it names, or the current one where it names none. `None`
/// where there is none.
pub fn found_version<R: StoredRows>(
    rows: &mut R,
    bucket: &BucketName,
    key: &Key,
    asked: Option<VersionId>,
) -> Result<Option<StoredVersion>, NoMemory>
    requires kept { (next : ℤ) × AreKept next (R.tables rows.old) }
    ensures value { (contents : Contents) → IfOk result (λ found. option_map (λ (v : StoredVersion). version_of (encoding contents) (version_columns v)) found
        ≡ asked_for asked (versions_of (catalogue_of (encoding contents) (R.tables rows.old)) bucket.now key.now)) }
    ensures named { (id : VersionId) → asked ≡ Some id → IfOk result (λ found. option_map version_columns found ≡ version_of_id bucket.now key.now (id_column id) (R.tables rows.old)) }
    ensures same { R.tables rows.new ≡ R.tables rows.old }
    ensures stays { LeavesNoMore R.leaves rows.old rows.new }
{
    match asked {
        None => rows.newest(bucket.as_bytes(), key.as_bytes()),
        Some(id) => version_under(rows, bucket, key, id),
    }
}

// The row of the version of an id under a key; `None` where there is none.
fn version_under<R: StoredRows>(
    rows: &mut R,
    bucket: &BucketName,
    key: &Key,
    id: VersionId,
) -> Result<Option<StoredVersion>, NoMemory>
    requires small { HaveSmallIds (R.tables rows.old) }
    ensures value { IfOk result (λ found. option_map version_columns found ≡ version_of_id bucket.now key.now (id_column id) (R.tables rows.old)) }
    ensures same { R.tables rows.new ≡ R.tables rows.old }
    ensures stays { LeavesNoMore R.leaves rows.old rows.new }
{
    match write_id(id) {
        None => Ok(None),
        Some(column) => rows.version(bucket.as_bytes(), key.as_bytes(), column),
    }
}

/// The rows of the upload of an id to a key, with those of its parts; `None` where there is none.
pub fn found_upload<R: StoredRows>(
    rows: &mut R,
    alloc: Global,
    bucket: &BucketName,
    key: &Key,
    id: UploadId,
) -> Result<Option<UploadRows>, NoMemory>
    requires kept { (next : ℤ) × AreKept next (R.tables rows.old) }
    ensures found { IfOk result (λ found. option_map (λ (u : UploadRows). upload_columns u.upload) found ≡ upload_of_id bucket.now key.now (pos id) (R.tables rows.old)) }
    ensures rows { IfOk result (λ found. IfSome found (AreRowsOf (R.tables rows.old))) }
    ensures same { R.tables rows.new ≡ R.tables rows.old }
    ensures stays { LeavesNoMore R.leaves rows.old rows.new }
{
    match upload_column(id) {
        None => Ok(None),
        Some(column) => upload_rows(rows, alloc, bucket.as_bytes(), key.as_bytes(), column),
    }
}

/// The row of the upload of an id to a key, without those of its parts; `None` where there is none.
pub fn found_upload_row<R: StoredRows>(
    rows: &mut R,
    bucket: &BucketName,
    key: &Key,
    id: UploadId,
) -> Result<Option<StoredUpload>, NoMemory>
    requires kept { (next : ℤ) × AreKept next (R.tables rows.old) }
    ensures value { IfOk result (λ found. option_map upload_columns found ≡ upload_of_id bucket.now key.now (pos id) (R.tables rows.old)) }
    ensures same { R.tables rows.new ≡ R.tables rows.old }
    ensures stays { LeavesNoMore R.leaves rows.old rows.new }
{
    match upload_column(id) {
        None => Ok(None),
        Some(column) => rows.upload(bucket.as_bytes(), key.as_bytes(), column),
    }
}

// The number that stands for the id of an upload; `None` where it is 2^63 or more.
fn upload_column(id: UploadId) -> Option<i64>
    ensures { MatchOption result (2 ^ 63 ≤ id) (λ column. column ≡ pos id) }
{
    i64::try_from(id.number()).ok()
}

/// The versioning of a bucket, by its row. `NoMemory` where there is no such row, or where its mode can't be read.
pub(crate) fn versioning_of<R: StoredRows>(
    rows: &mut R,
    bucket: &BucketName,
) -> Result<Versioning, NoMemory>
    ensures value { IfOk result (λ versioning. (contents : Contents)
        → versioning_of (catalogue_of (encoding contents) (R.tables rows.old)) bucket.now ≡ versioning) }
    ensures same { R.tables rows.new ≡ R.tables rows.old }
    ensures stays { LeavesNoMore R.leaves rows.old rows.new }
{
    match rows.bucket(bucket.as_bytes())? {
        None => Err(NoMemory),
        Some(row) => versioning_in(&row),
    }
}

// The versioning that the row of a bucket tells.
fn versioning_in(row: &StoredBucket) -> Result<Versioning, NoMemory>
    ensures { IfOk result (λ versioning. versioning_in row.now.mode ≡ versioning) }
{
    match read_mode(row.mode) {
        None => Err(NoMemory),
        Some(versioning) => Ok(versioning),
    }
}
