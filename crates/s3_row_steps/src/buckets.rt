//! Changes of buckets.
ghost use Rattle.std.specs.Prelude.{◌≡◌, ℤ, pos, ◌+ℤ◌, [], false, IsTrue, OnOk, OnErr};
ghost use Rattle.s3_columns.specs.Columns.{mode_column};
ghost use Rattle.s3_records.specs.Catalogue.{is_empty_bucket};
ghost use Rattle.s3_records.specs.Changes.{BucketAdded, BucketDropped, VersioningSet};
ghost use Rattle.s3_rows.specs.Meaning.{catalogue_of};
ghost use Rattle.s3_rows.specs.Soundness.{has_bucket_row};
ghost use Rattle.s3_stored_bodies.specs.Numbers.{Contents};
ghost use Rattle.s3_stored_rows.specs.Bodies.{encoding};
ghost use Rattle.s3_stored_rows.specs.Changes.{bucket_columns};
ghost use Rattle.s3_stored_rows.specs.Leaving.{LeavesNoMore};
ghost use Rattle.s3_versions.specs.Rules.{versioning_set};
ghost use Rattle.s3_row_steps.specs.Steps.{AreKept, Steps};

use s3_calendar::Moment;
use s3_columns::write_mode;
use s3_names::BucketName;
use s3_row_changes::{drop_bucket as take_out, replace_bucket};
use s3_row_values::bucket_row;
use s3_stored_rows::{Change, StoredBucket, StoredRows};
use s3_terms::NoMemory;
use s3_versions::{Versioning, VersioningStatus};
use std::alloc::Global;

/// Makes a bucket at this moment, unversioned and empty. There may be none of this name. Its row gets the rowid `next`.
pub fn add_bucket<R: StoredRows>(
    rows: &mut R,
    alloc: Global,
    next: i64,
    name: &BucketName,
    moment: Moment,
) -> Result<(), NoMemory>
    requires kept { AreKept next (R.tables rows.old) }
    requires new { has_bucket_row (R.tables rows.old).buckets name.now ≡ false }
    ensures ok { OnOk result (Steps (R.tables rows.old) (R.tables rows.new) (next +ℤ pos 1) name.now (λ _. BucketAdded moment) [] []) }
    ensures err { OnErr result (R.tables rows.new ≡ R.tables rows.old) }
    ensures stays { LeavesNoMore R.leaves rows.old rows.new }
{
    let row = bucket_row(alloc, next, name, moment, Versioning::Unversioned)?;
    rows.apply(&[Change::AddBucket(row)])
}

/// Drops a bucket, which has to be there and to have nothing in it.
pub fn drop_bucket<R: StoredRows>(
    rows: &mut R,
    next: i64,
    name: &BucketName,
) -> Result<(), NoMemory>
    requires kept { AreKept next (R.tables rows.old) }
    requires there { IsTrue (has_bucket_row (R.tables rows.old).buckets name.now) }
    requires empty { (contents : Contents) → IsTrue (is_empty_bucket (catalogue_of (encoding contents) (R.tables rows.old)) name.now) }
    ensures ok { OnOk result (Steps (R.tables rows.old) (R.tables rows.new) next name.now (λ _. BucketDropped) [] []) }
    ensures err { OnErr result (R.tables rows.new ≡ R.tables rows.old) }
    ensures stays { LeavesNoMore R.leaves rows.old rows.new }
{
    let bytes = name.as_bytes();
    let Some(row) = rows.bucket(bytes)? else {
        return Err(NoMemory);
    };
    take_out(rows, bytes, row.row)
}

/// Sets the versioning of a bucket, which has to be there. Its new row gets the rowid `next`.
pub fn set_versioning<R: StoredRows>(
    rows: &mut R,
    alloc: Global,
    next: i64,
    name: &BucketName,
    status: VersioningStatus,
) -> Result<(), NoMemory>
    requires kept { AreKept next (R.tables rows.old) }
    requires there { IsTrue (has_bucket_row (R.tables rows.old).buckets name.now) }
    ensures ok { OnOk result (Steps (R.tables rows.old) (R.tables rows.new) (next +ℤ pos 1) name.now (λ _. VersioningSet status) [] []) }
    ensures err { OnErr result (R.tables rows.new ≡ R.tables rows.old) }
    ensures stays { LeavesNoMore R.leaves rows.old rows.new }
{
    let Some(old) = rows.bucket(name.as_bytes())? else {
        return Err(NoMemory);
    };
    let gone = old.row;
    let row = with_versioning(old, next, status);
    replace_bucket(rows, alloc, row, gone)
}

// The row that comes in the place of this one where the versioning is set. It gets another rowid.
fn with_versioning(old: StoredBucket, row: i64, status: VersioningStatus) -> StoredBucket
    ensures { bucket_columns result ≡ record (bucket_columns old) { row = row; mode = mode_column (versioning_set status) } }
{
    StoredBucket {
        row,
        name: old.name,
        made: old.made,
        mode: write_mode(status.versioning()),
    }
}
