//! The buckets that were found.
ghost use Rattle.std.specs.Prelude.{◌≡◌, ◌<ℤ◌, [], ◌∷◌, ◌++◌, map, IsTrue, IfOk, OnOk};
ghost use Rattle.s3_rows.specs.Soundness.{bucket_row, is_bucket_row};
ghost use Rattle.s3_stored_rows.specs.Changes.{bucket_columns};
ghost use Rattle.s3_found_rows.specs.Order.{IsFilled};

use crate::naming::{is_count, reversed};
use s3_storage::StorageFault;
use s3_stored_rows::{Change, StoredBucket, StoredRows};

/// The last number that stands for a versioning.
const LAST_MODE: i64 = 2;

/// Puts the buckets that were found into rows that have none. Answers a rowid above which there is none.
pub(crate) fn put_buckets<R: StoredRows>(
    rows: &mut R,
    found: Vec<StoredBucket>,
) -> Result<i64, StorageFault>
    requires { (R.tables rows.old).buckets ≡ [] }
    ensures rows { IfOk result (λ _. R.tables rows.new ≡ record (R.tables rows.old) { buckets = map bucket_columns found.items }) }
    ensures filled { IfOk result (λ last. IsFilled bucket_row last is_bucket_row (map bucket_columns found.items)) }
{
    let mut last = i64::MIN;
    let mut left = reversed(found);
    while let Some(bucket) = left.pop() {
        let row = bucket.row;
        put_bucket(rows, bucket, last)?;
        last = row;
    }
    Ok(last)
}

// Puts a bucket behind the ones that stand.
fn put_bucket<R: StoredRows>(
    rows: &mut R,
    bucket: StoredBucket,
    last: i64,
) -> Result<(), StorageFault>
    requires { IsFilled bucket_row last is_bucket_row (R.tables rows.old).buckets }
    ensures rows { OnOk result (R.tables rows.new ≡ record (R.tables rows.old) { buckets = (R.tables rows.old).buckets ++ bucket_columns bucket ∷ [] }) }
    ensures filled { OnOk result (IsFilled bucket_row bucket.row is_bucket_row ((R.tables rows.old).buckets ++ bucket_columns bucket ∷ [])) }
{
    check_bucket(&bucket, last)?;
    rows.apply(&[Change::AddBucket(bucket)])?;
    Ok(())
}

// Whether a bucket may stand behind the ones that stand, where the last one has this rowid.
fn check_bucket(bucket: &StoredBucket, last: i64) -> Result<(), StorageFault>
    ensures later { OnOk result (last <ℤ bucket.now.row) }
    ensures fits { OnOk result (IsTrue (is_bucket_row (bucket_columns bucket.now))) }
{
    if bucket.row <= last {
        return Err(StorageFault::Damaged);
    }
    if !is_bucket_sound(bucket) {
        return Err(StorageFault::Damaged);
    }
    Ok(())
}

// Whether the integers of a bucket are in range.
fn is_bucket_sound(bucket: &StoredBucket) -> bool
    ensures { result ≡ is_bucket_row (bucket_columns bucket.now) }
{
    is_count(bucket.made) && (is_count(bucket.mode) && bucket.mode <= LAST_MODE)
}
