//! Changes of buckets, which name no bodies.
ghost use Rattle.std.specs.Prelude.{◌≡◌, ℤ, pos, ◌+ℤ◌, false, IsTrue};
ghost use Rattle.s3_records.specs.Catalogue.{has_bucket, is_empty_bucket};
ghost use Rattle.s3_records.specs.Changes.{BucketAdded, BucketDropped, VersioningSet};
ghost use Rattle.s3_stored_rows.specs.Leaving.{LeavesNoMore};
ghost use Rattle.s3_table_records.specs.Kept.{kept, catalogue, IsKept, Changes};

use s3_calendar::Moment;
use s3_names::BucketName;
use s3_row_steps as steps;
use s3_rows::rows_tell_buckets;
use s3_stored_bodies::StoredBodies;
use s3_stored_rows::StoredRows;
use s3_terms::NoMemory;
use s3_versions::VersioningStatus;
use std::alloc::Global;

/// Makes a bucket, as `Records::add_bucket` says. Its row gets the rowid `next`.
pub(crate) fn add_bucket<R: StoredRows, B: StoredBodies>(
    rows: &mut R,
    bodies: &B,
    alloc: Global,
    next: i64,
    bucket: &BucketName,
    moment: Moment,
) -> Result<(), NoMemory>
    requires kept { IsKept (kept (R.tables rows.old) (B.contents bodies.now) (B.uses bodies.now) next) }
    requires new { has_bucket (catalogue (kept (R.tables rows.old) (B.contents bodies.now) (B.uses bodies.now) next)) bucket.now ≡ false }
    ensures changes { Changes (kept (R.tables rows.old) (B.contents bodies.now) (B.uses bodies.now) next)
        (kept (R.tables rows.new) (B.contents bodies.now) (B.uses bodies.now) (next +ℤ pos 1))
        bucket.now (BucketAdded moment) result }
    ensures stays { LeavesNoMore R.leaves rows.old rows.new }
{
    rows_tell_buckets();
    let _bodies = bodies;
    steps::add_bucket(rows, alloc, next, bucket, moment)
}

/// Drops a bucket, as `Records::drop_bucket` says.
pub(crate) fn drop_bucket<R: StoredRows, B: StoredBodies>(
    rows: &mut R,
    bodies: &B,
    next: i64,
    bucket: &BucketName,
) -> Result<(), NoMemory>
    requires kept { IsKept (kept (R.tables rows.old) (B.contents bodies.now) (B.uses bodies.now) next) }
    requires there { IsTrue (has_bucket (catalogue (kept (R.tables rows.old) (B.contents bodies.now) (B.uses bodies.now) next)) bucket.now) }
    requires empty { IsTrue (is_empty_bucket (catalogue (kept (R.tables rows.old) (B.contents bodies.now) (B.uses bodies.now) next)) bucket.now) }
    ensures changes { Changes (kept (R.tables rows.old) (B.contents bodies.now) (B.uses bodies.now) next)
        (kept (R.tables rows.new) (B.contents bodies.now) (B.uses bodies.now) next)
        bucket.now BucketDropped result }
    ensures stays { LeavesNoMore R.leaves rows.old rows.new }
{
    rows_tell_buckets();
    let _bodies = bodies;
    steps::drop_bucket(rows, next, bucket)
}

/// Sets the versioning of a bucket, as `Records::set_versioning` says. Its new row gets the rowid `next`.
pub(crate) fn set_versioning<R: StoredRows, B: StoredBodies>(
    rows: &mut R,
    bodies: &B,
    alloc: Global,
    next: i64,
    bucket: &BucketName,
    status: VersioningStatus,
) -> Result<(), NoMemory>
    requires kept { IsKept (kept (R.tables rows.old) (B.contents bodies.now) (B.uses bodies.now) next) }
    requires there { IsTrue (has_bucket (catalogue (kept (R.tables rows.old) (B.contents bodies.now) (B.uses bodies.now) next)) bucket.now) }
    ensures changes { Changes (kept (R.tables rows.old) (B.contents bodies.now) (B.uses bodies.now) next)
        (kept (R.tables rows.new) (B.contents bodies.now) (B.uses bodies.now) (next +ℤ pos 1))
        bucket.now (VersioningSet status) result }
    ensures stays { LeavesNoMore R.leaves rows.old rows.new }
{
    rows_tell_buckets();
    let _bodies = bodies;
    steps::set_versioning(rows, alloc, next, bucket, status)
}
