//! Changes of the rows of buckets.
ghost use Rattle.std.specs.Prelude.{◌≡◌, Some, OnOk, OnErr, option_map};
ghost use Rattle.s3_rows.specs.Soundness.{AreSound, bucket_row};
ghost use Rattle.s3_rows.specs.TableChanges.{bucket_dropped, bucket_replaced};
ghost use Rattle.s3_stored_rows.specs.Changes.{bucket_columns};
ghost use Rattle.s3_stored_rows.specs.Leaving.{LeavesNoMore};
ghost use Rattle.s3_stored_rows.specs.Queries.{bucket_named};

use crate::dropping::replacing;
use s3_stored_rows::{Change, StoredBucket, StoredRows, TableName};
use s3_terms::NoMemory;
use std::alloc::Global;

/// Takes out the row of the bucket of a name, whose rowid is `gone`.
pub fn drop_bucket<R: StoredRows>(rows: &mut R, name: &[u8], gone: i64) -> Result<(), NoMemory>
    requires sound { AreSound (R.tables rows.old) }
    requires gone { option_map bucket_row (bucket_named name.now (R.tables rows.old)) ≡ Some gone }
    ensures ok { OnOk result (R.tables rows.new ≡ bucket_dropped name.now (R.tables rows.old)) }
    ensures err { OnErr result (R.tables rows.new ≡ R.tables rows.old) }
    ensures stays { LeavesNoMore R.leaves rows.old rows.new }
{
    rows.apply(&[Change::DropRow(TableName::Buckets, gone)])
}

/// Puts the row of a bucket in the place of the one of its name, whose rowid is `gone`.
pub fn replace_bucket<R: StoredRows>(
    rows: &mut R,
    alloc: Global,
    bucket: StoredBucket,
    gone: i64,
) -> Result<(), NoMemory>
    requires sound { AreSound (R.tables rows.old) }
    requires gone { option_map bucket_row (bucket_named bucket.name.items (R.tables rows.old)) ≡ Some gone }
    ensures ok { OnOk result (R.tables rows.new ≡ bucket_replaced (bucket_columns bucket) (R.tables rows.old)) }
    ensures err { OnErr result (R.tables rows.new ≡ R.tables rows.old) }
    ensures stays { LeavesNoMore R.leaves rows.old rows.new }
{
    let changes = replacing(
        alloc,
        TableName::Buckets,
        Some(gone),
        Change::AddBucket(bucket),
    )?;
    rows.apply(changes.as_slice())
}
