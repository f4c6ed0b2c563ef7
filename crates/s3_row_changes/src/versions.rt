//! Changes of the rows of versions.
ghost use Rattle.std.specs.Prelude.{◌≡◌, Some, OnOk, OnErr, option_map};
ghost use Rattle.s3_rows.specs.Soundness.{AreSound, version_row};
ghost use Rattle.s3_rows.specs.TableChanges.{version_put, version_dropped};
ghost use Rattle.s3_stored_rows.specs.Changes.{version_columns};
ghost use Rattle.s3_stored_rows.specs.Leaving.{LeavesNoMore};
ghost use Rattle.s3_stored_rows.specs.Queries.{version_of_id};

use crate::dropping::replacing;
use s3_stored_rows::{Change, StoredRows, StoredVersion, TableName};
use s3_terms::NoMemory;
use std::alloc::Global;

/// Puts in the row of a version, in the place of the one that has its id. That one's rowid is `gone`, if there is one.
pub fn put_version<R: StoredRows>(
    rows: &mut R,
    alloc: Global,
    version: StoredVersion,
    gone: Option<i64>,
) -> Result<(), NoMemory>
    requires sound { AreSound (R.tables rows.old) }
    requires gone { option_map version_row (version_of_id version.bucket.items version.key.items version.id (R.tables rows.old)) ≡ gone }
    ensures ok { OnOk result (R.tables rows.new ≡ version_put (version_columns version) (R.tables rows.old)) }
    ensures err { OnErr result (R.tables rows.new ≡ R.tables rows.old) }
    ensures stays { LeavesNoMore R.leaves rows.old rows.new }
{
    let changes = replacing(
        alloc,
        TableName::Versions,
        gone,
        Change::AddVersion(version),
    )?;
    rows.apply(changes.as_slice())
}

/// Takes out the row of the version of an id under a key, whose rowid is `gone`.
pub fn drop_version<R: StoredRows>(
    rows: &mut R,
    bucket: &[u8],
    key: &[u8],
    id: i64,
    gone: i64,
) -> Result<(), NoMemory>
    requires sound { AreSound (R.tables rows.old) }
    requires gone { option_map version_row (version_of_id bucket.now key.now id (R.tables rows.old)) ≡ Some gone }
    ensures ok { OnOk result (R.tables rows.new ≡ version_dropped bucket.now key.now id (R.tables rows.old)) }
    ensures err { OnErr result (R.tables rows.new ≡ R.tables rows.old) }
    ensures stays { LeavesNoMore R.leaves rows.old rows.new }
{
    rows.apply(&[Change::DropRow(TableName::Versions, gone)])
}
