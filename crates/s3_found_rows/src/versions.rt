//! The versions that were found.
ghost use Rattle.std.specs.Prelude.{◌≡◌, ◌<ℤ◌, [], ◌∷◌, ◌++◌, ◌||◌, map, pos, find, Some, IsTrue, IfOk, OnOk};
ghost use Rattle.std.specs.List.{flat_map};
ghost use Rattle.std.specs.Ordering.{int_eq};
ghost use Rattle.s3_rows.specs.Finding.{is_named};
ghost use Rattle.s3_rows.specs.Soundness.{version_row, is_version_row, has_own_id};
ghost use Rattle.s3_stored_rows.specs.Bodies.{version_numbers};
ghost use Rattle.s3_stored_rows.specs.Changes.{bucket_columns, version_columns};
ghost use Rattle.s3_found_rows.specs.Fitting.{may_have, version_fits};
ghost use Rattle.s3_found_rows.specs.Order.{IsFilled};

use crate::naming::{is_count, reversed, take_numbers};
use s3_progress::Progress;
use s3_storage::StorageFault;
use s3_stored_rows::{Change, StoredBucket, StoredRows, StoredVersion};
use std::alloc::Global;

/// What stands in the column of the versioning of a bucket where it was never set.
const UNVERSIONED: i64 = 0;

/// What stands in the column of the id of the version `null`.
const NULL_ID: i64 = -1;

/// Puts the versions that were found into rows that have none, and their numbers of bodies behind these. Answers a rowid above which there
/// is none. Each version is a step of the progress.
pub(crate) fn put_versions<R: StoredRows, P: Progress>(
    alloc: Global,
    rows: &mut R,
    found: Vec<StoredVersion>,
    number: i64,
    bodies: &mut Vec<u64>,
    progress: &mut P,
) -> Result<i64, StorageFault>
    requires { (R.tables rows.old).versions ≡ [] }
    ensures rows { IfOk result (λ _. R.tables rows.new ≡ record (R.tables rows.old) { versions = map version_columns found.items }) }
    ensures filled { IfOk result (λ last. IsFilled version_row last (version_fits number (R.tables rows.old).buckets) (map version_columns found.items)) }
    ensures bodies { IfOk result (λ _. bodies.new.items ≡ bodies.old.items ++ flat_map version_numbers (map version_columns found.items)) }
{
    let mut last = i64::MIN;
    let mut left = reversed(found);
    while let Some(version) = left.pop() {
        let row = version.row;
        put_version(alloc, rows, version, last, number, bodies)?;
        last = row;
        progress.step();
    }
    Ok(last)
}

// Puts a version behind the ones that stand, and its numbers of bodies behind these.
fn put_version<R: StoredRows>(
    alloc: Global,
    rows: &mut R,
    version: StoredVersion,
    last: i64,
    number: i64,
    bodies: &mut Vec<u64>,
) -> Result<(), StorageFault>
    requires { IsFilled version_row last (version_fits number (R.tables rows.old).buckets) (R.tables rows.old).versions }
    ensures rows { OnOk result (R.tables rows.new ≡ record (R.tables rows.old) { versions = (R.tables rows.old).versions ++ version_columns version ∷ [] }) }
    ensures filled { OnOk result (IsFilled version_row version.row (version_fits number (R.tables rows.old).buckets) ((R.tables rows.old).versions ++ version_columns version ∷ [])) }
    ensures bodies { OnOk result (bodies.new.items ≡ bodies.old.items ++ version_numbers (version_columns version)) }
{
    check_version(rows, &version, last, number)?;
    take_numbers(alloc, &version.bodies, bodies)?;
    rows.apply(&[Change::AddVersion(version)])?;
    Ok(())
}

// Whether a version may stand behind the ones that stand, where the last one has this rowid.
fn check_version<R: StoredRows>(
    rows: &mut R,
    version: &StoredVersion,
    last: i64,
    number: i64,
) -> Result<(), StorageFault>
    ensures later { OnOk result (last <ℤ version.now.row) }
    ensures fits { OnOk result (IsTrue (version_fits number (R.tables rows.old).buckets (version_columns version.now))) }
    ensures same { R.tables rows.new ≡ R.tables rows.old }
{
    if version.row <= last || version.number >= number {
        return Err(StorageFault::Damaged);
    }
    if !is_version_sound(version) {
        return Err(StorageFault::Damaged);
    }
    if !has_place(rows, version)? {
        return Err(StorageFault::Damaged);
    }
    Ok(())
}

// Whether the bucket of a version is there, and may have it.
fn has_place<R: StoredRows>(rows: &mut R, version: &StoredVersion) -> Result<bool, StorageFault>
    ensures value { IfOk result (λ has. has ≡ may_have (find (is_named version.now.bucket.items) (R.tables rows.old).buckets) (version_columns version.now)) }
    ensures same { R.tables rows.new ≡ R.tables rows.old }
{
    match rows.bucket(&version.bucket)? {
        Some(bucket) => Ok(may_have(&bucket, version)),
        None => Ok(false),
    }
}

// Whether a bucket may have a version: one whose versioning was never set has those alone whose id is that of `null`.
fn may_have(bucket: &StoredBucket, version: &StoredVersion) -> bool
    ensures { result ≡ may_have (Some (bucket_columns bucket.now)) (version_columns version.now) }
{
    bucket.mode != UNVERSIONED || version.id == NULL_ID
}

// Whether the integers of a version are in range.
fn is_version_sound(version: &StoredVersion) -> bool
    ensures { result ≡ is_version_row (version_columns version.now) }
{
    is_count(version.number)
        && (has_own_id(version)
            && (is_count(version.moment) && (is_count(version.size) && has_mark(version))))
}

// Whether the id of a version is that of `null` or its number.
fn has_own_id(version: &StoredVersion) -> bool
    ensures { result ≡ has_own_id (version_columns version.now) }
{
    version.id == NULL_ID || version.id == version.number
}

// Whether a version is marked as a delete marker, or as none.
fn has_mark(version: &StoredVersion) -> bool
    ensures { result ≡ (int_eq version.now.marker (pos 0) || int_eq version.now.marker (pos 1)) }
{
    version.marker == 0 || version.marker == 1
}
