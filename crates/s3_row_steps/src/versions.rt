//! Changes of the versions under a key.
ghost use Rattle.std.specs.Prelude.{◌≡◌, ◌≢◌, ℤ, pos, ◌+ℤ◌, [], IsTrue, IfOk, OnOk, OnErr, option_map};
ghost use Rattle.std.specs.Option.{option_copied};
ghost use Rattle.s3_versions.specs.Rules.{is_new_number, VersionPut, KeyDeleted, VersionDropped};
ghost use Rattle.s3_records.specs.Catalogue.{versions_of, versioning_of};
ghost use Rattle.s3_records.specs.Changes.{KeyChanged};
ghost use Rattle.s3_rows.specs.Finding.{id_column};
ghost use Rattle.s3_rows.specs.Meaning.{catalogue_of};
ghost use Rattle.s3_rows.specs.Soundness.{version_row, has_bucket_row, AreSound};
ghost use Rattle.s3_stored_bodies.specs.Numbers.{Contents};
ghost use Rattle.s3_stored_rows.specs.Bodies.{encoding, version_numbers};
ghost use Rattle.s3_stored_rows.specs.Changes.{version_columns};
ghost use Rattle.s3_stored_rows.specs.Leaving.{LeavesNoMore};
ghost use Rattle.s3_stored_rows.specs.Queries.{version_of_id};
ghost use Rattle.s3_row_values.specs.Values.{data_with};
ghost use Rattle.s3_row_changes.specs.Trading.{numbers_of};
ghost use Rattle.s3_row_steps.specs.Puts.{IsPut};
ghost use Rattle.s3_row_steps.specs.Steps.{AreKept, Steps};

use crate::finding::versioning_of;
use s3_calendar::Moment;
use s3_columns::read_numbers;
use s3_names::{BucketName, Key, VersionId};
use s3_row_changes::{drop_version as take_out, put_version as put_in};
use s3_row_values::{Described, marker_row, version_row};
use s3_stored_rows::{StoredRows, StoredVersion};
use s3_terms::NoMemory;
use s3_versions::Versioning;
use std::alloc::Global;

/// What stands in the column `id` of the version `null`.
const NULL: i64 = -1;

/// Puts a version under a key of a bucket, which has to be there, by the rules of the bucket's versioning. The entry of this number
/// makes it at this moment; the number has to be above those of the key's versions. Its bytes stand under these numbers of bodies.
/// Its row gets the rowid `next`. The numbers are answered that the version named that goes.
pub fn put_version<R: StoredRows>(
    rows: &mut R,
    alloc: Global,
    next: i64,
    bucket: &BucketName,
    key: &Key,
    number: u64,
    moment: Moment,
    described: &Described,
    numbers: &[u64],
) -> Result<Vec<u64>, NoMemory>
    requires kept { AreKept next (R.tables rows.old) }
    requires there { IsTrue (has_bucket_row (R.tables rows.old).buckets bucket.now) }
    requires newer { (contents : Contents) → IsTrue (is_new_number number (versions_of (catalogue_of (encoding contents) (R.tables rows.old)) bucket.now key.now)) }
    ensures ok { IfOk result (λ gone. Steps (R.tables rows.old) (R.tables rows.new) (next +ℤ pos 1) bucket.now
        (λ contents. KeyChanged key.now (VersionPut number moment (data_with contents numbers.now described.now))) gone.items numbers.now) }
    ensures err { OnErr result (R.tables rows.new ≡ R.tables rows.old) }
    ensures stays { LeavesNoMore R.leaves rows.old rows.new }
{
    let versioning = versioning_of(rows, bucket)?;
    let version = version_row(
        alloc, next, bucket, key, versioning, number, moment, described, numbers,
    )?;
    put_row(rows, alloc, version)
}

/// Deletes a key of a bucket, which has to be there, without naming a version, by the rules of the bucket's versioning. The entry has
/// this number, which has to be above those of the key's versions, and this moment. A row that comes gets the rowid `next`. The
/// numbers are answered that the version named that goes.
pub fn delete<R: StoredRows>(
    rows: &mut R,
    alloc: Global,
    next: i64,
    bucket: &BucketName,
    key: &Key,
    number: u64,
    moment: Moment,
) -> Result<Vec<u64>, NoMemory>
    requires kept { AreKept next (R.tables rows.old) }
    requires there { IsTrue (has_bucket_row (R.tables rows.old).buckets bucket.now) }
    requires newer { (contents : Contents) → IsTrue (is_new_number number (versions_of (catalogue_of (encoding contents) (R.tables rows.old)) bucket.now key.now)) }
    ensures ok { IfOk result (λ gone. Steps (R.tables rows.old) (R.tables rows.new) (next +ℤ pos 1) bucket.now
        (λ _. KeyChanged key.now (KeyDeleted number moment)) gone.items []) }
    ensures err { OnErr result (R.tables rows.new ≡ R.tables rows.old) }
    ensures stays { LeavesNoMore R.leaves rows.old rows.new }
{
    let versioning = versioning_of(rows, bucket)?;
    match versioning {
        Versioning::Unversioned => drop_null(rows, alloc, next, bucket, key),
        Versioning::Enabled | Versioning::Suspended => {
            mark(rows, alloc, next, bucket, key, versioning, number, moment)
        }
    }
}

// Deletes a key of an unversioned bucket: drops the version `null`, if there is one.
fn drop_null<R: StoredRows>(
    rows: &mut R,
    alloc: Global,
    next: i64,
    bucket: &BucketName,
    key: &Key,
) -> Result<Vec<u64>, NoMemory>
    requires kept { AreKept next (R.tables rows.old) }
    ensures ok { IfOk result (λ gone. Steps (R.tables rows.old) (R.tables rows.new) next bucket.now
        (λ _. KeyChanged key.now (VersionDropped VersionId.Null)) gone.items []) }
    ensures err { OnErr result (R.tables rows.new ≡ R.tables rows.old) }
    ensures stays { LeavesNoMore R.leaves rows.old rows.new }
{
    let gone = rows.version(bucket.as_bytes(), key.as_bytes(), NULL)?;
    drop_row(rows, alloc, next, bucket, key, gone.as_ref())
}

// Takes out the row of the version `null` under a key, which is `gone`, if there is one. The numbers are answered that it named.
fn drop_row<R: StoredRows>(
    rows: &mut R,
    alloc: Global,
    next: i64,
    bucket: &BucketName,
    key: &Key,
    gone: Option<&StoredVersion>,
) -> Result<Vec<u64>, NoMemory>
    requires kept { AreKept next (R.tables rows.old) }
    requires gone { option_map version_columns (option_copied gone) ≡ version_of_id bucket.now key.now (id_column VersionId.Null) (R.tables rows.old) }
    ensures ok { IfOk result (λ numbers. Steps (R.tables rows.old) (R.tables rows.new) next bucket.now
        (λ _. KeyChanged key.now (VersionDropped VersionId.Null)) numbers.items []) }
    ensures err { OnErr result (R.tables rows.new ≡ R.tables rows.old) }
    ensures stays { LeavesNoMore R.leaves rows.old rows.new }
{
    let numbers = numbers_of(alloc, gone)?;
    drop_version(rows, next, bucket, key, VersionId::Null, gone)?;
    Ok(numbers)
}

// Deletes a key of a bucket that is not unversioned: puts the delete marker that the entry of this number makes.
fn mark<R: StoredRows>(
    rows: &mut R,
    alloc: Global,
    next: i64,
    bucket: &BucketName,
    key: &Key,
    versioning: Versioning,
    number: u64,
    moment: Moment,
) -> Result<Vec<u64>, NoMemory>
    requires kept { AreKept next (R.tables rows.old) }
    requires versioned { versioning ≢ Versioning.Unversioned }
    requires told { (contents : Contents) → versioning_of (catalogue_of (encoding contents) (R.tables rows.old)) bucket.now ≡ versioning }
    requires there { IsTrue (has_bucket_row (R.tables rows.old).buckets bucket.now) }
    requires newer { (contents : Contents) → IsTrue (is_new_number number (versions_of (catalogue_of (encoding contents) (R.tables rows.old)) bucket.now key.now)) }
    ensures ok { IfOk result (λ gone. Steps (R.tables rows.old) (R.tables rows.new) (next +ℤ pos 1) bucket.now
        (λ _. KeyChanged key.now (KeyDeleted number moment)) gone.items []) }
    ensures err { OnErr result (R.tables rows.new ≡ R.tables rows.old) }
    ensures stays { LeavesNoMore R.leaves rows.old rows.new }
{
    let marker = marker_row(alloc, next, bucket, key, versioning, number, moment)?;
    put_row(rows, alloc, marker)
}

// Puts in the row of a version, in the place of the one that has its id. The numbers are answered that this one named.
fn put_row<R: StoredRows>(
    rows: &mut R,
    alloc: Global,
    version: StoredVersion,
) -> Result<Vec<u64>, NoMemory>
    requires sound { AreSound (R.tables rows.old) }
    ensures ok { IfOk result (λ gone. IsPut (R.tables rows.old) (R.tables rows.new) (version_columns version) gone.items) }
    ensures err { OnErr result (R.tables rows.new ≡ R.tables rows.old) }
    ensures stays { LeavesNoMore R.leaves rows.old rows.new }
{
    let gone = rows.version(
        version.bucket.as_slice(),
        version.key.as_slice(),
        version.id,
    )?;
    put_in_place(rows, alloc, version, gone.as_ref())
}

// The same, where the row of the one that has its id is `gone`, if there is one.
fn put_in_place<R: StoredRows>(
    rows: &mut R,
    alloc: Global,
    version: StoredVersion,
    gone: Option<&StoredVersion>,
) -> Result<Vec<u64>, NoMemory>
    requires sound { AreSound (R.tables rows.old) }
    requires gone { option_map version_columns (option_copied gone) ≡ version_of_id version.bucket.items version.key.items version.id (R.tables rows.old) }
    ensures ok { IfOk result (λ numbers. IsPut (R.tables rows.old) (R.tables rows.new) (version_columns version) numbers.items) }
    ensures err { OnErr result (R.tables rows.new ≡ R.tables rows.old) }
    ensures stays { LeavesNoMore R.leaves rows.old rows.new }
{
    let numbers = numbers_of(alloc, gone)?;
    put_in(rows, alloc, version, row_of(gone))?;
    Ok(numbers)
}

// The numbers that a row names, if there is one.
fn numbers_of(alloc: Global, row: Option<&StoredVersion>) -> Result<Vec<u64>, NoMemory>
    ensures { IfOk result (λ numbers. numbers.items ≡ numbers_of version_numbers (option_map version_columns (option_copied row.entry))) }
{
    match row {
        None => Ok(Vec::new(alloc)),
        Some(row) => read_numbers(alloc, row.bodies.as_slice()),
    }
}

// The rowid of a row, if there is one.
fn row_of(row: Option<&StoredVersion>) -> Option<i64>
    ensures { result ≡ option_map version_row (option_map version_columns (option_copied row.entry)) }
{
    match row {
        None => None,
        Some(row) => Some(row.row),
    }
}

/// Drops the version of this id under a key, whose row is `gone`, if there is one.
pub fn drop_version<R: StoredRows>(
    rows: &mut R,
    next: i64,
    bucket: &BucketName,
    key: &Key,
    id: VersionId,
    gone: Option<&StoredVersion>,
) -> Result<(), NoMemory>
    requires kept { AreKept next (R.tables rows.old) }
    requires gone { option_map version_columns (option_copied gone) ≡ version_of_id bucket.now key.now (id_column id) (R.tables rows.old) }
    ensures ok { OnOk result (Steps (R.tables rows.old) (R.tables rows.new) next bucket.now
        (λ _. KeyChanged key.now (VersionDropped id)) (numbers_of version_numbers (option_map version_columns (option_copied gone.entry))) []) }
    ensures err { OnErr result (R.tables rows.new ≡ R.tables rows.old) }
    ensures stays { LeavesNoMore R.leaves rows.old rows.new }
{
    match gone {
        None => Ok(()),
        Some(row) => take_out(rows, bucket.as_bytes(), key.as_bytes(), row.id, row.row),
    }
}
