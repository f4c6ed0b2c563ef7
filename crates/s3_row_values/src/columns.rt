//! Columns of one number or one text, as they are written and read. `NoMemory` is the answer where a column can't be read.
ghost use Rattle.std.specs.Prelude.{◌≡◌, ◌≤◌, ◌^◌, pos, unsigned_abs, IfOk, OnErr};
ghost use Rattle.s3_columns.specs.Attributes.{content_type_in, metadata_in};
ghost use Rattle.s3_columns.specs.Columns as columns;
ghost use Rattle.s3_columns.specs.Numbers.{numbers_in};
ghost use Rattle.s3_names.specs.Ids.{as_part_number};
ghost use Rattle.s3_rows.specs.Finding.{id_column};

use s3_calendar::Moment;
use s3_columns::{Kept, read_kept, read_mode, read_tag, write_id, write_numbers};
use s3_names::{BucketName, Key, PartNumber, Tag, VersionId};
use s3_terms::NoMemory;
use s3_versions::Versioning;
use std::alloc::Global;

/// What stands in the column `marker` of a delete marker.
pub(crate) const MARKER: i64 = 1;

/// What stands there where a put stored the version.
pub(crate) const NO_MARKER: i64 = 0;

/// A number as an integer; `NoMemory` where it is 2^63 or more.
pub(crate) fn number_column(number: u64) -> Result<i64, NoMemory>
    ensures value { IfOk result (λ column. column ≡ pos number) }
    ensures refused { OnErr result (2 ^ 63 ≤ number) }
{
    match i64::try_from(number) {
        Ok(column) => Ok(column),
        Err(_) => Err(NoMemory),
    }
}

/// The integer that stands for the id of a version; `NoMemory` where its number is 2^63 or more.
#[tactic(auto, using(crate::proofs::MakingLemmas::same_id))]
pub(crate) fn version_id_column(id: VersionId) -> Result<i64, NoMemory>
    ensures { IfOk result (λ column. column ≡ id_column id) }
{
    match write_id(id) {
        Some(column) => Ok(column),
        None => Err(NoMemory),
    }
}

/// The column that names these numbers.
pub(crate) fn numbers_column(alloc: Global, numbers: &[u64]) -> Result<Vec<u8>, NoMemory>
    ensures { IfOk result (λ column. numbers_in column.items ≡ numbers.now) }
{
    let column = write_numbers(alloc, numbers)?;
    Ok(column)
}

/// A copy of these bytes.
pub(crate) fn copied(alloc: Global, bytes: &[u8]) -> Result<Vec<u8>, NoMemory>
    ensures { IfOk result (λ copied. copied.items ≡ bytes.now) }
{
    let copied = Vec::from_slice(alloc, bytes)?;
    Ok(copied)
}

/// The moment that a column says.
pub(crate) fn moment_in(column: i64) -> Result<Moment, NoMemory>
    ensures { IfOk result (λ moment. moment ≡ unsigned_abs column) }
{
    match Moment::new(column.unsigned_abs()) {
        Some(moment) => Ok(moment),
        None => Err(NoMemory),
    }
}

/// The versioning that a column says: unversioned where it says none.
pub(crate) fn versioning_in(column: i64) -> Versioning
    ensures { result ≡ columns.versioning_in column }
{
    match read_mode(column) {
        Some(versioning) => versioning,
        None => Versioning::Unversioned,
    }
}

/// The name of a bucket that a column has.
pub(crate) fn name_in(alloc: Global, column: &[u8]) -> Result<BucketName, NoMemory>
    ensures { IfOk result (λ name. name ≡ column.now) }
{
    match BucketName::read(alloc, column) {
        Ok(name) => Ok(name),
        Err(_) => Err(NoMemory),
    }
}

/// The key that a column has.
pub(crate) fn key_in(alloc: Global, column: &[u8]) -> Result<Key, NoMemory>
    ensures { IfOk result (λ key. key ≡ column.now) }
{
    match Key::read(alloc, column) {
        Ok(key) => Ok(key),
        Err(_) => Err(NoMemory),
    }
}

/// The entity tag that a column has.
pub(crate) fn tag_in(column: &[u8]) -> Result<Tag, NoMemory>
    ensures { IfOk result (λ tag. tag ≡ column.now) }
{
    match read_tag(column) {
        Some(tag) => Ok(tag),
        None => Err(NoMemory),
    }
}

/// The media type and the metadata that a column keeps.
pub(crate) fn kept_in(alloc: Global, column: &[u8]) -> Result<Kept, NoMemory>
    ensures content_type { IfOk result (λ kept. kept.content_type ≡ content_type_in column.now) }
    ensures metadata { IfOk result (λ kept. kept.metadata ≡ metadata_in column.now) }
{
    match read_kept(alloc, column) {
        Ok(Some(kept)) => Ok(kept),
        Ok(None) => Err(NoMemory),
        Err(failed) => Err(failed),
    }
}

/// The digest that a column has.
pub(crate) fn digest_in(column: &[u8]) -> Result<[u8; 16], NoMemory>
    ensures { IfOk result (λ digest. digest ≡ column.now) }
{
    match column.try_into() {
        Ok(digest) => Ok(digest),
        Err(_) => Err(NoMemory),
    }
}

/// The number of a part that a column says.
pub(crate) fn part_number_in(column: i64) -> Result<PartNumber, NoMemory>
    ensures { IfOk result (λ number. number ≡ unsigned_abs column) }
{
    match PartNumber::of(column.unsigned_abs()) {
        Some(number) => Ok(number),
        None => Err(NoMemory),
    }
}
