//! The versions of a bucket, by key and newest first.
ghost use Rattle.std.specs.Prelude.{◌≡◌, ◌&&◌, ◌++◌, ◌-◌, None, length, filter, find, map, option_map, pos, take, false, IfOk, OnOk};
ghost use Rattle.sqlite_keyed.specs.Lists.{sort_by};
ghost use Rattle.s3_records.specs.Catalogue.{versions_of};
ghost use Rattle.s3_records.specs.Rows.{is_from, behind_version, version_row, versions_from};
ghost use Rattle.s3_rows.specs.Columns.{VersionColumns};
ghost use Rattle.s3_rows.specs.Finding.{id_column, is_in, is_version};
ghost use Rattle.s3_rows.specs.Meaning.{version_of, catalogue_of};
ghost use Rattle.s3_rows.specs.Soundness.{AreSound};
ghost use Rattle.s3_rows.specs.VersionListLaws.{by_key_and_number, versions_listed};
ghost use Rattle.s3_stored_bodies.specs.Numbers.{Contents};
ghost use Rattle.s3_stored_rows.specs.Bodies.{encoding};
ghost use Rattle.s3_stored_rows.specs.Changes.{version_columns};
ghost use Rattle.s3_stored_rows.specs.Leaving.{LeavesNoMore};
ghost use Rattle.s3_stored_rows.specs.Queries as asked;

use crate::finding::versions_found;
use crate::last_key::is_last;
use crate::numbers::{column_of, is_below, limit_of};
use s3_names::{BucketName, VersionId};
use s3_records::{Start, VersionRow, VersionStart};
use s3_row_values::version_row_from;
use s3_stored_rows::{StoredRows, StoredVersion};
use s3_terms::NoMemory;
use std::alloc::Global;

/// The rows of the versions of a bucket from a place on, and at most so many, as `Records::versions_from` tells them.
pub fn versions_from<R: StoredRows>(
    rows: &mut R,
    alloc: Global,
    bucket: &BucketName,
    start: &VersionStart,
    most: usize,
) -> Result<Vec<VersionRow>, NoMemory>
    requires { AreSound (R.tables rows.old) }
    ensures value { (contents : Contents) → IfOk result (λ told. told.items
        ≡ take most (versions_from (catalogue_of (encoding contents) (R.tables rows.old)) bucket.now start.now)) }
    ensures same { R.tables rows.new ≡ R.tables rows.old }
    ensures stays { LeavesNoMore R.leaves rows.old rows.new }
{
    match start {
        VersionStart::At(start) => versions_at(rows, alloc, bucket.as_bytes(), start, most),
        VersionStart::BehindVersion(key, id) => {
            let bucket = bucket.as_bytes();
            versions_past(rows, alloc, bucket, key.as_bytes(), *id, most)
        }
    }
}

// The rows of the versions under the keys from a place on.
fn versions_at<R: StoredRows>(
    rows: &mut R,
    alloc: Global,
    bucket: &[u8],
    start: &Start,
    most: usize,
) -> Result<Vec<VersionRow>, NoMemory>
    ensures value { (contents : Contents) → IfOk result (λ told. told.items
        ≡ take most (versions_listed (encoding contents) None (sort_by by_key_and_number (filter (λ v. is_in bucket.now v && is_from start.now v.key) (R.tables rows.old).versions)))) }
    ensures same { R.tables rows.new ≡ R.tables rows.old }
    ensures stays { LeavesNoMore R.leaves rows.old rows.new }
{
    let limit = limit_of(most)?;
    let found = versions_found(rows, alloc, bucket, start, limit)?;
    let mut told = Vec::new(alloc);
    add_told(alloc, &mut told, &found)?;
    Ok(told)
}

// The rows of the versions behind the one of an id under a key, and of those behind the key.
fn versions_past<R: StoredRows>(
    rows: &mut R,
    alloc: Global,
    bucket: &[u8],
    key: &[u8],
    id: VersionId,
    most: usize,
) -> Result<Vec<VersionRow>, NoMemory>
    requires { AreSound (R.tables rows.old) }
    ensures value { (contents : Contents) → IfOk result (λ told. told.items
        ≡ take most (map (version_row key.now false) (behind_version id (versions_of (catalogue_of (encoding contents) (R.tables rows.old)) bucket.now key.now))
        ++ versions_listed (encoding contents) None (asked.versions_behind bucket.now key.now (R.tables rows.old)))) }
    ensures same { R.tables rows.new ≡ R.tables rows.old }
    ensures stays { LeavesNoMore R.leaves rows.old rows.new }
{
    let mut told = older_found(rows, alloc, bucket, key, id, most)?;
    add_behind(rows, alloc, &mut told, bucket, key, most)?;
    Ok(told)
}

// The rows of the versions behind the one of an id under a key.
fn older_found<R: StoredRows>(
    rows: &mut R,
    alloc: Global,
    bucket: &[u8],
    key: &[u8],
    id: VersionId,
    most: usize,
) -> Result<Vec<VersionRow>, NoMemory>
    requires { AreSound (R.tables rows.old) }
    ensures value { (contents : Contents) → IfOk result (λ told. told.items
        ≡ take most (map (version_row key.now false) (behind_version id (versions_of (catalogue_of (encoding contents) (R.tables rows.old)) bucket.now key.now)))) }
    ensures same { R.tables rows.new ≡ R.tables rows.old }
    ensures stays { LeavesNoMore R.leaves rows.old rows.new }
{
    match number_of(rows, bucket, key, id)? {
        None => Ok(Vec::new(alloc)),
        Some(number) => below_told(rows, alloc, bucket, key, number, most),
    }
}

// The number of the version of an id under a key.
fn number_of<R: StoredRows>(
    rows: &mut R,
    bucket: &[u8],
    key: &[u8],
    id: VersionId,
) -> Result<Option<i64>, NoMemory>
    requires { AreSound (R.tables rows.old) }
    ensures value { IfOk result (λ number. number
        ≡ option_map (λ (v : VersionColumns). v.number) (find (is_version bucket.now key.now (id_column id)) (R.tables rows.old).versions)) }
    ensures same { R.tables rows.new ≡ R.tables rows.old }
    ensures stays { LeavesNoMore R.leaves rows.old rows.new }
{
    match id {
        VersionId::Null => stored_number(rows, bucket, key, -1),
        VersionId::Numbered(number) => match column_of(number) {
            Some(column) => stored_number(rows, bucket, key, column),
            None => large_number(rows, bucket, key, number),
        },
    }
}

// The number of the version whose column of the id is this, under a key.
fn stored_number<R: StoredRows>(
    rows: &mut R,
    bucket: &[u8],
    key: &[u8],
    column: i64,
) -> Result<Option<i64>, NoMemory>
    ensures value { IfOk result (λ number. number
        ≡ option_map (λ (v : VersionColumns). v.number) (find (is_version bucket.now key.now column) (R.tables rows.old).versions)) }
    ensures same { R.tables rows.new ≡ R.tables rows.old }
    ensures stays { LeavesNoMore R.leaves rows.old rows.new }
{
    match rows.version(bucket, key, column)? {
        None => Ok(None),
        Some(version) => Ok(Some(version.number)),
    }
}

// The number of the version of an id that no column has: none, since the newest version under the key has a number below it.
fn large_number<R: StoredRows>(
    rows: &mut R,
    bucket: &[u8],
    key: &[u8],
    id: u64,
) -> Result<Option<i64>, NoMemory>
    requires { AreSound (R.tables rows.old) }
    ensures value { IfOk result (λ number. number
        ≡ option_map (λ (v : VersionColumns). v.number) (find (is_version bucket.now key.now (pos id)) (R.tables rows.old).versions)) }
    ensures same { R.tables rows.new ≡ R.tables rows.old }
    ensures stays { LeavesNoMore R.leaves rows.old rows.new }
{
    match newest_number(rows, bucket, key)? {
        None => Ok(None),
        Some(newest) => {
            if is_below(newest, id) {
                Ok(None)
            } else {
                Err(NoMemory)
            }
        }
    }
}

// The number of the newest version under a key.
fn newest_number<R: StoredRows>(
    rows: &mut R,
    bucket: &[u8],
    key: &[u8],
) -> Result<Option<i64>, NoMemory>
    ensures value { IfOk result (λ number. number
        ≡ option_map (λ (v : VersionColumns). v.number) (asked.newest_version bucket.now key.now (R.tables rows.old))) }
    ensures same { R.tables rows.new ≡ R.tables rows.old }
    ensures stays { LeavesNoMore R.leaves rows.old rows.new }
{
    match rows.newest(bucket, key)? {
        None => Ok(None),
        Some(version) => Ok(Some(version.number)),
    }
}

// The rows of the versions under a key whose numbers are below one.
fn below_told<R: StoredRows>(
    rows: &mut R,
    alloc: Global,
    bucket: &[u8],
    key: &[u8],
    number: i64,
    most: usize,
) -> Result<Vec<VersionRow>, NoMemory>
    ensures value { (contents : Contents) → IfOk result (λ told. told.items
        ≡ take most (map (λ (v : VersionColumns). version_row v.key false (version_of (encoding contents) v)) (asked.versions_below bucket.now key.now number (R.tables rows.old)))) }
    ensures same { R.tables rows.new ≡ R.tables rows.old }
    ensures stays { LeavesNoMore R.leaves rows.old rows.new }
{
    let limit = limit_of(most)?;
    let found = rows.versions_below(alloc, bucket, key, number, limit)?;
    older_told(alloc, &found)
}

// Adds the rows of the versions behind a key, until there are so many.
fn add_behind<R: StoredRows>(
    rows: &mut R,
    alloc: Global,
    told: &mut Vec<VersionRow>,
    bucket: &[u8],
    key: &[u8],
    most: usize,
) -> Result<(), NoMemory>
    ensures value { (contents : Contents) → OnOk result (told.new.items
        ≡ told.old.items ++ take (most - length told.old.items) (versions_listed (encoding contents) None (asked.versions_behind bucket.now key.now (R.tables rows.old)))) }
    ensures same { R.tables rows.new ≡ R.tables rows.old }
    ensures stays { LeavesNoMore R.leaves rows.old rows.new }
{
    let limit = limit_of(most.saturating_sub(told.len()))?;
    let found = rows.versions_behind(alloc, bucket, key, limit)?;
    add_told(alloc, told, &found)
}

// What a list tells of these versions, none of which is the current one.
fn older_told(alloc: Global, found: &[StoredVersion]) -> Result<Vec<VersionRow>, NoMemory>
    ensures { (contents : Contents) → IfOk result (λ told. told.items
        ≡ map (λ (v : StoredVersion). version_row v.key.items false (version_of (encoding contents) (version_columns v))) found.now) }
{
    let mut told = Vec::new(alloc);
    for row in found {
        told.push(version_row_from(alloc, false, row)?)?;
    }
    Ok(told)
}

// Adds what a list tells of these versions, of which the first of each key is the current one.
fn add_told(
    alloc: Global,
    told: &mut Vec<VersionRow>,
    found: &[StoredVersion],
) -> Result<(), NoMemory>
    ensures { (contents : Contents) → OnOk result (told.new.items
        ≡ told.old.items ++ versions_listed (encoding contents) None (map version_columns found.now)) }
{
    let mut last = None;
    for row in found {
        let is_latest = !is_last(last, &row.key);
        told.push(version_row_from(alloc, is_latest, row)?)?;
        last = Some(row.key.as_slice());
    }
    Ok(())
}
