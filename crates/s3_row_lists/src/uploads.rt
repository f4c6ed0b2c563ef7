//! The open uploads of a bucket, by key and id.
ghost use Rattle.std.specs.Prelude.{◌≡◌, ◌&&◌, ◌++◌, ◌-◌, length, filter, map, take, pos, IfOk, OnOk};
ghost use Rattle.sqlite_keyed.specs.Lists.{sort_by};
ghost use Rattle.s3_records.specs.OpenUploads.{uploads_from};
ghost use Rattle.s3_records.specs.Rows.{is_from};
ghost use Rattle.s3_rows.specs.Finding.{is_upload_in};
ghost use Rattle.s3_rows.specs.ListLaws.{by_key_and_id, upload_listed};
ghost use Rattle.s3_rows.specs.Meaning.{catalogue_of};
ghost use Rattle.s3_rows.specs.Soundness.{AreSound};
ghost use Rattle.s3_stored_bodies.specs.Numbers.{Contents};
ghost use Rattle.s3_stored_rows.specs.Bodies.{encoding};
ghost use Rattle.s3_stored_rows.specs.Changes.{upload_columns};
ghost use Rattle.s3_stored_rows.specs.Leaving.{LeavesNoMore};
ghost use Rattle.s3_stored_rows.specs.Queries as asked;

use crate::finding::uploads_found;
use crate::numbers::{column_of, limit_of};
use s3_names::BucketName;
use s3_records::{Start, UploadRow, UploadStart};
use s3_row_values::upload_row_from;
use s3_stored_rows::{StoredRows, StoredUpload};
use s3_terms::NoMemory;
use std::alloc::Global;

/// The rows of the open uploads of a bucket from a place on, and at most so many, as `Records::uploads_from` tells them.
pub fn uploads_from<R: StoredRows>(
    rows: &mut R,
    alloc: Global,
    bucket: &BucketName,
    start: &UploadStart,
    most: usize,
) -> Result<Vec<UploadRow>, NoMemory>
    requires { AreSound (R.tables rows.old) }
    ensures value { (contents : Contents) → IfOk result (λ told. told.items
        ≡ take most (uploads_from (catalogue_of (encoding contents) (R.tables rows.old)) bucket.now start.now)) }
    ensures same { R.tables rows.new ≡ R.tables rows.old }
    ensures stays { LeavesNoMore R.leaves rows.old rows.new }
{
    match start {
        UploadStart::At(start) => uploads_at(rows, alloc, bucket.as_bytes(), start, most),
        UploadStart::BehindUpload(key, id) => {
            let bucket = bucket.as_bytes();
            uploads_past(rows, alloc, bucket, key.as_bytes(), id.number(), most)
        }
    }
}

// The rows of the uploads to the keys from a place on.
fn uploads_at<R: StoredRows>(
    rows: &mut R,
    alloc: Global,
    bucket: &[u8],
    start: &Start,
    most: usize,
) -> Result<Vec<UploadRow>, NoMemory>
    ensures value { IfOk result (λ told. told.items
        ≡ take most (map upload_listed (sort_by by_key_and_id (filter (λ u. is_upload_in bucket.now u && is_from start.now u.key) (R.tables rows.old).uploads)))) }
    ensures same { R.tables rows.new ≡ R.tables rows.old }
    ensures stays { LeavesNoMore R.leaves rows.old rows.new }
{
    let limit = limit_of(most)?;
    let found = uploads_found(rows, alloc, bucket, start, limit)?;
    uploads_told(alloc, &found)
}

// The rows of the uploads to a key whose ids are above one, and of those behind the key.
fn uploads_past<R: StoredRows>(
    rows: &mut R,
    alloc: Global,
    bucket: &[u8],
    key: &[u8],
    id: u64,
    most: usize,
) -> Result<Vec<UploadRow>, NoMemory>
    ensures value { IfOk result (λ told. told.items
        ≡ take most (map upload_listed (asked.uploads_above bucket.now key.now (pos id) (R.tables rows.old) ++ asked.uploads_behind bucket.now key.now (R.tables rows.old)))) }
    ensures same { R.tables rows.new ≡ R.tables rows.old }
    ensures stays { LeavesNoMore R.leaves rows.old rows.new }
{
    let mut told = above_told(rows, alloc, bucket, key, id, most)?;
    add_behind(rows, alloc, &mut told, bucket, key, most)?;
    Ok(told)
}

// The rows of the uploads to a key whose ids are above one.
fn above_told<R: StoredRows>(
    rows: &mut R,
    alloc: Global,
    bucket: &[u8],
    key: &[u8],
    id: u64,
    most: usize,
) -> Result<Vec<UploadRow>, NoMemory>
    ensures value { IfOk result (λ told. told.items
        ≡ take most (map upload_listed (asked.uploads_above bucket.now key.now (pos id) (R.tables rows.old)))) }
    ensures same { R.tables rows.new ≡ R.tables rows.old }
    ensures stays { LeavesNoMore R.leaves rows.old rows.new }
{
    let limit = limit_of(most)?;
    let found = found_above(rows, alloc, bucket, key, id, limit)?;
    uploads_told(alloc, &found)
}

// The uploads to a key whose ids are above one. An id of 2^63 or more is asked for as the greatest that a column has: where
// nothing is above that, nothing is above the id.
fn found_above<R: StoredRows>(
    rows: &mut R,
    alloc: Global,
    bucket: &[u8],
    key: &[u8],
    id: u64,
    limit: u32,
) -> Result<Vec<StoredUpload>, NoMemory>
    ensures value { IfOk result (λ all. map upload_columns all.items
        ≡ take limit (asked.uploads_above bucket.now key.now (pos id) (R.tables rows.old))) }
    ensures same { R.tables rows.new ≡ R.tables rows.old }
    ensures stays { LeavesNoMore R.leaves rows.old rows.new }
{
    match column_of(id) {
        Some(number) => rows.uploads_above(alloc, bucket, key, number, limit),
        None => {
            let found = rows.uploads_above(alloc, bucket, key, i64::MAX, limit)?;
            if found.is_empty() {
                Ok(found)
            } else {
                Err(NoMemory)
            }
        }
    }
}

// Adds the rows of the uploads behind a key, until there are so many.
fn add_behind<R: StoredRows>(
    rows: &mut R,
    alloc: Global,
    told: &mut Vec<UploadRow>,
    bucket: &[u8],
    key: &[u8],
    most: usize,
) -> Result<(), NoMemory>
    ensures value { OnOk result (told.new.items
        ≡ told.old.items ++ take (most - length told.old.items) (map upload_listed (asked.uploads_behind bucket.now key.now (R.tables rows.old)))) }
    ensures same { R.tables rows.new ≡ R.tables rows.old }
    ensures stays { LeavesNoMore R.leaves rows.old rows.new }
{
    let limit = limit_of(most.saturating_sub(told.len()))?;
    let found = rows.uploads_behind(alloc, bucket, key, limit)?;
    add_told(alloc, told, &found)
}

// What a list tells of these uploads.
fn uploads_told(alloc: Global, found: &[StoredUpload]) -> Result<Vec<UploadRow>, NoMemory>
    ensures { IfOk result (λ told. told.items ≡ map (λ (u : StoredUpload). upload_listed (upload_columns u)) found.now) }
{
    let mut told = Vec::new(alloc);
    add_told(alloc, &mut told, found)?;
    Ok(told)
}

// Adds what a list tells of these uploads.
fn add_told(
    alloc: Global,
    told: &mut Vec<UploadRow>,
    found: &[StoredUpload],
) -> Result<(), NoMemory>
    ensures { OnOk result (told.new.items ≡ told.old.items ++ map (λ (u : StoredUpload). upload_listed (upload_columns u)) found.now) }
{
    for row in found {
        told.push(upload_row_from(alloc, row)?)?;
    }
    Ok(())
}
