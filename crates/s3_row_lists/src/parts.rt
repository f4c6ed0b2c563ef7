//! The parts of an upload, by number.
ghost use Rattle.std.specs.Prelude.{◌≡◌, ◌≤◌, ◌^◌, ◌&&◌, filter, find, map, option_map, pos, take, IfOk};
ghost use Rattle.sqlite_keyed.specs.Lists.{sort_by};
ghost use Rattle.s3_uploads.specs.Parts.{rows_behind};
ghost use Rattle.s3_records.specs.OpenUploads.{parts_at};
ghost use Rattle.s3_rows.specs.Columns.{UploadColumns};
ghost use Rattle.s3_rows.specs.Finding.{is_upload, is_sent_to, by_part};
ghost use Rattle.s3_rows.specs.ListLaws.{part_told, is_part_above};
ghost use Rattle.s3_rows.specs.Meaning.{catalogue_of};
ghost use Rattle.s3_rows.specs.Soundness.{AreSound};
ghost use Rattle.s3_stored_bodies.specs.Numbers.{Contents};
ghost use Rattle.s3_stored_rows.specs.Bodies.{encoding};
ghost use Rattle.s3_stored_rows.specs.Changes.{part_columns};
ghost use Rattle.s3_stored_rows.specs.Leaving.{LeavesNoMore};

use crate::numbers::{column_of, limit_of};
use s3_names::{BucketName, Key, UploadId};
use s3_row_values::part_row_from;
use s3_stored_rows::{StoredPart, StoredRows};
use s3_terms::NoMemory;
use s3_uploads::PartRow;
use std::alloc::Global;

/// The rows of the parts of an upload whose numbers are above `last`, and at most so many, as `Records::parts_from` tells them.
pub fn parts_from<R: StoredRows>(
    rows: &mut R,
    alloc: Global,
    bucket: &BucketName,
    key: &Key,
    id: UploadId,
    last: u64,
    most: usize,
) -> Result<Vec<PartRow>, NoMemory>
    requires { AreSound (R.tables rows.old) }
    ensures value { (contents : Contents) → IfOk result (λ told. told.items
        ≡ take most (rows_behind last (parts_at (catalogue_of (encoding contents) (R.tables rows.old)) bucket.now key.now id))) }
    ensures same { R.tables rows.new ≡ R.tables rows.old }
    ensures stays { LeavesNoMore R.leaves rows.old rows.new }
{
    match row_of_upload(rows, alloc, bucket.as_bytes(), key.as_bytes(), id.number())? {
        None => Ok(Vec::new(alloc)),
        Some(upload) => parts_above(rows, alloc, upload, last, most),
    }
}

// The row of the upload of an id to a key.
fn row_of_upload<R: StoredRows>(
    rows: &mut R,
    alloc: Global,
    bucket: &[u8],
    key: &[u8],
    id: u64,
) -> Result<Option<i64>, NoMemory>
    ensures value { IfOk result (λ row. row
        ≡ option_map (λ (u : UploadColumns). u.row) (find (is_upload bucket.now key.now (pos id)) (R.tables rows.old).uploads)) }
    ensures same { R.tables rows.new ≡ R.tables rows.old }
    ensures stays { LeavesNoMore R.leaves rows.old rows.new }
{
    match column_of(id) {
        Some(column) => stored_row(rows, bucket, key, column),
        None => large_row(rows, alloc, bucket, key, id),
    }
}

// The row of the upload whose column of the id is this, to a key.
fn stored_row<R: StoredRows>(
    rows: &mut R,
    bucket: &[u8],
    key: &[u8],
    column: i64,
) -> Result<Option<i64>, NoMemory>
    ensures value { IfOk result (λ row. row
        ≡ option_map (λ (u : UploadColumns). u.row) (find (is_upload bucket.now key.now column) (R.tables rows.old).uploads)) }
    ensures same { R.tables rows.new ≡ R.tables rows.old }
    ensures stays { LeavesNoMore R.leaves rows.old rows.new }
{
    match rows.upload(bucket, key, column)? {
        None => Ok(None),
        Some(upload) => Ok(Some(upload.row)),
    }
}

// The row of the upload of an id that no column has: none, where nothing is above the greatest that a column has.
fn large_row<R: StoredRows>(
    rows: &mut R,
    alloc: Global,
    bucket: &[u8],
    key: &[u8],
    id: u64,
) -> Result<Option<i64>, NoMemory>
    requires { 2 ^ 63 ≤ id }
    ensures value { IfOk result (λ row. row
        ≡ option_map (λ (u : UploadColumns). u.row) (find (is_upload bucket.now key.now (pos id)) (R.tables rows.old).uploads)) }
    ensures same { R.tables rows.new ≡ R.tables rows.old }
    ensures stays { LeavesNoMore R.leaves rows.old rows.new }
{
    let found = rows.uploads_above(alloc, bucket, key, i64::MAX, 1)?;
    if found.is_empty() {
        Ok(None)
    } else {
        Err(NoMemory)
    }
}

// The same, of the upload in a row. No part has a number of 2^63 or more.
fn parts_above<R: StoredRows>(
    rows: &mut R,
    alloc: Global,
    upload: i64,
    last: u64,
    most: usize,
) -> Result<Vec<PartRow>, NoMemory>
    requires { AreSound (R.tables rows.old) }
    ensures value { (contents : Contents) → IfOk result (λ told. told.items
        ≡ take most (map (part_told (encoding contents)) (sort_by by_part (filter (λ p. is_sent_to upload p && is_part_above last p) (R.tables rows.old).parts)))) }
    ensures same { R.tables rows.new ≡ R.tables rows.old }
    ensures stays { LeavesNoMore R.leaves rows.old rows.new }
{
    let Some(number) = column_of(last) else {
        return Ok(Vec::new(alloc));
    };
    let limit = limit_of(most)?;
    let found = rows.parts_above(alloc, upload, number, limit)?;
    parts_told(alloc, &found)
}

// What a list tells of these parts.
fn parts_told(alloc: Global, found: &[StoredPart]) -> Result<Vec<PartRow>, NoMemory>
    ensures { (contents : Contents) → IfOk result (λ told. told.items
        ≡ map (λ (p : StoredPart). part_told (encoding contents) (part_columns p)) found.now) }
{
    let mut told = Vec::new(alloc);
    for row in found {
        told.push(part_row_from(row)?)?;
    }
    Ok(told)
}
