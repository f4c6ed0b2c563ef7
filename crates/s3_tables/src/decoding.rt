//! What the rows of an answer say.

ghost use Rattle.std.specs.Prelude.{◌≡◌, IfOk, is_some, option_map, map, slice_get};
ghost use Rattle.s3_tables.specs.Stored.{int_at};
ghost use Rattle.s3_stored_rows.specs.Changes.{bucket_columns, version_columns, upload_columns, part_columns, store_columns};
ghost use Rattle.s3_tables.specs.Reading.{bucket_shown, version_shown, upload_shown, part_shown, store_shown};

use s3_stored_rows::{StoreNumbers, StoredBucket, StoredPart, StoredUpload, StoredVersion};
use sqlite::{Error, Row};
use std::alloc::Global;

fn bucket_from(row: &Row) -> Result<StoredBucket, Error>
    ensures { IfOk result (λ x. bucket_columns x ≡ bucket_shown row.now) }
{
    Ok(StoredBucket {
        row: row.get(0)?,
        made: row.get(2)?,
        mode: row.get(3)?,
        name: row.get(1)?,
    })
}

/// What the first row says, if there is one.
pub(crate) fn first_bucket(rows: &[Row]) -> Result<Option<StoredBucket>, Error>
    ensures { IfOk result (λ found. option_map bucket_columns found ≡ option_map bucket_shown (slice_get rows.now 0)) }
{
    match rows {
        [] => Ok(None),
        [row, ..] => Ok(Some(bucket_from(row)?)),
    }
}

/// What each row says.
pub(crate) fn all_buckets(alloc: Global, rows: &[Row]) -> Result<Vec<StoredBucket>, Error>
    ensures { IfOk result (λ all. map bucket_columns all.items ≡ map bucket_shown rows.now) }
{
    let mut all = Vec::new(alloc);
    for row in rows {
        all.push(bucket_from(row)?)?;
    }
    Ok(all)
}

// The numbers of a version.
#[derive(Clone, Copy)]
struct Numbers {
    row: i64,
    number: i64,
    id: i64,
    moment: i64,
    marker: i64,
    size: i64,
}

fn numbers_from(row: &Row) -> Result<Numbers, Error>
    ensures { IfOk result (λ n. (n.row ≡ int_at row.now 0) × (n.number ≡ int_at row.now 3) × (n.id ≡ int_at row.now 4) × (n.moment ≡ int_at row.now 5) × (n.marker ≡ int_at row.now 6) × (n.size ≡ int_at row.now 9)) }
{
    Ok(Numbers {
        row: row.get(0)?,
        number: row.get(3)?,
        id: row.get(4)?,
        moment: row.get(5)?,
        marker: row.get(6)?,
        size: row.get(9)?,
    })
}

fn version_from(row: &Row) -> Result<StoredVersion, Error>
    ensures { IfOk result (λ x. version_columns x ≡ version_shown row.now) }
{
    let numbers = numbers_from(row)?;
    Ok(StoredVersion {
        row: numbers.row,
        number: numbers.number,
        id: numbers.id,
        moment: numbers.moment,
        marker: numbers.marker,
        size: numbers.size,
        bucket: row.get(1)?,
        key: row.get(2)?,
        tag: row.get(7)?,
        kept: row.get(8)?,
        bodies: row.get(10)?,
    })
}

/// What the first row says, if there is one.
pub(crate) fn first_version(rows: &[Row]) -> Result<Option<StoredVersion>, Error>
    ensures { IfOk result (λ found. option_map version_columns found ≡ option_map version_shown (slice_get rows.now 0)) }
{
    match rows {
        [] => Ok(None),
        [row, ..] => Ok(Some(version_from(row)?)),
    }
}

/// What each row says.
pub(crate) fn all_versions(alloc: Global, rows: &[Row]) -> Result<Vec<StoredVersion>, Error>
    ensures { IfOk result (λ all. map version_columns all.items ≡ map version_shown rows.now) }
{
    let mut all = Vec::new(alloc);
    for row in rows {
        all.push(version_from(row)?)?;
    }
    Ok(all)
}

fn upload_from(row: &Row) -> Result<StoredUpload, Error>
    ensures { IfOk result (λ x. upload_columns x ≡ upload_shown row.now) }
{
    Ok(StoredUpload {
        row: row.get(0)?,
        id: row.get(3)?,
        moment: row.get(4)?,
        bucket: row.get(1)?,
        key: row.get(2)?,
        kept: row.get(5)?,
    })
}

/// What the first row says, if there is one.
pub(crate) fn first_upload(rows: &[Row]) -> Result<Option<StoredUpload>, Error>
    ensures { IfOk result (λ found. option_map upload_columns found ≡ option_map upload_shown (slice_get rows.now 0)) }
{
    match rows {
        [] => Ok(None),
        [row, ..] => Ok(Some(upload_from(row)?)),
    }
}

/// What each row says.
pub(crate) fn all_uploads(alloc: Global, rows: &[Row]) -> Result<Vec<StoredUpload>, Error>
    ensures { IfOk result (λ all. map upload_columns all.items ≡ map upload_shown rows.now) }
{
    let mut all = Vec::new(alloc);
    for row in rows {
        all.push(upload_from(row)?)?;
    }
    Ok(all)
}

fn part_from(row: &Row) -> Result<StoredPart, Error>
    ensures { IfOk result (λ x. part_columns x ≡ part_shown row.now) }
{
    Ok(StoredPart {
        row: row.get(0)?,
        upload: row.get(1)?,
        part: row.get(2)?,
        moment: row.get(4)?,
        size: row.get(5)?,
        digest: row.get(3)?,
        bodies: row.get(6)?,
    })
}

/// What the first row says, if there is one.
pub(crate) fn first_part(rows: &[Row]) -> Result<Option<StoredPart>, Error>
    ensures { IfOk result (λ found. option_map part_columns found ≡ option_map part_shown (slice_get rows.now 0)) }
{
    match rows {
        [] => Ok(None),
        [row, ..] => Ok(Some(part_from(row)?)),
    }
}

/// What each row says.
pub(crate) fn all_parts(alloc: Global, rows: &[Row]) -> Result<Vec<StoredPart>, Error>
    ensures { IfOk result (λ all. map part_columns all.items ≡ map part_shown rows.now) }
{
    let mut all = Vec::new(alloc);
    for row in rows {
        all.push(part_from(row)?)?;
    }
    Ok(all)
}

fn store_from(row: &Row) -> Result<StoreNumbers, Error>
    ensures { IfOk result (λ x. store_columns x ≡ store_shown row.now) }
{
    Ok(StoreNumbers {
        row: row.get(0)?,
        form: row.get(1)?,
        number: row.get(2)?,
    })
}

/// What the first row says, if there is one.
pub(crate) fn first_store(rows: &[Row]) -> Result<Option<StoreNumbers>, Error>
    ensures { IfOk result (λ found. option_map store_columns found ≡ option_map store_shown (slice_get rows.now 0)) }
{
    match rows {
        [] => Ok(None),
        [row, ..] => Ok(Some(store_from(row)?)),
    }
}

/// What each row says.
pub(crate) fn all_stores(alloc: Global, rows: &[Row]) -> Result<Vec<StoreNumbers>, Error>
    ensures { IfOk result (λ all. map store_columns all.items ≡ map store_shown rows.now) }
{
    let mut all = Vec::new(alloc);
    for row in rows {
        all.push(store_from(row)?)?;
    }
    Ok(all)
}

/// Whether there is a row.
pub(crate) fn has_row(rows: &[Row]) -> bool
    ensures { result ≡ is_some (slice_get rows.now 0) }
{
    match rows {
        [] => false,
        [_, ..] => true,
    }
}
