//! The parts that were found.
ghost use Rattle.std.specs.Prelude.{◌≡◌, ◌<ℤ◌, List, [], ◌∷◌, ◌++◌, map, IsTrue, IfOk, OnOk};
ghost use Rattle.std.specs.List.{flat_map};
ghost use Rattle.sqlite_keyed.specs.Keyed.{has_key};
ghost use Rattle.s3_rows.specs.Columns.{UploadColumns};
ghost use Rattle.s3_rows.specs.Soundness.{upload_row, part_row, is_part_row};
ghost use Rattle.s3_stored_rows.specs.Bodies.{part_numbers};
ghost use Rattle.s3_stored_rows.specs.Changes.{part_columns};
ghost use Rattle.s3_found_rows.specs.Fitting.{part_fits};
ghost use Rattle.s3_found_rows.specs.Order.{IsFilled};

use crate::naming::{is_count, reversed, take_numbers};
use s3_storage::StorageFault;
use s3_stored_rows::{Change, StoredPart, StoredRows};
use std::alloc::Global;

/// The highest number of a part.
const LAST_PART: i64 = 10_000;

/// Puts the parts that were found into rows that have none, and their numbers of bodies behind these. The uploads are in the rows with
/// these rowids. Answers a rowid above which there is none.
pub(crate) fn put_parts<R: StoredRows>(
    alloc: Global,
    rows: &mut R,
    found: Vec<StoredPart>,
    uploads: &[i64],
    bodies: &mut Vec<u64>,
) -> Result<i64, StorageFault>
    requires none { (R.tables rows.old).parts ≡ [] }
    requires uploads { uploads.now ≡ map upload_row (R.tables rows.old).uploads }
    ensures rows { IfOk result (λ _. R.tables rows.new ≡ record (R.tables rows.old) { parts = map part_columns found.items }) }
    ensures filled { IfOk result (λ last. IsFilled part_row last (part_fits (R.tables rows.old).uploads) (map part_columns found.items)) }
    ensures bodies { IfOk result (λ _. bodies.new.items ≡ bodies.old.items ++ flat_map part_numbers (map part_columns found.items)) }
{
    let mut last = i64::MIN;
    let mut left = reversed(found);
    while let Some(part) = left.pop() {
        let row = part.row;
        put_part(alloc, rows, part, last, uploads, bodies)?;
        last = row;
    }
    Ok(last)
}

// Puts a part behind the ones that stand, and its numbers of bodies behind these.
fn put_part<R: StoredRows>(
    alloc: Global,
    rows: &mut R,
    part: StoredPart,
    last: i64,
    uploads: &[i64],
    bodies: &mut Vec<u64>,
) -> Result<(), StorageFault>
    requires filled { IsFilled part_row last (part_fits (R.tables rows.old).uploads) (R.tables rows.old).parts }
    requires uploads { uploads.now ≡ map upload_row (R.tables rows.old).uploads }
    ensures rows { OnOk result (R.tables rows.new ≡ record (R.tables rows.old) { parts = (R.tables rows.old).parts ++ part_columns part ∷ [] }) }
    ensures filled { OnOk result (IsFilled part_row part.row (part_fits (R.tables rows.old).uploads) ((R.tables rows.old).parts ++ part_columns part ∷ [])) }
    ensures bodies { OnOk result (bodies.new.items ≡ bodies.old.items ++ part_numbers (part_columns part)) }
{
    check_part(&part, last, uploads)?;
    take_numbers(alloc, &part.bodies, bodies)?;
    rows.apply(&[Change::AddPart(part)])?;
    Ok(())
}

// Whether a part may stand behind the ones that stand, where the last one has this rowid, and the uploads have these.
fn check_part(part: &StoredPart, last: i64, uploads: &[i64]) -> Result<(), StorageFault>
    ensures later { OnOk result (last <ℤ part.now.row) }
    ensures fits { (us : List UploadColumns) → uploads.now ≡ map upload_row us → OnOk result (IsTrue (part_fits us (part_columns part.now))) }
{
    if part.row <= last {
        return Err(StorageFault::Damaged);
    }
    if !is_part_sound(part) {
        return Err(StorageFault::Damaged);
    }
    if !has_upload(uploads, part.upload) {
        return Err(StorageFault::Damaged);
    }
    Ok(())
}

// Whether an upload has this rowid, where these are the rowids of all, and rise.
fn has_upload(uploads: &[i64], row: i64) -> bool
    ensures { (us : List UploadColumns) → uploads.now ≡ map upload_row us → IsTrue result → IsTrue (has_key upload_row us row) }
{
    match uploads.binary_search(&row) {
        Ok(_) => true,
        Err(_) => false,
    }
}

// Whether the integers of a part are in range.
fn is_part_sound(part: &StoredPart) -> bool
    ensures { result ≡ is_part_row (part_columns part.now) }
{
    (part.part >= 1 && part.part <= LAST_PART) && (is_count(part.moment) && is_count(part.size))
}
