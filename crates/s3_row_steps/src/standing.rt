//! What stands in the rows that a change takes out.
ghost use Rattle.std.specs.Prelude.{◌≡◌, IfOk, map, option_map};
ghost use Rattle.std.specs.List.{flat_map};
ghost use Rattle.std.specs.Option.{option_copied};
ghost use Rattle.s3_rows.specs.Soundness.{version_row};
ghost use Rattle.s3_stored_rows.specs.Bodies.{version_numbers, part_numbers};
ghost use Rattle.s3_stored_rows.specs.Changes.{version_columns, part_columns};
ghost use Rattle.s3_stored_rows.specs.Leaving.{LeavesNoMore};
ghost use Rattle.s3_stored_rows.specs.Queries.{version_of_id};
ghost use Rattle.s3_row_changes.specs.Trading.{numbers_of};

use s3_columns::read_numbers;
use s3_row_changes::UploadRows;
use s3_stored_rows::{StoredPart, StoredRows, StoredVersion};
use s3_terms::NoMemory;
use std::alloc::Global;

/// The version that another one replaces: the rowid of its row, if there is one, and the numbers of bodies that it names.
#[derive(Drop)]
pub struct GoneVersion {
    pub row: Option<i64>,
    pub numbers: Vec<u64>,
}

/// What the row of a version replaces.
pub fn replaced<R: StoredRows>(
    rows: &mut R,
    alloc: Global,
    version: &StoredVersion,
) -> Result<GoneVersion, NoMemory>
    ensures row { IfOk result (λ gone. option_map version_row (version_of_id version.now.bucket.items version.now.key.items version.now.id (R.tables rows.old)) ≡ gone.row) }
    ensures numbers { IfOk result (λ gone. gone.numbers.items ≡ numbers_of version_numbers (version_of_id version.now.bucket.items version.now.key.items version.now.id (R.tables rows.old))) }
    ensures same { R.tables rows.new ≡ R.tables rows.old }
    ensures stays { LeavesNoMore R.leaves rows.old rows.new }
{
    match rows.version(&version.bucket, &version.key, version.id)? {
        Some(gone) => Ok(GoneVersion {
            row: Some(gone.row),
            numbers: read_numbers(alloc, &gone.bodies)?,
        }),
        None => Ok(GoneVersion {
            row: None,
            numbers: Vec::new(alloc),
        }),
    }
}

/// The numbers that the parts of an upload name, if there is one.
pub fn numbers_sent(alloc: Global, gone: Option<&UploadRows>) -> Result<Vec<u64>, NoMemory>
    ensures { IfOk result (λ numbers. numbers.items
        ≡ numbers_of (λ (u : UploadRows). flat_map part_numbers (map part_columns u.parts.items)) (option_copied gone.entry)) }
{
    match gone {
        Some(gone) => numbers_in_parts(alloc, &gone.parts),
        None => Ok(Vec::new(alloc)),
    }
}

// The numbers that parts name.
fn numbers_in_parts(alloc: Global, parts: &[StoredPart]) -> Result<Vec<u64>, NoMemory>
    ensures { IfOk result (λ numbers. numbers.items ≡ flat_map part_numbers (map part_columns parts.now)) }
{
    let mut numbers = Vec::new(alloc);
    for part in parts {
        let more = read_numbers(alloc, &part.bodies)?;
        numbers.extend_from_slice(&more)?;
    }
    Ok(numbers)
}
