//! The numbers of bodies that rows name.
ghost use Rattle.std.specs.Prelude.{◌≡◌, IfOk, map, option_map};
ghost use Rattle.std.specs.List.{flat_map};
ghost use Rattle.std.specs.Option.{option_copied};
ghost use Rattle.s3_stored_rows.specs.Bodies.{version_numbers, part_numbers};
ghost use Rattle.s3_stored_rows.specs.Changes.{version_columns, part_columns};
ghost use Rattle.s3_row_changes.specs.Trading.{numbers_of};

use s3_columns::read_numbers;
use s3_row_changes::UploadRows;
use s3_stored_rows::{StoredPart, StoredVersion};
use s3_terms::NoMemory;
use std::alloc::Global;

/// The numbers that a version names, if there is one.
pub(crate) fn version_names(
    alloc: Global,
    found: Option<&StoredVersion>,
) -> Result<Vec<u64>, NoMemory>
    ensures { IfOk result (λ numbers. numbers.items ≡ numbers_of version_numbers (option_map version_columns (option_copied found.entry))) }
{
    match found {
        Some(found) => read_numbers(alloc, &found.bodies),
        None => Ok(Vec::new(alloc)),
    }
}

/// The numbers that a part names, if there is one.
pub(crate) fn part_names(alloc: Global, gone: Option<&StoredPart>) -> Result<Vec<u64>, NoMemory>
    ensures { IfOk result (λ numbers. numbers.items ≡ numbers_of part_numbers (option_map part_columns (option_copied gone.entry))) }
{
    match gone {
        Some(gone) => read_numbers(alloc, &gone.bodies),
        None => Ok(Vec::new(alloc)),
    }
}

/// The numbers that the parts of an upload name, if there is one.
pub(crate) fn upload_names(alloc: Global, gone: Option<&UploadRows>) -> Result<Vec<u64>, NoMemory>
    ensures { IfOk result (λ numbers. numbers.items
        ≡ numbers_of (λ (u : UploadRows). flat_map part_numbers (map part_columns u.parts.items)) (option_copied gone.entry)) }
{
    match gone {
        Some(gone) => parts_name(alloc, &gone.parts),
        None => Ok(Vec::new(alloc)),
    }
}

// The numbers that parts name.
fn parts_name(alloc: Global, parts: &[StoredPart]) -> Result<Vec<u64>, NoMemory>
    ensures { IfOk result (λ numbers. numbers.items ≡ flat_map part_numbers (map part_columns parts.now)) }
{
    let mut numbers = Vec::new(alloc);
    for part in parts {
        let more = read_numbers(alloc, &part.bodies)?;
        numbers.extend_from_slice(&more)?;
    }
    Ok(numbers)
}
