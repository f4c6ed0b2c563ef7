//! The bodies of the parts that a completion lists: a version names them too, and no byte is copied.
ghost use Rattle.std.specs.Prelude.{◌≡◌, pos, IfOk};
ghost use Rattle.std.specs.Option.{option_copied};
ghost use Rattle.s3_stored_rows.specs.Bodies.{part_numbers};
ghost use Rattle.s3_stored_rows.specs.Leaving.{LeavesNoMore};
ghost use Rattle.s3_stored_rows.specs.Queries.{part_of_number};
ghost use Rattle.s3_row_changes.specs.Trading.{numbers_of};
ghost use Rattle.s3_row_changes.specs.declared.uploads.UploadRows.{UploadRows as Rows};
ghost use Rattle.s3_table_records.specs.Listed.{all_listed};

use crate::named::part_names;
use s3_names::PartNumber;
use s3_row_changes::UploadRows;
use s3_stored_rows::StoredRows;
use s3_terms::NoMemory;
use s3_uploads::ListedPart;
use std::alloc::Global;

/// The numbers that the rows of the listed parts name, in the order in which these are listed, of the upload whose rows were found.
/// None where none were found. It looks for the row of each part.
pub(crate) fn listed_names<R: StoredRows>(
    rows: &mut R,
    alloc: Global,
    found: Option<&UploadRows>,
    listed: &[ListedPart],
) -> Result<Vec<u64>, NoMemory>
    ensures names { IfOk result (λ names. names.items
        ≡ numbers_of (λ (u : Rows). all_listed (R.tables rows.old) u.upload.row listed.now) (option_copied found.entry)) }
    ensures same { R.tables rows.new ≡ R.tables rows.old }
    ensures stays { LeavesNoMore R.leaves rows.old rows.new }
{
    match found {
        Some(found) => names_in(rows, alloc, found.upload.row, listed),
        None => Ok(Vec::new(alloc)),
    }
}

// The same of the upload in a row.
fn names_in<R: StoredRows>(
    rows: &mut R,
    alloc: Global,
    upload: i64,
    listed: &[ListedPart],
) -> Result<Vec<u64>, NoMemory>
    ensures names { IfOk result (λ names. names.items ≡ all_listed (R.tables rows.old) upload listed.now) }
    ensures same { R.tables rows.new ≡ R.tables rows.old }
    ensures stays { LeavesNoMore R.leaves rows.old rows.new }
{
    let mut names = Vec::new(alloc);
    for part in listed {
        let more = names_of_part(rows, alloc, upload, part.number)?;
        names.extend_from_slice(&more)?;
    }
    Ok(names)
}

// The numbers that the row of a part of the upload in a row names; none where there is no such part.
fn names_of_part<R: StoredRows>(
    rows: &mut R,
    alloc: Global,
    upload: i64,
    number: PartNumber,
) -> Result<Vec<u64>, NoMemory>
    ensures names { IfOk result (λ names. names.items ≡ numbers_of part_numbers (part_of_number upload (pos number) (R.tables rows.old))) }
    ensures same { R.tables rows.new ≡ R.tables rows.old }
    ensures stays { LeavesNoMore R.leaves rows.old rows.new }
{
    let row = rows.part(upload, i64::from(number.get()))?;
    part_names(alloc, row.as_ref())
}
