//! The number of the next entry, and how it comes to the disk: in the row of the store, with the changes of a commit.
ghost use Rattle.std.specs.Prelude.{◌≡◌, ◌⊎◌, ◌<◌, ◌≤◌, ℕ, ℤ, pos, ◌+ℤ◌, List, [], ◌∷◌, if◌then◌else◌, IfSome, OnOk, OnErr};
ghost use Rattle.s3_records.specs.Catalogue.{Catalogue};
ghost use Rattle.s3_rows.specs.Columns.{Tables};
ghost use Rattle.s3_rows.specs.Meaning.{catalogue_of};
ghost use Rattle.s3_stored_bodies.specs.Numbers.{times};
ghost use Rattle.s3_stored_rows.specs.Bodies.{encoding, numbers_named};
ghost use Rattle.s3_stored_rows.specs.Leaving.{LeavesNoMore};
ghost use Rattle.s3_table_records.specs.Leaving.{LeavesOneOf};
ghost use Rattle.s3_table_records.specs.Numbered.{row_of, LeavesNumber, SaysNumber};

use crate::keeping;
use s3_records::CommitError;
use s3_stored_bodies::StoredBodies;
use s3_stored_rows::{Change, StoreNumbers, StoredRows, TableName};
use s3_terms::NoMemory;

// The rowid of the row of the store.
const ROW: i64 = 1;

// The form of the tables.
const FORM: i64 = 1;

/// A number for the next entry that is above this one's, and not below the one that stands; `None` where the row of the store can't
/// say it.
pub(crate) fn above(number: u64, entry: u64) -> Option<u64>
    ensures entry { IfSome result (λ above. entry < above) }
    ensures rises { IfSome result (λ above. number ≤ above) }
{
    let entry = i64::try_from(entry).ok()?;
    let above = entry.checked_add(1)?.unsigned_abs();
    if above < number {
        return Some(number);
    }
    Some(above)
}

/// The rowid behind this one, and a number for the next entry, as `above` says.
pub(crate) fn later(next: i64, number: u64, entry: u64) -> Option<(i64, u64)>
    ensures row { IfSome result (λ later. later.0 ≡ next +ℤ pos 1) }
    ensures entry { IfSome result (λ later. entry < later.1) }
    ensures rises { IfSome result (λ later. number ≤ later.1) }
{
    let above = above(number, entry)?;
    Some((next.checked_add(1)?, above))
}

/// The number of the next entry after a change that was made or not.
pub(crate) fn counted(number: u64, above: u64, is_made: bool) -> u64
    ensures { result ≡ (if is_made then above else number) }
{
    if is_made { above } else { number }
}

/// The later one of two numbers.
pub(crate) fn latest(number: u64, other: u64) -> u64
    ensures number { number ≤ result }
    ensures other { other ≤ result }
{
    if number < other { other } else { number }
}

/// Commits rows and bodies, as `Records::commit` says, and with them the number of the next entry, where the row of the store says a
/// lower one. A crash leaves rows that it could leave before, or these with a row that says no lower one.
pub(crate) fn commit_numbered<R: StoredRows, B: StoredBodies>(
    rows: &mut R,
    bodies: &mut B,
    number: u64,
    written: &mut u64,
) -> Result<(), CommitError>
    requires named { (number : ℕ) → B.uses bodies.old number ≡ times number (numbers_named (R.tables rows.old)) }
    requires says { SaysNumber written.old (R.tables rows.old) }
    ensures settled { OnOk result (LeavesOneOf (R.leaves rows.new) (B.outlives bodies.new) (catalogue_of (encoding (B.contents bodies.old)) (R.tables rows.old) ∷ [])) }
    ensures in_doubt { (known : List (Catalogue (List ℕ))) → LeavesOneOf (R.leaves rows.old) (B.outlives bodies.old) known
        → LeavesOneOf (R.leaves rows.new) (B.outlives bodies.new) (catalogue_of (encoding (B.contents bodies.old)) (R.tables rows.old) ∷ known) }
    ensures left { (t : Tables) → R.leaves rows.new t → R.leaves rows.old t ⊎ ((t ≡ R.tables rows.new) × (number ≤ written.new)) }
    ensures numbered { OnOk result (LeavesNumber (R.leaves rows.new) number) }
    ensures says { SaysNumber written.new (R.tables rows.new) }
    ensures rises { written.old ≤ written.new }
    ensures tables { R.tables rows.new ≡ record (R.tables rows.old) { store = (R.tables rows.new).store } }
    ensures contents { B.contents bodies.new ≡ B.contents bodies.old }
    ensures uses { B.uses bodies.new ≡ B.uses bodies.old }
{
    match write_number(rows, number, written) {
        Ok(()) => keeping::commit(rows, bodies),
        Err(NoMemory) => Err(CommitError::NoMemory),
    }
}

// Has the row of the store say the number of the next entry, where it says a lower one.
fn write_number<R: StoredRows>(rows: &mut R, number: u64, written: &mut u64) -> Result<(), NoMemory>
    requires { SaysNumber written.old (R.tables rows.old) }
    ensures reaches { OnOk result (number ≤ written.new) }
    ensures rises { written.old ≤ written.new }
    ensures says { SaysNumber written.new (R.tables rows.new) }
    ensures tables { R.tables rows.new ≡ record (R.tables rows.old) { store = (R.tables rows.new).store } }
    ensures stays { LeavesNoMore R.leaves rows.old rows.new }
{
    if number <= *written {
        return Ok(());
    }
    replace_row(rows, number)?;
    *written = number;
    Ok(())
}

// Puts a row of the store that says this number in the place of the one that stands.
fn replace_row<R: StoredRows>(rows: &mut R, number: u64) -> Result<(), NoMemory>
    requires { (said : ℕ) × SaysNumber said (R.tables rows.old) }
    ensures ok { OnOk result (R.tables rows.new ≡ record (R.tables rows.old) { store = row_of number ∷ [] }) }
    ensures err { OnErr result (R.tables rows.new ≡ R.tables rows.old) }
    ensures stays { LeavesNoMore R.leaves rows.old rows.new }
{
    let Ok(number) = i64::try_from(number) else {
        return Err(NoMemory);
    };
    let store = StoreNumbers {
        row: ROW,
        form: FORM,
        number,
    };
    rows.apply(&[
        Change::DropRow(TableName::Store, ROW),
        Change::AddStore(store),
    ])?;
    Ok(())
}
