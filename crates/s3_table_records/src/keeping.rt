//! The order in which bytes and the rows that name them come to the disk, and go.
ghost use Rattle.std.specs.Prelude.{◌≡◌, ◌⊎◌, ℕ, List, [], ◌∷◌, Some, OnOk};
ghost use Rattle.std.specs.FinMap as map;
ghost use Rattle.s3_records.specs.Catalogue.{Catalogue};
ghost use Rattle.s3_rows.specs.Columns.{Tables};
ghost use Rattle.s3_rows.specs.Meaning.{catalogue_of};
ghost use Rattle.s3_stored_bodies.specs.Numbers.{times};
ghost use Rattle.s3_stored_rows.specs.Bodies.{encoding, numbers_named};
ghost use Rattle.s3_table_records.specs.Leaving.{LeavesOneOf};

use s3_records::CommitError;
use s3_stored_bodies::{NotSettled, StoredBodies};
use s3_stored_rows::StoredRows;

/// Commits rows and the bodies that they name, as `Records::commit` says.
pub(crate) fn commit<R: StoredRows, B: StoredBodies>(
    rows: &mut R,
    bodies: &mut B,
) -> Result<(), CommitError>
    requires { (number : ℕ) → B.uses bodies.old number ≡ times number (numbers_named (R.tables rows.old)) }
    ensures settled { OnOk result (LeavesOneOf (R.leaves rows.new) (B.outlives bodies.new) (catalogue_of (encoding (B.contents bodies.old)) (R.tables rows.old) ∷ [])) }
    ensures in_doubt { (known : List (Catalogue (List ℕ))) → LeavesOneOf (R.leaves rows.old) (B.outlives bodies.old) known
        → LeavesOneOf (R.leaves rows.new) (B.outlives bodies.new) (catalogue_of (encoding (B.contents bodies.old)) (R.tables rows.old) ∷ known) }
    ensures left { (t : Tables) → R.leaves rows.new t → R.leaves rows.old t ⊎ (t ≡ R.tables rows.old) }
    ensures alone { OnOk result ((t : Tables) → R.leaves rows.new t → t ≡ R.tables rows.old) }
    ensures tables { R.tables rows.new ≡ R.tables rows.old }
    ensures contents { B.contents bodies.new ≡ B.contents bodies.old }
    ensures uses { B.uses bodies.new ≡ B.uses bodies.old }
{
    match bodies.settle() {
        Ok(()) => commit_settled(rows, bodies),
        Err(NotSettled) => Err(CommitError::Failed),
    }
}

// The same where all bytes that stand under numbers outlive a crash.
fn commit_settled<R: StoredRows, B: StoredBodies>(
    rows: &mut R,
    bodies: &mut B,
) -> Result<(), CommitError>
    requires named { (number : ℕ) → B.uses bodies.old number ≡ times number (numbers_named (R.tables rows.old)) }
    requires settled { (number : ℕ) (bytes : List ℕ) → map.get (B.contents bodies.old) number ≡ Some bytes → B.outlives bodies.old number bytes }
    ensures settled { OnOk result (LeavesOneOf (R.leaves rows.new) (B.outlives bodies.new) (catalogue_of (encoding (B.contents bodies.old)) (R.tables rows.old) ∷ [])) }
    ensures in_doubt { (known : List (Catalogue (List ℕ))) → LeavesOneOf (R.leaves rows.old) (B.outlives bodies.old) known
        → LeavesOneOf (R.leaves rows.new) (B.outlives bodies.new) (catalogue_of (encoding (B.contents bodies.old)) (R.tables rows.old) ∷ known) }
    ensures left { (t : Tables) → R.leaves rows.new t → R.leaves rows.old t ⊎ (t ≡ R.tables rows.old) }
    ensures alone { OnOk result ((t : Tables) → R.leaves rows.new t → t ≡ R.tables rows.old) }
    ensures tables { R.tables rows.new ≡ R.tables rows.old }
    ensures contents { B.contents bodies.new ≡ B.contents bodies.old }
    ensures uses { B.uses bodies.new ≡ B.uses bodies.old }
{
    match commit_rows(rows, bodies) {
        Ok(()) => {
            let_go(rows, bodies);
            Ok(())
        }
        Err(error) => Err(error),
    }
}

// Commits the rows, as `StoredRows::commit` says, where all bytes that they name outlive a crash. Else it could leave rows that name
// bytes which it doesn't leave.
fn commit_rows<R: StoredRows, B: StoredBodies>(rows: &mut R, bodies: &B) -> Result<(), CommitError>
    requires { (number : ℕ) (bytes : List ℕ) → map.get (B.contents bodies.now) number ≡ Some bytes → B.outlives bodies.now number bytes }
    ensures settled { OnOk result ((t : Tables) → R.leaves rows.new t → t ≡ R.tables rows.new) }
    ensures same { R.tables rows.new ≡ R.tables rows.old }
    ensures survives { (t : Tables) → R.leaves rows.new t → R.leaves rows.old t ⊎ (t ≡ R.tables rows.old) }
{
    let _bodies = bodies;
    rows.commit()
}

// Lets go what no row names, as `StoredBodies::let_go` says, where a crash leaves the rows as they are. Other rows that it may leave could
// name it, and would find other bytes once its room is written again.
fn let_go<R: StoredRows, B: StoredBodies>(rows: &R, bodies: &mut B)
    requires { (t : Tables) → R.leaves rows.now t → t ≡ R.tables rows.now }
    ensures outlives { (number : ℕ) (bytes : List ℕ) → map.get (B.contents bodies.old) number ≡ Some bytes → B.outlives bodies.old number bytes → B.outlives bodies.new number bytes }
    ensures contents { B.contents bodies.new ≡ B.contents bodies.old }
    ensures uses { B.uses bodies.new ≡ B.uses bodies.old }
{
    let _rows = rows;
    bodies.let_go();
}
