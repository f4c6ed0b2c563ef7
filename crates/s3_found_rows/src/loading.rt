//! A store goes on with the rows that were found.
ghost use Rattle.std.specs.Prelude.{◌≡◌, ℕ, [], ◌∷◌, pos, IfOk};
ghost use Rattle.s3_keepers.specs.Sound.{IsSoundCatalogue};
ghost use Rattle.s3_rows.specs.Columns.{StoreColumns, no_rows};
ghost use Rattle.s3_rows.specs.Meaning.{catalogue_of};
ghost use Rattle.s3_row_steps.specs.Steps.{AreKept};
ghost use Rattle.s3_stored_bodies.specs.Numbers.{Contents, times};
ghost use Rattle.s3_stored_rows.specs.Bodies.{encoding, numbers_named};
ghost use Rattle.s3_found_rows.specs.Found.{tables_of};

use crate::found_tables::FoundTables;
use crate::store::put_store;
use crate::tables::put_tables;
use s3_progress::Progress;
use s3_storage::StorageFault;
use s3_stored_rows::{StoredPart, StoredRows, StoredVersion};
use std::alloc::Global;

/// What is known of the rows that were found.
#[derive(Drop)]
pub struct Found {
    /// A rowid above those of all rows.
    pub next: i64,
    /// The number of the next entry, above those of the entries that made what was found, or began it.
    pub number: u64,
    /// The numbers of the bodies that rows name, each as often as rows name it.
    pub bodies: Vec<u64>,
    /// How many versions there are, delete markers among them. It serves to tell of it, and no clause does.
    pub versions: u64,
    /// How many bytes versions and parts have. It serves to tell of it, and no clause does.
    pub bytes: u64,
}

// How many bytes these versions have.
fn bytes_of_versions(versions: &[StoredVersion]) -> u64 {
    let mut bytes: u64 = 0;
    for version in versions {
        bytes = bytes.saturating_add(version.size.unsigned_abs());
    }
    bytes
}

// How many bytes these parts have.
fn bytes_of_parts(parts: &[StoredPart]) -> u64 {
    let mut bytes: u64 = 0;
    for part in parts {
        bytes = bytes.saturating_add(part.size.unsigned_abs());
    }
    bytes
}

// How many bytes the versions and parts that were found have.
fn bytes_in(found: &FoundTables) -> u64 {
    bytes_of_versions(&found.versions).saturating_add(bytes_of_parts(&found.parts))
}

/// Puts the rows that were found into rows that are empty but for the row of the store, and answers what is known of them then:
/// that the catalogue that they are is sound for entries from the next one on. What was found is moved out.
///
/// It takes one pass over all rows, and asks for one bucket where it puts a version or an upload. Each version is a step of the
/// progress.
///
/// # Errors
///
/// `Damaged` where the rows that were found aren't sound: a column out of its range, a row that names one that isn't there,
/// rowids that don't rise or reach the lowest or highest integer, not just one row of the store, a number of a version or an id
/// of an upload that the next entry's number isn't above, or a version that isn't `null` in a bucket whose versioning was never
/// set. `LaterForm` where the form of the tables is above 1. Else `NoMemory`, which comes too where a row stands where another
/// one does: the keeper of the rows doesn't tell these apart. An error may leave some of the rows.
pub fn load<R: StoredRows, P: Progress>(
    alloc: Global,
    found: &mut FoundTables,
    rows: &mut R,
    progress: &mut P,
) -> Result<Found, StorageFault>
    requires { (store : StoreColumns) × (store.row ≡ pos 1) × (R.tables rows.old ≡ record no_rows { store = store ∷ [] }) }
    ensures kept { IfOk result (λ found. AreKept found.next (R.tables rows.new)) }
    ensures named { IfOk result (λ found. (n : ℕ) → times n found.bodies.items ≡ times n (numbers_named (R.tables rows.new))) }
    ensures sound { IfOk result (λ found. (contents : Contents) → IsSoundCatalogue (catalogue_of (encoding contents) (R.tables rows.new)) found.number) }
    ensures store { IfOk result (λ found. (store : StoreColumns) × (store.row ≡ pos 1) × (store.number ≡ pos found.number) × ((R.tables rows.new).store ≡ store ∷ [])) }
    ensures same { IfOk result (λ _. R.tables rows.new ≡ tables_of found.old) }
{
    let versions = found.versions.len() as u64;
    let bytes = bytes_in(found);
    let number = put_store(rows, &found.store)?;
    let mut bodies = Vec::new(alloc);
    let last = put_tables(alloc, rows, found, number, &mut bodies, progress)?;
    rows.are_unique();
    let Some(next) = last.checked_add(1) else {
        return Err(StorageFault::Damaged);
    };
    Ok(Found {
        next,
        number: number.unsigned_abs(),
        bodies,
        versions,
        bytes,
    })
}
