//! Changes that wait are made in the file, together.
ghost use Rattle.std.specs.Prelude.{◌≡◌, length, take, is_ok, OnOk};
ghost use Rattle.s3_rows.specs.Columns.{Tables};
ghost use Rattle.s3_stored_rows.specs.Changes.{after_all};
ghost use Rattle.s3_mirrored_rows.specs.Mirror.{Awaits, Commits};

use s3_records::CommitError;
use s3_storage::StorageFault;
use s3_stored_rows::{Change, copied_changes};
use s3_table_files::{LastingTables, SpareRoom, table_fault};
use s3_tables::stored_tables_are_one;
use s3_terms::NoMemory;

/// Has these changes wait behind those that do. `NoMemory` leaves those alone.
pub(crate) fn add_waiting(waiting: &mut Vec<Change>, changes: &[Change]) -> Result<(), NoMemory>
    ensures more { OnOk result ((t : Tables) → after_all waiting.new.items t ≡ after_all changes.now (after_all waiting.old.items t)) }
    ensures front { take (length waiting.old.items) waiting.new.items ≡ waiting.old.items }
{
    let mut copies = copied_changes(*waiting.allocator(), changes)?;
    waiting.append(&mut copies)?;
    Ok(())
}

// What is told of a commit.
fn told(answer: Result<(), StorageFault>) -> Result<(), CommitError>
    ensures { is_ok result ≡ is_ok answer }
{
    match answer {
        Ok(()) => Ok(()),
        Err(StorageFault::NoMemory | StorageFault::NoRoom) => Err(CommitError::NoMemory),
        Err(_) => Err(CommitError::Failed),
    }
}

// Whether the disk had no room.
fn lacks_room(answer: &Result<(), StorageFault>) -> bool {
    matches!(answer, Err(StorageFault::NoRoom))
}

// Makes all changes that wait in the file, which syncs them. Where it is an error all of them wait on.
fn make<F: LastingTables>(file: &mut F, waiting: &mut Vec<Change>) -> Result<(), StorageFault>
    ensures { (t : Tables) → Awaits (F.LastingTables.state file.old) waiting.old.items t → Commits t (F.LastingTables.state file.old) (F.LastingTables.state file.new) waiting.new.items result }
{
    stored_tables_are_one();
    match file.apply(waiting.as_slice()) {
        Ok(()) => {
            waiting.clear();
            Ok(())
        }
        Err(error) => Err(table_fault(error)),
    }
}

// Asks the file where it didn't answer, and makes the changes that wait, if any do.
fn commit_once<F: LastingTables>(
    file: &mut F,
    waiting: &mut Vec<Change>,
) -> Result<(), StorageFault>
    ensures { (t : Tables) → Awaits (F.LastingTables.state file.old) waiting.old.items t → Commits t (F.LastingTables.state file.old) (F.LastingTables.state file.new) waiting.new.items result }
{
    stored_tables_are_one();
    match file.wake() {
        Ok(()) => {
            if waiting.is_empty() {
                return Ok(());
            }
            make(file, waiting)
        }
        Err(fault) => Err(fault),
    }
}

/// Makes the changes that wait in the file, and once more with the room that is spared where it found none. An error may be asked again
/// where memory ran out or the disk has no room.
pub(crate) fn commit<F: LastingTables>(
    file: &mut F,
    waiting: &mut Vec<Change>,
    spare: &mut SpareRoom,
) -> Result<(), CommitError>
    ensures { (t : Tables) → Awaits (F.LastingTables.state file.old) waiting.old.items t → Commits t (F.LastingTables.state file.old) (F.LastingTables.state file.new) waiting.new.items result }
{
    let first = commit_once(file, waiting);
    if !lacks_room(&first) {
        return told(first);
    }
    spare.give_back();
    told(commit_once(file, waiting))
}
