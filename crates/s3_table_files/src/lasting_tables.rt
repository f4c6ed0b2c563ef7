//! What rows in memory ask of the tables that outlive them.
ghost use Rattle.std.specs.Prelude.{IsTrue, IfErr, OnOk};
ghost use Rattle.sqlite.specs.State.{State, HasCleanDisk};
ghost use Rattle.s3_stored_rows.specs.Changes.{after_all};
ghost use Rattle.s3_tables.specs.Keeping.{Keeps, Makes, Steps, Reads};
ghost use Rattle.s3_table_files.specs.Faults.{IsOfTables};

use crate::faults::table_fault;
use s3_storage::StorageFault;
use s3_stored_rows::Change;
use sqlite::Error;

/// The tables of a store, of which a later run finds what was committed.
pub trait LastingTables {
    // The connection to their database.
    ghost state: { Self → State };

    /// Makes all changes or none, as `TableFile::apply` says. It costs a sync of the disk.
    fn apply(&mut self, changes: &[Change]) -> Result<(), Error>
        ensures { Steps (after_all changes.now) (state self.old) (state self.new) result };

    /// Whether the connection still answered when it was last asked.
    fn is_live(&self) -> bool
        ensures keeps { HasCleanDisk (state self.now) → Keeps (state self.now) }
        ensures live { IsTrue result → HasCleanDisk (state self.now) → IsTrue (state self.now).is_open };

    /// Asks the connection again where it didn't answer when it was last asked, as where memory ran out: it may answer by now. The
    /// error is that of this time.
    fn wake(&mut self) -> Result<(), StorageFault>
        ensures live { OnOk result (HasCleanDisk (state self.new) → IsTrue (state self.new).is_open) }
        ensures fault { IfErr result IsOfTables }
        ensures reads { Reads (state self.old) (state self.new) };
}

/// Makes all changes or none, where an error says what is wrong with the files.
pub fn change<F: LastingTables>(file: &mut F, changes: &[Change]) -> Result<(), StorageFault>
    ensures clean { HasCleanDisk (F.LastingTables.state file.new) → HasCleanDisk (F.LastingTables.state file.old) }
    ensures was_open { HasCleanDisk (F.LastingTables.state file.new) → IsTrue (F.LastingTables.state file.new).is_open → IsTrue (F.LastingTables.state file.old).is_open }
    ensures made { OnOk result (HasCleanDisk (F.LastingTables.state file.new) → Makes (after_all changes.now) (F.LastingTables.state file.old) (F.LastingTables.state file.new)) }
    ensures fault { IfErr result IsOfTables }
{
    match file.apply(changes) {
        Ok(()) => Ok(()),
        Err(error) => Err(table_fault(error)),
    }
}
