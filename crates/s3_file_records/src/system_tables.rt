//! The tables in files of the system.
ghost use Rattle.std.specs.Prelude.{◌≡◌};
ghost use Rattle.sqlite.specs.Files.{file_state};

use s3_storage::StorageFault;
use s3_stored_rows::Change;
use s3_table_files::{FileTables, LastingTables};
use sqlite::Error;
use sqlite_std_file::File;

/// The tables in files of the system, of which nothing is known as they are opened. It is a type without parameters, so that a program
/// which names it proves nothing of the types below it again.
pub struct SystemTables {
    tables: FileTables<File>,
}

// It is written out, so that no crate above proves again how a store over files is dropped.
impl Drop for SystemTables {
    fn drop(self) {
        let SystemTables { tables: _ } = self;
    }
}

impl SystemTables {
    /// These tables.
    pub(crate) fn of(tables: FileTables<File>) -> SystemTables
        ensures { result.tables ≡ tables }
    {
        SystemTables { tables }
    }
}

impl LastingTables for SystemTables {
    ghost state = { λ file. file_state file.tables.tables };

    fn apply(&mut self, changes: &[Change]) -> Result<(), Error> {
        self.tables.apply(changes)
    }

    fn is_live(&self) -> bool {
        self.tables.is_live()
    }

    fn wake(&mut self) -> Result<(), StorageFault> {
        self.tables.wake()
    }
}
