//! The tables in files.
ghost use Rattle.std.specs.Prelude.{◌≡◌, IsTrue, IfOk, IfErr};
ghost use Rattle.sqlite_wal.specs.Files.{image_at};
ghost use Rattle.sqlite_trees.specs.Tree.{Trees};
ghost use Rattle.sqlite.specs.State.{HasCleanDisk};
ghost use Rattle.sqlite.specs.Files.{HoldsDatabase, file_state};
ghost use Rattle.s3_rows.specs.Columns.{Tables};
ghost use Rattle.s3_tables.specs.Stored.{Stores};
ghost use Rattle.s3_tables.specs.Keeping.{tables, Keeps, Reads};
ghost use Rattle.s3_found_rows.specs.Found.{tables_of};
ghost use Rattle.s3_table_files.specs.Faults.{IsOfTables};
ghost use Rattle.s3_table_files.specs.Opening.{StaysTo};

use crate::faults::table_fault;
use crate::lasting_tables::LastingTables;
use crate::reading::read_tables;
use crate::tables::open_tables;
use s3_found_rows::FoundTables;
use s3_storage::StorageFault;
use s3_stored_rows::Change;
use s3_tables::TableFile;
use sqlite::{Error, FileFrom, FileStore, Start};
use sqlite_disk::Disk;
use std::alloc::Global;

/// The tables of a store in a file and the log beside it, as `TableFile` keeps them. It is a type of its own, so that no crate
/// above looks into a database over files again.
pub struct FileTables<D: Disk> {
    tables: TableFile<FileStore<D>>,
}

// It is written out, so that no crate above proves again how a store over files is dropped.
impl<D: Disk + Drop> Drop for FileTables<D> {
    fn drop(self) {
        let FileTables { tables: _ } = self;
    }
}

impl<S: Start> FileTables<FileFrom<S>> {
    /// Opens the tables at a path, or makes them, as `open_tables` says.
    pub fn open(
        rt: &HostRuntime,
        path: &str,
        start: S,
    ) -> Result<FileTables<FileFrom<S>>, StorageFault>
        ensures keeps { IfOk result (λ file. HasCleanDisk (file_state file.tables) → Keeps (file_state file.tables) × IsTrue (file_state file.tables).is_open) }
        ensures found { IfOk result (λ file. HasCleanDisk (file_state file.tables) → (db : Trees) (there : Tables)
            → HoldsDatabase (image_at S.Start) db → Stores db there → tables (file_state file.tables) ≡ there) }
        ensures fault { IfErr result IsOfTables }
    {
        match open_tables(rt, path, start) {
            Ok(tables) => Ok(FileTables { tables }),
            Err(fault) => Err(fault),
        }
    }
}

impl<D: Disk> FileTables<D> {
    /// Reads all rows, as `read_tables` says.
    pub fn read(&mut self, alloc: Global) -> Result<FoundTables, StorageFault>
        ensures found { IfOk result (λ found. HasCleanDisk (file_state self.new.tables) → IsTrue (file_state self.new.tables).is_open → tables (file_state self.new.tables) ≡ tables_of found) }
        ensures stays { IfOk result (λ _. StaysTo (file_state self.old.tables) (file_state self.new.tables)) }
        ensures fault { IfErr result IsOfTables }
    {
        read_tables(alloc, &mut self.tables)
    }
}

impl<D: Disk> LastingTables for FileTables<D> {
    ghost state = { λ file. file_state file.tables };

    fn apply(&mut self, changes: &[Change]) -> Result<(), Error> {
        self.tables.apply(changes)
    }

    fn is_live(&self) -> bool {
        self.tables.is_live()
    }

    fn wake(&mut self) -> Result<(), StorageFault> {
        if self.tables.is_live() {
            return Ok(());
        }
        if let Err(error) = self.tables.store() {
            return Err(table_fault(error));
        }
        Ok(())
    }
}
