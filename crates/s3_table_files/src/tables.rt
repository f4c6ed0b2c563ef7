//! The file of the tables.
ghost use Rattle.std.specs.Prelude.{◌≡◌, ◌≤◌, IsTrue, IfOk, IfErr};
ghost use Rattle.sqlite_wal.specs.Files.{image_at};
ghost use Rattle.sqlite_trees.specs.Tree.{Trees};
ghost use Rattle.sqlite_trees.specs.View.{doubt};
ghost use Rattle.sqlite.specs.State.{HasCleanDisk};
ghost use Rattle.sqlite.specs.Held.{state};
ghost use Rattle.sqlite.specs.Start.{FindsIn};
ghost use Rattle.sqlite.specs.Files.{HoldsDatabase, IsOpened, file_state};
ghost use Rattle.s3_rows.specs.Columns.{Tables};
ghost use Rattle.s3_tables.specs.Schema.{no_schema};
ghost use Rattle.s3_tables.specs.Stored.{Stores};
ghost use Rattle.s3_tables.specs.Keeping.{tables, Keeps, IsMade};
ghost use Rattle.s3_tables.specs.Making.{first_tables};
ghost use Rattle.s3_table_files.specs.Opening.{first_row, TakesOver, TakesFrom};
ghost use Rattle.s3_table_files.specs.Faults.{IsOfTables};

use crate::faults::table_fault;
use s3_storage::StorageFault;
use s3_stored_rows::StoreNumbers;
use s3_tables::{TableFile, stored_tables_are_one};
use sqlite::{Alter, Connection, FileFrom, FileStore, Start};
use sqlite_schema::schema::Schema;
use std::alloc::Global;

/// Opens the tables in the file at a path and the log beside it. Where there is nothing yet they are made, with a row in
/// `store` whose form is 1 and whose next entry has the number 0. The files are held until the result is dropped: another open
/// answers `Held`, in this process and in others. `S` stands for what the files hold.
///
/// `NotAStore` comes where the files are no database or have other tables, `Damaged` where bytes aren't those that were written,
/// `NoMemory` where memory runs out, `NoRoom` where the disk has none, and `Failed` where the system fails. Then nothing is held.
pub fn open_tables<S: Start>(
    rt: &HostRuntime,
    path: &str,
    start: S,
) -> Result<TableFile<FileStore<FileFrom<S>>>, StorageFault>
    ensures keeps { IfOk result (λ t. HasCleanDisk (file_state t) → Keeps (file_state t) × IsTrue (file_state t).is_open) }
    ensures taken { IfOk result (λ t. HasCleanDisk (file_state t) → TakesFrom (image_at S.Start) (file_state t)) }
    ensures found { IfOk result (λ t. HasCleanDisk (file_state t) → (db : Trees) (there : Tables)
        → HoldsDatabase (image_at S.Start) db → Stores db there → tables (file_state t) ≡ there) }
    ensures fault { IfErr result IsOfTables }
{
    stored_tables_are_one();
    let conn = connect(rt, path, start)?;
    tables_of(rt.alloc(), conn)
}

// The database in the files at a path.
fn connect<S: Start>(
    rt: &HostRuntime,
    path: &str,
    start: S,
) -> Result<Connection<FileStore<FileFrom<S>>>, StorageFault>
    ensures opened { IfOk result (λ c. HasCleanDisk (file_state c) → IsOpened c) }
    ensures found { IfOk result (λ c. HasCleanDisk (file_state c) → FindsIn (image_at S.Start) (file_state c)) }
    ensures fault { IfErr result IsOfTables }
{
    match Connection::open_from(rt, path, true, start) {
        Ok(conn) => Ok(conn),
        Err((error, _)) => Err(table_fault(error)),
    }
}

// The tables of a database as it was last committed, or made there where it has none.
fn tables_of<S: Alter + Drop>(
    alloc: Global,
    conn: Connection<S>,
) -> Result<TableFile<S>, StorageFault>
    ensures keeps { IfOk result (λ t. HasCleanDisk (state S.Store t) → Keeps (state S.Store t) × IsTrue (state S.Store t).is_open) }
    ensures takes { IfOk result (λ t. HasCleanDisk (state S.Store t) → TakesOver (state S.Store conn) (state S.Store t)) }
    ensures falls { IfOk result (λ t. doubt (state S.Store conn).is_clean ≤ doubt (state S.Store t).is_clean) }
    ensures fault { IfErr result IsOfTables }
{
    if is_new(conn.schema()) {
        return made_in(conn);
    }
    match TableFile::found(alloc, conn) {
        Ok(file) => Ok(file),
        Err(error) => Err(table_fault(error)),
    }
}

// The tables of a database that had none.
fn made_in<S: Alter + Drop>(conn: Connection<S>) -> Result<TableFile<S>, StorageFault>
    ensures made { IfOk result (λ t. HasCleanDisk (state S.Store t) → IsMade (first_tables first_row) (state S.Store t)) }
    ensures falls { IfOk result (λ t. doubt (state S.Store conn).is_clean ≤ doubt (state S.Store t).is_clean) }
    ensures fault { IfErr result IsOfTables }
{
    let store = StoreNumbers {
        row: 1,
        form: 1,
        number: 0,
    };
    match TableFile::make(conn, &store) {
        Ok(file) => Ok(file),
        Err(error) => Err(table_fault(error)),
    }
}

// Whether a database has nothing in it.
fn is_new(schema: &Schema) -> bool
    ensures { IsTrue result → schema.now ≡ no_schema }
{
    schema.tables.is_empty() && schema.indexes.is_empty() && schema.views.is_empty()
}
