//! The file of the tables.

ghost use Rattle.std.specs.Prelude.{◌≡◌, ◌≤◌, false, IsTrue, IfOk, OnOk};
ghost use Rattle.sqlite.specs.State.{HasCleanDisk, IsUnchanged, Shown};
ghost use Rattle.sqlite.specs.Given.{IsPlain};
ghost use Rattle.sqlite.specs.Listing.{understood};
ghost use Rattle.sqlite.specs.Values.{bound};
ghost use Rattle.sqlite.specs.Held.{state};
ghost use Rattle.sqlite.specs.View.{doubt, IsClean};
ghost use Rattle.sqlite.specs.Steps.{IsFresh};
ghost use Rattle.s3_rows.specs.Columns.{Tables};
ghost use Rattle.s3_stored_rows.specs.Changes.{after_all, store_columns};
ghost use Rattle.s3_tables.specs.Schema.{no_schema, schema};
ghost use Rattle.s3_tables.specs.Stored.{Stores, tables_in};
ghost use Rattle.s3_tables.specs.Keeping.{tables, Keeps, Serves, Steps, Reads, IsMade};
ghost use Rattle.s3_tables.specs.Making.{first_tables};

use crate::applying::apply_in;
use crate::comparing::is_ours;
use crate::making::{is_new, make_in};
use crate::querying::query_in;
use s3_stored_rows::{Change, StoreNumbers};
use sqlite::{Alter, Connection, Error, ErrorCode, Row};
use sqlite_value::value::ValueRef;
use std::alloc::Global;
use std::marker::Model;

/// The tables of a store over any disk. Contracts see its connection: `tables` of that is what it holds. After an error it
/// asks whether the connection still answers. Where it doesn't, each later call asks again, and answers `Closed` as long as it
/// doesn't. So want of memory alone ends no file: it may leave the connection without an answer, and a later call has one.
pub struct TableFile<S: Alter> {
    conn: Connection<S>,
    is_live: bool,
}

impl<S: Alter> Model for TableFile<S> {
    ghost use Rattle.sqlite.specs.Held.{Held, held_code, state};
    ghost use Rattle.s3_tables.specs.Keeping.{IsKeeper};

    ghost Value = { Held S };

    ghost coded = { held_code S.code };

    ghost view = { λ t. t.conn };

    ghost invariant = { λ t. IsKeeper t.is_live (state S.Store t.conn) };
}

impl<S: Alter + Drop> Drop for TableFile<S> {
    fn drop(self) {
        let TableFile {
            conn: _,
            is_live: _,
        } = self;
    }
}

/// Whether the connection still answers.
fn answers<S: Alter>(conn: &mut Connection<S>) -> bool
    requires { HasCleanDisk (state S.Store conn.old) → Keeps (state S.Store conn.old) }
    ensures reads { Reads (state S.Store conn.old) (state S.Store conn.new) }
    ensures same { IsTrue result → HasCleanDisk (state S.Store conn.new) → IsUnchanged (state S.Store conn.old) (state S.Store conn.new) }
{
    conn.prepare("SELECT 1").is_ok()
}

impl<S: Alter> TableFile<S> {
    /// Makes all changes, one after another, or none: where it answers an error, also where memory runs out, and at a crash
    /// at any time. A change that the tables refuse, as a row that is there, is an error. Where it answers Ok, no crash
    /// undoes them. It costs a sync of the disk.
    pub fn apply(&mut self, changes: &[Change]) -> Result<(), Error>
        ensures { Steps (after_all changes.now) (state S.Store self.old) (state S.Store self.new) result }
    {
        if !self.ask() {
            return Err(Error::SqliteFailure(ErrorCode::Closed));
        }
        self.apply_once(changes)
    }

    /// All rows that a query shows.
    pub(crate) fn query(&mut self, sql: &str, params: &[ValueRef<'_>]) -> Result<Vec<Row>, Error>
        requires { IsPlain (understood schema sql.now) }
        ensures shown { HasCleanDisk (state S.Store self.new) → IfOk result (λ rows. Serves (state S.Store self.old) × Shown sql.now (bound params.now) (state S.Store self.old) (state S.Store self.new) rows.items) }
        ensures stays { HasCleanDisk (state S.Store self.new) → OnOk result (IsTrue (state S.Store self.new).is_open) }
        ensures reads { Reads (state S.Store self.old) (state S.Store self.new) }
    {
        if !self.ask() {
            return Err(Error::SqliteFailure(ErrorCode::Closed));
        }
        self.query_once(sql, params)
    }

    // Whether the connection answers: it did when it was last asked, or does now.
    fn ask(&mut self) -> bool
        ensures kept { HasCleanDisk (state S.Store self.old) → Keeps (state S.Store self.old) }
        ensures reads { Reads (state S.Store self.old) (state S.Store self.new) }
        ensures same { IsTrue result → HasCleanDisk (state S.Store self.new) → IsUnchanged (state S.Store self.old) (state S.Store self.new) }
    {
        if !self.is_live {
            self.is_live = answers(&mut self.conn);
        }
        self.is_live
    }

    // Makes all changes or none, and asks after an error whether the connection still answers.
    fn apply_once(&mut self, changes: &[Change]) -> Result<(), Error>
        requires { HasCleanDisk (state S.Store self.old) → IsTrue (state S.Store self.old).is_open }
        ensures { Steps (after_all changes.now) (state S.Store self.old) (state S.Store self.new) result }
    {
        match apply_in(&mut self.conn, changes) {
            Ok(()) => Ok(()),
            Err(error) => {
                self.is_live = answers(&mut self.conn);
                Err(error)
            }
        }
    }

    // The same for a query.
    fn query_once(&mut self, sql: &str, params: &[ValueRef<'_>]) -> Result<Vec<Row>, Error>
        requires plain { IsPlain (understood schema sql.now) }
        requires open { HasCleanDisk (state S.Store self.old) → IsTrue (state S.Store self.old).is_open }
        ensures shown { HasCleanDisk (state S.Store self.new) → IfOk result (λ rows. Serves (state S.Store self.old) × Shown sql.now (bound params.now) (state S.Store self.old) (state S.Store self.new) rows.items) }
        ensures stays { HasCleanDisk (state S.Store self.new) → OnOk result (IsTrue (state S.Store self.new).is_open) }
        ensures reads { Reads (state S.Store self.old) (state S.Store self.new) }
    {
        match query_in(&mut self.conn, sql, params) {
            Ok(rows) => Ok(rows),
            Err(error) => {
                self.is_live = answers(&mut self.conn);
                Err(error)
            }
        }
    }

    /// Whether the connection still answered when it was last asked.
    pub fn is_live(&self) -> bool
        ensures keeps { HasCleanDisk (state S.Store self.now) → Keeps (state S.Store self.now) }
        ensures live { IsTrue result → HasCleanDisk (state S.Store self.now) → IsTrue (state S.Store self.now).is_open }
    {
        self.is_live
    }
}

impl<S: Alter + Drop> TableFile<S> {
    /// Makes the tables in a database that has nothing in it, with this row in `store`, in one transaction. Another database,
    /// or one in a transaction, answers `NotADatabase`.
    pub fn make(mut conn: Connection<S>, store: &StoreNumbers) -> Result<TableFile<S>, Error>
        ensures made { IfOk result (λ t. HasCleanDisk (state S.Store t) → IsMade (first_tables (store_columns store.now)) (state S.Store t)) }
        ensures was_empty { IfOk result (λ _. (state S.Store conn).now.schema ≡ no_schema) }
        ensures was_between { IfOk result (λ _. (state S.Store conn).in_transaction ≡ false) }
        ensures falls { IfOk result (λ t. doubt (state S.Store conn).is_clean ≤ doubt (state S.Store t).is_clean) }
    {
        if !conn.is_autocommit() || !is_new(conn.schema()) {
            return Err(Error::SqliteFailure(ErrorCode::NotADatabase));
        }
        make_in(&mut conn, store)?;
        Ok(TableFile {
            conn,
            is_live: true,
        })
    }

    // Takes a store that was just opened, or whose changes were undone.
    fn over(alloc: Global, store: S) -> Result<TableFile<S>, Error>
        requires { IsClean (S.Store.view store) → IsFresh (S.Store.view store) }
        ensures keeps { IfOk result (λ t. HasCleanDisk (state S.Store t) → Keeps (state S.Store t)) }
        ensures open { IfOk result (λ t. HasCleanDisk (state S.Store t) → IsTrue (state S.Store t).is_open) }
        ensures trees { IfOk result (λ t. HasCleanDisk (state S.Store t) → (state S.Store t).now.trees ≡ (S.Store.view store).trees) }
        ensures falls { IfOk result (λ t. doubt (S.Store.view store).is_clean ≤ doubt (state S.Store t).is_clean) }
    {
        let conn = match Connection::over(alloc, store) {
            Ok(conn) => conn,
            Err((error, _)) => return Err(error),
        };
        if !is_ours(conn.schema()) {
            return Err(Error::SqliteFailure(ErrorCode::NotADatabase));
        }
        Ok(TableFile {
            conn,
            is_live: true,
        })
    }

    /// Takes a database that has the tables and nothing else, as it was last committed. What the connection did since is undone,
    /// and the database is read anew. One with another schema answers `NotADatabase`, and a connection that a failure has shut
    /// `Closed`. The row of `store` says which form the rows have, and nothing is said of it here.
    pub fn found(alloc: Global, conn: Connection<S>) -> Result<TableFile<S>, Error>
        ensures found { IfOk result (λ t. HasCleanDisk (state S.Store t) → IsMade (tables_in (state S.Store conn).committed.trees) (state S.Store t)) }
        ensures trees { IfOk result (λ t. HasCleanDisk (state S.Store t) → (state S.Store t).now.trees ≡ (state S.Store conn).committed.trees) }
        ensures stored { IfOk result (λ t. HasCleanDisk (state S.Store t) → (u : Tables) → Stores (state S.Store conn).committed.trees u → tables (state S.Store t) ≡ u) }
        ensures falls { IfOk result (λ t. doubt (state S.Store conn).is_clean ≤ doubt (state S.Store t).is_clean) }
    {
        let store = conn.into_store();
        if store.is_broken() {
            return Err(Error::SqliteFailure(ErrorCode::Closed));
        }
        TableFile::over(alloc, store)
    }
}
