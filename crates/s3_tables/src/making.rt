//! The tables are made: five statements and the row of `store`, in one transaction.

ghost use Rattle.std.specs.Prelude.{◌≡◌, false, IsTrue, OnOk};
ghost use Rattle.sqlite.specs.State.{HasCleanDisk, Survives};
ghost use Rattle.sqlite.specs.Held.{state};
ghost use Rattle.s3_tables.specs.Statements as spec;
ghost use Rattle.s3_tables.specs.Schema.{no_schema, schema as whole_schema};
ghost use Rattle.s3_tables.specs.Stored.{Stores};
ghost use Rattle.s3_stored_rows.specs.Changes.{store_columns};
ghost use Rattle.s3_tables.specs.Keeping.{IsMade};
ghost use Rattle.s3_tables.specs.Making.{schema_before, schema_after, first_tables, Builds, Fills};

use crate::changing::add_store;
use s3_stored_rows::{StoreNumbers, TableName};
use sqlite::{Alter, Connection, Error, Transaction};
use sqlite_schema::schema::Schema;

fn create_text(table: TableName) -> &'static str
    ensures { result.now ≡ spec.create_text table }
{
    match table {
        TableName::Buckets => {
            "CREATE TABLE buckets (row INTEGER PRIMARY KEY, name BLOB NOT NULL, made INTEGER NOT NULL, mode INTEGER NOT NULL, UNIQUE (name)) STRICT"
        }
        TableName::Versions => {
            "CREATE TABLE versions (row INTEGER PRIMARY KEY, bucket BLOB NOT NULL, key BLOB NOT NULL, number INTEGER NOT NULL, id INTEGER NOT NULL, moment INTEGER NOT NULL, marker INTEGER NOT NULL, tag BLOB NOT NULL, kept BLOB NOT NULL, size INTEGER NOT NULL, bodies BLOB NOT NULL, UNIQUE (bucket, key, number DESC), UNIQUE (bucket, key, id)) STRICT"
        }
        TableName::Uploads => {
            "CREATE TABLE uploads (row INTEGER PRIMARY KEY, bucket BLOB NOT NULL, key BLOB NOT NULL, id INTEGER NOT NULL, moment INTEGER NOT NULL, kept BLOB NOT NULL, UNIQUE (bucket, key, id)) STRICT"
        }
        TableName::Parts => {
            "CREATE TABLE parts (row INTEGER PRIMARY KEY, upload INTEGER NOT NULL, part INTEGER NOT NULL, digest BLOB NOT NULL, moment INTEGER NOT NULL, size INTEGER NOT NULL, bodies BLOB NOT NULL, UNIQUE (upload, part)) STRICT"
        }
        TableName::Store => {
            "CREATE TABLE store (row INTEGER PRIMARY KEY, form INTEGER NOT NULL, number INTEGER NOT NULL) STRICT"
        }
    }
}

fn create_table<S: Alter>(tx: &mut Transaction<'_, S>, table: TableName) -> Result<usize, Error>
    ensures same_reference { tx.new.conn.ghost_name ≡ tx.old.conn.ghost_name }
    ensures builds { Builds (schema_before table) (schema_after table) (state S.Store tx.old.conn.now) (state S.Store tx.new.conn.now) result }
{
    tx.execute(create_text(table), &[])
}

fn create_all<S: Alter>(tx: &mut Transaction<'_, S>) -> Result<usize, Error>
    ensures same_reference { tx.new.conn.ghost_name ≡ tx.old.conn.ghost_name }
    ensures builds { Builds no_schema whole_schema (state S.Store tx.old.conn.now) (state S.Store tx.new.conn.now) result }
{
    create_table(tx, TableName::Buckets)?;
    create_table(tx, TableName::Versions)?;
    create_table(tx, TableName::Uploads)?;
    create_table(tx, TableName::Parts)?;
    create_table(tx, TableName::Store)
}

fn fill<S: Alter>(tx: &mut Transaction<'_, S>, store: &StoreNumbers) -> Result<usize, Error>
    ensures same_reference { tx.new.conn.ghost_name ≡ tx.old.conn.ghost_name }
    ensures fills { Fills (first_tables (store_columns store.now)) (state S.Store tx.old.conn.now) (state S.Store tx.new.conn.now) result }
{
    create_all(tx)?;
    add_store(tx, store)
}

/// Makes the tables, and in `store` this row, where there is nothing yet.
pub(crate) fn make_in<S: Alter>(conn: &mut Connection<S>, store: &StoreNumbers) -> Result<(), Error>
    requires schema { (state S.Store conn.old).now.schema ≡ no_schema }
    requires autocommit { (state S.Store conn.old).in_transaction ≡ false }
    ensures made { HasCleanDisk (state S.Store conn.new) → OnOk result (IsMade (first_tables (store_columns store.now)) (state S.Store conn.new)) }
    ensures survives { Survives (state S.Store conn.old) (state S.Store conn.new) (λ db. Stores db (first_tables (store_columns store.now))) }
{
    let mut tx = conn.transaction();
    fill(&mut tx, store)?;
    tx.commit()
}

/// Whether there is nothing in the database.
pub(crate) fn is_new(schema: &Schema) -> bool
    ensures { IsTrue result → schema.now ≡ no_schema }
{
    schema.tables.is_empty() && schema.indexes.is_empty() && schema.views.is_empty()
}
