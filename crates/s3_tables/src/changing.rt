//! The changes of the tables, each one statement inside a transaction.

ghost use Rattle.std.specs.Prelude.{◌≡◌};
ghost use Rattle.sqlite.specs.Held.{state};
ghost use Rattle.s3_tables.specs.Keeping.{Advances};
ghost use Rattle.s3_tables.specs.Statements as spec;
ghost use Rattle.s3_stored_rows.specs.Changes.{with_bucket, with_version, with_upload, with_part, with_store, bucket_columns, version_columns, upload_columns, part_columns, store_columns, without_row, changed_by, after_all};

use s3_stored_rows::{
    Change, StoreNumbers, StoredBucket, StoredPart, StoredUpload, StoredVersion, TableName,
};
use sqlite::{Alter, Error, Transaction, params};

fn add_bucket<S: Alter>(tx: &mut Transaction<'_, S>, bucket: &StoredBucket) -> Result<usize, Error>
    ensures same_reference { tx.new.conn.ghost_name ≡ tx.old.conn.ghost_name }
    ensures advances { Advances (with_bucket (bucket_columns bucket.now)) (state S.Store tx.old.conn.now) (state S.Store tx.new.conn.now) result }
{
    tx.execute(
        "INSERT INTO buckets (row, name, made, mode) VALUES (?1, ?2, ?3, ?4)",
        params![bucket.row, bucket.name.as_slice(), bucket.made, bucket.mode],
    )
}

fn add_version<S: Alter>(
    tx: &mut Transaction<'_, S>,
    version: &StoredVersion,
) -> Result<usize, Error>
    ensures same_reference { tx.new.conn.ghost_name ≡ tx.old.conn.ghost_name }
    ensures advances { Advances (with_version (version_columns version.now)) (state S.Store tx.old.conn.now) (state S.Store tx.new.conn.now) result }
{
    tx.execute(
        "INSERT INTO versions (row, bucket, key, number, id, moment, marker, tag, kept, size, bodies) VALUES (?1, ?2, ?3, ?4, ?5, ?6, ?7, ?8, ?9, ?10, ?11)",
        params![
            version.row,
            version.bucket.as_slice(),
            version.key.as_slice(),
            version.number,
            version.id,
            version.moment,
            version.marker,
            version.tag.as_slice(),
            version.kept.as_slice(),
            version.size,
            version.bodies.as_slice()
        ],
    )
}

fn add_upload<S: Alter>(tx: &mut Transaction<'_, S>, upload: &StoredUpload) -> Result<usize, Error>
    ensures same_reference { tx.new.conn.ghost_name ≡ tx.old.conn.ghost_name }
    ensures advances { Advances (with_upload (upload_columns upload.now)) (state S.Store tx.old.conn.now) (state S.Store tx.new.conn.now) result }
{
    tx.execute(
        "INSERT INTO uploads (row, bucket, key, id, moment, kept) VALUES (?1, ?2, ?3, ?4, ?5, ?6)",
        params![
            upload.row,
            upload.bucket.as_slice(),
            upload.key.as_slice(),
            upload.id,
            upload.moment,
            upload.kept.as_slice()
        ],
    )
}

fn add_part<S: Alter>(tx: &mut Transaction<'_, S>, part: &StoredPart) -> Result<usize, Error>
    ensures same_reference { tx.new.conn.ghost_name ≡ tx.old.conn.ghost_name }
    ensures advances { Advances (with_part (part_columns part.now)) (state S.Store tx.old.conn.now) (state S.Store tx.new.conn.now) result }
{
    tx.execute(
        "INSERT INTO parts (row, upload, part, digest, moment, size, bodies) VALUES (?1, ?2, ?3, ?4, ?5, ?6, ?7)",
        params![
            part.row,
            part.upload,
            part.part,
            part.digest.as_slice(),
            part.moment,
            part.size,
            part.bodies.as_slice()
        ],
    )
}

pub(crate) fn add_store<S: Alter>(
    tx: &mut Transaction<'_, S>,
    store: &StoreNumbers,
) -> Result<usize, Error>
    ensures same_reference { tx.new.conn.ghost_name ≡ tx.old.conn.ghost_name }
    ensures advances { Advances (with_store (store_columns store.now)) (state S.Store tx.old.conn.now) (state S.Store tx.new.conn.now) result }
{
    tx.execute(
        "INSERT INTO store (row, form, number) VALUES (?1, ?2, ?3)",
        params![store.row, store.form, store.number],
    )
}

fn drop_text(table: TableName) -> &'static str
    ensures { result.now ≡ spec.drop_text table }
{
    match table {
        TableName::Buckets => "DELETE FROM buckets WHERE row = ?1",
        TableName::Versions => "DELETE FROM versions WHERE row = ?1",
        TableName::Uploads => "DELETE FROM uploads WHERE row = ?1",
        TableName::Parts => "DELETE FROM parts WHERE row = ?1",
        TableName::Store => "DELETE FROM store WHERE row = ?1",
    }
}

fn drop_row<S: Alter>(
    tx: &mut Transaction<'_, S>,
    table: TableName,
    row: i64,
) -> Result<usize, Error>
    ensures same_reference { tx.new.conn.ghost_name ≡ tx.old.conn.ghost_name }
    ensures advances { Advances (without_row table row) (state S.Store tx.old.conn.now) (state S.Store tx.new.conn.now) result }
{
    tx.execute(drop_text(table), params![row])
}

fn change_inside<S: Alter>(tx: &mut Transaction<'_, S>, change: &Change) -> Result<usize, Error>
    ensures same_reference { tx.new.conn.ghost_name ≡ tx.old.conn.ghost_name }
    ensures advances { Advances (changed_by change.now) (state S.Store tx.old.conn.now) (state S.Store tx.new.conn.now) result }
{
    match change {
        Change::AddBucket(bucket) => add_bucket(tx, bucket),
        Change::AddVersion(version) => add_version(tx, version),
        Change::AddUpload(upload) => add_upload(tx, upload),
        Change::AddPart(part) => add_part(tx, part),
        Change::AddStore(store) => add_store(tx, store),
        Change::DropRow(table, row) => drop_row(tx, *table, *row),
    }
}

/// Makes the changes in turn, up to the first that is refused.
pub(crate) fn change_all<S: Alter>(
    tx: &mut Transaction<'_, S>,
    changes: &[Change],
) -> Result<(), Error>
    ensures same_reference { tx.new.conn.ghost_name ≡ tx.old.conn.ghost_name }
    ensures advances { Advances (after_all changes.now) (state S.Store tx.old.conn.now) (state S.Store tx.new.conn.now) result }
{
    for change in changes {
        change_inside(tx, change)?;
    }
    Ok(())
}
