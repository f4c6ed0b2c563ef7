//! The row of the store that was found.
ghost use Rattle.std.specs.Prelude.{◌≡◌, ◌≤ℤ◌, ◌∷◌, [], map, pos, IfOk, OnOk};
ghost use Rattle.s3_rows.specs.Columns.{StoreColumns, no_rows};
ghost use Rattle.s3_stored_rows.specs.Changes.{store_columns};

use s3_storage::StorageFault;
use s3_stored_rows::{Change, StoreNumbers, StoredRows, TableName};

/// The rowid of the row of the store.
const ROW: i64 = 1;

/// The form of the tables.
const FORM: i64 = 1;

/// Puts the row of the store that was found in the place of the one that stands, and answers the number of the next entry.
pub(crate) fn put_store<R: StoredRows>(
    rows: &mut R,
    found: &[StoreNumbers],
) -> Result<i64, StorageFault>
    requires { (store : StoreColumns) × (store.row ≡ pos 1) × (R.tables rows.old ≡ record no_rows { store = store ∷ [] }) }
    ensures rows { IfOk result (λ number. (store : StoreColumns) × (store.row ≡ pos 1) × (store.number ≡ number) × (R.tables rows.new ≡ record no_rows { store = store ∷ [] })
        × (map store_columns found.now ≡ store ∷ [])) }
    ensures count { IfOk result (λ number. pos 0 ≤ℤ number) }
{
    let [store] = found else {
        return Err(StorageFault::Damaged);
    };
    check_store(store)?;
    replace_store(rows, store)?;
    Ok(store.number)
}

// Whether this may be the row of a store.
fn check_store(store: &StoreNumbers) -> Result<(), StorageFault>
    ensures row { OnOk result (store.now.row ≡ pos 1) }
    ensures number { OnOk result (pos 0 ≤ℤ store.now.number) }
{
    if store.row != ROW || store.form < FORM || store.number < 0 {
        return Err(StorageFault::Damaged);
    }
    if store.form > FORM {
        return Err(StorageFault::LaterForm);
    }
    Ok(())
}

// Puts this row in the place of the one that stands.
fn replace_store<R: StoredRows>(rows: &mut R, store: &StoreNumbers) -> Result<(), StorageFault>
    requires { (store : StoreColumns) × (store.row ≡ pos 1) × (R.tables rows.old ≡ record no_rows { store = store ∷ [] }) }
    ensures { OnOk result (R.tables rows.new ≡ record no_rows { store = store_columns store.now ∷ [] }) }
{
    let store = StoreNumbers {
        row: store.row,
        form: store.form,
        number: store.number,
    };
    rows.apply(&[
        Change::DropRow(TableName::Store, ROW),
        Change::AddStore(store),
    ])?;
    Ok(())
}
