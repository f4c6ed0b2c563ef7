//! The number that the row of the store says.
ghost use Rattle.std.specs.Prelude.{◌≡◌, ◌<◌, IsTrue, OnOk};
ghost use Rattle.sqlite.specs.State.{HasCleanDisk};
ghost use Rattle.s3_tables.specs.Keeping.{tables};
ghost use Rattle.s3_table_records.specs.Numbered.{SaysNumber};
ghost use Rattle.s3_file_records.specs.Found.{said, WasOpen, HasOtherStore};

use s3_sql_rows::SqlRows;
use s3_storage::StorageFault;
use s3_stored_rows::{Change, StoreNumbers, StoredRows, TableName};
use s3_table_files::{LastingTables, change};

// The rowid of the row of the store.
const ROW: i64 = 1;

// The form of the tables.
const FORM: i64 = 1;

/// The number that the row of the store says of a folder that is begun, where it said this one.
pub(crate) fn begun(number: u64) -> u64
    ensures { result ≡ said number }
{
    if number == 0 { 1 } else { number }
}

/// Begins a folder: where the row of the store says 0, as in tables that were just made, it says 1 from now on. So bytes may come to the
/// folder before rows that name them, and a later open knows that these weren't lost. It is written to the file first.
pub(crate) fn begin<F: LastingTables>(
    memory: &mut SqlRows,
    file: &mut F,
    number: u64,
) -> Result<(), StorageFault>
    requires store { SaysNumber number memory.old }
    requires same { HasCleanDisk (F.LastingTables.state file.old) → IsTrue (F.LastingTables.state file.old).is_open → tables (F.LastingTables.state file.old) ≡ memory.old }
    ensures says { OnOk result (SaysNumber (said number) memory.new) }
    ensures rest { OnOk result (HasOtherStore memory.old memory.new) }
    ensures open { OnOk result (HasCleanDisk (F.LastingTables.state file.new) → IsTrue (F.LastingTables.state file.new).is_open) }
    ensures was { OnOk result (HasCleanDisk (F.LastingTables.state file.new) → WasOpen (F.LastingTables.state file.old)) }
    ensures same { OnOk result (HasCleanDisk (F.LastingTables.state file.new) → tables (F.LastingTables.state file.new) ≡ memory.new) }
{
    if number > 0 {
        return asked(memory, file, number);
    }
    write_first(memory, file, number)
}

// The same of one that is begun, which stays as it is.
fn asked<F: LastingTables>(memory: &SqlRows, file: &mut F, number: u64) -> Result<(), StorageFault>
    requires begun { 0 < number }
    requires store { SaysNumber number memory.now }
    requires same { HasCleanDisk (F.LastingTables.state file.old) → IsTrue (F.LastingTables.state file.old).is_open → tables (F.LastingTables.state file.old) ≡ memory.now }
    ensures says { OnOk result (SaysNumber (said number) memory.now) }
    ensures open { OnOk result (HasCleanDisk (F.LastingTables.state file.new) → IsTrue (F.LastingTables.state file.new).is_open) }
    ensures was { OnOk result (HasCleanDisk (F.LastingTables.state file.new) → WasOpen (F.LastingTables.state file.old)) }
    ensures same { OnOk result (HasCleanDisk (F.LastingTables.state file.new) → tables (F.LastingTables.state file.new) ≡ memory.now) }
{
    let _memory = memory;
    file.wake()?;
    Ok(())
}

// The same of one that isn't.
fn write_first<F: LastingTables>(
    memory: &mut SqlRows,
    file: &mut F,
    number: u64,
) -> Result<(), StorageFault>
    requires none { number ≡ 0 }
    requires store { SaysNumber number memory.old }
    requires same { HasCleanDisk (F.LastingTables.state file.old) → IsTrue (F.LastingTables.state file.old).is_open → tables (F.LastingTables.state file.old) ≡ memory.old }
    ensures says { OnOk result (SaysNumber (said number) memory.new) }
    ensures rest { OnOk result (HasOtherStore memory.old memory.new) }
    ensures open { OnOk result (HasCleanDisk (F.LastingTables.state file.new) → IsTrue (F.LastingTables.state file.new).is_open) }
    ensures was { OnOk result (HasCleanDisk (F.LastingTables.state file.new) → WasOpen (F.LastingTables.state file.old)) }
    ensures same { OnOk result (HasCleanDisk (F.LastingTables.state file.new) → tables (F.LastingTables.state file.new) ≡ memory.new) }
{
    let store = StoreNumbers {
        row: ROW,
        form: FORM,
        number: 1,
    };
    let changes = [
        Change::DropRow(TableName::Store, ROW),
        Change::AddStore(store),
    ];
    change(file, &changes)?;
    memory.apply(&changes)?;
    Ok(())
}
