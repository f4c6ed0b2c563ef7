//! The rows of the tables, all at once.
ghost use Rattle.std.specs.Prelude.{◌≡◌, IsTrue, IfOk, IfErr};
ghost use Rattle.std.specs.Result.{result_ok};
ghost use Rattle.sqlite.specs.State.{HasCleanDisk};
ghost use Rattle.sqlite.specs.Held.{state};
ghost use Rattle.s3_tables.specs.Keeping.{tables};
ghost use Rattle.s3_found_rows.specs.Found.{tables_of};
ghost use Rattle.s3_table_files.specs.Faults.{IsOfTables};
ghost use Rattle.s3_table_files.specs.Opening.{StaysTo};

use crate::faults::table_fault;
use s3_found_rows::FoundTables;
use s3_storage::StorageFault;
use s3_tables::TableFile;
use sqlite::{Alter, Error};
use std::alloc::Global;

/// Reads all rows. The rows of one table stand in memory twice while they are read.
///
/// An error says what the connection told: `NoMemory`, `Damaged`, or `Failed`, which comes too where it no longer answers.
pub fn read_tables<S: Alter>(
    alloc: Global,
    file: &mut TableFile<S>,
) -> Result<FoundTables, StorageFault>
    ensures found { IfOk result (λ found. HasCleanDisk (state S.Store file.new) → IsTrue (state S.Store file.new).is_open → tables (state S.Store file.new) ≡ tables_of found) }
    ensures stays { IfOk result (λ _. StaysTo (state S.Store file.old) (state S.Store file.new)) }
    ensures fault { IfErr result IsOfTables }
{
    let buckets = told(file.bucket_rows(alloc))?;
    let versions = told(file.version_rows(alloc))?;
    let uploads = told(file.upload_rows(alloc))?;
    let parts = told(file.part_rows(alloc))?;
    let store = told(file.store_rows(alloc))?;
    Ok(FoundTables {
        buckets,
        versions,
        uploads,
        parts,
        store,
    })
}

// What a call of the connection answered.
fn told<T: Drop>(answer: Result<T, Error>) -> Result<T, StorageFault>
    ensures ok { result_ok result ≡ result_ok answer }
    ensures fault { IfErr result IsOfTables }
{
    match answer {
        Ok(found) => Ok(found),
        Err(error) => Err(table_fault(error)),
    }
}
