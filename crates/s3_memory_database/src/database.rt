//! A database over two disks in memory.
ghost use Rattle.std.specs.Prelude.{IsTrue, IfOk, IfErr};
ghost use Rattle.sqlite.specs.State.{HasCleanDisk};
ghost use Rattle.sqlite.specs.Held.{IsNew};
ghost use Rattle.sqlite.specs.Steps.{IsEmpty};
ghost use Rattle.sqlite.specs.Opening.{is_open_error};
ghost use Rattle.sqlite.specs.Files.{file_state};

use s3_memory_disk::MemoryDisk;
use sqlite::{Connection, Error, FileStore, Files, Options};
use std::alloc::Global;

/// A database over two disks in memory.
pub type Database = Connection<FileStore<MemoryDisk>>;

// For the salts of the log, which only tell the logs of one file from each other.
const SEED: u64 = 1;

/// An empty database, whose log and pages lie in memory.
///
/// # Errors
///
/// Where memory runs out: `OutOfMemory`, or `SystemIoFailure` where it ran out in one of the disks.
pub fn open_in_memory(alloc: Global) -> Result<Database, Error>
    ensures clean { IfOk result (λ database. HasCleanDisk (file_state database)) }
    ensures empty { IfOk result (λ database. IsEmpty (file_state database)) }
    ensures fresh { IfOk result IsNew }
    ensures named { IfErr result (λ error. IsTrue (is_open_error error)) }
{
    let files = Files {
        log: MemoryDisk::new(alloc),
        db: MemoryDisk::new(alloc),
    };
    match Connection::open_files(alloc, files, Options::new(SEED)) {
        Ok(database) => Ok(database),
        Err((error, _)) => Err(error),
    }
}

/// The law that such a database has always read what was written. So a clause under that premise holds with no premise.
pub fn stays_clean(database: &Database)
    ensures { HasCleanDisk (file_state database.now) }
{}
