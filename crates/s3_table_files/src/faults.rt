//! What is wrong with files, by the errors below.
ghost use Rattle.std.specs.Prelude.{◌≡◌};
ghost use Rattle.s3_table_files.specs.Faults as spec;

use s3_storage::StorageFault;
use sqlite::{Error, ErrorCode};
use sqlite_std_file::OpenError;
use std::io::{self, ErrorKind};

/// What an error of a database says of its files. One that isn't a database, or has other tables, holds something else; one
/// whose bytes aren't those that were written is damaged.
pub fn table_fault(error: Error) -> StorageFault
    ensures value { result ≡ spec.table_fault error }
    ensures form { spec.IsOfTables result }
{
    match error {
        Error::SqliteFailure(ErrorCode::OutOfMemory) => StorageFault::NoMemory,
        Error::SqliteFailure(ErrorCode::DatabaseBusy) => StorageFault::Held,
        Error::SqliteFailure(ErrorCode::NotADatabase) => StorageFault::NotAStore,
        Error::SqliteFailure(ErrorCode::DatabaseCorrupt) => StorageFault::Damaged,
        Error::SqliteFailure(ErrorCode::DiskFull) => StorageFault::NoRoom,
        _ => StorageFault::Failed,
    }
}

/// What an error of the system says.
pub(crate) fn system_fault(error: &io::Error) -> StorageFault
    ensures { spec.IsOfSystem result }
{
    match error.kind() {
        ErrorKind::OutOfMemory => StorageFault::NoMemory,
        ErrorKind::StorageFull | ErrorKind::QuotaExceeded => StorageFault::NoRoom,
        _ => StorageFault::Failed,
    }
}

/// What an error of opening a pair of files says. A journal beside them isn't ours.
pub(crate) fn file_fault(error: OpenError) -> StorageFault
    ensures { spec.IsOfOpening result }
{
    match error {
        OpenError::OutOfMemory => StorageFault::NoMemory,
        OpenError::Busy => StorageFault::Held,
        OpenError::HotJournal => StorageFault::NotAStore,
        OpenError::Io(error) => system_fault(&error),
    }
}
