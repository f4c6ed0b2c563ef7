//! The file of the blocks.
ghost use Rattle.std.specs.Prelude.{◌≡◌, false, IsTrue, IfOk, IfErr};
ghost use Rattle.sqlite_std_file.specs.File.{file_is_usable, IsFresh};
ghost use Rattle.s3_table_files.specs.Blocks.{file_seen};
ghost use Rattle.s3_table_files.specs.Faults.{IsOfOpening};

use crate::faults::file_fault;
use s3_storage::StorageFault;
use sqlite_std_file::{FileFrom, Start};

/// Opens the file of blocks at a path, or makes it with no bytes. It is held until it is dropped: another open of it answers
/// `Held`, in this process and in others. `S` stands for what the file holds. An empty file stays beside it, whose name
/// ends in `-wal`.
///
/// `NoMemory` comes where memory runs out, `NoRoom` where the disk has none, `NotAStore` where a journal lies beside it that
/// isn't ours, and `Failed` where the system refuses it. Then nothing is held.
pub fn open_blocks<S: Start>(
    rt: &HostRuntime,
    path: &str,
    start: S,
) -> Result<FileFrom<S>, StorageFault>
    ensures usable { IfOk result (λ file. IsTrue (file_is_usable S.Start file)) }
    ensures fresh { IfOk result (λ file. IsFresh false file) }
    ensures holds { IfOk result (λ file. file_seen S.Start file ≡ S.Start.db) }
    ensures fault { IfErr result IsOfOpening }
{
    match sqlite_std_file::open(rt, path, start) {
        Ok(files) => Ok(files.db),
        Err(error) => Err(file_fault(error)),
    }
}
