//! Records in a folder.

use crate::opening::opened;
use s3_block_bodies::BlockBodies;
use s3_keepers::{FolderKeeper, Opened};
use s3_mirrored_rows::MirroredRows;
use s3_names::BucketName;
use s3_storage::StorageFault;
use s3_table_files::FileTables;
use s3_table_records::TableRecords;
use sqlite_std_file::{FileFrom, Start};
use std::alloc::Global;

/// Bodies in memory and in a file. `T` stands for what that held as it was opened.
pub type FileBodies<T> = BlockBodies<FileFrom<T>>;

/// Rows in memory and in files. `S` stands for what these held as they were opened.
pub type FileRows<S> = MirroredRows<FileTables<FileFrom<S>>>;

/// Records whose rows and bytes stand in memory, and in the files of a folder.
pub type FileRecords<S, T> = TableRecords<FileRows<S>, FileBodies<T>>;

/// Keeps records in a folder of the system. `S` and `T` stand for what the files of the rows and that of the bodies hold before they are
/// opened, of which no code knows: what is proved is so for all of them.
#[derive(Drop)]
pub struct FileKeeper<'a, S: Start, T: Start> {
    runtime: &'a HostRuntime,
    starts: Option<(S, T)>,
}

impl<'a, S: Start, T: Start> FileKeeper<'a, S, T> {
    /// One that opens one folder.
    pub fn new(runtime: &'a HostRuntime, rows: S, bodies: T) -> FileKeeper<'a, S, T> {
        FileKeeper {
            runtime,
            starts: Some((rows, bodies)),
        }
    }
}

/// The folder has the files `records.db` and `blocks`, beside each a log whose name ends in `-wal`, and `spare`, whose zeros hold room on
/// the disk. They are held as long as the records are: another open answers `Held`, in this process and in others. So does a second
/// call.
///
/// It takes the time to read all rows and bytes, and the memory to hold them.
impl<S: Start + Send, T: Start + Send> FolderKeeper for FileKeeper<'_, S, T> {
    ghost use Rattle.std.specs.Prelude.{IsTrue};
    ghost use Rattle.sqlite.specs.Files.{file_state};
    ghost use Rattle.sqlite_wal.specs.Files.{image_at};
    ghost use Rattle.s3_block_bodies.specs.Parts.{disk_in};
    ghost use Rattle.s3_table_files.specs.Blocks.{file_is_clean};
    ghost use Rattle.s3_file_records.specs.Found.{AreOf};

    type Kept = FileRecords<S, T>;

    ghost finds = { λ records. AreOf (file_state records.rows.file.tables) (IsTrue (file_is_clean T.Start (disk_in records.bodies))) (image_at S.Start) T.Start.db };

    fn open(
        &mut self,
        alloc: Global,
        path: &str,
        buckets: &[BucketName],
    ) -> Result<Opened<FileRecords<S, T>>, StorageFault> {
        match self.starts.take() {
            Some((rows, bodies)) => opened(self.runtime, alloc, path, buckets, rows, bodies),
            None => Err(StorageFault::Held),
        }
    }
}
