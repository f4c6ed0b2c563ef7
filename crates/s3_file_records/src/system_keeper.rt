//! Records in a folder of which nothing is known.

use crate::file_keeper::FileBodies;
use crate::opening::opened_in_system;
use crate::system_tables::SystemTables;
use s3_keepers::{FolderKeeper, Opened};
use s3_mirrored_rows::MirroredRows;
use s3_names::BucketName;
use s3_storage::StorageFault;
use s3_table_records::TableRecords;
use sqlite_std_file::Unknown;
use std::alloc::Global;

/// Records in a folder of the system, of which nothing is known as it is opened.
pub type SystemRecords = TableRecords<MirroredRows<SystemTables>, FileBodies<Unknown>>;

/// Keeps records in folders of the system, as `FileKeeper` does. `main` names it, so that of what a folder held its clauses say
/// nothing: what is proved for all that it may have held is said of `FileKeeper`.
#[derive(Clone, Copy)]
pub struct SystemKeeper<'a>(pub &'a HostRuntime);

impl FolderKeeper for SystemKeeper<'_> {
    type Kept = SystemRecords;

    ghost finds = { λ _ _ _. ⊥ };

    fn open(
        &mut self,
        alloc: Global,
        path: &str,
        buckets: &[BucketName],
    ) -> Result<Opened<SystemRecords>, StorageFault> {
        opened_in_system(self.0, alloc, path, buckets)
    }
}
