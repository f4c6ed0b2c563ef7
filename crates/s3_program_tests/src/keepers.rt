//! Keepers that the tests run the program over.
use s3_keepers::{FolderKeeper, Keeper, Opened};
use s3_names::BucketName;
use s3_records::MapRecords;
use s3_storage::StorageFault;
use s3_terms::NoMemory;
use std::alloc::Global;

/// Tables that have no room for a bucket, so that a run shows whether it was asked for them.
#[derive(Clone, Copy)]
pub(crate) struct FullTables;

impl Keeper for FullTables {
    type Kept = MapRecords;

    fn keep(&self, alloc: Global, buckets: &[BucketName]) -> Result<MapRecords, NoMemory> {
        if buckets.is_empty() {
            MapRecords::of_buckets(alloc, buckets)
        } else {
            Err(NoMemory)
        }
    }
}

/// Folders that can't be used for the reason that their path names; those of other paths another process has.
#[derive(Clone, Copy)]
pub(crate) struct HeldFolders;

impl FolderKeeper for HeldFolders {
    type Kept = MapRecords;

    ghost finds = { λ _ _ _. ⊥ };

    fn open(
        &mut self,
        _alloc: Global,
        path: &str,
        _buckets: &[BucketName],
    ) -> Result<Opened<MapRecords>, StorageFault> {
        Err(match path {
            "foreign" => StorageFault::NotAStore,
            "later" => StorageFault::LaterForm,
            "damaged" => StorageFault::Damaged,
            "full" => StorageFault::NoRoom,
            "broken" => StorageFault::Failed,
            "memory" => StorageFault::NoMemory,
            _ => StorageFault::Held,
        })
    }
}
