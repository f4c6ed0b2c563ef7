//! Records in maps.

use crate::keeper::Keeper;
use s3_names::BucketName;
use s3_records::MapRecords;
use s3_terms::NoMemory;
use std::alloc::Global;

/// Keeps records in maps, which are in memory.
#[derive(Clone, Copy)]
pub struct MapKeeper;

impl Keeper for MapKeeper {
    type Kept = MapRecords;

    fn keep(&self, alloc: Global, buckets: &[BucketName]) -> Result<MapRecords, NoMemory> {
        MapRecords::of_buckets(alloc, buckets)
    }
}
