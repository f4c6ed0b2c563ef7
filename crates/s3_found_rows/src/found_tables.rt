//! The rows that were found.

use s3_stored_rows::{StoreNumbers, StoredBucket, StoredPart, StoredUpload, StoredVersion};

/// The rows of all tables, each table's in the order of the rowids.
#[derive(Drop)]
pub struct FoundTables {
    pub buckets: Vec<StoredBucket>,
    pub versions: Vec<StoredVersion>,
    pub uploads: Vec<StoredUpload>,
    pub parts: Vec<StoredPart>,
    pub store: Vec<StoreNumbers>,
}
