//! A change of the rows.

use crate::rows::{StoreNumbers, StoredBucket, StoredPart, StoredUpload, StoredVersion, TableName};

/// One change of a table. A row that is added takes the place of none: where its rowid is there, or what is unique in its
/// table, it is refused.
#[derive(Drop)]
pub enum Change {
    AddBucket(StoredBucket),
    AddVersion(StoredVersion),
    AddUpload(StoredUpload),
    AddPart(StoredPart),
    AddStore(StoreNumbers),
    /// The row with this rowid is gone, where there is one.
    DropRow(TableName, i64),
}
