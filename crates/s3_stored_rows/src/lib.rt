//! The rows of a store, as they are given and found, and what every keeper of them promises (`StoredRows`): a list of changes
//! is made whole or not at all, all changes are committed together, and what is asked is answered by the rows as they are. What the
//! rows mean is defined in `s3_rows`.
#![tactic(auto)]

mod change;
mod copying;
mod rows;
mod stored_rows;

pub use change::Change;
pub use copying::copied_changes;
pub use rows::{StoreNumbers, StoredBucket, StoredPart, StoredUpload, StoredVersion, TableName};
pub use stored_rows::StoredRows;
