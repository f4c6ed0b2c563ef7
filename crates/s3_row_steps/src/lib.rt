//! The changes of records as changes of a store's rows: each makes the rows of its values, asks which rows go, and has all changed
//! together, or nothing. What it answers is the numbers of bodies that the rows named that went.
#![tactic(auto)]

mod buckets;
mod finding;
mod parts;
mod standing;
mod uploads;
mod versions;

pub use buckets::{add_bucket, drop_bucket, set_versioning};
pub use finding::{found_upload, found_upload_row, found_version};
pub use parts::put_part;
pub use uploads::{add_upload, complete, drop_upload};
pub use versions::{delete, drop_version, put_version};
