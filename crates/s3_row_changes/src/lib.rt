//! The changes of a store's rows: each is rows that are put in and taken out together, or not at all (`specs` of `s3_rows`, "what
//! changes of records do to tables"). Who changes rows has asked before which ones go.
#![tactic(auto)]

mod buckets;
mod dropping;
mod laws;
mod parts;
mod uploads;
mod versions;

pub use buckets::{drop_bucket, replace_bucket};
pub use laws::changes_trade_numbers;
pub use parts::put_part;
pub use uploads::{UploadRows, complete, drop_upload, put_upload, upload_rows};
pub use versions::{drop_version, put_version};
