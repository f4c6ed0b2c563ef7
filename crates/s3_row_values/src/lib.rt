//! The rows of a store and what they are made of: each value of records becomes a row, and each row the value again. The bytes of
//! a version and of a part stand apart, under the numbers that its row names.
#![tactic(auto)]

mod bytes;
mod columns;
mod described;
mod making;
mod reading;
mod reading_uploads;

pub use described::{Described, DescribedPart};
pub use making::{bucket_row, marker_row, part_row, upload_row, version_row};
pub use reading::{
    bucket_facts, facts_from, key_row_from, listed_bucket, version_from, version_row_from,
};
pub use reading_uploads::{part_from, part_row_from, upload_from, upload_row_from};
