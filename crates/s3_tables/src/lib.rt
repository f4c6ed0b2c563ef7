//! The tables of a store in SQL: their schema, the statements over them, and a file that keeps them over any disk. A list
//! of changes is made in one transaction, all or none, also over a crash.
#![tactic(auto)]

mod applying;
mod changing;
mod comparing;
mod decoding;
mod laws;
mod making;
mod querying;
mod reading_buckets;
mod reading_rows;
mod reading_uploads;
mod reading_versions;
mod table_file;

pub use laws::{stored_rows_are_unique, stored_tables_are_one};
pub use table_file::TableFile;
