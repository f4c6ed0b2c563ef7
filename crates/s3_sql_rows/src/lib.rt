//! The rows of a store in SQLite tables over disks in memory, as `s3_stored_rows` asks for them. It is the one crate that
//! drops such a database, which is dear to prove.
#![tactic(auto)]

mod sql_rows;

pub use sql_rows::SqlRows;
