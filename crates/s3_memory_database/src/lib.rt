//! A database over two disks in memory, which ends with the process: what a clause of the database says where its disk
//! is clean, it says of this one always.
#![tactic(auto)]

mod database;

pub use database::{Database, open_in_memory, stays_clean};
