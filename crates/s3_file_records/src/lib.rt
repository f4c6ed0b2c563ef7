//! Records that outlive a run: their rows stand in SQLite tables in memory and in a file, and their bytes in memory and in a file of
//! blocks. It has the keeper that `--data` asks for, and is the one crate that puts these together.
#![tactic(auto)]

mod again;
mod file_keeper;
mod numbers;
mod opening;
mod progress;
mod system_keeper;
mod system_tables;

pub use again::opened_again;
pub use file_keeper::{FileBodies, FileKeeper, FileRecords, FileRows};
pub use system_keeper::{SystemKeeper, SystemRecords};
pub use system_tables::SystemTables;
