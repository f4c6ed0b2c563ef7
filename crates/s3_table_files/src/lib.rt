//! The tables and the blocks of a store in files of the system: made where there is nothing yet, and found again.
#![tactic(auto)]

mod blocks;
mod faults;
mod file_tables;
mod folder;
mod lasting_tables;
mod reading;
mod spare_room;
mod tables;

pub use blocks::open_blocks;
pub use faults::table_fault;
pub use file_tables::FileTables;
pub use folder::make_folder;
pub use lasting_tables::{LastingTables, change};
pub use reading::read_tables;
pub use spare_room::SpareRoom;
pub use tables::open_tables;
