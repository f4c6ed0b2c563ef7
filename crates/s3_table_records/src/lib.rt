//! Records over rows and bodies: `TableRecords` keeps a catalogue in the rows of tables, and the bytes of its versions and parts
//! apart, under the numbers that the rows name.
#![tactic(auto)]

mod asking;
mod buckets;
mod completing;
mod completion;
mod copying;
mod dropping;
mod found;
mod gone;
mod keeping;
mod listed;
mod named;
mod numbering;
mod opening;
mod parts;
mod putting;
mod reading;
mod table_records;
mod uploads;

pub use opening::open_buckets;
pub use table_records::TableRecords;
