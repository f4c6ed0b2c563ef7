//! Rows that stood in files before: how a store goes on with them. What goes on has sound rows, or is refused. Whether they are those
//! that were written, and which bytes they name, isn't known here.
#![tactic(auto)]

mod buckets;
mod found_tables;
mod loading;
mod naming;
mod parts;
mod store;
mod tables;
mod uploads;
mod versions;

pub use found_tables::FoundTables;
pub use loading::{Found, load};
