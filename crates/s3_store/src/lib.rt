//! The store: the state of the machine, kept by one keeper of records. `Store::apply` takes one step for each command.
//! What a command does is `step` of `s3_machine`.
#![tactic(auto)]

mod bucket_steps;
mod completing;
mod conditions;
mod copying;
mod deletions;
mod key_steps;
mod list_steps;
mod part_copies;
mod reading;
mod sources;
mod store;
mod take;
mod upload_steps;

pub use store::Store;
