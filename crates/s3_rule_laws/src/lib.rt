//! Laws of the rules that a reader relies on without reading them: sorting, queries, the members of documents, ranges of bytes, and
//! preconditions. Each says in a user's words what follows from a definition of a lower crate, and is a function with nothing to
//! run.
#![tactic(auto)]

mod examples;
mod members;
mod preconditions;
mod queries;
mod ranges;
mod sorting;
mod tags;

pub use examples::standard_examples_hold;
pub use members::members_rise;
pub use preconditions::{dates_decide, preconditions_have_an_order};
pub use queries::{
    signed_queries_are_sorted, signed_targets_have_the_same_parameters, targets_are_spelled,
};
pub use ranges::{ranges_come_last, ranges_select_bytes};
pub use sorting::{lists_are_sorted, texts_are_sorted};
pub use tags::{tag_lists_match, tags_decide};
