//! The bodies of messages, read as their bytes arrive: what a head says of its body, and the payload that
//! is found, or what is wrong with it and where.
#![tactic(auto)]

mod chunks;
mod either_chunks;
mod form;
mod laws;
mod reader;
mod running_hash;
mod running_sum;
mod summed_data;
mod trailed;
mod whole;

pub use form::{Digests, Form, form_of};
pub use laws::{
    accepted_bodies_are_whole, digests_are_encoded, open_bodies_are_short, payloads_are_judged,
    refusals_stand, verdicts_are_final,
};
pub use reader::PayloadReader;
