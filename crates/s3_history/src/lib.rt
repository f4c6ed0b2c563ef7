//! Histories that stand in the proofs alone: who adds to one, and what others know of it. No memory holds an entry; contracts and
//! proofs speak of them.
#![tactic(auto)]

mod log;
mod recorder;

pub use log::{AsItself, Describes};
pub use recorder::{Prefix, Recorder};
