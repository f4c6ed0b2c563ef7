//! Moments, in seconds since 1970, and the stamps that requests tell them by.
#![tactic(auto)]

mod moment;

pub use moment::{Moment, Stamp, stamps_of_a_moment};
