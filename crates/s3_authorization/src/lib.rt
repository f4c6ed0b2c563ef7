//! The value of the Authorization header: read as its parts, and how it is spelled (AWS Signature
//! Version 4, "Using the Authorization header"); and the same parts as a presigned query has them.
#![tactic(auto)]

mod authorization;
mod expires;

pub use authorization::{Authorization, authorizations_are_spelled, signed_names_are_cut};
pub use expires::Expires;
