//! What a server is started with: its region, its access keys, its limits and its first buckets.
#![tactic(auto)]

mod settings;

pub use settings::{Config, Credential};
