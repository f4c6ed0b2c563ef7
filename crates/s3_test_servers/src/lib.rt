//! Settings of servers for tests: the access key of AWS's published examples, and the region, the limits and the
//! buckets that a test asks for. Tests of several crates share them, so that they are proved once.
#![tactic(auto)]

mod settings;

pub use settings::{ID, SECRET, config, config_in};
