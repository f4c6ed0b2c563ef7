//! HMAC with SHA-256 (RFC 2104): the message authentication code, MAC for short, that a holder of a key
//! gives for a message.
//!
//! A [`Mac`] takes the message piece by piece, and [`hmac`] takes it whole. Neither takes memory,
//! and nothing here can fail.
#![tactic(auto)]

mod mac;

pub use mac::{Mac, hmac, long_keys_are_hashed};
