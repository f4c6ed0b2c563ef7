//! The checksums that clients send of objects: which headers carry them, how their values are spelled, and whether a
//! message that comes in pieces has the checksum that was sent. Nothing here takes memory. What each checksum is stands in
//! `specs/Sum.antt`.
#![tactic(auto)]

mod algorithm;
mod checksum;
mod checksum_text;
mod hasher;
mod laws;
mod running;
#[cfg(test)]
mod tests;

pub use algorithm::ChecksumAlgorithm;
pub use checksum::Checksum;
pub use checksum_text::ChecksumText;
pub use hasher::ChecksumHasher;
pub use laws::checksums_are_encoded;
