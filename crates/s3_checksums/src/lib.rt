//! The cyclic redundancy checks that S3 clients send with an object and ask for: CRC-32, CRC-32C and CRC-64/NVME.
//! A message is taken in piece by piece, eight bytes at a time, and nothing here takes memory. What each checksum is
//! stands in `specs/Crc.antt`, by its polynomial.
#![tactic(auto)]

mod hashers;
mod laws;
mod slicing;
mod tables;
#[cfg(test)]
mod tests;

pub use hashers::{Crc32, Crc32c, Crc64Nvme};
pub use laws::checksums_are_remainders;
