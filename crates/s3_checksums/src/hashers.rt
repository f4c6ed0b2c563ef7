//! The three hashers.
ghost use Rattle.std.specs.Prelude.{◌≡◌, List, [], ◌++◌, ℕ};
ghost use Rattle.s3_checksums.specs.Crc.{crc, crc_32, crc_32c, crc_64_nvme};
ghost use Rattle.s3_checksums.specs.Hashers.{HoldsCrc32, HoldsCrc32c, HoldsCrc64Nvme};

use crate::{slicing, tables};

/// A message whose CRC-32 (RFC 1952) is wanted: `new`, an `update` for each piece, and `finish`.
#[derive(Clone, Copy)]
pub struct Crc32 {
    remainder: u32,
}

impl Crc32 {
    /// A hasher of the empty message.
    pub fn new() -> Crc32
        ensures { HoldsCrc32 result [] }
    {
        Crc32 {
            remainder: u32::MAX,
        }
    }

    /// Adds `piece` to the message. It takes time by the length of the piece.
    pub fn update(&mut self, piece: &[u8])
        ensures { (message : List ℕ) → HoldsCrc32 self.old message
            → HoldsCrc32 self.new (message ++ piece.now) }
    {
        let before = u64::from(self.remainder);
        self.remainder = slicing::absorbed(tables::for_crc_32(), before, piece) as u32;
    }

    /// The CRC-32 of the message.
    pub fn finish(self) -> u32
        ensures { (message : List ℕ) → HoldsCrc32 self message → result ≡ crc crc_32 message }
    {
        self.remainder ^ u32::MAX
    }
}

/// A message whose CRC-32C (RFC 3720) is wanted: `new`, an `update` for each piece, and `finish`.
#[derive(Clone, Copy)]
pub struct Crc32c {
    remainder: u32,
}

impl Crc32c {
    /// A hasher of the empty message.
    pub fn new() -> Crc32c
        ensures { HoldsCrc32c result [] }
    {
        Crc32c {
            remainder: u32::MAX,
        }
    }

    /// Adds `piece` to the message. It takes time by the length of the piece.
    pub fn update(&mut self, piece: &[u8])
        ensures { (message : List ℕ) → HoldsCrc32c self.old message
            → HoldsCrc32c self.new (message ++ piece.now) }
    {
        let before = u64::from(self.remainder);
        self.remainder = slicing::absorbed(tables::for_crc_32c(), before, piece) as u32;
    }

    /// The CRC-32C of the message.
    pub fn finish(self) -> u32
        ensures { (message : List ℕ) → HoldsCrc32c self message → result ≡ crc crc_32c message }
    {
        self.remainder ^ u32::MAX
    }
}

/// A message whose CRC-64/NVME (NVM Express NVM Command Set Specification) is wanted: `new`, an `update` for each piece, and
/// `finish`.
#[derive(Clone, Copy)]
pub struct Crc64Nvme {
    remainder: u64,
}

impl Crc64Nvme {
    /// A hasher of the empty message.
    pub fn new() -> Crc64Nvme
        ensures { HoldsCrc64Nvme result [] }
    {
        Crc64Nvme {
            remainder: u64::MAX,
        }
    }

    /// Adds `piece` to the message. It takes time by the length of the piece.
    pub fn update(&mut self, piece: &[u8])
        ensures { (message : List ℕ) → HoldsCrc64Nvme self.old message
            → HoldsCrc64Nvme self.new (message ++ piece.now) }
    {
        self.remainder = slicing::absorbed(tables::for_crc_64_nvme(), self.remainder, piece);
    }

    /// The CRC-64/NVME of the message.
    pub fn finish(self) -> u64
        ensures { (message : List ℕ) → HoldsCrc64Nvme self message → result ≡ crc crc_64_nvme message }
    {
        self.remainder ^ u64::MAX
    }
}
