//! The kinds of checksums, and the headers that carry them.
ghost use Rattle.std.specs.Prelude.{◌≡◌};
ghost use Rattle.s3_integrity.specs.Algorithm.{header_of, named};

/// A kind of checksum that a client may send of an object (Amazon S3 User Guide, "Checking object integrity").
#[derive(Clone, Copy, PartialEq, Eq)]
pub enum ChecksumAlgorithm {
    /// CRC-32 (RFC 1952), 4 bytes.
    Crc32,
    /// CRC-32C (RFC 3720), 4 bytes.
    Crc32c,
    /// CRC-64/NVME (NVM Express NVM Command Set Specification), 8 bytes.
    Crc64Nvme,
    /// SHA-1 (FIPS 180-4), 20 bytes.
    Sha1,
    /// SHA-256 (FIPS 180-4), 32 bytes.
    Sha256,
}

impl ChecksumAlgorithm {
    /// The kind whose header has this name, in any letter case; `None` where no kind's has. It takes time by the length of
    /// the name, and no memory.
    #[tactic(auto, unfolding(crate::specs::Algorithm::named))]
    pub fn named(name: &[u8]) -> Option<ChecksumAlgorithm>
        ensures { result ≡ named name.now }
    {
        if name.eq_ignore_ascii_case(b"x-amz-checksum-crc32") {
            Some(ChecksumAlgorithm::Crc32)
        } else if name.eq_ignore_ascii_case(b"x-amz-checksum-crc32c") {
            Some(ChecksumAlgorithm::Crc32c)
        } else if name.eq_ignore_ascii_case(b"x-amz-checksum-crc64nvme") {
            Some(ChecksumAlgorithm::Crc64Nvme)
        } else if name.eq_ignore_ascii_case(b"x-amz-checksum-sha1") {
            Some(ChecksumAlgorithm::Sha1)
        } else if name.eq_ignore_ascii_case(b"x-amz-checksum-sha256") {
            Some(ChecksumAlgorithm::Sha256)
        } else {
            None
        }
    }

    /// The name of the header that carries checksums of this kind, in lower case. No other kind's header has it.
    /// It takes no time and no memory.
    #[tactic(auto, unfolding(crate::specs::Algorithm::named))]
    pub fn header(self) -> &'static [u8]
        ensures name { result.now ≡ header_of self }
        ensures own { named result.now ≡ Some self }
    {
        match self {
            ChecksumAlgorithm::Crc32 => b"x-amz-checksum-crc32",
            ChecksumAlgorithm::Crc32c => b"x-amz-checksum-crc32c",
            ChecksumAlgorithm::Crc64Nvme => b"x-amz-checksum-crc64nvme",
            ChecksumAlgorithm::Sha1 => b"x-amz-checksum-sha1",
            ChecksumAlgorithm::Sha256 => b"x-amz-checksum-sha256",
        }
    }
}
