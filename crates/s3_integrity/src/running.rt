//! The hasher of each kind.
ghost use Rattle.std.specs.Prelude.{◌≡◌, List, [], ◌++◌, ℕ};
ghost use Rattle.std.specs.Str.{bytes_eq};
ghost use Rattle.sha1.specs.Sha1.{Holds as HoldsSha1, sha1};
ghost use Rattle.sha2.specs.Hashers.{Holds256};
ghost use Rattle.sha2.specs.Sha256.{sha256};
ghost use Rattle.s3_integrity.specs.Hasher.{HasTaken, kind_of};
ghost use Rattle.s3_integrity.specs.Sum.{sum_of, with_bytes};

use crate::{Checksum, ChecksumAlgorithm};
use s3_checksums::{Crc32, Crc32c, Crc64Nvme};
use sha1::Sha1;
use sha2::{Digest, Sha256};

/// A hasher of one kind, with a message that comes in pieces.
#[derive(Drop)]
pub(crate) enum Running {
    Crc32(Crc32),
    Crc32c(Crc32c),
    Crc64Nvme(Crc64Nvme),
    Sha1(Sha1),
    Sha256(Sha256),
}

impl Running {
    // A hasher of the empty message.
    #[tactic(auto, unfolding(crate::specs::Hasher::HasTaken))]
    pub(crate) fn new(algorithm: ChecksumAlgorithm) -> Running
        ensures kind { kind_of result ≡ algorithm }
        ensures taken { HasTaken result [] }
    {
        match algorithm {
            ChecksumAlgorithm::Crc32 => Running::Crc32(Crc32::new()),
            ChecksumAlgorithm::Crc32c => Running::Crc32c(Crc32c::new()),
            ChecksumAlgorithm::Crc64Nvme => Running::Crc64Nvme(Crc64Nvme::new()),
            ChecksumAlgorithm::Sha1 => Running::Sha1(Sha1::new()),
            ChecksumAlgorithm::Sha256 => Running::Sha256(Sha256::new()),
        }
    }

    // Adds `piece` to the message.
    #[tactic(auto, unfolding(crate::specs::Hasher::HasTaken))]
    pub(crate) fn update(&mut self, piece: &[u8])
        ensures kind { kind_of self.new ≡ kind_of self.old }
        ensures taken { (message : List ℕ) → HasTaken self.old message → HasTaken self.new (message ++ piece.now) }
    {
        match self {
            Running::Crc32(hasher) => hasher.update(piece),
            Running::Crc32c(hasher) => hasher.update(piece),
            Running::Crc64Nvme(hasher) => hasher.update(piece),
            Running::Sha1(hasher) => hasher.update(piece),
            Running::Sha256(hasher) => hasher.update(piece),
        }
    }

    // The kind of checksum that it is of.
    pub(crate) fn algorithm(&self) -> ChecksumAlgorithm
        ensures { result ≡ kind_of self.now }
    {
        match self {
            Running::Crc32(_) => ChecksumAlgorithm::Crc32,
            Running::Crc32c(_) => ChecksumAlgorithm::Crc32c,
            Running::Crc64Nvme(_) => ChecksumAlgorithm::Crc64Nvme,
            Running::Sha1(_) => ChecksumAlgorithm::Sha1,
            Running::Sha256(_) => ChecksumAlgorithm::Sha256,
        }
    }

    // The message's checksum.
    #[tactic(auto, unfolding(crate::specs::Hasher::HasTaken, crate::specs::Sum::sum_of))]
    pub(crate) fn sum(&self) -> Checksum
        ensures { (message : List ℕ) → HasTaken self.now message
            → result ≡ with_bytes (kind_of self.now) (sum_of (kind_of self.now) message) }
    {
        match self {
            Running::Crc32(hasher) => Checksum::Crc32(hasher.finish().to_be_bytes()),
            Running::Crc32c(hasher) => Checksum::Crc32c(hasher.finish().to_be_bytes()),
            Running::Crc64Nvme(hasher) => Checksum::Crc64Nvme(hasher.finish().to_be_bytes()),
            Running::Sha1(hasher) => Checksum::Sha1(sha1_in(hasher)),
            Running::Sha256(hasher) => Checksum::Sha256(sha256_in(hasher)),
        }
    }

    // Whether the bytes are those of the message's checksum.
    #[tactic(auto, using(crate::proofs::SumLemmas::bytes_made))]
    pub(crate) fn has(&self, bytes: &[u8]) -> bool
        ensures { (message : List ℕ) → HasTaken self.now message
            → result ≡ bytes_eq (sum_of (kind_of self.now) message) bytes.now }
    {
        self.sum().bytes() == bytes
    }
}

// That of SHA-1.
fn sha1_in(hasher: &Sha1) -> [u8; 20]
    ensures { (message : List ℕ) → HoldsSha1 hasher.now message → result ≡ sha1 message }
{
    let Ok(hasher) = hasher.clone() else {
        // A hasher has no memory of its own, so its copy needs none.
        unreachable!()
    };
    hasher.finalize()
}

// And of SHA-256.
fn sha256_in(hasher: &Sha256) -> [u8; 32]
    ensures { (message : List ℕ) → Holds256 hasher.now message → result ≡ sha256 message }
{
    let Ok(hasher) = hasher.clone() else {
        // Likewise.
        unreachable!()
    };
    hasher.finalize()
}
