//! The SHA-256 of a body, as its bytes arrive.

ghost use Rattle.std.specs.Prelude.{◌≡◌, ◌++◌, ℕ, List, [], Some};
ghost use Rattle.sha2.specs.Hashers.{Holds256};
ghost use Rattle.s3_payloads.specs.Verdict.{has_hash};

use sha2::{Digest, Sha256};

/// The hash that a body has to have, in hexadecimal digits, and that of the bytes so far.
#[derive(Drop)]
pub(crate) struct RunningHash {
    told: [u8; 64],
    running: Sha256,
}

impl RunningHash {
    // The hash of no bytes yet.
    pub(crate) fn new(told: [u8; 64]) -> RunningHash
        ensures told { result.told ≡ told }
        ensures running { Holds256 result.running [] }
    {
        RunningHash {
            told,
            running: Sha256::new(),
        }
    }

    // Hashes more bytes.
    pub(crate) fn update(&mut self, piece: &[u8])
        ensures told { self.new.told ≡ self.old.told }
        ensures running { (bytes : List ℕ) → Holds256 self.old.running bytes → Holds256 self.new.running (bytes ++ piece.now) }
    {
        self.running.update(piece);
    }

    // Whether the bytes so far have the hash.
    pub(crate) fn is_met(&self) -> bool
        ensures { (bytes : List ℕ) → Holds256 self.now.running bytes → result ≡ has_hash (Some self.now.told) bytes }
    {
        let Ok(running) = self.running.clone() else {
            // A hasher has no memory of its own, so its copy needs none.
            unreachable!()
        };
        let mut digits = [0u8; 64];
        let _fits = hex::encode_to_slice(running.finalize(), &mut digits);
        digits.as_slice() == self.told.as_slice()
    }
}
