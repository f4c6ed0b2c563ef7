//! The checksum of a body, as its bytes arrive.

ghost use Rattle.std.specs.Prelude.{◌≡◌, ◌++◌, ℕ, List, [], option_map};
ghost use Rattle.s3_integrity.specs.Hasher.{Holds};
ghost use Rattle.s3_integrity.specs.Sum.{algorithm_of, has_sum, sum_of, with_bytes};
ghost use Rattle.s3_payloads.specs.FoundSum.{sum_by};
ghost use Rattle.s3_payloads.specs.Whole.{SumsUp, sum_told};

use s3_integrity::{Checksum, ChecksumHasher};

/// The checksum that a body has to have, and that of the bytes so far.
#[derive(Drop)]
pub(crate) struct RunningSum {
    told: Checksum,
    running: ChecksumHasher,
}

impl RunningSum {
    // The checksum of no bytes yet.
    fn new(told: Checksum) -> RunningSum
        ensures told { result.told ≡ told }
        ensures running { Holds result.running (algorithm_of told) [] }
    {
        RunningSum {
            told,
            running: ChecksumHasher::new(told.algorithm()),
        }
    }

    // The same, where one is told.
    pub(crate) fn of(told: Option<Checksum>) -> Option<RunningSum>
        ensures told { sum_told result ≡ told }
        ensures running { SumsUp result [] }
    {
        match told {
            Some(told) => Some(RunningSum::new(told)),
            None => None,
        }
    }

    // Adds more bytes.
    fn update(&mut self, piece: &[u8])
        ensures told { self.new.told ≡ self.old.told }
        ensures running { (bytes : List ℕ) → Holds self.old.running (algorithm_of self.old.told) bytes
            → Holds self.new.running (algorithm_of self.old.told) (bytes ++ piece.now) }
    {
        self.running.update(piece);
    }

    // Whether the bytes so far have the checksum.
    pub(crate) fn is_met(&self) -> bool
        ensures { (bytes : List ℕ) → Holds self.now.running (algorithm_of self.now.told) bytes
            → result ≡ has_sum self.now.told bytes }
    {
        self.running.is_met(&self.told)
    }

    // The checksum of the bytes so far, of the kind that is told.
    fn sum(&self) -> Checksum
        ensures { (bytes : List ℕ) → Holds self.now.running (algorithm_of self.now.told) bytes
            → result ≡ with_bytes (algorithm_of self.now.told) (sum_of (algorithm_of self.now.told) bytes) }
    {
        self.running.sum()
    }
}

// The same, where one is told.
pub(crate) fn sum_of_bytes(sum: &Option<RunningSum>) -> Option<Checksum>
    ensures { (bytes : List ℕ) → SumsUp sum.now bytes → result ≡ sum_by (option_map algorithm_of (sum_told sum.now)) bytes }
{
    match sum {
        Some(sum) => Some(sum.sum()),
        None => None,
    }
}

// Adds more bytes to a checksum, where one is told.
pub(crate) fn add_to_sum(sum: &mut Option<RunningSum>, piece: &[u8])
    ensures told { sum_told sum.new ≡ sum_told sum.old }
    ensures running { (bytes : List ℕ) → SumsUp sum.old bytes → SumsUp sum.new (bytes ++ piece.now) }
{
    if let Some(sum) = sum {
        sum.update(piece);
    }
}
