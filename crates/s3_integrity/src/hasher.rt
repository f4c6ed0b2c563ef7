//! A message whose checksum is to be compared.
ghost use Rattle.std.specs.Prelude.{◌≡◌, ◌≢◌, false, List, [], ◌++◌, ℕ};
ghost use Rattle.s3_integrity.specs.Hasher.{Holds};
ghost use Rattle.s3_integrity.specs.Sum.{algorithm_of, has_sum, sum_of, with_bytes};

use crate::running::Running;
use crate::{Checksum, ChecksumAlgorithm};

/// A message that comes in pieces, of which one kind of checksum is wanted: `new`, an `update` for each piece, and `is_met` or
/// `sum`.
#[derive(Drop)]
pub struct ChecksumHasher {
    running: Running,
}

impl ChecksumHasher {
    /// A hasher of the empty message. It takes a bounded time, and no memory.
    #[tactic(auto, unfolding(crate::specs::Hasher::Holds))]
    pub fn new(algorithm: ChecksumAlgorithm) -> ChecksumHasher
        ensures { Holds result algorithm [] }
    {
        ChecksumHasher {
            running: Running::new(algorithm),
        }
    }

    /// Adds `piece` to the message. It takes time by the length of the piece, and no memory.
    #[tactic(auto, unfolding(crate::specs::Hasher::Holds))]
    pub fn update(&mut self, piece: &[u8])
        ensures { (algorithm : ChecksumAlgorithm) (message : List ℕ) → Holds self.old algorithm message
            → Holds self.new algorithm (message ++ piece.now) }
    {
        self.running.update(piece);
    }

    /// The checksum of the message so far, which may go on after that. It takes a bounded time, and no memory.
    #[tactic(auto, unfolding(crate::specs::Hasher::Holds))]
    pub fn sum(&self) -> Checksum
        ensures { (algorithm : ChecksumAlgorithm) (message : List ℕ) → Holds self.now algorithm message
            → result ≡ with_bytes algorithm (sum_of algorithm message) }
    {
        self.running.sum()
    }

    /// Whether the message so far has this checksum; it hasn't where the hasher is of another kind. The message may go on
    /// after that. It takes a bounded time, and no memory.
    #[tactic(auto, unfolding(crate::specs::Hasher::Holds, crate::specs::Sum::has_sum))]
    pub fn is_met(&self, sum: &Checksum) -> bool
        ensures same { (message : List ℕ) → Holds self.now (algorithm_of sum.now) message → result ≡ has_sum sum.now message }
        ensures other { (algorithm : ChecksumAlgorithm) (message : List ℕ) → Holds self.now algorithm message
            → algorithm ≢ algorithm_of sum.now → result ≡ false }
    {
        self.running.algorithm() == sum.algorithm() && self.running.has(sum.bytes())
    }
}
