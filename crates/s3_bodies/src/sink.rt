//! Where the data of a body goes as it arrives.

ghost use Rattle.std.specs.Prelude.{◌≡◌, ◌++◌, ℕ, List, MatchResult, OnErr};

use s3_terms::NoMemory;

/// What takes the data of a body as it comes. A contract sees it as the bytes that it took.
pub trait Sink {
    /// The bytes that it took.
    ghost taken: { Self → List ℕ };

    /// Whether there may be no memory for these bytes behind those.
    ghost may_refuse: { Self → List ℕ → Type 0 } = { λ _ _. Unit {0} };

    /// Takes `data` behind what it took.
    ///
    /// # Errors
    ///
    /// `NoMemory` where memory runs out; it then has what it had.
    fn take(&mut self, data: &[u8]) -> Result<(), NoMemory>
        ensures taken { MatchResult result
            (λ _. taken self.new ≡ taken self.old ++ «data».now)
            (λ _. taken self.new ≡ taken self.old) }
        ensures cause { OnErr result (may_refuse self.old «data».now) };
}
