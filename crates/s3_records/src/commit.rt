//! Why changes aren't committed.

/// Why a keeper can't say that a crash leaves what was changed.
#[derive(Clone, Copy)]
pub enum CommitError {
    /// Memory or room ran out. What a crash leaves isn't known yet, and the keeper may be asked again.
    NoMemory,
    /// What the keeper stands on has failed. It makes no more changes.
    Failed,
}
