//! What a DeleteObjects names, what each of these deletions makes of the versions of its key, and what is told of it. The
//! rules stand in `specs/Deletions.antt`.
#![tactic(auto)]

mod named;
mod rules;
mod told;

pub use named::{Deletion, DeletionFault, KeyDeletion, NamedObject, NamedObjects};
pub use rules::{acts, is_own, marker_told};
pub use told::{DeletionRow, DeletionRows, Markers};
