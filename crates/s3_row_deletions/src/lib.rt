//! Several deletions by one entry as changes of rows, which are made together or not at all.
#![tactic(auto)]

mod deletions;
mod standing;
mod steps;

pub use deletions::{Deletions, plan_deletions};
