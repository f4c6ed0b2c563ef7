//! How far a long call is, for those who wait for it.
#![tactic(auto)]

/// Whoever wants to know how far a call is. It decides nothing.
pub trait Progress {
    /// A piece of the work is done.
    fn step(&mut self);

    /// The work has ended, or was given up.
    fn end(&mut self);
}

/// Nobody who wants to know.
#[derive(Clone, Copy)]
pub struct Nobody;

impl Progress for Nobody {
    fn step(&mut self) {}

    fn end(&mut self) {}
}
