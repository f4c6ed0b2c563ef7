//! How much of a body has come.

ghost use Rattle.std.specs.Prelude.{◌≡◌, ◌+◌, ◌-◌, ◌≤◌};
ghost use Rattle.s3_aws_chunked.specs.Count.{advanced};

use std::marker::Model;

/// How many bytes of a body were taken, of how many.
#[derive(Drop)]
pub(crate) struct Span {
    taken: u64,
    whole: u64,
}

impl Model for Span {
    ghost use Rattle.std.specs.Prelude.{◌≤◌};
    ghost use Rattle.s3_aws_chunked.specs.Count.{Count};

    ghost Value = { Count };

    ghost view = { λ s. record { taken = s.taken; whole = s.whole } };

    ghost invariant = { λ s. s.taken ≤ s.whole };
}

impl Span {
    // None of so many.
    pub(crate) fn new(whole: u64) -> Span
        ensures { result ≡ record { taken = 0; whole = whole } }
    {
        Span { taken: 0, whole }
    }

    // How many were taken.
    pub(crate) fn taken(&self) -> u64
        ensures { result ≡ self.now.taken }
    {
        self.taken
    }

    // Of how many.
    pub(crate) fn whole(&self) -> u64
        ensures { result ≡ self.now.whole }
    {
        self.whole
    }

    // How many are to come.
    pub(crate) fn left(&self) -> u64
        ensures sum { result + self.now.taken ≡ self.now.whole }
        ensures value { result ≡ self.now.whole - self.now.taken }
    {
        self.whole - self.taken
    }

    // Takes so many more, of those that are to come.
    pub(crate) fn advance(&mut self, more: u64)
        requires { self.old.taken + more ≤ self.old.whole }
        ensures { self.new ≡ advanced self.old more }
    {
        self.taken += more;
    }
}
