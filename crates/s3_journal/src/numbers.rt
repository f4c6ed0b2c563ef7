//! The numbers of a roster's seats.

ghost use Rattle.std.specs.Prelude.{◌≡◌, ◌+◌, ◌<◌, ◌≤◌, ◌==◌, ◌||◌, if◌then◌else◌, ℕ, true, false, IfOk, OnOk, OnErr};
ghost use Rattle.std.specs.BTreeSet.{btree_set_len};
ghost use Rattle.s3_journal.specs.Roster.{is_out};

use s3_terms::NoMemory;
use std::alloc::Global;
use std::collections::BTreeSet;
use std::marker::Model;

/// The numbers of the seats that are out, and the next one. No number is given twice.
#[derive(Drop)]
pub(crate) struct Numbers {
    out: BTreeSet<u64>,
    next: u64,
}

impl Model for Numbers {
    ghost use Rattle.s3_journal.specs.Roster.{Numbered, AreBelow};

    ghost Value = { Numbered };

    ghost view = { λ n. record { next = n.next; out = n.out } };

    ghost invariant = { λ n. AreBelow (record { next = n.next; out = n.out }) };
}

impl Numbers {
    /// The numbers from this one on. None is out.
    pub(crate) fn new(alloc: Global, first: u64) -> Numbers
        ensures next { result.next ≡ first }
        ensures len { btree_set_len result.out ≡ 0 }
        ensures nobody { (n : ℕ) → is_out result n ≡ false }
    {
        Numbers {
            out: BTreeSet::new(alloc),
            next: first,
        }
    }

    /// The next number, which is out from now on. It has to be less than `last`.
    pub(crate) fn give(&mut self, last: u64) -> Result<u64, NoMemory>
        ensures number { IfOk result (λ number. number ≡ self.old.next) }
        ensures less { OnOk result (self.old.next < last) }
        ensures next { OnOk result (self.new.next ≡ self.old.next + 1) }
        ensures out { OnOk result ((n : ℕ) → is_out self.new n ≡ (n == self.old.next || is_out self.old n)) }
        ensures len { OnOk result (btree_set_len self.new.out ≡ btree_set_len self.old.out + 1) }
        ensures fresh { OnOk result (is_out self.old self.old.next ≡ false) }
        ensures err { OnErr result (self.new ≡ self.old) }
    {
        let number = self.next;
        if last <= number {
            return Err(NoMemory);
        }
        self.out.insert(number)?;
        self.next = number + 1;
        Ok(number)
    }

    /// Takes back a number that is out.
    pub(crate) fn take(&mut self, number: u64)
        requires out { is_out self.old number ≡ true }
        ensures next { self.new.next ≡ self.old.next }
        ensures out { (n : ℕ) → is_out self.new n ≡ (if n == number then false else is_out self.old n) }
        ensures len { btree_set_len self.new.out + 1 ≡ btree_set_len self.old.out }
        ensures below { number < self.old.next }
    {
        self.out.remove(&number);
    }

    /// Whether a number is out.
    pub(crate) fn has(&self, number: u64) -> bool
        ensures { result ≡ is_out self.now number }
    {
        self.out.contains(&number)
    }

    /// Whether none is out.
    pub(crate) fn is_empty(&self) -> bool
        ensures { result ≡ (btree_set_len self.now.out == 0) }
    {
        self.out.is_empty()
    }
}
