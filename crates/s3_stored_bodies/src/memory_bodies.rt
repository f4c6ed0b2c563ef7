//! Bodies in memory.
ghost use Rattle.std.specs.Prelude.{⊤, ◌≡◌, ◌↔◌, ◌<◌, ◌^◌, [], ◌∷◌, Some, None, true, IsTrue, IfOk, OnOk, OnErr};
ghost use Rattle.std.specs.FinMap as map;
ghost use Rattle.s3_stored_bodies.specs.Numbers.{named_more};
ghost use Rattle.s3_stored_bodies.specs.Held.{contents_of, uses_of, named_where_held};
ghost use Rattle.s3_stored_bodies.specs.declared.held.HeldBody.{HeldBody};

use crate::held::HeldBody;
use crate::stored_bodies::{NotSettled, StoredBodies};
use s3_bodies::Body;
use s3_terms::NoMemory;
use std::alloc::Global;
use std::collections::BTreeMap;
use std::marker::Model;

/// No number reaches this one: integers of SQLite end here.
const END_OF_NUMBERS: u64 = 1 << 63;

/// Bodies in memory, which are gone when the server ends. A number that `keep` gives is above all that stand, or stood. To
/// find a body costs the logarithm of how many there are.
#[derive(Drop)]
pub struct MemoryBodies {
    by_number: BTreeMap<u64, HeldBody>,
    next: u64,
}

impl Model for MemoryBodies {
    ghost use Rattle.std.specs.Prelude.{◌≤◌, ◌^◌};
    ghost use Rattle.std.specs.FinMap as map;
    ghost use Rattle.s3_stored_bodies.specs.Held.{Held, coded_held, AreBelow};

    ghost Value = { Held };

    ghost coded = { coded_held };

    ghost view = { λ bodies. map.from_entries bodies.by_number.entries };

    ghost invariant = { λ bodies. AreBelow bodies.next (map.from_entries bodies.by_number.entries) × (bodies.next ≤ 2 ^ 63) };
}

impl MemoryBodies {
    /// No bodies, which takes no memory yet.
    pub fn new(alloc: Global) -> MemoryBodies
        ensures contents { contents_of result ≡ map.empty }
        ensures uses { uses_of result ≡ (λ _. 0) }
    {
        MemoryBodies {
            by_number: BTreeMap::new(alloc),
            next: 0,
        }
    }

    /// Whether a row names this number.
    pub fn is_named(&self, number: u64) -> bool
        ensures { IsTrue result ↔ (0 < uses_of self.now number) }
    {
        self.by_number.contains_key(&number)
    }

    /// How many bodies there are. It serves to take room for each, and no clause tells of it.
    pub fn count(&self) -> usize {
        self.by_number.len()
    }

    /// Keeps a body for one row under a number that its caller chose, and which no row names. `NoMemory` leaves all as it
    /// was.
    pub fn keep_under(&mut self, number: u64, body: Body) -> Result<(), NoMemory>
        requires unnamed { uses_of self.old number ≡ 0 }
        requires below { number < 2 ^ 63 }
        ensures contents { OnOk result (contents_of self.new ≡ map.insert (contents_of self.old) number body) }
        ensures uses { OnOk result (uses_of self.new ≡ named_more (number ∷ []) (uses_of self.old)) }
        ensures err { OnErr result (self.new ≡ self.old) }
    {
        self.put(number, body)
    }

    // Puts a body under the next number, for one row. `NoMemory` leaves all as it was.
    fn add(&mut self, body: Body) -> Result<u64, NoMemory>
        ensures ok { IfOk result (λ number. self.new ≡ map.insert self.old number (record { body = body; more = 0 })) }
        ensures new { IfOk result (λ number. map.get self.old number ≡ None) }
        ensures below { IfOk result (λ number. number < 2 ^ 63) }
        ensures err { OnErr result (self.new ≡ self.old) }
    {
        let number = self.next;
        if number >= END_OF_NUMBERS {
            return Err(NoMemory);
        }
        self.put(number, body)?;
        Ok(number)
    }

    // Puts a body under a number, for one row, in place of what stood there. The next number is above it. `NoMemory` leaves
    // all as it was.
    fn put(&mut self, number: u64, body: Body) -> Result<(), NoMemory>
        requires { number < 2 ^ 63 }
        ensures ok { OnOk result (self.new ≡ map.insert self.old number (record { body = body; more = 0 })) }
        ensures err { OnErr result (self.new ≡ self.old) }
    {
        let former = self.by_number.insert(number, HeldBody { body, more: 0 })?;
        drop(former);
        self.next = self.next.max(number + 1);
        Ok(())
    }

    // The body under a number that is named.
    fn found(&self, number: u64) -> &HeldBody
        requires { 0 < uses_of self.now number }
        ensures { map.get self.now number ≡ Some result.now }
    {
        match self.by_number.get(&number) {
            // The caller knows that the number is named.
            None => unreachable!(),
            Some(held) => held,
        }
    }

    // Counts anew how many rows name a number beside the first.
    fn set_more(&mut self, number: u64, more: u64)
        requires { 0 < uses_of self.old number }
        ensures { (held : HeldBody) → map.get self.old number ≡ Some held
            → self.new ≡ map.insert self.old number (record { body = held.body; more = more }) }
    {
        match self.by_number.get_mut(&number) {
            // The caller knows that the number is named.
            None => unreachable!(),
            Some(held) => held.more = more,
        }
    }

    // Drops the body under a number.
    fn drop_body(&mut self, number: u64)
        ensures { self.new ≡ map.remove self.old number }
    {
        drop(self.by_number.remove(&number));
    }
}

impl StoredBodies for MemoryBodies {
    ghost contents = { contents_of };

    ghost uses = { uses_of };

    ghost is_in_memory = { true };

    ghost leaves = { λ _ _. ⊥ };

    ghost outlives = { λ _ _ _. ⊤ };

    ghost named_where_there = { named_where_held };

    fn outlive_crashes(&self) {}

    fn settle(&mut self) -> Result<(), NotSettled> {
        Ok(())
    }

    fn let_go(&mut self) {}

    fn keep(&mut self, _alloc: Global, body: Body) -> Result<u64, NoMemory> {
        self.add(body)
    }

    fn share(&mut self, number: u64) -> Result<(), NoMemory> {
        let Some(more) = self.found(number).more.checked_add(1) else {
            return Err(NoMemory);
        };
        self.set_more(number, more);
        Ok(())
    }

    fn give_up(&mut self, number: u64) {
        let more = self.found(number).more;
        if more == 0 {
            self.drop_body(number);
        } else {
            self.set_more(number, more - 1);
        }
    }

    fn body(&mut self, _alloc: Global, number: u64) -> Result<Body, NoMemory> {
        self.found(number).body.copy()
    }

    fn size(&self, number: u64) -> u64 {
        self.found(number).body.size()
    }
}
