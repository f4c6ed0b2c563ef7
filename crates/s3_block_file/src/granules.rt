//! How many bodies have each granule of a file.
ghost use Rattle.std.specs.Prelude.{◌≡◌, ◌⊎◌, ◌+◌, ◌<◌, ◌≤◌, ◌^◌, ℕ, List, [], length, slice_index, count_by, All, IfOk, IfErr, OnOk, OnErr, IsErrOf};
ghost use Rattle.s3_storage.specs.declared.storage_fault.StorageFault.TheVariants.{NoMemory as OutOfMemory, Damaged, NoRoom};
ghost use Rattle.s3_block_file.specs.Extent.{granules_for, lies_in, IsAddressable, EndsWithin, AreDisjoint};
ghost use Rattle.s3_block_file.specs.Faults.{IsOpenFault};
ghost use Rattle.s3_block_file.specs.Uses.{AreFree, AreTaken, HaveRoom, OneMore};

use crate::extent::{Extent, MAX_GRANULE};
use crate::uses::{are_free, first_fit, first_free, grow, have_room, lower, raise};
use s3_storage::StorageFault;
use std::alloc::Global;
use std::marker::Model;

/// How many bodies have each granule of a file. Contracts see it as the list of the counts.
#[derive(Drop)]
pub(crate) struct Granules {
    uses: Vec<u32>,
    /// None below it is free.
    low: usize,
}

impl Model for Granules {
    ghost use Rattle.std.specs.Prelude.{ℕ, List};
    ghost use Rattle.s3_block_file.specs.Uses.{AreTaken};

    ghost Value = { List ℕ };

    ghost view = { λ granules. granules.uses.items };

    ghost invariant = { λ granules. AreTaken granules.uses.items 0 granules.low };
}

impl Granules {
    /// Counts these extents, in a file of so many bytes. `Damaged` where one doesn't lie within the file and the limits, or two
    /// have a granule in common.
    pub(crate) fn counted(
        alloc: Global,
        live: &[Extent],
        size: usize,
    ) -> Result<Granules, StorageFault>
        ensures counts { IfOk result (λ granules. (k : ℕ) → slice_index granules k ≡ count_by (lies_in k) live.now) }
        ensures listed { IfOk result (λ granules. All (λ e. AreTaken granules e.first (granules_for e.size)) live.now) }
        ensures disjoint { OnOk result (AreDisjoint live.now) }
        ensures addressable { OnOk result (All IsAddressable live.now) }
        ensures within { OnOk result (All (EndsWithin size) live.now) }
        ensures damaged { IsErrOf result Damaged → All IsAddressable live.now → All (EndsWithin size) live.now → AreDisjoint live.now → ⊥ }
        ensures kinds { IfErr result IsOpenFault }
    {
        let mut granules = Granules::new(alloc);
        for extent in live {
            granules.place(extent, size)?;
        }
        Ok(granules)
    }

    /// Of a file where all is free. Takes no memory.
    fn new(alloc: Global) -> Granules
        ensures { result ≡ [] }
    {
        Granules {
            uses: Vec::new(alloc),
            low: 0,
        }
    }

    /// How many of them no body has.
    pub(crate) fn free_count(&self) -> usize {
        self.uses.iter().filter(|count| **count == 0).count()
    }

    /// Counts one extent more, whose granules must be free, in a file of so many bytes.
    fn place(&mut self, extent: &Extent, size: usize) -> Result<(), StorageFault>
        ensures addressable { OnOk result (IsAddressable extent.now) }
        ensures within { OnOk result (EndsWithin size extent.now) }
        ensures free { OnOk result (AreFree self.old extent.now.first (granules_for extent.now.size)) }
        ensures takes { OnOk result (OneMore extent.now.first (granules_for extent.now.size) self.old self.new) }
        ensures damaged { IsErrOf result Damaged → IsAddressable extent.now → EndsWithin size extent.now → AreFree self.old extent.now.first (granules_for extent.now.size) → ⊥ }
        ensures kinds { IfErr result IsOpenFault }
    {
        if !extent.is_addressable() || !extent.ends_within(size) {
            return Err(StorageFault::Damaged);
        }
        let count = extent.granules();
        grow(&mut self.uses, extent.first + count)?;
        if !are_free(&self.uses, extent.first, count) {
            return Err(StorageFault::Damaged);
        }
        raise(&mut self.uses, extent.first, count);
        Ok(())
    }

    /// Gives a body so many granules in a row that are free, and answers the first. `NoRoom` where that would be past the limit.
    pub(crate) fn take(&mut self, count: usize) -> Result<usize, StorageFault>
        requires some { 0 < count }
        requires few { count ≤ 2 ^ 50 }
        ensures near { IfOk result (λ first. first ≤ 2 ^ 40) }
        ensures fresh { IfOk result (λ first. AreFree self.old first count) }
        ensures first { IfOk result (λ first. (at : ℕ) → at < first → AreFree self.old at count → ⊥) }
        ensures takes { IfOk result (λ first. OneMore first count self.old self.new) }
        ensures full { IsErrOf result NoRoom → 2 ^ 40 < length self.old }
        ensures kinds { IfErr result (λ e. (e ≡ NoRoom) ⊎ (e ≡ OutOfMemory)) }
        ensures unchanged { OnErr result (self.new ≡ self.old) }
    {
        self.low = first_free(&self.uses, self.low);
        let first = first_fit(&self.uses, self.low, count);
        if first > MAX_GRANULE {
            return Err(StorageFault::NoRoom);
        }
        grow(&mut self.uses, first + count)?;
        raise(&mut self.uses, first, count);
        Ok(first)
    }

    /// One body more has these granules. `NoRoom` where one of them can't have more.
    pub(crate) fn raise(&mut self, first: usize, count: usize) -> Result<(), StorageFault>
        requires { AreTaken self.old first count }
        ensures takes { OnOk result (OneMore first count self.old self.new) }
        ensures full { IsErrOf result NoRoom → HaveRoom self.old first count → ⊥ }
        ensures kinds { IfErr result (λ e. e ≡ NoRoom) }
        ensures unchanged { OnErr result (self.new ≡ self.old) }
    {
        if !have_room(&self.uses, first, count) {
            return Err(StorageFault::NoRoom);
        }
        raise(&mut self.uses, first, count);
        Ok(())
    }

    /// One body less has these granules.
    pub(crate) fn lower(&mut self, first: usize, count: usize)
        requires { AreTaken self.old first count }
        ensures { OneMore first count self.new self.old }
    {
        lower(&mut self.uses, first, count);
        self.low = self.low.min(first);
    }
}

/// One body less has the granules of each of these extents.
pub(crate) fn lower_all(granules: &mut Granules, extents: &[Extent])
    requires { (k : ℕ) → count_by (lies_in k) extents.now ≤ slice_index granules.old k }
    ensures { (k : ℕ) → slice_index granules.new k + count_by (lies_in k) extents.now ≡ slice_index granules.old k }
{
    for extent in extents {
        granules.lower(extent.first, extent.granules());
    }
}
