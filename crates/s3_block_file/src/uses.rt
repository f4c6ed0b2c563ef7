//! Counts of how many bodies have each granule. One that is 0 says that the granule is free, and so is each past the end.
ghost use Rattle.std.specs.Prelude.{◌≡◌, ◌↔◌, ◌+◌, ◌<◌, ◌≤◌, ℕ, length, slice_index, IsTrue, OnOk, OnErr};
ghost use Rattle.s3_block_file.specs.Uses.{AreFree, AreTaken, AreListed, HaveRoom, OneMore};

use std::alloc::AllocError;

/// The first granule that is free, where none below this one is.
pub(crate) fn first_free(uses: &[u32], low: usize) -> usize
    requires { AreTaken uses.now 0 low }
    ensures within { result ≤ length uses.now }
    ensures taken { AreTaken uses.now 0 result }
{
    for granule in low..uses.len() {
        if uses[granule] == 0 {
            return granule;
        }
    }
    uses.len()
}

/// From this granule on, the first place with so many in a row that are free.
pub(crate) fn first_fit(uses: &[u32], low: usize, count: usize) -> usize
    requires low { low ≤ length uses.now }
    requires some { 0 < count }
    ensures within { result ≤ length uses.now }
    ensures free { AreFree uses.now result count }
    ensures first { (at : ℕ) → low ≤ at → at < result → AreFree uses.now at count → ⊥ }
{
    let mut from = low;
    for granule in low..uses.len() {
        if uses[granule] > 0 {
            from = granule + 1;
        } else if granule - from + 1 == count {
            return from;
        }
    }
    from
}

/// Makes the list so long at least, by granules that are free.
pub(crate) fn grow(uses: &mut Vec<u32>, len: usize) -> Result<(), AllocError>
    ensures same { (k : ℕ) → slice_index uses.new.items k ≡ slice_index uses.old.items k }
    ensures room { OnOk result (len ≤ length uses.new.items) }
    ensures unchanged { OnErr result (uses.new.items ≡ uses.old.items) }
{
    if uses.len() < len {
        uses.resize(len, 0)?;
    }
    Ok(())
}

/// Whether all these granules are free.
pub(crate) fn are_free(uses: &[u32], first: usize, count: usize) -> bool
    requires { first + count ≤ length uses.now }
    ensures { IsTrue result ↔ AreFree uses.now first count }
{
    for granule in first..first + count {
        if uses[granule] > 0 {
            return false;
        }
    }
    true
}

/// Whether one body more can have these granules.
pub(crate) fn have_room(uses: &[u32], first: usize, count: usize) -> bool
    requires { AreTaken uses.now first count }
    ensures { IsTrue result ↔ HaveRoom uses.now first count }
{
    for granule in first..first.saturating_add(count) {
        if uses[granule] == u32::MAX {
            return false;
        }
    }
    true
}

/// One body more has these granules.
pub(crate) fn raise(uses: &mut [u32], first: usize, count: usize)
    requires listed { AreListed uses.old first count }
    requires room { HaveRoom uses.old first count }
    ensures { OneMore first count uses.old uses.new }
{
    for granule in first..first.saturating_add(count) {
        uses[granule] += 1;
    }
}

/// One body less has these granules.
pub(crate) fn lower(uses: &mut [u32], first: usize, count: usize)
    requires { AreTaken uses.old first count }
    ensures { OneMore first count uses.new uses.old }
{
    for granule in first..first.saturating_add(count) {
        uses[granule] -= 1;
    }
}
