//! Blocks one behind another, as they are filled.

ghost use Rattle.std.specs.Prelude.{◌≡◌, ◌<◌, ◌≤◌, ◌∷◌, ℕ, List, [], ◌++◌, length, IfOk, OnOk, OnErr};
ghost use Rattle.s3_bodies.specs.Pieces.{AreBlocks};

use crate::block::{BLOCK_SIZE, Block};
use s3_terms::NoMemory;
use std::alloc::Global;
use std::mem::replace;

/// Blocks that are full, and the last one, which needn't be.
#[derive(Drop)]
pub(crate) struct Row {
    pub(crate) full: Vec<Block>,
    pub(crate) last: Block,
}

// How much room a block gets whose first bytes are so many: for those that are expected from its first byte on, if they
// are no more than a block has.
fn room_for(len: usize, expected: u64) -> usize {
    let wanted = expected.min(BLOCK_SIZE as u64) as usize;
    wanted.max(len)
}

// These bytes in blocks, of which so many are expected in all.
pub(crate) fn cut(alloc: Global, data: &[u8], expected: u64) -> Result<Row, NoMemory>
    ensures { IfOk result (λ row. AreBlocks 65536 row.full.items row.last «data».now) }
{
    let mut full = Vec::new(alloc);
    let mut rest = data;
    let mut left = expected;
    while rest.len() > BLOCK_SIZE {
        let (front, back) = rest.split_at(BLOCK_SIZE);
        full.push(Block::with_room(alloc, front, BLOCK_SIZE)?)?;
        rest = back;
        left = left.saturating_sub(BLOCK_SIZE as u64);
    }
    let last = Block::with_room(alloc, rest, room_for(rest.len(), left))?;
    Ok(Row { full, last })
}

// Puts a copy of these bytes behind those of the blocks, in the last one and in blocks of their own, of which so many are
// expected in all. Memory is found before anything changes.
pub(crate) fn add(row: &mut Row, alloc: Global, data: &[u8], expected: u64) -> Result<(), NoMemory>
    requires some { 0 < length «data».now }
    requires fits { length row.old.last ≤ 65536 }
    ensures added { OnOk result ((bytes : List ℕ) → AreBlocks 65536 row.old.full.items row.old.last bytes
        → AreBlocks 65536 row.new.full.items row.new.last (bytes ++ «data».now)) }
    ensures err { OnErr result ((row.new.full.items ≡ row.old.full.items) × (row.new.last ≡ row.old.last)) }
{
    let room = BLOCK_SIZE - row.last.len();
    if data.len() <= room {
        row.last.append(data)?;
        return Ok(());
    }
    let (front, back) = data.split_at(room);
    let more = cut(alloc, back, expected.saturating_sub(room as u64))?;
    fill(row, front, more)?;
    Ok(())
}

// Fills the last block with these bytes, and puts other blocks behind it. Memory is found before anything changes.
fn fill(row: &mut Row, data: &[u8], more: Row) -> Result<(), NoMemory>
    ensures full { OnOk result (row.new.full.items
        ≡ (row.old.full.items ++ (row.old.last ++ «data».now) ∷ []) ++ more.full.items) }
    ensures last { OnOk result (row.new.last ≡ more.last) }
    ensures err { OnErr result ((row.new.full.items ≡ row.old.full.items) × (row.new.last ≡ row.old.last)) }
{
    let Row {
        full: mut behind,
        last,
    } = more;
    row.full.reserve(1 + behind.len())?;
    row.last.append(data)?;
    let filled = replace(&mut row.last, last);
    let Ok(()) = row.full.push(filled) else {
        // Its place was reserved above.
        unreachable!()
    };
    let Ok(()) = row.full.append(&mut behind) else {
        // Their places were reserved above.
        unreachable!()
    };
    Ok(())
}
