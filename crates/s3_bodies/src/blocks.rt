//! The blocks of a body.

ghost use Rattle.std.specs.Prelude.{◌≡◌, ◌<◌, ◌-◌, ◌%◌, min, take, [], ◌++◌, length, IfOk, OnErr, MatchResult};
ghost use Rattle.s3_bodies.specs.Pieces.{IsPieceAt};

use crate::block::{BLOCK_SIZE, Block};
use crate::piece::Piece;
use crate::row::{Row, add, cut};
use crate::shared::InPieces;
use s3_terms::NoMemory;
use std::alloc::Global;
use std::marker::Model;

/// The blocks of a body, each of 1 to 65,536 bytes, and full but for the last one. Contracts see them as the list of
/// their bytes.
#[derive(Drop)]
pub(crate) struct Blocks {
    row: Row,
    size: u64,
}

impl Model for Blocks {
    ghost use Rattle.std.specs.Prelude.{◌≡◌, ℕ, List, ◌++◌, length};
    ghost use Rattle.std.specs.List.{concat};
    ghost use Rattle.s3_bodies.specs.Pieces.{AreBlocks};

    ghost Value = { List ℕ };

    ghost view = { λ b. concat b.row.full.items ++ b.row.last };

    ghost invariant = { λ b. AreBlocks 65536 b.row.full.items b.row.last (concat b.row.full.items ++ b.row.last)
        × (b.size ≡ length (concat b.row.full.items ++ b.row.last)) };
}

impl Blocks {
    /// No bytes, which take no memory.
    pub(crate) fn empty(alloc: Global) -> Blocks
        ensures { result ≡ [] }
    {
        Blocks {
            row: Row {
                full: Vec::new(alloc),
                last: Block::empty(alloc),
            },
            size: 0,
        }
    }

    /// How many bytes they have.
    pub(crate) fn size(&self) -> u64
        ensures { result ≡ length self.now }
    {
        self.size
    }

    /// These bytes in blocks of their own, of which so many are expected in all.
    fn of(alloc: Global, data: &[u8], expected: u64) -> Result<Blocks, NoMemory>
        ensures { IfOk result (λ blocks. blocks ≡ «data».now) }
    {
        let row = cut(alloc, data, expected)?;
        let size = data.len() as u64;
        Ok(Blocks { row, size })
    }

    /// Puts a copy of these bytes behind the others, in the last block and in blocks of their own: none is moved that is
    /// there, where no more bytes come than so many in all. `NoMemory`, which comes only where there are bytes, leaves
    /// all as it was.
    pub(crate) fn append(
        &mut self,
        alloc: Global,
        data: &[u8],
        expected: u64,
    ) -> Result<(), NoMemory>
        ensures taken { MatchResult result
            (λ _. self.new ≡ self.old ++ «data».now)
            (λ _. self.new ≡ self.old) }
        ensures cause { OnErr result (0 < length «data».now) }
    {
        if data.is_empty() {
            return Ok(());
        }
        if self.size == 0 {
            *self = Blocks::of(alloc, data, expected)?;
            return Ok(());
        }
        let Some(size) = self.size.checked_add(data.len() as u64) else {
            return Err(NoMemory);
        };
        let left = expected.saturating_sub(self.size);
        add(&mut self.row, alloc, data, left)?;
        self.size = size;
        Ok(())
    }
}

/// A place is found by a division.
impl InPieces for Blocks {
    ghost bytes = { λ blocks. blocks };

    fn size(&self) -> u64 {
        self.size
    }

    fn piece(&self, at: u64) -> Piece<'_>
        requires { at < length self.now }
        ensures stands { IsPieceAt at self.now result.bytes }
        ensures to_end { result.bytes ≡ take result.run result.rest }
        ensures size { length result.bytes ≡ min (65536 - at % 65536) (length self.now - at) }
    {
        let index = at as usize / BLOCK_SIZE;
        let from = at as usize % BLOCK_SIZE;
        if index < self.row.full.len() {
            return self.row.full[index].rest(from);
        }
        self.row.last.rest(from)
    }
}
