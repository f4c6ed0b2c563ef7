//! A block.

ghost use Rattle.std.specs.Prelude.{◌≡◌, ◌≤◌, ◌<◌, [], ◌++◌, length, drop, IfOk, MatchResult};

use crate::piece::Piece;
use s3_terms::NoMemory;
use std::alloc::Global;
use std::marker::Model;

/// The most bytes of a block, which all blocks of a body have but the last one.
pub const BLOCK_SIZE: usize = 65_536;

/// Some bytes that lie together. Contracts see a block as the list of its bytes.
#[derive(Drop)]
pub(crate) struct Block {
    bytes: Vec<u8>,
}

impl Model for Block {
    ghost use Rattle.std.specs.Prelude.{ℕ, List};

    ghost Value = { List ℕ };

    ghost view = { λ block. block.bytes.items };
}

impl Block {
    /// No bytes, which take no memory.
    pub(crate) fn empty(alloc: Global) -> Block
        ensures { result ≡ [] }
    {
        Block {
            bytes: Vec::new(alloc),
        }
    }

    /// These bytes, which are copied, with room for so many in all.
    pub(crate) fn with_room(alloc: Global, data: &[u8], room: usize) -> Result<Block, NoMemory>
        ensures { IfOk result (λ block. block ≡ «data».now) }
    {
        let mut bytes = Vec::with_capacity(alloc, room)?;
        bytes.extend_from_slice(data)?;
        Ok(Block { bytes })
    }

    /// These bytes, which are moved and not copied.
    pub(crate) fn of(bytes: Vec<u8>) -> Block
        ensures { result ≡ bytes.items }
    {
        Block { bytes }
    }

    /// The same bytes, which are copied.
    pub(crate) fn copy(&self) -> Result<Block, NoMemory>
        ensures { IfOk result (λ block. block ≡ self.now) }
    {
        Ok(Block {
            bytes: self.bytes.clone()?,
        })
    }

    /// All bytes.
    pub(crate) fn as_bytes(&self) -> &[u8]
        ensures { result.now ≡ self.now }
    {
        self.bytes.as_slice()
    }

    /// How many bytes it has.
    pub(crate) fn len(&self) -> usize
        ensures { result ≡ length self.now }
    {
        self.bytes.len()
    }

    /// All bytes from a place on.
    pub(crate) fn rest(&self, at: usize) -> Piece<'_>
        requires { at ≤ length self.now }
        ensures { result ≡ record { rest = drop at self.now; run = length (drop at self.now); bytes = drop at self.now } }
    {
        Piece::in_block(self, at)
    }

    /// Puts a copy of these bytes behind its own, which aren't moved while there is room.
    pub(crate) fn append(&mut self, data: &[u8]) -> Result<(), NoMemory>
        ensures { MatchResult result
            (λ _. self.new ≡ self.old ++ «data».now)
            (λ _. self.new ≡ self.old) }
    {
        self.bytes.extend_from_slice(data)?;
        Ok(())
    }
}
