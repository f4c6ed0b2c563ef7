//! Bytes of a body that lie together.

ghost use Rattle.std.specs.Prelude.{◌≡◌, ◌-◌, ◌≤◌, min, length, take, drop};
ghost use Rattle.s3_bodies.specs.Pieces.{IsPieceAt};

use crate::block::Block;
use crate::blocks::Blocks;
use crate::shared::Shared;
use std::marker::Model;

/// Some bytes of a body that lie together in a block. Contracts see the bytes, all that stand in the block from the same
/// place on, and how many of those stand in the same run of a joined body. A piece is made of a block alone.
#[derive(Drop)]
pub struct Piece<'a> {
    rest: &'a [u8],
    run: u64,
    bytes: &'a [u8],
}

impl<'a> Model for Piece<'a> {
    ghost use Rattle.s3_bodies.specs.Pieces.{PieceParts};

    ghost Value = { PieceParts };

    ghost view = { λ p. record { rest = p.rest.now; run = p.run; bytes = p.bytes.now } };
}

impl<'a> Piece<'a> {
    // All bytes of a block from a place on.
    pub(crate) fn in_block(block: &'a Block, at: usize) -> Piece<'a>
        requires { at ≤ length block.now }
        ensures { result ≡ record { rest = drop at block.now; run = length (drop at block.now); bytes = drop at block.now } }
    {
        let rest = &block.as_bytes()[at..];
        Piece {
            rest,
            run: rest.len() as u64,
            bytes: rest,
        }
    }

    // At most so many of them, which are what a range has left.
    pub(crate) fn within(self, left: u64) -> Piece<'a>
        ensures { result ≡ record { rest = self.entry.rest; run = self.entry.run; bytes = take left self.entry.bytes } }
    {
        let Piece { rest, run, bytes } = self;
        if (bytes.len() as u64) <= left {
            return Piece { rest, run, bytes };
        }
        Piece {
            rest,
            run,
            bytes: &bytes[..left as usize],
        }
    }

    // The same as a piece of a run, which stands in that from a place on.
    pub(crate) fn in_run(self, part: &'a Shared<Blocks>, from: u64) -> Piece<'a>
        requires { IsPieceAt from part.now self.bytes }
        ensures { result ≡ record {
          rest = self.entry.rest;
          run = min self.entry.run (length part.now - from);
          bytes = self.entry.bytes;
        } }
    {
        let Piece { rest, run, bytes } = self;
        Piece {
            rest,
            run: run.min(part.size() - from),
            bytes,
        }
    }

    /// The bytes.
    pub fn bytes(self) -> &'a [u8]
        ensures { result.now ≡ self.entry.bytes }
    {
        self.bytes
    }
}
