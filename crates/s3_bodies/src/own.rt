//! Bytes that one body alone has.

ghost use Rattle.std.specs.Prelude.{◌≡◌, ◌+◌, ◌-◌, ◌<◌, ◌≤◌, length, take, drop, IfOk};
ghost use Rattle.s3_bodies.specs.Pieces.{IsPieceAt};

use crate::block::Block;
use crate::piece::Piece;
use s3_terms::NoMemory;
use std::marker::Model;

/// A part of bytes that lie together and aren't shared. Contracts see it as the list of its bytes.
#[derive(Drop)]
pub(crate) struct Own {
    whole: Block,
    from: u64,
    size: u64,
}

impl Model for Own {
    ghost use Rattle.std.specs.Prelude.{ℕ, List, take, drop};
    ghost use Rattle.s3_bodies.specs.Pieces.{IsWithin};

    ghost Value = { List ℕ };

    ghost view = { λ part. take part.size (drop part.from part.whole) };

    ghost invariant = { λ part. IsWithin part.from part.size part.whole };
}

// So many of these bytes from a place on.
fn cut(whole: &[u8], from: u64, size: u64) -> &[u8]
    requires { from + size ≤ length whole.now }
    ensures { result.now ≡ take size (drop from whole.now) }
{
    let (from, size) = (from as usize, size as usize);
    &whole[from..from + size]
}

impl Own {
    /// All of these bytes, which are moved and not copied. It takes no memory.
    pub(crate) fn of(whole: Vec<u8>) -> Own
        ensures { result ≡ whole.items }
    {
        let size = whole.len() as u64;
        Own {
            whole: Block::of(whole),
            from: 0,
            size,
        }
    }

    /// How many bytes there are.
    pub(crate) fn size(&self) -> u64
        ensures { result ≡ length self.now }
    {
        self.size
    }

    /// All bytes.
    pub(crate) fn as_bytes(&self) -> &[u8]
        ensures { result.now ≡ self.now }
    {
        cut(self.whole.as_bytes(), self.from, self.size)
    }

    /// The same bytes, which are copied.
    pub(crate) fn copy(&self) -> Result<Own, NoMemory>
        ensures { IfOk result (λ part. part ≡ self.now) }
    {
        Ok(Own {
            whole: self.whole.copy()?,
            from: self.from,
            size: self.size,
        })
    }

    /// Some of them. It takes no memory.
    pub(crate) fn slice(self, from: u64, size: u64) -> Own
        requires { from + size ≤ length self }
        ensures { result ≡ take size (drop from self) }
    {
        let Own {
            whole,
            from: start,
            size: _,
        } = self;
        Own {
            whole,
            from: start + from,
            size,
        }
    }

    /// All of them from a place on.
    #[tactic(auto, using(crate::proofs::PartLemmas::pieces_of_own))]
    pub(crate) fn piece(&self, at: u64) -> Piece<'_>
        requires { at < length self.now }
        ensures stands { IsPieceAt at self.now result.bytes }
        ensures all { result.bytes ≡ take (length self.now - at) (take result.run result.rest) }
        ensures to_end { at + length result.bytes ≡ length self.now }
    {
        let rest = self.whole.rest((self.from + at) as usize);
        rest.within(self.size - at)
    }
}
