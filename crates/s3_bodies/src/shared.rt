//! A part of what is shared.

ghost use Rattle.std.specs.Prelude.{◌≡◌, ℕ, ◌+◌, ◌-◌, ◌<◌, ◌≤◌, List, length, take, drop, IfOk};
ghost use Rattle.s3_bodies.specs.Pieces.{IsPieceAt};

use crate::piece::Piece;
use s3_terms::NoMemory;
use std::alloc::Global;
use std::marker::Model;
use std::sync::Arc;

/// Bytes that stand somewhere in pieces.
pub(crate) trait InPieces {
    ghost bytes: { Self → List ℕ };

    /// How many there are.
    fn size(&self) -> u64
        ensures { result ≡ length (bytes self.now) };

    /// Those that lie together from a place on, up to the end of a block or of a run.
    fn piece(&self, at: u64) -> Piece<'_>
        requires { at < length (bytes self.now) }
        ensures stands { IsPieceAt at (bytes self.now) result.bytes }
        ensures to_end { result.bytes ≡ take result.run result.rest };
}

/// A part of bytes that are shared and don't change. Contracts see it as the list of its bytes.
#[derive(Drop)]
pub(crate) struct Shared<T: InPieces> {
    pub(crate) whole: Arc<T>,
    pub(crate) from: u64,
    pub(crate) size: u64,
}

impl<T: InPieces> Model for Shared<T> {
    ghost use Rattle.std.specs.Prelude.{ℕ, List, take, drop};
    ghost use Rattle.std.specs.Arc.{arc_value};
    ghost use Rattle.s3_bodies.specs.Pieces.{IsWithin};

    ghost Value = { List ℕ };

    ghost view = { λ part. take part.size (drop part.from (T.bytes (arc_value part.whole))) };

    ghost invariant = { λ part. IsWithin part.from part.size (T.bytes (arc_value part.whole)) };
}

impl<T: InPieces + Drop> Shared<T> {
    /// All of these bytes, which are moved and not copied.
    pub(crate) fn new(alloc: Global, whole: T) -> Result<Shared<T>, NoMemory>
        ensures { IfOk result (λ part. part ≡ T.bytes whole) }
    {
        let size = whole.size();
        let whole = Arc::new(alloc, whole)?;
        Ok(Shared {
            whole,
            from: 0,
            size,
        })
    }

    /// How many bytes there are.
    pub(crate) fn size(&self) -> u64
        ensures { result ≡ length self.now }
    {
        self.size
    }

    /// The same bytes, which are shared.
    pub(crate) fn copy(&self) -> Result<Shared<T>, NoMemory>
        ensures { IfOk result (λ part. part ≡ self.now) }
    {
        Ok(Shared {
            whole: Arc::try_clone(&self.whole)?,
            from: self.from,
            size: self.size,
        })
    }

    /// Some of them.
    pub(crate) fn slice(self, from: u64, size: u64) -> Shared<T>
        requires { from + size ≤ length self }
        ensures { result ≡ take size (drop from self) }
    {
        let Shared {
            whole,
            from: start,
            size: _,
        } = self;
        Shared {
            whole,
            from: start + from,
            size,
        }
    }

    /// Those that lie together from a place on: only the end of all cuts off more of the same block or run.
    #[tactic(auto, using(crate::proofs::PartLemmas::pieces_of_part))]
    pub(crate) fn piece(&self, at: u64) -> Piece<'_>
        requires { at < length self.now }
        ensures stands { IsPieceAt at self.now result.bytes }
        ensures to_end { result.bytes ≡ take (length self.now - at) (take result.run result.rest) }
    {
        self.whole.piece(self.from + at).within(self.size - at)
    }
}
