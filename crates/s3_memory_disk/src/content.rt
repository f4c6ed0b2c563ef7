//! What a file in memory holds.
ghost use Rattle.std.specs.Prelude.{◌≡◌, ℕ, ◌+◌, ◌^◌, ◌<◌, ◌≤◌, List, [], length, take, drop, OnOk, OnErr};
ghost use Rattle.sqlite_disk.specs.Disk.{Holds, Torn, Cut};

use crate::chunks::Chunks;
use std::alloc::{AllocError, Global};
use std::marker::Model;

/// What a file in memory holds. Contracts see it as the list of its bytes.
#[derive(Drop)]
pub(crate) struct Content {
    chunks: Chunks,
    len: usize,
}

impl Model for Content {
    ghost use Rattle.std.specs.Prelude.{ℕ, List, take, length, ◌≤◌};

    ghost Value = { List ℕ };

    ghost view = { λ content. take content.len content.chunks };

    ghost invariant = { λ content. content.len ≤ length content.chunks };
}

impl Content {
    /// No bytes, which take no memory.
    pub(crate) fn new(alloc: Global) -> Content
        ensures { result ≡ [] }
    {
        Content {
            chunks: Chunks::new(alloc),
            len: 0,
        }
    }

    pub(crate) fn len(&self) -> usize
        ensures { result ≡ length self.now }
    {
        self.len
    }

    /// Copies out what lies from this place on.
    pub(crate) fn read(&self, at: usize, buf: &mut [u8])
        requires inside { at + length buf.old ≤ length self.now }
        requires fits { at + length buf.old < 2 ^ 64 }
        ensures { buf.new ≡ take (length buf.old) (drop at self.now) }
    {
        self.chunks.read(at, buf);
    }

    /// Copies the bytes in, from this place on. The file grows where they go past its end.
    pub(crate) fn write(&mut self, at: usize, bytes: &[u8]) -> Result<(), AllocError>
        ensures written { OnOk result (Holds self.new at bytes.now) }
        ensures others { Torn at (length bytes.now) self.old self.new }
        ensures err { OnErr result (self.new ≡ self.old) }
    {
        let end = at.checked_add(bytes.len()).ok_or(AllocError)?;
        self.chunks.grow(end)?;
        self.chunks.write(at, bytes);
        self.len = self.len.max(end);
        Ok(())
    }

    /// Makes the file so long. Where it shrinks, it gives back the memory of the chunks past its end.
    pub(crate) fn resize(&mut self, len: usize) -> Result<(), AllocError>
        ensures len { OnOk result (length self.new ≡ len) }
        ensures others { Cut len self.old self.new }
        ensures err { OnErr result (self.new ≡ self.old) }
    {
        if len < self.len {
            self.chunks.shrink(len);
        } else {
            self.chunks.grow(len)?;
        }
        self.len = len;
        Ok(())
    }
}
