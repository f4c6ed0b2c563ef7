//! Bytes that lie together.
ghost use Rattle.std.specs.Prelude.{◌≡◌, ℕ, ◌+◌, ◌≤◌, List, length, take, drop, IfOk};
ghost use Rattle.s3_memory_disk.specs.Chunks.{overwritten};

use std::alloc::{AllocError, Global};
use std::marker::Model;

/// How many bytes a chunk has.
pub(crate) const CHUNK: usize = 65_536;

/// Bytes that lie together, `CHUNK` of them. Contracts see them as their list.
#[derive(Drop)]
pub(crate) struct Chunk {
    bytes: Vec<u8>,
}

impl Model for Chunk {
    ghost Value = { List ℕ };

    ghost view = { λ chunk. chunk.bytes.items };
}

impl Chunk {
    /// A chunk of zeros.
    pub(crate) fn zeros(alloc: Global) -> Result<Chunk, AllocError>
        ensures { IfOk result (λ chunk. length chunk ≡ 65_536) }
    {
        let bytes = vec![in alloc; 0; CHUNK]?;
        Ok(Chunk { bytes })
    }

    /// Copies out what lies from this place on.
    pub(crate) fn read(&self, at: usize, buf: &mut [u8])
        requires { at + length buf.old ≤ length self.now }
        ensures { buf.new ≡ take (length buf.old) (drop at self.now) }
    {
        buf.copy_from_slice(&self.bytes[at..at + buf.len()]);
    }

    /// Copies the bytes in, from this place on.
    pub(crate) fn write(&mut self, at: usize, bytes: &[u8])
        requires { at + length bytes.now ≤ length self.old }
        ensures { self.new ≡ overwritten self.old at bytes.now }
    {
        self.bytes[at..at + bytes.len()].copy_from_slice(bytes);
    }
}
