//! Bytes in chunks of one size.
ghost use Rattle.std.specs.Prelude.{◌≡◌, ℕ, ◌+◌, ◌^◌, ◌<◌, ◌≤◌, List, [], ◌++◌, length, take, drop, OnOk};
ghost use Rattle.s3_memory_disk.specs.Chunks.{overwritten};

use crate::chunk::{CHUNK, Chunk};
use std::alloc::{AllocError, Global};
use std::marker::Model;

/// Bytes in chunks of one size. Contracts see them as their list.
#[derive(Drop)]
pub(crate) struct Chunks {
    chunks: Vec<Chunk>,
}

impl Model for Chunks {
    ghost use Rattle.std.specs.Prelude.{ℕ, List};
    ghost use Rattle.std.specs.List.{concat};
    ghost use Rattle.s3_memory_disk.specs.Chunks.{AreChunks};

    ghost Value = { List ℕ };

    ghost view = { λ bytes. concat bytes.chunks.items };

    ghost invariant = { λ bytes. AreChunks 65_536 bytes.chunks.items };
}

impl Chunks {
    /// No bytes, which take no memory.
    pub(crate) fn new(alloc: Global) -> Chunks
        ensures { result ≡ [] }
    {
        Chunks {
            chunks: Vec::new(alloc),
        }
    }

    /// Adds chunks of zeros until there are at least so many bytes. None of those that are there moves.
    pub(crate) fn grow(&mut self, len: usize) -> Result<(), AllocError>
        ensures room { OnOk result (len ≤ length self.new) }
        ensures kept { take (length self.old) self.new ≡ self.old }
        ensures no_fewer { length self.old ≤ length self.new }
    {
        let alloc = *self.chunks.allocator();
        let wanted = len.div_ceil(CHUNK);
        while self.chunks.len() < wanted {
            self.chunks.push(Chunk::zeros(alloc)?)?;
        }
        Ok(())
    }

    /// Gives back the memory of the chunks past so many bytes.
    pub(crate) fn shrink(&mut self, len: usize)
        requires { len ≤ length self.old }
        ensures kept { take len self.new ≡ take len self.old }
        ensures room { len ≤ length self.new }
    {
        self.chunks.truncate(len.div_ceil(CHUNK));
    }

    /// Copies out what lies from this place on.
    pub(crate) fn read(&self, at: usize, buf: &mut [u8])
        requires inside { at + length buf.old ≤ length self.now }
        requires fits { at + length buf.old < 2 ^ 64 }
        ensures { buf.new ≡ take (length buf.old) (drop at self.now) }
    {
        let mut done = 0;
        while done < buf.len() {
            done += self.read_piece(at + done, &mut buf[done..]);
        }
    }

    /// Copies the bytes in, from this place on.
    pub(crate) fn write(&mut self, at: usize, bytes: &[u8])
        requires inside { at + length bytes.now ≤ length self.old }
        requires fits { at + length bytes.now < 2 ^ 64 }
        ensures { self.new ≡ overwritten self.old at bytes.now }
    {
        let mut done = 0;
        while done < bytes.len() {
            done += self.write_piece(at + done, &bytes[done..]);
        }
    }

    // Copies out what lies in one chunk from this place on, as far as it is asked for, and tells how many bytes that are.
    fn read_piece(&self, at: usize, buf: &mut [u8]) -> usize
        requires some { 0 < length buf.old }
        requires inside { at + length buf.old ≤ length self.now }
        ensures some { 0 < result }
        ensures most { result ≤ length buf.old }
        ensures value { buf.new ≡ take result (drop at self.now) ++ drop result buf.old }
    {
        let index = at / CHUNK;
        let offset = at % CHUNK;
        let count = buf.len().min(CHUNK - offset);
        self.chunks[index].read(offset, &mut buf[..count]);
        count
    }

    // Copies in as many of the bytes as lie in one chunk from this place on, and tells how many that are.
    fn write_piece(&mut self, at: usize, bytes: &[u8]) -> usize
        requires some { 0 < length bytes.now }
        requires inside { at + length bytes.now ≤ length self.old }
        ensures some { 0 < result }
        ensures most { result ≤ length bytes.now }
        ensures value { self.new ≡ overwritten self.old at (take result bytes.now) }
    {
        let index = at / CHUNK;
        let offset = at % CHUNK;
        let count = bytes.len().min(CHUNK - offset);
        self.chunks[index].write(offset, &bytes[..count]);
        count
    }
}
