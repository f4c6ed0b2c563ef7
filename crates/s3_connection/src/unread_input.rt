//! Bytes that are kept until they are taken.

ghost use Rattle.std.specs.Prelude.{◌≡◌, ◌≢◌, ◌≤◌, true, false, [], ◌++◌, drop, length, OnOk, OnErr};

use s3_terms::NoMemory;
use std::alloc::Global;
use std::marker::Model;

/// Bytes that came and are to be taken later, of which those in front are taken first. Of the bytes that it holds at most half
/// were taken, and where all were, it holds no memory. Contracts see the bytes that are left.
#[derive(Drop)]
pub struct UnreadInput {
    bytes: Vec<u8>,
    at: usize,
}

impl Model for UnreadInput {
    ghost use Rattle.std.specs.Prelude.{ℕ, ◌≤◌, List, drop, length};

    ghost Value = { List ℕ };

    ghost view = { λ k. drop k.at k.bytes.items };

    ghost invariant = { λ k. k.at ≤ length k.bytes.items };
}

impl UnreadInput {
    /// No bytes. It takes no memory.
    pub fn new(alloc: Global) -> UnreadInput
        ensures { result ≡ [] }
    {
        UnreadInput {
            bytes: Vec::new(alloc),
            at: 0,
        }
    }

    /// What is left, in one piece.
    pub fn as_slice(&self) -> &[u8]
        ensures { result.now ≡ self.now }
    {
        &self.bytes[self.at..]
    }

    /// Whether nothing is left.
    pub fn is_empty(&self) -> bool
        ensures none { result ≡ true → self.now ≡ [] }
        ensures some { result ≡ false → self.now ≢ [] }
    {
        self.as_slice().is_empty()
    }

    /// Keeps these bytes too, behind the others.
    ///
    /// # Errors
    ///
    /// `NoMemory` where there is no memory for them.
    pub fn add(&mut self, piece: &[u8]) -> Result<(), NoMemory>
        ensures added { OnOk result (self.new ≡ self.old ++ piece.now) }
        ensures same { OnErr result (self.new ≡ self.old) }
    {
        self.bytes.extend_from_slice(piece)?;
        Ok(())
    }

    /// Drops so many bytes in front. It takes no memory; over all calls, time by the bytes that were kept.
    pub fn skip(&mut self, alloc: Global, count: usize)
        requires within { count ≤ length self.old }
        ensures { self.new ≡ drop count self.old }
    {
        self.at += count;
        let left = self.bytes.len() - self.at;
        if left == 0 {
            self.bytes = Vec::new(alloc);
            self.at = 0;
        } else if self.at > left {
            self.bytes.rotate_left(self.at);
            self.bytes.truncate(left);
            self.at = 0;
        }
    }
}
