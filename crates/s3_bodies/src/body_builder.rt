//! A body that grows as its bytes arrive.

ghost use Rattle.std.specs.Prelude.{◌≡◌, ℕ, ◌<◌, List, [], ◌++◌, length, MatchResult, IfOk, OnErr};

use crate::blocks::Blocks;
use crate::{Body, Sink};
use s3_terms::NoMemory;
use std::alloc::Global;
use std::marker::Model;

/// A body that grows as its bytes arrive. Contracts see it as the list of its bytes so far.
#[derive(Drop)]
pub struct BodyBuilder {
    blocks: Blocks,
    alloc: Global,
    expected: u64,
}

impl Model for BodyBuilder {
    ghost use Rattle.std.specs.Prelude.{ℕ, List};

    ghost Value = { List ℕ };

    ghost view = { λ builder. builder.blocks };
}

impl BodyBuilder {
    /// A body without bytes yet, which takes no memory. So many bytes are expected: room for them is got block by block,
    /// as they come, of at most 65,536 bytes ahead. Where others come, a block may be moved as it grows.
    pub fn new(alloc: Global, expected: u64) -> BodyBuilder
        ensures { result ≡ [] }
    {
        BodyBuilder {
            blocks: Blocks::empty(alloc),
            alloc,
            expected,
        }
    }

    /// How many bytes were taken.
    pub fn size(&self) -> u64
        ensures { result ≡ length self.now }
    {
        self.blocks.size()
    }

    /// The body of all bytes that were taken, which are moved and not copied. `NoMemory` comes only where there are any.
    pub fn finish(self) -> Result<Body, NoMemory>
        ensures value { IfOk result (λ body. body ≡ self) }
        ensures memory { OnErr result (0 < length self) }
    {
        let BodyBuilder {
            blocks,
            alloc,
            expected: _,
        } = self;
        Body::of_blocks(alloc, blocks)
    }
}

/// Data is copied once, into blocks that stay where they are.
impl Sink for BodyBuilder {
    ghost taken = { λ builder. builder };

    ghost may_refuse = { λ _ more. 0 < length more };

    fn take(&mut self, data: &[u8]) -> Result<(), NoMemory>
        ensures taken { MatchResult result
            (λ _. self.new ≡ self.old ++ «data».now)
            (λ _. self.new ≡ self.old) }
        ensures cause { OnErr result (0 < length «data».now) }
    {
        self.blocks.append(self.alloc, data, self.expected)
    }
}
