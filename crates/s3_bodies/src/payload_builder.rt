//! A payload that grows as its bytes arrive.

ghost use Rattle.std.specs.Prelude.{◌≡◌, ℕ, ◌<◌, [], ◌++◌, length, MatchResult, OnErr};
ghost use Rattle.md5.specs.Md5.{md5};

use crate::{BodyBuilder, Payload, Sink};
use md5::{Digest, Md5};
use s3_terms::NoMemory;
use std::alloc::Global;
use std::marker::Model;

/// A payload that grows as its bytes arrive: they are kept, and their MD5 runs along. Contracts see it as
/// the list of its bytes so far.
#[derive(Drop)]
pub struct PayloadBuilder {
    body: BodyBuilder,
    digest: Md5,
}

impl Model for PayloadBuilder {
    ghost use Rattle.std.specs.Prelude.{ℕ, List};
    ghost use Rattle.md5.specs.Md5.{Holds};

    ghost Value = { List ℕ };

    ghost view = { λ builder. builder.body };

    ghost invariant = { λ builder. Holds builder.digest builder.body };
}

impl PayloadBuilder {
    /// A payload without bytes yet, which takes no memory. So many are expected, as `BodyBuilder::new` says.
    pub fn new(alloc: Global, expected: u64) -> PayloadBuilder
        ensures { result ≡ [] }
    {
        PayloadBuilder {
            body: BodyBuilder::new(alloc, expected),
            digest: Md5::new(),
        }
    }

    /// How many bytes were taken.
    pub fn size(&self) -> u64
        ensures { result ≡ length self.now }
    {
        self.body.size()
    }

    /// The MD5 of all bytes that were taken.
    pub fn digest(&self) -> [u8; 16]
        ensures { result ≡ md5 self.now }
    {
        let Ok(digest) = self.digest.clone() else {
            // A hasher has no memory of its own, so its copy needs none.
            unreachable!()
        };
        digest.finalize()
    }

    /// The payload of all bytes that were taken, which are moved and not copied.
    pub fn finish(self) -> Payload
        ensures { result ≡ self }
    {
        let PayloadBuilder { body, digest } = self;
        Payload::new(body, digest.finalize())
    }
}

/// Data is copied once and hashed once.
impl Sink for PayloadBuilder {
    ghost taken = { λ builder. builder };

    ghost may_refuse = { λ _ more. 0 < length more };

    fn take(&mut self, data: &[u8]) -> Result<(), NoMemory>
        ensures taken { MatchResult result
            (λ _. self.new ≡ self.old ++ «data».now)
            (λ _. self.new ≡ self.old) }
        ensures cause { OnErr result (0 < length «data».now) }
    {
        self.body.take(data)?;
        self.digest.update(data);
        Ok(())
    }
}
