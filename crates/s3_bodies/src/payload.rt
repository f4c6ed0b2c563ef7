//! A body that has been read and found right.

ghost use Rattle.std.specs.Prelude.{◌≡◌, ◌<◌, length, IfOk, OnErr};
ghost use Rattle.md5.specs.Md5.{md5};

use crate::{Body, BodyBuilder};
use s3_names::Tag;
use s3_terms::NoMemory;
use std::marker::Model;

/// The body of a message, once it has been read and found right, with the MD5 of its bytes. Contracts
/// see a payload as the list of its bytes: the digest follows from them. The bytes are its own, and are shared from
/// `into_body` on.
#[derive(Drop)]
pub struct Payload {
    bytes: BodyBuilder,
    digest: [u8; 16],
}

impl Model for Payload {
    ghost use Rattle.std.specs.Prelude.{◌≡◌, ℕ, List};
    ghost use Rattle.md5.specs.Md5.{md5};

    ghost Value = { List ℕ };

    ghost view = { λ payload. payload.bytes };

    ghost invariant = { λ payload. payload.digest ≡ md5 payload.bytes };
}

impl Payload {
    ghost use Rattle.s3_bodies.specs.Payload.{tag_of};

    /// The payload of these bytes and their MD5, which the caller has made while it read them.
    pub(crate) fn new(bytes: BodyBuilder, digest: [u8; 16]) -> Payload
        requires { digest ≡ md5 bytes }
        ensures { result ≡ bytes }
    {
        Payload { bytes, digest }
    }

    /// The entity tag of the bytes.
    pub fn tag(&self) -> Tag
        ensures { result ≡ tag_of self.now }
    {
        Tag::of_digest(self.digest)
    }

    /// The MD5 of the bytes.
    pub fn digest(&self) -> [u8; 16]
        ensures { result ≡ md5 self.now }
    {
        self.digest
    }

    /// The bytes, which are moved and not copied. `NoMemory` comes only where there are any.
    pub fn into_body(self) -> Result<Body, NoMemory>
        ensures value { IfOk result (λ body. body ≡ self) }
        ensures memory { OnErr result (0 < length self) }
    {
        let Payload { bytes, digest: _ } = self;
        bytes.finish()
    }
}
