//! A part of an upload.

use s3_bodies::{Body, Payload};
use s3_calendar::Moment;
use s3_names::Tag;
use s3_terms::NoMemory;

/// A part, as it was sent or copied. `B` is what stands for the bytes.
#[derive(Drop)]
pub struct Part<B> {
    /// What its tag is made of: the MD5 of its bytes, or of what names them where it was copied.
    pub digest: [u8; 16],
    /// When it was put.
    pub moment: Moment,
    /// How many bytes there are.
    pub size: u64,
    /// The bytes, or what stands for them.
    pub body: B,
}

impl<B> Part<B> {
    ghost use Rattle.std.specs.Prelude.{◌≡◌};
    ghost use Rattle.s3_uploads.specs.Parts.{part_tag};

    /// Its entity tag.
    pub fn tag(&self) -> Tag
        ensures { result ≡ part_tag self.now }
    {
        Tag::of_digest(self.digest)
    }
}

impl Part<Body> {
    ghost use Rattle.std.specs.Prelude.{◌≡◌, ◌<◌, length, IfOk, OnErr};
    ghost use Rattle.s3_uploads.specs.Parts.{part_sent};

    /// The part that was sent at this moment with this payload, whose bytes are moved and not copied. `NoMemory` comes only
    /// where there are any.
    pub fn sent(moment: Moment, payload: Payload) -> Result<Part<Body>, NoMemory>
        ensures value { IfOk result (λ part. part ≡ part_sent moment payload) }
        ensures memory { OnErr result (0 < length payload) }
    {
        let digest = payload.digest();
        let body = payload.into_body()?;
        Ok(Part {
            digest,
            moment,
            size: body.size(),
            body,
        })
    }
}

/// What a list of parts tells of one.
#[derive(Drop)]
pub struct PartRow {
    /// Its number, from 1 to 10,000.
    pub number: u64,
    pub moment: Moment,
    pub tag: Tag,
    pub size: u64,
}
