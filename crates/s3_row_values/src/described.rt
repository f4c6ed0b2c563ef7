//! What is kept of an object and of a part, but for its bytes.

use s3_calendar::Moment;
use s3_names::Tag;
use s3_versions::{ContentType, Metadata};

/// What a put stored, but for the bytes.
#[derive(Drop)]
pub struct Described {
    pub tag: Tag,
    /// How many bytes there are.
    pub size: u64,
    pub content_type: ContentType,
    pub metadata: Metadata,
}

/// A part, but for its bytes.
#[derive(Drop)]
pub struct DescribedPart {
    /// What its tag is made of.
    pub digest: [u8; 16],
    /// When it was put.
    pub moment: Moment,
    /// How many bytes there are.
    pub size: u64,
}
