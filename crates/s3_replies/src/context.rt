//! What a reply takes from the message that it answers.

use s3_calendar::Moment;
use s3_integrity::Checksum;
use s3_terms::Dialect;

/// What a reply takes from the message that it answers.
#[derive(Clone, Copy)]
pub struct Context {
    /// The moment of the message, which dates the reply.
    pub moment: Moment,
    /// The message is a HEAD, so that the reply has no body. A head that could not be read counts
    /// as none.
    pub head_only: bool,
    /// The connection ends with this reply.
    pub closes: bool,
    /// How the document of the reply is spelled.
    pub dialect: Dialect,
    /// A reply that shows all bytes of an object tells the checksums that are kept with it (Amazon S3 API Reference, GetObject,
    /// `x-amz-checksum-mode`).
    pub tells_checksums: bool,
    /// The checksum that was found of its body, which the reply to a PutObject or an UploadPart tells.
    pub checksum: Option<Checksum>,
}
