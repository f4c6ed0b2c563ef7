//! The dialects of documents.

/// How documents are spelled.
#[derive(Clone, Copy)]
pub enum Dialect {
    /// As JSON (RFC 8259).
    Json,
    /// In XML, as the Amazon S3 API Reference has them.
    S3,
}
