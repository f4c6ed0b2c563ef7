//! What is asked of a list.

use s3_names::{UploadId, VersionId};
use s3_prefixes::Text;

/// What is asked of a list of a bucket's versions (Amazon S3 API Reference, ListObjectVersions).
#[derive(Drop)]
pub struct VersionsAsked {
    /// Only keys that begin so are told.
    pub prefix: Text,
    /// Keys that are alike up to the first of it behind the prefix are told as one common prefix; none are where it is empty.
    pub delimiter: Text,
    /// Only what stands behind this key is told, unless a version of it is named, and only common prefixes that do.
    pub key_marker: Text,
    /// Only what stands behind the version of this id of that key is told; where there is none, what stands behind the key.
    pub id_marker: Option<VersionId>,
    /// How many versions and common prefixes a page has at most, from 0 to 1,000.
    pub max_keys: u16,
    /// Whether keys and what was asked by are told UriEncoded (`encoding-type=url`).
    pub is_url_encoded: bool,
}

/// What is asked of a list of the uploads in a bucket (Amazon S3 API Reference, ListMultipartUploads).
#[derive(Drop)]
pub struct UploadsAsked {
    /// Only uploads whose keys begin so are told.
    pub prefix: Text,
    /// Keys that are alike up to the first of it behind the prefix are told as one common prefix; none are where it is empty.
    pub delimiter: Text,
    /// Only what stands behind this key is told, unless an upload of it is named, and only common prefixes that do.
    pub key_marker: Text,
    /// Of that key only uploads with greater ids than this one are told, whether it is there or not.
    pub id_marker: Option<UploadId>,
    /// How many uploads and common prefixes a page has at most, from 0 to 1,000.
    pub max_uploads: u16,
    /// Whether keys and what was asked by are told UriEncoded (`encoding-type=url`).
    pub is_url_encoded: bool,
}

/// What is asked of a list of an upload's parts (Amazon S3 API Reference, ListParts).
#[derive(Clone, Copy)]
pub struct PartsAsked {
    /// Only parts with greater numbers are told.
    pub marker: u64,
    /// How many parts a page has at most, from 0 to 1,000.
    pub max_parts: u16,
}
