//! What is asked of a list of objects.

use crate::Text;

/// Which list of a bucket's objects is asked for.
#[derive(Clone, Copy)]
pub enum ListVersion {
    /// The first one (Amazon S3 API Reference, ListObjects), which goes on behind a marker: the text of an item.
    First,
    /// The second one (ListObjectsV2), which goes on behind a token.
    Second,
}

/// What is asked of a list of a bucket's objects (Amazon S3 API Reference, ListObjects and ListObjectsV2).
#[derive(Drop)]
pub struct ObjectsAsked {
    pub version: ListVersion,
    /// Only keys that begin so are told.
    pub prefix: Text,
    /// Keys that are alike up to the first of it behind the prefix are told as one common prefix; none are where it is empty.
    pub delimiter: Text,
    /// Only keys behind this one are told, where there is no token.
    pub start_after: Option<Text>,
    /// Only items behind this one are told: the last one of the page before. It is the marker of the first version.
    pub token: Option<Text>,
    /// How many items a page has at most, from 0 to 1,000.
    pub max_keys: u16,
    /// Whether keys, common prefixes and what was asked by are told UriEncoded (`encoding-type=url`).
    pub is_url_encoded: bool,
    /// Whether each object is told with its owner (always in the first version, else by `fetch-owner=true`).
    pub tells_owner: bool,
}
