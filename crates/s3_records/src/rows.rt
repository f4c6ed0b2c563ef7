//! What lists are made of: the keys of a bucket, their versions and the open uploads to them, from a place on.

use s3_calendar::Moment;
use s3_names::{Key, UploadId, VersionId};
use s3_versions::Facts;

/// Where a list of keys begins.
#[derive(Drop)]
pub enum Start {
    /// At the first key.
    First,
    /// At this key or, where it isn't there, at the next one.
    From(Key),
    /// After this key.
    Behind(Key),
}

/// Where a list of versions begins.
#[derive(Drop)]
pub enum VersionStart {
    /// At the newest version of the first key from here on.
    At(Start),
    /// After the version of this id under this key; after all of the key's, where it has none of this id.
    BehindVersion(Key, VersionId),
}

/// Where a list of uploads begins.
#[derive(Drop)]
pub enum UploadStart {
    /// At the first upload to the first key from here on.
    At(Start),
    /// After the upload of this id to this key, whether it is there or not.
    BehindUpload(Key, UploadId),
}

/// A key in a list.
#[derive(Drop)]
pub struct KeyRow {
    pub key: Key,
    /// What is known of its current version; `None` where that is a delete marker.
    pub facts: Option<Facts>,
}

/// A version in a list.
#[derive(Drop)]
pub struct VersionRow {
    pub key: Key,
    pub id: VersionId,
    /// Whether it is the current version of its key.
    pub is_latest: bool,
    /// When it was made.
    pub moment: Moment,
    /// What is known of it; `None` where it is a delete marker.
    pub facts: Option<Facts>,
}

/// An open upload in a list.
#[derive(Drop)]
pub struct UploadRow {
    pub key: Key,
    pub id: UploadId,
    /// When it was begun.
    pub moment: Moment,
}
