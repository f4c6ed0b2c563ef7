//! What takes a turn at the machine, and what it is answered.

use crate::{Configuration, Overrides, Region};
use s3_bodies::{Body, Payload};
use s3_calendar::Moment;
use s3_conditions::{Conditions, Selection, TagList};
use s3_deletions::Deletion;
use s3_documents::Document;
use s3_listings::{PartsAsked, UploadsAsked, VersionsAsked};
use s3_names::{BucketName, Key, PartNumber, Tag, UploadId, VersionId};
use s3_prefixes::ObjectsAsked;
use s3_terms::Code;
use s3_uploads::ListedParts;
use s3_versions::{ContentType, Data, Metadata, Versioning, VersioningStatus};

/// An operation with its arguments and the body that came with it, by what it addresses.
#[derive(Drop)]
pub enum Command {
    /// Lists all buckets (Amazon S3 API Reference, ListBuckets).
    ListBuckets,
    /// Asks something of a bucket.
    Bucket {
        name: BucketName,
        asked: BucketCommand,
    },
    /// Asks something of a key in a bucket.
    Key {
        bucket: BucketName,
        key: Key,
        asked: KeyCommand,
    },
    /// Asks something of an upload to a key in a bucket.
    Upload {
        bucket: BucketName,
        key: Key,
        id: UploadId,
        asked: UploadCommand,
    },
    /// Deletes several objects of a bucket, all of them or none (DeleteObjects).
    DeleteObjects {
        bucket: BucketName,
        deletion: Deletion,
    },
}

/// What is asked of a bucket.
#[derive(Drop)]
pub enum BucketCommand {
    /// Makes it (CreateBucket).
    Create,
    /// Asks whether it is there (HeadBucket).
    Head,
    /// Drops it, where nothing is in it (DeleteBucket).
    Delete,
    /// Sets its versioning (PutBucketVersioning).
    PutVersioning { status: VersioningStatus },
    /// Asks for its versioning (GetBucketVersioning).
    GetVersioning,
    /// Asks where it is (GetBucketLocation): in one region, as all buckets of a server.
    GetLocation,
    /// Asks for one of its configurations, which no bucket has (GetBucketPolicy and its like).
    GetConfiguration(Configuration),
    /// Lists its objects (ListObjects and ListObjectsV2).
    ListObjects(ObjectsAsked),
    /// Lists its versions (ListObjectVersions).
    ListVersions(VersionsAsked),
    /// Lists the uploads that are open in it (ListMultipartUploads).
    ListUploads(UploadsAsked),
}

/// What is asked of a key.
#[derive(Drop)]
pub enum KeyCommand {
    /// Stores the body under it (PutObject).
    Put(ObjectPut),
    /// Stores under it what a version has (CopyObject).
    Copy(ObjectCopy),
    /// Reads a version (GetObject and HeadObject, whose reply leaves the bytes out).
    Read(ObjectRead),
    /// Asks for the tags of its version of this id, or of the current one: it has none (GetObjectTagging).
    ReadTags { version: Option<VersionId> },
    /// Deletes it, or its version of this id (DeleteObject).
    Delete { version: Option<VersionId> },
    /// Deletes it, where its object has one of these tags (DeleteObject, `If-Match`).
    DeleteMatching { tags: TagList },
    /// Begins an upload to it (CreateMultipartUpload).
    Begin(Description),
}

/// What is asked of an upload.
#[derive(Drop)]
pub enum UploadCommand {
    /// Puts the body under a number, as a part of it (UploadPart).
    PutPart {
        number: PartNumber,
        payload: Payload,
    },
    /// Puts what a version has under a number, as a part of it (UploadPartCopy).
    CopyPart {
        number: PartNumber,
        copy: PartCopy,
    },
    /// Stores under its key the parts that are listed, joined in this order, and ends it (CompleteMultipartUpload).
    Complete {
        listed: ListedParts,
        condition: WriteCondition,
    },
    /// Drops it with its parts (AbortMultipartUpload).
    Abort,
    /// Lists its parts (ListParts).
    ListParts(PartsAsked),
}

/// What is to be stored.
#[derive(Drop)]
pub struct ObjectPut {
    pub content_type: ContentType,
    pub metadata: Metadata,
    pub condition: WriteCondition,
    pub payload: Payload,
}

/// What a write asks of the object that its key has (Amazon S3 API Reference, PutObject, `If-None-Match` and `If-Match`).
#[derive(Drop)]
pub enum WriteCondition {
    /// Nothing.
    Unconditional,
    /// That there is none.
    IfAbsent,
    /// That there is one, and that its tag is among these.
    IfMatch(TagList),
}

/// What is said of an object beside its bytes.
#[derive(Drop)]
pub struct Description {
    pub content_type: ContentType,
    pub metadata: Metadata,
}

/// What is to be copied to a key.
#[derive(Drop)]
pub struct ObjectCopy {
    pub source: Source,
    /// What is said of the copy; where nothing is, what is said of its source.
    pub description: Option<Description>,
}

/// What is to be copied to a part of an upload.
#[derive(Drop)]
pub struct PartCopy {
    pub source: Source,
    /// Which bytes of the source; where none are named, all.
    pub range: Option<CopyRange>,
}

/// The bytes from the first position to the last one, from 0 on (Amazon S3 API Reference, UploadPartCopy,
/// `x-amz-copy-source-range`).
#[derive(Clone, Copy)]
pub struct CopyRange {
    pub first: u64,
    pub last: u64,
}

/// Where a copy is from: the version of this id, or the current one, where that meets the conditions.
#[derive(Drop)]
pub struct Source {
    pub bucket: BucketName,
    pub key: Key,
    pub version: Option<VersionId>,
    pub conditions: Conditions,
}

/// What is to be read: the version of this id, or the current one, and what is asked of it.
#[derive(Drop)]
pub struct ObjectRead {
    pub version: Option<VersionId>,
    pub conditions: Conditions,
    /// What the reply says of the object in the place of what is kept with it.
    pub overrides: Overrides,
}

/// The machine's answer to one command.
#[derive(Drop)]
pub struct Answer {
    /// The number of the entry: how many commands the machine has answered before this one.
    pub number: u64,
    pub outcome: Outcome,
}

/// What came of a command. A version's id is shown where the bucket's versioning was ever set.
#[derive(Drop)]
pub enum Outcome {
    /// What was asked for, as a document: a list of buckets, of objects, of versions, of uploads or of parts, the id of the
    /// upload that was begun, or what became of the objects that were to be deleted. The room for its text is taken in the step, so that printing it takes no memory.
    Told {
        document: Document,
    },
    /// The bucket of this name is made.
    BucketMade {
        name: BucketName,
    },
    /// The bucket is there, in this region.
    BucketFound {
        region: Region,
    },
    /// The bucket is dropped.
    BucketDropped,
    /// The bucket's versioning is set.
    VersioningSet,
    /// The bucket's versioning.
    BucketVersioning {
        versioning: Versioning,
    },
    /// The object is stored, under this tag and as a version of this id.
    Put {
        tag: Tag,
        shown: Option<VersionId>,
    },
    /// What a version has is stored: under its tag, at this moment, and as a version of this id.
    Copied {
        tag: Tag,
        moment: Moment,
        shown: Option<VersionId>,
    },
    /// The part is put, under this tag.
    PartPut {
        tag: Tag,
    },
    /// What a version has is put as a part: under its tag, at this moment. It was the version of this id.
    PartCopied {
        tag: Tag,
        moment: Moment,
        source: Option<VersionId>,
    },
    /// The parts are stored, joined, under this tag and as a version of this id; the document tells it.
    Completed {
        document: Document,
        tag: Tag,
        shown: Option<VersionId>,
    },
    /// The upload is dropped.
    UploadDropped,
    /// The version with all its bytes, what of them is shown, and what is said of it in the place of what is kept with it.
    Got {
        found: Found<Body>,
        selection: Selection,
        overrides: Overrides,
    },
    /// The version is there, and no byte of it is in the range that was asked for: how many bytes it has (RFC 9110, section
    /// 15.5.17).
    OutOfRange {
        size: u64,
    },
    /// The version of this id is there, and has no tags.
    NoTags {
        shown: Option<VersionId>,
    },
    /// What was to be deleted is not there now: the id is that of the delete marker that was made, or the one
    /// that the request named. Says whether a delete marker was made or is gone.
    Deleted {
        shown: Option<VersionId>,
        is_delete_marker: bool,
    },
    /// The machine refuses, and is as it was. Says whether what was asked for is a delete marker.
    Refused {
        code: Code,
        is_delete_marker: bool,
    },
}

/// A version that was read: when it was made, and what it stores.
#[derive(Drop)]
pub struct Found<B> {
    pub shown: Option<VersionId>,
    pub moment: Moment,
    pub stored: Data<B>,
}
