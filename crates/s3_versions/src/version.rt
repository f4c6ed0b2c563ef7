//! A version of an object, and a delete marker.
ghost use Rattle.std.specs.Prelude.{◌≡◌, false, IfOk, OnErr};
ghost use Rattle.std.specs.Option.{option_copied};

use crate::{ContentType, Metadata};
use s3_bodies::Body;
use s3_calendar::Moment;
use s3_names::{Tag, VersionId};
use s3_terms::NoMemory;
use std::alloc::Global;

/// Whether a bucket keeps the versions that a new one would replace (Amazon S3 User Guide, "Using
/// versioning in S3 buckets").
#[derive(Clone, Copy)]
pub enum Versioning {
    /// Versioning has never been enabled: a new version takes the place of the one there.
    Unversioned,
    /// A new version stands beside those there.
    Enabled,
    /// Versioning was enabled, and is not now: a new version takes the place of the one with the id `null`.
    Suspended,
}

impl Versioning {
    ghost use Rattle.s3_versions.specs.Rules.{makes_null, new_id};

    /// Whether what an entry adds has the id `null`, and not one of its own.
    pub fn makes_null(self) -> bool
        ensures { result ≡ makes_null self }
    {
        match self {
            Versioning::Enabled => false,
            Versioning::Unversioned | Versioning::Suspended => true,
        }
    }

    /// The id of what the entry of this number adds.
    pub fn new_id(self, number: u64) -> VersionId
        ensures { result ≡ new_id self number }
    {
        if self.makes_null() {
            VersionId::Null
        } else {
            VersionId::of(number)
        }
    }
}

/// What a client sets the versioning of a bucket to: once set, a bucket is never unversioned again (Amazon S3
/// API Reference, PutBucketVersioning).
#[derive(Clone, Copy, PartialEq, Eq)]
pub enum VersioningStatus {
    Enabled,
    Suspended,
}

impl VersioningStatus {
    ghost use Rattle.s3_versions.specs.Rules.{versioning_set};

    /// The versioning of a bucket where this was set last.
    pub fn versioning(self) -> Versioning
        ensures { result ≡ versioning_set self }
    {
        match self {
            VersioningStatus::Enabled => Versioning::Enabled,
            VersioningStatus::Suspended => Versioning::Suspended,
        }
    }
}

/// What a put stored. `B` is what stands for the bytes: a body, or nothing in an answer that leaves them out. What a list tells comes
/// first, as in `Version`: so it lies together in memory, and a list, which goes from one version to the next, waits for it once.
#[derive(Drop)]
pub struct Data<B> {
    pub tag: Tag,
    /// How many bytes there are.
    pub size: u64,
    pub content_type: ContentType,
    pub metadata: Metadata,
    /// The bytes, or what stands for them.
    pub body: B,
}

impl Data<Body> {
    /// A copy, at the cost of its media type, its metadata and a copy of its body.
    pub fn copy(&self, alloc: Global) -> Result<Data<Body>, NoMemory>
        ensures { IfOk result (λ copied. copied ≡ self.now) }
    {
        let content_type = self.content_type.copy(alloc)?;
        let metadata = self.metadata.copy(alloc)?;
        let body = self.body.copy()?;
        Ok(Data {
            tag: self.tag.copy(),
            content_type,
            metadata,
            size: self.size,
            body,
        })
    }
}

/// What a version is.
#[derive(Drop)]
pub enum Content<B> {
    /// A delete marker: the object counts as deleted.
    DeleteMarker,
    /// What a put stored.
    Stored(Data<B>),
}

impl Content<Body> {
    ghost use Rattle.s3_versions.specs.Rules.{is_marker};

    /// A copy, at the cost of what was stored. A delete marker takes no memory.
    pub fn copy(&self, alloc: Global) -> Result<Content<Body>, NoMemory>
        ensures value { IfOk result (λ copied. copied ≡ self.now) }
        ensures memory { OnErr result (is_marker self.now ≡ false) }
    {
        match self {
            Content::DeleteMarker => Ok(Content::DeleteMarker),
            Content::Stored(data) => Ok(Content::Stored(data.copy(alloc)?)),
        }
    }
}

/// A version of an object.
#[derive(Drop)]
pub struct Version<B> {
    /// When it was made.
    pub moment: Moment,
    pub content: Content<B>,
    /// Whether its id is `null`, and not the number of the entry that made it.
    pub is_null: bool,
    /// The number of the entry that made it.
    pub number: u64,
}

impl<B> Version<B> {
    ghost use Rattle.s3_versions.specs.Rules.{id_of, is_under, is_delete_marker, stored};

    /// Its id.
    pub fn id(&self) -> VersionId
        ensures { result ≡ id_of self.now }
    {
        if self.is_null {
            VersionId::Null
        } else {
            VersionId::of(self.number)
        }
    }

    /// Whether this is its id.
    pub fn is_under(&self, id: VersionId) -> bool
        ensures { result ≡ is_under id self.now }
    {
        match id {
            VersionId::Null => self.is_null,
            VersionId::Numbered(number) => !self.is_null && self.number == number,
        }
    }

    /// Whether it is a delete marker.
    pub fn is_delete_marker(&self) -> bool
        ensures { result ≡ is_delete_marker self.now }
    {
        match &self.content {
            Content::DeleteMarker => true,
            Content::Stored(_) => false,
        }
    }

    /// What a put stored; `None` for a delete marker.
    pub fn stored(&self) -> Option<&Data<B>>
        ensures { option_copied result ≡ stored self.now }
    {
        match &self.content {
            Content::DeleteMarker => None,
            Content::Stored(data) => Some(data),
        }
    }
}

impl Version<Body> {
    ghost use Rattle.s3_versions.specs.Rules.{is_delete_marker};

    /// A copy, at the cost of what was stored. A delete marker takes no memory.
    pub fn copy(&self, alloc: Global) -> Result<Version<Body>, NoMemory>
        ensures value { IfOk result (λ copied. copied ≡ self.now) }
        ensures memory { OnErr result (is_delete_marker self.now ≡ false) }
    {
        let content = self.content.copy(alloc)?;
        Ok(Version {
            is_null: self.is_null,
            number: self.number,
            moment: self.moment,
            content,
        })
    }
}
