//! The documents of replies. The text of one is printed when it is wanted.
ghost use Rattle.std.specs.Prelude.{◌≡◌, IfOk};
ghost use Rattle.s3_deletions.specs.Deletions.{rows_told};
ghost use Rattle.s3_documents.specs.Document.{buckets, objects, versions, uploads, parts, begun, completed, deletions, location};
ghost use Rattle.s3_documents.specs.Listed.{reserved_document, kept_document};
ghost use Rattle.s3_documents.specs.Spelling.{document_text};

use crate::buckets::BucketsList;
use crate::deletions::DeletionsReserved;
use crate::location::BucketLocation;
use crate::object_list::ObjectsList;
use crate::part_list::PartsList;
use crate::reserved::Reserved;
use crate::upload::{UploadBegun, UploadCompleted};
use crate::upload_list::UploadsList;
use crate::version_list::VersionsList;
use s3_bodies::Body;
use s3_deletions::{Deletion, Markers, NamedObject};
use s3_listings::{
    ObjectPage, PartPage, PartsAsked, UploadPage, UploadsAsked, VersionPage, VersionsAsked,
};
use s3_names::{BucketName, Key, Tag, UploadId};
use s3_prefixes::{ObjectsAsked, Text};
use s3_records::ListedBucket;
use s3_terms::{Dialect, NoMemory};
use std::alloc::Global;
use std::marker::Model;

/// A document, which contracts see as what it tells. Its text is printed when it is asked for, into room that was taken
/// when the document was made.
#[derive(Drop)]
pub struct Document {
    kept: Kept,
}

// What is printed later. The rows of a DeleteObjects are told into a place that was taken before it was done.
#[derive(Drop)]
enum Kept {
    Reserved(Box<Reservation>),
    Deletions(Box<DeletionsReserved>),
}

// What is printed later, with the room for it.
#[derive(Drop)]
enum Reservation {
    Buckets(Reserved<BucketsList>),
    Objects(Reserved<ObjectsList>),
    Versions(Reserved<VersionsList>),
    Uploads(Reserved<UploadsList>),
    Parts(Reserved<PartsList>),
    Begun(Reserved<UploadBegun>),
    Completed(Reserved<UploadCompleted>),
    Location(Reserved<BucketLocation>),
}

impl Model for Document {
    ghost use Rattle.s3_documents.specs.Document.{Document};
    ghost use Rattle.s3_documents.specs.Listed.{kept_document};

    ghost Value = { Document };

    ghost view = { λ document. kept_document document.kept };
}

/// What a DeleteObjects asks for, with all the room for its document: only what is told of delete markers is missing.
/// Contracts see it as what is asked for.
#[derive(Drop)]
pub struct DeletionDraft {
    reserved: Box<DeletionsReserved>,
}

impl Model for DeletionDraft {
    ghost use Rattle.s3_deletions.specs.declared.named.Deletion.{Deletion};

    ghost Value = { Deletion };

    ghost view = { λ draft. draft.reserved.value.list.deletion };
}

impl DeletionDraft {
    /// The objects that are named, in their order.
    pub fn objects(&self) -> &[NamedObject]
        ensures { result.now ≡ self.now.objects }
    {
        self.reserved.list.deletion.objects.as_slice()
    }

    /// The document, by the ids that are told of the delete markers of the objects, in their order. It takes no memory.
    pub fn told(self, markers: Markers) -> Document
        ensures { result ≡ deletions self.is_quiet (rows_told self.objects markers) }
    {
        let DeletionDraft { mut reserved } = self;
        reserved.list.markers = markers;
        Document {
            kept: Kept::Deletions(reserved),
        }
    }
}

impl Document {
    /// The document of a ListBuckets: the rows in their order.
    pub fn of_buckets(alloc: Global, rows: Vec<ListedBucket>) -> Result<Document, NoMemory>
        ensures { IfOk result (λ document. document ≡ buckets rows.items) }
    {
        let reserved = Reserved::of(alloc, BucketsList { rows })?;
        pending(alloc, Reservation::Buckets(reserved))
    }

    /// The document of a ListObjects or a ListObjectsV2: what was asked, and the page that is told, of the bucket of this
    /// name.
    pub fn of_objects(
        alloc: Global,
        name: BucketName,
        asked: ObjectsAsked,
        page: ObjectPage,
    ) -> Result<Document, NoMemory>
        ensures { IfOk result (λ document. document ≡ objects name asked page) }
    {
        let list = ObjectsList::of(alloc, name, asked, page)?;
        let reserved = Reserved::of(alloc, list)?;
        pending(alloc, Reservation::Objects(reserved))
    }

    /// The document of a ListObjectVersions.
    pub fn of_versions(
        alloc: Global,
        name: BucketName,
        asked: VersionsAsked,
        page: VersionPage,
    ) -> Result<Document, NoMemory>
        ensures { IfOk result (λ document. document ≡ versions name asked page) }
    {
        let reserved = Reserved::of(alloc, VersionsList { name, asked, page })?;
        pending(alloc, Reservation::Versions(reserved))
    }

    /// The document of a CreateMultipartUpload, which began the upload of this id.
    pub fn of_begun(
        alloc: Global,
        bucket: BucketName,
        key: Key,
        id: UploadId,
    ) -> Result<Document, NoMemory>
        ensures { IfOk result (λ document. document ≡ begun bucket key id) }
    {
        let reserved = Reserved::of(alloc, UploadBegun { bucket, key, id })?;
        pending(alloc, Reservation::Begun(reserved))
    }

    /// The document of a CompleteMultipartUpload, which made a version with this tag.
    pub fn of_completed(
        alloc: Global,
        bucket: BucketName,
        key: Key,
        tag: Tag,
    ) -> Result<Document, NoMemory>
        ensures { IfOk result (λ document. document ≡ completed bucket key tag) }
    {
        let told = UploadCompleted::of(alloc, bucket, key, tag)?;
        let reserved = Reserved::of(alloc, told)?;
        pending(alloc, Reservation::Completed(reserved))
    }

    /// The document of a ListMultipartUploads.
    pub fn of_uploads(
        alloc: Global,
        name: BucketName,
        asked: UploadsAsked,
        page: UploadPage,
    ) -> Result<Document, NoMemory>
        ensures { IfOk result (λ document. document ≡ uploads name asked page) }
    {
        let reserved = Reserved::of(alloc, UploadsList { name, asked, page })?;
        pending(alloc, Reservation::Uploads(reserved))
    }

    /// The document of a ListParts, of the upload of this id.
    pub fn of_parts(
        alloc: Global,
        name: BucketName,
        key: Key,
        id: UploadId,
        asked: PartsAsked,
        page: PartPage,
    ) -> Result<Document, NoMemory>
        ensures { IfOk result (λ document. document ≡ parts name key id asked page) }
    {
        let list = PartsList {
            name,
            key,
            id,
            asked,
            page,
        };
        let reserved = Reserved::of(alloc, list)?;
        pending(alloc, Reservation::Parts(reserved))
    }

    /// The document of a GetBucketLocation: the region.
    pub fn of_location(alloc: Global, region: Text) -> Result<Document, NoMemory>
        ensures { IfOk result (λ document. document ≡ location region) }
    {
        let reserved = Reserved::of(alloc, BucketLocation { region })?;
        pending(alloc, Reservation::Location(reserved))
    }

    /// The draft of the document of a DeleteObjects that isn't done yet. It takes the room for all that may be told of delete
    /// markers.
    pub fn of_deletions(alloc: Global, deletion: Deletion) -> Result<DeletionDraft, NoMemory>
        ensures { IfOk result (λ draft. draft ≡ deletion) }
    {
        let reserved = DeletionsReserved::of(alloc, deletion)?;
        let reserved = Box::new(alloc, reserved)?;
        Ok(DeletionDraft { reserved })
    }

    /// The text, as a body, so spelled. It takes no memory.
    pub fn into_body(self, dialect: Dialect) -> Body
        ensures { result ≡ document_text dialect self }
    {
        Body::alone(kept_text(self.kept, dialect))
    }
}

// The document that is printed later.
fn pending(alloc: Global, reservation: Reservation) -> Result<Document, NoMemory>
    ensures { IfOk result (λ document. document ≡ reserved_document reservation) }
{
    let reservation = Box::new(alloc, reservation)?;
    Ok(Document {
        kept: Kept::Reserved(reservation),
    })
}

fn kept_text(kept: Kept, dialect: Dialect) -> Vec<u8>
    ensures { result.items ≡ document_text dialect (kept_document kept) }
{
    match kept {
        Kept::Reserved(reservation) => printed(Box::into_inner(reservation), dialect),
        Kept::Deletions(reserved) => Box::into_inner(reserved).text(dialect),
    }
}

fn printed(reservation: Reservation, dialect: Dialect) -> Vec<u8>
    ensures { result.items ≡ document_text dialect (reserved_document reservation) }
{
    match reservation {
        Reservation::Buckets(reserved) => reserved.text(dialect),
        Reservation::Objects(reserved) => reserved.text(dialect),
        Reservation::Versions(reserved) => reserved.text(dialect),
        Reservation::Uploads(reserved) => reserved.text(dialect),
        Reservation::Parts(reserved) => reserved.text(dialect),
        Reservation::Begun(reserved) => reserved.text(dialect),
        Reservation::Completed(reserved) => reserved.text(dialect),
        Reservation::Location(reserved) => reserved.text(dialect),
    }
}
