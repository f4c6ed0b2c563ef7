//! What is told of an upload that was begun, and of one that was completed, as documents.
ghost use Rattle.std.specs.Prelude.{◌≡◌, IfOk};
ghost use Rattle.s3_documents.specs.Copied.{tag_told};
ghost use Rattle.s3_documents.specs.Document.{begun, completed};
ghost use Rattle.s3_documents.specs.Printed.{fields_of, text_kept};
ghost use Rattle.s3_documents.specs.Tree.{text};
ghost use Rattle.s3_documents.specs.Upload.{begun_fields, completed_fields};
ghost use Rattle.s3_documents.specs.Xml.{completed_elements, location_told};
ghost use Rattle.s3_names.specs.Ids.{upload_id_text};

use crate::printer::{Field, Leaf, Printer, text_of};
use crate::reserved::Told;
use crate::room::room_of_fields;
use crate::texts::{key_told, name_told, quoted, upload_id_told};
use crate::xml::{PLAIN, put_fields};
use s3_canonical::append_path;
use s3_names::{BucketName, Key, Tag, UploadId};
use s3_terms::NoMemory;
use s3_xml::Writer;
use std::alloc::{AllocError, Global};

/// The document of a CreateMultipartUpload, for later: the upload that was begun.
#[derive(Drop)]
pub(crate) struct UploadBegun {
    pub bucket: BucketName,
    pub key: Key,
    pub id: UploadId,
}

impl Told for UploadBegun {
    ghost document = { λ told. begun told.bucket told.key told.id };

    fn print(&self, printer: &mut Printer) -> Result<(), AllocError> {
        let id = upload_id_told(Some(self.id));
        printer.fields(&begun_told(self, text_of(&id)))
    }

    fn root(&self) -> &'static str {
        "InitiateMultipartUploadResult"
    }

    fn write(&self, writer: &mut Writer) -> Result<(), AllocError> {
        let id = upload_id_told(Some(self.id));
        put_fields(writer, PLAIN, &begun_told(self, text_of(&id)))
    }

    #[tactic(auto, using(crate::proofs::RoomLemmas::leaves_room))]
    fn room(&self) -> usize {
        let id = upload_id_told(Some(self.id));
        room_of_fields(&begun_told(self, text_of(&id)))
    }
}

/// The document of a CompleteMultipartUpload, for later: where a version was made, and its tag.
#[derive(Drop)]
pub(crate) struct UploadCompleted {
    bucket: BucketName,
    key: Key,
    tag: Tag,
    location: String,
    ghost place: { text_kept location ≡ text (location_told bucket key) },
}

impl UploadCompleted {
    /// It takes memory for where the version is.
    pub fn of(
        alloc: Global,
        bucket: BucketName,
        key: Key,
        tag: Tag,
    ) -> Result<UploadCompleted, NoMemory>
        ensures { IfOk result (λ told. completed told.bucket told.key told.tag ≡ completed bucket key tag) }
    {
        let location = location(alloc, &bucket, &key)?;
        Ok(UploadCompleted {
            bucket,
            key,
            tag,
            location,
        })
    }
}

impl Told for UploadCompleted {
    ghost document = { λ told. completed told.bucket told.key told.tag };

    fn print(&self, printer: &mut Printer) -> Result<(), AllocError> {
        let tag = quoted(&self.tag);
        printer.fields(&completed_told(self, text_of(&tag)))
    }

    fn root(&self) -> &'static str {
        "CompleteMultipartUploadResult"
    }

    fn write(&self, writer: &mut Writer) -> Result<(), AllocError> {
        let tag = quoted(&self.tag);
        put_fields(writer, PLAIN, &elements(self, text_of(&tag)))
    }

    #[tactic(auto, using(crate::proofs::RoomLemmas::leaves_room))]
    fn room(&self) -> usize {
        let tag = quoted(&self.tag);
        room_of_fields(&completed_told(self, text_of(&tag))).saturating_add(room_of_fields(
            &elements(self, text_of(&tag)),
        ))
    }
}

// What is told of an upload that was begun, and the text of its id.
fn begun_told<'a>(told: &'a UploadBegun, id: &'a str) -> [Field<'a>; 3]
    requires { id.now ≡ upload_id_text told.now.id }
    ensures { fields_of result ≡ begun_fields told.now.bucket told.now.key told.now.id }
{
    [
        Field {
            name: "Bucket",
            value: Leaf::Text(name_told(&told.bucket)),
        },
        Field {
            name: "Key",
            value: Leaf::Text(key_told(&told.key)),
        },
        Field {
            name: "UploadId",
            value: Leaf::Text(id),
        },
    ]
}

// What is told of one that was completed, and its tag in quotes.
fn completed_told<'a>(told: &'a UploadCompleted, tag: &'a str) -> [Field<'a>; 3]
    requires { tag.now ≡ tag_told told.now.tag }
    ensures { fields_of result ≡ completed_fields told.now.bucket told.now.key told.now.tag }
{
    [
        Field {
            name: "Bucket",
            value: Leaf::Text(name_told(&told.bucket)),
        },
        Field {
            name: "ETag",
            value: Leaf::Text(tag),
        },
        Field {
            name: "Key",
            value: Leaf::Text(key_told(&told.key)),
        },
    ]
}

// The same in XML.
fn elements<'a>(told: &'a UploadCompleted, tag: &'a str) -> [Field<'a>; 4]
    requires { tag.now ≡ tag_told told.now.tag }
    ensures { fields_of result ≡ completed_elements told.now.bucket told.now.key told.now.tag }
{
    [
        Field {
            name: "Location",
            value: Leaf::Text(told.location.as_str()),
        },
        Field {
            name: "Bucket",
            value: Leaf::Text(name_told(&told.bucket)),
        },
        Field {
            name: "Key",
            value: Leaf::Text(key_told(&told.key)),
        },
        Field {
            name: "ETag",
            value: Leaf::Text(tag),
        },
    ]
}

// Where a key of a bucket is.
fn location(alloc: Global, bucket: &BucketName, key: &Key) -> Result<String, AllocError>
    ensures { IfOk result (λ location. text_kept location ≡ text (location_told bucket.now key.now)) }
{
    let mut location = String::new(alloc);
    location.push_str("/")?;
    location.push_str(name_told(bucket))?;
    location.push_str("/")?;
    append_path(&mut location, key.as_bytes())?;
    Ok(location)
}
