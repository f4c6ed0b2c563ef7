//! What is told of a copy, as a document.
ghost use Rattle.std.specs.Prelude.{◌≡◌, ◌≤◌, length};
ghost use Rattle.s3_documents.specs.Copied.{copied_fields};
ghost use Rattle.s3_documents.specs.Document.{copied, part_copied};
ghost use Rattle.s3_documents.specs.Spelling.{document_text};
ghost use Rattle.s3_documents.specs.Tree.{leaves, tree_text};
ghost use Rattle.s3_documents.specs.Xml.{plain, namespace, fields_events};
ghost use Rattle.s3_xml.specs.Printed as xml;

use crate::texts::put;
use crate::timestamp::timestamp;
use arrayvec::ArrayVec;
use s3_calendar::Moment;
use s3_names::Tag;
use s3_terms::Dialect;

/// No such document is longer: a tag, a moment, and what stands round them.
const DOCUMENT_MAX: usize = 256;

/// The document of a CopyObject, which made a version with this tag at this moment. It takes no memory: nothing of it
/// is to be escaped but the double quotes round the tag.
pub fn copied_document(tag: &Tag, moment: Moment, dialect: Dialect) -> ArrayVec<u8, DOCUMENT_MAX>
    ensures { result.items ≡ document_text dialect (copied tag.now moment) }
{
    match dialect {
        Dialect::Json => in_json(tag, moment),
        Dialect::S3 => in_xml(tag, moment, "CopyObjectResult"),
    }
}

/// The document of an UploadPartCopy, which made a part with this tag at this moment. It takes no memory either.
pub fn part_copied_document(
    tag: &Tag,
    moment: Moment,
    dialect: Dialect,
) -> ArrayVec<u8, DOCUMENT_MAX>
    ensures { result.items ≡ document_text dialect (part_copied tag.now moment) }
{
    match dialect {
        Dialect::Json => in_json(tag, moment),
        Dialect::S3 => in_xml(tag, moment, "CopyPartResult"),
    }
}

fn in_json(tag: &Tag, moment: Moment) -> ArrayVec<u8, DOCUMENT_MAX>
    ensures { result.items ≡ tree_text (leaves (copied_fields tag.now moment)) }
{
    let mut document = ArrayVec::new();
    put(&mut document, b"{\"ETag\":\"\\\"");
    put(&mut document, tag.text().as_bytes());
    put(&mut document, b"\\\"\",\"LastModified\":\"");
    put(&mut document, &timestamp(moment));
    put(&mut document, b"\"}");
    document
}

// The same in XML, in a root of this name.
fn in_xml(tag: &Tag, moment: Moment, root: &str) -> ArrayVec<u8, DOCUMENT_MAX>
    requires { length root.now ≤ 16 }
    ensures { result.items ≡ xml.document_text root.now namespace (fields_events plain (copied_fields tag.now moment)) }
{
    let mut document = ArrayVec::new();
    put(&mut document, XML_FRONT);
    put(&mut document, root.as_bytes());
    put(&mut document, XML_TO_TAG);
    put(&mut document, tag.text().as_bytes());
    put(&mut document, b"&quot;</ETag><LastModified>");
    put(&mut document, &timestamp(moment));
    put(&mut document, b"</LastModified></");
    put(&mut document, root.as_bytes());
    put(&mut document, b">");
    document
}

/// What stands in front of the name of the root in XML.
const XML_FRONT: &[u8] = b"<?xml version=\"1.0\" encoding=\"UTF-8\"?>\n<";

/// What stands between it and the tag.
const XML_TO_TAG: &[u8] = b" xmlns=\"http://s3.amazonaws.com/doc/2006-03-01/\"><ETag>&quot;";
