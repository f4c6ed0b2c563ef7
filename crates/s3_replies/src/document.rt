//! The documents of refusals, and those that tell of a bucket's versioning and that there are no tags.

ghost use Rattle.std.specs.Prelude.{◌≡◌, ◌+◌, ◌*◌, ◌≤◌, ℕ, ◌++◌, length};
ghost use Rattle.arrayvec.specs.ArrayVec.{array_vec_len};
ghost use Rattle.s3_documents.specs.Document as documents;
ghost use Rattle.s3_documents.specs.Spelling.{document_text};
ghost use Rattle.s3_terms.specs.Code.{name_of, message_of};
ghost use Rattle.s3_replies.specs.Document.{content_type_in, error_document};

use crate::room::Room;
use arrayvec::ArrayVec;
use s3_terms::{Code, Dialect};
use s3_text::number_digits;
use s3_versions::Versioning;

/// No name and no message of a code is longer.
const TEXT_MAX: usize = 48;

/// No document of a refusal is longer: a name, a message, an id, and what stands round them.
const DOCUMENT_MAX: usize = 2 * TEXT_MAX + 128;

/// No document that tells of a bucket's versioning or of no tags is longer.
const SHORT_MAX: usize = 256;

/// The type of a document.
pub(crate) fn content_type_of(dialect: Dialect) -> &'static [u8]
    ensures value { result.now ≡ content_type_in dialect }
    ensures bound { length result.now ≤ 16 }
{
    match dialect {
        Dialect::Json => b"application/json",
        Dialect::S3 => b"application/xml",
    }
}

/// The document of a refusal in the answer of this number. It is empty for the code without a message.
pub(crate) fn document_of(code: Code, number: u64, dialect: Dialect) -> ArrayVec<u8, DOCUMENT_MAX>
    ensures { result.items ≡ error_document dialect code number }
{
    if code.message().is_empty() {
        return ArrayVec::new();
    }
    match dialect {
        Dialect::Json => object_of(code),
        Dialect::S3 => element_of(code, number),
    }
}

fn object_of(code: Code) -> ArrayVec<u8, DOCUMENT_MAX>
    ensures { (number : ℕ) → result.items ≡ document_text Dialect.Json (documents.error code number) }
{
    let mut object = ArrayVec::new();
    write_texts(&mut object, b"{\"Code\":\"", code, b"\",\"Message\":\"");
    object.write(b"\"}");
    object
}

fn element_of(code: Code, number: u64) -> ArrayVec<u8, DOCUMENT_MAX>
    ensures { result.items ≡ document_text Dialect.S3 (documents.error code number) }
{
    let mut element = ArrayVec::new();
    write_texts(
        &mut element,
        b"<?xml version=\"1.0\" encoding=\"UTF-8\"?>\n<Error><Code>",
        code,
        b"</Code><Message>",
    );
    element.write(b"</Message><RequestId>");
    element.write(&number_digits(number));
    element.write(b"</RequestId></Error>");
    element
}

/// Appends the name and the message of the code, with these in front of each.
#[tactic(auto, using(crate::proofs::DocumentLemmas::texts_fit))]
fn write_texts(text: &mut ArrayVec<u8, DOCUMENT_MAX>, front: &[u8], code: Code, between: &[u8])
    requires { array_vec_len text.old + length front.now + length between.now + 2 * TEXT_MAX ≤ DOCUMENT_MAX }
    ensures items { text.new.items ≡ text.old.items ++ front.now ++ name_of code ++ between.now ++ message_of code }
    ensures bound { array_vec_len text.new ≤ array_vec_len text.old + length front.now + length between.now + 2 * TEXT_MAX }
{
    text.write(front);
    text.write(code.name().as_bytes());
    text.write(between);
    text.write(code.message().as_bytes());
}

/// The document that tells of a bucket's versioning.
pub(crate) fn versioning_document(versioning: Versioning, dialect: Dialect) -> &'static [u8]
    ensures value { result.now ≡ document_text dialect (documents.versioning versioning) }
    ensures bound { length result.now ≤ SHORT_MAX }
{
    match dialect {
        Dialect::Json => versioning_object(versioning),
        Dialect::S3 => versioning_element(versioning),
    }
}

#[tactic(auto, unfolding(s3_documents::specs::Tree::text_of_literals))]
fn versioning_object(versioning: Versioning) -> &'static [u8]
    ensures value { result.now ≡ document_text Dialect.Json (documents.versioning versioning) }
    ensures bound { length result.now ≤ SHORT_MAX }
{
    match versioning {
        Versioning::Unversioned => b"{}",
        Versioning::Enabled => b"{\"Status\":\"Enabled\"}",
        Versioning::Suspended => b"{\"Status\":\"Suspended\"}",
    }
}

#[tactic(auto, unfolding(s3_xml::specs::Printed::document_text, s3_xml::specs::Printed::escaped, s3_xml::specs::Printed::escaped_byte))]
fn versioning_element(versioning: Versioning) -> &'static [u8]
    ensures value { result.now ≡ document_text Dialect.S3 (documents.versioning versioning) }
    ensures bound { length result.now ≤ SHORT_MAX }
{
    match versioning {
        Versioning::Unversioned => {
            b"<?xml version=\"1.0\" encoding=\"UTF-8\"?>\n\
            <VersioningConfiguration xmlns=\"http://s3.amazonaws.com/doc/2006-03-01/\">\
            </VersioningConfiguration>"
        }
        Versioning::Enabled => {
            b"<?xml version=\"1.0\" encoding=\"UTF-8\"?>\n\
            <VersioningConfiguration xmlns=\"http://s3.amazonaws.com/doc/2006-03-01/\">\
            <Status>Enabled</Status></VersioningConfiguration>"
        }
        Versioning::Suspended => {
            b"<?xml version=\"1.0\" encoding=\"UTF-8\"?>\n\
            <VersioningConfiguration xmlns=\"http://s3.amazonaws.com/doc/2006-03-01/\">\
            <Status>Suspended</Status></VersioningConfiguration>"
        }
    }
}

/// The document that tells that a version has no tags.
#[tactic(auto, unfolding(s3_documents::specs::Tree::text_of_literals, s3_xml::specs::Printed::document_text, s3_xml::specs::Printed::escaped, s3_xml::specs::Printed::escaped_byte))]
pub(crate) fn tags_document(dialect: Dialect) -> &'static [u8]
    ensures value { result.now ≡ document_text dialect documents.tags }
    ensures bound { length result.now ≤ SHORT_MAX }
{
    match dialect {
        Dialect::Json => b"{}",
        Dialect::S3 => {
            b"<?xml version=\"1.0\" encoding=\"UTF-8\"?>\n\
            <Tagging xmlns=\"http://s3.amazonaws.com/doc/2006-03-01/\"><TagSet></TagSet></Tagging>"
        }
    }
}
