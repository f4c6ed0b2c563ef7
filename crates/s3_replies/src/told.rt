//! The replies whose body is a document.

ghost use Rattle.std.specs.Prelude.{◌≡◌, ◌+◌, ◌≤◌, [], ◌++◌, length, unwrap_or};
ghost use Rattle.s3_documents.specs.Document as documents;
ghost use Rattle.s3_documents.specs.Spelling.{document_text};
ghost use Rattle.s3_replies.specs.Head.{print_head};
ghost use Rattle.s3_replies.specs.Replies.{back, behind, beside, front, document_fields, shown_text, stored_fields};

use crate::body::{sent, write_body};
use crate::document::{content_type_of, versioning_document};
use crate::head::{Head, Opening};
use crate::room::Room;
use crate::values::{id_bytes, id_text};
use s3_bodies::Body;
use s3_documents::Document;
use s3_names::VersionId;
use s3_versions::Versioning;

/// Appends the reply that is a document of this size, without the document, and shows the version that was made and the one
/// that was copied, where it shows them: 512 bytes at most.
fn document_head<R: Room>(
    out: &mut R,
    opening: Opening,
    shown: Option<VersionId>,
    source: Option<VersionId>,
    size: u64,
)
    requires { R.size out.old + 8_192 ≤ R.capacity out.old }
    ensures written { R.written out.new ≡ R.written out.old
        ++ print_head (record (stored_fields opening shown) { source_version_id = shown_text source; size = size }) }
    ensures bound { R.size out.new ≤ R.size out.old + 512 }
    ensures capacity { R.capacity out.old ≤ R.capacity out.new }
{
    let made = id_text(shown);
    let copied = id_text(source);
    let head = Head {
        version_id: id_bytes(&made),
        source_version_id: id_bytes(&copied),
        content_type: Some(content_type_of(opening.dialect)),
        size,
        ..Head::bare(&opening)
    };
    head.print(out);
}

/// Appends the whole reply that is this document, and shows the version that was made and the one that was copied, where it
/// shows them.
pub(crate) fn short_reply<R: Room>(
    out: &mut R,
    opening: Opening,
    document: &[u8],
    shown: Option<VersionId>,
    source: Option<VersionId>,
    head_only: bool,
)
    requires room { R.size out.old + 8_192 ≤ R.capacity out.old }
    requires short { length document.now ≤ 256 }
    ensures written { R.written out.new ≡ R.written out.old
        ++ front head_only (beside (record (stored_fields opening shown) { source_version_id = shown_text source }) document.now) }
    ensures capacity { R.capacity out.old ≤ R.capacity out.new }
{
    document_head(out, opening, shown, source, document.len() as u64);
    write_body(out, head_only, document);
}

/// Appends the reply that is a document, which is printed here, without it, and gives it, unless the reply is to a HEAD.
pub(crate) fn told_reply<R: Room>(
    out: &mut R,
    opening: Opening,
    document: Document,
    shown: Option<VersionId>,
    head_only: bool,
) -> Option<Body>
    requires { R.size out.old + 8_192 ≤ R.capacity out.old }
    ensures written { R.written out.new
        ≡ R.written out.old ++ front head_only (behind (stored_fields opening shown) (document_text opening.dialect document)) }
    ensures body { unwrap_or result [] ≡ back head_only (behind (stored_fields opening shown) (document_text opening.dialect document)) }
    ensures capacity { R.capacity out.old ≤ R.capacity out.new }
{
    let body = document.into_body(opening.dialect);
    document_head(out, opening, shown, None, body.size());
    sent(head_only, body)
}

/// Appends the whole reply that tells of a bucket's versioning.
pub(crate) fn versioning_reply<R: Room>(
    out: &mut R,
    opening: Opening,
    versioning: Versioning,
    head_only: bool,
)
    requires { R.size out.old + 8_192 ≤ R.capacity out.old }
    ensures written { R.written out.new ≡ R.written out.old
        ++ front head_only (beside (document_fields opening) (document_text opening.dialect (documents.versioning versioning))) }
    ensures capacity { R.capacity out.old ≤ R.capacity out.new }
{
    let document = versioning_document(versioning, opening.dialect);
    short_reply(out, opening, document, None, None, head_only);
}
