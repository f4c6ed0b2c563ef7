//! The replies that tell of an object or a part of one: to a put, a copy, a read and a delete.

ghost use Rattle.std.specs.Prelude.{◌≡◌, ◌+◌, ◌≤◌, [], ◌++◌, List, ℕ, Option, unwrap_or};
ghost use Rattle.s3_documents.specs.Document.{copied, part_copied};
ghost use Rattle.s3_documents.specs.Spelling.{document_text};
ghost use Rattle.s3_machine.specs.declared.command.Found.{Found as FoundAs};
ghost use Rattle.s3_versions.specs.Metadata.{Entry};
ghost use Rattle.s3_replies.specs.declared.head.Opening.{Opening as Opens};
ghost use Rattle.s3_replies.specs.Head.{print_head};
ghost use Rattle.s3_replies.specs.Replies.{back, beside, front, reply_with, put_fields, got_fields, unchanged_fields, stored_fields, part_copied_fields, deleted_fields};

use crate::body::{part_of, place_of, sent};
use crate::date::DateText;
use crate::errors::outside_reply;
use crate::head::{Head, Opening};
use crate::lines::{Entries, type_left};
use crate::room::Room;
use crate::told::short_reply;
use crate::values::{RangeText, date_bytes, id_bytes, id_text, range_bytes};
use s3_bodies::Body;
use s3_calendar::Moment;
use s3_conditions::Selection;
use s3_documents::{copied_document, part_copied_document};
use s3_machine::{Found, Overrides};
use s3_names::{Tag, VersionId};

/// Appends all of the reply to a put, or to that of a part, which shows no version, with the checksum that was found of the body.
pub(crate) fn put_reply<R: Room>(out: &mut R, opening: Opening, tag: &Tag, shown: Option<VersionId>)
    requires { R.size out.old + 8_192 ≤ R.capacity out.old }
    ensures written { R.written out.new ≡ R.written out.old ++ print_head (put_fields opening tag.now shown) }
    ensures capacity { R.capacity out.old ≤ R.capacity out.new }
{
    let id = id_text(shown);
    let text = tag.text();
    let head = Head {
        version_id: id_bytes(&id),
        tag: Some(text.as_bytes()),
        checksum: opening.checksum,
        ..Head::bare(&opening)
    };
    head.print(out);
}

/// Appends what is known of a version and of so many of its bytes, which stand behind it: all, or a range. Its checksums are
/// told where these are all.
fn object_head<R: Room>(
    out: &mut R,
    opening: Opening,
    found: &Found<Body>,
    overrides: &Overrides,
    modified: Option<DateText>,
    range: Option<RangeText>,
    size: u64,
    tells_checksums: bool,
)
    requires { R.size out.old + 8_192 ≤ R.capacity out.old }
    ensures written { R.written out.new ≡ R.written out.old
        ++ print_head (record (got_fields tells_checksums opening found.now overrides.now modified) {
          content_range = range;
          size = size;
        }) }
    ensures capacity { R.capacity out.old ≤ R.capacity out.new }
{
    let id = id_text(found.shown);
    let tag = found.stored.tag.text();
    let head = Head {
        version_id: id_bytes(&id),
        tag: Some(tag.as_bytes()),
        modified: date_bytes(&modified),
        accepts_ranges: true,
        content_range: range_bytes(&range),
        content_type: type_left(overrides.entries(), found.stored.content_type.as_bytes()),
        metadata: found.stored.metadata.entries(),
        overrides: overrides.entries(),
        tells: Entries::shown(tells_checksums),
        size,
        ..Head::bare(&opening)
    };
    head.print(out);
}

/// Appends the whole reply that tells that a version is as the reader knows it, and how long a cache may use it (RFC 9110, section
/// 15.4.5).
fn unchanged_reply<R: Room>(
    out: &mut R,
    opening: Opening,
    found: &Found<Body>,
    overrides: &Overrides,
    modified: Option<DateText>,
)
    requires { R.size out.old + 8_192 ≤ R.capacity out.old }
    ensures written { R.written out.new ≡ R.written out.old ++ print_head (unchanged_fields opening found.now overrides.now modified) }
    ensures capacity { R.capacity out.old ≤ R.capacity out.new }
{
    let id = id_text(found.shown);
    let tag = found.stored.tag.text();
    let head = Head {
        version_id: id_bytes(&id),
        tag: Some(tag.as_bytes()),
        modified: date_bytes(&modified),
        metadata: found.stored.metadata.entries(),
        overrides: overrides.entries(),
        tells: Entries::Freshness,
        ..Head::bare(&opening)
    };
    head.print(out);
}

/// Appends the reply that shows this of a version, without its bytes.
pub(crate) fn got_reply<R: Room>(
    out: &mut R,
    opening: Opening,
    found: &Found<Body>,
    overrides: &Overrides,
    selection: Selection,
    modified: Option<DateText>,
    head_only: bool,
)
    requires { R.size out.old + 8_192 ≤ R.capacity out.old }
    ensures written { R.written out.new
        ≡ R.written out.old ++ front head_only (reply_with opening modified found.now overrides.now selection) }
    ensures capacity { R.capacity out.old ≤ R.capacity out.new }
{
    let size = found.stored.body.size();
    match selection {
        Selection::Whole => {
            let told = opening.tells_checksums;
            object_head(out, opening, found, overrides, modified, None, size, told);
        }
        Selection::Part { first, last } => {
            let (_, count) = place_of(first, last, size);
            let range = RangeText::of(first, last, size);
            object_head(
                out,
                opening,
                found,
                overrides,
                modified,
                Some(range),
                count,
                false,
            );
        }
        Selection::Unchanged => unchanged_reply(out, opening, found, overrides, modified),
        Selection::Outside => outside_reply(out, opening, found.stored.size, head_only),
    }
}

/// Appends the whole reply to a copy, which made a version at this moment.
pub(crate) fn copied_reply<R: Room>(
    out: &mut R,
    opening: Opening,
    tag: &Tag,
    moment: Moment,
    shown: Option<VersionId>,
    head_only: bool,
)
    requires { R.size out.old + 8_192 ≤ R.capacity out.old }
    ensures written { R.written out.new ≡ R.written out.old
        ++ front head_only (beside (stored_fields opening shown) (document_text opening.dialect (copied tag.now moment))) }
    ensures capacity { R.capacity out.old ≤ R.capacity out.new }
{
    let document = copied_document(tag, moment, opening.dialect);
    short_reply(out, opening, document.as_slice(), shown, None, head_only);
}

/// Appends the whole reply to a copy to a part, which was made at this moment of a version with this id.
pub(crate) fn part_copied_reply<R: Room>(
    out: &mut R,
    opening: Opening,
    tag: &Tag,
    moment: Moment,
    source: Option<VersionId>,
    head_only: bool,
)
    requires { R.size out.old + 8_192 ≤ R.capacity out.old }
    ensures written { R.written out.new ≡ R.written out.old
        ++ front head_only (beside (part_copied_fields opening source) (document_text opening.dialect (part_copied tag.now moment))) }
    ensures capacity { R.capacity out.old ≤ R.capacity out.new }
{
    let document = part_copied_document(tag, moment, opening.dialect);
    short_reply(out, opening, document.as_slice(), None, source, head_only);
}

/// Appends the whole reply to a delete.
pub(crate) fn deleted_reply<R: Room>(
    out: &mut R,
    opening: Opening,
    shown: Option<VersionId>,
    is_delete_marker: bool,
)
    requires { R.size out.old + 8_192 ≤ R.capacity out.old }
    ensures written { R.written out.new
        ≡ R.written out.old ++ print_head (deleted_fields opening shown is_delete_marker) }
    ensures capacity { R.capacity out.old ≤ R.capacity out.new }
{
    let id = id_text(shown);
    let head = Head {
        version_id: id_bytes(&id),
        is_delete_marker,
        ..Head::bare(&opening)
    };
    head.print(out);
}

/// What of a version's bytes stands behind the reply.
pub(crate) fn shown_body(head_only: bool, body: Body, selection: Selection) -> Option<Body>
    ensures { (opening : Opens) (modified : Option (List ℕ)) (found : FoundAs (List ℕ)) (overrides : List Entry) → found.stored.body ≡ body
        → unwrap_or result [] ≡ back head_only (reply_with opening modified found overrides selection) }
{
    match selection {
        Selection::Whole => sent(head_only, body),
        Selection::Part { first, last } => sent(head_only, part_of(body, first, last)),
        Selection::Unchanged | Selection::Outside => None,
    }
}
