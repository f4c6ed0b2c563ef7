//! The replies to answers of the machine, and to messages that are refused before they come to it.

ghost use Rattle.std.specs.Prelude.{◌≡◌, ◌+◌, ◌≤◌, true, false, [], ◌++◌, length, List, ℕ, Option, unwrap_or};
ghost use Rattle.s3_replies.specs.Date.{IsDateShown};
ghost use Rattle.s3_replies.specs.Head.{bare, print_head};
ghost use Rattle.s3_replies.specs.Lines.{value_of, value_length};
ghost use Rattle.s3_replies.specs.Replies.{Prints, PrintsRefusal, back, front, has_body, reply_to, shown_at, made_fields, found_fields, region_told, internal_error, continue_line};

use crate::Context;
use crate::date::DateText;
use crate::document::tags_document;
use crate::errors::{error_reply, outside_reply};
use crate::head::{Head, Opening};
use crate::objects::{
    copied_reply, deleted_reply, got_reply, part_copied_reply, put_reply, shown_body,
};
use crate::room::Room;
use crate::statuses::reply_status;
use crate::told::{short_reply, told_reply, versioning_reply};
use crate::values::location_of;
use arrayvec::ArrayVec;
use s3_bodies::Body;
use s3_calendar::Moment;
use s3_machine::{Answer, Outcome, Region};
use s3_names::BucketName;
use s3_terms::{Code, Dialect};

/// Appends the whole reply that tells of nothing but its status.
fn bare_reply<R: Room>(out: &mut R, opening: Opening)
    requires { R.size out.old + 8_192 ≤ R.capacity out.old }
    ensures written { R.written out.new ≡ R.written out.old ++ print_head (bare opening) }
    ensures capacity { R.capacity out.old ≤ R.capacity out.new }
{
    let head = Head::bare(&opening);
    head.print(out);
}

/// Appends the whole reply that says where a bucket is.
fn made_reply<R: Room>(out: &mut R, opening: Opening, name: &BucketName)
    requires { R.size out.old + 8_192 ≤ R.capacity out.old }
    ensures written { R.written out.new ≡ R.written out.old ++ print_head (made_fields opening name.now) }
    ensures capacity { R.capacity out.old ≤ R.capacity out.new }
{
    let location = location_of(name);
    let head = Head {
        location: Some(location.as_slice()),
        ..Head::bare(&opening)
    };
    head.print(out);
}

/// What is told of a bucket's region.
fn region_told(dialect: Dialect, region: &Region) -> Option<&[u8]>
    ensures value { value_of result ≡ region_told dialect region.now }
    ensures bound { value_length (value_of result) ≤ 64 }
{
    match dialect {
        Dialect::Json => None,
        Dialect::S3 => Some(region.as_bytes()),
    }
}

/// Appends the whole reply that says that a bucket is there, and in which region.
fn found_reply<R: Room>(out: &mut R, opening: Opening, region: &Region)
    requires { R.size out.old + 8_192 ≤ R.capacity out.old }
    ensures written { R.written out.new ≡ R.written out.old ++ print_head (found_fields opening region.now) }
    ensures capacity { R.capacity out.old ≤ R.capacity out.new }
{
    let head = Head {
        region: region_told(opening.dialect, region),
        ..Head::bare(&opening)
    };
    head.print(out);
}

/// Appends the whole reply to what came of a command, where nothing stands behind it.
fn whole_reply<R: Room>(out: &mut R, opening: Opening, outcome: Outcome, head_only: bool)
    requires room { R.size out.old + 8_192 ≤ R.capacity out.old }
    requires whole { has_body outcome ≡ false }
    ensures written { (modified : Option (List ℕ)) → R.written out.new
        ≡ R.written out.old ++ front head_only (reply_to opening modified outcome) }
    ensures capacity { R.capacity out.old ≤ R.capacity out.new }
{
    match outcome {
        Outcome::BucketMade { name } => made_reply(out, opening, &name),
        Outcome::BucketFound { region } => found_reply(out, opening, &region),
        Outcome::VersioningSet | Outcome::BucketDropped | Outcome::UploadDropped => {
            bare_reply(out, opening);
        }
        Outcome::BucketVersioning { versioning } => {
            versioning_reply(out, opening, versioning, head_only);
        }
        Outcome::Put { tag, shown } => put_reply(out, opening, &tag, shown),
        Outcome::PartPut { tag } => put_reply(out, opening, &tag, None),
        Outcome::Copied { tag, moment, shown } => {
            copied_reply(out, opening, &tag, moment, shown, head_only);
        }
        Outcome::PartCopied {
            tag,
            moment,
            source,
        } => part_copied_reply(out, opening, &tag, moment, source, head_only),
        Outcome::NoTags { shown } => {
            let document = tags_document(opening.dialect);
            short_reply(out, opening, document, shown, None, head_only);
        }
        Outcome::Deleted {
            shown,
            is_delete_marker,
        } => deleted_reply(out, opening, shown, is_delete_marker),
        Outcome::OutOfRange { size } => outside_reply(out, opening, size, head_only),
        Outcome::Refused {
            code,
            is_delete_marker,
        } => error_reply(out, opening, code, is_delete_marker, head_only),
        // These have a body, and the caller knows that this one has none.
        Outcome::Told { .. } | Outcome::Completed { .. } | Outcome::Got { .. } => unreachable!(),
    }
}

/// Appends the reply to what came of a command, where a body stands behind it, and gives that.
fn headed_reply<R: Room>(
    out: &mut R,
    opening: Opening,
    outcome: Outcome,
    modified: Option<DateText>,
    head_only: bool,
) -> Option<Body>
    requires room { R.size out.old + 8_192 ≤ R.capacity out.old }
    requires body { has_body outcome ≡ true }
    ensures written { R.written out.new
        ≡ R.written out.old ++ front head_only (reply_to opening modified outcome) }
    ensures body { unwrap_or result [] ≡ back head_only (reply_to opening modified outcome) }
    ensures capacity { R.capacity out.old ≤ R.capacity out.new }
{
    match outcome {
        Outcome::Told { document } => told_reply(out, opening, document, None, head_only),
        Outcome::Completed {
            document,
            shown,
            ..
        } => told_reply(out, opening, document, shown, head_only),
        Outcome::Got {
            found,
            selection,
            overrides,
        } => {
            got_reply(
                out, opening, &found, &overrides, selection, modified, head_only,
            );
            shown_body(head_only, found.stored.body, selection)
        }
        // All others have no body, and the caller knows that this one has one.
        _ => unreachable!(),
    }
}

/// Whether a body stands behind the reply to what came of a command.
fn has_body(outcome: &Outcome) -> bool
    ensures { result ≡ has_body outcome.now }
{
    matches!(
        outcome,
        Outcome::Told { .. } | Outcome::Completed { .. } | Outcome::Got { .. }
    )
}

/// Appends the reply to what came of a command, without what stands behind it, and gives that, which is moved and not
/// copied. The version that it shows was made at the date `modified`.
fn outcome_reply<R: Room>(
    out: &mut R,
    opening: Opening,
    outcome: Outcome,
    modified: Option<DateText>,
    head_only: bool,
) -> Option<Body>
    requires { R.size out.old + 8_192 ≤ R.capacity out.old }
    ensures written { R.written out.new
        ≡ R.written out.old ++ front head_only (reply_to opening modified outcome) }
    ensures body { unwrap_or result [] ≡ back head_only (reply_to opening modified outcome) }
    ensures capacity { R.capacity out.old ≤ R.capacity out.new }
{
    if has_body(&outcome) {
        return headed_reply(out, opening, outcome, modified, head_only);
    }
    whole_reply(out, opening, outcome, head_only);
    None
}

/// The date at which the version was made that the reply shows, if it shows one.
fn modified_in(outcome: &Outcome) -> Option<DateText>
    ensures { IsDateShown (shown_at outcome.now) result }
{
    match outcome {
        Outcome::Got { found, .. } => Some(DateText::of(found.moment)),
        _ => None,
    }
}

/// Appends the reply to an answer of the machine, 8,192 bytes at most, without its body, and gives that: the caller writes it
/// behind the reply. A document is printed here; the bytes of an object are moved and not copied. It takes no memory.
pub fn print_reply<R: Room>(answer: Answer, context: &Context, out: &mut R) -> Option<Body>
    requires room { R.size out.old + 8_192 ≤ R.capacity out.old }
    ensures printed { (head : List ℕ) × (R.written out.new ≡ R.written out.old ++ head)
        × Prints answer context.now (head ++ unwrap_or result []) }
    ensures capacity { R.capacity out.old ≤ R.capacity out.new }
{
    let opening = Opening {
        status: reply_status(&answer.outcome),
        number: answer.number,
        closes: context.closes,
        date: DateText::of(context.moment),
        dialect: context.dialect,
        tells_checksums: context.tells_checksums,
        checksum: context.checksum,
    };
    let modified = modified_in(&answer.outcome);
    outcome_reply(out, opening, answer.outcome, modified, context.head_only)
}

/// The reply to a message of this moment that is refused before it comes to the machine; `head_only` says
/// that the message is a HEAD, and `dialect` how the document is spelled. The reply ends the connection, its id
/// is zero, and it is 512 bytes long at most.
pub fn refusal(code: Code, moment: Moment, head_only: bool, dialect: Dialect) -> ArrayVec<u8, 8_192>
    ensures printed { PrintsRefusal dialect code moment head_only result.items }
    ensures short { length result.items ≤ 512 }
{
    let opening = Opening {
        status: code.status(),
        number: 0,
        closes: true,
        date: DateText::of(moment),
        dialect,
        tells_checksums: false,
        checksum: None,
    };
    let mut reply: ArrayVec<u8, 8_192> = ArrayVec::new();
    error_reply(&mut reply, opening, code, false, head_only);
    reply
}

/// What is written in place of a reply where memory runs out; the connection ends with it.
pub const INTERNAL_ERROR: &[u8] = b"HTTP/1.1 500 Internal Server Error\r\n\
    Connection: close\r\n\
    Content-Length: 0\r\n\
    x-amz-request-id: 0000000000000000\r\n\
    \r\n";

/// `INTERNAL_ERROR`, with clauses that say what it is, and that it is 512 bytes long at most.
pub fn internal_error_reply() -> &'static [u8]
    ensures value { result.now ≡ internal_error }
    ensures fits { length result.now ≤ 512 }
{
    INTERNAL_ERROR
}

/// What tells a client that waits for it to send the body.
pub const CONTINUE: &[u8] = b"HTTP/1.1 100 Continue\r\n\r\n";

/// `CONTINUE`, with a clause that says what it is.
pub fn continue_reply() -> &'static [u8]
    ensures value { result.now ≡ continue_line }
    ensures fits { length result.now ≤ 8_192 }
{
    CONTINUE
}
