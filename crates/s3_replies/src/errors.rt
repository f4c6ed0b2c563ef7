//! The replies that refuse.

ghost use Rattle.std.specs.Prelude.{◌≡◌, ◌+◌, ◌≤◌, false, ◌++◌};
ghost use Rattle.s3_replies.specs.Document.{error_document};
ghost use Rattle.s3_replies.specs.Lines.{room_with};
ghost use Rattle.s3_replies.specs.Replies.{beside, error_fields, front, outside_reply};

use crate::body::write_body;
use crate::document::{content_type_of, document_of};
use crate::head::{Head, Opening};
use crate::room::Room;
use crate::values::{RangeText, range_bytes, range_told};
use s3_terms::Code;

/// Appends the whole reply that refuses with the code, says whether what was asked for is a delete marker, and tells this of a
/// range: 482 bytes at most, and more only where it tells something of one.
fn refused_reply<R: Room>(
    out: &mut R,
    opening: Opening,
    code: Code,
    is_delete_marker: bool,
    range: Option<RangeText>,
    head_only: bool,
)
    requires { R.size out.old + 8_192 ≤ R.capacity out.old }
    ensures written { R.written out.new ≡ R.written out.old ++ front head_only
        (beside (record (error_fields opening is_delete_marker) { content_range = range }) (error_document opening.dialect code opening.number)) }
    ensures short { R.size out.new ≤ R.size out.old + 482 + room_with 17 range }
    ensures capacity { R.capacity out.old ≤ R.capacity out.new }
{
    let document = document_of(code, opening.number, opening.dialect);
    let head = Head {
        is_delete_marker,
        content_range: range_bytes(&range),
        content_type: Some(content_type_of(opening.dialect)),
        size: document.len() as u64,
        ..Head::bare(&opening)
    };
    head.print(out);
    write_body(out, head_only, document.as_slice());
}

/// Appends the whole reply that refuses with the code, and says whether what was asked for is a delete marker. It is
/// 512 bytes long at most.
pub(crate) fn error_reply<R: Room>(
    out: &mut R,
    opening: Opening,
    code: Code,
    is_delete_marker: bool,
    head_only: bool,
)
    requires { R.size out.old + 8_192 ≤ R.capacity out.old }
    ensures written { R.written out.new ≡ R.written out.old
        ++ front head_only (beside (error_fields opening is_delete_marker) (error_document opening.dialect code opening.number)) }
    ensures short { R.size out.new ≤ R.size out.old + 512 }
    ensures capacity { R.capacity out.old ≤ R.capacity out.new }
{
    refused_reply(out, opening, code, is_delete_marker, None, head_only);
}

/// Appends the whole reply to a read of a range that has no byte of an object of this size.
pub(crate) fn outside_reply<R: Room>(out: &mut R, opening: Opening, size: u64, head_only: bool)
    requires { R.size out.old + 8_192 ≤ R.capacity out.old }
    ensures written { R.written out.new ≡ R.written out.old
        ++ front head_only (outside_reply opening size) }
    ensures capacity { R.capacity out.old ≤ R.capacity out.new }
{
    let range = range_told(opening.dialect, size);
    refused_reply(out, opening, Code::InvalidRange, false, range, head_only);
}
