//! What a head has to have before it is signed.

ghost use Rattle.std.specs.Prelude.{◌≡◌, ◌↔◌, ◌∷◌, [], codes, length, not, true, if◌then◌else◌};
ghost use Rattle.std.specs.List.{AllByRecursion};
ghost use Rattle.s3_http_heads.specs.BodyLength.{length_lines};
ghost use Rattle.s3_http_heads.specs.Head.{values_of};
ghost use Rattle.s3_http_heads.specs.Target.{is_unreadable};
ghost use Rattle.s3_signer.specs.Line.{told_by};
ghost use Rattle.s3_signer.specs.Presigned.{is_plain};
ghost use Rattle.s3_signer.specs.Request.{HasOne, IsReadyFor, given_lines};

use crate::telling::Telling;
use s3_http_heads::Head;

// Whether a head has one line of this name, with this value.
pub(crate) fn has_one(head: &Head, name: &[u8], value: &[u8]) -> bool
    ensures { (result ≡ true) ↔ HasOne head.now (name.now, value.now) }
{
    match head.first(name) {
        Some(first) => head.count(name) == 1 && first == value,
        None => false,
    }
}

// Whether a head has one line of each of these names, with its value.
fn has_each(head: &Head, lines: &[(&[u8], &[u8])]) -> bool
    ensures { (result ≡ true) ↔ AllByRecursion (HasOne head.now) (given_lines lines.now) }
{
    for line in lines {
        if !has_one(head, line.0, line.1) {
            return false;
        }
    }
    true
}

// Whether the target can be read.
#[tactic(auto, unfolding(s3_http_heads::specs::Target::target_of))]
pub(crate) fn is_readable(head: &Head) -> bool
    ensures { result ≡ not (is_unreadable head.now.target) }
{
    head.decoded_target().is_ok()
}

// Whether an id has no control byte but the tab.
pub(crate) fn is_plain(id: &[u8]) -> bool
    ensures { result ≡ is_plain id.now }
{
    id.iter()
        .all(|byte| *byte == b'\t' || (*byte >= b' ' && *byte != 127))
}

// Whether a head has one line of the host, and one of the size where that is told, and else none.
pub(crate) fn has_own_lines(head: &Head, tells_size: bool) -> bool
    ensures { (result ≡ true) ↔ ((length (values_of (codes "host") head.now) ≡ 1)
        × (length (length_lines head.now) ≡ (if tells_size then 1 else 0))) }
{
    head.count(b"host") == 1 && head.count(b"content-length") == if tells_size { 1 } else { 0 }
}

// Whether the target can be read, and the host and the signer's own names have just the lines that they
// should.
pub(crate) fn is_ready(head: &Head, telling: &Telling, stamp: &[u8]) -> bool
    ensures { (result ≡ true) ↔ IsReadyFor (told_by telling.now) stamp.now head.now }
{
    is_readable(head)
        && head.count(b"host") == 1
        && head.count(b"content-length") == if telling.sized { 1 } else { 0 }
        && has_one(head, b"x-amz-content-sha256", telling.word)
        && has_one(head, b"x-amz-date", stamp)
        && has_each(head, telling.more)
}
