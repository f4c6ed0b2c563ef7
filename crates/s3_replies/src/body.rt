//! What is sent of a body: all, a part, or nothing.

ghost use Rattle.std.specs.Prelude.{◌≡◌, ◌+◌, ◌≤◌, ℕ, List, [], ◌++◌, length, take, drop, unwrap_or};
ghost use Rattle.s3_replies.specs.Replies.{part, sent_body};

use crate::room::Room;
use s3_bodies::Body;

/// Appends the body, which a reply to a HEAD leaves out.
pub(crate) fn write_body<R: Room>(out: &mut R, head_only: bool, body: &[u8])
    requires { R.size out.old + length body.now ≤ R.capacity out.old }
    ensures written { R.written out.new ≡ R.written out.old ++ sent_body head_only body.now }
    ensures bound { R.size out.new ≤ R.size out.old + length body.now }
    ensures capacity { R.capacity out.old ≤ R.capacity out.new }
{
    if !head_only {
        out.write(body);
    }
}

/// The body, which a reply to a HEAD leaves out.
pub(crate) fn sent(head_only: bool, body: Body) -> Option<Body>
    ensures { unwrap_or result [] ≡ sent_body head_only body }
{
    if head_only { None } else { Some(body) }
}

/// Where the bytes from a first position to a last one lie among so many: from which place on, and how many they are.
pub(crate) fn place_of(first: u64, last: u64, size: u64) -> (u64, u64)
    ensures within { result.0 + result.1 ≤ size }
    ensures bytes { (bytes : List ℕ) → length bytes ≡ size → take result.1 (drop result.0 bytes) ≡ part first last bytes }
    ensures count { (bytes : List ℕ) → length bytes ≡ size → length (part first last bytes) ≡ result.1 }
{
    let end = if last < size { last + 1 } else { size };
    let from = first.min(end);
    (from, end - from)
}

/// The bytes from a first position to a last one, which are shared and not copied.
pub(crate) fn part_of(body: Body, first: u64, last: u64) -> Body
    ensures { result ≡ part first last body }
{
    let (from, count) = place_of(first, last, body.size());
    body.slice(from, count)
}
