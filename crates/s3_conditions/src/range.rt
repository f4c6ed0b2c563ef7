//! A range of bytes.
ghost use Rattle.std.specs.Prelude.{◌≡◌, ◌≢◌, [], ◌∷◌, length, MatchOption};
ghost use Rattle.std.specs.Option.{option_copied};
ghost use Rattle.s3_text.specs.Characters.{hyphen};
ghost use Rattle.s3_text.specs.Cut.{parts_at};
ghost use Rattle.s3_conditions.specs.Range.{behind_unit, position, in_order, between, range_of_parts, byte_range};

use s3_text::{cut_once, decimal_number};

/// The most digits of a position in a range.
const POSITION_DIGITS: usize = 18;

/// A range of bytes that is asked for (RFC 9110, section 14.1.2). Positions count from 0.
#[derive(Clone, Copy)]
pub enum ByteRange {
    /// `a-b`: from the first position to the last, both in it.
    FromTo { first: u64, last: u64 },
    /// `a-`: from there to the end.
    From { first: u64 },
    /// `-n`: that many bytes at the end.
    Last { count: u64 },
}

impl ByteRange {
    /// Reads the value of a Range line: `bytes=` and `a-b`, `a-` or `-n`, where each number has 1 to 18 decimal digits and `a` is at
    /// most `b`. Anything else, a list of ranges among it, is `None`, and counts as no range.
    #[tactic(auto, using(crate::proofs::RangeLemmas::not_two), unfolding(crate::specs::Range::byte_range))]
    pub fn read(value: &[u8]) -> Option<ByteRange>
        ensures { result ≡ byte_range value.now }
    {
        let (before, after) = cut_in_two(behind_unit(value)?)?;
        between(before, after)
    }
}

// What follows the unit.
fn behind_unit(value: &[u8]) -> Option<&[u8]>
    ensures { option_copied result ≡ behind_unit value.now }
{
    value.strip_prefix(b"bytes=".as_slice())
}

// What stands before and after the hyphen, if there is just one.
fn cut_in_two(text: &[u8]) -> Option<(&[u8], &[u8])>
    ensures { MatchOption result
        (length (parts_at hyphen text.now) ≢ 2)
        (λ parts. parts_at hyphen text.now ≡ parts.0.now ∷ parts.1.now ∷ []) }
{
    let (before, after) = cut_once(text, b'-')?;
    match cut_once(after, b'-') {
        Some(_) => None,
        None => Some((before, after)),
    }
}

// The range with these texts before and after its hyphen.
#[tactic(auto, unfolding(crate::specs::Range::between))]
fn between(before: &[u8], after: &[u8]) -> Option<ByteRange>
    ensures { result ≡ between before.now after.now }
{
    if before.is_empty() {
        let count = position(after)?;
        return Some(ByteRange::Last { count });
    }
    let first = position(before)?;
    if after.is_empty() {
        return Some(ByteRange::From { first });
    }
    let last = position(after)?;
    in_order(first, last)
}

// The range from a first position to a last one that doesn't come before it.
fn in_order(first: u64, last: u64) -> Option<ByteRange>
    ensures { result ≡ in_order first last }
{
    if last < first {
        return None;
    }
    Some(ByteRange::FromTo { first, last })
}

// A number of 1 to 18 digits.
fn position(text: &[u8]) -> Option<u64>
    ensures { result ≡ position text.now }
{
    decimal_number(text, POSITION_DIGITS)
}
