//! The conditions of a read, and the judgement by them.
ghost use Rattle.std.specs.Prelude.{◌≡◌, IfOk};
ghost use Rattle.s3_conditions.specs.Conditions.{plain, unmet, unchanged, selected, satisfied, judged, LiesIn};

use crate::{ByteRange, TagList};
use s3_calendar::Moment;
use s3_names::Tag;
use s3_terms::Code;

/// What a read asks of the version that it picks (RFC 9110, sections 13.1 and 14.2). A plain read asks nothing: all are `None`.
#[derive(Drop)]
pub struct Conditions {
    /// If-Match.
    pub if_match: Option<TagList>,
    /// If-None-Match.
    pub if_none_match: Option<TagList>,
    /// If-Modified-Since, where it reads as a date.
    pub modified_since: Option<Moment>,
    /// If-Unmodified-Since, where it reads as a date.
    pub unmodified_since: Option<Moment>,
    /// Range, where it reads as one and no If-Range is there.
    pub range: Option<ByteRange>,
}

impl Conditions {
    /// Those of a plain read: none.
    pub fn plain() -> Conditions
        ensures { result ≡ plain }
    {
        Conditions {
            if_match: None,
            if_none_match: None,
            modified_since: None,
            unmodified_since: None,
            range: None,
        }
    }
}

/// What of a version is shown.
#[derive(Clone, Copy)]
pub enum Selection {
    /// All of it.
    Whole,
    /// The bytes from the first position to the last, both in it.
    Part { first: u64, last: u64 },
    /// That it is as the reader knows it, and none of its bytes.
    Unchanged,
    /// That no byte of it is in the range that was asked for, and none of its bytes.
    Outside,
}

/// Judges a version that was made at `moment`, has this tag and is `size` bytes long, and takes no memory (RFC 9110, section 13.2.2):
///
/// 1. `PreconditionFailed` where If-Match is there and doesn't match, or where it is absent and the version is later than
///    If-Unmodified-Since.
/// 2. `Unchanged` where If-None-Match is there and matches, or where it is absent and the version isn't later than
///    If-Modified-Since.
/// 3. The range, or all. `Outside` where no byte of the version is in the range.
#[tactic(auto, unfolding(crate::specs::Conditions::judged))]
pub fn judge(
    conditions: &Conditions,
    moment: Moment,
    tag: &Tag,
    size: u64,
) -> Result<Selection, Code>
    ensures value { result ≡ judged conditions.now moment tag.now size }
    ensures within { IfOk result (LiesIn size) }
{
    if is_unmet(conditions, moment, tag) {
        return Err(Code::PreconditionFailed);
    }
    if is_unchanged(conditions, moment, tag) {
        return Ok(Selection::Unchanged);
    }
    Ok(selected(conditions.range, size))
}

// Whether a precondition isn't met.
#[tactic(auto, unfolding(crate::specs::Conditions::unmet))]
fn is_unmet(conditions: &Conditions, moment: Moment, tag: &Tag) -> bool
    ensures { result ≡ unmet conditions.now moment tag.now }
{
    match &conditions.if_match {
        Some(tags) => !tags.matches(tag),
        None => match conditions.unmodified_since {
            Some(date) => moment.seconds() > date.seconds(),
            None => false,
        },
    }
}

// Whether the version is as the reader knows it.
#[tactic(auto, unfolding(crate::specs::Conditions::unchanged))]
fn is_unchanged(conditions: &Conditions, moment: Moment, tag: &Tag) -> bool
    ensures { result ≡ unchanged conditions.now moment tag.now }
{
    match &conditions.if_none_match {
        Some(tags) => tags.matches(tag),
        None => match conditions.modified_since {
            Some(date) => moment.seconds() <= date.seconds(),
            None => false,
        },
    }
}

// What a range selects of that many bytes.
#[tactic(auto, unfolding(crate::specs::Conditions::selected))]
fn selected(range: Option<ByteRange>, size: u64) -> Selection
    ensures value { result ≡ selected range size }
    ensures within { LiesIn size result }
{
    match range {
        None => Selection::Whole,
        Some(range) => satisfied(range, size),
    }
}

// The part of that many bytes that is in the range, if a byte is.
fn satisfied(range: ByteRange, size: u64) -> Selection
    ensures { result ≡ satisfied range size }
{
    let (first, last) = match range {
        ByteRange::FromTo { first, last } => (first, last),
        ByteRange::From { first } => (first, size),
        ByteRange::Last { count } => (size.saturating_sub(count), size),
    };
    if first >= size || last < first {
        return Selection::Outside;
    }
    let last = last.min(size - 1);
    Selection::Part { first, last }
}
