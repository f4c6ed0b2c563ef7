//! What the head of a read asks of the version, its conditions and its range, and that of a copy of its source.
ghost use Rattle.std.specs.Prelude.{◌≡◌, IfOk, OnErr, option_and_then};
ghost use Rattle.std.specs.Option.{option_copied};
ghost use Rattle.httpdate.specs.Date.{parse_secs};
ghost use Rattle.s3_http_heads.specs.Head.{first_value};
ghost use Rattle.s3_requests.specs.Memory.{ConditionsTake, TagsTake};
ghost use Rattle.s3_requests.specs.ReadConditions as rules;

use s3_calendar::Moment;
use s3_conditions::{ByteRange, Conditions, TagList, read_date};
use s3_http_heads::Head;
use s3_terms::NoMemory;
use std::alloc::Global;

// The conditions of a read. Of a line that stands there more than once the first counts; one that can't be read is
// ignored, and so is a Range line where an If-Range line is there. The items of If-Match and If-None-Match are copied.
pub(crate) fn conditions_of(alloc: Global, head: &Head) -> Result<Conditions, NoMemory>
    ensures value { IfOk result (λ conditions. conditions ≡ rules.conditions_of head.now) }
    ensures memory { OnErr result (ConditionsTake head.now) }
{
    let if_match = tags_of(alloc, head, b"if-match")?;
    let if_none_match = tags_of(alloc, head, b"if-none-match")?;
    Ok(Conditions {
        if_match,
        if_none_match,
        modified_since: date_of(head, b"if-modified-since"),
        unmodified_since: date_of(head, b"if-unmodified-since"),
        range: range_of(head),
    })
}

// The conditions of a copy for its source, read as those of a read; there is no range among them.
pub(crate) fn source_conditions_of(alloc: Global, head: &Head) -> Result<Conditions, NoMemory>
    ensures { IfOk result (λ conditions. conditions ≡ rules.source_conditions_of head.now) }
{
    let if_match = tags_of(alloc, head, b"x-amz-copy-source-if-match")?;
    let if_none_match = tags_of(alloc, head, b"x-amz-copy-source-if-none-match")?;
    Ok(Conditions {
        if_match,
        if_none_match,
        modified_since: date_of(head, b"x-amz-copy-source-if-modified-since"),
        unmodified_since: date_of(head, b"x-amz-copy-source-if-unmodified-since"),
        range: None,
    })
}

// The items of the first line of that name.
fn tags_of(alloc: Global, head: &Head, name: &[u8]) -> Result<Option<TagList>, NoMemory>
    ensures value { IfOk result (λ tags. tags ≡ first_value name.now head.now) }
    ensures memory { OnErr result (TagsTake name.now head.now) }
{
    match head.first(name) {
        None => Ok(None),
        Some(value) => Ok(Some(TagList::read(alloc, value)?)),
    }
}

// The moment that the first line of that name shows.
fn date_of(head: &Head, name: &[u8]) -> Option<Moment>
    ensures { result ≡ rules.date_of name.now head.now }
{
    match head.first(name) {
        None => None,
        Some(value) => read_date(value),
    }
}

// The range that the first Range line spells, unless an If-Range line is there.
fn range_of(head: &Head) -> Option<ByteRange>
    ensures { result ≡ rules.range_of head.now }
{
    if head.is_sent(b"if-range") {
        return None;
    }
    match head.first(b"range") {
        None => None,
        Some(value) => ByteRange::read(value),
    }
}
