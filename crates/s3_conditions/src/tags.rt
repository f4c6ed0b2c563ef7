//! The entity tags of a condition.
ghost use Rattle.std.specs.Prelude.{◌≡◌, ◌<◌, length, reverse, IfOk, OnErr};
ghost use Rattle.s3_conditions.specs.Tags.{skip_quotes, unquoted, without_weakness, tag_in, is_match, matches};

use s3_http_heads::trimmed;
use s3_names::Tag;
use s3_terms::NoMemory;
use std::alloc::Global;
use std::marker::Model;

/// The items of an If-Match or If-None-Match line (RFC 9110, section 13.1.1). A contract sees them as the line's value.
#[derive(Drop)]
pub struct TagList {
    text: Vec<u8>,
}

impl Model for TagList {
    ghost use Rattle.std.specs.Prelude.{ℕ, List};

    ghost Value = { List ℕ };

    ghost view = { λ tags. tags.text.items };
}

impl TagList {
    /// The items of a line's value, whose bytes it copies: any text is a list of them. `NoMemory` comes only where there are
    /// bytes to copy.
    pub fn read(alloc: Global, value: &[u8]) -> Result<TagList, NoMemory>
        ensures value { IfOk result (λ tags. tags ≡ value.now) }
        ensures memory { OnErr result (0 < length value.now) }
    {
        let mut text = Vec::new(alloc);
        text.extend_from_slice(value)?;
        Ok(TagList { text })
    }

    /// Whether an item is `*` or this tag, found without memory at the cost of the line's length.
    pub fn matches(&self, tag: &Tag) -> bool
        ensures { result ≡ matches self.now tag.now }
    {
        has_match(self.text.as_slice(), tag.text().as_bytes())
    }
}

/// The text without the double quotes at both ends: all go, paired or not.
pub fn unquoted(text: &[u8]) -> &[u8]
    ensures { result.now ≡ unquoted text.now }
{
    unquoted_end(unquoted_start(text))
}

// Whether an item of the line is `*` or this tag.
fn has_match(line: &[u8], tag: &[u8]) -> bool
    ensures { result ≡ matches line.now tag.now }
{
    line.split(|byte| *byte == b',')
        .any(|item| is_match(item, tag))
}

// Whether the item is `*` or this tag.
fn is_match(item: &[u8], tag: &[u8]) -> bool
    ensures { result ≡ is_match item.now tag.now }
{
    let named = tag_in(item);
    named == b"*".as_slice() || named == tag
}

// What an item names.
fn tag_in(item: &[u8]) -> &[u8]
    ensures { result.now ≡ tag_in item.now }
{
    unquoted(without_weakness(trimmed(item)))
}

// The item without the mark of a weak tag.
fn without_weakness(item: &[u8]) -> &[u8]
    ensures { result.now ≡ without_weakness item.now }
{
    match item.strip_prefix(b"W/".as_slice()) {
        Some(rest) => rest,
        None => item,
    }
}

// The text without the quotes that it begins with.
fn unquoted_start(text: &[u8]) -> &[u8]
    ensures { result.now ≡ skip_quotes text.now }
{
    let mut rest = text;
    while let [b'"', behind @ ..] = rest {
        rest = behind;
    }
    rest
}

// The text without the quotes that it ends with.
fn unquoted_end(text: &[u8]) -> &[u8]
    ensures { result.now ≡ reverse (skip_quotes (reverse text.now)) }
{
    let mut end = text.len();
    while end > 0 && text[end - 1] == b'"' {
        end -= 1;
    }
    &text[..end]
}
