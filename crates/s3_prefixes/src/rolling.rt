//! As which item a key is told.
ghost use Rattle.std.specs.Prelude.{◌≡◌, ◌≤◌, ◌<◌, IsUtf8, IsTrue, IfSome, Some, if◌then◌else◌, length, take, drop, nat_eq, true, option_map};
ghost use Rattle.std.specs.List.{starts_with};
ghost use Rattle.std.specs.Option.{option_map_or, option_copied};
ghost use Rattle.s3_versions.specs.declared.picking.Facts.{Facts};
ghost use Rattle.s3_prefixes.specs.Items.{is_before, is_asked, is_behind_start, common_prefix, rolled_up, told_object};
ghost use Rattle.s3_prefixes.specs.Tellings.{is_last, item_by, IsCut, first_rolled};
ghost use Rattle.s3_prefixes.specs.declared.rolling.Telling.TheVariants.{Nothing};

use crate::ObjectsAsked;
use s3_names::Key;
use std::cmp::Ordering;

/// As which item a key is told, whose current version is an object.
#[derive(Clone, Copy)]
pub enum Telling {
    /// As none: it isn't asked for, or its item isn't behind the token.
    Nothing,
    /// As an object.
    Itself,
    /// As its common prefix, which has so many bytes.
    Prefix(usize),
}

/// As which item the key is told, which may be known to be behind the one that the list is to start after. Costs the length of
/// the key times that of the delimiter.
pub fn told_as(asked: &ObjectsAsked, key: &Key, is_behind: bool) -> Telling
    requires { is_behind ≡ true → is_behind_start asked.now key.now ≡ true }
    ensures value { (facts : Facts) → item_by result key.now facts ≡ told_object asked.now key.now facts }
    ensures cut { IsCut result key.now }
{
    if !is_asked(asked, key.as_bytes(), is_behind) {
        return Telling::Nothing;
    }
    match prefix_len(asked, key) {
        Some(len) => behind_token(asked, &key.as_bytes()[..len], Telling::Prefix(len)),
        None => behind_token(asked, key.as_bytes(), Telling::Itself),
    }
}

// How something is told whose text is this: not at all where that isn't behind the token.
fn behind_token(asked: &ObjectsAsked, text: &[u8], telling: Telling) -> Telling
    ensures { result ≡ if◌then◌else◌ (option_map_or (λ token. is_before token text.now) asked.now.token true) telling Nothing }
{
    if is_behind_token(asked, text) {
        telling
    } else {
        Telling::Nothing
    }
}

/// Whether the text stands behind the token, where there is one.
pub fn is_behind_token(asked: &ObjectsAsked, text: &[u8]) -> bool
    ensures { result ≡ option_map_or (λ token. is_before token text.now) asked.now.token true }
{
    match &asked.token {
        Some(token) => is_before(token.as_bytes(), text),
        None => true,
    }
}

// Whether the key is asked for, which may be known to be behind the one that the list is to start after.
fn is_asked(asked: &ObjectsAsked, key: &[u8], is_behind: bool) -> bool
    requires { is_behind ≡ true → is_behind_start asked.now key.now ≡ true }
    ensures { result ≡ is_asked asked.now key.now }
{
    key.starts_with(asked.prefix.as_bytes()) && (is_behind || is_behind_start(asked, key))
}

// Whether it is behind the one that the list is to start after.
fn is_behind_start(asked: &ObjectsAsked, key: &[u8]) -> bool
    ensures { result ≡ is_behind_start asked.now key.now }
{
    if asked.token.is_some() {
        return true;
    }
    match &asked.start_after {
        Some(start) => is_before(start.as_bytes(), key),
        None => true,
    }
}

/// Whether one text comes before another, byte by byte.
pub fn is_before(text: &[u8], other: &[u8]) -> bool
    ensures { result ≡ is_before text.now other.now }
{
    matches!(text.cmp(other), Ordering::Less)
}

/// Whether the last text is this one.
pub fn is_last(last: Option<&[u8]>, text: &[u8]) -> bool
    ensures { result ≡ is_last (option_copied last.entry) text.now }
{
    match last {
        Some(last) => text == last,
        None => false,
    }
}

/// How many bytes the common prefix of a key has, where it has one. The key begins with the prefix that is asked for.
pub fn prefix_len(asked: &ObjectsAsked, key: &Key) -> Option<usize>
    requires { IsTrue (starts_with nat_eq key.now asked.now.prefix) }
    ensures value { option_map (λ len. take len key.now) result ≡ common_prefix asked.now key.now }
    ensures within { IfSome result (λ len. len ≤ length key.now) }
    ensures utf8 { IfSome result (λ len. IsUtf8 (take len key.now)) }
{
    let delimiter = asked.delimiter.as_bytes();
    rolled_len(asked.prefix.as_bytes(), delimiter, key.as_bytes())
}

// The same of texts: the key begins with the prefix.
fn rolled_len(prefix: &[u8], delimiter: &[u8], key: &[u8]) -> Option<usize>
    requires { IsTrue (starts_with nat_eq key.now prefix.now) }
    ensures value { option_map (λ len. take len key.now) result ≡ rolled_up prefix.now delimiter.now key.now }
    ensures within { IfSome result (λ len. len ≤ length key.now) }
    ensures utf8 { IsUtf8 key.now → IsUtf8 delimiter.now → IfSome result (λ len. IsUtf8 (take len key.now)) }
{
    let end = end_of_first(from(key, prefix.len()), delimiter)?;
    Some(prefix.len() + end)
}

// A text from a place in it on.
fn from(text: &[u8], at: usize) -> &[u8]
    requires { at ≤ length text.now }
    ensures { result.now ≡ drop at text.now }
{
    &text[at..]
}

// Where the first delimiter ends in a text, if there is one.
fn end_of_first(text: &[u8], delimiter: &[u8]) -> Option<usize>
    ensures value { option_map (λ end. take end text.now) result ≡ first_rolled delimiter.now text.now }
    ensures within { IfSome result (λ end. end ≤ length text.now) }
{
    if delimiter.is_empty() {
        return None;
    }
    for at in 0..text.len() {
        if from(text, at).starts_with(delimiter) {
            return Some(at + delimiter.len());
        }
    }
    None
}
