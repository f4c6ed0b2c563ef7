//! Where a list of objects begins, and where it goes on behind a batch of rows.
ghost use Rattle.std.specs.Prelude.{◌≡◌, ◌≤◌, ℕ, List, true, false, length, take, nat_eq, IfOk, IfSome, IsTrue, Some, is_some, not, ◌&&◌, ◌||◌};
ghost use Rattle.std.specs.List.{starts_with};
ghost use Rattle.std.specs.Option.{option_copied, option_map_or};
ghost use Rattle.s3_names.specs.Names.{is_key};
ghost use Rattle.s3_records.specs.Rows.{is_from};
ghost use Rattle.s3_records.specs.declared.rows.Start.TheVariants.{From};
ghost use Rattle.s3_prefixes.specs.Items.{is_before, is_behind_start};
ghost use Rattle.s3_prefixes.specs.Tellings.{is_last};
ghost use Rattle.s3_listings.specs.Drafts.{limit, Begins, GoesBehind, IsDone, IsRaised};

use s3_names::Key;
use s3_prefixes::{ObjectsAsked, Text, is_before, is_behind_token, is_last, prefix_len};
use s3_records::Start;
use s3_terms::{Code, NoMemory};
use std::alloc::Global;

/// The longest key, in bytes.
const KEY_MAX: usize = 1024;

/// Where a list begins: no key in front of that is told.
pub(crate) fn first_place(alloc: Global, asked: &ObjectsAsked) -> Result<Start, NoMemory>
    ensures { IfOk result (λ start. Begins asked.now start) }
{
    let prefix = asked.prefix.as_bytes();
    match limit(asked) {
        Some(text) if !is_before(text, prefix) => behind_text(alloc, text),
        _ => from_text(alloc, prefix),
    }
}

// The text behind which a list goes on.
fn limit(asked: &ObjectsAsked) -> Option<&[u8]>
    ensures { option_copied result ≡ limit asked.now }
{
    let text: Option<&Text> = match &asked.token {
        Some(token) => Some(token),
        None => asked.start_after.as_ref(),
    };
    Some(text?.as_bytes())
}

/// Whether all keys from a place on are behind the one that the list is to start after.
pub(crate) fn are_behind_start(asked: &ObjectsAsked, start: &Start) -> bool
    ensures all { result ≡ true → (key : List ℕ) → is_from start.now key ≡ true → is_behind_start asked.now key ≡ true }
    ensures one { result ≡ false → (key : List ℕ) × (is_from start.now key ≡ true) × (is_behind_start asked.now key ≡ false) }
{
    if asked.token.is_some() {
        return true;
    }
    match &asked.start_after {
        Some(text) => are_behind_text(text.as_bytes(), start),
        None => true,
    }
}

// Whether all texts from a place on are behind this one.
fn are_behind_text(text: &[u8], start: &Start) -> bool
    ensures all { result ≡ true → (key : List ℕ) → is_from start.now key ≡ true → is_before text.now key ≡ true }
    ensures one { result ≡ false → (key : List ℕ) × (is_from start.now key ≡ true) × (is_before text.now key ≡ false) }
{
    match start {
        Start::First => false,
        Start::From(first) => is_before(text, first.as_bytes()),
        Start::Behind(last) => !is_before(last.as_bytes(), text),
    }
}

/// A place that no key is in front of, unless it is before the text. It is the text where that is a key.
pub(crate) fn from_text(alloc: Global, text: &[u8]) -> Result<Start, NoMemory>
    ensures { IfOk result (λ start. (key : List ℕ) → is_from start key ≡ false → is_before key text.now ≡ true) }
{
    let found = cut_key(alloc, text)?;
    match found {
        Some(first) => Ok(Start::From(first)),
        None => Ok(Start::First),
    }
}

// A place that no key is in front of which is behind the text.
fn behind_text(alloc: Global, text: &[u8]) -> Result<Start, NoMemory>
    ensures { IfOk result (λ start. (key : List ℕ) → is_from start key ≡ false → is_before text.now key ≡ false) }
{
    let found = cut_key(alloc, text)?;
    match found {
        Some(last) => Ok(Start::Behind(last)),
        None => Ok(Start::First),
    }
}

// The key that a text begins with, the longest that there is.
fn cut_key(alloc: Global, text: &[u8]) -> Result<Option<Key>, NoMemory>
    ensures { IfOk result (λ found. IfSome found (λ key. IsTrue (starts_with nat_eq text.now key))) }
{
    read_key(alloc, &text[..cut_len(text)])
}

// How many of a text's bytes a key can have that it begins with.
fn cut_len(text: &[u8]) -> usize
    ensures { result ≤ length text.now }
{
    if text.len() <= KEY_MAX {
        return text.len();
    }
    let mut len = KEY_MAX;
    while len > 0 && goes_on_character(text[len]) {
        len -= 1;
    }
    len
}

// Whether a byte of UTF-8 isn't the first of its character.
fn goes_on_character(byte: u8) -> bool {
    (0x80..0xC0).contains(&byte)
}

/// A key, where these are the bytes of one. They are copied.
#[tactic(auto, unfolding(s3_names::specs::Names::is_key))]
pub(crate) fn read_key(alloc: Global, bytes: &[u8]) -> Result<Option<Key>, NoMemory>
    ensures value { IfOk result (λ found. IfSome found (λ key. key ≡ bytes.now)) }
    ensures exact { IfOk result (λ found. is_some found ≡ is_key bytes.now) }
{
    match Key::read(alloc, bytes) {
        Ok(key) => Ok(Some(key)),
        Err(Code::InternalError) => Err(NoMemory),
        Err(_) => Ok(None),
    }
}

/// Where a list goes on behind a key, if it does: all keys in front of that are told as nothing, or as the last item again. Those
/// with a common prefix of which nothing more is told are left out at once.
pub(crate) fn next_place(
    alloc: Global,
    asked: &ObjectsAsked,
    key: Key,
    last: Option<&[u8]>,
) -> Result<Option<Start>, NoMemory>
    ensures { IfOk result (λ next. GoesBehind asked.now key (option_copied last.entry) next) }
{
    if is_past(asked.prefix.as_bytes(), key.as_bytes()) {
        return Ok(None);
    }
    match place_behind(alloc, asked, &key, last)? {
        Some(first) => Ok(Some(Start::From(first))),
        None => Ok(Some(Start::Behind(key))),
    }
}

// Whether no key behind this one begins with the prefix.
fn is_past(prefix: &[u8], key: &[u8]) -> bool
    ensures { result ≡ (is_before prefix.now key.now && not (starts_with nat_eq key.now prefix.now)) }
{
    is_before(prefix, key) && !key.starts_with(prefix)
}

// The first key that may be told behind those that have a key's common prefix, where nothing more is told of these.
fn place_behind(
    alloc: Global,
    asked: &ObjectsAsked,
    key: &Key,
    last: Option<&[u8]>,
) -> Result<Option<Key>, NoMemory>
    ensures { IfOk result (λ first. IfSome first (λ first. GoesBehind asked.now key.now (option_copied last.entry) (Some (From first)))) }
{
    match done_len(asked, key, last) {
        Some(len) => raised(alloc, &key.as_bytes()[..len]),
        None => Ok(None),
    }
}

// How many bytes the common prefix of a key has, where nothing more is told of it.
fn done_len(asked: &ObjectsAsked, key: &Key, last: Option<&[u8]>) -> Option<usize>
    ensures within { IfSome result (λ len. len ≤ length key.now) }
    ensures done { IfSome result (λ len. IsDone asked.now (option_copied last.entry) key.now (take len key.now)) }
{
    if !key.as_bytes().starts_with(asked.prefix.as_bytes()) {
        return None;
    }
    let len = prefix_len(asked, key)?;
    if is_done(asked, &key.as_bytes()[..len], last) {
        Some(len)
    } else {
        None
    }
}

// Whether a common prefix was the last item, or isn't behind the token.
fn is_done(asked: &ObjectsAsked, prefix: &[u8], last: Option<&[u8]>) -> bool
    ensures { result ≡ (is_last (option_copied last.entry) prefix.now || not (option_map_or (λ token. is_before token prefix.now) asked.now.token true)) }
{
    is_last(last, prefix) || !is_behind_token(asked, prefix)
}

// The key that is a text with its last byte raised by one, where there is such a key.
fn raised(alloc: Global, text: &[u8]) -> Result<Option<Key>, NoMemory>
    ensures { IfOk result (λ found. IfSome found (λ key. IsRaised text.now key)) }
{
    match raised_text(alloc, text)? {
        Some(bytes) => read_key(alloc, bytes.as_slice()),
        None => Ok(None),
    }
}

/// A text with its last byte raised by one, where there is such a byte.
pub(crate) fn raised_text(alloc: Global, text: &[u8]) -> Result<Option<Vec<u8>>, NoMemory>
    ensures { IfOk result (λ found. IfSome found (λ raised. IsRaised text.now raised.items)) }
{
    let mut bytes = Vec::from_slice(alloc, text)?;
    let Some(last) = bytes.pop() else {
        return Ok(None);
    };
    let Some(byte) = last.checked_add(1) else {
        return Ok(None);
    };
    bytes.push(byte)?;
    Ok(Some(bytes))
}
