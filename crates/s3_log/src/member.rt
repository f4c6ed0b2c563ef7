//! The members of a line, which stand behind others.

ghost use Rattle.std.specs.Prelude.{◌≡◌, ℕ, List, ◌++◌, true, option_map, IfOk, OnErr, Some};
ghost use Rattle.std.specs.List.{list_all};
ghost use Rattle.json.specs.Print.{quoted};
ghost use Rattle.s3_documents.specs.Tree as values;
ghost use Rattle.s3_log.specs.Line as rules;
ghost use Rattle.s3_log.specs.Room.{Keeps, Puts};

use crate::room::put;
use itoa::Buffer;
use json::Writer;
use s3_terms::{Code, NoMemory};
use std::alloc::Global;
use std::str;

/// Puts a text at a place, where it has bytes and is one, and answers where it ends. `lead` is what stands in front of it.
pub(crate) fn put_text(
    alloc: Global,
    room: &mut [u8],
    at: usize,
    lead: &[u8],
    bytes: &[u8],
) -> Result<usize, NoMemory>
    ensures put { IfOk result (λ end. Puts (rules.led lead.now (rules.text_told bytes.now)) at room.old room.new end) }
    ensures same { OnErr result (room.new ≡ room.old) }
{
    if is_usual(bytes) {
        return Ok(put_usual(room, at, lead, bytes));
    }
    match text_in(bytes) {
        Some(text) => put_quoted(alloc, room, at, lead, text),
        None => Ok(at),
    }
}

/// Puts two such texts one behind the other, each with what stands in front of it, and answers where they end.
pub(crate) fn put_texts(
    alloc: Global,
    room: &mut [u8],
    at: usize,
    lead: &[u8],
    bytes: &[u8],
    other_lead: &[u8],
    other: &[u8],
) -> Result<usize, NoMemory>
    ensures put { IfOk result (λ end.
        Puts (rules.led lead.now (rules.text_told bytes.now) ++ rules.led other_lead.now (rules.text_told other.now)) at room.old room.new end) }
    ensures kept { OnErr result (Keeps at room.old room.new) }
{
    let behind = put_text(alloc, room, at, lead, bytes)?;
    put_text(alloc, room, behind, other_lead, other)
}

/// Puts the name of a code at a place, where there is one, and answers where it ends.
pub(crate) fn put_code(
    alloc: Global,
    room: &mut [u8],
    at: usize,
    lead: &[u8],
    code: Option<Code>,
) -> Result<usize, NoMemory>
    ensures put { IfOk result (λ end. Puts (rules.led lead.now (rules.code_told code)) at room.old room.new end) }
    ensures same { OnErr result (room.new ≡ room.old) }
{
    match code {
        Some(code) => put_quoted(alloc, room, at, lead, code.name()),
        None => Ok(at),
    }
}

/// Puts a number at a place, and answers where it ends.
pub(crate) fn put_number(room: &mut [u8], at: usize, lead: &[u8], number: u64) -> usize
    ensures { Puts (rules.led lead.now (Some (values.number number))) at room.old room.new result }
{
    let mut digits = Buffer::new();
    let behind = put(room, at, lead);
    put(room, behind, digits.format(number).as_bytes())
}

/// Puts a number at a place, where there is one, and answers where it ends.
pub(crate) fn put_count(room: &mut [u8], at: usize, lead: &[u8], number: Option<u64>) -> usize
    ensures { Puts (rules.led lead.now (option_map values.number number)) at room.old room.new result }
{
    match number {
        Some(number) => put_number(room, at, lead, number),
        None => at,
    }
}

// The text that bytes are, where there are some and they are one.
#[tactic(auto, using(crate::proofs::LineLemmas::told_text, crate::proofs::LineLemmas::told_nothing))]
fn text_in(bytes: &[u8]) -> Option<&str>
    ensures { option_map (λ text. values.text text.now) result ≡ rules.text_told bytes.now }
{
    match str::from_utf8(bytes) {
        Ok(text) => some_text(text),
        Err(_) => None,
    }
}

// A text, where it isn't empty.
fn some_text(text: &str) -> Option<&str>
    ensures { option_map (λ text. values.text text.now) result ≡ rules.some_text text.now }
{
    if text.is_empty() { None } else { Some(text) }
}

// Whether bytes are a text of ASCII, of which no byte is escaped. Most are.
#[tactic(auto, using(crate::proofs::TextLemmas::usual_text))]
fn is_usual(bytes: &[u8]) -> bool
    ensures { result ≡ true → (lead : List ℕ) → rules.led lead (rules.text_told bytes.now) ≡ rules.led_plain lead bytes.now }
{
    are_usual(bytes)
}

fn are_usual(bytes: &[u8]) -> bool
    ensures { result ≡ list_all rules.is_usual bytes.now }
{
    bytes.iter().all(|byte| is_usual_byte(*byte))
}

fn is_usual_byte(byte: u8) -> bool
    ensures { result ≡ rules.is_usual byte }
{
    byte < 128 && !(byte == b'"' || byte == b'\\' || byte < b' ')
}

// Puts such a text at a place, where it isn't empty.
fn put_usual(room: &mut [u8], at: usize, lead: &[u8], text: &[u8]) -> usize
    ensures { Puts (rules.led_plain lead.now text.now) at room.old room.new result }
{
    if text.is_empty() {
        return at;
    }
    put_in_quotes(room, at, lead, text)
}

fn put_in_quotes(room: &mut [u8], at: usize, lead: &[u8], text: &[u8]) -> usize
    ensures { Puts (lead.now ++ rules.in_quotes text.now) at room.old room.new result }
{
    let quote = put(room, at, lead);
    let inside = put(room, quote, b"\"");
    let behind = put(room, inside, text);
    put(room, behind, b"\"")
}

// Puts any text in quotes at a place.
fn put_quoted(
    alloc: Global,
    room: &mut [u8],
    at: usize,
    lead: &[u8],
    text: &str,
) -> Result<usize, NoMemory>
    ensures put { IfOk result (λ end. Puts (lead.now ++ quoted text.now) at room.old room.new end) }
    ensures same { OnErr result (room.new ≡ room.old) }
{
    let quoted = quoted_text(alloc, text)?;
    let behind = put(room, at, lead);
    Ok(put(room, behind, &quoted))
}

// Any text in quotes.
#[tactic(auto, unfolding(json::specs::Print::print_from))]
fn quoted_text(alloc: Global, text: &str) -> Result<Vec<u8>, NoMemory>
    ensures { IfOk result (λ quoted_text. quoted_text.items ≡ quoted text.now) }
{
    let mut writer = Writer::new(Vec::new(alloc));
    writer.string(text)?;
    Ok(writer.into_inner())
}
