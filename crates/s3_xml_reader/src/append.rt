//! The text that character data stands for, appended to a text.

ghost use Rattle.std.specs.Prelude.{◌≡◌, ◌==◌, ◌&&◌, ◌++◌, length, take, Some, None, IfErr, OnOk, OnErr};
ghost use Rattle.std.specs.Char.{encode_utf8};
ghost use Rattle.s3_text.specs.Characters.{ampersand};
ghost use Rattle.s3_text.specs.Cut.{parts_at};
ghost use Rattle.s3_xml.specs.Grammar.{with_line_feeds};
ghost use Rattle.s3_xml_reader.specs.Texts.{text_of, part_text, parts_text, feed_of, appended};

use crate::error::Error;
use crate::references::resolved;
use std::alloc::AllocError;

// Appends a byte behind a carriage return or not, as it stands where line ends are line feeds.
fn append_byte(text: &mut Vec<u8>, is_behind: bool, byte: u8) -> Result<(), AllocError>
    ensures ok { OnOk result (text.new.items ≡ text.old.items ++ feed_of is_behind byte) }
    ensures begins { take (length text.old.items) text.new.items ≡ text.old.items }
{
    if is_behind && byte == b'\n' {
        return Ok(());
    }
    let byte = if byte == b'\r' { b'\n' } else { byte };
    text.push(byte)?;
    Ok(())
}

// Appends a text with its line ends as line feeds.
#[tactic(auto, using(crate::proofs::AppendLemmas::feeds))]
fn append_feeds(text: &mut Vec<u8>, raw: &[u8]) -> Result<(), AllocError>
    ensures ok { OnOk result (text.new.items ≡ text.old.items ++ with_line_feeds raw.now) }
    ensures begins { take (length text.old.items) text.new.items ≡ text.old.items }
{
    let mut is_behind = false;
    for byte in raw {
        append_byte(text, is_behind, *byte)?;
        is_behind = *byte == b'\r';
    }
    Ok(())
}

/// Appends a text with its line ends as line feeds, or a beginning of it.
///
/// # Errors
///
/// `AllocError` where memory runs out.
#[tactic(auto, using(crate::proofs::AppendLemmas::lines))]
pub(crate) fn append_lines(text: &mut Vec<u8>, raw: &[u8]) -> Result<(), AllocError>
    ensures ok { OnOk result (text.new.items ≡ text.old.items ++ with_line_feeds raw.now) }
    ensures begins { take (length text.old.items) text.new.items ≡ text.old.items }
{
    if raw.contains(&b'\r') {
        append_feeds(text, raw)
    } else {
        text.extend_from_slice(raw)
    }
}

// Appends a character.
#[tactic(auto, using(crate::proofs::AppendLemmas::begins))]
fn append_character(text: &mut Vec<u8>, character: char) -> Result<(), AllocError>
    ensures ok { OnOk result (text.new.items ≡ text.old.items ++ encode_utf8 character) }
    ensures begins { take (length text.old.items) text.new.items ≡ text.old.items }
{
    let mut buffer = [0; 4];
    text.extend_from_slice(character.encode_utf8(&mut buffer).as_bytes())
}

// Appends a character and a text behind it, or a beginning of both.
#[tactic(auto, using(crate::proofs::AppendLemmas::both))]
fn append_both(text: &mut Vec<u8>, character: char, rest: &[u8]) -> Result<(), AllocError>
    ensures ok { OnOk result (text.new.items ≡ text.old.items ++ (encode_utf8 character ++ with_line_feeds rest.now)) }
    ensures begins { take (length text.old.items) text.new.items ≡ text.old.items }
{
    append_character(text, character)?;
    append_lines(text, rest)
}

// Appends what a part behind an `&` stands for, or a beginning of it.
#[tactic(auto, using(crate::proofs::AppendLemmas::one_part))]
fn append_part(text: &mut Vec<u8>, part: &[u8]) -> Result<(), Error>
    ensures ok { OnOk result (appended text.old.items (part_text part.now) ≡ Some text.new.items) }
    ensures begins { take (length text.old.items) text.new.items ≡ text.old.items }
    ensures malformed { IfErr result (λ e. e ≡ Error.Malformed → part_text part.now ≡ None) }
{
    match resolved(part) {
        Some((character, rest)) => Ok(append_both(text, character, rest)?),
        None => Err(Error::Malformed),
    }
}

// Appends what is behind an `&`, and behind each other one, stands for, or a beginning of it.
#[tactic(auto, using(crate::proofs::AppendLemmas::parts))]
fn append_parts(text: &mut Vec<u8>, parts: &[u8]) -> Result<(), Error>
    ensures ok { OnOk result (appended text.old.items (parts_text (parts_at ampersand parts.now)) ≡ Some text.new.items) }
    ensures begins { take (length text.old.items) text.new.items ≡ text.old.items }
    ensures malformed { IfErr result (λ e. e ≡ Error.Malformed → parts_text (parts_at ampersand parts.now) ≡ None) }
{
    let mut left = parts;
    while let Some((part, more)) = s3_text::cut_once(left, b'&') {
        append_part(text, part)?;
        left = more;
    }
    append_part(text, left)
}

// Appends what character data stands for, or a beginning of it.
#[tactic(auto, using(crate::proofs::AppendLemmas::pieces))]
fn append_pieces(text: &mut Vec<u8>, raw: &[u8]) -> Result<(), Error>
    ensures ok { OnOk result (appended text.old.items (text_of raw.now) ≡ Some text.new.items) }
    ensures begins { take (length text.old.items) text.new.items ≡ text.old.items }
    ensures malformed { IfErr result (λ e. e ≡ Error.Malformed → text_of raw.now ≡ None) }
{
    match s3_text::cut_once(raw, b'&') {
        Some((front, parts)) => {
            append_lines(text, front)?;
            append_parts(text, parts)
        }
        None => Ok(append_lines(text, raw)?),
    }
}

/// Appends what character data stands for.
///
/// # Errors
///
/// `Malformed` where an `&` begins no reference, and `NoMemory` where memory runs out. The text is as it was then.
pub(crate) fn append_text(text: &mut Vec<u8>, raw: &[u8]) -> Result<(), Error>
    ensures ok { OnOk result (appended text.old.items (text_of raw.now) ≡ Some text.new.items) }
    ensures malformed { IfErr result (λ e. e ≡ Error.Malformed → text_of raw.now ≡ None) }
    ensures unchanged { OnErr result (text.new.items ≡ text.old.items) }
{
    let kept = text.len();
    match append_pieces(text, raw) {
        Ok(()) => Ok(()),
        Err(error) => {
            text.truncate(kept);
            Err(error)
        }
    }
}

/// Appends a text with its line ends as line feeds.
///
/// # Errors
///
/// `NoMemory` where memory runs out. The text is as it was then.
pub(crate) fn append_section(text: &mut Vec<u8>, raw: &[u8]) -> Result<(), Error>
    ensures ok { OnOk result (text.new.items ≡ text.old.items ++ with_line_feeds raw.now) }
    ensures memory { IfErr result (λ e. e ≡ Error.NoMemory) }
    ensures unchanged { OnErr result (text.new.items ≡ text.old.items) }
{
    let kept = text.len();
    match append_lines(text, raw) {
        Ok(()) => Ok(()),
        Err(_) => {
            text.truncate(kept);
            Err(Error::NoMemory)
        }
    }
}
