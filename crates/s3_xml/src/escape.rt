//! Texts as they stand in a document: with references for what is markup, and for what XML has no character for.
ghost use Rattle.std.specs.Prelude.{◌≡◌, ◌<◌, ◌≤◌, ◌++◌, length, MatchResult, OnOk, IfOk, OnErr};
ghost use Rattle.std.specs.Char.{digit_char};
ghost use Rattle.std.specs.List.{position_or_len};
ghost use Rattle.s3_xml.specs.Characters.{is_control, begins_noncharacter};
ghost use Rattle.s3_xml.specs.Printed.{numbered, escaped_other, escaped_byte, escaped_noncharacter, escaped};
ghost use Rattle.s3_xml.specs.Writer.{is_special, TakesBytes, Advances};

use crate::writer::Writer;
use std::alloc::AllocError;

// Writes what stands for a text.
pub(crate) fn put_escaped(writer: &mut Writer, text: &[u8]) -> Result<(), AllocError>
    ensures told { OnOk result (writer.new.bytes ≡ writer.old.bytes ++ escaped text.now) }
    ensures room { TakesBytes result writer.old.spare writer.new.spare (length (escaped text.now)) }
{
    let mut rest = text;
    while !rest.is_empty() {
        let count = put_front(writer, rest)?;
        rest = &rest[count..];
    }
    Ok(())
}

// Writes what stands for some bytes at the front, and answers how many those are.
fn put_front(writer: &mut Writer, text: &[u8]) -> Result<usize, AllocError>
    requires { 0 < length text.now }
    ensures advances { IfOk result (λ count. Advances text.now writer.old writer.new count) }
    ensures room { OnErr result (writer.old.spare < length (escaped text.now)) }
{
    let count = plain_front(text);
    if count > 0 {
        writer.put(&text[..count])?;
        return Ok(count);
    }
    put_character(writer, text)
}

// The same for one character.
fn put_character(writer: &mut Writer, text: &[u8]) -> Result<usize, AllocError>
    requires { 0 < length text.now }
    ensures advances { IfOk result (λ count. Advances text.now writer.old writer.new count) }
    ensures room { OnErr result (writer.old.spare < length (escaped text.now)) }
{
    if is_noncharacter(text) {
        put_noncharacter(writer, text[2])?;
        return Ok(3);
    }
    put_byte(writer, text[0])?;
    Ok(1)
}

// How many bytes at the front stand for themselves, whatever stands behind them.
fn plain_front(text: &[u8]) -> usize
    ensures value { result ≡ position_or_len is_special text.now }
    ensures within { result ≤ length text.now }
{
    for (i, b) in text.iter().enumerate() {
        if is_special(*b) {
            return i;
        }
    }
    text.len()
}

// Whether a byte may have to be written as a reference.
fn is_special(b: u8) -> bool
    ensures { result ≡ is_special b }
{
    b == b'&' || b == b'<' || b == b'>' || b == b'"' || b == b'\r' || b == 239 || is_control(b)
}

// Whether XML has no character for a byte.
fn is_control(b: u8) -> bool
    ensures { result ≡ is_control b }
{
    b < 32 && b != b' ' && b != b'\t' && b != b'\n' && b != b'\r'
}

// Whether U+FFFE or U+FFFF stands at the front.
fn is_noncharacter(text: &[u8]) -> bool
    ensures { result ≡ begins_noncharacter text.now }
{
    match text {
        [a, b, c, ..] => *a == 239 && *b == 191 && (*c == 190 || *c == 191),
        _ => false,
    }
}

// Writes the reference for U+FFFE or U+FFFF, by the last of its bytes.
fn put_noncharacter(writer: &mut Writer, c: u8) -> Result<(), AllocError>
    ensures told { OnOk result (writer.new.bytes ≡ writer.old.bytes ++ escaped_noncharacter c) }
    ensures room { TakesBytes result writer.old.spare writer.new.spare (length (escaped_noncharacter c)) }
{
    if c == 190 {
        writer.put(b"&#xfffe;")
    } else {
        writer.put(b"&#xffff;")
    }
}

// Writes what stands for a byte.
#[tactic(auto, unfolding(crate::specs::Printed::escaped_byte))]
fn put_byte(writer: &mut Writer, b: u8) -> Result<(), AllocError>
    ensures told { OnOk result (writer.new.bytes ≡ writer.old.bytes ++ escaped_byte b) }
    ensures room { TakesBytes result writer.old.spare writer.new.spare (length (escaped_byte b)) }
{
    match b {
        b'&' => writer.put(b"&amp;"),
        b'<' => writer.put(b"&lt;"),
        b'>' => writer.put(b"&gt;"),
        b'"' => writer.put(b"&quot;"),
        _ => put_other(writer, b),
    }
}

// The same for a byte that no entity stands for.
fn put_other(writer: &mut Writer, b: u8) -> Result<(), AllocError>
    ensures told { OnOk result (writer.new.bytes ≡ writer.old.bytes ++ escaped_other b) }
    ensures room { TakesBytes result writer.old.spare writer.new.spare (length (escaped_other b)) }
{
    if b == b'\r' || is_control(b) {
        put_number(writer, b)
    } else {
        writer.put(&[b])
    }
}

// Writes the reference to a character by its number.
fn put_number(writer: &mut Writer, b: u8) -> Result<(), AllocError>
    ensures told { OnOk result (writer.new.bytes ≡ writer.old.bytes ++ numbered b) }
    ensures room { TakesBytes result writer.old.spare writer.new.spare (length (numbered b)) }
{
    writer.put(b"&#x")?;
    if b >= 16 {
        writer.put(&[digit(b / 16)])?;
    }
    writer.put(&[digit(b % 16), b';'])
}

// A hexadecimal digit.
fn digit(number: u8) -> u8
    requires { number < 16 }
    ensures { result ≡ digit_char number }
{
    if number < 10 {
        b'0' + number
    } else {
        b'a' + (number - 10)
    }
}
