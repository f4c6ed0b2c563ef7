//! One line by itself.

ghost use Rattle.std.specs.Prelude.{◌≡◌, ◌++◌, [], ◌∷◌, true, None, Some, IfOk, OnOk, MatchOption, is_some, option_map, option_to_list, filter_map};
ghost use Rattle.std.specs.List.{list_all};
ghost use Rattle.hex.specs.Hex.{is_hex_digit};
ghost use Rattle.s3_text.specs.Cut.{parts_at};
ghost use Rattle.s3_events.specs.Lines.{TheMoments, MoreBytes, line_of, said_by, connection_of, moment_of, moments_of, bytes_of};
ghost use Rattle.s3_events.specs.Reading.{fields_of, meaning, connection_checked};

use s3_calendar::Moment;
use s3_terms::NoMemory;
use s3_text::{cut_once, decimal_number};
use std::alloc::Global;

// How many connections there are at most.
const CONNECTIONS: u64 = 64;

// The most digits of a number.
const DIGITS_MAX: usize = 12;

// A line that is right by itself, with its texts as they are written.
#[derive(Clone, Copy)]
pub(crate) enum Checked<'a> {
    /// One or more fields that name moments.
    Moments { connection: u32, fields: &'a [u8] },
    /// Pairs of hexadecimal digits, at least one.
    Piece { connection: u32, digits: &'a [u8] },
    End { connection: u32 },
    Turn { connection: u32 },
}

impl<'a> Checked<'a> {
    // The line, if it is right.
    #[tactic(auto, unfolding(crate::specs::Lines::line_of))]
    pub(crate) fn read(line: &'a [u8]) -> Option<Checked<'a>>
        ensures { MatchOption result (line_of line.entry.now ≡ None)
            (λ checked. (line_of line.entry.now ≡ meaning checked) × (is_some (meaning checked) ≡ true)) }
    {
        let (word, rest) = cut_once(line, b' ')?;
        match cut_once(rest, b' ') {
            Some((number, fields)) => Checked::said_by(word, connection(number)?, Some(fields)),
            None => Checked::said_by(word, connection(rest)?, None),
        }
    }

    // What a word says with the fields behind the connection's number, if there are some.
    fn said_by(word: &[u8], connection: u32, fields: Option<&'a [u8]>) -> Option<Checked<'a>>
        ensures { MatchOption result (said_by word.now connection (fields_of fields.entry) ≡ None)
            (λ checked. (said_by word.now connection (fields_of fields.entry) ≡ meaning checked) × (is_some (meaning checked) ≡ true)) }
    {
        match fields {
            Some(fields) => Checked::longer_line(word, connection, fields),
            None => Checked::shorter_line(word, connection),
        }
    }

    // What a word says with fields behind the connection's number.
    #[tactic(auto, using(crate::proofs::FieldLemmas::lines))]
    fn longer_line(word: &[u8], connection: u32, fields: &'a [u8]) -> Option<Checked<'a>>
        ensures { MatchOption result (said_by word.now connection (parts_at 32 fields.entry.now) ≡ None)
            (λ checked. (said_by word.now connection (parts_at 32 fields.entry.now) ≡ meaning checked) × (is_some (meaning checked) ≡ true)) }
    {
        if word == b"moments".as_slice() {
            return Checked::moments_line(connection, fields);
        }
        if word == b"piece".as_slice() {
            return Checked::piece_line(connection, fields);
        }
        None
    }

    // What a word says with nothing behind the connection's number.
    fn shorter_line(word: &[u8], connection: u32) -> Option<Checked<'a>>
        ensures { MatchOption result (said_by word.now connection [] ≡ None)
            (λ checked. (said_by word.now connection [] ≡ meaning checked) × (is_some (meaning checked) ≡ true)) }
    {
        if word == b"end".as_slice() {
            return Some(Checked::End { connection });
        }
        if word == b"turn".as_slice() {
            return Some(Checked::Turn { connection });
        }
        None
    }

    // The line that has these fields behind `moments` and the connection's number.
    #[tactic(auto, using(crate::proofs::FieldLemmas::lines))]
    fn moments_line(connection: u32, fields: &'a [u8]) -> Option<Checked<'a>>
        ensures { MatchOption result (moments_of (parts_at 32 fields.entry.now) ≡ None)
            (λ checked. (option_map (TheMoments connection) (moments_of (parts_at 32 fields.entry.now)) ≡ meaning checked) × (is_some (meaning checked) ≡ true)) }
    {
        if name_moments(fields) {
            Some(Checked::Moments { connection, fields })
        } else {
            None
        }
    }

    // The line that has these fields behind `piece` and the connection's number.
    #[tactic(auto, using(crate::proofs::FieldLemmas::lines))]
    fn piece_line(connection: u32, fields: &'a [u8]) -> Option<Checked<'a>>
        ensures { MatchOption result (bytes_of (parts_at 32 fields.entry.now) ≡ None)
            (λ checked. (option_map (MoreBytes connection) (bytes_of (parts_at 32 fields.entry.now)) ≡ meaning checked) × (is_some (meaning checked) ≡ true)) }
    {
        let None = cut_once(fields, b' ') else {
            return None;
        };
        if spell_bytes(fields) {
            Some(Checked::Piece {
                connection,
                digits: fields,
            })
        } else {
            None
        }
    }

    // The connection of which it speaks.
    pub(crate) fn connection(&self) -> u32
        ensures { result ≡ connection_checked self.now }
    {
        match self {
            Checked::Moments { connection, .. } => *connection,
            Checked::Piece { connection, .. } => *connection,
            Checked::End { connection } => *connection,
            Checked::Turn { connection } => *connection,
        }
    }
}

// The connection that a field names.
fn connection(field: &[u8]) -> Option<u32>
    ensures { result ≡ connection_of field.now }
{
    let number = decimal_number(field, DIGITS_MAX)?;
    if number < CONNECTIONS {
        Some(number as u32)
    } else {
        None
    }
}

// The moment that a field names.
fn moment(field: &[u8]) -> Option<Moment>
    ensures { result ≡ moment_of field.now }
{
    Moment::new(decimal_number(field, DIGITS_MAX)?)
}

// Whether each field names a moment.
fn name_moments(fields: &[u8]) -> bool
    ensures { result ≡ list_all (λ field. is_some (moment_of field)) (parts_at 32 fields.now) }
{
    let mut left = fields;
    while let Some((field, rest)) = cut_once(left, b' ') {
        if moment(field).is_none() {
            return false;
        }
        left = rest;
    }
    moment(left).is_some()
}

// Whether a field spells bytes, at least one.
#[tactic(auto, using(crate::proofs::FieldLemmas::spelling))]
fn spell_bytes(field: &[u8]) -> bool
    ensures { result ≡ is_some (bytes_of (field.now ∷ [])) }
{
    !field.is_empty() && field.len() % 2 == 0 && are_hex(field)
}

// Whether all bytes are hexadecimal digits.
fn are_hex(text: &[u8]) -> bool
    ensures { result ≡ list_all is_hex_digit text.now }
{
    text.iter()
        .all(|b| matches!(*b, b'0'..=b'9' | b'a'..=b'f' | b'A'..=b'F'))
}

// The moments that the fields name.
pub(crate) fn moments(alloc: Global, fields: &[u8]) -> Result<Vec<Moment>, NoMemory>
    ensures { IfOk result (λ moments. moments.items ≡ filter_map moment_of (parts_at 32 fields.now)) }
{
    let mut moments = Vec::new(alloc);
    let mut left = fields;
    while let Some((field, rest)) = cut_once(left, b' ') {
        add_moment(&mut moments, field)?;
        left = rest;
    }
    add_moment(&mut moments, left)?;
    Ok(moments)
}

// Adds the moment that a field names, if it names one.
fn add_moment(moments: &mut Vec<Moment>, field: &[u8]) -> Result<(), NoMemory>
    ensures { OnOk result (moments.new.items ≡ moments.old.items ++ option_to_list (moment_of field.now)) }
{
    if let Some(moment) = moment(field) {
        moments.push(moment)?;
    }
    Ok(())
}

// The bytes that digits spell.
pub(crate) fn bytes(alloc: Global, digits: &[u8]) -> Result<Vec<u8>, NoMemory>
    requires { is_some (bytes_of (digits.now ∷ [])) ≡ true }
    ensures { IfOk result (λ bytes. bytes_of (digits.now ∷ []) ≡ Some bytes.items) }
{
    match hex::decode(alloc, digits) {
        Ok(bytes) => Ok(bytes),
        Err(_) => Err(NoMemory),
    }
}
