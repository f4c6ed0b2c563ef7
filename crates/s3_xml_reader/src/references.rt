//! References to characters.

ghost use Rattle.std.specs.Prelude.{◌≡◌, ◌≤◌, ◌<◌, length, option_map, is_some, IfSome};
ghost use Rattle.std.specs.Char.{encode_utf8};
ghost use Rattle.s3_text.specs.Characters.{ampersand};
ghost use Rattle.s3_text.specs.Cut.{parts_at};
ghost use Rattle.s3_xml.specs.Grammar.{character_of, referred, all_resolved, dereferenced};
ghost use Rattle.s3_xml_reader.specs.References.{number_within, numbered, with_digit, entity, resolved_at};

use crate::cut::{behind, cut_at};

// Every character's number is below it.
const CHARACTERS: u32 = 1_114_112;

// The number that the digits of a number and one more spell.
fn with_digit(radix: u32, number: u32, byte: u8) -> Option<u32>
    requires lower_bound { 2 ≤ radix }
    requires upper_bound { radix ≤ 36 }
    requires room { number < 1_114_112 }
    ensures value { result ≡ with_digit radix number byte }
    ensures within { IfSome result (λ more. more < 1_114_112) }
{
    let digit = (byte as char).to_digit(radix)?;
    let more = number * radix + digit;
    if more < CHARACTERS { Some(more) } else { None }
}

// The number that digits of a radix spell, if a character may have it.
#[tactic(auto, using(crate::proofs::ReferenceLemmas::digits))]
fn number_of(radix: u32, digits: &[u8]) -> Option<u32>
    requires lower_bound { 2 ≤ radix }
    requires upper_bound { radix ≤ 36 }
    ensures { result ≡ number_within radix digits.now }
{
    if digits.is_empty() {
        return None;
    }
    let mut number = 0;
    for byte in digits {
        match with_digit(radix, number, *byte) {
            Some(more) => number = more,
            None => return None,
        }
    }
    Some(number)
}

// The character of a number.
fn character_of(number: u32) -> Option<char>
    ensures { option_map encode_utf8 result ≡ character_of number }
{
    char::from_u32(number)
}

// The character whose number digits of a radix spell.
#[tactic(auto, using(crate::proofs::ReferenceLemmas::numbers))]
fn numbered(radix: u32, digits: &[u8]) -> Option<char>
    requires lower_bound { 2 ≤ radix }
    requires upper_bound { radix ≤ 36 }
    ensures { option_map encode_utf8 result ≡ numbered radix digits.now }
{
    match number_of(radix, digits) {
        Some(number) => character_of(number),
        None => None,
    }
}

// The character that one of the five entities stands for.
#[tactic(auto, unfolding(crate::specs::References::entity))]
fn entity(name: &[u8]) -> Option<char>
    ensures { result ≡ entity name.now }
{
    if name == b"amp".as_slice() {
        Some('&')
    } else if name == b"lt".as_slice() {
        Some('<')
    } else if name == b"gt".as_slice() {
        Some('>')
    } else if name == b"quot".as_slice() {
        Some('"')
    } else if name == b"apos".as_slice() {
        Some('\'')
    } else {
        None
    }
}

/// The character that a reference stands for, by what is written between `&` and `;`.
#[tactic(auto, using(crate::proofs::ReferenceLemmas::references))]
pub(crate) fn referred(name: &[u8]) -> Option<char>
    ensures { option_map encode_utf8 result ≡ referred name.now }
{
    if let Some(character) = entity(name) {
        return Some(character);
    }
    if let Some(digits) = behind(b"#x", name) {
        return numbered(16, digits);
    }
    if let Some(digits) = behind(b"#", name) {
        return numbered(10, digits);
    }
    None
}

/// The character that stands first in what is behind an `&`, and what is behind its reference.
#[tactic(auto, unfolding(crate::specs::References::resolved_at))]
pub(crate) fn resolved(part: &[u8]) -> Option<(char, &[u8])>
    ensures { option_map (λ r. (encode_utf8 r.0, r.1.now)) result ≡ resolved_at part.now }
{
    let (name, rest) = cut_at(b";", part)?;
    let character = referred(name)?;
    Some((character, rest))
}

// Whether what stands behind each `&` begins with a reference, in a text behind an `&`.
#[tactic(auto, using(crate::proofs::PartLemmas::parts))]
fn are_references(parts: &[u8]) -> bool
    ensures { result ≡ is_some (all_resolved (parts_at ampersand parts.now)) }
{
    let mut left = parts;
    while let Some((part, more)) = s3_text::cut_once(left, b'&') {
        match resolved(part) {
            Some(_) => left = more,
            None => return false,
        }
    }
    resolved(left).is_some()
}

/// Whether each `&` of a text begins a reference.
#[tactic(auto, using(crate::proofs::PartLemmas::first_part), unfolding(s3_xml::specs::Grammar::dereferenced))]
pub(crate) fn has_references(raw: &[u8]) -> bool
    ensures { result ≡ is_some (dereferenced raw.now) }
{
    match s3_text::cut_once(raw, b'&') {
        Some((_, parts)) => are_references(parts),
        None => true,
    }
}
