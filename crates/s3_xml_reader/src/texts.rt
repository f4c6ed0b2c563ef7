//! The text that character data stands for.

ghost use Rattle.std.specs.Prelude.{◌≡◌};
ghost use Rattle.std.specs.Char.{encode_utf8};
ghost use Rattle.std.specs.List.{list_all};
ghost use Rattle.s3_text.specs.Characters.{ampersand};
ghost use Rattle.s3_text.specs.Cut.{parts_at};
ghost use Rattle.s3_xml.specs.Characters.{is_white};
ghost use Rattle.s3_xml_reader.specs.Texts.{text_of, part_text, parts_text, is_white_text};

use crate::characters::is_all_white;
use crate::references::resolved;

// Whether a character is white space.
fn is_white_character(character: char) -> bool
    ensures { result ≡ list_all is_white (encode_utf8 character) }
{
    let mut buffer = [0; 4];
    is_all_white(character.encode_utf8(&mut buffer).as_bytes())
}

// Whether what is behind an `&` stands for white space alone.
#[tactic(auto, using(crate::proofs::TextLemmas::white_part_rules))]
fn is_white_part(part: &[u8]) -> bool
    ensures { result ≡ is_white_text (part_text part.now) }
{
    match resolved(part) {
        Some((character, rest)) => is_white_character(character) && is_all_white(rest),
        None => false,
    }
}

// Whether what is behind an `&`, and behind each other one, does.
#[tactic(auto, using(crate::proofs::TextLemmas::white_parts_rules))]
fn are_white_parts(parts: &[u8]) -> bool
    ensures { result ≡ is_white_text (parts_text (parts_at ampersand parts.now)) }
{
    let mut left = parts;
    while let Some((part, more)) = s3_text::cut_once(left, b'&') {
        if !is_white_part(part) {
            return false;
        }
        left = more;
    }
    is_white_part(left)
}

/// Whether character data stands for white space alone.
#[tactic(auto, using(crate::proofs::TextLemmas::white_text_rules))]
pub(crate) fn is_white_text(raw: &[u8]) -> bool
    ensures { result ≡ is_white_text (text_of raw.now) }
{
    match s3_text::cut_once(raw, b'&') {
        Some((front, parts)) => is_all_white(front) && are_white_parts(parts),
        None => is_all_white(raw),
    }
}
