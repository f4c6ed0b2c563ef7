//! Tags, and the attributes in them.

ghost use Rattle.std.specs.Prelude.{◌≡◌, true, suc, length, option_map, IfSome};
ghost use Rattle.s3_xml.specs.Grammar.{is_value, behind_value, behind_attribute, ends_tag, behind_attributes};

use crate::cut::{begins_white, begins_with, behind, behind_white, cut_at, name_at};
use crate::references::has_references;

// Whether an attribute may have this value: no `<`, and references that are ones.
fn is_value(value: &[u8]) -> bool
    ensures { result ≡ is_value value.now }
{
    if value.contains(&b'<') {
        return false;
    }
    has_references(value)
}

// What stands behind a value in quotes.
#[tactic(auto, unfolding(s3_xml::specs::Grammar::behind_value))]
fn behind_value(bytes: &[u8]) -> Option<&[u8]>
    ensures { option_map (λ rest. rest.now) result ≡ behind_value bytes.now }
{
    let [quote, rest @ ..] = bytes else {
        return None;
    };
    if *quote != b'"' && *quote != b'\'' {
        return None;
    }
    let (value, rest) = cut_at(&[*quote], rest)?;
    if !is_value(value) {
        return None;
    }
    Some(rest)
}

// What stands behind an attribute.
#[tactic(auto, unfolding(s3_xml::specs::Grammar::behind_attribute))]
fn behind_attribute(bytes: &[u8]) -> Option<&[u8]>
    ensures { option_map (λ rest. rest.now) result ≡ behind_attribute bytes.now }
{
    let (_, rest) = name_at(bytes)?;
    let value = behind(b"=", behind_white(rest))?;
    behind_value(behind_white(value))
}

// Whether a tag ends here.
fn ends_tag(bytes: &[u8]) -> bool
    ensures { result ≡ ends_tag bytes.now }
{
    begins_with(b">", bytes) || begins_with(b"/>", bytes)
}

/// What stands behind the attributes of a tag, each of which has white space in front of it: the end of the tag, and the rest.
#[tactic(auto, using(crate::proofs::TagLemmas::attributes))]
pub(crate) fn behind_attributes(bytes: &[u8]) -> Option<&[u8]>
    ensures value { option_map (λ rest. rest.now) result ≡ behind_attributes (suc (length bytes.now)) bytes.now }
    ensures ends { IfSome result (λ rest. ends_tag rest.now ≡ true) }
{
    let mut left = bytes;
    loop {
        let next = behind_white(left);
        if ends_tag(next) {
            return Some(next);
        }
        if !begins_white(left) {
            return None;
        }
        match behind_attribute(next) {
            Some(rest) => left = rest,
            None => return None,
        }
    }
}
