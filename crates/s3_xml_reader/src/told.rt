//! What is told at the front of a text.

ghost use Rattle.std.specs.Prelude.{◌≡◌, true, option_and_then};
ghost use Rattle.s3_xml.specs.Grammar.{ends_tag, begun, start_tag, end_tag, comment, section, character_data, told_at};
ghost use Rattle.s3_xml_reader.specs.Told.{told_with};

use crate::cut::{behind, behind_white, cut_at, name_at};
use crate::tags::behind_attributes;

/// What is told: a start tag, the tag of an empty element and an end tag, each with its name; character data, whose references
/// aren't resolved yet; what a CDATA section has; and a comment.
#[derive(Clone, Copy)]
pub(crate) enum Told<'a> {
    Begin(&'a [u8]),
    Empty(&'a [u8]),
    End(&'a [u8]),
    Characters(&'a [u8]),
    Section(&'a [u8]),
    Comment,
}

// The end of a start tag, or of a tag of an empty element.
#[tactic(auto, unfolding(crate::specs::Told::events_told))]
fn begun<'a>(name: &'a [u8], rest: &'a [u8]) -> Option<(Told<'a>, &'a [u8])>
    requires { ends_tag rest.now ≡ true }
    ensures { option_and_then (λ told. told_with told.0 told.1.now) result ≡ begun name.now rest.now }
{
    if let Some(rest) = behind(b">", rest) {
        return Some((Told::Begin(name), rest));
    }
    let rest = behind(b"/>", rest)?;
    Some((Told::Empty(name), rest))
}

#[tactic(auto, unfolding(s3_xml::specs::Grammar::start_tag))]
fn start_tag(bytes: &[u8]) -> Option<(Told<'_>, &[u8])>
    ensures { option_and_then (λ told. told_with told.0 told.1.now) result ≡ start_tag bytes.now }
{
    let (name, rest) = name_at(bytes)?;
    let rest = behind_attributes(rest)?;
    begun(name, rest)
}

#[tactic(auto, unfolding(s3_xml::specs::Grammar::end_tag, crate::specs::Told::events_told))]
fn end_tag(bytes: &[u8]) -> Option<(Told<'_>, &[u8])>
    ensures { option_and_then (λ told. told_with told.0 told.1.now) result ≡ end_tag bytes.now }
{
    let (name, rest) = name_at(bytes)?;
    let rest = behind(b">", behind_white(rest))?;
    Some((Told::End(name), rest))
}

#[tactic(auto, unfolding(s3_xml::specs::Grammar::comment, crate::specs::Told::events_told))]
fn comment(bytes: &[u8]) -> Option<(Told<'_>, &[u8])>
    ensures { option_and_then (λ told. told_with told.0 told.1.now) result ≡ comment bytes.now }
{
    let (_, rest) = cut_at(b"--", bytes)?;
    let rest = behind(b">", rest)?;
    Some((Told::Comment, rest))
}

#[tactic(auto, unfolding(s3_xml::specs::Grammar::section, crate::specs::Told::events_told))]
fn section(bytes: &[u8]) -> Option<(Told<'_>, &[u8])>
    ensures { option_and_then (λ told. told_with told.0 told.1.now) result ≡ section bytes.now }
{
    let (raw, rest) = cut_at(b"]]>", bytes)?;
    Some((Told::Section(raw), rest))
}

#[tactic(auto, unfolding(s3_xml::specs::Grammar::character_data, crate::specs::Told::events_told))]
fn character_data(bytes: &[u8]) -> Option<(Told<'_>, &[u8])>
    ensures { option_and_then (λ told. told_with told.0 told.1.now) result ≡ character_data bytes.now }
{
    let raw = s3_text::before_first(bytes, b'<');
    match cut_at(b"]]>", raw) {
        Some(_) => None,
        None => Some((Told::Characters(raw), &bytes[raw.len()..])),
    }
}

/// What is told at the front, and what stands behind it.
#[tactic(auto, unfolding(s3_xml::specs::Grammar::told_at))]
pub(crate) fn told_at(bytes: &[u8]) -> Option<(Told<'_>, &[u8])>
    ensures { option_and_then (λ told. told_with told.0 told.1.now) result ≡ told_at bytes.now }
{
    if let Some(rest) = behind(b"<!--", bytes) {
        return comment(rest);
    }
    if let Some(rest) = behind(b"<![CDATA[", bytes) {
        return section(rest);
    }
    if let Some(rest) = behind(b"</", bytes) {
        return end_tag(rest);
    }
    if let Some(rest) = behind(b"<", bytes) {
        return start_tag(rest);
    }
    character_data(bytes)
}
