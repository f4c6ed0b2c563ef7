//! What stands at the front of a text, and what behind it.

ghost use Rattle.std.specs.Prelude.{◌≡◌, ◌<◌, ◌≤◌, length, option_map, IsTrue};
ghost use Rattle.std.specs.List.{prefix_len};
ghost use Rattle.s3_xml.specs.Characters.{is_white, is_name_byte, is_name_start};
ghost use Rattle.s3_xml.specs.Grammar.{begins_with, behind, behind_white, begins_so, cut_at, name_at};

use crate::characters::{is_name_byte, is_name_start, is_white};

/// Whether a mark stands at the front.
pub(crate) fn begins_with(mark: &[u8], bytes: &[u8]) -> bool
    ensures value { result ≡ begins_with mark.now bytes.now }
    ensures within { IsTrue result → length mark.now ≤ length bytes.now }
{
    bytes.starts_with(mark)
}

/// What stands behind a mark at the front.
pub(crate) fn behind<'a>(mark: &[u8], bytes: &'a [u8]) -> Option<&'a [u8]>
    ensures value { option_map (λ rest. rest.now) result ≡ behind mark.now bytes.now }
{
    if begins_with(mark, bytes) {
        Some(&bytes[mark.len()..])
    } else {
        None
    }
}

// How many bytes of white space stand at the front.
fn white_len(bytes: &[u8]) -> usize
    ensures value { result ≡ prefix_len is_white bytes.now }
    ensures within { result ≤ length bytes.now }
{
    bytes.iter().take_while(|b| is_white(**b)).count()
}

/// What stands behind white space at the front.
pub(crate) fn behind_white(bytes: &[u8]) -> &[u8]
    ensures { result.now ≡ behind_white bytes.now }
{
    &bytes[white_len(bytes)..]
}

/// Whether white space stands at the front.
pub(crate) fn begins_white(bytes: &[u8]) -> bool
    ensures { result ≡ begins_so is_white bytes.now }
{
    match bytes {
        [byte, ..] => is_white(*byte),
        [] => false,
    }
}

/// What stands before the first place of a mark, and what behind it.
pub(crate) fn cut_at<'a>(mark: &[u8], bytes: &'a [u8]) -> Option<(&'a [u8], &'a [u8])>
    ensures { option_map (λ cut. (cut.0.now, cut.1.now)) result ≡ cut_at mark.now bytes.now }
{
    for at in 0..bytes.len() {
        if let Some(rest) = behind(mark, &bytes[at..]) {
            return Some((&bytes[..at], rest));
        }
    }
    None
}

// Whether a name may begin here.
fn begins_name(bytes: &[u8]) -> bool
    ensures { result ≡ begins_so is_name_start bytes.now }
{
    match bytes {
        [byte, ..] => is_name_start(*byte),
        [] => false,
    }
}

// How many bytes of a name stand at the front.
fn name_len(bytes: &[u8]) -> usize
    ensures value { result ≡ prefix_len is_name_byte bytes.now }
    ensures within { result ≤ length bytes.now }
{
    bytes.iter().take_while(|b| is_name_byte(**b)).count()
}

/// A name at the front, and what stands behind it.
#[tactic(auto, unfolding(s3_xml::specs::Grammar::name_at))]
pub(crate) fn name_at(bytes: &[u8]) -> Option<(&[u8], &[u8])>
    ensures { option_map (λ cut. (cut.0.now, cut.1.now)) result ≡ name_at bytes.now }
{
    if !begins_name(bytes) {
        return None;
    }
    Some(bytes.split_at(name_len(bytes)))
}
