//! The names of the headers that a signer covers.

ghost use Rattle.std.specs.Prelude.{◌≡◌, IfOk, OnOk};
ghost use Rattle.std.specs.List.{join_with_byte};
ghost use Rattle.std.specs.Str.{str_to_ascii_lowercase};
ghost use Rattle.s3_text.specs.Characters.{semicolon};
ghost use Rattle.s3_signing.specs.Names.{IsOrdered, cover_of, in_order, name_text, names_to_cover, texts};

use s3_http_heads::{Head, is_named};
use std::alloc::{AllocError, Global};

// The name of a header in lower case. Its order is byte by byte.
#[derive(Drop, PartialEq, Eq, PartialOrd, Ord)]
pub(crate) struct Name {
    text: Vec<u8>,
}

// The lower-case copy of a name that was sent.
fn lower_copy(alloc: Global, sent: &[u8]) -> Result<Name, AllocError>
    ensures { IfOk result (λ name. name_text name ≡ str_to_ascii_lowercase sent.now) }
{
    let text = sent.iter().map(|b| b.to_ascii_lowercase()).collect(alloc)?;
    Ok(Name { text })
}

// The names of all lines but those of Authorization, as they come.
fn names_to_cover(alloc: Global, head: &Head) -> Result<Vec<Name>, AllocError>
    ensures { IfOk result (λ names. texts names.items ≡ names_to_cover head.now) }
{
    let mut names = Vec::new(alloc);
    for index in 0..head.header_count() {
        let (sent, _) = head.header(index);
        if !is_named(sent, b"authorization") {
            names.push(lower_copy(alloc, sent)?)?;
        }
    }
    Ok(names)
}

// The names in their order, each once.
fn in_order(mut names: Vec<Name>) -> Result<Vec<Name>, AllocError>
    ensures value { IfOk result (λ sorted. texts sorted.items ≡ in_order (texts names.items)) }
    ensures ordered { OnOk result (IsOrdered (texts names.items)) }
{
    names.sort()?;
    names.dedup();
    Ok(names)
}

// The names, joined by semicolons.
fn join(alloc: Global, names: &[Name]) -> Result<Vec<u8>, AllocError>
    ensures { IfOk result (λ text. text.items ≡ join_with_byte semicolon (texts names.now)) }
{
    let mut text = Vec::new(alloc);
    for (i, name) in names.iter().enumerate() {
        if i > 0 {
            text.push(b';')?;
        }
        text.extend_from_slice(&name.text)?;
    }
    Ok(text)
}

// The names that a signer covers: those of all lines but Authorization, in lower case and in their
// order, each once, joined by semicolons.
#[tactic(auto, unfolding(crate::specs::Names::cover_of))]
pub(crate) fn cover_of(alloc: Global, head: &Head) -> Result<Vec<u8>, AllocError>
    ensures value { IfOk result (λ text. text.items ≡ cover_of head.now) }
    ensures ordered { OnOk result (IsOrdered (names_to_cover head.now)) }
{
    let names = in_order(names_to_cover(alloc, head)?)?;
    join(alloc, &names)
}
