//! The query of a request, without what may not stand in a log.

ghost use Rattle.std.specs.Prelude.{◌≡◌, ◌++◌, drop, IfOk};
ghost use Rattle.std.specs.List.{flat_map};
ghost use Rattle.percent_encoding.specs.Percent.{percent_decode};
ghost use Rattle.s3_text.specs.Characters.{ampersand};
ghost use Rattle.s3_text.specs.Cut.{parts_at};
ghost use Rattle.s3_log.specs.Query as rules;

use crate::cut::{cut_near, cut_once};
use percent_encoding::percent_decode;
use s3_http_heads::is_named;
use s3_terms::NoMemory;
use std::alloc::Global;

/// What a line tells of the parameters of a query, each behind an ampersand.
pub(crate) fn shown_parts(alloc: Global, query: &[u8]) -> Result<Vec<u8>, NoMemory>
    ensures { IfOk result (λ shown. shown.items ≡ flat_map rules.shown_behind (parts_at ampersand query.now)) }
{
    let mut shown = Vec::new(alloc);
    let mut rest = query;
    while let Some((part, behind)) = cut_once(rest, b'&') {
        show(alloc, &mut shown, part)?;
        rest = behind;
    }
    show(alloc, &mut shown, rest)?;
    Ok(shown)
}

// Adds what a line tells of a parameter.
fn show(alloc: Global, shown: &mut Vec<u8>, part: &[u8]) -> Result<(), NoMemory>
    ensures { IfOk result (λ _. shown.new.items ≡ shown.old.items ++ rules.shown_behind part.now) }
{
    shown.push(b'&')?;
    let (name, _) = cut_near(part, b'=');
    if is_hidden(alloc, name)? {
        shown.extend_from_slice(name)?;
        shown.push(b'=')?;
    } else {
        shown.extend_from_slice(part)?;
    }
    Ok(())
}

// Whether the value of a parameter of this name, as it was sent, is hidden.
fn is_hidden(alloc: Global, name: &[u8]) -> Result<bool, NoMemory>
    ensures { IfOk result (λ is. is ≡ rules.is_hidden_name (percent_decode name.now)) }
{
    let mut decoded = Vec::new(alloc);
    percent_decode(name).append_to(&mut decoded)?;
    Ok(is_hidden_name(&decoded))
}

fn is_hidden_name(name: &[u8]) -> bool
    ensures { result ≡ rules.is_hidden_name name.now }
{
    is_named(name, b"x-amz-signature")
        || is_named(name, b"x-amz-security-token")
        || is_named(name, b"signature")
}

/// Bytes but for the first of them.
pub(crate) fn without_first(bytes: &[u8]) -> &[u8]
    ensures { result.now ≡ drop 1 bytes.now }
{
    match bytes {
        [_, rest @ ..] => rest,
        [] => &[],
    }
}
