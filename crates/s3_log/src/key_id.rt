//! The id of the access key that signed a head.

ghost use Rattle.std.specs.Prelude.{◌≡◌, ◌++◌, find, option_map, IfOk};
ghost use Rattle.std.specs.Option.{option_copied};
ghost use Rattle.s3_text.specs.Characters.{ampersand, line_feed};
ghost use Rattle.s3_text.specs.Cut.{parts_at};
ghost use Rattle.s3_log.specs.KeyId as rules;

use crate::cut::{cut_far, cut_near, cut_once};
use percent_encoding::percent_decode;
use s3_http_heads::is_named;
use s3_terms::NoMemory;
use s3_text::{after_first, before_first};
use std::alloc::Global;

// The name of the line that tells the credential, in lower case.
const AUTHORIZATION: &[u8] = b"authorization";

// The name of the parameter of a presigned target, with the `=` behind it.
const CREDENTIAL: &[u8] = b"X-Amz-Credential=";

/// The id that the Authorization line of a head tells; `None` where it has none. Takes time by the length of the head.
pub(crate) fn id_in_head(head: &[u8]) -> Option<&[u8]>
    ensures { option_copied result ≡ rules.id_in_head head.now }
{
    match authorization_line(head) {
        Some(line) => Some(id_in_line(line)),
        None => None,
    }
}

// The first Authorization line.
fn authorization_line(head: &[u8]) -> Option<&[u8]>
    ensures { option_copied result ≡ find rules.is_authorization (parts_at line_feed head.now) }
{
    let mut rest = head;
    while let Some((line, behind)) = cut_once(rest, b'\n') {
        if is_authorization(line) {
            return Some(line);
        }
        rest = behind;
    }
    if is_authorization(rest) {
        Some(rest)
    } else {
        None
    }
}

// Whether a line is an Authorization line.
fn is_authorization(line: &[u8]) -> bool
    ensures { result ≡ rules.is_authorization line.now }
{
    match line.split_at_checked(AUTHORIZATION.len()) {
        Some((name, rest)) => ends_name(rest) && is_named(name, AUTHORIZATION),
        None => false,
    }
}

// Whether the name of a line ends in front of this rest of it.
fn ends_name(rest: &[u8]) -> bool
    ensures { result ≡ rules.ends_name rest.now }
{
    match rest.first() {
        Some(byte) => *byte == b':',
        None => true,
    }
}

// The id that an Authorization line tells.
fn id_in_line(line: &[u8]) -> &[u8]
    ensures { result.now ≡ rules.id_in_line line.now }
{
    let (_, credential) = cut_far(line, b'=');
    cut_near(credential, b'/').0
}

/// The id that a query tells; empty where it tells none.
pub(crate) fn id_in_query(alloc: Global, query: &[u8]) -> Result<Vec<u8>, NoMemory>
    ensures { IfOk result (λ id. id.items ≡ rules.id_in_query query.now) }
{
    match credential_in(query) {
        Some(part) => id_in_credential(alloc, after_first(part, b'=')),
        None => Ok(Vec::new(alloc)),
    }
}

// The parameter of a query that tells the credential.
fn credential_in(query: &[u8]) -> Option<&[u8]>
    ensures { option_copied result ≡ find rules.is_credential (parts_at ampersand query.now) }
{
    let mut rest = query;
    while let Some((part, behind)) = cut_once(rest, b'&') {
        if is_credential(part) {
            return Some(part);
        }
        rest = behind;
    }
    if is_credential(rest) {
        Some(rest)
    } else {
        None
    }
}

// Whether a parameter tells the credential.
fn is_credential(part: &[u8]) -> bool
    ensures { result ≡ rules.is_credential part.now }
{
    part.starts_with(CREDENTIAL)
}

// The id in front of the scope of a credential, which is percent-encoded.
fn id_in_credential(alloc: Global, credential: &[u8]) -> Result<Vec<u8>, NoMemory>
    ensures { IfOk result (λ id. id.items ≡ rules.id_in_credential credential.now) }
{
    let mut decoded = Vec::new(alloc);
    percent_decode(credential).append_to(&mut decoded)?;
    Ok(Vec::from_slice(alloc, before_first(&decoded, b'/'))?)
}
