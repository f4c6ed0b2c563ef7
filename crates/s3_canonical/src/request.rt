//! The lines of the signed headers, and the hash of the canonical request.

ghost use Rattle.std.specs.Prelude.{◌≡◌, ◌++◌, ◌∷◌, [], ℕ, List, true, false, map, if◌then◌else◌, IfOk, OnOk, IsOkUnless};
ghost use Rattle.std.specs.List.{flat_map, join_with_byte};
ghost use Rattle.sha2.specs.Hashers.{Holds256};
ghost use Rattle.sha2.specs.Sha256.{sha256};
ghost use Rattle.s3_text.specs.Characters.{comma, line_feed};
ghost use Rattle.s3_http_heads.specs.Head.{values_of};
ghost use Rattle.s3_http_heads.specs.Target.{is_unreadable};
ghost use Rattle.s3_canonical.specs.Request.{canonical_headers, canonical_line, canonical_request, signed_names, single_spaced};

use crate::canonical_target::{query, uri};
use crate::text::push_single_spaced;
use s3_http_heads::{Head, is_named};
use s3_terms::Code;
use sha2::{Digest, Sha256};
use std::alloc::{AllocError, Global};

// Writes a value, after a comma where it is not the first one.
fn push_value(value: &[u8], later: bool, text: &mut Vec<u8>) -> Result<(), AllocError>
    ensures { IfOk result (λ _. text.new.items
        ≡ text.old.items ++ (if later then comma ∷ single_spaced value.now else single_spaced value.now)) }
{
    if later {
        text.push(b',')?;
    }
    push_single_spaced(value, text)
}

// Writes the values of a name, joined by commas.
fn push_values(head: &Head, name: &[u8], text: &mut Vec<u8>) -> Result<(), AllocError>
    ensures { IfOk result (λ _. text.new.items
        ≡ text.old.items ++ join_with_byte comma (map single_spaced (values_of name.now head.now))) }
{
    let mut found = false;
    for index in 0..head.header_count() {
        let (sent, value) = head.header(index);
        if is_named(sent, name) {
            push_value(value, found, text)?;
            found = true;
        }
    }
    Ok(())
}

// Writes the line of a signed name.
fn push_line(head: &Head, name: &[u8], text: &mut Vec<u8>) -> Result<(), AllocError>
    ensures { IfOk result (λ _. text.new.items ≡ text.old.items ++ canonical_line head.now name.now) }
{
    text.extend_from_slice(name)?;
    text.push(b':')?;
    push_values(head, name, text)?;
    text.push(b'\n')?;
    Ok(())
}

// The lines of the signed names.
fn lines(alloc: Global, head: &Head, signed: &[u8]) -> Result<Vec<u8>, AllocError>
    ensures { IfOk result
        (λ text. text.items ≡ flat_map (canonical_line head.now) (signed_names signed.now)) }
{
    let mut text = Vec::new(alloc);
    for name in signed.split(|b| *b == b';') {
        push_line(head, name, &mut text)?;
    }
    Ok(text)
}

/// The canonical headers of a request: for each name of `signed`, which semicolons join, a line with
/// the name, a colon and the values of the head's lines of that name. The names are given in lower
/// case; spaces that follow one another count as one, values of one name are joined by commas, and a
/// name that was not sent has the empty value.
///
/// `InternalError` where memory runs out, and no other error. Takes memory by the length of what it
/// answers, and time by that and by the number of signed names times the length of the head.
#[tactic(auto, unfolding(crate::specs::Request::canonical_headers))]
pub fn headers(alloc: Global, head: &Head, signed: &[u8]) -> Result<Vec<u8>, Code>
    ensures value { IfOk result (λ text. text.items ≡ canonical_headers head.now signed.now) }
    ensures memory { IsOkUnless result Code.InternalError }
{
    match lines(alloc, head, signed) {
        Ok(text) => Ok(text),
        Err(AllocError) => Err(Code::InternalError),
    }
}

// Adds a part and a line feed to what is hashed.
fn add_part(hasher: &mut Sha256, part: &[u8])
    ensures { (m : List ℕ) → Holds256 hasher.old m → Holds256 hasher.new (m ++ part.now ++ line_feed ∷ []) }
{
    hasher.update(part);
    hasher.update(b"\n");
}

/// The SHA-256 of a request's canonical request: method, URI, query, headers, signed names and payload
/// word, joined by line feeds. `signed` is the names of the signed headers joined by semicolons, and
/// `word` the value of `x-amz-content-sha256`.
///
/// `InvalidURI` where the target cannot be read, and else `InternalError` where memory runs out. Costs
/// what [`uri`], [`query`] and [`headers`] cost together, and the hashing of what they answer.
#[tactic(auto, unfolding(crate::specs::Request::canonical_request, s3_http_heads::specs::Target::target_of))]
pub fn request_hash(
    alloc: Global,
    head: &Head,
    signed: &[u8],
    word: &[u8],
) -> Result<[u8; 32], Code>
    ensures value { IfOk result (λ hash. hash ≡ sha256 (canonical_request head.now signed.now word.now)) }
    ensures readable { OnOk result (is_unreadable head.now.target ≡ false) }
    ensures unreadable { is_unreadable head.now.target ≡ true → result ≡ Err Code.InvalidURI }
    ensures memory { is_unreadable head.now.target ≡ false → IsOkUnless result Code.InternalError }
{
    let target = head.decoded_target()?;
    let path = uri(alloc, target)?;
    let parameters = query(alloc, target)?;
    let fields = headers(alloc, head, signed)?;
    let mut hasher = Sha256::new();
    add_part(&mut hasher, head.method_name());
    add_part(&mut hasher, &path);
    add_part(&mut hasher, &parameters);
    add_part(&mut hasher, &fields);
    add_part(&mut hasher, signed);
    hasher.update(word);
    Ok(hasher.finalize())
}
