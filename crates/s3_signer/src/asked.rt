//! What is asked for where a target is presigned.

ghost use Rattle.std.specs.Prelude.{◌≡◌, ◌++◌, ◌∷◌, IfOk, codes};
ghost use Rattle.std.specs.Fmt.{decimal};
ghost use Rattle.s3_text.specs.Characters.{ampersand};
ghost use Rattle.s3_signing.specs.Authorize.{credential_text};
ghost use Rattle.s3_signer.specs.Presigned.{names_of, parameter_text, query_mark, target_to_sign};

use itoa::Buffer;
use s3_authorization::Expires;
use s3_calendar::Stamp;
use s3_canonical::encode_query;
use std::alloc::{AllocError, Global};
use std::marker::Model;

// What is asked for, and by whom.
#[derive(Drop)]
pub(crate) struct Asked<'a> {
    pub(crate) id: &'a [u8],
    pub(crate) secret: &'a [u8],
    pub(crate) region: &'a [u8],
    pub(crate) method: &'a [u8],
    pub(crate) target: &'a [u8],
    pub(crate) headers: &'a [(&'a [u8], &'a [u8])],
    // The size of the body, where a line tells it.
    pub(crate) size: Option<usize>,
    pub(crate) stamp: Stamp,
    pub(crate) expires: Expires,
}

impl<'a> Model for Asked<'a> {
    ghost use Rattle.std.specs.Prelude.{◌++◌, is_some};
    ghost use Rattle.s3_signer.specs.Presigned.{Asked, size_line};
    ghost use Rattle.s3_signer.specs.Request.{given_lines};

    ghost Value = { Asked };

    ghost view = { λ a. record {
      id = a.id.now;
      secret = a.secret.now;
      region = a.region.now;
      method = a.method.now;
      target = a.target.now;
      headers = given_lines a.headers.now ++ size_line a.size;
      tells_size = is_some a.size;
      stamp = a.stamp;
      expires = a.expires;
    } };
}

// Writes a parameter with its value encoded, behind the mark that joins it to what stands there.
fn add_parameter(
    alloc: Global,
    mark: u8,
    name: &[u8],
    value: &[u8],
    text: &mut Vec<u8>,
) -> Result<(), AllocError>
    ensures { IfOk result (λ _. text.new.items ≡ text.old.items ++ mark ∷ parameter_text (name.now, value.now)) }
{
    let encoded = encode_query(alloc, value)?;
    text.push(mark)?;
    text.extend_from_slice(name)?;
    text.push(b'=')?;
    text.extend_from_slice(&encoded)
}

// The mark that joins a query to a target.
fn query_mark(target: &[u8]) -> u8
    ensures { result ≡ query_mark target.now }
{
    if target.contains(&b'?') { b'&' } else { b'?' }
}

// The id and its scope.
fn credential(alloc: Global, id: &[u8], stamp: &Stamp, region: &[u8]) -> Result<Vec<u8>, AllocError>
    ensures { IfOk result (λ text. text.items ≡ credential_text id.now stamp.now region.now) }
{
    let mut text = Vec::from_slice(alloc, id)?;
    text.push(b'/')?;
    text.extend_from_slice(stamp.date())?;
    text.push(b'/')?;
    text.extend_from_slice(region)?;
    text.extend_from_slice(b"/s3/aws4_request")?;
    Ok(text)
}

// Writes the parameter that has them.
fn add_credential(alloc: Global, asked: &Asked, text: &mut Vec<u8>) -> Result<(), AllocError>
    ensures { IfOk result (λ _. text.new.items ≡ text.old.items ++ ampersand
        ∷ parameter_text (codes "X-Amz-Credential", credential_text asked.now.id asked.now.stamp asked.now.region)) }
{
    let value = credential(alloc, asked.id, &asked.stamp, asked.region)?;
    add_parameter(alloc, b'&', b"X-Amz-Credential", &value, text)
}

// Writes the parameter that says for how many seconds it holds.
fn add_expires(alloc: Global, asked: &Asked, text: &mut Vec<u8>) -> Result<(), AllocError>
    ensures { IfOk result (λ _. text.new.items ≡ text.old.items ++ ampersand
        ∷ parameter_text (codes "X-Amz-Expires", decimal asked.now.expires)) }
{
    let mut digits = Buffer::new();
    let seconds = digits.format(asked.expires.seconds()).as_bytes();
    add_parameter(alloc, b'&', b"X-Amz-Expires", seconds, text)
}

// The target with the parameters of the signing but the signature, where these are the names that are signed.
#[tactic(auto, unfolding(crate::specs::Presigned::target_to_sign))]
pub(crate) fn target_to_sign(
    alloc: Global,
    asked: &Asked,
    names: &[u8],
) -> Result<Vec<u8>, AllocError>
    requires { names.now ≡ names_of asked.now }
    ensures { IfOk result (λ text. text.items ≡ target_to_sign asked.now) }
{
    let mut text = Vec::from_slice(alloc, asked.target)?;
    let mark = query_mark(asked.target);
    add_parameter(
        alloc,
        mark,
        b"X-Amz-Algorithm",
        b"AWS4-HMAC-SHA256",
        &mut text,
    )?;
    add_credential(alloc, asked, &mut text)?;
    add_parameter(alloc, b'&', b"X-Amz-Date", asked.stamp.text(), &mut text)?;
    add_expires(alloc, asked, &mut text)?;
    add_parameter(alloc, b'&', b"X-Amz-SignedHeaders", names, &mut text)?;
    Ok(text)
}
