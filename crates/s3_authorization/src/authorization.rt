//! The value of the Authorization header, cut into its parts.

ghost use Rattle.std.specs.Prelude.{◌≡◌, ◌≢◌, ℕ, List, [], ◌∷◌, true, length, Some, MatchOption};
ghost use Rattle.std.specs.List.{join_with_byte, list_all, list_any};
ghost use Rattle.std.specs.Option.{ok_or, option_copied};
ghost use Rattle.std.specs.Char.{is_ascii_uppercase};
ghost use Rattle.std.specs.Ordering.{is_lt};
ghost use Rattle.s3_text.specs.Characters.{semicolon, slash};
ghost use Rattle.s3_text.specs.Cut.{parts_at};
ghost use Rattle.s3_text.specs.Order.{byte_order};
ghost use Rattle.s3_authorization.specs.Spelling.{Spells};
ghost use Rattle.s3_authorization.specs.Authorization.{Parts, authorization_of, behind, skip_spaces, are_signed_names, is_signed_name, parts_with, with_credential, credential_at, signed_at, signature_at, three_parts};

use httparse::is_token;
use s3_terms::Code;
use s3_text::{cut_once, read_hex_digest};
use std::cmp::Ordering;
use std::marker::Model;

// The name of the scheme, and the space that has to follow it.
const SCHEME: &[u8] = b"AWS4-HMAC-SHA256 ";

/// The parts of the value of an Authorization header: what the signer says of the credential, the
/// names of the headers that it signed, and the signature (AWS Signature Version 4, "Using the
/// Authorization header").
///
/// It borrows from that value and takes no memory.
#[derive(Drop)]
pub struct Authorization<'a> {
    id: &'a [u8],
    date: &'a [u8],
    region: &'a [u8],
    service: &'a [u8],
    signed: &'a [u8],
    signature: [u8; 64],
}

impl<'a> Model for Authorization<'a> {
    ghost use Rattle.s3_authorization.specs.Authorization.{Parts};

    ghost Value = { Parts };

    ghost view = { λ a. record {
      id = a.id.now;
      date = a.date.now;
      region = a.region.now;
      service = a.service.now;
      signed = a.signed.now;
      signature = a.signature;
    } };
}

impl<'a> Authorization<'a> {
    /// Reads the value of an Authorization header: `AWS4-HMAC-SHA256`, one or more spaces,
    /// `Credential=id/date/region/service/aws4_request`, a comma, `SignedHeaders=` and the names, a
    /// comma, and `Signature=` with its 64 lower-case hexadecimal digits. Spaces may follow a comma.
    /// The names are tokens without capital letters, joined by `;`, and each comes after the one
    /// before it, byte by byte. Takes time by the length of `text`.
    ///
    /// # Errors
    ///
    /// `AuthorizationHeaderMalformed` where `text` has another form.
    pub fn read(text: &'a [u8]) -> Result<Authorization<'a>, Code>
        ensures { result ≡ ok_or (authorization_of text.now) Code.AuthorizationHeaderMalformed }
    {
        read_parts(text).ok_or(Code::AuthorizationHeaderMalformed)
    }

    /// The same parts, each from a text of its own, as the query of a presigned request has them: the credential
    /// `id/date/region/service/aws4_request`, in which no comma may stand, the signed names, and the signature. `None`
    /// where one has another form. Takes time by the length of the texts.
    #[tactic(auto, unfolding(crate::specs::Authorization::parts_with))]
    pub fn with_parts(
        credential: &'a [u8],
        signed: &'a [u8],
        signature: &[u8],
    ) -> Option<Authorization<'a>>
        ensures { result ≡ parts_with credential.now signed.now signature.now }
    {
        if credential.contains(&b',') {
            return None;
        }
        with_credential(signed, signature, credential)
    }

    /// The access key's id.
    pub fn id(&self) -> &'a [u8]
        ensures { result.now ≡ self.now.id }
    {
        self.id
    }

    /// The date of the scope, as `20130524`.
    pub fn date(&self) -> &'a [u8]
        ensures { result.now ≡ self.now.date }
    {
        self.date
    }

    /// The region of the scope.
    pub fn region(&self) -> &'a [u8]
        ensures { result.now ≡ self.now.region }
    {
        self.region
    }

    /// The service of the scope.
    pub fn service(&self) -> &'a [u8]
        ensures { result.now ≡ self.now.service }
    {
        self.service
    }

    /// The names of the signed headers, joined by `;`.
    pub fn signed(&self) -> &'a [u8]
        ensures { result.now ≡ self.now.signed }
    {
        self.signed
    }

    /// The signature: 64 lower-case hexadecimal digits.
    pub fn signature(&self) -> [u8; 64]
        ensures { result ≡ self.now.signature }
    {
        self.signature
    }
}

// What follows the front that the text has to have.
fn behind<'a>(front: &[u8], text: &'a [u8]) -> Option<&'a [u8]>
    ensures { option_copied result ≡ behind front.now text.now }
{
    text.strip_prefix(front)
}

// The text without the spaces that it begins with.
fn skip_spaces(text: &[u8]) -> &[u8]
    ensures { result.now ≡ skip_spaces text.now }
{
    let mut rest = text;
    while let [b' ', behind @ ..] = rest {
        rest = behind;
    }
    rest
}

// Whether a capital letter stands in the name.
fn has_capital(name: &[u8]) -> bool
    ensures { result ≡ list_any is_ascii_uppercase name.now }
{
    name.iter().any(|b| b.is_ascii_uppercase())
}

// Whether a name may stand among the signed ones.
fn is_signed_name(name: &[u8]) -> bool
    ensures { result ≡ is_signed_name name.now }
{
    is_token(name) && !has_capital(name)
}

// Whether the first text comes before the second one, byte by byte.
fn comes_before(first: &[u8], second: &[u8]) -> bool
    ensures { result ≡ is_lt (byte_order first.now second.now) }
{
    matches!(first.cmp(&second), Ordering::Less)
}

// Whether the names, joined by semicolons, may stand as the signed ones.
fn are_signed_names(signed: &[u8]) -> bool
    ensures { result ≡ are_signed_names signed.now }
{
    let mut before: &[u8] = &[];
    let mut rest = signed;
    while let Some((name, behind)) = cut_once(rest, b';') {
        if !is_signed_name(name) || !comes_before(before, name) {
            return false;
        }
        before = name;
        rest = behind;
    }
    is_signed_name(rest) && comes_before(before, rest)
}

// The three parts between these bytes of the text, if it has just two of them.
fn cut_in_three(text: &[u8], byte: u8) -> Option<(&[u8], &[u8], &[u8])>
    ensures { MatchOption result
        (length (parts_at byte text.now) ≢ 3)
        (λ p. parts_at byte text.now ≡ p.0.now ∷ p.1.now ∷ p.2.now ∷ []) }
{
    let (first, rest) = cut_once(text, byte)?;
    let (second, third) = cut_once(rest, byte)?;
    match cut_once(third, byte) {
        Some(_) => None,
        None => Some((first, second, third)),
    }
}

// The five parts between the slashes of the text, if it has just four.
fn cut_in_five(text: &[u8]) -> Option<(&[u8], &[u8], &[u8], &[u8], &[u8])>
    ensures { MatchOption result
        (length (parts_at slash text.now) ≢ 5)
        (λ p. parts_at slash text.now
        ≡ p.0.now ∷ p.1.now ∷ p.2.now ∷ p.3.now ∷ p.4.now ∷ []) }
{
    let (first, rest) = cut_once(text, b'/')?;
    let (second, rest) = cut_once(rest, b'/')?;
    let (third, fourth, fifth) = cut_in_three(rest, b'/')?;
    Some((first, second, third, fourth, fifth))
}

// The parts of an authorization with this credential, if they hold what the form asks for.
fn with_credential<'a>(
    signed: &'a [u8],
    signature: &[u8],
    credential: &'a [u8],
) -> Option<Authorization<'a>>
    ensures { result ≡ with_credential signed.now signature.now (parts_at slash credential.now) }
{
    let (id, date, region, service, last) = cut_in_five(credential)?;
    let signature = read_hex_digest(signature)?;
    if last != b"aws4_request".as_slice() || id.is_empty() || !are_signed_names(signed) {
        return None;
    }
    Some(Authorization {
        id,
        date,
        region,
        service,
        signed,
        signature,
    })
}

// The credential of the first part.
fn credential_at(text: &[u8]) -> Option<&[u8]>
    ensures { option_copied result ≡ credential_at text.now }
{
    behind(b"Credential=", skip_spaces(behind(SCHEME, text)?))
}

// The signed names of the second part.
fn signed_at(text: &[u8]) -> Option<&[u8]>
    ensures { option_copied result ≡ signed_at text.now }
{
    behind(b"SignedHeaders=", skip_spaces(text))
}

// The signature of the third part.
fn signature_at(text: &[u8]) -> Option<&[u8]>
    ensures { option_copied result ≡ signature_at text.now }
{
    behind(b"Signature=", skip_spaces(text))
}

// What the three parts say.
fn from_parts<'a>(first: &'a [u8], second: &'a [u8], third: &[u8]) -> Option<Authorization<'a>>
    ensures { result ≡ three_parts (first.now ∷ second.now ∷ third.now ∷ []) }
{
    let credential = credential_at(first)?;
    let signed = signed_at(second)?;
    let signature = signature_at(third)?;
    with_credential(signed, signature, credential)
}

// The parts of a value of the form.
#[tactic(auto, using(crate::proofs::SpellingLemmas::not_three), unfolding(crate::specs::Authorization::authorization_of))]
fn read_parts(text: &[u8]) -> Option<Authorization<'_>>
    ensures { result ≡ authorization_of text.now }
{
    let (first, second, third) = cut_in_three(text, b',')?;
    from_parts(first, second, third)
}

/// A text is read as the parts of an authorization just where it spells them: the scheme, spaces and
/// the credential, a comma, spaces and the signed names, a comma, spaces and the signature. A law, with
/// nothing to run.
pub fn authorizations_are_spelled()
    ensures read { (text : List ℕ) (p : Parts) → Spells text p → authorization_of text ≡ Some p }
    ensures spelled { (text : List ℕ) (p : Parts) → authorization_of text ≡ Some p → Spells text p }
{}

/// Names that may stand as signed ones, one or more, are cut again where semicolons joined them. A law,
/// with nothing to run.
pub fn signed_names_are_cut()
    ensures { (names : List (List ℕ)) → names ≢ [] → list_all is_signed_name names ≡ true
        → parts_at semicolon (join_with_byte semicolon names) ≡ names }
{}
