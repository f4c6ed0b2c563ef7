//! The signed request that the options of `s3d sign` describe, or its address.

ghost use Rattle.std.specs.Prelude.{◌≡◌, ◌++◌, [], ◌∷◌, IfOk, OnOk, IfErr, IsErrOf, MatchOption, position, false, true};
ghost use Rattle.std.specs.List.{list_all};
ghost use Rattle.s3_signer.specs.Presigned.{IsPresignable, presigned_target_text};
ghost use Rattle.s3_signer.specs.Request.{given_lines};
ghost use Rattle.s3_settings.specs.Fault.{MemoryOr};
ghost use Rattle.s3_cli.specs.Sign.{texts_of, is_colon, has_colon, line_of_word, header_lines, are_sign_options, address_line, IsSignableDraft, IsSignedDraft, IsDraftOf, IsBodyOf, IsBodyFault, IsRequestOf, IsRequestFault, IsTextOf, IsSignFault, IsDraftText, IsDraftFault};

use crate::mode::SignMode;
use s3_authorization::Expires;
use s3_calendar::{Moment, Stamp};
use s3_config::Config;
use s3_settings::{Fault, Files, Setup, SignOptions, configure, option_moment, read_file};
use s3_signer::{Unsigned, chunked_request, presigned_request, presigned_target, signed_request};
use std::alloc::{AllocError, Global};

/// A request that is to be signed.
#[derive(Drop)]
pub struct Draft<'a> {
    /// The id of the access key that signs.
    pub id: &'a str,
    /// The method.
    pub method: &'a str,
    /// The target.
    pub target: &'a str,
    /// The value of its host line.
    pub host: &'a str,
    /// The names and values of its header lines, that of the host first.
    pub headers: Vec<(&'a [u8], &'a [u8])>,
    /// The path of the file that has its body; without one the body is empty.
    pub body: Option<&'a str>,
    /// Where it carries its signature, and what of it is written.
    pub mode: SignMode,
}

impl<'a> Draft<'a> {
    /// The request that the options describe; `BadSetting` where one that it needs isn't there, a header line has
    /// no `:`, or they ask for no way of signing ([`SignMode::read`]).
    #[tactic(auto, unfolding(crate::specs::Sign::are_sign_options))]
    pub fn read(alloc: Global, options: &SignOptions<'a>) -> Result<Draft<'a>, Fault<'a>>
        ensures value { IfOk result (IsDraftOf options.now) }
        ensures refused { IfErr result (MemoryOr Fault.BadSetting (are_sign_options options.now ≡ false)) }
    {
        let (Some(id), Some(method), Some(target), Some(host)) = (
            options.id,
            options.method,
            options.target,
            options.host,
        ) else {
            return Err(Fault::BadSetting);
        };
        let mode = SignMode::read(options)?;
        let headers = header_lines(alloc, host, options.headers.as_slice())?;
        Ok(Draft {
            id,
            method,
            target,
            host,
            headers,
            body: options.body,
            mode,
        })
    }
}

// The header lines that the host and the words say.
#[tactic(auto, using(crate::proofs::SignLemmas::colon_missing))]
fn header_lines<'a>(
    alloc: Global,
    host: &'a str,
    words: &[&'a str],
) -> Result<Vec<(&'a [u8], &'a [u8])>, Fault<'a>>
    ensures value { IfOk result (λ lines. given_lines lines.items ≡ header_lines host.entry.now (texts_of words.now)) }
    ensures words { OnOk result (list_all has_colon (texts_of words.now) ≡ true) }
    ensures refused { IfErr result (MemoryOr Fault.BadSetting (list_all has_colon (texts_of words.now) ≡ false)) }
{
    let mut lines = Vec::new(alloc);
    lines.push((b"host".as_slice(), host.as_bytes()))?;
    for word in words {
        add_line(&mut lines, word)?;
    }
    Ok(lines)
}

// Adds the header line of a word.
fn add_line<'a>(lines: &mut Vec<(&'a [u8], &'a [u8])>, word: &'a str) -> Result<(), Fault<'a>>
    ensures added { OnOk result (given_lines lines.new.items ≡ given_lines lines.old.items ++ line_of_word word.entry.now ∷ []) }
    ensures word { OnOk result (has_colon word.entry.now ≡ true) }
    ensures refused { IfErr result (MemoryOr Fault.BadSetting (has_colon word.entry.now ≡ false)) }
{
    match name_and_value(word) {
        Some(line) => {
            lines.push(line)?;
            Ok(())
        }
        None => Err(Fault::BadSetting),
    }
}

// What stands before and after the first `:` of a word.
fn name_and_value(word: &str) -> Option<(&[u8], &[u8])>
    ensures { MatchOption result (has_colon word.now ≡ false) (λ line. (has_colon word.now ≡ true) × ((line.0.now, line.1.now) ≡ line_of_word word.now)) }
{
    let bytes = word.as_bytes();
    let at = first_colon(bytes)?;
    Some((&bytes[..at], &bytes[at + 1..]))
}

// The place of the first `:`.
fn first_colon(text: &[u8]) -> Option<usize>
    ensures { result ≡ position is_colon text.now }
{
    text.iter().position(|byte| *byte == b':')
}

/// The signed request that the options describe, or its address where they ask for that.
pub fn signed_text<'a, F: Files>(
    alloc: Global,
    options: &SignOptions<'a>,
    files: &F,
) -> Result<Vec<u8>, Fault<'a>>
    ensures value { IfOk result (λ text. IsTextOf (F.known files.now) options.now text.items) }
    ensures refused { IfErr result (IsSignFault (F.known files.now) options.now) }
{
    let Some(moment) = option_moment(options.moment) else {
        return Err(Fault::BadSetting);
    };
    let setup = Setup::read(alloc, &options.common)?;
    let draft = Draft::read(alloc, options)?;
    signed_draft(alloc, setup, moment, &draft, files)
}

// What is written of a draft, by the settings of a setup and at a moment.
fn signed_draft<'a, F: Files>(
    alloc: Global,
    setup: Setup<'a>,
    moment: Moment,
    draft: &Draft<'a>,
    files: &F,
) -> Result<Vec<u8>, Fault<'a>>
    ensures value { IfOk result (λ text. IsDraftText (F.known files.now) setup.entry moment draft.now text.items) }
    ensures refused { IfErr result (IsDraftFault (F.known files.now) setup.entry moment draft.now) }
{
    let stamp = Stamp::at(moment);
    let config = configure(alloc, setup, files)?;
    request(alloc, &config, draft, files, stamp)
}

// What is written of a draft, in a server's region and by the secret that it has for the id.
fn request<'a, F: Files>(
    alloc: Global,
    config: &Config,
    draft: &Draft<'a>,
    files: &F,
    stamp: Stamp,
) -> Result<Vec<u8>, Fault<'a>>
    ensures value { IfOk result (λ text. IsRequestOf (F.known files.now) config.now draft.now stamp text.items) }
    ensures refused { IfErr result (IsRequestFault (F.known files.now) config.now draft.now stamp) }
{
    let Some(secret) = config.secret_of(draft.id.as_bytes()) else {
        return Err(Fault::BadSetting);
    };
    let body = body(alloc, draft.body, files)?;
    signed(alloc, config, secret, draft, body.as_slice(), stamp)
}

// What is written of a draft with this body, signed in a server's region by a secret; `BadSetting` where it
// cannot be signed.
fn signed<'a>(
    alloc: Global,
    config: &Config,
    secret: &[u8],
    draft: &Draft<'_>,
    body: &[u8],
    stamp: Stamp,
) -> Result<Vec<u8>, Fault<'a>>
    ensures value { IfOk result (λ text. IsSignedDraft config.now secret.now draft.now body.now stamp text.items) }
    ensures signable { OnOk result (IsSignableDraft config.now secret.now draft.now body.now stamp) }
    ensures refused { IfErr result (MemoryOr Fault.BadSetting (¬ IsSignableDraft config.now secret.now draft.now body.now stamp)) }
{
    match written(alloc, config, secret, draft, body, stamp) {
        Ok(text) => Ok(text),
        Err(Unsigned::NotSignable) => Err(Fault::BadSetting),
        Err(Unsigned::OutOfMemory) => Err(Fault::OutOfMemory),
    }
}

// The same: the request, or its address, as the draft's mode says.
fn written(
    alloc: Global,
    config: &Config,
    secret: &[u8],
    draft: &Draft<'_>,
    body: &[u8],
    stamp: Stamp,
) -> Result<Vec<u8>, Unsigned>
    ensures value { IfOk result (λ text. IsSignedDraft config.now secret.now draft.now body.now stamp text.items) }
    ensures signable { OnOk result (IsSignableDraft config.now secret.now draft.now body.now stamp) }
    ensures refused { IsErrOf result Unsigned.NotSignable → ¬ (IsSignableDraft config.now secret.now draft.now body.now stamp) }
{
    let (id, region) = (draft.id.as_bytes(), config.region());
    let (method, target) = (draft.method.as_bytes(), draft.target.as_bytes());
    let headers = draft.headers.as_slice();
    match draft.mode {
        SignMode::Hashed => signed_request(
            alloc, id, secret, region, method, target, headers, body, stamp,
        ),
        SignMode::Chunked(size) => chunked_request(
            alloc, id, secret, region, method, target, headers, body, size, stamp,
        ),
        SignMode::Presigned(expires) => presigned_request(
            alloc, id, secret, region, method, target, headers, body, stamp, expires,
        ),
        SignMode::Address(expires) => address(alloc, config, secret, draft, stamp, expires),
    }
}

// The address of a draft, whose target carries its signature and holds for so many seconds.
fn address(
    alloc: Global,
    config: &Config,
    secret: &[u8],
    draft: &Draft<'_>,
    stamp: Stamp,
    expires: Expires,
) -> Result<Vec<u8>, Unsigned>
    ensures value { IfOk result (λ text. text.items ≡ address_line draft.now.host.now (presigned_target_text draft.now.id.now secret.now config.now.region
        draft.now.method.now draft.now.target.now (given_lines draft.now.headers.items) stamp expires)) }
    ensures signable { OnOk result (IsPresignable draft.now.id.now secret.now config.now.region
        draft.now.method.now draft.now.target.now (given_lines draft.now.headers.items) stamp expires) }
    ensures refused { IsErrOf result Unsigned.NotSignable → ¬ (IsPresignable draft.now.id.now secret.now config.now.region
        draft.now.method.now draft.now.target.now (given_lines draft.now.headers.items) stamp expires) }
{
    let (id, region) = (draft.id.as_bytes(), config.region());
    let (method, target) = (draft.method.as_bytes(), draft.target.as_bytes());
    let headers = draft.headers.as_slice();
    let target = presigned_target(
        alloc, id, secret, region, method, target, headers, stamp, expires,
    )?;
    Ok(address_line(alloc, draft.host.as_bytes(), &target)?)
}

// The address of a target at a host, in a line.
fn address_line(alloc: Global, host: &[u8], target: &[u8]) -> Result<Vec<u8>, AllocError>
    ensures { IfOk result (λ text. text.items ≡ address_line host.now target.now) }
{
    let mut text = Vec::from_slice(alloc, b"http://")?;
    text.extend_from_slice(host)?;
    text.extend_from_slice(target)?;
    text.push(b'\n')?;
    Ok(text)
}

// The bytes of the file at the path; none without one.
fn body<'a, F: Files>(alloc: Global, path: Option<&'a str>, files: &F) -> Result<Vec<u8>, Fault<'a>>
    ensures value { IfOk result (λ bytes. IsBodyOf (F.known files.now) path.entry bytes.items) }
    ensures refused { IfErr result (IsBodyFault (F.known files.now) path.entry) }
{
    match path {
        Some(path) => read_file(alloc, files, path),
        None => Ok(Vec::new(alloc)),
    }
}
