//! What the options of a signing ask for.

ghost use Rattle.std.specs.Prelude.{◌≡◌, None, Some, IfOk, IfErr, option_and_then, option_map};
ghost use Rattle.s3_authorization.specs.Expires.{as_expires};
ghost use Rattle.s3_settings.specs.Settings.{option_number};
ghost use Rattle.s3_settings.specs.declared.fault.Fault.TheVariants.{BadSetting};
ghost use Rattle.s3_cli.specs.Mode.{as_chunk, mode_of, sign_mode};

use s3_authorization::Expires;
use s3_settings::{Fault, SignOptions, option_number};
use s3_signer::ChunkSize;

/// Where a request carries its signature, and what of it is written.
#[derive(Clone, Copy)]
pub enum SignMode {
    /// In a line of its head, with its body as it is.
    Hashed,
    /// In a line of its head, with its body in signed chunks of this size.
    Chunked(ChunkSize),
    /// In its target, which holds for so many seconds.
    Presigned(Expires),
    /// In its target, which holds for so many seconds; its address alone is written.
    Address(Expires),
}

impl SignMode {
    /// What the options ask for. `BadSetting` where they ask for chunks of a presigned request, or for the address of one
    /// that isn't presigned; where the size of chunks isn't one from 1 to 67,108,864, or the seconds aren't from 1 to
    /// 604,800; and where one of these hasn't 1 to 12 decimal digits.
    pub fn read<'a>(options: &SignOptions<'a>) -> Result<SignMode, Fault<'a>>
        ensures value { IfOk result (λ mode. sign_mode options.now ≡ Some mode) }
        ensures refused { IfErr result (λ fault. (fault ≡ BadSetting) × (sign_mode options.now ≡ None)) }
    {
        match mode_of(options.chunk, options.presign, options.url) {
            Some(mode) => Ok(mode),
            None => Err(Fault::BadSetting),
        }
    }
}

// What these options ask for.
fn mode_of(chunk: Option<&str>, presign: Option<&str>, url: bool) -> Option<SignMode>
    ensures { result ≡ mode_of (option_map (λ text. text.now) chunk.entry) (option_map (λ text. text.now) presign.entry) url }
{
    match (chunk, presign, url) {
        (None, None, false) => Some(SignMode::Hashed),
        (Some(size), None, false) => Some(SignMode::Chunked(chunk_size(size)?)),
        (None, Some(seconds), false) => Some(SignMode::Presigned(expires(seconds)?)),
        (None, Some(seconds), true) => Some(SignMode::Address(expires(seconds)?)),
        (Some(_), Some(_), _) | (_, None, true) => None,
    }
}

// The size of chunks that a text says.
fn chunk_size(text: &str) -> Option<ChunkSize>
    ensures { result ≡ option_and_then as_chunk (option_number text.now) }
{
    ChunkSize::new(option_number(text)?)
}

// The seconds that a text says, for which a presigned request holds.
fn expires(text: &str) -> Option<Expires>
    ensures { result ≡ option_and_then as_expires (option_number text.now) }
{
    Expires::new(option_number(text)?)
}
