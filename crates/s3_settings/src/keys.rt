//! The keys file.

ghost use Rattle.std.specs.Prelude.{◌≡◌, ◌+◌, ◌==◌, length, map, position, is_some, true, Some, None, IfOk, IfErr, OnErr, IsErrOf};
ghost use Rattle.s3_text.specs.Lines.{lines_of};
ghost use Rattle.s3_settings.specs.Keys.{is_space, key_of_line, has_id, new_key, line_of_key, SayKeys, IsKeysFault};
ghost use Rattle.s3_settings.specs.Fault.{MemoryOr};
ghost use Rattle.s3_settings.specs.declared.fault.Fault.TheVariants.{BadKeysLine};

use crate::fault::Fault;
use s3_config::Credential;
use s3_text::next_line;
use std::alloc::{AllocError, Global};

/// The credentials that a keys file of this text says, in its order. A line is an id, one space, and
/// as the secret all bytes up to LF, which the last line may lack; no id stands on two lines.
/// `BadKeysLine` has the number of the first line, from 1, that breaks one of these rules; memory runs out
/// only where the first line has a space. Compares each id with those before it.
#[tactic(auto, using(crate::proofs::KeysLemmas::keys))]
pub fn read_keys<'a>(alloc: Global, text: &[u8]) -> Result<Vec<Credential>, Fault<'a>>
    ensures value { IfOk result (λ keys. SayKeys (lines_of text.now) keys.items) }
    ensures spelled { IfOk result (λ keys. lines_of text.now ≡ map line_of_key keys.items) }
    ensures refused { IfErr result (IsKeysFault text.now) }
{
    let mut keys: Vec<Credential> = Vec::new(alloc);
    let mut left = text;
    while let Some((line, rest)) = next_line(left) {
        match new_key(alloc, keys.as_slice(), line) {
            Ok(key) => keys.push(key)?,
            Err(fault) => return Err(fault),
        }
        left = rest;
    }
    Ok(keys)
}

// The credential that a line says after those that say `keys`; `BadKeysLine` where it says none, or one
// of `keys` has its id.
#[tactic(auto, unfolding(crate::specs::Keys::new_key))]
fn new_key<'a>(alloc: Global, keys: &[Credential], line: &[u8]) -> Result<Credential, Fault<'a>>
    ensures value { IfOk result (λ key. new_key keys.now line.now ≡ Some key) }
    ensures refused { IfErr result (MemoryOr (BadKeysLine (length keys.now + 1)) (new_key keys.now line.now ≡ None)) }
    ensures memory { IsErrOf result Fault.OutOfMemory → is_some (position is_space line.now) ≡ true }
{
    match key_of_line(alloc, line)? {
        Some(key) if !has_id(keys, key.id()) => Ok(key),
        _ => Err(Fault::BadKeysLine(keys.len() + 1)),
    }
}

// The credential that a line says.
#[tactic(auto, unfolding(crate::specs::Keys::key_of_line))]
fn key_of_line(alloc: Global, line: &[u8]) -> Result<Option<Credential>, AllocError>
    ensures value { IfOk result (λ key. key ≡ key_of_line line.now) }
    ensures memory { OnErr result (is_some (position is_space line.now) ≡ true) }
{
    let Some(at) = first_place(line, b' ') else {
        return Ok(None);
    };
    let id = Vec::from_slice(alloc, &line[..at])?;
    let secret = Vec::from_slice(alloc, &line[at + 1..])?;
    Ok(Credential::new(id, secret))
}

// The first place of a byte.
fn first_place(text: &[u8], byte: u8) -> Option<usize>
    ensures { result ≡ position (λ b. b == byte) text.now }
{
    text.iter().position(|b| *b == byte)
}

fn has_id(keys: &[Credential], id: &[u8]) -> bool
    ensures { result ≡ has_id keys.now id.now }
{
    keys.iter().any(|key| key.id() == id)
}
