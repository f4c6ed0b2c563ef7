//! What writes a body in chunks.

ghost use Rattle.std.specs.Prelude.{◌≡◌, ◌<◌, ◌≤◌, ◌+◌, ◌^◌, ◌==◌, ◌++◌, true, length, min, if◌then◌else◌, IfOk, OnOk, MatchOption};
ghost use Rattle.s3_text.specs.Digest.{is_hex_digest};
ghost use Rattle.s3_signing.specs.Chain.{chunk_signature, linked};
ghost use Rattle.s3_aws_chunked.specs.Chunk.{chunk_text};
ghost use Rattle.s3_aws_chunked.specs.Write.{Adds, Writes, chunk_of, written_size};
ghost use Rattle.s3_aws_chunked.specs.Write as writing;

use crate::phase::LABEL;
use s3_signing::ChunkChain;
use s3_terms::NoMemory;
use sha2::{Digest, Sha256};
use std::alloc::Global;

/// The most bytes of data that a written chunk holds.
pub const CHUNK_MAX: usize = 67_108_864;

// The lower-case hexadecimal digits.
const DIGITS: &[u8; 16] = b"0123456789abcdef";

// Writes a size behind the body.
#[tactic(auto, using(crate::proofs::WritingLemmas::size_more, crate::proofs::WritingLemmas::size_one))]
fn write_size(body: &mut Vec<u8>, size: usize) -> Result<(), NoMemory>
    ensures { OnOk result (body.new.items ≡ body.old.items ++ written_size size) }
{
    if size < 16 {
        body.push(DIGITS[size])?;
        return Ok(());
    }
    write_size(body, size / 16)?;
    body.push(DIGITS[size % 16])?;
    Ok(())
}

// Writes a chunk of these bytes behind the body.
#[tactic(auto, unfolding(crate::specs::Chunk::line_behind))]
fn write_chunk(body: &mut Vec<u8>, chain: &mut ChunkChain, bytes: &[u8]) -> Result<(), NoMemory>
    ensures body { OnOk result (body.new.items ≡ body.old.items ++ chunk_text (chunk_of chain.old bytes.now)) }
    ensures form { is_hex_digest (chunk_signature chain.old bytes.now) ≡ true }
    ensures chain { OnOk result (chain.new ≡ linked chain.old (chunk_signature chain.old bytes.now)) }
{
    let signature = chain.next(Sha256::digest(bytes));
    write_size(body, bytes.len())?;
    body.extend_from_slice(LABEL)?;
    body.extend_from_slice(&signature)?;
    body.extend_from_slice(b"\r\n")?;
    body.extend_from_slice(bytes)?;
    body.extend_from_slice(b"\r\n")?;
    Ok(())
}

// How many digits a size is written with.
#[tactic(auto, using(crate::proofs::WritingLemmas::count_one, crate::proofs::WritingLemmas::count_more))]
fn digit_count(size: usize) -> usize
    ensures value { result ≡ length (written_size size) }
    ensures bound { result ≤ size + 1 }
{
    if size < 16 {
        return 1;
    }
    digit_count(size / 16) + 1
}

// How long the chunk of so many bytes is.
fn chunk_length(count: usize) -> usize
    requires { count ≤ CHUNK_MAX }
    ensures { result ≡ writing.chunk_length count }
{
    digit_count(count) + 85 + count
}

// How long the last chunk of data is, where so many bytes are left for it.
fn last_length(count: usize) -> usize
    requires { count ≤ CHUNK_MAX }
    ensures { result ≡ (if count == 0 then 0 else writing.chunk_length count) }
{
    if count == 0 {
        return 0;
    }
    chunk_length(count)
}

/// How long the body is that [`write_chunks`] writes for so many bytes of data, in chunks of `size` bytes,
/// from 1 to 67,108,864; `None` where that is no number of 64 bits.
#[tactic(auto, unfolding(crate::specs::Write::written_length))]
pub fn written_length(count: usize, size: usize) -> Option<usize>
    requires some { 1 ≤ size }
    requires most { size ≤ CHUNK_MAX }
    ensures { MatchOption result
        (2 ^ 64 ≤ writing.written_length count size)
        (λ length. length ≡ writing.written_length count size) }
{
    let whole = (count / size).checked_mul(chunk_length(size))?;
    let rest = last_length(count % size);
    whole.checked_add(rest)?.checked_add(86)
}

// The lesser of two counts.
fn lesser(first: usize, second: usize) -> usize
    ensures { result ≡ min first second }
{
    if first < second { first } else { second }
}

// Writes the chunks of these bytes behind the body, of `size` bytes each, the last one of what is left.
fn write_pieces(
    body: &mut Vec<u8>,
    chain: &mut ChunkChain,
    bytes: &[u8],
    size: usize,
) -> Result<(), NoMemory>
    requires some { 0 < size }
    requires most { size ≤ CHUNK_MAX }
    ensures { OnOk result (Adds chain.old bytes.now size body.old.items body.new.items chain.new) }
{
    let mut rest = bytes;
    while !rest.is_empty() {
        let (piece, behind) = rest.split_at(lesser(size, rest.len()));
        write_chunk(body, chain, piece)?;
        rest = behind;
    }
    Ok(())
}

/// The body of a request whose chunks are signed by this chain (Amazon S3 API Reference, "Transferring
/// payload in multiple chunks"): `data` in chunks of `size` bytes, with a smaller one at the end where it
/// doesn't come out even, and the empty chunk. The sizes are written in lower-case hexadecimal digits
/// without zeros in front. `size` is from 1 to 67,108,864.
///
/// Takes memory for the body, and time by the length of `data` and some 450 bytes for each chunk.
pub fn write_chunks(
    alloc: Global,
    mut chain: ChunkChain,
    data: &[u8],
    size: usize,
) -> Result<Vec<u8>, NoMemory>
    requires some { 1 ≤ size }
    requires most { size ≤ CHUNK_MAX }
    ensures { IfOk result (λ body. Writes chain «data».now size body.items) }
{
    let mut body = Vec::new(alloc);
    write_pieces(&mut body, &mut chain, data, size)?;
    write_chunk(&mut body, &mut chain, &[])?;
    Ok(body)
}
