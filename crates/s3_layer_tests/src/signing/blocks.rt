//! Bodies in signed chunks whose data ends around the ends of the blocks in which it is kept.
use crate::signing::chunks::written;
use crate::texts::is_same;
use s3_aws_chunked::ChunkReader;
use s3_bodies::{BLOCK_SIZE, Body, PayloadBuilder};
use s3_signing::Verified;
use s3_terms::{Code, NoMemory};
use std::alloc::Global;
use std::mem::drop;

// The size of a body around the ends of blocks, and that of the chunks in which it comes.
static AROUND_BLOCKS: [(usize, usize); 8] = [
    (65_535, 8_192),
    (65_535, 65_536),
    (65_536, 8_192),
    (65_536, 65_536),
    (65_537, 8_192),
    (65_537, 65_536),
    (131_072, 8_192),
    (131_072, 65_536),
];

// Bytes of which no two blocks begin alike.
fn counted(alloc: Global, size: usize) -> Result<Vec<u8>, NoMemory> {
    let mut bytes = Vec::with_capacity(alloc, size)?;
    for i in 0..size {
        bytes.push((i % 251) as u8)?;
    }
    Ok(bytes)
}

// Feeds the bytes in pieces of a page, and ends the body.
fn take(reader: &mut ChunkReader, bytes: &[u8], payload: &mut PayloadBuilder) -> Result<(), Code> {
    for piece in bytes.chunks(4_096) {
        reader.feed(piece, payload)?;
    }
    reader.end()
}

// The data of a body in chunks.
fn data_of(alloc: Global, verified: &Verified, bytes: &[u8], size: usize) -> Option<Body> {
    let mut payload = PayloadBuilder::new(alloc, size as u64);
    let mut reader = ChunkReader::new(verified, bytes.len() as u64, size as u64);
    let taken = take(&mut reader, bytes, &mut payload);
    drop(reader);
    match taken {
        Ok(()) => payload.finish().into_body().ok(),
        Err(_) => None,
    }
}

// How many bytes the first block of a body has.
fn first_of(body: &Body) -> usize {
    if body.size() > 0 {
        body.piece(0).bytes().len()
    } else {
        0
    }
}

// Whether a body has this data.
fn has_data(alloc: Global, body: &Body, data: &[u8]) -> bool {
    match body.to_vec(alloc) {
        Ok(copy) => is_same(&copy, data),
        Err(_) => false,
    }
}

// Whether the data of a body is this, in full blocks.
fn is_kept(alloc: Global, kept: Option<Body>, data: &[u8]) -> bool {
    match kept {
        Some(body) => {
            let is_full = first_of(&body) == data.len().min(BLOCK_SIZE);
            has_data(alloc, &body, data) & is_full
        }
        None => false,
    }
}

// Whether this data, in chunks of so many bytes, is kept in full blocks.
fn is_data_kept(alloc: Global, verified: &Verified, data: &[u8], size: usize) -> bool {
    match written(alloc, data, size) {
        Some(bytes) => is_kept(alloc, data_of(alloc, verified, &bytes, data.len()), data),
        None => false,
    }
}

// The same of data that is there.
fn is_counted_kept(
    alloc: Global,
    verified: &Verified,
    data: Result<Vec<u8>, NoMemory>,
    size: usize,
) -> bool {
    match data {
        Ok(data) => is_data_kept(alloc, verified, &data, size),
        Err(_) => false,
    }
}

/// Whether the data of bodies around the ends of blocks, in chunks, is kept in full blocks.
pub(crate) fn are_kept(alloc: Global, verified: &Verified) -> bool {
    for (size, chunk) in &AROUND_BLOCKS {
        if !is_counted_kept(alloc, verified, counted(alloc, *size), *chunk) {
            return false;
        }
    }
    true
}
