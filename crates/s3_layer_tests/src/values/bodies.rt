//! Tests of `s3_bodies`: bodies in shared blocks.

use crate::checks::{Row, all_hold};
use s3_bodies::{BLOCK_SIZE, Body, BodyBuilder, Sink};
use s3_terms::NoMemory;
use std::alloc::Global;

// So many bytes, each of which is its place modulo 251.
fn places(alloc: Global, size: usize) -> Result<Vec<u8>, NoMemory> {
    let mut bytes = Vec::with_capacity(alloc, size)?;
    for i in 0..size {
        bytes.push((i % 251) as u8)?;
    }
    Ok(bytes)
}

// Gives the bytes to a builder in pieces of so many.
fn take_all(builder: &mut BodyBuilder, bytes: &[u8], piece: usize) -> Result<(), NoMemory> {
    for part in bytes.chunks(piece.max(1)) {
        builder.take(part)?;
    }
    Ok(())
}

// A body of these bytes, which come in pieces of so many.
fn built(alloc: Global, bytes: &[u8], piece: usize, expected: u64) -> Result<Body, NoMemory> {
    let mut builder = BodyBuilder::new(alloc, expected);
    match take_all(&mut builder, bytes, piece) {
        Ok(()) => builder.finish(),
        Err(refusal) => Err(refusal),
    }
}

// A body whose bytes are their places modulo 251, of this size, which comes in pieces of so many bytes.
fn counted(alloc: Global, size: usize, piece: usize, expected: u64) -> Result<Body, NoMemory> {
    match places(alloc, size) {
        Ok(bytes) => built(alloc, &bytes, piece, expected),
        Err(refusal) => Err(refusal),
    }
}

// Whether these bytes are those of such a body from a place on.
fn count_on(bytes: &[u8], from: usize) -> bool {
    let mut wanted = from % 251;
    for byte in bytes {
        if usize::from(*byte) != wanted {
            return false;
        }
        wanted = (wanted + 1) % 251;
    }
    true
}

// How many pieces a body has at most.
const PIECES: u32 = 16;

// Whether a body has so many bytes, which are those from a place on, in pieces of a block at most.
fn counts(body: &Body, from: usize, size: usize) -> bool {
    let mut at = 0;
    for _ in 0..PIECES {
        if at >= body.size() {
            return at == size as u64;
        }
        let piece = body.piece(at).bytes();
        if piece.len() > BLOCK_SIZE || !count_on(piece, from.wrapping_add(at as usize)) {
            return false;
        }
        at += piece.len() as u64;
    }
    false
}

// How many pieces a body has, up to `PIECES`.
fn pieces_of(body: &Body) -> u32 {
    let mut at = 0;
    for pieces in 0..PIECES {
        if at >= body.size() {
            return pieces;
        }
        at += body.piece(at).bytes().len() as u64;
    }
    PIECES
}

// A body's size and its pieces' as it came, and a range of it.
struct Case(usize, usize, usize, usize);

// Around the ends of blocks.
static CASES: [Case; 9] = [
    Case(0, 1, 0, 0),
    Case(1, 1, 0, 1),
    Case(65_535, 8_192, 1, 65_534),
    Case(65_536, 8_192, 65_535, 1),
    Case(65_536, 65_536, 0, 65_536),
    Case(65_537, 8_192, 65_535, 2),
    Case(65_537, 65_536, 65_536, 1),
    Case(131_072, 65_536, 65_530, 20),
    Case(200_000, 200_000, 65_537, 131_000),
];

// Whether a body of a case has its bytes in full blocks, where so many were expected.
fn is_kept(alloc: Global, case: &Case, expected: u64) -> bool {
    match counted(alloc, case.0, case.1, expected) {
        Ok(body) => {
            let pieces = pieces_of(&body) as usize;
            (pieces == case.0.div_ceil(BLOCK_SIZE)) & counts(&body, 0, case.0)
        }
        Err(_) => false,
    }
}

// A range of a body; the body where it hasn't one.
fn cut(body: Body, from: usize, count: usize) -> Body {
    let (from, count) = (from as u64, count as u64);
    if from > body.size() || count > body.size() - from {
        return body;
    }
    body.slice(from, count)
}

// A range of a copy.
fn range_of(copy: Result<Body, NoMemory>, from: usize, count: usize) -> Result<Body, NoMemory> {
    match copy {
        Ok(copy) => Ok(cut(copy, from, count)),
        Err(refusal) => Err(refusal),
    }
}

// Whether a body that was made has so many bytes, which are those from a place on.
fn is_made(made: Result<Body, NoMemory>, from: usize, count: usize) -> bool {
    match made {
        Ok(body) => counts(&body, from, count),
        Err(_) => false,
    }
}

// Whether what two ranges with nothing between them are joined to is the body of a case again, also where that is joined alone, and
// a range over their border is that.
fn is_whole(alloc: Global, case: &Case, joined: Result<Body, NoMemory>) -> bool {
    match joined {
        Ok(whole) => {
            counts(&whole, 0, case.0)
                & is_made(Body::join(alloc, &[&whole]), 0, case.0)
                & is_made(
                    range_of(whole.copy(), case.2 / 2, case.3),
                    case.2 / 2,
                    case.3,
                )
        }
        Err(_) => false,
    }
}

// Joins a range of a body and the one behind it, with nothing between them.
fn rejoined(alloc: Global, front: &Body, behind: Result<Body, NoMemory>) -> Result<Body, NoMemory> {
    match behind {
        Ok(behind) => Body::join(alloc, &[front, &Body::empty(), &behind]),
        Err(refusal) => Err(refusal),
    }
}

// Whether two ranges of a body, with nothing between them, are its bytes again where they are joined.
fn is_joined(alloc: Global, case: &Case, body: &Body) -> bool {
    match range_of(body.copy(), 0, case.2) {
        Ok(front) => {
            let behind = range_of(body.copy(), case.2, case.0.saturating_sub(case.2));
            is_whole(alloc, case, rejoined(alloc, &front, behind))
        }
        Err(_) => false,
    }
}

// Whether the ranges of a body have their bytes, and it keeps its own.
fn are_ranges(alloc: Global, case: &Case, body: &Body) -> bool {
    is_made(range_of(body.copy(), case.2, case.3), case.2, case.3)
        & is_joined(alloc, case, body)
        & counts(body, 0, case.0)
}

// The same of a body of a case.
fn has_ranges(alloc: Global, case: &Case) -> bool {
    match counted(alloc, case.0, case.1, case.0 as u64) {
        Ok(body) => are_ranges(alloc, case, &body),
        Err(_) => false,
    }
}

impl Row for Case {
    fn holds(&self, alloc: Global) -> bool {
        is_kept(alloc, self, self.0 as u64) && is_kept(alloc, self, 0) && has_ranges(alloc, self)
    }
}

/// Whether bodies have their bytes in full blocks, whether or not their count was expected, and their ranges have theirs.
pub(crate) fn hold(alloc: Global) -> bool {
    all_hold(alloc, &CASES)
}
