//! Event lines whose pieces come in other cuts.

use s3_text::next_line;
use std::alloc::{AllocError, Global};

/// Where the bytes of events are cut: behind so many of all of them, and into pieces of at most so many.
#[derive(Clone, Copy)]
pub struct Cut {
    pub first: usize,
    pub size: usize,
}

/// The same events, but that their bytes come in these cuts too. Takes time by the lines that this makes.
pub fn recut(alloc: Global, events: &[u8], cut: Cut) -> Result<Vec<u8>, AllocError> {
    let mut lines = Vec::new(alloc);
    let mut left = events;
    let mut first = cut.first.saturating_mul(2);
    for _ in 0..u64::MAX {
        let Some((line, rest)) = next_line(left) else {
            break;
        };
        let digits = add_line(&mut lines, line, first, cut.size.saturating_mul(2))?;
        first = first.saturating_sub(digits);
        left = rest;
    }
    Ok(lines)
}

// Adds a line, or, for one that says a piece, those of its parts: up to its first so many digits and behind them, of at
// most so many digits each. Answers how many digits it has.
fn add_line(
    lines: &mut Vec<u8>,
    line: &[u8],
    first: usize,
    size: usize,
) -> Result<usize, AllocError> {
    let Some((front, digits)) = piece_of(line) else {
        add_three(lines, line, b"", b"\n")?;
        return Ok(0);
    };
    let (before, behind) = digits.split_at(first.min(digits.len()));
    add_pieces(lines, front, before, size)?;
    add_pieces(lines, front, behind, size)?;
    Ok(digits.len())
}

// The digits of a piece's bytes, with what stands before them in its line.
fn piece_of(line: &[u8]) -> Option<(&[u8], &[u8])> {
    let named = line.strip_prefix(b"piece ".as_slice())?;
    let at = named.iter().position(|byte| *byte == b' ')?;
    let (_, digits) = named.split_at(at + 1);
    Some((&line[..line.len() - digits.len()], digits))
}

// Adds lines of pieces with these digits, at most so many in each.
fn add_pieces(
    lines: &mut Vec<u8>,
    front: &[u8],
    digits: &[u8],
    size: usize,
) -> Result<(), AllocError> {
    for piece in digits.chunks(size.max(2)) {
        add_three(lines, front, piece, b"\n")?;
    }
    Ok(())
}

// Adds three texts.
fn add_three(
    lines: &mut Vec<u8>,
    first: &[u8],
    second: &[u8],
    third: &[u8],
) -> Result<(), AllocError> {
    lines.extend_from_slice(first)?;
    lines.extend_from_slice(second)?;
    lines.extend_from_slice(third)
}
