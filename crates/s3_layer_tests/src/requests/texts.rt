//! Texts of a given size.
use std::alloc::{AllocError, Global};

/// The front, that many copies of the piece, and the end.
pub(crate) fn repeated(
    alloc: Global,
    front: &[u8],
    piece: &[u8],
    count: usize,
    end: &[u8],
) -> Result<Vec<u8>, AllocError> {
    let pieces = piece.repeat(alloc, count)?;
    [front, &pieces, end].concat(alloc)
}
