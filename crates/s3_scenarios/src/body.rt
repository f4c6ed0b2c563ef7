//! A body of a scenario, as its file tells it.

use s3_text::decimal_number;
use std::alloc::{AllocError, Global};

// Adds so many bytes of a text that begins anew where it ends.
fn add_repeated(bytes: &mut Vec<u8>, text: &[u8], size: usize) -> Result<(), AllocError> {
    let mut left = size;
    for _ in 0..size {
        if left == 0 {
            break;
        }
        let (piece, _) = text.split_at(left.min(text.len()));
        bytes.extend_from_slice(piece)?;
        left = left.saturating_sub(piece.len());
    }
    Ok(())
}

/// Adds the bytes of a body. `TEXT*N` tells N bytes, the text over and over; any other text tells its own. `None` says that no
/// number stands behind a star, or that memory ran out.
pub(crate) fn add_body(bytes: &mut Vec<u8>, text: &str) -> Option<()> {
    let Some((text, size)) = text.split_once("*") else {
        return bytes.extend_from_slice(text.as_bytes()).ok();
    };
    let size = decimal_number(size.as_bytes(), 6)?;
    add_repeated(bytes, text.as_bytes(), size as usize).ok()
}

/// The bytes of a body that is sent: those of its lines, each as `add_body` adds them, where each but the last ends with a bar.
pub(crate) fn body(alloc: Global, text: &str) -> Option<Vec<u8>> {
    let mut bytes = Vec::new(alloc);
    for line in text.split("|\n") {
        add_body(&mut bytes, line)?;
    }
    Some(bytes)
}
