//! Whole connections, cut into pieces: how they are cut, and how what they write is taken, changes nothing of it.
use crate::sessions::line::{Line, Then};

/// How a connection is cut: into a first piece of so many bytes, and pieces of this size behind it. And how many bytes
/// at most are taken at a time of what stands together in what it writes.
#[derive(Clone, Copy)]
pub(crate) struct Cut {
    pub(crate) first: usize,
    pub(crate) size: usize,
    pub(crate) most: usize,
}

/// Ways to cut any connection: whole and byte by byte, and taken so, among others.
pub(crate) static CUTS: [Cut; 8] = [
    Cut {
        first: 0,
        size: 1_000_000,
        most: 1_000_000,
    },
    Cut {
        first: 0,
        size: 1_000_000,
        most: 1,
    },
    Cut {
        first: 0,
        size: 1,
        most: 1_000_000,
    },
    Cut {
        first: 0,
        size: 1,
        most: 1,
    },
    Cut {
        first: 0,
        size: 7,
        most: 3,
    },
    Cut {
        first: 1,
        size: 64,
        most: 100,
    },
    Cut {
        first: 3,
        size: 1_000,
        most: 7,
    },
    Cut {
        first: 5,
        size: 65_536,
        most: 4_096,
    },
];

// Feeds a piece up to its end, or until the connection is closed. Each turn comes at once, and takes a byte at least.
fn feed(line: &mut Line, piece: &[u8]) {
    let mut rest = piece;
    for _ in 0..=piece.len() {
        let len = line.feed(rest);
        if line.then() != Then::Turn {
            break;
        }
        line.answer();
        rest = rest.get(len..).unwrap_or(&[]);
    }
}

/// Whether a connection of these bytes, cut and taken so, writes that and nothing else; `None` says that it writes
/// something else before its end.
pub(crate) fn writes(line: &mut Line, bytes: &[u8], cut: Cut, wanted: &[u8]) -> Option<bool> {
    let (first, rest) = bytes.split_at(cut.first.min(bytes.len()));
    let mut left = wanted;
    feed(line, first);
    for piece in rest.chunks(cut.size.max(1)) {
        feed(line, piece);
        left = line.take(cut.most, left)?;
    }
    line.end();
    Some(line.take(cut.most, left)?.is_empty())
}
