//! Connections to their end.
use crate::workers::served::{Sent, end_over, moment};
use crate::workers::stream::{Manner, PLAIN};
use s3_config::Config;
use s3_driver::Ending;
use s3_simulation::replay_one;
use std::alloc::Global;
use std::mem::drop;
use std::sync::Wait;

// What a connection sends, and how its stream gives and takes: it blocks once behind as many bytes as `manner` says, and then behind
// one more, and so on, `places` times at most.
struct Row {
    name: &'static str,
    sent: Sent,
    manner: Manner,
    places: usize,
    // How it ends, and how many bytes it has written of what is replayed, where these aren't all.
    ending: Ending,
    written: Option<usize>,
}

// What the client of the first put waits for, which is out before the put has its turn.
const CONTINUE: &[u8] = b"HTTP/1.1 100 Continue\r\n\r\n";

// A stream that blocks once, first of all at its beginning.
const BLOCKED: Manner = Manner { first: 0, ..PLAIN };

// The same where every second write would block.
const SLOW: Manner = Manner {
    is_slow: true,
    ..BLOCKED
};

// The same byte by byte.
const SLOW_BYTES: Manner = Manner { most: 1, ..SLOW };

static ROWS: [Row; 10] = [
    Row {
        name: "a put and a get, blocked anywhere",
        sent: Sent::PutAndGet,
        manner: BLOCKED,
        places: usize::MAX,
        ending: Ending::Closed,
        written: None,
    },
    Row {
        name: "a put and a get, blocked anywhere and at every second write",
        sent: Sent::PutAndGet,
        manner: SLOW,
        places: usize::MAX,
        ending: Ending::Closed,
        written: None,
    },
    Row {
        name: "the same byte by byte",
        sent: Sent::PutAndGet,
        manner: SLOW_BYTES,
        places: usize::MAX,
        ending: Ending::Closed,
        written: None,
    },
    Row {
        name: "a put in chunks and a get, blocked anywhere",
        sent: Sent::ChunksAndGet,
        manner: BLOCKED,
        places: usize::MAX,
        ending: Ending::Closed,
        written: None,
    },
    Row {
        name: "a put in chunks and a get, blocked anywhere and at every second write",
        sent: Sent::ChunksAndGet,
        manner: SLOW,
        places: usize::MAX,
        ending: Ending::Closed,
        written: None,
    },
    Row {
        name: "the put in chunks byte by byte",
        sent: Sent::ChunksAndGet,
        manner: SLOW_BYTES,
        places: usize::MAX,
        ending: Ending::Closed,
        written: None,
    },
    Row {
        name: "the first read fails",
        sent: Sent::PutAndGet,
        manner: Manner {
            failing_read: 1,
            ..PLAIN
        },
        places: 1,
        ending: Ending::ReadFailed,
        written: Some(0),
    },
    Row {
        name: "the second read fails",
        sent: Sent::PutAndGet,
        manner: Manner {
            failing_read: 2,
            ..PLAIN
        },
        places: 1,
        ending: Ending::ReadFailed,
        written: Some(439),
    },
    Row {
        name: "the first write fails",
        sent: Sent::PutAndGet,
        manner: Manner {
            failing_write: 1,
            ..PLAIN
        },
        places: 1,
        ending: Ending::WriteFailed,
        written: Some(0),
    },
    Row {
        name: "the second write fails",
        sent: Sent::PutAndGet,
        manner: Manner {
            failing_write: 2,
            ..PLAIN
        },
        places: 1,
        ending: Ending::WriteFailed,
        written: Some(CONTINUE.len()),
    },
];

// Whether a connection of these bytes comes out as the row says, blocked at the place of this number.
fn comes_out<R: Wait>(
    rt: &R,
    alloc: Global,
    config: &Config,
    row: &Row,
    bytes: &[u8],
    place: usize,
    wanted: &[u8],
) -> bool {
    let manner = Manner {
        first: row.manner.first.saturating_add(place),
        ..row.manner
    };
    let written = Some(row.written.unwrap_or(wanted.len()));
    end_over(rt, alloc, config, bytes, manner, wanted) == Some((row.ending, written))
}

// Whether it comes out so at all places, where this is wanted.
fn comes_out_anywhere<R: Wait>(
    rt: &R,
    alloc: Global,
    config: &Config,
    row: &Row,
    bytes: &[u8],
    wanted: &[u8],
) -> bool {
    for place in 0..row.places.min(bytes.len()) {
        if !comes_out(rt, alloc, config, row, bytes, place, wanted) {
            return false;
        }
    }
    true
}

// The same, where what is wanted is what is replayed.
fn comes_out_as_replayed<R: Wait>(rt: &R, alloc: Global, config: &Config, row: &Row) -> bool {
    let bytes = row.sent.bytes();
    match replay_one(alloc, config, bytes, moment()) {
        Ok(wanted) => {
            let comes_out = comes_out_anywhere(rt, alloc, config, row, bytes, &wanted);
            drop(wanted);
            comes_out
        }
        Err(_) => false,
    }
}

/// The name of the first row that comes out in another way.
pub(crate) fn first_other_connection<R: Wait>(
    rt: &R,
    alloc: Global,
    config: &Config,
) -> Option<&'static str> {
    for row in &ROWS {
        if !comes_out_as_replayed(rt, alloc, config, row) {
            return Some(row.name);
        }
    }
    None
}
