//! What a connection has still to send: replies with and without bodies, the last text, how they are taken, and memory
//! that is given back.

use crate::checks::{Row, all_hold};
use s3_bodies::Body;
use s3_outbox::Outbox;
use std::alloc::Global;
use std::io::IoSlice;
use std::mem::drop;

type Reply = (&'static [u8], Option<&'static [u8]>);

// Replies, the last text if there is one, and what is sent of them.
struct Case {
    replies: &'static [Reply],
    last: Option<&'static [u8]>,
    sent: &'static [u8],
}

static CASES: &[Case] = &[
    Case {
        replies: &[],
        last: None,
        sent: b"",
    },
    Case {
        replies: &[(b"head", None)],
        last: None,
        sent: b"head",
    },
    Case {
        replies: &[(b"head", Some(b"body"))],
        last: None,
        sent: b"headbody",
    },
    // Heads that stand together, and bodies that do.
    Case {
        replies: &[
            (b"one", None),
            (b"two", Some(b"2")),
            (b"", Some(b"3")),
            (b"four", Some(b"")),
            (b"five", None),
        ],
        last: None,
        sent: b"onetwo23fourfive",
    },
    Case {
        replies: &[],
        last: Some(b"over"),
        sent: b"over",
    },
    Case {
        replies: &[(b"one", Some(b"1")), (b"two", None)],
        last: Some(b"over"),
        sent: b"one1twoover",
    },
    Case {
        replies: &[(b"one", Some(b"1"))],
        last: Some(b""),
        sent: b"one1",
    },
];

// A part of a write: how long it is, its first byte, and its last.
type Part = (usize, u8, u8);

// How long two heads with their bodies and a last text are, and the parts of the writes in which they go out.
struct Sizes {
    first: (usize, usize),
    second: (usize, usize),
    last: usize,
    writes: &'static [&'static [Part]],
}

static SIZES: &[Sizes] = &[
    Sizes {
        first: (200, 0),
        second: (0, 0),
        last: 0,
        writes: &[&[(200, b'h', b'h')]],
    },
    // A body goes out with its head.
    Sizes {
        first: (200, 5_000),
        second: (0, 0),
        last: 0,
        writes: &[&[(200, b'h', b'h'), (5_000, b'b', b'b')]],
    },
    // The longest head.
    Sizes {
        first: (8_192, 1),
        second: (0, 0),
        last: 0,
        writes: &[&[(8_192, b'h', b'h'), (1, b'b', b'b')]],
    },
    // One reply behind another.
    Sizes {
        first: (200, 1_000),
        second: (100, 10),
        last: 3,
        writes: &[
            &[(200, b'h', b'h'), (1_000, b'b', b'b')],
            &[(100, b'h', b'h'), (10, b'b', b'b')],
            &[(3, b'l', b'l')],
        ],
    },
    // A body of more blocks than go out in one write.
    Sizes {
        first: (200, 262_145),
        second: (0, 0),
        last: 0,
        writes: &[
            &[
                (200, b'h', b'h'),
                (65_536, b'b', b'b'),
                (65_536, b'b', b'b'),
                (65_536, b'b', b'b'),
            ],
            &[(65_536, b'b', b'b'), (1, b'b', b'b')],
        ],
    },
    // The longest last text.
    Sizes {
        first: (200, 1),
        second: (0, 0),
        last: 512,
        writes: &[&[(200, b'h', b'h'), (1, b'b', b'b')], &[(512, b'l', b'l')]],
    },
];

// The body of a reply, if it has one.
fn body_of(alloc: Global, reply: &Reply) -> Option<Body> {
    match reply.1 {
        Some(bytes) => Body::of(alloc, bytes).ok(),
        None => None,
    }
}

// Puts a reply in, whose body is moved. The room for it stays where memory is given back in between.
fn put(outbox: &mut Outbox, head: &[u8], body: Option<Body>) {
    drop(outbox.make_room());
    outbox.give_back();
    if outbox.has_room() && !outbox.is_ended() && head.len() <= 8_192 {
        outbox.push(head, body);
    } else {
        drop(body);
    }
}

// Puts the last text in.
fn end(outbox: &mut Outbox, text: &[u8]) {
    if !outbox.is_ended() && text.len() <= 512 {
        outbox.end_with(text);
    }
}

// Takes at most so many bytes of those that stand together in front.
fn take(outbox: &mut Outbox, most: usize, taken: &mut Vec<u8>) {
    let out = outbox.out();
    let count = out.len().min(most);
    drop(taken.extend_from_slice(&out[..count]));
    outbox.sent(count);
}

// How a case is taken: at most so many bytes at a time, of which some come early, behind each reply; and whether memory is
// given back then.
struct Way {
    most: usize,
    early: usize,
    gives_back: bool,
}

static WAYS: [Way; 10] = [
    Way {
        most: 1,
        early: 0,
        gives_back: false,
    },
    Way {
        most: 1,
        early: 0,
        gives_back: true,
    },
    Way {
        most: 1,
        early: 1,
        gives_back: false,
    },
    Way {
        most: 1,
        early: 1,
        gives_back: true,
    },
    Way {
        most: 2,
        early: 3,
        gives_back: false,
    },
    Way {
        most: 2,
        early: 3,
        gives_back: true,
    },
    Way {
        most: 100,
        early: 0,
        gives_back: false,
    },
    Way {
        most: 100,
        early: 0,
        gives_back: true,
    },
    Way {
        most: 3,
        early: 100,
        gives_back: false,
    },
    Way {
        most: 3,
        early: 100,
        gives_back: true,
    },
];

// Puts all of a case in, and takes some of it behind each reply.
fn fill(alloc: Global, case: &Case, way: &Way, outbox: &mut Outbox, taken: &mut Vec<u8>) {
    for reply in case.replies {
        put(outbox, reply.0, body_of(alloc, reply));
        take(outbox, way.early, taken);
        if way.gives_back {
            outbox.give_back();
        }
    }
    if let Some(text) = case.last {
        end(outbox, text);
    }
}

// Whether a copy of all that is unsent is the end of this text, and as long.
fn has_left(alloc: Global, outbox: &Outbox, text: &[u8], taken: usize) -> bool {
    match outbox.all(alloc) {
        Ok(all) => {
            let has_length = all.len().checked_add(taken) == Some(text.len());
            has_length && text.ends_with(all.as_slice())
        }
        Err(_) => false,
    }
}

// Takes all, at most so many bytes at a time. None of them is longer than 100.
fn drain(outbox: &mut Outbox, most: usize, taken: &mut Vec<u8>) {
    for _ in 0..100 {
        take(outbox, most, taken);
    }
}

// Whether all of a case is sent in its order.
fn is_sent(alloc: Global, case: &Case, way: &Way) -> bool {
    let mut outbox = Outbox::new(alloc);
    let mut taken = Vec::new(alloc);
    fill(alloc, case, way, &mut outbox, &mut taken);
    let is_left = has_left(alloc, &outbox, case.sent, taken.len());
    drain(&mut outbox, way.most, &mut taken);
    let is_sent = (is_left, outbox.out(), taken.as_slice()) == (true, b"", case.sent);
    drop(outbox);
    drop(taken);
    is_sent
}

// Whether all of it is sent in its order, however it is taken.
impl Row for Case {
    fn holds(&self, alloc: Global) -> bool {
        for way in &WAYS {
            if !is_sent(alloc, self, way) {
                return false;
            }
        }
        true
    }
}

// So many of a byte, or none where there is no memory for them.
fn filled(alloc: Global, byte: u8, size: usize) -> Vec<u8> {
    match Vec::from_elem(alloc, byte, size) {
        Ok(filled) => filled,
        Err(_) => Vec::new(alloc),
    }
}

// Puts a reply with a head and a body of these sizes in; one without a head is none.
fn put_sizes(alloc: Global, sizes: (usize, usize), outbox: &mut Outbox) {
    if sizes.0 > 0 {
        let bytes = filled(alloc, b'b', sizes.1);
        let body = Body::of(alloc, &bytes).ok();
        drop(bytes);
        let head = filled(alloc, b'h', sizes.0);
        put(outbox, &head, body);
        drop(head);
    }
}

// Whether a part of a write is this one.
fn is_part(bytes: &[u8], wanted: &Part) -> bool {
    (bytes.len(), bytes.first(), bytes.last()) == (wanted.0, Some(&wanted.1), Some(&wanted.2))
}

// Whether these are the parts of a write that have bytes.
fn are_parts(parts: &[IoSlice<'_>], wanted: &[Part]) -> bool {
    let mut left = wanted;
    for part in parts {
        let bytes = part.as_slice();
        if bytes.is_empty() {
            continue;
        }
        match left.split_first() {
            Some((next, behind)) if is_part(bytes, next) => left = behind,
            _ => return false,
        }
    }
    left.is_empty()
}

// Whether these parts stand in front for a write, and sends as many pieces.
fn is_next(outbox: &mut Outbox, wanted: &[Part]) -> bool {
    let are_right = are_parts(&outbox.parts(), wanted);
    for _ in wanted {
        let count = outbox.out().len();
        outbox.sent(count);
    }
    are_right
}

// Whether all goes out in these writes.
fn goes_in(outbox: &mut Outbox, writes: &[&[Part]]) -> bool {
    for parts in writes {
        if !is_next(outbox, parts) {
            return false;
        }
    }
    outbox.out().is_empty()
}

// Puts a last text of this size in; one of no size is none.
fn end_with(alloc: Global, size: usize, outbox: &mut Outbox) {
    if size > 0 {
        let text = filled(alloc, b'l', size);
        end(outbox, &text);
        drop(text);
    }
}

// Whether two replies and a last text of these sizes go out in their writes.
impl Row for Sizes {
    fn holds(&self, alloc: Global) -> bool {
        let mut outbox = Outbox::new(alloc);
        put_sizes(alloc, self.first, &mut outbox);
        put_sizes(alloc, self.second, &mut outbox);
        end_with(alloc, self.last, &mut outbox);
        let is_cut = goes_in(&mut outbox, self.writes);
        drop(outbox);
        is_cut
    }
}

/// Whether replies are sent in their order, and go out in their writes.
pub(crate) fn hold(alloc: Global) -> bool {
    all_hold(alloc, CASES) && all_hold(alloc, SIZES)
}
