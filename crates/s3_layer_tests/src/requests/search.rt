//! Heads that arrive in pieces, cut everywhere.
use crate::checks::{Row, all_hold};
use crate::requests::texts::repeated;
use s3_http_heads::{Found, HeadSearch};
use std::alloc::Global;

// How many bytes are taken, what is found with them, and what is held then.
type Taken<'a> = (usize, Found, &'a [u8]);

// Feeds a first piece of `at` bytes and then pieces of that size, while nothing is found: how many bytes are
// taken, and what is found with them.
fn feed_pieces(search: &mut HeadSearch, bytes: &[u8], at: usize, size: usize) -> (usize, Found) {
    let (front, rest) = bytes.split_at(at.min(bytes.len()));
    let (mut count, mut found) = search.feed(front);
    for piece in rest.chunks(size.max(1)) {
        if let Found::NeedMore = found {
            let (len, now) = search.feed(piece);
            count = count.saturating_add(len);
            found = now;
        }
    }
    (count, found)
}

// Whether this is taken of bytes that come so.
fn is_taken(alloc: Global, bytes: &[u8], taken: &Taken, at: usize, size: usize) -> bool {
    let mut search = HeadSearch::new(alloc);
    let (count, found) = feed_pieces(&mut search, bytes, at, size);
    count == taken.0 && found == taken.1 && search.text() == Some(taken.2)
}

// Whether it is taken of them wherever they are cut in two, and byte by byte.
impl Row for Arrival {
    fn holds(&self, alloc: Global) -> bool {
        for at in 0..self.0.len() {
            if !is_taken(alloc, self.0, &self.1, at, self.0.len()) {
                return false;
            }
        }
        is_taken(alloc, self.0, &self.1, 0, 1)
    }
}

struct Arrival(&'static [u8], Taken<'static>);

static ARRIVALS: [Arrival; 15] = [
    Arrival(b"", (0, Found::NeedMore, b"")),
    Arrival(b"\r\n\r\n", (4, Found::NeedMore, b"")),
    Arrival(b"\r\n\r", (3, Found::NeedMore, b"\r")),
    Arrival(b"a\r\n\n\r\n", (6, Found::NeedMore, b"a\r\n\n\r\n")),
    Arrival(
        b"GET / HTTP/1.1\r\n\r",
        (17, Found::NeedMore, b"GET / HTTP/1.1\r\n\r"),
    ),
    Arrival(
        b"GET / HTTP/1.1\r\n\r\n\r\nGET",
        (18, Found::Head { len: 18 }, b"GET / HTTP/1.1\r\n\r\n"),
    ),
    Arrival(
        b"\r\n\r\nGET / HTTP/1.1\r\n\r\nbody",
        (22, Found::Head { len: 18 }, b"GET / HTTP/1.1\r\n\r\n"),
    ),
    Arrival(
        b"\r\n\n\r\n\r\n",
        (7, Found::Head { len: 5 }, b"\n\r\n\r\n"),
    ),
    Arrival(b"\r\r\n\r\n", (5, Found::Head { len: 5 }, b"\r\r\n\r\n")),
    Arrival(
        b"\rX\r\n\r\n\r\n\r\n",
        (6, Found::Head { len: 6 }, b"\rX\r\n\r\n"),
    ),
    Arrival(
        b"a\r\r\n\r\r\n\r\nb",
        (9, Found::Head { len: 9 }, b"a\r\r\n\r\r\n\r\n"),
    ),
    Arrival(
        b"a\r\n\rb\r\n\r\n",
        (9, Found::Head { len: 9 }, b"a\r\n\rb\r\n\r\n"),
    ),
    // Head texts of several lines, and one that is not whole.
    Arrival(
        b"PUT /bucket/key HTTP/1.1\r\nHost: example.com\r\nContent-Length: 4\r\n\r\nbody",
        (
            66,
            Found::Head { len: 66 },
            b"PUT /bucket/key HTTP/1.1\r\nHost: example.com\r\nContent-Length: 4\r\n\r\n",
        ),
    ),
    Arrival(
        b"\r\n\r\nGET / HTTP/1.1\r\nHost: example.com\r\n\r\nGET / HTTP/1.1\r\n\r\n",
        (
            41,
            Found::Head { len: 37 },
            b"GET / HTTP/1.1\r\nHost: example.com\r\n\r\n",
        ),
    ),
    Arrival(
        b"\r\nGET / HTTP/1.1\r\nHost: example.com\r\n",
        (
            37,
            Found::NeedMore,
            b"GET / HTTP/1.1\r\nHost: example.com\r\n",
        ),
    ),
];

// A pair, that many letters and an end: how many of these bytes are taken, and what is found with them.
struct Large(usize, &'static [u8], usize, Found);

static LARGE: [Large; 5] = [
    Large(16_383, b"", 16_385, Found::NeedMore),
    Large(16_384, b"", 16_386, Found::TooLarge),
    Large(20_000, b"\r\n\r\n", 16_386, Found::TooLarge),
    Large(16_380, b"\r\n\r\nrest", 16_386, Found::Head { len: 16_384 }),
    Large(16_381, b"\r\n\r\n", 16_386, Found::TooLarge),
];

// Whether this is taken of these bytes where the pair is cut, and pieces of 1 or of 30,000 bytes come after it.
fn is_large_of(alloc: Global, bytes: &[u8], taken: usize, found: Found) -> bool {
    match bytes.get(2..taken) {
        Some(held) => {
            let taken = (taken, found, held);
            is_taken(alloc, bytes, &taken, 1, 1) && is_taken(alloc, bytes, &taken, 1, 30_000)
        }
        None => false,
    }
}

impl Row for Large {
    fn holds(&self, alloc: Global) -> bool {
        match repeated(alloc, b"\r\n", b"A", self.0, self.1) {
            Ok(bytes) => is_large_of(alloc, &bytes, self.2, self.3),
            Err(_) => false,
        }
    }
}

// Whether a head is found, nothing is held once it is cleared, and then the next one is found.
fn are_found(search: &mut HeadSearch) -> bool {
    let first = search.feed(b"GET /a HTTP/1.1\r\n\r\n\r\nGET");
    search.clear();
    let is_clear = search.text() == Some(b"".as_slice());
    let second = search.feed(b"\r\nGET /bc HTTP/1.1\r\n\r\n");
    is_clear
        && first == (19, Found::Head { len: 19 })
        && second == (22, Found::Head { len: 20 })
        && search.text() == Some(b"GET /bc HTTP/1.1\r\n\r\n")
}

// The same of a new search.
fn are_found_anew(alloc: Global) -> bool {
    let mut search = HeadSearch::new(alloc);
    are_found(&mut search)
}

/// Whether heads are found in pieces, also one behind another, and those that are too large are refused.
pub(crate) fn hold(alloc: Global) -> bool {
    all_hold(alloc, &ARRIVALS) && all_hold(alloc, &LARGE) && are_found_anew(alloc)
}
