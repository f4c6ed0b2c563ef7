//! Bodies and what comes of them, by RFC 9112, 7.1. The places are counted by hand.
use crate::{Sink, TransferDecoder};
use s3_terms::{Code, NoMemory};
use std::alloc::Global;

/// The data of a body.
#[derive(Drop)]
struct Data {
    bytes: Vec<u8>,
}

impl Sink for Data {
    ghost taken = { λ s. s.bytes.items };

    fn take(&mut self, data: &[u8]) -> Result<(), NoMemory> {
        self.bytes.extend_from_slice(data)?;
        Ok(())
    }
}

/// A body whose data may have `limit` bytes, what it comes to, and how many of its bytes are taken.
struct Case {
    limit: u64,
    body: &'static [u8],
    data: &'static [u8],
    outcome: Result<(), Code>,
    taken: u64,
}

const HELLO: Case = Case {
    limit: 5,
    body: b"5\r\nhello\r\n0\r\n\r\n",
    data: b"hello",
    outcome: Ok(()),
    taken: 15,
};

const INVALID: Case = Case {
    data: b"",
    outcome: Err(Code::InvalidRequest),
    ..HELLO
};

const WIKI: &[u8] = b"4\r\nWiki\r\n7\r\npedia i\r\nB\r\nn \r\nchunks.\r\n0\r\n\r\n";

static CASES: [Case; 21] = [
    HELLO,
    Case {
        limit: 22,
        body: WIKI,
        data: b"Wikipedia in \r\nchunks.",
        taken: 42,
        ..HELLO
    },
    // The third size brings it over the limit.
    Case {
        limit: 21,
        body: WIKI,
        data: b"Wikipedia i",
        outcome: Err(Code::EntityTooLarge),
        taken: 23,
    },
    // Extensions, and a message behind the body, which is left.
    Case {
        body: b"5;ext=\"a;b\"\r\nhello\r\n0 \t;last\r\n\r\nGET / HTTP/1.1\r\n",
        taken: 32,
        ..HELLO
    },
    Case {
        body: b"5;\x80\t~\r\nhello\r\n0\r\n\r\n",
        taken: 19,
        ..HELLO
    },
    // Sixteen digits, and one more.
    Case {
        body: b"0000000000000005\r\nhello\r\n0000000000000000\r\n\r\n",
        taken: 45,
        ..HELLO
    },
    Case {
        body: b"00000000000000005\r\nhello\r\n0\r\n\r\n",
        taken: 17,
        ..INVALID
    },
    Case {
        limit: u64::MAX,
        body: b"fFfFfFfFfFfFfFfF\r",
        outcome: Err(Code::IncompleteBody),
        taken: 17,
        ..INVALID
    },
    Case {
        limit: u64::MAX,
        body: b"1\r\na\r\nffffffffffffffff;",
        data: b"a",
        outcome: Err(Code::EntityTooLarge),
        taken: 23,
    },
    // No data.
    Case {
        limit: 0,
        body: b"00\r\n\r\n",
        data: b"",
        taken: 6,
        ..HELLO
    },
    // A trailer field.
    Case {
        body: b"0\r\nx-amz-checksum-crc32: AAAAAA==\r\n\r\n",
        taken: 4,
        ..INVALID
    },
    // No digit, a bare line feed, and blanks that no extension follows.
    Case {
        body: b"\r\n",
        taken: 1,
        ..INVALID
    },
    Case {
        body: b";a\r\n",
        taken: 1,
        ..INVALID
    },
    Case {
        body: b"5\nhello",
        taken: 2,
        ..INVALID
    },
    Case {
        body: b"5 \r\nhello",
        taken: 3,
        ..INVALID
    },
    // Control characters in an extension.
    Case {
        body: b"5;a=\"\r\"\r\nhello",
        taken: 7,
        ..INVALID
    },
    Case {
        body: b"5;a\nhello",
        taken: 4,
        ..INVALID
    },
    Case {
        body: b"5;\x7F\r\nhello",
        taken: 3,
        ..INVALID
    },
    // A byte too many in the data.
    Case {
        body: b"5\r\nhello!\r\n",
        data: b"hello",
        taken: 9,
        ..INVALID
    },
    // The input ends too early.
    Case {
        body: b"5\r\nhello\r\n0\r\n\r",
        outcome: Err(Code::IncompleteBody),
        taken: 14,
        ..HELLO
    },
    Case {
        body: b"",
        outcome: Err(Code::IncompleteBody),
        taken: 0,
        ..INVALID
    },
];

// Feeds a body in pieces of so many bytes, and ends the input.
fn feed_all(
    decoder: &mut TransferDecoder,
    body: &[u8],
    size: usize,
    data: &mut Data,
) -> Result<(), Code> {
    for piece in body.chunks(size.max(1)) {
        decoder.feed(piece, data)?;
    }
    decoder.end()
}

// Whether that comes of a body in pieces of so many bytes.
fn is_so(alloc: Global, case: &Case, size: usize) -> bool {
    let mut decoder = TransferDecoder::new(case.limit);
    let mut data = Data {
        bytes: Vec::new(alloc),
    };
    let outcome = feed_all(&mut decoder, case.body, size, &mut data);
    outcome == case.outcome
        && decoder.is_whole() == case.outcome.is_ok()
        && decoder.taken() == case.taken
        && data.bytes.as_slice() == case.data
}

static PIECES: [usize; 4] = [1, 2, 5, 100];

// Whether it comes of it in pieces of each size.
fn is_so_in_pieces(alloc: Global, case: &Case) -> bool {
    for size in &PIECES {
        if !is_so(alloc, case, *size) {
            return false;
        }
    }
    true
}

#[test]
fn bodies(rt: HostRuntime) {
    for case in &CASES {
        assert!(rt; is_so_in_pieces(rt.alloc(), case));
    }
}
