//! Bodies in signed chunks, written and read: the published example of a put in chunks (Amazon S3 API Reference,
//! "Signature calculations for the authorization header: transferring payload in multiple chunks"), and small ones with each
//! fault at its place. The places are counted by hand: a chunk's first line has 83 bytes behind its size.
ghost use Rattle.std.specs.Prelude.{[]};

use crate::signing::blocks::are_kept;
use crate::signing::bodies::is_outcome;
use crate::signing::server::{MOMENT, REGION, STAMP, verdict};
use crate::texts::{add, is_same, joined};
use s3_aws_chunked::{CHUNK_MAX, ChunkReader, Sink, write_chunks, written_length};
use s3_calendar::Stamp;
use s3_http_heads::Head;
use s3_signing::{ChunkChain, Verified};
use s3_terms::{Code, NoMemory};
use s3_test_servers::SECRET;
use sha2::{Digest, Sha256};
use std::alloc::Global;
use std::mem::drop;

/// The data of a body.
#[derive(Drop)]
struct Data {
    bytes: Vec<u8>,
}

impl Sink for Data {
    ghost taken = { λ s. s.bytes.items };

    fn take(&mut self, data: &[u8]) -> Result<(), NoMemory> {
        self.bytes.extend_from_slice(data)?;
        Ok(())
    }
}

// What has no room.
#[derive(Drop)]
struct Full;

impl Sink for Full {
    ghost taken = { λ _. [] };

    fn take(&mut self, _data: &[u8]) -> Result<(), NoMemory> {
        Err(NoMemory)
    }
}

// The published head, verified.
fn verified(alloc: Global) -> Result<Verified, Code> {
    let Some(text) = joined(alloc, "PUBLISHED") else {
        return Err(Code::InternalError);
    };
    match Head::read(alloc, &text) {
        Ok(head) => verdict(alloc, REGION, &head, MOMENT),
        Err(code) => Err(code),
    }
}

const SEED: [u8; 64] = *b"4f232c4386841ef735655705268965c44a0e4690baa4adea153f7db9fa80a0a9";

/// The body of this data in chunks of so many bytes, signed behind that head.
pub(crate) fn written(alloc: Global, data: &[u8], size: usize) -> Option<Vec<u8>> {
    if size < 1 || size > CHUNK_MAX {
        return None;
    }
    let stamp = Stamp::read(STAMP)?;
    let chain = ChunkChain::from_secret(SECRET, REGION, stamp, SEED);
    write_chunks(alloc, chain, data, size).ok()
}

/// A body behind that head, and what comes of it.
#[derive(Clone, Copy)]
struct Body<'a> {
    bytes: &'a [u8],
    // How many bytes the head says that are sent, and how many of data.
    encoded: u64,
    decoded: u64,
    // The data, where the body is read.
    data: &'a [u8],
    // `read`, or the refusal, and how many bytes are taken.
    wanted: &'a str,
}

// Feeds the bytes in pieces of so many, up to the first refusal: how many are taken.
fn feed(reader: &mut ChunkReader, bytes: &[u8], size: usize, data: &mut Data) -> Result<u64, Code> {
    let mut taken = 0_u64;
    for piece in bytes.chunks(size.max(1)) {
        taken = taken.saturating_add(reader.feed(piece, data)? as u64);
    }
    Ok(taken)
}

// Feeds the bytes, and ends the body.
fn fed(reader: &mut ChunkReader, bytes: &[u8], size: usize, data: &mut Data) -> Result<u64, Code> {
    let taken = feed(reader, bytes, size, data)?;
    reader.end()?;
    Ok(taken)
}

// Whether that comes of the body where it was fed so, so many bytes were taken, and it has this data.
fn comes(fed: Result<u64, Code>, taken: u64, data: &[u8], body: &Body) -> bool {
    match fed {
        Ok(count) => {
            count == taken && is_outcome(b"read", taken, body.wanted) && is_same(data, body.data)
        }
        Err(code) => is_outcome(code.name().as_bytes(), taken, body.wanted),
    }
}

// Whether that comes of the body, in pieces of so many bytes.
fn is_so(alloc: Global, verified: &Verified, body: &Body, size: usize) -> bool {
    let mut reader = ChunkReader::new(verified, body.encoded, body.decoded);
    let mut data = Data {
        bytes: Vec::new(alloc),
    };
    let fed = fed(&mut reader, body.bytes, size, &mut data);
    let is_right = comes(fed, reader.taken(), &data.bytes, body);
    drop(reader);
    drop(data);
    is_right
}

static PIECES: [usize; 9] = [1, 2, 3, 5, 7, 100, 1_000, 4_096, 66_824];

// Whether it comes of it in pieces of each size.
fn is_so_in_pieces(alloc: Global, verified: &Verified, body: &Body) -> bool {
    for size in &PIECES {
        if !is_so(alloc, verified, body, *size) {
            return false;
        }
    }
    true
}

// The published body; the same with a byte of the second chunk's data changed, without the empty chunk, and cut after one
// byte less.
static PUBLISHED: [(&str, &str); 4] = [
    ("FIRST+{a*65536}+SECOND+{a*1024}+LAST", "read 66824"),
    (
        "FIRST+{a*65536}+SECOND+{a*288}b{a*735}+LAST",
        "SignatureDoesNotMatch 66738",
    ),
    (
        "FIRST+{a*65536}+SECOND+{a*1024}+\r\n",
        "IncompleteBody 66738",
    ),
    (
        "RECUT_FIRST+{a*65535}+RECUT_SECOND+{a*1025}+LAST",
        "SignatureDoesNotMatch 65625",
    ),
];

// Whether that comes of a body of these letters, or of what is made of it.
fn is_published(alloc: Global, verified: &Verified, letters: &[u8], row: &(&str, &str)) -> bool {
    match joined(alloc, row.0) {
        Some(bytes) => {
            let body = Body {
                bytes: &bytes,
                encoded: 66_824,
                decoded: 66_560,
                data: letters,
                wanted: row.1,
            };
            is_so_in_pieces(alloc, verified, &body)
        }
        None => false,
    }
}

// Whether the published body is written for these letters, in chunks of 65,536 bytes.
fn is_written(alloc: Global, letters: &[u8]) -> bool {
    match written(alloc, letters, 65_536) {
        Some(text) => joined(alloc, PUBLISHED[0].0) == Some(text),
        None => false,
    }
}

// The first of these rows that doesn't hold.
fn first_published(alloc: Global, verified: &Verified) -> Option<&'static str> {
    let Some(letters) = joined(alloc, "{a*66560}") else {
        return Some("letters");
    };
    for row in &PUBLISHED {
        if !is_published(alloc, verified, &letters, row) {
            return Some(row.0);
        }
    }
    if is_written(alloc, &letters) {
        None
    } else {
        Some("the writing of letters")
    }
}

// What is made of `hello` in chunks of at most 3 bytes, which is 89 + 88 + 86 bytes: its first bytes, others, and those of
// it from the byte `from` to the byte `to`; and what comes of that.
struct Case {
    kept: usize,
    put: &'static [u8],
    from: usize,
    to: usize,
    encoded: u64,
    decoded: u64,
    wanted: &'static str,
}

const WHOLE: Case = Case {
    kept: 0,
    put: b"",
    from: 0,
    to: 263,
    encoded: 263,
    decoded: 5,
    wanted: "read 263",
};

static CASES: [Case; 21] = [
    WHOLE,
    // A message behind it, which is left.
    Case {
        kept: 263,
        put: b"GET / HTTP/1.1\r\n",
        from: 263,
        ..WHOLE
    },
    // Its data is more than it says, at the second first line.
    Case {
        decoded: 4,
        wanted: "InvalidRequest 173",
        ..WHOLE
    },
    // And less.
    Case {
        decoded: 6,
        wanted: "IncompleteBody 263",
        ..WHOLE
    },
    // A byte of Content-Length is left, whether it comes or not.
    Case {
        encoded: 264,
        wanted: "InvalidRequest 263",
        ..WHOLE
    },
    // Content-Length ends one byte earlier.
    Case {
        encoded: 262,
        wanted: "IncompleteBody 262",
        ..WHOLE
    },
    // And at once.
    Case {
        encoded: 0,
        wanted: "IncompleteBody 0",
        ..WHOLE
    },
    // What begins no size.
    Case {
        put: b"g",
        from: 1,
        wanted: "InvalidRequest 1",
        ..WHOLE
    },
    Case {
        put: b";",
        from: 1,
        wanted: "InvalidRequest 1",
        ..WHOLE
    },
    // Nine digits, and eight.
    Case {
        put: b"000000003",
        from: 1,
        encoded: 271,
        wanted: "InvalidRequest 9",
        ..WHOLE
    },
    Case {
        put: b"00000003",
        from: 1,
        encoded: 270,
        wanted: "read 270",
        ..WHOLE
    },
    // The end after some bytes.
    Case {
        to: 0,
        wanted: "IncompleteBody 0",
        ..WHOLE
    },
    Case {
        to: 100,
        wanted: "IncompleteBody 100",
        ..WHOLE
    },
    Case {
        to: 262,
        wanted: "IncompleteBody 262",
        ..WHOLE
    },
    // The first chunk is left out: the second one is signed over its signature.
    Case {
        from: 89,
        encoded: 174,
        decoded: 2,
        wanted: "SignatureDoesNotMatch 88",
        ..WHOLE
    },
    // A first line that ends in LF alone, one with another byte before its signature, one with a capital digit
    // in its signature, and data that is followed by something else than the end of a line.
    Case {
        kept: 82,
        put: b"\n",
        from: 83,
        wanted: "InvalidRequest 83",
        ..WHOLE
    },
    Case {
        kept: 1,
        put: b",",
        from: 2,
        wanted: "InvalidRequest 2",
        ..WHOLE
    },
    Case {
        kept: 17,
        put: b"-",
        from: 18,
        wanted: "InvalidRequest 18",
        ..WHOLE
    },
    Case {
        kept: 40,
        put: b"A",
        from: 41,
        wanted: "InvalidRequest 41",
        ..WHOLE
    },
    Case {
        kept: 87,
        put: b"x",
        from: 88,
        wanted: "InvalidRequest 88",
        ..WHOLE
    },
    Case {
        kept: 88,
        put: b"x",
        from: 89,
        wanted: "InvalidRequest 89",
        ..WHOLE
    },
];

// The bytes of a case; `None` says that it isn't well written.
fn bytes_of(alloc: Global, hello: &[u8], case: &Case) -> Option<Vec<u8>> {
    let front = hello.get(..case.kept)?;
    let behind = hello.get(case.from..case.to)?;
    let mut bytes = Vec::new(alloc);
    add(&mut bytes, front);
    add(&mut bytes, case.put);
    add(&mut bytes, behind);
    Some(bytes)
}

fn is_case(alloc: Global, verified: &Verified, hello: &[u8], case: &Case) -> bool {
    match bytes_of(alloc, hello, case) {
        Some(bytes) => {
            let body = Body {
                bytes: &bytes,
                encoded: case.encoded,
                decoded: case.decoded,
                data: b"hello",
                wanted: case.wanted,
            };
            is_so_in_pieces(alloc, verified, &body)
        }
        None => false,
    }
}

// What should come of the first case that doesn't hold.
fn first_case(alloc: Global, verified: &Verified, hello: &[u8]) -> Option<&'static str> {
    for case in &CASES {
        if !is_case(alloc, verified, hello, case) {
            return Some(case.wanted);
        }
    }
    None
}

// Whether these bytes are refused as the body of `hello`.
fn is_refused(alloc: Global, verified: &Verified, bytes: &[u8]) -> bool {
    let mut reader = ChunkReader::new(verified, 263, 5);
    let mut data = Data {
        bytes: Vec::new(alloc),
    };
    fed(&mut reader, bytes, 5, &mut data).is_err()
}

// The same of a body that is there.
fn is_made_and_refused(alloc: Global, verified: &Verified, bytes: Option<Vec<u8>>) -> bool {
    match bytes {
        Some(bytes) => is_refused(alloc, verified, &bytes),
        None => false,
    }
}

// The body with the lowest bit of the byte at a place flipped.
fn flipped(alloc: Global, hello: &[u8], at: usize) -> Option<Vec<u8>> {
    let front = hello.get(..at)?;
    let (byte, behind) = hello.get(at..)?.split_first()?;
    [front, &[*byte ^ 1], behind].concat(alloc).ok()
}

// Whether the body is refused with the lowest bit of any one byte flipped.
fn is_each_byte_read(alloc: Global, verified: &Verified, hello: &[u8]) -> bool {
    for at in 0..263 {
        if !is_made_and_refused(alloc, verified, flipped(alloc, hello, at)) {
            return false;
        }
    }
    true
}

const NO_ROOM: Option<Code> = Some(Code::InternalError);

// Whether two pieces and the end are refused, where the data finds no room: that is told for ever.
fn is_refused_thrice(verified: &Verified, body: &[u8]) -> bool {
    let mut reader = ChunkReader::new(verified, 263, 5);
    let first = reader.feed(body, &mut Full).err();
    let second = reader.feed(body, &mut Full).err();
    first == NO_ROOM && second == NO_ROOM && reader.end().err() == NO_ROOM
}

// The first thing that is wrong with the body of `hello`.
fn first_of_hello(alloc: Global, verified: &Verified, hello: &[u8]) -> Option<&'static str> {
    if !is_refused_thrice(verified, hello) {
        return Some("no room");
    }
    if !is_each_byte_read(alloc, verified, hello) {
        return Some("a flipped byte");
    }
    first_case(alloc, verified, hello)
}

// The same of a body that is there.
fn first_of_written(
    alloc: Global,
    verified: &Verified,
    hello: Option<Vec<u8>>,
) -> Option<&'static str> {
    match hello {
        Some(hello) => first_of_hello(alloc, verified, &hello),
        None => Some("the writing of hello"),
    }
}

// Whether the empty chunk alone is accepted.
fn is_empty_read(alloc: Global, verified: &Verified) -> bool {
    match written(alloc, b"", 3) {
        Some(bytes) => {
            let body = Body {
                bytes: &bytes,
                encoded: 86,
                decoded: 0,
                data: b"",
                wanted: "read 86",
            };
            is_so_in_pieces(alloc, verified, &body)
        }
        None => false,
    }
}

// The first of all that doesn't hold behind the published head.
fn first_behind(alloc: Global, verified: &Verified) -> Option<&'static str> {
    if !is_empty_read(alloc, verified) {
        return Some("the empty chunk");
    }
    if !are_kept(alloc, verified) {
        return Some("bodies around the ends of blocks");
    }
    let other = first_published(alloc, verified);
    if other.is_some() {
        return other;
    }
    first_of_written(alloc, verified, written(alloc, b"hello", 3))
}

// A signature of a last chunk, and that of the trailer behind it, as the tests of the library minio-go have them after an
// example of the Amazon S3 API Reference ("Signature calculations for trailing headers included in the payload").
const LAST: [u8; 64] = *b"e05ab64fe1dfdbf0b5870abbaabdb063c371d4e96f2767e6934d90529c5ae850";

const TRAILER: [u8; 64] = *b"41e14ac611e27a8bb3d66c3bad6856f209297767d5dd4fc87d8fa9e422e03faf";

// Whether the trailer has that signature, and not the one of the last chunk.
fn is_trailer_signed() -> bool {
    let Some(stamp) = Stamp::read(STAMP) else {
        return false;
    };
    let chain = ChunkChain::from_secret(SECRET, REGION, stamp, LAST);
    let hash = Sha256::digest(b"x-amz-checksum-crc32c:wdBDMA==\n");
    chain.is_trailer(hash, &TRAILER) && !chain.is_trailer(hash, &LAST)
}

// The lengths of the published body, of `hello` in chunks of 3 bytes, and of the empty chunk alone.
fn are_lengths() -> bool {
    written_length(66_560, 65_536) == Some(66_824)
        && written_length(5, 3) == Some(263)
        && written_length(0, 1) == Some(86)
}

/// The first thing that doesn't hold.
pub(crate) fn first_other(alloc: Global) -> Option<&'static str> {
    if !are_lengths() || !is_trailer_signed() {
        return Some("lengths of bodies in chunks, or the signature of a trailer");
    }
    match verified(alloc) {
        Ok(verified) => first_behind(alloc, &verified),
        Err(_) => Some("the published head"),
    }
}
