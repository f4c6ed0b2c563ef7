//! How a connection stands where it waits for bytes, which its limits of time go by, and whether what has come can begin a head.
use crate::workers::served::{HEAD, Sent, handle, went};
use crate::workers::stream::{Manner, MemoryStream, PLAIN};
use s3_config::Config;
use s3_devices::Recorded;
use s3_driver::{Nobody, RecordedStoreHandle, State};
use s3_records::MapRecords;
use std::alloc::Global;
use std::mem::drop;

// What comes: of a put and the get behind it, so many bytes; or these.
enum Came {
    Both(usize),
    These(&'static [u8]),
}

// What comes before a connection waits, for what it waits then, where that is tried, and whether no head begins so. Of the put and
// the get come nothing, all but the last byte of a head, the whole head, the first of a body, the last of that, and the first of the
// next head. And alone nothing, the hello of a TLS client, that of an old one, a zero, the first letters of two methods, and the two
// bytes of an empty line.
static ROWS: [(Came, Option<State>, bool); 14] = [
    (Came::Both(0), Some(State::Message), false),
    (Came::Both(HEAD - 1), Some(State::Head), false),
    (Came::Both(HEAD), Some(State::Body), false),
    (Came::Both(HEAD + 1), Some(State::Body), false),
    (Came::Both(HEAD + 5), Some(State::Message), false),
    (Came::Both(HEAD + 6), Some(State::Head), false),
    (Came::These(b""), None, false),
    (Came::These(b"\x16\x03\x01\x02\x00\x01"), None, true),
    (Came::These(b"\x80"), None, true),
    (Came::These(b"\0"), None, true),
    (Came::These(b"G"), None, false),
    (Came::These(b"P"), None, false),
    (Came::These(b"\r"), None, false),
    (Came::These(b"\n"), None, false),
];

// How many moves it has, which are more than it makes.
const MOVES: u32 = 100;

// The bytes that are sent, and how many of them come before the connection waits.
fn sent(came: &Came) -> (&'static [u8], usize) {
    match came {
        Came::Both(first) => (Sent::PutAndGet.bytes(), *first),
        Came::These(bytes) => (bytes, bytes.len()),
    }
}

// How a connection stands that waits behind so many of these bytes, and whether no head begins so.
fn waits(
    alloc: Global,
    config: &Config,
    handle: &mut RecordedStoreHandle<MapRecords>,
    bytes: &[u8],
    first: usize,
) -> Option<(State, bool)> {
    let manner = Manner { first, ..PLAIN };
    let mut device = Recorded::new(MemoryStream::new(bytes, Vec::new(alloc), manner))?;
    let stands = went(alloc, config, handle, &mut Nobody, &mut device, MOVES);
    drop(device);
    stands
}

// Whether it stands as a row says.
fn is_so(stands: Option<(State, bool)>, wanted: Option<State>, begins_no_head: bool) -> bool {
    match stands {
        Some((state, begins)) => begins == begins_no_head && wanted.unwrap_or(state) == state,
        None => false,
    }
}

// Whether each row is as it says.
fn are_right(alloc: Global, config: &Config, handle: &mut RecordedStoreHandle<MapRecords>) -> bool {
    for (came, wanted, begins_no_head) in &ROWS {
        let (bytes, first) = sent(came);
        let stands = waits(alloc, config, handle, bytes, first);
        if !is_so(stands, *wanted, *begins_no_head) {
            return false;
        }
    }
    true
}

/// Whether a connection tells rightly what it waits for, and whether what has come begins no head.
pub(crate) fn waits_are_told(alloc: Global, config: &Config) -> bool {
    match handle(alloc, config) {
        Some(mut handle) => {
            let are_told = are_right(alloc, config, &mut handle);
            drop(handle);
            are_told
        }
        None => false,
    }
}
