//! Two connections that share a recorded store in one thread, whose messages come in turns byte by byte.
use crate::workers::answers::got;
use crate::workers::served::{Sent, go_on, handle};
use crate::workers::stream::{Manner, MemoryStream, PLAIN};
use s3_calendar::Moment;
use s3_config::Config;
use s3_devices::Recorded;
use s3_driver::{Driver, Nobody, RecordedStoreHandle};
use s3_history::Recorder;
use s3_records::MapRecords;
use std::alloc::Global;
use std::mem::drop;

// A stream that gives and takes one byte at a time.
const BYTE_BY_BYTE: Manner = Manner { most: 1, ..PLAIN };

// How many moves the two have at most.
const MOVES: u32 = 10_000;

/// What the put of `hello` and the get of it are answered beside the other connection, whose put is the second command, and
/// whose get is the fourth.
pub(crate) const FIRST: &str = got!(
    "HTTP/1.1 100 Continue\r\n\r\n\
    HTTP/1.1 200 OK\r\n\
    Date: Fri, 24 May 2013 00:00:00 GMT\r\n\
    x-amz-request-id: 0000000000000000\r\n\
    ETag: \"5d41402abc4b2a76b9719d911017c592\"\r\n\
    Content-Length: 0\r\n\
    \r\n",
    2,
    "5d41402abc4b2a76b9719d911017c592",
    5,
    "hello"
);

/// The same of the put in chunks and its get.
pub(crate) const SECOND: &str = got!(
    "HTTP/1.1 200 OK\r\n\
    Date: Fri, 24 May 2013 00:00:00 GMT\r\n\
    x-amz-request-id: 0000000000000001\r\n\
    ETag: \"5d41402abc4b2a76b9719d911017c592\"\r\n\
    Content-Length: 0\r\n\
    \r\n",
    3,
    "5d41402abc4b2a76b9719d911017c592",
    5,
    "hello"
);

// A connection with its number, its stream, and what it has to write.
#[derive(Drop)]
struct Served {
    number: u64,
    driver: Driver,
    moments: Recorder<Moment>,
    device: Recorded<MemoryStream<'static>>,
    wanted: &'static [u8],
}

// Adds a connection that sends this, unless there is no memory for it.
fn connect(alloc: Global, all: &mut Vec<Served>, number: u64, sent: Sent, wanted: &'static [u8]) {
    let stream = MemoryStream::new(sent.bytes(), Vec::new(alloc), BYTE_BY_BYTE);
    if let (Some(device), Some(moments)) = (Recorded::new(stream), Recorder::new()) {
        let driver = Driver::new(alloc);
        drop(all.push(Served {
            number,
            driver,
            moments,
            device,
            wanted,
        }));
    }
}

// Has them move in turns, until long after all have ended.
fn serve_all(
    alloc: Global,
    config: &Config,
    handle: &mut RecordedStoreHandle<MapRecords>,
    all: &mut [Served],
) {
    for _ in 0..MOVES {
        for served in &mut *all {
            handle.seat = served.number;
            let (moments, device) = (&mut served.moments, &mut served.device);
            go_on(
                alloc,
                config,
                handle,
                &mut served.driver,
                moments,
                &mut Nobody,
                device,
                1,
            );
        }
    }
}

// Whether both have written what they have to.
fn have_written(all: &[Served]) -> bool {
    for served in all {
        if served.device.stream().output.as_slice() != served.wanted {
            return false;
        }
    }
    all.len() == 2
}

// Whether the two are answered so by this recorded store.
fn serves_both(
    alloc: Global,
    config: &Config,
    handle: &mut RecordedStoreHandle<MapRecords>,
) -> bool {
    let mut all = Vec::new(alloc);
    connect(alloc, &mut all, 1, Sent::PutAndGet, FIRST.as_bytes());
    connect(alloc, &mut all, 2, Sent::ChunksAndGet, SECOND.as_bytes());
    serve_all(alloc, config, handle, &mut all);
    let have_written = have_written(&all);
    drop(all);
    have_written
}

/// Whether two connections are answered so by a new recorded store.
pub(crate) fn two_take_turns(alloc: Global, config: &Config) -> bool {
    match handle(alloc, config) {
        Some(mut handle) => {
            let are_served = serves_both(alloc, config, &mut handle);
            drop(handle);
            are_served
        }
        None => false,
    }
}
