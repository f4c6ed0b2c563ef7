//! Two connections at one shared store, each in a thread of its own: while one is inside a body, the other is answered.
ghost use Rattle.std.specs.Prelude.{◌≡◌};
ghost use Rattle.s3_devices.specs.Recorded.{no_traffic};

use crate::workers::served::{HEAD, Sent, ending_over};
use crate::workers::shared_store_handle::SharedStoreHandle;
use crate::workers::stream::{Manner, MemoryStream, PLAIN};
use s3_config::Config;
use s3_devices::{Recorded, WriteParts};
use s3_driver::Ending;
use s3_journal::{Ground, Roster, SharedStore};
use s3_records::MapRecords;
use std::alloc::Global;
use std::io::{Read, Write};
use std::mem::drop;
use std::sync::Wait;
use std::sync::atomic::{AtomicBool, AtomicU64, Ordering};
use std::time::{Clock, Duration};
use std::{io, thread};

/// The connection that is held. The other one has the next number.
pub(crate) const HELD: u64 = 0;

// The read of the other one at which it begins.
const FIRST: u64 = 1;

// The read that is held: the one behind the head.
const WITHIN_BODY: u64 = 2;

// How many milliseconds a connection is held at most.
const TURNS: u32 = 10_000;

// The answers to a put of `hello`, as `docs/PROTOCOL.md` says. That of the other is the first command that the store answers.
const HELD_ANSWER: &[u8] = b"HTTP/1.1 100 Continue\r\n\r\n\
    HTTP/1.1 200 OK\r\n\
    Date: Fri, 24 May 2013 00:00:00 GMT\r\n\
    x-amz-request-id: 0000000000000001\r\n\
    ETag: \"5d41402abc4b2a76b9719d911017c592\"\r\n\
    Content-Length: 0\r\n\
    \r\n";

const OTHER_ANSWER: &[u8] = b"HTTP/1.1 100 Continue\r\n\r\n\
    HTTP/1.1 200 OK\r\n\
    Date: Fri, 24 May 2013 00:00:00 GMT\r\n\
    x-amz-request-id: 0000000000000000\r\n\
    ETag: \"5d41402abc4b2a76b9719d911017c592\"\r\n\
    Content-Length: 0\r\n\
    \r\n";

/// How far the two are.
#[derive(Drop)]
pub(crate) struct Marks {
    // Whether the one that is held has come to where it is.
    is_within: AtomicBool,
    // Whether the other one is answered.
    is_answered: AtomicBool,
    // How many waits ended because what was waited for had come.
    met: AtomicU64,
}

impl Marks {
    /// Nothing has come.
    pub(crate) fn new() -> Marks {
        Marks {
            is_within: AtomicBool::new(false),
            is_answered: AtomicBool::new(false),
            met: AtomicU64::new(0),
        }
    }

    /// How many waits ended because what was waited for had come.
    pub(crate) fn met(self) -> u64 {
        self.met.into_inner()
    }

    // Waits until this has come, or the turns have run out.
    fn wait_for<R: Clock>(&self, rt: &R, mark: &AtomicBool) {
        for _ in 0..TURNS {
            if mark.load(Ordering::SeqCst) {
                self.met.fetch_add(1, Ordering::SeqCst);
                return;
            }
            thread::sleep(rt, Duration::from_millis(1));
        }
    }

    /// Tells that the one is held, and waits until the other is answered.
    pub(crate) fn hold<R: Clock>(&self, rt: &R) {
        self.is_within.store(true, Ordering::SeqCst);
        self.wait_for(rt, &self.is_answered);
    }

    /// Waits until the one is held.
    pub(crate) fn wait_until_held<R: Clock>(&self, rt: &R) {
        self.wait_for(rt, &self.is_within);
    }

    /// Tells that the other is answered.
    pub(crate) fn tell_answered(&self) {
        self.is_answered.store(true, Ordering::SeqCst);
    }
}

/// A stream that is held at one of its reads or writes until the other connection is answered; or that of the other, which begins
/// when the one is held, and tells when it is answered. What is counted from 1 is 0 where it never comes.
#[derive(Drop)]
pub(crate) struct Meeting<'a, R: Clock> {
    pub(crate) stream: MemoryStream<'a>,
    pub(crate) rt: &'a R,
    pub(crate) marks: &'a Marks,
    pub(crate) connection: u64,
    pub(crate) held_read: u64,
    pub(crate) held_write: u64,
    reads: u64,
    writes: u64,
}

impl<'a, R: Clock> Meeting<'a, R> {
    /// The stream of the connection of this number.
    pub(crate) fn new(
        rt: &'a R,
        marks: &'a Marks,
        connection: u64,
        stream: MemoryStream<'a>,
    ) -> Meeting<'a, R> {
        Meeting {
            stream,
            rt,
            marks,
            connection,
            held_read: 0,
            held_write: 0,
            reads: 0,
            writes: 0,
        }
    }

    // Waits where this read has to.
    fn meets(&self) {
        if self.connection == HELD {
            if self.reads == self.held_read {
                self.marks.hold(self.rt);
            }
        } else if self.reads == FIRST {
            self.marks.wait_until_held(self.rt);
        } else if self.stream.is_over() {
            self.marks.tell_answered();
        }
    }
}

impl<R: Clock> Read for Meeting<'_, R> {
    fn read(&mut self, buf: &mut [u8]) -> io::Result<usize> {
        self.reads = self.reads.wrapping_add(1);
        self.meets();
        self.stream.read(buf)
    }
}

impl<R: Clock> Write for Meeting<'_, R> {
    fn write(&mut self, buf: &[u8]) -> io::Result<usize> {
        self.writes = self.writes.wrapping_add(1);
        if self.writes == self.held_write {
            self.marks.hold(self.rt);
        }
        self.stream.write(buf)
    }

    fn flush(&mut self) -> io::Result<()> {
        Ok(())
    }
}

impl<R: Clock> WriteParts for Meeting<'_, R> {}

// Whether a connection over this device, which has a seat of this roster, is closed.
fn is_closed<J: Ground, R: Wait + Clock>(
    rt: &R,
    alloc: Global,
    shared: &SharedStore<J, MapRecords>,
    roster: &mut Roster<J, ()>,
    config: &Config,
    device: &mut Recorded<Meeting<'_, R>>,
) -> bool
    requires fresh { device.old.traffic ≡ no_traffic }
{
    let Ok(seat) = roster.seat() else {
        return false;
    };
    let mut handle = SharedStoreHandle::new(rt, shared, seat);
    let ending = ending_over(rt, alloc, config, &mut handle, device);
    handle.leave(roster);
    ending == Some(Ending::Closed)
}

/// Whether a connection over this stream, which has a seat of this roster, is closed and has written just what is wanted.
pub(crate) fn is_answered<J: Ground, R: Wait + Clock>(
    rt: &R,
    alloc: Global,
    shared: &SharedStore<J, MapRecords>,
    roster: &mut Roster<J, ()>,
    config: &Config,
    meeting: Meeting<'_, R>,
    wanted: &[u8],
) -> bool {
    match Recorded::new(meeting) {
        Some(mut device) => {
            let is_closed = is_closed(rt, alloc, shared, roster, config, &mut device);
            let has_written = device.stream().stream.output.as_slice() == wanted;
            drop(device);
            is_closed && has_written
        }
        None => false,
    }
}

// The answer that a connection has to have, and how its stream gives: the first read of the one that is held ends with its head.
fn wanted_of(connection: u64) -> (&'static [u8], Manner) {
    if connection == HELD {
        (
            HELD_ANSWER,
            Manner {
                first: HEAD,
                ..PLAIN
            },
        )
    } else {
        (OTHER_ANSWER, PLAIN)
    }
}

/// Whether the connection of this number is answered as it has to be: each puts `hello`, and one is held inside its body.
pub(crate) fn overlaps<J: Ground, R: Wait + Clock>(
    rt: &R,
    alloc: Global,
    shared: &SharedStore<J, MapRecords>,
    roster: &mut Roster<J, ()>,
    config: &Config,
    marks: &Marks,
    connection: u64,
) -> bool {
    let (answer, manner) = wanted_of(connection);
    let put = Sent::PutAndGet.bytes().get(..HEAD + 5).unwrap_or(b"");
    let stream = MemoryStream::new(put, Vec::new(alloc), manner);
    let mut meeting = Meeting::new(rt, marks, connection, stream);
    meeting.held_read = WITHIN_BODY;
    is_answered(rt, alloc, shared, roster, config, meeting, answer)
}
