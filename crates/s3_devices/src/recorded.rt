//! A device over any reader and writer.

ghost use Rattle.std.specs.Prelude.{◌≡◌, ◌≢◌, ◌<◌, ℕ, [], length, IfSome};
ghost use Rattle.std.specs.Io.Slices.{io_slices_bytes};
ghost use Rattle.s3_devices.specs.Device.{HasGiven, HasTaken, Reads, Writes, with_shut};
ghost use Rattle.s3_devices.specs.Recorded.{no_traffic, traffic_of, untouched};

use crate::device::{Device, Reading, Stream, Writing};
use crate::events::{
    AsEnd, AsFailedRead, AsFailedWrite, AsGiven, AsLateRead, AsLateWrite, AsShut, AsTaken,
    DeviceEvent, Front, Piece,
};
use crate::parts::WriteParts;
use s3_history::Recorder;
use std::io::{self, ErrorKind, IoSlice, Read};
use std::marker::Model;
use std::snapshot::Snapshot;

/// A device over a stream that is a reader and a writer. What it gave and took is told by a history that stands in the proofs
/// alone: it has a few words beside the stream, whatever goes through it.
///
/// A read of no bytes is the end. A stream that would block, or was interrupted, is asked again later; any other error is a
/// failure, and so is a write that takes nothing.
#[derive(Drop)]
pub struct Recorded<S> {
    stream: S,
    recorder: Recorder<DeviceEvent>,
    name: Snapshot<u64>,
}

impl<S> Model for Recorded<S> {
    ghost use Rattle.s3_devices.specs.Recorded as rules;

    ghost Value = { rules.RecordedStream S };

    ghost view = { λ r. record { traffic = rules.traffic_of r.name.value r.recorder.entries; stream = r.stream } };
}

impl<S> Recorded<S> {
    /// A device over this stream, of which nothing came or went. `None` never comes, though no contract can say so.
    pub fn new(stream: S) -> Option<Recorded<S>>
    where
        S: Drop,
        ensures { IfSome result (λ device. device.traffic ≡ no_traffic) }
    {
        let recorder = Recorder::new()?;
        Some(Recorded::named(stream, recorder, 0))
    }

    /// The same with a name of its own, by which contracts tell it from others. The recorder may have no entry. It can't fail.
    pub fn named(stream: S, recorder: Recorder<DeviceEvent>, name: u64) -> Recorded<S>
        requires none { recorder.entries ≡ [] }
        ensures traffic { result.traffic ≡ untouched name }
    {
        Recorded {
            stream,
            recorder,
            name: Snapshot::of(&name),
        }
    }

    /// The stream.
    pub fn stream(&self) -> &S
        ensures { result.now ≡ self.now.stream }
    {
        &self.stream
    }

    /// The stream, whose history is told no further.
    pub fn into_stream(self) -> S
        ensures { result ≡ self.stream }
    {
        let Recorded {
            stream,
            recorder: _,
            name: _,
        } = self;
        stream
    }
}

impl<S: Read + WriteParts> Device for Recorded<S> {
    ghost traffic = { λ device. device.traffic };

    ghost remaining = { λ device. S.remaining device.stream };

    ghost contents = { λ device. S.contents device.stream };

    fn read(&mut self, buffer: &mut [u8]) -> Reading {
        read_some(&mut self.stream, &mut self.recorder, buffer)
    }

    fn write(&mut self, parts: &[IoSlice<'_>]) -> Writing {
        write_some(&mut self.stream, &mut self.recorder, parts)
    }
}

/// A stream that can be told that nothing more is written to it.
pub trait ShutWrite {
    /// Tells it.
    fn shut_write(&mut self) -> io::Result<()>;
}

impl<S: Read + WriteParts + ShutWrite> Stream for Recorded<S> {
    fn shut(&mut self) -> bool {
        shut_recorded(&mut self.stream, &mut self.recorder)
    }

    fn drop_input(&mut self, buffer: &mut [u8]) -> Reading {
        match self.stream.read(buffer) {
            Ok(0) => Reading::End,
            Ok(count) => Reading::Bytes(count),
            Err(e) => match e.kind() {
                ErrorKind::WouldBlock | ErrorKind::Interrupted => Reading::Later,
                _ => Reading::Failed,
            },
        }
    }
}

// Tells the stream that nothing more is written to it, and the recorder that.
fn shut_recorded<S: ShutWrite>(stream: &mut S, recorder: &mut Recorder<DeviceEvent>) -> bool
    ensures { (name : ℕ) → traffic_of name recorder.new.entries ≡ with_shut (traffic_of name recorder.old.entries) }
{
    let is_told = stream.shut_write().is_ok();
    recorder.record::<(), AsShut>(&());
    is_told
}

// Reads what has come, and tells the recorder. Where the stream says what it has left to give, that loses just what is told.
fn read_some<S: Read>(
    stream: &mut S,
    recorder: &mut Recorder<DeviceEvent>,
    buffer: &mut [u8],
) -> Reading
    requires room { 0 < length buffer.old }
    ensures reads { (name : ℕ) → Reads result (traffic_of name recorder.old.entries) (traffic_of name recorder.new.entries) buffer.new }
    ensures told { HasGiven result (S.remaining stream.old) (S.remaining stream.new) buffer.new }
{
    match stream.read(buffer) {
        Ok(0) => {
            recorder.record::<(), AsEnd>(&());
            Reading::End
        }
        Ok(count) => {
            let piece = Piece {
                bytes: &buffer[..count],
            };
            recorder.record::<Piece<'_>, AsGiven>(&piece);
            Reading::Bytes(count)
        }
        Err(e) => match e.kind() {
            ErrorKind::WouldBlock | ErrorKind::Interrupted => {
                recorder.record::<(), AsLateRead>(&());
                Reading::Later
            }
            _ => {
                recorder.record::<(), AsFailedRead>(&());
                Reading::Failed
            }
        },
    }
}

// Writes some of these parts, and tells the recorder. Where the stream says what it holds, that grows by just what is told.
fn write_some<S: WriteParts>(
    stream: &mut S,
    recorder: &mut Recorder<DeviceEvent>,
    parts: &[IoSlice<'_>],
) -> Writing
    requires some { io_slices_bytes parts.now ≢ [] }
    ensures writes { (name : ℕ) → Writes result (traffic_of name recorder.old.entries) (traffic_of name recorder.new.entries) (io_slices_bytes parts.now) }
    ensures told { HasTaken result (S.contents stream.old) (S.contents stream.new) (io_slices_bytes parts.now) }
{
    match stream.write_parts(parts) {
        Ok(0) => {
            recorder.record::<(), AsFailedWrite>(&());
            Writing::Failed
        }
        Ok(count) => {
            let front = Front { parts, count };
            recorder.record::<Front<'_>, AsTaken>(&front);
            Writing::Took(count)
        }
        Err(e) => match e.kind() {
            ErrorKind::WouldBlock | ErrorKind::Interrupted => {
                recorder.record::<(), AsLateWrite>(&());
                Writing::Later
            }
            _ => {
                recorder.record::<(), AsFailedWrite>(&());
                Writing::Failed
            }
        },
    }
}
