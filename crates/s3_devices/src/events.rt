//! What a device did, as its history tells it.

ghost use Rattle.std.specs.Prelude.{take};
ghost use Rattle.std.specs.Io.Slices.{io_slices_bytes};
ghost use Rattle.s3_devices.specs.declared.events.DeviceEvent.TheVariants as events;

use s3_history::Describes;
use std::collections::LinkedList;
use std::io::IoSlice;

/// What a device did. No value of it is made: a history consists of them, which stands in the proofs alone.
pub enum DeviceEvent {
    /// It gave these bytes.
    Gave(LinkedList<u8>),
    /// It said that no more come.
    Ended,
    /// It took these bytes.
    Took(LinkedList<u8>),
    /// It was told that it takes no more.
    Shut,
    /// A read failed.
    ReadFailed,
    /// A write failed.
    WriteFailed,
    /// A read would have had to wait.
    ReadLater,
    /// A write would have had to wait.
    WriteLater,
}

// Some bytes that came.
#[derive(Clone, Copy)]
pub(crate) struct Piece<'a> {
    pub(crate) bytes: &'a [u8],
}

// Some of the bytes in front of these parts.
#[derive(Clone, Copy)]
pub(crate) struct Front<'a> {
    pub(crate) parts: &'a [IoSlice<'a>],
    pub(crate) count: usize,
}

// These bytes came.
pub(crate) struct AsGiven;

impl<'a> Describes<Piece<'a>, DeviceEvent> for AsGiven {
    ghost entry = { λ piece. events.Gave piece.bytes.now };
}

// These bytes went.
pub(crate) struct AsTaken;

impl<'a> Describes<Front<'a>, DeviceEvent> for AsTaken {
    ghost entry = { λ front. events.Took (take front.count (io_slices_bytes front.parts.now)) };
}

// The end came.
pub(crate) struct AsEnd;

impl Describes<(), DeviceEvent> for AsEnd {
    ghost entry = { λ nothing. events.Ended };
}

// It was told that it takes no more.
pub(crate) struct AsShut;

impl Describes<(), DeviceEvent> for AsShut {
    ghost entry = { λ nothing. events.Shut };
}

// A read failed.
pub(crate) struct AsFailedRead;

impl Describes<(), DeviceEvent> for AsFailedRead {
    ghost entry = { λ nothing. events.ReadFailed };
}

// A write failed.
pub(crate) struct AsFailedWrite;

impl Describes<(), DeviceEvent> for AsFailedWrite {
    ghost entry = { λ nothing. events.WriteFailed };
}

// A read would have had to wait.
pub(crate) struct AsLateRead;

impl Describes<(), DeviceEvent> for AsLateRead {
    ghost entry = { λ nothing. events.ReadLater };
}

// A write would have had to wait.
pub(crate) struct AsLateWrite;

impl Describes<(), DeviceEvent> for AsLateWrite {
    ghost entry = { λ nothing. events.WriteLater };
}
