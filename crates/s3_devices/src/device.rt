//! The other end of a connection, as a worker sees it.

ghost use Rattle.std.specs.Prelude.{◌≡◌, ◌≢◌, ◌<◌, true, [], length};
ghost use Rattle.std.specs.Io.Slices.{io_slices_bytes};
ghost use Rattle.s3_devices.specs.Device.{HasGiven, HasTaken, Reads, Traffic, Writes, with_shut};

use std::io::IoSlice;

/// What came of a read.
#[derive(Clone, Copy)]
pub enum Reading {
    /// So many bytes, at least one, stand at the front of the buffer.
    Bytes(usize),
    /// No more bytes come.
    End,
    /// Nothing has come: the read would have to wait.
    Later,
    /// The device failed.
    Failed,
}

/// What came of a write.
#[derive(Clone, Copy)]
pub enum Writing {
    /// So many bytes in front, at least one, were taken.
    Took(usize),
    /// There is no room: the write would have to wait.
    Later,
    /// The device failed, or took nothing.
    Failed,
}

/// The other end of a connection: bytes are read from it and written to it.
///
/// Contracts see all that it gave and took; and what it has left to give and holds, where its stream tells that, so that it loses and
/// gains just what it is said to give and take. A real device knows that too without keeping it: `Recorded` is one over any
/// reader and writer.
pub trait Device {
    ghost use Rattle.std.specs.Prelude.{ℕ, List, Option};

    ghost traffic: { Self → Traffic };

    // What it has left to give, and what it holds of what it took, where that is told.
    ghost remaining: { Self → Option (List ℕ) };

    ghost contents: { Self → Option (List ℕ) };

    /// Reads what has come, as far as the buffer has room.
    fn read(&mut self, buffer: &mut [u8]) -> Reading
        requires room { 0 < length buffer.old }
        ensures reads { Reads result (traffic self.old) (traffic self.new) buffer.new }
        ensures told { HasGiven result (remaining self.old) (remaining self.new) buffer.new };

    /// Writes some of the bytes of these parts, which stand one behind another: those in front.
    fn write(&mut self, parts: &[IoSlice<'_>]) -> Writing
        requires some { io_slices_bytes parts.now ≢ [] }
        ensures writes { Writes result (traffic self.old) (traffic self.new) (io_slices_bytes parts.now) }
        ensures told { HasTaken result (contents self.old) (contents self.new) (io_slices_bytes parts.now) };

    /// Waits until it can be read. A device that never answers `Later` needs none; one that does, and is served by `serve` of
    /// `s3_driver`, has to wait here, or it is asked again and again.
    fn wait_for_input(&mut self)
        ensures { traffic self.new ≡ traffic self.old }
    {}

    /// Waits until it has room, likewise.
    fn wait_for_room(&mut self)
        ensures { traffic self.new ≡ traffic self.old }
    {}
}

/// A device with two directions, of which one is closed before the other, as a socket has them.
///
/// What comes after it was told that it takes no more can be dropped: nobody answers that.
pub trait Stream: Device {
    /// Tells it that it takes no more, and answers whether it could be told.
    fn shut(&mut self) -> bool
        ensures { Self.Device.traffic self.new ≡ with_shut (Self.Device.traffic self.old) };

    /// Drops what has come, as far as the buffer has room, and answers what that was. The traffic tells nothing of it.
    fn drop_input(&mut self, buffer: &mut [u8]) -> Reading
        requires shut { (Self.Device.traffic self.old).is_shut ≡ true }
        requires room { 0 < length buffer.old }
        ensures { Self.Device.traffic self.new ≡ Self.Device.traffic self.old };
}
