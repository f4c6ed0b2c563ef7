//! A stream in memory.
use s3_devices::{ShutWrite, WriteParts};
use std::io;
use std::io::{ErrorKind, Read, Write};

/// How a stream gives and takes. What is counted from 1 is 0 where it never comes.
#[derive(Clone, Copy)]
pub(crate) struct Manner {
    /// How many bytes it gives before it would block once.
    pub(crate) first: usize,
    /// How many bytes it gives or takes at most at a time.
    pub(crate) most: usize,
    /// Whether every second write would block.
    pub(crate) is_slow: bool,
    /// The read that fails.
    pub(crate) failing_read: u64,
    /// The write that fails.
    pub(crate) failing_write: u64,
}

/// That of a stream that gives and takes all at once.
pub(crate) const PLAIN: Manner = Manner {
    first: usize::MAX,
    most: usize::MAX,
    is_slow: false,
    failing_read: 0,
    failing_write: 0,
};

/// A stream over bytes in memory.
#[derive(Drop)]
pub(crate) struct MemoryStream<'a> {
    input: &'a [u8],
    pub(crate) output: Vec<u8>,
    /// Whether it was told that nothing more is written.
    pub(crate) is_shut: bool,
    manner: Manner,
    given: usize,
    has_blocked: bool,
    reads: u64,
    writes: u64,
}

impl<'a> MemoryStream<'a> {
    /// A stream that gives these bytes and then ends.
    pub(crate) fn new(input: &'a [u8], output: Vec<u8>, manner: Manner) -> MemoryStream<'a> {
        MemoryStream {
            input,
            output,
            is_shut: false,
            manner,
            given: 0,
            has_blocked: false,
            reads: 0,
            writes: 0,
        }
    }

    /// Whether it has given all its bytes.
    pub(crate) fn is_over(&self) -> bool {
        self.input.is_empty()
    }

    // How many bytes it gives now: none where it would block.
    fn next_count(&mut self, room: usize) -> usize {
        let most = self.input.len().min(room).min(self.manner.most);
        if self.has_blocked {
            return most;
        }
        let left = self.manner.first.saturating_sub(self.given);
        self.has_blocked = left == 0;
        self.given = self.given.saturating_add(most.min(left));
        most.min(left)
    }
}

impl Read for MemoryStream<'_> {
    fn read(&mut self, buf: &mut [u8]) -> io::Result<usize> {
        self.reads = self.reads.wrapping_add(1);
        if self.reads == self.manner.failing_read {
            return Err(ErrorKind::ConnectionReset.into());
        }
        let blocked = self.has_blocked;
        let count = self
            .next_count(buf.len())
            .min(self.input.len())
            .min(buf.len());
        if self.has_blocked && !blocked {
            return Err(ErrorKind::WouldBlock.into());
        }
        let (front, behind) = self.input.split_at(count);
        buf[..count].copy_from_slice(front);
        self.input = behind;
        Ok(count)
    }
}

impl Write for MemoryStream<'_> {
    fn write(&mut self, buf: &[u8]) -> io::Result<usize> {
        self.writes = self.writes.wrapping_add(1);
        if self.writes == self.manner.failing_write {
            return Err(ErrorKind::BrokenPipe.into());
        }
        if self.manner.is_slow && self.writes % 2 == 0 {
            return Err(ErrorKind::WouldBlock.into());
        }
        let count = buf.len().min(self.manner.most);
        match self.output.extend_from_slice(&buf[..count]) {
            Ok(()) => Ok(count),
            Err(_) => Err(ErrorKind::OutOfMemory.into()),
        }
    }

    fn flush(&mut self) -> io::Result<()> {
        Ok(())
    }
}

impl WriteParts for MemoryStream<'_> {}

impl ShutWrite for MemoryStream<'_> {
    fn shut_write(&mut self) -> io::Result<()> {
        self.is_shut = true;
        Ok(())
    }
}
