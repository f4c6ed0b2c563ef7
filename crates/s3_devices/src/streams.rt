//! An input and an output as one stream.

ghost use Rattle.std.specs.Prelude.{◌≡◌};

use crate::parts::WriteParts;
use std::io::{self, ErrorKind, Read, Write};

/// An input and an output as one stream, such as the standard ones of a program: reads are of the one, and writes to the
/// other.
///
/// Each write is flushed, so that what counts as taken waits in no buffer; one whose flush fails is a failure of the kind
/// `Other`, and isn't to be written again. The output may have some of its bytes then, so what it holds isn't told.
#[derive(Drop)]
pub struct Streams<R, W> {
    /// What is read.
    pub input: R,
    /// What is written to.
    pub output: W,
}

impl<R: Read, W> Read for Streams<R, W> {
    ghost remaining = { λ streams. R.remaining streams.input };

    fn read(&mut self, buffer: &mut [u8]) -> io::Result<usize> {
        self.input.read(buffer)
    }
}

impl<R, W: Write> Write for Streams<R, W> {
    fn write(&mut self, bytes: &[u8]) -> io::Result<usize> {
        let count = self.output.write(bytes)?;
        match self.output.flush() {
            Ok(()) => Ok(count),
            Err(_) => Err(io::Error::from(ErrorKind::Other)),
        }
    }

    fn flush(&mut self) -> io::Result<()> {
        self.output.flush()
    }
}

impl<R, W: Write> WriteParts for Streams<R, W> {}
