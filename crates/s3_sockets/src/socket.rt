//! A connection's socket, which never waits: where nothing comes, or nothing can go, it answers `WouldBlock`.

ghost use Rattle.std.specs.Prelude.{◌≡◌};

use mio::net::TcpStream;
use mio::unix::SourceFd;
use mio::{Interest, Registry, Token};
use s3_devices::{ShutWrite, WriteParts};
use s3_log::Log;
use std::io::{self, ErrorKind, IoSlice, Read, Write};
use std::net::{Shutdown, SocketAddr};
use std::os::fd::AsRawFd;

// How often a call that was interrupted is made again: nothing has happened in it then.
const TRIES: u32 = 64;

/// A socket.
#[derive(Drop)]
pub struct Socket {
    stream: TcpStream,
}

impl Socket {
    /// A socket that just came. Small pieces go out at once, if the system does as it is told.
    pub fn new(stream: TcpStream) -> Socket {
        let _ = stream.set_nodelay(true);
        Socket { stream }
    }

    /// The address of its peer, where it is told to a log, and the system knows it.
    pub(crate) fn peer_told(&self, log: Option<&Log>) -> Option<SocketAddr> {
        log?;
        self.stream.peer_addr().ok()
    }

    /// Whether its peer has gone, where nothing was read from it: nothing came, and nothing will.
    pub(crate) fn has_gone(&self) -> bool {
        match self.stream.peek(&mut [0]) {
            Ok(count) => count == 0,
            Err(error) => !matches!(error.kind(), ErrorKind::WouldBlock | ErrorKind::Interrupted),
        }
    }

    /// Has the socket reported under a token when bytes may come or go, and answers whether the system can.
    pub fn register(&self, registry: &Registry, token: Token) -> bool {
        let fd = self.stream.as_raw_fd();
        registry
            .register(&mut SourceFd(&fd), token, both_ways())
            .is_ok()
    }

    /// Has it reported once more, if it is ready, and answers whether the system can.
    pub fn report_again(&self, registry: &Registry, token: Token) -> bool {
        let fd = self.stream.as_raw_fd();
        registry
            .reregister(&mut SourceFd(&fd), token, both_ways())
            .is_ok()
    }
}

// Whether a call was interrupted.
fn is_interrupted(came: &io::Result<usize>) -> bool {
    match came {
        Ok(_) => false,
        Err(e) => e.kind() == ErrorKind::Interrupted,
    }
}

impl Read for Socket {
    fn read(&mut self, buf: &mut [u8]) -> io::Result<usize> {
        for _ in 0..TRIES {
            let came = self.stream.read(buf);
            if !is_interrupted(&came) {
                return came;
            }
        }
        self.stream.read(buf)
    }
}

impl Write for Socket {
    fn write(&mut self, buf: &[u8]) -> io::Result<usize> {
        for _ in 0..TRIES {
            let went = self.stream.write(buf);
            if !is_interrupted(&went) {
                return went;
            }
        }
        self.stream.write(buf)
    }

    fn flush(&mut self) -> io::Result<()> {
        Ok(())
    }
}

/// All parts go out in one call, as far as the system takes them.
impl WriteParts for Socket {
    fn write_parts(&mut self, parts: &[IoSlice<'_>]) -> io::Result<usize> {
        for _ in 0..TRIES {
            let went = self.stream.write_vectored(parts);
            if !is_interrupted(&went) {
                return went;
            }
        }
        self.stream.write_vectored(parts)
    }
}

impl ShutWrite for Socket {
    fn shut_write(&mut self) -> io::Result<()> {
        self.stream.shutdown(Shutdown::Write)
    }
}

// Interest in both directions.
fn both_ways() -> Interest {
    Interest::READABLE | Interest::WRITABLE
}
