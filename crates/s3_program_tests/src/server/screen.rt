//! What a server tells.
use std::io::{self, Write};
use std::sync::atomic::{AtomicU64, Ordering};

/// The lines that a server wrote. Another thread sees the port that the first one tells.
#[derive(Drop)]
pub(crate) struct Screen<'a> {
    pub(crate) lines: Vec<u8>,
    pub(crate) port: &'a AtomicU64,
}

impl Write for Screen<'_> {
    fn write(&mut self, buf: &[u8]) -> io::Result<usize> {
        self.lines.extend_from_slice(buf)?;
        if let Some(port) = port_of(self.lines.as_slice()) {
            self.port.store(port, Ordering::SeqCst);
        }
        Ok(buf.len())
    }

    fn flush(&mut self) -> io::Result<()> {
        Ok(())
    }
}

// The port that the first line tells, where that is whole and the only one.
fn port_of(lines: &[u8]) -> Option<u64> {
    let port = lines
        .strip_prefix(b"listening 127.0.0.1:")?
        .strip_suffix(b"\n")?;
    str::from_utf8(port).ok()?.parse().ok()
}
