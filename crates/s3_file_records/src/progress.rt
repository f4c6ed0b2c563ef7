//! How far the opening of a folder is.

use s3_progress::Progress;
use std::io::{IsTerminal, Write};
use std::time::{Duration, Instant};

/// So many steps are done before the clock is looked at again.
const STEPS: u64 = 4_096;

/// An opening that takes no longer tells nothing: in milliseconds.
const PATIENCE: u64 = 2_000;

/// Tells on the standard error how far the opening of a folder is, on one line that is written again and again, once it has taken
/// two seconds. Where that is no terminal it tells nothing.
#[derive(Drop)]
pub(crate) struct OpeningProgress<'a> {
    runtime: &'a HostRuntime,
    // When it began, where it may be told.
    since: Option<Instant>,
    done: u64,
    is_told: bool,
}

impl<'a> OpeningProgress<'a> {
    /// One that begins now.
    pub(crate) fn new(runtime: &'a HostRuntime) -> OpeningProgress<'a> {
        let since = if runtime.stderr().is_terminal() {
            Instant::now(runtime).ok()
        } else {
            None
        };
        OpeningProgress {
            runtime,
            since,
            done: 0,
            is_told: false,
        }
    }

    // Whether it has taken so long that it is told.
    fn is_slow(&self) -> bool {
        match self.since {
            Some(since) => match since.elapsed(self.runtime) {
                Ok(waited) => waited >= Duration::from_millis(PATIENCE),
                Err(_) => false,
            },
            None => false,
        }
    }

    // Writes a text to the standard error, if it can.
    fn write(&self, text: &str) {
        let mut errors = self.runtime.stderr();
        let _written = errors.write_all(text.as_bytes());
        let _flushed = errors.flush();
    }

    // Tells how much is done.
    fn tell(&mut self) {
        if let Ok(line) = format!(in self.runtime.alloc();
            "\rs3d: opening: {} versions and bodies",
            self.done
        ) {
            self.is_told = true;
            self.write(line.as_str());
        }
    }
}

impl Progress for OpeningProgress<'_> {
    fn step(&mut self) {
        self.done = self.done.saturating_add(1);
        if self.done % STEPS == 0 && self.is_slow() {
            self.tell();
        }
    }

    // Whatever is written next begins a line.
    fn end(&mut self) {
        if self.is_told {
            self.is_told = false;
            self.write("\n");
        }
    }
}
