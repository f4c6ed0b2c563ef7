//! The log, and its writer.

ghost use Rattle.std.specs.Prelude.{◌≡◌, []};

use crate::beginning::Beginning;
use crate::line::{Message, lost_line};
use crate::lines::Lines;
use crate::pending::{Given, Pending};
use s3_settings::Files;
use s3_terms::NoMemory;
use std::alloc::Global;
use std::sync::{Mutex, Wait};
use std::thread;
use std::time::{Clock, Duration};

// How many milliseconds a writer waits for more.
const PAUSE: u64 = 50;

/// Lines that wait here for their writer, 4 MiB at most. Further ones are lost, and counted. Whoever tells a line waits
/// for the lock alone. A server has one log for each of its workers, so that none waits for another.
#[derive(Drop)]
pub struct Log {
    pending: Mutex<Pending>,
}

impl Log {
    /// One that has so many tellers. It takes all the memory that lines wait in.
    pub fn new(alloc: Global, tellers: u64) -> Result<Log, NoMemory> {
        Ok(Log {
            pending: Mutex::new(Pending::new(alloc, tellers)?),
        })
    }

    /// Tells the line of a message.
    pub(crate) fn tell(
        &self,
        rt: &impl Wait,
        alloc: Global,
        beginning: &Beginning,
        message: &Message<'_>,
    ) {
        let _counted = self.pending.lock(rt).tell(alloc, beginning, message);
    }

    /// Counts a line as lost.
    pub(crate) fn lose(&self, rt: &impl Wait) {
        self.pending.lock(rt).lose();
    }

    /// One of the tellers tells no more.
    pub fn leave(&self, rt: &impl Wait) {
        self.pending.lock(rt).leave();
    }

    // Gives the lines that wait, in exchange for room that has none.
    fn give(&self, rt: &impl Wait, room: &mut Lines) -> Given
        requires { room.old ≡ [] }
    {
        self.pending.lock(rt).give(room)
    }
}

/// Who writes the lines of logs to one file.
#[derive(Drop)]
pub struct LogWriter {
    lines: Lines,
    // How many lines were lost of which nothing is written yet.
    lost: u64,
    // Whether the last write failed, which may have left half a line.
    has_failed: bool,
}

impl LogWriter {
    /// One that has written nothing. It takes all its memory but that of the line which tells of losses.
    pub fn new(alloc: Global) -> Result<LogWriter, NoMemory> {
        Ok(LogWriter {
            lines: Lines::new(alloc)?,
            lost: 0,
            has_failed: false,
        })
    }

    /// Writes what these logs are told to the file at a path, until the last teller has left.
    ///
    /// Every 50 milliseconds it writes what waits then, in one write for each log. It writes to the file that has the
    /// path at that time, so that a file which was moved away is left alone from then on. What can't be written is
    /// lost. Before the next lines it writes how many were lost; after a write that failed, which may have left half a line,
    /// a line feed comes first.
    pub fn write<R: Wait + Clock, F: Files>(
        &mut self,
        rt: &R,
        alloc: Global,
        logs: &[Log],
        files: &F,
        path: &str,
    ) {
        for _ in rt.forever() {
            if self.write_all(rt, alloc, logs, files, path) {
                break;
            }
            thread::sleep(rt, Duration::from_millis(PAUSE));
        }
    }

    // Writes what waits in each log, and answers whether no more comes in any of them.
    fn write_all<R: Wait, F: Files>(
        &mut self,
        rt: &R,
        alloc: Global,
        logs: &[Log],
        files: &F,
        path: &str,
    ) -> bool {
        let mut are_last = true;
        for log in logs {
            if !self.write_one(rt, alloc, log, files, path) {
                are_last = false;
            }
        }
        are_last
    }

    // Writes what waits in a log, and answers whether no more comes in it.
    fn write_one<R: Wait, F: Files>(
        &mut self,
        rt: &R,
        alloc: Global,
        log: &Log,
        files: &F,
        path: &str,
    ) -> bool {
        self.lines.clear();
        let given = log.give(rt, &mut self.lines);
        self.write_given(alloc, files, path, given);
        given.is_last
    }

    // Writes the lines that were given, or counts them as lost.
    fn write_given<F: Files>(&mut self, alloc: Global, files: &F, path: &str, given: Given) {
        self.lost = self.lost.saturating_add(given.lost);
        if self.has_failed {
            self.has_failed = files.append(path, b"\n").is_err();
        }
        if self.lost > 0 && self.tells_loss(alloc, files, path) {
            self.lost = 0;
        }
        if given.count > 0 && !self.tells_lines(files, path) {
            self.lost = self.lost.saturating_add(given.count);
        }
    }

    // Writes the lines that were given, and answers whether it could.
    fn tells_lines<F: Files>(&mut self, files: &F, path: &str) -> bool {
        self.has_failed = self.has_failed || files.append(path, self.lines.as_slice()).is_err();
        !self.has_failed
    }

    // Writes how many lines were lost, and answers whether it could.
    fn tells_loss<F: Files>(&mut self, alloc: Global, files: &F, path: &str) -> bool {
        let Ok(line) = lost_line(alloc, self.lost) else {
            return false;
        };
        self.has_failed = self.has_failed || files.append(path, &line).is_err();
        !self.has_failed
    }
}
