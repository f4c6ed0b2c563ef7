//! The logs of a server, and the file that they go to.

ghost use Rattle.std.specs.Prelude.{◌≡◌, IfErr};
ghost use Rattle.s3_server.specs.Serve.{IsLogFault};

use crate::found::found_line;
use s3_keepers::FoundAmounts;
use s3_log::{Log, LogWriter};
use s3_settings::{Fault, Files, ServeMode};
use s3_terms::NoMemory;
use std::alloc::Global;
use std::sync::Wait;
use std::time::{Clock, Instant};

/// A log for each worker, and the file that they go to.
#[derive(Drop)]
pub(crate) struct Logging<'a, F: Files> {
    logs: Vec<Log>,
    files: &'a F,
    path: &'a str,
}

impl<'a, F: Files> Logging<'a, F> {
    /// The logs that a server is asked for, if it is, one for each of its workers. `CannotWrite` where nothing can be
    /// written to their file.
    pub(crate) fn asked(
        alloc: Global,
        mode: &ServeMode<'a>,
        files: &'a F,
    ) -> Result<Option<Logging<'a, F>>, Fault<'a>>
        ensures refused { IfErr result (IsLogFault mode.now.log) }
    {
        let Some(path) = mode.log else {
            return Ok(None);
        };
        if files.append(path, &[]).is_err() {
            return Err(Fault::CannotWrite(path));
        }
        match logs_of(alloc, mode.workers) {
            Ok(logs) => Ok(Some(Logging { logs, files, path })),
            Err(NoMemory) => Err(Fault::OutOfMemory),
        }
    }

    /// The same for the workers of another round, where the logs of one are there: nothing was told yet. They go to the same file.
    pub(crate) fn again(
        alloc: Global,
        logging: Option<&Logging<'a, F>>,
    ) -> Result<Option<Logging<'a, F>>, NoMemory> {
        let Some(before) = logging else {
            return Ok(None);
        };
        let logs = logs_of(alloc, before.logs.len() as u64)?;
        Ok(Some(Logging {
            logs,
            files: before.files,
            path: before.path,
        }))
    }

    /// Tells what was found in the folder at a path, if there is a log, and how long its opening took, which began then. Where
    /// that can't be told, the line is lost.
    pub(crate) fn tell_found<R: Clock>(
        rt: &R,
        alloc: Global,
        logging: Option<&Logging<'a, F>>,
        path: &str,
        found: FoundAmounts,
        since: Option<Instant>,
    ) {
        let Some(logging) = logging else {
            return;
        };
        if let Ok(line) = found_line(alloc, path, found, microseconds(rt, since)) {
            let _written = logging.files.append(logging.path, &line);
        }
    }

    /// What the worker of this number tells lines to.
    pub(crate) fn log(&self, number: usize) -> Option<&Log> {
        self.logs.get(number)
    }

    /// Has the lines written until the last worker has left.
    pub(crate) fn write<R: Wait + Clock>(&self, rt: &R, alloc: Global, writer: LogWriter) {
        let mut writer = writer;
        writer.write(rt, alloc, &self.logs, self.files, self.path);
    }
}

// How many microseconds have gone by since then, if the clock can be read.
fn microseconds<R: Clock>(rt: &R, since: Option<Instant>) -> Option<u64> {
    let waited = since?.elapsed(rt).ok()?;
    u64::try_from(waited.as_micros()).ok()
}

// So many logs, each of one teller.
fn logs_of(alloc: Global, count: u64) -> Result<Vec<Log>, NoMemory> {
    let mut logs = Vec::new(alloc);
    for _ in 0..count {
        logs.push(Log::new(alloc, 1)?)?;
    }
    Ok(logs)
}
