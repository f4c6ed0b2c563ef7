//! An example of events: what happens to the connections of one store, and what they are answered.

use crate::cut::{Cut, recut};
use crate::server::{NoFolders, Server, SystemFiles, config, server_of};
use crate::trimmed::leave_same;
use s3_cli::{Ran, run_words};
use s3_devices::{Recorded, Streams};
use s3_keepers::MapKeeper;
use std::alloc::Global;
use std::sync::Wait;
use std::{fs, io};

// How long a file of events is at most that is cut at each place.
const SHORT: usize = 4_096;

// An example: its server, what happens, and what is answered.
#[derive(Clone, Copy)]
struct Example<'a> {
    server: Server<'a>,
    events: &'a [u8],
    answers: &'a [u8],
}

// The words of a run of this server.
fn words(server: Server<'_>) -> [&str; 11] {
    [
        "s3d",
        "replay",
        "--events",
        "--keys",
        "keys",
        "--min-part",
        "5",
        "--bucket",
        server.bucket,
        "--dialect",
        server.dialect,
    ]
}

// The same, where first faults are told too.
fn words_with_faults(server: Server<'_>) -> [&str; 12] {
    [
        "s3d",
        "replay",
        "--events",
        "--faults",
        "--keys",
        "keys",
        "--min-part",
        "5",
        "--bucket",
        server.bucket,
        "--dialect",
        server.dialect,
    ]
}

// What these events are answered with these words, where the program does its work, which may wait.
fn answers<W: Wait>(waits: &W, rt: &HostRuntime, words: &[&str], events: &[u8]) -> Option<Vec<u8>> {
    let alloc = rt.alloc();
    let mut device = Recorded::new(Streams {
        input: events,
        output: Vec::new(alloc),
    })?;
    let mut errors = Recorded::new(Streams {
        input: io::empty(),
        output: rt.stderr(),
    })?;
    match run_words(
        waits,
        alloc,
        words,
        &SystemFiles(rt),
        &MapKeeper,
        &mut NoFolders,
        &mut device,
        &mut errors,
    ) {
        Ran::Ended(0) => Some(device.into_stream().output),
        _ => None,
    }
}

// Whether an example is answered as it has to be, its bytes in these cuts.
fn is_answered<W: Wait>(waits: &W, rt: &HostRuntime, example: Example, cut: Cut) -> bool {
    let Ok(events) = recut(rt.alloc(), example.events, cut) else {
        return false;
    };
    match answers(waits, rt, &words(example.server), events.as_slice()) {
        Some(answers) => answers.as_slice() == example.answers,
        None => false,
    }
}

// Whether an example is answered so in each way: as it stands, byte by byte and, where it is short, with one cut more. Cuts
// are the same for each dialect, and XML is tried without the last.
fn is_answered_each_way<W: Wait>(waits: &W, rt: &HostRuntime, example: Example) -> bool {
    let len = example.events.len();
    if !is_answered(waits, rt, example, Cut { first: 0, size: 1 }) {
        return false;
    }
    let is_cut = len <= SHORT && example.server.dialect == "json";
    let places = if is_cut { len / 2 } else { 1 };
    for first in 0..places {
        if !is_answered(waits, rt, example, Cut { first, size: len }) {
            return false;
        }
    }
    true
}

// The bytes of the file of this name.
fn file(rt: &HostRuntime, name: &str, ending: &str) -> Option<Vec<u8>> {
    let path = format!(in rt.alloc(); "{name}{ending}").ok()?;
    fs::read(rt, path.as_str()).ok()
}

// Whether these faults, if there is a file of them, are told behind what an example is answered.
fn tells<W: Wait>(waits: &W, rt: &HostRuntime, example: Example, faults: Option<Vec<u8>>) -> bool {
    let Some(faults) = faults else {
        return true;
    };
    let words = words_with_faults(example.server);
    match answers(waits, rt, &words, example.events) {
        Some(text) => text.strip_prefix(example.answers) == Some(faults.as_slice()),
        None => false,
    }
}

/// Whether the example of this name is answered as its file of answers says, in each way, tells the first faults that
/// its file of these says, if there is one, and leaves the same without what is refused.
pub(crate) fn holds<W: Wait>(waits: &W, rt: &HostRuntime, name: &str) -> bool {
    match (file(rt, name, ".events"), file(rt, name, ".out")) {
        (Some(events), Some(answers)) => {
            let example = Example {
                server: server_of(name),
                events: events.as_slice(),
                answers: answers.as_slice(),
            };
            is_answered_each_way(waits, rt, example)
                && tells(waits, rt, example, file(rt, name, ".faults"))
                && leave_same(rt.alloc(), config(rt, example.server), example.events)
        }
        _ => false,
    }
}
