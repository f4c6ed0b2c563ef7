//! Runs the examples: each file of `data/` that is one. Tells of those that aren't answered as they say, and at the end
//! whether there are none such.
//!
//! An example is data, and adding one touches nothing else. There are two forms. What is answered to the events of
//! `NAME.events`, by `s3d replay --events`, stands in `NAME.out`: with the bytes in the pieces of the file, byte by byte and,
//! where the file is short and tells JSON, with one cut more, at each place in turn. What `--faults` tells behind that may
//! stand in `NAME.faults`. Without what is refused they leave the same (`trimmed.rt`). In `NAME.scenario` stand the requests of
//! connections, and what each of these is answered (`scenario.rt`). The name says the server: where it ends with `.s3`, its
//! documents are XML (`server.rt`).
#![tactic(auto)]

mod body;
mod cut;
mod events;
mod request;
mod scenario;
mod server;
mod trimmed;

use std::fs;
use std::io::Write;
use std::process::ExitCode;
use std::sync::Wait;

// Whether the example of this file is answered as it says; `None` where the file is none.
fn holds<W: Wait>(waits: &W, rt: &HostRuntime, file: &str) -> Option<bool> {
    match (file.strip_suffix(".events"), file.strip_suffix(".scenario")) {
        (Some(name), _) => Some(events::holds(waits, rt, name)),
        (None, Some(name)) => Some(scenario::holds(rt, name, file)),
        (None, None) => None,
    }
}

// Whether the example of this file, which is told where it isn't answered as it says, is so.
fn tell(rt: &HostRuntime, file: &str, holds: bool) -> bool {
    let told = holds || write!(rt.stdout(), "{file}: answered otherwise\n").is_ok();
    holds && told
}

// Runs the examples of this folder; whether there are some, and each was answered as it says.
fn run_all<W: Wait>(waits: &W, rt: &HostRuntime) -> bool {
    let Ok(folder) = fs::read_dir(rt, ".") else {
        return false;
    };
    let (mut some, mut all) = (false, true);
    for file in folder {
        let Ok(file) = file else {
            return false;
        };
        if let Some(holds) = holds(waits, rt, file.file_name()) {
            some = true;
            all = tell(rt, file.file_name(), holds) && all;
        }
    }
    some && all
}

fn main(rt: HostRuntime) -> ExitCode {
    let all = run_all(&rt, &rt);
    if all && write!(rt.stdout(), "all are answered as they say\n").is_ok() {
        ExitCode::SUCCESS
    } else {
        ExitCode::FAILURE
    }
}
