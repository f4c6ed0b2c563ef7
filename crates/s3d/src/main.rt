//! The program `s3d`, which answers and signs requests of the Amazon S3 REST API. `s3d replay` answers
//! one connection that stands whole on the standard input, or many whose events do, `s3d sign` writes one
//! signed request, and `s3d serve` listens on a socket.
//! `s3_cli::run_words` does the work over any device, and `s3_server::serve_words` over sockets.
#![tactic(auto)]

ghost use Rattle.std.specs.Prelude.{◌≡◌};
ghost use Rattle.std.specs.Process.{exit_status};

use s3_cli::{Ran, run_words};
use s3_devices::{Device, Recorded, Streams};
use s3_file_records::SystemKeeper;
use s3_keepers::{FolderKeeper, Keeper};
use s3_server::{ServerReport, serve_words};
use s3_settings::{Files, ServeOptions};
use s3_sockets::Network;
use s3_sql_records::SqlKeeper;
use std::alloc::Global;
use std::fs::OpenOptions;
use std::io::Write;
use std::net::Net;
use std::process::ExitCode;
use std::sync::Wait;
use std::thread::Threads;
use std::time::Clock;
use std::{env, fs, io};

// The files of the system.
#[derive(Clone, Copy)]
struct SystemFiles<'a>(&'a HostRuntime);

impl Files for SystemFiles<'_> {
    fn read(&self, _alloc: Global, path: &str) -> io::Result<Vec<u8>> {
        fs::read(self.0, path)
    }

    fn append(&self, path: &str, bytes: &[u8]) -> io::Result<()> {
        if path == "-" {
            let mut errors = self.0.stderr();
            errors.write_all(bytes)?;
            return errors.flush();
        }
        let mut file = OpenOptions::new()
            .append(true)
            .create(true)
            .open(self.0, path)?;
        file.write_all(bytes)
    }
}

// Arguments that cannot be read count as wrong ones.
fn arguments(rt: &HostRuntime) -> io::Result<Vec<String>> {
    let words = env::args(rt)?.collect(rt.alloc())?;
    Ok(words)
}

// The exit code of the process whose run came to this status.
fn exit_code(status: u8) -> ExitCode
    ensures { exit_status result ≡ status }
{
    ExitCode::from(status)
}

// Serves over the network of the system, and answers the exit status.
fn serve<
    R: Wait + Threads + Net + Clock + Sync,
    F: Files + Sync,
    Q: Keeper,
    D: FolderKeeper,
    W: Write,
    E: Device,
>(
    rt: &R,
    alloc: Global,
    options: &ServeOptions<'_>,
    files: &F,
    tables: &Q,
    folders: &mut D,
    output: &mut W,
    errors: &mut E,
) -> u8 {
    let (Some(mut network), Some(mut report)) = (Network::new(rt), ServerReport::new()) else {
        return 1;
    };
    serve_words(
        rt,
        alloc,
        options,
        files,
        tables,
        folders,
        &mut network,
        &mut report,
        output,
        errors,
    )
}

// Runs as the words say that the program was started with, over the folders of a keeper. `waits` is the runtime, as it waits.
fn run<R: Wait + Threads + Net + Clock + Sync, D: FolderKeeper>(
    waits: &R,
    rt: &HostRuntime,
    folders: &mut D,
) -> ExitCode {
    let (alloc, files) = (rt.alloc(), SystemFiles(rt));
    let words = arguments(rt).unwrap_or(Vec::new(alloc));
    let (Some(mut device), Some(mut errors)) = (
        Recorded::new(Streams {
            input: rt.stdin(),
            output: rt.stdout(),
        }),
        Recorded::new(Streams {
            input: io::empty(),
            output: rt.stderr(),
        }),
    ) else {
        return ExitCode::FAILURE;
    };
    let ran = run_words(
        waits,
        alloc,
        words.as_slice(),
        &files,
        &SqlKeeper,
        folders,
        &mut device,
        &mut errors,
    );
    exit_code(match ran {
        Ran::Ended(status) => status,
        Ran::Serve(options) => {
            let mut output = rt.stdout();
            serve(
                waits,
                alloc,
                &options,
                &files,
                &SqlKeeper,
                folders,
                &mut output,
                &mut errors,
            )
        }
    })
}

fn main(rt: HostRuntime) -> ExitCode {
    run(&rt, &rt, &mut SystemKeeper(&rt))
}
