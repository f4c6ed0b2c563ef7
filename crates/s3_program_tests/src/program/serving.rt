//! Words that ask for a server, and what it is started with.
use crate::checks::check;
use crate::program::devices::{Manner, Stream, files, run};
use crate::program::runs::words_of;
use s3_cli::Ran;
use s3_settings::{Fault, RecordsKind, ServeMode, server_settings};
use std::alloc::Global;
use std::sync::Wait;

// Words with one space between two, a bar, and what is told of the server: how it runs and keeps its records, or why there is
// none.
const SERVERS: &str = "\
    s3d serve --keys keys --listen localhost:0|localhost:0 8 1024;\
    s3d serve --keys keys --listen :80 --workers 64|:80 64 1024;\
    s3d serve --keys keys --listen a --workers 001 --max-connections 1 --connections 1|a 1 1 1x1;\
    s3d serve --keys keys --listen a --connections 999999999999|a 8 1024 999999999999x1;\
    s3d serve --keys keys --listen a --connections 3 --rounds 2|a 8 1024 3x2;\
    s3d serve --keys keys --listen a --bucket pail --max-connections 65536 --region eu-west-1|a 8 65536;\
    s3d serve --keys keys --listen a --log log|a 8 1024 to log;\
    s3d serve --keys keys --listen a --connections 3 --log -|a 8 1024 3x1 to -;\
    s3d serve --keys keys --listen a --log |a 8 1024 to ;\
    s3d serve --keys keys --listen a --records map|a 8 1024;\
    s3d serve --keys keys --listen a --records sql --log log|a 8 1024 to log over tables;\
    s3d serve --keys shelf --listen a --records table|bad setting;\
    s3d serve --keys shelf --listen a --workers 0|bad setting;\
    s3d serve --keys shelf --listen a --workers 65|bad setting;\
    s3d serve --keys shelf --listen a --workers 1x|bad setting;\
    s3d serve --keys shelf --listen a --workers |bad setting;\
    s3d serve --keys shelf --listen a --max-connections 0|bad setting;\
    s3d serve --keys shelf --listen a --max-connections 65537|bad setting;\
    s3d serve --keys shelf --listen a --connections 0|bad setting;\
    s3d serve --keys shelf --listen a --connections 0000000000001|bad setting;\
    s3d serve --keys shelf --listen a --rounds 1|bad setting;\
    s3d serve --keys shelf --listen a --connections 1 --rounds 0|bad setting;\
    s3d serve --keys shelf --listen a --bucket Pail|bad setting;\
    s3d serve --keys shelf --listen a --region US|cannot read shelf;\
    s3d serve --keys twice --listen a --region US|bad keys line 2;\
    s3d serve --keys keys --listen a --region US|bad setting;\
    s3d serve --keys none --listen a|bad setting";

// How a server runs and keeps its records, in words.
fn server_words(alloc: Global, mode: &ServeMode, records: RecordsKind) -> Option<String> {
    let text = mode_text(alloc, mode)?;
    match records {
        RecordsKind::Map => Some(text),
        RecordsKind::Sql => format!(in alloc; "{text} over tables").ok(),
    }
}

// How it runs.
fn mode_text(alloc: Global, mode: &ServeMode) -> Option<String> {
    let text = numbers_text(alloc, mode)?;
    match mode.log {
        Some(path) => format!(in alloc; "{text} to {path}").ok(),
        None => Some(text),
    }
}

// Its address and its numbers.
fn numbers_text(alloc: Global, mode: &ServeMode) -> Option<String> {
    let text = match mode.connections {
        Some(count) => {
            format!(in alloc;
                "{} {} {} {count}x{}",
                mode.address, mode.workers, mode.most_held, mode.rounds
            )
        }
        None => format!(in alloc; "{} {} {}", mode.address, mode.workers, mode.most_held),
    };
    text.ok()
}

// The text of a fault.
fn fault_text(alloc: Global, fault: &Fault) -> Option<String> {
    format!(in alloc; "{fault}").ok()
}

// The server that the words ask for, or why there is none; nothing is read or written for it.
fn server_text<R: Wait>(rt: &R, alloc: Global, words: &[&str]) -> Option<String> {
    let mut input = Stream::new(alloc, Manner::Broken, b"");
    let mut output = Stream::new(alloc, Manner::Broken, b"");
    let mut errors = Stream::new(alloc, Manner::Broken, b"");
    let files = files(false);
    match run(
        rt,
        alloc,
        words,
        &files,
        &mut input,
        &mut output,
        &mut errors,
    ) {
        Some(Ran::Serve(options)) => match server_settings(alloc, &options, &files) {
            Ok((mode, records, _config)) => server_words(alloc, &mode, records),
            Err(fault) => fault_text(alloc, &fault),
        },
        _ => None,
    }
}

// The server of a row's words is told like that; `None` says that there is none.
fn is_row<R: Wait>(rt: &R, alloc: Global, row: &str) -> Option<bool> {
    let (words, told) = row.split_once('|')?;
    let words = words_of(alloc, words, "")?;
    let text = server_text(rt, alloc, words.as_slice())?;
    Some(text.as_str() == told)
}

#[test]
fn servers(rt: HostRuntime) {
    for row in SERVERS.split(';') {
        check(&rt, is_row(&rt, rt.alloc(), row) == Some(true), row);
    }
}

#[test]
fn unwritable_log(rt: HostRuntime) {
    let is_told = match fault_text(rt.alloc(), &Fault::CannotWrite("log")) {
        Some(text) => text.as_str() == "cannot write log",
        None => false,
    };
    check(&rt, is_told, "cannot write log");
}
