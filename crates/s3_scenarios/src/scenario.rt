//! Scenarios: the requests of connections, each of which has a server of its own, and what it is answered.
//!
//! In a file, a line `==` stands between two connections, and a line `=>` between the requests of one and what it is
//! answered. A line `--` stands between two requests. A request is a line with its method and its target, its header lines,
//! and behind an empty line its body; it is signed before it is sent. Each line of the answers ends with CRLF, but for one
//! that ends with a bar: that is a body, or a piece of one, and the bar stands for nothing. So are the lines of a body that is
//! sent, but that its last one has no bar. A line `TEXT*N` of a body has N bytes, the text over and over. A line that begins with
//! `<`, the declaration of an XML document, ends with a line feed alone.

use crate::body::add_body;
use crate::request::signed;
use crate::server::{config, server_of};
use s3_calendar::Stamp;
use s3_config::Config;
use s3_simulation::replay_one;
use std::alloc::Global;
use std::fs;
use std::mem::drop;

// The bytes of the connection.
fn sent(alloc: Global, region: &[u8], stamp: Stamp, text: &str) -> Option<Vec<u8>> {
    let mut bytes = Vec::new(alloc);
    for block in text.split("\n--\n") {
        let request = signed(alloc, region, stamp, block)?;
        bytes.extend_from_slice(request.as_slice()).ok()?;
    }
    Some(bytes)
}

// What a server with these settings answers to the requests of a text, all of them at the moment of the stamp; `None` says
// that a text is no request, that one can't be signed, or that memory ran out.
fn replies(alloc: Global, config: &Config, stamp: Stamp, text: &str) -> Option<Vec<u8>> {
    let connection = sent(alloc, config.region(), stamp, text)?;
    replay_one(alloc, config, connection.as_slice(), stamp.moment()).ok()
}

// How a line of answers ends.
fn end_of(line: &str) -> &'static [u8] {
    if line.starts_with('<') {
        b"\n"
    } else {
        b"\r\n"
    }
}

// Adds the bytes that a line of answers stands for.
fn add_line(bytes: &mut Vec<u8>, line: &str) -> Option<()> {
    match line.strip_suffix('|') {
        Some(end) => add_body(bytes, end),
        None => {
            bytes.extend_from_slice(line.as_bytes()).ok()?;
            bytes.extend_from_slice(end_of(line)).ok()
        }
    }
}

// The bytes that a text of answers stands for.
fn wanted(alloc: Global, text: &str) -> Option<Vec<u8>> {
    let mut bytes = Vec::new(alloc);
    for line in text.split('\n') {
        add_line(&mut bytes, line)?;
    }
    Some(bytes)
}

// Whether the connection of this text is answered as it says; `None` says that it isn't well written, or that memory ran out.
fn is_answered(alloc: Global, config: &Config, stamp: Stamp, text: &str) -> Option<bool> {
    let (requests, answers) = text.split_once("\n=>\n")?;
    let replies = replies(alloc, config, stamp, requests)?;
    Some(replies == wanted(alloc, answers)?)
}

// Whether each connection of this text is answered as it says, by servers with these settings.
fn are_answered(alloc: Global, config: &Config, stamp: Stamp, text: &str) -> bool {
    let mut all = true;
    for connection in text.split("\n==\n") {
        all = is_answered(alloc, config, stamp, connection) == Some(true) && all;
    }
    all
}

// The same of bytes; `None` says that they aren't the text of a scenario.
fn text_holds(alloc: Global, config: &Config, bytes: &[u8]) -> Option<bool> {
    let text = str::from_utf8(bytes).ok()?.strip_suffix('\n')?;
    let stamp = Stamp::read(b"20130524T000000Z")?;
    Some(are_answered(alloc, config, stamp, text))
}

// The same of a file.
fn file_holds(rt: &HostRuntime, config: &Config, file: &str) -> bool {
    match fs::read(rt, file) {
        Ok(bytes) => text_holds(rt.alloc(), config, bytes.as_slice()) == Some(true),
        Err(_) => false,
    }
}

/// Whether each connection of the file of this name is answered as it says.
pub(crate) fn holds(rt: &HostRuntime, name: &str, file: &str) -> bool {
    match config(rt, server_of(name)) {
        Some(config) => {
            let held = file_holds(rt, &config, file);
            drop(config);
            held
        }
        None => false,
    }
}
