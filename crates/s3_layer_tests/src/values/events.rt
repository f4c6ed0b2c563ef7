//! Texts of event lines, right and wrong, and the lines of outputs and of refused messages.
use crate::checks::{Row, all_hold};
use itoa::Buffer;
use s3_events::{Event, EventsError, Script, print_fault, print_output, read_events};
use s3_terms::Code;
use std::alloc::Global;
use std::mem::drop;

// Adds some bytes. Where there is no memory for them, the text is not as it has to be, which the tests see.
fn add(out: &mut Vec<u8>, bytes: &[u8]) {
    drop(out.extend_from_slice(bytes));
}

// Adds a number behind some bytes.
fn add_number(out: &mut Vec<u8>, before: &[u8], number: u64) {
    add(out, before);
    add(out, Buffer::new().format(number).as_bytes());
}

// Adds an event: its letter and connection, and a piece's bytes as they are.
fn add_event(out: &mut Vec<u8>, event: &Event) {
    match event {
        Event::Piece { connection, bytes } => {
            add_number(out, b" p", u64::from(*connection));
            add(out, b"=");
            add(out, bytes.as_slice());
        }
        Event::End { connection } => add_number(out, b" e", u64::from(*connection)),
        Event::Turn { connection } => add_number(out, b" t", u64::from(*connection)),
    }
}

// Adds a script: the moments of each connection in brackets, and its events.
fn add_script(out: &mut Vec<u8>, script: &Script) {
    for moments in script.moments.as_slice() {
        add(out, b"[");
        for moment in moments.as_slice() {
            add_number(out, b" ", moment.seconds());
        }
        add(out, b" ]");
    }
    for event in script.events.as_slice() {
        add_event(out, event);
    }
}

// Adds what a text is read as.
fn add_reading(alloc: Global, out: &mut Vec<u8>, text: &str) {
    match read_events(alloc, text.as_bytes()) {
        Ok(script) => add_script(out, &script),
        Err(EventsError::BadLine(number)) => add_number(out, b"bad ", number as u64),
        Err(EventsError::OutOfMemory) => add(out, b"out of memory"),
    }
}

// Texts, each with what it is read as.
struct Reading(&'static str, &'static str);

static READINGS: [Reading; 43] = [
    Reading("", ""),
    Reading("end 0", "[ ] e0"),
    Reading("end 0\n", "[ ] e0"),
    Reading("end 0\n\n", "bad 2"),
    Reading("\n", "bad 1"),
    Reading("turn 2\nend 0\n", "[ ][ ][ ] t2 e0"),
    Reading(
        "end 000000000063",
        "[ ][ ][ ][ ][ ][ ][ ][ ][ ][ ][ ][ ][ ][ ][ ][ ][ ][ ][ ][ ][ ][ ][ ][ ][ ][ ][ ][ ][ ][ ][ ][ ][ ][ ][ ][ ][ ][ ][ ][ ][ ][ ][ ][ ][ ][ ][ ][ ][ ][ ][ ][ ][ ][ ][ ][ ][ ][ ][ ][ ][ ][ ][ ][ ] e63",
    ),
    Reading("end 0000000000063", "bad 1"),
    Reading("end 64", "bad 1"),
    Reading("end -1", "bad 1"),
    Reading("end ", "bad 1"),
    Reading("end", "bad 1"),
    Reading("end 0 ", "bad 1"),
    Reading("end 0 0", "bad 1"),
    Reading("end  0", "bad 1"),
    Reading("\x20end 0", "bad 1"),
    Reading("End 0", "bad 1"),
    Reading("stop 0", "bad 1"),
    Reading("end 0\r\n", "bad 1"),
    Reading("turn 0 1", "bad 1"),
    Reading("piece 1 6a4B", "[ ][ ] p1=jK"),
    Reading("piece 1 6A4b\npiece 1 2e\n", "[ ][ ] p1=jK p1=."),
    Reading("piece 1 6a4", "bad 1"),
    Reading("piece 1 6g", "bad 1"),
    Reading("piece 1 ", "bad 1"),
    Reading("piece 1", "bad 1"),
    Reading("piece 1 6a 4b", "bad 1"),
    Reading("piece 1  6a", "bad 1"),
    Reading("moments 1 5 000000000006\nturn 1\n", "[ ][ 5 6 ] t1"),
    Reading("moments 0 253402300799", "[ 253402300799 ]"),
    Reading("moments 0 253402300800", "bad 1"),
    Reading("moments 0 0000000000000", "bad 1"),
    Reading("moments 0 1 ", "bad 1"),
    Reading("moments 0 1  2", "bad 1"),
    Reading("moments 0 1 x", "bad 1"),
    Reading("moments 0", "bad 1"),
    Reading("moments 0 ", "bad 1"),
    Reading("moments 1 1\nmoments 0 2 2\nend 1", "[ 2 2 ][ 1 ] e1"),
    Reading("moments 0 1\nturn 0\nmoments 0 2", "bad 3"),
    Reading("moments 0 1\nmoments 0 1", "bad 2"),
    Reading("piece 0 00\nmoments 0 1", "bad 2"),
    Reading("end 0\nmoments 1 1\nmoments 0 1\nend 64", "bad 3"),
    Reading("end 0\nend 1\nend 2\nend 64\nend", "bad 4"),
];

impl Row for Reading {
    fn holds(&self, alloc: Global) -> bool {
        let mut out = Vec::new(alloc);
        add_reading(alloc, &mut out, self.0);
        out.as_slice() == self.1.as_bytes()
    }
}

// Connections, each with its output.
static OUTPUTS: [(u32, &[u8]); 3] = [(0, b""), (1, b"\x00\xfe"), (2, b"jK")];

// Connections, each with a message that is refused, and why.
static FAULTS: [(u32, u64, Code); 2] = [
    (0, 10, Code::MalformedHead),
    (63, u64::MAX, Code::SignatureDoesNotMatch),
];

// Whether outputs and refused messages are printed so.
fn are_printed(alloc: Global, wanted: &[u8]) -> bool {
    let mut out = Vec::new(alloc);
    for (connection, output) in &OUTPUTS {
        drop(print_output(&mut out, *connection, *output));
    }
    for (connection, message, code) in &FAULTS {
        drop(print_fault(&mut out, *connection, *message, *code));
    }
    out.as_slice() == wanted
}

const PRINTED: &[u8] =
    b"0 \n1 00fe\n2 6a4b\nrefused 0 10 MalformedHead\nrefused 63 18446744073709551615 SignatureDoesNotMatch\n";

/// Whether texts are read so, and outputs and faults printed.
pub(crate) fn hold(alloc: Global) -> bool {
    all_hold(alloc, &READINGS) && are_printed(alloc, PRINTED)
}
