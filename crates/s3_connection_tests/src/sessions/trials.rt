//! What is tried, and with which connections.
use crate::checks::check_none;
use crate::sessions::clock::Counting;
use crate::sessions::connections::{CONNECTIONS, CUT_SHORT, LONG};
use crate::sessions::cuts::{CUTS, Cut, writes};
use crate::sessions::kept;
use crate::sessions::line::Line;
use crate::sessions::parts::{joined, part};
use crate::sessions::scripts::{
    ENDS, INVITED, KEPT, KEPT_TIMED, MESSAGES, REFUSED, STARVED, TIMED, UNINVITED,
};
use crate::sessions::server::{config, is_answered};
use crate::sessions::steps::goes;
use s3_config::Config;
use s3_records::MapRecords;
use s3_store::Store;
use std::alloc::Global;

// What is done to a connection.
#[derive(Clone, Copy)]
enum Deed<'a> {
    // It goes as a script says.
    Script(&'a str),
    // It is sent bytes in a cut, and writes others.
    Cut(&'a [u8], Cut, &'a [u8]),
    // It is sent bytes in one piece, with which a body is open or none is; and writes others once the bytes end there.
    Short(&'a [u8], bool, &'a [u8]),
}

// What is tried with a new connection.
#[derive(Clone, Copy)]
enum Trial<'a> {
    // This is done to it, and each of its messages has a moment so many seconds later.
    Paced(u64, Deed<'a>),
    // It keeps what comes and goes as a script says, with one moment or with two.
    Kept(bool, &'a str),
}

// Does this to a connection: whether it goes as it has to.
fn does(alloc: Global, line: &mut Line, deed: Deed) -> bool {
    match deed {
        Deed::Script(script) => goes(alloc, line, script),
        Deed::Cut(bytes, cut, wanted) => writes(line, bytes, cut, wanted) == Some(true),
        Deed::Short(bytes, is_open, wanted) => {
            let _fed = line.feed(bytes);
            let is_right = line.in_body() == is_open;
            line.end();
            is_right && line.writes(wanted)
        }
    }
}

// Does this to a new connection over a store, with moments of this pace.
fn does_over(
    alloc: Global,
    config: &Config,
    store: &mut Store<MapRecords>,
    pace: u64,
    deed: Deed,
) -> bool {
    let Some(moments) = Counting::new(pace) else {
        return false;
    };
    let mut line = Line::new(alloc, config, moments, store);
    let goes = does(alloc, &mut line, deed);
    drop(line);
    goes
}

// Whether a new connection over a store of its own goes as it has to.
fn passes(alloc: Global, config: &Config, trial: Trial) -> bool {
    let Ok(mut store) = Store::open(alloc, config.buckets()) else {
        return false;
    };
    let goes = match trial {
        Trial::Paced(pace, deed) => does_over(alloc, config, &mut store, pace, deed),
        Trial::Kept(is_timed, script) => {
            kept::holds(alloc, config, &mut store, is_timed, script)
        }
    };
    drop(store);
    goes
}

// Where connections are cut in two: behind at least and less than so many bytes. Short ones are before each byte, and AWS's
// example around the ends of its head, of each chunk's first line and of each chunk, and within the second chunk.
static STRETCHES: [(usize, usize); 8] = [
    (0, 2_000),
    (596, 600),
    (685, 688),
    (66_221, 66_226),
    (66_309, 66_312),
    (66_800, 66_801),
    (67_333, 67_338),
    (67_419, 67_424),
];

// Whether a connection writes what it has to in two pieces, the first of which has at least and less than so many bytes.
fn is_written_in_two(
    alloc: Global,
    config: &Config,
    (from, to): (usize, usize),
    bytes: &[u8],
    wanted: &[u8],
) -> bool {
    let len = bytes.len();
    for first in from..to.min(len) {
        let cut = Cut {
            first,
            size: len,
            most: len,
        };
        if !passes(
            alloc,
            config,
            Trial::Paced(0, Deed::Cut(bytes, cut, wanted)),
        ) {
            return false;
        }
    }
    true
}

// Whether it does so in each way to cut it.
fn is_written(alloc: Global, config: &Config, bytes: &[u8], wanted: &[u8]) -> bool {
    for cut in &CUTS {
        if !passes(
            alloc,
            config,
            Trial::Paced(0, Deed::Cut(bytes, *cut, wanted)),
        ) {
            return false;
        }
    }
    let from = if bytes.len() < 2_000 { 0 } else { 1 };
    for stretch in &STRETCHES[from..] {
        if !is_written_in_two(alloc, config, *stretch, bytes, wanted) {
            return false;
        }
    }
    true
}

// What a row is.
#[derive(Clone, Copy)]
enum Rows {
    // Connections that are replayed, and, unless they are long, cut.
    Replayed { is_long: bool },
    // Messages that end at each byte.
    CutShort,
    // Scripts, with moments that go on by so many seconds.
    Scripts(u64),
    // Scripts of connections that keep what comes, with one moment or two.
    Kept { is_timed: bool },
}

// Whether a connection is answered so, and writes that however it is cut.
fn is_replayed(alloc: Global, config: &Config, bytes: &[u8], wanted: &[u8], is_long: bool) -> bool {
    is_answered(alloc, config, bytes, wanted)
        && (is_long || is_written(alloc, config, bytes, wanted))
}

// The same of the parts of a row; `None` says that there was no memory, or that it is no row.
fn is_row_replayed(alloc: Global, config: &Config, row: &str, is_long: bool) -> Option<bool> {
    let (_name, parts) = row.split_once(" | ")?;
    let (sent, answered) = parts.split_once(" | ")?;
    let (both, len) = joined(alloc, sent, answered)?;
    let (bytes, wanted) = both.split_at(len.min(both.len()));
    Some(is_replayed(alloc, config, bytes, wanted, is_long))
}

// Whether a message with a head of so many bytes has a body behind it and before its last byte alone, and is refused where
// its bytes end there; and whether nothing is answered where they end before that.
fn is_cut_short(
    alloc: Global,
    config: &Config,
    head: usize,
    bytes: &[u8],
    refusal: &[u8],
) -> Option<bool> {
    for len in 0..=bytes.len() {
        let sent = bytes.get(..len)?;
        let is_whole = len == bytes.len();
        let is_open = head <= len && !is_whole;
        let wanted = if is_open { refusal } else { &[] };
        let is_right = passes(
            alloc,
            config,
            Trial::Paced(0, Deed::Short(sent, is_open, wanted)),
        );
        if !is_right || !(is_whole || is_answered(alloc, config, sent, wanted)) {
            return Some(false);
        }
    }
    Some(true)
}

// Whether the message of a row is; `None` as above.
fn is_row_cut_short(alloc: Global, config: &Config, row: &str) -> Option<bool> {
    let (_name, parts) = row.split_once(" | ")?;
    let (head, body) = parts.split_once(" | ")?;
    let refusal = part("IncompleteBody")?;
    let (bytes, len) = joined(alloc, head, body)?;
    is_cut_short(alloc, config, len, &bytes, refusal.as_bytes())
}

// Whether a row holds; `None` as above.
fn holds(alloc: Global, config: &Config, rows: Rows, row: &str) -> Option<bool> {
    match rows {
        Rows::Replayed { is_long } => is_row_replayed(alloc, config, row, is_long),
        Rows::CutShort => is_row_cut_short(alloc, config, row),
        Rows::Scripts(pace) => Some(passes(alloc, config, Trial::Paced(pace, Deed::Script(row)))),
        Rows::Kept { is_timed } => Some(passes(alloc, config, Trial::Kept(is_timed, row))),
    }
}

// The first of the rows of a text, between which empty lines stand, that doesn't hold.
fn first_other(alloc: Global, rows: Rows, text: &'static str) -> Option<&'static str> {
    let Some(config) = config(alloc) else {
        return Some("no settings");
    };
    for row in text.split("\n\n") {
        if holds(alloc, &config, rows, row) != Some(true) {
            return Some(row);
        }
    }
    None
}

// Texts, and what their rows are.
static TEXTS: [(Rows, &str); 12] = [
    (Rows::Replayed { is_long: false }, CONNECTIONS),
    (Rows::Replayed { is_long: true }, LONG),
    (Rows::CutShort, CUT_SHORT),
    (Rows::Scripts(0), INVITED),
    (Rows::Scripts(0), UNINVITED),
    (Rows::Scripts(0), MESSAGES),
    (Rows::Scripts(0), ENDS),
    (Rows::Scripts(0), REFUSED),
    (Rows::Scripts(0), STARVED),
    (Rows::Scripts(1), TIMED),
    (Rows::Kept { is_timed: false }, KEPT),
    (Rows::Kept { is_timed: true }, KEPT_TIMED),
];

// Connections are answered however they are cut, also where they are cut short; they go step by step, and keep what comes.
#[test]
fn connections(rt: HostRuntime) {
    for (rows, text) in &TEXTS {
        let other = first_other(rt.alloc(), *rows, *text);
        check_none(&rt, other);
    }
}
