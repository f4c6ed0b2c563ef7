//! Connections step by step: what is done to them, what they do next, and what they write.
//!
//! A script has its name in its first line, and a step in each line behind it, of three columns with a bar between two: what is
//! done, what comes next, and the parts that are written meanwhile. What may be done:
//!
//! - `feed A + B`: it is fed with the parts A and B in one piece, takes the first and leaves the second; `feed A` leaves
//!   nothing;
//! - `answer`: it is given the turn that it asked for;
//! - `starve`: it is told that memory ran out for its turn;
//! - `end`: it is told that no more bytes come;
//! - `timed N`: nothing; so many of its messages had a moment.
use crate::sessions::line::{Line, Then};
use crate::sessions::parts::{bytes_of, joined};
use std::alloc::Global;

/// A connection that is tried step by step.
pub(crate) trait Tried {
    /// Does what a step says: whether it is done so.
    fn act(&mut self, alloc: Global, act: &str) -> bool;

    /// What comes next, in a word.
    fn next(&self) -> &'static str;

    /// Takes all that was written and not taken: whether it is this.
    fn wrote(&mut self, alloc: Global, wanted: &[u8]) -> bool;
}

// The columns of a step.
fn columns(step: &str) -> Option<(&str, &str, &str)> {
    let (act, rest) = step.split_once(" | ")?;
    let (next, written) = rest.split_once(" | ")?;
    Some((act, next, written))
}

// Whether these parts are what was written and not taken.
fn wrote<T: Tried>(alloc: Global, tried: &mut T, written: &str) -> bool {
    match bytes_of(alloc, written) {
        Some(wanted) => tried.wrote(alloc, &wanted),
        None => false,
    }
}

// Whether a step is as it has to be.
fn is_right<T: Tried>(alloc: Global, tried: &mut T, step: &str) -> bool {
    let Some((act, next, written)) = columns(step) else {
        return false;
    };
    tried.act(alloc, act) && tried.next() == next && wrote(alloc, tried, written)
}

/// Whether a connection goes as a script says.
pub(crate) fn goes<T: Tried>(alloc: Global, tried: &mut T, script: &str) -> bool {
    let (_name, steps) = script.split_once('\n').unwrap_or((script, ""));
    for step in steps.split('\n') {
        if !is_right(alloc, tried, step) {
            return false;
        }
    }
    true
}

// Feeds parts in one piece: whether the first of them were taken and the others left.
fn feed(alloc: Global, line: &mut Line, parts: &str) -> bool {
    let (taken, left) = parts.split_once(" + ").unwrap_or((parts, "nothing"));
    match joined(alloc, taken, left) {
        Some((piece, len)) => line.feed(&piece) == len,
        None => false,
    }
}

// Whether this is the number.
fn is_number(text: &str, number: usize) -> bool {
    match text.parse::<usize>() {
        Ok(said) => said == number,
        Err(_) => false,
    }
}

impl Tried for Line<'_> {
    fn act(&mut self, alloc: Global, act: &str) -> bool {
        let (verb, rest) = act.split_once(' ').unwrap_or((act, ""));
        match verb {
            "feed" => return feed(alloc, self, rest),
            "timed" => return is_number(rest, self.timed()),
            "answer" => self.answer(),
            "starve" => self.starve(),
            "end" => self.end(),
            _ => return false,
        }
        // An empty piece changes nothing, and what comes next is told with it as without it.
        let then = self.then();
        self.feed(&[]) == 0 && self.then() == then
    }

    fn next(&self) -> &'static str {
        match (self.then(), self.in_body()) {
            (Then::Head, false) => "head",
            (Then::Body, true) => "body",
            (Then::Turn, false) => "turn",
            (Then::Closed, false) => "closed",
            (Then::Ended, false) => "ended",
            _ => "a body, or none, against that",
        }
    }

    fn wrote(&mut self, _alloc: Global, wanted: &[u8]) -> bool {
        self.writes(wanted)
    }
}
