//! Runs of the program: what they are given, and what comes of them.
use crate::program::devices::{Manner, Stream, files, run};
use s3_cli::Ran;
use std::alloc::Global;
use std::str;
use std::sync::Wait;

/// A run: its words, how files and devices do their work, and what comes of it.
#[derive(Clone, Copy)]
pub struct Run<'a> {
    pub name: &'a str,
    // Its words, with a space between two, and one more, where there is one.
    pub words: &'a str,
    pub last: &'a str,
    // Whether there is no memory for files.
    pub is_full: bool,
    pub given: &'a [u8],
    pub input: Manner,
    pub output: Manner,
    pub errors: Manner,
    pub status: u8,
    pub written: &'a [u8],
    // A part of the text for the user where the status is 2, and else the fault that it tells in one line, or nothing.
    pub said: &'a str,
}

/// A run without words, input and output.
pub const QUIET: Run = Run {
    name: "",
    words: "",
    last: "",
    is_full: false,
    given: b"",
    input: Manner::Able,
    output: Manner::Able,
    errors: Manner::Able,
    status: 0,
    written: b"",
    said: "",
};

// Whether the text for the user tells this.
fn is_said(text: &[u8], status: u8, said: &str) -> bool {
    match str::from_utf8(text) {
        Ok(text) if status == 2 => text.contains(said),
        Ok(text) => match text.strip_prefix("s3d: ") {
            Some(fault) => fault.strip_suffix('\n') == Some(said),
            None => text.is_empty() && said.is_empty(),
        },
        Err(_) => false,
    }
}

/// The words of a text, and the last one, if there is one; `None` where there is no memory.
pub fn words_of<'a>(alloc: Global, text: &'a str, last: &'a str) -> Option<Vec<&'a str>> {
    let mut words = Vec::new(alloc);
    if !text.is_empty() {
        for word in text.split(' ') {
            words.push(word).ok()?;
        }
    }
    if !last.is_empty() {
        words.push(last).ok()?;
    }
    Some(words)
}

// What a run on these words writes, where its status and what it tells are right.
fn written_of<R: Wait>(rt: &R, alloc: Global, words: &[&str], asked: &Run) -> Option<Vec<u8>> {
    let mut input = Stream::new(alloc, asked.input, asked.given);
    let mut output = Stream::new(alloc, asked.output, b"");
    let mut errors = Stream::new(alloc, asked.errors, b"");
    let files = files(asked.is_full);
    match run(
        rt,
        alloc,
        words,
        &files,
        &mut input,
        &mut output,
        &mut errors,
    ) {
        Some(Ran::Ended(status))
            if status == asked.status && is_said(&errors.taken, status, asked.said) => {
            Some(output.taken)
        }
        _ => None,
    }
}

/// What the run writes, where its status and what it tells are right.
pub fn written<R: Wait>(rt: &R, alloc: Global, asked: &Run) -> Option<Vec<u8>> {
    let words = words_of(alloc, asked.words, asked.last)?;
    written_of(rt, alloc, words.as_slice(), asked)
}

/// The run comes to that.
pub fn comes_to_that<R: Wait>(rt: &R, alloc: Global, asked: &Run) -> bool {
    match written(rt, alloc, asked) {
        Some(text) => text.as_slice() == asked.written,
        None => false,
    }
}
