//! Texts that are put together by the names of their parts.
//!
//! A text of parts has a tilde before each, and an equals sign between its name and what it stands for; what has none is a
//! remark. Names stand in a list with a comma between two; a star and a number behind one say how often it stands there.
use crate::sessions::replies::REPLIES;
use crate::sessions::requests::REQUESTS;
use std::alloc::Global;

// What the part with this name stands for, if it is one of these.
fn part_in(parts: &'static str, name: &str) -> Option<&'static str> {
    for part in parts.split('~') {
        match part.split_once('=') {
            Some((other, text)) if other == name => return Some(text),
            _ => {}
        }
    }
    None
}

/// What the part with this name stands for.
pub(crate) fn part(name: &str) -> Option<&'static str> {
    part_in(REQUESTS, name).or(part_in(REPLIES, name))
}

// Adds 2 MiB, of which each byte is its place modulo 251.
fn add_places(bytes: &mut Vec<u8>) -> Option<()> {
    for place in 0..2_097_152_u32 {
        bytes.push((place % 251) as u8).ok()?;
    }
    Some(())
}

// The answer to a get of `hello` that is the command with this number.
fn shown(alloc: Global, number: u32) -> Option<String> {
    let (front, behind) = part("shown")?.split_once("0000000000000001")?;
    format!(in alloc; "{front}{number:016x}{behind}").ok()
}

// Adds the answers to so many gets, of which the first is the second command.
fn add_shown(alloc: Global, bytes: &mut Vec<u8>, times: u32) -> Option<()> {
    for number in 1..=times {
        let answer = shown(alloc, number)?;
        bytes.extend_from_slice(answer.as_bytes()).ok()?;
    }
    Some(())
}

// Adds a part so many times.
fn add_times(bytes: &mut Vec<u8>, name: &str, times: u32) -> Option<()> {
    let text = part(name)?;
    for _ in 0..times {
        bytes.extend_from_slice(text.as_bytes()).ok()?;
    }
    Some(())
}

// Adds what a name of a list stands for.
fn add(alloc: Global, bytes: &mut Vec<u8>, listed: &str) -> Option<()> {
    let (name, times) = listed.split_once('*').unwrap_or((listed, "1"));
    let times = times.parse::<u32>().ok()?;
    match name {
        "2 MiB" => add_places(bytes),
        "shown each" => add_shown(alloc, bytes, times),
        _ => add_times(bytes, name, times),
    }
}

// Adds what all names of a list stand for.
fn add_all(alloc: Global, bytes: &mut Vec<u8>, names: &str) -> Option<()> {
    for name in names.split(", ") {
        add(alloc, bytes, name)?;
    }
    Some(())
}

/// The bytes of the parts in a list; `None` says that there was no memory, or that one is no part.
pub(crate) fn bytes_of(alloc: Global, names: &str) -> Option<Vec<u8>> {
    let mut bytes = Vec::new(alloc);
    add_all(alloc, &mut bytes, names)?;
    Some(bytes)
}

/// The bytes of the parts in two lists, one behind the other, and how many those of the first are; `None` as above.
pub(crate) fn joined(alloc: Global, front: &str, behind: &str) -> Option<(Vec<u8>, usize)> {
    let mut bytes = bytes_of(alloc, front)?;
    let len = bytes.len();
    add_all(alloc, &mut bytes, behind)?;
    Some((bytes, len))
}
