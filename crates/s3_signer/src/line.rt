//! A header line, and its place among others.

ghost use Rattle.std.specs.Prelude.{◌≡◌, ◌≤◌, ◌↔◌, ◌++◌, true, IfOk, OnOk, length, not};
ghost use Rattle.std.specs.List.{position_or_len};
ghost use Rattle.std.specs.Ordering.{is_gt};
ghost use Rattle.s3_text.specs.Order.{byte_order};
ghost use Rattle.httparse.specs.Grammar.{print_field};
ghost use Rattle.httparse.specs.Spans.{name_and_value};
ghost use Rattle.s3_text.specs.Sorting.{insert_by};
ghost use Rattle.s3_signer.specs.Line.{pair, pairs};
ghost use Rattle.s3_signer.specs.Request.{field_of, line_cmp, lower_line};

use s3_http_heads::trimmed;
use s3_terms::NoMemory;
use std::alloc::{AllocError, Global};
use std::cmp::Ordering;

// A header line: its name in lower case, and its value.
#[derive(Drop)]
pub(crate) struct Line {
    name: Vec<u8>,
    value: Vec<u8>,
}

impl Line {
    // The line of this name, made lower case, and this value.
    pub(crate) fn new(alloc: Global, name: &[u8], value: &[u8]) -> Result<Line, AllocError>
        ensures { IfOk result (λ line. pair line ≡ lower_line (name.now, value.now)) }
    {
        let name = name.iter().map(|b| b.to_ascii_lowercase()).collect(alloc)?;
        let value = Vec::from_slice(alloc, value)?;
        Ok(Line { name, value })
    }

    // Whether it was read as it was written: with its name, and its value without the spaces and tabs
    // around it.
    pub(crate) fn reads_as(&self, name: &[u8], value: &[u8]) -> bool
        ensures { (result ≡ true) ↔ ((name.now, value.now) ≡ name_and_value (field_of (pair self.now))) }
    {
        name == self.name.as_slice() && value == trimmed(&self.value)
    }

    // Writes `name: value` and the end of the line.
    pub(crate) fn print(&self, text: &mut Vec<u8>) -> Result<(), AllocError>
        ensures { IfOk result (λ _. text.new.items ≡ text.old.items ++ print_field (field_of (pair self.now))) }
    {
        text.extend_from_slice(&self.name)?;
        text.extend_from_slice(b": ")?;
        text.extend_from_slice(&self.value)?;
        text.extend_from_slice(b"\r\n")
    }
}

// Whether the first name comes after the second one, byte by byte.
fn comes_after(first: &[u8], second: &[u8]) -> bool
    ensures { result ≡ is_gt (byte_order first.now second.now) }
{
    matches!(first.cmp(&second), Ordering::Greater)
}

// The place of the first line whose name is not below this one; the count of lines where all are.
fn place_of(lines: &[Line], name: &[u8]) -> usize
    ensures value { result
        ≡ position_or_len (λ line. not (is_gt (byte_order name.now line.name.items))) lines.now }
    ensures within { result ≤ length lines.now }
{
    for (place, line) in lines.iter().enumerate() {
        if !comes_after(name, &line.name) {
            return place;
        }
    }
    lines.len()
}

// Puts the line of this name and this value in front of the first whose name is not below its own.
pub(crate) fn add_line(
    alloc: Global,
    name: &[u8],
    value: &[u8],
    lines: &mut Vec<Line>,
) -> Result<(), NoMemory>
    ensures { OnOk result (pairs lines.new.items
        ≡ insert_by line_cmp (lower_line (name.now, value.now)) (pairs lines.old.items)) }
{
    let line = Line::new(alloc, name, value)?;
    let place = place_of(lines, &line.name);
    Ok(lines.insert(place, line)?)
}
