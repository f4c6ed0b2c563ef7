//! The header lines of a request: those given and those added, in their order.

ghost use Rattle.std.specs.Prelude.{◌≡◌, ◌++◌, ◌∷◌, List, [], map, length, IfOk, OnOk, if◌then◌else◌};
ghost use Rattle.s3_text.specs.Sorting.{insert_by, sorted_by};
ghost use Rattle.s3_signer.specs.Line.{pairs, told_by};
ghost use Rattle.s3_signer.specs.Request.{HeaderLine, added_lines, given_lines, length_line, line_cmp, lower_line, unsigned_lines};
ghost use Rattle.s3_signer.specs.Presigned.{lines_of, size_line};

use crate::line::{Line, add_line};
use crate::telling::Telling;
use itoa::Buffer;
use s3_terms::NoMemory;
use std::alloc::Global;

// Puts the given lines to their places among others. The last one goes first, so that those of one name stay
// as they were given.
fn add_lines(alloc: Global, given: &[(&[u8], &[u8])], lines: &mut Vec<Line>) -> Result<(), NoMemory>
    ensures { OnOk result ((others : List HeaderLine) → pairs lines.old.items ≡ sorted_by line_cmp others
        → pairs lines.new.items ≡ sorted_by line_cmp (map lower_line (given_lines given.now) ++ others)) }
{
    for index in (0..given.len()).rev() {
        let (name, value) = given[index];
        add_line(alloc, name, value, lines)?;
    }
    Ok(())
}

// Puts the line that tells the size of the body to its place, where it is told.
fn add_size(alloc: Global, sized: bool, size: usize, lines: &mut Vec<Line>) -> Result<(), NoMemory>
    ensures { OnOk result (pairs lines.new.items ≡ (if sized
        then insert_by line_cmp (lower_line (length_line size)) (pairs lines.old.items)
        else pairs lines.old.items)) }
{
    if !sized {
        return Ok(());
    }
    let mut digits = Buffer::new();
    let size = digits.format(size).as_bytes();
    add_line(alloc, b"content-length", size, lines)
}

// The lines that a signer adds, in their order.
fn added_lines(alloc: Global, telling: &Telling, stamp: &[u8]) -> Result<Vec<Line>, NoMemory>
    ensures { IfOk result (λ lines. pairs lines.items
        ≡ sorted_by line_cmp (map lower_line (added_lines (told_by telling.now) stamp.now))) }
{
    let mut lines = Vec::new(alloc);
    add_lines(alloc, telling.more, &mut lines)?;
    add_size(alloc, telling.sized, telling.size, &mut lines)?;
    add_line(alloc, b"x-amz-date", stamp, &mut lines)?;
    add_line(alloc, b"x-amz-content-sha256", telling.word, &mut lines)?;
    Ok(lines)
}

// All lines but that of the authorization, in their order.
#[tactic(auto, unfolding(crate::specs::Request::unsigned_lines))]
pub(crate) fn unsigned_lines(
    alloc: Global,
    headers: &[(&[u8], &[u8])],
    telling: &Telling,
    stamp: &[u8],
) -> Result<Vec<Line>, NoMemory>
    ensures { IfOk result (λ lines. pairs lines.items
        ≡ unsigned_lines (given_lines headers.now) (told_by telling.now) stamp.now) }
{
    let mut lines = added_lines(alloc, telling, stamp)?;
    add_lines(alloc, headers, &mut lines)?;
    Ok(lines)
}

// The line that tells this size, if one does.
#[tactic(auto, unfolding(s3_text::specs::Sorting::sorted_by))]
fn size_lines(alloc: Global, size: Option<usize>) -> Result<Vec<Line>, NoMemory>
    ensures { IfOk result (λ lines. pairs lines.items ≡ sorted_by line_cmp (map lower_line (size_line size))) }
{
    let mut lines = Vec::new(alloc);
    let Some(size) = size else {
        return Ok(lines);
    };
    add_size(alloc, true, size, &mut lines)?;
    Ok(lines)
}

// The given lines, and that of the size, if there is one, in their order.
pub(crate) fn sized_lines(
    alloc: Global,
    headers: &[(&[u8], &[u8])],
    size: Option<usize>,
) -> Result<Vec<Line>, NoMemory>
    ensures { IfOk result (λ lines. pairs lines.items ≡ lines_of (given_lines headers.now ++ size_line size)) }
{
    let mut lines = size_lines(alloc, size)?;
    add_lines(alloc, headers, &mut lines)?;
    Ok(lines)
}
