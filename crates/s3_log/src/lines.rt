//! Lines in the room that was taken for them.

ghost use Rattle.std.specs.Prelude.{◌≡◌, ◌≤◌, ◌+◌, [], length, min, take, vec_capacity, IfOk, OnOk, OnErr};
ghost use Rattle.s3_log.specs.Line.{line_of};
ghost use Rattle.s3_log.specs.Lines.{HasPut, room};
ghost use Rattle.s3_log.specs.Room.{Keeps, Puts};

use crate::beginning::Beginning;
use crate::line::{Message, put_line};
use s3_terms::NoMemory;
use std::alloc::Global;
use std::marker::Model;

/// How many bytes of lines wait at most.
pub(crate) const ROOM: usize = 4_194_304;

// How many bytes a usual line has at most.
const USUAL: usize = 4_096;

// How many more bytes are used at once, where more are.
const STEP: usize = 65_536;

/// Lines, for which the room was taken at first. What was used of it is used again.
#[derive(Drop)]
pub(crate) struct Lines {
    // What was used of the room so far, and where the last line ends.
    bytes: Vec<u8>,
    end: usize,
}

impl Model for Lines {
    ghost use Rattle.std.specs.Prelude.{ℕ, ◌≤◌, List, length, take, vec_capacity};
    ghost use Rattle.s3_log.specs.Lines.{room};

    ghost Value = { List ℕ };

    ghost view = { λ l. take l.end l.bytes.items };

    ghost invariant = { λ l. (l.end ≤ length l.bytes.items) × ((length l.bytes.items ≤ room) × (room ≤ vec_capacity l.bytes)) };
}

impl Lines {
    /// None. It takes memory for all that they may become.
    pub(crate) fn new(alloc: Global) -> Result<Lines, NoMemory>
        ensures { IfOk result (λ lines. lines ≡ []) }
    {
        Ok(Lines {
            bytes: Vec::with_capacity(alloc, ROOM)?,
            end: 0,
        })
    }

    /// Puts the line of a message behind the others, and answers whether there was room for it.
    pub(crate) fn put(
        &mut self,
        alloc: Global,
        beginning: &Beginning,
        message: &Message<'_>,
    ) -> Result<bool, NoMemory>
        ensures put { IfOk result (HasPut room (line_of beginning.now message.now) self.old self.new) }
        ensures same { OnErr result (self.new ≡ self.old) }
    {
        if self.put_within(alloc, beginning, message, USUAL)? {
            return Ok(true);
        }
        self.put_within(alloc, beginning, message, ROOM)
    }

    // The same, where a line that has more bytes than this may be left out.
    fn put_within(
        &mut self,
        alloc: Global,
        beginning: &Beginning,
        message: &Message<'_>,
        more: usize,
    ) -> Result<bool, NoMemory>
        ensures put { IfOk result (HasPut more (line_of beginning.now message.now) self.old self.new) }
        ensures same { OnErr result (self.new ≡ self.old) }
    {
        widen(&mut self.bytes, self.end, more)?;
        let end = put_behind(alloc, &mut self.bytes, self.end, beginning, message)?;
        if end > self.bytes.len() {
            return Ok(false);
        }
        self.end = end;
        Ok(true)
    }

    /// Drops all.
    pub(crate) fn clear(&mut self)
        ensures { self.new ≡ [] }
    {
        self.end = 0;
    }

    /// All of them.
    pub(crate) fn as_slice(&self) -> &[u8]
        ensures { result.now ≡ self.now }
    {
        &self.bytes[..self.end]
    }
}

// Uses so many bytes behind a place, as far as there is room.
fn widen(bytes: &mut Vec<u8>, end: usize, more: usize) -> Result<(), NoMemory>
    requires within { end ≤ length bytes.old.items }
    requires few { length bytes.old.items ≤ room }
    ensures few { length bytes.new.items ≤ room }
    ensures kept { take end bytes.new.items ≡ take end bytes.old.items }
    ensures within { end ≤ length bytes.new.items }
    ensures wide { OnOk result (min (end + more) room ≤ length bytes.new.items) }
    ensures capacity { vec_capacity bytes.old ≤ vec_capacity bytes.new }
{
    let least = end.saturating_add(more).min(ROOM);
    if bytes.len() < least {
        bytes.resize(least.saturating_add(STEP).min(ROOM), 0)?;
    }
    Ok(())
}

// Puts the line of a message behind a place, if it fits into what is used, and answers where it ends.
fn put_behind(
    alloc: Global,
    bytes: &mut Vec<u8>,
    end: usize,
    beginning: &Beginning,
    message: &Message<'_>,
) -> Result<usize, NoMemory>
    ensures put { IfOk result (λ next. Puts (line_of beginning.now message.now) end bytes.old.items bytes.new.items next) }
    ensures kept { OnErr result (Keeps end bytes.old.items bytes.new.items) }
    ensures capacity { vec_capacity bytes.new ≡ vec_capacity bytes.old }
{
    put_line(alloc, bytes.as_mut_slice(), end, beginning, message)
}
