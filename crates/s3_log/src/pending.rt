//! Lines that wait for their writer.

ghost use Rattle.std.specs.Prelude.{◌≡◌, [], IfOk, OnErr};
ghost use Rattle.s3_log.specs.Line.{line_of};
ghost use Rattle.s3_log.specs.Pending as rules;

use crate::beginning::Beginning;
use crate::line::Message;
use crate::lines::Lines;
use s3_terms::NoMemory;
use std::alloc::Global;
use std::mem;

/// Lines that wait, how many those are, and how many were lost for which there was no room.
#[derive(Drop)]
pub(crate) struct Pending {
    pub(crate) lines: Lines,
    pub(crate) count: u64,
    pub(crate) lost: u64,
    // How many there are that still add lines.
    pub(crate) tellers: u64,
}

/// What a writer was given of them.
#[derive(Clone, Copy)]
pub(crate) struct Given {
    /// How many lines.
    pub(crate) count: u64,
    /// How many were lost beside them.
    pub(crate) lost: u64,
    /// Whether no more come.
    pub(crate) is_last: bool,
}

impl Pending {
    /// None yet, of so many tellers.
    pub(crate) fn new(alloc: Global, tellers: u64) -> Result<Pending, NoMemory>
        ensures { IfOk result (λ pending. pending ≡ rules.nothing_of tellers) }
    {
        let lines = Lines::new(alloc)?;
        Ok(Pending {
            lines,
            count: 0,
            lost: 0,
            tellers,
        })
    }

    /// Adds the line of a message, or counts it as lost where there is no room for it, or no memory to make it. It answers whether there
    /// was room.
    pub(crate) fn tell(
        &mut self,
        alloc: Global,
        beginning: &Beginning,
        message: &Message<'_>,
    ) -> Result<bool, NoMemory>
        ensures told { IfOk result (rules.HasTold (line_of beginning.now message.now) self.old self.new) }
        ensures lost { OnErr result (self.new ≡ rules.one_lost self.old) }
    {
        let put = self.lines.put(alloc, beginning, message);
        match put {
            Ok(true) => self.count = self.count.saturating_add(1),
            Ok(false) | Err(NoMemory) => self.lose(),
        }
        put
    }

    /// Counts a line as lost.
    pub(crate) fn lose(&mut self)
        ensures { self.new ≡ rules.one_lost self.old }
    {
        self.lost = self.lost.saturating_add(1);
    }

    /// One who added lines adds no more.
    pub(crate) fn leave(&mut self)
        ensures { self.new ≡ rules.one_left self.old }
    {
        self.tellers = self.tellers.saturating_sub(1);
    }

    /// Gives all of them, in exchange for room that has none.
    pub(crate) fn give(&mut self, room: &mut Lines) -> Given
        requires { room.old ≡ [] }
        ensures lines { room.new ≡ self.old.lines }
        ensures given { result ≡ rules.given_of self.old }
        ensures left { self.new ≡ rules.nothing_of self.old.tellers }
    {
        mem::swap(&mut self.lines, room);
        Given {
            count: mem::replace(&mut self.count, 0),
            lost: mem::replace(&mut self.lost, 0),
            is_last: self.tellers == 0,
        }
    }
}
