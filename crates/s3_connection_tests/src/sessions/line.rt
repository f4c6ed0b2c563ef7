//! A connection with the moments of its messages, and the turn that its command waits for.
ghost use Rattle.std.specs.Prelude.{◌≡◌, true, is_some};
ghost use Rattle.s3_session.specs.Output.{is_waiting};
ghost use Rattle.s3_session.specs.Session.{standing_of};

use crate::sessions::clock::Counting;
use crate::sessions::server::applied;
use s3_config::Config;
use s3_machine::Turn;
use s3_records::MapRecords;
use s3_session::{Fed, Need, Next, Session};
use s3_store::Store;
use s3_terms::NoMemory;
use std::alloc::Global;
use std::mem::{self, drop};

/// What a connection does next.
#[derive(Clone, Copy, PartialEq, Eq)]
pub(crate) enum Then {
    /// It reads a head.
    Head,
    /// It reads a body.
    Body,
    /// It waits for the answer to a command.
    Turn,
    /// Nothing: it is closed.
    Closed,
    /// Nothing: its bytes have ended.
    Ended,
}

/// A connection with the moments of its messages, the turn that its command waits for, and the store where it has its turns.
#[derive(Drop)]
pub(crate) struct Line<'a> {
    alloc: Global,
    config: &'a Config,
    moments: Counting,
    session: Session,
    waiting: Option<Turn>,
    has_ended: bool,
    then: Then,
    store: &'a mut Store<MapRecords>,
    ghost waits: { is_waiting (standing_of session) ≡ is_some waiting },
    ghost ends: { session.is_ended ≡ has_ended },
}

// Holds a turn that is asked for. What stood in its place is dropped, which costs little in the library's function alone.
fn hold(waiting: &mut Option<Turn>, turn: Turn)
    ensures held { is_some waiting.new ≡ true }
{
    drop(mem::replace(waiting, Some(turn)));
}

impl<'a> Line<'a> {
    /// A connection of which nothing has come, with these moments, over this store.
    pub(crate) fn new(
        alloc: Global,
        config: &'a Config,
        moments: Counting,
        store: &'a mut Store<MapRecords>,
    ) -> Line<'a> {
        Line {
            alloc,
            config,
            moments,
            session: Session::new(alloc),
            waiting: None,
            has_ended: false,
            then: Then::Head,
            store,
        }
    }

    /// How many of its messages had a moment.
    pub(crate) fn timed(&self) -> usize {
        self.moments.count
    }

    /// Whether the body of a message is open.
    pub(crate) fn in_body(&self) -> bool {
        self.session.in_body()
    }

    /// What comes next, as it was told last.
    pub(crate) fn then(&self) -> Then {
        self.then
    }

    /// Feeds a piece: how many of its bytes were taken. Where a command waits, or the bytes have ended, nothing is fed.
    pub(crate) fn feed(&mut self, piece: &[u8]) -> usize {
        let (len, then) = self.fed(piece);
        self.then = then;
        len
    }

    // The same, with what comes next.
    fn fed(&mut self, piece: &[u8]) -> (usize, Then) {
        if self.waiting.is_some() {
            return (0, Then::Turn);
        }
        if self.has_ended {
            return (0, Then::Ended);
        }
        let now = self.moments.next;
        let Fed {
            len,
            need,
            has_moment,
        } = self.session.feed(self.alloc, self.config, now, piece);
        self.moments.go_on_if(has_moment);
        match need {
            Need::More => (len, self.reading()),
            Need::Turn(turn) => {
                hold(&mut self.waiting, turn);
                (len, Then::Turn)
            }
            Need::Close => (len, Then::Closed),
        }
    }

    // What is read, where something is.
    fn reading(&self) -> Then {
        if self.session.in_body() {
            Then::Body
        } else {
            Then::Head
        }
    }

    /// Gives the turn that was asked for, if one was.
    pub(crate) fn answer(&mut self) {
        if let Some(turn) = self.waiting.take() {
            let answer = applied(self.alloc, self.config, self.store, turn);
            let next = self.session.answer(answer);
            self.then = self.behind(next);
        }
    }

    /// Says of the turn that was asked for, if one was, that memory ran out for it.
    pub(crate) fn starve(&mut self) {
        if let Some(turn) = self.waiting.take() {
            drop(turn);
            let next = self.session.answer(Err(NoMemory));
            self.then = self.behind(next);
        }
    }

    // What comes next behind an answer.
    fn behind(&self, next: Next) -> Then {
        if self.has_ended {
            return Then::Ended;
        }
        match next {
            Next::More => self.reading(),
            Next::Close => Then::Closed,
        }
    }

    /// Says that no more bytes come.
    pub(crate) fn end(&mut self) {
        self.session.end();
        self.has_ended = true;
        if self.waiting.is_none() {
            self.then = Then::Ended;
        }
    }

    /// Takes all that was written and not taken: whether it is this.
    pub(crate) fn writes(&mut self, wanted: &[u8]) -> bool {
        match self.session.all(self.alloc) {
            Ok(all) => {
                self.session.sent(all.len());
                all.as_slice() == wanted
            }
            Err(NoMemory) => false,
        }
    }

    /// Takes all that was written and not taken, at most so many bytes at a time of what stands together: what is left of
    /// what has to be written, if it begins so.
    pub(crate) fn take<'w>(&mut self, most: usize, wanted: &'w [u8]) -> Option<&'w [u8]> {
        let mut left = wanted;
        for _ in 0..=wanted.len() {
            let out = self.session.out();
            let count = out.len().min(most);
            if count == 0 {
                return Some(left);
            }
            left = left.strip_prefix(&out[..count])?;
            self.session.sent(count);
        }
        None
    }
}
