//! What is told of the messages of one connection.

ghost use Rattle.std.specs.Prelude.{◌≡◌, true, is_some, IfOk, OnErr};

use crate::beginning::Beginning;
use crate::line::Message;
use crate::log::Log;
use crate::peer::peer_text;
use s3_calendar::Moment;
use s3_driver::{MessageObserver, Told};
use s3_terms::{Code, NoMemory};
use std::alloc::Global;
use std::net::SocketAddr;
use std::sync::Wait;
use std::time::{Clock, Instant};

// For how many bytes of a head room is kept: usual ones have no more.
const KEPT_ROOM: usize = 1_024;

/// What is told of the messages of one connection: a line each, once its reply is out or its connection has ended. Without a
/// log nothing is told, nothing is done for it, and it takes no memory.
#[derive(Drop)]
pub struct MessageLog<'a, W: Wait> {
    telling: Option<Box<Telling<'a, W>>>,
}

// What is told to a log of the messages of one connection.
#[derive(Drop)]
struct Telling<'a, W: Wait> {
    rt: &'a W,
    alloc: Global,
    log: &'a Log,
    connection: u64,
    // The address of its peer, as a text.
    peer: Vec<u8>,
    // When what happens now was found ready.
    now: Instant,
    // The moment of the message at hand, when its head was found whole, and how many bytes were written since then.
    moment: Option<Moment>,
    since: Instant,
    bytes: u64,
    // What came of a message whose reply isn't out, and its head. The room for heads stays, so that a message takes none while the
    // room for its reply is taken and given back.
    came: Option<Came>,
    head: Vec<u8>,
    // How the last line began.
    beginning: Option<Beginning>,
}

// What came of a message, and whether its head was verified.
#[derive(Clone, Copy)]
struct Came {
    is_verified: bool,
    told: Told,
}

impl<'a, W: Wait + Clock> MessageLog<'a, W> {
    /// Nothing is told yet of the connection of this number, which comes now from its peer, if that is known. `NoMemory` comes only
    /// where there is a log.
    pub fn new(
        rt: &'a W,
        alloc: Global,
        log: Option<&'a Log>,
        connection: u64,
        peer: Option<SocketAddr>,
        now: Instant,
    ) -> Result<MessageLog<'a, W>, NoMemory>
        ensures memory { OnErr result (is_some log.entry ≡ true) }
    {
        let Some(log) = log else {
            return Ok(MessageLog { telling: None });
        };
        let telling = Telling {
            rt,
            alloc,
            log,
            connection,
            peer: peer_text(alloc, peer)?,
            now,
            moment: None,
            since: now,
            bytes: 0,
            came: None,
            head: Vec::new(alloc),
            beginning: None,
        };
        Ok(MessageLog {
            telling: Some(Box::new(alloc, telling)?),
        })
    }
}

impl<W: Wait + Clock> MessageObserver for MessageLog<'_, W> {
    fn begins(&mut self, now: Moment) {
        if let Some(telling) = &mut self.telling {
            telling.begins(now);
        }
    }

    fn ends(&mut self, head: Option<&[u8]>, is_verified: bool, told: Told) {
        if let Some(telling) = &mut self.telling {
            telling.ends(head, is_verified, told);
        }
    }

    fn wrote(&mut self, count: usize, is_all: bool) {
        if let Some(telling) = &mut self.telling {
            telling.wrote(count, is_all);
        }
    }

    fn at(&mut self, now: Instant) {
        if let Some(telling) = &mut self.telling {
            telling.now = now;
        }
    }

    fn leaves(&mut self) {
        if let Some(telling) = &mut self.telling {
            telling.tell();
        }
    }
}

impl<W: Wait + Clock> Telling<'_, W> {
    // A message begins, whose whole head has come at this moment, or more than a head may have.
    fn begins(&mut self, now: Moment) {
        self.moment = Some(now);
        self.since = self.now;
        self.bytes = 0;
    }

    // It ends so: its head is kept until its reply is out.
    fn ends(&mut self, head: Option<&[u8]>, is_verified: bool, told: Told) {
        self.head.clear();
        self.came = match self.head.extend_from_slice(head_told(head, told)) {
            Ok(()) => Some(Came { is_verified, told }),
            Err(_) => {
                self.log.lose(self.rt);
                None
            }
        };
    }

    // So many bytes were written, and whether nothing is left to write.
    fn wrote(&mut self, count: usize, is_all: bool) {
        self.bytes = self.bytes.saturating_add(count as u64);
        if is_all {
            self.tell();
        }
    }

    // Tells the line of a message that is written out, if there is one.
    fn tell(&mut self) {
        let (Some(moment), Some(came)) = (self.moment, self.came.take()) else {
            return;
        };
        match self.beginning_at(moment) {
            Ok(beginning) => {
                self.log
                    .tell(self.rt, self.alloc, &beginning, &self.message(came));
                self.beginning = Some(beginning);
            }
            Err(NoMemory) => self.log.lose(self.rt),
        }
        self.head.clear();
        self.head.shrink_to(KEPT_ROOM);
    }

    // What is told of a message to which this came.
    fn message(&self, came: Came) -> Message<'_>
        ensures peer { result.peer.now ≡ self.entry.now.peer.items }
        ensures told { result.told ≡ came.told }
    {
        Message {
            peer: &self.peer,
            head: &self.head,
            is_verified: came.is_verified,
            told: came.told,
            bytes: self.bytes,
            microseconds: self.microseconds(),
        }
    }

    // How a line of this moment begins: as the last one, or anew.
    fn beginning_at(&mut self, moment: Moment) -> Result<Beginning, NoMemory>
        ensures { IfOk result (λ beginning. beginning ≡ record { moment = moment; connection = self.old.connection }) }
    {
        match self.beginning.take() {
            Some(last) if last.is_of(moment, self.connection) => Ok(last),
            _ => Beginning::new(self.alloc, moment, self.connection),
        }
    }

    // How many microseconds the message has taken, if the clock can be read.
    fn microseconds(&self) -> Option<u64> {
        let waited = self.since.elapsed(self.rt).ok()?;
        u64::try_from(waited.as_micros()).ok()
    }
}

// The head that is told: none where it couldn't be read.
fn head_told(head: Option<&[u8]>, told: Told) -> &[u8] {
    match (head, told.code) {
        (_, Some(Code::MalformedHead | Code::HeadTooLarge)) | (None, _) => &[],
        (Some(head), _) => head,
    }
}
