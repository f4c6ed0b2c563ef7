//! What a connection has still to send.

ghost use Rattle.std.specs.Prelude.{◌≡◌, ℕ, ◌<◌, ◌≤◌, Bool, true, false, List, [], ◌++◌, length, take, IfOk, OnOk, OnErr};
ghost use Rattle.std.specs.Io.Slices.{io_slices_bytes};
ghost use Rattle.s3_outbox.specs.Pending.{bytes_of};
ghost use Rattle.s3_outbox.specs.Outbox.{nothing, with_room, with_reply, with_end, without, given_back};

use crate::parts::alone;
use crate::pending::Pending;
use crate::printed::PrintedReply;
use arrayvec::ArrayVec;
use s3_bodies::Body;
use s3_terms::NoMemory;
use std::alloc::Global;
use std::io::IoSlice;
use std::marker::Model;

/// How long the last text of all may be, in bytes. It is a refusal, which has no metadata, so it is short.
const LAST_LIMIT: usize = 512;

/// What a connection has still to send: replies behind one another, and the last text of all. Contracts see
/// the bytes that aren't sent yet, whether room for one more reply is set aside, whether it was so since memory
/// was given back, and whether the last text is in.
///
/// Room for a reply is made before what it answers is done, so that the reply itself can't fail.
#[derive(Drop)]
pub struct Outbox {
    replies: Pending,
    has_room: bool,
    had_room: bool,
    last: ArrayVec<u8, LAST_LIMIT>,
    last_sent: usize,
    is_ended: bool,
}

impl Model for Outbox {
    ghost use Rattle.std.specs.Prelude.{◌≡◌, ◌≤◌, ◌++◌, length, drop, true, false, []};
    ghost use Rattle.s3_outbox.specs.Pending.{waiting, IsSound, HasRoom, KeepsRoom};
    ghost use Rattle.s3_outbox.specs.Outbox.{Sending};

    ghost Value = { Sending };

    ghost view = { λ o. record {
      unsent = waiting o.replies ++ drop o.last_sent o.last.items;
      has_room = o.has_room;
      had_room = o.had_room;
      is_ended = o.is_ended;
    } };

    ghost invariant = { λ o. IsSound o.replies
        × (o.has_room ≡ true → HasRoom o.replies)
        × (o.has_room ≡ true → o.had_room ≡ true)
        × (o.had_room ≡ true → KeepsRoom o.replies)
        × (o.last_sent ≤ length o.last.items)
        × (length o.last.items ≤ 512)
        × (o.is_ended ≡ false → o.last.items ≡ []) };
}

impl Outbox {
    /// Nothing to send, and no room. It takes no memory.
    pub fn new(alloc: Global) -> Outbox
        ensures value { result ≡ nothing }
    {
        Outbox {
            replies: Pending::new(alloc),
            has_room: false,
            had_room: false,
            last: ArrayVec::new(),
            last_sent: 0,
            is_ended: false,
        }
    }

    /// Whether room for one more reply is set aside.
    pub fn has_room(&self) -> bool
        ensures value { result ≡ self.now.has_room }
    {
        self.has_room
    }

    /// Whether the last text is in.
    pub fn is_ended(&self) -> bool
        ensures value { result ≡ self.now.is_ended }
    {
        self.is_ended
    }

    /// Sets room aside for one more reply, if there is none.
    ///
    /// # Errors
    ///
    /// `NoMemory` where there was no room and memory runs out; nothing has changed then. Once room was made,
    /// that can't be while all is sent, until memory is given back: the room is used again.
    pub fn make_room(&mut self) -> Result<(), NoMemory>
        ensures made { OnOk result (self.new ≡ with_room self.old) }
        ensures unchanged { OnErr result (self.new ≡ self.old) }
        ensures cause { OnErr result (self.old.has_room ≡ false) }
        ensures again { OnErr result (self.old.had_room ≡ true → 0 < length self.old.unsent) }
    {
        if self.has_room {
            return Ok(());
        }
        self.replies.make_room()?;
        self.has_room = true;
        self.had_room = true;
        Ok(())
    }

    /// Puts a reply behind the others, in the room that was set aside: its head, of at most 8,192 bytes, which
    /// is copied, and its body, which is moved. It takes no memory.
    pub fn push(&mut self, head: &[u8], body: Option<Body>)
        requires room { self.old.has_room ≡ true }
        requires unended { self.old.is_ended ≡ false }
        requires fits { length head.now ≤ 8_192 }
        ensures pushed { self.new ≡ with_reply self.old (head.now ++ bytes_of body) }
    {
        self.replies.push(head, body);
        self.has_room = false;
    }

    /// Puts a reply behind the others, which prints itself into the room that was set aside. It takes no memory.
    pub fn print<R: PrintedReply>(&mut self, reply: R)
        requires room { self.old.has_room ≡ true }
        requires unended { self.old.is_ended ≡ false }
        ensures printed { (text : List ℕ) × R.is_printed reply text × (self.new ≡ with_reply self.old text) }
    {
        self.replies.print(reply);
        self.has_room = false;
    }

    /// Puts the last text of all, of at most 512 bytes, behind the replies. It needs no room, and takes no
    /// memory.
    pub fn end_with(&mut self, text: &[u8])
        requires unended { self.old.is_ended ≡ false }
        requires fits { length «text».now ≤ 512 }
        ensures ended { self.new ≡ with_end self.old «text».now }
    {
        let Ok(()) = self.last.try_extend_from_slice(text) else {
            // It is empty until the end, and has room for 512 bytes.
            unreachable!()
        };
        self.last_sent = 0;
        self.is_ended = true;
    }

    /// A beginning of what is unsent, as long as it stands together; it is empty only where all is sent.
    pub fn out(&self) -> &[u8]
        ensures beginning { take (length result.now) self.now.unsent ≡ result.now }
        ensures fits { length result.now ≤ length self.now.unsent }
        ensures empty { result.now ≡ [] → self.now.unsent ≡ [] }
    {
        let replies = self.replies.out();
        if replies.is_empty() {
            &self.last.as_slice()[self.last_sent..]
        } else {
            replies
        }
    }

    /// A beginning of what is unsent in the parts in which it lies, for one write: a text, and up to three blocks of the body
    /// behind it. It is empty only where all is sent.
    #[tactic(auto, using(crate::proofs::PartLemmas::beginning_fits))]
    pub fn parts(&self) -> [IoSlice<'_>; 4]
        ensures beginning { take (length (io_slices_bytes result)) self.now.unsent ≡ io_slices_bytes result }
        ensures fits { length (io_slices_bytes result) ≤ length self.now.unsent }
        ensures empty { io_slices_bytes result ≡ [] → self.now.unsent ≡ [] }
    {
        if self.replies.out().is_empty() {
            alone(&self.last.as_slice()[self.last_sent..])
        } else {
            self.replies.parts()
        }
    }

    /// Drops so many bytes in front, which are sent. A body goes with its last byte.
    pub fn sent(&mut self, count: usize)
        requires within { count ≤ length self.old.unsent }
        ensures sent { self.new ≡ without self.old count }
    {
        self.last_sent += self.replies.send(count);
    }

    /// Gives back the memory of the texts and bodies, where all is sent and no room is set aside; else it does
    /// nothing. It takes no memory.
    pub fn give_back(&mut self)
        ensures given_back { self.new ≡ given_back self.old }
    {
        if self.has_room || !self.out().is_empty() {
            return;
        }
        self.replies.give_back();
        self.had_room = false;
    }

    /// A copy of all that is unsent.
    ///
    /// # Errors
    ///
    /// `NoMemory` where something is unsent and memory runs out.
    pub fn all(&self, alloc: Global) -> Result<Vec<u8>, NoMemory>
        ensures value { IfOk result (λ all. all.items ≡ self.now.unsent) }
        ensures cause { OnErr result (0 < length self.now.unsent) }
    {
        if self.out().is_empty() {
            return Ok(Vec::new(alloc));
        }
        let mut all = Vec::new(alloc);
        self.replies.copy_to(&mut all)?;
        all.extend_from_slice(&self.last.as_slice()[self.last_sent..])?;
        Ok(all)
    }
}
