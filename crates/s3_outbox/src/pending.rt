//! Replies that wait to be sent: their texts in one piece of memory, and their bodies as they came.

ghost use Rattle.std.specs.Prelude.{◌≡◌, ◌≢◌, ℕ, ◌+◌, ◌-◌, ◌<◌, ◌≤◌, List, [], ◌++◌, length, take, drop, IfOk, OnOk, OnErr, min};
ghost use Rattle.std.specs.Vec.{vec_len, vec_capacity};
ghost use Rattle.std.specs.VecDeque.{deque_len, deque_capacity};
ghost use Rattle.std.specs.Io.Slices.{io_slices_bytes};
ghost use Rattle.s3_outbox.specs.Pending.{bytes_of, waiting, AreInOrder, IsPartGone, IsSound, HasRoom, LeavesRoom, TakesNone, text_front, body_size};

use crate::parts::{alone, with_body};
use crate::placed::{Placed, first_of, place};
use crate::printed::PrintedReply;
use s3_bodies::Body;
use s3_terms::NoMemory;
use std::alloc::Global;
use std::collections::VecDeque;
use std::io::IoSlice;

/// How long the text of a reply may be, in bytes.
pub(crate) const TEXT_LIMIT: usize = 8_192;

/// The texts of replies one behind another, of which the first `at` bytes are sent, and the bodies between
/// them, of the first of which `taken` bytes are sent. The text's memory is used again once all is sent, until
/// it is given back.
#[derive(Drop)]
pub(crate) struct Pending {
    pub(crate) text: Vec<u8>,
    pub(crate) at: usize,
    pub(crate) bodies: VecDeque<Placed>,
    pub(crate) taken: usize,
}

impl Pending {
    // Nothing, without memory.
    pub(crate) fn new(alloc: Global) -> Pending
        ensures sound { IsSound result }
        ensures empty { waiting result ≡ [] }
    {
        Pending {
            text: Vec::new(alloc),
            at: 0,
            bodies: VecDeque::new(alloc),
            taken: 0,
        }
    }

    // Makes room for a text and a body.
    pub(crate) fn make_room(&mut self) -> Result<(), NoMemory>
        requires sound { IsSound self.old }
        ensures sound { IsSound self.new }
        ensures same { waiting self.new ≡ waiting self.old }
        ensures text_stays { vec_capacity self.old.text ≤ vec_capacity self.new.text }
        ensures bodies_stay { deque_capacity self.old.bodies ≤ deque_capacity self.new.bodies }
        ensures room { OnOk result (HasRoom self.new) }
        ensures full { OnErr result (HasRoom self.old → ⊥) }
    {
        self.text.reserve(TEXT_LIMIT)?;
        self.bodies.reserve(1)?;
        Ok(())
    }

    // Puts a reply behind the others, in the room that there is.
    pub(crate) fn push(&mut self, head: &[u8], body: Option<Body>)
        requires sound { IsSound self.old }
        requires room { HasRoom self.old }
        requires fits { length head.now ≤ 8_192 }
        ensures sound { IsSound self.new }
        ensures pushed { waiting self.new ≡ waiting self.old ++ (head.now ++ bytes_of body) }
        ensures text_stays { vec_capacity self.old.text ≤ vec_capacity self.new.text }
        ensures bodies_stay { deque_capacity self.old.bodies ≤ deque_capacity self.new.bodies }
    {
        let Ok(()) = self.text.extend_from_slice(head) else {
            // The room that was set aside has room for a head.
            unreachable!()
        };
        place(&mut self.bodies, self.text.len(), body);
    }

    // Puts a reply behind the others, which prints itself into the room that there is.
    pub(crate) fn print<R: PrintedReply>(&mut self, reply: R)
        requires sound { IsSound self.old }
        requires room { HasRoom self.old }
        ensures sound { IsSound self.new }
        ensures printed { (text : List ℕ) × R.is_printed reply text × (waiting self.new ≡ waiting self.old ++ text) }
        ensures text_stays { vec_capacity self.old.text ≤ vec_capacity self.new.text }
        ensures bodies_stay { deque_capacity self.old.bodies ≤ deque_capacity self.new.bodies }
    {
        let body = reply.print(&mut self.text);
        place(&mut self.bodies, self.text.len(), body);
    }

    // The bytes in front that stand together.
    pub(crate) fn out(&self) -> &[u8]
        requires sound { IsSound self.now }
        ensures beginning { take (length result.now) (waiting self.now) ≡ result.now }
        ensures empty { result.now ≡ [] → waiting self.now ≡ [] }
    {
        match first_of(&self.bodies) {
            None => &self.text[self.at..],
            Some(first) => {
                if self.at < first.behind {
                    &self.text[self.at..first.behind]
                } else {
                    first.body.piece(self.taken as u64).bytes()
                }
            }
        }
    }

    // The bytes in front that go out in one write.
    pub(crate) fn parts(&self) -> [IoSlice<'_>; 4]
        requires sound { IsSound self.now }
        ensures beginning { take (length (io_slices_bytes result)) (waiting self.now) ≡ io_slices_bytes result }
        ensures empty { io_slices_bytes result ≡ [] → waiting self.now ≡ [] }
    {
        match first_of(&self.bodies) {
            None => alone(&self.text[self.at..]),
            Some(first) => with_body(
                &self.text[self.at..first.behind],
                &first.body,
                self.taken as u64,
            ),
        }
    }

    // Drops so many bytes in front, or all.
    //
    // Returns how many more there would have been to drop.
    pub(crate) fn send(&mut self, count: usize) -> usize
        requires sound { IsSound self.old }
        ensures sound { IsSound self.new }
        ensures sent { waiting self.new ≡ drop count (waiting self.old) }
        ensures value { result ≡ count - length (waiting self.old) }
        ensures room { LeavesRoom self.old self.new }
    {
        let mut left = count;
        while left > 0 {
            if self.out().is_empty() {
                return left;
            }
            left -= self.send_front(left);
        }
        0
    }

    // Drops at most so many of the bytes in front that stand together.
    //
    // Returns how many.
    fn send_front(&mut self, most: usize) -> usize
        requires sound { IsSound self.old }
        requires some { 0 < most }
        requires waits { waiting self.old ≢ [] }
        ensures sound { IsSound self.new }
        ensures sent { waiting self.new ≡ drop result (waiting self.old) }
        ensures some { 0 < result }
        ensures most { result ≤ most }
        ensures fits { result ≤ length (waiting self.old) }
        ensures room { LeavesRoom self.old self.new }
    {
        let text = self.text_front();
        if text > 0 {
            let count = text.min(most);
            self.send_text(count);
            return count;
        }
        let count = (self.body_size() - self.taken).min(most);
        self.send_body(count);
        count
    }

    // How much text stands in front.
    fn text_front(&self) -> usize
        requires sound { IsSound self.now }
        ensures value { result ≡ text_front (length self.now.text.items) self.now.at self.now.bodies.items }
    {
        match first_of(&self.bodies) {
            None => self.text.len() - self.at,
            Some(first) => first.behind - self.at,
        }
    }

    // How many bytes the first body has.
    fn body_size(&self) -> usize
        ensures value { result ≡ body_size self.now.bodies.items }
    {
        match first_of(&self.bodies) {
            None => 0,
            Some(first) => first.body.size() as usize,
        }
    }

    // Drops so much of the text in front.
    fn send_text(&mut self, count: usize)
        requires sound { IsSound self.old }
        requires fits { count ≤ text_front (length self.old.text.items) self.old.at self.old.bodies.items }
        ensures sound { IsSound self.new }
        ensures sent { waiting self.new ≡ drop count (waiting self.old) }
        ensures room { LeavesRoom self.old self.new }
    {
        self.at += count;
        self.rewind();
    }

    // Drops so much of the body in front, and the body itself with its last byte.
    fn send_body(&mut self, count: usize)
        requires sound { IsSound self.old }
        requires behind { text_front (length self.old.text.items) self.old.at self.old.bodies.items ≡ 0 }
        requires some { 0 < count }
        requires fits { self.old.taken + count ≤ body_size self.old.bodies.items }
        ensures sound { IsSound self.new }
        ensures sent { waiting self.new ≡ drop count (waiting self.old) }
        ensures room { LeavesRoom self.old self.new }
    {
        if count < self.body_size() - self.taken {
            self.taken += count;
            return;
        }
        let _sent = self.bodies.pop_front();
        self.taken = 0;
        self.rewind();
    }

    // Lets the text begin anew, where all is sent.
    fn rewind(&mut self)
        requires in_order { AreInOrder (length self.old.text.items) self.old.at self.old.bodies.items }
        requires part_gone { IsPartGone self.old.at self.old.taken self.old.bodies.items }
        ensures sound { IsSound self.new }
        ensures same { waiting self.new ≡ waiting self.old }
        ensures room { LeavesRoom self.old self.new }
    {
        if !self.bodies.is_empty() {
            return;
        }
        if self.at == self.text.len() {
            self.text.clear();
            self.at = 0;
        }
    }

    // Gives memory back: all of it, where all is sent.
    pub(crate) fn give_back(&mut self)
        requires sound { IsSound self.old }
        ensures sound { IsSound self.new }
        ensures same { waiting self.new ≡ waiting self.old }
        ensures freed { waiting self.old ≡ [] → TakesNone self.new }
    {
        self.text.shrink_to_fit();
        self.bodies.shrink_to_fit();
    }

    // Puts a copy of all that waits behind what `all` has.
    pub(crate) fn copy_to(&self, all: &mut Vec<u8>) -> Result<(), NoMemory>
        requires sound { IsSound self.now }
        ensures value { OnOk result (all.new.items ≡ all.old.items ++ waiting self.now) }
    {
        let mut at = self.at;
        let mut taken = self.taken;
        for placed in self.bodies.iter() {
            add(all, &self.text[at..placed.behind], &placed.body, taken)?;
            at = placed.behind;
            taken = 0;
        }
        all.extend_from_slice(&self.text[at..])?;
        Ok(())
    }
}

// Puts a copy of a text and of a body behind the others, from so many bytes of the body on.
fn add(all: &mut Vec<u8>, text: &[u8], body: &Body, taken: usize) -> Result<(), NoMemory>
    requires { taken ≤ length body.now }
    ensures { OnOk result (all.new.items ≡ all.old.items ++ («text».now ++ drop taken body.now)) }
{
    all.extend_from_slice(text)?;
    body.copy_to(taken as u64, all)?;
    Ok(())
}
