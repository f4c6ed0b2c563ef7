//! Where a reader stands in a body: what it counts, and what it compares.

ghost use Rattle.std.specs.Prelude.{◌≡◌, ◌+◌, ◌<◌, ◌≤◌, None};
ghost use Rattle.s3_aws_chunked.specs.Phase.{IsEvent};
ghost use Rattle.s3_aws_chunked.specs.Trailer.{is_room};

use crate::phase::{Event, Fault, Phase};
use crate::span::Span;
use s3_signing::ChunkChain;

/// Where a reader stands in a body.
#[derive(Drop)]
pub(crate) struct Place {
    /// The signatures so far.
    pub(crate) chain: ChunkChain,
    /// How many bytes of Content-Length have come.
    pub(crate) span: Span,
    /// How much of the decoded length no first line has announced yet.
    pub(crate) left: u64,
    /// The signature of the chunk, as far as it was read.
    pub(crate) signature: [u8; 64],
    /// Where it stands in the spelling.
    pub(crate) phase: Phase,
}

// Whether so many bytes may be a trailer with a name of so many.
fn is_room(name: usize, room: u64) -> bool
    requires { name ≤ 32 }
    ensures { result ≡ is_room name room }
{
    let name = name as u64;
    name + 96 <= room && room <= name + 160
}

impl Place {
    ghost use Rattle.s3_aws_chunked.specs.Decoder as reading;
    ghost use Rattle.s3_aws_chunked.specs.Trailed as trailed;

    // Whether no byte is read any more.
    pub(crate) fn is_closed(&self) -> bool
        ensures { result ≡ reading.is_closed self.now }
    {
        self.phase.is_settled() || self.span.taken() >= self.span.whole()
    }

    // Whether no byte is read any more, or at the front of a body no byte behind the first line of its last chunk.
    pub(crate) fn stops(&self, front: bool) -> bool
        ensures { result ≡ reading.stops front self.now }
    {
        if front {
            self.is_closed() || self.phase.is_at_end()
        } else {
            self.is_closed()
        }
    }

    // Refuses from now on.
    pub(crate) fn refuse(&mut self, fault: Fault)
        ensures value { self.new ≡ reading.refused self.old fault }
        ensures span { self.new.span ≡ self.old.span }
    {
        self.phase = Phase::Refused(fault);
    }

    // Takes the end of a first line with this size.
    #[tactic(auto, unfolding(crate::specs::Decoder::opened))]
    fn open_chunk(&mut self, size: u32)
        ensures value { self.new ≡ reading.opened self.old size }
        ensures span { self.new.span ≡ self.old.span }
    {
        let announced = u64::from(size);
        if announced > self.left {
            self.refuse(Fault::Invalid);
        } else {
            self.left -= announced;
            self.phase = Phase::Data(size, size == 0);
        }
    }

    // Takes the end of a chunk whose signature is right.
    fn pass_chunk(&mut self, last: bool)
        ensures value { self.new ≡ reading.passed self.old last }
        ensures span { self.new.span ≡ self.old.span }
    {
        if !last {
            self.phase = Phase::start();
        } else if self.left > 0 {
            self.refuse(Fault::Incomplete);
        } else if self.span.taken() < self.span.whole() {
            self.refuse(Fault::Invalid);
        } else {
            self.phase = Phase::Over;
        }
    }

    // Takes the end of a chunk whose data has this hash.
    #[tactic(auto, unfolding(crate::specs::Decoder::closed))]
    pub(crate) fn close_chunk(&mut self, last: bool, hash: [u8; 32])
        ensures value { self.new ≡ reading.closed self.old last hash }
        ensures span { self.new.span ≡ self.old.span }
    {
        if self.chain.is_next(hash, &self.signature) {
            self.pass_chunk(last);
        } else {
            self.refuse(Fault::Forged);
        }
    }

    // What is wrong at the end of the first line of the last chunk, behind which a trailer with a name of so many bytes
    // stands. The chain goes on behind that chunk.
    #[tactic(auto, unfolding(crate::specs::Trailed::fault_at_end))]
    pub(crate) fn fault_at_end(&mut self, name: usize, hash: [u8; 32]) -> Option<Fault>
        requires { name ≤ 32 }
        ensures value { result ≡ trailed.fault_at_end name self.old hash }
        ensures new { self.new ≡ trailed.chained self.old hash }
        ensures span { self.new.span ≡ self.old.span }
        ensures room { result ≡ None
            → (self.old.span.taken < self.old.span.whole) × (self.old.span.whole ≤ self.old.span.taken + 192) }
    {
        let room = self.span.left();
        if !self.chain.is_next(hash, &self.signature) {
            return Some(Fault::Forged);
        }
        if self.left > 0 {
            return Some(Fault::Incomplete);
        }
        if !is_room(name, room) {
            return Some(Fault::Invalid);
        }
        None
    }

    // Refuses where all bytes of Content-Length have come without the empty chunk.
    #[tactic(auto, unfolding(crate::specs::Decoder::settled))]
    pub(crate) fn settle(&mut self)
        ensures value { self.new ≡ reading.settled self.old }
        ensures span { self.new.span ≡ self.old.span }
    {
        if !self.phase.is_settled() && self.span.taken() == self.span.whole() {
            self.refuse(Fault::Incomplete);
        }
    }

    // Takes what a byte says, but the end of a chunk.
    #[tactic(auto, unfolding(crate::specs::Decoder::turned))]
    pub(crate) fn turn(&mut self, event: Event, byte: u8)
        requires { IsEvent event }
        ensures value { self.new ≡ reading.turned self.old event byte }
        ensures span { self.new.span ≡ self.old.span }
    {
        match event {
            Event::Misspelled => self.refuse(Fault::Invalid),
            Event::Moves(phase) => self.phase = phase,
            Event::Signs(index, size) => {
                self.signature[index as usize] = byte;
                self.phase = Phase::Line(index + 18, size);
            }
            Event::Opens(size) => self.open_chunk(size),
            Event::Closes(_) => {}
        }
    }
}
