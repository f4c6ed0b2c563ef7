//! What takes the bytes of a body that is signed in chunks, one by one, and data as it comes.

ghost use Rattle.std.specs.Prelude.{◌≡◌, ℕ, ◌+◌, ◌<◌, ◌≤◌, ◌⊎◌, true, false, List, [], ◌++◌, length, take, is_ok, if◌then◌else◌, None, MatchResult, IfOk, OnOk, OnErr};
ghost use Rattle.s3_signing.specs.Chain.{Link};

use crate::phase::{Event, Fault, Phase, read};
use crate::place::Place;
use crate::span::Span;
use s3_bodies::Sink;
use s3_signing::ChunkChain;
use s3_terms::NoMemory;
use sha2::{Digest, Sha256};

/// Where a reader stands, and the hash of the data of the chunk so far.
#[derive(Drop)]
pub(crate) struct Decoder {
    pub(crate) place: Place,
    hash: Sha256,
}

impl Decoder {
    ghost use Rattle.sha2.specs.Sha256.{sha256};
    ghost use Rattle.sha2.specs.Hashers.{Holds256};
    ghost use Rattle.s3_aws_chunked.specs.Count.{advanced};
    ghost use Rattle.s3_aws_chunked.specs.Sinks.{Grows};
    ghost use Rattle.s3_aws_chunked.specs.Decoder as reading;
    ghost use Rattle.s3_aws_chunked.specs.Trailed as trailed;

    // Where nothing of a body has come yet.
    pub(crate) fn new(chain: ChunkChain, encoded: u64, decoded: u64) -> Decoder
        ensures { reading.Shows result (reading.started (record { seed = chain; encoded = encoded; decoded = decoded })) }
    {
        let mut place = Place {
            chain,
            span: Span::new(encoded),
            left: decoded,
            signature: [b'0'; 64],
            phase: Phase::start(),
        };
        place.settle();
        Decoder {
            place,
            hash: Sha256::new(),
        }
    }

    // Takes the end of the first line of the last chunk: what is wrong there, where a trailer with a name of so many bytes
    // follows. The next hash begins.
    pub(crate) fn end_chunks(&mut self, name: usize) -> Option<Fault>
        requires { name ≤ 32 }
        ensures value { (current : List ℕ) → Holds256 self.old.hash current
            → (result ≡ trailed.fault_at_end name self.old.place (sha256 current))
            × (self.new.place ≡ trailed.chained self.old.place (sha256 current)) × Holds256 self.new.hash [] }
        ensures span { self.new.place.span ≡ self.old.place.span }
        ensures room { result ≡ None → (self.old.place.span.taken < self.old.place.span.whole)
            × (self.old.place.span.whole ≤ self.old.place.span.taken + 192) }
    {
        let hash = self.hash.finalize_reset();
        self.place.fault_at_end(name, hash)
    }

    // Where the byte ended a chunk, compares its signature, and begins the next hash.
    fn close(&mut self, event: &Event)
        ensures span { self.new.place.span ≡ self.old.place.span }
        ensures value { (current : List ℕ) → Holds256 self.old.hash current
            → (self.new.place ≡ reading.closed_by self.old.place «event».now (sha256 current))
            × Holds256 self.new.hash (reading.current_after «event».now current) }
    {
        match event {
            Event::Closes(last) => {
                let hash = self.hash.finalize_reset();
                self.place.close_chunk(*last, hash);
            }
            Event::Misspelled | Event::Moves(_) | Event::Signs(_, _) | Event::Opens(_) => {}
        }
    }

    // Takes a byte that is no data.
    #[tactic(auto, unfolding(crate::specs::Decoder::byte_read))]
    fn take_byte(&mut self, byte: u8)
        requires { self.old.place.span.taken < self.old.place.span.whole }
        ensures span { self.new.place.span ≡ advanced self.old.place.span 1 }
        ensures shows { (p : reading.Progress) → reading.Shows self.old p → reading.Shows self.new (reading.byte_read p byte) }
    {
        let event = read(self.place.phase, byte);
        self.place.span.advance(1);
        self.place.turn(event, byte);
        self.close(&event);
        self.place.settle();
    }

    // Takes data of the chunk, of which `left` bytes were to come, and hands it on.
    #[tactic(auto, unfolding(crate::specs::Decoder::data_read))]
    fn take_data<S: Sink>(
        &mut self,
        left: u32,
        last: bool,
        data: &[u8],
        sink: &mut S,
    ) -> Result<(), NoMemory>
        requires phase { self.old.place.phase ≡ Phase.Data left last }
        requires within { length «data».now ≤ left }
        requires open { self.old.place.span.taken + length «data».now ≤ self.old.place.span.whole }
        ensures shows { OnOk result ((p : reading.Progress) → reading.Shows self.old p
            → reading.Shows self.new (reading.data_read p «data».now)) }
        ensures sink { MatchResult result
            (λ _. S.taken sink.new ≡ S.taken sink.old ++ «data».now)
            (λ _. S.taken sink.new ≡ S.taken sink.old) }
        ensures span { self.new.place.span
            ≡ (if is_ok result then advanced self.old.place.span (length «data».now) else self.old.place.span) }
        ensures cause { OnErr result (S.may_refuse sink.old «data».now) }
    {
        sink.take(data)?;
        self.hash.update(data);
        self.place.span.advance(data.len() as u64);
        self.place.phase = Phase::Data(left - data.len() as u32, last);
        self.place.settle();
        Ok(())
    }

    // How much of these `there` bytes is data of the chunk, of which `left` bytes are to come, and before the
    // end of Content-Length.
    fn data_there(&self, left: u32, there: usize) -> usize
        requires { self.now.place.span.taken ≤ self.now.place.span.whole }
        ensures left { result ≤ left }
        ensures there { result ≤ there }
        ensures open { self.now.place.span.taken + result ≤ self.now.place.span.whole }
        ensures some { 0 < left → 0 < there → self.now.place.span.taken < self.now.place.span.whole → 0 < result }
    {
        let open = self.place.span.left();
        let count = if there < left as usize {
            there
        } else {
            left as usize
        };
        if (count as u64) < open {
            count
        } else {
            open as usize
        }
    }

    // Takes a front of the bytes that are to come, which are data of the chunk: as many of them as there are.
    fn step_data<S: Sink>(
        &mut self,
        left: u32,
        last: bool,
        bytes: &[u8],
        sink: &mut S,
    ) -> Result<usize, NoMemory>
        requires some { 0 < length «bytes».now }
        requires phase { self.old.place.phase ≡ Phase.Data left last }
        requires left { 0 < left }
        requires open { self.old.place.span.taken < self.old.place.span.whole }
        ensures count { IfOk result (λ n. (0 < n) × (n ≤ length «bytes».now)) }
        ensures span { MatchResult result
            (λ n. self.new.place.span ≡ advanced self.old.place.span n)
            (λ _. self.new.place.span ≡ self.old.place.span) }
        ensures shows { IfOk result (λ n. (p : reading.Progress) → reading.Shows self.old p
            → reading.Shows self.new (reading.run p (take n «bytes».now))) }
        ensures sink { IfOk result (λ n. (p : reading.Progress) → reading.Shows self.old p
            → reading.Keeps (S.taken sink.old) (S.taken sink.new) p (reading.run p (take n «bytes».now))) }
        ensures grows { Grows (S.taken sink.old) (S.taken sink.new) }
        ensures cause { OnErr result ((refused : List ℕ) × S.may_refuse sink.old refused) }
        ensures before { reading.is_at_end self.old.place.phase ≡ false → IfOk result (λ n. (p : reading.Progress)
            → reading.Shows self.old p → reading.StandBefore p «bytes».now n) }
    {
        let count = self.data_there(left, bytes.len());
        self.take_data(left, last, &bytes[..count], sink)?;
        Ok(count)
    }

    // Takes the first of the bytes that are to come, which is no data.
    fn step_byte(&mut self, bytes: &[u8])
        requires some { 0 < length «bytes».now }
        requires phase { reading.is_data self.old.place.phase ≡ false }
        requires open { reading.is_closed self.old.place ≡ false }
        ensures span { self.new.place.span ≡ advanced self.old.place.span 1 }
        ensures shows { (p : reading.Progress) → reading.Shows self.old p
            → reading.Shows self.new (reading.run p (take 1 «bytes».now)) }
        ensures held { (p : reading.Progress) → reading.Shows self.old p
            → (reading.run p (take 1 «bytes».now)).held ≡ p.held }
        ensures before { reading.is_at_end self.old.place.phase ≡ false → (p : reading.Progress)
            → reading.Shows self.old p → reading.StandBefore p «bytes».now 1 }
    {
        self.take_byte(bytes[0]);
    }

    // Takes a front of the bytes that are to come: data of a chunk, or one byte.
    fn step<S: Sink>(&mut self, bytes: &[u8], sink: &mut S) -> Result<usize, NoMemory>
        requires some { 0 < length «bytes».now }
        requires open { reading.is_closed self.old.place ≡ false }
        ensures count { IfOk result (λ n. (0 < n) × (n ≤ length «bytes».now)) }
        ensures span { MatchResult result
            (λ n. self.new.place.span ≡ advanced self.old.place.span n)
            (λ _. self.new.place.span ≡ self.old.place.span) }
        ensures shows { IfOk result (λ n. (p : reading.Progress) → reading.Shows self.old p
            → reading.Shows self.new (reading.run p (take n «bytes».now))) }
        ensures sink { IfOk result (λ n. (p : reading.Progress) → reading.Shows self.old p
            → reading.Keeps (S.taken sink.old) (S.taken sink.new) p (reading.run p (take n «bytes».now))) }
        ensures grows { Grows (S.taken sink.old) (S.taken sink.new) }
        ensures cause { OnErr result ((refused : List ℕ) × S.may_refuse sink.old refused) }
        ensures before { reading.is_at_end self.old.place.phase ≡ false → IfOk result (λ n. (p : reading.Progress)
            → reading.Shows self.old p → reading.StandBefore p «bytes».now n) }
    {
        match self.place.phase {
            Phase::Data(left, last) if left > 0 => self.step_data(left, last, bytes, sink),
            _ => {
                self.step_byte(bytes);
                Ok(1)
            }
        }
    }

    // Takes these bytes up to where no byte is read any more, or at the front of a body up to the first line of its last
    // chunk, and says how many it took.
    #[tactic(auto, using(crate::proofs::BeforeLemmas::stops_closed, crate::proofs::BeforeLemmas::none_before))]
    pub(crate) fn advance<S: Sink>(
        &mut self,
        front: bool,
        bytes: &[u8],
        sink: &mut S,
    ) -> Result<usize, NoMemory>
        ensures count { IfOk result (λ n. n ≤ length «bytes».now) }
        ensures all { IfOk result (λ n. (n ≡ length «bytes».now) ⊎ (reading.stops front self.new.place ≡ true)) }
        ensures span { IfOk result (λ n. self.new.place.span ≡ advanced self.old.place.span n) }
        ensures counts { (self.old.place.span.taken ≤ self.new.place.span.taken)
            × (self.new.place.span.taken ≤ self.old.place.span.taken + length «bytes».now) }
        ensures shows { IfOk result (λ n. (p : reading.Progress) → reading.Shows self.old p
            → reading.Shows self.new (reading.run p (take n «bytes».now))) }
        ensures sink { IfOk result (λ n. (p : reading.Progress) → reading.Shows self.old p
            → reading.Keeps (S.taken sink.old) (S.taken sink.new) p (reading.run p (take n «bytes».now))) }
        ensures grows { Grows (S.taken sink.old) (S.taken sink.new) }
        ensures some { OnErr result (0 < length «bytes».now) }
        ensures room { OnErr result (self.old.place.span.taken < self.old.place.span.whole) }
        ensures before { front ≡ true → IfOk result (λ n. (p : reading.Progress)
            → reading.Shows self.old p → reading.StandBefore p «bytes».now n) }
        ensures cause { OnErr result ((state : S) × (refused : List ℕ) × S.may_refuse state refused) }
    {
        let mut taken = 0;
        while taken < bytes.len() && !self.place.stops(front) {
            taken += self.step(&bytes[taken..], sink)?;
        }
        Ok(taken)
    }
}
