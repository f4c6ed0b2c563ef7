//! What takes the bytes of a body that is signed in chunks with a trailer behind them.

ghost use Rattle.std.specs.Prelude.{◌≡◌, ◌+◌, ◌≤◌, ◌<◌, ◌⊎◌, true, false, nat_lt, List, ◌++◌, length, take, IfOk, OnErr};
ghost use Rattle.s3_aws_chunked.specs.Sinks.{Grows, got};
ghost use Rattle.s3_aws_chunked.specs.Decoder.{is_at_end, is_closed};
ghost use Rattle.s3_aws_chunked.specs.Trailed as trailed;

use crate::decoder::Decoder;
use crate::phase::Phase;
use crate::trailer::{Trailer, trailer_fault};
use s3_bodies::Sink;
use s3_terms::NoMemory;

/// The chunks of a body, and the trailer behind them.
#[derive(Drop)]
pub(crate) struct TrailedDecoder {
    pub(crate) decoder: Decoder,
    pub(crate) trailer: Trailer,
}

impl TrailedDecoder {
    ghost use Rattle.std.specs.Prelude.{ℕ};
    ghost use Rattle.s3_aws_chunked.specs.TrailedReader.{IsBetween, ShowsTrailed, taken_by};

    // Once the first line of the last chunk has come, ends the chunks.
    #[tactic(auto, unfolding(crate::specs::Trailed::ended))]
    fn end_chunks(&mut self, name: &[u8])
        requires { length name.now ≤ 32 }
        ensures shows { (r : trailed.Reading) → ShowsTrailed self.old r → ShowsTrailed self.new (trailed.ended name.now r) }
        ensures span { self.new.decoder.place.span ≡ self.old.decoder.place.span }
        ensures taken { self.old.trailer.size ≡ 0 → taken_by self.new ≡ taken_by self.old }
        ensures shut { self.old.trailer.size ≡ 0 → is_at_end self.old.decoder.place.phase ≡ true
            → (0 < self.new.trailer.size) ⊎ (is_closed self.new.decoder.place ≡ true) }
        ensures same { is_at_end self.old.decoder.place.phase ≡ false → self.new ≡ self.old }
    {
        if !self.decoder.place.phase.is_at_end() {
            return;
        }
        let taken = self.decoder.place.span.taken();
        let whole = self.decoder.place.span.whole();
        match self.decoder.end_chunks(name.len()) {
            Some(fault) => self.decoder.place.refuse(fault),
            None => {
                self.decoder.place.phase = Phase::Over;
                self.trailer = Trailer::new((whole - taken) as u8, taken);
            }
        }
    }

    // Takes these bytes of the chunks, up to the end of the first line of the last one, and says how many it took.
    fn take_chunks<S: Sink>(
        &mut self,
        name: &[u8],
        bytes: &[u8],
        sink: &mut S,
    ) -> Result<usize, NoMemory>
        requires name { length name.now ≤ 32 }
        requires front { self.old.trailer.size ≡ 0 }
        ensures count { IfOk result (λ n. n ≤ length «bytes».now) }
        ensures all { IfOk result (λ n. (n ≡ length «bytes».now) ⊎ ((0 < self.new.trailer.size)
            ⊎ (is_closed self.new.decoder.place ≡ true))) }
        ensures taken { IfOk result (λ n. taken_by self.new ≡ taken_by self.old + n) }
        ensures counts { (taken_by self.old ≤ taken_by self.new)
            × (taken_by self.new ≤ taken_by self.old + length «bytes».now) }
        ensures shows { IfOk result (λ n. (r : trailed.Reading) → ShowsTrailed self.old r → IsBetween r
            → ShowsTrailed self.new (trailed.run name.now r (take n «bytes».now))) }
        ensures held { IfOk result (λ n. (r : trailed.Reading) → ShowsTrailed self.old r → IsBetween r
            → (trailed.run name.now r (take n «bytes».now)).chunks.held
            ≡ r.chunks.held ++ got (S.taken sink.old) (S.taken sink.new)) }
        ensures between { IfOk result (λ n. (r : trailed.Reading) → ShowsTrailed self.old r → IsBetween r
            → IsBetween (trailed.run name.now r (take n «bytes».now))) }
        ensures grows { Grows (S.taken sink.old) (S.taken sink.new) }
        ensures some { OnErr result (0 < length «bytes».now) }
        ensures room { OnErr result (self.old.decoder.place.span.taken < self.old.decoder.place.span.whole) }
        ensures cause { OnErr result ((state : S) × (refused : List ℕ) × S.may_refuse state refused) }
    {
        let count = self.decoder.advance(true, bytes, sink)?;
        self.end_chunks(name);
        Ok(count)
    }

    // Judges the trailer where it is whole.
    #[tactic(auto, unfolding(crate::specs::Trailed::judged))]
    fn judge_trailer(&mut self, name: &[u8])
        requires { length name.now ≤ 32 }
        ensures shows { (r : trailed.Reading) → ShowsTrailed self.old r → ShowsTrailed self.new (trailed.judged name.now r) }
        ensures trailer { self.new.trailer ≡ self.old.trailer }
        ensures span { self.new.decoder.place.span ≡ self.old.decoder.place.span }
    {
        if self.trailer.is_open() {
            return;
        }
        match trailer_fault(&self.decoder.place.chain, name, self.trailer.bytes()) {
            Some(fault) => self.decoder.place.refuse(fault),
            None => {}
        }
    }

    // Takes these bytes of the trailer, once the chunks are over, and judges it where it is whole: how many it took.
    fn take_trailer(&mut self, name: &[u8], bytes: &[u8]) -> usize
        requires { length name.now ≤ 32 }
        ensures count { result ≤ length «bytes».now }
        ensures all { (result ≡ length «bytes».now) ⊎ (nat_lt (length self.new.trailer.bytes) self.new.trailer.size ≡ false) }
        ensures taken { taken_by self.new ≡ taken_by self.old + result }
        ensures size { self.new.trailer.size ≡ self.old.trailer.size }
        ensures shows { (r : trailed.Reading) → ShowsTrailed self.old r → 0 < r.size
            → ShowsTrailed self.new (trailed.run name.now r «bytes».now) }
        ensures same { self.old.trailer.size ≡ 0 → (result ≡ 0) × (self.new ≡ self.old) }
    {
        if !self.trailer.is_open() {
            return 0;
        }
        let count = self.trailer.take(bytes);
        self.judge_trailer(name);
        count
    }

    // Takes these bytes up to where none is read any more, and says how many it took.
    pub(crate) fn advance<S: Sink>(
        &mut self,
        name: &[u8],
        bytes: &[u8],
        sink: &mut S,
    ) -> Result<usize, NoMemory>
        requires name { length name.now ≤ 32 }
        ensures count { IfOk result (λ n. n ≤ length «bytes».now) }
        ensures all { IfOk result (λ n. (n ≡ length «bytes».now)
            ⊎ ((nat_lt (length self.new.trailer.bytes) self.new.trailer.size ≡ false) × ((0 < self.new.trailer.size)
            ⊎ (is_closed self.new.decoder.place ≡ true)))) }
        ensures taken { IfOk result (λ n. taken_by self.new ≡ taken_by self.old + n) }
        ensures counts { (taken_by self.old ≤ taken_by self.new)
            × (taken_by self.new ≤ taken_by self.old + length «bytes».now) }
        ensures shows { IfOk result (λ _. (r : trailed.Reading) → ShowsTrailed self.old r → IsBetween r
            → ShowsTrailed self.new (trailed.run name.now r «bytes».now)) }
        ensures held { IfOk result (λ _. (r : trailed.Reading) → ShowsTrailed self.old r → IsBetween r
            → (trailed.run name.now r «bytes».now).chunks.held
            ≡ r.chunks.held ++ got (S.taken sink.old) (S.taken sink.new)) }
        ensures grows { Grows (S.taken sink.old) (S.taken sink.new) }
        ensures some { OnErr result (0 < length «bytes».now) }
        ensures room { OnErr result ((self.old.decoder.place.span.taken < self.old.decoder.place.span.whole)
            × (self.old.trailer.size ≡ 0)) }
        ensures cause { OnErr result ((state : S) × (refused : List ℕ) × S.may_refuse state refused) }
    {
        if self.trailer.has_begun() {
            return Ok(self.take_trailer(name, bytes));
        }
        let count = self.take_chunks(name, bytes, sink)?;
        Ok(count + self.take_trailer(name, &bytes[count..]))
    }
}
