//! Where a decoder stands in a body, and how much of the limit is left.

ghost use Rattle.std.specs.Prelude.{◌≡◌, ℕ, ◌<◌, ◌≤◌, List, [], ◌++◌, length, MatchResult, OnOk, OnErr};
ghost use Rattle.s3_transfer_chunks.specs.Reading as reading;
ghost use Rattle.s3_transfer_chunks.specs.Place as spelling;

use crate::place::{Fault, Place, Step, Tail, read};
use s3_bodies::Sink;
use s3_terms::NoMemory;

/// Where a decoder stands in a body.
#[derive(Drop)]
pub(crate) struct Standing {
    /// Where it stands in the spelling.
    pub(crate) place: Place,
    /// How much of the limit no size has announced yet.
    left: u64,
}

impl Standing {
    ghost use Rattle.s3_transfer_chunks.specs.Decoder.{reading_in, standing_at};

    // Where nothing of a body has come yet.
    pub(crate) fn new(limit: u64) -> Standing
        ensures { reading_in result [] ≡ reading.started limit }
    {
        Standing {
            place: Place::start(),
            left: limit,
        }
    }

    // Refuses from now on.
    pub(crate) fn refuse(&mut self, fault: Fault)
        ensures { self.new ≡ standing_at self.old (Place.Refused fault) }
    {
        self.place = Place::Refused(fault);
    }

    // Takes the end of the digits of a size.
    fn announce(&mut self, size: u64, tail: Tail)
        ensures { (held : List ℕ)
            → reading_in self.new held ≡ reading.announced (reading_in self.old held) size (Place.Line size tail) }
    {
        if size > self.left {
            self.refuse(Fault::TooLarge);
        } else {
            self.left -= size;
            self.place = Place::Line(size, tail);
        }
    }

    // Takes a byte that is no data.
    #[tactic(auto, unfolding(crate::specs::Reading::turned))]
    pub(crate) fn take_byte(&mut self, byte: u8)
        ensures { (held : List ℕ)
            → reading_in self.new held ≡ reading.turned (reading_in self.old held) (spelling.read self.old.place byte) }
    {
        match read(self.place, byte) {
            Step::Misspelled => self.refuse(Fault::Invalid),
            Step::Moves(place) => self.place = place,
            Step::Announces(size, tail) => self.announce(size, tail),
        }
    }

    // Takes data of a chunk, of which `left` bytes were to come, and hands it on.
    pub(crate) fn take_data<S: Sink>(
        &mut self,
        left: u64,
        data: &[u8],
        sink: &mut S,
    ) -> Result<(), NoMemory>
        requires place { self.old.place ≡ Place.Data left }
        requires within { length «data».now ≤ left }
        ensures value { OnOk result ((held : List ℕ)
            → reading_in self.new (held ++ «data».now) ≡ reading.data_read (reading_in self.old held) «data».now) }
        ensures sink { MatchResult result
            (λ _. S.taken sink.new ≡ S.taken sink.old ++ «data».now)
            (λ _. S.taken sink.new ≡ S.taken sink.old) }
        ensures cause { OnErr result (S.may_refuse sink.old «data».now) }
    {
        sink.take(data)?;
        self.place = Place::Data(left - data.len() as u64);
        Ok(())
    }
}

// How many of these `there` bytes are data of the chunk, of which `left` bytes are to come.
pub(crate) fn data_there(left: u64, there: usize) -> usize
    ensures left { result ≤ left }
    ensures there { result ≤ there }
    ensures some { 0 < left → 0 < there → 0 < result }
{
    if (there as u64) < left {
        there
    } else {
        left as usize
    }
}
