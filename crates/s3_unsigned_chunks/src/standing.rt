//! Where a reader stands in a body, and what it counts.

ghost use Rattle.std.specs.Prelude.{◌≡◌, ℕ, ◌+◌, ◌<◌, ◌≤◌, List, [], ◌++◌, length, MatchResult, OnOk, OnErr};
ghost use Rattle.s3_unsigned_chunks.specs.Place.{HasRoom};
ghost use Rattle.s3_unsigned_chunks.specs.Reading as reading;

use crate::place::{Fault, Place, Step, read};
use crate::trailer_value::TrailerValue;
use s3_bodies::Sink;
use s3_terms::NoMemory;

/// Where a reader stands in a body.
#[derive(Drop)]
pub(crate) struct Standing {
    /// Where it stands in the spelling.
    pub(crate) place: Place,
    /// How many bytes were taken.
    pub(crate) taken: u64,
    /// How much of the decoded length no size has announced yet.
    left: u64,
    /// The value of the trailer, as far as it was read.
    pub(crate) value: TrailerValue,
}

impl Standing {
    ghost use Rattle.s3_unsigned_chunks.specs.Reader.{reading_in, standing_at};

    // Where nothing of a body has come yet.
    #[tactic(auto, unfolding(crate::specs::Reading::settled))]
    pub(crate) fn new(encoded: u64, decoded: u64) -> Standing
        ensures { (name : List ℕ)
            → reading_in result [] ≡ reading.started (record { name = name; encoded = encoded; decoded = decoded }) }
    {
        let mut standing = Standing {
            place: Place::start(),
            taken: 0,
            left: decoded,
            value: TrailerValue::new(),
        };
        standing.settle(encoded);
        standing
    }

    // Whether no byte is read any more.
    pub(crate) fn is_closed(&self, encoded: u64) -> bool
        ensures { result ≡ reading.is_closed encoded self.now.place self.now.taken }
    {
        self.place.is_settled() || self.taken >= encoded
    }

    // Refuses from now on.
    pub(crate) fn refuse(&mut self, fault: Fault)
        ensures { self.new ≡ standing_at self.old (Place.Refused fault) }
    {
        self.place = Place::Refused(fault);
    }

    // Takes the end of the line of a size.
    #[tactic(auto, unfolding(crate::specs::Reading::opened))]
    fn open_chunk(&mut self, size: u32)
        ensures value { (held : List ℕ) → reading_in self.new held ≡ reading.opened (reading_in self.old held) size }
        ensures taken { self.new.taken ≡ self.old.taken }
    {
        let announced = u64::from(size);
        if announced > self.left {
            self.refuse(Fault::Invalid);
        } else {
            self.left -= announced;
            self.place = Place::behind(size);
        }
    }

    // Takes the end of the body.
    #[tactic(auto, unfolding(crate::specs::Reading::finished))]
    fn finish(&mut self, encoded: u64)
        ensures value { (held : List ℕ) → reading_in self.new held ≡ reading.finished encoded (reading_in self.old held) }
        ensures taken { self.new.taken ≡ self.old.taken }
    {
        if self.left > 0 {
            self.refuse(Fault::Incomplete);
        } else if self.taken < encoded {
            self.refuse(Fault::Invalid);
        } else {
            self.place = Place::Over;
        }
    }

    // Refuses where all bytes of Content-Length have come, and the body has not ended.
    #[tactic(auto, unfolding(crate::specs::Reading::settled))]
    fn settle(&mut self, encoded: u64)
        ensures value { (held : List ℕ) → reading_in self.new held ≡ reading.settled encoded (reading_in self.old held) }
        ensures taken { self.new.taken ≡ self.old.taken }
    {
        if !self.place.is_settled() && self.taken == encoded {
            self.refuse(Fault::Incomplete);
        }
    }

    // Takes what a byte says.
    #[tactic(auto, unfolding(crate::specs::Reading::turned))]
    fn turn(&mut self, encoded: u64, step: Step, byte: u8)
        requires { HasRoom step (length self.old.value) }
        ensures value { (held : List ℕ) → reading_in self.new held ≡ reading.turned encoded (reading_in self.old held) step byte }
        ensures taken { self.new.taken ≡ self.old.taken }
    {
        match step {
            Step::Misspelled => self.refuse(Fault::Invalid),
            Step::Moves(place) => self.place = place,
            Step::Opens(size) => self.open_chunk(size),
            Step::Spells => self.value.push(byte),
            Step::Ends => self.finish(encoded),
        }
    }

    // Takes a byte that is no data.
    #[tactic(auto, unfolding(crate::specs::Reading::byte_read))]
    pub(crate) fn take_byte(&mut self, name: &[u8], encoded: u64, byte: u8)
        requires { self.old.taken < encoded }
        ensures value { (held : List ℕ)
            → reading_in self.new held ≡ reading.byte_read name.now encoded (reading_in self.old held) byte }
        ensures taken { self.new.taken ≡ self.old.taken + 1 }
    {
        let step = read(name, self.value.count(), self.place, byte);
        self.taken += 1;
        self.turn(encoded, step, byte);
        self.settle(encoded);
    }

    // Takes data of a chunk, of which `left` bytes were to come, and hands it on.
    #[tactic(auto, unfolding(crate::specs::Reading::data_read))]
    pub(crate) fn take_data<S: Sink>(
        &mut self,
        encoded: u64,
        left: u32,
        data: &[u8],
        sink: &mut S,
    ) -> Result<(), NoMemory>
        requires place { self.old.place ≡ Place.Data left }
        requires within { length «data».now ≤ left }
        requires open { self.old.taken + length «data».now ≤ encoded }
        ensures value { OnOk result ((held : List ℕ)
            → reading_in self.new (held ++ «data».now) ≡ reading.data_read encoded (reading_in self.old held) «data».now) }
        ensures taken { MatchResult result
            (λ _. self.new.taken ≡ self.old.taken + length «data».now)
            (λ _. self.new.taken ≡ self.old.taken) }
        ensures sink { MatchResult result
            (λ _. S.taken sink.new ≡ S.taken sink.old ++ «data».now)
            (λ _. S.taken sink.new ≡ S.taken sink.old) }
        ensures cause { OnErr result (S.may_refuse sink.old «data».now) }
    {
        sink.take(data)?;
        self.taken += data.len() as u64;
        self.place = Place::Data(left - data.len() as u32);
        self.settle(encoded);
        Ok(())
    }

    // How much of these `there` bytes is data of the chunk, of which `left` bytes are to come, and before the end of
    // Content-Length.
    pub(crate) fn data_there(&self, encoded: u64, left: u32, there: usize) -> usize
        requires { self.now.taken ≤ encoded }
        ensures left { result ≤ left }
        ensures there { result ≤ there }
        ensures open { self.now.taken + result ≤ encoded }
        ensures some { 0 < left → 0 < there → self.now.taken < encoded → 0 < result }
    {
        let open = encoded - self.taken;
        let count = if there < left as usize {
            there
        } else {
            left as usize
        };
        if (count as u64) < open {
            count
        } else {
            open as usize
        }
    }
}
