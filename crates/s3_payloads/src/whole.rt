//! The reader of a body that is sent as it is.

ghost use Rattle.std.specs.Prelude.{◌≡◌, ◌≤◌, ◌++◌, length, None, Some, Ok, Err, false, OnOk, OnErr, IfOk, IfErr, Bool, List, [], ℕ, ◌+◌, ◌<◌, take, Option, option_map};
ghost use Rattle.s3_integrity.specs.Sum.{algorithm_of};
ghost use Rattle.s3_payloads.specs.FoundSum.{sum_by};
ghost use Rattle.s3_payloads.specs.declared.form.Digests.{Digests as Told};
ghost use Rattle.s3_aws_chunked.specs.Reader.{said_at_end};
ghost use Rattle.s3_aws_chunked.specs.Verdict.{accepts};
ghost use Rattle.s3_payloads.specs.Outcome.{finished};
ghost use Rattle.s3_payloads.specs.Verdict.{checked_data, has_checksum, has_hash, has_md5};
ghost use Rattle.s3_payloads.specs.Whole.{WholeEnded, WholeFed, WholeStands, EndedAt, FedAt, FinishedAt, IsStage, answered, at_stage, body_part, told, verdict_on, with_bytes};

use crate::form::Digests;
use crate::running_hash::RunningHash;
use crate::running_sum::{RunningSum, add_to_sum, sum_of_bytes};
use s3_bodies::{Payload, PayloadBuilder, Sink};
use s3_integrity::Checksum;
use s3_terms::{Code, NoMemory};
use std::alloc::Global;
use std::marker::Model;

// How far a reader has come.
#[derive(Clone, Copy, Drop)]
pub(crate) enum Stage {
    // Bytes are still to come, or nothing has been judged yet.
    Reading,
    // The body is whole and right.
    Passed,
    // It was refused, and nothing more is read.
    Failed(Code),
}

// Reads a body that is sent as it is. Contracts see it as what has to be found of the body, the bytes that
// were taken, and how far it has come.
#[derive(Drop)]
pub(crate) struct WholeReader {
    hash: Option<RunningHash>,
    md5: Option<[u8; 16]>,
    sum: Option<RunningSum>,
    size: u64,
    payload: PayloadBuilder,
    stage: Stage,
}

impl Model for WholeReader {
    ghost use Rattle.std.specs.Prelude.{◌≤◌, length};
    ghost use Rattle.s3_payloads.specs.Whole.{WholeState, hash_told, sum_told, IsStage, RunsOver, SumsUp};

    ghost Value = { WholeState };

    ghost view = { λ r. record {
      hash = hash_told r.hash;
      digests = record { md5 = r.md5; checksum = sum_told r.sum };
      size = r.size;
      bytes = r.payload;
      stage = r.stage;
    } };

    ghost invariant = { λ r.
        RunsOver r.hash r.payload
        × SumsUp r.sum r.payload
        × (length r.payload ≤ r.size)
        × IsStage (hash_told r.hash) (record { md5 = r.md5; checksum = sum_told r.sum }) r.size r.payload r.stage };
}

impl WholeReader {
    // A reader of a body of `size` bytes, of which none has come.
    fn start(alloc: Global, hash: Option<[u8; 64]>, digests: Digests, size: u64) -> WholeReader
        ensures { result ≡ record { hash = hash; digests = digests; size = size; bytes = []; stage = Stage.Reading } }
    {
        let hash = match hash {
            Some(told) => Some(RunningHash::new(told)),
            None => None,
        };
        WholeReader {
            hash,
            md5: digests.md5,
            sum: RunningSum::of(digests.checksum),
            size,
            payload: PayloadBuilder::new(alloc, size),
            stage: Stage::Reading,
        }
    }

    // The same, where a body of no bytes has been judged.
    pub(crate) fn new(
        alloc: Global,
        hash: Option<[u8; 64]>,
        digests: Digests,
        size: u64,
    ) -> WholeReader
        ensures { WholeStands result hash digests size [] false }
    {
        let mut reader = WholeReader::start(alloc, hash, digests, size);
        reader.stage = reader.stage_at(false);
        reader
    }

    // Whether the bytes so far have the hash that is told.
    fn has_hash(&self) -> bool
        ensures { result ≡ has_hash self.now.hash self.now.bytes }
    {
        match &self.hash {
            Some(hash) => hash.is_met(),
            None => true,
        }
    }

    // Whether they have the MD5 that is told.
    fn has_md5(&self) -> bool
        ensures { result ≡ has_md5 self.now.digests.md5 self.now.bytes }
    {
        match &self.md5 {
            Some(digest) => self.payload.digest().as_slice() == digest.as_slice(),
            None => true,
        }
    }

    // Whether they have the checksum that is told.
    fn has_checksum(&self) -> bool
        ensures { result ≡ has_checksum self.now.digests.checksum self.now.bytes }
    {
        match &self.sum {
            Some(sum) => sum.is_met(),
            None => true,
        }
    }

    // What is wrong with the bytes so far, if they are the whole body.
    #[tactic(auto, unfolding(crate::specs::Verdict::checked_data))]
    fn check(&self) -> Result<(), Code>
        ensures ok { OnOk result (checked_data self.now.hash self.now.digests self.now.bytes ≡ Ok self.now.bytes) }
        ensures err { IfErr result (λ code. checked_data self.now.hash self.now.digests self.now.bytes ≡ Err code) }
    {
        if !self.has_hash() {
            return Err(Code::XAmzContentSHA256Mismatch);
        }
        if !(self.has_md5() && self.has_checksum()) {
            return Err(Code::BadDigest);
        }
        Ok(())
    }

    // How far the reader has come with the bytes that it has, while nothing was decided before: `ended`
    // says that no more come.
    #[tactic(auto, unfolding(crate::specs::Verdict::whole_verdict), using(crate::proofs::WholeLemmas::whole_bytes))]
    fn stage_at(&self, ended: bool) -> Stage
        ensures told { told self.now.bytes result ≡ verdict_on self.now ended self.now.bytes }
        ensures kept { IsStage self.now.hash self.now.digests self.now.size self.now.bytes result }
    {
        if self.payload.size() < self.size {
            return if ended {
                Stage::Failed(Code::IncompleteBody)
            } else {
                Stage::Reading
            };
        }
        match self.check() {
            Ok(()) => Stage::Passed,
            Err(code) => Stage::Failed(code),
        }
    }

    // Takes bytes that are all the body's.
    fn take(&mut self, piece: &[u8]) -> Result<(), NoMemory>
        requires reading { self.old.stage ≡ Stage.Reading }
        requires room { length self.old.bytes + length piece.now ≤ self.old.size }
        ensures taken { OnOk result (self.new ≡ with_bytes self.old (self.old.bytes ++ piece.now)) }
        ensures left { OnErr result (self.new ≡ self.old) }
        ensures memory { OnErr result (0 < length piece.now) }
    {
        self.payload.take(piece)?;
        if let Some(hash) = &mut self.hash {
            hash.update(piece);
        }
        add_to_sum(&mut self.sum, piece);
        Ok(())
    }

    // Takes as much of the piece as is the body's: how many bytes that were.
    fn take_front(&mut self, piece: &[u8]) -> Result<usize, NoMemory>
        requires reading { self.old.stage ≡ Stage.Reading }
        ensures within { length self.old.bytes ≤ self.old.size }
        ensures len { IfOk result (λ len. len ≡ body_part self.old piece.now) }
        ensures taken { OnOk result (self.new ≡ with_bytes self.old (self.old.bytes ++ take (body_part self.old piece.now) piece.now)) }
        ensures left { OnErr result (self.new ≡ self.old) }
        ensures memory { OnErr result (0 < body_part self.old piece.now) }
    {
        let room = self.size - self.payload.size();
        let len = if (piece.len() as u64) < room {
            piece.len()
        } else {
            room as usize
        };
        self.take(&piece[..len])?;
        Ok(len)
    }

    // Leaves the reader at this stage, which tells what the call answers.
    fn leave<T: Drop>(&mut self, stage: Stage, value: T) -> Result<T, Code>
        requires { IsStage self.old.hash self.old.digests self.old.size self.old.bytes stage }
        ensures stage { self.new ≡ at_stage self.old stage }
        ensures answer { result ≡ answered value stage }
    {
        self.stage = stage;
        match stage {
            Stage::Reading | Stage::Passed => Ok(value),
            Stage::Failed(code) => Err(code),
        }
    }

    // Takes and judges the body's part of the piece, while nothing was decided before.
    fn read(&mut self, piece: &[u8]) -> Result<usize, Code>
        requires { self.old.stage ≡ Stage.Reading }
        ensures { FedAt Stage.Reading self.old piece.now result self.new }
    {
        match self.take_front(piece) {
            Ok(len) => {
                let stage = self.stage_at(false);
                self.leave(stage, len)
            }
            Err(NoMemory) => self.leave(Stage::Failed(Code::InternalError), 0),
        }
    }

    // Takes the body's part of a piece, at each stage.
    fn feed_at(&mut self, piece: &[u8]) -> Result<usize, Code>
        ensures { FedAt self.old.stage self.old piece.now result self.new }
    {
        match self.stage {
            Stage::Reading => self.read(piece),
            Stage::Passed => self.pass(),
            Stage::Failed(code) => Err(code),
        }
    }

    // Takes nothing of what comes behind a body that is whole and right.
    fn pass(&mut self) -> Result<usize, Code>
        requires { self.old.stage ≡ Stage.Passed }
        ensures { (piece : List ℕ) → FedAt Stage.Passed self.old piece result self.new }
    {
        let _ = &self.size;
        Ok(0)
    }

    // The end of input, at each stage.
    fn end_at(&mut self) -> Result<(), Code>
        ensures { EndedAt self.old.stage self.old result self.new }
    {
        match self.stage {
            Stage::Reading => {
                let stage = self.stage_at(true);
                self.leave(stage, ())
            }
            Stage::Passed => Ok(()),
            Stage::Failed(code) => Err(code),
        }
    }

    // The payload, as no more bytes come, at each stage.
    fn finish_at(mut self) -> Result<Payload, Code>
        ensures { FinishedAt self.stage self result }
    {
        self.end_at()?;
        Ok(self.payload.finish())
    }

    // Whether the body is whole and right.
    pub(crate) fn is_whole(&self) -> bool
        ensures { result ≡ accepts (told self.now.bytes self.now.stage) }
    {
        match self.stage {
            Stage::Passed => true,
            Stage::Reading | Stage::Failed(_) => false,
        }
    }

    // The checksum of the bytes so far, of the kind that is told.
    pub(crate) fn sum(&self) -> Option<Checksum>
        ensures { result ≡ sum_by (option_map algorithm_of self.now.digests.checksum) self.now.bytes }
    {
        sum_of_bytes(&self.sum)
    }

    // How many bytes of the body were taken.
    pub(crate) fn taken(&self) -> u64
        ensures { result ≡ length self.now.bytes }
    {
        self.payload.size()
    }

    // Takes as much of the piece as is the body's, and judges it: how many bytes that were. After a refusal
    // the answer is always its code.
    pub(crate) fn feed(&mut self, piece: &[u8]) -> Result<usize, Code>
        ensures stands { (hash : Option (List ℕ)) (digests : Told) (size : ℕ) (bytes : List ℕ)
            → WholeStands self.old hash digests size bytes false
            → WholeFed hash digests size bytes piece.now result self.new }
        ensures count { IfOk result (λ n. length self.new.bytes ≡ length self.old.bytes + n) }
        ensures counts { (length self.old.bytes ≤ length self.new.bytes)
            × (length self.new.bytes ≤ length self.old.bytes + length piece.now) }
        ensures err { IfErr result (λ code. self.new.stage ≡ Stage.Failed code) }
        ensures refuses { (code : Code) → self.old.stage ≡ Stage.Failed code
            → (result ≡ Err code) × (self.new ≡ self.old) }
    {
        self.feed_at(piece)
    }

    // Says that no more bytes come: the code of what is wrong with the body then.
    pub(crate) fn end(&mut self) -> Result<(), Code>
        ensures stands { (hash : Option (List ℕ)) (digests : Told) (size : ℕ) (bytes : List ℕ)
            → WholeStands self.old hash digests size bytes false
            → WholeEnded hash digests size bytes result self.new }
        ensures says { (hash : Option (List ℕ)) (digests : Told) (size : ℕ) (bytes : List ℕ)
            → WholeStands self.old hash digests size bytes false
            → result ≡ said_at_end (told self.old.bytes self.old.stage) }
        ensures bytes { self.new.bytes ≡ self.old.bytes }
        ensures err { IfErr result (λ code. self.new.stage ≡ Stage.Failed code) }
        ensures refuses { (code : Code) → self.old.stage ≡ Stage.Failed code
            → (result ≡ Err code) × (self.new ≡ self.old) }
    {
        self.end_at()
    }

    // The payload, as no more bytes come.
    pub(crate) fn finish(self) -> Result<Payload, Code>
        ensures says { (hash : Option (List ℕ)) (digests : Told) (size : ℕ) (bytes : List ℕ) (ended : Bool)
            → WholeStands self hash digests size bytes ended
            → result ≡ finished (told self.bytes self.stage) }
        ensures refuses { (code : Code) → self.stage ≡ Stage.Failed code → result ≡ Err code }
    {
        self.finish_at()
    }
}
