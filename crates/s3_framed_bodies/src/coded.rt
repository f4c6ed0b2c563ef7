//! The reader of a body in the chunked transfer coding.

ghost use Rattle.std.specs.Prelude.{◌≡◌, ◌≢◌, ◌⊎◌, ℕ, ◌+◌, ◌-◌, ◌^◌, ◌<◌, ◌≤◌, Bool, true, false, List, [], ◌++◌, length, Ok, Err, IfErr, IfOk};
ghost use Rattle.s3_aws_chunked.specs.Verdict.{Accepted, accepts};
ghost use Rattle.s3_aws_chunked.specs.Reader.{said_at_end};
ghost use Rattle.s3_payloads.specs.FoundSum.{found_sum};
ghost use Rattle.s3_payloads.specs.Outcome.{EndedTo, FedTo, finished};
ghost use Rattle.s3_transfer_chunks.specs.Decoder as decoders;
ghost use Rattle.s3_transfer_chunks.specs.Reading.{taken_in};
ghost use Rattle.s3_transfer_chunks.specs.Verdict as decodings;
ghost use Rattle.s3_framed_bodies.specs.Data.{DataTold};
ghost use Rattle.s3_framed_bodies.specs.Framed.{FramedBody};
ghost use Rattle.s3_framed_bodies.specs.Coded.{CodedFailed, CodedPassed, CodedStands, Decoded, SettledTo, coded_part, coded_taken, coded_verdict};

use crate::data::judge_data;
use s3_bodies::{BodyBuilder, Payload};
use s3_integrity::Checksum;
use s3_payloads::Form;
use s3_signing::Verified;
use s3_terms::Code;
use s3_transfer_chunks::{
    TransferDecoder, bodies_are_accepted, decoders_judge, open_bodies_take_all, refusals_stand,
    verdicts_are_final,
};
use std::alloc::Global;
use std::mem;

// Where a reader stands.
#[derive(Drop)]
pub(crate) enum Stage {
    // Bytes of the body are still to come.
    Coming,
    // The body is whole and right: its payload, and the checksum that was found of it.
    Passed(Payload, Option<Checksum>),
    // It is refused, or memory ran out.
    Failed(Code),
}

// Reads a body in the chunked transfer coding. Its data is kept as it comes, and judged once the coding has ended.
#[derive(Drop)]
pub(crate) struct CodedReader {
    decoder: TransferDecoder,
    held: BodyBuilder,
    stage: Stage,
    form: Form,
    decoded: u64,
    verified: Verified,
    alloc: Global,
}

impl CodedReader {
    // A reader of a body with at most `limit` bytes of data, of which its head says that it has `decoded`.
    pub(crate) fn new(
        alloc: Global,
        form: Form,
        limit: u64,
        decoded: u64,
        verified: Verified,
    ) -> CodedReader
        ensures { (body : FramedBody) → form ≡ body.form → verified ≡ body.proved → CodedStands result body limit decoded [] false }
    {
        CodedReader {
            decoder: TransferDecoder::new(limit),
            held: BodyBuilder::new(alloc, decoded),
            stage: Stage::Coming,
            form,
            decoded,
            verified,
            alloc,
        }
    }

    // Decodes a piece, and keeps its data: how many of its bytes are the body's. Memory may run out, also for the count of the
    // bytes, of which there are fewer than 2^64 - 1.
    fn decode(&mut self, piece: &[u8]) -> Result<usize, Code>
        ensures keeps { self.new ≡ record self.old { decoder = self.new.decoder; held = self.new.held } }
        ensures stands { result ≢ Err Code.InternalError → (limit : ℕ) (bytes : List ℕ)
            → decoders.Stands self.old.decoder limit bytes false self.old.held
            → Decoded self.new piece.now limit bytes }
        ensures fits { result ≢ Err Code.InternalError → coded_taken self.new < 2 ^ 64 - 1 }
        ensures ok { IfOk result (λ n. (code : Code) → decoders.Failed self.new.decoder code → ⊥) }
        ensures err { IfErr result (λ code. (code ≡ Code.InternalError) ⊎ decoders.Failed self.new.decoder code) }
        ensures size { IfOk result (λ n. (limit : ℕ) (bytes : List ℕ) → decoders.Stands self.old.decoder limit bytes false self.old.held
            → taken_in limit (bytes ++ piece.now) ≡ taken_in limit bytes + n) }
        ensures count { IfOk result (λ n. coded_taken self.new ≡ coded_taken self.old + n) }
        ensures bounds { (coded_taken self.old ≤ coded_taken self.new)
            × (coded_taken self.new ≤ coded_taken self.old + length piece.now) }
        ensures within { IfOk result (λ n. n ≤ length piece.now) }
        ensures memory { result ≡ Err Code.InternalError → coded_taken self.old < 2 ^ 64 - 1
            → decoders.Failed self.old.decoder Code.InternalError ⊎ (0 < length piece.now) }
    {
        let taken = self.decoder.feed(piece, &mut self.held);
        if self.decoder.taken() == u64::MAX {
            return Err(Code::InternalError);
        }
        taken
    }

    // The verdict on all data, which is let go.
    fn judged(&mut self) -> Result<(Payload, Option<Checksum>), Code>
        ensures keeps { self.new ≡ record self.old { held = self.new.held } }
        ensures told { (place : ℕ) → DataTold self.old.form self.old.verified self.old.decoded place self.old.held result }
    {
        let held = mem::replace(&mut self.held, BodyBuilder::new(self.alloc, 0)).finish()?;
        judge_data(self.alloc, self.form, self.decoded, &self.verified, &held)
    }

    // Refuses from now on.
    fn fail<T: Drop>(&mut self, code: Code) -> Result<T, Code>
        ensures answer { result ≡ Err code }
        ensures stage { self.new ≡ record self.old { stage = Stage.Failed code } }
    {
        self.stage = Stage::Failed(code);
        Err(code)
    }

    // Judges the body where its coding has ended.
    fn settle(&mut self) -> Result<(), Code>
        ensures keeps { self.new ≡ record self.old { stage = self.new.stage; held = self.new.held } }
        ensures coming { (held : List ℕ) → decodings.accepts (decoders.verdict_by self.old.decoder held) ≡ false
            → (result ≡ Ok tt) × (self.new ≡ self.old) }
        ensures over { (held : List ℕ) → decodings.accepts (decoders.verdict_by self.old.decoder held) ≡ true
            → SettledTo self.old self.new result }
    {
        if !self.decoder.is_whole() {
            return Ok(());
        }
        match self.judged() {
            Ok((payload, sum)) => {
                self.stage = Stage::Passed(payload, sum);
                Ok(())
            }
            Err(code) => self.fail(code),
        }
    }

    // Takes the body's part of a piece, while nothing was decided before.
    fn read(&mut self, piece: &[u8]) -> Result<usize, Code>
        ensures stands { (body : FramedBody) (limit decoded : ℕ) (bytes : List ℕ)
            → CodedStands self.old body limit decoded bytes false → self.old.stage ≡ Stage.Coming
            → FedTo piece.now (coded_part limit bytes piece.now) (CodedStands self.new body limit decoded (bytes ++ piece.now) false)
            (CodedFailed self.new) result }
        ensures count { IfOk result (λ n. coded_taken self.new ≡ coded_taken self.old + n) }
        ensures counts { (coded_taken self.old ≤ coded_taken self.new)
            × (coded_taken self.new ≤ coded_taken self.old + length piece.now) }
        ensures err { IfErr result (CodedFailed self.new) }
    {
        bodies_are_accepted();
        decoders_judge();
        open_bodies_take_all();
        refusals_stand();
        verdicts_are_final();
        match self.decode(piece) {
            Ok(len) => match self.settle() {
                Ok(()) => Ok(len),
                Err(code) => Err(code),
            },
            Err(code) => self.fail(code),
        }
    }

    // Takes as much of the piece as is the body's, and judges it: how many bytes that were. After a refusal the answer is always
    // its code.
    pub(crate) fn feed(&mut self, piece: &[u8]) -> Result<usize, Code>
        ensures stands { (body : FramedBody) (limit decoded : ℕ) (bytes : List ℕ)
            → CodedStands self.old body limit decoded bytes false
            → FedTo piece.now (coded_part limit bytes piece.now) (CodedStands self.new body limit decoded (bytes ++ piece.now) false)
            (CodedFailed self.new) result }
        ensures count { IfOk result (λ n. coded_taken self.new ≡ coded_taken self.old + n) }
        ensures counts { (coded_taken self.old ≤ coded_taken self.new)
            × (coded_taken self.new ≤ coded_taken self.old + length piece.now) }
        ensures err { IfErr result (CodedFailed self.new) }
        ensures refuses { (code : Code) → CodedFailed self.old code
            → (result ≡ Err code) × (coded_taken self.new ≡ coded_taken self.old) }
    {
        bodies_are_accepted();
        refusals_stand();
        verdicts_are_final();
        match self.stage {
            Stage::Coming => self.read(piece),
            Stage::Passed(..) => Ok(0),
            Stage::Failed(code) => Err(code),
        }
    }

    // Says that no more bytes come: the code of what is wrong with the body then.
    pub(crate) fn end(&mut self) -> Result<(), Code>
        ensures stands { (body : FramedBody) (limit decoded : ℕ) (bytes : List ℕ)
            → CodedStands self.old body limit decoded bytes false
            → EndedTo (CodedStands self.new body limit decoded bytes true) (CodedFailed self.new) (CodedPassed self.new) result }
        ensures says { result ≡ said_at_end (coded_verdict self.old) }
        ensures err { IfErr result (CodedFailed self.new) }
        ensures taken { coded_taken self.new ≡ coded_taken self.old }
        ensures refuses { (code : Code) → CodedFailed self.old code
            → (result ≡ Err code) × (coded_taken self.new ≡ coded_taken self.old) }
    {
        open_bodies_take_all();
        verdicts_are_final();
        match self.stage {
            Stage::Coming => self.fail(Code::IncompleteBody),
            Stage::Passed(..) => Ok(()),
            Stage::Failed(code) => Err(code),
        }
    }

    // Whether the body is whole and right.
    pub(crate) fn is_whole(&self) -> bool
        ensures { result ≡ accepts (coded_verdict self.now) }
    {
        matches!(self.stage, Stage::Passed(..))
    }

    // How many bytes of the body were taken.
    pub(crate) fn taken(&self) -> u64
        ensures { result ≡ coded_taken self.now }
    {
        self.decoder.taken()
    }

    // The checksum that was found of the body.
    pub(crate) fn sum(&self) -> Option<Checksum>
        ensures { (body : FramedBody) (limit decoded : ℕ) (bytes payload : List ℕ) (ended : Bool)
            → CodedStands self.now body limit decoded bytes ended → coded_verdict self.now ≡ Accepted payload
            → result ≡ found_sum body.form payload }
    {
        match self.stage {
            Stage::Passed(_, sum) => sum,
            Stage::Coming | Stage::Failed(_) => None,
        }
    }

    // The payload, as no more bytes come.
    pub(crate) fn finish(self) -> Result<Payload, Code>
        ensures says { result ≡ finished (coded_verdict self) }
        ensures refuses { (code : Code) → CodedFailed self code → result ≡ Err code }
    {
        let CodedReader { stage, .. } = self;
        match stage {
            Stage::Coming => Err(Code::IncompleteBody),
            Stage::Passed(payload, _) => Ok(payload),
            Stage::Failed(code) => Err(code),
        }
    }
}
