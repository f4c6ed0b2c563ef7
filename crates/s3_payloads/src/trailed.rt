//! The reader of a body in chunks with a checksum behind them, which keeps its data.

ghost use Rattle.std.specs.Prelude.{◌≡◌, ℕ, ◌+◌, ◌≤◌, true, false, List, [], ◌++◌, length, Err, IfErr, IfOk};
ghost use Rattle.s3_aws_chunked.specs.Reader.{said_at_end};
ghost use Rattle.s3_aws_chunked.specs.Verdict.{accepts};
ghost use Rattle.s3_integrity.specs.Sum.{sum_of, with_bytes};
ghost use Rattle.s3_payloads.specs.EitherChunks.{ChunksFailed, ChunksStand, chunks_by, chunks_lost, chunks_taken};
ghost use Rattle.s3_payloads.specs.Verdict.{TrailerTerms as Terms};
ghost use Rattle.s3_payloads.specs.Outcome.{EndedTo, FedTo, finished, part_of};
ghost use Rattle.s3_payloads.specs.Trailed.{TrailedAreShort, TrailedAreWhole, TrailedCount, TrailedDone, TrailedEnd, TrailedEndIncomplete, TrailedFailed, TrailedJudge, TrailedRefusalsStand, TrailedStands, TrailedStay, TrailedStayWithin, answered_by, trailed_by, trailed_taken, wrong_in};

use crate::either_chunks::{EitherChunks, either_chunks_are_judged};
use crate::summed_data::SummedData;
use s3_bodies::Payload;
use s3_integrity::{Checksum, ChecksumAlgorithm};
use s3_terms::Code;
use std::alloc::Global;

// Reads a body in chunks with a trailer, keeps its data, and compares the checksum behind them once they are whole.
#[derive(Drop)]
pub(crate) struct TrailedReader {
    chunks: EitherChunks,
    summed: SummedData,
    // What is wrong with the checksum of a body whose chunks are whole.
    wrong: Option<Code>,
}

impl TrailedReader {
    // A reader of a body of these chunks, with `decoded` bytes of data and a checksum of this kind, of which none has come.
    pub(crate) fn new(
        alloc: Global,
        chunks: EitherChunks,
        algorithm: ChecksumAlgorithm,
        decoded: u64,
    ) -> TrailedReader
        ensures { (terms : Terms) → ChunksStand chunks terms [] false [] → TrailedStands result algorithm terms [] false }
    {
        let mut reader = TrailedReader {
            chunks,
            summed: SummedData::new(alloc, algorithm, decoded),
            wrong: None,
        };
        reader.wrong = reader.fault();
        reader
    }

    // What is wrong with the checksum, where the chunks are whole.
    fn fault(&self) -> Option<Code>
        ensures { result ≡ wrong_in self.now.summed.algorithm (chunks_by self.now.chunks self.now.summed.bytes) }
    {
        if !self.chunks.is_whole() {
            return None;
        }
        self.summed.fault(self.chunks.value())
    }

    // Takes as much of the piece as is the body's, and keeps the data in it, without a look at the checksum.
    fn take(&mut self, piece: &[u8]) -> Result<usize, Code>
        ensures stands { (terms : Terms) (bytes : List ℕ)
            → ChunksStand self.old.chunks terms bytes false self.old.summed.bytes
            → FedTo piece.now (part_of terms.encoded bytes piece.now)
            (ChunksStand self.new.chunks terms (bytes ++ piece.now) false self.new.summed.bytes)
            (ChunksFailed self.new.chunks) result }
        ensures kind { self.new.summed.algorithm ≡ self.old.summed.algorithm }
        ensures wrong { self.new.wrong ≡ self.old.wrong }
        ensures count { IfOk result (λ n. chunks_taken self.new.chunks ≡ chunks_taken self.old.chunks + n) }
        ensures counts { (chunks_taken self.old.chunks ≤ chunks_taken self.new.chunks)
            × (chunks_taken self.new.chunks ≤ chunks_taken self.old.chunks + length piece.now) }
        ensures err { IfErr result (ChunksFailed self.new.chunks) }
        ensures refuses { (code : Code) → ChunksFailed self.old.chunks code
            → (result ≡ Err code) × (chunks_taken self.new.chunks ≡ chunks_taken self.old.chunks) }
    {
        either_chunks_are_judged();
        self.chunks.feed(piece, &mut self.summed)
    }

    // Compares the checksum, where the chunks are whole: what is answered where so many bytes of a piece were taken.
    fn judge(&mut self, count: usize) -> Result<usize, Code>
        ensures chunks { self.new.chunks ≡ self.old.chunks }
        ensures summed { self.new.summed ≡ self.old.summed }
        ensures wrong { self.new.wrong ≡ wrong_in self.old.summed.algorithm (chunks_by self.old.chunks self.old.summed.bytes) }
        ensures answer { result ≡ answered_by self.new.wrong count }
    {
        self.wrong = self.fault();
        match self.wrong {
            Some(code) => Err(code),
            None => Ok(count),
        }
    }

    // Takes as much of the piece as is the body's, keeps the data in it, and compares the checksum once the chunks are
    // whole: how many bytes were taken. After a refusal the answer is always its code.
    pub(crate) fn feed(&mut self, piece: &[u8]) -> Result<usize, Code>
        ensures stands { (algorithm : ChecksumAlgorithm) (terms : Terms) (bytes : List ℕ)
            → TrailedStands self.old algorithm terms bytes false
            → FedTo piece.now (part_of terms.encoded bytes piece.now)
            (TrailedStands self.new algorithm terms (bytes ++ piece.now) false)
            (TrailedFailed self.new) result }
        ensures count { IfOk result (λ n. trailed_taken self.new ≡ trailed_taken self.old + n) }
        ensures counts { (trailed_taken self.old ≤ trailed_taken self.new)
            × (trailed_taken self.new ≤ trailed_taken self.old + length piece.now) }
        ensures err { IfErr result (TrailedFailed self.new) }
        ensures refuses { (code : Code) → TrailedFailed self.old code
            → (result ≡ Err code) × (trailed_taken self.new ≡ trailed_taken self.old) }
    {
        if let Some(code) = self.wrong {
            return Err(code);
        }
        let count = self.take(piece)?;
        self.judge(count)
    }

    // Says that no more bytes come: the code of what is wrong with the body then.
    pub(crate) fn end(&mut self) -> Result<(), Code>
        ensures stands { (algorithm : ChecksumAlgorithm) (terms : Terms) (bytes : List ℕ)
            → TrailedStands self.old algorithm terms bytes false
            → EndedTo (TrailedStands self.new algorithm terms bytes true)
            (TrailedFailed self.new) (TrailedDone self.new) result }
        ensures err { IfErr result (TrailedFailed self.new) }
        ensures says { chunks_lost self.old.chunks ≡ false → result ≡ said_at_end (trailed_by self.old) }
        ensures taken { trailed_taken self.new ≡ trailed_taken self.old }
        ensures summed { self.new.summed ≡ self.old.summed }
        ensures refuses { (code : Code) → TrailedFailed self.old code
            → (result ≡ Err code) × (trailed_taken self.new ≡ trailed_taken self.old) }
    {
        either_chunks_are_judged();
        if let Some(code) = self.wrong {
            return Err(code);
        }
        self.chunks.end()
    }

    // Whether the body is whole and right.
    pub(crate) fn is_whole(&self) -> bool
        ensures { result ≡ accepts (trailed_by self.now) }
    {
        match self.wrong {
            Some(_) => false,
            None => self.chunks.is_whole(),
        }
    }

    // The checksum of the data so far.
    pub(crate) fn sum(&self) -> Checksum
        ensures { result ≡ with_bytes self.now.summed.algorithm (sum_of self.now.summed.algorithm self.now.summed.bytes) }
    {
        self.summed.sum()
    }

    // How many bytes of the body were taken.
    pub(crate) fn taken(&self) -> u64
        ensures { result ≡ trailed_taken self.now }
    {
        self.chunks.taken()
    }

    // The payload, as no more bytes come.
    #[tactic(auto, using(crate::proofs::TrailedLemmas::finish_refused))]
    pub(crate) fn finish(mut self) -> Result<Payload, Code>
        ensures says { chunks_lost self.chunks ≡ false → result ≡ finished (trailed_by self) }
        ensures refuses { (code : Code) → TrailedFailed self code → result ≡ Err code }
    {
        match self.end() {
            Ok(()) => Ok(self.summed.finish()),
            Err(code) => Err(code),
        }
    }
}

// A law: what is known of such bodies and of their readers by what is known of their chunks.
pub(crate) fn trailed_bodies_are_judged()
    ensures judge { TrailedJudge }
    ensures count { TrailedCount }
    ensures within { TrailedStayWithin }
    ensures stay { TrailedStay }
    ensures end { TrailedEnd }
    ensures short { TrailedAreShort }
    ensures incomplete { TrailedEndIncomplete }
    ensures stand { TrailedRefusalsStand }
    ensures whole { TrailedAreWhole }
{
    either_chunks_are_judged();
}
