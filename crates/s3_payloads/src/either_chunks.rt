//! A reader of chunks with a trailer behind them, which are signed or not.

ghost use Rattle.std.specs.Prelude.{◌≡◌, ◌≢◌, ℕ, ◌+◌, ◌<◌, ◌≤◌, ◌⊎◌, true, false, List, [], ◌++◌, length, IfOk, IfErr, OnOk, Err};
ghost use Rattle.s3_aws_chunked.specs.Sinks.{Grows, got};
ghost use Rattle.s3_integrity.specs.Algorithm.{header_of};
ghost use Rattle.s3_signing.specs.Chain.{seed_of};
ghost use Rattle.s3_unsigned_chunks.specs.Reader.{said_at_end};
ghost use Rattle.s3_unsigned_chunks.specs.Verdict.{accepts};
ghost use Rattle.s3_payloads.specs.EitherChunks.{ChunksAreShort, ChunksAreWhole, ChunksCount, ChunksEnd, ChunksEndIncomplete, ChunksFailed, ChunksJudge, ChunksRefusalsStand, ChunksStand, ChunksStay, ChunksStayWithin, chunks_by, chunks_done, chunks_lost, chunks_taken, chunks_value};
ghost use Rattle.s3_payloads.specs.Verdict.{TrailerTerms, seed_if};

use s3_aws_chunked::{
    TrailedChunkReader, trailed_bodies_are_accepted, trailed_readers_judge, trailed_refusals_stand,
    trailed_verdicts_are_final,
};
use s3_bodies::Sink;
use s3_integrity::ChecksumAlgorithm;
use s3_signing::Verified;
use s3_terms::Code;
use s3_unsigned_chunks::UnsignedChunkReader;

// Reads chunks with a trailer behind them.
#[derive(Drop)]
pub(crate) enum EitherChunks {
    // Without signatures.
    Unsigned(UnsignedChunkReader),
    // With one for each chunk, and for the trailer.
    Signed(TrailedChunkReader),
}

impl EitherChunks {
    // A reader of the body of a verified request, of which none has come.
    pub(crate) fn new(
        algorithm: ChecksumAlgorithm,
        signed: bool,
        verified: &Verified,
        encoded: u64,
        decoded: u64,
    ) -> EitherChunks
        ensures { ChunksStand result (record {
          name = header_of algorithm;
          encoded = encoded;
          decoded = decoded;
          seed = seed_if signed (seed_of verified.now);
        }) [] false [] }
    {
        if signed {
            EitherChunks::Signed(TrailedChunkReader::new(verified, algorithm, encoded, decoded))
        } else {
            EitherChunks::Unsigned(UnsignedChunkReader::new(algorithm, encoded, decoded))
        }
    }

    // Takes the next piece of the body, up to the end of Content-Length, and hands on the data in it: how many of its bytes
    // it took.
    pub(crate) fn feed<S: Sink>(&mut self, piece: &[u8], sink: &mut S) -> Result<usize, Code>
        ensures stands { result ≢ Err Code.InternalError → (terms : TrailerTerms) (bytes held : List ℕ)
            → ChunksStand self.old terms bytes false held
            → ChunksStand self.new terms (bytes ++ piece.now) false (held ++ got (S.taken sink.old) (S.taken sink.new)) }
        ensures ok { IfOk result (λ n. (code : Code) → ChunksFailed self.new code → ⊥) }
        ensures err { IfErr result (λ code. ChunksFailed self.new code) }
        ensures count { IfOk result (λ n. chunks_taken self.new ≡ chunks_taken self.old + n) }
        ensures counts { (chunks_taken self.old ≤ chunks_taken self.new)
            × (chunks_taken self.new ≤ chunks_taken self.old + length piece.now) }
        ensures refuses { (code : Code) → ChunksFailed self.old code
            → (result ≡ Err code) × (chunks_taken self.new ≡ chunks_taken self.old) }
        ensures grows { Grows (S.taken sink.old) (S.taken sink.new) }
        ensures memory { result ≡ Err Code.InternalError → ChunksFailed self.old Code.InternalError ⊎ (0 < length piece.now) }
        ensures short { result ≡ Err Code.InternalError → (terms : TrailerTerms) (bytes held : List ℕ)
            → ChunksStand self.old terms bytes false held → length bytes < terms.encoded }
    {
        match self {
            EitherChunks::Unsigned(chunks) => chunks.feed(piece, sink),
            EitherChunks::Signed(chunks) => chunks.feed(piece, sink),
        }
    }

    // Says that no more bytes come: the code of what is wrong with the body then.
    pub(crate) fn end(&mut self) -> Result<(), Code>
        ensures stands { (terms : TrailerTerms) (bytes held : List ℕ)
            → ChunksStand self.old terms bytes false held → ChunksStand self.new terms bytes true held }
        ensures ok { OnOk result (chunks_done self.new) }
        ensures err { IfErr result (λ code. ChunksFailed self.new code) }
        ensures says { chunks_lost self.old ≡ false → (held : List ℕ) → result ≡ said_at_end (chunks_by self.old held) }
        ensures refuses { (code : Code) → ChunksFailed self.old code → result ≡ Err code }
        ensures taken { chunks_taken self.new ≡ chunks_taken self.old }
    {
        match self {
            EitherChunks::Unsigned(chunks) => chunks.end(),
            EitherChunks::Signed(chunks) => chunks.end(),
        }
    }

    // Whether it has read a whole body, with nothing wrong.
    pub(crate) fn is_whole(&self) -> bool
        ensures { (held : List ℕ) → result ≡ accepts (chunks_by self.now held) }
    {
        match self {
            EitherChunks::Unsigned(chunks) => chunks.is_whole(),
            EitherChunks::Signed(chunks) => chunks.is_whole(),
        }
    }

    // How many bytes of the body it has taken.
    pub(crate) fn taken(&self) -> u64
        ensures { result ≡ chunks_taken self.now }
    {
        match self {
            EitherChunks::Unsigned(chunks) => chunks.taken(),
            EitherChunks::Signed(chunks) => chunks.taken(),
        }
    }

    // The value of the trailer: all of it where the body is whole.
    pub(crate) fn value(&self) -> &[u8]
        ensures { result.now ≡ chunks_value self.now }
    {
        match self {
            EitherChunks::Unsigned(chunks) => chunks.value(),
            EitherChunks::Signed(chunks) => chunks.value(),
        }
    }
}

// A law: what is known of such readers and of their bodies by what is known of each kind.
pub(crate) fn either_chunks_are_judged()
    ensures judge { ChunksJudge }
    ensures count { ChunksCount }
    ensures within { ChunksStayWithin }
    ensures stay { ChunksStay }
    ensures end { ChunksEnd }
    ensures short { ChunksAreShort }
    ensures incomplete { ChunksEndIncomplete }
    ensures stand { ChunksRefusalsStand }
    ensures whole { ChunksAreWhole }
{
    trailed_readers_judge();
    trailed_verdicts_are_final();
    trailed_refusals_stand();
    trailed_bodies_are_accepted();
    s3_unsigned_chunks::readers_judge();
    s3_unsigned_chunks::verdicts_are_final();
    s3_unsigned_chunks::open_bodies_are_short();
    s3_unsigned_chunks::refusals_stand();
    s3_unsigned_chunks::bodies_are_accepted();
}
