//! The reader of a payload, whichever way it is sent.

ghost use Rattle.std.specs.Prelude.{◌≡◌, ◌≤◌, ◌+◌, ℕ, Bool, false, List, [], length, Err, IfErr, IfOk};
ghost use Rattle.s3_aws_chunked.specs.Reader.{said_at_end};
ghost use Rattle.s3_aws_chunked.specs.Verdict.{Accepted, accepts};
ghost use Rattle.s3_payloads.specs.Form.{Announced};
ghost use Rattle.s3_payloads.specs.FoundSum.{found_sum};
ghost use Rattle.s3_payloads.specs.Outcome.{finished};
ghost use Rattle.s3_payloads.specs.Reader.{ModeStands};

use crate::chunks::ChunksReader;
use crate::either_chunks::EitherChunks;
use crate::form::Form;
use crate::trailed::TrailedReader;
use crate::whole::WholeReader;
use s3_bodies::Payload;
use s3_integrity::Checksum;
use s3_signing::Verified;
use s3_terms::Code;
use std::alloc::Global;

// The ways to read a body.
#[derive(Drop)]
pub(crate) enum Mode {
    // As it is.
    Whole(WholeReader),
    // In signed chunks.
    Chunks(ChunksReader),
    // In chunks with a trailer.
    Trailed(TrailedReader),
}

// How a body of so many bytes is read that is sent in this form, before any of it has come.
fn mode_of(alloc: Global, form: Form, length: u64, verified: &Verified) -> Mode
    ensures { ModeStands result (record { length = length; form = form; proved = verified.now }) [] false }
{
    match form {
        Form::Whole { hash, digests } => {
            Mode::Whole(WholeReader::new(alloc, hash, digests, length))
        }
        Form::Chunks { decoded } => {
            Mode::Chunks(ChunksReader::new(alloc, verified, length, decoded))
        }
        Form::TrailedChunks {
            decoded,
            algorithm,
            signed,
        } => {
            let chunks = EitherChunks::new(algorithm, signed, verified, length, decoded);
            Mode::Trailed(TrailedReader::new(alloc, chunks, algorithm, decoded))
        }
    }
}

/// Reads the body of a verified message as its bytes arrive, whichever of the five payload words its head has: a hash,
/// `UNSIGNED-PAYLOAD`, `STREAMING-AWS4-HMAC-SHA256-PAYLOAD`, the same with `-TRAILER`, or
/// `STREAMING-UNSIGNED-PAYLOAD-TRAILER`.
///
/// However the bytes are cut, a body is refused at the same byte and with the same code. Each byte of data is copied once;
/// MD5 runs over it, SHA-256 where the word asks for it, and a checksum where the head says one or announces its trailer.
#[derive(Drop)]
pub struct PayloadReader {
    mode: Mode,
}

impl PayloadReader {
    ghost use Rattle.s3_payloads.specs.Reader.{HasFailed, IsEnded, IsFed, Stands, taken_of, verdict_of};

    /// The reader of a body that is sent in this form, of which nothing has come, and which has so many bytes as it is sent,
    /// behind a head that was verified. Takes no memory.
    pub fn new(alloc: Global, form: Form, size: u64, verified: &Verified) -> PayloadReader
        ensures { Stands result (record { length = size; form = form; proved = verified.now }) [] false }
    {
        PayloadReader {
            mode: mode_of(alloc, form, size, verified),
        }
    }

    /// Whether it has read a whole body, with nothing wrong.
    pub fn is_whole(&self) -> bool
        ensures { result ≡ accepts (verdict_of self.now) }
    {
        match &self.mode {
            Mode::Whole(whole) => whole.is_whole(),
            Mode::Chunks(chunks) => chunks.is_whole(),
            Mode::Trailed(trailed) => trailed.is_whole(),
        }
    }

    /// How many bytes of the body were taken; after a refusal of the body, the place of that.
    pub fn taken(&self) -> u64
        ensures { result ≡ taken_of self.now }
    {
        match &self.mode {
            Mode::Whole(whole) => whole.taken(),
            Mode::Chunks(chunks) => chunks.taken(),
            Mode::Trailed(trailed) => trailed.taken(),
        }
    }

    /// Takes the next piece of the body, up to the end of Content-Length, and answers how many of its bytes it
    /// took; what comes behind them is not looked at. Takes time by the length of the piece: MD5 over the data, SHA-256 and
    /// a checksum where they are asked for, and one copy; and memory for the data.
    ///
    /// # Errors
    ///
    /// In the piece that brings the byte at which the body is refused, wherever the piece ends:
    /// `XAmzContentSHA256Mismatch` and then `BadDigest` at the last byte of a body that is sent as it is, where it
    /// has none in the first piece; `InvalidRequest`, `SignatureDoesNotMatch` and `IncompleteBody` for signed
    /// chunks, as `s3_aws_chunked::ChunkReader` says; `InvalidRequest` and `IncompleteBody` for chunks without
    /// signatures, as `s3_unsigned_chunks::UnsignedChunkReader` says; all three for signed chunks with a trailer, as
    /// `s3_aws_chunked::TrailedChunkReader` says; and with a trailer at the last byte of those that are whole
    /// `InvalidRequest` where the trailer's value is no checksum of the kind that `x-amz-trailer` names, and `BadDigest`
    /// where the data has another; and `InternalError` where there is no memory for the data. From then on the reader
    /// refuses always, with the same code.
    pub fn feed(&mut self, piece: &[u8]) -> Result<usize, Code>
        ensures stands { (announced : Announced) (bytes : List ℕ)
            → Stands self.old announced bytes false → IsFed announced bytes piece.now result self.new }

        // Whatever it answers, it takes bytes of the piece alone, and says how many they were.
        ensures count { IfOk result (λ n. taken_of self.new ≡ taken_of self.old + n) }
        ensures counts { (taken_of self.old ≤ taken_of self.new)
            × (taken_of self.new ≤ taken_of self.old + length piece.now) }

        // What has refused refuses always, and takes nothing more.
        ensures err { IfErr result (HasFailed self.new) }
        ensures refuses { (code : Code) → HasFailed self.old code
            → (result ≡ Err code) × (taken_of self.new ≡ taken_of self.old) }
    {
        match &mut self.mode {
            Mode::Whole(whole) => whole.feed(piece),
            Mode::Chunks(chunks) => chunks.feed(piece),
            Mode::Trailed(trailed) => trailed.feed(piece),
        }
    }

    /// Says that no more bytes come.
    ///
    /// # Errors
    ///
    /// `IncompleteBody` where the body isn't whole, and the code of an earlier refusal.
    pub fn end(&mut self) -> Result<(), Code>
        ensures stands { (announced : Announced) (bytes : List ℕ)
            → Stands self.old announced bytes false → IsEnded announced bytes result self.new }

        // It answers what it says of the body: where that is open, that it is incomplete.
        ensures says { (announced : Announced) (bytes : List ℕ)
            → Stands self.old announced bytes false → result ≡ said_at_end (verdict_of self.old) }
        ensures err { IfErr result (HasFailed self.new) }
        ensures taken { taken_of self.new ≡ taken_of self.old }
        ensures refuses { (code : Code) → HasFailed self.old code
            → (result ≡ Err code) × (taken_of self.new ≡ taken_of self.old) }
    {
        match &mut self.mode {
            Mode::Whole(whole) => whole.end(),
            Mode::Chunks(chunks) => chunks.end(),
            Mode::Trailed(trailed) => trailed.end(),
        }
    }

    /// The checksum of a body that is whole and right: of the kind that its head says by a line, or announces as its trailer.
    /// It takes a bounded time, and no memory.
    #[tactic(auto, using(crate::proofs::FoundSumLemmas::sum_found))]
    pub fn sum(&self) -> Option<Checksum>
        ensures { (announced : Announced) (bytes payload : List ℕ) (ended : Bool) → Stands self.now announced bytes ended
            → verdict_of self.now ≡ Accepted payload → result ≡ found_sum announced.form payload }
    {
        match &self.mode {
            Mode::Whole(whole) => whole.sum(),
            Mode::Chunks(_) => None,
            Mode::Trailed(trailed) => Some(trailed.sum()),
        }
    }

    /// Hands out the payload of a body that is whole and right.
    ///
    /// # Errors
    ///
    /// `IncompleteBody` where the body isn't whole, and the code of an earlier refusal.
    pub fn finish(self) -> Result<Payload, Code>
        ensures says { (announced : Announced) (bytes : List ℕ) (ended : Bool)
            → Stands self announced bytes ended → result ≡ finished (verdict_of self) }
        ensures refuses { (code : Code) → HasFailed self code → result ≡ Err code }
    {
        match self.mode {
            Mode::Whole(whole) => whole.finish(),
            Mode::Chunks(chunks) => chunks.finish(),
            Mode::Trailed(trailed) => trailed.finish(),
        }
    }
}
