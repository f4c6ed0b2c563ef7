//! A reader of a body that is signed in chunks.

ghost use Rattle.std.specs.Prelude.{◌≡◌, ◌≢◌, ℕ, ◌+◌, ◌<◌, ◌≤◌, ◌⊎◌, true, false, List, [], ◌++◌, length, IfOk, OnOk, IfErr, Err};
ghost use Rattle.s3_signing.specs.Chain.{seed_of};
ghost use Rattle.s3_aws_chunked.specs.Verdict.{Judges, Terms, accepts};

use crate::decoder::Decoder;
use crate::phase::{Fault, Phase};
use s3_bodies::Sink;
use s3_signing::{ChunkChain, Verified};
use s3_terms::Code;

/// A reader of a body that is signed in chunks (Amazon S3 API Reference, "Transferring payload in multiple
/// chunks"), which is fed with the body as it comes.
///
/// It keeps no byte of the data: it hashes it and hands it on. It takes no memory.
#[derive(Drop)]
pub struct ChunkReader {
    decoder: Decoder,
    // Whether memory ran out.
    lost: bool,
}

impl ChunkReader {
    ghost use Rattle.s3_aws_chunked.specs.Sinks.{Grows, got};
    ghost use Rattle.s3_aws_chunked.specs.Reader.{Failed, IsDone, Stands, refusal_of, said_at_end, taken_of, verdict_of};

    /// A reader of the body of a verified request, with the length that `Content-Length` says, which
    /// counts the chunks as they are sent, and the one that `x-amz-decoded-content-length` says, which
    /// counts their data.
    pub fn new(verified: &Verified, encoded: u64, decoded: u64) -> ChunkReader
        ensures { Stands result (record { seed = seed_of verified.now; encoded = encoded; decoded = decoded }) [] false [] }
    {
        ChunkReader {
            decoder: Decoder::new(ChunkChain::start(verified), encoded, decoded),
            lost: false,
        }
    }

    // The code with which it has refused.
    fn refusal(&self) -> Option<Code>
        ensures { result ≡ refusal_of self.now }
    {
        if self.lost {
            return Some(Code::InternalError);
        }
        Some(self.decoder.place.phase.fault()?.code())
    }

    /// Takes the next piece of the body, up to the end of Content-Length, and answers how many of its
    /// bytes it took. Each chunk is verified at its last byte; its data goes to the sink before that, so
    /// what a sink got of a body that is refused is to be thrown away.
    ///
    /// Takes time by the length of `piece`: SHA-256 of the data and its copy into the sink, and for each
    /// chunk some 350 bytes of HMAC.
    ///
    /// # Errors
    ///
    /// `InvalidRequest`, `SignatureDoesNotMatch` and `IncompleteBody` in the piece that brings the byte at
    /// which the body is refused, wherever it ends, and `InternalError` where the sink has no memory. From
    /// then on it refuses always, with the same code.
    pub fn feed<S: Sink>(&mut self, piece: &[u8], sink: &mut S) -> Result<usize, Code>
        // The reader stands after all bytes so far, and its sinks got what it stands for.
        ensures stands { result ≢ Err Code.InternalError → (terms : Terms) (bytes held : List ℕ)
            → Stands self.old terms bytes false held
            → Stands self.new terms (bytes ++ «piece».now) false (held ++ got (S.taken sink.old) (S.taken sink.new)) }

        // It answers what its place says.
        ensures ok { IfOk result (λ n. (code : Code) → Failed self.new code → ⊥) }
        ensures err { IfErr result (λ code. Failed self.new code) }
        ensures count { IfOk result (λ n. taken_of self.new ≡ taken_of self.old + n) }

        // Whatever it answers, it takes bytes of the piece alone.
        ensures counts { (taken_of self.old ≤ taken_of self.new)
            × (taken_of self.new ≤ taken_of self.old + length «piece».now) }
        ensures within { IfOk result (λ n. n ≤ length «piece».now) }
        ensures all { IfOk result (λ n. (terms : Terms) (bytes held : List ℕ) → Stands self.old terms bytes false held
            → (n ≡ length «piece».now) ⊎ IsDone self.new) }

        // What has refused refuses always, and takes nothing more.
        ensures refuses { (code : Code) → Failed self.old code
            → (result ≡ Err code) × (taken_of self.new ≡ taken_of self.old) × (S.taken sink.new ≡ S.taken sink.old) }

        // A sink only grows.
        ensures grows { Grows (S.taken sink.old) (S.taken sink.new) }

        // Memory runs out in the sink alone, and for bytes of the piece.
        ensures memory { result ≡ Err Code.InternalError
            → Failed self.old Code.InternalError
            ⊎ ((0 < length «piece».now) × (state : S) × (refused : List ℕ) × S.may_refuse state refused) }

        // And only while bytes of Content-Length are to come.
        ensures short { result ≡ Err Code.InternalError → (terms : Terms) (bytes held : List ℕ)
            → Stands self.old terms bytes false held → length bytes < terms.encoded }
    {
        if let Some(code) = self.refusal() {
            return Err(code);
        }
        let Ok(count) = self.decoder.advance(false, piece, sink) else {
            self.lost = true;
            return Err(Code::InternalError);
        };
        match self.refusal() {
            Some(code) => Err(code),
            None => Ok(count),
        }
    }

    /// Ends the input.
    ///
    /// # Errors
    ///
    /// `IncompleteBody` where the body isn't whole, and the code of an earlier refusal.
    pub fn end(&mut self) -> Result<(), Code>
        ensures stands { (terms : Terms) (bytes held : List ℕ)
            → Stands self.old terms bytes false held → Stands self.new terms bytes true held }
        ensures ok { OnOk result (IsDone self.new) }
        ensures err { IfErr result (λ code. Failed self.new code) }

        // It answers what it says of the body, where memory never ran out.
        ensures says { self.old.lost ≡ false → (held : List ℕ) → result ≡ said_at_end (verdict_of self.old held) }
        ensures refuses { (code : Code) → Failed self.old code → result ≡ Err code }
        ensures taken { taken_of self.new ≡ taken_of self.old }
    {
        if let Some(code) = self.refusal() {
            return Err(code);
        }
        if self.decoder.place.phase.is_settled() {
            return Ok(());
        }
        self.decoder.place.refuse(Fault::Incomplete);
        Err(Code::IncompleteBody)
    }

    /// Whether it has read a whole body, with nothing wrong.
    pub fn is_whole(&self) -> bool
        ensures { (held : List ℕ) → result ≡ accepts (verdict_of self.now held) }
    {
        match self.decoder.place.phase {
            Phase::Over => true,
            Phase::Size(_) | Phase::Line(_, _) | Phase::Data(_, _) => false,
            Phase::Ending(_) | Phase::Refused(_) => false,
        }
    }

    /// How many bytes of the body it has taken; after a refusal of the body, the place of that.
    pub fn taken(&self) -> u64
        ensures { result ≡ taken_of self.now }
    {
        self.decoder.place.span.taken()
    }
}
