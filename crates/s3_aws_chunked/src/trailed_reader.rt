//! A reader of a body that is signed in chunks, with a trailer behind them.

ghost use Rattle.std.specs.Prelude.{◌≡◌, ◌≢◌, ℕ, ◌+◌, ◌<◌, ◌≤◌, ◌⊎◌, true, false, List, [], ◌++◌, length, IfOk, OnOk, IfErr, Err};
ghost use Rattle.s3_integrity.specs.Algorithm.{header_of};
ghost use Rattle.s3_signing.specs.Chain.{seed_of};
ghost use Rattle.s3_unsigned_chunks.specs.Reader.{said_at_end};
ghost use Rattle.s3_unsigned_chunks.specs.Verdict.{accepts};
ghost use Rattle.s3_aws_chunked.specs.Trailed.{TrailedTerms as Terms};

use crate::decoder::Decoder;
use crate::phase::Fault;
use crate::trailed::TrailedDecoder;
use crate::trailer::{Trailer, value_of_trailer};
use s3_bodies::Sink;
use s3_integrity::ChecksumAlgorithm;
use s3_signing::{ChunkChain, Verified};
use s3_terms::Code;

/// A reader of a body that is signed in chunks, with a checksum and its signature behind them (Amazon S3 API Reference,
/// "Signature calculations for trailing headers included in the payload"), which is fed with the body as it comes.
///
/// It keeps no byte of the data: it hashes it and hands it on. It takes no memory.
#[derive(Drop)]
pub struct TrailedChunkReader {
    // The kind of checksum that the trailer says.
    algorithm: ChecksumAlgorithm,
    body: TrailedDecoder,
    // Whether memory ran out.
    lost: bool,
}

impl TrailedChunkReader {
    ghost use Rattle.s3_aws_chunked.specs.Sinks.{Grows, got};
    ghost use Rattle.s3_aws_chunked.specs.TrailedReader.{Failed, IsDone, Stands, refusal_of, taken_of, value_of, verdict_by};

    /// A reader of the body of a verified request, with a trailer of this kind of checksum, which `x-amz-trailer` names, with
    /// the length that `Content-Length` says, which counts all bytes as they are sent, and the one that
    /// `x-amz-decoded-content-length` says, which counts the data of the chunks.
    pub fn new(
        verified: &Verified,
        algorithm: ChecksumAlgorithm,
        encoded: u64,
        decoded: u64,
    ) -> TrailedChunkReader
        ensures { Stands result (record {
          name = header_of algorithm;
          chunks = record { seed = seed_of verified.now; encoded = encoded; decoded = decoded };
        }) [] false [] }
    {
        TrailedChunkReader {
            algorithm,
            body: TrailedDecoder {
                decoder: Decoder::new(ChunkChain::start(verified), encoded, decoded),
                trailer: Trailer::new(0, 0),
            },
            lost: false,
        }
    }

    // The code with which it has refused.
    fn refusal(&self) -> Option<Code>
        ensures { result ≡ refusal_of self.now }
    {
        if self.lost {
            return Some(Code::InternalError);
        }
        Some(self.body.decoder.place.phase.fault()?.code())
    }

    /// Takes the next piece of the body, up to the end of Content-Length, and answers how many of its bytes it took. The
    /// data of a chunk goes to the sink as it comes, and its signature is compared at its last byte, so what a sink got of a
    /// body that is refused is to be thrown away. That of the last chunk is compared at the end of its first line, and the
    /// trailer at its last byte.
    ///
    /// Takes time by the length of `piece`: SHA-256 of the data and its copy into the sink, and for each chunk and the
    /// trailer some 350 bytes of HMAC.
    ///
    /// # Errors
    ///
    /// `InvalidRequest`, `SignatureDoesNotMatch` and `IncompleteBody` in the piece that brings the byte at which the body is
    /// refused, wherever it ends, and `InternalError` where the sink has no memory. From then on it refuses always, with the same code.
    #[tactic(auto, using(crate::proofs::TrailedReaderLemmas::short_name))]
    pub fn feed<S: Sink>(&mut self, piece: &[u8], sink: &mut S) -> Result<usize, Code>
        // The reader stands after all bytes so far, and its sinks got what it stands for.
        ensures stands { result ≢ Err Code.InternalError → (terms : Terms) (bytes held : List ℕ)
            → Stands self.old terms bytes false held
            → Stands self.new terms (bytes ++ «piece».now) false (held ++ got (S.taken sink.old) (S.taken sink.new)) }

        // It answers what its place says.
        ensures ok { IfOk result (λ n. (code : Code) → Failed self.new code → ⊥) }
        ensures err { IfErr result (λ code. Failed self.new code) }
        ensures count { IfOk result (λ n. taken_of self.new ≡ taken_of self.old + n) }

        // Whatever it answers, it takes bytes of the piece alone.
        ensures counts { (taken_of self.old ≤ taken_of self.new)
            × (taken_of self.new ≤ taken_of self.old + length «piece».now) }
        ensures within { IfOk result (λ n. n ≤ length «piece».now) }
        ensures all { IfOk result (λ n. (terms : Terms) (bytes held : List ℕ) → Stands self.old terms bytes false held
            → (n ≡ length «piece».now) ⊎ IsDone self.new) }

        // What has refused refuses always, and takes nothing more.
        ensures refuses { (code : Code) → Failed self.old code
            → (result ≡ Err code) × (taken_of self.new ≡ taken_of self.old) × (S.taken sink.new ≡ S.taken sink.old) }

        // A sink only grows.
        ensures grows { Grows (S.taken sink.old) (S.taken sink.new) }

        // Memory runs out in the sink alone, and for bytes of the piece.
        ensures memory { result ≡ Err Code.InternalError
            → Failed self.old Code.InternalError
            ⊎ ((0 < length «piece».now) × (state : S) × (refused : List ℕ) × S.may_refuse state refused) }

        // And only while bytes of Content-Length are to come.
        ensures short { result ≡ Err Code.InternalError → (terms : Terms) (bytes held : List ℕ)
            → Stands self.old terms bytes false held → length bytes < terms.chunks.encoded }
    {
        if let Some(code) = self.refusal() {
            return Err(code);
        }
        let name = self.algorithm.header();
        let Ok(count) = self.body.advance(name, piece, sink) else {
            self.lost = true;
            return Err(Code::InternalError);
        };
        match self.refusal() {
            Some(code) => Err(code),
            None => Ok(count),
        }
    }

    /// Ends the input.
    ///
    /// # Errors
    ///
    /// `IncompleteBody` where the body isn't whole, and the code of an earlier refusal.
    pub fn end(&mut self) -> Result<(), Code>
        ensures stands { (terms : Terms) (bytes held : List ℕ)
            → Stands self.old terms bytes false held → Stands self.new terms bytes true held }
        ensures ok { OnOk result (IsDone self.new) }
        ensures err { IfErr result (λ code. Failed self.new code) }

        // It answers what it says of the body, where memory never ran out.
        ensures says { self.old.lost ≡ false → (held : List ℕ) → result ≡ said_at_end (verdict_by self.old held) }
        ensures refuses { (code : Code) → Failed self.old code → result ≡ Err code }
        ensures taken { taken_of self.new ≡ taken_of self.old }
        ensures value { value_of self.new ≡ value_of self.old }
    {
        if let Some(code) = self.refusal() {
            return Err(code);
        }
        if self.is_whole() {
            return Ok(());
        }
        self.body.decoder.place.refuse(Fault::Incomplete);
        Err(Code::IncompleteBody)
    }

    /// Whether it has read a whole body, with nothing wrong.
    #[tactic(auto, using(crate::proofs::TrailedReaderLemmas::accepts_whole))]
    pub fn is_whole(&self) -> bool
        ensures { (held : List ℕ) → result ≡ accepts (verdict_by self.now held) }
    {
        match self.body.decoder.place.phase.fault() {
            Some(_) => false,
            None => self.body.trailer.has_begun() && !self.body.trailer.is_open(),
        }
    }

    /// How many bytes of the body it has taken; after a refusal of the body, the place of that.
    pub fn taken(&self) -> u64
        ensures { result ≡ taken_of self.now }
    {
        self.body
            .trailer
            .taken(self.body.decoder.place.span.taken())
    }

    /// The value of the trailer, where that is whole; before that nothing of use.
    #[tactic(auto, using(crate::proofs::TrailedReaderLemmas::short_name))]
    pub fn value(&self) -> &[u8]
        ensures { «result».now ≡ value_of self.now }
    {
        value_of_trailer(self.algorithm.header(), self.body.trailer.bytes())
    }
}
