//! The reader of a body, however its end is told.

ghost use Rattle.std.specs.Prelude.{◌≡◌, ◌≤◌, ◌+◌, ℕ, Bool, false, List, [], length, Err, IfErr, IfOk};
ghost use Rattle.s3_aws_chunked.specs.Reader.{said_at_end};
ghost use Rattle.s3_aws_chunked.specs.Verdict.{Accepted, accepts};
ghost use Rattle.s3_payloads.specs.FoundSum.{found_sum};
ghost use Rattle.s3_payloads.specs.Outcome.{finished};
ghost use Rattle.s3_framed_bodies.specs.Framed.{FramedBody, framed_body};
ghost use Rattle.s3_framed_bodies.specs.Reader.{KindStands};

use crate::coded::CodedReader;
use s3_bodies::Payload;
use s3_config::Config;
use s3_http_heads::{BodyFraming, Head};
use s3_integrity::Checksum;
use s3_payloads::{Form, PayloadReader, form_of};
use s3_signing::Verified;
use s3_terms::Code;
use std::alloc::Global;

// The ways to read a body.
#[derive(Drop)]
pub(crate) enum Kind {
    // By its length.
    Sized(PayloadReader),
    // By its transfer coding.
    Coded(CodedReader),
}

// How a body is read whose end is told so, before any of it has come.
fn kind_of(alloc: Global, form: Form, framing: BodyFraming, verified: Verified) -> Kind
    ensures { KindStands result (record { framing = framing; form = form; proved = verified }) [] false }
{
    match framing {
        BodyFraming::Sized(size) => Kind::Sized(PayloadReader::new(alloc, form, size, &verified)),
        BodyFraming::Coded { limit, decoded } => {
            Kind::Coded(CodedReader::new(alloc, form, limit, decoded, verified))
        }
    }
}

/// Reads the body of a verified message as its bytes arrive, whichever way its end is told, and in each form of
/// `s3_payloads`.
///
/// However the bytes are cut, a body is refused at the same byte and with the same code. One that has a length is judged as
/// `s3_payloads::PayloadReader` says. One in the transfer coding is decoded as it comes, and its data is judged once the coding
/// has ended, so that it is in memory twice for that time.
#[derive(Drop)]
pub struct BodyReader {
    kind: Kind,
}

impl BodyReader {
    ghost use Rattle.s3_framed_bodies.specs.Reader.{Begins, HasFailed, IsEnded, IsFed, Stands, taken_of, verdict_of};

    /// The reader of the body behind this head, of which nothing has come, and whose end is told so (`s3_http_heads::framing`).
    /// Takes no memory.
    ///
    /// # Errors
    ///
    /// Those of `s3_payloads::form_of`: `InvalidRequest`, `EntityTooLarge`, `InvalidDigest` and `NotImplemented`, where what the
    /// head says of its body is wrong or isn't served.
    #[tactic(auto, unfolding(crate::specs::Framed::framed_body))]
    pub fn new(
        alloc: Global,
        config: &Config,
        head: &Head,
        framing: BodyFraming,
        verified: Verified,
    ) -> Result<BodyReader, Code>
        ensures { Begins (framed_body config.now head.now framing verified) result }
    {
        let form = form_of(config, head, &verified.word())?;
        Ok(BodyReader {
            kind: kind_of(alloc, form, framing, verified),
        })
    }

    /// Whether it has read a whole body, with nothing wrong.
    pub fn is_whole(&self) -> bool
        ensures { result ≡ accepts (verdict_of self.now) }
    {
        match &self.kind {
            Kind::Sized(sized) => sized.is_whole(),
            Kind::Coded(coded) => coded.is_whole(),
        }
    }

    /// How many bytes of the body were taken; after a refusal of the body, the place of that.
    pub fn taken(&self) -> u64
        ensures { result ≡ taken_of self.now }
    {
        match &self.kind {
            Kind::Sized(sized) => sized.taken(),
            Kind::Coded(coded) => coded.taken(),
        }
    }

    /// Takes the next piece of the body, up to its end, and answers how many of its bytes it took; what comes behind them is not
    /// looked at. Takes time by the length of the piece, and memory for the data; with the piece that ends a transfer coding,
    /// time and memory by the length of all its data.
    ///
    /// # Errors
    ///
    /// In the piece that brings the byte at which the body is refused, wherever the piece ends: those of
    /// `s3_payloads::PayloadReader::feed`, of a body with a length at their own byte, of one in the transfer coding at its end;
    /// of the coding `InvalidRequest` and `EntityTooLarge`, as `s3_transfer_chunks::TransferDecoder` says, and at its end
    /// `IncompleteBody` where data that is sent as it is isn't as long as the head says; and `InternalError` where there is no
    /// memory for the data, or at its end for a copy of it, and where a body in the coding has 2^64 - 1 bytes. From then on the reader refuses always, with the same code.
    pub fn feed(&mut self, piece: &[u8]) -> Result<usize, Code>
        ensures stands { (body : FramedBody) (bytes : List ℕ)
            → Stands self.old body bytes false → IsFed body bytes piece.now result self.new }

        // Whatever it answers, it takes bytes of the piece alone, and says how many they were.
        ensures count { IfOk result (λ n. taken_of self.new ≡ taken_of self.old + n) }
        ensures counts { (taken_of self.old ≤ taken_of self.new)
            × (taken_of self.new ≤ taken_of self.old + length piece.now) }

        // What has refused refuses always, and takes nothing more.
        ensures err { IfErr result (HasFailed self.new) }
        ensures refuses { (code : Code) → HasFailed self.old code
            → (result ≡ Err code) × (taken_of self.new ≡ taken_of self.old) }
    {
        match &mut self.kind {
            Kind::Sized(sized) => sized.feed(piece),
            Kind::Coded(coded) => coded.feed(piece),
        }
    }

    /// Says that no more bytes come.
    ///
    /// # Errors
    ///
    /// `IncompleteBody` where the body isn't whole, and the code of an earlier refusal.
    pub fn end(&mut self) -> Result<(), Code>
        ensures stands { (body : FramedBody) (bytes : List ℕ)
            → Stands self.old body bytes false → IsEnded body bytes result self.new }

        // It answers what it says of the body: where that is open, that it is incomplete.
        ensures says { (body : FramedBody) (bytes : List ℕ)
            → Stands self.old body bytes false → result ≡ said_at_end (verdict_of self.old) }
        ensures err { IfErr result (HasFailed self.new) }
        ensures taken { taken_of self.new ≡ taken_of self.old }
        ensures refuses { (code : Code) → HasFailed self.old code
            → (result ≡ Err code) × (taken_of self.new ≡ taken_of self.old) }
    {
        match &mut self.kind {
            Kind::Sized(sized) => sized.end(),
            Kind::Coded(coded) => coded.end(),
        }
    }

    /// The checksum of a body that is whole and right: of the kind that its head says by a line, or announces as its trailer.
    /// It takes a bounded time, and no memory.
    pub fn sum(&self) -> Option<Checksum>
        ensures { (body : FramedBody) (bytes payload : List ℕ) (ended : Bool) → Stands self.now body bytes ended
            → verdict_of self.now ≡ Accepted payload → result ≡ found_sum body.form payload }
    {
        match &self.kind {
            Kind::Sized(sized) => sized.sum(),
            Kind::Coded(coded) => coded.sum(),
        }
    }

    /// Hands out the payload of a body that is whole and right.
    ///
    /// # Errors
    ///
    /// `IncompleteBody` where the body isn't whole, and the code of an earlier refusal.
    pub fn finish(self) -> Result<Payload, Code>
        ensures says { (body : FramedBody) (bytes : List ℕ) (ended : Bool)
            → Stands self body bytes ended → result ≡ finished (verdict_of self) }
        ensures refuses { (code : Code) → HasFailed self code → result ≡ Err code }
    {
        match self.kind {
            Kind::Sized(sized) => sized.finish(),
            Kind::Coded(coded) => coded.finish(),
        }
    }
}
