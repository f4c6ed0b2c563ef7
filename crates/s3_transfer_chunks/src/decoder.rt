//! A decoder of a body in the chunked transfer coding.

ghost use Rattle.std.specs.Prelude.{◌≡◌, ◌≢◌, ℕ, ◌+◌, ◌<◌, ◌≤◌, ◌⊎◌, true, false, List, [], ◌++◌, length, IfOk, OnOk, IfErr, Ok, Err};
ghost use Rattle.s3_transfer_chunks.specs.Reading.{taken_in};
ghost use Rattle.s3_transfer_chunks.specs.Verdict.{accepts};

use crate::place::Fault;
use crate::standing::Standing;
use crate::steps::advance;
use s3_bodies::Sink;
use s3_terms::Code;

/// A decoder of a message body that is sent with `Transfer-Encoding: chunked` (RFC 9112, 7.1), which is fed with the body as
/// it comes, in pieces however they are cut.
///
/// It keeps no byte of the data: it hands it on. It takes no memory.
#[derive(Drop)]
pub struct TransferDecoder {
    standing: Standing,
    taken: u64,
    // Whether memory ran out.
    lost: bool,
}

impl TransferDecoder {
    ghost use Rattle.s3_transfer_chunks.specs.Sinks.{Grows, got};
    ghost use Rattle.s3_transfer_chunks.specs.Decoder.{Failed, IsDone, Stands, counted, refusal_of, said_at_end, taken_of, verdict_by};

    /// A decoder of a body whose data may have `limit` bytes.
    pub fn new(limit: u64) -> TransferDecoder
        ensures { Stands result limit [] false [] }
    {
        TransferDecoder {
            standing: Standing::new(limit),
            taken: 0,
            lost: false,
        }
    }

    // The code with which it has refused.
    fn refusal(&self) -> Option<Code>
        ensures { result ≡ refusal_of self.now }
    {
        if self.lost {
            return Some(Code::InternalError);
        }
        self.standing.place.code()
    }

    /// Takes the next piece of the body, up to its end, and answers how many bytes of the piece it took: none behind the end
    /// of the body. The data of a chunk goes to the sink as it comes, so what a sink got of a body that is refused is to be
    /// thrown away.
    ///
    /// Takes time by the length of `piece`: the copy of the data into the sink.
    ///
    /// # Errors
    ///
    /// `InvalidRequest` where the body is misspelled, or has a trailer field, and `EntityTooLarge` where its sizes come to
    /// more than the limit, each in the piece that brings the byte at which that is known, wherever it ends; for a size that
    /// is the byte behind its digits. `InternalError` where the sink has no memory. From then on it refuses always, with the
    /// same code.
    pub fn feed<S: Sink>(&mut self, piece: &[u8], sink: &mut S) -> Result<usize, Code>
        // The decoder stands after all bytes so far, and its sinks got what it stands for.
        ensures stands { result ≢ Err Code.InternalError → (limit : ℕ) (bytes held : List ℕ)
            → Stands self.old limit bytes false held
            → Stands self.new limit (bytes ++ «piece».now) false (held ++ got (S.taken sink.old) (S.taken sink.new)) }

        // It answers what its place says.
        ensures ok { IfOk result (λ n. (code : Code) → Failed self.new code → ⊥) }
        ensures err { IfErr result (λ code. Failed self.new code) }

        // It answers how many bytes of the piece are taken, and counts them.
        ensures count { IfOk result (λ n. (limit : ℕ) (bytes held : List ℕ) → Stands self.old limit bytes false held
            → taken_in limit (bytes ++ «piece».now) ≡ taken_in limit bytes + n) }
        ensures counts { IfOk result (λ n. taken_of self.new ≡ counted (taken_of self.old + n)) }

        // Whatever it answers, it takes bytes of the piece alone, and all of them where the body is not over.
        ensures bounds { (taken_of self.old ≤ taken_of self.new)
            × (taken_of self.new ≤ taken_of self.old + length «piece».now) }
        ensures within { IfOk result (λ n. n ≤ length «piece».now) }
        ensures all { IfOk result (λ n. (n ≡ length «piece».now) ⊎ IsDone self.new) }

        // What is over takes nothing more.
        ensures done { IsDone self.old → (result ≡ Ok 0) × IsDone self.new × (S.taken sink.new ≡ S.taken sink.old) }

        // What has refused refuses always, and takes nothing more.
        ensures refuses { (code : Code) → Failed self.old code
            → (result ≡ Err code) × (taken_of self.new ≡ taken_of self.old) × (S.taken sink.new ≡ S.taken sink.old) }

        // A sink only grows.
        ensures grows { Grows (S.taken sink.old) (S.taken sink.new) }

        // Memory runs out in a sink alone, which may refuse some bytes, and where the piece has some.
        ensures memory { result ≡ Err Code.InternalError
            → Failed self.old Code.InternalError
            ⊎ ((0 < length «piece».now) × (state : S) × (refused : List ℕ) × S.may_refuse state refused) }
    {
        if let Some(code) = self.refusal() {
            return Err(code);
        }
        let Ok(count) = advance(&mut self.standing, piece, sink) else {
            self.lost = true;
            return Err(Code::InternalError);
        };
        self.taken = self.taken.saturating_add(count as u64);
        match self.refusal() {
            Some(code) => Err(code),
            None => Ok(count),
        }
    }

    /// Ends the input.
    ///
    /// # Errors
    ///
    /// `IncompleteBody` where the body isn't whole, and the code of an earlier refusal.
    pub fn end(&mut self) -> Result<(), Code>
        ensures stands { (limit : ℕ) (bytes held : List ℕ)
            → Stands self.old limit bytes false held → Stands self.new limit bytes true held }
        ensures ok { OnOk result (IsDone self.new) }
        ensures err { IfErr result (λ code. Failed self.new code) }

        // It answers what it says of the body, where memory never ran out.
        ensures says { self.old.lost ≡ false → (held : List ℕ) → result ≡ said_at_end (verdict_by self.old held) }
        ensures refuses { (code : Code) → Failed self.old code → result ≡ Err code }
        ensures taken { taken_of self.new ≡ taken_of self.old }
    {
        if let Some(code) = self.refusal() {
            return Err(code);
        }
        if self.standing.place.is_settled() {
            return Ok(());
        }
        self.standing.refuse(Fault::Incomplete);
        Err(Code::IncompleteBody)
    }

    /// Whether it has read a whole body, with nothing wrong.
    pub fn is_whole(&self) -> bool
        ensures { (held : List ℕ) → result ≡ accepts (verdict_by self.now held) }
    {
        self.standing.place.is_over()
    }

    /// How many bytes of the body it has taken; after a refusal of the body, the place of that. It counts up to 2^64 - 1.
    pub fn taken(&self) -> u64
        ensures { result ≡ taken_of self.now }
    {
        self.taken
    }
}
