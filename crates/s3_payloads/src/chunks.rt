//! The reader of a body that is signed in chunks, which keeps its data.

ghost use Rattle.std.specs.Prelude.{◌≡◌, ℕ, ◌+◌, ◌≤◌, true, false, List, [], ◌++◌, length, Err, IfErr, IfOk};
ghost use Rattle.s3_signing.specs.Chain.{seed_of};
ghost use Rattle.s3_aws_chunked.specs.Verdict.{Terms, accepts};
ghost use Rattle.s3_aws_chunked.specs.Reader.{Failed, IsDone, Stands, said_at_end, taken_of, verdict_of};
ghost use Rattle.s3_payloads.specs.Outcome.{EndedTo, FedTo, finished, part_of};

use s3_aws_chunked::{ChunkReader, readers_judge};
use s3_bodies::{Payload, PayloadBuilder};
use s3_signing::Verified;
use s3_terms::Code;
use std::alloc::Global;

// Reads a body that is signed in chunks, and keeps its data.
#[derive(Drop)]
pub(crate) struct ChunksReader {
    chunks: ChunkReader,
    payload: PayloadBuilder,
}

impl ChunksReader {
    // A reader of a body of `encoded` bytes with `decoded` bytes of data, of which none has come.
    pub(crate) fn new(
        alloc: Global,
        verified: &Verified,
        encoded: u64,
        decoded: u64,
    ) -> ChunksReader
        ensures { Stands result.chunks (record { seed = seed_of verified.now; encoded = encoded; decoded = decoded }) [] false result.payload }
    {
        ChunksReader {
            chunks: ChunkReader::new(verified, encoded, decoded),
            payload: PayloadBuilder::new(alloc, decoded),
        }
    }

    // Takes as much of the piece as is the body's, and keeps the data in it: how many bytes that were. After a
    // refusal the answer is always its code.
    pub(crate) fn feed(&mut self, piece: &[u8]) -> Result<usize, Code>
        ensures stands { (terms : Terms) (bytes : List ℕ)
            → Stands self.old.chunks terms bytes false self.old.payload
            → FedTo piece.now (part_of terms.encoded bytes piece.now)
            (Stands self.new.chunks terms (bytes ++ piece.now) false self.new.payload)
            (Failed self.new.chunks) result }
        ensures count { IfOk result (λ n. taken_of self.new.chunks ≡ taken_of self.old.chunks + n) }
        ensures counts { (taken_of self.old.chunks ≤ taken_of self.new.chunks)
            × (taken_of self.new.chunks ≤ taken_of self.old.chunks + length piece.now) }
        ensures err { IfErr result (Failed self.new.chunks) }
        ensures refuses { (code : Code) → Failed self.old.chunks code
            → (result ≡ Err code) × (taken_of self.new.chunks ≡ taken_of self.old.chunks) }
    {
        readers_judge();
        self.chunks.feed(piece, &mut self.payload)
    }

    // Says that no more bytes come: the code of what is wrong with the body then.
    pub(crate) fn end(&mut self) -> Result<(), Code>
        ensures stands { (terms : Terms) (bytes : List ℕ)
            → Stands self.old.chunks terms bytes false self.old.payload
            → EndedTo (Stands self.new.chunks terms bytes true self.new.payload)
            (Failed self.new.chunks) (IsDone self.new.chunks) result }
        ensures err { IfErr result (Failed self.new.chunks) }
        ensures says { self.old.chunks.lost ≡ false
            → result ≡ said_at_end (verdict_of self.old.chunks self.old.payload) }
        ensures taken { taken_of self.new.chunks ≡ taken_of self.old.chunks }
        ensures payload { self.new.payload ≡ self.old.payload }
        ensures refuses { (code : Code) → Failed self.old.chunks code
            → (result ≡ Err code) × (taken_of self.new.chunks ≡ taken_of self.old.chunks) }
    {
        self.chunks.end()
    }

    // Whether the body is whole and right.
    pub(crate) fn is_whole(&self) -> bool
        ensures { result ≡ accepts (verdict_of self.now.chunks self.now.payload) }
    {
        self.chunks.is_whole()
    }

    // How many bytes of the body were taken.
    pub(crate) fn taken(&self) -> u64
        ensures { result ≡ taken_of self.now.chunks }
    {
        self.chunks.taken()
    }

    // The payload, as no more bytes come.
    pub(crate) fn finish(mut self) -> Result<Payload, Code>
        ensures says { self.chunks.lost ≡ false → result ≡ finished (verdict_of self.chunks self.payload) }
        ensures refuses { (code : Code) → Failed self.chunks code → result ≡ Err code }
    {
        self.chunks.end()?;
        Ok(self.payload.finish())
    }
}
