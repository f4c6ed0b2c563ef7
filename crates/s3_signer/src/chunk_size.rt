//! How many bytes of data a chunk has.

ghost use Rattle.std.specs.Prelude.{◌≡◌, ◌≤◌, SomeIff};
ghost use Rattle.s3_signer.specs.Chunked.{IsChunkSize, greatest_chunk};

use s3_aws_chunked::CHUNK_MAX;
use std::marker::Model;

/// How many bytes of data each chunk of a body has but the last one, which may have fewer: from 1 to
/// 67,108,864. S3 itself asks for 8,192 at least, and the servers of this project for no more than one.
#[derive(Clone, Copy)]
pub struct ChunkSize {
    bytes: usize,
}

impl Model for ChunkSize {
    ghost use Rattle.std.specs.Prelude.{ℕ};
    ghost use Rattle.s3_signer.specs.Chunked.{IsChunkSize};

    ghost Value = { ℕ };

    ghost view = { λ s. s.bytes };

    ghost invariant = { λ s. IsChunkSize s.bytes };

    ghost inverse = { λ n. record { bytes = n } };
}

impl ChunkSize {
    /// So many bytes; `None` for 0, and above 67,108,864.
    pub fn new(bytes: u64) -> Option<ChunkSize>
        ensures { SomeIff result (IsChunkSize bytes) bytes }
    {
        if bytes < 1 || bytes > CHUNK_MAX as u64 {
            return None;
        }
        Some(ChunkSize {
            bytes: bytes as usize,
        })
    }

    /// How many bytes they are.
    pub fn bytes(self) -> usize
        ensures value { result ≡ self }
        ensures least { 1 ≤ result }
        ensures most { result ≤ greatest_chunk }
    {
        self.bytes
    }
}
