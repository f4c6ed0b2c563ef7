//! Bodies that are signed in chunks (Amazon S3 API Reference, "Transferring payload in multiple chunks"):
//! read as they come, each chunk verified at its last byte, and written.
#![tactic(auto)]

mod decoder;
mod digits;
mod finality;
mod laws;
mod phase;
mod place;
mod reader;
mod span;
mod trailed;
mod trailed_laws;
mod trailed_reader;
mod trailer;
mod write;

pub use finality::{open_bodies_are_short, refusals_stand, verdicts_are_final};
pub use laws::{readers_judge, writings_are_accepted};
pub use reader::ChunkReader;
pub use s3_bodies::Sink;
pub use trailed_laws::{
    trailed_bodies_are_accepted, trailed_readers_judge, trailed_refusals_stand,
    trailed_verdicts_are_final,
};
pub use trailed_reader::TrailedChunkReader;
pub use write::{CHUNK_MAX, write_chunks, written_length};
