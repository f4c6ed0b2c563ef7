//! Bodies in chunks without signatures, with a checksum behind the last of them (Amazon S3 API Reference,
//! "Authenticating requests", `STREAMING-UNSIGNED-PAYLOAD-TRAILER`): read as they come.
#![tactic(auto)]

mod decoder;
mod digits;
mod finality;
mod laws;
mod place;
mod reader;
mod standing;
mod trailer_value;

pub use finality::{open_bodies_are_short, refusals_stand, verdicts_are_final};
pub use laws::{bodies_are_accepted, open_bodies_hold_so_far, readers_judge};
pub use reader::UnsignedChunkReader;
pub use s3_bodies::Sink;
