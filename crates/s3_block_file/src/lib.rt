//! The bytes of bodies in one file. Each body lies in an extent of its own, which is apart from all that are live. As long as pieces are put
//! only where room was reserved for them, a crash leaves the bytes of each body that was synced. What is free isn't kept on the disk: it
//! is counted when the file is opened, from the extents of the live bodies.
#![tactic(auto)]

mod block_file;
mod disk_calls;
mod extent;
mod granules;
mod peeking;
mod uses;

pub use block_file::BlockFile;
pub use extent::{Extent, GRANULE, MAX_GRANULE, MAX_SIZE};
pub use peeking::read_at;
