//! Bodies that outlive a run: in memory, from where they are read, and in a file of blocks, from where the next run has them
//! again. In the file a body begins with a header, which tells how long it is and detects damage, so that a row names its
//! number alone: the first granule.
#![tactic(auto)]

mod block_bodies;
mod changing;
mod header;
mod loading;
mod reading;
mod surviving;
mod writing;

pub use block_bodies::BlockBodies;
pub use surviving::opened_after_crash;
