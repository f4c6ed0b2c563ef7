//! A disk in memory for a database that isn't to outlive its process: its bytes lie in chunks, so that to grow copies none
//! of them, and a `sync` has nothing to do. It ends with the process, so no crash leaves other bytes than those that
//! a read returns.
#![tactic(auto)]

mod chunk;
mod chunks;
mod content;
mod memory_disk;

pub use memory_disk::MemoryDisk;
