//! Bodies under numbers, for records that keep the bytes of objects apart from their rows. `StoredBodies` is what every
//! keeper of bodies promises: a body stays while rows name its number, no number is named without bytes, and what was settled
//! outlives a crash.
//! `MemoryBodies` keeps them in memory.
#![tactic(auto)]

mod held;
mod memory_bodies;
mod several;
mod stored_bodies;

pub use memory_bodies::MemoryBodies;
pub use several::{give_up_all, joined, share_all};
pub use stored_bodies::{NotSettled, StoredBodies};
