//! What every layer answers a fault with: the codes of refusals, with their numbers, statuses and texts,
//! and the error of a call that ran out of memory.
#![tactic(auto)]

mod code;
mod dialect;
mod memory;
mod status;

pub use code::Code;
pub use dialect::Dialect;
pub use memory::NoMemory;
pub use status::Status;
