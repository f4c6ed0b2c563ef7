//! The other end of a connection, or of a run of the program: bytes are read from it and written to it, and contracts see all
//! that it gave and took, and how often it failed. `Recorded` is one over any reader and writer, and
//! `Streams` makes one stream of both.
#![tactic(auto)]

mod device;
mod events;
mod parts;
mod recorded;
mod streams;

pub use device::{Device, Reading, Stream, Writing};
pub use events::DeviceEvent;
pub use parts::WriteParts;
pub use recorded::{Recorded, ShutWrite};
pub use streams::Streams;
