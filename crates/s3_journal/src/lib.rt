//! A store with the history of the commands that it answered. The history stands in the proofs alone: no memory holds
//! an entry, and nothing is compared.
//!
//! A `RecordedStore` is one thread's. A `SharedStore` is a recorded store that many share, each from a thread of its own if it
//! likes. Each worker has a `Roster`: who comes to it has a seat, submits turns to the recorded store under the shared store's
//! lock, and leaves.
#![tactic(auto)]

mod calls;
mod committed;
mod entry;
mod gather;
mod gone;
mod ground;
mod numbers;
mod prefix;
mod recorded_store;
mod room;
mod roster;
mod seat;
mod shared_store;
mod turns;

pub use calls::Calls;
pub use committed::Committed;
pub use entry::{Entry, Note};
pub use gone::{Gone, Report};
pub use ground::{Ground, Start};
pub use prefix::Prefix;
pub use recorded_store::RecordedStore;
pub use room::Closed;
pub use roster::Roster;
pub use seat::Seat;
pub use shared_store::SharedStore;
pub use turns::Turns;
