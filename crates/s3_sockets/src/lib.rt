//! Connections over sockets in the hands of workers: the network that they come from, the door by which they come to a worker and
//! leave it, what a worker asks of those that serve its connections, and what all connections of a server share. How one is
//! served `s3_driver` says.
#![tactic(auto)]

mod arrival;
mod clock;
mod door;
mod network;
mod service;
mod sharing;
mod socket;

pub use arrival::Arrival;
pub use clock::WorkerClock;
pub use door::{Door, Entrance, TakenBack};
pub use network::{ClosedDoor, Listener, Network};
pub use service::Service;
pub use sharing::{Answered, Held, Sharing};
pub use socket::Socket;
