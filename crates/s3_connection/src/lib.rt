//! One connection, whoever moves its bytes. Its pieces and its end come at any time; bytes that come while a command
//! waits are kept. Its turns are taken and answered, and what it wrote is sent. `specs/Output.antt` says what it
//! writes.
#![tactic(auto)]

mod connection;
mod feeding;
mod laws;
mod stage;
mod unread_input;

pub use connection::Connection;
pub use laws::{connections_write, outputs_are_one};
pub use stage::Wants;
pub use unread_input::UnreadInput;
