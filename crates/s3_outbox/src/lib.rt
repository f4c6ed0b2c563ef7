//! What a connection has still to send: the texts and bodies of its replies, in their order, as they wait for
//! somebody who takes their bytes.
#![tactic(auto)]

mod outbox;
mod parts;
mod pending;
mod placed;
mod printed;

pub use outbox::Outbox;
pub use printed::PrintedReply;
