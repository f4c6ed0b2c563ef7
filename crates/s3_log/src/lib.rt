//! The log of a server, for those who run it: one line for each message of its connections. One writer writes it, and
//! nobody waits for that. Nothing that is told here decides what a connection does.
#![tactic(auto)]

mod beginning;
mod cut;
mod key_id;
mod line;
mod lines;
mod log;
mod member;
mod message_log;
mod operation;
mod peer;
mod pending;
mod query;
mod request;
mod room;

pub use beginning::Beginning;
pub use line::{Message, lost_line};
pub use log::{Log, LogWriter};
pub use message_log::MessageLog;
