//! The server that listens on a socket. Its workers have a thread and connections of their own each: a worker waits
//! until some of these are ready, and has each go on as far as it can. Then it takes the turns of those that wait
//! for one to the store, all at once. How a connection is served `s3_driver` says, and what the store does `s3_journal`;
//! here are the listener, the slots and the threads.
#![tactic(auto)]

mod arrivals;
mod connection_table;
mod found;
mod jobs;
mod limits;
mod logging;
mod report;
mod rounds;
mod running;
mod serve;
mod slots;
mod starting;
mod telling;
mod worker;

pub use report::{EndedServer, ServerReport};
pub use serve::serve_words;
pub use slots::Slots;
