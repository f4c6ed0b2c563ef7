//! What the program does: it reads the words of its command line, and answers one connection, answers event
//! lines of several or signs one request, over any files, devices and keepers of records. Where the words ask for a server, it
//! says so.
#![tactic(auto)]

mod events;
mod kept;
mod mode;
mod opening;
mod run;
mod sign;

pub use run::{Ran, run_words};
