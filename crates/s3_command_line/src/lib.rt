//! The command line of the program: what its words ask for, as `clap` reads them, and the text for the
//! user where they are wrong or ask for help. Callers see no type of `clap`.
#![tactic(auto)]

mod command;
mod error;
mod task;
mod words;

pub use error::{Usage, WordsError};
pub use task::{Asked, Task};
pub use words::read_words;
