//! The rows of a store in memory and in a file, as `s3_stored_rows` asks for them: they are read from memory alone, and all changes
//! of a commit are made in the file together.
#![tactic(auto)]

mod committing;
mod mirrored_rows;

pub use mirrored_rows::MirroredRows;
