//! XML texts: what a document tells, written event by event into room that was taken before, and the laws by which such
//! a text is read back. It knows nothing of S3.
#![tactic(auto)]

mod escape;
mod laws;
mod writer;

pub use laws::{bounds_of_texts, contents_fit, documents_are_read_back, documents_are_texts};
pub use writer::Writer;
