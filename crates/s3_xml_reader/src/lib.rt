//! A reader of XML texts that anybody may have sent: it goes through the elements of a document in the order in which they
//! end, in one pass, and holds no more than the text of the innermost open one. What it reads is what the definitions of
//! `s3_xml` say.
#![tactic(auto)]

mod append;
mod characters;
mod cut;
mod element;
mod error;
mod names;
mod place;
mod reader;
mod references;
mod step;
mod tags;
mod texts;
mod told;

pub use element::Element;
pub use error::Error;
pub use reader::Reader;
