//! The documents of replies: what each of them tells, and its one text, as JSON or in XML. A text is printed without a
//! tree of values, into room that was taken before.
#![tactic(auto)]

mod buckets;
mod copied;
mod deletions;
mod encoded;
mod laws;
mod list;
mod listed;
mod location;
mod object_list;
mod part_list;
mod printer;
mod reserved;
mod room;
mod texts;
mod timestamp;
mod upload;
mod upload_list;
mod version_list;
mod xml;

pub use copied::{copied_document, part_copied_document};
pub use laws::{documents_are_one, xml_is_read_back};
pub use listed::{DeletionDraft, Document};
pub use printer::{Field, Leaf, Printer, Row, text_of};
