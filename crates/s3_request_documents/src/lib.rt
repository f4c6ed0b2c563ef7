//! The documents that requests bring: what is read from a body, as JSON or in XML.
#![tactic(auto)]

mod body;
mod completion;
mod completion_numbers;
mod completion_rows;
mod completion_xml;
mod data;
mod deletion;
mod deletion_objects;
mod deletion_rows;
mod location;
mod numbers;
mod root_field;
mod versioning;
mod white;

pub use completion::read_completion;
pub use deletion::read_deletion;
pub use location::read_location;
pub use versioning::read_versioning;
