//! One multipart upload (Amazon S3 User Guide, "Uploading and copying objects using multipart upload"): the parts that were
//! sent to it, and the version that its completion stores. These are rules over one upload alone: nothing here knows
//! where uploads are kept, or looks at the bytes of a part.
#![tactic(auto)]

mod completion;
mod laws;
mod listed;
mod part;
mod parts;
mod upload;

pub use completion::CompletionError;
pub use laws::{completions_join_the_listed, puts_are_under_one_number};
pub use listed::{ListedPart, ListedParts, ListedTag};
pub use part::{Part, PartRow};
pub use parts::Parts;
pub use upload::Upload;
