//! What requests name: buckets, keys, parts, versions and uploads, and the entity tags that replies tell.
//! A value of each type is what its text says.
#![tactic(auto)]

mod ids;
mod names;
mod short;
mod tag;
mod text;

pub use ids::{IdText, PartNumber, UploadId, VersionId};
pub use names::{BucketName, Key};
pub use tag::{Tag, TagText};
