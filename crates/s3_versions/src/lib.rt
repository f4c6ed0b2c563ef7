//! The versions of one key, and what a put, a delete and a get do with them (Amazon S3 User Guide, "Using
//! versioning in S3 buckets"). These are rules over lists alone: nothing here knows of buckets, or looks at the
//! bytes of a version.
#![tactic(auto)]

mod content_type;
mod laws;
mod metadata;
mod picking;
mod version;
mod versions;

pub use content_type::ContentType;
pub use laws::{ids_differ, markers_hide, one_id_changes, puts_are_current, stay_versions};
pub use metadata::{Metadata, MetadataEntry};
pub use picking::{Facts, Picked, Refusal, current, judge, pick, read_facts, version_under};
pub use version::{Content, Data, Version, Versioning, VersioningStatus};
pub use versions::Versions;
