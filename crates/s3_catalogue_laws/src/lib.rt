//! Laws of the catalogue for its users: what lists tell of buckets, keys, versions and uploads, what deletes leave, that a deleted
//! version or delete marker uncovers what stood behind it, and what stays over a run of changes. Each is a function with nothing to
//! run.
#![tactic(auto)]

mod buckets;
mod deletes;
mod ids;
mod lists;
mod objects;
mod orderly;
mod places;
mod runs;

pub use buckets::{buckets_are_listed, buckets_come_and_go};
pub use deletes::{markers_are_undone, versions_are_uncovered};
pub use ids::{ids_are_given_once, told_markers_are_there};
pub use lists::{keys_are_listed, versions_are_listed};
pub use objects::lists_begin_behind;
pub use orderly::catalogues_stay_orderly;
pub use places::{key_lists_go_on, upload_lists_go_on, version_lists_go_on};
pub use runs::buckets_stay_until_dropped;
