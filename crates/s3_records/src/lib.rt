//! The records of a server: which buckets there are, and under their keys the versions and the open uploads, with their
//! bytes. `Records` is what every keeper of one catalogue promises. `MapRecords` keeps it in memory.
#![tactic(auto)]

mod adding;
mod bucket;
mod commit;
mod copying;
mod deletions;
mod keys;
mod laws;
mod listing;
mod map_records;
mod merging;
mod records;
mod rows;
mod upload_listing;
mod uploads;

pub use commit::CommitError;
pub use laws::{
    changes_are_by_place, changes_are_by_upload, changes_are_local, changes_follow_rules,
    deletions_are_by_place, deletions_stay_in_order, empty_has_nothing, held_is_got, keys_rise,
    numbers_stay_below, uploads_are_listed, versions_stay_in_order,
};
pub use map_records::MapRecords;
pub use records::{BucketFacts, ListedBucket, Records};
pub use rows::{KeyRow, Start, UploadRow, UploadStart, VersionRow, VersionStart};
