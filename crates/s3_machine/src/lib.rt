//! The machine: one state of buckets, versions and uploads with their bytes, and one step for each command, all or nothing.
//! What a step is stands in `specs/Step.antt`, at which states a history may begin in `specs/Bases.antt`, and what users may rely
//! on over histories of steps in `specs/Kept.antt`, of uploads in `specs/UploadsKept.antt`, of lists as they are told in
//! `specs/ToldLists.antt`, of conditional writes in `specs/Conditional.antt`, of buckets in `specs/Buckets.antt`, of objects that are
//! deleted together in `specs/Deleted.antt`, and of ids in `specs/Ids.antt` and `specs/Markers.antt`.
#![tactic(auto)]

mod bucket_laws;
mod command;
mod conditional_laws;
mod configuration;
mod effects;
mod history;
mod ids;
mod laws;
mod list_laws;
mod overrides;
mod region;
mod rules;
mod turn;

pub use bucket_laws::{full_buckets_stay, region_is_told, versioning_is_told};
pub use command::{
    Answer, BucketCommand, Command, CopyRange, Description, Found, KeyCommand, ObjectCopy,
    ObjectPut, ObjectRead, Outcome, PartCopy, Source, UploadCommand, WriteCondition,
};
pub use conditional_laws::conditions_decide;
pub use configuration::Configuration;
pub use history::{
    absent_puts_succeed_once, completions_are_kept, completions_join_what_was_sent,
    copies_are_kept, delete_markers_hide, entries_change_nothing, histories_are_cut_anywhere,
    histories_leave_sound_bases, matching_writes_find_their_object, named_objects_are_gone,
    one_more_entry, only_stored_is_given, only_writes_change_versions, parts_are_kept,
    parts_have_a_source, puts_are_kept, stored_has_a_source, stored_is_kept, stored_is_listed,
    uploads_are_open_until_ended, uploads_are_told,
};
pub use ids::{
    dropped_versions_are_gone, ids_are_told_once, markers_answer_to_their_id,
    undeleted_keys_come_back,
};
pub use laws::{
    closed_uploads_are_refused, conditions_judge_reads, lists_show_what_reads_give, steps_keep,
};
pub use list_laws::{lists_are_told, lists_tell_what_is_there};
pub use overrides::Overrides;
pub use region::Region;
pub use rules::Rules;
pub use turn::Turn;
