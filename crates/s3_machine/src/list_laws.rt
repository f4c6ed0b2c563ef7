//! What is known of lists as they are told, in all histories: laws, with nothing to run.
ghost use Rattle.s3_machine.specs.Bases.{EverySoundHistory};
ghost use Rattle.s3_machine.specs.Kept.{EveryHistory};
ghost use Rattle.s3_machine.specs.ToldLists.{ObjectListsAreTold, VersionListsAreTold, UploadListsAreTold, PartListsAreTold, ObjectsAreToldAsRead, VersionsAreToldAsRead, UploadsAreToldWhileOpen, PartsAreToldWhileStanding};

use crate::history::{histories_leave_sound_bases, parts_are_kept, uploads_are_open_until_ended};
use s3_bodies::Body;
use s3_listings::{items_are_distinct, listed_keys_are_read, pages_join, plain_lists_are_rows};
use s3_records::{changes_are_by_place, changes_follow_rules, held_is_got, keys_rise};
use s3_versions::ids_differ;

/// A law, with nothing to run: in a legal history a list of the objects, of the versions or of the uploads of a bucket that is there
/// is told as a page of it, and so is one of the parts of an upload that is open.
pub fn lists_are_told()
    ensures objects { EveryHistory ObjectListsAreTold }
    ensures versions { EveryHistory VersionListsAreTold }
    ensures uploads { EveryHistory UploadListsAreTold }
    ensures parts { EveryHistory PartListsAreTold }
{}

/// A law, with nothing to run: in a legal history a list of the objects of a bucket, up to its last page, tells a key that is asked
/// for, with a moment, a tag and a size, exactly where a plain read of the key is given a version with these, before an entry
/// changes the key's versions. From a sound base one of all versions tells an object, under an id, exactly where a plain read of
/// that id is given it; one of all uploads of a bucket tells those that are open, with their moments, and one of all parts of an
/// upload those that stand in it, and both tell nothing else.
pub fn lists_tell_what_is_there()
    ensures objects { EveryHistory ObjectsAreToldAsRead }
    ensures versions { EverySoundHistory VersionsAreToldAsRead }
    ensures uploads { EverySoundHistory UploadsAreToldWhileOpen }
    ensures parts { EverySoundHistory PartsAreToldWhileStanding }
{
    changes_are_by_place::<Body>();
    changes_follow_rules::<Body>();
    held_is_got::<Body>();
    histories_leave_sound_bases();
    ids_differ::<Body>();
    items_are_distinct();
    keys_rise::<Body>();
    listed_keys_are_read::<Body>();
    pages_join();
    plain_lists_are_rows::<Body>();
    parts_are_kept();
    uploads_are_open_until_ended();
}
