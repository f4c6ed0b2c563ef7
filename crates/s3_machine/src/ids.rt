//! What is known of ids in all histories of the machine: laws, with nothing to run.
ghost use Rattle.s3_machine.specs.Bases.{EverySoundHistory};
ghost use Rattle.s3_machine.specs.Kept.{EveryHistory};
ghost use Rattle.s3_machine.specs.Ids.{VersionIdsAreToldOnce, VersionIdsAreNew, UploadIdsAreToldOnce, UploadIdsAreNew};
ghost use Rattle.s3_machine.specs.Markers.{MarkersAnswerToTheirId, MarkersAreDeletedByTheirId, DroppedVersionsAreGone, DroppedVersionsAreNotFound, UndeletedKeysComeBack, UndeletedKeysAreGiven};

use crate::history::histories_leave_sound_bases;
use s3_bodies::Body;
use s3_records::{
    changes_are_by_place, changes_are_local, changes_follow_rules, numbers_stay_below,
};

/// A law, with nothing to run: in a legal history an id but `null` is told once. No two entries that make a version or a delete
/// marker are told one id, of one key or of two, and no two that begin an upload are. From a sound base no version under the key
/// had the id before, in the base or behind any of the entries before, and no upload that was open did.
pub fn ids_are_told_once()
    ensures versions { EveryHistory VersionIdsAreToldOnce }
    ensures new_versions { EverySoundHistory VersionIdsAreNew }
    ensures uploads { EveryHistory UploadIdsAreToldOnce }
    ensures new_uploads { EverySoundHistory UploadIdsAreNew }
{
    numbers_stay_below::<Body>();
    histories_leave_sound_bases();
}

/// A law, with nothing to run: in a legal history the id that is told of a delete marker is the marker's. Before an entry touches
/// the id, a read by it is answered that this is not allowed, and that it is a delete marker, and who deletes the version of this
/// id is told that it was a delete marker.
pub fn markers_answer_to_their_id()
    ensures read { EveryHistory MarkersAnswerToTheirId }
    ensures deleted { EveryHistory MarkersAreDeletedByTheirId }
{
    changes_are_by_place::<Body>();
    changes_are_local::<Body>();
    changes_follow_rules::<Body>();
}

/// A law, with nothing to run: in a legal history a version or a delete marker that is deleted by its id is gone until an entry
/// makes one of that id. While its bucket is there a read by the id is answered that there is no such version.
pub fn dropped_versions_are_gone()
    ensures gone { EveryHistory DroppedVersionsAreGone }
    ensures read { EveryHistory DroppedVersionsAreNotFound }
{
    changes_are_by_place::<Body>();
    changes_follow_rules::<Body>();
}

/// A law, with nothing to run: in a legal history from a sound base a key that was deleted where versioning is enabled has the
/// versions that it had, once its delete marker is deleted by the id and nothing else changed them, and a read of it is given what
/// one was given before the delete.
pub fn undeleted_keys_come_back()
    ensures versions { EverySoundHistory UndeletedKeysComeBack }
    ensures read { EverySoundHistory UndeletedKeysAreGiven }
{
    changes_are_by_place::<Body>();
    changes_follow_rules::<Body>();
    numbers_stay_below::<Body>();
}
