//! What deletes leave, and how they are undone.
ghost use Rattle.s3_catalogue_laws.specs.Markers.{EnabledMarkersAreUndone, SuspendedMarkersAreUndone};
ghost use Rattle.s3_catalogue_laws.specs.Undeletions.{DropsUncover, OtherDropsKeepCurrent, LastDropsEmpty};

use s3_records::{changes_are_local, changes_follow_rules, versions_stay_in_order};

/// A law, with nothing to run: where the current version or delete marker of a key is deleted by its id, a read without an id gives
/// the version behind it, or is refused where that is a delete marker; where another version is, it finds the one that it found
/// before; where it was the only one the key isn't there, and no list tells it.
pub fn versions_are_uncovered<B>()
    ensures uncovered { DropsUncover B }
    ensures kept { OtherDropsKeepCurrent B }
    ensures emptied { LastDropsEmpty B }
{
    changes_are_local::<B>();
    changes_follow_rules::<B>();
    versions_stay_in_order::<B>();
}

/// A law, with nothing to run: where a delete makes a delete marker, a read without an id is refused as `NoSuchKey`, and one by
/// the marker's id as `MethodNotAllowed`. Where the marker is deleted by its id the versions that were there before are there
/// again; in a suspended bucket those without the version `null`, whose place the marker took.
pub fn markers_are_undone<B>()
    ensures enabled { EnabledMarkersAreUndone B }
    ensures suspended { SuspendedMarkersAreUndone B }
{
    changes_follow_rules::<B>();
}
