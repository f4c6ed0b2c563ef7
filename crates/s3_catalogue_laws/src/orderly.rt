//! The catalogues of which the other laws speak.
ghost use Rattle.s3_catalogue_laws.specs.Orderly.{ChangesKeepOrder, DeletionsKeepOrder, OpeningIsOrderly};

use s3_records::{changes_are_local, deletions_stay_in_order, versions_stay_in_order};

/// A law, with nothing to run: a catalogue opens orderly, which is that under each key stand versions of one key, newest first
/// and at most one of them `null`, and that no key is there without one. A change whose number is above those of its key's
/// versions keeps that, and so do several deletions by one entry whose number is above those of all versions.
pub fn catalogues_stay_orderly<B>()
    ensures changes { ChangesKeepOrder B }
    ensures deletions { DeletionsKeepOrder B }
    ensures opening { OpeningIsOrderly B }
{
    changes_are_local::<B>();
    versions_stay_in_order::<B>();
    deletions_stay_in_order::<B>();
}
