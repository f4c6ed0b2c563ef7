//! What lists tell that begin at a place.
ghost use Rattle.s3_catalogue_laws.specs.ListPlaces.{KeysStandFrom, KeysAreEnds, VersionsAreOrdered, VersionsStandFrom, VersionsStandBehind, VersionsAreEnds, UploadsAreOrdered, UploadsStandFrom, UploadsStandBehind, UploadsAreEnds};

use s3_records::uploads_are_listed;

/// A law, with nothing to run: a list of keys from a place tells the keys that stand there or behind it, in the order of bytes,
/// and no other, as the whole list tells them. One that goes on behind a key doesn't tell this again.
pub fn key_lists_go_on<B>()
    ensures keys { KeysStandFrom B }
    ensures ends { KeysAreEnds B }
{}

/// A law, with nothing to run: the list of all versions goes by key in the order of bytes, and of one key from the newest to the
/// oldest. A list from a key on tells the versions of this key and of those behind it. One that goes on behind a version tells
/// those that stand behind it or, where it isn't there any more, those of higher keys alone. Both are ends of the whole list.
pub fn version_lists_go_on<B>()
    ensures ordered { VersionsAreOrdered B }
    ensures keys { VersionsStandFrom B }
    ensures behind { VersionsStandBehind B }
    ensures ends { VersionsAreEnds B }
{}

/// A law, with nothing to run: the list of all open uploads goes by key in the order of bytes, and of one key by id. A list from
/// a key on tells the uploads to this key and to those behind it, and one that goes on behind an upload those that stand behind
/// it, whether it is there or not; both are ends of the whole list.
pub fn upload_lists_go_on<B>()
    ensures ordered { UploadsAreOrdered B }
    ensures keys { UploadsStandFrom B }
    ensures behind { UploadsStandBehind B }
    ensures ends { UploadsAreEnds B }
{
    uploads_are_listed::<B>();
}
