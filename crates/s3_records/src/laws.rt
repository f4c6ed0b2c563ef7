//! Laws of the catalogue: what every change keeps, with nothing to run.
ghost use Rattle.s3_records.specs.Laws.{ChangesAreLocal, ChangesNameOneKey, ChangesFollowRules, CompletionsFollowRules, CompletionsDoBoth, SwitchesKeepKeys, VersionsStayInOrder, OpeningIsEmpty, EmptyHasNothing, KeysStayFilled, OthersHaveSomething, KeysRise, HeldIsGot, UploadsAreListed, UploadsFollow};
ghost use Rattle.s3_records.specs.DeletionLaws.{DeletionsStayBelow, NextStaysBelow, DeletionsStayInOrder, DeletionsStayFilled, DeletionsAreByPlace, DeletionsKeepTheRest, DeletionsDelete};
ghost use Rattle.s3_records.specs.Places.{ChangesAreByPlace, ChangesAreByUpload, NumbersStayBelow, LaterIsBelow, OpeningIsBelow};

use s3_versions::{one_id_changes, stay_versions};

/// A law, with nothing to run: a change leaves every bucket but the one that it names, and one that names a
/// key leaves every other key of that bucket, its moment and its versioning.
pub fn changes_are_local<B>()
    ensures buckets { ChangesAreLocal B }
    ensures keys { ChangesNameOneKey B }
{}

/// A law, with nothing to run: the versions of the key that a change names are those that the rules of its
/// bucket's versioning give. A completion of an upload is such a change of its key, and drops the upload. A bucket whose
/// versioning was set keeps its keys, and is not unversioned again.
pub fn changes_follow_rules<B>()
    ensures rules { ChangesFollowRules B }
    ensures completions { CompletionsFollowRules B }
    ensures both { CompletionsDoBoth B }
    ensures switches { SwitchesKeepKeys B }
{}

/// A law, with nothing to run: under each key stand versions of one key, newest first and at most one of them
/// `null`, from the opening on, if each entry's number is above those of the key's versions.
pub fn versions_stay_in_order<B>()
    ensures stay { VersionsStayInOrder B }
    ensures opening { OpeningIsEmpty B }
{
    stay_versions::<B>();
}

/// A law, with nothing to run: a bucket that counts as empty has no version, no delete marker and no open upload, and one
/// that does not has one of them, since from the opening on no key is without.
pub fn empty_has_nothing<B>()
    ensures nothing { EmptyHasNothing B }
    ensures something { OthersHaveSomething B }
    ensures filled { KeysStayFilled B }
{}

/// A law, with nothing to run: a put, a delete, a delete of a version and the completion of an upload change what stands at
/// one place (in a bucket, under a key, with an id), and what stands at every other stays; to make a bucket, to drop an empty
/// one, to set a bucket's versioning, and to begin, to fill and to drop an upload change it nowhere.
pub fn changes_are_by_place<B>()
    ensures places { ChangesAreByPlace B }
{
    one_id_changes::<B>();
}

/// A law, with nothing to run: to begin an upload, to put a part to it, to drop it and to complete it change it alone, and every
/// other upload stays; no other change makes or changes one, and none drops one.
pub fn changes_are_by_upload<B>()
    ensures { ChangesAreByUpload B }
{}

/// A law, with nothing to run: a number that is above those of the entries that made a version, and above that of a change,
/// is above them after it, from the opening on; and so is every later one.
pub fn numbers_stay_below<B>()
    ensures stay { NumbersStayBelow B }
    ensures later { LaterIsBelow B }
    ensures opening { OpeningIsBelow B }
{
    stay_versions::<B>();
}

/// A law, with nothing to run: several deletions by one entry leave what stands at each place that none of them names, and every
/// upload, and each bucket with its moment and its versioning. At a place that one names stands nothing after it, or what stood
/// there, or the delete marker that the entry makes: so a version that is named is gone, unless the entry makes one of its id,
/// and a key that is named without one shows no version, and a delete marker where the bucket isn't unversioned.
pub fn deletions_are_by_place<B>()
    ensures places { DeletionsAreByPlace B }
    ensures rest { DeletionsKeepTheRest B }
    ensures gone { DeletionsDelete B }
{
    one_id_changes::<B>();
    stay_versions::<B>();
}

/// A law, with nothing to run: after several deletions by one entry, whose number is above those of all versions, the next number
/// is above them, and under each key that is there stand versions of one key, as before.
pub fn deletions_stay_in_order<B>()
    ensures below { DeletionsStayBelow B }
    ensures next { NextStaysBelow B }
    ensures order { DeletionsStayInOrder B }
    ensures filled { DeletionsStayFilled B }
{
    stay_versions::<B>();
}

/// A law, with nothing to run: the keys of a bucket rise in the order of bytes, so none stands twice in a list of them.
pub fn keys_rise<B>()
    ensures { KeysRise B }
{}

/// A law, with nothing to run: the versions that are found under a key are those that stand with it in the list of what its
/// bucket holds, and the other way round.
pub fn held_is_got<B>()
    ensures { HeldIsGot B }
{}

/// A law, with nothing to run: the list of a bucket's uploads tells each open one, with its moment, and nothing else; one that
/// goes on behind an upload of it tells those that stand behind that.
pub fn uploads_are_listed<B>()
    ensures listed { UploadsAreListed B }
    ensures follow { UploadsFollow B }
{}
