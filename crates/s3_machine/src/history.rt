//! What is known of all histories of the machine: laws, with nothing to run.
ghost use Rattle.std.specs.Prelude.{◌≡◌, ℕ, ◌+◌, List, [], ◌∷◌, ◌++◌, length};
ghost use Rattle.s3_machine.specs.declared.rules.Rules.{Rules};
ghost use Rattle.s3_machine.specs.Step.{State};
ghost use Rattle.s3_machine.specs.Bases.{EverySoundHistory, OpeningIsSound, HistoriesLeaveSound, OpeningHasNothing};
ghost use Rattle.s3_machine.specs.History.{Entry, IsAnswer, Legal, after, after_entry};
ghost use Rattle.s3_machine.specs.Kept.{EveryHistory, StoredIsKept, VersionsAreKept, StoredIsTold, StoredIsListed, OnlyStoredStands, OnlyStoredIsGiven, ListedIsStored, StoredWasBrought, ReadsGiveOrFail, ReadsAreJudged, RepliesSayWhatIsAsked, PutsStoreTheirContents, StoredHasSource, PutsAreKept, PutVersionsAreKept, CopiesStoreTheirSource, CopiesAreKept, CopyVersionsAreKept, BodiesAreTagged, CompletionsStoreTheirParts, MarkersHide, QuietEntriesChangeNothing};
ghost use Rattle.s3_machine.specs.Deleted.{NamedKeysAreGone, NamedVersionsAreGone, OtherVersionsStay, DeletionsAreTold, MarkersAreToldOnce};
ghost use Rattle.s3_machine.specs.Conditional.{AcceptedFindsNone, RefusedFindsOne, StoredKeepsOthersOut, OneIsAccepted, AcceptedFindsMatching, UnmatchedChangesNothing, RefusalsTellWhy};
ghost use Rattle.s3_machine.specs.UploadsKept.{UploadsAreOpenUntilEnded, PartsAreKept, OnlySentStands, BegunIsTold, SentIsTold, CopiedPartIsTold, CompletedIsTold, CompletionsJoinWhatWasSent, CompletionsAreKept, CompletionVersionsAreKept, UploadsAreListedWhileOpen, PartsAreListedWhileStanding, OnlyWritesChangeVersions, PartsHaveTheirBytes, CopiedPartsAreOfTheirSource, PartsHaveASource};

use crate::laws::steps_keep;
use s3_bodies::Body;
use s3_listings::listed_keys_are_read;
use s3_records::{
    changes_are_by_place, changes_are_by_upload, changes_follow_rules, empty_has_nothing,
    numbers_stay_below, uploads_are_listed, versions_stay_in_order,
};
use s3_uploads::{completions_join_the_listed, puts_are_under_one_number};
use s3_versions::{ids_differ, puts_are_current};

/// A law, with nothing to run: a legal history with one more entry, whose answer is that of the next step, is legal, and
/// leaves the state that this step leaves.
pub fn one_more_entry()
    ensures legal { (rules : Rules) (s : State) (n : ℕ) (es : List Entry) (e : Entry)
        → Legal rules s n es → IsAnswer rules (after rules s es) (n + length es) e
        → Legal rules s n (es ++ e ∷ []) }
    ensures leaves { (rules : Rules) (s : State) (es : List Entry) (e : Entry)
        → after rules s (es ++ e ∷ []) ≡ after_entry rules (after rules s es) e }
{}

/// A law, with nothing to run: a legal history may be cut anywhere. Its beginning is legal, and what follows is legal from the
/// state that the beginning leaves, with the numbers that go on; and histories that follow each other so are one.
pub fn histories_are_cut_anywhere()
    ensures cut { (rules : Rules) (s : State) (n : ℕ) (es fs : List Entry)
        → Legal rules s n (es ++ fs)
        → Legal rules s n es × Legal rules (after rules s es) (n + length es) fs }
    ensures joined { (rules : Rules) (s : State) (n : ℕ) (es fs : List Entry)
        → Legal rules s n es → Legal rules (after rules s es) (n + length es) fs
        → Legal rules s n (es ++ fs) }
    ensures leaves { (rules : Rules) (s : State) (es fs : List Entry)
        → after rules s (es ++ fs) ≡ after rules (after rules s es) fs }
{}

/// A law, with nothing to run: which states a history may begin at. The opening state is a sound base, whichever number comes
/// first, and nothing stands in it; and what a legal history leaves that begins at a sound base is one for the number that comes
/// next.
pub fn histories_leave_sound_bases()
    ensures opening { OpeningIsSound }
    ensures nothing { OpeningHasNothing }
    ensures left { HistoriesLeaveSound }
{
    changes_are_by_place::<Body>();
    changes_are_by_upload::<Body>();
    changes_follow_rules::<Body>();
    numbers_stay_below::<Body>();
    versions_stay_in_order::<Body>();
    empty_has_nothing::<Body>();
    puts_are_under_one_number::<Body>();
}

/// A law, with nothing to run: in a legal history what an entry stores comes back, with its moment. It does at each read of
/// its key before the next entry that changes the key's versions, and at each read of its version by its id before an entry
/// that makes a version of that id again or deletes it. The entry's answer tells that id, and the tag of what is stored.
pub fn stored_is_kept()
    ensures by_key { EveryHistory StoredIsKept }
    ensures by_version { EveryHistory VersionsAreKept }
    ensures told { EveryHistory StoredIsTold }
{
    changes_are_by_place::<Body>();
    changes_follow_rules::<Body>();
    puts_are_current::<Body>();
}

/// A law, with nothing to run: in a legal history from a sound base, what stands was stored by an entry, or stood in the base, and
/// so was what a read is given, and no entry since replaced or deleted it. What was stored was put once, or joined once by a
/// completion, or stood in the base, and may have been copied since: then it has its bytes, and the media type and the metadata that
/// it had or that a copy said. A read of all of a version is given one, or doesn't succeed; one by conditions is shown what they
/// select, or doesn't succeed; and what its reply says in the place of what is kept is what the read asked for.
pub fn only_stored_is_given()
    ensures stands { EverySoundHistory OnlyStoredStands }
    ensures given { EverySoundHistory OnlyStoredIsGiven }
    ensures brought { EverySoundHistory StoredWasBrought }
    ensures or_fails { EveryHistory ReadsGiveOrFail }
    ensures judged { EveryHistory ReadsAreJudged }
    ensures said { EveryHistory RepliesSayWhatIsAsked }
{
    changes_are_by_place::<Body>();
    changes_follow_rules::<Body>();
    ids_differ::<Body>();
    numbers_stay_below::<Body>();
    completions_join_what_was_sent();
}

/// A law, with nothing to run: what an entry stored is listed under its key, with its moment, its tag and its size, until an
/// entry changes the key's versions. In a legal history from a sound base nothing else is listed: what is was stored by an entry, or
/// stood in the base, and no entry since replaced or deleted it.
pub fn stored_is_listed()
    ensures listed { EveryHistory StoredIsListed }
    ensures nothing_else { EverySoundHistory ListedIsStored }
{
    changes_are_by_place::<Body>();
    changes_follow_rules::<Body>();
    puts_are_current::<Body>();
    ids_differ::<Body>();
    numbers_stay_below::<Body>();
    listed_keys_are_read::<Body>();
}

/// A law, with nothing to run: which data an entry stores, one clause an operation: a put stores what it brings, a copy what a
/// read of its source by its conditions would be given, all of it, with the media type and the metadata that the copy says, if it
/// says them, and a completion what the listed parts of its upload make. An entry that stores something is of one of these
/// operations.
pub fn stored_has_a_source()
    ensures put { PutsStoreTheirContents }
    ensures copied { CopiesStoreTheirSource }
    ensures completed { CompletionsStoreTheirParts }
    ensures sources { StoredHasSource }
{}

/// A law, with nothing to run: so in a legal history the bytes, the media type, the metadata and the moment of a put that was
/// acknowledged come back, by its key and by its version, with the tag of the bytes, which is the one that was acknowledged.
pub fn puts_are_kept()
    ensures by_key { EveryHistory PutsAreKept }
    ensures by_version { EveryHistory PutVersionsAreKept }
    ensures tagged { EveryHistory BodiesAreTagged }
{
    stored_is_kept();
}

/// A law, with nothing to run: and what a copy that was acknowledged found at its source comes back as if it had been put, with
/// the moment of the copy, and with the media type and the metadata that the copy says, if it says them.
pub fn copies_are_kept()
    ensures by_key { EveryHistory CopiesAreKept }
    ensures by_version { EveryHistory CopyVersionsAreKept }
{
    stored_is_kept();
}

/// A law, with nothing to run: in a legal history from a sound base an upload is open exactly from the entry that begins it, whose
/// number is its id, or from the beginning if it is open in the base, to one that completes or aborts it, with its moment, its type
/// and its metadata, and it shows in the list of all uploads of its bucket exactly so long.
pub fn uploads_are_open_until_ended()
    ensures begun { EverySoundHistory UploadsAreOpenUntilEnded }
    ensures listed { EverySoundHistory UploadsAreListedWhileOpen }
{
    changes_are_by_upload::<Body>();
    puts_are_under_one_number::<Body>();
    uploads_are_listed::<Body>();
}

/// A law, with nothing to run: in a legal history from a sound base a part that was put with success, sent or copied, or that
/// stands in the base, stands in its upload as it was put until one is put in its place or the upload ends. Nothing else stands
/// there, from whichever base. The list of all parts of the upload shows it exactly so long, with its moment, its tag and its size.
pub fn parts_are_kept()
    ensures kept { EverySoundHistory PartsAreKept }
    ensures nothing_else { EveryHistory OnlySentStands }
    ensures listed { EverySoundHistory PartsAreListedWhileStanding }
{
    changes_are_by_upload::<Body>();
    puts_are_under_one_number::<Body>();
}

/// A law, with nothing to run: what a part is that an entry puts, with the entry's moment: one that is sent has the bytes that
/// were sent, and their MD5 as its digest. One that is copied has the bytes of the range of what a read of its source by the
/// conditions of the copy would be given, all of them where no range is named, and as its digest the MD5 of the source's tag and
/// of the range. A part that is put is either sent or copied.
pub fn parts_have_a_source()
    ensures sent { PartsHaveTheirBytes }
    ensures copied { CopiedPartsAreOfTheirSource }
    ensures sources { PartsHaveASource }
{}

/// A law, with nothing to run: who begins an upload is told the id of one that is open behind the entry, with what was asked for,
/// who sends a part the tag of the one that stands there behind the entry, who copies one its tag, its moment and the id of the
/// version that it was, and who completes an upload the tag of what is stored.
pub fn uploads_are_told()
    ensures begun { EveryHistory BegunIsTold }
    ensures sent { EveryHistory SentIsTold }
    ensures copied { EveryHistory CopiedPartIsTold }
    ensures completed { EveryHistory CompletedIsTold }
{
    changes_are_by_upload::<Body>();
    puts_are_under_one_number::<Body>();
}

/// A law, with nothing to run: in a legal history, from whichever base, a completion that succeeds stores the bytes of the parts
/// that were put last under each listed number since the upload was begun, sent or copied, or that stood in it in the base and
/// stayed, in the order in which they are listed, with the tag of their digests and their count, and with the type and the metadata
/// that the upload was begun with.
pub fn completions_join_what_was_sent()
    ensures { EveryHistory CompletionsJoinWhatWasSent }
{
    changes_are_by_upload::<Body>();
    puts_are_under_one_number::<Body>();
    completions_join_the_listed();
}

/// A law, with nothing to run: so this comes back as if it had been put, with the moment of the completion.
pub fn completions_are_kept()
    ensures by_key { EveryHistory CompletionsAreKept }
    ensures by_version { EveryHistory CompletionVersionsAreKept }
{
    completions_join_what_was_sent();
    stored_is_kept();
}

/// A law, with nothing to run: an entry that doesn't write under a key leaves its versions: a list of objects shows nothing of
/// an upload, and no read does, before it is completed.
pub fn only_writes_change_versions()
    ensures { EveryHistory OnlyWritesChangeVersions }
{
    changes_are_by_place::<Body>();
    changes_follow_rules::<Body>();
}

/// A law, with nothing to run: in a legal history a delete marker hides its key until an entry changes the key's versions.
/// That it takes nothing away is `stored_is_kept` by version.
pub fn delete_markers_hide()
    ensures hidden { EveryHistory MarkersHide }
{
    changes_are_by_place::<Body>();
    changes_follow_rules::<Body>();
    s3_versions::markers_hide::<Body>();
}

/// A law, with nothing to run: what becomes of the objects that one entry deletes together. In a legal history from a sound base a
/// key that it names without a version, and no version of which it names, is gone until an entry changes the key's versions, and a
/// version that it names is gone, unless the entry makes a delete marker of its id. Every other version stays, of other keys and of
/// other buckets too. Who asks for it is told of each object in their order, and of no key twice of a delete marker whose id is the
/// number of the entry.
pub fn named_objects_are_gone()
    ensures keys { EverySoundHistory NamedKeysAreGone }
    ensures versions { EverySoundHistory NamedVersionsAreGone }
    ensures others { EveryHistory OtherVersionsStay }
    ensures told { EveryHistory DeletionsAreTold }
    ensures once { EveryHistory MarkersAreToldOnce }
{
    changes_are_by_place::<Body>();
    changes_follow_rules::<Body>();
    numbers_stay_below::<Body>();
    s3_versions::markers_hide::<Body>();
}

/// A law, with nothing to run: in a legal history a write that wants no object under its key finds none where it succeeds, and one
/// where it is refused for that, which changes nothing. So once an entry has stored an object, none that wants no object there
/// succeeds before another took it away: of two that race at most one is told that it stored.
pub fn absent_puts_succeed_once()
    ensures accepted { EveryHistory AcceptedFindsNone }
    ensures refused { EveryHistory RefusedFindsOne }
    ensures stored { EveryHistory StoredKeepsOthersOut }
    ensures once { EveryHistory OneIsAccepted }
{
    changes_are_by_place::<Body>();
    changes_follow_rules::<Body>();
    puts_are_current::<Body>();
    steps_keep();
}

/// A law, with nothing to run: in a legal history a put, a completion or a delete that wants an object with one of some tags finds
/// one where it succeeds. Where there is none it is refused, which changes nothing, and where its condition is what refuses it, the
/// code tells whether there is an object with another tag, or no object.
pub fn matching_writes_find_their_object()
    ensures found { EveryHistory AcceptedFindsMatching }
    ensures unmatched { EveryHistory UnmatchedChangesNothing }
    ensures codes { EveryHistory RefusalsTellWhy }
{
    steps_keep();
}

/// A law, with nothing to run: an entry that is refused leaves the state as it was, and so does one that only reads.
pub fn entries_change_nothing()
    ensures quiet { EveryHistory QuietEntriesChangeNothing }
{
    steps_keep();
}
