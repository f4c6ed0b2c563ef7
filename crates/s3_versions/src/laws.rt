//! Laws of the rules: what users rely on, with nothing to run.
ghost use Rattle.s3_versions.specs.Laws.{OneUnderEachId, IdsAreTold, ChangesLeaveVersions, NumbersStayNew, LaterIsNew, PutsAreCurrent, MarkersHide, EnabledTakesNothing, OnlyNullGoes, SumOfWhatGoes, ChangesAreUnderOneId};

/// A law, with nothing to run: no two versions of a key have one id, and a version is under its own id and
/// no other.
pub fn ids_differ<B>()
    ensures one { OneUnderEachId B }
    ensures told { IdsAreTold B }
{}

/// A law, with nothing to run: what a change leaves are versions of one key again, newest first and at most one of
/// them `null`, if the number of the entry is above those that made the versions there. A number above all of these is
/// above those of the versions after it, and so is every later one.
pub fn stay_versions<B>()
    ensures leave { ChangesLeaveVersions B }
    ensures new { NumbersStayNew B }
    ensures later { LaterIsNew B }
{}

/// A law, with nothing to run: after a put the current version is the one put, and a read that names no
/// version gets it.
pub fn puts_are_current<B>()
    ensures { PutsAreCurrent B }
{}

/// A law, with nothing to run: after a delete that makes a marker, a read that names no version is told that
/// there is no such key, and that it is a delete marker; where versioning is enabled, a put or a delete takes
/// no version away, and elsewhere only `null`.
pub fn markers_hide<B>()
    ensures hidden { MarkersHide B }
    ensures kept { EnabledTakesNothing B }
    ensures others { OnlyNullGoes B }
{}

/// A law, with nothing to run: a change leaves something else under one id, which is that of the version or of the delete
/// marker that it makes, or that it names, and nothing else changes. What goes by its id and what stays are what was there,
/// whatever is counted of it.
pub fn one_id_changes<B>()
    ensures changes { ChangesAreUnderOneId B }
    ensures sum { SumOfWhatGoes B }
{}
