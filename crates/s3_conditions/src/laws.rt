//! Laws of the judgement: what readers rely on, with nothing to run.
ghost use Rattle.s3_conditions.specs.Laws.{PlainReadsShowAll, PartsLieInTheObject, PartsAreWhatIsAsked, ExamplesHold};

/// A law, with nothing to run: a read that asks nothing of a version is shown all of it.
pub fn plain_reads_show_all()
    ensures { PlainReadsShowAll }
{}

/// A law, with nothing to run: a part that is shown of an object lies in it and isn't empty.
pub fn parts_lie_in_the_object()
    ensures { PartsLieInTheObject }
{}

/// A law, with nothing to run: of an object's bytes a part has those that are in the range that was asked for, and no others. So
/// `Outside` says that the range has none of them.
pub fn parts_are_what_is_asked()
    ensures { PartsAreWhatIsAsked }
{}

/// A law, with nothing to run: the standard's examples of ranges and of lists of tags are read as it says.
pub fn examples_hold()
    ensures { ExamplesHold }
{}
