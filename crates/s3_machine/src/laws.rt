//! Laws of every step, with nothing to run.
ghost use Rattle.s3_machine.specs.Laws.{QuietStepsChangeNothing, StepsStayBelow, ConditionsJudgeReads, ListsShowWhatReadsGive, ClosedUploadsAreRefused};

use s3_bodies::Body;
use s3_listings::listed_keys_are_read;
use s3_records::{changes_are_by_place, changes_follow_rules, numbers_stay_below};

/// A law, with nothing to run: a refusal leaves the state as it was, and so does a command that only reads. Where the
/// number of an entry is above those of all versions, the next one is above them after its step.
pub fn steps_keep()
    ensures quiet { QuietStepsChangeNothing }
    ensures numbers { StepsStayBelow }
{
    changes_are_by_place::<Body>();
    changes_follow_rules::<Body>();
    numbers_stay_below::<Body>();
}

/// A law, with nothing to run: a read by conditions comes to what the plain read comes to, judged by them. Where that is
/// refused, it is refused so; else by the conditions, or it is shown that the version is as it knows it, that no byte of it is in
/// the range, a part, or all.
pub fn conditions_judge_reads()
    ensures { ConditionsJudgeReads }
{}

/// A law, with nothing to run: lists and reads tell the same. A list of all objects of a bucket has a key, with a moment, a tag
/// and a size, exactly where a plain read of the key is given a version with these.
pub fn lists_show_what_reads_give()
    ensures { ListsShowWhatReadsGive }
{
    listed_keys_are_read::<Body>();
}

/// A law, with nothing to run: whatever is asked of an upload that isn't open is refused.
pub fn closed_uploads_are_refused()
    ensures { ClosedUploadsAreRefused }
{}
