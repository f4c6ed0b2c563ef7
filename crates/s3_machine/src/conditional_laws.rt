//! What is known of conditional writes in all histories: laws, with nothing to run.
ghost use Rattle.s3_machine.specs.Conditional.{TakenIsRefused, UnmatchedIsRefused, FreeIsAccepted, MatchedIsAccepted, PlainIsAccepted};
ghost use Rattle.s3_machine.specs.Kept.{EveryHistory};

/// A law, with nothing to run: in a legal history a write whose condition isn't met is refused for that, if the bucket and the
/// upload that it goes to are there: with PreconditionFailed where an object is under its key, and with NoSuchKey where none is. A
/// put or a delete in a bucket that is there, whose condition is met, succeeds, and so does a put without one.
pub fn conditions_decide()
    ensures taken { EveryHistory TakenIsRefused }
    ensures unmatched { EveryHistory UnmatchedIsRefused }
    ensures free { EveryHistory FreeIsAccepted }
    ensures matched { EveryHistory MatchedIsAccepted }
    ensures plain { EveryHistory PlainIsAccepted }
{}
