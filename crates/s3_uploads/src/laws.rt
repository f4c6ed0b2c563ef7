//! Laws of the rules: what users rely on, with nothing to run.
ghost use Rattle.s3_uploads.specs.Laws.{CompletionsJoinTheListed, RefusalsAreThree, PutsAreUnderOneNumber, PutsKeepTheOrder};

/// A law, with nothing to run: a completion that is accepted stores the bytes of the listed parts in the order in which
/// they are listed, each of which was sent under its number and has the listed tag. One that is refused has one of three
/// codes.
pub fn completions_join_the_listed()
    ensures joined { CompletionsJoinTheListed }
    ensures refused { RefusalsAreThree }
{}

/// A law, with nothing to run: a part that is put stands under its number, and the parts under other numbers stay. The
/// numbers rise, and go on to.
pub fn puts_are_under_one_number<B>()
    ensures puts { PutsAreUnderOneNumber B }
    ensures order { PutsKeepTheOrder B }
{}
