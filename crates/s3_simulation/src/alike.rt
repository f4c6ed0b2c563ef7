//! Which events are alike, and what a connection shows in which memory ran out: laws, with nothing to run.

ghost use Rattle.s3_simulation.specs.Alike.{CutsAreAlike, DeathsShow, MovesAreAlike};

/// A law: events stay alike where a piece is cut in two, and where two events of different connections that follow each
/// other, and aren't both turns, change places. So each other cut of the pieces, and each other place of a piece before the
/// next turn of its connection, leaves the run that `runs_are_one` fixes. There is nothing to run.
pub fn cuts_and_moves_are_alike()
    ensures cuts { CutsAreAlike }
    ensures moves { MovesAreAlike }
{}

/// A law: where memory ran out in a connection, its output ends with the reply that says so. There is nothing to run.
pub fn deaths_show()
    ensures { DeathsShow }
{}
