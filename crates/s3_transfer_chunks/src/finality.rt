//! What is known of every verdict: laws, with nothing to run.

ghost use Rattle.s3_transfer_chunks.specs.Finality.{EndsDecide, NoMoreIsTaken, OpenBodiesEndIncomplete, OpenBodiesTakeAll, RefusalsAreFirst, RefusalsStand, RefusalsStayWithin, VerdictsStay};

/// A law: what is decided about a body before its input has ended stays decided, whatever follows, so that how it is cut
/// into pieces decides nothing, and no more bytes are taken; and once the input has ended, something is decided.
pub fn verdicts_are_final()
    ensures stay { VerdictsStay }
    ensures taken { NoMoreIsTaken }
    ensures end { EndsDecide }
{}

/// A law: of a body that is open all bytes are taken that have come, and it is incomplete where its input ends there.
pub fn open_bodies_take_all()
    ensures taken { OpenBodiesTakeAll }
    ensures incomplete { OpenBodiesEndIncomplete }
{}

/// A law: a refusal before the end of the input stands at its place: the bytes up to there have come, they are refused for
/// themselves, there and with the same code, and fewer of them decide nothing. One that comes with the end is at no byte
/// behind those that have come.
pub fn refusals_stand()
    ensures stand { RefusalsStand }
    ensures first { RefusalsAreFirst }
    ensures within { RefusalsStayWithin }
{}
