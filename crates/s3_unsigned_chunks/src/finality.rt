//! What is known of every verdict: laws, with nothing to run.

ghost use Rattle.s3_unsigned_chunks.specs.Finality.{EndsDecide, OpenBodiesAreShort, OpenBodiesEndIncomplete, RefusalsStand, RefusalsStayWithin, VerdictsStay};

/// A law: what is decided about a body before its input has ended stays decided, whatever follows, so that how it is cut
/// into pieces decides nothing; and once the input has ended, something is decided.
pub fn verdicts_are_final()
    ensures stay { VerdictsStay }
    ensures end { EndsDecide }
{}

/// A law: a body that is open lacks bytes of Content-Length, and is incomplete where its input ends there.
pub fn open_bodies_are_short()
    ensures short { OpenBodiesAreShort }
    ensures incomplete { OpenBodiesEndIncomplete }
{}

/// A law: a refusal before the end of the input stands at its place: the bytes up to there have come, and they are refused
/// for themselves, there and with the same code. One that comes with the end is at no byte behind those that have come.
pub fn refusals_stand()
    ensures stand { RefusalsStand }
    ensures within { RefusalsStayWithin }
{}
