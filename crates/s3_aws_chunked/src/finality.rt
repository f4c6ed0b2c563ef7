//! What is known of every verdict: laws, with nothing to run.

ghost use Rattle.s3_aws_chunked.specs.Finality.{EndsDecide, OpenBodiesAreShort, OpenBodiesEndIncomplete, RefusalsStand, VerdictsAreOne, VerdictsExist, VerdictsStay};

/// A law: what is decided about a body before its input has ended stays decided, whatever follows, so that how it is
/// cut into pieces decides nothing; the same bytes have no two verdicts that decide something else; none are without
/// one; and once the input has ended, something is decided.
pub fn verdicts_are_final()
    ensures stay { VerdictsStay }
    ensures one { VerdictsAreOne }
    ensures exist { VerdictsExist }
    ensures end { EndsDecide }
{}

/// A law: a body that is open lacks bytes of Content-Length, and is incomplete where its input ends there.
pub fn open_bodies_are_short()
    ensures short { OpenBodiesAreShort }
    ensures incomplete { OpenBodiesEndIncomplete }
{}

/// A law: a refusal before the end of the input stands at its place: the bytes up to there have come, and they are
/// refused for themselves, there and with the same code.
pub fn refusals_stand()
    ensures { RefusalsStand }
{}
