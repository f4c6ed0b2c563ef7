//! Laws of the definitions: there is nothing to run.

ghost use Rattle.s3_framed_bodies.specs.Laws.{AcceptedAreWhole, EndsAreSizes, EndsDecide, OpenBodiesAreShort, OpenBodiesEndIncomplete, ReadersFail, ReadersJudge, ReadersStayOpen, ReadersStayWithin, RefusalsStand, VerdictsAreOne, VerdictsExist, VerdictsStay, WholePayloadsAreData};

use s3_transfer_chunks::bodies_are_accepted;

/// A law: a reader that stands after some bytes of a body says of it what these bytes say, whichever way they were cut.
/// Where it has refused, that is at the place of the verdict and with its code; where it has neither refused nor accepted, the
/// body is open. It never has taken more than have come.
pub fn bodies_are_judged()
    ensures verdict { ReadersJudge }
    ensures within { ReadersStayWithin }
    ensures failed { ReadersFail }
    ensures undecided { ReadersStayOpen }
{
    s3_payloads::payloads_are_judged();
    bodies_are_accepted();
    s3_transfer_chunks::refusals_stand();
    s3_transfer_chunks::open_bodies_take_all();
}

/// A law: what is decided about a body before its input has ended stays decided, whatever follows; the same bytes have no two
/// verdicts that decide something else; none are without one; and once the input has ended, something is decided.
pub fn verdicts_are_final()
    ensures stay { VerdictsStay }
    ensures one { VerdictsAreOne }
    ensures exist { VerdictsExist }
    ensures end { EndsDecide }
{
    s3_payloads::verdicts_are_final();
    s3_transfer_chunks::verdicts_are_final();
}

/// A law: a body that is open lacks bytes, and is incomplete where its input ends there.
pub fn open_bodies_are_short()
    ensures short { OpenBodiesAreShort }
    ensures incomplete { OpenBodiesEndIncomplete }
{
    s3_payloads::open_bodies_are_short();
    s3_payloads::verdicts_are_final();
    bodies_are_accepted();
    s3_transfer_chunks::verdicts_are_final();
    s3_transfer_chunks::refusals_stand();
    s3_transfer_chunks::open_bodies_take_all();
}

/// A law: a refusal before the end of the input stands at its place: the bytes up to there have come, and they are refused for
/// themselves, there and with the same code.
pub fn refusals_stand()
    ensures { RefusalsStand }
{
    s3_payloads::refusals_stand();
    bodies_are_accepted();
    s3_transfer_chunks::refusals_stand();
}

/// A law: a body is accepted once its last byte has come, by its own bytes alone, which end where their length or their coding
/// says; and where it is sent as it is, its payload is its data.
pub fn accepted_bodies_are_whole()
    ensures whole { AcceptedAreWhole }
    ensures size { EndsAreSizes }
    ensures payload { WholePayloadsAreData }
{
    s3_payloads::accepted_bodies_are_whole();
    bodies_are_accepted();
    s3_transfer_chunks::refusals_stand();
    s3_transfer_chunks::verdicts_are_final();
}
