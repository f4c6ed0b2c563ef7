//! Laws of the definitions: there is nothing to run.

ghost use Rattle.s3_payloads.specs.Laws.{AcceptedAreWhole, DigestsAreEncoded, EndsDecide, OpenBodiesAreShort, OpenBodiesEndIncomplete, PayloadsCount, PayloadsFail, PayloadsJudge, PayloadsPass, PayloadsStayOpen, PayloadsStayWithin, PayloadsStopThere, RefusalsComeBehind, RefusalsStand, VerdictsAreOne, VerdictsExist, VerdictsStay, WholePayloadsAreBodies};

use crate::trailed::trailed_bodies_are_judged;
use s3_aws_chunked::readers_judge;

/// A law: an MD5 is found in its base64 and in no other text, so that a Content-MD5 that lacks its padding,
/// or has anything around it, is refused.
pub fn digests_are_encoded()
    ensures { DigestsAreEncoded }
{}

/// A law: a reader that stands after some bytes of a body says of it what these bytes say, whichever way they
/// were cut. Where it has refused, that is at the place of the verdict and with its code; where it has passed,
/// the body is accepted with the data that it hands out; else it is open, with the data so far. Where it has
/// refused nothing, it has taken the bytes up to Content-Length; and never more than have come.
pub fn payloads_are_judged()
    ensures verdict { PayloadsJudge }
    ensures count { PayloadsCount }
    ensures within { PayloadsStayWithin }
    ensures failed { PayloadsFail }
    ensures passed { PayloadsPass }
    ensures undecided { PayloadsStayOpen }
{
    readers_judge();
    trailed_bodies_are_judged();
}

/// A law: what is decided about a body before its input has ended stays decided, whatever follows; the same bytes
/// have no two verdicts that decide something else; none are without one; and once the input has ended, something is
/// decided.
pub fn verdicts_are_final()
    ensures stay { VerdictsStay }
    ensures one { VerdictsAreOne }
    ensures exist { VerdictsExist }
    ensures end { EndsDecide }
{
    s3_aws_chunked::verdicts_are_final();
    trailed_bodies_are_judged();
}

/// A law: a body that is open lacks bytes of Content-Length, and is incomplete where its input ends there.
pub fn open_bodies_are_short()
    ensures short { OpenBodiesAreShort }
    ensures incomplete { OpenBodiesEndIncomplete }
{
    s3_aws_chunked::open_bodies_are_short();
    trailed_bodies_are_judged();
}

/// A law: a refusal before the end of the input stands at its place: the bytes up to there have come, and they are
/// refused for themselves, there and with the same code. Where the body was open, that is behind the bytes that had
/// come, and the reader has taken the bytes up to there.
pub fn refusals_stand()
    ensures place { RefusalsStand }
    ensures behind { RefusalsComeBehind }
    ensures taken { PayloadsStopThere }
{
    readers_judge();
    s3_aws_chunked::refusals_stand();
    s3_aws_chunked::verdicts_are_final();
    trailed_bodies_are_judged();
}

/// A law: a body is accepted once its last byte has come, by its own bytes alone; and where it is sent as it is,
/// its payload is the body.
pub fn accepted_bodies_are_whole()
    ensures whole { AcceptedAreWhole }
    ensures payload { WholePayloadsAreBodies }
{
    s3_aws_chunked::verdicts_are_final();
    trailed_bodies_are_judged();
}
