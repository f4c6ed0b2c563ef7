//! What is known of every body with a trailer: laws, with nothing to run.

ghost use Rattle.s3_aws_chunked.specs.TrailedBody.{AcceptedAreBodies, BodiesAreAccepted, RefusedBeginNoBody};
ghost use Rattle.s3_aws_chunked.specs.TrailedLaws.{EndsDecide, OpenBodiesAreShort, OpenBodiesEndIncomplete, ReadersCount, ReadersJudge, ReadersStayWithin, RefusalsStand, RefusalsStayWithin, VerdictsStay};

/// A law: a reader that stands after some bytes of a body says of it what these bytes say. Where it has refused, that is at
/// the place and with the code of the refusal; where it is done, the body is accepted, its sinks got its data, and the value
/// of its trailer is that of the body; else it is open. Where it refused nothing, it has taken the bytes up to
/// Content-Length; and never more than have come.
pub fn trailed_readers_judge()
    ensures verdict { ReadersJudge }
    ensures count { ReadersCount }
    ensures within { ReadersStayWithin }
{}

/// A law: what is decided about a body before its input has ended stays decided, whatever follows, so that how it is cut
/// into pieces decides nothing; once the input has ended, something is decided; a body that is open lacks bytes of
/// Content-Length, and is incomplete where its input ends there.
pub fn trailed_verdicts_are_final()
    ensures stay { VerdictsStay }
    ensures end { EndsDecide }
    ensures short { OpenBodiesAreShort }
    ensures incomplete { OpenBodiesEndIncomplete }
{}

/// A law: a refusal before the end of the input stands at its place: the bytes up to there have come, and they are refused
/// for themselves, there and with the same code. One that comes with the end is at no byte behind those that have come.
pub fn trailed_refusals_stand()
    ensures stand { RefusalsStand }
    ensures within { RefusalsStayWithin }
{}

/// A law: the bytes of Content-Length are a body with the terms of its head, with this data and this value of its trailer,
/// exactly where they are accepted with these; what is refused before the end of its input begins no such body.
pub fn trailed_bodies_are_accepted()
    ensures accepted { AcceptedAreBodies }
    ensures bodies { BodiesAreAccepted }
    ensures refused { RefusedBeginNoBody }
{}
