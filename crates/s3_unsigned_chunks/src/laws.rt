//! What the clauses of the reader come to: laws, with nothing to run.

ghost use Rattle.s3_unsigned_chunks.specs.Body.{AcceptedAreBodies, BodiesAreAccepted, OpenHoldSoFar, RefusedBeginNoBody};
ghost use Rattle.s3_unsigned_chunks.specs.Laws.{ReadersCount, ReadersJudge, ReadersStayWithin};

/// A law: a reader that stands after some bytes of a body says of it what these bytes say. Where it has refused, that is at
/// the place and with the code of the refusal; where it is done, the body is accepted, its sinks got its data, and the value
/// of its trailer is that of the body; else it is open. Where it refused nothing, it has taken the bytes up to
/// Content-Length; and never more than have come.
pub fn readers_judge()
    ensures verdict { ReadersJudge }
    ensures count { ReadersCount }
    ensures within { ReadersStayWithin }
{}

/// A law: the bytes of Content-Length are a body with the terms of its head, with this data and this value of its trailer,
/// exactly where they are accepted with these; what is refused before the end of its input begins no such body.
pub fn bodies_are_accepted()
    ensures accepted { AcceptedAreBodies }
    ensures bodies { BodiesAreAccepted }
    ensures refused { RefusedBeginNoBody }
{}

/// A law: a body that is open has the form of a front of a body so far, and its data so far is that of the chunks that have
/// come, and what has come of the data of the chunk behind them.
pub fn open_bodies_hold_so_far()
    ensures { OpenHoldSoFar }
{}
