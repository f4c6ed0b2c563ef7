//! What the clauses of the decoder come to: laws, with nothing to run.

ghost use Rattle.s3_transfer_chunks.specs.Body.{AcceptedAreBodies, BodiesAreAccepted, LargeBodiesAreRefused, MisspelledBeginNoBody, OpenHoldSoFar, RefusalsHaveReasons, TooLargeAreSizes, TooLargeBeginLargeBodies};
ghost use Rattle.s3_transfer_chunks.specs.Laws.{DecodersJudge, DecodersStayWithin};

/// A law: a decoder that stands after some bytes of a body says of it what these bytes say, as long as fewer than 2^64 were
/// taken. Where it has refused, that is at the place and with the code of the refusal; where it is done, the body is over at
/// the bytes that it took, and its sinks got its data; else it is open. It has never taken more bytes than have come.
pub fn decoders_judge()
    ensures verdict { DecodersJudge }
    ensures within { DecodersStayWithin }
{}

/// A law: a text begins with a body in the chunked transfer coding whose data is within the limit exactly where it is
/// accepted, which is where that body ends, and with its data, whatever stands behind it. A body with more data than the
/// limit is refused for that.
pub fn bodies_are_accepted()
    ensures accepted { AcceptedAreBodies }
    ensures bodies { BodiesAreAccepted }
    ensures large { LargeBodiesAreRefused }
{}

/// A law: what is refused as misspelled begins no body in the coding, of whatever size. What is refused as too large is
/// refused at the byte behind the digits of the size that brings the data over the limit, and begins only larger bodies.
/// Before the end of the input there is no other refusal.
pub fn refused_begin_no_body()
    ensures misspelled { MisspelledBeginNoBody }
    ensures sizes { TooLargeAreSizes }
    ensures large { TooLargeBeginLargeBodies }
    ensures reasons { RefusalsHaveReasons }
{}

/// A law: a text that is open begins a body in the coding, and its data so far is that of the chunks that have come, and
/// what has come of the data of the chunk behind them.
pub fn open_bodies_hold_so_far()
    ensures { OpenHoldSoFar }
{}
