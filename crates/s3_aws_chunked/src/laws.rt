//! What the clauses of the reader and of the writer come to: laws, with nothing to run.

ghost use Rattle.s3_aws_chunked.specs.Laws.{BodiesAreAccepted, ReadersCount, ReadersJudge, ReadersStayWithin, WritingsAreAccepted, WritingsAreOne};

/// A law: a reader that stands after some bytes of a body says of it what these bytes say. Where it has
/// refused, that is at the place and with the code of the first line of the table that applies; where it is
/// done, the body is accepted, and its sinks got its data; else it is open, and they got the data so far.
/// Where it refused nothing, it has taken the bytes up to Content-Length; and never more than have come. There is
/// nothing to run.
pub fn readers_judge()
    ensures verdict { ReadersJudge }
    ensures count { ReadersCount }
    ensures within { ReadersStayWithin }
{}

/// A law: a body of the form whose signatures are the chain, and whose data has the decoded length, is accepted
/// with that data; what [`write_chunks`](crate::write_chunks) writes is such a body, and no other text is what it
/// writes. There is nothing to run.
pub fn writings_are_accepted()
    ensures bodies { BodiesAreAccepted }
    ensures writings { WritingsAreAccepted }
    ensures one { WritingsAreOne }
{}
