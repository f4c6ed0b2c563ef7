//! What is known of all replies: laws, with nothing to run.

ghost use Rattle.s3_replies.specs.Laws.{RepliesAreUnique, RefusalsAreUnique, SuccessIsShown, ObjectsAreCarried, PartsAreCarried, RegionsAreTold, TagsAreUnbroken, HeadsTellOfReplies};

/// A law: an answer of the machine has one printed reply to a message.
pub fn replies_are_unique()
    ensures { RepliesAreUnique }
{}

/// A law: a code has one printed refusal of a message, in a dialect.
pub fn refusals_are_unique()
    ensures { RefusalsAreUnique }
{}

/// A law: a client sees in the status of a reply whether its command succeeded; an object that it asked for, or the part of it, is
/// what stands behind the head, which tells its size, and of a part which one it is; the region of a bucket that is there is told in
/// the dialect of S3; and the reply to a HEAD is the same without the bytes.
pub fn replies_show_what_came()
    ensures success { SuccessIsShown }
    ensures objects { ObjectsAreCarried }
    ensures parts { PartsAreCarried }
    ensures regions { RegionsAreTold }
    ensures heads { HeadsTellOfReplies }
    ensures tags { TagsAreUnbroken }
{}
