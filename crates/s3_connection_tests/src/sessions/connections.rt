//! Whole connections, of three columns with a bar between two: a name, the parts that are sent, and those that are
//! answered; and messages, with the parts of their head and of their body in place of these. Empty lines stand between two.

/// AWS's example ("Signature calculations for the authorization header: transferring payload in multiple chunks"), what
/// is made of it, and bodies as they are and in signed chunks.
pub(crate) const CONNECTIONS: &str = "\
as it is published | example, 10000, a*65536, CR LF, 400, a*1024, CR LF, example last, get example | stored letters, shown letters, a*66560

another last letter in the second chunk | example, 10000, a*65536, CR LF, 400, a*1023, b, CR LF, example last, get example | SignatureDoesNotMatch

without the last chunk | example, 10000, a*65536, CR LF, 400, a*1024, CR LF | IncompleteBody

cut one letter earlier | example, 0ffff, a*65535, CR LF, 401, a*1025, CR LF, example last, get example | SignatureDoesNotMatch

a put and a get | put, length 5, hash, CR LF, hello, get | stored, shown

a put that waits to be told to send its body | CR LF, client put, client hash, CR LF, hello, get | continue, stored, shown as text

a put in signed chunks and a get | put, length 263, chunks, CR LF, hel, lo, last, get | stored, shown

a put that is refused at the last byte of a chunk | put, length 263, expect, chunks, CR LF, hel, lo wrongly signed, last, get | continue, SignatureDoesNotMatch";

/// Connections that are too long to be cut in many ways.
pub(crate) const LONG: &str = "\
a body of 2 MiB | put of 2 MiB, 2 MiB, library get | stored 2 MiB, shown 2 MiB, 2 MiB

1,100 messages | library put, library get*1099 | stored, shown each*1099";

/// Messages.
pub(crate) const CUT_SHORT: &str = "\
a body of five bytes | put, length 5, hash, CR LF | hello

signed chunks | CR LF, put, length 263, chunks, CR LF | hel, lo, last

an empty body | put, length 0, hash of nothing, CR LF | nothing

no body | get | nothing";
