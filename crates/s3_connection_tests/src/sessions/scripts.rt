//! Connections step by step: `steps.rt` tells the form of these texts.

/// Puts whose clients are told to send the body.
pub(crate) const INVITED: &str = "\
a put as clients of S3 write it
feed client put, client hash, CR LF | body | continue
feed hello | turn | nothing
answer | head | stored
timed 1 | head | nothing

a head that ends with its piece's last byte
feed put, length 5, expect, hash, CR | head | nothing
feed LF | body | continue
feed hell | body | nothing
feed o | turn | nothing
answer | head | stored
timed 1 | head | nothing

a head whose body came with it
feed client put, client hash, CR LF, hello + get | turn | continue
answer | head | stored
timed 1 | head | nothing

in capitals, with signed chunks
feed put, length 263, expect in capitals, chunks, CR LF | body | continue
feed hel, lo, last | turn | nothing
answer | head | stored
timed 1 | head | nothing

a body that is wrong then
feed client put, client hash, CR LF | body | continue
feed hellp + get | closed | XAmzContentSHA256Mismatch
timed 1 | closed | nothing

the second message of a connection
feed put, length 5, hash, CR LF, hello | turn | nothing
answer | head | stored
feed client put, client hash, CR LF | body | continue
feed hello | turn | nothing
answer | head | stored again
timed 2 | head | nothing";

/// Messages whose clients are told nothing.
pub(crate) const UNINVITED: &str = "\
a header that is not signed
feed client put, meta, client hash, CR LF + hello | closed | AccessDenied
timed 1 | closed | nothing

another signature
feed put, length 5, expect, hash wrongly signed, CR LF + hello | closed | SignatureDoesNotMatch
timed 1 | closed | nothing

no length
feed put, expect, hash, CR LF + hello | closed | MissingContentLength
timed 1 | closed | nothing

HTTP/1.0
feed put 1.0, length 5, expect, hash, CR LF | body | nothing
feed hello | turn | nothing
answer | closed | stored and closed
timed 1 | closed | nothing

an empty body
feed put, length 0, expect, hash of nothing, CR LF + get | turn | nothing
answer | head | stored nothing
timed 1 | head | nothing

a body for which nobody waits
feed put, length 5, hash, CR LF | body | nothing
feed hello | turn | nothing
answer | head | stored
timed 1 | head | nothing";

/// Messages behind one another.
pub(crate) const MESSAGES: &str = "\
a piece with the end of a message and the next one
feed put, length 5, hash, CR LF, hell | body | nothing
feed o + get | turn | nothing
answer | head | stored
feed get + malformed | turn | nothing
answer | head | shown
timed 2 | head | nothing

a put with a media type and metadata, and its get
feed put, length 5, hash and description, CR LF, hello | turn | nothing
answer | head | stored
feed get | turn | nothing
answer | head | shown with its description
timed 2 | head | nothing

a put, and a request for its head alone
feed put, length 5, hash, CR LF, hello | turn | nothing
answer | head | stored
feed head + get | turn | nothing
answer | head | shown to HEAD
timed 2 | head | nothing

a piece with a message and the beginning of the next one
feed put, length 5, hash, CR LF, hello + CR LF, get hello | turn | nothing
answer | head | stored
feed CR LF, get hello | head | nothing
feed length 5, CR LF, hell | body | nothing
feed o + CR LF | turn | nothing
answer | head | shown
feed CR LF, CR | head | nothing
end | ended | nothing
timed 2 | ended | nothing

signed chunks and the next message
feed put, length 263, chunks, CR LF, hel, lo, last + get | turn | nothing
answer | head | stored
feed get | turn | nothing
answer | head | shown
timed 2 | head | nothing

a message that closes
feed put, length 5, close, hash, CR LF, hello + get | turn | nothing
answer | closed | stored and closed
feed nothing + get | closed | nothing
end | ended | nothing
timed 1 | ended | nothing";

/// Bytes that end.
pub(crate) const ENDS: &str = "\
no bytes
end | ended | nothing
timed 0 | ended | nothing

pairs before a head
feed CR LF, CR LF | head | nothing
end | ended | nothing
timed 0 | ended | nothing

half a pair
feed CR LF, CR | head | nothing
end | ended | nothing
timed 0 | ended | nothing

within a head
feed put, length 5 | head | nothing
end | ended | nothing
timed 0 | ended | nothing

before a head's last byte
feed put, length 5, hash, CR | head | nothing
end | ended | nothing
timed 0 | ended | nothing

before a body
feed put, length 5, hash, CR LF | body | nothing
end | ended | IncompleteBody
end | ended | nothing
timed 1 | ended | nothing

within a body
feed put, length 5, hash, CR LF, hell | body | nothing
end | ended | IncompleteBody
end | ended | nothing
timed 1 | ended | nothing

within the first line of a chunk
feed put, length 263, chunks, CR LF, hel .. | body | nothing
end | ended | IncompleteBody
end | ended | nothing
timed 1 | ended | nothing

between chunks
feed put, length 263, chunks, CR LF, hel, lo | body | nothing
end | ended | IncompleteBody
end | ended | nothing
timed 1 | ended | nothing

while a command waits
feed put, length 5, hash, CR LF, hello | turn | nothing
end | turn | nothing
answer | ended | stored
end | ended | nothing
timed 1 | ended | nothing

behind a message
feed put, length 5, hash, CR LF, hello | turn | nothing
answer | head | stored
end | ended | nothing
end | ended | nothing
timed 1 | ended | nothing";

/// Connections that close with a refusal.
pub(crate) const REFUSED: &str = "\
a malformed head
feed malformed + get | closed | MalformedHead
feed nothing + get | closed | nothing
end | ended | nothing
timed 1 | ended | nothing

16,384 bytes without the end of a head
feed a*16383, a + a, get | closed | HeadTooLarge
feed nothing + get | closed | nothing
end | ended | nothing
timed 1 | ended | nothing

the same behind a pair, of which the last comes alone
feed CR LF, a*16383 | head | nothing
feed a + CR LF, CR LF, get | closed | HeadTooLarge
feed nothing + get | closed | nothing
timed 1 | closed | nothing

a body with another hash
feed put, length 5, hash, CR LF, hellp + get | closed | XAmzContentSHA256Mismatch
feed nothing + get | closed | nothing
end | ended | nothing
timed 1 | ended | nothing

a chunk with another signature
feed put, length 263, chunks, CR LF, hel | body | nothing
feed lo wrongly signed + last, get | closed | SignatureDoesNotMatch
feed nothing + get | closed | nothing
end | ended | nothing
timed 1 | ended | nothing

a request for the head of a part
feed head of a part + get | closed | NotImplemented to HEAD
feed nothing + get | closed | nothing
timed 1 | closed | nothing

behind a message that was answered
feed put, length 5, hash, CR LF, hello | turn | nothing
answer | head | stored
feed malformed + get | closed | MalformedHead
feed nothing + get | closed | nothing
timed 2 | closed | nothing";

/// Memory runs out for a turn.
pub(crate) const STARVED: &str = "\
no memory for a turn
feed put, length 5, hash, CR LF, hello | turn | nothing
starve | closed | no memory
feed nothing + get | closed | nothing
end | ended | nothing
timed 1 | ended | nothing

no memory for the second turn
feed put, length 5, hash, CR LF, hello | turn | nothing
answer | head | stored
feed get + get | turn | nothing
starve | closed | no memory
feed nothing + get | closed | nothing
timed 2 | closed | nothing

no memory for a turn behind the end of the bytes
feed put, length 5, hash, CR LF, hello | turn | nothing
end | turn | nothing
starve | ended | no memory
end | ended | nothing
timed 1 | ended | nothing";

/// Each message has a moment of its own, that at which its whole head has come, here a second after that of the one before.
pub(crate) const TIMED: &str = "\
a put, a get and a malformed head
feed put, length 5, hash, CR LF, hello | turn | nothing
answer | head | stored
feed get | turn | nothing
answer | head | shown at 1
feed malformed + get | closed | MalformedHead at 2
feed nothing + get | closed | nothing
timed 3 | closed | nothing

a head and its body in pieces
feed CR LF | head | nothing
feed put, length 5 | head | nothing
feed hash, CR LF | body | nothing
feed hell | body | nothing
feed o | turn | nothing
answer | head | stored
feed CR LF, put | head | nothing
end | ended | nothing
timed 1 | ended | nothing

a head that is too large
feed put, length 5, hash, CR LF, hello | turn | nothing
answer | head | stored
feed a*16383, a + a | closed | HeadTooLarge at 1
timed 2 | closed | nothing

another signature, a second later
feed put, length 5, hash, CR LF, hello | turn | nothing
answer | head | stored
feed put, length 5, hash wrongly signed, CR LF + hello | closed | SignatureDoesNotMatch at 1
timed 2 | closed | nothing

a body that is cut short, a second later
feed put, length 5, hash, CR LF, hello | turn | nothing
answer | head | stored
feed put, length 5, hash, CR LF, hell | body | nothing
end | ended | IncompleteBody at 1
timed 2 | ended | nothing

one moment for a turn without memory
feed put, length 5, hash, CR LF, hello | turn | nothing
starve | closed | no memory
timed 1 | closed | nothing";

/// Connections that keep what comes while a command waits, with one moment.
pub(crate) const KEPT: &str = "\
pieces and the end while a command waits
feed put, length 5, hash, CR LF | goes on | nothing
feed hello, CR LF | waits | nothing
feed nothing | waits | nothing
feed CR LF | waits | nothing
feed get, get | waits | nothing
end | waits | nothing
feed get | waits | nothing
turn | waits | stored
turn | waits | shown
end | waits | nothing

a turn without memory
feed put, length 5, hash, CR LF, hello, get | waits | nothing
starve | goes on | no memory
feed get | goes on | nothing
end | goes on | nothing";

/// One whose messages have two moments, a second after one another.
pub(crate) const KEPT_TIMED: &str = "\
moments that run out
feed put, length 5, hash, CR LF, hello, get | waits | nothing
turn | waits | stored
turn | goes on | shown at 1
feed put, length 5, hash wrongly signed, CR LF | goes on | SignatureDoesNotMatch at 1";
