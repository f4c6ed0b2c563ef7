//! What connections are answered, as `docs/PROTOCOL.md` prints it.

/// The answer to a get of `bytes`, of which there are `size`, under a tag: the command of this number. In front of it stands what
/// was answered before.
macro_rules! got {
    ($before:literal, $number:literal, $tag:literal, $size:literal, $bytes:literal) => {
        concat!(
            $before,
            "HTTP/1.1 200 OK\r\n",
            "Date: Fri, 24 May 2013 00:00:00 GMT\r\n",
            "x-amz-request-id: 000000000000000",
            $number,
            "\r\n",
            "ETag: \"",
            $tag,
            "\"\r\n",
            "Last-Modified: Fri, 24 May 2013 00:00:00 GMT\r\n",
            "Accept-Ranges: bytes\r\n",
            "Content-Type: binary/octet-stream\r\n",
            "Content-Length: ",
            $size,
            "\r\n\r\n",
            $bytes
        )
    };
}

pub(crate) use got;
