//! What connections write, as `docs/PROTOCOL.md` prints it: `parts.rt` tells the form of these texts. The entity tags are
//! those of Python's `hashlib`.

/// Answers at 2013-05-24T00:00:00Z, and refusals.
pub(crate) const REPLIES: &str = "\
    ~# What tells a client to send the body (RFC 9110, section 10.1.1).\
    ~continue=HTTP/1.1 100 Continue\r\n\
    \r\n\
    ~# The answers to puts of `hello`: one that is the first command, the same where it closes the connection, and the second.\
    ~stored=HTTP/1.1 200 OK\r\n\
    Date: Fri, 24 May 2013 00:00:00 GMT\r\n\
    x-amz-request-id: 0000000000000000\r\n\
    ETag: \"5d41402abc4b2a76b9719d911017c592\"\r\n\
    Content-Length: 0\r\n\
    \r\n\
    ~stored and closed=HTTP/1.1 200 OK\r\n\
    Date: Fri, 24 May 2013 00:00:00 GMT\r\n\
    Connection: close\r\n\
    x-amz-request-id: 0000000000000000\r\n\
    ETag: \"5d41402abc4b2a76b9719d911017c592\"\r\n\
    Content-Length: 0\r\n\
    \r\n\
    ~stored again=HTTP/1.1 200 OK\r\n\
    Date: Fri, 24 May 2013 00:00:00 GMT\r\n\
    x-amz-request-id: 0000000000000001\r\n\
    ETag: \"5d41402abc4b2a76b9719d911017c592\"\r\n\
    Content-Length: 0\r\n\
    \r\n\
    ~# The answer to a get of it that is the second command, and the same a second later.\
    ~shown=HTTP/1.1 200 OK\r\n\
    Date: Fri, 24 May 2013 00:00:00 GMT\r\n\
    x-amz-request-id: 0000000000000001\r\n\
    ETag: \"5d41402abc4b2a76b9719d911017c592\"\r\n\
    Last-Modified: Fri, 24 May 2013 00:00:00 GMT\r\n\
    Accept-Ranges: bytes\r\n\
    Content-Type: binary/octet-stream\r\n\
    Content-Length: 5\r\n\
    \r\n\
    hello\
    ~shown at 1=HTTP/1.1 200 OK\r\n\
    Date: Fri, 24 May 2013 00:00:01 GMT\r\n\
    x-amz-request-id: 0000000000000001\r\n\
    ETag: \"5d41402abc4b2a76b9719d911017c592\"\r\n\
    Last-Modified: Fri, 24 May 2013 00:00:00 GMT\r\n\
    Accept-Ranges: bytes\r\n\
    Content-Type: binary/octet-stream\r\n\
    Content-Length: 5\r\n\
    \r\n\
    hello\
    ~# The same to a request for its head alone (RFC 9110, section 9.3.2).\
    ~shown to HEAD=HTTP/1.1 200 OK\r\n\
    Date: Fri, 24 May 2013 00:00:00 GMT\r\n\
    x-amz-request-id: 0000000000000001\r\n\
    ETag: \"5d41402abc4b2a76b9719d911017c592\"\r\n\
    Last-Modified: Fri, 24 May 2013 00:00:00 GMT\r\n\
    Accept-Ranges: bytes\r\n\
    Content-Type: binary/octet-stream\r\n\
    Content-Length: 5\r\n\
    \r\n\
    ~# The same as to the get, of an object with a media type, and of one with metadata too.\
    ~shown as text=HTTP/1.1 200 OK\r\n\
    Date: Fri, 24 May 2013 00:00:00 GMT\r\n\
    x-amz-request-id: 0000000000000001\r\n\
    ETag: \"5d41402abc4b2a76b9719d911017c592\"\r\n\
    Last-Modified: Fri, 24 May 2013 00:00:00 GMT\r\n\
    Accept-Ranges: bytes\r\n\
    Content-Type: text/plain\r\n\
    Content-Length: 5\r\n\
    \r\n\
    hello\
    ~shown with its description=HTTP/1.1 200 OK\r\n\
    Date: Fri, 24 May 2013 00:00:00 GMT\r\n\
    x-amz-request-id: 0000000000000001\r\n\
    ETag: \"5d41402abc4b2a76b9719d911017c592\"\r\n\
    Last-Modified: Fri, 24 May 2013 00:00:00 GMT\r\n\
    Accept-Ranges: bytes\r\n\
    Content-Type: text/plain\r\n\
    x-amz-meta-a: 1\r\n\
    x-amz-meta-b: 2,3\r\n\
    Content-Length: 5\r\n\
    \r\n\
    hello\
    ~# The answer to a put of nothing.\
    ~stored nothing=HTTP/1.1 200 OK\r\n\
    Date: Fri, 24 May 2013 00:00:00 GMT\r\n\
    x-amz-request-id: 0000000000000000\r\n\
    ETag: \"d41d8cd98f00b204e9800998ecf8427e\"\r\n\
    Content-Length: 0\r\n\
    \r\n\
    ~# The answers to the put of AWS's example, and to a get of it without its letters; and the same of 2 MiB.\
    ~stored letters=HTTP/1.1 200 OK\r\n\
    Date: Fri, 24 May 2013 00:00:00 GMT\r\n\
    x-amz-request-id: 0000000000000000\r\n\
    ETag: \"da0d2e17cd5a8f14633c6b4aebad7e02\"\r\n\
    Content-Length: 0\r\n\
    \r\n\
    ~shown letters=HTTP/1.1 200 OK\r\n\
    Date: Fri, 24 May 2013 00:00:00 GMT\r\n\
    x-amz-request-id: 0000000000000001\r\n\
    ETag: \"da0d2e17cd5a8f14633c6b4aebad7e02\"\r\n\
    Last-Modified: Fri, 24 May 2013 00:00:00 GMT\r\n\
    Accept-Ranges: bytes\r\n\
    Content-Type: binary/octet-stream\r\n\
    Content-Length: 66560\r\n\
    \r\n\
    ~stored 2 MiB=HTTP/1.1 200 OK\r\n\
    Date: Fri, 24 May 2013 00:00:00 GMT\r\n\
    x-amz-request-id: 0000000000000000\r\n\
    ETag: \"22b5d52b7d06e1b2b44f0fe3162e90e2\"\r\n\
    Content-Length: 0\r\n\
    \r\n\
    ~shown 2 MiB=HTTP/1.1 200 OK\r\n\
    Date: Fri, 24 May 2013 00:00:00 GMT\r\n\
    x-amz-request-id: 0000000000000001\r\n\
    ETag: \"22b5d52b7d06e1b2b44f0fe3162e90e2\"\r\n\
    Last-Modified: Fri, 24 May 2013 00:00:00 GMT\r\n\
    Accept-Ranges: bytes\r\n\
    Content-Type: binary/octet-stream\r\n\
    Content-Length: 2097152\r\n\
    \r\n\
    ~# What stands for an answer that there was no memory for.\
    ~no memory=HTTP/1.1 500 Internal Server Error\r\n\
    Connection: close\r\n\
    Content-Length: 0\r\n\
    x-amz-request-id: 0000000000000000\r\n\
    \r\n\
    ~# Refusals at that moment, each of which ends its connection.\
    ~AccessDenied=HTTP/1.1 403 Forbidden\r\n\
    Date: Fri, 24 May 2013 00:00:00 GMT\r\n\
    Connection: close\r\n\
    x-amz-request-id: 0000000000000000\r\n\
    Content-Type: application/json\r\n\
    Content-Length: 53\r\n\
    \r\n\
    {\"Code\":\"AccessDenied\",\"Message\":\"Access is denied.\"}\
    ~SignatureDoesNotMatch=HTTP/1.1 403 Forbidden\r\n\
    Date: Fri, 24 May 2013 00:00:00 GMT\r\n\
    Connection: close\r\n\
    x-amz-request-id: 0000000000000000\r\n\
    Content-Type: application/json\r\n\
    Content-Length: 74\r\n\
    \r\n\
    {\"Code\":\"SignatureDoesNotMatch\",\"Message\":\"The signature does not match.\"}\
    ~MissingContentLength=HTTP/1.1 411 Length Required\r\n\
    Date: Fri, 24 May 2013 00:00:00 GMT\r\n\
    Connection: close\r\n\
    x-amz-request-id: 0000000000000000\r\n\
    Content-Type: application/json\r\n\
    Content-Length: 71\r\n\
    \r\n\
    {\"Code\":\"MissingContentLength\",\"Message\":\"Content-Length is required.\"}\
    ~MalformedHead=HTTP/1.1 400 Bad Request\r\n\
    Date: Fri, 24 May 2013 00:00:00 GMT\r\n\
    Connection: close\r\n\
    x-amz-request-id: 0000000000000000\r\n\
    Content-Type: application/json\r\n\
    Content-Length: 59\r\n\
    \r\n\
    {\"Code\":\"MalformedHead\",\"Message\":\"The head is malformed.\"}\
    ~HeadTooLarge=HTTP/1.1 400 Bad Request\r\n\
    Date: Fri, 24 May 2013 00:00:00 GMT\r\n\
    Connection: close\r\n\
    x-amz-request-id: 0000000000000000\r\n\
    Content-Type: application/json\r\n\
    Content-Length: 58\r\n\
    \r\n\
    {\"Code\":\"HeadTooLarge\",\"Message\":\"The head is too large.\"}\
    ~IncompleteBody=HTTP/1.1 400 Bad Request\r\n\
    Date: Fri, 24 May 2013 00:00:00 GMT\r\n\
    Connection: close\r\n\
    x-amz-request-id: 0000000000000000\r\n\
    Content-Type: application/json\r\n\
    Content-Length: 61\r\n\
    \r\n\
    {\"Code\":\"IncompleteBody\",\"Message\":\"The body is incomplete.\"}\
    ~XAmzContentSHA256Mismatch=HTTP/1.1 400 Bad Request\r\n\
    Date: Fri, 24 May 2013 00:00:00 GMT\r\n\
    Connection: close\r\n\
    x-amz-request-id: 0000000000000000\r\n\
    Content-Type: application/json\r\n\
    Content-Length: 78\r\n\
    \r\n\
    {\"Code\":\"XAmzContentSHA256Mismatch\",\"Message\":\"The body hash does not match.\"}\
    ~# That of a request for a head alone, without its document.\
    ~NotImplemented to HEAD=HTTP/1.1 501 Not Implemented\r\n\
    Date: Fri, 24 May 2013 00:00:00 GMT\r\n\
    Connection: close\r\n\
    x-amz-request-id: 0000000000000000\r\n\
    Content-Type: application/json\r\n\
    Content-Length: 62\r\n\
    \r\n\
    ~# Some seconds later.\
    ~MalformedHead at 2=HTTP/1.1 400 Bad Request\r\n\
    Date: Fri, 24 May 2013 00:00:02 GMT\r\n\
    Connection: close\r\n\
    x-amz-request-id: 0000000000000000\r\n\
    Content-Type: application/json\r\n\
    Content-Length: 59\r\n\
    \r\n\
    {\"Code\":\"MalformedHead\",\"Message\":\"The head is malformed.\"}\
    ~HeadTooLarge at 1=HTTP/1.1 400 Bad Request\r\n\
    Date: Fri, 24 May 2013 00:00:01 GMT\r\n\
    Connection: close\r\n\
    x-amz-request-id: 0000000000000000\r\n\
    Content-Type: application/json\r\n\
    Content-Length: 58\r\n\
    \r\n\
    {\"Code\":\"HeadTooLarge\",\"Message\":\"The head is too large.\"}\
    ~SignatureDoesNotMatch at 1=HTTP/1.1 403 Forbidden\r\n\
    Date: Fri, 24 May 2013 00:00:01 GMT\r\n\
    Connection: close\r\n\
    x-amz-request-id: 0000000000000000\r\n\
    Content-Type: application/json\r\n\
    Content-Length: 74\r\n\
    \r\n\
    {\"Code\":\"SignatureDoesNotMatch\",\"Message\":\"The signature does not match.\"}\
    ~IncompleteBody at 1=HTTP/1.1 400 Bad Request\r\n\
    Date: Fri, 24 May 2013 00:00:01 GMT\r\n\
    Connection: close\r\n\
    x-amz-request-id: 0000000000000000\r\n\
    Content-Type: application/json\r\n\
    Content-Length: 61\r\n\
    \r\n\
    {\"Code\":\"IncompleteBody\",\"Message\":\"The body is incomplete.\"}";
