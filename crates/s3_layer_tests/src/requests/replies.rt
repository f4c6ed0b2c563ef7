//! The exact bytes of printed replies, to requests that a store applies one after the other.
use crate::requests::store::{Stored, answer_to, opened};
use s3_bodies::Body;
use s3_calendar::Moment;
use s3_machine::{Answer, Outcome};
use s3_names::VersionId;
use s3_replies::{
    Context, INTERNAL_ERROR, internal_error_reply, print_reply, refusal, refusals_are_unique,
    replies_are_unique, replies_show_what_came,
};
use s3_terms::{Code, Dialect};
use std::alloc::Global;
use std::mem::drop;

/// 2013-05-24T00:00:00Z.
const MOMENT: u64 = 1_369_353_600;

const DONE_REPLY: &str = "HTTP/1.1 200 OK\r\n\
    Date: Fri, 24 May 2013 00:00:00 GMT\r\n\
    x-amz-request-id: 0000000000000001\r\n\
    Content-Length: 0\r\n\
    \r\n";

const PUT_VERSION_REPLY: &str = "HTTP/1.1 200 OK\r\n\
    Date: Fri, 24 May 2013 00:00:00 GMT\r\n\
    x-amz-request-id: 0000000000000001\r\n\
    x-amz-version-id: v0000000000000001\r\n\
    ETag: \"5d41402abc4b2a76b9719d911017c592\"\r\n\
    Content-Length: 0\r\n\
    \r\n";

const ENABLED_REPLY: &str = "HTTP/1.1 200 OK\r\n\
    Date: Fri, 24 May 2013 00:00:00 GMT\r\n\
    x-amz-request-id: 0000000000000001\r\n\
    Content-Type: application/json\r\n\
    Content-Length: 20\r\n\
    \r\n\
    {\"Status\":\"Enabled\"}";

const DELETED_VERSION_REPLY: &str = "HTTP/1.1 204 No Content\r\n\
    Date: Fri, 24 May 2013 00:00:00 GMT\r\n\
    x-amz-request-id: 0000000000000001\r\n\
    x-amz-version-id: v00000000000000ff\r\n\
    \r\n";

const GET_REPLY: &str = "HTTP/1.1 200 OK\r\n\
    Date: Fri, 24 May 2013 00:00:00 GMT\r\n\
    x-amz-request-id: 0000000000000001\r\n\
    x-amz-version-id: v0000000000000000\r\n\
    ETag: \"5d41402abc4b2a76b9719d911017c592\"\r\n\
    Last-Modified: Fri, 24 May 2013 00:00:00 GMT\r\n\
    Accept-Ranges: bytes\r\n\
    Content-Type: text/plain\r\n\
    x-amz-meta-colour: red\r\n\
    Content-Length: 5\r\n\
    \r\n\
    hello";

const HEAD_REPLY: &str = "HTTP/1.1 200 OK\r\n\
    Date: Fri, 24 May 2013 00:00:00 GMT\r\n\
    x-amz-request-id: 0000000000000001\r\n\
    x-amz-version-id: v0000000000000000\r\n\
    ETag: \"5d41402abc4b2a76b9719d911017c592\"\r\n\
    Last-Modified: Fri, 24 May 2013 00:00:00 GMT\r\n\
    Accept-Ranges: bytes\r\n\
    Content-Type: text/plain\r\n\
    x-amz-meta-colour: red\r\n\
    Content-Length: 5\r\n\
    \r\n";

const SUSPENDED_REPLY: &str = "HTTP/1.1 200 OK\r\n\
    Date: Fri, 24 May 2013 00:00:00 GMT\r\n\
    x-amz-request-id: 0000000000000001\r\n\
    Content-Type: application/json\r\n\
    Content-Length: 22\r\n\
    \r\n\
    {\"Status\":\"Suspended\"}";

const MARKER_REPLY: &str = "HTTP/1.1 204 No Content\r\n\
    Date: Fri, 24 May 2013 00:00:00 GMT\r\n\
    x-amz-request-id: 0000000000000001\r\n\
    x-amz-version-id: null\r\n\
    x-amz-delete-marker: true\r\n\
    \r\n";

const UNVERSIONED_REPLY: &str = "HTTP/1.1 200 OK\r\n\
    Date: Fri, 24 May 2013 00:00:00 GMT\r\n\
    x-amz-request-id: 0000000000000001\r\n\
    Content-Type: application/json\r\n\
    Content-Length: 2\r\n\
    \r\n\
    {}";

const PUT_REPLY: &str = "HTTP/1.1 200 OK\r\n\
    Date: Fri, 24 May 2013 00:00:00 GMT\r\n\
    x-amz-request-id: 0000000000000001\r\n\
    ETag: \"5d41402abc4b2a76b9719d911017c592\"\r\n\
    Content-Length: 0\r\n\
    \r\n";

const DELETED_REPLY: &str = "HTTP/1.1 204 No Content\r\n\
    Date: Fri, 24 May 2013 00:00:00 GMT\r\n\
    x-amz-request-id: 0000000000000001\r\n\
    \r\n";

const DROPPED_REPLY: &str = "HTTP/1.1 204 No Content\r\n\
    Date: Fri, 24 May 2013 00:00:00 GMT\r\n\
    x-amz-request-id: 0000000000000001\r\n\
    \r\n";

const MADE_REPLY: &str = "HTTP/1.1 200 OK\r\n\
    Date: Fri, 24 May 2013 00:00:00 GMT\r\n\
    x-amz-request-id: 0000000000000001\r\n\
    Location: /pail\r\n\
    Content-Length: 0\r\n\
    \r\n";

const LIST_REPLY: &str = "HTTP/1.1 200 OK\r\n\
    Date: Fri, 24 May 2013 00:00:00 GMT\r\n\
    x-amz-request-id: 0000000000000001\r\n\
    Content-Type: application/json\r\n\
    Content-Length: 71\r\n\
    \r\n\
    {\"Buckets\":[{\"CreationDate\":\"2013-05-24T00:00:00.000Z\",\"Name\":\"pail\"}]}";

const LIST_HEAD_REPLY: &str = "HTTP/1.1 200 OK\r\n\
    Date: Fri, 24 May 2013 00:00:00 GMT\r\n\
    x-amz-request-id: 0000000000000001\r\n\
    Content-Type: application/json\r\n\
    Content-Length: 71\r\n\
    \r\n";

// A key that is not there.
const MISSING_REPLY: &str = "HTTP/1.1 404 Not Found\r\n\
    Date: Fri, 24 May 2013 00:00:00 GMT\r\n\
    x-amz-request-id: 00000000000000ff\r\n\
    Content-Type: application/json\r\n\
    Content-Length: 56\r\n\
    \r\n\
    {\"Code\":\"NoSuchKey\",\"Message\":\"The key does not exist.\"}";

// One with a delete marker.
const MISSING_MARKER_REPLY: &str = "HTTP/1.1 404 Not Found\r\n\
    Date: Fri, 24 May 2013 00:00:00 GMT\r\n\
    x-amz-request-id: 00000000000000ff\r\n\
    x-amz-delete-marker: true\r\n\
    Content-Type: application/json\r\n\
    Content-Length: 56\r\n\
    \r\n\
    {\"Code\":\"NoSuchKey\",\"Message\":\"The key does not exist.\"}";

// The first in XML.
const MISSING_IN_XML_REPLY: &str = "HTTP/1.1 404 Not Found\r\n\
    Date: Fri, 24 May 2013 00:00:00 GMT\r\n\
    x-amz-request-id: 00000000000000ff\r\n\
    Content-Type: application/xml\r\n\
    Content-Length: 157\r\n\
    \r\n\
    <?xml version=\"1.0\" encoding=\"UTF-8\"?>\n\
    <Error><Code>NoSuchKey</Code><Message>The key does not exist.</Message>\
    <RequestId>00000000000000ff</RequestId></Error>";

// A range that has no byte of what is read.
const OUTSIDE_REPLY: &str = "HTTP/1.1 416 Range Not Satisfiable\r\n\
    Date: Fri, 24 May 2013 00:00:00 GMT\r\n\
    x-amz-request-id: 00000000000000ff\r\n\
    Content-Type: application/json\r\n\
    Content-Length: 65\r\n\
    \r\n\
    {\"Code\":\"InvalidRange\",\"Message\":\"The range is not satisfiable.\"}";

// The same in XML, where a line tells how many bytes there are (RFC 9110, section 15.5.17).
const OUTSIDE_IN_XML_REPLY: &str = "HTTP/1.1 416 Range Not Satisfiable\r\n\
    Date: Fri, 24 May 2013 00:00:00 GMT\r\n\
    x-amz-request-id: 00000000000000ff\r\n\
    Content-Range: bytes */5\r\n\
    Content-Type: application/xml\r\n\
    Content-Length: 166\r\n\
    \r\n\
    <?xml version=\"1.0\" encoding=\"UTF-8\"?>\n\
    <Error><Code>InvalidRange</Code><Message>The range is not satisfiable.</Message>\
    <RequestId>00000000000000ff</RequestId></Error>";

// That to a HEAD.
const OUTSIDE_HEAD_REPLY: &str = "HTTP/1.1 416 Range Not Satisfiable\r\n\
    Date: Fri, 24 May 2013 00:00:00 GMT\r\n\
    x-amz-request-id: 00000000000000ff\r\n\
    Content-Range: bytes */5\r\n\
    Content-Type: application/xml\r\n\
    Content-Length: 166\r\n\
    \r\n";

// To a HEAD that ends its connection.
const LAST_REPLY: &str = "HTTP/1.1 404 Not Found\r\n\
    Date: Thu, 01 Jan 1970 00:00:00 GMT\r\n\
    Connection: close\r\n\
    x-amz-request-id: 00000000000000ff\r\n\
    Content-Type: application/json\r\n\
    Content-Length: 56\r\n\
    \r\n";

/// A request, and the reply to what came of it.
struct Row {
    request: &'static str,
    // The number of the answer, in the place of the store's.
    number: u64,
    seconds: u64,
    // Whether the message is answered as a HEAD.
    is_head: bool,
    // Whether its connection ends.
    closes: bool,
    dialect: Dialect,
    reply: &'static str,
}

const ROW: Row = Row {
    request: "",
    number: 1,
    seconds: MOMENT,
    is_head: false,
    closes: false,
    dialect: Dialect::Json,
    reply: DONE_REPLY,
};

// Requests to a bucket with versions; the one that is read is told as that of number 0.
static VERSIONED: [Row; 11] = [
    Row {
        request: "PUT /pail?versioning<{\"Status\":\"Enabled\"}",
        ..ROW
    },
    Row {
        request: "PUT /pail/k<hello",
        reply: PUT_VERSION_REPLY,
        ..ROW
    },
    Row {
        request: "GET /pail?versioning",
        reply: ENABLED_REPLY,
        ..ROW
    },
    Row {
        request: "DELETE /pail/k?versionId=v00000000000000ff",
        reply: DELETED_VERSION_REPLY,
        ..ROW
    },
    Row {
        request: "GET /pail/k",
        reply: GET_REPLY,
        ..ROW
    },
    Row {
        request: "GET /pail/k",
        is_head: true,
        reply: HEAD_REPLY,
        ..ROW
    },
    Row {
        request: "HEAD /pail/k",
        is_head: true,
        reply: HEAD_REPLY,
        ..ROW
    },
    Row {
        request: "PUT /pail?versioning<{\"Status\":\"Suspended\"}",
        ..ROW
    },
    Row {
        request: "GET /pail?versioning",
        reply: SUSPENDED_REPLY,
        ..ROW
    },
    Row {
        request: "DELETE /pail/k",
        reply: MARKER_REPLY,
        ..ROW
    },
    Row {
        request: "GET /pail/k",
        number: 255,
        reply: MISSING_MARKER_REPLY,
        ..ROW
    },
];

// Requests to buckets without versions.
static UNVERSIONED: [Row; 16] = [
    Row {
        request: "HEAD /vat",
        ..ROW
    },
    Row {
        request: "GET /vat?versioning",
        reply: UNVERSIONED_REPLY,
        ..ROW
    },
    Row {
        request: "GET /vat/k",
        number: 255,
        reply: MISSING_REPLY,
        ..ROW
    },
    Row {
        request: "GET /vat/k",
        number: 255,
        dialect: Dialect::S3,
        reply: MISSING_IN_XML_REPLY,
        ..ROW
    },
    Row {
        request: "HEAD /vat/k",
        number: 255,
        seconds: 0,
        is_head: true,
        closes: true,
        reply: LAST_REPLY,
        ..ROW
    },
    Row {
        request: "PUT /vat/k<hello",
        reply: PUT_REPLY,
        ..ROW
    },
    Row {
        request: "PUT /vat/k<hello",
        dialect: Dialect::S3,
        reply: PUT_REPLY,
        ..ROW
    },
    Row {
        request: "GET /vat/k\nRange: bytes=5-\r\n",
        number: 255,
        reply: OUTSIDE_REPLY,
        ..ROW
    },
    Row {
        request: "GET /vat/k\nRange: bytes=5-\r\n",
        number: 255,
        dialect: Dialect::S3,
        reply: OUTSIDE_IN_XML_REPLY,
        ..ROW
    },
    Row {
        request: "HEAD /vat/k\nRange: bytes=-0\r\n",
        number: 255,
        is_head: true,
        dialect: Dialect::S3,
        reply: OUTSIDE_HEAD_REPLY,
        ..ROW
    },
    Row {
        request: "DELETE /vat/k",
        reply: DELETED_REPLY,
        ..ROW
    },
    Row {
        request: "DELETE /vat",
        reply: DROPPED_REPLY,
        ..ROW
    },
    Row {
        request: "DELETE /pail",
        reply: DROPPED_REPLY,
        ..ROW
    },
    Row {
        request: "PUT /pail",
        reply: MADE_REPLY,
        ..ROW
    },
    Row {
        request: "GET /",
        reply: LIST_REPLY,
        ..ROW
    },
    Row {
        request: "GET /",
        is_head: true,
        reply: LIST_HEAD_REPLY,
        ..ROW
    },
];

// Whether a body has these bytes.
fn is_body(alloc: Global, body: &Body, bytes: &[u8]) -> bool {
    match body.to_vec(alloc) {
        Ok(copy) => copy.as_slice() == bytes,
        Err(_) => false,
    }
}

// Whether a body, where there is one, has these bytes.
fn has_bytes(alloc: Global, body: Option<Body>, bytes: Option<&[u8]>) -> bool {
    match (body, bytes) {
        (Some(body), Some(bytes)) => is_body(alloc, &body, bytes),
        (None, Some(bytes)) => bytes.is_empty(),
        (_, None) => false,
    }
}

// Whether an answer is sent as these bytes: its head, and behind it what is given.
fn is_sent(alloc: Global, answer: Answer, context: &Context, bytes: &[u8]) -> bool {
    match Vec::with_capacity(alloc, 8_192) {
        Ok(mut head) => {
            let body = print_reply(answer, context, &mut head);
            has_bytes(alloc, body, bytes.strip_prefix(head.as_slice()))
        }
        Err(_) => {
            drop(answer);
            false
        }
    }
}

// What the reply to a row takes from its message.
fn context_of(row: &Row) -> Option<Context> {
    let moment = Moment::new(row.seconds)?;
    Some(Context {
        moment,
        head_only: row.is_head,
        closes: row.closes,
        dialect: row.dialect,
        tells_checksums: false,
        checksum: None,
    })
}

// Gives the answer that number, and the version that it tells of, if it was read, the id of number 0.
fn renumber(answer: &mut Answer, number: u64) {
    answer.number = number;
    if let Outcome::Got { found, .. } = &mut answer.outcome {
        found.shown = Some(VersionId::of(0));
    }
}

// Whether the request of the row is answered so by the store.
fn is_answered(alloc: Global, store: &mut Stored, row: &Row) -> bool {
    let Some(context) = context_of(row) else {
        return false;
    };
    match answer_to(alloc, store, row.request, row.seconds) {
        Ok(mut answer) => {
            renumber(&mut answer, row.number);
            is_sent(alloc, answer, &context, row.reply.as_bytes())
        }
        Err(_) => false,
    }
}

// The first request of these rows that the store answers otherwise.
fn first_in(alloc: Global, store: &mut Stored, rows: &[Row]) -> Option<&'static str> {
    for row in rows {
        if !is_answered(alloc, store, row) {
            return Some(row.request);
        }
    }
    None
}

// The first request of these rows that a store with nothing in its buckets answers otherwise.
fn first_other(alloc: Global, rows: &[Row]) -> Option<&'static str> {
    match opened(alloc) {
        Ok(mut store) => first_in(alloc, &mut store, rows),
        Err(_) => Some("no store"),
    }
}

/// Each status line, and the codes that are answered with it.
static STATUSES: [(&str, &[Code]); 10] = [
    (
        "400 Bad Request",
        &[
            Code::MalformedHead,
            Code::HeadTooLarge,
            Code::InvalidRequest,
            Code::EntityTooLarge,
            Code::InvalidURI,
            Code::AuthorizationHeaderMalformed,
            Code::InvalidArgument,
            Code::InvalidDigest,
            Code::InvalidBucketName,
            Code::KeyTooLongError,
            Code::MetadataTooLarge,
            Code::IncompleteBody,
            Code::XAmzContentSHA256Mismatch,
            Code::BadDigest,
            Code::MalformedBody,
            Code::InvalidPartOrder,
            Code::InvalidPart,
            Code::EntityTooSmall,
            Code::AuthorizationQueryParametersError,
        ],
    ),
    (
        "403 Forbidden",
        &[
            Code::AccessDenied,
            Code::RequestTimeTooSkewed,
            Code::InvalidAccessKeyId,
            Code::SignatureDoesNotMatch,
        ],
    ),
    (
        "404 Not Found",
        &[
            Code::NoSuchUpload,
            Code::NoSuchBucket,
            Code::NoSuchKey,
            Code::NoSuchVersion,
        ],
    ),
    ("405 Method Not Allowed", &[Code::MethodNotAllowed]),
    (
        "409 Conflict",
        &[Code::BucketAlreadyOwnedByYou, Code::BucketNotEmpty],
    ),
    ("411 Length Required", &[Code::MissingContentLength]),
    ("412 Precondition Failed", &[Code::PreconditionFailed]),
    ("416 Range Not Satisfiable", &[Code::InvalidRange]),
    ("500 Internal Server Error", &[Code::InternalError]),
    ("501 Not Implemented", &[Code::NotImplemented]),
];

const MALFORMED: &[u8] = b"HTTP/1.1 400 Bad Request\r\n\
    Date: Fri, 24 May 2013 00:00:00 GMT\r\n\
    Connection: close\r\n\
    x-amz-request-id: 0000000000000000\r\n\
    Content-Type: application/json\r\n\
    Content-Length: 59\r\n\
    \r\n\
    {\"Code\":\"MalformedHead\",\"Message\":\"The head is malformed.\"}";

const MALFORMED_IN_XML: &[u8] = b"HTTP/1.1 400 Bad Request\r\n\
    Date: Fri, 24 May 2013 00:00:00 GMT\r\n\
    Connection: close\r\n\
    x-amz-request-id: 0000000000000000\r\n\
    Content-Type: application/xml\r\n\
    Content-Length: 160\r\n\
    \r\n\
    <?xml version=\"1.0\" encoding=\"UTF-8\"?>\n\
    <Error><Code>MalformedHead</Code><Message>The head is malformed.</Message>\
    <RequestId>0000000000000000</RequestId></Error>";

// Whether the refusal with the code starts with the version and then this status.
fn has_status(code: Code, status: &str, moment: Moment) -> bool {
    match refusal(code, moment, true, Dialect::Json)
        .as_slice()
        .get(9..)
    {
        Some(shown) => shown.starts_with(status.as_bytes()),
        None => false,
    }
}

// Whether all of them do.
fn have_statuses(moment: Moment) -> bool {
    for (status, codes) in &STATUSES {
        for code in *codes {
            if !has_status(*code, status, moment) {
                return false;
            }
        }
    }
    true
}

// Whether a head that is malformed is refused so in the dialect.
fn is_refused(moment: Moment, dialect: Dialect, bytes: &[u8]) -> bool {
    refusal(Code::MalformedHead, moment, false, dialect).as_slice() == bytes
}

fn are_refused(seconds: u64) -> bool {
    match Moment::new(seconds) {
        Some(moment) => is_refused(moment, Dialect::Json, MALFORMED)
            && is_refused(moment, Dialect::S3, MALFORMED_IN_XML)
            && have_statuses(moment),
        None => false,
    }
}

const EXPECTED: &[u8] =
    b"HTTP/1.1 500 Internal Server Error\r\nConnection: close\r\nContent-Length: 0\r\n\
    x-amz-request-id: 0000000000000000\r\n\r\n";

/// The first request that is answered otherwise; or the bytes of one refusal, the status lines of all, and the bytes of the reply
/// that takes no memory, where these are otherwise.
pub(crate) fn first_of_all(alloc: Global) -> Option<&'static str> {
    replies_are_unique();
    refusals_are_unique();
    replies_show_what_came();
    if !are_refused(MOMENT) || internal_error_reply() != EXPECTED || INTERNAL_ERROR != EXPECTED {
        return Some("refusals");
    }
    first_other(alloc, &VERSIONED).or(first_other(alloc, &UNVERSIONED))
}
