//! The commands of requests: what becomes of their bodies.
use crate::checks::{self, Rows};
use crate::requests::operations::command_text;
use crate::requests::plans::routed;
use crate::texts::{add, add_code, is_same};
use s3_bodies::{Payload, PayloadBuilder, Sink};
use s3_http_heads::Head;
use s3_requests::{Command, Plan, command};
use s3_terms::{Code, Dialect};
use std::alloc::Global;
use std::mem::drop;

// The version behind a method and a target, and the lines that every head has.
const LINES: &[u8] = b" HTTP/1.1\r\ncontent-type: text/plain\r\nx-amz-meta-colour: red\r\n";

// The head of a request of this method and target, with the lines that stand behind a line feed.
fn head_of(alloc: Global, line: &str) -> Result<Head, Code> {
    let (line, more) = line.split_once('\n').unwrap_or((line, ""));
    match [line.as_bytes(), LINES, more.as_bytes(), b"\r\n"].concat(alloc) {
        Ok(text) => Head::read(alloc, &text),
        Err(_) => Err(Code::InternalError),
    }
}

// What the request asks for.
fn plan_of(alloc: Global, dialect: Dialect, line: &str) -> Result<Plan, Code> {
    match head_of(alloc, line) {
        Ok(head) => routed(alloc, dialect, &head),
        Err(code) => Err(code),
    }
}

// The payload of these bytes.
fn payload_of(alloc: Global, bytes: &[u8]) -> Result<Payload, Code> {
    let mut builder = PayloadBuilder::new(alloc, bytes.len() as u64);
    match builder.take(bytes) {
        Ok(()) => Ok(builder.finish()),
        Err(_) => Err(Code::InternalError),
    }
}

// The command of a plan and of this body.
fn planned(alloc: Global, plan: Plan, body: &[u8]) -> Result<Command, Code> {
    match payload_of(alloc, body) {
        Ok(payload) => command(alloc, plan, None, payload),
        Err(code) => {
            drop(plan);
            Err(code)
        }
    }
}

/// The command of a request with this method and target, and this body. It says that its body is text, and has one entry of
/// metadata, `x-amz-meta-colour`, with the value `red`, and the lines that stand behind a line feed. Documents are of this dialect.
pub(crate) fn command_of(
    alloc: Global,
    dialect: Dialect,
    line: &str,
    body: &[u8],
) -> Result<Command, Code> {
    planned(alloc, plan_of(alloc, dialect, line)?, body)
}

/// The method and target of a request, and the body behind the first `<`, if there is one.
pub(crate) fn cut(asked: &str) -> (&str, &str) {
    asked.split_once('<').unwrap_or((asked, ""))
}

// Adds what a request asks for with this body.
fn add_command(alloc: Global, out: &mut Vec<u8>, dialect: Dialect, line: &str, body: &[u8]) {
    match command_of(alloc, dialect, line, body) {
        Ok(command) => {
            add(out, command_text(&command).as_bytes());
            drop(command);
        }
        Err(code) => add_code(out, code),
    }
}

// Whether the request asks for that with this body.
fn is_asked(alloc: Global, dialect: Dialect, line: &str, body: &[u8], wanted: &str) -> bool {
    let mut out = Vec::new(alloc);
    add_command(alloc, &mut out, dialect, line, body);
    is_same(&out, wanted.as_bytes())
}

// Requests, and what they ask for. A `^` stands between two rows.
const ROWS: &str = "\
    GET /<hello|ListBuckets^\
    PUT /pail<hello|CreateBucket^\
    HEAD /pail<hello|HeadBucket^\
    DELETE /pail<hello|DeleteBucket^\
    GET /pail?versioning<hello|GetBucketVersioning^\
    PUT /pail/k<hello|PutObject hello^\
    PUT /pail/k|PutObject^\
    PUT /pail/k?versionId=null<hello|PutObject hello^\
    GET /pail/k<hello|GetObject^\
    HEAD /pail/k<hello|GetObject^\
    DELETE /pail/k<hello|DeleteObject^\
    GET /pail/k?versionId=null|GetObject of a version^\
    HEAD /pail/k?versionId=null|GetObject of a version^\
    DELETE /pail/k?versionId=null|DeleteObject of a version^\
    PUT /pail?versioning<{\"Status\":\"Enabled\"}|PutBucketVersioning Enabled^\
    PUT /pail?versioning< {\"Status\" : \"Suspended\"}\n|PutBucketVersioning Suspended^\
    PUT /pail?versioning<{\"Status\":\"Enabled\",\"MFADelete\":[],\"Status\":\"Suspended\"}|PutBucketVersioning Suspended^\
    PUT /pail?versioning|MalformedBody^\
    PUT /pail?versioning<{}|MalformedBody^\
    PUT /pail?versioning<\"Enabled\"|MalformedBody^\
    PUT /pail?versioning<{\"Status\":\"enabled\"}|MalformedBody^\
    PUT /pail?versioning<{\"Status\":\"Enabled\"|MalformedBody^\
    PUT /pail?versioning<<Status>Enabled</Status>|MalformedBody";

// The same of uploads.
const UPLOADS: &str = "\
    GET /pail?uploads<hello|ListMultipartUploads^\
    POST /pail/k?uploads<hello|CreateMultipartUpload^\
    PUT /pail/k?partNumber=1&uploadId=u0000000000000000<hello|UploadPart hello^\
    PUT /pail/k?partNumber=1&uploadId=u0000000000000000|UploadPart^\
    GET /pail/k?uploadId=u0000000000000000<hello|ListParts^\
    DELETE /pail/k?uploadId=u0000000000000000<hello|AbortMultipartUpload^\
    POST /pail/k?uploadId=u0000000000000000<{\"Parts\":[{\"ETag\":\"\\\"5d41402abc4b2a76b9719d911017c592\\\"\",\"PartNumber\":1}]}|CompleteMultipartUpload hello^\
    POST /pail/k?uploadId=u0000000000000000<{\"Parts\":[{\"PartNumber\":1,\"Size\":5,\"ETag\":\"5d41402abc4b2a76b9719d911017c592\"}]} |CompleteMultipartUpload hello^\
    POST /pail/k?uploadId=u0000000000000000<{\"Parts\":[{\"ETag\":\"\",\"PartNumber\":10000},{\"ETag\":\"b\",\"PartNumber\":1}]}|CompleteMultipartUpload^\
    POST /pail/k?uploadId=u0000000000000000|MalformedBody^\
    POST /pail/k?uploadId=u0000000000000000<hello|MalformedBody^\
    POST /pail/k?uploadId=u0000000000000000<{\"Parts\":[]}|MalformedBody^\
    POST /pail/k?uploadId=u0000000000000000<{\"Parts\":[{\"ETag\":\"a\",\"PartNumber\":0}]}|InvalidArgument^\
    POST /pail/k?uploadId=u0000000000000000<{\"Parts\":[{\"ETag\":\"a\",\"PartNumber\":10001}]}|InvalidArgument^\
    POST /pail/k?uploadId=u0000000000000000<{\"Parts\":[{\"ETag\":\"a\",\"PartNumber\":0},{\"PartNumber\":1}]}|MalformedBody^\
    POST /pail/k?uploadId=u0000000000000000<{\"Parts\":[{\"ETag\":\"a\",\"PartNumber\":\"1\"}]}|MalformedBody";

// What is asked where documents are XML (Amazon S3 API Reference, the request syntax of each operation).
const IN_XML: &str = "\
    PUT /pail|CreateBucket^\
    PUT /pail<<CreateBucketConfiguration xmlns=\"http://s3.amazonaws.com/doc/2006-03-01/\"><LocationConstraint>us-east-1</LocationConstraint></CreateBucketConfiguration>|CreateBucket^\
    PUT /pail<<CreateBucketConfiguration><LocationConstraint></LocationConstraint></CreateBucketConfiguration>|CreateBucket^\
    PUT /pail<<CreateBucketConfiguration/>|CreateBucket^\
    PUT /pail<<CreateBucketConfiguration><LocationConstraint>eu-west-1</LocationConstraint></CreateBucketConfiguration>|InvalidLocationConstraint^\
    PUT /pail<<VersioningConfiguration/>|MalformedXML^\
    PUT /pail<hello|MalformedXML^\
    PUT /pail?versioning<<VersioningConfiguration xmlns=\"http://s3.amazonaws.com/doc/2006-03-01/\"><Status>Enabled</Status></VersioningConfiguration>|PutBucketVersioning Enabled^\
    PUT /pail?versioning<<a:VersioningConfiguration>\n<a:MfaDelete/>\n<a:Status>Enabled</a:Status><Status><![CDATA[Susp]]>ended</Status></a:VersioningConfiguration>\n|PutBucketVersioning Suspended^\
    PUT /pail?versioning|MalformedXML^\
    PUT /pail?versioning<{\"Status\":\"Enabled\"}|MalformedXML^\
    PUT /pail?versioning<<VersioningConfiguration><Status>enabled</Status></VersioningConfiguration>|MalformedXML^\
    PUT /pail?versioning<<Status>Enabled</Status>|MalformedXML^\
    POST /pail/k?uploadId=u0000000000000000<<CompleteMultipartUpload xmlns=\"http://s3.amazonaws.com/doc/2006-03-01/\"><Part><ETag>&quot;5d41402abc4b2a76b9719d911017c592&quot;</ETag><PartNumber> 1\n</PartNumber></Part></CompleteMultipartUpload>|CompleteMultipartUpload hello^\
    POST /pail/k?uploadId=u0000000000000000<<CompleteMultipartUpload><Part><PartNumber>10000</PartNumber><ETag/></Part><Part><PartNumber>1</PartNumber><ETag>b</ETag></Part></CompleteMultipartUpload>|CompleteMultipartUpload^\
    POST /pail/k?uploadId=u0000000000000000<<CompleteMultipartUpload><Part><PartNumber>0</PartNumber><ETag>a</ETag></Part></CompleteMultipartUpload>|InvalidArgument^\
    POST /pail/k?uploadId=u0000000000000000<<CompleteMultipartUpload><Part><PartNumber>10001</PartNumber><ETag>a</ETag></Part></CompleteMultipartUpload>|InvalidArgument^\
    POST /pail/k?uploadId=u0000000000000000<<CompleteMultipartUpload><Part><PartNumber>0</PartNumber><ETag>a</ETag></Part><Part><ETag>a</ETag></Part></CompleteMultipartUpload>|MalformedXML^\
    POST /pail/k?uploadId=u0000000000000000<<CompleteMultipartUpload/>|MalformedXML^\
    POST /pail/k?uploadId=u0000000000000000<<CompleteMultipartUpload><Part><PartNumber>1</PartNumber><ETag>a</ETag></Part>|MalformedXML^\
    POST /pail/k?uploadId=u0000000000000000<{\"Parts\":[{\"ETag\":\"a\",\"PartNumber\":1}]}|MalformedXML^\
    GET /pail?list-type=2&encoding-type=url&fetch-owner=true|ListObjectsV2^\
    GET /pail?list-type=2&encoding-type=URL|InvalidArgument^\
    GET /pail?versions&encoding-type|InvalidArgument^\
    GET /pail?uploads&encoding-type=utf8|InvalidArgument";

// Conditions of writes and storage classes where documents are XML (Amazon S3 API Reference, PutObject, `If-Match`,
// `x-amz-storage-class`). What a write asks of its key is told last, and what a delete does behind its version.
const WRITES_IN_XML: &str = "\
    PUT /pail/k\nIf-Match: \"a\"\r\nif-match: b\r\n<hello|PutObject of a match^\
    PUT /pail/k\nif-match:\r\n<hello|PutObject of a match^\
    PUT /pail/k\nif-none-match: *\r\n<hello|PutObject hello^\
    PUT /pail/k\nif-none-match: a\r\n|NotImplemented^\
    PUT /pail/k\nif-match: a\r\nif-none-match: *\r\n|NotImplemented^\
    PUT /pail/k\nif-match: a\r\nif-none-match: *\r\nx-amz-storage-class: a\r\n|InvalidStorageClass^\
    PUT /pail/k\nif-match: a\r\nx-amz-acl: public-read\r\nx-amz-storage-class: a\r\n|NotImplemented^\
    PUT /pail/k\nif-match: a\r\nx-amz-copy-source: /pail/j\r\n|NotImplemented^\
    PUT /pail/k\nif-none-match: *\r\nx-amz-copy-source: /pail/j\r\n|NotImplemented^\
    PUT /pail/k\nx-amz-storage-class: GLACIER_IR\r\n<hello|PutObject hello^\
    PUT /pail/k\nx-amz-storage-class: STANDARD\r\nX-Amz-Storage-Class: standard\r\n|InvalidStorageClass^\
    PUT /pail/k\nx-amz-storage-class:\r\n|InvalidStorageClass^\
    PUT /pail/k\nx-amz-storage-class: GLACIER SNOW\r\n|InvalidStorageClass^\
    PUT /pail/k\nx-amz-storage-class: a\r\nx-amz-copy-source: /pail/j\r\n|InvalidStorageClass^\
    POST /pail/k?uploads\nx-amz-storage-class: a\r\n|InvalidStorageClass^\
    PUT /pail/k?partNumber=1&uploadId=u0000000000000000\nif-match: a\r\nx-amz-storage-class: a\r\n<hello|UploadPart hello^\
    POST /pail/k?uploadId=u0000000000000000\nif-match: *\r\n<<CompleteMultipartUpload><Part><PartNumber>1</PartNumber><ETag>a</ETag></Part></CompleteMultipartUpload>|CompleteMultipartUpload of a match^\
    POST /pail/k?uploadId=u0000000000000000\nif-match: a\r\nif-none-match: *\r\n|NotImplemented^\
    POST /pail/k?uploadId=\nif-match: a\r\nif-none-match: *\r\n|NoSuchUpload^\
    DELETE /pail/k\nif-match: a\r\nif-none-match: a\r\n|DeleteObject of a match^\
    DELETE /pail/k?versionId=null\nif-match: a\r\n|NotImplemented^\
    DELETE /pail/k?versionId=\nif-match: a\r\n|InvalidArgument^\
    DELETE /pail/k\nx-amz-if-match-size: 1\r\n|NotImplemented^\
    DELETE /pail/k\nX-Amz-If-Match-Last-Modified-Time: a\r\n|NotImplemented^\
    DELETE /pail/k?uploadId=u0000000000000000\nif-match: a\r\nx-amz-if-match-size: 1\r\n|AbortMultipartUpload";

// JSON has no other spelling of keys, no tag and no storage class of a write, and no bucket in another region.
const IN_JSON: &str = "\
    GET /pail?list-type=2&encoding-type=utf8|ListObjectsV2^\
    PUT /pail/k\nif-match: a\r\nx-amz-storage-class: a\r\n<hello|PutObject hello^\
    DELETE /pail/k?versionId=null\nif-match: a\r\nx-amz-if-match-size: 1\r\n|DeleteObject of a version^\
    PUT /pail<<CreateBucketConfiguration><LocationConstraint>eu-west-1</LocationConstraint></CreateBucketConfiguration>|CreateBucket";

// A dialect, and its rows.
struct Table(Dialect, &'static str);

static TABLES: [Table; 5] = [
    Table(Dialect::Json, ROWS),
    Table(Dialect::Json, UPLOADS),
    Table(Dialect::Json, IN_JSON),
    Table(Dialect::S3, IN_XML),
    Table(Dialect::S3, WRITES_IN_XML),
];

impl Rows for Table {
    fn rows(&self) -> &'static str {
        self.1
    }

    fn holds(&self, alloc: Global, row: &str) -> Option<bool> {
        let (asked, wanted) = row.split_once('|')?;
        let (line, body) = cut(asked);
        Some(is_asked(alloc, self.0, line, body.as_bytes(), wanted))
    }
}

// A document that is no text.
const NO_TEXT: &[u8] = b"{\"Status\":\"Enabled\",\"a\":\"\xff\"}";

// Whether the document that is no text is refused so.
fn is_no_document(alloc: Global, dialect: Dialect, wanted: &str) -> bool {
    is_asked(alloc, dialect, "PUT /pail?versioning", NO_TEXT, wanted)
}

/// The first row that doesn't hold. PutBucketVersioning, CompleteMultipartUpload and, in XML, CreateBucket alone read a document,
/// and PutObject and UploadPart keep the body; nothing else looks at it.
pub(crate) fn first_other(alloc: Global) -> Option<&'static str> {
    if !is_no_document(alloc, Dialect::Json, "MalformedBody")
        || !is_no_document(alloc, Dialect::S3, "MalformedXML")
    {
        return Some("a document that is no text");
    }
    checks::first_other(alloc, &TABLES)
}
