//! Which operation a head asks for, and which refusal it gets where it asks for none.
use crate::checks;
use crate::requests::asked::{Question, Table, is_so};
use std::alloc::Global;

// A table of the requests without header lines.
const ROUTES: Table = Table {
    question: Question::Route,
    front: "",
    rows: "",
    end: " HTTP/1.1\r\n\r\n",
};

// Every method on the service, a bucket and a key.
const METHODS: Table = Table {
    rows: "\
        GET /|ListBuckets^\
        GET /pail|NotImplemented^\
        GET /pail/k|GetObject pail k^\
        HEAD /|MethodNotAllowed^\
        HEAD /pail|HeadBucket pail^\
        HEAD /pail/k|GetObject pail k^\
        PUT /|MethodNotAllowed^\
        PUT /pail|CreateBucket pail^\
        PUT /pail/k|PutObject pail k^\
        POST /|MethodNotAllowed^\
        POST /pail|NotImplemented^\
        POST /pail/k|MethodNotAllowed^\
        DELETE /|MethodNotAllowed^\
        DELETE /pail|DeleteBucket pail^\
        DELETE /pail/k|DeleteObject pail k^\
        OPTIONS /|MethodNotAllowed^\
        OPTIONS /pail|MethodNotAllowed^\
        OPTIONS /pail/k|MethodNotAllowed^\
        get /pail/k|MethodNotAllowed^\
        DELETE /pail/|DeleteBucket pail",
    ..ROUTES
};

// The rows of the table that a parameter tells apart, and parameters that tell nothing.
const PARAMETERS: Table = Table {
    rows: "\
        GET /?list-type=2|ListBuckets^\
        PUT /pail?versioning|PutBucketVersioning pail^\
        GET /pail?versioning|GetBucketVersioning pail^\
        GET /pail?uploads|ListMultipartUploads pail^\
        GET /pail?versions|ListObjectVersions pail^\
        GET /pail?list-type=2|ListObjectsV2 pail^\
        GET /pail?list-type=1|NotImplemented^\
        GET /pail?versions&list-type=2|ListObjectVersions pail^\
        GET /pail/?list-type=2&max-keys=000000000&continuation-token=&delimiter=|ListObjectsV2 pail^\
        GET /pail?list-type=2&max-keys=0000000000|InvalidArgument^\
        GET /pail?list-type=2&continuation-token=6A|InvalidArgument^\
        GET /pail?list-type=2&prefix=%ff|InvalidArgument^\
        GET /pail?versions&key-marker=k&version-id-marker=null|ListObjectVersions pail^\
        GET /pail?versions&version-id-marker=null|InvalidArgument^\
        OPTIONS /pail?versioning|MethodNotAllowed^\
        PUT /pail/k?partNumber=1&uploadId=u0000000000000000|UploadPart pail k u0000000000000000 1^\
        PUT /pail/k?partNumber=1|InvalidArgument^\
        PUT /pail/k?uploadId|InvalidArgument^\
        GET /pail/k?uploadId=u0000000000000000|ListParts pail k u0000000000000000 0 1000^\
        GET /pail/k?partNumber=1|NotImplemented^\
        HEAD /pail/k?partNumber=1|NotImplemented^\
        HEAD /pail/k?uploadId=u0000000000000000|GetObject pail k^\
        DELETE /pail/k?uploadId=u0000000000000000|AbortMultipartUpload pail k u0000000000000000^\
        POST /pail/k?uploads|CreateMultipartUpload pail k^\
        POST /pail/k?uploadId=u0000000000000000|CompleteMultipartUpload pail k u0000000000000000^\
        POST /pail/k?partNumber=1|MethodNotAllowed^\
        POST /pail/k?versionId=null|MethodNotAllowed^\
        PUT /pail/k?x-id=PutObject|PutObject pail k^\
        GET /pail/k?x-id=GetObject|GetObject pail k^\
        GET /pail/k?&|GetObject pail k^\
        GET /pail/k?ACL&partnumber=1&uploads&versions&versioning|GetObject pail k^\
        PUT /pail/k?uploads&versions&versioning&versionId=v|PutObject pail k^\
        GET /pail/k?a=acl&b=versionId|GetObject pail k^\
        GET /pail/k?versionId|InvalidArgument^\
        GET /pail/k?versionId=|InvalidArgument^\
        GET /pail/k?versionId=v000000000000000A|InvalidArgument^\
        GET /pail/k?versionId=NULL&versionId=null|InvalidArgument^\
        GET /pail/k?versionId=null&versionId=NULL|GetObject pail k null^\
        GET /pail/k?%76ersionId=v00000000000000ff|GetObject pail k v00000000000000ff^\
        HEAD /pail/k?versionId=vffffffffffffffff|GetObject pail k vffffffffffffffff^\
        DELETE /pail/k?versionId=null|DeleteObject pail k null^\
        HEAD /pail/k?versionId=|InvalidArgument^\
        DELETE /pail/k?versionId=u00000000000000ff|InvalidArgument^\
        DELETE /pail/k?versionId|InvalidArgument^\
        DELETE /pail/k?partNumber=1|DeleteObject pail k^\
        GET /?versionId=&uploads&versioning|ListBuckets^\
        PUT /?versioning|MethodNotAllowed^\
        PUT /pail?versionId=&uploads&list-type=2|CreateBucket pail^\
        PUT /pail?uploads&versioning=&versionId=|PutBucketVersioning pail^\
        GET /pail?uploads&versioning&versionId=|GetBucketVersioning pail^\
        HEAD /pail?versioning&versionId=|HeadBucket pail^\
        DELETE /pail?versioning&versionId=&uploadId|DeleteBucket pail^\
        POST /pail?versioning|NotImplemented",
    ..ROUTES
};

// Where two things are wrong, the first one refuses.
const FAULTS: Table = Table {
    rows: "\
        GET /Pail?list-type=2&max-keys=|InvalidBucketName^\
        GET /pail?versions&delimiter=/&max-keys=|NotImplemented^\
        GET pail/k?acl|InvalidURI^\
        PUT /?acl|NotImplemented^\
        GET /Pail/%ff?acl|NotImplemented^\
        OPTIONS /pail/k?acl|NotImplemented^\
        GET /pail/k?versionId=&acl|NotImplemented^\
        GET /Pail/k|InvalidBucketName^\
        GET //k|InvalidBucketName^\
        GET /pail%2Fj/k|InvalidBucketName^\
        GET /Pail/%ff|InvalidBucketName^\
        OPTIONS /Pail|InvalidBucketName^\
        OPTIONS /pail/%ff|InvalidURI^\
        GET /pail/%ff?versionId=|InvalidURI^\
        GET /pail/k?uploadId&versionId=|NoSuchUpload^\
        GET /pail/k?partNumber=1&versionId=|NotImplemented^\
        HEAD /pail/k?partNumber=1&versionId=|NotImplemented^\
        DELETE /pail/k?uploadId&versionId=|NoSuchUpload^\
        PUT /pail?versioning&policy|NotImplemented^\
        GET /?acl|NotImplemented^\
        DELETE /Pail|InvalidBucketName^\
        DELETE /pail/%ff?versionId=|InvalidURI",
    ..ROUTES
};

// What is asked of the uploads in a bucket.
const UPLOADS: Table = Table {
    rows: "\
        GET /pail/?uploads&max-uploads=000000000&delimiter=&key-marker=|ListMultipartUploads pail^\
        GET /pail?uploads&max-uploads=999999999&max-keys=|ListMultipartUploads pail^\
        GET /pail?max-uploads=0000000000&uploads|InvalidArgument^\
        GET /pail?uploads&max-uploads=|InvalidArgument^\
        GET /pail?uploads&max-uploads=1&max-uploads=|ListMultipartUploads pail^\
        GET /pail?uploads&max-uploads=&max-uploads=1|InvalidArgument^\
        GET /pail?uploads&prefix=%ff|InvalidArgument^\
        GET /pail?uploads&key-marker=%ff|InvalidArgument^\
        GET /pail?uploads&key-marker=k&upload-id-marker=u00000000000000ff|ListMultipartUploads pail^\
        GET /pail?uploads&key-marker=k&upload-id-marker=|InvalidArgument^\
        GET /pail?uploads&key-marker=k&upload-id-marker=null|InvalidArgument^\
        GET /pail?uploads&key-marker=k&upload-id-marker=v00000000000000ff|InvalidArgument^\
        GET /pail?uploads&key-marker=k&upload-id-marker=u00000000000000FF|InvalidArgument^\
        GET /pail?uploads&key-marker=&upload-id-marker=u00000000000000ff|InvalidArgument^\
        GET /pail?uploads&upload-id-marker=u00000000000000ff|InvalidArgument^\
        GET /pail?uploads&version-id-marker=&uploadId|ListMultipartUploads pail^\
        GET /pail?uploads&delimiter=/&max-uploads=|NotImplemented^\
        GET /Pail?uploads&delimiter=/|InvalidBucketName^\
        GET /pail?uploads&versions&list-type=2|ListMultipartUploads pail^\
        PUT /pail?uploads=&max-uploads=|CreateBucket pail^\
        POST /?uploads|MethodNotAllowed^\
        POST /pail?uploads|NotImplemented^\
        POST /pail?uploadId=|NotImplemented",
    ..ROUTES
};

// What is asked of an upload: a number that is none refuses before an id that is none.
const PARTS: Table = Table {
    rows: "\
        PUT /pail/k?uploadId=u00000000000000ff&partNumber=00001|UploadPart pail k u00000000000000ff 1^\
        PUT /pail/k?partNumber=10000&uploadId=uffffffffffffffff|UploadPart pail k uffffffffffffffff 10000^\
        PUT /pail/k?partNumber=10001&uploadId=|InvalidArgument^\
        PUT /pail/k?partNumber=0&uploadId=u0000000000000000|InvalidArgument^\
        PUT /pail/k?partNumber=000001&uploadId=u0000000000000000|InvalidArgument^\
        PUT /pail/k?partNumber=&uploadId=|InvalidArgument^\
        PUT /pail/k?uploadId=|InvalidArgument^\
        PUT /pail/k?partNumber=1&uploadId=|NoSuchUpload^\
        PUT /pail/k?partNumber=1&uploadId=u000000000000000|NoSuchUpload^\
        PUT /pail/k?partNumber=1&uploadId=u000000000000000A|NoSuchUpload^\
        PUT /pail/k?partNumber=1&uploadId=v0000000000000000|NoSuchUpload^\
        PUT /pail/k?partNumber=2&partNumber=0&uploadId=u0000000000000000&uploadId=|UploadPart pail k u0000000000000000 2^\
        PUT /pail/k?partNumber=1&uploadId=&uploadId=u0000000000000000|NoSuchUpload^\
        PUT /pail/k?partNumber=1&uploadId=u0000000000000000&uploads&versionId=|UploadPart pail k u0000000000000000 1^\
        GET /pail/k?uploadId=u0000000000000000&part-number-marker=000000007&max-parts=1001|ListParts pail k u0000000000000000 7 1000^\
        GET /pail/k?uploadId=u0000000000000000&part-number-marker=999999999&max-parts=0|ListParts pail k u0000000000000000 999999999 0^\
        GET /pail/k?uploadId=u0000000000000000&partNumber=0|ListParts pail k u0000000000000000 0 1000^\
        GET /pail/k?uploadId=&part-number-marker=|InvalidArgument^\
        GET /pail/k?uploadId=&part-number-marker=0000000000|InvalidArgument^\
        GET /pail/k?uploadId=&part-number-marker=-1|InvalidArgument^\
        GET /pail/k?uploadId=&max-parts=|InvalidArgument^\
        GET /pail/k?uploadId=|NoSuchUpload^\
        HEAD /pail/k?uploadId=|GetObject pail k^\
        DELETE /pail/k?uploadId=|NoSuchUpload^\
        DELETE /pail/k?uploadId=u00000000000000f&partNumber=1|NoSuchUpload^\
        POST /pail/k?uploadId=|NoSuchUpload^\
        POST /pail/k?uploadId=U0000000000000000|NoSuchUpload^\
        POST /pail/k?uploads&uploadId=|CreateMultipartUpload pail k^\
        POST /Pail/k?uploadId=|InvalidBucketName^\
        POST /pail/%ff?uploadId=|InvalidURI",
    ..ROUTES
};

// A key has slashes and escapes; a bucket has escapes, and a query may be empty.
const ESCAPES: Table = Table {
    rows: "\
        HEAD /p%61il/?|HeadBucket pail^\
        GET /pail/a%2Fb/c+%20|GetObject pail a/b/c+ ^\
        PUT /p%61il/k?|PutObject pail k",
    ..ROUTES
};

// The sub-resources that the Amazon S3 API Reference has and this server has not.
const SUB_RESOURCES: Table = Table {
    question: Question::Route,
    front: "GET /pail/k?x-id=GetObject&",
    rows: "\
        accelerate=1|NotImplemented^\
        acl=1|NotImplemented^\
        analytics=1|NotImplemented^\
        attributes=1|NotImplemented^\
        cors=1|NotImplemented^\
        delete=1|NotImplemented^\
        encryption=1|NotImplemented^\
        intelligent-tiering=1|NotImplemented^\
        inventory=1|NotImplemented^\
        legal-hold=1|NotImplemented^\
        lifecycle=1|NotImplemented^\
        location=1|NotImplemented^\
        logging=1|NotImplemented^\
        metrics=1|NotImplemented^\
        notification=1|NotImplemented^\
        object-lock=1|NotImplemented^\
        ownershipControls=1|NotImplemented^\
        policy=1|NotImplemented^\
        policyStatus=1|NotImplemented^\
        publicAccessBlock=1|NotImplemented^\
        replication=1|NotImplemented^\
        requestPayment=1|NotImplemented^\
        restore=1|NotImplemented^\
        retention=1|NotImplemented^\
        select=1|NotImplemented^\
        tagging=1|NotImplemented^\
        torrent=1|NotImplemented^\
        website=1|NotImplemented",
    end: " HTTP/1.1\r\n\r\n",
};

static OPERATIONS: [Table; 7] = [
    METHODS,
    PARAMETERS,
    FAULTS,
    UPLOADS,
    PARTS,
    ESCAPES,
    SUB_RESOURCES,
];

// A key of 1,024 bytes.
const LONG_KEY: Table = Table {
    question: Question::Operation,
    front: "",
    rows: "GET /pail/{k*1024}|GetObject",
    end: " HTTP/1.1\r\n\r\n",
};

// Keys of 1,025 bytes, and what comes before and behind a key that is too long.
const LONG_KEYS: Table = Table {
    question: Question::Route,
    front: "",
    rows: "\
        GET /pail/{k*1025}|KeyTooLongError^\
        GET /pail/{%ff*1025}|InvalidURI^\
        POST /pail/{k*1025}?versionId=|KeyTooLongError",
    end: " HTTP/1.1\r\n\r\n",
};

// Media types and metadata at their limits, and where both are too long.
const LONG_LINES: Table = Table {
    question: Question::Route,
    front: "",
    rows: "\
        PUT /pail/k HTTP/1.1\r\ncontent-type: {t*255}|PutObject pail k^\
        PUT /pail/k HTTP/1.1\r\ncontent-type: {t*256}|InvalidArgument^\
        PUT /pail/k HTTP/1.1\r\nx-amz-copy-source: /pail/j\r\ncontent-type: {t*256}|CopyObject pail k from pail j^\
        PUT /pail/k HTTP/1.1\r\nx-amz-copy-source: /pail/{j*1024}%|InvalidArgument^\
        PUT /pail/k HTTP/1.1\r\nx-amz-copy-source: /pail/{%6a*1025}|InvalidArgument^\
        GET /pail/k HTTP/1.1\r\ncontent-type: {t*256}|GetObject pail k^\
        POST /pail/k?uploads HTTP/1.1\r\ncontent-type: {t*255}|CreateMultipartUpload pail k^\
        POST /pail/k?uploads HTTP/1.1\r\ncontent-type: {t*256}|InvalidArgument^\
        POST /pail/k?uploadId= HTTP/1.1\r\ncontent-type: {t*256}|NoSuchUpload^\
        PUT /pail/k?partNumber=1&uploadId= HTTP/1.1\r\ncontent-type: {t*256}|NoSuchUpload^\
        POST /pail/k?uploads HTTP/1.1\r\nx-amz-meta-a: {v*2047}|CreateMultipartUpload pail k^\
        POST /pail/k?uploads HTTP/1.1\r\nx-amz-meta-a: {v*2048}|MetadataTooLarge^\
        PUT /pail/k HTTP/1.1\r\nx-amz-meta-a: {v*2047}|PutObject pail k^\
        PUT /pail/k HTTP/1.1\r\nx-amz-meta-a: {v*2048}|MetadataTooLarge^\
        PUT /pail/k HTTP/1.1\r\nx-amz-meta-a: 1\r\nX-Amz-Meta-{n*2046}:|PutObject pail k^\
        PUT /pail/k HTTP/1.1\r\nx-amz-meta-a: 1\r\nX-Amz-Meta-A: {v*2045}|PutObject pail k^\
        PUT /pail/k HTTP/1.1\r\nx-amz-meta-a: 1\r\nX-Amz-Meta-A: {v*2046}|MetadataTooLarge^\
        GET /pail/k HTTP/1.1\r\nx-amz-meta-a: {v*2048}|GetObject pail k^\
        PUT /pail HTTP/1.1\r\ncontent-type: {t*256}|CreateBucket pail^\
        HEAD /pail/k HTTP/1.1\r\nx-amz-meta-a: {v*2048}|GetObject pail k^\
        PUT /pail/k HTTP/1.1\r\nContent-Type: tttttttttttttttttttttttttttttttttttttttttttttttttttttttttttttttttttttttttttttttttttttttttttttttttttttttttttttttttttttttttttttttttttttttttttttttttttttttttttttttttttttttttttttttttttttttttttttttttttttttttttttttttttttttttttttttttttttttttttttttttttttttttttttttt{\r\nx-amz-meta-a: 0123456789012345678901234567890123456789*52}|InvalidArgument^\
        PUT /pail/k HTTP/1.1\r\nContent-Type: t{\r\nx-amz-meta-a: 0123456789012345678901234567890123456789*52}|MetadataTooLarge",
    end: "\r\n\r\n",
};

// What reads ask of a version: of each line the first one counts, and what doesn't read is ignored.
const CONDITIONS: Table = Table {
    question: Question::Route,
    front: "",
    rows: "\
        GET /pail/k HTTP/1.1\r\nRange: bytes=0-9\r\nrange: bytes=5-|GetObject pail k from-to^\
        HEAD /pail/k?versionId=null HTTP/1.1\r\nrange: bytes=5-|GetObject pail k null from^\
        GET /pail/k HTTP/1.1\r\nrange: bytes=-5|GetObject pail k last^\
        GET /pail/k HTTP/1.1\r\nrange: bytes=-5\r\nIf-Range: \"a\"|GetObject pail k^\
        GET /pail/k HTTP/1.1\r\nrange: bytes=3-1|GetObject pail k^\
        GET /pail/k HTTP/1.1\r\nrange: bytes=0-0,2-2|GetObject pail k^\
        GET /pail/k HTTP/1.1\r\nIf-Match: \"a\"\r\nif-none-match: *|GetObject pail k match none-match^\
        GET /pail/k HTTP/1.1\r\nif-match:|GetObject pail k match^\
        HEAD /pail/k HTTP/1.1\r\nif-modified-since: Sun, 06 Nov 1994 08:49:37 GMT|GetObject pail k modified^\
        GET /pail/k HTTP/1.1\r\nif-unmodified-since: Sunday, 06-Nov-94 08:49:37 GMT|GetObject pail k unmodified^\
        GET /pail/k HTTP/1.1\r\nif-modified-since: Mon, 06 Nov 1994 08:49:37 GMT|GetObject pail k^\
        GET /pail/k HTTP/1.1\r\nif-modified-since: now|GetObject pail k^\
        PUT /pail/k HTTP/1.1\r\nif-match: a\r\nrange: bytes=0-9|PutObject pail k^\
        DELETE /pail/k HTTP/1.1\r\nif-match: a|DeleteObject pail k",
    end: "\r\n\r\n",
};

// What a put and a completion ask of their key (Amazon S3 API Reference, PutObject, `If-None-Match`): the first line counts, and
// says `*`; what else it says isn't implemented, which is told last. Other writes ignore it.
const ABSENCE: Table = Table {
    question: Question::Route,
    front: "",
    rows: "\
        PUT /pail/k HTTP/1.1\r\nIf-None-Match: *|PutObject pail k absent^\
        PUT /pail/k?versionId=v HTTP/1.1\r\nif-none-match:*\r\nif-none-match: a|PutObject pail k absent^\
        PUT /pail/k HTTP/1.1\r\nif-none-match: a\r\nif-none-match: *|NotImplemented^\
        PUT /pail/k HTTP/1.1\r\nif-none-match:|NotImplemented^\
        PUT /pail/k HTTP/1.1\r\nif-none-match: \"*\"|NotImplemented^\
        PUT /pail/k HTTP/1.1\r\nif-none-match: **|NotImplemented^\
        PUT /pail/k HTTP/1.1\r\nif-none-match: *, *|NotImplemented^\
        PUT /pail/k HTTP/1.1\r\nif-match: *|PutObject pail k^\
        PUT /pail/k HTTP/1.1\r\nif-none-match: a\r\ncontent-type: {t*256}|InvalidArgument^\
        PUT /pail/k HTTP/1.1\r\nif-none-match: a\r\nx-amz-meta-a: {v*2048}|MetadataTooLarge^\
        PUT /pail/k HTTP/1.1\r\nif-none-match: a\r\nx-amz-copy-source: /pail/j|CopyObject pail k from pail j^\
        PUT /pail/k?partNumber=1&uploadId=u0000000000000000 HTTP/1.1\r\nif-none-match: a|UploadPart pail k u0000000000000000 1^\
        POST /pail/k?uploads HTTP/1.1\r\nif-none-match: a|CreateMultipartUpload pail k^\
        POST /pail/k?uploadId=u0000000000000000 HTTP/1.1\r\nif-none-match: *|CompleteMultipartUpload pail k u0000000000000000 absent^\
        POST /pail/k?uploadId=u0000000000000000 HTTP/1.1\r\nif-none-match: a|NotImplemented^\
        POST /pail/k?uploadId= HTTP/1.1\r\nif-none-match: a|NoSuchUpload^\
        DELETE /pail/k?uploadId=u0000000000000000 HTTP/1.1\r\nif-none-match: a|AbortMultipartUpload pail k u0000000000000000^\
        DELETE /pail/k HTTP/1.1\r\nif-none-match: a|DeleteObject pail k^\
        PUT /pail HTTP/1.1\r\nif-none-match: a|CreateBucket pail^\
        PUT /Pail/k HTTP/1.1\r\nif-none-match: a|InvalidBucketName",
    end: "\r\n\r\n",
};

static LIMITS: [Table; 5] = [LONG_KEY, LONG_KEYS, LONG_LINES, CONDITIONS, ABSENCE];

// A copy source is for puts alone.
const COPIES: Table = Table {
    question: Question::Route,
    front: "",
    rows: "\
        PUT /pail/k|CopyObject pail k from pail j^\
        PUT /pail/k?versionId=v|CopyObject pail k from pail j^\
        PUT /pail/k?uploadId|NotImplemented^\
        PUT /pail/k?partNumber=1&uploadId=u0000000000000000|NotImplemented^\
        POST /pail/k?uploads|CreateMultipartUpload pail k^\
        PUT /pail|CreateBucket pail^\
        GET /pail/k|GetObject pail k",
    end: " HTTP/1.1\r\nX-Amz-Copy-Source: /pail/j\r\n\r\n",
};

// What is copied: the value is cut before it is decoded. What isn't implemented is told before what is wrong.
const SOURCES: Table = Table {
    question: Question::Route,
    front: "PUT /vat/k HTTP/1.1\r\nX-Amz-Copy-Source:",
    rows: "\
        pail/j|CopyObject vat k from pail j^\
        /pail/a/b|CopyObject vat k from pail a/b^\
        /pail//a|CopyObject vat k from pail /a^\
        /pail/a%2fb%3F%25+|CopyObject vat k from pail a/b?%+^\
        %70ail/j|CopyObject vat k from pail j^\
        /pail/j?versionId=null|CopyObject vat k from pail j null^\
        /pail/j?versionId=v00000000000000ff|CopyObject vat k from pail j v00000000000000ff^\
        /pail/j%3FversionId=null|CopyObject vat k from pail j?versionId=null^\
        |InvalidArgument^\
        /|InvalidArgument^\
        pail|InvalidArgument^\
        /pail/|InvalidArgument^\
        //pail/j|InvalidArgument^\
        %2Fpail/j|InvalidArgument^\
        /pa%2Fj|InvalidArgument^\
        /Pail/j|InvalidArgument^\
        /pail/%ff|InvalidArgument^\
        /pail/j%4|InvalidArgument^\
        /pail/j?|InvalidArgument^\
        /pail/j?versionId|InvalidArgument^\
        /pail/j?versionId=|InvalidArgument^\
        /pail/j?versionId=NULL|InvalidArgument^\
        /pail/j?versionId=%6eull|InvalidArgument^\
        /pail/j?versionid=null|InvalidArgument^\
        /pail/j?versionId=null&a|InvalidArgument^\
        /pail/j?versionId=null?|InvalidArgument^\
        /pail/j\r\nx-amz-copy-source: vat|CopyObject vat k from pail j^\
        /pail/j\r\nx-amz-metadata-directive: COPY|CopyObject vat k from pail j^\
        pail\r\nx-amz-metadata-directive: copy|NotImplemented^\
        pail\r\nx-amz-metadata-directive: REPLACE|NotImplemented^\
        pail\r\nx-amz-metadata-directive:|NotImplemented^\
        pail\r\nX-Amz-Copy-Source-If-Match: a|NotImplemented^\
        pail\r\nx-amz-copy-source-if-: a|NotImplemented^\
        /pail/j\r\nx-amz-copy-source-i: a\r\nx-amz-copy-source-range: a|CopyObject vat k from pail j",
    end: "\r\n\r\n",
};

const NO_PUT: Table = Table {
    question: Question::Route,
    front: "",
    rows: "GET /pail/k|GetObject pail k",
    end: " HTTP/1.1\r\nContent-Type: a\r\nx-amz-meta-b: 1\r\n\r\n",
};

// What puts say of their objects: media types, and names of metadata with their values. These are sorted by name, which is
// in lower case; the values of one name are joined. A shorter name comes before the one that goes on, and a name may be empty.
const DESCRIPTIONS: Table = Table {
    question: Question::Description,
    front: "PUT /pail/k HTTP/1.1\r\n",
    rows: "\
        |binary/octet-stream^\
        Content-Type:\r\n|^\
        content-TYPE:  text/plain; charset=utf-8 \r\nContent-Type: b\r\n|text/plain; charset=utf-8^\
        x-amz-meta-b:1\r\nX-AMZ-META-A: x  y \r\nhost: h\r\nx-amz-meta-b: 2\r\nX-Amz-Meta-B:\r\n|binary/octet-stream\nx-amz-meta-a:x  y\nx-amz-meta-b:1,2,^\
        x-amz-meta-ab: 1\r\nx-amz-meta-a: 2\r\nx-amz-meta-: 3\r\nx-amz-meta-a-: 4\r\n|binary/octet-stream\nx-amz-meta-:3\nx-amz-meta-a:2\nx-amz-meta-a-:4\nx-amz-meta-ab:1^\
        Cache-Control: no-cache\r\nContent-Encoding: gzip\r\nx-amz-meta-a: 1\r\nExpires: 0\r\n|binary/octet-stream\nx-amz-meta-a:1^\
        content-disposition: {d*256}\r\ncontent-language: en\r\n|binary/octet-stream",
    end: "\r\n",
};

// What the beginning of an upload says of the object that is to come.
const BEGUN: Table = Table {
    question: Question::Description,
    front: "POST /pail/k?uploads HTTP/1.1\r\n",
    rows: "\
        |binary/octet-stream^\
        Content-Type: text/plain\r\nx-amz-meta-b: 1\r\nX-Amz-Meta-A: 2\r\n|text/plain\nx-amz-meta-a:2\nx-amz-meta-b:1",
    end: "\r\n",
};

// What a put says where documents are XML, as with Amazon S3 (Amazon S3 API Reference, PutObject, "Request headers"): other lines
// are kept too, unless they are empty. The coding of a transfer is none of what is stored.
const KEPT: Table = Table {
    question: Question::DescriptionInXml,
    front: "PUT /pail/k HTTP/1.1\r\n",
    rows: "\
        |binary/octet-stream^\
        Expires: Thu, 01 Dec 1994 16:00:00 GMT\r\nContent-Language: mi, en\r\nCONTENT-ENCODING: gzip, br\r\nx-amz-meta-b: 1\r\ncontent-disposition: attachment; filename=\"a.txt\"\r\nCache-Control: max-age=60\r\n|binary/octet-stream\ncache-control:max-age=60\ncontent-disposition:attachment; filename=\"a.txt\"\ncontent-encoding:gzip, br\ncontent-language:mi, en\nexpires:Thu, 01 Dec 1994 16:00:00 GMT\nx-amz-meta-b:1^\
        cache-control: no-cache\r\nCache-Control: no-transform\r\n|binary/octet-stream\ncache-control:no-cache,no-transform^\
        Cache-Control:\r\nx-amz-meta-a:\r\n|binary/octet-stream\nx-amz-meta-a:^\
        cache-controls: a\r\nx-cache-control: b\r\nx-expires: c\r\n|binary/octet-stream^\
        Content-Encoding: aws-chunked\r\n|binary/octet-stream^\
        Content-Encoding: aws-chunked,gzip\r\n|binary/octet-stream\ncontent-encoding:gzip^\
        Content-Encoding: AWS-Chunked , gzip\r\n|binary/octet-stream\ncontent-encoding:gzip^\
        Content-Encoding: gzip, aws-chunked\r\n|binary/octet-stream\ncontent-encoding:gzip^\
        Content-Encoding: aws-chunked\r\nContent-Encoding: gzip, br\r\n|binary/octet-stream\ncontent-encoding:gzip, br^\
        Content-Encoding: aws-chunked2, aws\r\n|binary/octet-stream\ncontent-encoding:aws-chunked2, aws^\
        Content-Language: aws-chunked\r\n|binary/octet-stream\ncontent-language:aws-chunked^\
        Cache-Control: {c*256}\r\n|InvalidArgument^\
        Expires: a\tb\r\n|InvalidArgument^\
        Expires: a\tb\r\nx-amz-meta-a: {v*2048}\r\n|MetadataTooLarge",
    end: "\r\n",
};

static SAID: [Table; 6] = [COPIES, SOURCES, NO_PUT, DESCRIPTIONS, BEGUN, KEPT];

// Bytes beyond ASCII stay as they are, and names that only look like it are none.
const BEYOND_ASCII: &[u8] =
    b"PUT /pail/k HTTP/1.1\r\nx-amz-met-a: 1\r\nx-amz-meta: 2\r\nxx-amz-meta-a: 3\r\nx-amz-meta-b: \xc3\xa9\xff\r\n\r\n";

fn is_kept(alloc: Global) -> bool {
    let wanted = b"binary/octet-stream\nx-amz-meta-b:\xc3\xa9\xff";
    is_so(alloc, &Question::Description, BEYOND_ASCII, wanted)
}

/// The first row that doesn't hold.
pub(crate) fn first_other(alloc: Global) -> Option<&'static str> {
    if !is_kept(alloc) {
        return Some("what is kept of a put");
    }
    checks::first_other(alloc, &OPERATIONS)
        .or(checks::first_other(alloc, &LIMITS))
        .or(checks::first_other(alloc, &SAID))
}
