//! Requests whose commands stores apply, and what they are answered.
//!
//! Each table is of one store with the empty buckets `pail` and `vat`, and has the entry of number n at the second n of
//! 1970. A row has a method and a target, a line feed and more lines of the head, if there are more, the body behind a `<`, a
//! bar, and what is answered. A semicolon stands between two rows: one text costs less to prove than a table.
//!
//! Answered are words and `-` where no id is shown: `stored`, the id and the tag; `got`, the id, the number of the put, the
//! tag, and the bytes or the part that is shown; `out of range` and how many bytes there are; `part` and the tag; `completed`,
//! the id, the tag and the document; `deleted` and the id, or a refusal, and `marker` where it tells of a delete marker.
//! Tags are those of md5sum.

// A bucket that was never versioned ("How S3 Versioning works"): each put replaces its key alone, and a delete leaves
// nothing.
pub(crate) const UNVERSIONED: &str = "\
    GET /pail/k|NoSuchKey;\
    PUT /pail/k<one|stored - f97c5d29941bfb1b2fdab0874906ab82;\
    PUT /vat/k<hello|stored - 5d41402abc4b2a76b9719d911017c592;\
    PUT /pail/j<hello|stored - 5d41402abc4b2a76b9719d911017c592;\
    PUT /pail/k<two|stored - b8a9f715dbb64fd5c56e7783c6820a61;\
    GET /pail/k|got - 4 b8a9f715dbb64fd5c56e7783c6820a61 two;\
    HEAD /pail/k|got - 4 b8a9f715dbb64fd5c56e7783c6820a61 two;\
    GET /pail/k?versionId=null|got - 4 b8a9f715dbb64fd5c56e7783c6820a61 two;\
    GET /pail/k?versionId=v0000000000000001|NoSuchVersion;\
    GET /vat/k|got - 2 5d41402abc4b2a76b9719d911017c592 hello;\
    GET /pail/j|got - 3 5d41402abc4b2a76b9719d911017c592 hello;\
    DELETE /pail/k?versionId=v0000000000000004|deleted -;\
    HEAD /pail/k?versionId=null|got - 4 b8a9f715dbb64fd5c56e7783c6820a61 two;\
    DELETE /pail/k|deleted -;\
    GET /pail/k|NoSuchKey;\
    HEAD /pail/k?versionId=null|NoSuchVersion;\
    DELETE /pail/k|deleted -;\
    DELETE /pail/j?versionId=null|deleted -;\
    HEAD /pail/j|NoSuchKey;\
    GET /vat/k|got - 2 5d41402abc4b2a76b9719d911017c592 hello;\
    GET /vat/k\nrange: bytes=-2\r\n|got - 2 5d41402abc4b2a76b9719d911017c592 3-4;\
    GET /vat/k\nrange: bytes=5-\r\n|out of range 5";

// Versions of their own, and delete markers, which can be deleted ("Working with delete markers").
pub(crate) const ENABLED: &str = "\
    GET /pail?versioning|Unversioned;\
    PUT /pail/k<one|stored - f97c5d29941bfb1b2fdab0874906ab82;\
    PUT /pail?versioning<{\"Status\":\"Enabled\"}|set;\
    GET /pail?versioning|Enabled;\
    GET /vat?versioning|Unversioned;\
    PUT /pail/k<two|stored v0000000000000005 b8a9f715dbb64fd5c56e7783c6820a61;\
    PUT /pail/k<hello|stored v0000000000000006 5d41402abc4b2a76b9719d911017c592;\
    GET /pail/k|got v0000000000000006 6 5d41402abc4b2a76b9719d911017c592 hello;\
    GET /pail/k?versionId=v0000000000000005|got v0000000000000005 5 b8a9f715dbb64fd5c56e7783c6820a61 two;\
    GET /pail/k?versionId=null|got null 1 f97c5d29941bfb1b2fdab0874906ab82 one;\
    DELETE /pail/k|deleted v000000000000000a marker;\
    GET /pail/k|NoSuchKey marker;\
    HEAD /pail/k?versionId=v000000000000000a|MethodNotAllowed marker;\
    HEAD /pail/k?versionId=v0000000000000005|got v0000000000000005 5 b8a9f715dbb64fd5c56e7783c6820a61 two;\
    DELETE /pail/k?versionId=v000000000000000a|deleted v000000000000000a marker;\
    HEAD /pail/k|got v0000000000000006 6 5d41402abc4b2a76b9719d911017c592 hello;\
    DELETE /pail/k?versionId=v0000000000000006|deleted v0000000000000006;\
    GET /pail/k|got v0000000000000005 5 b8a9f715dbb64fd5c56e7783c6820a61 two;\
    GET /pail/k?versionId=v0000000000000006|NoSuchVersion;\
    DELETE /pail/j|deleted v0000000000000013 marker;\
    GET /pail/j|NoSuchKey marker;\
    DELETE /pail/k?versionId=v00000000000000ff|deleted v00000000000000ff;\
    GET /pail/k?versionId=null|got null 1 f97c5d29941bfb1b2fdab0874906ab82 one";

// The version `null`, which each put and delete replaces, beside versions that stay ("Adding objects to
// versioning-suspended buckets" and "Deleting objects from versioning-suspended buckets").
pub(crate) const SUSPENDED: &str = "\
    PUT /pail?versioning<{\"Status\":\"Enabled\"}|set;\
    PUT /pail/k<one|stored v0000000000000001 f97c5d29941bfb1b2fdab0874906ab82;\
    PUT /pail?versioning<{\"Status\":\"Suspended\"}|set;\
    PUT /pail/k<two|stored null b8a9f715dbb64fd5c56e7783c6820a61;\
    DELETE /pail/k|deleted null marker;\
    GET /pail/k|NoSuchKey marker;\
    GET /pail/k?versionId=null|MethodNotAllowed marker;\
    DELETE /pail/k?versionId=null|deleted null marker;\
    GET /pail/k|got v0000000000000001 1 f97c5d29941bfb1b2fdab0874906ab82 one;\
    PUT /pail/k<two|stored null b8a9f715dbb64fd5c56e7783c6820a61;\
    PUT /pail/k<hello|stored null 5d41402abc4b2a76b9719d911017c592;\
    GET /pail/k?versionId=null|got null 10 5d41402abc4b2a76b9719d911017c592 hello;\
    DELETE /pail/k?versionId=null|deleted null;\
    HEAD /pail/k|got v0000000000000001 1 f97c5d29941bfb1b2fdab0874906ab82 one;\
    DELETE /pail/k|deleted null marker;\
    PUT /pail/k<two|stored null b8a9f715dbb64fd5c56e7783c6820a61;\
    GET /pail?versioning|Suspended;\
    PUT /pail?versioning<{\"Status\":\"Enabled\"}|set;\
    DELETE /pail/k|deleted v0000000000000012 marker;\
    GET /pail/k?versionId=null|got null 15 b8a9f715dbb64fd5c56e7783c6820a61 two;\
    GET /pail/k?versionId=v0000000000000001|got v0000000000000001 1 f97c5d29941bfb1b2fdab0874906ab82 one";

// Buckets that come, and go where nothing is in them, not even a delete marker (Amazon S3 API Reference, DeleteBucket).
pub(crate) const BUCKETS: &str = "\
    GET /|{\"Buckets\":[{\"CreationDate\":\"1970-01-01T00:00:00.000Z\",\"Name\":\"pail\"},\
{\"CreationDate\":\"1970-01-01T00:00:00.000Z\",\"Name\":\"vat\"}]};\
    PUT /vat|BucketAlreadyOwnedByYou;\
    HEAD /tub|NoSuchBucket;\
    PUT /tub|made tub;\
    HEAD /tub|found us-east-1;\
    PUT /tub/k<one|stored - f97c5d29941bfb1b2fdab0874906ab82;\
    DELETE /tub|BucketNotEmpty;\
    DELETE /tub/k|deleted -;\
    PUT /vat?versioning<{\"Status\":\"Enabled\"}|set;\
    DELETE /vat/k|deleted v0000000000000009 marker;\
    DELETE /vat|BucketNotEmpty;\
    DELETE /vat/k?versionId=v0000000000000009|deleted v0000000000000009 marker;\
    DELETE /vat|dropped;\
    GET /|{\"Buckets\":[{\"CreationDate\":\"1970-01-01T00:00:00.000Z\",\"Name\":\"pail\"},\
{\"CreationDate\":\"1970-01-01T00:00:03.000Z\",\"Name\":\"tub\"}]};\
    DELETE /vat|NoSuchBucket;\
    PUT /vat?versioning<{\"Status\":\"Enabled\"}|NoSuchBucket;\
    GET /vat?versioning|NoSuchBucket;\
    PUT /vat/k<one|NoSuchBucket;\
    GET /vat/k|NoSuchBucket;\
    HEAD /vat/k?versionId=null|NoSuchBucket;\
    DELETE /vat/k|NoSuchBucket;\
    PUT /vat|made vat;\
    GET /vat?versioning|Unversioned";

// Puts that want no object under their key (Amazon S3 User Guide, "How to prevent object overwrites with conditional writes"):
// a delete marker is none.
pub(crate) const ABSENT: &str = "\
    PUT /pail/k\nif-none-match: *\r\n<one|stored - f97c5d29941bfb1b2fdab0874906ab82;\
    PUT /pail/k\nif-none-match: *\r\n<two|PreconditionFailed;\
    GET /pail/k|got - 0 f97c5d29941bfb1b2fdab0874906ab82 one;\
    PUT /pail/k<two|stored - b8a9f715dbb64fd5c56e7783c6820a61;\
    PUT /tub/k\nif-none-match: *\r\n<one|NoSuchBucket;\
    DELETE /pail/k|deleted -;\
    PUT /pail/k\nif-none-match: *\r\n<hello|stored - 5d41402abc4b2a76b9719d911017c592;\
    PUT /pail?versioning<{\"Status\":\"Enabled\"}|set;\
    PUT /pail/k\nif-none-match: *\r\n<one|PreconditionFailed;\
    DELETE /pail/k|deleted v0000000000000009 marker;\
    PUT /pail/k\nif-none-match: *\r\n<one|stored v000000000000000a f97c5d29941bfb1b2fdab0874906ab82;\
    PUT /pail/k\nif-none-match: *\r\n<two|PreconditionFailed;\
    DELETE /pail/k?versionId=v000000000000000a|deleted v000000000000000a;\
    PUT /pail/k\nif-none-match: *\r\n<two|stored v000000000000000d b8a9f715dbb64fd5c56e7783c6820a61;\
    PUT /pail?versioning<{\"Status\":\"Suspended\"}|set;\
    PUT /pail/k\nif-none-match: *\r\n<one|PreconditionFailed;\
    DELETE /pail/k|deleted null marker;\
    PUT /pail/k\nif-none-match: *\r\n<one|stored null f97c5d29941bfb1b2fdab0874906ab82;\
    PUT /pail/k\nif-none-match: *\r\n<two|PreconditionFailed;\
    GET /pail/k|got null 17 f97c5d29941bfb1b2fdab0874906ab82 one";

// The same of completions: an upload stays whose completion is refused so. That is told behind `NoSuchUpload`, and before the
// parts are judged.
pub(crate) const COMPLETED_ABSENT: &str = "\
    POST /pail/k?uploads|{\"Bucket\":\"pail\",\"Key\":\"k\",\"UploadId\":\"u0000000000000000\"};\
    PUT /pail/k?partNumber=1&uploadId=u0000000000000000<hello|part 5d41402abc4b2a76b9719d911017c592;\
    PUT /pail/k<one|stored - f97c5d29941bfb1b2fdab0874906ab82;\
    POST /pail/k?uploadId=u0000000000000000\nif-none-match: *\r\n<{\"Parts\":[{\"ETag\":\"5d41402abc4b2a76b9719d911017c592\",\"PartNumber\":1}]}|PreconditionFailed;\
    POST /pail/k?uploadId=u0000000000000000\nif-none-match: *\r\n<{\"Parts\":[{\"ETag\":\"a\",\"PartNumber\":2},{\"ETag\":\"a\",\"PartNumber\":1}]}|PreconditionFailed;\
    POST /pail/k?uploadId=u0000000000000000<{\"Parts\":[{\"ETag\":\"a\",\"PartNumber\":2},{\"ETag\":\"a\",\"PartNumber\":1}]}|InvalidPartOrder;\
    POST /pail/k?uploadId=u00000000000000ff\nif-none-match: *\r\n<{\"Parts\":[{\"ETag\":\"a\",\"PartNumber\":2},{\"ETag\":\"a\",\"PartNumber\":1}]}|NoSuchUpload;\
    POST /tub/k?uploadId=u0000000000000000\nif-none-match: *\r\n<{\"Parts\":[{\"ETag\":\"a\",\"PartNumber\":2},{\"ETag\":\"a\",\"PartNumber\":1}]}|NoSuchBucket;\
    DELETE /pail/k|deleted -;\
    POST /pail/k?uploadId=u0000000000000000\nif-none-match: *\r\n<{\"Parts\":[{\"ETag\":\"a\",\"PartNumber\":2},{\"ETag\":\"a\",\"PartNumber\":1}]}|InvalidPartOrder;\
    POST /pail/k?uploadId=u0000000000000000\nif-none-match: *\r\n<{\"Parts\":[{\"ETag\":\"5d41402abc4b2a76b9719d911017c592\",\"PartNumber\":1}]}|completed - 62109206880d38a4010a98e11243924a-1 {\"Bucket\":\"pail\",\"ETag\":\"\\\"62109206880d38a4010a98e11243924a-1\\\"\",\"Key\":\"k\"};\
    POST /pail/k?uploadId=u0000000000000000\nif-none-match: *\r\n<{\"Parts\":[{\"ETag\":\"5d41402abc4b2a76b9719d911017c592\",\"PartNumber\":1}]}|NoSuchUpload;\
    POST /pail/k?uploads|{\"Bucket\":\"pail\",\"Key\":\"k\",\"UploadId\":\"u000000000000000c\"};\
    PUT /pail/k?partNumber=1&uploadId=u000000000000000c<hello|part 5d41402abc4b2a76b9719d911017c592;\
    POST /pail/k?uploadId=u000000000000000c\nif-none-match: *\r\n<{\"Parts\":[{\"ETag\":\"5d41402abc4b2a76b9719d911017c592\",\"PartNumber\":1}]}|PreconditionFailed;\
    PUT /pail/k\nif-none-match: *\r\n<one|PreconditionFailed;\
    POST /pail/k?uploadId=u000000000000000c<{\"Parts\":[{\"ETag\":\"5d41402abc4b2a76b9719d911017c592\",\"PartNumber\":1}]}|completed - 62109206880d38a4010a98e11243924a-1 {\"Bucket\":\"pail\",\"ETag\":\"\\\"62109206880d38a4010a98e11243924a-1\\\"\",\"Key\":\"k\"}";
