//! The table of S3's operations: which one a request asks for, by its method, by what its address names, and by the
//! parameters and lines that tell operations apart; and which of them this server has.
ghost use Rattle.std.specs.Prelude.{◌≡◌};
ghost use Rattle.s3_requests.specs.Operations as rules;

use s3_http_heads::{Head, Method, Target};
use s3_machine::Configuration;
use s3_terms::Dialect;

/// An operation, by its name in the Amazon S3 API Reference. Routing tells none to its caller: the definitions of the table speak
/// of them, also those of crates above.
#[derive(Clone, Copy)]
pub enum Operation {
    ListBuckets,
    CreateBucket,
    HeadBucket,
    DeleteBucket,
    PutBucketVersioning,
    GetBucketVersioning,
    GetBucketLocation,
    /// GetBucketPolicy and its like.
    GetBucketConfiguration(Configuration),
    ListObjects,
    ListObjectsV2,
    ListObjectVersions,
    ListMultipartUploads,
    DeleteObjects,
    PostObject,
    PutObject,
    CopyObject,
    GetObject,
    HeadObject,
    GetObjectTagging,
    /// GetObject and HeadObject of one part.
    GetObjectPart,
    HeadObjectPart,
    DeleteObject,
    CreateMultipartUpload,
    UploadPart,
    UploadPartCopy,
    ListParts,
    CompleteMultipartUpload,
    AbortMultipartUpload,
}

// The operation of a method on the service.
pub(crate) fn service_operation(method: Method) -> Option<Operation>
    ensures { result ≡ rules.service_operation method }
{
    match method {
        Method::Get => Some(Operation::ListBuckets),
        Method::Head | Method::Put | Method::Post | Method::Delete | Method::Other => None,
    }
}

// The operation of a method on a bucket, with the parameters of the target.
pub(crate) fn bucket_operation(method: Method, target: &Target) -> Option<Operation>
    ensures { result ≡ rules.bucket_operation method target.now }
{
    match method {
        Method::Get => Some(bucket_read(target)),
        Method::Head => Some(Operation::HeadBucket),
        Method::Put if target.has_parameter(b"versioning") => Some(Operation::PutBucketVersioning),
        Method::Put => Some(Operation::CreateBucket),
        Method::Post if target.has_parameter(b"delete") => Some(Operation::DeleteObjects),
        Method::Post => Some(Operation::PostObject),
        Method::Delete => Some(Operation::DeleteBucket),
        Method::Other => None,
    }
}

// What a GET of a bucket asks for.
fn bucket_read(target: &Target) -> Operation
    ensures { result ≡ rules.bucket_read target.now }
{
    if target.has_parameter(b"versioning") {
        Operation::GetBucketVersioning
    } else if target.has_parameter(b"uploads") {
        Operation::ListMultipartUploads
    } else if target.has_parameter(b"versions") {
        Operation::ListObjectVersions
    } else if target.has_parameter(b"location") {
        Operation::GetBucketLocation
    } else {
        match configuration_named(target) {
            Some(which) => Operation::GetBucketConfiguration(which),
            None => objects_read(target),
        }
    }
}

// The configuration of a bucket that is named.
fn configuration_named(target: &Target) -> Option<Configuration>
    ensures { result ≡ rules.configuration_named target.now }
{
    if target.has_parameter(b"cors") {
        Some(Configuration::Cors)
    } else if target.has_parameter(b"encryption") {
        Some(Configuration::Encryption)
    } else if target.has_parameter(b"lifecycle") {
        Some(Configuration::Lifecycle)
    } else if target.has_parameter(b"object-lock") {
        Some(Configuration::ObjectLock)
    } else if target.has_parameter(b"ownershipControls") {
        Some(Configuration::OwnershipControls)
    } else if target.has_parameter(b"policy") {
        Some(Configuration::Policy)
    } else if target.has_parameter(b"publicAccessBlock") {
        Some(Configuration::PublicAccessBlock)
    } else if target.has_parameter(b"replication") {
        Some(Configuration::Replication)
    } else if target.has_parameter(b"tagging") {
        Some(Configuration::Tagging)
    } else if target.has_parameter(b"website") {
        Some(Configuration::Website)
    } else {
        None
    }
}

// What a GET of a bucket asks for that names nothing of it.
fn objects_read(target: &Target) -> Operation
    ensures { result ≡ rules.objects_read target.now }
{
    if asks_for_second_list(target) {
        Operation::ListObjectsV2
    } else {
        Operation::ListObjects
    }
}

// Whether the list is asked for in its second version.
fn asks_for_second_list(target: &Target) -> bool
    ensures { result ≡ rules.asks_for_second_list target.now }
{
    match target.first(b"list-type") {
        Some(value) => value == b"2".as_slice(),
        None => false,
    }
}

// The operation of a method on a key, with the parameters of the target and the lines of the head.
pub(crate) fn key_operation(method: Method, head: &Head, target: &Target) -> Option<Operation>
    ensures { result ≡ rules.key_operation method head.now target.now }
{
    match method {
        Method::Get => Some(key_read(target)),
        Method::Head if target.has_parameter(b"partNumber") => Some(Operation::HeadObjectPart),
        Method::Head => Some(Operation::HeadObject),
        Method::Put => Some(key_write(head, target)),
        Method::Post => key_post(target),
        Method::Delete if target.has_parameter(b"uploadId") => {
            Some(Operation::AbortMultipartUpload)
        }
        Method::Delete => Some(Operation::DeleteObject),
        Method::Other => None,
    }
}

// What a GET of a key asks for.
fn key_read(target: &Target) -> Operation
    ensures { result ≡ rules.key_read target.now }
{
    if target.has_parameter(b"tagging") {
        Operation::GetObjectTagging
    } else if target.has_parameter(b"uploadId") {
        Operation::ListParts
    } else if target.has_parameter(b"partNumber") {
        Operation::GetObjectPart
    } else {
        Operation::GetObject
    }
}

// What a PUT of a key asks for.
fn key_write(head: &Head, target: &Target) -> Operation
    ensures { result ≡ rules.key_write head.now target.now }
{
    match (names_part(target), head.is_sent(b"x-amz-copy-source")) {
        (true, true) => Operation::UploadPartCopy,
        (true, false) => Operation::UploadPart,
        (false, true) => Operation::CopyObject,
        (false, false) => Operation::PutObject,
    }
}

// Whether a part of an upload is named.
fn names_part(target: &Target) -> bool
    ensures { result ≡ rules.names_part target.now }
{
    target.has_parameter(b"partNumber") || target.has_parameter(b"uploadId")
}

// What a POST of a key asks for.
fn key_post(target: &Target) -> Option<Operation>
    ensures { result ≡ rules.key_post target.now }
{
    if target.has_parameter(b"uploads") {
        Some(Operation::CreateMultipartUpload)
    } else if target.has_parameter(b"uploadId") {
        Some(Operation::CompleteMultipartUpload)
    } else {
        None
    }
}

// Whether this server has the operation, where its documents are of this dialect.
pub(crate) fn is_served(dialect: Dialect, operation: Operation) -> bool
    ensures { result ≡ rules.is_served dialect operation }
{
    match operation {
        Operation::ListObjects
        | Operation::GetBucketLocation
        | Operation::GetBucketConfiguration(_)
        | Operation::DeleteObjects
        | Operation::GetObjectTagging
        | Operation::UploadPartCopy => is_xml(dialect),
        Operation::PostObject | Operation::GetObjectPart | Operation::HeadObjectPart => false,
        Operation::ListBuckets
        | Operation::CreateBucket
        | Operation::HeadBucket
        | Operation::DeleteBucket
        | Operation::PutBucketVersioning
        | Operation::GetBucketVersioning
        | Operation::ListObjectsV2
        | Operation::ListObjectVersions
        | Operation::ListMultipartUploads
        | Operation::PutObject
        | Operation::CopyObject
        | Operation::GetObject
        | Operation::HeadObject
        | Operation::DeleteObject
        | Operation::CreateMultipartUpload
        | Operation::UploadPart
        | Operation::ListParts
        | Operation::CompleteMultipartUpload
        | Operation::AbortMultipartUpload => true,
    }
}

// Whether documents are XML.
pub(crate) fn is_xml(dialect: Dialect) -> bool
    ensures { result ≡ rules.is_xml dialect }
{
    matches!(dialect, Dialect::S3)
}
