//! Header lines that ask of an operation for what Amazon S3 has and this server hasn't.
ghost use Rattle.std.specs.Prelude.{◌≡◌};
ghost use Rattle.std.specs.List.{list_any};
ghost use Rattle.std.specs.Str.{bytes_eq};
ghost use Rattle.s3_requests.specs.LineNames as names;
ghost use Rattle.s3_requests.specs.Unserved as rules;

use crate::line_names::begins_with;
use crate::operations::{Operation, is_xml};
use s3_http_heads::{Head, is_named};
use s3_terms::Dialect;

// Whether a line asks this operation for it, and documents are XML; where they are JSON all such lines are passed over.
pub(crate) fn asks_for_more(dialect: Dialect, operation: Operation, head: &Head) -> bool
    ensures { result ≡ rules.asks_for_more dialect operation head.now }
{
    is_xml(dialect) && has_unserved_line(operation, head)
}

// Whether a line does.
fn has_unserved_line(operation: Operation, head: &Head) -> bool
    ensures { result ≡ list_any (λ line. rules.is_unserved_line operation line) head.now.headers }
{
    for index in 0..head.header_count() {
        let (name, value) = head.header(index);
        if is_unserved_line(operation, name, value) {
            return true;
        }
    }
    false
}

// Whether the line of this name and this value does.
fn is_unserved_line(operation: Operation, name: &[u8], value: &[u8]) -> bool
    ensures { result ≡ rules.is_unserved_line operation (name.now, value.now) }
{
    match operation {
        Operation::CreateBucket
        | Operation::PutObject
        | Operation::CreateMultipartUpload
        | Operation::UploadPart
        | Operation::UploadPartCopy
        | Operation::CompleteMultipartUpload => is_unserved_of_write(name, value),
        Operation::CopyObject => is_unserved_of_write(name, value) || is_unserved_of_copy(name),
        Operation::GetObject | Operation::HeadObject => is_unserved_of_read(name),
        Operation::DeleteObject => is_unserved_of_delete(name),
        Operation::ListBuckets
        | Operation::HeadBucket
        | Operation::DeleteBucket
        | Operation::PutBucketVersioning
        | Operation::GetBucketVersioning
        | Operation::GetBucketLocation
        | Operation::GetBucketConfiguration(_)
        | Operation::ListObjects
        | Operation::ListObjectsV2
        | Operation::ListObjectVersions
        | Operation::ListMultipartUploads
        | Operation::DeleteObjects
        | Operation::PostObject
        | Operation::GetObjectTagging
        | Operation::GetObjectPart
        | Operation::HeadObjectPart
        | Operation::ListParts
        | Operation::AbortMultipartUpload => false,
    }
}

// Whether it asks a write for it: by how its name begins, or by its name and a value that isn't so here anyway.
fn is_unserved_of_write(name: &[u8], value: &[u8]) -> bool
    ensures { result ≡ rules.is_unserved_of_write (name.now, value.now) }
{
    has_unserved_front(name) || has_unserved_name(name, value)
}

// Whether its name begins so.
fn has_unserved_front(name: &[u8]) -> bool
    ensures { result ≡ list_any (λ front. names.begins_with front name.now) rules.unserved_fronts }
{
    begins_with(name, b"x-amz-server-side-encryption")
        || begins_with(name, b"x-amz-copy-source-server-side-encryption-")
        || begins_with(name, b"x-amz-object-lock-")
        || begins_with(name, b"x-amz-grant-")
}

// Whether its name is such, and its value says something else than what is so here anyway.
fn has_unserved_name(name: &[u8], value: &[u8]) -> bool
    ensures { result ≡ list_any (λ row. rules.says_other row (name.now, value.now)) rules.unserved_names }
{
    (is_named(name, b"x-amz-acl") && !is_for_the_owner(value))
        || (is_named(name, b"x-amz-bucket-object-lock-enabled") && value != b"false".as_slice())
        || is_named(name, b"x-amz-tagging")
        || (is_named(name, b"x-amz-tagging-directive") && value != b"COPY".as_slice())
        || is_named(name, b"x-amz-website-redirect-location")
}

// Whether these grants leave all to the owner.
fn is_for_the_owner(grants: &[u8]) -> bool
    ensures { result ≡ list_any (λ value. bytes_eq grants.now value) rules.grants_of_owner }
{
    grants == b"private".as_slice()
        || grants == b"bucket-owner-full-control".as_slice()
        || grants == b"bucket-owner-read".as_slice()
}

// Whether lines of this name ask a read for it: they tell a key that the client has.
fn is_unserved_of_read(name: &[u8]) -> bool
    ensures { result ≡ rules.is_unserved_of_read name.now }
{
    begins_with(name, b"x-amz-server-side-encryption-customer-")
}

// Whether lines of this name ask a copy for it: they set a condition for what it replaces.
fn is_unserved_of_copy(name: &[u8]) -> bool
    ensures { result ≡ rules.is_unserved_of_copy name.now }
{
    is_named(name, b"if-match") || is_named(name, b"if-none-match")
}

// Whether lines of this name ask a delete for it: they set a condition for the date or the size of what is deleted.
fn is_unserved_of_delete(name: &[u8]) -> bool
    ensures { result ≡ rules.is_unserved_of_delete name.now }
{
    is_named(name, b"x-amz-if-match-last-modified-time") || is_named(name, b"x-amz-if-match-size")
}
