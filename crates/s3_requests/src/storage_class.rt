//! The storage class that the head of a write asks for.
ghost use Rattle.std.specs.Prelude.{◌≡◌};
ghost use Rattle.std.specs.List.{list_any};
ghost use Rattle.s3_requests.specs.StorageClass as rules;

use crate::operations::{Operation, is_xml};
use s3_http_heads::{Head, is_named};
use s3_terms::Dialect;

/// The storage classes of S3, with a space between each two.
const CLASSES: &[u8] =
    b"STANDARD REDUCED_REDUNDANCY STANDARD_IA ONEZONE_IA INTELLIGENT_TIERING GLACIER DEEP_ARCHIVE OUTPOSTS GLACIER_IR SNOW EXPRESS_ONEZONE FSX_OPENZFS FSX_ONTAP";

// Whether a line asks for another class than these an operation that makes an object, and documents are XML; where they are
// JSON all such lines are passed over.
pub(crate) fn asks_for_no_class(dialect: Dialect, operation: Operation, head: &Head) -> bool
    ensures { result ≡ rules.asks_for_no_class dialect operation head.now }
{
    is_xml(dialect) && takes_class(operation) && has_line_of_no_class(head)
}

// Whether an operation makes an object, of a class that its head may name.
fn takes_class(operation: Operation) -> bool
    ensures { result ≡ rules.takes_class operation }
{
    matches!(
        operation,
        Operation::PutObject | Operation::CopyObject | Operation::CreateMultipartUpload
    )
}

// Whether a line asks for another class.
fn has_line_of_no_class(head: &Head) -> bool
    ensures { result ≡ list_any (λ line. rules.is_of_no_class line) head.now.headers }
{
    for index in 0..head.header_count() {
        let (name, value) = head.header(index);
        if is_of_no_class(name, value) {
            return true;
        }
    }
    false
}

// Whether the line of this name and this value does.
fn is_of_no_class(name: &[u8], value: &[u8]) -> bool
    ensures { result ≡ rules.is_of_no_class (name.now, value.now) }
{
    is_named(name, b"x-amz-storage-class") && !is_storage_class(value)
}

// Whether a value is a class of S3.
fn is_storage_class(value: &[u8]) -> bool
    ensures { result ≡ rules.is_storage_class value.now }
{
    CLASSES
        .split(|byte| *byte == b' ')
        .any(|name| value == name)
}
