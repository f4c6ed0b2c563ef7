//! The versioning that the body of a request asks for.
ghost use Rattle.std.specs.Prelude.{◌≡◌, ◌<◌, length, IfErr};
ghost use Rattle.s3_terms.specs.Fault.{Follows};
ghost use Rattle.s3_request_documents.specs.Data.{seen};
ghost use Rattle.s3_request_documents.specs.Versioning.{status_in, status_named, versioning_in_json, versioning_in_xml, versioning_read};

use crate::body::parsed;
use crate::data::{as_str, get};
use crate::root_field::root_field;
use json::{Scratch, Value};
use s3_terms::{Code, Dialect};
use s3_versions::VersioningStatus;
use std::alloc::Global;

/// The status that the body of a PutBucketVersioning asks for: its member `Status` in JSON, and the text of the element
/// `Status` right in the root `VersioningConfiguration` in XML; the last one where there are several. What else is
/// there is ignored.
///
/// # Errors
///
/// `MalformedBody` for JSON, and `MalformedXML` for XML, where the body isn't such a document, or asks for neither
/// status. `InternalError` where memory runs out, which comes only where there is a body.
pub fn read_versioning(
    alloc: Global,
    dialect: Dialect,
    body: &[u8],
) -> Result<VersioningStatus, Code>
    ensures rule { Follows result (versioning_read dialect body.now) }
    ensures memory { IfErr result (λ code. code ≡ Code.InternalError → 0 < length body.now) }
{
    match dialect {
        Dialect::Json => in_json(alloc, body),
        Dialect::S3 => in_xml(alloc, body),
    }
}

// What a body asks for as JSON.
fn in_json(alloc: Global, body: &[u8]) -> Result<VersioningStatus, Code>
    ensures rule { Follows result (versioning_in_json body.now) }
    ensures memory { IfErr result (λ code. code ≡ Code.InternalError → 0 < length body.now) }
{
    let mut scratch = Scratch::new(alloc);
    let value = parsed(alloc, body, &mut scratch)?;
    match named_status(&value) {
        Some(status) => Ok(status),
        None => Err(Code::MalformedBody),
    }
}

// What a body asks for in XML.
fn in_xml(alloc: Global, body: &[u8]) -> Result<VersioningStatus, Code>
    ensures rule { Follows result (versioning_in_xml body.now) }
    ensures memory { IfErr result (λ code. code ≡ Code.InternalError → 0 < length body.now) }
{
    let Some(name) = root_field(alloc, b"VersioningConfiguration", b"Status", body)? else {
        return Err(Code::MalformedXML);
    };
    match status_of(name.as_bytes()) {
        Some(status) => Ok(status),
        None => Err(Code::MalformedXML),
    }
}

// The status that a value names.
fn named_status(value: &Value<'_>) -> Option<VersioningStatus>
    ensures { result ≡ status_in (seen value.now) }
{
    let name = as_str(get(value, "Status")?)?;
    status_of(name.as_bytes())
}

// The status of a name.
fn status_of(name: &[u8]) -> Option<VersioningStatus>
    ensures { result ≡ status_named name.now }
{
    if name == b"Enabled".as_slice() {
        return Some(VersioningStatus::Enabled);
    }
    if name == b"Suspended".as_slice() {
        return Some(VersioningStatus::Suspended);
    }
    None
}
