//! The region that the body of a request asks for.
ghost use Rattle.std.specs.Prelude.{◌≡◌, ◌<◌, true, length, IfErr};
ghost use Rattle.std.specs.Option.{option_map_or};
ghost use Rattle.s3_terms.specs.Fault.{Follows};
ghost use Rattle.s3_request_documents.specs.Location.{is_met_by, location_read};

use crate::root_field::{FieldText, root_field};
use s3_terms::Code;
use std::alloc::Global;

/// Judges the body of a CreateBucket in XML, where a server has this region. An empty body is right, and so is a
/// document whose root is `CreateBucketConfiguration` and whose element `LocationConstraint` right in it, the last one
/// where there are several, has an empty text or the region; or that has no such element. Other elements are ignored.
///
/// # Errors
///
/// `MalformedXML` where the body isn't empty and no such document, and `InvalidLocationConstraint` where it has another
/// text. `InternalError` where memory runs out, which comes only where there is a body.
pub fn read_location(alloc: Global, region: &[u8], body: &[u8]) -> Result<(), Code>
    ensures rule { Follows result (location_read region.now body.now) }
    ensures memory { IfErr result (λ code. code ≡ Code.InternalError → 0 < length body.now) }
{
    if body.is_empty() {
        return Ok(());
    }
    let constraint = root_field(
        alloc,
        b"CreateBucketConfiguration",
        b"LocationConstraint",
        body,
    )?;
    if !is_met(region, constraint) {
        return Err(Code::InvalidLocationConstraint);
    }
    Ok(())
}

// Whether a region meets a constraint, if there is one.
fn is_met(region: &[u8], constraint: Option<FieldText>) -> bool
    ensures { result ≡ option_map_or (is_met_by region.now) constraint true }
{
    match constraint {
        Some(text) => text.as_bytes().is_empty() || text.as_bytes() == region,
        None => true,
    }
}
