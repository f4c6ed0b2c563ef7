//! The canonical URI and the canonical query of what a target says.

ghost use Rattle.std.specs.Prelude.{◌≡◌, IfOk, IsOkUnless};
ghost use Rattle.s3_canonical.specs.CanonicalTarget.{canonical_query, canonical_uri};

use crate::encoding::encode_path;
use crate::parameter::sorted_query;
use s3_http_heads::Target;
use s3_terms::Code;
use std::alloc::{AllocError, Global};

/// The canonical URI of a target: its path, which was decoded once, encoded once, and not normalised.
///
/// `InternalError` where memory runs out, and no other error. Takes time and memory by the path's
/// length.
#[tactic(auto, unfolding(crate::specs::CanonicalTarget::canonical_uri))]
pub fn uri(alloc: Global, target: &Target) -> Result<Vec<u8>, Code>
    ensures value { IfOk result (λ text. text.items ≡ canonical_uri target.now) }
    ensures memory { IsOkUnless result Code.InternalError }
{
    match encode_path(alloc, target.path()) {
        Ok(text) => Ok(text),
        Err(AllocError) => Err(Code::InternalError),
    }
}

/// The canonical query of a target: its parameters, their names and values encoded once, sorted by
/// encoded name and then by encoded value, each as `name=value`, joined by `&`. `X-Amz-Signature`, which a
/// presigned query has, is left out (Amazon S3 API Reference, "Authenticating requests: using query parameters").
///
/// `InternalError` where memory runs out, and no other error. Takes memory by the query's length, and time
/// by it but for the sort, which compares each of the parameters with as many others as the logarithm of
/// their count.
#[tactic(auto, unfolding(crate::specs::CanonicalTarget::canonical_query))]
pub fn query(alloc: Global, target: &Target) -> Result<Vec<u8>, Code>
    ensures value { IfOk result (λ text. text.items ≡ canonical_query target.now) }
    ensures memory { IsOkUnless result Code.InternalError }
{
    match sorted_query(alloc, target) {
        Ok(text) => Ok(text),
        Err(AllocError) => Err(Code::InternalError),
    }
}
