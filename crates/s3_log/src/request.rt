//! What a head says of its request, as it was sent.

ghost use Rattle.std.specs.Prelude.{◌≡◌};
ghost use Rattle.s3_log.specs.Operation.{operation_of};
ghost use Rattle.s3_log.specs.Request as rules;

use crate::cut::{cut_far, cut_near};
use crate::operation::{Target, operation_of};

/// What a head says of its request: nothing of what isn't there.
#[derive(Clone, Copy)]
pub(crate) struct Request<'a> {
    /// The name of the operation, where it is known.
    pub(crate) operation: &'a [u8],
    /// The method.
    pub(crate) method: &'a [u8],
    /// The bucket that the path names, and the key.
    pub(crate) bucket: &'a [u8],
    pub(crate) key: &'a [u8],
    /// The query of the target.
    pub(crate) query: &'a [u8],
}

impl<'a> Request<'a> {
    /// What the head says. Takes time by the length of its first line.
    pub(crate) fn read(head: &'a [u8]) -> Request<'a>
        ensures operation { result.operation.now ≡ operation_of head.now }
        ensures method { result.method.now ≡ rules.method_of head.now }
        ensures bucket { result.bucket.now ≡ rules.bucket_of head.now }
        ensures key { result.key.now ≡ rules.key_of head.now }
        ensures query { result.query.now ≡ rules.query_of head.now }
    {
        let (line, _) = cut_far(head, b'\n');
        let (method, behind) = cut_near(line, b' ');
        let (target, _) = cut_near(behind, b' ');
        let (path, query) = cut_near(target, b'?');
        let (bucket, key) = cut_near(behind_slash(path), b'/');
        let asked = Target {
            path,
            bucket,
            key,
            query,
        };
        Request {
            operation: operation_of(head, method, &asked),
            method,
            bucket,
            key,
            query,
        }
    }
}

// A path behind the slash with which it has to begin.
fn behind_slash(path: &[u8]) -> &[u8]
    ensures { result.now ≡ rules.behind_slash path.now }
{
    if path.starts_with(b"/") {
        cut_near(path, b'/').1
    } else {
        &[]
    }
}
