//! How the names of header lines begin.
ghost use Rattle.std.specs.Prelude.{◌≡◌, take};
ghost use Rattle.s3_requests.specs.LineNames as rules;

use s3_http_heads::is_named;

// Whether a name begins so, in capitals or not; the beginning is given in lower case.
pub(crate) fn begins_with(name: &[u8], front: &[u8]) -> bool
    ensures { result ≡ rules.begins_with front.now name.now }
{
    is_named(first_bytes(name, front.len()), front)
}

// So many bytes of a name, or all where it has fewer.
fn first_bytes(name: &[u8], count: usize) -> &[u8]
    ensures { result.now ≡ take count name.now }
{
    let (first, _) = name.split_at(name.len().min(count));
    first
}
