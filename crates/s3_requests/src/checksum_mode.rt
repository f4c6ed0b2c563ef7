//! Whether a reader wants to be told checksums.
ghost use Rattle.std.specs.Prelude.{◌≡◌};
ghost use Rattle.s3_requests.specs.ChecksumMode.{asks_for_checksums};

use s3_http_heads::Head;
use s3_terms::Dialect;

/// Whether the message with this head asks for the checksums of an object: in S3's dialect its first
/// `x-amz-checksum-mode` is `ENABLED` (Amazon S3 API Reference, GetObject). The cost is linear in the header lines.
pub fn asks_for_checksums(dialect: Dialect, head: &Head) -> bool
    ensures { result ≡ asks_for_checksums dialect head.now }
{
    match (dialect, head.first(b"x-amz-checksum-mode")) {
        (Dialect::S3, Some(value)) => value == b"ENABLED".as_slice(),
        _ => false,
    }
}
