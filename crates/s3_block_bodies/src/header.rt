//! The header of a body.
ghost use Rattle.std.specs.Prelude.{◌≡◌, length, IfOk};
ghost use Rattle.s3_block_bodies.specs.Header.{sum_of, header_for};

use s3_bodies::Body;
use s3_checksums::Crc64Nvme;
use s3_terms::NoMemory;
use std::alloc::Global;

/// How many bytes a header has.
pub(crate) const HEADER_SIZE: usize = 32;

/// What a header begins with: "FJBODY" and the version of this form.
const MARK: [u8; 8] = [70, 74, 66, 79, 68, 89, 48, 49];

/// What a header tells of a body.
#[derive(Clone, Copy)]
pub(crate) struct Header {
    /// How many bytes it has.
    pub(crate) size: u64,
    /// Their CRC-64/NVME.
    pub(crate) sum: u64,
}

// The CRC-64/NVME of bytes that lie together.
fn sum_of_bytes(bytes: &[u8]) -> u64
    ensures { result ≡ sum_of bytes.now }
{
    let mut hasher = Crc64Nvme::new();
    hasher.update(bytes);
    hasher.finish()
}

/// The CRC-64/NVME of a body.
pub(crate) fn sum_of_body(body: &Body) -> u64
    ensures { result ≡ sum_of body.now }
{
    let mut hasher = Crc64Nvme::new();
    let mut at = 0;
    while at < body.size() {
        let piece = body.piece(at).bytes();
        hasher.update(piece);
        at += piece.len() as u64;
    }
    hasher.finish()
}

impl Header {
    /// The header of a body.
    pub(crate) fn of(body: &Body) -> Header
        ensures size { result.size ≡ length body.now }
        ensures sum { result.sum ≡ sum_of body.now }
    {
        Header {
            size: body.size(),
            sum: sum_of_body(body),
        }
    }

    /// The numbers that stand in the bytes of a header, whatever the others are.
    pub(crate) fn in_bytes(bytes: &[u8; 32]) -> Header {
        let size = [
            bytes[8], bytes[9], bytes[10], bytes[11], bytes[12], bytes[13], bytes[14], bytes[15],
        ];
        let sum = [
            bytes[16], bytes[17], bytes[18], bytes[19], bytes[20], bytes[21], bytes[22], bytes[23],
        ];
        Header {
            size: u64::from_le_bytes(size),
            sum: u64::from_le_bytes(sum),
        }
    }

    /// Its bytes.
    pub(crate) fn to_bytes(self, alloc: Global) -> Result<Vec<u8>, NoMemory>
        ensures { IfOk result (λ bytes. bytes.items ≡ header_for self.size self.sum) }
    {
        let mut bytes = Vec::with_capacity(alloc, HEADER_SIZE)?;
        bytes.extend_from_slice(&MARK)?;
        bytes.extend_from_slice(&self.size.to_le_bytes())?;
        bytes.extend_from_slice(&self.sum.to_le_bytes())?;
        let sum = sum_of_bytes(bytes.as_slice());
        bytes.extend_from_slice(&sum.to_le_bytes())?;
        Ok(bytes)
    }
}
