//! A checksum that was sent.
ghost use Rattle.std.specs.Prelude.{◌≡◌, ◌≤◌, is_some, length, take};
ghost use Rattle.base64.specs.Engines.{standard};
ghost use Rattle.base64.specs.GeneralPurpose.{encode_of};
ghost use Rattle.s3_integrity.specs.Sum.{algorithm_of, as_many, bytes_of, checksum_of, decoded_as, is_spelled};

use crate::ChecksumAlgorithm;
use crate::checksum_text::{ChecksumText, TEXT_MAX};
use base64::engine::general_purpose::STANDARD;

// The bytes of room that the decoder asks for such a text.
const ROOM: usize = 33;

/// A checksum of one kind: its bytes, of a CRC the highest first.
#[derive(Clone, Copy)]
pub enum Checksum {
    /// A CRC-32.
    Crc32([u8; 4]),
    /// A CRC-32C.
    Crc32c([u8; 4]),
    /// A CRC-64/NVME.
    Crc64Nvme([u8; 8]),
    /// A SHA-1.
    Sha1([u8; 20]),
    /// A SHA-256.
    Sha256([u8; 32]),
}

impl Checksum {
    /// The checksum that the value of the kind's header says: `text` is the base64 (RFC 4648, section 4) of as many bytes as
    /// the kind has. `None` for any other text: of more or fewer bytes, without its padding, or with anything around it. It
    /// takes a bounded time, and no memory.
    #[tactic(auto, unfolding(crate::specs::Sum::checksum_of))]
    pub fn read(algorithm: ChecksumAlgorithm, text: &[u8]) -> Option<Checksum>
        ensures value { result ≡ checksum_of algorithm text.now }
        ensures spelled { is_some result ≡ is_spelled algorithm text.now }
    {
        match algorithm {
            ChecksumAlgorithm::Crc32 => Some(Checksum::Crc32(decoded(text)?)),
            ChecksumAlgorithm::Crc32c => Some(Checksum::Crc32c(decoded(text)?)),
            ChecksumAlgorithm::Crc64Nvme => Some(Checksum::Crc64Nvme(decoded(text)?)),
            ChecksumAlgorithm::Sha1 => Some(Checksum::Sha1(decoded(text)?)),
            ChecksumAlgorithm::Sha256 => Some(Checksum::Sha256(decoded(text)?)),
        }
    }

    /// Its kind. It takes no time and no memory.
    pub fn algorithm(&self) -> ChecksumAlgorithm
        ensures { result ≡ algorithm_of self.now }
    {
        match self {
            Checksum::Crc32(_) => ChecksumAlgorithm::Crc32,
            Checksum::Crc32c(_) => ChecksumAlgorithm::Crc32c,
            Checksum::Crc64Nvme(_) => ChecksumAlgorithm::Crc64Nvme,
            Checksum::Sha1(_) => ChecksumAlgorithm::Sha1,
            Checksum::Sha256(_) => ChecksumAlgorithm::Sha256,
        }
    }

    /// Its bytes. It takes no time and no memory.
    pub fn bytes(&self) -> &[u8]
        ensures value { result.now ≡ bytes_of self.now }
        ensures bound { length (bytes_of self.now) ≤ 32 }
    {
        match self {
            Checksum::Crc32(bytes) => bytes,
            Checksum::Crc32c(bytes) => bytes,
            Checksum::Crc64Nvme(bytes) => bytes,
            Checksum::Sha1(bytes) => bytes,
            Checksum::Sha256(bytes) => bytes,
        }
    }

    /// The value of its header: the base64 of its bytes. It takes a bounded time, and no memory.
    pub fn text(&self) -> ChecksumText
        ensures { result ≡ encode_of standard (bytes_of self.now) }
    {
        ChecksumText::of(self.bytes())
    }
}

// The N bytes whose base64 the text is.
fn decoded<const N: usize>(text: &[u8]) -> Option<[u8; N]>
    requires { N ≤ 32 }
    ensures { result ≡ decoded_as N text.now }
{
    if text.len() > TEXT_MAX {
        return None;
    }
    let mut room = [0u8; ROOM];
    match STANDARD.decode_slice_unchecked(text, &mut room) {
        Ok(len) => as_many(&room, len),
        Err(_) => None,
    }
}

// The first bytes, if they are N.
fn as_many<const N: usize>(bytes: &[u8; ROOM], len: usize) -> Option<[u8; N]>
    requires size { N ≤ 32 }
    requires within { len ≤ 33 }
    ensures { result ≡ as_many N (take len bytes.now) }
{
    if len != N {
        return None;
    }
    let mut many = [0u8; N];
    many.copy_from_slice(&bytes[..N]);
    Some(many)
}
