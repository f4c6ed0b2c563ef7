//! The text of a checksum.
ghost use Rattle.std.specs.Prelude.{◌≡◌, ◌≤◌, length};
ghost use Rattle.base64.specs.Engines.{standard};
ghost use Rattle.base64.specs.GeneralPurpose.{encode_of};

use base64::engine::general_purpose::STANDARD;
use std::marker::Model;

// The longest text: the base64 of 32 bytes.
pub(crate) const TEXT_MAX: usize = 44;

/// The text of a checksum, as the value of its header tells it: the base64 of its bytes (RFC 4648, section 4). A contract sees
/// it as its own bytes, which are 44 at most.
#[derive(Drop)]
pub struct ChecksumText {
    bytes: [u8; TEXT_MAX],
    len: usize,
}

impl Model for ChecksumText {
    ghost use Rattle.std.specs.Prelude.{ℕ, ◌≤◌, List, take};

    ghost Value = { List ℕ };

    ghost view = { λ text. take text.len text.bytes };

    ghost invariant = { λ text. text.len ≤ 44 };
}

impl ChecksumText {
    // That of these bytes.
    #[tactic(auto, using(crate::proofs::TextLemmas::encoded_front, crate::proofs::TextLemmas::encoded_fits))]
    pub(crate) fn of(bytes: &[u8]) -> ChecksumText
        requires { length bytes.now ≤ 32 }
        ensures { result ≡ encode_of standard bytes.now }
    {
        let mut text = [0u8; TEXT_MAX];
        match STANDARD.encode_slice(bytes, &mut text) {
            Ok(len) => ChecksumText { bytes: text, len },
            // It fits.
            Err(_) => unreachable!(),
        }
    }

    /// Its bytes. It takes no time and no memory.
    pub fn as_bytes(&self) -> &[u8]
        ensures value { result.now ≡ self.now }
        ensures bound { length self.now ≤ 44 }
    {
        &self.bytes[..self.len]
    }
}
