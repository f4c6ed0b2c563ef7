//! A short text, kept in place.
ghost use Rattle.std.specs.Prelude.{◌≡◌, ◌≤◌, length};

use std::marker::Model;

/// The most bytes that a short text has. With a byte for their number, and one for where the bytes of a `Text` are, they fill five words.
pub(crate) const SHORT_MAX: usize = 38;

/// A text of at most 38 bytes. A contract sees it as its bytes.
#[derive(Drop)]
pub(crate) struct Short {
    bytes: [u8; SHORT_MAX],
    len: u8,
}

impl Model for Short {
    ghost use Rattle.std.specs.Prelude.{ℕ, ◌≤◌, List, take};

    ghost Value = { List ℕ };

    ghost view = { λ text. take text.len text.bytes };

    ghost invariant = { λ text. text.len ≤ 38 };
}

impl Short {
    /// The text of these bytes.
    #[tactic(auto, using(crate::proofs::TagLemmas::text_placed))]
    pub(crate) fn of(bytes: &[u8]) -> Short
        requires { length bytes.now ≤ 38 }
        ensures { result ≡ bytes.now }
    {
        let mut short = [0; SHORT_MAX];
        short[..bytes.len()].copy_from_slice(bytes);
        Short {
            bytes: short,
            len: bytes.len() as u8,
        }
    }

    /// A text of the same bytes.
    pub(crate) fn copy(&self) -> Short
        ensures { result ≡ self.now }
    {
        Short {
            bytes: self.bytes,
            len: self.len,
        }
    }

    /// Its bytes.
    pub(crate) fn as_bytes(&self) -> &[u8]
        ensures { result.now ≡ self.now }
    {
        &self.bytes[..self.len as usize]
    }
}
