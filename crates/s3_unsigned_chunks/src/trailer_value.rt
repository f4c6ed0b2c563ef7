//! The value of a trailer, byte by byte.

ghost use Rattle.std.specs.Prelude.{◌≡◌, ◌<◌, [], ◌∷◌, ◌++◌, length};

use std::marker::Model;

/// The most bytes that a trailer's value has.
pub(crate) const VALUE_MAX: u8 = 64;

/// The value so far. A contract sees it as its bytes.
#[derive(Drop)]
pub(crate) struct TrailerValue {
    bytes: [u8; 64],
    count: u8,
}

impl Model for TrailerValue {
    ghost use Rattle.std.specs.Prelude.{ℕ, ◌≤◌, List, take};

    ghost Value = { List ℕ };

    ghost view = { λ v. take v.count v.bytes };

    ghost invariant = { λ v. v.count ≤ 64 };
}

impl TrailerValue {
    // No byte yet.
    pub(crate) fn new() -> TrailerValue
        ensures { result ≡ [] }
    {
        TrailerValue {
            bytes: [0; 64],
            count: 0,
        }
    }

    // How many bytes it has.
    pub(crate) fn count(&self) -> u8
        ensures { result ≡ length self.now }
    {
        self.count
    }

    // Its bytes.
    pub(crate) fn bytes(&self) -> &[u8]
        ensures { «result».now ≡ self.now }
    {
        &self.bytes[..self.count as usize]
    }

    // Takes one more byte.
    pub(crate) fn push(&mut self, byte: u8)
        requires { length self.old < 64 }
        ensures { self.new ≡ self.old ++ byte ∷ [] }
    {
        self.bytes[self.count as usize] = byte;
        self.count += 1;
    }
}
