//! The name of a region, held in place.

ghost use Rattle.std.specs.Prelude.{◌≡◌, ◌≤◌, length};

use std::marker::Model;

/// The longest name of a region, in bytes.
pub const REGION_MAX: usize = 64;

/// The name of a region, of at most 64 bytes. It is held in place and takes no memory; a contract
/// sees it as its bytes.
#[derive(Drop)]
pub struct Region {
    bytes: [u8; REGION_MAX],
    length: usize,
}

impl Model for Region {
    ghost use Rattle.std.specs.Prelude.{ℕ, List, ◌≤◌, take};

    ghost Value = { List ℕ };

    ghost view = { λ r. take r.length r.bytes };

    ghost invariant = { λ r. r.length ≤ 64 };
}

impl Region {
    /// A copy of a name of at most 64 bytes.
    pub fn copy(name: &[u8]) -> Region
        requires { length name.now ≤ REGION_MAX }
        ensures { result ≡ name.now }
    {
        let mut bytes = [0; REGION_MAX];
        bytes[..name.len()].copy_from_slice(name);
        Region {
            bytes,
            length: name.len(),
        }
    }

    /// Its bytes.
    pub fn as_bytes(&self) -> &[u8]
        ensures value { result.now ≡ self.now }
        ensures bound { length result.now ≤ REGION_MAX }
    {
        &self.bytes[..self.length]
    }
}
