//! The region that all buckets of a server are in.
ghost use Rattle.std.specs.Prelude.{◌≡◌, ◌≤◌, IfOk, IsTrue, length};
ghost use Rattle.s3_config.specs.Settings.{is_region};

use s3_config::Config;
use s3_prefixes::Text;
use s3_terms::NoMemory;
use std::alloc::Global;
use std::marker::Model;

/// The longest name of a region, in bytes.
const REGION_MAX: usize = 64;

/// The name of a server's region, of 1 to 64 of `a-z 0-9 -`. It is held in place and takes no memory; a contract sees its bytes.
#[derive(Drop)]
pub struct Region {
    bytes: [u8; REGION_MAX],
    length: usize,
}

impl Model for Region {
    ghost use Rattle.std.specs.Prelude.{ℕ, List, ◌≤◌, IsTrue, take};
    ghost use Rattle.s3_config.specs.Settings.{is_region};

    ghost Value = { List ℕ };

    ghost view = { λ region. take region.length region.bytes };

    ghost invariant = { λ region. (region.length ≤ 64) × IsTrue (is_region (take region.length region.bytes)) };
}

impl Region {
    /// The region of a server that is started so.
    pub fn of(config: &Config) -> Region
        ensures { result ≡ config.now.region }
    {
        Region::held(config.region())
    }

    // The region of this name, which is copied.
    #[tactic(auto, unfolding(s3_config::specs::Settings::is_region))]
    fn held(name: &[u8]) -> Region
        requires { IsTrue (is_region name.now) }
        ensures { result ≡ name.now }
    {
        let mut bytes = [0; REGION_MAX];
        bytes[..name.len()].copy_from_slice(name);
        Region {
            bytes,
            length: name.len(),
        }
    }

    /// The same region.
    pub fn copy(&self) -> Region
        ensures { result ≡ self.now }
    {
        Region::held(self.as_bytes())
    }

    /// Its bytes.
    pub fn as_bytes(&self) -> &[u8]
        ensures value { result.now ≡ self.now }
        ensures bound { length self.now ≤ 64 }
        ensures valid { IsTrue (is_region self.now) }
    {
        &self.bytes[..self.length]
    }

    /// The same as a text, which it copies.
    pub fn text(&self, alloc: Global) -> Result<Text, NoMemory>
        ensures { IfOk result (λ text. text ≡ self.now) }
    {
        Text::of(alloc, self.as_bytes())
    }
}
