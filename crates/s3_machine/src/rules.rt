//! What stays the same of all entries.
ghost use Rattle.std.specs.Prelude.{◌≡◌};
ghost use Rattle.s3_machine.specs.Rules.{rules_of};

use crate::Region;
use s3_config::Config;

/// What stays the same of all entries of a server.
#[derive(Drop)]
pub struct Rules {
    /// The least size, in bytes, of a part that isn't the last one of its upload.
    pub least_part: u64,
    /// The region that all buckets are in.
    pub region: Region,
}

impl Rules {
    /// The rules of a server that is started so.
    pub fn of(config: &Config) -> Rules
        ensures { result ≡ rules_of config.now }
    {
        Rules {
            least_part: config.min_part(),
            region: Region::of(config),
        }
    }
}
