//! For how many seconds a presigned request holds.

ghost use Rattle.std.specs.Prelude.{◌≡◌, ◌≤◌};
ghost use Rattle.s3_authorization.specs.Expires.{as_expires, expires_of};

use s3_text::decimal_number;
use std::marker::Model;

/// The most seconds for which a presigned request holds: seven days.
const EXPIRES_MAX: u64 = 604_800;

/// The most decimal digits that spell them.
const EXPIRES_DIGITS: usize = 6;

/// For how many seconds from its stamp a presigned request holds: from 1 to 604,800, which are seven days (Amazon S3
/// API Reference, "Authenticating requests: using query parameters", X-Amz-Expires).
#[derive(Clone, Copy, PartialEq, Eq)]
pub struct Expires(u32);

impl Model for Expires {
    ghost use Rattle.std.specs.Prelude.{ℕ, ◌≤◌};

    ghost Value = { ℕ };

    ghost view = { λ expires. expires.0 };

    ghost invariant = { λ expires. (1 ≤ expires.0) × (expires.0 ≤ 604_800) };

    ghost inverse = { λ n. record { 0 = n } };
}

impl Expires {
    /// Reads one to six decimal digits, leading zeros among them; `None` where the text is anything else, or the
    /// number out of range.
    #[tactic(auto, unfolding(crate::specs::Expires::expires_of))]
    pub fn read(text: &[u8]) -> Option<Expires>
        ensures { result ≡ expires_of text.now }
    {
        let seconds = decimal_number(text, EXPIRES_DIGITS)?;
        Expires::new(seconds)
    }

    /// So many seconds; `None` where that is out of range.
    pub fn new(seconds: u64) -> Option<Expires>
        ensures { result ≡ as_expires seconds }
    {
        if seconds < 1 || seconds > EXPIRES_MAX {
            return None;
        }
        Some(Expires(seconds as u32))
    }

    /// The number of seconds.
    pub fn seconds(self) -> u32
        ensures value { result ≡ self }
        ensures lower_bound { 1 ≤ result }
        ensures upper_bound { result ≤ 604_800 }
    {
        self.0
    }
}
