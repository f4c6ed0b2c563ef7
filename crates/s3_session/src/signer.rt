//! What is kept of the heads that were verified.

ghost use Rattle.std.specs.Prelude.{◌≡◌, false};

use s3_signing::KeptKey;

/// What is kept of heads that were verified. The signing key of the last one saves time, and decides nothing. Beside it
/// stands whether the head that its connection holds was verified.
#[derive(Drop)]
pub struct HeadSigner {
    pub(crate) key: KeptKey,
    pub(crate) is_verified: bool,
}

impl HeadSigner {
    /// None was verified.
    pub fn new() -> HeadSigner
        ensures { result.is_verified ≡ false }
    {
        HeadSigner {
            key: KeptKey::new(),
            is_verified: false,
        }
    }

    // The head of another message is at hand, or none any more: none that is there was verified.
    pub(crate) fn begins(&mut self)
        ensures { self.new.is_verified ≡ false }
    {
        self.is_verified = false;
    }
}
