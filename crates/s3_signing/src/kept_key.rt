//! The signing key of the last verified head, kept for the heads that come behind it.

ghost use Rattle.std.specs.Prelude.{◌≡◌, ◌≤◌, ◌&&◌, is_some, nat_le, if◌then◌else◌, Some, None, IfSome, length};
ghost use Rattle.std.specs.Str.{bytes_eq};
ghost use Rattle.s3_calendar.specs.Moment.{stamp_date};
ghost use Rattle.s3_signing.specs.Key.{signing_key};

use crate::key::{SECRET_MAX, SigningKey};
use crate::region::{REGION_MAX, Region};
use arrayvec::ArrayVec;
use s3_calendar::Stamp;
use std::marker::Model;

// A signing key, with the secret, a stamp of the day and the region that it was made of.
#[derive(Drop)]
struct MadeKey {
    secret: ArrayVec<u8, SECRET_MAX>,
    stamp: Stamp,
    region: Region,
    key: SigningKey,
}

impl Model for MadeKey {
    ghost use Rattle.std.specs.Prelude.{◌≡◌};
    ghost use Rattle.s3_calendar.specs.Moment.{stamp_date};
    ghost use Rattle.s3_signing.specs.Key.{Made, signing_key};

    ghost Value = { Made };

    ghost view = { λ m. record { secret = m.secret.items; stamp = m.stamp; region = m.region } };

    ghost invariant = { λ m. m.key ≡ signing_key m.secret.items (stamp_date m.stamp) m.region };
}

impl MadeKey {
    // The key, if it was made of these.
    fn key_of(&self, secret: &[u8], stamp: &Stamp, region: &[u8]) -> Option<SigningKey>
        ensures value { IfSome result (λ key. key ≡ signing_key secret.now (stamp_date stamp.now) region.now) }
        ensures found { is_some result ≡ (bytes_eq self.now.secret secret.now
            && bytes_eq (stamp_date self.now.stamp) (stamp_date stamp.now) && bytes_eq self.now.region region.now) }
    {
        if self.secret.as_slice() != secret || self.stamp.date() != stamp.date() {
            return None;
        }
        if self.region.as_bytes() != region {
            return None;
        }
        Some(self.key.copy())
    }
}

/// The signing key of the last verified head, or none: a client's signing key is the same all day. It takes no
/// memory. That a key which is kept belongs to what it is taken for is an invariant of this type, so that
/// nothing depends on which one is kept, but time.
#[derive(Drop)]
pub struct KeptKey {
    last: Option<MadeKey>,
}

impl Model for KeptKey {
    ghost use Rattle.std.specs.Prelude.{Option};
    ghost use Rattle.s3_signing.specs.Key.{Made};

    ghost Value = { Option Made };

    ghost view = { λ k. k.last };
}

impl KeptKey {
    /// No key yet.
    pub fn new() -> KeptKey
        ensures { result ≡ None }
    {
        KeptKey { last: None }
    }

    // The key that signs with this secret on the stamp's day to this region: the one that is kept, where it was made
    // of these.
    pub(crate) fn key_of(&self, secret: &[u8], stamp: &Stamp, region: &[u8]) -> SigningKey
        ensures { result ≡ signing_key secret.now (stamp_date stamp.now) region.now }
    {
        if let Some(made) = &self.last {
            if let Some(key) = made.key_of(secret, stamp, region) {
                return key;
            }
        }
        SigningKey::new(secret, stamp.date(), region)
    }

    // Keeps the key of these in the place of the last one, if the secret isn't longer than those of access keys.
    pub(crate) fn keep(&mut self, secret: &[u8], stamp: Stamp, region: &[u8], key: SigningKey)
        requires region { length region.now ≤ REGION_MAX }
        requires key { key ≡ signing_key secret.now (stamp_date stamp) region.now }
        ensures { self.new ≡ (if nat_le (length secret.now) SECRET_MAX
            then Some (record { secret = secret.now; stamp = stamp; region = region.now }) else self.old) }
    {
        if let Ok(secret) = secret.try_into() {
            let region = Region::copy(region);
            self.last = Some(MadeKey {
                secret,
                stamp,
                region,
                key,
            });
        }
    }
}
