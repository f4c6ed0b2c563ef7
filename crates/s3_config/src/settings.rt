//! Access keys, and the settings of a server.
ghost use Rattle.std.specs.Prelude.{◌≡◌, ◌≤◌, ◌==◌, ◌||◌, ℕ, Bool, List, IsTrue, IfSome, is_some, map, length, option_map};
ghost use Rattle.std.specs.List.{list_all, list_any};
ghost use Rattle.std.specs.Str.{bytes_eq};
ghost use Rattle.s3_names.specs.Names.{is_bucket_name};
ghost use Rattle.s3_config.specs.Settings.{is_id_byte, is_access_key_id, is_secret, are_credentials, is_region_byte, is_region, all_different, are_access_keys, are_opening_buckets, are_settings, greatest_body, secret_of};

use s3_names::BucketName;
use s3_terms::Dialect;
use s3_text::is_letter_or_digit;
use std::marker::Model;

// The longest id of an access key and the longest secret, in bytes.
const CREDENTIAL_MAX: usize = 128;

// The longest name of a region, in bytes.
const REGION_MAX: usize = 64;

// The most access keys of a server.
const KEYS_MAX: usize = 64;

// The greatest body that a server may take, in bytes: 64 MiB, or 5 GiB, where S3's User Guide has 5 GB for one put.
fn greatest_body(dialect: Dialect) -> u64
    ensures { result ≡ greatest_body dialect }
{
    match dialect {
        Dialect::Json => 67_108_864,
        Dialect::S3 => 5_368_709_120,
    }
}

/// An access key: its id and the secret that belongs to it. A contract sees it as both texts.
#[derive(Drop)]
pub struct Credential {
    id: Vec<u8>,
    secret: Vec<u8>,
}

impl Model for Credential {
    ghost use Rattle.std.specs.Prelude.{IsTrue};
    ghost use Rattle.s3_config.specs.Settings.{Credentials, are_credentials};

    ghost Value = { Credentials };

    ghost view = { λ key. record { id = key.id.items; secret = key.secret.items } };

    ghost invariant = { λ key. IsTrue (are_credentials (record { id = key.id.items; secret = key.secret.items })) };
}

impl Credential {
    /// The access key of an id of 1 to 128 bytes without space, `/` and comma, and a secret of 1 to
    /// 128 bytes; `None` for others, which are dropped.
    #[tactic(auto, unfolding(crate::specs::Settings::are_credentials))]
    pub fn new(id: Vec<u8>, secret: Vec<u8>) -> Option<Credential>
        ensures value { IfSome result (λ key. key ≡ record { id = id.items; secret = secret.items }) }
        ensures variant { is_some result ≡ are_credentials (record { id = id.items; secret = secret.items }) }
    {
        if !is_valid_id(id.as_slice()) || !is_valid_secret(secret.as_slice()) {
            return None;
        }
        Some(Credential { id, secret })
    }

    /// The id, as a request names it.
    pub fn id(&self) -> &[u8]
        ensures value { result.now ≡ self.now.id }
        ensures valid { IsTrue (are_credentials self.now) }
    {
        self.id.as_slice()
    }

    /// The secret that signs with this id.
    pub fn secret(&self) -> &[u8]
        ensures value { result.now ≡ self.now.secret }
        ensures valid { IsTrue (are_credentials self.now) }
    {
        self.secret.as_slice()
    }
}

/// What a server is started with. A contract sees it as the record of its settings.
#[derive(Drop)]
pub struct Config {
    region: Vec<u8>,
    keys: Vec<Credential>,
    min_part: u64,
    body_limit: u64,
    buckets: Vec<BucketName>,
    dialect: Dialect,
}

impl Model for Config {
    ghost use Rattle.std.specs.Prelude.{IsTrue};
    ghost use Rattle.s3_config.specs.Settings.{Settings, are_settings};

    ghost Value = { Settings };

    ghost view = { λ config. record {
      region = config.region.items;
      keys = config.keys.items;
      min_part = config.min_part;
      body_limit = config.body_limit;
      buckets = config.buckets.items;
      dialect = config.dialect;
    } };

    ghost invariant = { λ config. IsTrue (are_settings (record {
      region = config.region.items;
      keys = config.keys.items;
      min_part = config.min_part;
      body_limit = config.body_limit;
      buckets = config.buckets.items;
      dialect = config.dialect;
    })) };
}

impl Config {
    /// The settings of these parts: a region of 1 to 64 of `a-z 0-9 -`; 1 to 64 access keys with
    /// distinct ids; the least size of a part that is not the last, in bytes; the greatest size of a
    /// body, in bytes, at most 67,108,864, or 5,368,709,120 in the dialect of S3; the buckets that are
    /// there from the start, with distinct names; and how documents are spelled. `None` where they are out of these limits,
    /// and they are dropped. Compares each bucket with each other.
    #[tactic(auto, unfolding(crate::specs::Settings::are_settings))]
    pub fn new(
        region: Vec<u8>,
        keys: Vec<Credential>,
        min_part: u64,
        body_limit: u64,
        buckets: Vec<BucketName>,
        dialect: Dialect,
    ) -> Option<Config>
        ensures value { IfSome result (λ config. config ≡ record { region = region.items; keys = keys.items; min_part = min_part; body_limit = body_limit; buckets = buckets.items; dialect = dialect }) }
        ensures variant { is_some result ≡ are_settings (record { region = region.items; keys = keys.items; min_part = min_part; body_limit = body_limit; buckets = buckets.items; dialect = dialect }) }
    {
        if !is_valid_region(region.as_slice()) || !are_valid_keys(keys.as_slice()) {
            return None;
        }
        if body_limit > greatest_body(dialect) || !are_valid_buckets(buckets.as_slice()) {
            return None;
        }
        Some(Config {
            region,
            keys,
            min_part,
            body_limit,
            buckets,
            dialect,
        })
    }

    /// The region that signatures name.
    pub fn region(&self) -> &[u8]
        ensures value { result.now ≡ self.now.region }
        ensures valid { IsTrue (are_settings self.now) }
    {
        self.region.as_slice()
    }

    /// The secret of an access key's id, and `None` where no key has it.
    pub fn secret_of(&self, id: &[u8]) -> Option<&[u8]>
        ensures value { option_map (λ secret. secret.now) result ≡ secret_of self.now.keys id.now }
        ensures valid { IsTrue (are_settings self.now) }
    {
        secret_among(self.keys.as_slice(), id)
    }

    /// The least size of a part that is not the last one of its upload, in bytes.
    pub fn min_part(&self) -> u64
        ensures value { result ≡ self.now.min_part }
        ensures valid { IsTrue (are_settings self.now) }
    {
        self.min_part
    }

    /// The greatest size of a body, in bytes.
    #[tactic(auto, unfolding(crate::specs::Settings::are_settings))]
    pub fn body_limit(&self) -> u64
        ensures value { result ≡ self.now.body_limit }
        ensures bound { result ≤ 5_368_709_120 }
        ensures valid { IsTrue (are_settings self.now) }
    {
        self.body_limit
    }

    /// The names of the buckets that are there from the start.
    pub fn buckets(&self) -> &[BucketName]
        ensures value { result.now ≡ self.now.buckets }
        ensures valid { IsTrue (are_settings self.now) }
    {
        self.buckets.as_slice()
    }

    /// How documents are spelled.
    pub fn dialect(&self) -> Dialect
        ensures value { result ≡ self.now.dialect }
        ensures valid { IsTrue (are_settings self.now) }
    {
        self.dialect
    }
}

// What has a name, of which no two in one setting may be the same.
trait Named {
    ghost name: { Self → List ℕ };

    ghost valid: { Self → Bool };

    fn name(&self) -> &[u8]
        ensures value { result.now ≡ name self.now }
        ensures valid { IsTrue (valid self.now) };
}

impl Named for Credential {
    ghost name = { λ key. key.id };

    ghost valid = { are_credentials };

    fn name(&self) -> &[u8] {
        self.id()
    }
}

impl Named for BucketName {
    ghost name = { λ name. name };

    ghost valid = { is_bucket_name };

    fn name(&self) -> &[u8] {
        self.as_bytes()
    }
}

// Whether no two of the items have one name. Compares each with each other.
#[tactic(auto, using(crate::proofs::SettingLemmas::settings))]
fn are_different<T: Named>(items: &[T]) -> bool
    ensures value { result ≡ all_different (map T.name items.now) }
    ensures valid { IsTrue result → IsTrue (list_all T.valid items.now) }
{
    let mut left = items;
    while let Some((first, rest)) = left.split_first() {
        if is_among(first.name(), rest) {
            return false;
        }
        left = rest;
    }
    true
}

// Whether one of the items has the name.
fn is_among<T: Named>(name: &[u8], items: &[T]) -> bool
    ensures { result ≡ list_any (λ item. bytes_eq name.now (T.name item)) items.now }
{
    items.iter().any(|item| name == item.name())
}

// The secret of the first of the keys that has the id.
#[tactic(auto, using(crate::proofs::SettingLemmas::secret_here))]
fn secret_among<'a>(keys: &'a [Credential], id: &[u8]) -> Option<&'a [u8]>
    ensures { option_map (λ secret. secret.now) result ≡ secret_of keys.now id.now }
{
    for key in keys {
        if key.id() == id {
            return Some(key.secret());
        }
    }
    None
}

// Whether they are as many keys as a server may have, with distinct ids.
#[tactic(auto, unfolding(crate::specs::Settings::are_access_keys))]
fn are_valid_keys(keys: &[Credential]) -> bool
    ensures { result ≡ are_access_keys keys.now }
{
    if keys.is_empty() || keys.len() > KEYS_MAX {
        return false;
    }
    are_different(keys)
}

// Whether the names are distinct.
#[tactic(auto, unfolding(crate::specs::Settings::are_opening_buckets))]
fn are_valid_buckets(buckets: &[BucketName]) -> bool
    ensures { result ≡ are_opening_buckets buckets.now }
{
    are_different(buckets)
}

// Whether the bytes are the id of an access key.
#[tactic(auto, unfolding(crate::specs::Settings::is_access_key_id))]
fn is_valid_id(id: &[u8]) -> bool
    ensures { result ≡ is_access_key_id id.now }
{
    !id.is_empty() && id.len() <= CREDENTIAL_MAX && has_id_bytes(id)
}

// Whether none of them is one that signatures use.
fn has_id_bytes(id: &[u8]) -> bool
    ensures { result ≡ list_all is_id_byte id.now }
{
    id.iter().all(|byte| !matches!(*byte, b' ' | b'/' | b','))
}

// Whether the bytes are a secret.
#[tactic(auto, unfolding(crate::specs::Settings::is_secret))]
fn is_valid_secret(secret: &[u8]) -> bool
    ensures { result ≡ is_secret secret.now }
{
    !secret.is_empty() && secret.len() <= CREDENTIAL_MAX
}

// Whether the bytes name a region.
#[tactic(auto, unfolding(crate::specs::Settings::is_region))]
fn is_valid_region(region: &[u8]) -> bool
    ensures { result ≡ is_region region.now }
{
    !region.is_empty() && region.len() <= REGION_MAX && has_region_bytes(region)
}

// Whether each of them may stand in such a name.
fn has_region_bytes(region: &[u8]) -> bool
    ensures { result ≡ list_all is_region_byte region.now }
{
    region
        .iter()
        .all(|byte| is_letter_or_digit(*byte) || *byte == b'-')
}
