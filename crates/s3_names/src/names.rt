//! The names of buckets and the keys of objects.
ghost use Rattle.std.specs.Prelude.{◌≡◌, ◌≤◌, ◌<◌, ◌==◌, ◌&&◌, IsUtf8, IsAscii, IsTrue, Err, IfOk, OnOk, OnErr, length};
ghost use Rattle.std.specs.List.{list_all};
ghost use Rattle.s3_terms.specs.Fault.{FollowsToEnd};
ghost use Rattle.s3_terms.specs.declared.code.Code.TheVariants.{InternalError};
ghost use Rattle.s3_names.specs.Names.{is_name_byte, dotted, is_number, has_empty_part, is_address_form, has_name_length, has_name_bytes, has_name_ends, has_name_parts, is_bucket_name, bucket_name, is_key, object_key};

use crate::text::Text;
use s3_terms::{Code, NoMemory};
use s3_text::{has_digits_alone, is_letter_or_digit, is_text};
use std::alloc::Global;
use std::marker::Model;

/// The shortest name of a bucket, in bytes.
const NAME_MIN: usize = 3;

/// The longest name of a bucket, in bytes.
const NAME_MAX: usize = 63;

/// The longest key, in bytes.
const KEY_MAX: usize = 1024;

/// The name of a bucket (Amazon S3 User Guide, "Bucket naming rules"). A contract sees it as its
/// bytes, and it is ordered by them.
#[derive(Drop, PartialEq, Eq, PartialOrd, Ord)]
pub struct BucketName {
    name: Text,
}

impl Model for BucketName {
    ghost use Rattle.std.specs.Prelude.{ℕ, List, IsTrue};
    ghost use Rattle.s3_names.specs.Names.{is_bucket_name};

    ghost Value = { List ℕ };

    ghost view = { λ b. b.name };

    ghost invariant = { λ b. IsTrue (is_bucket_name b.name) };

    ghost inverse = { λ name. record { name = name } };
}

impl BucketName {
    /// Reads a name from its bytes. `InvalidBucketName` says that it breaks the naming rules, and
    /// `InternalError` that it keeps them and there was no memory for its copy, which one of more than 38 bytes takes.
    pub fn read(alloc: Global, name: &[u8]) -> Result<BucketName, Code>
        ensures value { IfOk result (λ read. read ≡ name.now) }
        ensures valid { OnOk result (IsTrue (is_bucket_name name.now)) }
        ensures rule { FollowsToEnd result (bucket_name name.now) }
        ensures memory { result ≡ Err InternalError → 38 < length name.now }
    {
        if !is_valid_name(name) {
            return Err(Code::InvalidBucketName);
        }
        let name = Text::of(alloc, name)?;
        Ok(BucketName { name })
    }

    /// The bytes of the name.
    #[tactic(auto, using(crate::proofs::NameLemmas::name_ascii), unfolding(crate::specs::Names::is_bucket_name, crate::specs::Names::has_name_length))]
    pub fn as_bytes(&self) -> &[u8]
        ensures value { result.now ≡ self.now }
        ensures valid { IsTrue (is_bucket_name self.now) }
        ensures ascii { IsAscii self.now }
        ensures lower_bound { 3 ≤ length self.now }
        ensures upper_bound { length self.now ≤ 63 }
    {
        self.name.as_bytes()
    }

    /// A copy of the name. One of up to 38 bytes takes no memory.
    pub fn copy(&self) -> Result<BucketName, NoMemory>
        ensures value { IfOk result (λ copied. copied ≡ self.now) }
        ensures memory { OnErr result (38 < length self.now) }
    {
        let name = self.name.copy()?;
        Ok(BucketName { name })
    }
}

/// The key of an object (Amazon S3 User Guide, "Naming objects"): 1 to 1,024 bytes of UTF-8. A
/// contract sees it as its bytes, and it is ordered by them.
#[derive(Drop, PartialEq, Eq, PartialOrd, Ord)]
pub struct Key {
    text: Text,
}

impl Model for Key {
    ghost use Rattle.std.specs.Prelude.{ℕ, List, IsTrue};
    ghost use Rattle.s3_names.specs.Names.{is_key};

    ghost Value = { List ℕ };

    ghost view = { λ key. key.text };

    ghost invariant = { λ key. IsTrue (is_key key.text) };

    ghost inverse = { λ text. record { text = text } };
}

impl Key {
    /// Reads a key from its bytes. The first fault decides: `InvalidURI` where they are no UTF-8,
    /// `KeyTooLongError` above 1,024 bytes, `InvalidURI` where there are none. `InternalError` says
    /// that they are a key and there was no memory for its copy, which one of more than 38 bytes takes.
    #[tactic(auto, unfolding(crate::specs::Names::object_key, crate::specs::Names::is_key))]
    pub fn read(alloc: Global, key: &[u8]) -> Result<Key, Code>
        ensures value { IfOk result (λ read. read ≡ key.now) }
        ensures valid { OnOk result (IsTrue (is_key key.now)) }
        ensures rule { FollowsToEnd result (object_key key.now) }
        ensures memory { result ≡ Err InternalError → 38 < length key.now }
    {
        if !is_text(key) {
            return Err(Code::InvalidURI);
        }
        if key.len() > KEY_MAX {
            return Err(Code::KeyTooLongError);
        }
        if key.is_empty() {
            return Err(Code::InvalidURI);
        }
        let text = Text::of(alloc, key)?;
        Ok(Key { text })
    }

    /// The bytes of the key.
    #[tactic(auto, using(crate::proofs::NameLemmas::texts), unfolding(crate::specs::Names::object_key, crate::specs::Names::is_key))]
    pub fn as_bytes(&self) -> &[u8]
        ensures value { result.now ≡ self.now }
        ensures valid { IsTrue (is_key self.now) }
        ensures utf8 { IsUtf8 self.now }
        ensures lower_bound { 1 ≤ length self.now }
        ensures upper_bound { length self.now ≤ 1_024 }
    {
        self.text.as_bytes()
    }

    /// A copy of the key. One of up to 38 bytes takes no memory.
    pub fn copy(&self) -> Result<Key, NoMemory>
        ensures value { IfOk result (λ copied. copied ≡ self.now) }
        ensures memory { OnErr result (38 < length self.now) }
    {
        let text = self.text.copy()?;
        Ok(Key { text })
    }
}

// Whether the bytes keep the naming rules of buckets.
#[tactic(auto, unfolding(crate::specs::Names::is_bucket_name))]
fn is_valid_name(name: &[u8]) -> bool
    ensures { result ≡ is_bucket_name name.now }
{
    has_valid_length(name) && has_valid_bytes(name) && has_valid_ends(name) && has_valid_parts(name)
}

// Whether they are neither too few nor too many.
#[tactic(auto, unfolding(crate::specs::Names::has_name_length))]
fn has_valid_length(name: &[u8]) -> bool
    ensures { result ≡ has_name_length name.now }
{
    NAME_MIN <= name.len() && name.len() <= NAME_MAX
}

// Whether each of them may stand in a name.
#[tactic(auto, unfolding(crate::specs::Names::has_name_bytes))]
fn has_valid_bytes(name: &[u8]) -> bool
    ensures { result ≡ has_name_bytes name.now }
{
    name.iter().all(|byte| may_stand_in_name(*byte))
}

// Whether the first and the last are letters or digits.
#[tactic(auto, unfolding(crate::specs::Names::has_name_ends))]
fn has_valid_ends(name: &[u8]) -> bool
    ensures { result ≡ has_name_ends name.now }
{
    match name {
        [] => false,
        [first, ..] => is_letter_or_digit(*first) && is_letter_or_digit(name[name.len() - 1]),
    }
}

// Whether no part between dots is empty, and they are no address.
#[tactic(auto, unfolding(crate::specs::Names::has_name_parts))]
fn has_valid_parts(name: &[u8]) -> bool
    ensures { result ≡ has_name_parts name.now }
{
    !leaves_empty_part(name) && !has_address_form(name)
}

// Whether a name may have this byte.
fn may_stand_in_name(byte: u8) -> bool
    ensures { result ≡ is_name_byte byte }
{
    is_letter_or_digit(byte) || byte == b'.' || byte == b'-'
}

// Whether a dot stands beside another, or at an end.
fn leaves_empty_part(name: &[u8]) -> bool
    ensures { result ≡ has_empty_part name.now }
{
    name.split(|byte| *byte == b'.').any(|part| part.is_empty())
}

// Whether the bytes are four decimal numbers joined by dots.
fn has_address_form(name: &[u8]) -> bool
    ensures { result ≡ is_address_form name.now }
{
    has_four_parts(name) && has_decimal_parts(name)
}

// Whether dots cut the bytes into four parts.
fn has_four_parts(name: &[u8]) -> bool
    ensures { result ≡ length (dotted name.now) == 4 }
{
    name.split(|byte| *byte == b'.').count() == 4
}

// Whether each part between dots is a decimal number.
fn has_decimal_parts(name: &[u8]) -> bool
    ensures { result ≡ list_all is_number (dotted name.now) }
{
    name.split(|byte| *byte == b'.').all(|part| is_number(part))
}

// Whether the bytes are a decimal number of any size.
fn is_number(part: &[u8]) -> bool
    ensures { result ≡ is_number part.now }
{
    !part.is_empty() && has_digits_alone(part)
}
