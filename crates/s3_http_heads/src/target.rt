//! What a request target says: its path, the bucket and the key in it, and its parameters.
ghost use Rattle.std.specs.Prelude.{◌≡◌, ◌≤◌, ◌<◌, ◌==◌, ◌++◌, ◌∷◌, [], not, true, nat_eq, nat_lt, length, take, drop, ok_or, Some, IfOk, slice_get};
ghost use Rattle.std.specs.List.{starts_with, before_first, after_first};
ghost use Rattle.std.specs.Option.{option_copied};
ghost use Rattle.percent_encoding.specs.Percent.{percent_decode};
ghost use Rattle.s3_text.specs.Characters.{slash};
ghost use Rattle.s3_http_heads.specs.Head.{only};
ghost use Rattle.s3_http_heads.specs.Target as rules;

use crate::parameters::Parameters;
use percent_encoding::percent_decode;
use s3_terms::Code;
use s3_text::{after_first, before_first};
use std::alloc::{AllocError, Global};
use std::marker::Model;

/// What a request target says, with its escapes read: its path, the bucket and the key in it, and
/// the parameters of its query, in the order in which they were sent.
///
/// It owns the decoded bytes, which are no more than those of the target, and 12 bytes for each parameter.
#[derive(Drop)]
pub struct Target {
    path: Vec<u8>,
    // Where the slash and the bucket end in the path.
    bucket_end: usize,
    parameters: Parameters,
}

impl Model for Target {
    ghost use Rattle.std.specs.Prelude.{◌≤◌, length, take, drop};
    ghost use Rattle.s3_http_heads.specs.Target.{TargetParts};

    ghost Value = { TargetParts };

    ghost view = { λ t. record {
      path = t.path.items;
      bucket = drop 1 (take t.bucket_end t.path.items);
      key = drop 1 (drop t.bucket_end t.path.items);
      parameters = t.parameters;
    } };

    ghost invariant = { λ t. t.bucket_end ≤ length t.path.items };
}

impl Target {
    // What a target says, if it can be read. The cost is linear in the target.
    #[tactic(auto, unfolding(crate::specs::Target::target_of))]
    pub(crate) fn read(alloc: Global, target: &[u8]) -> Result<Option<Target>, AllocError>
        ensures { IfOk result (λ said. ok_or said Code.InvalidURI ≡ rules.target_of target.now) }
    {
        if !is_readable(target) {
            return Ok(None);
        }
        Ok(Some(Target::of_readable(alloc, target)?))
    }

    // What a target says that can be read.
    #[tactic(auto, unfolding(crate::specs::Target::target_parts))]
    fn of_readable(alloc: Global, target: &[u8]) -> Result<Target, AllocError>
        requires { starts_with nat_eq target.now (slash ∷ []) ≡ true }
        ensures { IfOk result (λ said. said ≡ rules.target_parts target.now) }
    {
        let (path, bucket_end) = decoded_path(alloc, before_first(target, b'?'))?;
        let query = after_first(target, b'?');
        let parameters = Parameters::read(alloc, query)?;
        Ok(Target {
            path,
            bucket_end,
            parameters,
        })
    }

    /// The path.
    pub fn path(&self) -> &[u8]
        ensures { result.now ≡ self.now.path }
    {
        &self.path
    }

    /// The bucket: what stands between the first slash of the path and the next one that was sent.
    pub fn bucket(&self) -> &[u8]
        ensures { result.now ≡ self.now.bucket }
    {
        without_first(&self.path[..self.bucket_end])
    }

    /// The key: what stands behind that slash.
    pub fn key(&self) -> &[u8]
        ensures { result.now ≡ self.now.key }
    {
        without_first(&self.path[self.bucket_end..])
    }

    /// How many parameters there are.
    pub fn parameter_count(&self) -> usize
        ensures { result ≡ length self.now.parameters }
    {
        self.parameters.count()
    }

    /// The name and the value of the parameter at `index`, from 0.
    pub fn parameter(&self, index: usize) -> (&[u8], &[u8])
        requires { index < length self.now.parameters }
        ensures { slice_get self.now.parameters index ≡ Some (result.0.now, result.1.now) }
    {
        self.parameters.at(index)
    }

    /// The value of the first parameter of this name. The cost is linear in the parameters.
    pub fn first(&self, name: &[u8]) -> Option<&[u8]>
        ensures { option_copied result ≡ rules.first_parameter name.now self.now }
    {
        for index in 0..self.parameter_count() {
            let (sent, value) = self.parameter(index);
            if sent == name {
                return Some(value);
            }
        }
        None
    }

    /// The value of the one parameter of this name; `None` where there are several, or none. The cost is linear in the
    /// parameters.
    #[tactic(auto, using(crate::proofs::TargetLemmas::only_one))]
    pub fn only(&self, name: &[u8]) -> Option<&[u8]>
        ensures { option_copied result ≡ only (rules.values_under name.now self.now) }
    {
        if self.count(name) != 1 {
            return None;
        }
        self.first(name)
    }

    // How many parameters have this name.
    fn count(&self, name: &[u8]) -> usize
        ensures { result ≡ length (rules.values_under name.now self.now) }
    {
        let mut count = 0;
        for index in 0..self.parameter_count() {
            if self.parameter(index).0 == name {
                count += 1;
            }
        }
        count
    }

    /// Whether a parameter has this name. The cost is linear in the parameters.
    pub fn has_parameter(&self, name: &[u8]) -> bool
        ensures { result ≡ rules.has_parameter name.now self.now }
    {
        for index in 0..self.parameter_count() {
            if self.parameter(index).0 == name {
                return true;
            }
        }
        false
    }
}

// Whether two hexadecimal digits come first.
fn begins_with_digits(bytes: &[u8]) -> bool
    ensures { result ≡ rules.begins_with_digits bytes.now }
{
    match bytes {
        [high, low, ..] => high.is_ascii_hexdigit() && low.is_ascii_hexdigit(),
        _ => false,
    }
}

/// Whether there is a percent sign that two hexadecimal digits don't follow (RFC 3986, section 2.1).
pub fn has_bad_escape(bytes: &[u8]) -> bool
    ensures { result ≡ rules.has_bad_escape bytes.now }
{
    for (i, byte) in bytes.iter().enumerate() {
        if *byte == b'%' && !begins_with_digits(&bytes[i + 1..]) {
            return true;
        }
    }
    false
}

// Whether a target begins with `/`, and two hexadecimal digits follow each percent sign in it.
fn is_readable(target: &[u8]) -> bool
    ensures { result ≡ not (rules.is_unreadable target.now) }
{
    target.first() == Some(&b'/') && !has_bad_escape(target)
}

// The bytes but for the first of them.
fn without_first(bytes: &[u8]) -> &[u8]
    ensures { result.now ≡ drop 1 bytes.now }
{
    match bytes {
        [_, rest @ ..] => rest,
        [] => &[],
    }
}

// The path up to the slash behind its bucket, and from there on.
fn cut_at_bucket(path: &[u8]) -> (&[u8], &[u8])
    requires { starts_with nat_eq path.now (slash ∷ []) ≡ true }
    ensures whole { percent_decode result.0.now ++ percent_decode result.1.now ≡ percent_decode path.now }
    ensures bucket { drop 1 (percent_decode result.0.now)
        ≡ percent_decode (before_first (λ b. b == slash) (after_first (λ b. b == slash) path.now)) }
    ensures key { drop 1 (percent_decode result.1.now)
        ≡ percent_decode (after_first (λ b. b == slash) (after_first (λ b. b == slash) path.now)) }
{
    let end = 1 + before_first(without_first(path), b'/').len();
    (&path[..end], &path[end..])
}

// The path, decoded, and where its first slash and its bucket end in it.
fn decoded_path(alloc: Global, path: &[u8]) -> Result<(Vec<u8>, usize), AllocError>
    requires { starts_with nat_eq path.now (slash ∷ []) ≡ true }
    ensures path { IfOk result (λ read. read.0.items ≡ percent_decode path.now) }
    ensures bucket { IfOk result (λ read. drop 1 (take read.1 read.0.items)
        ≡ percent_decode (before_first (λ b. b == slash) (after_first (λ b. b == slash) path.now))) }
    ensures key { IfOk result (λ read. drop 1 (drop read.1 read.0.items)
        ≡ percent_decode (after_first (λ b. b == slash) (after_first (λ b. b == slash) path.now))) }
    ensures within { IfOk result (λ read. read.1 ≤ length read.0.items) }
{
    let (front, back) = cut_at_bucket(path);
    let mut decoded = Vec::new(alloc);
    percent_decode(front).append_to(&mut decoded)?;
    let bucket_end = decoded.len();
    percent_decode(back).append_to(&mut decoded)?;
    Ok((decoded, bucket_end))
}
