//! Whether a head is verified.

ghost use Rattle.std.specs.Prelude.{◌≡◌, ◌≤◌, true, not, length, Ok, Err, IfOk, IfErr, IsOk, OnErr};
ghost use Rattle.s3_terms.specs.Fault.{Follows, FollowsPast};
ghost use Rattle.s3_calendar.specs.Moment.{last_moment};
ghost use Rattle.hex.specs.Hex.{encode_lower};
ghost use Rattle.s3_hmac.specs.Hmac.{hmac};
ghost use Rattle.s3_canonical.specs.Request.{canonical_request};
ghost use Rattle.s3_signing.specs.Signature.{string_to_sign};
ghost use Rattle.s3_signing.specs.Verdict.{WasVerified, is_near, is_other_scope, is_word_in, proved_with};
ghost use Rattle.s3_signing.specs.Verdict as rules;
ghost use Rattle.s3_signing.specs.Word.{word_text};

use crate::compare::same_digits;
use crate::cover::covers_enough;
use crate::kept_key::KeptKey;
use crate::key::SigningKey;
use crate::lines::{authorization_at, names_other_word, stamp_at, word_at};
use crate::presigned::{Presigned, is_presigned, presigned_at};
use crate::region::{REGION_MAX, Region};
use crate::signature::signature;
use crate::word::Word;
use s3_authorization::Authorization;
use s3_calendar::{Moment, Stamp};
use s3_canonical::request_hash;
use s3_config::Config;
use s3_http_heads::{Head, Target};
use s3_terms::{Code, Dialect};
use std::alloc::Global;
use std::marker::Model;

/// How far a stamp and the moment of its message may lie apart, in seconds.
pub(crate) const SKEW_LIMIT: u64 = 900;

/// What a verified head has proved: its stamp, the region of its scope, the key of that day, the
/// signature that was sent, and the word that stands for its body. It takes no memory.
#[derive(Drop)]
pub struct Verified {
    stamp: Stamp,
    region: Region,
    key: [u8; 32],
    seed: [u8; 64],
    word: Word,
}

impl Model for Verified {
    ghost use Rattle.s3_signing.specs.Verdict.{Proved, WasVerified};
    ghost use Rattle.s3_signing.specs.Word.{word_text};

    ghost Value = { Proved };

    ghost view = { λ v. record {
      stamp = v.stamp;
      region = v.region;
      key = v.key;
      seed = v.seed;
      word = word_text v.word;
    } };

    ghost invariant = { λ v. ∥ WasVerified (record {
      stamp = v.stamp;
      region = v.region;
      key = v.key;
      seed = v.seed;
      word = word_text v.word;
    }) ∥₁ };
}

impl Verified {
    /// The stamp of the head.
    pub fn stamp(&self) -> Stamp
        ensures value { result ≡ self.now.stamp }

        // The value as a whole is what some head has proved: nothing else makes one.
        ensures kept { ∥ WasVerified self.now ∥₁ }
    {
        self.stamp
    }

    /// The region of the scope.
    pub fn region(&self) -> &[u8]
        ensures value { result.now ≡ self.now.region }
        ensures bound { length result.now ≤ REGION_MAX }
        ensures kept { ∥ WasVerified self.now ∥₁ }
    {
        self.region.as_bytes()
    }

    /// The key that signs what the head's owner sends on the stamp's day.
    pub fn key(&self) -> [u8; 32]
        ensures value { result ≡ self.now.key }
        ensures kept { ∥ WasVerified self.now ∥₁ }
    {
        self.key
    }

    /// The signature that was sent, in lower-case hexadecimal.
    pub fn seed(&self) -> [u8; 64]
        ensures value { result ≡ self.now.seed }
        ensures kept { ∥ WasVerified self.now ∥₁ }
    {
        self.seed
    }

    /// The word that stands for the body.
    #[tactic(auto, using(crate::proofs::VerdictLemmas::is_word_kept))]
    pub fn word(&self) -> Word
        ensures value { word_text result ≡ self.now.word }
        ensures form { is_word_in Dialect.S3 self.now.word ≡ true }
        ensures kept { ∥ WasVerified self.now ∥₁ }
    {
        self.word
    }
}

// Whether the authorization names the server's region and service, and the day of the stamp.
fn is_own_scope(config: &Config, sent: &Authorization, stamp: &Stamp) -> bool
    ensures { result ≡ not (is_other_scope config.now sent.now stamp.now) }
{
    sent.service() == b"s3".as_slice()
        && sent.region() == config.region()
        && sent.date() == stamp.date()
}

// Whether the two moments lie near enough.
fn is_near(stamped: Moment, moment: Moment) -> bool
    ensures value { result ≡ is_near stamped moment }
    ensures within { moment ≤ last_moment }
{
    let stamped = stamped.seconds();
    let moment = moment.seconds();
    stamped <= moment + SKEW_LIMIT && moment <= stamped + SKEW_LIMIT
}

// The secret that the authorization asks for, where nothing is wrong with its scope and its time.
#[tactic(auto, unfolding(crate::specs::Verdict::secret_at))]
fn secret_at<'a>(
    config: &'a Config,
    moment: Moment,
    sent: &Authorization,
    stamp: &Stamp,
) -> Result<&'a [u8], Code>
    ensures ok { IfOk result (λ secret. rules.secret_at config.now moment sent.now stamp.now ≡ Ok secret.now) }
    ensures err { IfErr result (λ code. rules.secret_at config.now moment sent.now stamp.now ≡ Err code) }
    ensures within { IfOk result (λ _. moment ≤ last_moment) }
{
    if !is_own_scope(config, sent, stamp) {
        return Err(Code::AuthorizationHeaderMalformed);
    }
    let secret = config.secret_of(sent.id()).ok_or(Code::InvalidAccessKeyId)?;
    if !is_near(stamp.moment(), moment) {
        return Err(Code::RequestTimeTooSkewed);
    }
    Ok(secret)
}

// What was found in a head with which nothing is wrong before its signature is computed.
#[derive(Drop)]
struct Checked<'a> {
    sent: Authorization<'a>,
    stamp: Stamp,
    secret: &'a [u8],
    word: Word,
}

impl<'a> Model for Checked<'a> {
    ghost use Rattle.s3_signing.specs.Verdict.{Checked};
    ghost use Rattle.s3_signing.specs.Word.{word_text};

    ghost Value = { Checked };

    ghost view = { λ c. record {
      sent = c.sent;
      stamp = c.stamp;
      secret = c.secret.now;
      word = word_text c.word;
    } };
}

// What is found in the lines of a head that is signed by its Authorization, or what is wrong with them.
#[tactic(auto, unfolding(crate::specs::Verdict::checked_lines))]
fn checked_lines<'a>(
    config: &'a Config,
    head: &'a Head,
    moment: Moment,
) -> Result<Checked<'a>, Code>
    ensures value { result ≡ rules.checked_lines config.now head.now moment }
    ensures within { IfOk result (λ _. moment ≤ last_moment) }
{
    let sent = authorization_at(head)?;
    let stamp = stamp_at(head)?;
    let secret = secret_at(config, moment, &sent, &stamp)?;
    let word = word_at(config.dialect(), head)?;
    if !covers_enough(head, sent.signed()) {
        return Err(Code::AccessDenied);
    }
    Ok(Checked {
        sent,
        stamp,
        secret,
        word,
    })
}

// The secret that a presigned query asks for, where nothing is wrong with its scope and its time.
#[tactic(auto, unfolding(crate::specs::Verdict::presigned_secret_at))]
fn presigned_secret_at<'a>(
    config: &'a Config,
    moment: Moment,
    asked: &Presigned,
) -> Result<&'a [u8], Code>
    ensures ok { IfOk result (λ secret. rules.presigned_secret_at config.now moment asked.now ≡ Ok secret.now) }
    ensures err { IfErr result (λ code. rules.presigned_secret_at config.now moment asked.now ≡ Err code) }
    ensures within { IfOk result (λ _. moment ≤ last_moment) }
{
    if !is_own_scope(config, &asked.sent, &asked.stamp) {
        return Err(Code::AuthorizationQueryParametersError);
    }
    let secret = config
        .secret_of(asked.sent.id())
        .ok_or(Code::InvalidAccessKeyId)?;
    if !asked.is_current(moment) {
        return Err(Code::AccessDenied);
    }
    Ok(secret)
}

// What is found in a head that is signed by its query, which its target has, or what is wrong with it.
#[tactic(auto, unfolding(crate::specs::Verdict::checked_query))]
fn checked_query<'a>(
    config: &'a Config,
    head: &Head,
    target: &'a Target,
    moment: Moment,
) -> Result<Checked<'a>, Code>
    ensures value { result ≡ rules.checked_query config.now head.now target.now moment }
    ensures within { IfOk result (λ _. moment ≤ last_moment) }
{
    if head.is_sent(b"authorization") {
        return Err(Code::InvalidArgument);
    }
    let asked = presigned_at(target)?;
    let secret = presigned_secret_at(config, moment, &asked)?;
    if names_other_word(head) {
        return Err(Code::NotImplemented);
    }
    if !covers_enough(head, asked.sent.signed()) {
        return Err(Code::AccessDenied);
    }
    Ok(Checked {
        sent: asked.sent,
        stamp: asked.stamp,
        secret,
        word: Word::Unsigned,
    })
}

// What is found in a head, or what is wrong with it before its signature is computed.
#[tactic(auto, unfolding(crate::specs::Verdict::checked_head))]
fn checked_head<'a>(config: &'a Config, head: &'a Head, moment: Moment) -> Result<Checked<'a>, Code>
    ensures value { result ≡ rules.checked_head config.now head.now moment }
    ensures within { IfOk result (λ _. moment ≤ last_moment) }
{
    let target = head.decoded_target()?;
    if is_presigned(target) {
        return checked_query(config, head, target, moment);
    }
    checked_lines(config, head, moment)
}

// The signature that the head has to have under this key.
fn expected_signature(
    alloc: Global,
    key: &SigningKey,
    region: &[u8],
    head: &Head,
    checked: &Checked,
) -> Result<[u8; 64], Code>
    ensures value { IfOk result (λ digits. digits ≡ encode_lower (hmac key.now (string_to_sign
        checked.now.stamp region.now (canonical_request head.now checked.now.sent.signed checked.now.word)))) }
    ensures errors { IfErr result (λ e. e ≡ Code.InternalError) }
{
    match request_hash(alloc, head, checked.sent.signed(), checked.word.text()) {
        Ok(hash) => Ok(signature(key, &checked.stamp, region, &hash)),
        Err(_) => Err(Code::InternalError),
    }
}

// The key of the day, where the signature is the one that this key gives; from then on that key is kept.
#[tactic(auto, unfolding(crate::specs::Signature::signature_of, crate::specs::Verdict::key_proved, s3_config::specs::Settings::are_settings, s3_config::specs::Settings::is_region))]
fn key_proved(
    alloc: Global,
    config: &Config,
    head: &Head,
    checked: &Checked,
    kept: &mut KeptKey,
) -> Result<[u8; 32], Code>
    ensures value { Follows result (rules.key_proved config.now head.now checked.now) }
    ensures kept { OnErr result (kept.new ≡ kept.old) }
{
    let key = kept.key_of(checked.secret, &checked.stamp, config.region());
    let expected = expected_signature(alloc, &key, config.region(), head, checked)?;
    if !same_digits(&checked.sent.signature(), &expected) {
        return Err(Code::SignatureDoesNotMatch);
    }
    let bytes = key.bytes();
    kept.keep(checked.secret, checked.stamp, config.region(), key);
    Ok(bytes)
}

// What a verified head has proved, in its own type.
fn proved_with(checked: &Checked, region: &[u8], key: [u8; 32]) -> Verified
    requires length { length region.now ≤ REGION_MAX }
    requires kept { ∥ WasVerified (proved_with checked.now region.now key) ∥₁ }
    ensures { result ≡ proved_with checked.now region.now key }
{
    Verified {
        stamp: checked.stamp,
        region: Region::copy(region),
        key,
        seed: checked.sent.signature(),
        word: checked.word,
    }
}

/// Verifies a head that came at `moment` (AWS Signature Version 4; Amazon S3 API Reference,
/// "Authenticating requests"): the target, the Authorization and `x-amz-date` lines, the scope, the
/// key's id, the time, the payload word, the names that are signed and the signature are judged in
/// this order, and the first fault is the refusal.
///
/// A head whose query names `X-Amz-Signature` is presigned: no Authorization may be sent, the six parameters of
/// the query stand for that line and for `x-amz-date`, what it says holds from 900 seconds before its stamp to
/// `X-Amz-Expires` seconds behind it, and its body isn't signed. The order is the same.
///
/// The signing key is taken from `kept`, where it keeps the one of this secret, day and region, and is computed
/// otherwise; the verdict is the same. It is kept from then on, once the signature was verified, so that
/// nobody without a secret changes what is kept.
///
/// Takes memory for the canonical request and gives it back, and time by the length of the head and by
/// the number of signed names times that of the header lines, among which each is looked up. The
/// signatures are compared whole, so that the time does not tell where they differ; that is not proved.
///
/// # Errors
///
/// `InvalidURI`, `AccessDenied`, `AuthorizationHeaderMalformed`, `InvalidAccessKeyId`,
/// `RequestTimeTooSkewed`, `InvalidRequest`, `InvalidArgument`, `NotImplemented` and
/// `SignatureDoesNotMatch` by that order; for a presigned head `InvalidURI`, `InvalidArgument` (an Authorization),
/// `AuthorizationQueryParametersError` (a parameter or the scope), `InvalidAccessKeyId`, `AccessDenied` (the time),
/// `NotImplemented` (another payload word), `AccessDenied` (the names) and `SignatureDoesNotMatch`; and
/// `InternalError` where memory runs out. The key that is kept stays then.
#[tactic(auto, unfolding(crate::specs::Verdict::head_verdict, s3_config::specs::Settings::are_settings, s3_config::specs::Settings::is_region))]
pub fn verify_head(
    alloc: Global,
    config: &Config,
    head: &Head,
    moment: Moment,
    kept: &mut KeptKey,
) -> Result<Verified, Code>
    // Memory is needed for the signature alone, once nothing else is wrong.
    ensures verdict { FollowsPast (rules.checked_head config.now head.now moment) result
        (rules.head_verdict config.now head.now moment) }

    // A head that isn't verified doesn't change what is kept.
    ensures kept { OnErr result (kept.new ≡ kept.old) }
{
    let checked = checked_head(config, head, moment)?;
    let key = key_proved(alloc, config, head, &checked, kept)?;
    Ok(proved_with(&checked, config.region(), key))
}
