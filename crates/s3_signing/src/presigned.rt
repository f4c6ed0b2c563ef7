//! What the query of a presigned request says.

ghost use Rattle.std.specs.Prelude.{◌≡◌, ◌≤◌, Ok, Err, IfOk, IfErr};
ghost use Rattle.s3_calendar.specs.Moment.{last_moment, stamp_seconds};
ghost use Rattle.s3_signing.specs.Presigned as rules;
ghost use Rattle.s3_signing.specs.Verdict.{is_current};

use crate::verdict::SKEW_LIMIT;
use s3_authorization::{Authorization, Expires};
use s3_calendar::{Moment, Stamp};
use s3_http_heads::Target;
use s3_terms::Code;
use std::marker::Model;

// What the query of a presigned request says: the parts that an authorization has, the stamp, and for how many seconds
// from that it holds. It borrows from the target.
#[derive(Drop)]
pub(crate) struct Presigned<'a> {
    pub(crate) sent: Authorization<'a>,
    pub(crate) stamp: Stamp,
    pub(crate) expires: Expires,
}

impl<'a> Model for Presigned<'a> {
    ghost use Rattle.s3_signing.specs.Presigned.{Presigned};

    ghost Value = { Presigned };

    ghost view = { λ p. record {
      sent = p.sent;
      stamp = p.stamp;
      expires = p.expires;
    } };
}

impl<'a> Presigned<'a> {
    // Whether it holds at this moment.
    pub(crate) fn is_current(&self, moment: Moment) -> bool
        ensures value { result ≡ is_current (stamp_seconds self.now.stamp) self.now.expires moment }
        ensures within { moment ≤ last_moment }
    {
        let stamped = self.stamp.moment().seconds();
        let moment = moment.seconds();
        let expires = u64::from(self.expires.seconds());
        stamped <= moment + SKEW_LIMIT && moment <= stamped + expires
    }
}

// Whether the query has a signature.
pub(crate) fn is_presigned(target: &Target) -> bool
    ensures { result ≡ rules.is_presigned target.now }
{
    target.has_parameter(b"X-Amz-Signature")
}

// The value of the one parameter of this name.
#[tactic(auto, unfolding(crate::specs::Presigned::sent_once))]
fn sent_once<'a>(target: &'a Target, name: &[u8]) -> Result<&'a [u8], Code>
    ensures ok { IfOk result (λ value. rules.sent_once name.now target.now ≡ Ok value.now) }
    ensures err { IfErr result (λ code. rules.sent_once name.now target.now ≡ Err code) }
{
    target
        .only(name)
        .ok_or(Code::AuthorizationQueryParametersError)
}

// Refuses a query that doesn't name the one algorithm that there is.
#[tactic(auto, unfolding(crate::specs::Presigned::check_algorithm, crate::specs::Presigned::sent_once))]
fn check_algorithm(target: &Target) -> Result<(), Code>
    ensures { result ≡ rules.check_algorithm target.now }
{
    let name = sent_once(target, b"X-Amz-Algorithm")?;
    if name != b"AWS4-HMAC-SHA256".as_slice() {
        return Err(Code::AuthorizationQueryParametersError);
    }
    Ok(())
}

// The parts that an authorization has.
#[tactic(auto, unfolding(crate::specs::Presigned::presigned_parts, crate::specs::Presigned::sent_once))]
fn presigned_parts(target: &Target) -> Result<Authorization<'_>, Code>
    ensures { result ≡ rules.presigned_parts target.now }
{
    let credential = sent_once(target, b"X-Amz-Credential")?;
    let signed = sent_once(target, b"X-Amz-SignedHeaders")?;
    let signature = sent_once(target, b"X-Amz-Signature")?;
    Authorization::with_parts(credential, signed, signature).ok_or(
        Code::AuthorizationQueryParametersError,
    )
}

// The stamp.
#[tactic(auto, unfolding(crate::specs::Presigned::presigned_stamp, crate::specs::Presigned::sent_once))]
fn presigned_stamp(target: &Target) -> Result<Stamp, Code>
    ensures { result ≡ rules.presigned_stamp target.now }
{
    let text = sent_once(target, b"X-Amz-Date")?;
    Stamp::read(text).ok_or(Code::AuthorizationQueryParametersError)
}

// For how many seconds it holds.
#[tactic(auto, unfolding(crate::specs::Presigned::presigned_expires, crate::specs::Presigned::sent_once))]
fn presigned_expires(target: &Target) -> Result<Expires, Code>
    ensures { result ≡ rules.presigned_expires target.now }
{
    let text = sent_once(target, b"X-Amz-Expires")?;
    Expires::read(text).ok_or(Code::AuthorizationQueryParametersError)
}

// What the query says.
#[tactic(auto, unfolding(crate::specs::Presigned::presigned_at))]
pub(crate) fn presigned_at(target: &Target) -> Result<Presigned<'_>, Code>
    ensures { result ≡ rules.presigned_at target.now }
{
    check_algorithm(target)?;
    let sent = presigned_parts(target)?;
    let stamp = presigned_stamp(target)?;
    let expires = presigned_expires(target)?;
    Ok(Presigned {
        sent,
        stamp,
        expires,
    })
}
