//! What a head addresses.
ghost use Rattle.std.specs.Prelude.{◌≡◌, Ok, Err, IfOk, IfErr};
ghost use Rattle.std.specs.List.{list_any};
ghost use Rattle.s3_text.specs.Characters.{space};
ghost use Rattle.s3_text.specs.Cut.{parts_at};
ghost use Rattle.s3_http_heads.specs.Target.{has_parameter};
ghost use Rattle.s3_requests.specs.Addresses as rules;

use crate::operations::is_xml;
use s3_http_heads::{Head, Method, Target};
use s3_terms::{Code, Dialect};

/// The sub-resources of S3 that this server doesn't have, with a space between each two.
const LACKING: &[u8] =
    b"accelerate acl analytics attributes intelligent-tiering inventory legal-hold logging metrics notification policyStatus requestPayment restore retention select torrent";

/// Those that it answers where a bucket is read in XML, with a space between each two; and `tagging` where a key is, too.
const ANSWERED: &[u8] =
    b"cors encryption lifecycle location object-lock ownershipControls policy publicAccessBlock replication website";

// What the target says, unless it names a sub-resource that isn't there.
#[tactic(auto, unfolding(crate::specs::Addresses::address_at))]
pub(crate) fn address_at(dialect: Dialect, head: &Head) -> Result<&Target, Code>
    ensures ok { IfOk result (λ target. rules.address_at dialect head.now ≡ Ok target.now) }
    ensures err { IfErr result (λ code. rules.address_at dialect head.now ≡ Err code) }
{
    let target = head.decoded_target()?;
    if names_lacking(dialect, head, target) {
        return Err(Code::NotImplemented);
    }
    Ok(target)
}

// Whether the query names a sub-resource that isn't there.
fn names_lacking(dialect: Dialect, head: &Head, target: &Target) -> bool
    ensures { result ≡ rules.names_lacking dialect head.now target.now }
{
    names_one_of(target, LACKING)
        || (names_one_of(target, ANSWERED) && !reads_bucket(dialect, head, target))
        || (target.has_parameter(b"tagging") && !reads_named(dialect, head, target))
        || (target.has_parameter(b"delete") && !posts_to_bucket(dialect, head, target))
}

// Whether a bucket is read, and documents are XML.
fn reads_bucket(dialect: Dialect, head: &Head, target: &Target) -> bool
    ensures { result ≡ rules.reads_bucket dialect head.now target.now }
{
    reads_named(dialect, head, target) && is_bucket(target)
}

// Whether a bucket or a key in it is read, and documents are XML.
fn reads_named(dialect: Dialect, head: &Head, target: &Target) -> bool
    ensures { result ≡ rules.reads_named dialect head.now target.now }
{
    is_xml(dialect) && matches!(head.method(), Method::Get) && !is_service(target)
}

// Whether a bucket is posted to, and documents are XML.
fn posts_to_bucket(dialect: Dialect, head: &Head, target: &Target) -> bool
    ensures { result ≡ rules.posts_to_bucket dialect head.now target.now }
{
    is_xml(dialect) && matches!(head.method(), Method::Post) && is_bucket(target)
}

// Whether a bucket is meant.
fn is_bucket(target: &Target) -> bool
    ensures { result ≡ rules.is_bucket target.now }
{
    !is_service(target) && target.key().is_empty()
}

// Whether the query names one of these, between which stand spaces.
fn names_one_of(target: &Target, names: &[u8]) -> bool
    ensures { result ≡ list_any (λ name. has_parameter name target.now) (parts_at space names.now) }
{
    names
        .split(|byte| *byte == b' ')
        .any(|name| target.has_parameter(name))
}

// Whether the service is meant.
pub(crate) fn is_service(target: &Target) -> bool
    ensures { result ≡ rules.is_service target.now }
{
    target.path() == b"/".as_slice()
}
