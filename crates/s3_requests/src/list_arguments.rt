//! What is asked of a list.
ghost use Rattle.std.specs.Prelude.{◌≡◌, ◌⊎◌, Ok, Err, IfOk, IfErr, codes};
ghost use Rattle.std.specs.List.{list_all};
ghost use Rattle.std.specs.Option.{option_copied};
ghost use Rattle.s3_text.specs.Characters.{is_lower_hex};
ghost use Rattle.s3_terms.specs.Fault.{Follows};
ghost use Rattle.s3_http_heads.specs.Target.{first_parameter};
ghost use Rattle.s3_requests.specs.ListArguments as rules;
ghost use Rattle.s3_requests.specs.Memory.{FollowsWhere, KeysTake, ObjectsTake};

use crate::arguments::version_argument;
use crate::operations::is_xml;
use hex::FromHexError;
use s3_http_heads::Target;
use s3_listings::{PartsAsked, UploadsAsked, VersionsAsked};
use s3_names::{UploadId, VersionId};
use s3_prefixes::{ListVersion, ObjectsAsked, Text};
use s3_terms::{Code, Dialect};
use s3_text::decimal_number;
use std::alloc::Global;

/// How many items a page has at most, however many are asked for.
const MOST_ITEMS: u64 = 1_000;

/// The most decimal digits that spell a count, or the number of a part as a marker.
const NUMBER_DIGITS: usize = 9;

// What is asked of a list of objects: `InvalidArgument` where an argument isn't of its form.
#[tactic(auto, unfolding(crate::specs::ListArguments::objects_asked_of))]
pub(crate) fn objects_asked(
    alloc: Global,
    dialect: Dialect,
    version: ListVersion,
    target: &Target,
) -> Result<ObjectsAsked, Code>
    ensures { FollowsWhere (ObjectsTake target.now) result (rules.objects_asked_of dialect version target.now) }
{
    let max_keys = count_argument(target, b"max-keys")?;
    let prefix = text_argument(alloc, target, b"prefix")?;
    let delimiter = delimiter_argument(alloc, target)?;
    let (start_after, token) = places_asked(alloc, version, target)?;
    let is_url_encoded = is_encoding_asked(dialect, target)?;
    Ok(ObjectsAsked {
        version,
        prefix,
        delimiter,
        start_after,
        token,
        max_keys,
        is_url_encoded,
        tells_owner: is_owner_asked(dialect, version, target),
    })
}

// The key and the item behind which a list of objects goes on, if they are there.
#[tactic(auto, unfolding(crate::specs::ListArguments::places_of))]
fn places_asked(
    alloc: Global,
    version: ListVersion,
    target: &Target,
) -> Result<(Option<Text>, Option<Text>), Code>
    ensures { Follows result (rules.places_of version target.now) }
{
    match version {
        ListVersion::First => {
            let marker = optional_text(alloc, target, b"marker")?;
            Ok((None, marker))
        }
        ListVersion::Second => {
            let start_after = optional_text(alloc, target, b"start-after")?;
            let token = token_argument(alloc, target)?;
            Ok((start_after, token))
        }
    }
}

// What is asked of a list of versions: `NotImplemented` where common prefixes are asked for that it doesn't have, and then
// `InvalidArgument` where an argument isn't of its form.
#[tactic(auto, unfolding(crate::specs::ListArguments::versions_asked_of, crate::specs::ListArguments::keys_asked_of))]
pub(crate) fn versions_asked(
    alloc: Global,
    dialect: Dialect,
    target: &Target,
) -> Result<VersionsAsked, Code>
    ensures { FollowsWhere (KeysTake dialect (codes "max-keys") target.now) result (rules.versions_asked_of dialect target.now) }
{
    let keys = keys_asked(alloc, dialect, target, b"max-keys")?;
    let id_marker = version_marker(target, &keys.key_marker)?;
    Ok(VersionsAsked {
        prefix: keys.prefix,
        delimiter: keys.delimiter,
        key_marker: keys.key_marker,
        id_marker,
        max_keys: keys.most,
        is_url_encoded: keys.is_url_encoded,
    })
}

// What is asked of a list of uploads, with the refusals of a list of versions.
#[tactic(auto, unfolding(crate::specs::ListArguments::uploads_asked_of, crate::specs::ListArguments::keys_asked_of))]
pub(crate) fn uploads_asked(
    alloc: Global,
    dialect: Dialect,
    target: &Target,
) -> Result<UploadsAsked, Code>
    ensures { FollowsWhere (KeysTake dialect (codes "max-uploads") target.now) result (rules.uploads_asked_of dialect target.now) }
{
    let keys = keys_asked(alloc, dialect, target, b"max-uploads")?;
    let id_marker = upload_marker(target, &keys.key_marker)?;
    Ok(UploadsAsked {
        prefix: keys.prefix,
        delimiter: keys.delimiter,
        key_marker: keys.key_marker,
        id_marker,
        max_uploads: keys.most,
        is_url_encoded: keys.is_url_encoded,
    })
}

/// What is asked of a list of versions or of uploads, but for the id behind which it goes on.
#[derive(Drop)]
pub(crate) struct KeysAsked {
    prefix: Text,
    delimiter: Text,
    key_marker: Text,
    most: u16,
    is_url_encoded: bool,
}

// What is asked of such a list, whose count this parameter says.
#[tactic(auto, unfolding(crate::specs::ListArguments::keys_asked_of))]
fn keys_asked(
    alloc: Global,
    dialect: Dialect,
    target: &Target,
    count: &[u8],
) -> Result<KeysAsked, Code>
    ensures { FollowsWhere (KeysTake dialect count.now target.now) result (rules.keys_asked_of dialect count.now target.now) }
{
    if lacks_prefixes(dialect, target) {
        return Err(Code::NotImplemented);
    }
    let most = count_argument(target, count)?;
    let prefix = text_argument(alloc, target, b"prefix")?;
    let delimiter = delimiter_argument(alloc, target)?;
    let key_marker = text_argument(alloc, target, b"key-marker")?;
    let is_url_encoded = is_encoding_asked(dialect, target)?;
    Ok(KeysAsked {
        prefix,
        delimiter,
        key_marker,
        most,
        is_url_encoded,
    })
}

// What is asked of a list of parts: `InvalidArgument` where an argument isn't of its form.
#[tactic(auto, unfolding(crate::specs::ListArguments::parts_asked_of))]
pub(crate) fn parts_asked(target: &Target) -> Result<PartsAsked, Code>
    ensures { result ≡ rules.parts_asked_of target.now }
{
    let max_parts = count_argument(target, b"max-parts")?;
    let marker = number_argument(target, b"part-number-marker", 0)?;
    Ok(PartsAsked { marker, max_parts })
}

// Whether keys are to be told UriEncoded: `InvalidArgument` where another encoding is named.
fn is_encoding_asked(dialect: Dialect, target: &Target) -> Result<bool, Code>
    ensures { result ≡ rules.encoding_asked dialect target.now }
{
    match dialect {
        Dialect::Json => Ok(false),
        Dialect::S3 => encoding_named(target.first(b"encoding-type")),
    }
}

// The same by the name of the encoding, if there is one.
fn encoding_named(name: Option<&[u8]>) -> Result<bool, Code>
    ensures { result ≡ rules.encoding_named (option_copied name.entry) }
{
    match name {
        None => Ok(false),
        Some(name) => {
            if name != b"url".as_slice() {
                return Err(Code::InvalidArgument);
            }
            Ok(true)
        }
    }
}

// Whether the owners of objects are to be told.
fn is_owner_asked(dialect: Dialect, version: ListVersion, target: &Target) -> bool
    ensures { result ≡ rules.owner_asked dialect version target.now }
{
    match version {
        ListVersion::First => true,
        ListVersion::Second => is_xml(dialect)
            && value_of(target, b"fetch-owner") == b"true".as_slice(),
    }
}

// Whether a list of versions or of uploads is asked for common prefixes, which it doesn't have.
fn lacks_prefixes(dialect: Dialect, target: &Target) -> bool
    ensures { result ≡ rules.lacks_prefixes dialect target.now }
{
    match dialect {
        Dialect::Json => has_delimiter(target),
        Dialect::S3 => false,
    }
}

// Whether common prefixes are asked for.
fn has_delimiter(target: &Target) -> bool
    ensures { result ≡ rules.has_delimiter target.now }
{
    !value_of(target, b"delimiter").is_empty()
}

// The value of the first parameter of this name; an absent one has the empty value.
pub(crate) fn value_of<'a>(target: &'a Target, name: &[u8]) -> &'a [u8]
    ensures { result.now ≡ rules.value_of name.now target.now }
{
    match target.first(name) {
        None => &[],
        Some(value) => value,
    }
}

// The text of the first parameter of this name, which is empty where it is absent.
fn text_argument(alloc: Global, target: &Target, name: &[u8]) -> Result<Text, Code>
    ensures { Follows result (rules.text_argument name.now target.now) }
{
    Text::read(alloc, value_of(target, name))
}

// The delimiter, which is empty where it is absent.
fn delimiter_argument(alloc: Global, target: &Target) -> Result<Text, Code>
    ensures { Follows result (rules.text_argument (codes "delimiter") target.now) }
{
    text_argument(alloc, target, b"delimiter")
}

// The text of the first parameter of this name, if one is there.
fn optional_text(alloc: Global, target: &Target, name: &[u8]) -> Result<Option<Text>, Code>
    ensures { Follows result (rules.text_named (first_parameter name.now target.now)) }
{
    match target.first(name) {
        None => Ok(None),
        Some(value) => Ok(Some(Text::read(alloc, value)?)),
    }
}

// The text behind which a list goes on, if one is there.
fn token_argument(alloc: Global, target: &Target) -> Result<Option<Text>, Code>
    ensures { Follows result (rules.token_named (first_parameter (codes "continuation-token") target.now)) }
{
    match target.first(b"continuation-token") {
        None => Ok(None),
        Some(digits) => Ok(Some(text_spelled(alloc, digits)?)),
    }
}

// The text that lower-case hexadecimal digits spell.
fn text_spelled(alloc: Global, digits: &[u8]) -> Result<Text, Code>
    ensures { Follows result (rules.text_spelled digits.now) }
{
    let bytes = bytes_spelled(alloc, digits)?;
    Text::read(alloc, &bytes)
}

// The bytes that lower-case hexadecimal digits spell, two of them each.
#[tactic(auto, unfolding(crate::specs::ListArguments::bytes_spelled))]
fn bytes_spelled(alloc: Global, digits: &[u8]) -> Result<Vec<u8>, Code>
    ensures value { IfOk result (λ bytes. rules.bytes_spelled digits.now ≡ Ok bytes.items) }
    ensures refused { IfErr result (λ code. (code ≡ Code.InternalError) ⊎ (rules.bytes_spelled digits.now ≡ Err code)) }
{
    if !has_lower_hex_alone(digits) {
        return Err(Code::InvalidArgument);
    }
    match hex::decode(alloc, digits) {
        Ok(bytes) => Ok(bytes),
        Err(FromHexError::OutOfMemory) => Err(Code::InternalError),
        Err(_) => Err(Code::InvalidArgument),
    }
}

// Whether the text has lower-case hexadecimal digits and nothing else.
fn has_lower_hex_alone(digits: &[u8]) -> bool
    ensures { result ≡ list_all is_lower_hex digits.now }
{
    digits
        .iter()
        .all(|byte| matches!(*byte, b'0'..=b'9' | b'a'..=b'f'))
}

// How many items a page has at most, as the first parameter of this name says.
#[tactic(auto, unfolding(crate::specs::ListArguments::count_named))]
fn count_argument(target: &Target, name: &[u8]) -> Result<u16, Code>
    ensures { result ≡ rules.count_named (first_parameter name.now target.now) }
{
    let number = number_argument(target, name, MOST_ITEMS)?;
    Ok(number.min(MOST_ITEMS) as u16)
}

// The number that the first parameter of this name spells; where there is none, this one.
fn number_argument(target: &Target, name: &[u8], otherwise: u64) -> Result<u64, Code>
    ensures { result ≡ rules.number_named otherwise (first_parameter name.now target.now) }
{
    match target.first(name) {
        None => Ok(otherwise),
        Some(text) => decimal_number(text, NUMBER_DIGITS).ok_or(Code::InvalidArgument),
    }
}

// Whether a list is to go on behind an id, as the parameter of this name says, and its key is empty.
fn lacks_key(target: &Target, name: &[u8], key: &Text) -> bool
    ensures { result ≡ rules.lacks_key name.now key.now target.now }
{
    target.has_parameter(name) && key.as_bytes().is_empty()
}

// The version of the key behind which a list goes on, if one is named.
#[tactic(auto, unfolding(crate::specs::ListArguments::version_marker))]
fn version_marker(target: &Target, key: &Text) -> Result<Option<VersionId>, Code>
    ensures { result ≡ rules.version_marker key.now target.now }
{
    if lacks_key(target, b"version-id-marker", key) {
        return Err(Code::InvalidArgument);
    }
    version_argument(target, b"version-id-marker")
}

// The upload to the key behind which a list goes on, if one is named.
#[tactic(auto, unfolding(crate::specs::ListArguments::upload_marker))]
fn upload_marker(target: &Target, key: &Text) -> Result<Option<UploadId>, Code>
    ensures { result ≡ rules.upload_marker key.now target.now }
{
    if lacks_key(target, b"upload-id-marker", key) {
        return Err(Code::InvalidArgument);
    }
    upload_marked(target.first(b"upload-id-marker"))
}

// The upload whose id a marker is, if one is there.
fn upload_marked(marker: Option<&[u8]>) -> Result<Option<UploadId>, Code>
    ensures { result ≡ rules.upload_marked (option_copied marker.entry) }
{
    match marker {
        None => Ok(None),
        Some(text) => match UploadId::read(text) {
            Some(id) => Ok(Some(id)),
            None => Err(Code::InvalidArgument),
        },
    }
}
