//! The parts that the body of a completion lists.
ghost use Rattle.std.specs.Prelude.{◌≡◌, ◌<◌, length, map as each, option_map, IfOk, IfErr};
ghost use Rattle.std.specs.List.{list_all, filter_map};
ghost use Rattle.serde_json.specs.View.{number_view};
ghost use Rattle.s3_terms.specs.Fault.{Follows};
ghost use Rattle.s3_request_documents.specs.Data.{seen};
ghost use Rattle.s3_request_documents.specs.Completion.{parts_in, judged, tag_in, number_in, is_part, part_number_in, is_numbered, listed_in, parts_listed, completion_in_json, completion_read};

use crate::body::parsed;
use crate::completion_xml::in_xml;
use crate::data::{as_array, as_number, as_str, get};
use json::{Scratch, Value};
use s3_conditions::unquoted;
use s3_names::PartNumber;
use s3_terms::{Code, Dialect, NoMemory};
use s3_uploads::{ListedPart, ListedParts, ListedTag};
use serde_json::Number;
use std::alloc::Global;

/// The most parts that a completion may list.
pub(crate) const PARTS_MAX: usize = 10_000;

/// The parts that the body of a CompleteMultipartUpload lists, 1 to 10,000 of them. In JSON these are the objects of
/// the array `Parts`, each with an `ETag`, a text, and a `PartNumber`, a whole number; in XML the elements `Part` right
/// in the root `CompleteMultipartUpload`, each with both as elements right in it, the number in decimal digits with
/// white space around them or not. The double quotes at both ends of a tag are dropped. Of several of one name the last
/// one counts, and what has other names is ignored.
///
/// # Errors
///
/// `MalformedBody` for JSON, and `MalformedXML` for XML, where the body isn't such a document or asks for anything
/// else; where nothing is malformed, `InvalidArgument` for a number outside 1 to 10,000. `InternalError` where memory
/// runs out, which comes only where there is a body.
pub fn read_completion(alloc: Global, dialect: Dialect, body: &[u8]) -> Result<ListedParts, Code>
    ensures rule { Follows result (completion_read dialect body.now) }
    ensures memory { IfErr result (λ code. code ≡ Code.InternalError → 0 < length body.now) }
{
    match dialect {
        Dialect::Json => in_json(alloc, body),
        Dialect::S3 => in_xml(alloc, body),
    }
}

// The parts that a body lists as JSON.
#[tactic(auto, unfolding(crate::specs::Completion::completion_in_json))]
fn in_json(alloc: Global, body: &[u8]) -> Result<ListedParts, Code>
    ensures rule { Follows result (completion_in_json body.now) }
    ensures memory { IfErr result (λ code. code ≡ Code.InternalError → 0 < length body.now) }
{
    let mut scratch = Scratch::new(alloc);
    let value = parsed(alloc, body, &mut scratch)?;
    parts_listed(alloc, &value)
}

// The parts that a value lists.
#[tactic(auto, unfolding(crate::specs::Completion::parts_listed))]
fn parts_listed(alloc: Global, value: &Value<'_>) -> Result<ListedParts, Code>
    ensures { Follows result (parts_listed (seen value.now)) }
{
    let Some(parts) = parts_in(value) else {
        return Err(Code::MalformedBody);
    };
    judge(parts)?;
    let listed = listed(alloc, parts)?;
    Ok(ListedParts::new(listed))
}

// The elements of a value's member `Parts`, where that is an array.
fn parts_in<'v, 'a>(value: &'v Value<'a>) -> Option<&'v [Value<'a>]>
    ensures { option_map (λ parts. each seen parts.now) result ≡ parts_in (seen value.now) }
{
    as_array(get(value, "Parts")?)
}

// The first refusal of what is listed.
#[tactic(auto, unfolding(crate::specs::Completion::judged))]
fn judge(parts: &[Value<'_>]) -> Result<(), Code>
    ensures { result ≡ judged (each seen parts.now) }
{
    if parts.is_empty() || parts.len() > PARTS_MAX {
        return Err(Code::MalformedBody);
    }
    if !are_parts(parts) {
        return Err(Code::MalformedBody);
    }
    if !are_numbered(parts) {
        return Err(Code::InvalidArgument);
    }
    Ok(())
}

// Whether each has a tag and a whole number.
fn are_parts(parts: &[Value<'_>]) -> bool
    ensures { result ≡ list_all is_part (each seen parts.now) }
{
    parts.iter().all(|part| is_part(part))
}

fn are_numbered(parts: &[Value<'_>]) -> bool
    ensures { result ≡ list_all is_numbered (each seen parts.now) }
{
    parts.iter().all(|part| is_numbered(part))
}

// Whether a part has a tag and a whole number.
fn is_part(part: &Value<'_>) -> bool
    ensures { result ≡ is_part (seen part.now) }
{
    match number_in(part) {
        Some(number) => !number.is_f64() && tag_in(part).is_some(),
        None => false,
    }
}

fn is_numbered(part: &Value<'_>) -> bool
    ensures { result ≡ is_numbered (seen part.now) }
{
    part_number_in(part).is_some()
}

// The tag that a part names, if it names one.
fn tag_in<'a>(part: &Value<'a>) -> Option<&'a [u8]>
    ensures { option_map (λ tag. tag.now) result ≡ tag_in (seen part.now) }
{
    let text = as_str(get(part, "ETag")?)?;
    Some(unquoted(text.as_bytes()))
}

// The number that it names, if it names one.
fn number_in(part: &Value<'_>) -> Option<Number>
    ensures { option_map number_view result ≡ number_in (seen part.now) }
{
    as_number(get(part, "PartNumber")?)
}

// The number of a part that it names.
fn part_number_in(part: &Value<'_>) -> Option<PartNumber>
    ensures { result ≡ part_number_in (seen part.now) }
{
    let number = number_in(part)?.as_u64()?;
    PartNumber::of(number)
}

// The parts that are listed, whose tags are copied.
fn listed(alloc: Global, parts: &[Value<'_>]) -> Result<Vec<ListedPart>, NoMemory>
    ensures { IfOk result (λ listed. listed.items ≡ filter_map listed_in (each seen parts.now)) }
{
    let mut listed = Vec::new(alloc);
    for part in parts {
        match listed_in(alloc, part)? {
            Some(part) => listed.push(part)?,
            None => {}
        }
    }
    Ok(listed)
}

// The part that is listed, if it has a tag and a number.
fn listed_in(alloc: Global, part: &Value<'_>) -> Result<Option<ListedPart>, NoMemory>
    ensures { IfOk result (λ listed. listed ≡ listed_in (seen part.now)) }
{
    let Some(tag) = tag_in(part) else {
        return Ok(None);
    };
    let Some(number) = part_number_in(part) else {
        return Ok(None);
    };
    let tag = ListedTag::new(Vec::from_slice(alloc, tag)?);
    Ok(Some(ListedPart { number, tag }))
}
