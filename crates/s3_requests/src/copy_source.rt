//! What a copy is from.
ghost use Rattle.std.specs.Prelude.{◌≡◌, ◌==◌, IfOk};
ghost use Rattle.std.specs.List.{list_any};
ghost use Rattle.percent_encoding.specs.Percent.{percent_decode};
ghost use Rattle.s3_text.specs.Characters.{question_mark};
ghost use Rattle.s3_terms.specs.Fault.{Follows};
ghost use Rattle.s3_requests.specs.CopySource as rules;
ghost use Rattle.s3_requests.specs.Memory.{FollowsWhere, SourceInTakes, SourceTakes};

use crate::arguments::read_id;
use crate::line_names::begins_with;
use crate::operations::is_xml;
use crate::read_conditions::source_conditions_of;
use percent_encoding::percent_decode;
use s3_conditions::Conditions;
use s3_http_heads::{Head, has_bad_escape};
use s3_machine::Source;
use s3_names::{BucketName, Key, VersionId};
use s3_terms::{Code, Dialect, NoMemory};
use s3_text::{after_first, before_first};
use std::alloc::Global;

/// How the names of lines begin that set conditions for the source.
const CONDITION: &[u8] = b"x-amz-copy-source-if-";

// The source that a copy names, and its conditions. `NotImplemented` where there are such and documents are JSON;
// `InvalidArgument` where the value of `x-amz-copy-source` names no version of a key.
#[tactic(auto, unfolding(crate::specs::CopySource::source_of))]
pub(crate) fn copy_source(alloc: Global, dialect: Dialect, head: &Head) -> Result<Source, Code>
    ensures { FollowsWhere (SourceTakes dialect head.now) result (rules.source_of dialect head.now) }
{
    if !is_xml(dialect) && has_source_condition(head) {
        return Err(Code::NotImplemented);
    }
    match head.first(b"x-amz-copy-source") {
        None => Err(Code::InvalidArgument),
        Some(value) => source_in(alloc, dialect, head, value),
    }
}

// The conditions for the source.
fn conditions_for_source(
    alloc: Global,
    dialect: Dialect,
    head: &Head,
) -> Result<Conditions, NoMemory>
    ensures { IfOk result (λ conditions. conditions ≡ rules.conditions_for_source dialect head.now) }
{
    match dialect {
        Dialect::Json => Ok(Conditions::plain()),
        Dialect::S3 => source_conditions_of(alloc, head),
    }
}

// Whether a line sets a condition for the source.
fn has_source_condition(head: &Head) -> bool
    ensures { result ≡ rules.has_source_condition head.now }
{
    for index in 0..head.header_count() {
        let (name, _) = head.header(index);
        if is_condition(name) {
            return true;
        }
    }
    false
}

// Whether lines of this name set one.
fn is_condition(name: &[u8]) -> bool
    ensures { result ≡ rules.is_condition name.now }
{
    begins_with(name, CONDITION)
}

// What a value names, on the conditions of the head.
#[tactic(auto, unfolding(crate::specs::CopySource::source_in))]
fn source_in(alloc: Global, dialect: Dialect, head: &Head, value: &[u8]) -> Result<Source, Code>
    ensures { FollowsWhere (SourceInTakes value.now) result (rules.source_in (rules.conditions_for_source dialect head.now) value.now) }
{
    let version = version_in(value)?;
    let path = path_in(value);
    if has_bad_escape(path) {
        return Err(Code::InvalidArgument);
    }
    let bucket = bucket_in(alloc, path)?;
    let key = key_in(alloc, path)?;
    let conditions = conditions_for_source(alloc, dialect, head)?;
    Ok(Source {
        bucket,
        key,
        version,
        conditions,
    })
}

// The bucket and the key, as they were sent.
fn path_in(value: &[u8]) -> &[u8]
    ensures { result.now ≡ rules.path_in value.now }
{
    without_slash(before_first(value, b'?'))
}

fn without_slash(text: &[u8]) -> &[u8]
    ensures { result.now ≡ rules.without_slash text.now }
{
    match text {
        [b'/', rest @ ..] => rest,
        _ => text,
    }
}

// The version that is named, if one is.
#[tactic(auto, unfolding(crate::specs::CopySource::version_in))]
fn version_in(value: &[u8]) -> Result<Option<VersionId>, Code>
    ensures { result ≡ rules.version_in value.now }
{
    if has_question_mark(value) {
        id_in(after_first(value, b'?'))
    } else {
        Ok(None)
    }
}

fn has_question_mark(value: &[u8]) -> bool
    ensures { result ≡ list_any (λ b. b == question_mark) value.now }
{
    value.iter().any(|byte| *byte == b'?')
}

// The version that stands behind the question mark.
fn id_in(behind: &[u8]) -> Result<Option<VersionId>, Code>
    ensures { result ≡ rules.id_in behind.now }
{
    if before_first(behind, b'=') != b"versionId".as_slice() {
        return Err(Code::InvalidArgument);
    }
    read_id(after_first(behind, b'='))
}

// The bucket, decoded.
fn bucket_in(alloc: Global, path: &[u8]) -> Result<BucketName, Code>
    ensures { Follows result (rules.bucket_in path.now) }
{
    let name = decoded(alloc, before_first(path, b'/'))?;
    match BucketName::read(alloc, &name) {
        Ok(name) => Ok(name),
        Err(code) => Err(as_argument(code)),
    }
}

// The key, decoded.
fn key_in(alloc: Global, path: &[u8]) -> Result<Key, Code>
    ensures { Follows result (rules.key_in path.now) }
{
    let key = decoded(alloc, after_first(path, b'/'))?;
    match Key::read(alloc, &key) {
        Ok(key) => Ok(key),
        Err(code) => Err(as_argument(code)),
    }
}

// Whatever is wrong with the source, its argument is invalid, unless memory ran out.
fn as_argument(code: Code) -> Code
    ensures { result ≡ rules.argument_code code }
{
    match code {
        Code::InternalError => Code::InternalError,
        _ => Code::InvalidArgument,
    }
}

// The text without its escapes.
fn decoded(alloc: Global, text: &[u8]) -> Result<Vec<u8>, NoMemory>
    ensures { IfOk result (λ read. read.items ≡ percent_decode text.now) }
{
    let mut read = Vec::new(alloc);
    percent_decode(text).append_to(&mut read)?;
    Ok(read)
}
