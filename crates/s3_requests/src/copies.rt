//! What a copy asks beside its source.
ghost use Rattle.std.specs.Prelude.{◌≡◌};
ghost use Rattle.std.specs.Option.{option_copied};
ghost use Rattle.s3_terms.specs.Fault.{Follows};
ghost use Rattle.s3_requests.specs.Copies as rules;
ghost use Rattle.s3_requests.specs.Memory.{FollowsWhere};
ghost use Rattle.s3_requests.specs.Memory as memory;

use crate::copy_source::copy_source;
use crate::description::description_of;
use crate::operations::is_xml;
use s3_conditions::ByteRange;
use s3_http_heads::{Head, Target};
use s3_machine::{CopyRange, Description, ObjectCopy, PartCopy, Source};
use s3_terms::{Code, Dialect};
use std::alloc::Global;

/// What is to be done with what is said of the source.
#[derive(Clone, Copy)]
pub(crate) enum Directive {
    /// It is said of the copy too.
    Keep,
    /// What the head of the copy says takes its place.
    Replace,
}

// What a CopyObject copies to this target: the first fault of its directive, `InvalidArgument` or in JSON `NotImplemented`, of
// its source, and of what its head says of the copy, where that counts.
#[tactic(auto, unfolding(crate::specs::Copies::object_copy_of), using(crate::proofs::MemoryLemmas::copied_takes))]
pub(crate) fn object_copy(
    alloc: Global,
    dialect: Dialect,
    head: &Head,
    target: &Target,
) -> Result<ObjectCopy, Code>
    ensures { FollowsWhere (memory.CopyTakes dialect head.now) result (rules.object_copy_of dialect head.now target.now) }
{
    let directive = directive_of(dialect, head)?;
    let source = source_for(alloc, dialect, directive, head, target)?;
    let description = description_by(alloc, dialect, directive, head)?;
    Ok(ObjectCopy {
        source,
        description,
    })
}

// Its source: `InvalidRequest` where it is a copy to itself, and documents are XML.
#[tactic(auto, unfolding(crate::specs::Copies::source_for))]
fn source_for(
    alloc: Global,
    dialect: Dialect,
    directive: Directive,
    head: &Head,
    target: &Target,
) -> Result<Source, Code>
    ensures { FollowsWhere (memory.SourceTakes dialect head.now) result (rules.source_for dialect directive head.now target.now) }
{
    let source = copy_source(alloc, dialect, head)?;
    if is_xml(dialect) && is_copy_to_itself(directive, &source, target) {
        return Err(Code::InvalidRequest);
    }
    Ok(source)
}

// Whether it is a copy of the current version of a key to the key itself that keeps what is said of it.
fn is_copy_to_itself(directive: Directive, source: &Source, target: &Target) -> bool
    ensures { result ≡ rules.is_copy_to_itself directive source.now target.now }
{
    match directive {
        Directive::Keep => {
            source.version.is_none()
                && source.bucket.as_bytes() == target.bucket()
                && source.key.as_bytes() == target.key()
        }
        Directive::Replace => false,
    }
}

// What the directive of a copy says.
#[tactic(auto, unfolding(crate::specs::Copies::directive_of))]
fn directive_of(dialect: Dialect, head: &Head) -> Result<Directive, Code>
    ensures { result ≡ rules.directive_of dialect head.now }
{
    directive_named(dialect, head.first(b"x-amz-metadata-directive"))
}

// The same of its text, if there is one.
fn directive_named(dialect: Dialect, text: Option<&[u8]>) -> Result<Directive, Code>
    ensures { result ≡ rules.directive_named dialect (option_copied text.entry) }
{
    match text {
        None => Ok(Directive::Keep),
        Some(text) => read_directive(dialect, text),
    }
}

// The same of a text that is there.
#[tactic(auto, unfolding(crate::specs::Copies::directive_read))]
fn read_directive(dialect: Dialect, text: &[u8]) -> Result<Directive, Code>
    ensures { result ≡ rules.directive_read dialect text.now }
{
    if text == b"COPY".as_slice() {
        return Ok(Directive::Keep);
    }
    match dialect {
        Dialect::Json => Err(Code::NotImplemented),
        Dialect::S3 if text == b"REPLACE".as_slice() => Ok(Directive::Replace),
        Dialect::S3 => Err(Code::InvalidArgument),
    }
}

// What is to be said of the copy.
fn description_by(
    alloc: Global,
    dialect: Dialect,
    directive: Directive,
    head: &Head,
) -> Result<Option<Description>, Code>
    ensures { Follows result (rules.description_by dialect directive head.now) }
{
    match directive {
        Directive::Keep => Ok(None),
        Directive::Replace => Ok(Some(description_of(alloc, dialect, head)?)),
    }
}

// What an UploadPartCopy copies: the first fault of its source, and `InvalidArgument` where its range has no first and last
// position.
#[tactic(auto, unfolding(crate::specs::Copies::part_copy_of))]
pub(crate) fn part_copy(alloc: Global, dialect: Dialect, head: &Head) -> Result<PartCopy, Code>
    ensures { FollowsWhere (memory.SourceTakes dialect head.now) result (rules.part_copy_of dialect head.now) }
{
    let source = copy_source(alloc, dialect, head)?;
    let range = range_named(head.first(b"x-amz-copy-source-range"))?;
    Ok(PartCopy { source, range })
}

// The bytes that a line names, if one is there.
fn range_named(text: Option<&[u8]>) -> Result<Option<CopyRange>, Code>
    ensures { result ≡ rules.range_named (option_copied text.entry) }
{
    match text {
        None => Ok(None),
        Some(text) => match ByteRange::read(text) {
            Some(ByteRange::FromTo { first, last }) => Ok(Some(CopyRange { first, last })),
            _ => Err(Code::InvalidArgument),
        },
    }
}
