//! What the head of a write asks of the object that its key has.
ghost use Rattle.std.specs.Prelude.{◌≡◌, ◌<◌, None, length};
ghost use Rattle.std.specs.Option.{IsSomeAnd, option_copied};
ghost use Rattle.s3_requests.specs.Memory.{FollowsWhere, ConditionTakes};
ghost use Rattle.s3_requests.specs.WriteCondition as rules;

use s3_conditions::TagList;
use s3_http_heads::Head;
use s3_machine::{KeyCommand, WriteCondition};
use s3_names::VersionId;
use s3_terms::{Code, Dialect};
use std::alloc::Global;

// The condition of a PutObject and of a CompleteMultipartUpload: `NotImplemented` where its first If-None-Match line says
// something else than `*`, and where documents are XML and an If-Match line stands beside it. The tags of If-Match are copied.
#[tactic(auto, unfolding(crate::specs::WriteCondition::condition_of))]
pub(crate) fn condition_of(
    alloc: Global,
    dialect: Dialect,
    head: &Head,
) -> Result<WriteCondition, Code>
    ensures { FollowsWhere (ConditionTakes dialect head.now) result (rules.condition_of dialect head.now) }
{
    condition_said(
        alloc,
        head.first(b"if-none-match"),
        tags_wanted(dialect, head),
    )
}

// The tags one of which the object has to have, as the first If-Match line names them; where documents are JSON it is passed over.
pub(crate) fn tags_wanted<'a>(dialect: Dialect, head: &'a Head) -> Option<&'a [u8]>
    ensures { option_copied result ≡ rules.tags_wanted dialect head.now }
{
    match dialect {
        Dialect::Json => None,
        Dialect::S3 => head.first(b"if-match"),
    }
}

// What an If-None-Match line and tags say together.
fn condition_said(
    alloc: Global,
    absence: Option<&[u8]>,
    tags: Option<&[u8]>,
) -> Result<WriteCondition, Code>
    ensures { FollowsWhere ((option_copied absence.entry ≡ None) × IsSomeAnd (option_copied tags.entry) (λ value. 0 < length value))
        result (rules.condition_said (option_copied absence.entry) (option_copied tags.entry)) }
{
    match (absence, tags) {
        (None, None) => Ok(WriteCondition::Unconditional),
        (None, Some(tags)) => Ok(WriteCondition::IfMatch(TagList::read(alloc, tags)?)),
        (Some(value), None) => absence_said(value),
        (Some(_), Some(_)) => Err(Code::NotImplemented),
    }
}

// What an If-None-Match line says alone.
fn absence_said(value: &[u8]) -> Result<WriteCondition, Code>
    ensures { result ≡ rules.absence_said value.now }
{
    if value == b"*".as_slice() {
        Ok(WriteCondition::IfAbsent)
    } else {
        Err(Code::NotImplemented)
    }
}

// The delete of this version, or of what is current, where no tags are wanted. With tags it is that of the object, on the
// condition that it has one of them: `NotImplemented` where a version is named too. The tags are copied.
pub(crate) fn deletion_said(
    alloc: Global,
    version: Option<VersionId>,
    tags: Option<&[u8]>,
) -> Result<KeyCommand, Code>
    ensures { FollowsWhere ((version ≡ None) × IsSomeAnd (option_copied tags.entry) (λ value. 0 < length value))
        result (rules.deletion_said version (option_copied tags.entry)) }
{
    match (version, tags) {
        (version, None) => Ok(KeyCommand::Delete { version }),
        (None, Some(tags)) => Ok(KeyCommand::DeleteMatching {
            tags: TagList::read(alloc, tags)?,
        }),
        (Some(_), Some(_)) => Err(Code::NotImplemented),
    }
}
