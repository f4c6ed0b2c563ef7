//! What keeps a write with a condition from storing.
ghost use Rattle.std.specs.Prelude.{◌≡◌, false, IfOk, OnErr};
ghost use Rattle.s3_records.specs.Leaving.{StaysKnown};
ghost use Rattle.s3_machine.specs.Step.{tag_at, is_barred, barred_code};
ghost use Rattle.s3_store.specs.Steps.{bar_at, bar_by, tag_told};

use s3_conditions::TagList;
use s3_machine::WriteCondition;
use s3_names::{BucketName, Key, Tag};
use s3_records::Records;
use s3_terms::{Code, NoMemory};
use s3_versions::{Facts, Refusal};
use std::alloc::Global;

/// The code by which a write under a key is refused, if its condition fails: `NoSuchKey` where there is no object, else
/// `PreconditionFailed` (Amazon S3 API Reference, PutObject, `If-None-Match` and `If-Match`). It takes no memory, and a write
/// without a condition asks nothing of the records.
pub(crate) fn bar<R: Records>(
    records: &mut R,
    alloc: Global,
    bucket: &BucketName,
    key: &Key,
    condition: &WriteCondition,
) -> Result<Option<Code>, NoMemory>
    ensures value { IfOk result (λ bar. bar ≡ bar_at (R.catalogue records.old) bucket.now key.now condition.now) }
    ensures same { R.catalogue records.new ≡ R.catalogue records.old }
    ensures memory { OnErr result (R.is_in_memory ≡ false) }
    ensures stays { StaysKnown R.leaves_one_of records.old records.new }
{
    match condition {
        WriteCondition::Unconditional => Ok(None),
        WriteCondition::IfAbsent | WriteCondition::IfMatch(_) => {
            let found = tag_at(records, alloc, bucket, key)?;
            Ok(bar_by(condition, &found))
        }
    }
}

/// The same of a write that asks for an object with one of these tags.
pub(crate) fn bar_by_tags<R: Records>(
    records: &mut R,
    alloc: Global,
    bucket: &BucketName,
    key: &Key,
    tags: TagList,
) -> Result<Option<Code>, NoMemory>
    ensures value { IfOk result (λ bar. bar ≡ bar_at (R.catalogue records.old) bucket.now key.now (WriteCondition.IfMatch tags)) }
    ensures same { R.catalogue records.new ≡ R.catalogue records.old }
    ensures memory { OnErr result (R.is_in_memory ≡ false) }
    ensures stays { StaysKnown R.leaves_one_of records.old records.new }
{
    let condition = WriteCondition::IfMatch(tags);
    let barred = bar(records, alloc, bucket, key, &condition);
    drop(condition);
    barred
}

// The tag of the object that a key has, if it has one.
#[tactic(auto, using(crate::proofs::StepLemmas::tag_read))]
fn tag_at<R: Records>(
    records: &mut R,
    alloc: Global,
    bucket: &BucketName,
    key: &Key,
) -> Result<Option<Tag>, NoMemory>
    ensures value { IfOk result (λ tag. tag ≡ tag_at (R.catalogue records.old) bucket.now key.now) }
    ensures same { R.catalogue records.new ≡ R.catalogue records.old }
    ensures memory { OnErr result (R.is_in_memory ≡ false) }
    ensures stays { StaysKnown R.leaves_one_of records.old records.new }
{
    let facts = records.facts(alloc, bucket, key, None)?;
    Ok(tag_told(facts))
}

// The tag of a version that is read, if one is.
fn tag_told(facts: Result<Facts, Refusal>) -> Option<Tag>
    ensures { result ≡ tag_told facts }
{
    match facts {
        Ok(facts) => Some(facts.tag),
        Err(_) => None,
    }
}

// The code by which a write is refused, if its condition fails, where the object of its key has this tag, or there is none.
fn bar_by(condition: &WriteCondition, found: &Option<Tag>) -> Option<Code>
    ensures { result ≡ bar_by condition.now found.now }
{
    if is_barred(condition, found) {
        Some(barred_code(found))
    } else {
        None
    }
}

// Whether the condition fails.
fn is_barred(condition: &WriteCondition, found: &Option<Tag>) -> bool
    ensures { result ≡ is_barred condition.now found.now }
{
    match condition {
        WriteCondition::Unconditional => false,
        WriteCondition::IfAbsent => found.is_some(),
        WriteCondition::IfMatch(tags) => match found {
            None => true,
            Some(tag) => !tags.matches(tag),
        },
    }
}

// The code that a condition which fails is refused by.
fn barred_code(found: &Option<Tag>) -> Code
    ensures { result ≡ barred_code found.now }
{
    match found {
        None => Code::NoSuchKey,
        Some(_) => Code::PreconditionFailed,
    }
}
