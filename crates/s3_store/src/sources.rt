//! Where copies are from.
ghost use Rattle.std.specs.Prelude.{◌≡◌, true, false, IfOk, OnErr, IsTrue, is_ok};
ghost use Rattle.s3_records.specs.Catalogue.{has_bucket, versioning_of};
ghost use Rattle.s3_records.specs.Leaving.{StaysKnown};
ghost use Rattle.s3_machine.specs.Step as steps;
ghost use Rattle.s3_store.specs.Steps.{facts_for_copy, source_in, source_judged};

use crate::reading::look;
use s3_bodies::Body;
use s3_conditions::{Conditions, Selection, judge};
use s3_machine::{CopyRange, Found, Source};
use s3_records::Records;
use s3_terms::{Code, NoMemory};
use s3_versions::{Facts, Refusal, Versioning};
use std::alloc::Global;

/// The version that a copy is from, where the range lies in it, or the refusal. Whether the version may be copied and
/// whether the range lies in it is judged before memory is taken. The bytes are shared, and none is copied.
#[tactic(auto, using(crate::proofs::SourceLemmas::source_steps))]
pub(crate) fn find_source<R: Records>(
    records: &mut R,
    alloc: Global,
    source: &Source,
    range: Option<CopyRange>,
) -> Result<Result<Found<Body>, Refusal>, NoMemory>
    ensures value { IfOk result (λ read. read ≡ source_in (R.catalogue records.old) source.now range) }
    ensures same { R.catalogue records.new ≡ R.catalogue records.old }
    ensures memory { OnErr result (R.is_in_memory ≡ true
        → is_ok (source_in (R.catalogue records.old) source.now range) ≡ true) }
    ensures stays { StaysKnown R.leaves_one_of records.old records.new }
{
    match records.bucket(alloc, &source.bucket)? {
        None => Ok(Err(refusal_of(Code::NoSuchBucket))),
        Some(facts) => find_in_bucket(records, alloc, facts.versioning, source, range),
    }
}

// The same in a bucket that is there, and has this versioning.
#[tactic(auto, using(crate::proofs::SourceLemmas::source_steps))]
fn find_in_bucket<R: Records>(
    records: &mut R,
    alloc: Global,
    versioning: Versioning,
    source: &Source,
    range: Option<CopyRange>,
) -> Result<Result<Found<Body>, Refusal>, NoMemory>
    requires there { IsTrue (has_bucket (R.catalogue records.old) source.now.bucket) }
    requires versioning { versioning ≡ versioning_of (R.catalogue records.old) source.now.bucket }
    ensures value { IfOk result (λ read. read ≡ source_in (R.catalogue records.old) source.now range) }
    ensures same { R.catalogue records.new ≡ R.catalogue records.old }
    ensures memory { OnErr result (R.is_in_memory ≡ true
        → is_ok (source_in (R.catalogue records.old) source.now range) ≡ true) }
    ensures stays { StaysKnown R.leaves_one_of records.old records.new }
{
    let facts = records.facts(alloc, &source.bucket, &source.key, source.version)?;
    match source_judged(facts, &source.conditions, range) {
        Ok(()) => look(
            records,
            alloc,
            &source.bucket,
            versioning,
            &source.key,
            source.version,
        ),
        Err(refusal) => Ok(Err(refusal)),
    }
}

// Whether a version may be copied of which this is known, by the conditions and the range.
fn source_judged(
    facts: Result<Facts, Refusal>,
    conditions: &Conditions,
    range: Option<CopyRange>,
) -> Result<(), Refusal>
    ensures { result ≡ source_judged conditions.now range facts }
{
    let facts = facts_for_copy(facts)?;
    if !may_be_copied(conditions, &facts) {
        return Err(refusal_of(Code::PreconditionFailed));
    }
    if !lies_in(range, facts.size) {
        return Err(refusal_of(Code::InvalidArgument));
    }
    Ok(())
}

// What a copy is told of a version that is known so, or why none is read.
fn facts_for_copy(facts: Result<Facts, Refusal>) -> Result<Facts, Refusal>
    ensures { result ≡ facts_for_copy facts }
{
    match facts {
        Ok(facts) => Ok(facts),
        Err(refusal) => Err(refusal_of(source_code(refusal.code))),
    }
}

/// A refusal that tells of no delete marker.
pub(crate) fn refusal_of(code: Code) -> Refusal
    ensures { result ≡ record { code = code; is_delete_marker = false } }
{
    Refusal {
        code,
        is_delete_marker: false,
    }
}

// How a copy says that there is nothing to be read.
fn source_code(code: Code) -> Code
    ensures { result ≡ steps.source_code code }
{
    match code {
        Code::MethodNotAllowed => Code::InvalidRequest,
        _ => code,
    }
}

// Whether a read by these conditions shows all of a version of which this is known.
fn may_be_copied(conditions: &Conditions, facts: &Facts) -> bool
    ensures { result ≡ steps.may_be_copied conditions.now facts.now }
{
    match judge(conditions, facts.moment, &facts.tag, facts.size) {
        Ok(Selection::Whole) => true,
        Ok(_) => false,
        Err(_) => false,
    }
}

// Whether a range lies in so many bytes.
fn lies_in(range: Option<CopyRange>, size: u64) -> bool
    ensures { result ≡ steps.lies_in range size }
{
    match range {
        None => true,
        Some(range) => range.first <= range.last && range.last < size,
    }
}
