//! What a copy does.
ghost use Rattle.std.specs.Prelude.{◌≡◌, true, false, Some, IfOk, OnErr, is_ok};
ghost use Rattle.s3_records.specs.Catalogue.{bytes_asked};
ghost use Rattle.s3_records.specs.Leaving.{StaysKnown};
ghost use Rattle.s3_machine.specs.Effects.{is_refused};
ghost use Rattle.s3_machine.specs.Step as steps;
ghost use Rattle.s3_store.specs.Steps.{key_step, copy_step, data_found, MayEnter};

use crate::key_steps::refused_with;
use crate::reading::shown;
use crate::sources::find_source;
use s3_bodies::Body;
use s3_calendar::Moment;
use s3_machine::{Description, Found, KeyCommand, ObjectCopy, Outcome, Source};
use s3_names::{BucketName, Key};
use s3_records::Records;
use s3_terms::NoMemory;
use s3_versions::{Data, Refusal, Versioning};
use std::alloc::Global;

/// CopyObject. Whether the source meets its conditions is judged before memory is taken. The bytes are shared, and none is
/// copied. `NoMemory` leaves the records as they were.
pub(crate) fn copy<R: Records>(
    records: &mut R,
    alloc: Global,
    bucket: &BucketName,
    versioning: Versioning,
    key: Key,
    asked: ObjectCopy,
    number: u64,
    moment: Moment,
) -> Result<Outcome, NoMemory>
    requires { MayEnter (R.catalogue records.old) number bucket.now versioning }
    ensures ok { IfOk result (λ outcome.
        key_step (R.catalogue records.old) number moment bucket.now key (KeyCommand.Copy asked)
        ≡ (R.catalogue records.new, outcome)) }
    ensures err { OnErr result (R.catalogue records.new ≡ R.catalogue records.old) }
    ensures memory { OnErr result (R.is_in_memory ≡ true
        → is_refused (key_step (R.catalogue records.old) number moment bucket.now key (KeyCommand.Copy asked)).1 ≡ false) }
    ensures stays { StaysKnown R.leaves_one_of records.old records.new }
{
    let ObjectCopy {
        source,
        description,
    } = asked;
    let outcome = copy_from(
        records,
        alloc,
        bucket,
        versioning,
        key,
        &source,
        description,
        number,
        moment,
    );
    drop(source);
    outcome
}

// The same of what is asked for, taken apart.
#[tactic(auto, using(crate::proofs::StepLemmas::copy_steps))]
fn copy_from<R: Records>(
    records: &mut R,
    alloc: Global,
    bucket: &BucketName,
    versioning: Versioning,
    key: Key,
    source: &Source,
    description: Option<Description>,
    number: u64,
    moment: Moment,
) -> Result<Outcome, NoMemory>
    requires { MayEnter (R.catalogue records.old) number bucket.now versioning }
    ensures ok { IfOk result (λ outcome.
        key_step (R.catalogue records.old) number moment bucket.now key (KeyCommand.Copy (record { source = source.now; description = description }))
        ≡ (R.catalogue records.new, outcome)) }
    ensures err { OnErr result (R.catalogue records.new ≡ R.catalogue records.old) }
    ensures memory { OnErr result (R.is_in_memory ≡ true
        → is_refused (key_step (R.catalogue records.old) number moment bucket.now key (KeyCommand.Copy (record { source = source.now; description = description }))).1
        ≡ false) }
    ensures stays { StaysKnown R.leaves_one_of records.old records.new }
{
    match copied(records, alloc, source, description)? {
        Err(refusal) => Ok(refused_with(refusal)),
        Ok(stored) => put_copy(
            records, alloc, bucket, versioning, key, source, stored, number, moment,
        ),
    }
}

// Puts what a copy stores, whose bytes are those of its source.
fn put_copy<R: Records>(
    records: &mut R,
    alloc: Global,
    bucket: &BucketName,
    versioning: Versioning,
    key: Key,
    source: &Source,
    stored: Data<Body>,
    number: u64,
    moment: Moment,
) -> Result<Outcome, NoMemory>
    requires enters { MayEnter (R.catalogue records.old) number bucket.now versioning }
    requires copied { bytes_asked (R.catalogue records.old) source.now.bucket source.now.key source.now.version ≡ Some stored.body }
    ensures ok { IfOk result (λ outcome.
        copy_step (R.catalogue records.old) number moment bucket.now key stored ≡ (R.catalogue records.new, outcome)) }
    ensures err { OnErr result (R.catalogue records.new ≡ R.catalogue records.old) }
    ensures stays { StaysKnown R.leaves_one_of records.old records.new }
{
    let tag = stored.tag.copy();
    records.put_copy(
        alloc,
        &source.bucket,
        &source.key,
        source.version,
        bucket,
        key,
        number,
        moment,
        stored,
    )?;
    let shown = shown(versioning, versioning.new_id(number));
    Ok(Outcome::Copied { tag, moment, shown })
}

// What a copy stores, or the refusal.
fn copied<R: Records>(
    records: &mut R,
    alloc: Global,
    source: &Source,
    description: Option<Description>,
) -> Result<Result<Data<Body>, Refusal>, NoMemory>
    ensures value { IfOk result (λ read. read
        ≡ steps.copied (R.catalogue records.old) (record { source = source.now; description = description })) }
    ensures same { R.catalogue records.new ≡ R.catalogue records.old }
    ensures memory { OnErr result (R.is_in_memory ≡ true
        → is_ok (steps.copied (R.catalogue records.old) (record { source = source.now; description = description })) ≡ true) }
    ensures stays { StaysKnown R.leaves_one_of records.old records.new }
{
    match find_source(records, alloc, source, None) {
        Ok(found) => Ok(data_found(description, found)),
        Err(no_memory) => {
            drop(description);
            Err(no_memory)
        }
    }
}

// What is copied of a version that was found, and is described so.
fn data_found(
    said: Option<Description>,
    found: Result<Found<Body>, Refusal>,
) -> Result<Data<Body>, Refusal>
    ensures { result ≡ data_found said found }
{
    match found {
        Ok(found) => Ok(described(said, found.stored)),
        Err(refusal) => Err(refusal),
    }
}

// What is stored of a source, by what is said of the copy. What its source says is dropped then.
fn described(said: Option<Description>, stored: Data<Body>) -> Data<Body>
    ensures { result ≡ steps.described said stored }
{
    match said {
        None => stored,
        Some(said) => Data {
            content_type: said.content_type,
            metadata: said.metadata,
            ..stored
        },
    }
}
