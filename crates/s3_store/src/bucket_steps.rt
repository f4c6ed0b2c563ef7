//! What the commands on buckets do.
ghost use Rattle.std.specs.Prelude.{◌≡◌, ℕ, true, false, IfOk, OnErr, IsTrue};
ghost use Rattle.s3_records.specs.Leaving.{StaysKnown};
ghost use Rattle.s3_machine.specs.Effects.{is_refused, takes_room_in_bucket};
ghost use Rattle.s3_store.specs.Steps.{bucket_step};

use crate::list_steps::{tell_location, tell_objects, tell_uploads, tell_versions};
use s3_calendar::Moment;
use s3_machine::{BucketCommand, Configuration, Outcome, Rules};
use s3_names::BucketName;
use s3_records::Records;
use s3_terms::{Code, NoMemory};
use s3_versions::VersioningStatus;
use std::alloc::Global;

/// A refusal that tells of no delete marker.
pub(crate) fn refused(code: Code) -> Outcome
    ensures { result ≡ Outcome.Refused code false }
{
    Outcome::Refused {
        code,
        is_delete_marker: false,
    }
}

/// Takes the step of a command on a bucket. `NoMemory` leaves the records as they were.
pub(crate) fn take_on_bucket<R: Records>(
    records: &mut R,
    alloc: Global,
    rules: &Rules,
    name: &BucketName,
    asked: BucketCommand,
    moment: Moment,
) -> Result<Outcome, NoMemory>
    ensures ok { IfOk result (λ outcome.
        bucket_step rules.now (R.catalogue records.old) moment name.now asked ≡ (R.catalogue records.new, outcome)) }
    ensures err { OnErr result (R.catalogue records.new ≡ R.catalogue records.old) }
    ensures memory { OnErr result (R.is_in_memory ≡ true
        → is_refused (bucket_step rules.now (R.catalogue records.old) moment name.now asked).1 ≡ false) }
    ensures room { OnErr result (R.is_in_memory ≡ true → IsTrue (takes_room_in_bucket asked)) }
    ensures stays { StaysKnown R.leaves_one_of records.old records.new }
{
    match asked {
        BucketCommand::Create => create(records, alloc, name, moment),
        BucketCommand::Head => head(records, alloc, rules, name),
        BucketCommand::Delete => delete(records, alloc, name),
        BucketCommand::PutVersioning { status } => put_versioning(records, alloc, name, status),
        BucketCommand::GetVersioning => get_versioning(records, alloc, name),
        BucketCommand::GetLocation => tell_location(records, alloc, rules, name),
        BucketCommand::GetConfiguration(which) => get_configuration(records, alloc, name, which),
        BucketCommand::ListObjects(asked) => tell_objects(records, alloc, name, asked),
        BucketCommand::ListVersions(asked) => tell_versions(records, alloc, name, asked),
        BucketCommand::ListUploads(asked) => tell_uploads(records, alloc, name, asked),
    }
}

// CreateBucket.
#[tactic(auto, unfolding(s3_machine::specs::Step::bucket_done))]
fn create<R: Records>(
    records: &mut R,
    alloc: Global,
    name: &BucketName,
    moment: Moment,
) -> Result<Outcome, NoMemory>
    ensures ok { IfOk result (λ outcome. (rules : Rules)
        → bucket_step rules (R.catalogue records.old) moment name.now BucketCommand.Create ≡ (R.catalogue records.new, outcome)) }
    ensures err { OnErr result (R.catalogue records.new ≡ R.catalogue records.old) }
    ensures memory { OnErr result (R.is_in_memory ≡ true → (rules : Rules)
        → is_refused (bucket_step rules (R.catalogue records.old) moment name.now BucketCommand.Create).1 ≡ false) }
    ensures stays { StaysKnown R.leaves_one_of records.old records.new }
{
    match records.bucket(alloc, name)? {
        Some(_) => Ok(refused(Code::BucketAlreadyOwnedByYou)),
        None => {
            let made = name.copy()?;
            let kept = name.copy()?;
            records.add_bucket(alloc, kept, moment)?;
            Ok(Outcome::BucketMade { name: made })
        }
    }
}

// HeadBucket.
#[tactic(auto, unfolding(s3_machine::specs::Step::bucket_done))]
fn head<R: Records>(
    records: &mut R,
    alloc: Global,
    rules: &Rules,
    name: &BucketName,
) -> Result<Outcome, NoMemory>
    ensures ok { IfOk result (λ outcome. (t : ℕ)
        → bucket_step rules.now (R.catalogue records.old) t name.now BucketCommand.Head ≡ (R.catalogue records.new, outcome)) }
    ensures same { R.catalogue records.new ≡ R.catalogue records.old }
    ensures memory { OnErr result (R.is_in_memory ≡ false) }
    ensures stays { StaysKnown R.leaves_one_of records.old records.new }
{
    match records.bucket(alloc, name)? {
        None => Ok(refused(Code::NoSuchBucket)),
        Some(_) => Ok(Outcome::BucketFound {
            region: rules.region.copy(),
        }),
    }
}

// DeleteBucket.
#[tactic(auto, unfolding(s3_machine::specs::Step::bucket_done))]
fn delete<R: Records>(
    records: &mut R,
    alloc: Global,
    name: &BucketName,
) -> Result<Outcome, NoMemory>
    ensures ok { IfOk result (λ outcome. (rules : Rules) (t : ℕ)
        → bucket_step rules (R.catalogue records.old) t name.now BucketCommand.Delete ≡ (R.catalogue records.new, outcome)) }
    ensures err { OnErr result (R.catalogue records.new ≡ R.catalogue records.old) }
    ensures memory { OnErr result (R.is_in_memory ≡ false) }
    ensures stays { StaysKnown R.leaves_one_of records.old records.new }
{
    match records.bucket(alloc, name)? {
        None => Ok(refused(Code::NoSuchBucket)),
        Some(_) => {
            if records.is_empty(alloc, name)? {
                records.drop_bucket(alloc, name)?;
                Ok(Outcome::BucketDropped)
            } else {
                Ok(refused(Code::BucketNotEmpty))
            }
        }
    }
}

// PutBucketVersioning.
#[tactic(auto, unfolding(s3_machine::specs::Step::bucket_done))]
fn put_versioning<R: Records>(
    records: &mut R,
    alloc: Global,
    name: &BucketName,
    status: VersioningStatus,
) -> Result<Outcome, NoMemory>
    ensures ok { IfOk result (λ outcome. (rules : Rules) (t : ℕ)
        → bucket_step rules (R.catalogue records.old) t name.now (BucketCommand.PutVersioning status)
        ≡ (R.catalogue records.new, outcome)) }
    ensures err { OnErr result (R.catalogue records.new ≡ R.catalogue records.old) }
    ensures memory { OnErr result (R.is_in_memory ≡ false) }
    ensures stays { StaysKnown R.leaves_one_of records.old records.new }
{
    match records.bucket(alloc, name)? {
        None => Ok(refused(Code::NoSuchBucket)),
        Some(_) => {
            records.set_versioning(alloc, name, status)?;
            Ok(Outcome::VersioningSet)
        }
    }
}

// GetBucketVersioning.
#[tactic(auto, using(crate::proofs::StepLemmas::versioning_told), unfolding(s3_machine::specs::Step::bucket_done))]
fn get_versioning<R: Records>(
    records: &mut R,
    alloc: Global,
    name: &BucketName,
) -> Result<Outcome, NoMemory>
    ensures ok { IfOk result (λ outcome. (rules : Rules) (t : ℕ)
        → bucket_step rules (R.catalogue records.old) t name.now BucketCommand.GetVersioning
        ≡ (R.catalogue records.new, outcome)) }
    ensures same { R.catalogue records.new ≡ R.catalogue records.old }
    ensures memory { OnErr result (R.is_in_memory ≡ false) }
    ensures stays { StaysKnown R.leaves_one_of records.old records.new }
{
    match records.bucket(alloc, name)? {
        None => Ok(refused(Code::NoSuchBucket)),
        Some(facts) => Ok(Outcome::BucketVersioning {
            versioning: facts.versioning,
        }),
    }
}

// GetBucketPolicy and its like: no bucket has the configuration.
#[tactic(auto, unfolding(s3_machine::specs::Step::bucket_done))]
fn get_configuration<R: Records>(
    records: &mut R,
    alloc: Global,
    name: &BucketName,
    which: Configuration,
) -> Result<Outcome, NoMemory>
    ensures ok { IfOk result (λ outcome. (rules : Rules) (t : ℕ)
        → bucket_step rules (R.catalogue records.old) t name.now (BucketCommand.GetConfiguration which)
        ≡ (R.catalogue records.new, outcome)) }
    ensures same { R.catalogue records.new ≡ R.catalogue records.old }
    ensures memory { OnErr result (R.is_in_memory ≡ false) }
    ensures stays { StaysKnown R.leaves_one_of records.old records.new }
{
    match records.bucket(alloc, name)? {
        None => Ok(refused(Code::NoSuchBucket)),
        Some(_) => Ok(refused(which.absence())),
    }
}
