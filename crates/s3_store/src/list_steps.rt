//! What the commands do that tell a document of a bucket or of all buckets.
ghost use Rattle.std.specs.Prelude.{◌≡◌, ℕ, true, false, IfOk, OnErr};
ghost use Rattle.s3_records.specs.Leaving.{StaysKnown};
ghost use Rattle.s3_records.specs.Rows.{key_rows};
ghost use Rattle.s3_listings.specs.Objects.{objects_told};
ghost use Rattle.s3_listings.specs.Uploads.{uploads_told};
ghost use Rattle.s3_listings.specs.Versions.{versions_told};
ghost use Rattle.s3_documents.specs.Document as documents;
ghost use Rattle.s3_machine.specs.Effects.{is_refused};
ghost use Rattle.s3_machine.specs.Step.{step};
ghost use Rattle.s3_store.specs.Steps.{bucket_step};

use crate::bucket_steps::refused;
use s3_documents::Document;
use s3_listings::{UploadsAsked, VersionsAsked, list_objects, list_uploads, list_versions};
use s3_machine::{BucketCommand, Command, Outcome, Rules};
use s3_names::BucketName;
use s3_prefixes::ObjectsAsked;
use s3_records::Records;
use s3_terms::{Code, NoMemory};
use std::alloc::Global;

/// ListBuckets.
#[tactic(auto, unfolding(s3_machine::specs::Step::done))]
pub(crate) fn tell_buckets<R: Records>(records: &mut R, alloc: Global) -> Result<Outcome, NoMemory>
    ensures ok { IfOk result (λ outcome. (rules : Rules) (n t : ℕ)
        → step rules (R.catalogue records.old) n t Command.ListBuckets ≡ (R.catalogue records.new, outcome)) }
    ensures same { R.catalogue records.new ≡ R.catalogue records.old }
    ensures stays { StaysKnown R.leaves_one_of records.old records.new }
{
    let rows = records.buckets(alloc)?;
    let document = Document::of_buckets(alloc, rows)?;
    Ok(Outcome::Told { document })
}

/// GetBucketLocation.
#[tactic(auto, unfolding(s3_machine::specs::Step::bucket_done))]
pub(crate) fn tell_location<R: Records>(
    records: &mut R,
    alloc: Global,
    rules: &Rules,
    name: &BucketName,
) -> Result<Outcome, NoMemory>
    ensures ok { IfOk result (λ outcome. (t : ℕ)
        → bucket_step rules.now (R.catalogue records.old) t name.now BucketCommand.GetLocation
        ≡ (R.catalogue records.new, outcome)) }
    ensures same { R.catalogue records.new ≡ R.catalogue records.old }
    ensures memory { OnErr result (R.is_in_memory ≡ true → (t : ℕ)
        → is_refused (bucket_step rules.now (R.catalogue records.old) t name.now BucketCommand.GetLocation).1 ≡ false) }
    ensures stays { StaysKnown R.leaves_one_of records.old records.new }
{
    match records.bucket(alloc, name)? {
        None => Ok(refused(Code::NoSuchBucket)),
        Some(_) => {
            let region = rules.region.text(alloc)?;
            let document = Document::of_location(alloc, region)?;
            Ok(Outcome::Told { document })
        }
    }
}

/// ListObjects and ListObjectsV2.
#[tactic(auto, unfolding(s3_machine::specs::Step::bucket_done))]
pub(crate) fn tell_objects<R: Records>(
    records: &mut R,
    alloc: Global,
    name: &BucketName,
    asked: ObjectsAsked,
) -> Result<Outcome, NoMemory>
    ensures ok { IfOk result (λ outcome. (rules : Rules) (t : ℕ)
        → bucket_step rules (R.catalogue records.old) t name.now (BucketCommand.ListObjects asked)
        ≡ (R.catalogue records.new, outcome)) }
    ensures same { R.catalogue records.new ≡ R.catalogue records.old }
    ensures memory { OnErr result (R.is_in_memory ≡ true → (rules : Rules) (t : ℕ)
        → is_refused (bucket_step rules (R.catalogue records.old) t name.now (BucketCommand.ListObjects asked)).1 ≡ false) }
    ensures stays { StaysKnown R.leaves_one_of records.old records.new }
{
    match records.bucket(alloc, name) {
        Ok(Some(_)) => tell_objects_of(records, alloc, name, asked),
        Ok(None) => {
            drop(asked);
            Ok(refused(Code::NoSuchBucket))
        }
        Err(no_memory) => {
            drop(asked);
            Err(no_memory)
        }
    }
}

// The page of a bucket's objects.
fn tell_objects_of<R: Records>(
    records: &mut R,
    alloc: Global,
    name: &BucketName,
    asked: ObjectsAsked,
) -> Result<Outcome, NoMemory>
    ensures value { IfOk result (λ outcome. outcome
        ≡ Outcome.Told (documents.objects name.now asked (objects_told asked (key_rows (R.catalogue records.old) name.now)))) }
    ensures same { R.catalogue records.new ≡ R.catalogue records.old }
    ensures stays { StaysKnown R.leaves_one_of records.old records.new }
{
    let Ok(kept) = name.copy() else {
        drop(asked);
        return Err(NoMemory);
    };
    let page = list_objects(records, alloc, name, &asked)?;
    let document = Document::of_objects(alloc, kept, asked, page)?;
    Ok(Outcome::Told { document })
}

/// ListObjectVersions.
#[tactic(auto, unfolding(s3_machine::specs::Step::bucket_done))]
pub(crate) fn tell_versions<R: Records>(
    records: &mut R,
    alloc: Global,
    name: &BucketName,
    asked: VersionsAsked,
) -> Result<Outcome, NoMemory>
    ensures ok { IfOk result (λ outcome. (rules : Rules) (t : ℕ)
        → bucket_step rules (R.catalogue records.old) t name.now (BucketCommand.ListVersions asked)
        ≡ (R.catalogue records.new, outcome)) }
    ensures same { R.catalogue records.new ≡ R.catalogue records.old }
    ensures memory { OnErr result (R.is_in_memory ≡ true → (rules : Rules) (t : ℕ)
        → is_refused (bucket_step rules (R.catalogue records.old) t name.now (BucketCommand.ListVersions asked)).1 ≡ false) }
    ensures stays { StaysKnown R.leaves_one_of records.old records.new }
{
    match records.bucket(alloc, name) {
        Ok(Some(_)) => tell_versions_of(records, alloc, name, asked),
        Ok(None) => {
            drop(asked);
            Ok(refused(Code::NoSuchBucket))
        }
        Err(no_memory) => {
            drop(asked);
            Err(no_memory)
        }
    }
}

// The page of a bucket's versions.
fn tell_versions_of<R: Records>(
    records: &mut R,
    alloc: Global,
    name: &BucketName,
    asked: VersionsAsked,
) -> Result<Outcome, NoMemory>
    ensures value { IfOk result (λ outcome. outcome
        ≡ Outcome.Told (documents.versions name.now asked (versions_told asked (R.catalogue records.old) name.now))) }
    ensures same { R.catalogue records.new ≡ R.catalogue records.old }
    ensures stays { StaysKnown R.leaves_one_of records.old records.new }
{
    let kept = name.copy()?;
    let page = list_versions(records, alloc, name, &asked)?;
    let document = Document::of_versions(alloc, kept, asked, page)?;
    Ok(Outcome::Told { document })
}

/// ListMultipartUploads.
#[tactic(auto, unfolding(s3_machine::specs::Step::bucket_done))]
pub(crate) fn tell_uploads<R: Records>(
    records: &mut R,
    alloc: Global,
    name: &BucketName,
    asked: UploadsAsked,
) -> Result<Outcome, NoMemory>
    ensures ok { IfOk result (λ outcome. (rules : Rules) (t : ℕ)
        → bucket_step rules (R.catalogue records.old) t name.now (BucketCommand.ListUploads asked)
        ≡ (R.catalogue records.new, outcome)) }
    ensures same { R.catalogue records.new ≡ R.catalogue records.old }
    ensures memory { OnErr result (R.is_in_memory ≡ true → (rules : Rules) (t : ℕ)
        → is_refused (bucket_step rules (R.catalogue records.old) t name.now (BucketCommand.ListUploads asked)).1 ≡ false) }
    ensures stays { StaysKnown R.leaves_one_of records.old records.new }
{
    match records.bucket(alloc, name) {
        Ok(Some(_)) => tell_uploads_of(records, alloc, name, asked),
        Ok(None) => {
            drop(asked);
            Ok(refused(Code::NoSuchBucket))
        }
        Err(no_memory) => {
            drop(asked);
            Err(no_memory)
        }
    }
}

// The page of a bucket's uploads.
fn tell_uploads_of<R: Records>(
    records: &mut R,
    alloc: Global,
    name: &BucketName,
    asked: UploadsAsked,
) -> Result<Outcome, NoMemory>
    ensures value { IfOk result (λ outcome. outcome
        ≡ Outcome.Told (documents.uploads name.now asked (uploads_told asked (R.catalogue records.old) name.now))) }
    ensures same { R.catalogue records.new ≡ R.catalogue records.old }
    ensures stays { StaysKnown R.leaves_one_of records.old records.new }
{
    let kept = name.copy()?;
    let page = list_uploads(records, alloc, name, &asked)?;
    let document = Document::of_uploads(alloc, kept, asked, page)?;
    Ok(Outcome::Told { document })
}
