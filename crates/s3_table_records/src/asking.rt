//! What is asked of rows alone.
ghost use Rattle.std.specs.Prelude.{◌≡◌, ℤ, IfOk, is_some, map};
ghost use Rattle.s3_versions.specs.Rules.{pick, facts_read};
ghost use Rattle.s3_records.specs.Catalogue.{facts_in, listed_buckets, has_bucket, is_empty_bucket, versions_of};
ghost use Rattle.s3_records.specs.OpenUploads.{upload_at};
ghost use Rattle.s3_rows.specs.Meaning.{catalogue_of};
ghost use Rattle.s3_rows.specs.Soundness.{AreSound};
ghost use Rattle.s3_rows.specs.ReadingLaws.{row_listed};
ghost use Rattle.s3_stored_bodies.specs.Numbers.{Contents};
ghost use Rattle.s3_stored_rows.specs.Bodies.{encoding};
ghost use Rattle.s3_stored_rows.specs.Changes.{bucket_columns};
ghost use Rattle.s3_stored_rows.specs.Leaving.{LeavesNoMore};
ghost use Rattle.s3_row_steps.specs.Steps.{AreKept};

use s3_names::{BucketName, Key, UploadId, VersionId};
use s3_records::{BucketFacts, ListedBucket};
use s3_row_steps as steps;
use s3_row_values::{bucket_facts, facts_from, listed_bucket};
use s3_rows::{rows_tell_buckets, rows_tell_uploads};
use s3_stored_rows::{StoredBucket, StoredRows};
use s3_terms::NoMemory;
use s3_versions::{Facts, Refusal};
use std::alloc::Global;

/// When a bucket was made, and its versioning, as `Records::bucket` says.
pub(crate) fn bucket<R: StoredRows>(
    rows: &mut R,
    name: &BucketName,
) -> Result<Option<BucketFacts>, NoMemory>
    ensures value { (contents : Contents) → IfOk result (λ facts. facts ≡ facts_in (catalogue_of (encoding contents) (R.tables rows.old)) name.now) }
    ensures there { (contents : Contents) → IfOk result (λ facts. is_some facts ≡ has_bucket (catalogue_of (encoding contents) (R.tables rows.old)) name.now) }
    ensures same { R.tables rows.new ≡ R.tables rows.old }
    ensures stays { LeavesNoMore R.leaves rows.old rows.new }
{
    rows_tell_buckets();
    match rows.bucket(name.as_bytes())? {
        None => Ok(None),
        Some(row) => {
            let facts = bucket_facts(&row)?;
            Ok(Some(facts))
        }
    }
}

/// All buckets, as `Records::buckets` says.
pub(crate) fn buckets<R: StoredRows>(
    rows: &mut R,
    alloc: Global,
) -> Result<Vec<ListedBucket>, NoMemory>
    requires { AreSound (R.tables rows.old) }
    ensures value { (contents : Contents) → IfOk result (λ told. told.items ≡ listed_buckets (catalogue_of (encoding contents) (R.tables rows.old))) }
    ensures same { R.tables rows.new ≡ R.tables rows.old }
    ensures stays { LeavesNoMore R.leaves rows.old rows.new }
{
    rows_tell_buckets();
    let all = rows.buckets(alloc)?;
    listed(alloc, all.as_slice())
}

// What is told of each of these buckets.
fn listed(alloc: Global, rows: &[StoredBucket]) -> Result<Vec<ListedBucket>, NoMemory>
    ensures { IfOk result (λ told. told.items ≡ map row_listed (map bucket_columns rows.now)) }
{
    let mut told = Vec::new(alloc);
    for row in rows {
        told.push(listed_bucket(alloc, row)?)?;
    }
    Ok(told)
}

/// Whether a bucket has nothing in it, as `Records::is_empty` says.
pub(crate) fn is_empty<R: StoredRows>(rows: &mut R, name: &BucketName) -> Result<bool, NoMemory>
    requires { AreSound (R.tables rows.old) }
    ensures value { (contents : Contents) → IfOk result (λ is_empty. is_empty ≡ is_empty_bucket (catalogue_of (encoding contents) (R.tables rows.old)) name.now) }
    ensures same { R.tables rows.new ≡ R.tables rows.old }
    ensures stays { LeavesNoMore R.leaves rows.old rows.new }
{
    rows_tell_buckets();
    let has_versions = rows.has_versions(name.as_bytes())?;
    let has_uploads = rows.has_uploads(name.as_bytes())?;
    Ok(!has_versions && !has_uploads)
}

/// What is known of the version that a request reads, or why none is read, as `Records::facts` says.
pub(crate) fn facts<R: StoredRows>(
    rows: &mut R,
    bucket: &BucketName,
    key: &Key,
    asked: Option<VersionId>,
) -> Result<Result<Facts, Refusal>, NoMemory>
    requires kept { (next : ℤ) × AreKept next (R.tables rows.old) }
    ensures value { (contents : Contents) → IfOk result (λ facts. facts
        ≡ facts_read (pick asked (versions_of (catalogue_of (encoding contents) (R.tables rows.old)) bucket.now key.now))) }
    ensures same { R.tables rows.new ≡ R.tables rows.old }
    ensures stays { LeavesNoMore R.leaves rows.old rows.new }
{
    let found = steps::found_version(rows, bucket, key, asked)?;
    facts_from(asked, found.as_ref())
}

/// Whether an upload is open, as `Records::has_upload` says.
pub(crate) fn has_upload<R: StoredRows>(
    rows: &mut R,
    bucket: &BucketName,
    key: &Key,
    id: UploadId,
) -> Result<bool, NoMemory>
    requires kept { (next : ℤ) × AreKept next (R.tables rows.old) }
    ensures value { (contents : Contents) → IfOk result (λ there. there ≡ is_some (upload_at (catalogue_of (encoding contents) (R.tables rows.old)) bucket.now key.now id)) }
    ensures same { R.tables rows.new ≡ R.tables rows.old }
    ensures stays { LeavesNoMore R.leaves rows.old rows.new }
{
    rows_tell_uploads();
    let found = steps::found_upload_row(rows, bucket, key, id)?;
    Ok(found.is_some())
}
