//! Records in memory.
ghost use Rattle.std.specs.Prelude.{⊤, ◌≡◌, ◌≢◌, [], true, false, None, IfOk, OnOk, OnErr, IsOk, IsTrue};
ghost use Rattle.std.specs.FinMap as map;
ghost use Rattle.std.specs.Option.{option_copied};
ghost use Rattle.s3_versions.specs.Rules.{asked_for};
ghost use Rattle.s3_uploads.specs.Completion.{completed};
ghost use Rattle.s3_records.specs.OpenUploads.{upload_at};
ghost use Rattle.s3_records.specs.Catalogue.{opening, new_bucket, found_versions, versions_of, listed_buckets};

use crate::adding::put;
use crate::bucket::StoredBucket;
use crate::commit::CommitError;
use crate::listing::bucket_rows;
use crate::records::{BucketFacts, ListedBucket, Records};
use crate::rows::{KeyRow, Start, UploadRow, UploadStart, VersionRow, VersionStart};
use s3_bodies::Body;
use s3_calendar::Moment;
use s3_deletions::{Markers, NamedObject};
use s3_names::{BucketName, Key, PartNumber, UploadId, VersionId};
use s3_terms::{Code, NoMemory};
use s3_uploads::{CompletionError, ListedPart, Part, PartRow, Upload};
use s3_versions::{
    Data, Facts, Refusal, Version, VersioningStatus, Versions, current, read_facts, version_under,
};
use std::alloc::Global;
use std::collections::BTreeMap;
use std::marker::Model;

/// Records in memory, which are gone when the server ends. Contracts see them as the catalogue. To find a
/// bucket and a key costs the logarithm of how many there are; a change costs that and the length of the
/// key's list of versions.
#[derive(Drop)]
pub struct MapRecords {
    by_name: BTreeMap<BucketName, StoredBucket>,
}

impl Model for MapRecords {
    ghost use Rattle.std.specs.Prelude.{ℕ, List};
    ghost use Rattle.std.specs.FinMap as map;
    ghost use Rattle.s3_versions.specs.Codes.{coded_bytes};
    ghost use Rattle.s3_records.specs.Catalogue.{Catalogue};
    ghost use Rattle.s3_records.specs.Codes.{coded_catalogue};

    ghost Value = { Catalogue (List ℕ) };

    ghost coded = { coded_catalogue coded_bytes };

    ghost view = { λ records. map.from_entries records.by_name.entries };
}

impl MapRecords {
    /// Records with these first buckets, which are unversioned and empty, made at moment 0. A name that stands twice is one
    /// bucket. The names are copied; without one no memory is taken.
    pub fn of_buckets(alloc: Global, names: &[BucketName]) -> Result<MapRecords, NoMemory>
        ensures value { IfOk result (λ records. records ≡ opening names.now) }
        ensures memory { OnErr result (names.now ≢ []) }
    {
        let mut records = MapRecords {
            by_name: BTreeMap::new(alloc),
        };
        for name in names {
            match records.put_bucket(alloc, name.copy()?, first_moment()) {
                Ok(()) => {}
                Err(failed) => {
                    drop(records);
                    return Err(failed);
                }
            }
        }
        Ok(records)
    }

    // The bucket of this name.
    fn found_bucket(&self, name: &BucketName) -> Option<&StoredBucket>
        ensures { option_copied result ≡ map.get self.now name.now }
    {
        self.by_name.get(name)
    }

    // The versions under a key; `None` where there are none.
    fn found_versions(&self, bucket: &BucketName, key: &Key) -> Option<&Versions<Body>>
        ensures { found_versions (option_copied result) ≡ versions_of self.now bucket.now key.now }
    {
        match self.found_bucket(bucket) {
            None => None,
            Some(bucket) => bucket.keys.get(key),
        }
    }

    // The version that a request asks for.
    fn asked_for(
        &self,
        bucket: &BucketName,
        key: &Key,
        asked: Option<VersionId>,
    ) -> Option<&Version<Body>>
        ensures { option_copied result ≡ asked_for asked (versions_of self.now bucket.now key.now) }
    {
        match self.found_versions(bucket, key) {
            None => None,
            Some(versions) => asked_among(versions.as_slice(), asked),
        }
    }

    // The upload at a place.
    fn found_upload(&self, bucket: &BucketName, key: &Key, id: UploadId) -> Option<&Upload<Body>>
        ensures { option_copied result ≡ upload_at self.now bucket.now key.now id }
    {
        match self.found_bucket(bucket) {
            None => None,
            Some(bucket) => bucket.uploads.get(key, id),
        }
    }

    // All buckets.
    #[tactic(auto, using(crate::proofs::MapLemmas::made_entries))]
    fn listed(&self, alloc: Global) -> Result<Vec<ListedBucket>, NoMemory>
        ensures value { IfOk result (λ rows. rows.items ≡ listed_buckets self.now) }
        ensures memory { OnErr result (listed_buckets self.now ≢ []) }
    {
        bucket_rows(alloc, &self.by_name)
    }

    // Puts in an empty bucket, in the place of the one that has this name.
    fn put_bucket(&mut self, alloc: Global, name: BucketName, made: Moment) -> Result<(), NoMemory>
        ensures ok { OnOk result (self.new ≡ map.insert self.old name (new_bucket made)) }
        ensures err { OnErr result (self.new ≡ self.old) }
    {
        put(&mut self.by_name, name, Ok(StoredBucket::new(alloc, made)))
    }
}

impl Records for MapRecords {
    ghost catalogue = { λ records. records };

    ghost is_in_memory = { true };

    ghost leaves = { λ _ _. ⊥ };

    ghost leaves_one_of = { λ _ _. ⊤ };

    ghost or_of_more = { λ _ _ _ _ _. tt };

    ghost leaves_number = { λ _ _. ⊤ };

    fn outlive_crashes(&self) {}

    fn commit(&mut self, _next: u64) -> Result<(), CommitError> {
        Ok(())
    }

    fn bucket(
        &mut self,
        _alloc: Global,
        name: &BucketName,
    ) -> Result<Option<BucketFacts>, NoMemory> {
        match self.found_bucket(name) {
            None => Ok(None),
            Some(bucket) => Ok(Some(bucket.facts())),
        }
    }

    fn buckets(&mut self, alloc: Global) -> Result<Vec<ListedBucket>, NoMemory> {
        self.listed(alloc)
    }

    fn is_empty(&mut self, _alloc: Global, name: &BucketName) -> Result<bool, NoMemory> {
        match self.found_bucket(name) {
            None => Ok(true),
            Some(bucket) => Ok(bucket.is_empty()),
        }
    }

    fn version(
        &mut self,
        alloc: Global,
        bucket: &BucketName,
        key: &Key,
        asked: Option<VersionId>,
    ) -> Result<Option<Version<Body>>, NoMemory> {
        match self.asked_for(bucket, key, asked) {
            None => Ok(None),
            Some(version) => match version.copy(alloc) {
                Ok(version) => Ok(Some(version)),
                Err(failed) => Err(failed),
            },
        }
    }

    fn facts(
        &mut self,
        _alloc: Global,
        bucket: &BucketName,
        key: &Key,
        asked: Option<VersionId>,
    ) -> Result<Result<Facts, Refusal>, NoMemory> {
        Ok(read_facts(asked, self.asked_for(bucket, key, asked)))
    }

    fn keys_from(
        &mut self,
        alloc: Global,
        bucket: &BucketName,
        start: &Start,
        most: usize,
    ) -> Result<Vec<KeyRow>, NoMemory> {
        match self.found_bucket(bucket) {
            None => Ok(Vec::new(alloc)),
            Some(bucket) => bucket.keys.keys_from(alloc, start, most),
        }
    }

    fn versions_from(
        &mut self,
        alloc: Global,
        bucket: &BucketName,
        start: &VersionStart,
        most: usize,
    ) -> Result<Vec<VersionRow>, NoMemory> {
        match self.found_bucket(bucket) {
            None => Ok(Vec::new(alloc)),
            Some(bucket) => bucket.keys.versions_from(alloc, start, most),
        }
    }

    fn add_bucket(
        &mut self,
        alloc: Global,
        name: BucketName,
        moment: Moment,
    ) -> Result<(), NoMemory> {
        self.put_bucket(alloc, name, moment)
    }

    fn drop_bucket(&mut self, _alloc: Global, name: &BucketName) -> Result<(), NoMemory> {
        drop(self.by_name.remove(name));
        Ok(())
    }

    fn set_versioning(
        &mut self,
        _alloc: Global,
        name: &BucketName,
        status: VersioningStatus,
    ) -> Result<(), NoMemory> {
        match self.by_name.get_mut(name) {
            // The caller knows that the bucket is there.
            None => unreachable!(),
            Some(bucket) => {
                bucket.set_versioning(status);
                Ok(())
            }
        }
    }

    fn put_version(
        &mut self,
        alloc: Global,
        bucket: &BucketName,
        key: Key,
        number: u64,
        moment: Moment,
        stored: Data<Body>,
    ) -> Result<(), NoMemory> {
        match self.by_name.get_mut(bucket) {
            // The caller knows that the bucket is there.
            None => unreachable!(),
            Some(bucket) => bucket.put(alloc, key, number, moment, stored),
        }
    }

    fn put_copy(
        &mut self,
        alloc: Global,
        _source: &BucketName,
        _source_key: &Key,
        _asked: Option<VersionId>,
        bucket: &BucketName,
        key: Key,
        number: u64,
        moment: Moment,
        stored: Data<Body>,
    ) -> Result<(), NoMemory> {
        self.put_version(alloc, bucket, key, number, moment, stored)
    }

    fn delete(
        &mut self,
        alloc: Global,
        bucket: &BucketName,
        key: Key,
        number: u64,
        moment: Moment,
    ) -> Result<(), NoMemory> {
        match self.by_name.get_mut(bucket) {
            // The caller knows that the bucket is there.
            None => unreachable!(),
            Some(bucket) => bucket.delete(alloc, key, number, moment),
        }
    }

    fn drop_version(
        &mut self,
        _alloc: Global,
        bucket: &BucketName,
        key: &Key,
        id: VersionId,
    ) -> Result<Option<Version<Body>>, NoMemory> {
        match self.by_name.get_mut(bucket) {
            // The caller knows that the bucket is there.
            None => unreachable!(),
            Some(bucket) => Ok(bucket.drop_version(key, id)),
        }
    }

    fn delete_all(
        &mut self,
        alloc: Global,
        bucket: &BucketName,
        objects: &[NamedObject],
        number: u64,
        moment: Moment,
    ) -> Result<Markers, NoMemory> {
        match self.by_name.get_mut(bucket) {
            // The caller knows that the bucket is there.
            None => unreachable!(),
            Some(bucket) => bucket.delete_all(alloc, objects, number, moment),
        }
    }

    fn has_upload(
        &mut self,
        _alloc: Global,
        bucket: &BucketName,
        key: &Key,
        id: UploadId,
    ) -> Result<bool, NoMemory> {
        Ok(self.found_upload(bucket, key, id).is_some())
    }

    fn uploads_from(
        &mut self,
        alloc: Global,
        bucket: &BucketName,
        start: &UploadStart,
        most: usize,
    ) -> Result<Vec<UploadRow>, NoMemory> {
        match self.found_bucket(bucket) {
            None => Ok(Vec::new(alloc)),
            Some(bucket) => bucket.uploads.rows_from(alloc, start, most),
        }
    }

    fn parts_from(
        &mut self,
        alloc: Global,
        bucket: &BucketName,
        key: &Key,
        id: UploadId,
        last: u64,
        most: usize,
    ) -> Result<Vec<PartRow>, NoMemory> {
        match self.found_upload(bucket, key, id) {
            None => Ok(Vec::new(alloc)),
            Some(upload) => upload.parts_behind(alloc, last, most),
        }
    }

    fn completed(
        &mut self,
        alloc: Global,
        bucket: &BucketName,
        key: &Key,
        id: UploadId,
        least: u64,
        listed: &[ListedPart],
    ) -> Result<Result<Data<Body>, Code>, NoMemory> {
        match self.found_upload(bucket, key, id) {
            None => Ok(Err(Code::NoSuchUpload)),
            Some(upload) => completed(alloc, upload, least, listed),
        }
    }

    fn add_upload(
        &mut self,
        alloc: Global,
        bucket: &BucketName,
        key: Key,
        id: UploadId,
        upload: Upload<Body>,
    ) -> Result<(), NoMemory> {
        match self.by_name.get_mut(bucket) {
            // The caller knows that the bucket is there.
            None => unreachable!(),
            Some(bucket) => bucket.add_upload(alloc, key, id, upload),
        }
    }

    fn put_part(
        &mut self,
        _alloc: Global,
        bucket: &BucketName,
        key: &Key,
        id: UploadId,
        number: PartNumber,
        part: Part<Body>,
    ) -> Result<Option<Part<Body>>, NoMemory> {
        match self.by_name.get_mut(bucket) {
            // The caller knows that the bucket is there.
            None => unreachable!(),
            Some(bucket) => bucket.put_part(key, id, number, part),
        }
    }

    fn drop_upload(
        &mut self,
        _alloc: Global,
        bucket: &BucketName,
        key: &Key,
        id: UploadId,
    ) -> Result<Option<Upload<Body>>, NoMemory> {
        match self.by_name.get_mut(bucket) {
            // The caller knows that the bucket is there.
            None => unreachable!(),
            Some(bucket) => Ok(bucket.drop_upload(key, id)),
        }
    }

    fn complete(
        &mut self,
        alloc: Global,
        bucket: &BucketName,
        key: Key,
        id: UploadId,
        number: u64,
        moment: Moment,
        _listed: &[ListedPart],
        stored: Data<Body>,
    ) -> Result<Option<Upload<Body>>, NoMemory> {
        match self.by_name.get_mut(bucket) {
            // The caller knows that the bucket is there.
            None => unreachable!(),
            Some(bucket) => {
                let gone = bucket.complete(alloc, &key, id, number, moment, stored);
                drop(key);
                gone
            }
        }
    }
}

// The moment at which the first buckets are made.
fn first_moment() -> Moment
    ensures { result ≡ 0 }
{
    match Moment::new(0) {
        Some(moment) => moment,
        // The caller knows that the bucket is there.
        None => unreachable!(),
    }
}

// The version of a key's that a request asks for.
fn asked_among(versions: &[Version<Body>], asked: Option<VersionId>) -> Option<&Version<Body>>
    ensures { option_copied result ≡ asked_for asked versions.now }
{
    match asked {
        None => current(versions),
        Some(id) => version_under(versions, id),
    }
}

// What the completion of an upload stores, or why it is refused.
fn completed(
    alloc: Global,
    upload: &Upload<Body>,
    least: u64,
    listed: &[ListedPart],
) -> Result<Result<Data<Body>, Code>, NoMemory>
    ensures value { IfOk result (λ stored. stored ≡ completed least listed.now upload.now) }
    ensures memory { OnErr result (IsOk (completed least listed.now upload.now)) }
{
    match upload.complete(alloc, least, listed) {
        Ok(stored) => Ok(Ok(stored)),
        Err(CompletionError::Refused(code)) => Ok(Err(code)),
        Err(CompletionError::NoMemory) => Err(NoMemory),
    }
}
