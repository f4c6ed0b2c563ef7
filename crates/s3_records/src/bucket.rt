//! One bucket, in memory.
ghost use Rattle.std.specs.Prelude.{◌≡◌, ◌≢◌, ℕ, List, [], None, Some, IfOk, OnOk, OnErr, IsTrue, is_some, option_map, find};
ghost use Rattle.s3_uploads.specs.Parts.{part_at};
ghost use Rattle.s3_uploads.specs.Uploads.{with_part};
ghost use Rattle.s3_versions.specs.Rules.{is_under, replaced, is_new_number, VersionPut, KeyDeleted, VersionDropped};

use crate::keys::KeyMap;
use crate::records::BucketFacts;
use crate::uploads::UploadMap;
use s3_bodies::Body;
use s3_calendar::Moment;
use s3_deletions::{Markers, NamedObject};
use s3_names::{Key, PartNumber, UploadId, VersionId};
use s3_terms::NoMemory;
use s3_uploads::{Part, Upload};
use s3_versions::{Content, Data, Version, Versioning, VersioningStatus};
use std::alloc::Global;
use std::marker::Model;

/// A bucket: when it was made, its versioning, its keys, and its uploads.
#[derive(Drop)]
pub(crate) struct StoredBucket {
    made: Moment,
    versioning: Versioning,
    pub(crate) keys: KeyMap,
    pub(crate) uploads: UploadMap,
}

impl Model for StoredBucket {
    ghost use Rattle.std.specs.Prelude.{ℕ, List};
    ghost use Rattle.s3_versions.specs.Codes.{coded_bytes};
    ghost use Rattle.s3_records.specs.Catalogue.{Bucket};
    ghost use Rattle.s3_records.specs.Codes.{coded_bucket};

    ghost Value = { Bucket (List ℕ) };

    ghost coded = { coded_bucket coded_bytes };

    ghost view = { λ b. record { made = b.made; versioning = b.versioning; keys = b.keys; uploads = b.uploads } };
}

impl StoredBucket {
    ghost use Rattle.s3_records.specs.Catalogue.{new_bucket, facts_of, is_empty_in, versions_at};
    ghost use Rattle.s3_records.specs.Changes.{set_in, change_in, upload_change_in};
    ghost use Rattle.s3_records.specs.Deletions.{bucket_deleted, markers_in};
    ghost use Rattle.s3_records.specs.OpenUploads.{upload_under, parts_sent};

    /// A bucket made at this moment, unversioned and empty. It takes no memory yet.
    pub(crate) fn new(alloc: Global, made: Moment) -> StoredBucket
        ensures { result ≡ new_bucket made }
    {
        StoredBucket {
            made,
            versioning: Versioning::Unversioned,
            keys: KeyMap::new(alloc),
            uploads: UploadMap::new(alloc),
        }
    }

    /// When it was made, and its versioning.
    pub(crate) fn facts(&self) -> BucketFacts
        ensures { result ≡ facts_of self.now }
    {
        BucketFacts {
            made: self.made,
            versioning: self.versioning,
        }
    }

    /// Whether nothing is in it.
    pub(crate) fn is_empty(&self) -> bool
        ensures { result ≡ is_empty_in (Some self.now) }
    {
        self.keys.is_empty() && self.uploads.is_empty()
    }

    /// Sets its versioning.
    pub(crate) fn set_versioning(&mut self, status: VersioningStatus)
        ensures { self.new ≡ set_in status self.old }
    {
        self.versioning = status.versioning();
    }

    /// Puts a version under the key, and drops the one that goes. `NoMemory`, which comes only where none
    /// goes, leaves the bucket as it was.
    pub(crate) fn put(
        &mut self,
        alloc: Global,
        key: Key,
        number: u64,
        moment: Moment,
        stored: Data<Body>,
    ) -> Result<(), NoMemory>
        requires { IsTrue (is_new_number number (versions_at self.old.keys key)) }
        ensures ok { OnOk result (self.new ≡ change_in key (VersionPut number moment stored) self.old) }
        ensures err { OnErr result (self.new ≡ self.old) }
        ensures memory { OnErr result (replaced self.old.versioning number (versions_at self.old.keys key) ≡ None) }
    {
        let content = Content::Stored(stored);
        let versioning = self.versioning;
        self.keys
            .add(alloc, key, versioning, number, moment, content)
    }

    /// Deletes the key without naming a version, and drops the one that goes. `NoMemory`, which comes only
    /// where none goes and a delete marker has to be held, leaves the bucket as it was.
    pub(crate) fn delete(
        &mut self,
        alloc: Global,
        key: Key,
        number: u64,
        moment: Moment,
    ) -> Result<(), NoMemory>
        requires { IsTrue (is_new_number number (versions_at self.old.keys key)) }
        ensures ok { OnOk result (self.new ≡ change_in key (KeyDeleted number moment) self.old) }
        ensures err { OnErr result (self.new ≡ self.old) }
        ensures memory { OnErr result (replaced self.old.versioning number (versions_at self.old.keys key) ≡ None) }
        ensures held { OnErr result (self.old.versioning ≢ Versioning.Unversioned) }
    {
        match self.versioning {
            Versioning::Unversioned => {
                drop(self.keys.drop_version(&key, VersionId::Null));
                drop(key);
                Ok(())
            }
            Versioning::Enabled | Versioning::Suspended => {
                let content = Content::DeleteMarker;
                self.keys
                    .add(alloc, key, self.versioning, number, moment, content)
            }
        }
    }

    /// Takes out the version of this id under the key, and answers it. Takes no memory.
    pub(crate) fn drop_version(&mut self, key: &Key, id: VersionId) -> Option<Version<Body>>
        ensures value { self.new ≡ change_in key.now (VersionDropped id) self.old }
        ensures gone { result ≡ find (is_under id) (versions_at self.old.keys key.now) }
    {
        self.keys.drop_version(key, id)
    }

    /// Deletes the objects that are named, by the entry of this number, which is above those of all versions, and answers for
    /// each the id of the delete marker that was made or is gone. `NoMemory` leaves the bucket as it was.
    pub(crate) fn delete_all(
        &mut self,
        alloc: Global,
        objects: &[NamedObject],
        number: u64,
        moment: Moment,
    ) -> Result<Markers, NoMemory>
        requires { (key : List ℕ) → IsTrue (is_new_number number (versions_at self.old.keys key)) }
        ensures ok { OnOk result (self.new ≡ bucket_deleted number moment objects.now self.old) }
        ensures markers { IfOk result (λ markers. markers
            ≡ markers_in self.old.versioning number moment self.old.keys objects.now) }
        ensures err { OnErr result (self.new ≡ self.old) }
    {
        match self
            .keys
            .delete_all(alloc, self.versioning, number, moment, objects)
        {
            Ok(ids) => Ok(Markers::new(ids)),
            Err(failed) => Err(failed),
        }
    }

    /// Puts in an upload, in the place of the one that has its key and its id. `NoMemory` leaves the bucket as it was.
    pub(crate) fn add_upload(
        &mut self,
        alloc: Global,
        key: Key,
        id: UploadId,
        upload: Upload<Body>,
    ) -> Result<(), NoMemory>
        ensures ok { OnOk result (self.new ≡ upload_change_in key id (λ old. Some upload) self.old) }
        ensures err { OnErr result (self.new ≡ self.old) }
    {
        self.uploads.add(alloc, key, id, upload)
    }

    /// Puts a part to an upload, which is there, and answers the one that it replaces. `NoMemory`, which comes only where none
    /// is replaced, leaves the bucket as it was.
    pub(crate) fn put_part(
        &mut self,
        key: &Key,
        id: UploadId,
        number: PartNumber,
        part: Part<Body>,
    ) -> Result<Option<Part<Body>>, NoMemory>
        requires { IsTrue (is_some (upload_under self.old.uploads key.now id)) }
        ensures ok { OnOk result (self.new ≡ upload_change_in key.now id (option_map (with_part number part)) self.old) }
        ensures former { IfOk result (λ former. former ≡ part_at number (parts_sent (upload_under self.old.uploads key.now id))) }
        ensures err { OnErr result (self.new ≡ self.old) }
        ensures memory { OnErr result (part_at number (parts_sent (upload_under self.old.uploads key.now id)) ≡ None) }
    {
        self.uploads.put_part(key, id, number, part)
    }

    /// Takes out an upload, and answers it. Takes no memory.
    pub(crate) fn drop_upload(&mut self, key: &Key, id: UploadId) -> Option<Upload<Body>>
        ensures value { self.new ≡ upload_change_in key.now id (λ old. None) self.old }
        ensures gone { result ≡ upload_under self.old.uploads key.now id }
    {
        self.uploads.drop_upload(key, id)
    }

    /// Puts a version under the key, and drops the one that goes; then takes out an upload to it, and answers that.
    /// `NoMemory`, which comes only where no version goes, leaves the bucket as it was.
    pub(crate) fn complete(
        &mut self,
        alloc: Global,
        key: &Key,
        id: UploadId,
        number: u64,
        moment: Moment,
        stored: Data<Body>,
    ) -> Result<Option<Upload<Body>>, NoMemory>
        requires { IsTrue (is_new_number number (versions_at self.old.keys key.now)) }
        ensures ok { OnOk result (self.new
            ≡ upload_change_in key.now id (λ old. None) (change_in key.now (VersionPut number moment stored) self.old)) }
        ensures gone { IfOk result (λ gone. gone ≡ upload_under self.old.uploads key.now id) }
        ensures err { OnErr result (self.new ≡ self.old) }
        ensures memory { OnErr result (replaced self.old.versioning number (versions_at self.old.keys key.now) ≡ None) }
    {
        match self.keys.add_at(
            alloc,
            key,
            self.versioning,
            number,
            moment,
            Content::Stored(stored),
        ) {
            Ok(()) => Ok(self.uploads.drop_upload(key, id)),
            Err(failed) => Err(failed),
        }
    }
}
