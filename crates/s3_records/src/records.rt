//! What every keeper of records promises.
ghost use Rattle.std.specs.Prelude.{◌≡◌, ◌≢◌, ℕ, List, [], ◌∷◌, Bool, true, false, Some, None, Ok, IfOk, OnOk, OnErr, IsOk, IsTrue, find, take, is_some, option_and_then};
ghost use Rattle.s3_versions.specs.Rules.{is_under, asked_for, facts_read, pick, stored, replaced, is_new_number, VersionPut, KeyDeleted, VersionDropped};
ghost use Rattle.s3_records.specs.Catalogue.{Catalogue, facts_in, listed_buckets, has_bucket, is_empty_bucket, versions_of, bytes_asked, versioning_of};
ghost use Rattle.s3_uploads.specs.Parts.{part_at, rows_behind};
ghost use Rattle.s3_records.specs.Changes.{changed, BucketAdded, BucketDropped, VersioningSet, KeyChanged, UploadAdded, PartPut, UploadDropped, UploadCompleted};
ghost use Rattle.s3_records.specs.Deletions.{all_deleted, markers_of};
ghost use Rattle.s3_records.specs.Leaving.{IsOneOf, StaysKnown};
ghost use Rattle.s3_records.specs.OpenUploads.{upload_at, parts_at, bytes_listed, completed_at, uploads_from};
ghost use Rattle.s3_records.specs.Places.{AreBelow};
ghost use Rattle.s3_records.specs.Rows.{keys_from, versions_from};

use crate::commit::CommitError;
use crate::rows::{KeyRow, Start, UploadRow, UploadStart, VersionRow, VersionStart};
use s3_bodies::Body;
use s3_calendar::Moment;
use s3_deletions::{Markers, NamedObject};
use s3_names::{BucketName, Key, PartNumber, UploadId, VersionId};
use s3_terms::{Code, NoMemory};
use s3_uploads::{ListedPart, Part, PartRow, Upload};
use s3_versions::{Data, Facts, Refusal, Version, Versioning, VersioningStatus};
use std::alloc::Global;

/// What is told of one bucket.
#[derive(Clone, Copy)]
pub struct BucketFacts {
    /// When it was made.
    pub made: Moment,
    pub versioning: Versioning,
}

/// A bucket in the list of all.
#[derive(Drop)]
pub struct ListedBucket {
    pub name: BucketName,
    /// When it was made.
    pub made: Moment,
}

/// A keeper of one catalogue: buckets, and under their keys the versions and the open uploads, with their bytes. The
/// rules of versions and uploads are those of Amazon S3 (`docs/PROTOCOL.md`, "Versions" and "Uploads").
///
/// A call that asks answers from the catalogue as it is, and leaves that. A call that changes makes the named change
/// where it answers `Ok`. What a change takes away is dropped with its bytes, unless it is answered.
///
/// Each call has `NoMemory` as its only error, and leaves the catalogue as it was then. What was passed to it by value
/// is dropped. A keeper may hold all in memory (`is_in_memory`). A call tells where such a keeper can have the error;
/// where it tells nothing, that can come at any time.
///
/// No call but `commit` takes away what is known of what a crash leaves: until that it leaves one of the catalogues that were known
/// before the change. Contracts tell that after each call. A crash within a call leaves what may be left where all that the call
/// asks of the disk from then on fails.
pub trait Records {
    ghost catalogue: { Self → Catalogue (List ℕ) };

    // Whether the keeper holds all in memory, so that what needs no more room never lacks it.
    ghost is_in_memory: { Bool };

    // The catalogues that one may find who opens the records again after a crash now. There is none where a crash leaves nothing,
    // and nothing is said of a disk that doesn't give back what was written to it.
    ghost leaves: { Self → Catalogue (List ℕ) → Type 0 };

    // That a crash now leaves one of these catalogues, or nothing.
    ghost leaves_one_of: { Self → List (Catalogue (List ℕ)) → Type 0 };

    // The same of more catalogues.
    ghost or_of_more: { (records : Self) (known more : List (Catalogue (List ℕ)))
        → ((c : Catalogue (List ℕ)) → IsOneOf c known → IsOneOf c more) → leaves_one_of records known → leaves_one_of records more };

    // That a crash now leaves records which give the next entry this number or a later one, or nothing.
    ghost leaves_number: { Self → ℕ → Type 0 };

    /// That what a crash leaves is one of the catalogues of which that is known. It costs nothing.
    fn outlive_crashes(&self)
        ensures { (known : List (Catalogue (List ℕ))) (left : Catalogue (List ℕ))
            → leaves_one_of self.now known → leaves self.now left → IsOneOf left known };

    /// Commits all changes so far: where it answers `Ok`, a crash now leaves the catalogue as it is and no other, so that their
    /// answers may be told. A crash before it answers, also during the call, leaves what it could leave before, or this. With the
    /// changes it commits the number of the next entry, so that no entry after a crash gets one below it. A keeper in memory, of which
    /// a crash leaves nothing, has no error here.
    ///
    /// # Errors
    ///
    /// `CommitError::NoMemory` where memory ran out, or the keeper found no room, before it knew: it may be asked again.
    /// `CommitError::Failed` where what it stands on has failed, for good.
    fn commit(&mut self, next: u64) -> Result<(), CommitError>
        ensures settled { OnOk result (leaves_one_of self.new (catalogue self.new ∷ [])) }
        ensures numbered { OnOk result (leaves_number self.new next) }
        ensures in_doubt { (known : List (Catalogue (List ℕ))) → leaves_one_of self.old known → leaves_one_of self.new (catalogue self.old ∷ known) }
        ensures same { catalogue self.new ≡ catalogue self.old }
        ensures memory { OnErr result (is_in_memory ≡ false) };

    /// When a bucket was made, and its versioning. `None` where there is no such bucket. A keeper in memory has no
    /// error here.
    fn bucket(&mut self, alloc: Global, name: &BucketName) -> Result<Option<BucketFacts>, NoMemory>
        ensures value { IfOk result (λ facts. facts ≡ facts_in (catalogue self.old) name.now) }
        ensures there { IfOk result (λ facts. is_some facts ≡ has_bucket (catalogue self.old) name.now) }
        ensures same { catalogue self.new ≡ catalogue self.old }
        ensures stays { StaysKnown leaves_one_of self.old self.new }
        ensures memory { OnErr result (is_in_memory ≡ false) };

    /// All buckets, by name in the order of bytes. A keeper in memory has no error where there is none.
    fn buckets(&mut self, alloc: Global) -> Result<Vec<ListedBucket>, NoMemory>
        ensures value { IfOk result (λ rows. rows.items ≡ listed_buckets (catalogue self.old)) }
        ensures same { catalogue self.new ≡ catalogue self.old }
        ensures stays { StaysKnown leaves_one_of self.old self.new }
        ensures memory { OnErr result (is_in_memory ≡ true → listed_buckets (catalogue self.old) ≢ []) };

    /// Whether a bucket has nothing in it, not even a delete marker or an open upload. It is true where there is no
    /// such bucket. A keeper in memory has no error here.
    fn is_empty(&mut self, alloc: Global, name: &BucketName) -> Result<bool, NoMemory>
        ensures value { IfOk result (λ is_empty. is_empty ≡ is_empty_bucket (catalogue self.old) name.now) }
        ensures same { catalogue self.new ≡ catalogue self.old }
        ensures stays { StaysKnown leaves_one_of self.old self.new }
        ensures memory { OnErr result (is_in_memory ≡ false) };

    /// The version that a request asks for: that of the id that it names, or the current one where it names none.
    /// `None` where there is none. A keeper in memory has an error only where there is one that is no delete marker.
    fn version(
        &mut self,
        alloc: Global,
        bucket: &BucketName,
        key: &Key,
        asked: Option<VersionId>,
    ) -> Result<Option<Version<Body>>, NoMemory>
        ensures value { IfOk result (λ found. found ≡ asked_for asked (versions_of (catalogue self.old) bucket.now key.now)) }
        ensures same { catalogue self.new ≡ catalogue self.old }
        ensures stays { StaysKnown leaves_one_of self.old self.new }
        ensures memory { OnErr result (
            is_in_memory ≡ true → option_and_then stored (asked_for asked (versions_of (catalogue self.old) bucket.now key.now)) ≢ None) };

    /// What is known, beside what its put sent, of the version that a request reads; or why none is read. A keeper in
    /// memory has no error here.
    fn facts(
        &mut self,
        alloc: Global,
        bucket: &BucketName,
        key: &Key,
        asked: Option<VersionId>,
    ) -> Result<Result<Facts, Refusal>, NoMemory>
        ensures value { IfOk result (λ facts. facts
            ≡ facts_read (pick asked (versions_of (catalogue self.old) bucket.now key.now))) }
        ensures same { catalogue self.new ≡ catalogue self.old }
        ensures stays { StaysKnown leaves_one_of self.old self.new }
        ensures memory { OnErr result (is_in_memory ≡ false) };

    /// The rows of the keys of a bucket from a place on, by key in the order of bytes, and at most so many. There are
    /// none where there is no such bucket.
    ///
    /// It costs the rows that are told, and to find the first of them. A keeper in memory has no error where no row is
    /// told.
    fn keys_from(
        &mut self,
        alloc: Global,
        bucket: &BucketName,
        start: &Start,
        most: usize,
    ) -> Result<Vec<KeyRow>, NoMemory>
        ensures value { IfOk result (λ rows. rows.items ≡ take most (keys_from (catalogue self.old) bucket.now start.now)) }
        ensures same { catalogue self.new ≡ catalogue self.old }
        ensures stays { StaysKnown leaves_one_of self.old self.new }
        ensures memory { OnErr result (
            is_in_memory ≡ true → take most (keys_from (catalogue self.old) bucket.now start.now) ≢ []) };

    /// The rows of the versions of a bucket from a place on, and at most so many. They stand by key in the order of
    /// bytes, and of one key newest first. There are none where there is no such bucket.
    ///
    /// It costs the rows that are told, to find the first key, and the length of the list of its versions. A keeper in
    /// memory has no error where no row is told.
    fn versions_from(
        &mut self,
        alloc: Global,
        bucket: &BucketName,
        start: &VersionStart,
        most: usize,
    ) -> Result<Vec<VersionRow>, NoMemory>
        ensures value { IfOk result (λ rows. rows.items ≡ take most (versions_from (catalogue self.old) bucket.now start.now)) }
        ensures same { catalogue self.new ≡ catalogue self.old }
        ensures stays { StaysKnown leaves_one_of self.old self.new }
        ensures memory { OnErr result (
            is_in_memory ≡ true → take most (versions_from (catalogue self.old) bucket.now start.now) ≢ []) };

    /// Makes a bucket at this moment, unversioned and empty. There may be none of this name.
    fn add_bucket(
        &mut self,
        alloc: Global,
        name: BucketName,
        moment: Moment,
    ) -> Result<(), NoMemory>
        requires { has_bucket (catalogue self.old) name ≡ false }
        ensures ok { OnOk result (catalogue self.new ≡ changed (catalogue self.old) name (BucketAdded moment)) }
        ensures err { OnErr result (catalogue self.new ≡ catalogue self.old) }
        ensures stays { StaysKnown leaves_one_of self.old self.new };

    /// Drops a bucket, which has to be there and to have nothing in it. A keeper in memory has no error here.
    fn drop_bucket(&mut self, alloc: Global, name: &BucketName) -> Result<(), NoMemory>
        requires there { IsTrue (has_bucket (catalogue self.old) name.now) }
        requires empty { IsTrue (is_empty_bucket (catalogue self.old) name.now) }
        ensures ok { OnOk result (catalogue self.new ≡ changed (catalogue self.old) name.now BucketDropped) }
        ensures err { OnErr result (catalogue self.new ≡ catalogue self.old) }
        ensures stays { StaysKnown leaves_one_of self.old self.new }
        ensures memory { OnErr result (is_in_memory ≡ false) };

    /// Sets the versioning of a bucket, which has to be there. A keeper in memory has no error here.
    fn set_versioning(
        &mut self,
        alloc: Global,
        name: &BucketName,
        status: VersioningStatus,
    ) -> Result<(), NoMemory>
        requires { IsTrue (has_bucket (catalogue self.old) name.now) }
        ensures ok { OnOk result (catalogue self.new ≡ changed (catalogue self.old) name.now (VersioningSet status)) }
        ensures err { OnErr result (catalogue self.new ≡ catalogue self.old) }
        ensures stays { StaysKnown leaves_one_of self.old self.new }
        ensures memory { OnErr result (is_in_memory ≡ false) };

    /// Puts a version under a key of a bucket, which has to be there, by the rules of the bucket's versioning. The
    /// entry of this number makes it at this moment. The number has to be above those of the key's versions. The
    /// version that goes is dropped.
    ///
    /// A keeper in memory has an error only where no version goes.
    fn put_version(
        &mut self,
        alloc: Global,
        bucket: &BucketName,
        key: Key,
        number: u64,
        moment: Moment,
        stored: Data<Body>,
    ) -> Result<(), NoMemory>
        requires there { IsTrue (has_bucket (catalogue self.old) bucket.now) }
        requires newer { IsTrue (is_new_number number (versions_of (catalogue self.old) bucket.now key)) }
        ensures ok { OnOk result (catalogue self.new
            ≡ changed (catalogue self.old) bucket.now (KeyChanged key (VersionPut number moment stored))) }
        ensures err { OnErr result (catalogue self.new ≡ catalogue self.old) }
        ensures stays { StaysKnown leaves_one_of self.old self.new }
        ensures memory { OnErr result (is_in_memory ≡ true
            → replaced (versioning_of (catalogue self.old) bucket.now) number (versions_of (catalogue self.old) bucket.now key) ≡ None) };

    /// Puts a version as `put_version` does, whose bytes are those of the version that is asked for under a source's key, so that a
    /// keeper may name these bytes once more and keep no others. A keeper in memory has an error only where no version goes.
    fn put_copy(
        &mut self,
        alloc: Global,
        source: &BucketName,
        source_key: &Key,
        asked: Option<VersionId>,
        bucket: &BucketName,
        key: Key,
        number: u64,
        moment: Moment,
        stored: Data<Body>,
    ) -> Result<(), NoMemory>
        requires there { IsTrue (has_bucket (catalogue self.old) bucket.now) }
        requires newer { IsTrue (is_new_number number (versions_of (catalogue self.old) bucket.now key)) }
        requires copied { bytes_asked (catalogue self.old) source.now source_key.now asked ≡ Some stored.body }
        ensures ok { OnOk result (catalogue self.new
            ≡ changed (catalogue self.old) bucket.now (KeyChanged key (VersionPut number moment stored))) }
        ensures err { OnErr result (catalogue self.new ≡ catalogue self.old) }
        ensures stays { StaysKnown leaves_one_of self.old self.new }
        ensures memory { OnErr result (is_in_memory ≡ true
            → replaced (versioning_of (catalogue self.old) bucket.now) number (versions_of (catalogue self.old) bucket.now key) ≡ None) };

    /// Deletes a key of a bucket, which has to be there, without naming a version, by the rules of the bucket's
    /// versioning. The entry has this number and this moment. The number has to be above those of the key's versions.
    /// The version that goes is dropped.
    ///
    /// A keeper in memory has an error only where no version goes and the bucket's versioning is enabled or suspended.
    fn delete(
        &mut self,
        alloc: Global,
        bucket: &BucketName,
        key: Key,
        number: u64,
        moment: Moment,
    ) -> Result<(), NoMemory>
        requires there { IsTrue (has_bucket (catalogue self.old) bucket.now) }
        requires newer { IsTrue (is_new_number number (versions_of (catalogue self.old) bucket.now key)) }
        ensures ok { OnOk result (catalogue self.new
            ≡ changed (catalogue self.old) bucket.now (KeyChanged key (KeyDeleted number moment))) }
        ensures err { OnErr result (catalogue self.new ≡ catalogue self.old) }
        ensures stays { StaysKnown leaves_one_of self.old self.new }
        ensures memory { OnErr result (is_in_memory ≡ true
            → replaced (versioning_of (catalogue self.old) bucket.now) number (versions_of (catalogue self.old) bucket.now key) ≡ None) }
        ensures held { OnErr result (is_in_memory ≡ true
            → versioning_of (catalogue self.old) bucket.now ≢ Versioning.Unversioned) };

    /// Drops the version of this id under a key of a bucket, which has to be there. Other versions stay. The version
    /// that goes is answered; `None` where there was none. A keeper in memory has no error here.
    fn drop_version(
        &mut self,
        alloc: Global,
        bucket: &BucketName,
        key: &Key,
        id: VersionId,
    ) -> Result<Option<Version<Body>>, NoMemory>
        requires { IsTrue (has_bucket (catalogue self.old) bucket.now) }
        ensures ok { OnOk result (catalogue self.new
            ≡ changed (catalogue self.old) bucket.now (KeyChanged key.now (VersionDropped id))) }
        ensures gone { IfOk result (λ gone. gone ≡ find (is_under id) (versions_of (catalogue self.old) bucket.now key.now)) }
        ensures err { OnErr result (catalogue self.new ≡ catalogue self.old) }
        ensures stays { StaysKnown leaves_one_of self.old self.new }
        ensures memory { OnErr result (is_in_memory ≡ false) };

    /// Deletes the objects that are named, in a bucket, which has to be there, each as DeleteObject does and in their order
    /// (Amazon S3 API Reference, DeleteObjects; `specs/Deletions.antt`): all of them, or none. The entry has this number,
    /// which is above those of all versions, and this moment. What it makes or drops is told of each: the id of the delete
    /// marker that was made or is gone, if one was. The versions that go are dropped.
    ///
    /// Where a delete marker may be made, the versions under the keys that are named are copied before they change, and share
    /// their bytes.
    fn delete_all(
        &mut self,
        alloc: Global,
        bucket: &BucketName,
        objects: &[NamedObject],
        number: u64,
        moment: Moment,
    ) -> Result<Markers, NoMemory>
        requires there { IsTrue (has_bucket (catalogue self.old) bucket.now) }
        requires below { AreBelow number (catalogue self.old) }
        ensures ok { OnOk result (catalogue self.new ≡ all_deleted (catalogue self.old) bucket.now number moment objects.now) }
        ensures markers { IfOk result (λ markers. markers ≡ markers_of (catalogue self.old) bucket.now number moment objects.now) }
        ensures err { OnErr result (catalogue self.new ≡ catalogue self.old) }
        ensures stays { StaysKnown leaves_one_of self.old self.new };

    /// Whether the upload of this id to this key is open. A keeper in memory has no error here.
    fn has_upload(
        &mut self,
        alloc: Global,
        bucket: &BucketName,
        key: &Key,
        id: UploadId,
    ) -> Result<bool, NoMemory>
        ensures value { IfOk result (λ there. there ≡ is_some (upload_at (catalogue self.old) bucket.now key.now id)) }
        ensures same { catalogue self.new ≡ catalogue self.old }
        ensures stays { StaysKnown leaves_one_of self.old self.new }
        ensures memory { OnErr result (is_in_memory ≡ false) };

    /// The rows of the open uploads of a bucket from a place on, and at most so many. They stand by key in the order of
    /// bytes, and of one key by id. There are none where there is no such bucket.
    ///
    /// It costs the rows that are told, and to find the first of them. A keeper in memory has no error where no row is
    /// told.
    fn uploads_from(
        &mut self,
        alloc: Global,
        bucket: &BucketName,
        start: &UploadStart,
        most: usize,
    ) -> Result<Vec<UploadRow>, NoMemory>
        ensures value { IfOk result (λ rows. rows.items ≡ take most (uploads_from (catalogue self.old) bucket.now start.now)) }
        ensures same { catalogue self.new ≡ catalogue self.old }
        ensures stays { StaysKnown leaves_one_of self.old self.new }
        ensures memory { OnErr result (
            is_in_memory ≡ true → take most (uploads_from (catalogue self.old) bucket.now start.now) ≢ []) };

    /// The rows of the parts of an upload whose numbers are above `last`, by number, and at most so many. There are
    /// none where there is no such upload.
    ///
    /// It costs the rows that are told, and to find the first of them. A keeper in memory has no error where no row is
    /// told.
    fn parts_from(
        &mut self,
        alloc: Global,
        bucket: &BucketName,
        key: &Key,
        id: UploadId,
        last: u64,
        most: usize,
    ) -> Result<Vec<PartRow>, NoMemory>
        ensures value { IfOk result (λ rows. rows.items
            ≡ take most (rows_behind last (parts_at (catalogue self.old) bucket.now key.now id))) }
        ensures same { catalogue self.new ≡ catalogue self.old }
        ensures stays { StaysKnown leaves_one_of self.old self.new }
        ensures memory { OnErr result (is_in_memory ≡ true
            → take most (rows_behind last (parts_at (catalogue self.old) bucket.now key.now id)) ≢ []) };

    /// What the completion of an upload stores that lists these parts, or why it is refused. Each part but the last has
    /// to have `least` bytes. The upload stays. A keeper in memory has an error only where the completion isn't
    /// refused.
    fn completed(
        &mut self,
        alloc: Global,
        bucket: &BucketName,
        key: &Key,
        id: UploadId,
        least: u64,
        listed: &[ListedPart],
    ) -> Result<Result<Data<Body>, Code>, NoMemory>
        ensures value { IfOk result (λ stored. stored
            ≡ completed_at least listed.now (upload_at (catalogue self.old) bucket.now key.now id)) }
        ensures same { catalogue self.new ≡ catalogue self.old }
        ensures stays { StaysKnown leaves_one_of self.old self.new }
        ensures memory { OnErr result (is_in_memory ≡ true
            → IsOk (completed_at least listed.now (upload_at (catalogue self.old) bucket.now key.now id))) };

    /// Begins an upload of this id to a key of a bucket, which has to be there. No part was sent to it yet.
    fn add_upload(
        &mut self,
        alloc: Global,
        bucket: &BucketName,
        key: Key,
        id: UploadId,
        upload: Upload<Body>,
    ) -> Result<(), NoMemory>
        requires there { IsTrue (has_bucket (catalogue self.old) bucket.now) }
        requires begins { upload.parts ≡ [] }
        ensures ok { OnOk result (catalogue self.new ≡ changed (catalogue self.old) bucket.now (UploadAdded key id upload)) }
        ensures err { OnErr result (catalogue self.new ≡ catalogue self.old) }
        ensures stays { StaysKnown leaves_one_of self.old self.new };

    /// Puts a part under its number to an upload, which has to be open. The part that it replaces is answered; `None`
    /// where there was none. A keeper in memory has an error only where it replaces none.
    fn put_part(
        &mut self,
        alloc: Global,
        bucket: &BucketName,
        key: &Key,
        id: UploadId,
        number: PartNumber,
        part: Part<Body>,
    ) -> Result<Option<Part<Body>>, NoMemory>
        requires there { IsTrue (has_bucket (catalogue self.old) bucket.now) }
        requires begun { IsTrue (is_some (upload_at (catalogue self.old) bucket.now key.now id)) }
        ensures ok { OnOk result (catalogue self.new
            ≡ changed (catalogue self.old) bucket.now (PartPut key.now id number part)) }
        ensures former { IfOk result (λ former. former ≡ part_at number (parts_at (catalogue self.old) bucket.now key.now id)) }
        ensures err { OnErr result (catalogue self.new ≡ catalogue self.old) }
        ensures stays { StaysKnown leaves_one_of self.old self.new }
        ensures memory { OnErr result (is_in_memory ≡ true
            → part_at number (parts_at (catalogue self.old) bucket.now key.now id) ≡ None) };

    /// Drops an upload with its parts, in a bucket that has to be there. The upload is answered; `None` where none was
    /// open. A keeper in memory has no error here.
    fn drop_upload(
        &mut self,
        alloc: Global,
        bucket: &BucketName,
        key: &Key,
        id: UploadId,
    ) -> Result<Option<Upload<Body>>, NoMemory>
        requires { IsTrue (has_bucket (catalogue self.old) bucket.now) }
        ensures ok { OnOk result (catalogue self.new ≡ changed (catalogue self.old) bucket.now (UploadDropped key.now id)) }
        ensures gone { IfOk result (λ gone. gone ≡ upload_at (catalogue self.old) bucket.now key.now id) }
        ensures err { OnErr result (catalogue self.new ≡ catalogue self.old) }
        ensures stays { StaysKnown leaves_one_of self.old self.new }
        ensures memory { OnErr result (is_in_memory ≡ false) };

    /// Completes an upload, which has to be open: puts a version under its key, as `put_version` does, and drops the upload,
    /// which is answered. The bytes that are stored have to be those of the parts that are listed, one behind another, so that a
    /// keeper may name these parts' bytes and keep no others. A keeper in memory has an error only where no version goes.
    fn complete(
        &mut self,
        alloc: Global,
        bucket: &BucketName,
        key: Key,
        id: UploadId,
        number: u64,
        moment: Moment,
        listed: &[ListedPart],
        stored: Data<Body>,
    ) -> Result<Option<Upload<Body>>, NoMemory>
        requires there { IsTrue (has_bucket (catalogue self.old) bucket.now) }
        requires joined { bytes_listed listed.now (upload_at (catalogue self.old) bucket.now key id) ≡ Some stored.body }
        requires newer { IsTrue (is_new_number number (versions_of (catalogue self.old) bucket.now key)) }
        ensures ok { OnOk result (catalogue self.new
            ≡ changed (catalogue self.old) bucket.now (UploadCompleted key id (VersionPut number moment stored))) }
        ensures gone { IfOk result (λ gone. gone ≡ upload_at (catalogue self.old) bucket.now key id) }
        ensures err { OnErr result (catalogue self.new ≡ catalogue self.old) }
        ensures stays { StaysKnown leaves_one_of self.old self.new }
        ensures memory { OnErr result (is_in_memory ≡ true
            → replaced (versioning_of (catalogue self.old) bucket.now) number (versions_of (catalogue self.old) bucket.now key) ≡ None) };
}
