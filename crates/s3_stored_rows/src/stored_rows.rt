//! What every keeper of rows promises.
ghost use Rattle.std.specs.Prelude.{◌≡◌, ◌⊎◌, map, take, option_map, slice_get, IfOk, OnOk, OnErr};
ghost use Rattle.s3_rows.specs.Columns.{Tables};
ghost use Rattle.s3_stored_rows.specs.Changes.{after_all, bucket_columns, version_columns, upload_columns, part_columns, store_columns};
ghost use Rattle.s3_stored_rows.specs.Leaving.{LeavesNoMore};
ghost use Rattle.s3_stored_rows.specs.Queries as spec;
ghost use Rattle.s3_stored_rows.specs.Unique.{AreUnique};

use crate::change::Change;
use crate::rows::{StoreNumbers, StoredBucket, StoredPart, StoredUpload, StoredVersion};
use s3_records::CommitError;
use s3_terms::NoMemory;
use std::alloc::Global;

/// A keeper of the rows of one store.
///
/// Each call has `NoMemory` as its only error, and leaves the rows as they were then. It can come at any time: where memory
/// runs out, and for good where the store below the keeper has failed. A call that asks leaves the rows as they are. What it
/// finds is copied.
pub trait StoredRows {
    // The rows of each table.
    ghost tables: { Self → Tables };

    // The rows that a crash may leave now for one who opens them again. There are none where a crash leaves nothing, and nothing
    // is said of a disk that doesn't give back what was written to it.
    ghost leaves: { Self → Tables → Type 0 };

    /// That what is unique in a table of records stands there once, and that the rowids of each rise. It costs nothing.
    fn are_unique(&self)
        ensures { AreUnique (tables self.now) };

    /// Commits all changes so far, together. Where it answers `Ok`, a crash now leaves these rows and nothing else; a crash during the
    /// call leaves what it could leave before, or these rows.
    ///
    /// # Errors
    ///
    /// `CommitError::NoMemory` where memory ran out, or the keeper found no room, before that was so: it may be asked again.
    /// `CommitError::Failed` where what the rows stand on has failed, for good.
    fn commit(&mut self) -> Result<(), CommitError>
        ensures settled { OnOk result ((t : Tables) → leaves self.new t → t ≡ tables self.new) }
        ensures same { tables self.new ≡ tables self.old }
        ensures survives { (t : Tables) → leaves self.new t → leaves self.old t ⊎ (t ≡ tables self.old) };

    /// Makes all changes in their order, or none. A change that adds a row where its rowid is there, or what is unique in its
    /// table, is an error. Until they are committed a crash leaves what it could leave before.
    fn apply(&mut self, changes: &[Change]) -> Result<(), NoMemory>
        ensures ok { OnOk result (tables self.new ≡ after_all changes.now (tables self.old)) }
        ensures err { OnErr result (tables self.new ≡ tables self.old) }
        ensures stays { LeavesNoMore leaves self.old self.new };

    /// The bucket of a name.
    fn bucket(&mut self, name: &[u8]) -> Result<Option<StoredBucket>, NoMemory>
        ensures value { IfOk result (λ found. option_map bucket_columns found ≡ spec.bucket_named name.now (tables self.old)) }
        ensures same { tables self.new ≡ tables self.old }
        ensures stays { LeavesNoMore leaves self.old self.new };

    /// All buckets, by name in the order of bytes.
    fn buckets(&mut self, alloc: Global) -> Result<Vec<StoredBucket>, NoMemory>
        ensures value { IfOk result (λ all. map bucket_columns all.items ≡ spec.buckets_by_name (tables self.old)) }
        ensures same { tables self.new ≡ tables self.old }
        ensures stays { LeavesNoMore leaves self.old self.new };

    /// The newest version under a key.
    fn newest(&mut self, bucket: &[u8], key: &[u8]) -> Result<Option<StoredVersion>, NoMemory>
        ensures value { IfOk result (λ found. option_map version_columns found ≡ spec.newest_version bucket.now key.now (tables self.old)) }
        ensures same { tables self.new ≡ tables self.old }
        ensures stays { LeavesNoMore leaves self.old self.new };

    /// The version of an id under a key.
    fn version(
        &mut self,
        bucket: &[u8],
        key: &[u8],
        id: i64,
    ) -> Result<Option<StoredVersion>, NoMemory>
        ensures value { IfOk result (λ found. option_map version_columns found ≡ spec.version_of_id bucket.now key.now id (tables self.old)) }
        ensures same { tables self.new ≡ tables self.old }
        ensures stays { LeavesNoMore leaves self.old self.new };

    /// The versions under a key whose numbers are below one, newest first, and at most so many.
    fn versions_below(
        &mut self,
        alloc: Global,
        bucket: &[u8],
        key: &[u8],
        number: i64,
        most: u32,
    ) -> Result<Vec<StoredVersion>, NoMemory>
        ensures value { IfOk result (λ all. map version_columns all.items ≡ take most (spec.versions_below bucket.now key.now number (tables self.old))) }
        ensures same { tables self.new ≡ tables self.old }
        ensures stays { LeavesNoMore leaves self.old self.new };

    /// The versions of a bucket from a key on, by key in the order of bytes and newest first under one key, and at most so many.
    fn versions_from(
        &mut self,
        alloc: Global,
        bucket: &[u8],
        key: &[u8],
        most: u32,
    ) -> Result<Vec<StoredVersion>, NoMemory>
        ensures value { IfOk result (λ all. map version_columns all.items ≡ take most (spec.versions_from bucket.now key.now (tables self.old))) }
        ensures same { tables self.new ≡ tables self.old }
        ensures stays { LeavesNoMore leaves self.old self.new };

    /// The versions of a bucket behind a key, in the same order, and at most so many.
    fn versions_behind(
        &mut self,
        alloc: Global,
        bucket: &[u8],
        key: &[u8],
        most: u32,
    ) -> Result<Vec<StoredVersion>, NoMemory>
        ensures value { IfOk result (λ all. map version_columns all.items ≡ take most (spec.versions_behind bucket.now key.now (tables self.old))) }
        ensures same { tables self.new ≡ tables self.old }
        ensures stays { LeavesNoMore leaves self.old self.new };

    /// Whether there is a version in a bucket.
    fn has_versions(&mut self, bucket: &[u8]) -> Result<bool, NoMemory>
        ensures value { IfOk result (λ found. found ≡ spec.has_versions bucket.now (tables self.old)) }
        ensures same { tables self.new ≡ tables self.old }
        ensures stays { LeavesNoMore leaves self.old self.new };

    /// The upload of an id to a key.
    fn upload(
        &mut self,
        bucket: &[u8],
        key: &[u8],
        id: i64,
    ) -> Result<Option<StoredUpload>, NoMemory>
        ensures value { IfOk result (λ found. option_map upload_columns found ≡ spec.upload_of_id bucket.now key.now id (tables self.old)) }
        ensures same { tables self.new ≡ tables self.old }
        ensures stays { LeavesNoMore leaves self.old self.new };

    /// The uploads in a bucket from a key on, by key in the order of bytes and by id, and at most so many.
    fn uploads_from(
        &mut self,
        alloc: Global,
        bucket: &[u8],
        key: &[u8],
        most: u32,
    ) -> Result<Vec<StoredUpload>, NoMemory>
        ensures value { IfOk result (λ all. map upload_columns all.items ≡ take most (spec.uploads_from bucket.now key.now (tables self.old))) }
        ensures same { tables self.new ≡ tables self.old }
        ensures stays { LeavesNoMore leaves self.old self.new };

    /// The uploads in a bucket behind a key, in the same order, and at most so many.
    fn uploads_behind(
        &mut self,
        alloc: Global,
        bucket: &[u8],
        key: &[u8],
        most: u32,
    ) -> Result<Vec<StoredUpload>, NoMemory>
        ensures value { IfOk result (λ all. map upload_columns all.items ≡ take most (spec.uploads_behind bucket.now key.now (tables self.old))) }
        ensures same { tables self.new ≡ tables self.old }
        ensures stays { LeavesNoMore leaves self.old self.new };

    /// The uploads to a key whose ids are above one, by id, and at most so many.
    fn uploads_above(
        &mut self,
        alloc: Global,
        bucket: &[u8],
        key: &[u8],
        id: i64,
        most: u32,
    ) -> Result<Vec<StoredUpload>, NoMemory>
        ensures value { IfOk result (λ all. map upload_columns all.items ≡ take most (spec.uploads_above bucket.now key.now id (tables self.old))) }
        ensures same { tables self.new ≡ tables self.old }
        ensures stays { LeavesNoMore leaves self.old self.new };

    /// Whether there is an upload in a bucket.
    fn has_uploads(&mut self, bucket: &[u8]) -> Result<bool, NoMemory>
        ensures value { IfOk result (λ found. found ≡ spec.has_uploads bucket.now (tables self.old)) }
        ensures same { tables self.new ≡ tables self.old }
        ensures stays { LeavesNoMore leaves self.old self.new };

    /// The part of a number of the upload in a row.
    fn part(&mut self, upload: i64, part: i64) -> Result<Option<StoredPart>, NoMemory>
        ensures value { IfOk result (λ found. option_map part_columns found ≡ spec.part_of_number upload part (tables self.old)) }
        ensures same { tables self.new ≡ tables self.old }
        ensures stays { LeavesNoMore leaves self.old self.new };

    /// The parts of the upload in a row whose numbers are above one, by number, and at most so many.
    fn parts_above(
        &mut self,
        alloc: Global,
        upload: i64,
        part: i64,
        most: u32,
    ) -> Result<Vec<StoredPart>, NoMemory>
        ensures value { IfOk result (λ all. map part_columns all.items ≡ take most (spec.parts_above upload part (tables self.old))) }
        ensures same { tables self.new ≡ tables self.old }
        ensures stays { LeavesNoMore leaves self.old self.new };

    /// The row of `store`.
    fn store(&mut self) -> Result<Option<StoreNumbers>, NoMemory>
        ensures value { IfOk result (λ found. option_map store_columns found ≡ slice_get (tables self.old).store 0) }
        ensures same { tables self.new ≡ tables self.old }
        ensures stays { LeavesNoMore leaves self.old self.new };
}
