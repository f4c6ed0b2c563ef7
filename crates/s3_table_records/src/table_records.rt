//! Records over rows and bodies.
ghost use Rattle.std.specs.Prelude.{◌≡◌, ◌∷◌, ℕ, false, []};
ghost use Rattle.s3_records.specs.Catalogue.{opening};
ghost use Rattle.s3_rows.specs.Columns.{Tables, no_rows};
ghost use Rattle.s3_table_records.specs.Kept.{kept, kept_in, catalogue, IsKept};
ghost use Rattle.s3_table_records.specs.Leaving.{IsLeft, LeavesOneOf, one_of_more};
ghost use Rattle.s3_table_records.specs.Numbered.{row_of, SaysNumber, IsAbove, LeavesNumber, AreNumbered};

use crate::numbering::{above, commit_numbered, counted, later, latest};
use crate::{
    asking, buckets, completing, completion, copying, dropping, parts, putting, reading, uploads,
};
use s3_bodies::Body;
use s3_calendar::Moment;
use s3_deletions::{Markers, NamedObject};
use s3_names::{BucketName, Key, PartNumber, UploadId, VersionId};
use s3_records::{
    BucketFacts, CommitError, KeyRow, ListedBucket, Records, Start, UploadRow, UploadStart,
    VersionRow, VersionStart,
};
use s3_row_lists as lists;
use s3_rows::rows_open;
use s3_stored_bodies::StoredBodies;
use s3_stored_rows::StoredRows;
use s3_terms::{Code, NoMemory};
use s3_uploads::{ListedPart, Part, PartRow, Upload};
use s3_versions::{Data, Facts, Refusal, Version, VersioningStatus};
use std::alloc::Global;
use std::marker::Model;

/// Records whose catalogue stands in the rows of tables, and whose bytes are bodies that the rows name by number. Contracts see
/// the rows and the bodies, of which `Records` tells the catalogue.
#[derive(Drop)]
pub struct TableRecords<R: StoredRows, B: StoredBodies> {
    rows: R,
    bodies: B,
    /// A rowid above those of all rows.
    next: i64,
    /// A number for the next entry: above those of all entries that made versions or began uploads, and not below those that came
    /// with commits.
    number: u64,
    /// The number that the row of the store says.
    written: u64,
}

impl<R: StoredRows, B: StoredBodies> Model for TableRecords<R, B> {
    ghost use Rattle.s3_table_records.specs.Kept.{kept, Parts, coded_parts};
    ghost use Rattle.s3_table_records.specs.Numbered.{IsNumbered};

    ghost Value = { Parts R B };

    ghost coded = { coded_parts R.code B.code };

    ghost view = { λ records. record { rows = records.rows; bodies = records.bodies; next = records.next } };

    ghost invariant = { λ records. IsNumbered (R.leaves records.rows) records.number records.written
        (kept (R.tables records.rows) (B.contents records.bodies) (B.uses records.bodies) records.next) };
}

impl<R: StoredRows, B: StoredBodies> TableRecords<R, B> {
    /// Records without buckets, over tables in which nothing stands but the row of the store, which says 0, and bodies of which none is
    /// named. A crash leaves these rows, or nothing.
    pub fn new(rows: R, bodies: B) -> TableRecords<R, B>
        requires rows { R.tables rows ≡ record no_rows { store = row_of 0 ∷ [] } }
        requires left { (t : Tables) → R.leaves rows t → t ≡ R.tables rows }
        requires bodies { (number : ℕ) → B.uses bodies number ≡ 0 }
        ensures { catalogue (kept_in R.tables B.contents B.uses result) ≡ opening [] }
    {
        rows_open();
        TableRecords {
            rows,
            bodies,
            next: 1,
            number: 0,
            written: 0,
        }
    }

    /// The records that stand in rows, with a rowid above all of theirs, and in the bodies that these name. The row of the store says this
    /// number, which is above those of all versions and open uploads. A crash leaves these rows, or nothing. It takes no memory.
    pub fn over(rows: R, bodies: B, next: i64, number: u64) -> TableRecords<R, B>
        requires kept { IsKept (kept (R.tables rows) (B.contents bodies) (B.uses bodies) next) }
        requires says { SaysNumber number (R.tables rows) }
        requires above { IsAbove number (catalogue (kept (R.tables rows) (B.contents bodies) (B.uses bodies) next)) }
        requires left { (t : Tables) → R.leaves rows t → t ≡ R.tables rows }
        ensures { result ≡ record { rows = rows; bodies = bodies; next = next } }
    {
        TableRecords {
            rows,
            bodies,
            next,
            number,
            written: number,
        }
    }

    /// The rows. Whatever of them a crash leaves says a number for the next entry, above those that made what is left.
    pub fn rows(&self) -> &R
        ensures value { result.now ≡ self.now.rows }
        ensures numbered { (t : Tables) → R.leaves self.now.rows t → AreNumbered t }
    {
        &self.rows
    }
}

impl<R: StoredRows, B: StoredBodies> Records for TableRecords<R, B> {
    ghost catalogue = { λ records. catalogue (kept_in R.tables B.contents B.uses records) };

    ghost is_in_memory = { false };

    ghost leaves = { λ records left. IsLeft (R.leaves records.rows) (B.leaves records.bodies) left };

    ghost leaves_one_of = { λ records. LeavesOneOf (R.leaves records.rows) (B.outlives records.bodies) };

    ghost or_of_more = { λ records. one_of_more (R.leaves records.rows) (B.outlives records.bodies) };

    ghost leaves_number = { λ records. LeavesNumber (R.leaves records.rows) };

    fn outlive_crashes(&self) {
        self.bodies.outlive_crashes();
    }

    fn commit(&mut self, next: u64) -> Result<(), CommitError> {
        self.number = latest(self.number, next);
        commit_numbered(
            &mut self.rows,
            &mut self.bodies,
            self.number,
            &mut self.written,
        )
    }

    fn bucket(
        &mut self,
        _alloc: Global,
        name: &BucketName,
    ) -> Result<Option<BucketFacts>, NoMemory> {
        asking::bucket(&mut self.rows, name)
    }

    fn buckets(&mut self, alloc: Global) -> Result<Vec<ListedBucket>, NoMemory> {
        asking::buckets(&mut self.rows, alloc)
    }

    fn is_empty(&mut self, _alloc: Global, name: &BucketName) -> Result<bool, NoMemory> {
        asking::is_empty(&mut self.rows, name)
    }

    fn version(
        &mut self,
        alloc: Global,
        bucket: &BucketName,
        key: &Key,
        asked: Option<VersionId>,
    ) -> Result<Option<Version<Body>>, NoMemory> {
        let next = self.next;
        reading::version(
            &mut self.rows,
            &mut self.bodies,
            alloc,
            next,
            bucket,
            key,
            asked,
        )
    }

    fn facts(
        &mut self,
        _alloc: Global,
        bucket: &BucketName,
        key: &Key,
        asked: Option<VersionId>,
    ) -> Result<Result<Facts, Refusal>, NoMemory> {
        asking::facts(&mut self.rows, bucket, key, asked)
    }

    fn keys_from(
        &mut self,
        alloc: Global,
        bucket: &BucketName,
        start: &Start,
        most: usize,
    ) -> Result<Vec<KeyRow>, NoMemory> {
        lists::keys_from(&mut self.rows, alloc, bucket, start, most)
    }

    fn versions_from(
        &mut self,
        alloc: Global,
        bucket: &BucketName,
        start: &VersionStart,
        most: usize,
    ) -> Result<Vec<VersionRow>, NoMemory> {
        lists::versions_from(&mut self.rows, alloc, bucket, start, most)
    }

    fn add_bucket(
        &mut self,
        alloc: Global,
        name: BucketName,
        moment: Moment,
    ) -> Result<(), NoMemory> {
        let Some(later) = self.next.checked_add(1) else {
            return Err(NoMemory);
        };
        let added = buckets::add_bucket(
            &mut self.rows,
            &self.bodies,
            alloc,
            self.next,
            &name,
            moment,
        );
        self.next = later;
        added
    }

    fn drop_bucket(&mut self, _alloc: Global, name: &BucketName) -> Result<(), NoMemory> {
        buckets::drop_bucket(&mut self.rows, &self.bodies, self.next, name)
    }

    fn set_versioning(
        &mut self,
        alloc: Global,
        name: &BucketName,
        status: VersioningStatus,
    ) -> Result<(), NoMemory> {
        let Some(later) = self.next.checked_add(1) else {
            return Err(NoMemory);
        };
        let set = buckets::set_versioning(
            &mut self.rows,
            &self.bodies,
            alloc,
            self.next,
            name,
            status,
        );
        self.next = later;
        set
    }

    fn put_version(
        &mut self,
        alloc: Global,
        bucket: &BucketName,
        key: Key,
        number: u64,
        moment: Moment,
        stored: Data<Body>,
    ) -> Result<(), NoMemory> {
        let Some((later, above)) = later(self.next, self.number, number) else {
            return Err(NoMemory);
        };
        let put = putting::put_version(
            &mut self.rows,
            &mut self.bodies,
            alloc,
            self.next,
            bucket,
            &key,
            number,
            moment,
            stored,
        );
        self.next = later;
        self.number = counted(self.number, above, put.is_ok());
        put
    }

    fn put_copy(
        &mut self,
        alloc: Global,
        source: &BucketName,
        source_key: &Key,
        asked: Option<VersionId>,
        bucket: &BucketName,
        key: Key,
        number: u64,
        moment: Moment,
        stored: Data<Body>,
    ) -> Result<(), NoMemory> {
        let Some((later, above)) = later(self.next, self.number, number) else {
            return Err(NoMemory);
        };
        let put = copying::put_copy(
            &mut self.rows,
            &mut self.bodies,
            alloc,
            self.next,
            source,
            source_key,
            asked,
            bucket,
            &key,
            number,
            moment,
            stored,
        );
        self.next = later;
        self.number = counted(self.number, above, put.is_ok());
        put
    }

    fn delete(
        &mut self,
        alloc: Global,
        bucket: &BucketName,
        key: Key,
        number: u64,
        moment: Moment,
    ) -> Result<(), NoMemory> {
        let Some((later, above)) = later(self.next, self.number, number) else {
            return Err(NoMemory);
        };
        let deleted = dropping::delete(
            &mut self.rows,
            &mut self.bodies,
            alloc,
            self.next,
            bucket,
            &key,
            number,
            moment,
        );
        self.next = later;
        self.number = counted(self.number, above, deleted.is_ok());
        deleted
    }

    fn drop_version(
        &mut self,
        alloc: Global,
        bucket: &BucketName,
        key: &Key,
        id: VersionId,
    ) -> Result<Option<Version<Body>>, NoMemory> {
        let next = self.next;
        dropping::drop_version(
            &mut self.rows,
            &mut self.bodies,
            alloc,
            next,
            bucket,
            key,
            id,
        )
    }

    fn delete_all(
        &mut self,
        alloc: Global,
        bucket: &BucketName,
        objects: &[NamedObject],
        number: u64,
        moment: Moment,
    ) -> Result<Markers, NoMemory> {
        let Some(above) = above(self.number, number) else {
            return Err(NoMemory);
        };
        let deleted = dropping::delete_all(
            &mut self.rows,
            &mut self.bodies,
            &mut self.next,
            alloc,
            bucket,
            objects,
            number,
            moment,
        );
        self.number = counted(self.number, above, deleted.is_ok());
        deleted
    }

    fn has_upload(
        &mut self,
        _alloc: Global,
        bucket: &BucketName,
        key: &Key,
        id: UploadId,
    ) -> Result<bool, NoMemory> {
        asking::has_upload(&mut self.rows, bucket, key, id)
    }

    fn uploads_from(
        &mut self,
        alloc: Global,
        bucket: &BucketName,
        start: &UploadStart,
        most: usize,
    ) -> Result<Vec<UploadRow>, NoMemory> {
        lists::uploads_from(&mut self.rows, alloc, bucket, start, most)
    }

    fn parts_from(
        &mut self,
        alloc: Global,
        bucket: &BucketName,
        key: &Key,
        id: UploadId,
        last: u64,
        most: usize,
    ) -> Result<Vec<PartRow>, NoMemory> {
        lists::parts_from(&mut self.rows, alloc, bucket, key, id, last, most)
    }

    fn completed(
        &mut self,
        alloc: Global,
        bucket: &BucketName,
        key: &Key,
        id: UploadId,
        least: u64,
        listed: &[ListedPart],
    ) -> Result<Result<Data<Body>, Code>, NoMemory> {
        let next = self.next;
        completing::completed(
            &mut self.rows,
            &mut self.bodies,
            alloc,
            next,
            bucket,
            key,
            id,
            least,
            listed,
        )
    }

    fn add_upload(
        &mut self,
        alloc: Global,
        bucket: &BucketName,
        key: Key,
        id: UploadId,
        upload: Upload<Body>,
    ) -> Result<(), NoMemory> {
        let Some((later, above)) = later(self.next, self.number, id.number()) else {
            return Err(NoMemory);
        };
        let added = uploads::add_upload(
            &mut self.rows,
            &mut self.bodies,
            alloc,
            self.next,
            bucket,
            &key,
            id,
            &upload,
        );
        self.next = later;
        self.number = counted(self.number, above, added.is_ok());
        added
    }

    fn put_part(
        &mut self,
        alloc: Global,
        bucket: &BucketName,
        key: &Key,
        id: UploadId,
        number: PartNumber,
        part: Part<Body>,
    ) -> Result<Option<Part<Body>>, NoMemory> {
        let Some(later) = self.next.checked_add(1) else {
            return Err(NoMemory);
        };
        let put = parts::put_part(
            &mut self.rows,
            &mut self.bodies,
            alloc,
            self.next,
            bucket,
            key,
            id,
            number,
            part,
        );
        self.next = later;
        put
    }

    fn drop_upload(
        &mut self,
        alloc: Global,
        bucket: &BucketName,
        key: &Key,
        id: UploadId,
    ) -> Result<Option<Upload<Body>>, NoMemory> {
        let next = self.next;
        uploads::drop_upload(
            &mut self.rows,
            &mut self.bodies,
            alloc,
            next,
            bucket,
            key,
            id,
        )
    }

    fn complete(
        &mut self,
        alloc: Global,
        bucket: &BucketName,
        key: Key,
        id: UploadId,
        number: u64,
        moment: Moment,
        listed: &[ListedPart],
        stored: Data<Body>,
    ) -> Result<Option<Upload<Body>>, NoMemory> {
        let Some((later, above)) = later(self.next, self.number, number) else {
            return Err(NoMemory);
        };
        let completed = completion::complete(
            &mut self.rows,
            &mut self.bodies,
            alloc,
            self.next,
            bucket,
            &key,
            id,
            number,
            moment,
            listed,
            stored,
        );
        self.next = later;
        self.number = counted(self.number, above, completed.is_ok());
        completed
    }
}
