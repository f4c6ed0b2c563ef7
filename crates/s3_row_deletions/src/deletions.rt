//! Several deletions in one bucket.
ghost use Rattle.std.specs.Prelude.{◌≡◌, ◌++◌, ◌∷◌, [], List, IfOk, OnOk, IsTrue};
ghost use Rattle.s3_columns.specs.Columns.{versioning_in};
ghost use Rattle.s3_records.specs.Places.{AreBelow};
ghost use Rattle.s3_records.specs.Catalogue.{versioning_of};
ghost use Rattle.s3_deletions.specs.declared.named.NamedObject.{NamedObject};
ghost use Rattle.s3_rows.specs.Meaning.{catalogue_of};
ghost use Rattle.s3_rows.specs.Soundness.{AreSound, has_bucket_row};
ghost use Rattle.s3_stored_bodies.specs.Numbers.{Contents};
ghost use Rattle.s3_stored_rows.specs.Bodies.{encoding};
ghost use Rattle.s3_stored_rows.specs.Leaving.{LeavesNoMore};
ghost use Rattle.s3_stored_rows.specs.Rowids.{AreRowsBelow};
ghost use Rattle.s3_row_deletions.specs.Deletions.{AreDeletions};
ghost use Rattle.s3_row_deletions.specs.Steps.{AreReady, AreSteps, IsAdded, rows_gone, rows_come, numbers_gone, next_after};

use crate::standing::Standing;
use crate::steps::{Entry, Step, object_step};
use s3_calendar::Moment;
use s3_columns::read_mode;
use s3_deletions::NamedObject;
use s3_names::{BucketName, VersionId};
use s3_stored_rows::{Change, StoredBucket, StoredRows, StoredVersion, TableName};
use s3_terms::NoMemory;
use s3_versions::Versioning;
use std::alloc::Global;

/// What several deletions come to.
#[derive(Drop)]
pub struct Deletions {
    /// The changes of rows, in their order.
    pub changes: Vec<Change>,
    /// The numbers of bodies that the rows named that go, as often as they named them.
    pub gone: Vec<u64>,
    /// For each object the id of the delete marker that is made or goes, if one is.
    pub markers: Vec<Option<VersionId>>,
    /// A rowid above those of all rows afterwards.
    pub next: i64,
}

/// What it comes to that the entry of this number deletes the objects that are named, in a bucket that is there, each as
/// DeleteObject does and in their order (`specs/Deletions.antt` of `s3_records`). The number is above those of all versions, and
/// `next` above all rowids. Nothing is changed yet.
///
/// It costs a question for each object, and the square of their number in short steps.
pub fn plan_deletions<R: StoredRows>(
    rows: &mut R,
    alloc: Global,
    bucket: &BucketName,
    objects: &[NamedObject],
    number: u64,
    moment: Moment,
    next: i64,
) -> Result<Deletions, NoMemory>
    requires sound { AreSound (R.tables rows.old) }
    requires rowids { AreRowsBelow next (R.tables rows.old) }
    requires there { IsTrue (has_bucket_row (R.tables rows.old).buckets bucket.now) }
    requires below { (contents : Contents) → AreBelow number (catalogue_of (encoding contents) (R.tables rows.old)) }
    ensures value { IfOk result (AreDeletions (R.tables rows.old) bucket.now number moment objects.now) }
    ensures same { R.tables rows.new ≡ R.tables rows.old }
    ensures stays { LeavesNoMore R.leaves rows.old rows.new }
{
    let versioning = versioning_of(rows, bucket)?;
    let entry = Entry {
        versioning,
        number,
        moment,
    };
    delete_each(rows, alloc, bucket, &entry, objects, next)
}

// The versioning of the bucket. One that isn't there is unversioned.
fn versioning_of<R: StoredRows>(rows: &mut R, bucket: &BucketName) -> Result<Versioning, NoMemory>
    ensures value { IfOk result (λ versioning. (contents : Contents)
        → versioning_of (catalogue_of (encoding contents) (R.tables rows.old)) bucket.now ≡ versioning) }
    ensures same { R.tables rows.new ≡ R.tables rows.old }
    ensures stays { LeavesNoMore R.leaves rows.old rows.new }
{
    match rows.bucket(bucket.as_bytes())? {
        None => Ok(Versioning::Unversioned),
        Some(row) => versioning_in(&row),
    }
}

// The versioning that the row of a bucket tells.
fn versioning_in(row: &StoredBucket) -> Result<Versioning, NoMemory>
    ensures { IfOk result (λ versioning. versioning_in row.now.mode ≡ versioning) }
{
    match read_mode(row.mode) {
        None => Err(NoMemory),
        Some(versioning) => Ok(versioning),
    }
}

// The deletions of the objects, one after another.
fn delete_each<R: StoredRows>(
    rows: &mut R,
    alloc: Global,
    bucket: &BucketName,
    entry: &Entry,
    objects: &[NamedObject],
    next: i64,
) -> Result<Deletions, NoMemory>
    requires { AreReady (R.tables rows.old) bucket.now entry.now next }
    ensures value { IfOk result (AreSteps (R.tables rows.old) bucket.now entry.now objects.now) }
    ensures same { R.tables rows.new ≡ R.tables rows.old }
    ensures stays { LeavesNoMore R.leaves rows.old rows.new }
{
    let mut all = Deletions {
        changes: Vec::new(alloc),
        gone: Vec::new(alloc),
        markers: Vec::new(alloc),
        next,
    };
    for object in objects {
        all.delete(rows, alloc, bucket, entry, object)?;
    }
    Ok(all)
}

impl Deletions {
    // Adds what the deletion of one object more comes to.
    fn delete<R: StoredRows>(
        &mut self,
        rows: &mut R,
        alloc: Global,
        bucket: &BucketName,
        entry: &Entry,
        object: &NamedObject,
    ) -> Result<(), NoMemory>
        ensures ok { OnOk result ((objects : List NamedObject) → AreSteps (R.tables rows.old) bucket.now entry.now objects self.old
            → AreSteps (R.tables rows.old) bucket.now entry.now (objects ++ object.now ∷ []) self.new) }
        ensures same { R.tables rows.new ≡ R.tables rows.old }
        ensures stays { LeavesNoMore R.leaves rows.old rows.new }
    {
        let step = object_step(
            rows,
            alloc,
            self.changes.as_slice(),
            bucket,
            entry,
            self.next,
            object,
        )?;
        self.add(step)
    }

    // Adds a step.
    fn add(&mut self, step: Step) -> Result<(), NoMemory>
        ensures { OnOk result (IsAdded self.old step self.new) }
    {
        let Step {
            gone,
            comes,
            marker,
        } = step;
        self.add_gone(gone)?;
        self.add_row(comes)?;
        self.markers.push(marker)?;
        Ok(())
    }

    // Adds that a row goes, if one does.
    fn add_gone(&mut self, gone: Option<Standing>) -> Result<(), NoMemory>
        ensures changes { OnOk result (self.new.changes.items ≡ self.old.changes.items ++ rows_gone gone) }
        ensures gone { OnOk result (self.new.gone.items ≡ self.old.gone.items ++ numbers_gone gone) }
        ensures markers { OnOk result (self.new.markers.items ≡ self.old.markers.items) }
        ensures next { OnOk result (self.new.next ≡ self.old.next) }
    {
        match gone {
            None => Ok(()),
            Some(row) => {
                self.changes
                    .push(Change::DropRow(TableName::Versions, row.row))?;
                self.gone.extend_from_slice(row.numbers.as_slice())?;
                Ok(())
            }
        }
    }

    // Adds that a row comes under the next rowid, if one does.
    fn add_row(&mut self, comes: Option<StoredVersion>) -> Result<(), NoMemory>
        ensures changes { OnOk result (self.new.changes.items ≡ self.old.changes.items ++ rows_come comes) }
        ensures gone { OnOk result (self.new.gone.items ≡ self.old.gone.items) }
        ensures markers { OnOk result (self.new.markers.items ≡ self.old.markers.items) }
        ensures next { OnOk result (self.new.next ≡ next_after comes self.old.next) }
    {
        match comes {
            None => Ok(()),
            Some(row) => {
                let Some(next) = self.next.checked_add(1) else {
                    return Err(NoMemory);
                };
                self.changes.push(Change::AddVersion(row))?;
                self.next = next;
                Ok(())
            }
        }
    }
}
