//! Changes of versions that bring no bytes: the rows change, and then the bodies go that they no more name.
ghost use Rattle.std.specs.Prelude.{◌≡◌, ◌≤◌, ℕ, ℤ, pos, ◌+ℤ◌, None, Some, IsTrue, IfOk, OnOk, OnErr, find, option_map};
ghost use Rattle.std.specs.Option.{option_copied};
ghost use Rattle.s3_versions.specs.Rules.{is_under, is_new_number, KeyDeleted, VersionDropped};
ghost use Rattle.s3_records.specs.Catalogue.{has_bucket, versions_of};
ghost use Rattle.s3_records.specs.Changes.{KeyChanged};
ghost use Rattle.s3_records.specs.Places.{AreBelow};
ghost use Rattle.s3_rows.specs.Columns.{Tables};
ghost use Rattle.s3_rows.specs.Finding.{id_column};
ghost use Rattle.s3_rows.specs.Meaning.{version_of};
ghost use Rattle.s3_stored_bodies.specs.Numbers.{times, named_less, KeepsNamed, StillOutlive};
ghost use Rattle.s3_stored_rows.specs.Bodies.{encoding};
ghost use Rattle.s3_stored_rows.specs.Changes.{changed_by, after_all, version_columns};
ghost use Rattle.s3_stored_rows.specs.Leaving.{LeavesNoMore};
ghost use Rattle.s3_stored_rows.specs.Queries.{version_of_id};
ghost use Rattle.s3_row_steps.specs.Steps.{HaveSmallIds};
ghost use Rattle.s3_table_records.specs.Kept.{kept, catalogue, IsKept, Changes, Deletes};

use s3_bodies::Body;
use s3_calendar::Moment;
use s3_columns::read_numbers;
use s3_deletions::{Markers, NamedObject};
use s3_names::{BucketName, Key, VersionId};
use s3_row_deletions::{Deletions, plan_deletions};
use s3_row_steps as steps;
use s3_row_values::version_from;
use s3_rows::{rows_tell_buckets, rows_tell_versions};
use s3_stored_bodies::{StoredBodies, give_up_all};
use s3_stored_rows::{Change, StoredRows, StoredVersion};
use s3_terms::NoMemory;
use s3_versions::Version;
use std::alloc::Global;

/// Deletes a key without naming a version, as `Records::delete` says. A row that comes gets the rowid `next`.
pub(crate) fn delete<R: StoredRows, B: StoredBodies>(
    rows: &mut R,
    bodies: &mut B,
    alloc: Global,
    next: i64,
    bucket: &BucketName,
    key: &Key,
    number: u64,
    moment: Moment,
) -> Result<(), NoMemory>
    requires kept { IsKept (kept (R.tables rows.old) (B.contents bodies.old) (B.uses bodies.old) next) }
    requires there { IsTrue (has_bucket (catalogue (kept (R.tables rows.old) (B.contents bodies.old) (B.uses bodies.old) next)) bucket.now) }
    requires newer { IsTrue (is_new_number number (versions_of (catalogue (kept (R.tables rows.old) (B.contents bodies.old) (B.uses bodies.old) next)) bucket.now key.now)) }
    ensures changes { Changes (kept (R.tables rows.old) (B.contents bodies.old) (B.uses bodies.old) next)
        (kept (R.tables rows.new) (B.contents bodies.new) (B.uses bodies.new) (next +ℤ pos 1))
        bucket.now (KeyChanged key.now (KeyDeleted number moment)) result }
    ensures stays { LeavesNoMore R.leaves rows.old rows.new }
    ensures outlives { StillOutlive B.outlives bodies.old bodies.new }
{
    rows_tell_buckets();
    rows_tell_versions();
    match steps::delete(rows, alloc, next, bucket, key, number, moment) {
        Ok(gone) => {
            give_up_all(bodies, gone.as_slice());
            Ok(())
        }
        Err(failed) => Err(failed),
    }
}

/// Drops the version of an id, and answers it, as `Records::drop_version` says.
pub(crate) fn drop_version<R: StoredRows, B: StoredBodies>(
    rows: &mut R,
    bodies: &mut B,
    alloc: Global,
    next: i64,
    bucket: &BucketName,
    key: &Key,
    id: VersionId,
) -> Result<Option<Version<Body>>, NoMemory>
    requires kept { IsKept (kept (R.tables rows.old) (B.contents bodies.old) (B.uses bodies.old) next) }
    ensures changes { Changes (kept (R.tables rows.old) (B.contents bodies.old) (B.uses bodies.old) next)
        (kept (R.tables rows.new) (B.contents bodies.new) (B.uses bodies.new) next)
        bucket.now (KeyChanged key.now (VersionDropped id)) result }
    ensures gone { IfOk result (λ gone. gone ≡ find (is_under id) (versions_of (catalogue (kept (R.tables rows.old) (B.contents bodies.old) (B.uses bodies.old) next)) bucket.now key.now)) }
    ensures stays { LeavesNoMore R.leaves rows.old rows.new }
    ensures outlives { StillOutlive B.outlives bodies.old bodies.new }
{
    match steps::found_version(rows, bucket, key, Some(id)) {
        Ok(row) => drop_if_there(rows, bodies, alloc, next, bucket, key, id, row.as_ref()),
        Err(failed) => Err(failed),
    }
}

// The same of the row that has the id, if one has.
fn drop_if_there<R: StoredRows, B: StoredBodies>(
    rows: &mut R,
    bodies: &mut B,
    alloc: Global,
    next: i64,
    bucket: &BucketName,
    key: &Key,
    id: VersionId,
    row: Option<&StoredVersion>,
) -> Result<Option<Version<Body>>, NoMemory>
    requires kept { IsKept (kept (R.tables rows.old) (B.contents bodies.old) (B.uses bodies.old) next) }
    requires found { option_map version_columns (option_copied row) ≡ version_of_id bucket.now key.now (id_column id) (R.tables rows.old) }
    ensures changes { Changes (kept (R.tables rows.old) (B.contents bodies.old) (B.uses bodies.old) next)
        (kept (R.tables rows.new) (B.contents bodies.new) (B.uses bodies.new) next)
        bucket.now (KeyChanged key.now (VersionDropped id)) result }
    ensures gone { IfOk result (λ gone. gone
        ≡ option_map (λ (v : StoredVersion). version_of (encoding (B.contents bodies.old)) (version_columns v)) (option_copied row.entry)) }
    ensures stays { LeavesNoMore R.leaves rows.old rows.new }
    ensures outlives { StillOutlive B.outlives bodies.old bodies.new }
{
    match row {
        None => match drop_none(rows, bodies, next, bucket, key, id) {
            Ok(()) => Ok(None),
            Err(failed) => Err(failed),
        },
        Some(row) => match drop_found(rows, bodies, alloc, next, bucket, key, id, row) {
            Ok(version) => Ok(Some(version)),
            Err(failed) => Err(failed),
        },
    }
}

// The same where no row has the id.
fn drop_none<R: StoredRows, B: StoredBodies>(
    rows: &mut R,
    bodies: &B,
    next: i64,
    bucket: &BucketName,
    key: &Key,
    id: VersionId,
) -> Result<(), NoMemory>
    requires kept { IsKept (kept (R.tables rows.old) (B.contents bodies.now) (B.uses bodies.now) next) }
    requires found { version_of_id bucket.now key.now (id_column id) (R.tables rows.old) ≡ None }
    ensures changes { Changes (kept (R.tables rows.old) (B.contents bodies.now) (B.uses bodies.now) next)
        (kept (R.tables rows.new) (B.contents bodies.now) (B.uses bodies.now) next)
        bucket.now (KeyChanged key.now (VersionDropped id)) result }
    ensures stays { LeavesNoMore R.leaves rows.old rows.new }
{
    let _bodies = bodies;
    steps::drop_version(rows, next, bucket, key, id, None)
}

// The same of the version whose row this is.
fn drop_found<R: StoredRows, B: StoredBodies>(
    rows: &mut R,
    bodies: &mut B,
    alloc: Global,
    next: i64,
    bucket: &BucketName,
    key: &Key,
    id: VersionId,
    row: &StoredVersion,
) -> Result<Version<Body>, NoMemory>
    requires kept { IsKept (kept (R.tables rows.old) (B.contents bodies.old) (B.uses bodies.old) next) }
    requires found { version_of_id bucket.now key.now (id_column id) (R.tables rows.old) ≡ Some (version_columns row.now) }
    ensures changes { Changes (kept (R.tables rows.old) (B.contents bodies.old) (B.uses bodies.old) next)
        (kept (R.tables rows.new) (B.contents bodies.new) (B.uses bodies.new) next)
        bucket.now (KeyChanged key.now (VersionDropped id)) result }
    ensures gone { IfOk result (λ version. version ≡ version_of (encoding (B.contents bodies.old)) (version_columns row.now)) }
    ensures stays { LeavesNoMore R.leaves rows.old rows.new }
    ensures outlives { StillOutlive B.outlives bodies.old bodies.new }
{
    match version_from(alloc, bodies, row) {
        Ok(version) => match drop_row(rows, bodies, alloc, next, bucket, key, id, row) {
            Ok(()) => Ok(version),
            Err(failed) => Err(failed),
        },
        Err(failed) => Err(failed),
    }
}

// The same, without its value.
fn drop_row<R: StoredRows, B: StoredBodies>(
    rows: &mut R,
    bodies: &mut B,
    alloc: Global,
    next: i64,
    bucket: &BucketName,
    key: &Key,
    id: VersionId,
    row: &StoredVersion,
) -> Result<(), NoMemory>
    requires kept { IsKept (kept (R.tables rows.old) (B.contents bodies.old) (B.uses bodies.old) next) }
    requires found { version_of_id bucket.now key.now (id_column id) (R.tables rows.old) ≡ Some (version_columns row.now) }
    ensures changes { Changes (kept (R.tables rows.old) (B.contents bodies.old) (B.uses bodies.old) next)
        (kept (R.tables rows.new) (B.contents bodies.new) (B.uses bodies.new) next)
        bucket.now (KeyChanged key.now (VersionDropped id)) result }
    ensures stays { LeavesNoMore R.leaves rows.old rows.new }
    ensures outlives { StillOutlive B.outlives bodies.old bodies.new }
{
    let numbers = read_numbers(alloc, row.bodies.as_slice())?;
    match steps::drop_version(rows, next, bucket, key, id, Some(row)) {
        Ok(()) => {
            give_up_all(bodies, numbers.as_slice());
            Ok(())
        }
        Err(failed) => Err(failed),
    }
}

/// Deletes the objects that are named, as `Records::delete_all` says. Rows that come get rowids from `next` on, which is left above
/// them.
pub(crate) fn delete_all<R: StoredRows, B: StoredBodies>(
    rows: &mut R,
    bodies: &mut B,
    next: &mut i64,
    alloc: Global,
    bucket: &BucketName,
    objects: &[NamedObject],
    number: u64,
    moment: Moment,
) -> Result<Markers, NoMemory>
    requires kept { IsKept (kept (R.tables rows.old) (B.contents bodies.old) (B.uses bodies.old) next.old) }
    requires there { IsTrue (has_bucket (catalogue (kept (R.tables rows.old) (B.contents bodies.old) (B.uses bodies.old) next.old)) bucket.now) }
    requires below { AreBelow number (catalogue (kept (R.tables rows.old) (B.contents bodies.old) (B.uses bodies.old) next.old)) }
    ensures deletes { Deletes (kept (R.tables rows.old) (B.contents bodies.old) (B.uses bodies.old) next.old)
        (kept (R.tables rows.new) (B.contents bodies.new) (B.uses bodies.new) next.new)
        bucket.now number moment objects.now result }
    ensures stays { LeavesNoMore R.leaves rows.old rows.new }
    ensures outlives { StillOutlive B.outlives bodies.old bodies.new }
{
    rows_tell_buckets();
    rows_tell_versions();
    let Deletions {
        changes,
        gone,
        markers,
        next: later,
    } = plan_deletions(rows, alloc, bucket, objects, number, moment, *next)?;
    ids_stay_small(changes.as_slice());
    match change_all(rows, bodies, changes.as_slice(), gone.as_slice()) {
        Ok(()) => {
            *next = later;
            Ok(Markers::new(markers))
        }
        Err(failed) => Err(failed),
    }
}

// Makes these changes of rows, and takes back that rows name these numbers. `NoMemory` leaves all as it was.
fn change_all<R: StoredRows, B: StoredBodies>(
    rows: &mut R,
    bodies: &mut B,
    changes: &[Change],
    gone: &[u64],
) -> Result<(), NoMemory>
    requires { (number : ℕ) → times number gone.now ≤ B.uses bodies.old number }
    ensures tables { OnOk result (R.tables rows.new ≡ after_all changes.now (R.tables rows.old)) }
    ensures uses { OnOk result (B.uses bodies.new ≡ named_less gone.now (B.uses bodies.old)) }
    ensures contents { OnOk result (KeepsNamed (B.uses bodies.new) (B.contents bodies.old) (B.contents bodies.new)) }
    ensures same_tables { OnErr result (R.tables rows.new ≡ R.tables rows.old) }
    ensures same_uses { OnErr result (B.uses bodies.new ≡ B.uses bodies.old) }
    ensures same_contents { OnErr result (B.contents bodies.new ≡ B.contents bodies.old) }
    ensures stays { LeavesNoMore R.leaves rows.old rows.new }
    ensures outlives { StillOutlive B.outlives bodies.old bodies.new }
{
    match rows.apply(changes) {
        Ok(()) => {
            give_up_all(bodies, gone);
            Ok(())
        }
        Err(failed) => Err(failed),
    }
}

// Rows whose ids are below 2^63 stay so by these changes: the ids that come are integers of 64 bits. The walk takes that fact from
// each row, and has no other outcome.
fn ids_stay_small(changes: &[Change])
    ensures { (t : Tables) → HaveSmallIds t → HaveSmallIds (after_all changes.now t) }
{
    for change in changes {
        id_stays_small(change);
    }
}

// The same of one change.
fn id_stays_small(change: &Change)
    ensures { (t : Tables) → HaveSmallIds t → HaveSmallIds (changed_by change.now t) }
{
    match change {
        Change::AddVersion(row) => {
            let _id = row.id;
        }
        Change::AddUpload(row) => {
            let _id = row.id;
        }
        _ => {}
    }
}
