//! What the deletion of one object comes to, as the rows stand after changes that aren't made yet.
ghost use Rattle.std.specs.Prelude.{◌≡◌, None, IfOk, option_map, if◌then◌else◌};
ghost use Rattle.std.specs.Option.{option_copied};
ghost use Rattle.s3_deletions.specs.declared.named.NamedObject.{NamedObject};
ghost use Rattle.s3_rows.specs.Columns.{Tables};
ghost use Rattle.s3_rows.specs.Finding.{id_column};
ghost use Rattle.s3_stored_rows.specs.Leaving.{LeavesNoMore};
ghost use Rattle.s3_stored_rows.specs.Queries.{version_of_id};
ghost use Rattle.s3_versions.specs.Rules.{new_id};
ghost use Rattle.s3_row_deletions.specs.Standing.{shown, row_shown};
ghost use Rattle.s3_row_deletions.specs.Steps.{AreReady, IsStep, IsStepAfter, IsMark, is_older, is_made, is_marker_shown};

use crate::standing::{Standing, standing_at};
use s3_calendar::Moment;
use s3_columns::write_id;
use s3_deletions::NamedObject;
use s3_names::{BucketName, Key, VersionId};
use s3_row_values::marker_row;
use s3_stored_rows::{Change, StoredRows, StoredVersion};
use s3_terms::NoMemory;
use s3_versions::Versioning;
use std::alloc::Global;

/// The entry that deletes: the versioning of its bucket, its number and its moment.
#[derive(Clone, Copy)]
pub(crate) struct Entry {
    pub(crate) versioning: Versioning,
    pub(crate) number: u64,
    pub(crate) moment: Moment,
}

/// What one deletion comes to: the row that goes, the one that comes, and the id of the delete marker that is made or goes.
#[derive(Drop)]
pub(crate) struct Step {
    pub(crate) gone: Option<Standing>,
    pub(crate) comes: Option<StoredVersion>,
    pub(crate) marker: Option<VersionId>,
}

/// What the deletion of an object comes to after these changes, where every rowid is below `next`.
pub(crate) fn object_step<R: StoredRows>(
    rows: &mut R,
    alloc: Global,
    changes: &[Change],
    bucket: &BucketName,
    entry: &Entry,
    next: i64,
    object: &NamedObject,
) -> Result<Step, NoMemory>
    ensures value { IfOk result (IsStepAfter (R.tables rows.old) changes.now bucket.now entry.now next object.now) }
    ensures same { R.tables rows.new ≡ R.tables rows.old }
    ensures stays { LeavesNoMore R.leaves rows.old rows.new }
{
    match object {
        NamedObject::Fault(_) => Ok(nothing()),
        NamedObject::Object(deletion) => match deletion.version {
            None => key_step(rows, alloc, changes, bucket, entry, next, &deletion.key),
            Some(id) => version_step(rows, alloc, changes, bucket, entry, next, &deletion.key, id),
        },
    }
}

// What the deletion of a key comes to that names no version.
fn key_step<R: StoredRows>(
    rows: &mut R,
    alloc: Global,
    changes: &[Change],
    bucket: &BucketName,
    entry: &Entry,
    next: i64,
    key: &Key,
) -> Result<Step, NoMemory>
    ensures value { IfOk result (IsStepAfter (R.tables rows.old) changes.now bucket.now entry.now next
        (NamedObject.Object (record { key = key.now; version = None }))) }
    ensures same { R.tables rows.new ≡ R.tables rows.old }
    ensures stays { LeavesNoMore R.leaves rows.old rows.new }
{
    let Some(column) = write_id(entry.versioning.new_id(entry.number)) else {
        return Err(NoMemory);
    };
    let found = standing_at(
        rows,
        alloc,
        changes,
        bucket.as_bytes(),
        key.as_bytes(),
        column,
    )?;
    step_of_key(alloc, bucket, entry, next, key, found)
}

// The same, where this row has the id of what the entry makes.
fn step_of_key(
    alloc: Global,
    bucket: &BucketName,
    entry: &Entry,
    next: i64,
    key: &Key,
    found: Option<Standing>,
) -> Result<Step, NoMemory>
    ensures { IfOk result (λ step. (t : Tables) → AreReady t bucket.now entry.now next
        → option_map shown found
        ≡ option_map row_shown (version_of_id bucket.now key.now (id_column (new_id entry.now.versioning entry.now.number)) t)
        → IsStep t bucket.now entry.now next (NamedObject.Object (record { key = key.now; version = None })) step) }
{
    if is_made(found.as_ref(), entry.number) {
        return Ok(nothing());
    }
    match entry.versioning {
        Versioning::Unversioned => Ok(without(found, None)),
        Versioning::Enabled | Versioning::Suspended => {
            mark(alloc, bucket, entry, next, key, found)
        }
    }
}

// The same in a bucket that isn't unversioned, where the entry has made nothing under the key.
fn mark(
    alloc: Global,
    bucket: &BucketName,
    entry: &Entry,
    next: i64,
    key: &Key,
    found: Option<Standing>,
) -> Result<Step, NoMemory>
    ensures { IfOk result (IsMark bucket.now entry.now next key.now found) }
{
    let row = marker_row(
        alloc,
        next,
        bucket,
        key,
        entry.versioning,
        entry.number,
        entry.moment,
    )?;
    Ok(Step {
        gone: found,
        comes: Some(row),
        marker: Some(entry.versioning.new_id(entry.number)),
    })
}

// What the deletion of the version of an id comes to. No version has the number of a later entry, and the deletion leaves one that
// has the entry's own.
fn version_step<R: StoredRows>(
    rows: &mut R,
    alloc: Global,
    changes: &[Change],
    bucket: &BucketName,
    entry: &Entry,
    next: i64,
    key: &Key,
    id: VersionId,
) -> Result<Step, NoMemory>
    ensures value { IfOk result (IsStepAfter (R.tables rows.old) changes.now bucket.now entry.now next
        (NamedObject.Object (record { key = key.now; version = Some id }))) }
    ensures same { R.tables rows.new ≡ R.tables rows.old }
    ensures stays { LeavesNoMore R.leaves rows.old rows.new }
{
    if !is_older(entry.number, id) {
        return Ok(nothing());
    }
    let Some(column) = write_id(id) else {
        return Err(NoMemory);
    };
    let found = standing_at(
        rows,
        alloc,
        changes,
        bucket.as_bytes(),
        key.as_bytes(),
        column,
    )?;
    let marker = marker_of(found.as_ref(), id);
    Ok(without(found, marker))
}

// Whether this is no id of what the entry of this number, or a later one, makes.
fn is_older(number: u64, id: VersionId) -> bool
    ensures { result ≡ is_older number id }
{
    match id {
        VersionId::Null => true,
        VersionId::Numbered(other) => other < number,
    }
}

// Nothing goes and nothing comes.
fn nothing() -> Step
    ensures { result ≡ record { gone = None; comes = None; marker = None } }
{
    without(None, None)
}

// A row goes, if there is one, and this id of a delete marker is told.
fn without(gone: Option<Standing>, marker: Option<VersionId>) -> Step
    ensures { result ≡ record { gone = gone; comes = None; marker = marker } }
{
    Step {
        gone,
        comes: None,
        marker,
    }
}

// Whether the entry of this number made it.
fn is_made(found: Option<&Standing>, number: u64) -> bool
    ensures { result ≡ is_made number (option_map shown (option_copied found.entry)) }
{
    match found {
        None => false,
        Some(version) => version.number == number,
    }
}

// The id, if it is that of a delete marker.
fn marker_of(found: Option<&Standing>, id: VersionId) -> Option<VersionId>
    ensures { result ≡ (if is_marker_shown (option_map shown (option_copied found.entry)) then Some id else None) }
{
    match found {
        None => None,
        Some(version) => { if version.is_marker { Some(id) } else { None } }
    }
}
