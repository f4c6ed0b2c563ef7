//! Changes that are copied, to be made again elsewhere.
ghost use Rattle.std.specs.Prelude.{◌≡◌, IfOk};
ghost use Rattle.s3_rows.specs.Columns.{Tables};
ghost use Rattle.s3_stored_rows.specs.Changes.{changed_by, after_all, bucket_columns, version_columns, upload_columns, part_columns};

use crate::change::Change;
use crate::rows::{StoreNumbers, StoredBucket, StoredPart, StoredUpload, StoredVersion};
use s3_terms::NoMemory;
use std::alloc::Global;

// A copy of bytes.
fn copied(alloc: Global, bytes: &[u8]) -> Result<Vec<u8>, NoMemory>
    ensures { IfOk result (λ copy. copy.items ≡ bytes.now) }
{
    Ok(Vec::from_slice(alloc, bytes)?)
}

fn copied_bucket(alloc: Global, row: &StoredBucket) -> Result<StoredBucket, NoMemory>
    ensures { IfOk result (λ copy. bucket_columns copy ≡ bucket_columns row.now) }
{
    let name = copied(alloc, row.name.as_slice())?;
    Ok(StoredBucket {
        row: row.row,
        name,
        made: row.made,
        mode: row.mode,
    })
}

fn copied_version(alloc: Global, row: &StoredVersion) -> Result<StoredVersion, NoMemory>
    ensures { IfOk result (λ copy. version_columns copy ≡ version_columns row.now) }
{
    let bucket = copied(alloc, row.bucket.as_slice())?;
    let key = copied(alloc, row.key.as_slice())?;
    let tag = copied(alloc, row.tag.as_slice())?;
    let kept = copied(alloc, row.kept.as_slice())?;
    let bodies = copied(alloc, row.bodies.as_slice())?;
    Ok(StoredVersion {
        row: row.row,
        bucket,
        key,
        number: row.number,
        id: row.id,
        moment: row.moment,
        marker: row.marker,
        tag,
        kept,
        size: row.size,
        bodies,
    })
}

fn copied_upload(alloc: Global, row: &StoredUpload) -> Result<StoredUpload, NoMemory>
    ensures { IfOk result (λ copy. upload_columns copy ≡ upload_columns row.now) }
{
    let bucket = copied(alloc, row.bucket.as_slice())?;
    let key = copied(alloc, row.key.as_slice())?;
    let kept = copied(alloc, row.kept.as_slice())?;
    Ok(StoredUpload {
        row: row.row,
        bucket,
        key,
        id: row.id,
        moment: row.moment,
        kept,
    })
}

fn copied_part(alloc: Global, row: &StoredPart) -> Result<StoredPart, NoMemory>
    ensures { IfOk result (λ copy. part_columns copy ≡ part_columns row.now) }
{
    let digest = copied(alloc, row.digest.as_slice())?;
    let bodies = copied(alloc, row.bodies.as_slice())?;
    Ok(StoredPart {
        row: row.row,
        upload: row.upload,
        part: row.part,
        digest,
        moment: row.moment,
        size: row.size,
        bodies,
    })
}

fn copied_change(alloc: Global, change: &Change) -> Result<Change, NoMemory>
    ensures { IfOk result (λ copy. (t : Tables) → changed_by copy t ≡ changed_by change.now t) }
{
    match change {
        Change::AddBucket(row) => Ok(Change::AddBucket(copied_bucket(alloc, row)?)),
        Change::AddVersion(row) => Ok(Change::AddVersion(copied_version(alloc, row)?)),
        Change::AddUpload(row) => Ok(Change::AddUpload(copied_upload(alloc, row)?)),
        Change::AddPart(row) => Ok(Change::AddPart(copied_part(alloc, row)?)),
        Change::AddStore(row) => Ok(Change::AddStore(StoreNumbers {
            row: row.row,
            form: row.form,
            number: row.number,
        })),
        Change::DropRow(table, row) => Ok(Change::DropRow(*table, *row)),
    }
}

/// Changes that make of any tables what these make.
pub fn copied_changes(alloc: Global, changes: &[Change]) -> Result<Vec<Change>, NoMemory>
    ensures { IfOk result (λ copies. (t : Tables) → after_all copies.items t ≡ after_all changes.now t) }
{
    let mut copies = Vec::with_capacity(alloc, changes.len())?;
    for change in changes {
        let copy = copied_change(alloc, change)?;
        copies.push(copy)?;
    }
    Ok(copies)
}
