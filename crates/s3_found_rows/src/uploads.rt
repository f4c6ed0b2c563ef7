//! The open uploads that were found.
ghost use Rattle.std.specs.Prelude.{◌≡◌, ◌<ℤ◌, [], ◌∷◌, ◌++◌, map, IsTrue, IfOk, OnOk};
ghost use Rattle.s3_rows.specs.Soundness.{upload_row, is_upload_row};
ghost use Rattle.s3_stored_rows.specs.Changes.{upload_columns};
ghost use Rattle.s3_found_rows.specs.Fitting.{upload_fits};
ghost use Rattle.s3_found_rows.specs.Order.{IsFilled};

use crate::naming::{has_bucket, is_count, reversed};
use s3_storage::StorageFault;
use s3_stored_rows::{Change, StoredRows, StoredUpload};

/// Puts the uploads that were found into rows that have none, and their rowids behind these. Answers a rowid above which there is none.
pub(crate) fn put_uploads<R: StoredRows>(
    rows: &mut R,
    found: Vec<StoredUpload>,
    number: i64,
    rowids: &mut Vec<i64>,
) -> Result<i64, StorageFault>
    requires { (R.tables rows.old).uploads ≡ [] }
    ensures rows { IfOk result (λ _. R.tables rows.new ≡ record (R.tables rows.old) { uploads = map upload_columns found.items }) }
    ensures filled { IfOk result (λ last. IsFilled upload_row last (upload_fits number (R.tables rows.old).buckets) (map upload_columns found.items)) }
    ensures rowids { IfOk result (λ _. rowids.new.items ≡ rowids.old.items ++ map upload_row (map upload_columns found.items)) }
{
    let mut last = i64::MIN;
    let mut left = reversed(found);
    while let Some(upload) = left.pop() {
        let row = upload.row;
        put_upload(rows, upload, last, number, rowids)?;
        last = row;
    }
    Ok(last)
}

// Puts an upload behind the ones that stand, and its rowid behind theirs.
fn put_upload<R: StoredRows>(
    rows: &mut R,
    upload: StoredUpload,
    last: i64,
    number: i64,
    rowids: &mut Vec<i64>,
) -> Result<(), StorageFault>
    requires { IsFilled upload_row last (upload_fits number (R.tables rows.old).buckets) (R.tables rows.old).uploads }
    ensures rows { OnOk result (R.tables rows.new ≡ record (R.tables rows.old) { uploads = (R.tables rows.old).uploads ++ upload_columns upload ∷ [] }) }
    ensures filled { OnOk result (IsFilled upload_row upload.row (upload_fits number (R.tables rows.old).buckets) ((R.tables rows.old).uploads ++ upload_columns upload ∷ [])) }
    ensures rowids { OnOk result (rowids.new.items ≡ rowids.old.items ++ upload.row ∷ []) }
{
    check_upload(rows, &upload, last, number)?;
    rowids.push(upload.row)?;
    rows.apply(&[Change::AddUpload(upload)])?;
    Ok(())
}

// Whether an upload may stand behind the ones that stand, where the last one has this rowid.
fn check_upload<R: StoredRows>(
    rows: &mut R,
    upload: &StoredUpload,
    last: i64,
    number: i64,
) -> Result<(), StorageFault>
    ensures later { OnOk result (last <ℤ upload.now.row) }
    ensures fits { OnOk result (IsTrue (upload_fits number (R.tables rows.old).buckets (upload_columns upload.now))) }
    ensures same { R.tables rows.new ≡ R.tables rows.old }
{
    if upload.row <= last || upload.id >= number {
        return Err(StorageFault::Damaged);
    }
    if !is_upload_sound(upload) {
        return Err(StorageFault::Damaged);
    }
    if !has_bucket(rows, &upload.bucket)? {
        return Err(StorageFault::Damaged);
    }
    Ok(())
}

// Whether the integers of an upload are in range.
fn is_upload_sound(upload: &StoredUpload) -> bool
    ensures { result ≡ is_upload_row (upload_columns upload.now) }
{
    is_count(upload.id) && is_count(upload.moment)
}
