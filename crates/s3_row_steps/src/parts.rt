//! Changes of parts.
ghost use Rattle.std.specs.Prelude.{◌≡◌, ℤ, pos, ◌+ℤ◌, Some, IsTrue, OnOk, OnErr, option_map};
ghost use Rattle.std.specs.Option.{option_copied};
ghost use Rattle.s3_records.specs.Changes.{PartPut};
ghost use Rattle.s3_rows.specs.Soundness.{part_row};
ghost use Rattle.s3_stored_rows.specs.Bodies.{part_numbers};
ghost use Rattle.s3_stored_rows.specs.Changes.{upload_columns, part_columns};
ghost use Rattle.s3_stored_rows.specs.Leaving.{LeavesNoMore};
ghost use Rattle.s3_stored_rows.specs.Queries.{upload_of_id, part_of_number};
ghost use Rattle.s3_row_values.specs.Values.{part_with};
ghost use Rattle.s3_row_changes.specs.Trading.{numbers_of};
ghost use Rattle.s3_row_steps.specs.Steps.{AreKept, Steps};

use s3_names::{BucketName, Key, PartNumber, UploadId};
use s3_row_values::{DescribedPart, part_row};
use s3_stored_rows::{StoredPart, StoredRows, StoredUpload};
use s3_terms::NoMemory;
use std::alloc::Global;

/// Puts a part under its number to the upload of this id to a key, whose row is `upload`, in the place of the one whose row is
/// `gone`, if there is one. Its bytes stand under these numbers of bodies. Its row gets the rowid `next`.
pub fn put_part<R: StoredRows>(
    rows: &mut R,
    alloc: Global,
    next: i64,
    bucket: &BucketName,
    key: &Key,
    id: UploadId,
    upload: &StoredUpload,
    number: PartNumber,
    gone: Option<&StoredPart>,
    described: &DescribedPart,
    numbers: &[u64],
) -> Result<(), NoMemory>
    requires kept { AreKept next (R.tables rows.old) }
    requires upload { upload_of_id bucket.now key.now (pos id) (R.tables rows.old) ≡ Some (upload_columns upload.now) }
    requires gone { option_map part_columns (option_copied gone) ≡ part_of_number upload.now.row (pos number) (R.tables rows.old) }
    ensures ok { OnOk result (Steps (R.tables rows.old) (R.tables rows.new) (next +ℤ pos 1) bucket.now
        (λ contents. PartPut key.now id number (part_with contents numbers.now described.now))
        (numbers_of part_numbers (option_map part_columns (option_copied gone.entry))) numbers.now) }
    ensures err { OnErr result (R.tables rows.new ≡ R.tables rows.old) }
    ensures stays { LeavesNoMore R.leaves rows.old rows.new }
{
    let part = part_row(alloc, next, upload.row, number, described, numbers)?;
    s3_row_changes::put_part(rows, alloc, part, row_of(gone))
}

// The rowid of the row of a part, if there is one.
fn row_of(part: Option<&StoredPart>) -> Option<i64>
    ensures { result ≡ option_map part_row (option_map part_columns (option_copied part.entry)) }
{
    match part {
        Some(part) => Some(part.row),
        None => None,
    }
}
