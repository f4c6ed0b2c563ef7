//! Changes of the parts of an upload.
ghost use Rattle.std.specs.Prelude.{◌≡◌, ℤ, pos, ◌+ℤ◌, IsTrue, IfOk, is_some, option_map};
ghost use Rattle.std.specs.Option.{option_copied};
ghost use Rattle.s3_uploads.specs.Parts.{part_at};
ghost use Rattle.s3_uploads.specs.declared.part.Part.{Part};
ghost use Rattle.s3_records.specs.Catalogue.{has_bucket};
ghost use Rattle.s3_records.specs.Changes.{PartPut};
ghost use Rattle.s3_records.specs.OpenUploads.{upload_at, parts_at};
ghost use Rattle.s3_stored_bodies.specs.Numbers.{StillOutlive};
ghost use Rattle.s3_stored_rows.specs.Bodies.{part_numbers};
ghost use Rattle.s3_stored_rows.specs.Changes.{upload_columns, part_columns};
ghost use Rattle.s3_stored_rows.specs.Leaving.{LeavesNoMore};
ghost use Rattle.s3_stored_rows.specs.Queries.{upload_of_id, part_of_number};
ghost use Rattle.s3_row_changes.specs.Trading.{numbers_of};
ghost use Rattle.s3_table_records.specs.Kept.{kept, catalogue, IsKept, Changes};

use crate::found::{FoundPart, find_part};
use s3_bodies::Body;
use s3_names::{BucketName, Key, PartNumber, UploadId};
use s3_row_steps as steps;
use s3_row_values::DescribedPart;
use s3_stored_bodies::{StoredBodies, give_up_all};
use s3_stored_rows::{StoredPart, StoredRows, StoredUpload};
use s3_terms::NoMemory;
use s3_uploads::Part;
use std::alloc::Global;

/// Puts a part, and answers the one that it replaces, as `Records::put_part` says. Its row gets the rowid `next`.
pub(crate) fn put_part<R: StoredRows, B: StoredBodies>(
    rows: &mut R,
    bodies: &mut B,
    alloc: Global,
    next: i64,
    bucket: &BucketName,
    key: &Key,
    id: UploadId,
    number: PartNumber,
    part: Part<Body>,
) -> Result<Option<Part<Body>>, NoMemory>
    requires kept { IsKept (kept (R.tables rows.old) (B.contents bodies.old) (B.uses bodies.old) next) }
    requires there { IsTrue (has_bucket (catalogue (kept (R.tables rows.old) (B.contents bodies.old) (B.uses bodies.old) next)) bucket.now) }
    requires begun { IsTrue (is_some (upload_at (catalogue (kept (R.tables rows.old) (B.contents bodies.old) (B.uses bodies.old) next)) bucket.now key.now id)) }
    ensures changes { Changes (kept (R.tables rows.old) (B.contents bodies.old) (B.uses bodies.old) next)
        (kept (R.tables rows.new) (B.contents bodies.new) (B.uses bodies.new) (next +ℤ pos 1))
        bucket.now (PartPut key.now id number part) result }
    ensures former { IfOk result (λ former. former ≡ part_at number (parts_at (catalogue (kept (R.tables rows.old) (B.contents bodies.old) (B.uses bodies.old) next)) bucket.now key.now id)) }
    ensures stays { LeavesNoMore R.leaves rows.old rows.new }
    ensures outlives { StillOutlive B.outlives bodies.old bodies.new }
{
    let found = match find_part(rows, bodies, alloc, next, bucket, key, id, number) {
        Ok(found) => found,
        Err(failed) => return Err(failed),
    };
    match put_whole(
        rows, bodies, alloc, next, bucket, key, id, number, &found, part,
    ) {
        Ok(()) => Ok(found.into_part()),
        Err(failed) => Err(failed),
    }
}

// The same of what was found where the part is put, without an answer.
fn put_whole<R: StoredRows, B: StoredBodies>(
    rows: &mut R,
    bodies: &mut B,
    alloc: Global,
    next: i64,
    bucket: &BucketName,
    key: &Key,
    id: UploadId,
    number: PartNumber,
    found: &FoundPart,
    part: Part<Body>,
) -> Result<(), NoMemory>
    requires kept { IsKept (kept (R.tables rows.old) (B.contents bodies.old) (B.uses bodies.old) next) }
    requires upload { upload_of_id bucket.now key.now (pos id) (R.tables rows.old) ≡ Some (upload_columns found.now.upload) }
    requires row { option_map part_columns found.now.row ≡ part_of_number found.now.upload.row (pos number) (R.tables rows.old) }
    requires names { found.now.told.names.items ≡ numbers_of part_numbers (option_map part_columns found.now.row) }
    ensures changes { Changes (kept (R.tables rows.old) (B.contents bodies.old) (B.uses bodies.old) next)
        (kept (R.tables rows.new) (B.contents bodies.new) (B.uses bodies.new) (next +ℤ pos 1))
        bucket.now (PartPut key.now id number part) result }
    ensures stays { LeavesNoMore R.leaves rows.old rows.new }
    ensures outlives { StillOutlive B.outlives bodies.old bodies.new }
{
    let Part {
        digest,
        moment,
        size,
        body,
    } = part;
    let described = DescribedPart {
        digest,
        moment,
        size,
    };
    put_found(
        rows,
        bodies,
        alloc,
        next,
        bucket,
        key,
        id,
        &found.upload,
        number,
        found.row.as_ref(),
        &found.told.names,
        &described,
        body,
    )
}

// The same of a part, taken apart.
fn put_found<R: StoredRows, B: StoredBodies>(
    rows: &mut R,
    bodies: &mut B,
    alloc: Global,
    next: i64,
    bucket: &BucketName,
    key: &Key,
    id: UploadId,
    upload: &StoredUpload,
    number: PartNumber,
    gone: Option<&StoredPart>,
    names: &[u64],
    described: &DescribedPart,
    body: Body,
) -> Result<(), NoMemory>
    requires kept { IsKept (kept (R.tables rows.old) (B.contents bodies.old) (B.uses bodies.old) next) }
    requires upload { upload_of_id bucket.now key.now (pos id) (R.tables rows.old) ≡ Some (upload_columns upload.now) }
    requires gone { option_map part_columns (option_copied gone) ≡ part_of_number upload.now.row (pos number) (R.tables rows.old) }
    requires names { names.now ≡ numbers_of part_numbers (option_map part_columns (option_copied gone)) }
    ensures changes { Changes (kept (R.tables rows.old) (B.contents bodies.old) (B.uses bodies.old) next)
        (kept (R.tables rows.new) (B.contents bodies.new) (B.uses bodies.new) (next +ℤ pos 1))
        bucket.now (PartPut key.now id number (record { digest = described.now.digest; moment = described.now.moment; size = described.now.size; body = body })) result }
    ensures stays { LeavesNoMore R.leaves rows.old rows.new }
    ensures outlives { StillOutlive B.outlives bodies.old bodies.new }
{
    let held = match bodies.keep(alloc, body) {
        Ok(held) => held,
        Err(failed) => return Err(failed),
    };
    match steps::put_part(
        rows,
        alloc,
        next,
        bucket,
        key,
        id,
        upload,
        number,
        gone,
        described,
        &[held],
    ) {
        Ok(()) => {
            give_up_all(bodies, names);
            Ok(())
        }
        Err(failed) => {
            bodies.give_up(held);
            Err(failed)
        }
    }
}
