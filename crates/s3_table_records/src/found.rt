//! Uploads and parts that are looked for: their rows, what these tell, and the numbers of bodies that they name.
ghost use Rattle.std.specs.Prelude.{◌≡◌, ℕ, pos, IfOk, IfSome, option_map};
ghost use Rattle.std.specs.Option.{option_copied};
ghost use Rattle.s3_uploads.specs.Parts.{part_at};
ghost use Rattle.s3_records.specs.OpenUploads.{upload_at, parts_at};
ghost use Rattle.s3_rows.specs.Meaning.{part_of, catalogue_of};
ghost use Rattle.s3_rows.specs.Soundness.{AreSound};
ghost use Rattle.s3_stored_bodies.specs.Numbers.{times, StillOutlive};
ghost use Rattle.s3_stored_rows.specs.Bodies.{encoding, numbers_named, part_numbers};
ghost use Rattle.s3_stored_rows.specs.Changes.{upload_columns, part_columns};
ghost use Rattle.s3_stored_rows.specs.Leaving.{LeavesNoMore};
ghost use Rattle.s3_stored_rows.specs.Queries.{upload_of_id, part_of_number};
ghost use Rattle.s3_row_changes.specs.Trading.{numbers_of, sent_numbers};
ghost use Rattle.s3_row_changes.specs.Uploads.{AreRowsOf};
ghost use Rattle.s3_table_records.specs.Kept.{kept, catalogue, IsKept};

use crate::named::{part_names, upload_names};
use s3_bodies::Body;
use s3_names::{BucketName, Key, PartNumber, UploadId};
use s3_row_changes::UploadRows;
use s3_row_steps as steps;
use s3_row_values::{part_from, upload_from};
use s3_rows::rows_tell_uploads;
use s3_stored_bodies::StoredBodies;
use s3_stored_rows::{StoredPart, StoredRows, StoredUpload};
use s3_terms::NoMemory;
use s3_uploads::{Part, Upload};
use std::alloc::Global;

/// What the rows of an upload tell: the upload, and the numbers of bodies that they name.
#[derive(Drop)]
pub(crate) struct ToldUpload {
    upload: Option<Upload<Body>>,
    pub(crate) names: Vec<u64>,
}

/// What stands at the place of an upload: its rows, if it is there, and what they tell.
#[derive(Drop)]
pub(crate) struct FoundUpload {
    pub(crate) rows: Option<UploadRows>,
    pub(crate) told: ToldUpload,
}

impl FoundUpload {
    /// The upload.
    pub(crate) fn into_upload(self) -> Option<Upload<Body>>
        ensures { result ≡ self.told.upload }
    {
        let told = self.told;
        told.upload
    }
}

/// What the row of a part tells: the part, and the numbers of bodies that it names.
#[derive(Drop)]
pub(crate) struct ToldPart {
    part: Option<Part<Body>>,
    pub(crate) names: Vec<u64>,
}

/// What stands where a part is put: the row of its upload, the row of the part of its number there, if there is one, and what this
/// tells.
#[derive(Drop)]
pub(crate) struct FoundPart {
    pub(crate) upload: StoredUpload,
    pub(crate) row: Option<StoredPart>,
    pub(crate) told: ToldPart,
}

impl FoundPart {
    /// The part that stands there.
    pub(crate) fn into_part(self) -> Option<Part<Body>>
        ensures { result ≡ self.told.part }
    {
        let told = self.told;
        told.part
    }
}

/// Looks for the upload of an id to a key.
pub(crate) fn find_upload<R: StoredRows, B: StoredBodies>(
    rows: &mut R,
    bodies: &mut B,
    alloc: Global,
    next: i64,
    bucket: &BucketName,
    key: &Key,
    id: UploadId,
) -> Result<FoundUpload, NoMemory>
    requires kept { IsKept (kept (R.tables rows.old) (B.contents bodies.old) (B.uses bodies.old) next) }
    ensures found { IfOk result (λ found. option_map (λ (u : UploadRows). upload_columns u.upload) found.rows ≡ upload_of_id bucket.now key.now (pos id) (R.tables rows.old)) }
    ensures rows { IfOk result (λ found. IfSome found.rows (AreRowsOf (R.tables rows.old))) }
    ensures told { IfOk result (λ found. found.told.upload ≡ upload_at (catalogue (kept (R.tables rows.old) (B.contents bodies.old) (B.uses bodies.old) next)) bucket.now key.now id) }
    ensures names { IfOk result (λ found. found.told.names.items ≡ sent_numbers (R.tables rows.old) (upload_of_id bucket.now key.now (pos id) (R.tables rows.old))) }
    ensures tables { R.tables rows.new ≡ R.tables rows.old }
    ensures contents { B.contents bodies.new ≡ B.contents bodies.old }
    ensures uses { B.uses bodies.new ≡ B.uses bodies.old }
    ensures stays { LeavesNoMore R.leaves rows.old rows.new }
    ensures outlives { StillOutlive B.outlives bodies.old bodies.new }
{
    let _next = next;
    let found = steps::found_upload(rows, alloc, bucket, key, id)?;
    let told = read_upload(rows, bodies, alloc, bucket, key, id, found.as_ref())?;
    Ok(FoundUpload { rows: found, told })
}

/// Looks for the part of a number of the upload of an id to a key. `NoMemory` also where there is no such upload.
pub(crate) fn find_part<R: StoredRows, B: StoredBodies>(
    rows: &mut R,
    bodies: &mut B,
    alloc: Global,
    next: i64,
    bucket: &BucketName,
    key: &Key,
    id: UploadId,
    number: PartNumber,
) -> Result<FoundPart, NoMemory>
    requires kept { IsKept (kept (R.tables rows.old) (B.contents bodies.old) (B.uses bodies.old) next) }
    ensures upload { IfOk result (λ found. upload_of_id bucket.now key.now (pos id) (R.tables rows.old) ≡ Some (upload_columns found.upload)) }
    ensures row { IfOk result (λ found. option_map part_columns found.row ≡ part_of_number found.upload.row (pos number) (R.tables rows.old)) }
    ensures told { IfOk result (λ found. found.told.part ≡ part_at number (parts_at (catalogue (kept (R.tables rows.old) (B.contents bodies.old) (B.uses bodies.old) next)) bucket.now key.now id)) }
    ensures names { IfOk result (λ found. found.told.names.items ≡ numbers_of part_numbers (option_map part_columns found.row)) }
    ensures tables { R.tables rows.new ≡ R.tables rows.old }
    ensures contents { B.contents bodies.new ≡ B.contents bodies.old }
    ensures uses { B.uses bodies.new ≡ B.uses bodies.old }
    ensures stays { LeavesNoMore R.leaves rows.old rows.new }
    ensures outlives { StillOutlive B.outlives bodies.old bodies.new }
{
    let _next = next;
    rows_tell_uploads();
    let upload = upload_row(rows, bucket, key, id)?;
    let row = rows.part(upload.row, i64::from(number.get()))?;
    let told = read_part(rows, bodies, alloc, upload.row, number, row.as_ref())?;
    Ok(FoundPart { upload, row, told })
}

// The same, where the rows of the upload were found.
fn read_upload<R: StoredRows, B: StoredBodies>(
    rows: &R,
    bodies: &mut B,
    alloc: Global,
    bucket: &BucketName,
    key: &Key,
    id: UploadId,
    found: Option<&UploadRows>,
) -> Result<ToldUpload, NoMemory>
    requires sound { AreSound (R.tables rows.now) }
    requires named { (number : ℕ) → B.uses bodies.old number ≡ times number (numbers_named (R.tables rows.now)) }
    requires found { option_map (λ (u : UploadRows). upload_columns u.upload) (option_copied found) ≡ upload_of_id bucket.now key.now (pos id) (R.tables rows.now) }
    requires rows { IfSome (option_copied found) (AreRowsOf (R.tables rows.now)) }
    ensures upload { IfOk result (λ told. told.upload ≡ upload_at (catalogue_of (encoding (B.contents bodies.old)) (R.tables rows.now)) bucket.now key.now id) }
    ensures names { IfOk result (λ told. told.names.items ≡ sent_numbers (R.tables rows.now) (upload_of_id bucket.now key.now (pos id) (R.tables rows.now))) }
    ensures contents { B.contents bodies.new ≡ B.contents bodies.old }
    ensures uses { B.uses bodies.new ≡ B.uses bodies.old }
    ensures outlives { StillOutlive B.outlives bodies.old bodies.new }
{
    let names = upload_names(alloc, found)?;
    let upload = told_upload(rows, bodies, alloc, bucket, key, id, found)?;
    Ok(ToldUpload { upload, names })
}

// The same, where the row of the part was found.
fn read_part<R: StoredRows, B: StoredBodies>(
    rows: &R,
    bodies: &mut B,
    alloc: Global,
    upload: i64,
    number: PartNumber,
    found: Option<&StoredPart>,
) -> Result<ToldPart, NoMemory>
    requires named { (number : ℕ) → B.uses bodies.old number ≡ times number (numbers_named (R.tables rows.now)) }
    requires found { option_map part_columns (option_copied found) ≡ part_of_number upload (pos number) (R.tables rows.now) }
    ensures part { IfOk result (λ told. told.part ≡ option_map (part_of (encoding (B.contents bodies.old))) (part_of_number upload (pos number) (R.tables rows.now))) }
    ensures names { IfOk result (λ told. told.names.items ≡ numbers_of part_numbers (option_map part_columns (option_copied found.entry))) }
    ensures contents { B.contents bodies.new ≡ B.contents bodies.old }
    ensures uses { B.uses bodies.new ≡ B.uses bodies.old }
    ensures outlives { StillOutlive B.outlives bodies.old bodies.new }
{
    let names = part_names(alloc, found)?;
    let part = told_part(rows, bodies, alloc, upload, number, found)?;
    Ok(ToldPart { part, names })
}

/// The upload at a place whose rows were found there, with its parts and their bytes; `None` where none were found.
pub(crate) fn told_upload<R: StoredRows, B: StoredBodies>(
    rows: &R,
    bodies: &mut B,
    alloc: Global,
    bucket: &BucketName,
    key: &Key,
    id: UploadId,
    found: Option<&UploadRows>,
) -> Result<Option<Upload<Body>>, NoMemory>
    requires sound { AreSound (R.tables rows.now) }
    requires named { (number : ℕ) → B.uses bodies.old number ≡ times number (numbers_named (R.tables rows.now)) }
    requires found { option_map (λ (u : UploadRows). upload_columns u.upload) (option_copied found) ≡ upload_of_id bucket.now key.now (pos id) (R.tables rows.now) }
    requires rows { IfSome (option_copied found) (AreRowsOf (R.tables rows.now)) }
    ensures value { IfOk result (λ told. told ≡ upload_at (catalogue_of (encoding (B.contents bodies.old)) (R.tables rows.now)) bucket.now key.now id) }
    ensures contents { B.contents bodies.new ≡ B.contents bodies.old }
    ensures uses { B.uses bodies.new ≡ B.uses bodies.old }
    ensures outlives { StillOutlive B.outlives bodies.old bodies.new }
{
    rows_tell_uploads();
    let _rows = rows;
    match found {
        None => Ok(None),
        Some(found) => match upload_from(alloc, bodies, &found.upload, &found.parts) {
            Ok(upload) => Ok(Some(upload)),
            Err(failed) => Err(failed),
        },
    }
}

// The part of a number whose row was found, with its bytes; `None` where none was found.
fn told_part<R: StoredRows, B: StoredBodies>(
    rows: &R,
    bodies: &mut B,
    alloc: Global,
    upload: i64,
    number: PartNumber,
    found: Option<&StoredPart>,
) -> Result<Option<Part<Body>>, NoMemory>
    requires named { (number : ℕ) → B.uses bodies.old number ≡ times number (numbers_named (R.tables rows.now)) }
    requires found { option_map part_columns (option_copied found) ≡ part_of_number upload (pos number) (R.tables rows.now) }
    ensures value { IfOk result (λ told. told ≡ option_map (part_of (encoding (B.contents bodies.old))) (part_of_number upload (pos number) (R.tables rows.now))) }
    ensures contents { B.contents bodies.new ≡ B.contents bodies.old }
    ensures uses { B.uses bodies.new ≡ B.uses bodies.old }
    ensures outlives { StillOutlive B.outlives bodies.old bodies.new }
{
    let _rows = rows;
    match found {
        None => Ok(None),
        Some(found) => match part_from(alloc, bodies, found) {
            Ok(part) => Ok(Some(part)),
            Err(failed) => Err(failed),
        },
    }
}

// The row of the upload of an id to a key. `NoMemory` where there is none.
fn upload_row<R: StoredRows>(
    rows: &mut R,
    bucket: &BucketName,
    key: &Key,
    id: UploadId,
) -> Result<StoredUpload, NoMemory>
    ensures value { IfOk result (λ found. upload_of_id bucket.now key.now (pos id) (R.tables rows.old) ≡ Some (upload_columns found)) }
    ensures same { R.tables rows.new ≡ R.tables rows.old }
    ensures stays { LeavesNoMore R.leaves rows.old rows.new }
{
    let Ok(id) = i64::try_from(id.number()) else {
        return Err(NoMemory);
    };
    match rows.upload(bucket.as_bytes(), key.as_bytes(), id)? {
        Some(found) => Ok(found),
        None => Err(NoMemory),
    }
}
