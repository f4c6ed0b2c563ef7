//! What the rows of uploads and parts say. A column that can't be read answers `NoMemory`: a keeper of rows has none.
ghost use Rattle.std.specs.Prelude.{◌≡◌, ◌<◌, [], All, IsTrue, IfOk, OnOk, map as each, unsigned_abs};
ghost use Rattle.std.specs.List.{AllByRecursion};
ghost use Rattle.s3_uploads.specs.Parts.{rises};
ghost use Rattle.s3_uploads.specs.Uploads.{with_part};
ghost use Rattle.s3_rows.specs.Meaning.{part_of};
ghost use Rattle.s3_rows.specs.ListLaws.{part_told, upload_listed};
ghost use Rattle.s3_rows.specs.ReadingLaws.{numbered_part};
ghost use Rattle.s3_rows.specs.Soundness.{is_part_row};
ghost use Rattle.s3_rows.specs.UploadLaws.{upload_begun};
ghost use Rattle.s3_stored_bodies.specs.Numbers.{Contents, StillOutlive};
ghost use Rattle.s3_stored_rows.specs.Bodies.{encoding, part_numbers};
ghost use Rattle.s3_stored_rows.specs.Changes.{upload_columns, part_columns};

use crate::bytes::body_in;
use crate::columns::{digest_in, kept_in, key_in, moment_in, part_number_in};
use s3_bodies::Body;
use s3_names::{Tag, UploadId};
use s3_records::UploadRow;
use s3_stored_bodies::StoredBodies;
use s3_stored_rows::{StoredPart, StoredUpload};
use s3_terms::NoMemory;
use s3_uploads::{Part, PartRow, Upload};
use std::alloc::Global;

/// What a list tells of an upload.
pub fn upload_row_from(alloc: Global, row: &StoredUpload) -> Result<UploadRow, NoMemory>
    ensures { IfOk result (λ told. told ≡ upload_listed (upload_columns row.now)) }
{
    let moment = moment_in(row.moment)?;
    match key_in(alloc, row.key.as_slice()) {
        Ok(key) => Ok(UploadRow {
            key,
            id: UploadId::of(row.id.unsigned_abs()),
            moment,
        }),
        Err(failed) => Err(failed),
    }
}

/// What a list tells of a part.
pub fn part_row_from(row: &StoredPart) -> Result<PartRow, NoMemory>
    ensures { (contents : Contents) → IfOk result (λ told. told ≡ part_told (encoding contents) (part_columns row.now)) }
{
    let moment = moment_in(row.moment)?;
    let digest = digest_in(row.digest.as_slice())?;
    Ok(PartRow {
        number: row.part.unsigned_abs(),
        moment,
        tag: Tag::of_digest(digest),
        size: row.size.unsigned_abs(),
    })
}

/// The part that a row is, with its bytes, which are shared and not copied where they lie in memory.
pub fn part_from<B: StoredBodies>(
    alloc: Global,
    bodies: &mut B,
    row: &StoredPart,
) -> Result<Part<Body>, NoMemory>
    requires named { All (λ number. 0 < B.uses bodies.old number) (part_numbers (part_columns row.now)) }
    ensures value { IfOk result (λ part. part ≡ part_of (encoding (B.contents bodies.old)) (part_columns row.now)) }
    ensures contents { B.contents bodies.new ≡ B.contents bodies.old }
    ensures uses { B.uses bodies.new ≡ B.uses bodies.old }
    ensures outlives { StillOutlive B.outlives bodies.old bodies.new }
{
    let moment = moment_in(row.moment)?;
    let digest = digest_in(row.digest.as_slice())?;
    match body_in(alloc, bodies, row.bodies.as_slice()) {
        Ok(body) => Ok(Part {
            digest,
            moment,
            size: row.size.unsigned_abs(),
            body,
        }),
        Err(failed) => Err(failed),
    }
}

/// The upload that a row is, with the parts that these rows are. Their numbers are in range, and rise.
pub fn upload_from<B: StoredBodies>(
    alloc: Global,
    bodies: &mut B,
    row: &StoredUpload,
    parts: &[StoredPart],
) -> Result<Upload<Body>, NoMemory>
    requires named { AllByRecursion (λ (p : StoredPart). All (λ number. 0 < B.uses bodies.old number) (part_numbers (part_columns p))) parts.now }
    requires fit { AllByRecursion (λ (p : StoredPart). IsTrue (is_part_row (part_columns p))) parts.now }
    requires rising { IsTrue (rises (each (λ (p : StoredPart). unsigned_abs p.part) parts.now)) }
    ensures value { IfOk result (λ upload. upload ≡ record (upload_begun (encoding (B.contents bodies.old)) (upload_columns row.now))
        { parts = each (λ (p : StoredPart). numbered_part (encoding (B.contents bodies.old)) (part_columns p)) parts.now }) }
    ensures contents { B.contents bodies.new ≡ B.contents bodies.old }
    ensures uses { B.uses bodies.new ≡ B.uses bodies.old }
    ensures outlives { StillOutlive B.outlives bodies.old bodies.new }
{
    let mut upload = begun(alloc, row)?;
    match put_parts(alloc, bodies, &mut upload, parts) {
        Ok(()) => Ok(upload),
        Err(failed) => {
            drop(upload);
            Err(failed)
        }
    }
}

// The upload that a row begins, without parts.
fn begun(alloc: Global, row: &StoredUpload) -> Result<Upload<Body>, NoMemory>
    ensures { (contents : Contents) → IfOk result (λ upload. upload ≡ upload_begun (encoding contents) (upload_columns row.now)) }
{
    let moment = moment_in(row.moment)?;
    match kept_in(alloc, row.kept.as_slice()) {
        Ok(kept) => Ok(Upload::new(alloc, moment, kept.content_type, kept.metadata)),
        Err(failed) => Err(failed),
    }
}

// Puts the parts that these rows are to an upload without parts. Their numbers rise.
fn put_parts<B: StoredBodies>(
    alloc: Global,
    bodies: &mut B,
    upload: &mut Upload<Body>,
    parts: &[StoredPart],
) -> Result<(), NoMemory>
    requires named { AllByRecursion (λ (p : StoredPart). All (λ number. 0 < B.uses bodies.old number) (part_numbers (part_columns p))) parts.now }
    requires rising { IsTrue (rises (each (λ (p : StoredPart). unsigned_abs p.part) parts.now)) }
    requires none { upload.old.parts ≡ [] }
    ensures ok { OnOk result (upload.new ≡ record upload.old
        { parts = each (λ (p : StoredPart). numbered_part (encoding (B.contents bodies.old)) (part_columns p)) parts.now }) }
    ensures contents { B.contents bodies.new ≡ B.contents bodies.old }
    ensures uses { B.uses bodies.new ≡ B.uses bodies.old }
    ensures outlives { StillOutlive B.outlives bodies.old bodies.new }
{
    for part in parts {
        put_part(alloc, bodies, upload, part)?;
    }
    Ok(())
}

// Puts the part that a row is to an upload.
fn put_part<B: StoredBodies>(
    alloc: Global,
    bodies: &mut B,
    upload: &mut Upload<Body>,
    row: &StoredPart,
) -> Result<(), NoMemory>
    requires { All (λ number. 0 < B.uses bodies.old number) (part_numbers (part_columns row.now)) }
    ensures ok { OnOk result (upload.new
        ≡ with_part (unsigned_abs row.now.part) (part_of (encoding (B.contents bodies.old)) (part_columns row.now)) upload.old) }
    ensures contents { B.contents bodies.new ≡ B.contents bodies.old }
    ensures uses { B.uses bodies.new ≡ B.uses bodies.old }
    ensures outlives { StillOutlive B.outlives bodies.old bodies.new }
{
    let number = part_number_in(row.part)?;
    let part = part_from(alloc, bodies, row)?;
    match upload.put_part(number, part) {
        Ok(former) => {
            drop(former);
            Ok(())
        }
        Err(failed) => Err(failed),
    }
}
