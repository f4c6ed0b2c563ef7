//! Values as rows.
ghost use Rattle.std.specs.Prelude.{◌≡◌, [], pos, IfOk};
ghost use Rattle.s3_columns.specs.Attributes.{content_type_in, metadata_in};
ghost use Rattle.s3_columns.specs.Numbers.{numbers_in};
ghost use Rattle.s3_versions.specs.Rules.{new_id};
ghost use Rattle.s3_rows.specs.Finding.{id_column};
ghost use Rattle.s3_stored_rows.specs.Changes.{bucket_columns, version_columns, upload_columns, part_columns};
ghost use Rattle.s3_row_values.specs.Values.{IsBucketRow, IsVersionRow, IsMarkerRow, IsUploadRow, IsPartRow};

use crate::columns::{MARKER, NO_MARKER, copied, number_column, numbers_column, version_id_column};
use crate::described::{Described, DescribedPart};
use s3_bodies::Body;
use s3_calendar::Moment;
use s3_columns::{write_kept, write_mode};
use s3_names::{BucketName, Key, PartNumber, UploadId};
use s3_stored_rows::{StoredBucket, StoredPart, StoredUpload, StoredVersion};
use s3_terms::NoMemory;
use s3_uploads::Upload;
use s3_versions::Versioning;
use std::alloc::Global;

/// The columns of a version that say where it stands, and which entry made it.
#[derive(Drop)]
struct PlaceColumns {
    bucket: Vec<u8>,
    key: Vec<u8>,
    number: i64,
    id: i64,
    moment: i64,
}

/// The columns of a version that say what it is.
#[derive(Drop)]
struct ContentColumns {
    marker: i64,
    tag: Vec<u8>,
    kept: Vec<u8>,
    size: i64,
    bodies: Vec<u8>,
}

/// The row of a bucket that was made at this moment and has this versioning.
pub fn bucket_row(
    alloc: Global,
    row: i64,
    name: &BucketName,
    made: Moment,
    versioning: Versioning,
) -> Result<StoredBucket, NoMemory>
    ensures { IfOk result (λ b. IsBucketRow (bucket_columns b) row name.now made versioning) }
{
    let made = number_column(made.seconds())?;
    let name = copied(alloc, name.as_bytes())?;
    Ok(StoredBucket {
        row,
        name,
        made,
        mode: write_mode(versioning),
    })
}

/// The row of the version that the entry of this number puts under a key of a bucket with this versioning. Its bytes stand under
/// these numbers of bodies. A number of an entry that is 2^63 or more has no row.
pub fn version_row(
    alloc: Global,
    row: i64,
    bucket: &BucketName,
    key: &Key,
    versioning: Versioning,
    number: u64,
    moment: Moment,
    described: &Described,
    numbers: &[u64],
) -> Result<StoredVersion, NoMemory>
    ensures { IfOk result (λ v. IsVersionRow (version_columns v) row bucket.now key.now versioning number moment described.now numbers.now) }
{
    let place = place_columns(alloc, bucket, key, versioning, number, moment)?;
    let content = stored_columns(alloc, described, numbers)?;
    Ok(row_of(row, place, content))
}

/// The row of the delete marker that the entry of this number makes there.
pub fn marker_row(
    alloc: Global,
    row: i64,
    bucket: &BucketName,
    key: &Key,
    versioning: Versioning,
    number: u64,
    moment: Moment,
) -> Result<StoredVersion, NoMemory>
    ensures { IfOk result (λ v. IsMarkerRow (version_columns v) row bucket.now key.now versioning number moment) }
{
    let place = place_columns(alloc, bucket, key, versioning, number, moment)?;
    Ok(row_of(row, place, marker_columns(alloc)))
}

/// The row of an upload, without its parts.
pub fn upload_row(
    alloc: Global,
    row: i64,
    bucket: &BucketName,
    key: &Key,
    id: UploadId,
    upload: &Upload<Body>,
) -> Result<StoredUpload, NoMemory>
    ensures { IfOk result (λ u. IsUploadRow (upload_columns u) row bucket.now key.now id upload.now) }
{
    let id = number_column(id.number())?;
    let moment = number_column(upload.moment.seconds())?;
    let bucket = copied(alloc, bucket.as_bytes())?;
    let key = copied(alloc, key.as_bytes())?;
    let kept = write_kept(alloc, &upload.content_type, &upload.metadata)?;
    Ok(StoredUpload {
        row,
        bucket,
        key,
        id,
        moment,
        kept,
    })
}

/// The row of a part of the upload in a row. Its bytes stand under these numbers of bodies.
pub fn part_row(
    alloc: Global,
    row: i64,
    upload: i64,
    number: PartNumber,
    described: &DescribedPart,
    numbers: &[u64],
) -> Result<StoredPart, NoMemory>
    ensures { IfOk result (λ p. IsPartRow (part_columns p) row upload number described.now numbers.now) }
{
    let moment = number_column(described.moment.seconds())?;
    let size = number_column(described.size)?;
    let digest = copied(alloc, &described.digest)?;
    let bodies = numbers_column(alloc, numbers)?;
    Ok(StoredPart {
        row,
        upload,
        part: i64::from(number.get()),
        digest,
        moment,
        size,
        bodies,
    })
}

// Where a version stands that an entry makes.
fn place_columns(
    alloc: Global,
    bucket: &BucketName,
    key: &Key,
    versioning: Versioning,
    number: u64,
    moment: Moment,
) -> Result<PlaceColumns, NoMemory>
    ensures bucket { IfOk result (λ place. place.bucket.items ≡ bucket.now) }
    ensures key { IfOk result (λ place. place.key.items ≡ key.now) }
    ensures number { IfOk result (λ place. place.number ≡ pos number) }
    ensures id { IfOk result (λ place. place.id ≡ id_column (new_id versioning number)) }
    ensures moment { IfOk result (λ place. place.moment ≡ pos moment) }
{
    let id = version_id_column(versioning.new_id(number))?;
    let number = number_column(number)?;
    let moment = number_column(moment.seconds())?;
    let bucket = copied(alloc, bucket.as_bytes())?;
    let key = copied(alloc, key.as_bytes())?;
    Ok(PlaceColumns {
        bucket,
        key,
        number,
        id,
        moment,
    })
}

// What a version is that a put stored.
fn stored_columns(
    alloc: Global,
    described: &Described,
    numbers: &[u64],
) -> Result<ContentColumns, NoMemory>
    ensures marker { IfOk result (λ content. content.marker ≡ pos 0) }
    ensures tag { IfOk result (λ content. content.tag.items ≡ described.now.tag) }
    ensures content_type { IfOk result (λ content. content_type_in content.kept.items ≡ described.now.content_type) }
    ensures metadata { IfOk result (λ content. metadata_in content.kept.items ≡ described.now.metadata) }
    ensures size { IfOk result (λ content. content.size ≡ pos described.now.size) }
    ensures bodies { IfOk result (λ content. numbers_in content.bodies.items ≡ numbers.now) }
{
    let size = number_column(described.size)?;
    let tag = copied(alloc, described.tag.text().as_bytes())?;
    let kept = write_kept(alloc, &described.content_type, &described.metadata)?;
    let bodies = numbers_column(alloc, numbers)?;
    Ok(ContentColumns {
        marker: NO_MARKER,
        tag,
        kept,
        size,
        bodies,
    })
}

// What a delete marker is, which takes no memory.
fn marker_columns(alloc: Global) -> ContentColumns
    ensures marker { result.marker ≡ pos 1 }
    ensures size { result.size ≡ pos 0 }
    ensures bodies { result.bodies.items ≡ [] }
{
    ContentColumns {
        marker: MARKER,
        tag: Vec::new(alloc),
        kept: Vec::new(alloc),
        size: 0,
        bodies: Vec::new(alloc),
    }
}

// The row of a version that stands there and is that.
fn row_of(row: i64, place: PlaceColumns, content: ContentColumns) -> StoredVersion
    ensures { version_columns result ≡ record {
      row = row;
      bucket = place.bucket.items;
      key = place.key.items;
      number = place.number;
      id = place.id;
      moment = place.moment;
      marker = content.marker;
      tag = content.tag.items;
      kept = content.kept.items;
      size = content.size;
      bodies = content.bodies.items;
    } }
{
    StoredVersion {
        row,
        bucket: place.bucket,
        key: place.key,
        number: place.number,
        id: place.id,
        moment: place.moment,
        marker: content.marker,
        tag: content.tag,
        kept: content.kept,
        size: content.size,
        bodies: content.bodies,
    }
}
