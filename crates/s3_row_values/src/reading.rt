//! What the rows of buckets and versions say. A column that can't be read answers `NoMemory`: a keeper of rows has none.
ghost use Rattle.std.specs.Prelude.{◌≡◌, ◌<◌, ℕ, List, All, IfOk, Some, None, Err, option_map};
ghost use Rattle.std.specs.Option.{option_copied};
ghost use Rattle.s3_versions.specs.declared.version.Data.{Data};
ghost use Rattle.s3_versions.specs.declared.version.Version.{Version};
ghost use Rattle.s3_versions.specs.Rules.{judged, facts_read, facts_of, id_of, stored};
ghost use Rattle.s3_records.specs.Rows.{version_row};
ghost use Rattle.s3_rows.specs.Meaning.{version_of, content_of, data_of};
ghost use Rattle.s3_rows.specs.ReadingLaws.{row_facts, row_listed};
ghost use Rattle.s3_rows.specs.KeyListLaws.{key_listed};
ghost use Rattle.s3_stored_bodies.specs.Numbers.{Contents, StillOutlive};
ghost use Rattle.s3_stored_rows.specs.Bodies.{encoding, version_numbers};
ghost use Rattle.s3_stored_rows.specs.Changes.{bucket_columns, version_columns};

use crate::bytes::body_in;
use crate::columns::{MARKER, kept_in, key_in, moment_in, name_in, tag_in, versioning_in};
use s3_bodies::Body;
use s3_names::VersionId;
use s3_records::{BucketFacts, KeyRow, ListedBucket, VersionRow};
use s3_stored_bodies::StoredBodies;
use s3_stored_rows::{StoredBucket, StoredVersion};
use s3_terms::{Code, NoMemory};
use s3_versions::{Content, Data, Facts, Refusal, Version, read_facts};
use std::alloc::Global;

/// What stands in the column of an id for `null`.
const NULL_ID: i64 = -1;

/// What is told of a bucket.
pub fn bucket_facts(row: &StoredBucket) -> Result<BucketFacts, NoMemory>
    ensures { (contents : Contents) → IfOk result (λ facts. facts ≡ row_facts (encoding contents) (bucket_columns row.now)) }
{
    let made = moment_in(row.made)?;
    Ok(BucketFacts {
        made,
        versioning: versioning_in(row.mode),
    })
}

/// A bucket in the list of all.
pub fn listed_bucket(alloc: Global, row: &StoredBucket) -> Result<ListedBucket, NoMemory>
    ensures { IfOk result (λ listed. listed ≡ row_listed (bucket_columns row.now)) }
{
    let made = moment_in(row.made)?;
    match name_in(alloc, row.name.as_slice()) {
        Ok(name) => Ok(ListedBucket { name, made }),
        Err(failed) => Err(failed),
    }
}

/// The version that a row is, with its bytes, which are shared and not copied where they lie in memory.
pub fn version_from<B: StoredBodies>(
    alloc: Global,
    bodies: &mut B,
    row: &StoredVersion,
) -> Result<Version<Body>, NoMemory>
    requires named { All (λ number. 0 < B.uses bodies.old number) (version_numbers (version_columns row.now)) }
    ensures value { IfOk result (λ version. version ≡ version_of (encoding (B.contents bodies.old)) (version_columns row.now)) }
    ensures contents { B.contents bodies.new ≡ B.contents bodies.old }
    ensures uses { B.uses bodies.new ≡ B.uses bodies.old }
    ensures outlives { StillOutlive B.outlives bodies.old bodies.new }
{
    let moment = moment_in(row.moment)?;
    match content_from(alloc, bodies, row) {
        Ok(content) => Ok(Version {
            moment,
            content,
            is_null: row.id == NULL_ID,
            number: row.number.unsigned_abs(),
        }),
        Err(failed) => Err(failed),
    }
}

/// What is known of the version that a request reads, where this is the row of what it asks for; or why none is read.
pub fn facts_from(
    asked: Option<VersionId>,
    row: Option<&StoredVersion>,
) -> Result<Result<Facts, Refusal>, NoMemory>
    ensures { (contents : Contents) → IfOk result (λ facts. facts
        ≡ facts_read (judged asked (option_map (λ (v : StoredVersion). version_of (encoding contents) (version_columns v)) (option_copied row.entry)))) }
{
    let Some(row) = row else {
        return Ok(read_facts::<Body>(asked, None));
    };
    match facts_in(row)? {
        Some(facts) => Ok(Ok(facts)),
        None => Ok(Err(marker_refusal(asked))),
    }
}

/// What a list tells of a key whose newest version this is.
pub fn key_row_from(alloc: Global, row: &StoredVersion) -> Result<KeyRow, NoMemory>
    ensures { (contents : Contents) → IfOk result (λ told. told ≡ key_listed (encoding contents) (version_columns row.now)) }
{
    let facts = facts_in(row)?;
    match key_in(alloc, row.key.as_slice()) {
        Ok(key) => Ok(KeyRow { key, facts }),
        Err(failed) => Err(failed),
    }
}

/// What a list tells of a version.
pub fn version_row_from(
    alloc: Global,
    is_latest: bool,
    row: &StoredVersion,
) -> Result<VersionRow, NoMemory>
    ensures { (contents : Contents) → IfOk result (λ told. told
        ≡ version_row row.now.key.items is_latest (version_of (encoding contents) (version_columns row.now))) }
{
    let moment = moment_in(row.moment)?;
    let facts = facts_in(row)?;
    match key_in(alloc, row.key.as_slice()) {
        Ok(key) => Ok(VersionRow {
            key,
            id: id_of(row),
            is_latest,
            moment,
            facts,
        }),
        Err(failed) => Err(failed),
    }
}

// What a version is, with its bytes.
fn content_from<B: StoredBodies>(
    alloc: Global,
    bodies: &mut B,
    row: &StoredVersion,
) -> Result<Content<Body>, NoMemory>
    requires { All (λ number. 0 < B.uses bodies.old number) (version_numbers (version_columns row.now)) }
    ensures value { IfOk result (λ content. content ≡ content_of (encoding (B.contents bodies.old)) (version_columns row.now)) }
    ensures contents { B.contents bodies.new ≡ B.contents bodies.old }
    ensures uses { B.uses bodies.new ≡ B.uses bodies.old }
    ensures outlives { StillOutlive B.outlives bodies.old bodies.new }
{
    if row.marker == MARKER {
        return Ok(Content::DeleteMarker);
    }
    match data_from(alloc, bodies, row) {
        Ok(stored) => Ok(Content::Stored(stored)),
        Err(failed) => Err(failed),
    }
}

// What a put stored, with the bytes.
fn data_from<B: StoredBodies>(
    alloc: Global,
    bodies: &mut B,
    row: &StoredVersion,
) -> Result<Data<Body>, NoMemory>
    requires { All (λ number. 0 < B.uses bodies.old number) (version_numbers (version_columns row.now)) }
    ensures value { IfOk result (λ stored. stored ≡ data_of (encoding (B.contents bodies.old)) (version_columns row.now)) }
    ensures contents { B.contents bodies.new ≡ B.contents bodies.old }
    ensures uses { B.uses bodies.new ≡ B.uses bodies.old }
    ensures outlives { StillOutlive B.outlives bodies.old bodies.new }
{
    let tag = tag_in(row.tag.as_slice())?;
    let kept = kept_in(alloc, row.kept.as_slice())?;
    match body_in(alloc, bodies, row.bodies.as_slice()) {
        Ok(body) => Ok(Data {
            tag,
            size: row.size.unsigned_abs(),
            content_type: kept.content_type,
            metadata: kept.metadata,
            body,
        }),
        Err(failed) => Err(failed),
    }
}

// What is known of a version; `None` where it is a delete marker.
fn facts_in(row: &StoredVersion) -> Result<Option<Facts>, NoMemory>
    ensures { (contents : Contents) → let version = version_of (encoding contents) (version_columns row.now) in
        IfOk result (λ facts. facts ≡ option_map (λ (what : Data (List ℕ)). facts_of (version, what)) (stored version)) }
{
    if row.marker == MARKER {
        return Ok(None);
    }
    let moment = moment_in(row.moment)?;
    let tag = tag_in(row.tag.as_slice())?;
    Ok(Some(Facts {
        moment,
        tag,
        size: row.size.unsigned_abs(),
    }))
}

// The id of a version.
fn id_of(row: &StoredVersion) -> VersionId
    ensures { (contents : Contents) → result ≡ id_of (version_of (encoding contents) (version_columns row.now)) }
{
    if row.id == NULL_ID {
        VersionId::Null
    } else {
        VersionId::of(row.number.unsigned_abs())
    }
}

// The refusal where the version is a delete marker.
fn marker_refusal(asked: Option<VersionId>) -> Refusal
    ensures { (v : Version (List ℕ)) → stored v ≡ None → judged asked (Some v) ≡ Err result }
{
    let code = match asked {
        None => Code::NoSuchKey,
        Some(_) => Code::MethodNotAllowed,
    };
    Refusal {
        code,
        is_delete_marker: true,
    }
}
