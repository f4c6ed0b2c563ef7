//! What is asked of one version.
ghost use Rattle.std.specs.Prelude.{◌≡◌, ◌≤◌, ℕ, ℤ, IfOk, IfSome, option_map};
ghost use Rattle.s3_versions.specs.Rules.{asked_for};
ghost use Rattle.s3_records.specs.Catalogue.{versions_of};
ghost use Rattle.s3_rows.specs.Meaning.{version_of, catalogue_of};
ghost use Rattle.s3_stored_bodies.specs.Numbers.{Contents, times, StillOutlive};
ghost use Rattle.s3_stored_rows.specs.Bodies.{encoding, version_numbers, numbers_named};
ghost use Rattle.s3_stored_rows.specs.Changes.{version_columns};
ghost use Rattle.s3_stored_rows.specs.Leaving.{LeavesNoMore};
ghost use Rattle.s3_row_steps.specs.Steps.{AreKept};
ghost use Rattle.s3_table_records.specs.Kept.{kept, catalogue, IsKept};

use s3_bodies::Body;
use s3_names::{BucketName, Key, VersionId};
use s3_row_steps as steps;
use s3_row_values::version_from;
use s3_rows::rows_tell_versions;
use s3_stored_bodies::StoredBodies;
use s3_stored_rows::{StoredRows, StoredVersion};
use s3_terms::NoMemory;
use s3_versions::Version;
use std::alloc::Global;

/// The version that a request asks for, with its bytes, as `Records::version` says.
pub(crate) fn version<R: StoredRows, B: StoredBodies>(
    rows: &mut R,
    bodies: &mut B,
    alloc: Global,
    next: i64,
    bucket: &BucketName,
    key: &Key,
    asked: Option<VersionId>,
) -> Result<Option<Version<Body>>, NoMemory>
    requires kept { IsKept (kept (R.tables rows.old) (B.contents bodies.old) (B.uses bodies.old) next) }
    ensures value { IfOk result (λ found. found
        ≡ asked_for asked (versions_of (catalogue (kept (R.tables rows.old) (B.contents bodies.old) (B.uses bodies.old) next)) bucket.now key.now)) }
    ensures tables { R.tables rows.new ≡ R.tables rows.old }
    ensures contents { B.contents bodies.new ≡ B.contents bodies.old }
    ensures uses { B.uses bodies.new ≡ B.uses bodies.old }
    ensures stays { LeavesNoMore R.leaves rows.old rows.new }
    ensures outlives { StillOutlive B.outlives bodies.old bodies.new }
{
    match found(rows, bucket, key, asked)? {
        None => Ok(None),
        Some(row) => {
            let version = version_from(alloc, bodies, &row)?;
            Ok(Some(version))
        }
    }
}

/// The row of that version, whose numbers of bodies are among those that rows name; `None` where there is none.
pub(crate) fn found<R: StoredRows>(
    rows: &mut R,
    bucket: &BucketName,
    key: &Key,
    asked: Option<VersionId>,
) -> Result<Option<StoredVersion>, NoMemory>
    requires kept { (next : ℤ) × AreKept next (R.tables rows.old) }
    ensures value { (contents : Contents) → IfOk result (λ found. option_map (λ (v : StoredVersion). version_of (encoding contents) (version_columns v)) found
        ≡ asked_for asked (versions_of (catalogue_of (encoding contents) (R.tables rows.old)) bucket.now key.now)) }
    ensures counted { IfOk result (λ found. IfSome found (λ v. (n : ℕ) → times n (version_numbers (version_columns v)) ≤ times n (numbers_named (R.tables rows.old)))) }
    ensures same { R.tables rows.new ≡ R.tables rows.old }
    ensures stays { LeavesNoMore R.leaves rows.old rows.new }
{
    rows_tell_versions();
    match asked {
        None => rows.newest(bucket.as_bytes(), key.as_bytes()),
        Some(_) => steps::found_version(rows, bucket, key, asked),
    }
}
