//! A copy of an object: the bodies that its source names are named once more, then the rows change, and what they no more name goes
//! last. No byte is copied or written.
ghost use Rattle.std.specs.Prelude.{◌≡◌, ◌<◌, ◌≤◌, ℕ, ℤ, pos, List, ◌+ℤ◌, All, Some, IsTrue, IfOk};
ghost use Rattle.s3_versions.specs.Rules.{is_new_number, VersionPut};
ghost use Rattle.s3_records.specs.Catalogue.{has_bucket, versions_of, bytes_asked};
ghost use Rattle.s3_records.specs.Changes.{KeyChanged};
ghost use Rattle.s3_rows.specs.Meaning.{catalogue_of};
ghost use Rattle.s3_stored_bodies.specs.Numbers.{Contents, times, StillOutlive};
ghost use Rattle.s3_stored_rows.specs.Bodies.{encoding, numbers_named};
ghost use Rattle.s3_stored_rows.specs.Leaving.{LeavesNoMore};
ghost use Rattle.s3_row_values.specs.Values.{bytes_of, data_with};
ghost use Rattle.s3_row_steps.specs.Steps.{AreKept};
ghost use Rattle.s3_table_records.specs.Kept.{kept, catalogue, IsKept, Changes};

use crate::named::version_names;
use crate::reading::found;
use s3_bodies::Body;
use s3_calendar::Moment;
use s3_names::{BucketName, Key, VersionId};
use s3_row_steps as steps;
use s3_row_values::Described;
use s3_rows::{rows_tell_buckets, rows_tell_versions};
use s3_stored_bodies::{StoredBodies, give_up_all, share_all};
use s3_stored_rows::StoredRows;
use s3_terms::NoMemory;
use s3_versions::Data;
use std::alloc::Global;

/// Puts a version whose bytes are those of a source's, as `Records::put_copy` says. Its row gets the rowid `next`.
pub(crate) fn put_copy<R: StoredRows, B: StoredBodies>(
    rows: &mut R,
    bodies: &mut B,
    alloc: Global,
    next: i64,
    source: &BucketName,
    source_key: &Key,
    asked: Option<VersionId>,
    bucket: &BucketName,
    key: &Key,
    number: u64,
    moment: Moment,
    stored: Data<Body>,
) -> Result<(), NoMemory>
    requires kept { IsKept (kept (R.tables rows.old) (B.contents bodies.old) (B.uses bodies.old) next) }
    requires there { IsTrue (has_bucket (catalogue (kept (R.tables rows.old) (B.contents bodies.old) (B.uses bodies.old) next)) bucket.now) }
    requires newer { IsTrue (is_new_number number (versions_of (catalogue (kept (R.tables rows.old) (B.contents bodies.old) (B.uses bodies.old) next)) bucket.now key.now)) }
    requires copied { bytes_asked (catalogue (kept (R.tables rows.old) (B.contents bodies.old) (B.uses bodies.old) next)) source.now source_key.now asked ≡ Some stored.body }
    ensures changes { Changes (kept (R.tables rows.old) (B.contents bodies.old) (B.uses bodies.old) next)
        (kept (R.tables rows.new) (B.contents bodies.new) (B.uses bodies.new) (next +ℤ pos 1))
        bucket.now (KeyChanged key.now (VersionPut number moment stored)) result }
    ensures stays { LeavesNoMore R.leaves rows.old rows.new }
    ensures outlives { StillOutlive B.outlives bodies.old bodies.new }
{
    let Data {
        tag,
        size,
        content_type,
        metadata,
        body: _,
    } = stored;
    let described = Described {
        tag,
        size,
        content_type,
        metadata,
    };
    put_described(
        rows, bodies, alloc, next, source, source_key, asked, bucket, key, number, moment,
        &described,
    )
}

// The same of what is stored, taken apart, whose bytes are those of the source.
fn put_described<R: StoredRows, B: StoredBodies>(
    rows: &mut R,
    bodies: &mut B,
    alloc: Global,
    next: i64,
    source: &BucketName,
    source_key: &Key,
    asked: Option<VersionId>,
    bucket: &BucketName,
    key: &Key,
    number: u64,
    moment: Moment,
    described: &Described,
) -> Result<(), NoMemory>
    requires kept { IsKept (kept (R.tables rows.old) (B.contents bodies.old) (B.uses bodies.old) next) }
    requires there { IsTrue (has_bucket (catalogue (kept (R.tables rows.old) (B.contents bodies.old) (B.uses bodies.old) next)) bucket.now) }
    requires newer { IsTrue (is_new_number number (versions_of (catalogue (kept (R.tables rows.old) (B.contents bodies.old) (B.uses bodies.old) next)) bucket.now key.now)) }
    ensures changes { (bytes : List ℕ) → bytes_asked (catalogue (kept (R.tables rows.old) (B.contents bodies.old) (B.uses bodies.old) next)) source.now source_key.now asked ≡ Some bytes
        → Changes (kept (R.tables rows.old) (B.contents bodies.old) (B.uses bodies.old) next)
        (kept (R.tables rows.new) (B.contents bodies.new) (B.uses bodies.new) (next +ℤ pos 1))
        bucket.now (KeyChanged key.now (VersionPut number moment (record { tag = described.now.tag; size = described.now.size; content_type = described.now.content_type; metadata = described.now.metadata; body = bytes }))) result }
    ensures stays { LeavesNoMore R.leaves rows.old rows.new }
    ensures outlives { StillOutlive B.outlives bodies.old bodies.new }
{
    let names = match source_names(rows, alloc, source, source_key, asked) {
        Ok(names) => names,
        Err(failed) => return Err(failed),
    };
    put_shared(
        rows, bodies, alloc, next, bucket, key, number, moment, described, &names,
    )
}

// The numbers that the row of the version names that is asked for under a key; none where there is no such version.
fn source_names<R: StoredRows>(
    rows: &mut R,
    alloc: Global,
    bucket: &BucketName,
    key: &Key,
    asked: Option<VersionId>,
) -> Result<Vec<u64>, NoMemory>
    requires kept { (next : ℤ) × AreKept next (R.tables rows.old) }
    ensures counted { IfOk result (λ names. (n : ℕ) → times n names.items ≤ times n (numbers_named (R.tables rows.old))) }
    ensures bytes { (contents : Contents) (bytes : List ℕ) → bytes_asked (catalogue_of (encoding contents) (R.tables rows.old)) bucket.now key.now asked ≡ Some bytes
        → IfOk result (λ names. bytes_of contents names.items ≡ bytes) }
    ensures same { R.tables rows.new ≡ R.tables rows.old }
    ensures stays { LeavesNoMore R.leaves rows.old rows.new }
{
    let row = match found(rows, bucket, key, asked) {
        Ok(row) => row,
        Err(failed) => return Err(failed),
    };
    version_names(alloc, row.as_ref())
}

// Puts the version where the bytes that are stored stand under these numbers.
fn put_shared<R: StoredRows, B: StoredBodies>(
    rows: &mut R,
    bodies: &mut B,
    alloc: Global,
    next: i64,
    bucket: &BucketName,
    key: &Key,
    number: u64,
    moment: Moment,
    described: &Described,
    names: &[u64],
) -> Result<(), NoMemory>
    requires kept { IsKept (kept (R.tables rows.old) (B.contents bodies.old) (B.uses bodies.old) next) }
    requires there { IsTrue (has_bucket (catalogue (kept (R.tables rows.old) (B.contents bodies.old) (B.uses bodies.old) next)) bucket.now) }
    requires newer { IsTrue (is_new_number number (versions_of (catalogue (kept (R.tables rows.old) (B.contents bodies.old) (B.uses bodies.old) next)) bucket.now key.now)) }
    requires names { All (λ number. 0 < B.uses bodies.old number) names.now }
    ensures changes { Changes (kept (R.tables rows.old) (B.contents bodies.old) (B.uses bodies.old) next)
        (kept (R.tables rows.new) (B.contents bodies.new) (B.uses bodies.new) (next +ℤ pos 1))
        bucket.now (KeyChanged key.now (VersionPut number moment (data_with (B.contents bodies.old) names.now described.now))) result }
    ensures stays { LeavesNoMore R.leaves rows.old rows.new }
    ensures outlives { StillOutlive B.outlives bodies.old bodies.new }
{
    rows_tell_buckets();
    rows_tell_versions();
    if let Err(failed) = share_all(bodies, names) {
        return Err(failed);
    }
    match steps::put_version(
        rows, alloc, next, bucket, key, number, moment, described, names,
    ) {
        Ok(gone) => {
            give_up_all(bodies, gone.as_slice());
            Ok(())
        }
        Err(failed) => {
            give_up_all(bodies, names);
            Err(failed)
        }
    }
}
