//! Changes that bring bytes: these are kept under a number first, then the rows change, and what they no more name goes last.
ghost use Rattle.std.specs.Prelude.{◌≡◌, ℤ, pos, ◌+ℤ◌, IsTrue};
ghost use Rattle.s3_versions.specs.Rules.{is_new_number, VersionPut};
ghost use Rattle.s3_versions.specs.declared.version.Data.{Data};
ghost use Rattle.s3_records.specs.Catalogue.{has_bucket, versions_of};
ghost use Rattle.s3_records.specs.Changes.{KeyChanged};
ghost use Rattle.s3_stored_bodies.specs.Numbers.{StillOutlive};
ghost use Rattle.s3_stored_rows.specs.Leaving.{LeavesNoMore};
ghost use Rattle.s3_table_records.specs.Kept.{kept, catalogue, IsKept, Changes};

use s3_bodies::Body;
use s3_calendar::Moment;
use s3_names::{BucketName, Key};
use s3_row_steps as steps;
use s3_row_values::Described;
use s3_rows::{rows_tell_buckets, rows_tell_versions};
use s3_stored_bodies::{StoredBodies, give_up_all};
use s3_stored_rows::StoredRows;
use s3_terms::NoMemory;
use s3_versions::Data;
use std::alloc::Global;

/// Puts a version, as `Records::put_version` says. Its row gets the rowid `next`.
pub(crate) fn put_version<R: StoredRows, B: StoredBodies>(
    rows: &mut R,
    bodies: &mut B,
    alloc: Global,
    next: i64,
    bucket: &BucketName,
    key: &Key,
    number: u64,
    moment: Moment,
    stored: Data<Body>,
) -> Result<(), NoMemory>
    requires kept { IsKept (kept (R.tables rows.old) (B.contents bodies.old) (B.uses bodies.old) next) }
    requires there { IsTrue (has_bucket (catalogue (kept (R.tables rows.old) (B.contents bodies.old) (B.uses bodies.old) next)) bucket.now) }
    requires newer { IsTrue (is_new_number number (versions_of (catalogue (kept (R.tables rows.old) (B.contents bodies.old) (B.uses bodies.old) next)) bucket.now key.now)) }
    ensures changes { Changes (kept (R.tables rows.old) (B.contents bodies.old) (B.uses bodies.old) next)
        (kept (R.tables rows.new) (B.contents bodies.new) (B.uses bodies.new) (next +ℤ pos 1))
        bucket.now (KeyChanged key.now (VersionPut number moment stored)) result }
    ensures stays { LeavesNoMore R.leaves rows.old rows.new }
    ensures outlives { StillOutlive B.outlives bodies.old bodies.new }
{
    let Data {
        tag,
        size,
        content_type,
        metadata,
        body,
    } = stored;
    let described = Described {
        tag,
        size,
        content_type,
        metadata,
    };
    put_described(
        rows, bodies, alloc, next, bucket, key, number, moment, &described, body,
    )
}

// The same of what is stored, taken apart.
fn put_described<R: StoredRows, B: StoredBodies>(
    rows: &mut R,
    bodies: &mut B,
    alloc: Global,
    next: i64,
    bucket: &BucketName,
    key: &Key,
    number: u64,
    moment: Moment,
    described: &Described,
    body: Body,
) -> Result<(), NoMemory>
    requires kept { IsKept (kept (R.tables rows.old) (B.contents bodies.old) (B.uses bodies.old) next) }
    requires there { IsTrue (has_bucket (catalogue (kept (R.tables rows.old) (B.contents bodies.old) (B.uses bodies.old) next)) bucket.now) }
    requires newer { IsTrue (is_new_number number (versions_of (catalogue (kept (R.tables rows.old) (B.contents bodies.old) (B.uses bodies.old) next)) bucket.now key.now)) }
    ensures changes { Changes (kept (R.tables rows.old) (B.contents bodies.old) (B.uses bodies.old) next)
        (kept (R.tables rows.new) (B.contents bodies.new) (B.uses bodies.new) (next +ℤ pos 1))
        bucket.now (KeyChanged key.now (VersionPut number moment (record { tag = described.now.tag; size = described.now.size; content_type = described.now.content_type; metadata = described.now.metadata; body = body }))) result }
    ensures stays { LeavesNoMore R.leaves rows.old rows.new }
    ensures outlives { StillOutlive B.outlives bodies.old bodies.new }
{
    rows_tell_buckets();
    rows_tell_versions();
    let held = match bodies.keep(alloc, body) {
        Ok(held) => held,
        Err(failed) => return Err(failed),
    };
    match steps::put_version(
        rows,
        alloc,
        next,
        bucket,
        key,
        number,
        moment,
        described,
        &[held],
    ) {
        Ok(gone) => {
            give_up_all(bodies, gone.as_slice());
            Ok(())
        }
        Err(failed) => {
            bodies.give_up(held);
            Err(failed)
        }
    }
}
