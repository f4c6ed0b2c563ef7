//! Rows from a place on, where a place is that of a list.
ghost use Rattle.std.specs.Prelude.{◌≡◌, ◌&&◌, filter, map, take, IfOk};
ghost use Rattle.sqlite_keyed.specs.Lists.{sort_by};
ghost use Rattle.s3_records.specs.Rows.{is_from};
ghost use Rattle.s3_rows.specs.Finding.{is_in, is_upload_in};
ghost use Rattle.s3_rows.specs.ListLaws.{by_key_and_id};
ghost use Rattle.s3_rows.specs.VersionListLaws.{by_key_and_number};
ghost use Rattle.s3_stored_rows.specs.Changes.{upload_columns, version_columns};
ghost use Rattle.s3_stored_rows.specs.Leaving.{LeavesNoMore};

use s3_records::Start;
use s3_stored_rows::{StoredRows, StoredUpload, StoredVersion};
use s3_terms::NoMemory;
use std::alloc::Global;

/// The uploads in a bucket to the keys from a place on, by key and by id, and at most so many.
pub(crate) fn uploads_found<R: StoredRows>(
    rows: &mut R,
    alloc: Global,
    bucket: &[u8],
    start: &Start,
    limit: u32,
) -> Result<Vec<StoredUpload>, NoMemory>
    ensures value { IfOk result (λ all. map upload_columns all.items
        ≡ take limit (sort_by by_key_and_id (filter (λ u. is_upload_in bucket.now u && is_from start.now u.key) (R.tables rows.old).uploads))) }
    ensures same { R.tables rows.new ≡ R.tables rows.old }
    ensures stays { LeavesNoMore R.leaves rows.old rows.new }
{
    match start {
        Start::First => rows.uploads_from(alloc, bucket, &[], limit),
        Start::From(first) => rows.uploads_from(alloc, bucket, first.as_bytes(), limit),
        Start::Behind(last) => rows.uploads_behind(alloc, bucket, last.as_bytes(), limit),
    }
}

/// The versions in a bucket under the keys from a place on, by key and newest first, and at most so many.
pub(crate) fn versions_found<R: StoredRows>(
    rows: &mut R,
    alloc: Global,
    bucket: &[u8],
    start: &Start,
    limit: u32,
) -> Result<Vec<StoredVersion>, NoMemory>
    ensures value { IfOk result (λ all. map version_columns all.items
        ≡ take limit (sort_by by_key_and_number (filter (λ v. is_in bucket.now v && is_from start.now v.key) (R.tables rows.old).versions))) }
    ensures same { R.tables rows.new ≡ R.tables rows.old }
    ensures stays { LeavesNoMore R.leaves rows.old rows.new }
{
    match start {
        Start::First => rows.versions_from(alloc, bucket, &[], limit),
        Start::From(first) => rows.versions_from(alloc, bucket, first.as_bytes(), limit),
        Start::Behind(last) => rows.versions_behind(alloc, bucket, last.as_bytes(), limit),
    }
}
