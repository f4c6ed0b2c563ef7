//! What stands at a place after changes that aren't made yet.
ghost use Rattle.std.specs.Prelude.{◌≡◌, option_map, IfOk};
ghost use Rattle.std.specs.Option.{option_copied};
ghost use Rattle.s3_rows.specs.Finding.{same_text, has_id, is_version};
ghost use Rattle.s3_stored_rows.specs.Changes.{version_columns};
ghost use Rattle.s3_stored_rows.specs.Leaving.{LeavesNoMore};
ghost use Rattle.s3_stored_rows.specs.Queries.{version_of_id};
ghost use Rattle.s3_row_deletions.specs.Standing.{shown, row_shown, unless_row, found_next, found_after};

use s3_columns::read_numbers;
use s3_stored_rows::{Change, StoredRows, StoredVersion, TableName};
use s3_terms::NoMemory;
use std::alloc::Global;

/// A row of a version that stands at a place: its rowid, the number of the entry that made the version, whether that is a delete
/// marker, and the numbers of its bodies.
#[derive(Drop)]
pub(crate) struct Standing {
    pub(crate) row: i64,
    pub(crate) number: u64,
    pub(crate) is_marker: bool,
    pub(crate) numbers: Vec<u64>,
}

/// The row of the version of an id under a key, as these changes of the rows leave it; `None` where there is none.
pub(crate) fn standing_at<R: StoredRows>(
    rows: &mut R,
    alloc: Global,
    changes: &[Change],
    bucket: &[u8],
    key: &[u8],
    id: i64,
) -> Result<Option<Standing>, NoMemory>
    ensures value { IfOk result (λ found. option_map shown found
        ≡ option_map row_shown (found_after bucket.now key.now id changes.now (version_of_id bucket.now key.now id (R.tables rows.old)))) }
    ensures same { R.tables rows.new ≡ R.tables rows.old }
    ensures stays { LeavesNoMore R.leaves rows.old rows.new }
{
    let before = rows.version(bucket, key, id)?;
    shown_of(
        alloc,
        found_after(before.as_ref(), changes, bucket, key, id),
    )
}

// What is told of a row.
fn shown_of(alloc: Global, found: Option<&StoredVersion>) -> Result<Option<Standing>, NoMemory>
    ensures { IfOk result (λ told. option_map shown told ≡ option_map row_shown (option_map version_columns (option_copied found.entry))) }
{
    let Some(version) = found else {
        return Ok(None);
    };
    let numbers = read_numbers(alloc, version.bodies.as_slice())?;
    Ok(Some(Standing {
        row: version.row,
        number: version.number.unsigned_abs(),
        is_marker: version.marker == 1,
        numbers,
    }))
}

// The version of an id under a key after these changes, where `before` is the one before them.
fn found_after<'a>(
    before: Option<&'a StoredVersion>,
    changes: &'a [Change],
    bucket: &[u8],
    key: &[u8],
    id: i64,
) -> Option<&'a StoredVersion>
    ensures { option_map version_columns (option_copied result)
        ≡ found_after bucket.now key.now id changes.now (option_map version_columns (option_copied before.entry)) }
{
    let mut found = before;
    for change in changes {
        found = found_next(found, change, bucket, key, id);
    }
    found
}

// The same after one change.
fn found_next<'a>(
    before: Option<&'a StoredVersion>,
    change: &'a Change,
    bucket: &[u8],
    key: &[u8],
    id: i64,
) -> Option<&'a StoredVersion>
    ensures { option_map version_columns (option_copied result)
        ≡ found_next bucket.now key.now id change.now (option_map version_columns (option_copied before.entry)) }
{
    match change {
        Change::AddVersion(version) => {
            if is_version(version, bucket, key, id) {
                Some(version)
            } else {
                before
            }
        }
        Change::DropRow(TableName::Versions, row) => unless_row(before, *row),
        _ => before,
    }
}

// The version, unless its row has this rowid.
fn unless_row(found: Option<&StoredVersion>, row: i64) -> Option<&StoredVersion>
    ensures { option_map version_columns (option_copied result) ≡ unless_row row (option_map version_columns (option_copied found.entry)) }
{
    match found {
        None => None,
        Some(version) => { if version.row == row { None } else { found } }
    }
}

// Whether the version stands under a key of a bucket and has this id.
fn is_version(version: &StoredVersion, bucket: &[u8], key: &[u8], id: i64) -> bool
    ensures { result ≡ is_version bucket.now key.now id (version_columns version.now) }
{
    is_same(version.bucket.as_slice(), bucket)
        && is_same(version.key.as_slice(), key)
        && has_id(version, id)
}

// Whether two texts are the same.
fn is_same(text: &[u8], other: &[u8]) -> bool
    ensures { result ≡ same_text text.now other.now }
{
    text == other
}

// Whether the version has this id.
fn has_id(version: &StoredVersion, id: i64) -> bool
    ensures { result ≡ has_id id (version_columns version.now) }
{
    version.id == id
}
