//! The keys of a bucket, each told by its newest version.
ghost use Rattle.std.specs.Prelude.{◌≡◌, ◌≤◌, ◌<◌, ◌++◌, if◌then◌else◌, List, [], ◌∷◌, None, length, map, take, IfOk, OnOk, MatchOption};
ghost use Rattle.std.specs.Option.{option_copied};
ghost use Rattle.s3_records.specs.Rows.{keys_from};
ghost use Rattle.s3_rows.specs.KeyListLaws.{key_listed, keys_listed};
ghost use Rattle.s3_rows.specs.Meaning.{catalogue_of};
ghost use Rattle.s3_rows.specs.Soundness.{AreSound};
ghost use Rattle.s3_rows.specs.VersionListLaws.{is_last};
ghost use Rattle.s3_stored_bodies.specs.Numbers.{Contents};
ghost use Rattle.s3_stored_rows.specs.Bodies.{encoding};
ghost use Rattle.s3_stored_rows.specs.Changes.{version_columns};
ghost use Rattle.s3_stored_rows.specs.Leaving.{LeavesNoMore};
ghost use Rattle.s3_stored_rows.specs.Queries as asked;
ghost use Rattle.s3_stored_rows.specs.declared.rows.StoredVersion.{StoredVersion};

use crate::finding::versions_found;
use crate::last_key::is_last;
use s3_names::BucketName;
use s3_records::{KeyRow, Start};
use s3_row_values::key_row_from;
use s3_stored_rows::{StoredRows, StoredVersion};
use s3_terms::NoMemory;
use std::alloc::Global;

// How many rows of versions are asked for at once.
const PAGE: u32 = 256;

/// The rows of the keys of a bucket from a place on, and at most so many, as `Records::keys_from` tells them. The versions are
/// read in pages of 256 rows, and a page that was full is followed by the rows behind its last key: so a list costs one
/// question for each 256 rows that it goes over, and the older versions of a key are read only up to the end of a page.
pub fn keys_from<R: StoredRows>(
    rows: &mut R,
    alloc: Global,
    bucket: &BucketName,
    start: &Start,
    most: usize,
) -> Result<Vec<KeyRow>, NoMemory>
    requires { AreSound (R.tables rows.old) }
    ensures value { (contents : Contents) → IfOk result (λ told. told.items
        ≡ take most (keys_from (catalogue_of (encoding contents) (R.tables rows.old)) bucket.now start.now)) }
    ensures same { R.tables rows.new ≡ R.tables rows.old }
    ensures stays { LeavesNoMore R.leaves rows.old rows.new }
{
    let bucket = bucket.as_bytes();
    let mut told = Vec::new(alloc);
    let page = versions_found(rows, alloc, bucket, start, PAGE)?;
    match page_told(alloc, &mut told, page, most)? {
        None => Ok(told),
        Some(last) => {
            add_behind(rows, alloc, &mut told, bucket, last, most)?;
            Ok(told)
        }
    }
}

// Adds the rows of the keys behind one, until there are so many.
fn add_behind<R: StoredRows>(
    rows: &mut R,
    alloc: Global,
    told: &mut Vec<KeyRow>,
    bucket: &[u8],
    key: Vec<u8>,
    most: usize,
) -> Result<(), NoMemory>
    requires { length told.old.items ≤ most }
    ensures value { (contents : Contents) → OnOk result (told.new.items
        ≡ take most (told.old.items ++ keys_listed (encoding contents) None (asked.versions_behind bucket.now key.items (R.tables rows.old)))) }
    ensures same { R.tables rows.new ≡ R.tables rows.old }
    ensures stays { LeavesNoMore R.leaves rows.old rows.new }
{
    let mut last = key;
    while told.len() < most {
        let page = rows.versions_behind(alloc, bucket, &last, PAGE)?;
        match page_told(alloc, told, page, most)? {
            None => return Ok(()),
            Some(next) => last = next,
        }
    }
    Ok(())
}

// Adds what a list tells of the keys of a page, until there are so many. Answers the page's last key, where it was full.
fn page_told(
    alloc: Global,
    told: &mut Vec<KeyRow>,
    page: Vec<StoredVersion>,
    most: usize,
) -> Result<Option<Vec<u8>>, NoMemory>
    requires { length told.old.items ≤ most }
    ensures value { (contents : Contents) → OnOk result (told.new.items
        ≡ take most (told.old.items ++ keys_listed (encoding contents) None (map version_columns page.items))) }
    ensures next { IfOk result (λ next. MatchOption next (length page.items < 256)
        (λ key. (front : List StoredVersion) × (row : StoredVersion) × (page.items ≡ front ++ row ∷ []) × (row.key.items ≡ key.items))) }
{
    add_told(alloc, told, &page, most)?;
    Ok(last_of(page))
}

// The last key of a page, where it was full.
fn last_of(page: Vec<StoredVersion>) -> Option<Vec<u8>>
    ensures { MatchOption result (length page.items < 256)
        (λ key. (front : List StoredVersion) × (row : StoredVersion) × (page.items ≡ front ++ row ∷ []) × (row.key.items ≡ key.items)) }
{
    let mut page = page;
    if page.len() < PAGE as usize {
        return None;
    }
    match page.pop() {
        None => None,
        Some(row) => Some(row.key),
    }
}

// Adds what a list tells of the keys of these versions, until there are so many.
fn add_told(
    alloc: Global,
    told: &mut Vec<KeyRow>,
    found: &[StoredVersion],
    most: usize,
) -> Result<(), NoMemory>
    requires { length told.old.items ≤ most }
    ensures { (contents : Contents) → OnOk result (told.new.items
        ≡ take most (told.old.items ++ keys_listed (encoding contents) None (map version_columns found.now))) }
{
    let mut last = None;
    for row in found {
        if told.len() >= most {
            return Ok(());
        }
        add_key(alloc, told, last, row)?;
        last = Some(row.key.as_slice());
    }
    Ok(())
}

// Adds what a list tells of the key of a version, where it isn't the key that was told last.
fn add_key(
    alloc: Global,
    told: &mut Vec<KeyRow>,
    last: Option<&[u8]>,
    row: &StoredVersion,
) -> Result<(), NoMemory>
    ensures { (contents : Contents) → OnOk result (told.new.items
        ≡ told.old.items ++ (if is_last (option_copied last.entry) row.now.key.items then [] else key_listed (encoding contents) (version_columns row.now) ∷ [])) }
{
    if is_last(last, &row.key) {
        return Ok(());
    }
    told.push(key_row_from(alloc, row)?)?;
    Ok(())
}
