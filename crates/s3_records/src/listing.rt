//! The rows of lists, from what is in memory: of all buckets, and of the keys and the versions of one.
ghost use Rattle.std.specs.Prelude.{◌≡◌, ◌≢◌, ◌≤◌, ◌<◌, false, ℕ, List, [], ◌∷◌, ◌++◌, length, take, IfSome, IfOk, OnOk, OnErr, position, map as each, option_map};
ghost use Rattle.std.specs.List.{flat_map};
ghost use Rattle.std.specs.BTreeMap.{IsOrdered};
ghost use Rattle.std.specs.BTreeMap.Range.{is_from_start, entries_between};
ghost use Rattle.std.specs.Range.Bound.{bound_map};
ghost use Rattle.std.specs.declared.ops.Bound.TheVariants.{Unbounded};
ghost use Rattle.s3_text.specs.Order.{byte_order};
ghost use Rattle.s3_versions.specs.declared.version.Data.{Data};
ghost use Rattle.s3_versions.specs.Rules.{is_under, stored, facts_of};
ghost use Rattle.s3_records.specs.Catalogue.{listed_bucket};
ghost use Rattle.s3_records.specs.Rows.{is_from, key_row, version_row, rows_under, rows_of, behind_version};

use crate::adding::push;
use crate::bucket::StoredBucket;
use crate::records::ListedBucket;
use crate::rows::{KeyRow, Start, VersionRow};
use s3_bodies::Body;
use s3_names::{BucketName, Key, VersionId};
use s3_terms::NoMemory;
use s3_versions::{Facts, Version, Versions, current, read_facts};
use std::alloc::Global;
use std::collections::BTreeMap;
use std::ops::Bound;

/// The rows of all buckets.
pub(crate) fn bucket_rows(
    alloc: Global,
    buckets: &BTreeMap<BucketName, StoredBucket>,
) -> Result<Vec<ListedBucket>, NoMemory>
    ensures value { IfOk result (λ rows. rows.items ≡ each listed_bucket buckets.now.entries) }
    ensures rising { IsOrdered byte_order buckets.now }
    ensures memory { OnErr result (each listed_bucket buckets.now.entries ≢ []) }
{
    let mut rows = Vec::new(alloc);
    for (name, bucket) in buckets {
        match push(&mut rows, listed_bucket(name, bucket)) {
            Ok(()) => {}
            Err(failed) => {
                drop(rows);
                return Err(failed);
            }
        }
    }
    Ok(rows)
}

// What the list of all buckets tells of one.
fn listed_bucket(name: &BucketName, bucket: &StoredBucket) -> Result<ListedBucket, NoMemory>
    ensures { IfOk result (λ row. row ≡ listed_bucket (name.now, bucket.now)) }
{
    match name.copy() {
        Ok(name) => Ok(ListedBucket {
            name,
            made: bucket.facts().made,
        }),
        Err(failed) => Err(failed),
    }
}

/// Where a list begins, as a bound of the keys of a tree.
pub(crate) fn first_key(start: &Start) -> Bound<&Key>
    ensures { (key : List ℕ) → is_from_start byte_order (bound_map (λ x. x.now) result) key ≡ is_from start.now key }
{
    match start {
        Start::First => Bound::Unbounded,
        Start::From(first) => Bound::Included(first),
        Start::Behind(last) => Bound::Excluded(last),
    }
}

/// The rows of the keys from a place on, at most so many. Room for them is taken at once, before the first.
pub(crate) fn key_rows_from(
    alloc: Global,
    keys: &BTreeMap<Key, Versions<Body>>,
    first: Bound<&Key>,
    most: usize,
) -> Result<Vec<KeyRow>, NoMemory>
    ensures value { IfOk result (λ rows. rows.items
        ≡ take most (each key_row (entries_between byte_order (bound_map (λ x. x.now) first.entry) Unbounded keys.now.entries))) }
    ensures rising { IsOrdered byte_order keys.now }
    ensures memory { OnErr result (
        take most (each key_row (entries_between byte_order (bound_map (λ x. x.now) first.entry) Unbounded keys.now.entries)) ≢ []) }
{
    let mut rows = Vec::new(alloc);
    let mut room = most.min(keys.len());
    for (key, versions) in keys.range((first, Bound::Unbounded)) {
        if rows.len() >= most {
            return Ok(rows);
        }
        match add_row(&mut rows, key, versions.as_slice(), room) {
            Ok(()) => room = 0,
            Err(failed) => {
                drop(rows);
                return Err(failed);
            }
        }
    }
    Ok(rows)
}

// Adds the row of a key. Room for so many is taken before it.
fn add_row(
    rows: &mut Vec<KeyRow>,
    key: &Key,
    versions: &[Version<Body>],
    room: usize,
) -> Result<(), NoMemory>
    ensures { OnOk result (rows.new.items ≡ rows.old.items ++ key_row (key.now, versions.now) ∷ []) }
{
    match rows.reserve(room) {
        Ok(()) => push(rows, key_row(key, versions)),
        Err(_) => Err(NoMemory),
    }
}

// The row of a key.
fn key_row(key: &Key, versions: &[Version<Body>]) -> Result<KeyRow, NoMemory>
    ensures { IfOk result (λ row. row ≡ key_row (key.now, versions.now)) }
{
    match key.copy() {
        Ok(key) => Ok(KeyRow {
            key,
            facts: read_facts(None, current(versions)).ok(),
        }),
        Err(failed) => Err(failed),
    }
}

/// Adds the rows of the versions of the keys from a place on, until there are so many. Room for one of each key is taken at
/// once, before the first.
pub(crate) fn add_keys(
    rows: &mut Vec<VersionRow>,
    keys: &BTreeMap<Key, Versions<Body>>,
    first: Bound<&Key>,
    most: usize,
) -> Result<(), NoMemory>
    requires { length rows.old.items ≤ most }
    ensures ok { OnOk result (rows.new.items
        ≡ take most (rows.old.items ++ flat_map rows_of (entries_between byte_order (bound_map (λ x. x.now) first.entry) Unbounded keys.now.entries))) }
    ensures rising { IsOrdered byte_order keys.now }
    ensures memory { OnErr result (
        take most (rows.old.items ++ flat_map rows_of (entries_between byte_order (bound_map (λ x. x.now) first.entry) Unbounded keys.now.entries)) ≢ []) }
{
    let mut room = most.min(keys.len());
    for (key, versions) in keys.range((first, Bound::Unbounded)) {
        if rows.len() >= most {
            return Ok(());
        }
        match add_key(rows, key, versions.as_slice(), most, room) {
            Ok(()) => room = 0,
            Err(failed) => return Err(failed),
        }
    }
    Ok(())
}

// Adds the rows of all versions of a key, newest first, until there are so many. With the first it takes room for more.
fn add_key(
    rows: &mut Vec<VersionRow>,
    key: &Key,
    versions: &[Version<Body>],
    most: usize,
    room: usize,
) -> Result<(), NoMemory>
    requires { length rows.old.items < most }
    ensures ok { OnOk result (rows.new.items ≡ take most (rows.old.items ++ rows_under key.now versions.now)) }
    ensures memory { OnErr result (rows_under key.now versions.now ≢ []) }
{
    match versions.split_first() {
        None => Ok(()),
        Some((newest, older)) => {
            rows.reserve(room)?;
            match push(rows, version_row(key, true, newest)) {
                Ok(()) => add_older(rows, key, older, most),
                Err(failed) => Err(failed),
            }
        }
    }
}

/// Adds the rows of versions of a key, none of which is the current one, until there are so many.
pub(crate) fn add_older(
    rows: &mut Vec<VersionRow>,
    key: &Key,
    older: &[Version<Body>],
    most: usize,
) -> Result<(), NoMemory>
    requires { length rows.old.items ≤ most }
    ensures ok { OnOk result (rows.new.items ≡ take most (rows.old.items ++ each (version_row key.now false) older.now)) }
    ensures memory { OnErr result (take most (each (version_row key.now false) older.now) ≢ []) }
{
    add_rows(rows, key, at_most(older, most - rows.len()))
}

// Adds the rows of versions of a key, none of which is the current one.
fn add_rows(rows: &mut Vec<VersionRow>, key: &Key, older: &[Version<Body>]) -> Result<(), NoMemory>
    ensures ok { OnOk result (rows.new.items ≡ rows.old.items ++ each (version_row key.now false) older.now) }
    ensures memory { OnErr result (older.now ≢ []) }
{
    for version in older {
        match push(rows, version_row(key, false, version)) {
            Ok(()) => {}
            Err(failed) => return Err(failed),
        }
    }
    Ok(())
}

// The first versions, so many or, where there are fewer, all.
fn at_most(versions: &[Version<Body>], most: usize) -> &[Version<Body>]
    ensures { result.now ≡ take most versions.now }
{
    if versions.len() <= most {
        return versions;
    }
    &versions[..most]
}

/// The versions behind the one of an id; none where there is none of it. Costs the list's length.
pub(crate) fn behind(versions: &[Version<Body>], id: VersionId) -> &[Version<Body>]
    ensures { result.now ≡ behind_version id versions.now }
{
    match place_of(versions, id) {
        None => &[],
        Some(place) => &versions[place + 1..],
    }
}

// Where the version of an id is.
fn place_of(versions: &[Version<Body>], id: VersionId) -> Option<usize>
    ensures value { result ≡ position (is_under id) versions.now }
    ensures bound { IfSome result (λ place. place < length versions.now) }
{
    versions.iter().position(|version| version.is_under(id))
}

// The row of a version under a key.
fn version_row(key: &Key, is_latest: bool, version: &Version<Body>) -> Result<VersionRow, NoMemory>
    ensures { IfOk result (λ row. row ≡ version_row key.now is_latest version.now) }
{
    match key.copy() {
        Ok(key) => Ok(VersionRow {
            key,
            id: version.id(),
            is_latest,
            moment: version.moment,
            facts: facts_of(version),
        }),
        Err(failed) => Err(failed),
    }
}

// What is known of a version; `None` for a delete marker.
fn facts_of(version: &Version<Body>) -> Option<Facts>
    ensures { result ≡ option_map (λ (what : Data (List ℕ)). facts_of (version.now, what)) (stored version.now) }
{
    match version.stored() {
        None => None,
        Some(data) => Some(Facts {
            moment: version.moment,
            tag: data.tag.copy(),
            size: data.size,
        }),
    }
}
