//! The list of a bucket's objects.
ghost use Rattle.std.specs.Prelude.{◌≡◌, ◌<◌, List, IfOk, OnOk, OnErr, IsTrue, map as each, take, Some, []};
ghost use Rattle.s3_text.specs.Order.{rises};
ghost use Rattle.s3_records.specs.Rows.{key_rows, keys_from};
ghost use Rattle.s3_records.specs.declared.rows.KeyRow.{KeyRow};
ghost use Rattle.s3_records.specs.declared.rows.Start.{Start};
ghost use Rattle.s3_records.specs.Leaving.{StaysKnown};
ghost use Rattle.s3_listings.specs.Objects.{objects_told};
ghost use Rattle.s3_listings.specs.Drafts.{drafted, left_from, AreBehindStart, with_rows, TakesBatch, IsLastKey};

use crate::ObjectPage;
use crate::draft::Draft;
use crate::places::{are_behind_start, first_place, next_place};
use s3_names::{BucketName, Key};
use s3_prefixes::ObjectsAsked;
use s3_records::{KeyRow, Records, Start, keys_rise};
use s3_terms::NoMemory;
use std::alloc::Global;

/// How many rows are asked for at once where the next ones may be of no use.
pub(crate) const BATCH: usize = 32;

/// What is told of a bucket's objects (Amazon S3 API Reference, ListObjectsV2): the first so many items behind the token, which
/// are objects and common prefixes. Costs each key that is looked at: those that are told, delete markers among them, a batch
/// for each common prefix, however many keys have it, unless the delimiter ends in the byte 0x7F or 0xBF, and behind the last
/// key that begins with the prefix a batch or as many as are told; and to find a place among the keys for each batch.
/// `NoMemory` says that there was none for a batch or the page, and comes only where the page may have an item.
pub fn list_objects<R: Records>(
    records: &mut R,
    alloc: Global,
    bucket: &BucketName,
    asked: &ObjectsAsked,
) -> Result<ObjectPage, NoMemory>
    ensures value { IfOk result (λ page. page ≡ objects_told asked.now (key_rows (R.catalogue records.old) bucket.now)) }
    ensures same { R.catalogue records.new ≡ R.catalogue records.old }
    ensures memory { OnErr result (0 < asked.now.max_keys) }
    ensures stays { StaysKnown R.leaves_one_of records.old records.new }
{
    // Contracts see the bytes of an object as they see a key, as a list.
    keys_rise::<Key>();
    let mut draft = Draft::new(alloc, asked.max_keys);
    if asked.max_keys != 0 {
        let start = first_place(alloc, asked)?;
        fill(records, alloc, bucket, asked, &mut draft, start)?;
    }
    draft.finish(alloc)
}

// Takes batches of rows from a place on until the page is done.
fn fill<R: Records>(
    records: &mut R,
    alloc: Global,
    bucket: &BucketName,
    asked: &ObjectsAsked,
    draft: &mut Draft,
    start: Start,
) -> Result<(), NoMemory>
    requires { IsTrue (rises (each (λ row. row.key) (key_rows (R.catalogue records.old) bucket.now))) }
    ensures page { OnOk result (with_rows asked.now (drafted draft.new) []
        ≡ with_rows asked.now (drafted draft.old) (left_from (Some start) (key_rows (R.catalogue records.old) bucket.now))) }
    ensures same { R.catalogue records.new ≡ R.catalogue records.old }
    ensures stays { StaysKnown R.leaves_one_of records.old records.new }
{
    let mut start = start;
    loop {
        let Some(next) = step(records, alloc, bucket, asked, draft, start)? else {
            return Ok(());
        };
        start = next;
    }
}

// Takes one batch of rows from a place on, and says where to go on.
fn step<R: Records>(
    records: &mut R,
    alloc: Global,
    bucket: &BucketName,
    asked: &ObjectsAsked,
    draft: &mut Draft,
    start: Start,
) -> Result<Option<Start>, NoMemory>
    requires { IsTrue (rises (each (λ row. row.key) (key_rows (R.catalogue records.old) bucket.now))) }
    ensures batch { IfOk result (λ next. TakesBatch asked.now (drafted draft.old) (drafted draft.new) (Some start) next
        (key_rows (R.catalogue records.old) bucket.now)) }
    ensures same { R.catalogue records.new ≡ R.catalogue records.old }
    ensures stays { StaysKnown R.leaves_one_of records.old records.new }
{
    let most = rows_at_once(asked, draft.room());
    let found = records.keys_from(alloc, bucket, &start, most);
    let are_behind = are_behind_start(asked, &start);
    // So it is dropped once, and not on each way out.
    drop(start);
    match found {
        Ok(rows) => take_batch(alloc, asked, draft, rows, most, are_behind),
        Err(no_memory) => Err(no_memory),
    }
}

// How many rows to ask for, for a page that takes so many items more: enough to fill it and to know of one more. With a
// delimiter most of them may be of one common prefix, so that it is few; with a prefix they may stand behind the last key that
// begins with it, so that it is no more than the page has already.
fn rows_at_once(asked: &ObjectsAsked, room: u16) -> usize
    ensures { 0 < result }
{
    if !asked.delimiter.as_bytes().is_empty() {
        return BATCH;
    }
    let enough = room as usize + 1;
    if asked.prefix.as_bytes().is_empty() {
        return enough;
    }
    let told = asked.max_keys.saturating_sub(room) as usize;
    enough.min(BATCH.max(told))
}

// Takes one batch of rows, of which so many were asked for, and says where to go on. All may be known to be behind the key that the
// list is to start after.
fn take_batch(
    alloc: Global,
    asked: &ObjectsAsked,
    draft: &mut Draft,
    rows: Vec<KeyRow>,
    most: usize,
    are_behind: bool,
) -> Result<Option<Start>, NoMemory>
    requires some { 0 < most }
    requires behind { AreBehindStart asked.now are_behind rows.items }
    ensures { IfOk result (λ next. (all : List KeyRow) (start : Start)
        → IsTrue (rises (each (λ row. row.key) all)) → rows.items ≡ take most (left_from (Some start) all)
        → TakesBatch asked.now (drafted draft.old) (drafted draft.new) (Some start) next all) }
{
    let last = last_key(rows.as_slice(), most)?;
    draft.take_rows(alloc, asked, rows, are_behind)?;
    let Some(key) = last else {
        return Ok(None);
    };
    if draft.is_truncated() {
        return Ok(None);
    }
    next_place(alloc, asked, key, draft.last())
}

// The last key of a batch, which is copied, where there are as many rows as were asked for, so that more may follow it.
fn last_key(rows: &[KeyRow], most: usize) -> Result<Option<Key>, NoMemory>
    requires { 0 < most }
    ensures { IfOk result (λ key. IsLastKey most rows.now key) }
{
    if rows.len() < most {
        return Ok(None);
    }
    match rows.last() {
        Some(row) => Ok(Some(row.key.copy()?)),
        None => Ok(None),
    }
}
