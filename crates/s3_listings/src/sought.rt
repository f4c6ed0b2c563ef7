//! Lists whose rows stand by key: from which place on their rows are asked for, and which of these a page has.
ghost use Rattle.std.specs.Prelude.{◌≡◌, ◌≢◌, ◌<◌, ◌+◌, ℕ, List, not, nat_eq, true, false, filter, take, take_while, length, slice_get, slice_index_or, Option, Some, None, IfOk, IsTrue, OnErr, IfSome, All};
ghost use Rattle.std.specs.List.{AllByRecursion, AllWithin, starts_with};
ghost use Rattle.s3_names.specs.Names.{is_key};
ghost use Rattle.s3_records.specs.Catalogue.{Catalogue};
ghost use Rattle.s3_records.specs.Leaving.{StaysKnown};
ghost use Rattle.s3_prefixes.specs.Items.{is_before};
ghost use Rattle.s3_listings.specs.Pages.{page_of};
ghost use Rattle.s3_listings.specs.Rolled.{items_asked, rows_told};
ghost use Rattle.s3_listings.specs.Sought.{AreByKey, AreBehind, Covers, begins_with, rows_from, rows_at_least};
ghost use Rattle.s3_listings.specs.Taken.{AreEnough, IsAlone, IsPlace, left_at};

use crate::objects::BATCH;
use crate::places::{from_text, read_key};
use crate::rolled::{Place, take_rows};
use crate::{ListPage, RowItem, RowPage};
use s3_names::{BucketName, Key};
use s3_prefixes::{ListVersion, ObjectsAsked, Text, is_before, prefix_len};
use s3_records::{Records, Start};
use s3_terms::NoMemory;
use std::alloc::Global;

/// A row of a list that stands by key, as a keeper offers its rows.
pub(crate) trait Listed: Drop {
    /// What names a row among those of its key.
    type Name: Copy;

    ghost key: { Self → List ℕ };

    // All rows of a bucket.
    ghost all: { Catalogue (List ℕ) → List ℕ → List Self };

    // Those behind a marker: a key, and the id of a row of it or none.
    ghost behind: { Catalogue (List ℕ) → List ℕ → List ℕ → Option Self.Name → List Self };

    fn key(&self) -> &Key
        ensures { result.now ≡ key self.now };

    fn into_key(self) -> Key
        ensures { result ≡ key self };

    /// The rows from a place on, at most so many.
    fn rows_from<R: Records>(
        records: &mut R,
        alloc: Global,
        bucket: &BucketName,
        start: Start,
        most: usize,
    ) -> Result<Vec<Self>, NoMemory>
        ensures value { IfOk result (λ rows. rows.items ≡ take most (rows_from key start (all (R.catalogue records.old) bucket.now))) }
        ensures same { R.catalogue records.new ≡ R.catalogue records.old }
        ensures stays { StaysKnown R.leaves_one_of records.old records.new };

    /// The rows behind a marker, at most so many.
    fn rows_behind<R: Records>(
        records: &mut R,
        alloc: Global,
        bucket: &BucketName,
        marker: Key,
        id: Option<Self::Name>,
        most: usize,
    ) -> Result<Vec<Self>, NoMemory>
        ensures value { IfOk result (λ rows. rows.items ≡ take most (behind (R.catalogue records.old) bucket.now marker id)) }
        ensures same { R.catalogue records.new ≡ R.catalogue records.old }
        ensures stays { StaysKnown R.leaves_one_of records.old records.new };

    /// A law, with nothing to run: the rows stand by key, and those behind a marker are of a later key, or of its own.
    fn stand_by_key()
        ensures order { (c : Catalogue (List ℕ)) (name : List ℕ) → AreByKey key (all c name) }
        ensures behind { (c : Catalogue (List ℕ)) (name marker : List ℕ) (id : Option Self.Name) → AreBehind key marker (all c name) (behind c name marker id) };
}

/// Which rows are asked for: those behind a marker whose keys begin with a prefix.
#[derive(Drop)]
pub(crate) struct Wanted<'a, I> {
    pub prefix: &'a [u8],
    pub marker: &'a [u8],
    pub id: Option<I>,
}

// The place of the last of the rows whose key is before a text.
fn last_before<T: Listed>(rows: &[T], text: &[u8]) -> Option<usize>
    ensures none { result ≡ None → All (λ row. is_before (T.key row) text.now ≡ false) rows.now }
    ensures some { IfSome result (λ i. (i < length rows.now) × ((d : T) → is_before (T.key (slice_index_or rows.now i d)) text.now ≡ true)) }
{
    rows.iter().rposition(
        |row| -> bool
            ensures { result ≡ is_before (T.key row.now) text.entry.now }
        { is_before(row.key().as_bytes(), text) },
    )
}

// The key of the last of the rows that is before a text, which is taken out.
fn take_key_before<T: Listed>(rows: &mut Vec<T>, text: &[u8]) -> Option<Key>
    ensures none { result ≡ None → All (λ row. is_before (T.key row) text.now ≡ false) rows.old.items }
    ensures same { result ≡ None → rows.new.items ≡ rows.old.items }
    ensures some { IfSome result (λ key. (i : ℕ) × (i < length rows.old.items) × ((d : T) → (T.key (slice_index_or rows.old.items i d) ≡ key) × (is_before key text.now ≡ true))) }
{
    let i = last_before(rows, text)?;
    let row = rows.swap_remove(i);
    Some(row.into_key())
}

// The rows of the keys that aren't before a text, at most so many. Costs these, and where the text is longer than keys
// may be the keys that begin as it does.
fn rows_at_least<T: Listed, R: Records>(
    records: &mut R,
    alloc: Global,
    bucket: &BucketName,
    text: &[u8],
    most: usize,
) -> Result<Vec<T>, NoMemory>
    requires { 0 < most }
    ensures value { IfOk result (λ rows. rows.items ≡ take most (rows_at_least T.key text.now (T.all (R.catalogue records.old) bucket.now))) }
    ensures same { R.catalogue records.new ≡ R.catalogue records.old }
    ensures stays { StaysKnown R.leaves_one_of records.old records.new }
{
    let start = from_text(alloc, text)?;
    rows_at_least_from(records, alloc, bucket, start, text, most)
}

// The same, from a place on that no key is in front of, unless it is before the text. Costs these rows, and the keys from that
// place on that are before the text.
fn rows_at_least_from<T: Listed, R: Records>(
    records: &mut R,
    alloc: Global,
    bucket: &BucketName,
    start: Start,
    text: &[u8],
    most: usize,
) -> Result<Vec<T>, NoMemory>
    requires some { 0 < most }
    requires covers { Covers start text.now }
    ensures value { IfOk result (λ rows. rows.items ≡ take most (rows_at_least T.key text.now (T.all (R.catalogue records.old) bucket.now))) }
    ensures same { R.catalogue records.new ≡ R.catalogue records.old }
    ensures stays { StaysKnown R.leaves_one_of records.old records.new }
{
    T::stand_by_key();
    let mut start = start;
    loop {
        let mut rows = T::rows_from(records, alloc, bucket, start, most)?;
        match take_key_before(&mut rows, text) {
            None => return Ok(rows),
            Some(key) => start = Start::Behind(key),
        }
    }
}

// The first row's key is a key.
fn first_is_key<T: Listed>(rows: &[T])
    ensures { IfSome (slice_get rows.now 0) (λ row. is_key (T.key row) ≡ true) }
{
    if let Some(row) = rows.first() {
        row.key().as_bytes();
    }
}

// The rows from a marker on that is no key, at most so many.
fn rows_from_no_key<T: Listed, R: Records>(
    records: &mut R,
    alloc: Global,
    bucket: &BucketName,
    marker: &[u8],
    most: usize,
) -> Result<Vec<T>, NoMemory>
    requires some { 0 < most }
    requires no_key { is_key marker.now ≡ false }
    ensures value { IfOk result (λ rows. rows.items ≡ take most (rows_at_least T.key marker.now (T.all (R.catalogue records.old) bucket.now))) }
    ensures free { IfOk result (λ rows. IfSome (slice_get rows.items 0) (λ row. T.key row ≢ marker.now)) }
    ensures same { R.catalogue records.new ≡ R.catalogue records.old }
    ensures stays { StaysKnown R.leaves_one_of records.old records.new }
{
    let rows = rows_at_least::<T, R>(records, alloc, bucket, marker, most)?;
    first_is_key(&rows);
    Ok(rows)
}

// The rows behind the marker whose keys aren't before the prefix, at most so many.
fn rows_sought<T: Listed, R: Records>(
    records: &mut R,
    alloc: Global,
    bucket: &BucketName,
    wanted: &Wanted<'_, T::Name>,
    most: usize,
) -> Result<Vec<T>, NoMemory>
    requires { 0 < most }
    ensures value { IfOk result (λ rows. rows.items
        ≡ take most (rows_at_least T.key wanted.now.prefix.now (T.behind (R.catalogue records.old) bucket.now wanted.now.marker.now wanted.now.id))) }
    ensures same { R.catalogue records.new ≡ R.catalogue records.old }
    ensures stays { StaysKnown R.leaves_one_of records.old records.new }
{
    T::stand_by_key();
    if is_before(wanted.marker, wanted.prefix) {
        return rows_at_least(records, alloc, bucket, wanted.prefix, most);
    }
    match read_key(alloc, wanted.marker)? {
        Some(marker) => T::rows_behind(records, alloc, bucket, marker, wanted.id, most),
        None => rows_from_no_key(records, alloc, bucket, wanted.marker, most),
    }
}

// The place of the first of the rows whose key doesn't begin with a prefix.
fn first_without<T: Listed>(rows: &[T], prefix: &[u8]) -> Option<usize>
    ensures none { result ≡ None → All (λ row. begins_with T.key prefix.now row ≡ true) rows.now }
    ensures front { IfSome result (λ i. AllWithin (λ row. begins_with T.key prefix.now row ≡ true) rows.now 0 i) }
    ensures ends { IfSome result (λ i. (d : T) → begins_with T.key prefix.now (slice_index_or rows.now i d) ≡ false) }
    ensures within { IfSome result (λ i. i < length rows.now) }
{
    rows.iter().position(
        |row| -> bool
            ensures { result ≡ not (begins_with T.key prefix.entry.now row.now) }
        { !row.key().as_bytes().starts_with(prefix) },
    )
}

// The rows in front whose keys begin with a prefix.
fn kept<T: Listed>(mut rows: Vec<T>, prefix: &[u8]) -> Vec<T>
    ensures { result.items ≡ take_while (begins_with T.key prefix.now) rows.items }
{
    match first_without(&rows, prefix) {
        None => rows,
        Some(end) => {
            rows.truncate(end);
            rows
        }
    }
}

// The rows that are asked for, at most so many.
fn rows_asked<T: Listed, R: Records>(
    records: &mut R,
    alloc: Global,
    bucket: &BucketName,
    wanted: &Wanted<'_, T::Name>,
    most: usize,
) -> Result<Vec<T>, NoMemory>
    requires { 0 < most }
    ensures value { IfOk result (λ rows. rows.items
        ≡ take most (filter (begins_with T.key wanted.now.prefix.now) (T.behind (R.catalogue records.old) bucket.now wanted.now.marker.now wanted.now.id))) }
    ensures same { R.catalogue records.new ≡ R.catalogue records.old }
    ensures stays { StaysKnown R.leaves_one_of records.old records.new }
{
    T::stand_by_key();
    let rows = rows_sought(records, alloc, bucket, wanted, most)?;
    Ok(kept(rows, wanted.prefix))
}

// The page of the rows that are asked for, with at most so many. Costs as many rows as the page may have, also where fewer
// begin with the prefix, and to find the first of them. `NoMemory` comes only where the page may have a row.
fn rows_page<T: Listed, R: Records>(
    records: &mut R,
    alloc: Global,
    bucket: &BucketName,
    wanted: &Wanted<'_, T::Name>,
    most: u16,
) -> Result<ListPage<T>, NoMemory>
    ensures value { IfOk result (λ page. page
        ≡ page_of most (filter (begins_with T.key wanted.now.prefix.now) (T.behind (R.catalogue records.old) bucket.now wanted.now.marker.now wanted.now.id))) }
    ensures same { R.catalogue records.new ≡ R.catalogue records.old }
    ensures memory { OnErr result (0 < most) }
    ensures stays { StaysKnown R.leaves_one_of records.old records.new }
{
    let most = most as usize;
    if most == 0 {
        return Ok(ListPage::empty(alloc));
    }
    let rows = rows_asked(records, alloc, bucket, wanted, most + 1)?;
    Ok(ListPage::of(rows, most))
}

// The rows from a text on that are asked for, at most so many: from a place on that no key is in front of, unless it is before the
// text.
fn rows_beyond<T: Listed, R: Records>(
    records: &mut R,
    alloc: Global,
    bucket: &BucketName,
    prefix: &[u8],
    start: Start,
    text: &[u8],
    most: usize,
) -> Result<Vec<T>, NoMemory>
    requires some { 0 < most }
    requires covers { Covers start text.now }
    requires behind { is_before text.now prefix.now ≡ false }
    ensures value { IfOk result (λ rows. rows.items
        ≡ take most (filter (begins_with T.key prefix.now) (rows_at_least T.key text.now (T.all (R.catalogue records.old) bucket.now)))) }
    ensures same { R.catalogue records.new ≡ R.catalogue records.old }
    ensures stays { StaysKnown R.leaves_one_of records.old records.new }
{
    T::stand_by_key();
    let rows = rows_at_least_from(records, alloc, bucket, start, text, most)?;
    Ok(kept(rows, prefix))
}

// The same place once more.
fn copied(start: &Start) -> Result<Start, NoMemory>
    ensures { IfOk result (λ copied. copied ≡ start.now) }
{
    match start {
        Start::First => Ok(Start::First),
        Start::From(first) => Ok(Start::From(first.copy()?)),
        Start::Behind(last) => Ok(Start::Behind(last.copy()?)),
    }
}

// The rows that are left from a place on, at most so many.
fn rows_at<T: Listed, R: Records>(
    records: &mut R,
    alloc: Global,
    bucket: &BucketName,
    wanted: &Wanted<'_, T::Name>,
    place: &Place,
    most: usize,
) -> Result<Vec<T>, NoMemory>
    requires some { 0 < most }
    requires place { IsPlace wanted.now.prefix.now wanted.now.marker.now place.now }
    ensures value { IfOk result (λ rows. rows.items ≡ take most (left_at T.key
        (filter (begins_with T.key wanted.now.prefix.now) (T.behind (R.catalogue records.old) bucket.now wanted.now.marker.now wanted.now.id)) place.now)) }
    ensures same { R.catalogue records.new ≡ R.catalogue records.old }
    ensures stays { StaysKnown R.leaves_one_of records.old records.new }
{
    T::stand_by_key();
    match place {
        Place::Marker => rows_asked(records, alloc, bucket, wanted, most),
        Place::Beyond { start, text } => {
            let start = copied(start)?;
            rows_beyond(records, alloc, bucket, wanted.prefix, start, text, most)
        }
    }
}

// Whether one of the rows has a common prefix.
fn have_prefix<T: Listed>(rows: &[T], rolling: &ObjectsAsked) -> bool
    requires { AllByRecursion (λ row. IsTrue (starts_with nat_eq (T.key row) rolling.now.prefix)) rows.now }
    ensures { result ≡ true → ¬ AllByRecursion (IsAlone T.key rolling.now.prefix rolling.now.delimiter) rows.now }
{
    match rows {
        [] => false,
        [row, rest @ ..] => {
            prefix_len(rolling, row.key()).is_some() || have_prefix(rest, rolling)
        }
    }
}

// Rows that are left from a place on, enough for so many items: a few where one of them has a common prefix.
fn enough_rows<T: Listed, R: Records>(
    records: &mut R,
    alloc: Global,
    bucket: &BucketName,
    wanted: &Wanted<'_, T::Name>,
    rolling: &ObjectsAsked,
    place: &Place,
    most: usize,
) -> Result<Vec<T>, NoMemory>
    requires some { 0 < most }
    requires place { IsPlace wanted.now.prefix.now wanted.now.marker.now place.now }
    requires rolling { rolling.now.prefix ≡ wanted.now.prefix.now }
    ensures value { IfOk result (λ rows. AreEnough T.key rolling.now.prefix rolling.now.delimiter most (left_at T.key
        (filter (begins_with T.key wanted.now.prefix.now) (T.behind (R.catalogue records.old) bucket.now wanted.now.marker.now wanted.now.id)) place.now) rows.items) }
    ensures same { R.catalogue records.new ≡ R.catalogue records.old }
    ensures stays { StaysKnown R.leaves_one_of records.old records.new }
{
    let few = BATCH.min(most);
    let rows = rows_at::<T, R>(records, alloc, bucket, wanted, place, few)?;
    if few == most || rows.len() < few || have_prefix(&rows, rolling) {
        return Ok(rows);
    }
    drop(rows);
    rows_at(records, alloc, bucket, wanted, place, most)
}

// The items that are asked for, so many at least where there are so many.
fn items_asked<T: Listed, R: Records>(
    records: &mut R,
    alloc: Global,
    bucket: &BucketName,
    wanted: &Wanted<'_, T::Name>,
    rolling: &ObjectsAsked,
    most: usize,
) -> Result<Vec<RowItem<T>>, NoMemory>
    requires some { 0 < most }
    requires rolling { rolling.now.prefix ≡ wanted.now.prefix.now }
    ensures value { IfOk result (λ items. take most items.items ≡ take most (items_asked T.key rolling.now.prefix rolling.now.delimiter wanted.now.marker.now
        (filter (begins_with T.key wanted.now.prefix.now) (T.behind (R.catalogue records.old) bucket.now wanted.now.marker.now wanted.now.id)))) }
    ensures same { R.catalogue records.new ≡ R.catalogue records.old }
    ensures stays { StaysKnown R.leaves_one_of records.old records.new }
{
    T::stand_by_key();
    let mut items = Vec::new(alloc);
    let mut place = Place::Marker;
    loop {
        let rows = enough_rows::<T, R>(records, alloc, bucket, wanted, rolling, &place, most)?;
        let Some(next) = take_rows(alloc, &mut items, rows, rolling, wanted.marker)? else {
            return Ok(items);
        };
        if items.len() >= most {
            return Ok(items);
        }
        place = next;
    }
}

// How keys are rolled up, by this prefix and this delimiter.
fn rolling_by(prefix: &Text, delimiter: &Text) -> Result<ObjectsAsked, NoMemory>
    ensures prefix { IfOk result (λ asked. asked.prefix ≡ prefix.now) }
    ensures delimiter { IfOk result (λ asked. asked.delimiter ≡ delimiter.now) }
{
    Ok(ObjectsAsked {
        version: ListVersion::Second,
        prefix: prefix.copy()?,
        delimiter: delimiter.copy()?,
        start_after: None,
        token: None,
        max_keys: 0,
        is_url_encoded: false,
        tells_owner: false,
    })
}

// The page of the items that are asked for, with at most so many, where keys may have common prefixes.
fn rolled_page<T: Listed, R: Records>(
    records: &mut R,
    alloc: Global,
    bucket: &BucketName,
    wanted: &Wanted<'_, T::Name>,
    rolling: &ObjectsAsked,
    most: usize,
) -> Result<RowPage<T>, NoMemory>
    requires some { 0 < most }
    requires fits { most < 65_536 }
    requires rolling { rolling.now.prefix ≡ wanted.now.prefix.now }
    ensures value { IfOk result (λ page. page ≡ rows_told (page_of most
        (items_asked T.key rolling.now.prefix rolling.now.delimiter wanted.now.marker.now
        (filter (begins_with T.key wanted.now.prefix.now) (T.behind (R.catalogue records.old) bucket.now wanted.now.marker.now wanted.now.id))))) }
    ensures same { R.catalogue records.new ≡ R.catalogue records.old }
    ensures stays { StaysKnown R.leaves_one_of records.old records.new }
{
    let mut items = items_asked::<T, R>(records, alloc, bucket, wanted, rolling, most + 1)?;
    items.truncate(most + 1);
    RowPage::of(alloc, ListPage::of(items, most))
}

/// The page of the items that are asked for, with at most so many. Costs as many rows as the page may have, also where fewer begin
/// with the prefix, and to find the first of them. With a delimiter it costs a batch for each common prefix, however many keys have
/// it, unless the delimiter ends in the byte 0x7F or 0xBF. `NoMemory` comes only where the page may have an item.
pub(crate) fn page_asked<T: Listed, R: Records>(
    records: &mut R,
    alloc: Global,
    bucket: &BucketName,
    wanted: &Wanted<'_, T::Name>,
    prefix: &Text,
    delimiter: &Text,
    most: u16,
) -> Result<RowPage<T>, NoMemory>
    requires { prefix.now ≡ wanted.now.prefix.now }
    ensures value { IfOk result (λ page. page ≡ rows_told (page_of most
        (items_asked T.key prefix.now delimiter.now wanted.now.marker.now
        (filter (begins_with T.key wanted.now.prefix.now) (T.behind (R.catalogue records.old) bucket.now wanted.now.marker.now wanted.now.id))))) }
    ensures same { R.catalogue records.new ≡ R.catalogue records.old }
    ensures memory { OnErr result (0 < most) }
    ensures stays { StaysKnown R.leaves_one_of records.old records.new }
{
    if most == 0 || delimiter.as_bytes().is_empty() {
        let page = rows_page::<T, R>(records, alloc, bucket, wanted, most)?;
        return Ok(RowPage::plain(alloc, page));
    }
    let rolling = rolling_by(prefix, delimiter)?;
    rolled_page(records, alloc, bucket, wanted, &rolling, most as usize)
}
