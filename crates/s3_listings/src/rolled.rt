//! How the rows of a list are taken that may have common prefixes: up to the first one that has one.
ghost use Rattle.std.specs.Prelude.{◌≡◌, ◌≤◌, ◌++◌, nat_eq, length, take, IfOk, IsTrue, IsUtf8};
ghost use Rattle.std.specs.List.{AllByRecursion, starts_with};
ghost use Rattle.s3_listings.specs.Taken.{LiesBeyond, TakesRows, told_prefix};

use crate::places::{raised_text, read_key};
use crate::row_page::RowItem;
use crate::sought::Listed;
use s3_names::Key;
use s3_prefixes::{ObjectsAsked, Text, is_before, prefix_len};
use s3_records::Start;
use s3_terms::NoMemory;
use std::alloc::Global;

/// Where a list goes on.
#[derive(Drop)]
pub(crate) enum Place {
    /// Where it begins, behind its marker.
    Marker,
    /// Behind all keys that begin with a common prefix: at this text, in front of which none is from the place `start` on.
    Beyond { start: Start, text: Vec<u8> },
}

/// Takes rows in their order, which are moved: each is told by itself, up to the first one that has a common prefix. That is told in
/// its place, unless it isn't behind the marker, and the list goes on behind all keys that have it. Rows and common prefixes are as
/// `rolling` asks for them, by its prefix and its delimiter alone.
pub(crate) fn take_rows<T: Listed>(
    alloc: Global,
    items: &mut Vec<RowItem<T>>,
    rows: Vec<T>,
    rolling: &ObjectsAsked,
    marker: &[u8],
) -> Result<Option<Place>, NoMemory>
    requires { AllByRecursion (λ row. IsTrue (starts_with nat_eq (T.key row) rolling.now.prefix)) rows.items }
    ensures { IfOk result (λ next. TakesRows T.key rolling.now.prefix rolling.now.delimiter marker.now rows.items items.old.items items.new.items next) }
{
    for row in rows {
        match prefix_len(rolling, row.key()) {
            None => items.push(RowItem::Row(row))?,
            Some(len) => {
                let place = take_prefix(alloc, items, row.into_key(), len, marker)?;
                return Ok(Some(place));
            }
        }
    }
    Ok(None)
}

// Takes the common prefix of a key, which has so many bytes, where it is behind the marker, and goes on behind all that have it.
fn take_prefix<T: Drop>(
    alloc: Global,
    items: &mut Vec<RowItem<T>>,
    key: Key,
    len: usize,
    marker: &[u8],
) -> Result<Place, NoMemory>
    requires within { len ≤ length key }
    requires utf8 { IsUtf8 (take len key) }
    ensures taken { IfOk result (λ place. items.new.items ≡ items.old.items ++ told_prefix marker.now (take len key)) }
    ensures beyond { IfOk result (λ place. LiesBeyond (take len key) key place) }
{
    let prefix = &key.as_bytes()[..len];
    if is_before(marker, prefix) {
        let text = Text::of(alloc, prefix)?;
        items.push(RowItem::CommonPrefix(text))?;
    }
    beyond(alloc, key, len)
}

// The place behind all keys that begin with the first so many bytes of a key. `NoMemory` comes too where there is no text behind
// them, which never is so: those bytes are some, and the last one, of UTF-8, isn't 0xFF.
fn beyond(alloc: Global, key: Key, len: usize) -> Result<Place, NoMemory>
    requires { len ≤ length key }
    ensures { IfOk result (λ place. LiesBeyond (take len key) key place) }
{
    let Some(text) = raised_text(alloc, &key.as_bytes()[..len])? else {
        return Err(NoMemory);
    };
    let start = match read_key(alloc, &text)? {
        Some(first) => Start::From(first),
        None => Start::Behind(key),
    };
    Ok(Place::Beyond { start, text })
}
