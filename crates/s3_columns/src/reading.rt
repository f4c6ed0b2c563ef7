//! How a media type and metadata are read from the bytes that are kept of them.
ghost use Rattle.std.specs.Prelude.{◌≡◌, ◌≤◌, ◌<◌, true, false, length, map, IfOk, MatchOption};
ghost use Rattle.s3_text.specs.Order.{rises};
ghost use Rattle.s3_versions.specs.Metadata.{names_in};
ghost use Rattle.s3_columns.specs.Reading.{type_at, entry_at, comes_first, are_entries, entries_read};

use crate::pairs::pair_at;
use s3_terms::NoMemory;
use s3_versions::{Metadata, MetadataEntry};
use std::alloc::Global;

/// The name of the media type.
pub(crate) const TYPE_NAME: &[u8] = b"content-type";

/// The most entries that metadata has.
const ENTRIES_MAX: usize = 64;

// The media type at the front of these bytes, and the bytes behind it; `None` where it isn't there.
#[tactic(auto, unfolding(crate::specs::Reading::type_at))]
pub(crate) fn type_at(bytes: &[u8]) -> Option<(&[u8], &[u8])>
    ensures { MatchOption result
        (type_at bytes.now ≡ None)
        (λ read. type_at bytes.now ≡ Some (read.0.now, read.1.now)) }
{
    let (name, value, rest) = pair_at(bytes)?;
    if name != TYPE_NAME {
        return None;
    }
    Some((value, rest))
}

// The name and the value of the entry at the front of these bytes, and the bytes behind it; `None` where none is there.
#[tactic(auto, unfolding(crate::specs::Reading::entry_at))]
fn entry_at(bytes: &[u8]) -> Option<(&[u8], &[u8], &[u8])>
    ensures { MatchOption result
        (entry_at bytes.now ≡ None)
        (λ read. entry_at bytes.now ≡ Some (record { name = read.0.now; value = read.1.now }, read.2.now)) }
{
    let (name, value, rest) = pair_at(bytes)?;
    Some((name, value, rest))
}

// The entries that the bytes spell; `None` where they spell none.
pub(crate) fn entries_in(
    alloc: Global,
    bytes: &[u8],
) -> Result<Option<Vec<MetadataEntry>>, NoMemory>
    ensures { IfOk result (λ read. MatchOption read
        (entries_read bytes.now ≡ None)
        (λ entries. entries_read bytes.now ≡ Some entries.items)) }
{
    let mut entries = Vec::new(alloc);
    let mut rest = bytes;
    while !rest.is_empty() {
        let Some((name, value, behind)) = entry_at(rest) else {
            return Ok(None);
        };
        entries.push(copied_entry(alloc, name, value)?)?;
        rest = behind;
    }
    Ok(Some(entries))
}

// The entry of a name and a value, which are copied.
fn copied_entry(alloc: Global, name: &[u8], value: &[u8]) -> Result<MetadataEntry, NoMemory>
    ensures { IfOk result (λ entry. entry ≡ record { name = name.now; value = value.now }) }
{
    let name = Vec::from_slice(alloc, name)?;
    let value = Vec::from_slice(alloc, value)?;
    Ok(MetadataEntry::new(name, value))
}

// The metadata of these entries; `None` where there are too many, they are too large, or their names don't rise.
#[tactic(auto, using(crate::proofs::OrderLemmas::sorted_from_rises), unfolding(s3_versions::specs::Metadata::metadata))]
pub(crate) fn metadata_of(entries: Vec<MetadataEntry>) -> Option<Metadata>
    ensures { MatchOption result
        (are_entries entries.items ≡ false)
        (λ metadata. (are_entries entries.items ≡ true) × (metadata ≡ entries.items)) }
{
    if entries.len() > ENTRIES_MAX || !are_rising(&entries) {
        return None;
    }
    match Metadata::new(entries) {
        Ok(metadata) => Some(metadata),
        Err(_) => None,
    }
}

// Whether each name comes before the next one.
#[tactic(auto, using(crate::proofs::OrderLemmas::rises_more))]
fn are_rising(entries: &[MetadataEntry]) -> bool
    ensures { result ≡ rises (names_in entries.now) }
{
    match entries {
        [] => true,
        [entry, rest @ ..] => comes_first(entry, rest) && are_rising(rest),
    }
}

// Whether the name comes before that of the first of these entries, if there is one.
#[tactic(auto, using(crate::proofs::OrderLemmas::first_name))]
fn comes_first(entry: &MetadataEntry, rest: &[MetadataEntry]) -> bool
    ensures { result ≡ comes_first entry.now.name (names_in rest.now) }
{
    match rest {
        [] => true,
        [next, ..] => entry.name().cmp(next.name()).is_lt(),
    }
}
