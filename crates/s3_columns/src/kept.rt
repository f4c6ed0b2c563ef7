//! What is kept of an object beside its bytes: its media type and its metadata.
ghost use Rattle.std.specs.Prelude.{ℕ, ◌≡◌, ◌≤◌, ◌++◌, List, length, map, IfOk, OnOk, OnErr, IsSome, IfSome, MatchOption, IsSomeAnd};
ghost use Rattle.s3_versions.specs.Metadata.{Entry, metadata_size};
ghost use Rattle.s3_columns.specs.Attributes.{AreAllowed, kept_of, content_type_in, metadata_in, type_pair, entry_pair};
ghost use Rattle.s3_columns.specs.Pairs.{pair_spelled, pairs_spelled};
ghost use Rattle.s3_columns.specs.Reading.{type_at, metadata_read, kept_read};

use crate::pairs::add_pair;
use crate::reading::{TYPE_NAME, entries_in, metadata_of, type_at};
use s3_terms::NoMemory;
use s3_versions::{ContentType, Metadata, MetadataEntry};
use std::alloc::Global;

/// The longest media type, in bytes.
const TYPE_MAX: usize = 255;

/// What is kept of an object beside its bytes, as it was read.
#[derive(Drop)]
pub struct Kept {
    pub content_type: ContentType,
    pub metadata: Metadata,
}

/// The bytes that are kept of a media type and metadata, in one pass: pairs of a name and a value, each behind its length. The first
/// pair is `content-type` and the media type. The entries of the metadata follow in their order.
#[tactic(auto, using(crate::proofs::AttributeLemmas::type_found, crate::proofs::AttributeLemmas::metadata_found))]
pub fn write_kept(
    alloc: Global,
    content_type: &ContentType,
    metadata: &Metadata,
) -> Result<Vec<u8>, NoMemory>
    ensures value { IfOk result (λ bytes. bytes.items ≡ kept_of content_type.now metadata.now) }
    ensures content_type { IfOk result (λ bytes. content_type_in bytes.items ≡ content_type.now) }
    ensures metadata { IfOk result (λ bytes. metadata_in bytes.items ≡ metadata.now) }
    ensures allowed { AreAllowed content_type.now metadata.now }
{
    let bytes = bytes_of(alloc, content_type.as_bytes(), metadata.entries())?;
    Ok(bytes)
}

// The bytes that are kept of a media type and entries.
#[tactic(auto, unfolding(crate::specs::Attributes::kept_of))]
fn bytes_of(alloc: Global, kind: &[u8], entries: &[MetadataEntry]) -> Result<Vec<u8>, NoMemory>
    requires len { length kind.now ≤ 255 }
    requires size { metadata_size entries.now ≤ 4_608 }
    ensures { IfOk result (λ bytes. bytes.items ≡ kept_of kind.now entries.now) }
{
    let mut bytes = Vec::new(alloc);
    add_pair(&mut bytes, TYPE_NAME, kind)?;
    add_entries(&mut bytes, entries)?;
    Ok(bytes)
}

// Appends the entries as pairs.
fn add_entries(out: &mut Vec<u8>, entries: &[MetadataEntry]) -> Result<(), NoMemory>
    requires { metadata_size entries.now ≤ 4_608 }
    ensures { OnOk result (out.new.items ≡ out.old.items ++ pairs_spelled (map entry_pair entries.now)) }
{
    for entry in entries {
        add_pair(out, entry.name(), entry.value())?;
    }
    Ok(())
}

/// The media type and the metadata that bytes are kept of, copied in one pass. `None` where they are no pairs, where the first is no
/// media type or too long, and where the metadata has too many entries, is too large or out of order.
pub fn read_kept(alloc: Global, bytes: &[u8]) -> Result<Option<Kept>, NoMemory>
    // What is read is kept so.
    ensures written { IfOk result (λ read. IfSome read (λ kept. bytes.now ≡ kept_of kept.content_type kept.metadata)) }
    // It is a media type and metadata that there may be.
    ensures allowed { IfOk result (λ read. IfSome read (λ kept. AreAllowed kept.content_type kept.metadata)) }
    // Every such media type and metadata are read.
    ensures found { (kind : List ℕ) (entries : List Entry) → AreAllowed kind entries → bytes.now ≡ kept_of kind entries
        → IfOk result (λ read. IsSomeAnd read (λ kept. (kept.content_type ≡ kind) × (kept.metadata ≡ entries))) }
    // They are what is found in the bytes.
    ensures told { IfOk result (λ read. IfSome read (λ kept.
        (kept.content_type ≡ content_type_in bytes.now) × (kept.metadata ≡ metadata_in bytes.now))) }
    // Memory is asked for only where a media type stands in front.
    ensures memory { OnErr result (IsSome (type_at bytes.now)) }
{
    kept_in(alloc, bytes)
}

// The same, by the rule.
#[tactic(auto, unfolding(crate::specs::Reading::kept_read))]
fn kept_in(alloc: Global, bytes: &[u8]) -> Result<Option<Kept>, NoMemory>
    ensures value { IfOk result (λ read. MatchOption read
        (kept_read bytes.now ≡ None)
        (λ kept. kept_read bytes.now ≡ Some (kept.content_type, kept.metadata))) }
    ensures memory { OnErr result (IsSome (type_at bytes.now)) }
{
    let Some((kind, rest)) = type_at(bytes) else {
        return Ok(None);
    };
    if kind.len() > TYPE_MAX {
        return Ok(None);
    }
    let Some(metadata) = metadata_in(alloc, rest)? else {
        return Ok(None);
    };
    let content_type = copied_type(alloc, kind)?;
    Ok(Some(Kept {
        content_type,
        metadata,
    }))
}

// The metadata whose entries the bytes spell; `None` where they spell none.
#[tactic(auto, unfolding(crate::specs::Reading::metadata_read))]
fn metadata_in(alloc: Global, bytes: &[u8]) -> Result<Option<Metadata>, NoMemory>
    ensures { IfOk result (λ read. MatchOption read
        (metadata_read bytes.now ≡ None)
        (λ metadata. metadata_read bytes.now ≡ Some metadata)) }
{
    match entries_in(alloc, bytes)? {
        Some(entries) => Ok(metadata_of(entries)),
        None => Ok(None),
    }
}

// A media type of these bytes, which are copied.
#[tactic(auto, unfolding(s3_versions::specs::ContentType::content_type))]
fn copied_type(alloc: Global, bytes: &[u8]) -> Result<ContentType, NoMemory>
    requires { length bytes.now ≤ 255 }
    ensures { IfOk result (λ kind. kind ≡ bytes.now) }
{
    match ContentType::read(alloc, bytes) {
        Ok(kind) => Ok(kind),
        Err(_) => Err(NoMemory),
    }
}
