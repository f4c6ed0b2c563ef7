//! The checksum of an object's bytes among its metadata.
ghost use Rattle.std.specs.Prelude.{◌≡◌, ◌++◌, ◌∷◌, [], true, if◌then◌else◌, filter, is_some, IfErr, IfOk};
ghost use Rattle.s3_terms.specs.Fault.{Follows};
ghost use Rattle.s3_versions.specs.Metadata.{AreInOrder};
ghost use Rattle.s3_requests.specs.KeptSum as rules;

use s3_integrity::Checksum;
use s3_terms::Code;
use s3_versions::{Metadata, MetadataEntry};
use std::alloc::{AllocError, Global};

/// The most entries of metadata.
const ENTRIES_MAX: usize = 64;

// The metadata with the checksum, where one is known: `MetadataTooLarge` where there is no room for it, as `Metadata::new`
// judges it or above 64 entries.
pub(crate) fn with_sum(
    alloc: Global,
    metadata: Metadata,
    sum: Option<Checksum>,
) -> Result<Metadata, Code>
    ensures rule { Follows result (rules.with_sum sum metadata) }
    ensures memory { IfErr result (λ code. code ≡ Code.InternalError → is_some sum ≡ true) }
{
    match sum {
        Some(sum) => with_line(alloc, &metadata, &sum),
        None => Ok(metadata),
    }
}

// The metadata with the line of a checksum.
#[tactic(auto, unfolding(crate::specs::KeptSum::metadata_with))]
fn with_line(alloc: Global, metadata: &Metadata, sum: &Checksum) -> Result<Metadata, Code>
    ensures { Follows result (rules.metadata_with (rules.sum_entry sum.now) metadata.now) }
{
    let Ok(entries) = entries_with(alloc, metadata.entries(), sum) else {
        return Err(Code::InternalError);
    };
    if entries.len() > ENTRIES_MAX {
        return Err(Code::MetadataTooLarge);
    }
    Metadata::new(entries)
}

// The entries with the line of a checksum, in the order of their names.
fn entries_with(
    alloc: Global,
    entries: &[MetadataEntry],
    sum: &Checksum,
) -> Result<Vec<MetadataEntry>, AllocError>
    requires { AreInOrder entries.now }
    ensures value { IfOk result (λ all. all.items ≡ rules.with_entry (rules.sum_entry sum.now) entries.now) }
    ensures order { IfOk result (λ all. AreInOrder all.items) }
{
    let name = sum.algorithm().header();
    let mut all = Vec::new(alloc);
    push_side(alloc, entries, false, name, &mut all)?;
    all.push(line_of(alloc, name, sum)?)?;
    push_side(alloc, entries, true, name, &mut all)?;
    Ok(all)
}

// The line of a checksum, by its name.
fn line_of(alloc: Global, name: &[u8], sum: &Checksum) -> Result<MetadataEntry, AllocError>
    requires { name.now ≡ (rules.sum_entry sum.now).name }
    ensures { IfOk result (λ entry. entry ≡ rules.sum_entry sum.now) }
{
    let text = sum.text();
    let value = Vec::from_slice(alloc, text.as_bytes())?;
    let name = Vec::from_slice(alloc, name)?;
    Ok(MetadataEntry::new(name, value))
}

// Appends copies of the entries that stand on that side of a name.
fn push_side(
    alloc: Global,
    entries: &[MetadataEntry],
    behind: bool,
    name: &[u8],
    all: &mut Vec<MetadataEntry>,
) -> Result<(), AllocError>
    ensures { IfOk result (λ _. all.new.items ≡ all.old.items ++ filter (rules.is_on_side behind name.now) entries.now) }
{
    for entry in entries {
        push_if(alloc, entry, is_on_side(entry, behind, name), all)?;
    }
    Ok(())
}

// Appends a copy of an entry, if it is wanted.
fn push_if(
    alloc: Global,
    entry: &MetadataEntry,
    wanted: bool,
    all: &mut Vec<MetadataEntry>,
) -> Result<(), AllocError>
    ensures { IfOk result (λ _. all.new.items ≡ all.old.items ++ (if wanted then entry.now ∷ [] else [])) }
{
    if wanted {
        let Ok(copied) = entry.copy(alloc) else {
            return Err(AllocError);
        };
        all.push(copied)?;
    }
    Ok(())
}

// Whether an entry stands on that side of a name.
fn is_on_side(entry: &MetadataEntry, behind: bool, name: &[u8]) -> bool
    ensures { result ≡ rules.is_on_side behind name.now entry.now }
{
    if behind {
        name.cmp(entry.name()).is_lt()
    } else {
        entry.name().cmp(name).is_lt()
    }
}
