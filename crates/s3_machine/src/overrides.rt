//! What a reply to a read says of an object, in the place of what is kept with it.
ghost use Rattle.std.specs.Prelude.{◌≡◌, ◌≤◌, nat_le, [], length, Ok};
ghost use Rattle.std.specs.List.{list_all};
ghost use Rattle.s3_versions.specs.Metadata.{is_printed, metadata_size};
ghost use Rattle.s3_machine.specs.Overrides.{has_printed_value, overrides};

use s3_terms::Code;
use s3_versions::MetadataEntry;
use std::alloc::Global;
use std::marker::Model;

/// The most bytes of all names and values.
const OVERRIDES_MAX: usize = 2_048;

/// The header lines that a reply to a read has in the place of those that are kept with the object (Amazon S3 API Reference,
/// GetObject, `response-content-type` and its like): at most 6, which have 2,048 bytes at most, and no control byte in a value.
/// A contract sees the list of them.
#[derive(Drop)]
pub struct Overrides {
    entries: Vec<MetadataEntry>,
}

impl Model for Overrides {
    ghost use Rattle.std.specs.Prelude.{List, ◌≡◌, ◌≤◌, length, Ok};
    ghost use Rattle.std.specs.Coded.{coded_list};
    ghost use Rattle.s3_versions.specs.Metadata.{Entry, coded_entry, metadata_size};

    ghost Value = { List Entry };

    ghost coded = { coded_list coded_entry };

    ghost view = { λ told. told.entries.items };

    ghost invariant = { λ told. (length told.entries.items ≤ 6) × (metadata_size told.entries.items ≤ 2_048) };
}

impl Overrides {
    /// None: all is told as it is kept.
    pub fn none(alloc: Global) -> Overrides
        ensures { result ≡ [] }
    {
        Overrides {
            entries: Vec::new(alloc),
        }
    }

    /// These lines, which are moved and not copied: `InvalidArgument` where a value has a control byte, or above 2,048 bytes of all names
    /// and values.
    #[tactic(auto, unfolding(crate::specs::Overrides::overrides))]
    pub fn new(entries: Vec<MetadataEntry>) -> Result<Overrides, Code>
        requires few { length entries.items ≤ 6 }
        ensures { result ≡ overrides entries.items }
    {
        if !have_printed_values(&entries) {
            return Err(Code::InvalidArgument);
        }
        if !fits(&entries, OVERRIDES_MAX) {
            return Err(Code::InvalidArgument);
        }
        Ok(Overrides { entries })
    }

    /// The lines.
    pub fn entries(&self) -> &[MetadataEntry]
        ensures value { result.now ≡ self.now }
        ensures count { length self.now ≤ 6 }
        ensures size { metadata_size self.now ≤ 2_048 }
    {
        self.entries.as_slice()
    }
}

// Whether no value has a control byte.
fn have_printed_values(entries: &[MetadataEntry]) -> bool
    ensures { result ≡ list_all has_printed_value entries.now }
{
    match entries {
        [] => true,
        [entry, rest @ ..] => are_printed(entry.value()) && have_printed_values(rest),
    }
}

// Whether none of the bytes is a control byte.
fn are_printed(bytes: &[u8]) -> bool
    ensures { result ≡ list_all is_printed bytes.now }
{
    match bytes {
        [] => true,
        [byte, rest @ ..] => *byte >= 32 && *byte != 127 && are_printed(rest),
    }
}

// Whether the names and values have no more bytes than that.
fn fits(entries: &[MetadataEntry], room: usize) -> bool
    ensures { result ≡ nat_le (metadata_size entries.now) room }
{
    match entries {
        [] => true,
        [entry, rest @ ..] => {
            let name = entry.name().len();
            let value = entry.value().len();
            name <= room && value <= room - name && fits(rest, room - name - value)
        }
    }
}
