//! The metadata of an object: header lines that are kept with it.
ghost use Rattle.std.specs.Prelude.{◌≡◌, ◌≤◌, nat_le, length, IfOk, Ok};
ghost use Rattle.std.specs.List.{list_all};
ghost use Rattle.s3_versions.specs.Metadata.{AreInOrder, is_allowed, is_plain, is_printed, is_user_defined, metadata, metadata_size, user_size};

use s3_terms::{Code, NoMemory};
use std::alloc::Global;
use std::marker::Model;

/// How the names of user-defined metadata begin.
const USER_FRONT: &[u8] = b"x-amz-meta-";

/// The most bytes of user-defined metadata: of names, without what they begin with, and of values.
const USER_MAX: usize = 2_048;

/// The most bytes of the value of a system-defined entry.
const VALUE_MAX: usize = 255;

/// The most bytes of all names and values.
const METADATA_MAX: usize = 4_608;

/// The name of a header line that is kept with an object, in lower case, and its value. A contract sees it as both texts.
#[derive(Drop)]
pub struct MetadataEntry {
    name: Vec<u8>,
    value: Vec<u8>,
}

impl Model for MetadataEntry {
    ghost use Rattle.s3_versions.specs.Metadata.{Entry, coded_entry};

    ghost Value = { Entry };

    ghost coded = { coded_entry };

    ghost view = { λ entry. record { name = entry.name.items; value = entry.value.items } };
}

impl MetadataEntry {
    /// The entry of a name and a value, which are moved and not copied.
    pub fn new(name: Vec<u8>, value: Vec<u8>) -> MetadataEntry
        ensures { result ≡ record { name = name.items; value = value.items } }
    {
        MetadataEntry { name, value }
    }

    /// The name of the header line.
    pub fn name(&self) -> &[u8]
        ensures { result.now ≡ self.now.name }
    {
        self.name.as_slice()
    }

    /// The value.
    pub fn value(&self) -> &[u8]
        ensures { result.now ≡ self.now.value }
    {
        self.value.as_slice()
    }

    // Whether it is user-defined.
    fn is_user_defined(&self) -> bool
        ensures { result ≡ is_user_defined self.now }
    {
        self.name().starts_with(USER_FRONT)
    }

    // Whether there may be such an entry.
    fn is_allowed(&self) -> bool
        ensures { result ≡ is_allowed self.now }
    {
        self.is_user_defined() || is_plain(self.value())
    }

    /// A copy, at the cost of its bytes.
    pub fn copy(&self, alloc: Global) -> Result<MetadataEntry, NoMemory>
        ensures { IfOk result (λ copied. copied ≡ self.now) }
    {
        let name = Vec::from_slice(alloc, self.name())?;
        let value = Vec::from_slice(alloc, self.value())?;
        Ok(MetadataEntry { name, value })
    }
}

/// The metadata of an object (Amazon S3 User Guide, "Working with object metadata"): at most 64 header lines that are kept with it.
/// User-defined ones begin with `x-amz-meta-`, and have 2,048 bytes at most without that. The value of each other one has at most 255
/// bytes and no control byte, and all have 4,608 bytes at most. The names rise in the order of bytes, and each comes once. Replies tell the entries in this
/// order. A contract sees the list of the entries.
///
/// ```
/// let mut entries = Vec::new(alloc);
/// entries.push(MetadataEntry::new(encoding, gzip))?;   // the names are `content-encoding` and `x-amz-meta-colour`
/// entries.push(MetadataEntry::new(colour, red))?;
/// let metadata = Metadata::new(entries)?;
/// ```
#[derive(Drop)]
pub struct Metadata {
    entries: Vec<MetadataEntry>,
}

impl Model for Metadata {
    ghost use Rattle.std.specs.Prelude.{List, ◌≡◌, ◌≤◌, length, Ok};
    ghost use Rattle.std.specs.Coded.{coded_list};
    ghost use Rattle.s3_versions.specs.Metadata.{Entry, coded_entry, AreInOrder, metadata, metadata_size};

    ghost Value = { List Entry };

    ghost coded = { coded_list coded_entry };

    ghost view = { λ kept. kept.entries.items };

    ghost invariant = { λ kept. (length kept.entries.items ≤ 64)
        × (metadata_size kept.entries.items ≤ 4_608)
        × (metadata kept.entries.items ≡ Ok kept.entries.items)
        × AreInOrder kept.entries.items };
}

impl Metadata {
    /// The metadata of these entries, which are moved and not copied. The caller sorts their names, and leaves each name once.
    ///
    /// # Errors
    ///
    /// `MetadataTooLarge` above 2,048 bytes that are user-defined, `InvalidArgument` where another value has more than 255 bytes
    /// or a control byte, and `MetadataTooLarge` above 4,608 bytes of all.
    #[tactic(auto, unfolding(crate::specs::Metadata::metadata))]
    pub fn new(entries: Vec<MetadataEntry>) -> Result<Metadata, Code>
        requires few { length entries.items ≤ 64 }
        requires order { AreInOrder entries.items }
        ensures { result ≡ metadata entries.items }
    {
        if !user_defined_fit(&entries, USER_MAX) {
            return Err(Code::MetadataTooLarge);
        }
        if !are_allowed(&entries) {
            return Err(Code::InvalidArgument);
        }
        if !fits(&entries, METADATA_MAX) {
            return Err(Code::MetadataTooLarge);
        }
        Ok(Metadata { entries })
    }

    /// The entries, in the order of their names.
    pub fn entries(&self) -> &[MetadataEntry]
        ensures value { result.now ≡ self.now }
        ensures order { AreInOrder self.now }
        ensures count { length self.now ≤ 64 }
        ensures size { metadata_size self.now ≤ 4_608 }
        ensures allowed { metadata self.now ≡ Ok self.now }
    {
        self.entries.as_slice()
    }

    /// A copy, at the cost of its bytes.
    pub fn copy(&self, alloc: Global) -> Result<Metadata, NoMemory>
        ensures { IfOk result (λ copied. copied ≡ self.now) }
    {
        let mut entries = Vec::new(alloc);
        for entry in &self.entries {
            entries.push(entry.copy(alloc)?)?;
        }
        Ok(Metadata { entries })
    }
}

// Whether the entries have no more bytes than that.
fn fits(entries: &[MetadataEntry], room: usize) -> bool
    ensures { result ≡ nat_le (metadata_size entries.now) room }
{
    match entries {
        [] => true,
        [entry, rest @ ..] => {
            let name = entry.name().len();
            let value = entry.value().len();
            name <= room && value <= room - name && fits(rest, room - name - value)
        }
    }
}

// Whether those of the entries that are user-defined have no more bytes than that, without what their names begin with.
fn user_defined_fit(entries: &[MetadataEntry], room: usize) -> bool
    ensures { result ≡ nat_le (user_size entries.now) room }
{
    match entries {
        [] => true,
        [entry, rest @ ..] => {
            if !entry.is_user_defined() {
                return user_defined_fit(rest, room);
            }
            let name = entry.name().len() - USER_FRONT.len();
            let value = entry.value().len();
            name <= room && value <= room - name && user_defined_fit(rest, room - name - value)
        }
    }
}

// Whether there may be such entries.
fn are_allowed(entries: &[MetadataEntry]) -> bool
    ensures { result ≡ list_all is_allowed entries.now }
{
    match entries {
        [] => true,
        [entry, rest @ ..] => entry.is_allowed() && are_allowed(rest),
    }
}

// Whether a system-defined entry may have the value.
fn is_plain(value: &[u8]) -> bool
    ensures { result ≡ is_plain value.now }
{
    value.len() <= VALUE_MAX && are_printed(value)
}

// Whether none of the bytes is a control byte.
fn are_printed(bytes: &[u8]) -> bool
    ensures { result ≡ list_all is_printed bytes.now }
{
    match bytes {
        [] => true,
        [byte, rest @ ..] => *byte >= 32 && *byte != 127 && are_printed(rest),
    }
}
