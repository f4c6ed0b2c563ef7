//! What the head of a put, or of the beginning of an upload, says of its object: its media type and its metadata.
ghost use Rattle.std.specs.Prelude.{◌≡◌, ◌++◌, ◌∷◌, [], ◌≤◌, not, if◌then◌else◌, filter, map, length, IfOk, OnOk};
ghost use Rattle.std.specs.List.{dedup, filter_map, join_with_byte};
ghost use Rattle.std.specs.List.Sorted.{IsStrictlySortedBy};
ghost use Rattle.std.specs.Str.{bytes_eq};
ghost use Rattle.s3_text.specs.Cut.{parts_at};
ghost use Rattle.s3_text.specs.Order.{byte_order};
ghost use Rattle.s3_text.specs.Sorting.{sorted_by};
ghost use Rattle.std.specs.Option.{option_copied, option_to_list};
ghost use Rattle.s3_terms.specs.Fault.{Follows, FollowsToEnd};
ghost use Rattle.s3_text.specs.Characters.{comma};
ghost use Rattle.s3_http_heads.specs.Head.{values_of};
ghost use Rattle.s3_versions.specs.Metadata.{AreInOrder};
ghost use Rattle.s3_requests.specs.Description as rules;
ghost use Rattle.s3_requests.specs.Memory.{DescriptionTakes, FollowsWhere};
ghost use Rattle.s3_requests.specs.Name.{texts};

use crate::line_names::begins_with;
use crate::operations::is_xml;
use s3_http_heads::{Head, is_named, trimmed};
use s3_machine::Description;
use s3_terms::{Code, Dialect};
use s3_versions::{ContentType, Metadata, MetadataEntry};
use std::alloc::{AllocError, Global};

/// The media type of an object where none is named.
const DEFAULT_TYPE: &[u8] = b"binary/octet-stream";

/// How the names of user-defined metadata begin.
const USER_FRONT: &[u8] = b"x-amz-meta-";

// What is said of the object: `InvalidArgument` of its media type, and then the fault of its metadata.
#[tactic(auto, unfolding(crate::specs::Description::description_of))]
pub(crate) fn description_of(
    alloc: Global,
    dialect: Dialect,
    head: &Head,
) -> Result<Description, Code>
    ensures { FollowsWhere (DescriptionTakes head.now) result (rules.description_of dialect head.now) }
{
    let content_type = content_type_of(alloc, head)?;
    let metadata = metadata_of(alloc, dialect, head)?;
    Ok(Description {
        content_type,
        metadata,
    })
}

// The media type of the object: the value of the first Content-Type line, or the default. `InvalidArgument` above
// 255 bytes.
#[tactic(auto, unfolding(crate::specs::Description::content_type_of))]
fn content_type_of(alloc: Global, head: &Head) -> Result<ContentType, Code>
    ensures { FollowsToEnd result (rules.content_type_of head.now) }
{
    ContentType::read(alloc, type_sent(head.first(b"content-type")))
}

// The type that was sent, or the default.
fn type_sent<'a>(sent: Option<&'a [u8]>) -> &'a [u8]
    ensures { result.now ≡ rules.type_sent (option_copied sent.entry) }
{
    match sent {
        Some(sent) => sent,
        None => DEFAULT_TYPE,
    }
}

// The metadata of the object: `MetadataTooLarge` or `InvalidArgument`, as `Metadata::new` judges it.
#[tactic(auto, unfolding(crate::specs::Description::metadata_of))]
fn metadata_of(alloc: Global, dialect: Dialect, head: &Head) -> Result<Metadata, Code>
    ensures { Follows result (rules.metadata_of dialect head.now) }
{
    match entries_of(alloc, dialect, head) {
        Ok(entries) => Metadata::new(entries),
        Err(AllocError) => Err(Code::InternalError),
    }
}

// The entries of the metadata, in the order of their names.
fn entries_of(
    alloc: Global,
    dialect: Dialect,
    head: &Head,
) -> Result<Vec<MetadataEntry>, AllocError>
    ensures value { IfOk result (λ entries. entries.items ≡ rules.entries_of dialect head.now) }
    ensures order { IfOk result (λ entries. AreInOrder entries.items) }
    ensures count { IfOk result (λ entries. length entries.items ≤ 64) }
{
    head.has_few_lines();
    let mut names = names_sent(alloc, dialect, head)?;
    put_in_order(&mut names)?;
    let entries = entries_under(alloc, head, &names)?;
    Ok(entries)
}

// Sorts names by their bytes, and leaves each once.
#[tactic(auto, using(crate::proofs::DescriptionLemmas::names_in_order))]
fn put_in_order(names: &mut Vec<Name>) -> Result<(), AllocError>
    ensures value { OnOk result (texts names.new.items ≡ dedup bytes_eq (sorted_by byte_order (texts names.old.items))) }
    ensures order { OnOk result (IsStrictlySortedBy byte_order (texts names.new.items)) }
    ensures count { OnOk result (length names.new.items ≤ length names.old.items) }
{
    names.sort()?;
    names.dedup();
    Ok(())
}

/// A name of metadata, in lower case. Its order is that of its bytes.
#[derive(Drop, PartialEq, Eq, PartialOrd, Ord)]
pub(crate) struct Name {
    text: Vec<u8>,
}

// The names under which header lines are kept, as they come.
fn names_sent(alloc: Global, dialect: Dialect, head: &Head) -> Result<Vec<Name>, AllocError>
    ensures { IfOk result (λ names. texts names.items
        ≡ filter_map (λ line. rules.name_in dialect line.0) head.now.headers) }
{
    let mut names = Vec::new(alloc);
    for index in 0..head.header_count() {
        push_name(alloc, dialect, head.header(index).0, &mut names)?;
    }
    Ok(names)
}

// Appends the name under which a header line is kept, if it is.
fn push_name(
    alloc: Global,
    dialect: Dialect,
    sent: &[u8],
    names: &mut Vec<Name>,
) -> Result<(), AllocError>
    ensures { IfOk result (λ _. texts names.new.items
        ≡ texts names.old.items ++ option_to_list (rules.name_in dialect sent.now)) }
{
    if is_kept(dialect, sent) {
        let text = sent.to_ascii_lowercase(alloc)?;
        names.push(Name { text })?;
    }
    Ok(())
}

// Whether header lines of a name are kept with an object.
fn is_kept(dialect: Dialect, sent: &[u8]) -> bool
    ensures { result ≡ rules.is_kept dialect sent.now }
{
    begins_with(sent, USER_FRONT) || (is_xml(dialect) && is_system_name(sent))
}

// Whether they are system-defined metadata.
fn is_system_name(sent: &[u8]) -> bool
    ensures { result ≡ rules.is_system_name sent.now }
{
    is_named(sent, b"cache-control")
        || is_named(sent, b"content-disposition")
        || is_named(sent, b"content-encoding")
        || is_named(sent, b"content-language")
        || is_named(sent, b"expires")
}

// Those of the names that say something, each with its value.
fn entries_under(
    alloc: Global,
    head: &Head,
    names: &[Name],
) -> Result<Vec<MetadataEntry>, AllocError>
    ensures { IfOk result (λ entries. entries.items ≡ filter rules.is_said (map (rules.entry_of head.now) (texts names.now))) }
{
    let mut entries = Vec::new(alloc);
    for name in names {
        push_entry(entry_under(alloc, head, &name.text)?, &mut entries)?;
    }
    Ok(entries)
}

// Appends an entry, if it says something.
fn push_entry(entry: MetadataEntry, entries: &mut Vec<MetadataEntry>) -> Result<(), AllocError>
    ensures { IfOk result (λ _. entries.new.items ≡ entries.old.items ++ filter rules.is_said (entry ∷ [])) }
{
    if is_said(&entry) {
        entries.push(entry)?;
    }
    Ok(())
}

// Whether an entry says something: a user-defined one may be empty.
fn is_said(entry: &MetadataEntry) -> bool
    ensures { result ≡ rules.is_said entry.now }
{
    entry.name().starts_with(USER_FRONT) || !entry.value().is_empty()
}

// The name with its value.
fn entry_under(alloc: Global, head: &Head, name: &[u8]) -> Result<MetadataEntry, AllocError>
    ensures { IfOk result (λ entry. entry ≡ rules.entry_of head.now name.now) }
{
    let value = value_under(alloc, head, name)?;
    let name = Vec::from_slice(alloc, name)?;
    Ok(MetadataEntry::new(name, value))
}

// What is kept of the values of the lines of a name.
fn value_under(alloc: Global, head: &Head, name: &[u8]) -> Result<Vec<u8>, AllocError>
    ensures { IfOk result (λ value. value.items ≡ rules.value_kept name.now (rules.value_sent head.now name.now)) }
{
    let mut value = Vec::new(alloc);
    push_values(head, name, &mut value)?;
    value_kept(alloc, name, value)
}

// What is kept of the value of a name.
fn value_kept(alloc: Global, name: &[u8], value: Vec<u8>) -> Result<Vec<u8>, AllocError>
    ensures { IfOk result (λ kept. kept.items ≡ rules.value_kept name.now value.items) }
{
    if name == b"content-encoding".as_slice() {
        return encoding_kept(alloc, &value);
    }
    Ok(value)
}

// The codings without that of a body that is sent in chunks.
fn encoding_kept(alloc: Global, value: &[u8]) -> Result<Vec<u8>, AllocError>
    ensures { IfOk result (λ kept. kept.items ≡ rules.encoding_kept value.now) }
{
    let codings = codings_kept(alloc, value)?;
    Vec::from_slice(alloc, trimmed(&codings))
}

// The same, with the white space that stood around them.
fn codings_kept(alloc: Global, value: &[u8]) -> Result<Vec<u8>, AllocError>
    ensures { IfOk result (λ codings. codings.items
        ≡ join_with_byte comma (filter (λ coding. not (rules.is_of_transfer coding)) (parts_at comma value.now))) }
{
    let mut codings = Vec::new(alloc);
    let mut found = false;
    for coding in value.split(|byte| *byte == b',') {
        if !is_of_transfer(coding) {
            push_value(coding, found, &mut codings)?;
            found = true;
        }
    }
    Ok(codings)
}

// Whether a coding is that of a body that is sent in chunks.
fn is_of_transfer(coding: &[u8]) -> bool
    ensures { result ≡ rules.is_of_transfer coding.now }
{
    is_named(trimmed(coding), b"aws-chunked")
}

// Appends the values of the lines of a name, joined by commas.
fn push_values(head: &Head, name: &[u8], text: &mut Vec<u8>) -> Result<(), AllocError>
    ensures { IfOk result (λ _. text.new.items ≡ text.old.items ++ join_with_byte comma (values_of name.now head.now)) }
{
    let mut found = false;
    for index in 0..head.header_count() {
        let (sent, value) = head.header(index);
        if is_named(sent, name) {
            push_value(value, found, text)?;
            found = true;
        }
    }
    Ok(())
}

// Appends a value, after a comma where it is not the first one.
fn push_value(value: &[u8], later: bool, text: &mut Vec<u8>) -> Result<(), AllocError>
    ensures { IfOk result (λ _. text.new.items
        ≡ text.old.items ++ (if later then comma ∷ value.now else value.now)) }
{
    if later {
        text.push(b',')?;
    }
    text.extend_from_slice(value)?;
    Ok(())
}
