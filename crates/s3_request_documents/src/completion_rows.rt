//! The rows of a completion in XML, as far as they were read.
ghost use Rattle.std.specs.Prelude.{◌≡◌, ◌&&◌, nat_lt, if◌then◌else◌, [], ◌∷◌, ◌++◌, option_map, is_some, IfOk, OnOk};
ghost use Rattle.std.specs.List.{cons_option};
ghost use Rattle.s3_conditions.specs.Tags.{unquoted};
ghost use Rattle.s3_xml_reader.specs.Place.{as_ended};
ghost use Rattle.s3_request_documents.specs.CompletionTold.{no_fields, tag_with, number_with, with_field, number_of, part_of, with_row, with_element};
ghost use Rattle.s3_request_documents.specs.Xml.{is_named};

use crate::completion::PARTS_MAX;
use crate::completion_numbers::part_number_told;
use s3_conditions::unquoted;
use s3_names::PartNumber;
use s3_uploads::{ListedPart, ListedParts, ListedTag};
use s3_xml_reader::Element;
use std::alloc::{AllocError, Global};
use std::marker::Model;

/// What the fields of a row tell, as far as they were read: a tag without the quotes at its ends, and whether there is
/// a number, and the number of a part that it is.
#[derive(Drop)]
pub(crate) struct Fields {
    tag: Option<ListedTag>,
    number: Option<Option<PartNumber>>,
}

/// The parts that were listed. A contract sees them as a list.
#[derive(Drop)]
pub(crate) struct Parts {
    listed: Vec<ListedPart>,
}

impl Model for Parts {
    ghost use Rattle.std.specs.Prelude.{List};
    ghost use Rattle.s3_uploads.specs.declared.listed.ListedPart.{ListedPart};

    ghost Value = { List ListedPart };

    ghost view = { λ parts. parts.listed.items };
}

/// The rows that were read: the fields of the one that hasn't ended, the parts that are listed, how many rows there
/// are, where more than 10,001 count as so many, and whether each has a tag and a number, and a number that a part may
/// have.
#[derive(Drop)]
pub(crate) struct Rows {
    pub(crate) fields: Fields,
    pub(crate) parts: Parts,
    pub(crate) count: usize,
    pub(crate) are_parts: bool,
    pub(crate) are_numbered: bool,
}

impl Parts {
    /// None.
    pub(crate) fn new(alloc: Global) -> Parts
        ensures { result ≡ [] }
    {
        Parts {
            listed: Vec::new(alloc),
        }
    }

    // One more.
    fn push(&mut self, part: ListedPart) -> Result<(), AllocError>
        ensures { OnOk result (self.new ≡ self.old ++ part ∷ []) }
    {
        self.listed.push(part)?;
        Ok(())
    }

    /// Those that are listed.
    pub(crate) fn listed(self) -> ListedParts
        ensures { result ≡ self }
    {
        let Parts { listed } = self;
        ListedParts::new(listed)
    }
}

impl Fields {
    /// None has been read.
    pub(crate) fn new() -> Fields
        ensures { result ≡ no_fields }
    {
        Fields {
            tag: None,
            number: None,
        }
    }
}

// The tag of a text.
fn tag_of(alloc: Global, text: &[u8]) -> Result<ListedTag, AllocError>
    ensures { IfOk result (λ tag. tag ≡ unquoted text.now) }
{
    Ok(ListedTag::new(Vec::from_slice(alloc, unquoted(text))?))
}

// The tag with one more field.
fn tag_with(
    alloc: Global,
    tag: Option<ListedTag>,
    element: &Element<'_>,
) -> Result<Option<ListedTag>, AllocError>
    ensures { IfOk result (λ new. new ≡ tag_with tag (as_ended element.now)) }
{
    if element.name == b"ETag".as_slice() {
        Ok(Some(tag_of(alloc, element.content.as_slice())?))
    } else {
        Ok(tag)
    }
}

// The number with one more field.
fn number_with(
    number: Option<Option<PartNumber>>,
    element: &Element<'_>,
) -> Option<Option<PartNumber>>
    ensures { result ≡ number_with number (as_ended element.now) }
{
    if element.name == b"PartNumber".as_slice() {
        part_number_told(element.content.as_slice())
    } else {
        number
    }
}

// One more field.
fn with_field(alloc: Global, fields: Fields, element: &Element<'_>) -> Result<Fields, AllocError>
    ensures { IfOk result (λ new. new ≡ with_field fields (as_ended element.now)) }
{
    let Fields { tag, number } = fields;
    let tag = tag_with(alloc, tag, element)?;
    let number = number_with(number, element);
    Ok(Fields { tag, number })
}

// Whether fields tell a tag and a number.
fn tells_part(fields: &Fields) -> bool
    ensures { result ≡ (is_some fields.now.tag && is_some fields.now.number) }
{
    fields.tag.is_some() && fields.number.is_some()
}

// The number of a part that fields tell, if they tell one.
fn number_of(fields: &Fields) -> Option<PartNumber>
    ensures { result ≡ number_of fields.now }
{
    fields.number?
}

// The part that fields list, if they tell one.
fn part_of(fields: Fields) -> Option<ListedPart>
    ensures { result ≡ part_of fields }
{
    let number = number_of(&fields);
    match (fields.tag, number) {
        (Some(tag), Some(number)) => Some(ListedPart { number, tag }),
        _ => None,
    }
}

// One more part, if there is one and there may be so many.
fn with_part(parts: Parts, part: Option<ListedPart>, count: usize) -> Result<Parts, AllocError>
    ensures { IfOk result (λ new. new ≡ (if nat_lt count 10_000 then parts ++ cons_option part [] else parts)) }
{
    let mut parts = parts;
    if count < PARTS_MAX {
        if let Some(part) = part {
            parts.push(part)?;
        }
    }
    Ok(parts)
}

// A row ends.
fn with_row(rows: Rows) -> Result<Rows, AllocError>
    ensures { IfOk result (λ new. new ≡ with_row rows) }
{
    let Rows {
        fields,
        parts,
        count,
        are_parts,
        are_numbered,
    } = rows;
    let is_part = tells_part(&fields);
    let is_numbered = number_of(&fields).is_some();
    let parts = with_part(parts, part_of(fields), count)?;
    Ok(Rows {
        fields: Fields::new(),
        parts,
        count: if count > PARTS_MAX { count } else { count + 1 },
        are_parts: are_parts && is_part,
        are_numbered: are_numbered && is_numbered,
    })
}

/// An element ends.
pub(crate) fn with_element(
    alloc: Global,
    rows: Rows,
    element: &Element<'_>,
) -> Result<Rows, AllocError>
    ensures { IfOk result (λ new. new ≡ with_element rows (as_ended element.now)) }
{
    let mut rows = rows;
    if element.level == 3 {
        rows.fields = with_field(alloc, rows.fields, element)?;
        return Ok(rows);
    }
    if element.level != 2 {
        return Ok(rows);
    }
    if element.name == b"Part".as_slice() {
        return with_row(rows);
    }
    rows.fields = Fields::new();
    Ok(rows)
}
