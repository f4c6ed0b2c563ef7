//! Documents as they are printed in XML: fields and rows, an element after another.
ghost use Rattle.std.specs.Prelude.{◌≡◌, ℕ, List, ◌++◌, decimal, length, OnOk};
ghost use Rattle.std.specs.List.{flat_map};
ghost use Rattle.s3_documents.specs.Printed.{field_of, fields_of, value_of, IsRoomFor};
ghost use Rattle.s3_documents.specs.Xml.{owned_manner, key_told, encoding_told, fields_events, element_of, owner, owner_fields, owner_in, owned, listed, listed_owned};
ghost use Rattle.s3_documents.specs.declared.xml.Manner.{Manner as MannerAs};
ghost use Rattle.s3_canonical.specs.Encoding.{encode_path};
ghost use Rattle.s3_xml.specs.Events.{Event, element, leaf, text_in};
ghost use Rattle.s3_xml.specs.Printed.{markup};
ghost use Rattle.s3_xml.specs.Writer.{TakesRoom};

use crate::encoded::put_encoded;
use crate::printer::{Field, Leaf};
use crate::room::{Bounded, room_of_all, room_of_fields, room_of_text};
use crate::timestamp::timestamp;
use itoa::Buffer;
use s3_xml::Writer;
use std::alloc::AllocError;

/// The owner takes no more room, with what stands round an element beside its name.
const OWNER_MAX: usize = 48;

/// What is asked of the form of a document.
#[derive(Clone, Copy)]
pub(crate) struct Manner {
    /// Keys, and what keys are compared with, are told UriEncoded.
    pub is_url_encoded: bool,
    /// Rows that may have an owner tell it.
    pub tells_owner: bool,
}

/// Nothing is asked.
pub(crate) const PLAIN: Manner = Manner {
    is_url_encoded: false,
    tells_owner: false,
};

/// The manner of a list whose rows have an owner always.
pub(crate) fn owned_manner(is_url_encoded: bool) -> Manner
    ensures { result ≡ owned_manner is_url_encoded }
{
    Manner {
        is_url_encoded,
        tells_owner: true,
    }
}

/// What is printed as an element of a list.
pub(crate) trait Entry {
    ghost events: { MannerAs → Self → List Event };

    /// Prints it.
    fn write(&self, writer: &mut Writer, manner: Manner) -> Result<(), AllocError>
        ensures told { OnOk result (writer.new.bytes ≡ writer.old.bytes ++ markup (events manner self.now)) }
        ensures room { TakesRoom result writer.old.spare writer.new.spare (events manner self.now) };
}

/// Prints entries, one behind another.
#[tactic(auto, using(crate::proofs::XmlLemmas::entries_text_from, crate::proofs::XmlRoomLemmas::entries_room))]
pub(crate) fn put_entries<E: Entry>(
    writer: &mut Writer,
    manner: Manner,
    list: &[E],
) -> Result<(), AllocError>
    ensures told { OnOk result (writer.new.bytes ≡ writer.old.bytes ++ markup (flat_map (E.events manner) list.now)) }
    ensures room { TakesRoom result writer.old.spare writer.new.spare (flat_map (E.events manner) list.now) }
{
    for entry in list {
        entry.write(writer, manner)?;
    }
    Ok(())
}

/// Prints fields, each as an element, those that tell nothing left out.
#[tactic(auto, using(crate::proofs::XmlLemmas::fields_text_from, crate::proofs::XmlRoomLemmas::some_fields_room))]
pub(crate) fn put_fields(
    writer: &mut Writer,
    manner: Manner,
    fields: &[Field<'_>],
) -> Result<(), AllocError>
    ensures told { OnOk result (writer.new.bytes ≡ writer.old.bytes ++ markup (fields_events manner (fields_of fields.now))) }
    ensures room { TakesRoom result writer.old.spare writer.new.spare (fields_events manner (fields_of fields.now)) }
{
    for field in fields {
        put_field(writer, manner, field)?;
    }
    Ok(())
}

/// Prints an element of fields.
pub(crate) fn put_element(
    writer: &mut Writer,
    manner: Manner,
    name: &str,
    fields: &[Field<'_>],
) -> Result<(), AllocError>
    ensures told { OnOk result (writer.new.bytes ≡ writer.old.bytes ++ markup (element_of manner name.now (fields_of fields.now))) }
    ensures room { TakesRoom result writer.old.spare writer.new.spare (element_of manner name.now (fields_of fields.now)) }
{
    writer.begin(name)?;
    put_fields(writer, manner, fields)?;
    writer.end(name)
}

/// Prints whom all belongs to.
pub(crate) fn put_owner(writer: &mut Writer) -> Result<(), AllocError>
    ensures told { OnOk result (writer.new.bytes ≡ writer.old.bytes ++ markup owner) }
    ensures room { TakesRoom result writer.old.spare writer.new.spare owner }
{
    put_element(writer, PLAIN, "Owner", &owner_told())
}

// The same, where it is told.
fn put_owner_in(writer: &mut Writer, manner: Manner) -> Result<(), AllocError>
    ensures told { OnOk result (writer.new.bytes ≡ writer.old.bytes ++ markup (owner_in manner)) }
    ensures room { TakesRoom result writer.old.spare writer.new.spare (owner_in manner) }
{
    if !manner.tells_owner {
        return Ok(());
    }
    put_owner(writer)
}

fn owner_told() -> [Field<'static>; 1]
    ensures { fields_of result ≡ owner_fields }
{
    [Field {
        name: "ID",
        value: Leaf::Text("s3d"),
    }]
}

/// Prints an element of fields between which the owner stands, where it is told.
pub(crate) fn put_owned(
    writer: &mut Writer,
    manner: Manner,
    name: &str,
    before: &[Field<'_>],
    behind: &[Field<'_>],
) -> Result<(), AllocError>
    ensures told { OnOk result (writer.new.bytes ≡ writer.old.bytes ++ markup (owned manner name.now (fields_of before.now) (fields_of behind.now))) }
    ensures room { TakesRoom result writer.old.spare writer.new.spare (owned manner name.now (fields_of before.now) (fields_of behind.now)) }
{
    writer.begin(name)?;
    put_fields(writer, manner, before)?;
    put_owner_in(writer, manner)?;
    put_fields(writer, manner, behind)?;
    writer.end(name)
}

// Prints a field, where it tells something.
fn put_field(writer: &mut Writer, manner: Manner, field: &Field<'_>) -> Result<(), AllocError>
    ensures told { OnOk result (writer.new.bytes ≡ writer.old.bytes ++ markup (fields_events manner (field_of field.now))) }
    ensures room { TakesRoom result writer.old.spare writer.new.spare (fields_events manner (field_of field.now)) }
{
    let name = field.name;
    match field.value {
        Leaf::Text(text) => writer.leaf(name, text.as_bytes()),
        Leaf::Encodable(text) => put_key(writer, manner, name, text),
        Leaf::Number(number) => put_number(writer, name, number),
        Leaf::Truth(true) => writer.leaf(name, b"true"),
        Leaf::Truth(false) => writer.leaf(name, b"false"),
        Leaf::Moment(moment) => writer.leaf(name, &timestamp(moment)),
        Leaf::Absent => Ok(()),
    }
}

// Prints a key as an element, in the way that is asked.
fn put_key(writer: &mut Writer, manner: Manner, name: &str, key: &str) -> Result<(), AllocError>
    ensures told { OnOk result (writer.new.bytes ≡ writer.old.bytes ++ markup (leaf name.now (key_told manner.is_url_encoded key.now))) }
    ensures room { TakesRoom result writer.old.spare writer.new.spare (leaf name.now (key_told manner.is_url_encoded key.now)) }
{
    if !manner.is_url_encoded {
        return writer.leaf(name, key.as_bytes());
    }
    put_encoded_leaf(writer, name, key.as_bytes())
}

// The same, UriEncoded.
fn put_encoded_leaf(writer: &mut Writer, name: &str, key: &[u8]) -> Result<(), AllocError>
    ensures told { OnOk result (writer.new.bytes ≡ writer.old.bytes ++ markup (leaf name.now (encode_path key.now))) }
    ensures room { TakesRoom result writer.old.spare writer.new.spare (leaf name.now (encode_path key.now)) }
{
    writer.begin(name)?;
    put_encoded_text(writer, key)?;
    writer.end(name)
}

// What stands in that.
#[tactic(auto, using(crate::proofs::EncodedLemmas::encoded_markup))]
fn put_encoded_text(writer: &mut Writer, key: &[u8]) -> Result<(), AllocError>
    ensures told { OnOk result (writer.new.bytes ≡ writer.old.bytes ++ markup (text_in (encode_path key.now))) }
    ensures room { TakesRoom result writer.old.spare writer.new.spare (text_in (encode_path key.now)) }
{
    put_encoded(writer, key)
}

/// That keys are told UriEncoded, if they are.
pub(crate) fn encoding_leaf(is_url_encoded: bool) -> Leaf<'static>
    ensures { value_of result ≡ encoding_told is_url_encoded }
{
    if is_url_encoded {
        Leaf::Text("url")
    } else {
        Leaf::Absent
    }
}

// Prints a number as an element.
fn put_number(writer: &mut Writer, name: &str, number: u64) -> Result<(), AllocError>
    ensures told { OnOk result (writer.new.bytes ≡ writer.old.bytes ++ markup (leaf name.now (decimal number))) }
    ensures room { TakesRoom result writer.old.spare writer.new.spare (leaf name.now (decimal number)) }
{
    let mut digits = Buffer::new();
    writer.leaf(name, digits.format(number).as_bytes())
}

// Prints rows with fields in front of them and behind them.
fn put_list<E: Entry>(
    writer: &mut Writer,
    manner: Manner,
    before: &[Field<'_>],
    list: &[E],
    behind: &[Field<'_>],
) -> Result<(), AllocError>
    ensures told { OnOk result (writer.new.bytes
        ≡ writer.old.bytes ++ markup (listed manner (fields_of before.now) (flat_map (E.events manner) list.now) (fields_of behind.now))) }
    ensures room { TakesRoom result writer.old.spare writer.new.spare
        (listed manner (fields_of before.now) (flat_map (E.events manner) list.now) (fields_of behind.now)) }
{
    put_fields(writer, manner, before)?;
    put_entries(writer, manner, list)?;
    put_fields(writer, manner, behind)
}

// The room for that.
#[tactic(auto, using(crate::proofs::XmlRoomLemmas::listed_room))]
fn room_of_listed<E: Bounded>(before: &[Field<'_>], list: &[E], behind: &[Field<'_>]) -> usize
    ensures { (manner : MannerAs) → IsRoomFor result
        (length (markup (listed manner (fields_of before.now) (flat_map (E.events manner) list.now) (fields_of behind.now)))) }
{
    room_of_fields(before)
        .saturating_add(room_of_all(list))
        .saturating_add(room_of_fields(behind))
}

/// The same, with the owner behind the rows.
pub(crate) fn put_list_owned<E: Entry>(
    writer: &mut Writer,
    manner: Manner,
    before: &[Field<'_>],
    list: &[E],
    behind: &[Field<'_>],
) -> Result<(), AllocError>
    ensures told { OnOk result (writer.new.bytes
        ≡ writer.old.bytes ++ markup (listed_owned manner (fields_of before.now) (flat_map (E.events manner) list.now) (fields_of behind.now))) }
    ensures room { TakesRoom result writer.old.spare writer.new.spare
        (listed_owned manner (fields_of before.now) (flat_map (E.events manner) list.now) (fields_of behind.now)) }
{
    put_fields(writer, manner, before)?;
    put_entries(writer, manner, list)?;
    put_owner(writer)?;
    put_fields(writer, manner, behind)
}

/// The room for that.
#[tactic(auto, using(crate::proofs::XmlRoomLemmas::listed_owned_room))]
pub(crate) fn room_of_listed_owned<E: Bounded>(
    before: &[Field<'_>],
    list: &[E],
    behind: &[Field<'_>],
) -> usize
    ensures { (manner : MannerAs) → IsRoomFor result
        (length (markup (listed_owned manner (fields_of before.now) (flat_map (E.events manner) list.now) (fields_of behind.now)))) }
{
    room_of_listed(before, list, behind).saturating_add(OWNER_MAX)
}

/// Prints rows and further rows, with fields in front of them, between them and behind them.
pub(crate) fn put_lists<D: Entry, E: Entry>(
    writer: &mut Writer,
    manner: Manner,
    before: &[Field<'_>],
    list: &[D],
    between: &[Field<'_>],
    more: &[E],
    behind: &[Field<'_>],
) -> Result<(), AllocError>
    ensures told { OnOk result (writer.new.bytes
        ≡ writer.old.bytes ++ markup (fields_events manner (fields_of before.now) ++ flat_map (D.events manner) list.now
        ++ listed manner (fields_of between.now) (flat_map (E.events manner) more.now) (fields_of behind.now))) }
    ensures room { TakesRoom result writer.old.spare writer.new.spare
        (fields_events manner (fields_of before.now) ++ flat_map (D.events manner) list.now
        ++ listed manner (fields_of between.now) (flat_map (E.events manner) more.now) (fields_of behind.now)) }
{
    put_fields(writer, manner, before)?;
    put_entries(writer, manner, list)?;
    put_list(writer, manner, between, more, behind)
}

/// The room for that.
#[tactic(auto, using(crate::proofs::XmlRoomLemmas::appended_room))]
pub(crate) fn room_of_lists<D: Bounded, E: Bounded>(
    before: &[Field<'_>],
    list: &[D],
    between: &[Field<'_>],
    more: &[E],
    behind: &[Field<'_>],
) -> usize
    ensures { (manner : MannerAs) → IsRoomFor result
        (length (markup (fields_events manner (fields_of before.now) ++ flat_map (D.events manner) list.now
        ++ listed manner (fields_of between.now) (flat_map (E.events manner) more.now) (fields_of behind.now)))) }
{
    room_of_fields(before)
        .saturating_add(room_of_all(list))
        .saturating_add(room_of_listed(between, more, behind))
}

/// Prints rows in an element of their own.
pub(crate) fn put_within<E: Entry>(
    writer: &mut Writer,
    manner: Manner,
    name: &str,
    list: &[E],
) -> Result<(), AllocError>
    ensures told { OnOk result (writer.new.bytes ≡ writer.old.bytes ++ markup (element name.now (flat_map (E.events manner) list.now))) }
    ensures room { TakesRoom result writer.old.spare writer.new.spare (element name.now (flat_map (E.events manner) list.now)) }
{
    writer.begin(name)?;
    put_entries(writer, manner, list)?;
    writer.end(name)
}

/// The room for that and for the owner behind it.
#[tactic(auto, using(crate::proofs::XmlRoomLemmas::within_room))]
pub(crate) fn room_within<E: Bounded>(name: &str, list: &[E]) -> usize
    ensures { (manner : MannerAs) → IsRoomFor result (length (markup (element name.now (flat_map (E.events manner) list.now) ++ owner))) }
{
    room_of_text(name.len())
        .saturating_add(room_of_all(list))
        .saturating_add(OWNER_MAX)
}
