//! What is told of the objects that a DeleteObjects names, as a document.
ghost use Rattle.std.specs.Prelude.{◌≡◌, ◌+◌, ◌*◌, ◌≤◌, Bool, true, List, [], ◌++◌, length, codes, vec_capacity, Option, option_map, IfOk, OnOk};
ghost use Rattle.std.specs.List.{flat_map};
ghost use Rattle.s3_deletions.specs.Deletions.{row_told, rows_told};
ghost use Rattle.s3_deletions.specs.declared.told.DeletionRow.TheVariants as rows;
ghost use Rattle.s3_documents.specs.Deleted.{id_value, deleted_fields, fault_fields};
ghost use Rattle.s3_documents.specs.Document.{deletions};
ghost use Rattle.s3_documents.specs.Printed.{fields_of, value_of, IsRoomFor};
ghost use Rattle.s3_documents.specs.Spelling.{document_text};
ghost use Rattle.s3_documents.specs.Tree.{text, truth};
ghost use Rattle.s3_documents.specs.VersionList.{marker_told};
ghost use Rattle.s3_documents.specs.Xml.{plain, element_of, deletion_events, events_of};
ghost use Rattle.s3_names.specs.declared.ids.VersionId.{VersionId as VersionIdAs};
ghost use Rattle.s3_xml.specs.Printed.{markup};
ghost use Rattle.s3_xml.specs.Writer.{TakesRoom};

use crate::printer::{Field, Leaf, Printer, text_of};
use crate::reserved::{Told, room_taken, text_in};
use crate::room::{room_of_fields, room_of_text};
use crate::texts::{id_told, key_told, text_told};
use crate::xml::{PLAIN, put_element};
use s3_deletions::{Deletion, DeletionFault, KeyDeletion, Markers, NamedObject};
use s3_names::VersionId;
use s3_prefixes::Text;
use s3_terms::{Dialect, NoMemory};
use s3_xml::Writer;
use std::alloc::{AllocError, Global};

/// No row of what is gone takes more room, beside that for its key.
const ROW_MAX: usize = 359;

/// The document of a DeleteObjects, for later: what was asked for, and the ids of the delete markers, as far as they are
/// known.
#[derive(Drop)]
pub(crate) struct DeletionsList {
    pub deletion: Deletion,
    pub markers: Markers,
}

/// The same, and the room for its text, whatever the ids of the delete markers.
#[derive(Drop)]
pub(crate) struct DeletionsReserved {
    pub list: DeletionsList,
    room: Vec<u8>,
    ghost empty: { room.items ≡ [] },
    ghost suffices: { (markers : List (Option VersionIdAs)) → length (markup (events_of (deletions list.deletion.is_quiet (rows_told list.deletion.objects markers)))) + 192 ≤ vec_capacity room },
}

impl DeletionsReserved {
    /// Takes the room. No delete marker is known yet.
    pub fn of(alloc: Global, deletion: Deletion) -> Result<DeletionsReserved, NoMemory>
        ensures { IfOk result (λ reserved. reserved.list.deletion ≡ deletion) }
    {
        let room = room_taken(alloc, room_of_rows(deletion.objects.as_slice()))?;
        let markers = Markers::new(Vec::new(alloc));
        let list = DeletionsList { deletion, markers };
        Ok(DeletionsReserved { list, room })
    }

    /// Prints the text into the room. It takes no memory.
    pub fn text(self, dialect: Dialect) -> Vec<u8>
        ensures { result.items ≡ document_text dialect (deletions self.list.deletion.is_quiet (rows_told self.list.deletion.objects self.list.markers)) }
    {
        let DeletionsReserved { list, room } = self;
        text_in(&list, room, dialect)
    }
}

impl Told for DeletionsList {
    ghost document = { λ list. deletions list.deletion.is_quiet (rows_told list.deletion.objects list.markers) };

    // Nothing: JSON has no such document.
    fn print(&self, _printer: &mut Printer) -> Result<(), AllocError> {
        Ok(())
    }

    fn root(&self) -> &'static str {
        "DeleteResult"
    }

    fn write(&self, writer: &mut Writer) -> Result<(), AllocError> {
        let objects = self.deletion.objects.as_slice();
        put_rows(
            writer,
            self.deletion.is_quiet,
            objects,
            self.markers.as_slice(),
        )
    }

    fn room(&self) -> usize {
        room_of_rows(self.deletion.objects.as_slice())
    }
}

// Prints the rows of objects, by the ids that are told of their delete markers.
#[tactic(auto, using(crate::proofs::DeletionLemmas::first_text, crate::proofs::DeletionLemmas::first_length))]
fn put_rows(
    writer: &mut Writer,
    is_quiet: bool,
    objects: &[NamedObject],
    markers: &[Option<VersionId>],
) -> Result<(), AllocError>
    ensures told { OnOk result (writer.new.bytes
        ≡ writer.old.bytes ++ markup (flat_map (deletion_events is_quiet) (rows_told objects.now markers.now))) }
    ensures room { TakesRoom result writer.old.spare writer.new.spare (flat_map (deletion_events is_quiet) (rows_told objects.now markers.now)) }
{
    for (object, marker) in objects.iter().zip(markers) {
        put_row(writer, is_quiet, object, *marker)?;
    }
    Ok(())
}

// Prints the row of an object.
fn put_row(
    writer: &mut Writer,
    is_quiet: bool,
    object: &NamedObject,
    marker: Option<VersionId>,
) -> Result<(), AllocError>
    ensures told { OnOk result (writer.new.bytes ≡ writer.old.bytes ++ markup (deletion_events is_quiet (row_told object.now marker))) }
    ensures room { TakesRoom result writer.old.spare writer.new.spare (deletion_events is_quiet (row_told object.now marker)) }
{
    match object {
        NamedObject::Object(deletion) => put_deleted(writer, is_quiet, deletion, marker),
        NamedObject::Fault(fault) => put_element(writer, PLAIN, "Error", &fault_told(fault)),
    }
}

// Prints what is gone, unless only faults are told.
fn put_deleted(
    writer: &mut Writer,
    is_quiet: bool,
    deletion: &KeyDeletion,
    marker: Option<VersionId>,
) -> Result<(), AllocError>
    ensures told { OnOk result (writer.new.bytes
        ≡ writer.old.bytes ++ markup (deletion_events is_quiet (rows.Deleted deletion.now.key deletion.now.version marker))) }
    ensures room { TakesRoom result writer.old.spare writer.new.spare (deletion_events is_quiet (rows.Deleted deletion.now.key deletion.now.version marker)) }
{
    if is_quiet {
        return Ok(());
    }
    let marker_id = id_told(marker);
    let version_id = id_told(deletion.version);
    let fields = deleted_told(deletion, marker, text_of(&marker_id), text_of(&version_id));
    put_element(writer, PLAIN, "Deleted", &fields)
}

// What is told of what is gone; these are the texts of the ids of the delete marker and of the version that was named.
fn deleted_told<'a>(
    deletion: &'a KeyDeletion,
    marker: Option<VersionId>,
    marker_id: &'a str,
    version_id: &'a str,
) -> [Field<'a>; 4]
    requires marker { marker_id.now ≡ marker_told marker }
    requires version { version_id.now ≡ marker_told deletion.now.version }
    ensures { fields_of result ≡ deleted_fields deletion.now.key deletion.now.version marker }
{
    [
        Field {
            name: "DeleteMarker",
            value: marker_leaf(marker),
        },
        Field {
            name: "DeleteMarkerVersionId",
            value: id_leaf(marker, marker_id),
        },
        Field {
            name: "Key",
            value: Leaf::Text(key_told(&deletion.key)),
        },
        Field {
            name: "VersionId",
            value: id_leaf(deletion.version, version_id),
        },
    ]
}

// What is told of what can't be deleted.
fn fault_told(fault: &DeletionFault) -> [Field<'_>; 4]
    ensures { fields_of result ≡ fault_fields fault.now }
{
    [
        Field {
            name: "Code",
            value: Leaf::Text(fault.code.name()),
        },
        Field {
            name: "Key",
            value: Leaf::Text(text_told(&fault.key)),
        },
        Field {
            name: "Message",
            value: Leaf::Text(fault.code.message()),
        },
        Field {
            name: "VersionId",
            value: version_leaf(&fault.version),
        },
    ]
}

// That there is a delete marker, if there is one.
fn marker_leaf(marker: Option<VersionId>) -> Leaf<'static>
    ensures { value_of result ≡ option_map (λ id. truth true) marker }
{
    match marker {
        Some(_) => Leaf::Truth(true),
        None => Leaf::Absent,
    }
}

// The id of a version, whose text this is, if there is one.
fn id_leaf(id: Option<VersionId>, text: &str) -> Leaf<'_>
    requires { text.now ≡ marker_told id }
    ensures { value_of result ≡ option_map id_value id }
{
    match id {
        Some(_) => Leaf::Text(text),
        None => Leaf::Absent,
    }
}

// The id of a version as it was sent, if one was.
fn version_leaf(version: &Option<Text>) -> Leaf<'_>
    ensures { value_of result ≡ option_map text version.now }
{
    match version {
        Some(version) => Leaf::Text(text_told(version)),
        None => Leaf::Absent,
    }
}

// The room for the rows of objects, whatever is told of their delete markers.
fn room_of_rows(objects: &[NamedObject]) -> usize
    ensures { (is_quiet : Bool) → (markers : List (Option VersionIdAs))
        → IsRoomFor result (length (markup (flat_map (deletion_events is_quiet) (rows_told objects.now markers)))) }
{
    let mut room = 0usize;
    for object in objects {
        room = room.saturating_add(room_of_row(object));
    }
    room
}

// The same of one object.
fn room_of_row(object: &NamedObject) -> usize
    ensures { (is_quiet : Bool) → (marker : Option VersionIdAs)
        → IsRoomFor result (length (markup (deletion_events is_quiet (row_told object.now marker)))) }
{
    match object {
        NamedObject::Object(deletion) => room_of_deleted(deletion.key.as_bytes().len()),
        NamedObject::Fault(fault) => room_of_fault(fault),
    }
}

// The room for the row of what is gone, whose key has so many bytes.
fn room_of_deleted(key_len: usize) -> usize
    ensures { IsRoomFor result (6 * key_len + 363) }
{
    room_of_text(key_len).saturating_add(ROW_MAX)
}

// The room for the row of what can't be deleted.
fn room_of_fault(fault: &DeletionFault) -> usize
    ensures { IsRoomFor result (length (markup (element_of plain (codes "Error") (fault_fields fault.now)))) }
{
    room_of_text("Error".len()).saturating_add(room_of_fields(&fault_told(fault)))
}
