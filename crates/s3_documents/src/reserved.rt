//! Documents that are printed later, into room that was taken before.
ghost use Rattle.std.specs.Prelude.{◌≡◌, ℕ, ◌+◌, ◌<◌, ◌≤◌, [], ◌++◌, length, vec_capacity, IfOk, OnOk, OnErr};
ghost use Rattle.s3_documents.specs.Document.{Document, tree_of};
ghost use Rattle.s3_documents.specs.Printed.{branches_tokens, begun, room_of, TakesRoom, IsRoomFor};
ghost use Rattle.s3_documents.specs.Spelling.{document_text};
ghost use Rattle.s3_documents.specs.Tree.{tree_text};
ghost use Rattle.s3_documents.specs.Xml.{namespace, root_of, namespace_of, events_of};
ghost use Rattle.s3_xml.specs.Printed.{markup, document_text as xml_text};
ghost use Rattle.s3_xml.specs.Writer as xml;

use crate::printer::Printer;
use s3_terms::{Dialect, NoMemory};
use s3_xml::Writer;
use std::alloc::{AllocError, Global};
use std::marker::Model;

/// The namespace of all documents that are printed here.
const NAMESPACE: &str = "http://s3.amazonaws.com/doc/2006-03-01/";

/// What stands round the events of a document takes no more room, and no more do the brackets round its tree.
const FRAME_MAX: usize = 192;

/// What a document tells, by the facts from which it is printed later.
pub(crate) trait Told: Drop {
    ghost document: { Self → Document };

    /// Prints all of it as JSON.
    fn print(&self, printer: &mut Printer) -> Result<(), AllocError>
        ensures tokens { OnOk result (printer.old.tokens ≡ begun [] → printer.new.tokens ≡ begun (tree_of (document self.now))) }
        ensures room { TakesRoom result printer.old.spare printer.new.spare (branches_tokens (tree_of (document self.now))) };

    /// The name of its root in XML, which has the namespace of S3.
    fn root(&self) -> &'static str
        ensures name { result.now ≡ root_of (document self.now) }
        ensures namespace { namespace_of (document self.now) ≡ namespace };

    /// Prints all that stands in the root.
    fn write(&self, writer: &mut Writer) -> Result<(), AllocError>
        ensures told { OnOk result (writer.new.bytes ≡ writer.old.bytes ++ markup (events_of (document self.now))) }
        ensures room { xml.TakesRoom result writer.old.spare writer.new.spare (events_of (document self.now)) };

    /// No less room than either takes.
    fn room(&self) -> usize
        ensures json { IsRoomFor result (room_of (branches_tokens (tree_of (document self.now)))) }
        ensures xml { IsRoomFor result (length (markup (events_of (document self.now)))) };
}

/// What a document tells, and the room for its text, however it is spelled. Contracts see it as what it tells.
#[derive(Drop)]
pub(crate) struct Reserved<P: Told> {
    told: P,
    room: Vec<u8>,
}

impl<P: Told> Model for Reserved<P> {
    ghost use Rattle.std.specs.Prelude.{◌≡◌, ◌+◌, ◌≤◌, [], length, vec_capacity};
    ghost use Rattle.s3_documents.specs.Document.{Document, tree_of};
    ghost use Rattle.s3_documents.specs.Printed.{branches_tokens, room_of};
    ghost use Rattle.s3_documents.specs.Xml.{events_of};
    ghost use Rattle.s3_xml.specs.Printed.{markup};

    ghost Value = { Document };

    ghost view = { λ r. P.document r.told };

    ghost invariant = { λ r. (r.room.items ≡ [])
        × (room_of (branches_tokens (tree_of (P.document r.told))) + 192 ≤ vec_capacity r.room)
        × (length (markup (events_of (P.document r.told))) + 192 ≤ vec_capacity r.room) };
}

impl<P: Told> Reserved<P> {
    /// Takes the room.
    pub fn of(alloc: Global, told: P) -> Result<Reserved<P>, NoMemory>
        ensures { IfOk result (λ reserved. reserved ≡ P.document told) }
    {
        let room = room_taken(alloc, told.room())?;
        Ok(Reserved { told, room })
    }

    /// Prints the text into the room. It takes no memory.
    pub fn text(self, dialect: Dialect) -> Vec<u8>
        ensures { result.items ≡ document_text dialect self }
    {
        let Reserved { told, room } = self;
        text_in(&told, room, dialect)
    }
}

/// Takes so much room, and that for what stands round it.
pub(crate) fn room_taken(alloc: Global, room: usize) -> Result<Vec<u8>, NoMemory>
    ensures empty { IfOk result (λ taken. taken.items ≡ []) }
    ensures room { IfOk result (λ taken. (needed : ℕ) → IsRoomFor room needed → needed + 192 ≤ vec_capacity taken) }
{
    let room = room.saturating_add(FRAME_MAX);
    if room == usize::MAX {
        return Err(NoMemory);
    }
    Ok(Vec::with_capacity(alloc, room)?)
}

/// The text of a document, so spelled, in room that suffices for it. It takes no memory.
pub(crate) fn text_in<P: Told>(told: &P, room: Vec<u8>, dialect: Dialect) -> Vec<u8>
    requires empty { room.items ≡ [] }
    requires json { room_of (branches_tokens (tree_of (P.document told.now))) + 4 ≤ vec_capacity room }
    requires xml { length (markup (events_of (P.document told.now))) + 192 ≤ vec_capacity room }
    ensures { result.items ≡ document_text dialect (P.document told.now) }
{
    match dialect {
        Dialect::Json => json_text(told, room),
        Dialect::S3 => xml_text(told, room),
    }
}

// The text as JSON, in room that suffices for it.
fn json_text<P: Told>(told: &P, room: Vec<u8>) -> Vec<u8>
    requires empty { room.items ≡ [] }
    requires room { room_of (branches_tokens (tree_of (P.document told.now))) + 4 ≤ vec_capacity room }
    ensures { result.items ≡ tree_text (tree_of (P.document told.now)) }
{
    match printed(told, room) {
        Ok(text) => text,
        // The room that was taken has room for all of the text.
        Err(_) => unreachable!(),
    }
}

// The text as JSON, in this room.
fn printed<P: Told>(told: &P, room: Vec<u8>) -> Result<Vec<u8>, AllocError>
    requires { room.items ≡ [] }
    ensures text { IfOk result (λ text. text.items ≡ tree_text (tree_of (P.document told.now))) }
    ensures room { OnErr result (vec_capacity room < room_of (branches_tokens (tree_of (P.document told.now))) + 4) }
{
    let mut printer = Printer::within(room)?;
    told.print(&mut printer)?;
    printer.finish()
}

// The text in XML, in room that suffices for it.
fn xml_text<P: Told>(told: &P, room: Vec<u8>) -> Vec<u8>
    requires empty { room.items ≡ [] }
    requires room { length (markup (events_of (P.document told.now))) + 192 ≤ vec_capacity room }
    ensures { result.items ≡ xml_text (root_of (P.document told.now)) (namespace_of (P.document told.now)) (events_of (P.document told.now)) }
{
    match written(told, room) {
        Ok(text) => text,
        // The room that was taken has room for all of the text.
        Err(_) => unreachable!(),
    }
}

// The text in XML, in this room.
#[tactic(auto, using(crate::proofs::XmlFrameLemmas::frame_room), unfolding(s3_xml::specs::Printed::document_text))]
fn written<P: Told>(told: &P, room: Vec<u8>) -> Result<Vec<u8>, AllocError>
    requires { room.items ≡ [] }
    ensures text { IfOk result (λ text. text.items ≡ xml_text (root_of (P.document told.now)) (namespace_of (P.document told.now)) (events_of (P.document told.now))) }
    ensures room { OnErr result (vec_capacity room < length (markup (events_of (P.document told.now))) + 192) }
{
    let root = told.root();
    let mut writer = Writer::within(room, root, NAMESPACE)?;
    told.write(&mut writer)?;
    writer.finish(root)
}
