//! Documents as they are printed: token by token, without a tree of values.
ghost use Rattle.std.specs.Prelude.{◌≡◌, ◌≤◌, ◌<◌, ◌+◌, IsAscii, IsUtf8, ℕ, List, [], ◌∷◌, ◌++◌, map, decimal, vec_capacity, IfOk, OnOk, OnErr, MatchResult};
ghost use Rattle.json.specs.Token as json;
ghost use Rattle.s3_documents.specs.Timestamp.{timestamp};
ghost use Rattle.s3_documents.specs.Tree.{Fields, Tree, leaves, rows, tree_text};
ghost use Rattle.s3_documents.specs.Printed.{fields_tokens, row_tokens, all_tokens, branches_tokens, begun, field_of, fields_of, TakesRoom};

use crate::timestamp::timestamp;
use json::Writer;
use s3_calendar::Moment;
use std::alloc::{AllocError, Global};
use std::marker::Model;
use std::str;

/// What a field tells.
#[derive(Drop)]
pub enum Leaf<'a> {
    Text(&'a str),
    /// A text that XML tells UriEncoded where that is asked: a key, and what keys are compared with.
    Encodable(&'a str),
    Number(u64),
    Truth(bool),
    Moment(Moment),
    /// Nothing: the field isn't printed.
    Absent,
}

/// A field: a value under a name.
#[derive(Drop)]
pub struct Field<'a> {
    pub name: &'a str,
    pub value: Leaf<'a>,
}

/// What is printed as a row of a document.
pub trait Row {
    ghost told: { Self → Fields };

    /// Prints the row: a call of `Printer::row` with its fields.
    fn print(&self, printer: &mut Printer) -> Result<(), AllocError>
        ensures tokens { OnOk result (printer.new.tokens ≡ printer.old.tokens ++ row_tokens (told self.now)) }
        ensures room { TakesRoom result printer.old.spare printer.new.spare (row_tokens (told self.now)) };
}

/// A document that is printed: an object, of which all but the last brace stands there. A contract sees the tokens so
/// far, and the room that is left for more without taking memory. An error leaves some of the tokens that were to be
/// printed: no clause says which, so the caller gives the document up.
#[derive(Drop)]
pub struct Printer {
    writer: Writer,
}

impl Model for Printer {
    ghost use Rattle.std.specs.Prelude.{◌≡◌, []};
    ghost use Rattle.json.specs.Written.{Written, written_code};

    ghost Value = { Written };

    ghost coded = { written_code };

    ghost view = { λ p. p.writer };

    ghost invariant = { λ p. p.writer.before ≡ [] };
}

impl Printer {
    /// A document that tells nothing yet, with room for that many bytes.
    #[tactic(auto, unfolding(crate::specs::Printed::begun))]
    pub fn new(alloc: Global, room: usize) -> Result<Printer, AllocError>
        ensures { IfOk result (λ printer. printer.tokens ≡ begun []) }
    {
        let room = Vec::with_capacity(alloc, room)?;
        Ok(Printer::within(room)?)
    }

    // The same, in room that was taken before.
    #[tactic(auto, unfolding(crate::specs::Printed::begun))]
    pub(crate) fn within(room: Vec<u8>) -> Result<Printer, AllocError>
        requires { room.items ≡ [] }
        ensures tokens { IfOk result (λ printer. printer.tokens ≡ begun []) }
        ensures room { MatchResult result (λ printer. vec_capacity room ≤ printer.spare + 2) (λ _. vec_capacity room < 2) }
    {
        let mut writer = Writer::new(room);
        writer.begin_object()?;
        Ok(Printer { writer })
    }

    /// Prints fields, those that tell nothing left out.
    #[tactic(auto, using(crate::proofs::PrinterLemmas::fields_behind, crate::proofs::RoomLemmas::leaves_room))]
    pub fn fields(&mut self, fields: &[Field<'_>]) -> Result<(), AllocError>
        ensures tokens { OnOk result ((tree : Tree) → self.old.tokens ≡ begun tree → self.new.tokens ≡ begun (tree ++ leaves (fields_of fields.now))) }
        ensures room { TakesRoom result self.old.spare self.new.spare (branches_tokens (leaves (fields_of fields.now))) }
    {
        self.put(fields)?;
        Ok(())
    }

    /// Prints rows under a name.
    #[tactic(auto, using(crate::proofs::PrinterLemmas::rows_behind, crate::proofs::RoomLemmas::rows_room))]
    pub fn rows<R: Row>(&mut self, name: &str, list: &[R]) -> Result<(), AllocError>
        ensures tokens { OnOk result ((tree : Tree) → self.old.tokens ≡ begun tree → self.new.tokens ≡ begun (tree ++ (name.now, rows (map R.told list.now)) ∷ [])) }
        ensures room { TakesRoom result self.old.spare self.new.spare (branches_tokens ((name.now, rows (map R.told list.now)) ∷ [])) }
    {
        self.writer.key(name)?;
        self.writer.begin_array()?;
        self.all(list)?;
        self.writer.end_array()?;
        Ok(())
    }

    /// Prints a row of these fields.
    #[tactic(auto, using(crate::proofs::PrinterLemmas::row_behind, crate::proofs::RoomLemmas::row_room))]
    pub fn row(&mut self, fields: &[Field<'_>]) -> Result<(), AllocError>
        ensures tokens { OnOk result (self.new.tokens ≡ self.old.tokens ++ row_tokens (fields_of fields.now)) }
        ensures room { TakesRoom result self.old.spare self.new.spare (row_tokens (fields_of fields.now)) }
    {
        self.writer.begin_object()?;
        self.put(fields)?;
        self.writer.end_object()?;
        Ok(())
    }

    /// The text of the document, which tells what was printed.
    #[tactic(auto, using(crate::proofs::TokenLemmas::tree_prints))]
    pub fn finish(self) -> Result<Vec<u8>, AllocError>
        ensures text { IfOk result (λ text. (tree : Tree) → self.tokens ≡ begun tree → text.items ≡ tree_text tree) }
        ensures room { OnErr result (self.spare < 2) }
    {
        let Printer { mut writer } = self;
        writer.end_object()?;
        Ok(writer.into_inner())
    }

    // The fields, without braces round them.
    fn put(&mut self, fields: &[Field<'_>]) -> Result<(), AllocError>
        ensures tokens { OnOk result (self.new.tokens ≡ self.old.tokens ++ fields_tokens (fields_of fields.now)) }
        ensures room { TakesRoom result self.old.spare self.new.spare (fields_tokens (fields_of fields.now)) }
    {
        for field in fields {
            self.field(field)?;
        }
        Ok(())
    }

    // The rows, without brackets round them.
    #[tactic(auto, using(crate::proofs::RoomLemmas::rows_from))]
    fn all<R: Row>(&mut self, list: &[R]) -> Result<(), AllocError>
        ensures tokens { OnOk result (self.new.tokens ≡ self.old.tokens ++ all_tokens (map R.told list.now)) }
        ensures room { TakesRoom result self.old.spare self.new.spare (all_tokens (map R.told list.now)) }
    {
        for row in list {
            row.print(self)?;
        }
        Ok(())
    }

    fn field(&mut self, field: &Field<'_>) -> Result<(), AllocError>
        ensures tokens { OnOk result (self.new.tokens ≡ self.old.tokens ++ fields_tokens (field_of field.now)) }
        ensures room { TakesRoom result self.old.spare self.new.spare (fields_tokens (field_of field.now)) }
    {
        let name = field.name;
        match field.value {
            Leaf::Text(text) => self.text(name, text),
            Leaf::Encodable(text) => self.text(name, text),
            Leaf::Number(number) => self.number(name, number),
            Leaf::Truth(truth) => self.truth(name, truth),
            Leaf::Moment(moment) => self.moment(name, moment),
            Leaf::Absent => Ok(()),
        }
    }

    fn text(&mut self, name: &str, text: &str) -> Result<(), AllocError>
        ensures tokens { OnOk result (self.new.tokens ≡ self.old.tokens ++ json.key name.now ∷ json.string text.now ∷ []) }
        ensures room { TakesRoom result self.old.spare self.new.spare (json.key name.now ∷ json.string text.now ∷ []) }
    {
        self.writer.key(name)?;
        self.writer.string(text)
    }

    fn number(&mut self, name: &str, number: u64) -> Result<(), AllocError>
        ensures tokens { OnOk result (self.new.tokens ≡ self.old.tokens ++ json.key name.now ∷ json.number (decimal number) ∷ []) }
        ensures room { TakesRoom result self.old.spare self.new.spare (json.key name.now ∷ json.number (decimal number) ∷ []) }
    {
        self.writer.key(name)?;
        self.writer.u64(number)
    }

    fn truth(&mut self, name: &str, truth: bool) -> Result<(), AllocError>
        ensures tokens { OnOk result (self.new.tokens ≡ self.old.tokens ++ json.key name.now ∷ json.boolean truth ∷ []) }
        ensures room { TakesRoom result self.old.spare self.new.spare (json.key name.now ∷ json.boolean truth ∷ []) }
    {
        self.writer.key(name)?;
        self.writer.boolean(truth)
    }

    fn moment(&mut self, name: &str, moment: Moment) -> Result<(), AllocError>
        ensures tokens { OnOk result (self.new.tokens ≡ self.old.tokens ++ json.key name.now ∷ json.string (timestamp moment) ∷ []) }
        ensures room { TakesRoom result self.old.spare self.new.spare (json.key name.now ∷ json.string (timestamp moment) ∷ []) }
    {
        let date = timestamp(moment);
        self.text(name, text_of(&date))
    }
}

/// Bytes that are a text, as one.
pub fn text_of(bytes: &[u8]) -> &str
    requires { IsUtf8 bytes.now }
    ensures { result.now ≡ bytes.now }
{
    match str::from_utf8(bytes) {
        Ok(text) => text,
        // The caller knows that the bytes are UTF-8.
        Err(_) => unreachable!(),
    }
}
