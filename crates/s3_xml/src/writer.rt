//! Documents as they are written: an event after another, without a tree.
ghost use Rattle.std.specs.Prelude.{◌≡◌, ℕ, ◌≤◌, ◌<◌, ◌+◌, List, [], ◌∷◌, ◌++◌, length, vec_capacity, IfOk, OnOk, OnErr, MatchResult};
ghost use Rattle.s3_xml.specs.Events.{Event, begin, end, text_in, leaf};
ghost use Rattle.s3_xml.specs.Printed.{event_text, escaped, markup, namespace_text, document_text};
ghost use Rattle.s3_xml.specs.Writer.{opening, TakesBytes, TakesRoom};

use crate::escape::put_escaped;
use std::alloc::AllocError;
use std::marker::Model;

/// A document that is written, of which all but the end of the root stands there. A contract sees the text so far, and
/// the room that is left for more without memory. An error leaves some of the bytes that were to be written: no clause
/// says which, so the caller gives the document up.
#[derive(Drop)]
pub struct Writer {
    text: Vec<u8>,
}

impl Model for Writer {
    ghost use Rattle.std.specs.Prelude.{◌-◌, vec_len, vec_capacity};
    ghost use Rattle.s3_xml.specs.Writer.{Written, written_code};

    ghost Value = { Written };

    ghost coded = { written_code };

    ghost view = { λ w. record { bytes = w.text.items; spare = vec_capacity w.text - vec_len w.text } };
}

impl Writer {
    /// A document with nothing in its root yet, in room that was taken before.
    pub fn within(room: Vec<u8>, root: &str, namespace: &str) -> Result<Writer, AllocError>
        requires { room.items ≡ [] }
        ensures told { IfOk result (λ writer. writer.bytes ≡ opening root.now namespace.now) }
        ensures room { MatchResult result (λ writer. vec_capacity room ≤ writer.spare + length (opening root.now namespace.now))
            (λ _. vec_capacity room < length (opening root.now namespace.now)) }
    {
        let mut writer = Writer { text: room };
        writer.open(root, namespace)?;
        Ok(writer)
    }

    // Writes what stands in front of the first event.
    #[tactic(auto, unfolding(crate::specs::Writer::opening))]
    fn open(&mut self, root: &str, namespace: &str) -> Result<(), AllocError>
        ensures told { OnOk result (self.new.bytes ≡ self.old.bytes ++ opening root.now namespace.now) }
        ensures room { TakesBytes result self.old.spare self.new.spare (length (opening root.now namespace.now)) }
    {
        self.put(b"<?xml version=\"1.0\" encoding=\"UTF-8\"?>\n")?;
        self.put(b"<")?;
        self.put(root.as_bytes())?;
        self.put_namespace(namespace)?;
        self.put(b">")
    }

    // Writes the namespace of the root as its attribute; nothing where it is empty.
    fn put_namespace(&mut self, namespace: &str) -> Result<(), AllocError>
        ensures told { OnOk result (self.new.bytes ≡ self.old.bytes ++ namespace_text namespace.now) }
        ensures room { TakesBytes result self.old.spare self.new.spare (length (namespace_text namespace.now)) }
    {
        if namespace.is_empty() {
            return Ok(());
        }
        self.put(b" xmlns=\"")?;
        self.put(namespace.as_bytes())?;
        self.put(b"\"")
    }

    /// Begins an element of this name.
    pub fn begin(&mut self, name: &str) -> Result<(), AllocError>
        ensures told { OnOk result (self.new.bytes ≡ self.old.bytes ++ markup (begin name.now ∷ [])) }
        ensures room { TakesRoom result self.old.spare self.new.spare (begin name.now ∷ []) }
    {
        self.put(b"<")?;
        self.put(name.as_bytes())?;
        self.put(b">")
    }

    /// Ends an element of this name.
    pub fn end(&mut self, name: &str) -> Result<(), AllocError>
        ensures told { OnOk result (self.new.bytes ≡ self.old.bytes ++ markup (end name.now ∷ [])) }
        ensures room { TakesRoom result self.old.spare self.new.spare (end name.now ∷ []) }
    {
        self.put(b"</")?;
        self.put(name.as_bytes())?;
        self.put(b">")
    }

    /// Writes a text, with references for what can't stand in one; nothing where it is empty.
    #[tactic(auto, using(crate::proofs::WriterLemmas::markup_text))]
    pub fn text(&mut self, content: &[u8]) -> Result<(), AllocError>
        ensures told { OnOk result (self.new.bytes ≡ self.old.bytes ++ markup (text_in content.now)) }
        ensures room { TakesRoom result self.old.spare self.new.spare (text_in content.now) }
    {
        put_escaped(self, content)
    }

    /// Writes an element in which a text stands alone.
    pub fn leaf(&mut self, name: &str, content: &[u8]) -> Result<(), AllocError>
        ensures told { OnOk result (self.new.bytes ≡ self.old.bytes ++ markup (leaf name.now content.now)) }
        ensures room { TakesRoom result self.old.spare self.new.spare (leaf name.now content.now) }
    {
        self.begin(name)?;
        self.text(content)?;
        self.end(name)
    }

    /// The text of the document. The caller tells the name of its root again.
    pub fn finish(self, root: &str) -> Result<Vec<u8>, AllocError>
        ensures text { IfOk result (λ text. (namespace : List ℕ) (inner : List Event)
            → self.bytes ≡ opening root.now namespace ++ markup inner → text.items ≡ document_text root.now namespace inner) }
        ensures room { OnErr result (self.spare < length (event_text (end root.now))) }
    {
        let mut writer = self;
        writer.end(root)?;
        Ok(writer.into_bytes())
    }

    // The text so far.
    fn into_bytes(self) -> Vec<u8>
        ensures { result.items ≡ self.bytes }
    {
        let Writer { text } = self;
        text
    }

    // Writes bytes as they are.
    pub(crate) fn put(&mut self, bytes: &[u8]) -> Result<(), AllocError>
        ensures told { OnOk result (self.new.bytes ≡ self.old.bytes ++ bytes.now) }
        ensures room { TakesBytes result self.old.spare self.new.spare (length bytes.now) }
    {
        self.text.extend_from_slice(bytes)
    }
}
