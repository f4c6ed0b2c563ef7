//! A reader of XML texts.

ghost use Rattle.std.specs.Prelude.{◌≡◌, ◌<◌, None, option_map, IfOk, IfSome, MatchResult};
ghost use Rattle.s3_xml.specs.Ended.{elements_of};
ghost use Rattle.s3_xml.specs.Grammar.{behind_mark, behind_declaration};
ghost use Rattle.s3_xml_reader.specs.Reader.{IsNext};

use crate::characters::is_text;
use crate::cut::{begins_white, behind, cut_at};
use crate::element::Element;
use crate::error::Error;
use crate::place::Place;
use crate::step::step;
use std::alloc::Global;
use std::marker::Model;

/// A reader of a document: it goes through the elements in the order in which they end, in one pass, and holds no more than the
/// text of the innermost open one. Contracts see the elements that are still to end, or nothing where the text isn't that of a
/// document, and how many bytes are still to be read.
#[derive(Drop)]
pub struct Reader<'a> {
    place: Place<'a>,
    rest: &'a [u8],
}

impl<'a> Model for Reader<'a> {
    ghost use Rattle.std.specs.Prelude.{length};
    ghost use Rattle.s3_xml_reader.specs.Place.{to_end};
    ghost use Rattle.s3_xml_reader.specs.Reader.{Reading};

    ghost Value = { Reading };

    ghost view = { λ reader. record {
      elements = to_end reader.place reader.rest.now;
      unread = length reader.rest.now;
    } };
}

// What stands behind a byte order mark, if one is there.
fn behind_mark(bytes: &[u8]) -> &[u8]
    ensures { result.now ≡ behind_mark bytes.now }
{
    match behind(&[239, 187, 191], bytes) {
        Some(rest) => rest,
        None => bytes,
    }
}

// What stands behind an XML declaration, if one is there.
#[tactic(auto, unfolding(s3_xml::specs::Grammar::behind_declaration))]
fn behind_declaration(bytes: &[u8]) -> Option<&[u8]>
    ensures { option_map (λ rest. rest.now) result ≡ behind_declaration bytes.now }
{
    let Some(rest) = behind(b"<?xml", bytes) else {
        return Some(bytes);
    };
    if !begins_white(rest) {
        return Some(bytes);
    }
    let (_, rest) = cut_at(b"?>", bytes)?;
    Some(rest)
}

impl<'a> Reader<'a> {
    /// A reader of these bytes, which it goes over once, to see that they are UTF-8 and characters that XML has. It takes no
    /// memory.
    ///
    /// # Errors
    ///
    /// `Malformed` where they aren't, or where an XML declaration doesn't end.
    #[tactic(auto, using(crate::proofs::ReaderLemmas::opened))]
    pub fn new(alloc: Global, bytes: &'a [u8]) -> Result<Reader<'a>, Error>
        ensures { MatchResult result
            (λ reader. reader.elements ≡ elements_of bytes.now)
            (λ e. (e ≡ Error.Malformed) × (elements_of bytes.now ≡ None)) }
    {
        if !is_text(bytes) {
            return Err(Error::Malformed);
        }
        match behind_declaration(behind_mark(bytes)) {
            Some(rest) => Ok(Reader {
                place: Place::new(alloc),
                rest,
            }),
            None => Err(Error::Malformed),
        }
    }

    /// The next element that ends, with its text; none where the document ends.
    ///
    /// # Errors
    ///
    /// `Malformed` where the text isn't that of a document, which may come after elements of it, and `NoMemory` where memory runs
    /// out for the text of an element. The reader stays where it is then: it answers the same again, or goes on once there is
    /// memory.
    #[tactic(auto, using(crate::proofs::ReaderLemmas::reads))]
    pub fn next(&mut self) -> Result<Option<Element<'a>>, Error>
        ensures next { IsNext self.old.elements self.new.elements result }
        ensures goes_on { IfOk result (λ element. IfSome element (λ e. self.new.unread < self.old.unread)) }
    {
        while !self.rest.is_empty() {
            let (element, rest) = step(&mut self.place, self.rest)?;
            self.rest = rest;
            if element.is_some() {
                return Ok(element);
            }
        }
        if self.place.may_end() {
            Ok(None)
        } else {
            Err(Error::Malformed)
        }
    }
}
