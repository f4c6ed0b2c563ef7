//! How far a reader has come.

ghost use Rattle.std.specs.Prelude.{◌≡◌, if◌then◌else◌, [], length};
ghost use Rattle.s3_xml.specs.Grammar.{with_line_feeds};
ghost use Rattle.s3_xml_reader.specs.Place.{start, may_end, may_open, may_still, at_begin, at_empty, at_end, at_text, at_text_of, at_told, IsStep};

use crate::append::{append_section, append_text};
use crate::characters::is_all_white;
use crate::element::Element;
use crate::error::Error;
use crate::names::{LEVELS, Open, local_name};
use crate::references::has_references;
use crate::texts::is_white_text;
use crate::told::Told;
use std::alloc::Global;
use std::marker::Model;
use std::mem;

/// How far a reader has come: whether there may be a root yet, which elements are open, and the text so far of the innermost,
/// unless an element stands in it.
#[derive(Drop)]
pub(crate) struct Place<'a> {
    alloc: Global,
    may_begin: bool,
    within: Open<'a>,
    is_held: bool,
    text: Vec<u8>,
}

impl<'a> Model for Place<'a> {
    ghost use Rattle.std.specs.Prelude.{◌≡◌, ◌<◌, true, length, Some, None, if◌then◌else◌};
    ghost use Rattle.s3_xml_reader.specs.Place.{State};

    ghost Value = { State };

    ghost view = { λ place. record {
      may_begin = place.may_begin;
      within = place.within;
      held = if place.is_held then Some place.text.items else None;
    } };

    ghost invariant = { λ place. place.is_held ≡ true → 0 < length place.within };
}

impl<'a> Place<'a> {
    /// In front of a document.
    pub(crate) fn new(alloc: Global) -> Place<'a>
        ensures { result ≡ start }
    {
        Place {
            alloc,
            may_begin: true,
            within: Open::new(),
            is_held: false,
            text: Vec::new(alloc),
        }
    }

    /// Whether a document may end here.
    pub(crate) fn may_end(&self) -> bool
        ensures { result ≡ may_end self.now.may_begin self.now.within }
    {
        if self.within.len() == 0 {
            !self.may_begin
        } else {
            false
        }
    }

    // Whether an element may begin here.
    fn may_open(&self) -> bool
        ensures { result ≡ may_open self.now.may_begin self.now.within }
    {
        if self.within.len() == 0 {
            self.may_begin
        } else {
            self.within.len() < LEVELS
        }
    }

    // An element begins.
    #[tactic(auto, unfolding(crate::specs::Place::at_begin))]
    fn begin(&mut self, name: &'a [u8]) -> Result<Option<Element<'a>>, Error>
        ensures { IsStep (at_begin self.old name.now) self.old self.new result }
    {
        if !self.may_open() {
            return Err(Error::Malformed);
        }
        self.may_begin = self.may_begin && self.within.len() > 0;
        self.within.push(name);
        self.is_held = true;
        self.text.clear();
        Ok(None)
    }

    // An element begins and ends.
    #[tactic(auto, unfolding(crate::specs::Place::at_empty))]
    fn pass(&mut self, name: &'a [u8]) -> Result<Option<Element<'a>>, Error>
        ensures { IsStep (at_empty self.old name.now) self.old self.new result }
    {
        if !self.may_open() {
            return Err(Error::Malformed);
        }
        self.may_begin = self.may_begin && self.within.len() > 0;
        self.is_held = false;
        Ok(Some(Element {
            level: self.within.len() + 1,
            name: local_name(name),
            content: Vec::new(self.alloc),
        }))
    }

    // An element ends.
    #[tactic(auto, unfolding(crate::specs::Place::at_end))]
    fn end(&mut self, name: &'a [u8]) -> Result<Option<Element<'a>>, Error>
        ensures { IsStep (at_end self.old name.now) self.old self.new result }
    {
        if !self.within.close(name) {
            return Err(Error::Malformed);
        }
        let content = handed_out(self.alloc, self.is_held, &mut self.text);
        self.is_held = false;
        Ok(Some(Element {
            level: self.within.len() + 1,
            name: local_name(name),
            content,
        }))
    }

    // Character data stands here.
    #[tactic(auto, using(crate::proofs::PlaceLemmas::texts))]
    fn take_text(&mut self, raw: &[u8]) -> Result<Option<Element<'a>>, Error>
        ensures { IsStep (at_text_of self.old raw.now) self.old self.new result }
    {
        if self.within.len() == 0 {
            if !is_white_text(raw) {
                return Err(Error::Malformed);
            }
            return Ok(None);
        }
        if !self.is_held {
            if !has_references(raw) {
                return Err(Error::Malformed);
            }
            return Ok(None);
        }
        append_text(&mut self.text, raw)?;
        Ok(None)
    }

    // What a CDATA section has stands here.
    #[tactic(auto, using(crate::proofs::PlaceLemmas::sections))]
    fn take_section(&mut self, raw: &[u8]) -> Result<Option<Element<'a>>, Error>
        ensures { IsStep (at_text self.old (with_line_feeds raw.now)) self.old self.new result }
    {
        if self.within.len() == 0 {
            if !is_all_white(raw) {
                return Err(Error::Malformed);
            }
            return Ok(None);
        }
        if !self.is_held {
            return Ok(None);
        }
        append_section(&mut self.text, raw)?;
        Ok(None)
    }

    /// Goes on by what it is told: the element that ends with it, if one does.
    ///
    /// # Errors
    ///
    /// `Malformed` where that may not stand here, and `NoMemory` where memory runs out for the text of an element. Nothing has
    /// changed then.
    #[tactic(auto, unfolding(crate::specs::Place::at_told))]
    pub(crate) fn go_on(&mut self, told: Told<'a>) -> Result<Option<Element<'a>>, Error>
        ensures { IsStep (at_told self.old told.entry) self.old self.new result }
    {
        match told {
            Told::Begin(name) => self.begin(name),
            Told::Empty(name) => self.pass(name),
            Told::End(name) => self.end(name),
            Told::Characters(raw) => self.take_text(raw),
            Told::Section(raw) => self.take_section(raw),
            Told::Comment => Ok(None),
        }
    }
}

// The text of an element that ends; nothing where it isn't held.
fn handed_out(alloc: Global, is_held: bool, text: &mut Vec<u8>) -> Vec<u8>
    ensures { result.items ≡ (if is_held then text.old.items else []) }
{
    if is_held {
        mem::replace(text, Vec::new(alloc))
    } else {
        Vec::new(alloc)
    }
}
