//! A page of a list of objects while it is made.
ghost use Rattle.std.specs.Prelude.{◌≡◌, ◌<◌, ◌∷◌, List, IsUtf8, IfOk, OnOk, OnErr, IfSome, Some, None, true, if◌then◌else◌, ◌++◌};
ghost use Rattle.std.specs.Option.{option_copied};
ghost use Rattle.s3_records.specs.declared.rows.KeyRow.{KeyRow};
ghost use Rattle.s3_prefixes.specs.Items.{Item, Object, CommonPrefix, is_behind_start};
ghost use Rattle.s3_prefixes.specs.Tellings.{is_last};
ghost use Rattle.s3_listings.specs.Drafts.{drafted, AreBehindStart, with_item, with_items, with_rows, no_items, page_of_draft, TakesItem};

use crate::{ListedObject, ObjectPage};
use s3_names::Key;
use s3_prefixes::{ObjectsAsked, Telling, Text, is_last, told_as};
use s3_records::KeyRow;
use s3_terms::NoMemory;
use s3_versions::Facts;
use std::alloc::Global;

/// A page while it is made: it takes items until it is full and one more is known. Contracts see it as `drafted`.
#[derive(Drop)]
pub(crate) struct Draft {
    contents: Vec<ListedObject>,
    prefixes: Vec<Text>,
    // Whether the last item is a common prefix.
    ends_in_prefix: bool,
    // How many more items it takes.
    room: u16,
    is_truncated: bool,
}

impl Draft {
    /// A page that takes so many items, and has none yet.
    pub(crate) fn new(alloc: Global, room: u16) -> Draft
        ensures { drafted result ≡ no_items room }
    {
        Draft {
            contents: Vec::new(alloc),
            prefixes: Vec::new(alloc),
            ends_in_prefix: false,
            room,
            is_truncated: false,
        }
    }

    /// The text of its last item, where it has one.
    pub(crate) fn last(&self) -> Option<&[u8]>
        ensures value { option_copied result ≡ (drafted self.now).last }
        ensures utf8 { IfSome result (λ text. IsUtf8 text.now) }
    {
        if self.ends_in_prefix {
            let text = self.prefixes.last()?;
            Some(text.as_bytes())
        } else {
            let object = self.contents.last()?;
            Some(object.key.as_bytes())
        }
    }

    /// Whether one more item is known that the page doesn't take.
    pub(crate) fn is_truncated(&self) -> bool
        ensures { result ≡ (drafted self.now).is_truncated }
    {
        self.is_truncated
    }

    /// How many more items it takes.
    pub(crate) fn room(&self) -> u16
        ensures { result ≡ (drafted self.now).room }
    {
        self.room
    }

    /// Takes rows in their order, which are moved into the page or dropped. Room for as many objects is taken at once.
    /// Where all are known to be behind the key that the list is to start after, none is compared with it.
    pub(crate) fn take_rows(
        &mut self,
        alloc: Global,
        asked: &ObjectsAsked,
        rows: Vec<KeyRow>,
        are_behind: bool,
    ) -> Result<(), NoMemory>
        requires { AreBehindStart asked.now are_behind rows.items }
        ensures { OnOk result ((rest : List KeyRow) → with_rows asked.now (drafted self.new) rest ≡ with_rows asked.now (drafted self.old) (rows.items ++ rest)) }
    {
        self.make_room(rows.len())?;
        self.take_each(alloc, asked, rows, are_behind)
    }

    // Takes room for so many objects more.
    fn make_room(&mut self, more: usize) -> Result<(), NoMemory>
        ensures { drafted self.new ≡ drafted self.old }
    {
        self.contents.reserve(more)?;
        Ok(())
    }

    // Takes rows in their order, which may be known to be behind the key to start after.
    fn take_each(
        &mut self,
        alloc: Global,
        asked: &ObjectsAsked,
        rows: Vec<KeyRow>,
        are_behind: bool,
    ) -> Result<(), NoMemory>
        requires { AreBehindStart asked.now are_behind rows.items }
        ensures { OnOk result ((rest : List KeyRow) → with_rows asked.now (drafted self.new) rest ≡ with_rows asked.now (drafted self.old) (rows.items ++ rest)) }
    {
        for row in rows {
            self.take_row(alloc, asked, row, are_behind)?;
        }
        Ok(())
    }

    // Takes one row, which may be known to be behind the key to start after.
    fn take_row(
        &mut self,
        alloc: Global,
        asked: &ObjectsAsked,
        row: KeyRow,
        is_behind: bool,
    ) -> Result<(), NoMemory>
        requires { is_behind ≡ true → is_behind_start asked.now row.key ≡ true }
        ensures { OnOk result ((rest : List KeyRow) → with_rows asked.now (drafted self.new) rest ≡ with_rows asked.now (drafted self.old) (row ∷ rest)) }
    {
        let KeyRow { key, facts } = row;
        let Some(facts) = facts else {
            return Ok(());
        };
        match told_as(asked, &key, is_behind) {
            Telling::Nothing => Ok(()),
            Telling::Itself => self.take_object(key, facts),
            Telling::Prefix(len) => self.take_prefix(alloc, &key.as_bytes()[..len]),
        }
    }

    // Takes an object.
    fn take_object(&mut self, key: Key, facts: Facts) -> Result<(), NoMemory>
        ensures { OnOk result ((items : List Item) → with_items (drafted self.new) items ≡ with_items (drafted self.old) (Object key facts ∷ items)) }
    {
        if self.make_way(key.as_bytes()) {
            self.push_object(key, facts)
        } else {
            Ok(())
        }
    }

    // Takes a common prefix, which is copied.
    fn take_prefix(&mut self, alloc: Global, prefix: &[u8]) -> Result<(), NoMemory>
        requires { IsUtf8 prefix.now }
        ensures { OnOk result ((items : List Item) → with_items (drafted self.new) items ≡ with_items (drafted self.old) (CommonPrefix prefix.now ∷ items)) }
    {
        if self.make_way(prefix) {
            self.push_prefix(alloc, prefix)
        } else {
            Ok(())
        }
    }

    // Makes way for an item of this text, and answers whether there is: it isn't the last one again, and there is room.
    // Where there is none, the page is truncated.
    fn make_way(&mut self, text: &[u8]) -> bool
        ensures { TakesItem result (drafted self.old) (drafted self.new) text.now }
    {
        if self.is_truncated || self.ends_with(text) {
            return false;
        }
        if self.room == 0 {
            self.is_truncated = true;
            return false;
        }
        true
    }

    // Whether this is the text of the last item.
    fn ends_with(&self, text: &[u8]) -> bool
        ensures { result ≡ is_last (drafted self.now).last text.now }
    {
        is_last(self.last(), text)
    }

    // Puts an object behind the others.
    fn push_object(&mut self, key: Key, facts: Facts) -> Result<(), NoMemory>
        requires { 0 < (drafted self.old).room }
        ensures { OnOk result (drafted self.new ≡ with_item (drafted self.old) (Object key facts)) }
    {
        self.contents.push(ListedObject { key, facts })?;
        self.ends_in_prefix = false;
        self.room -= 1;
        Ok(())
    }

    // Puts a common prefix behind the others.
    fn push_prefix(&mut self, alloc: Global, prefix: &[u8]) -> Result<(), NoMemory>
        requires room { 0 < (drafted self.old).room }
        requires utf8 { IsUtf8 prefix.now }
        ensures { OnOk result (drafted self.new ≡ with_item (drafted self.old) (CommonPrefix prefix.now)) }
    {
        self.prefixes.push(Text::of(alloc, prefix)?)?;
        self.ends_in_prefix = true;
        self.room -= 1;
        Ok(())
    }

    /// The page as it is. The text of its last item is copied where more are known, and only then `NoMemory` may come.
    pub(crate) fn finish(self, alloc: Global) -> Result<ObjectPage, NoMemory>
        ensures value { IfOk result (λ page. page ≡ page_of_draft (drafted self)) }
        ensures memory { OnErr result ((drafted self).is_truncated ≡ true) }
    {
        let next = self.next(alloc)?;
        Ok(ObjectPage {
            contents: self.contents,
            prefixes: self.prefixes,
            next,
        })
    }

    // The text behind which the next page goes on, where there is one.
    fn next(&self, alloc: Global) -> Result<Option<Text>, NoMemory>
        ensures value { IfOk result (λ next. next ≡ if (drafted self.now).is_truncated then (drafted self.now).last else None) }
        ensures memory { OnErr result ((drafted self.now).is_truncated ≡ true) }
    {
        if !self.is_truncated {
            return Ok(None);
        }
        match self.last() {
            Some(last) => Ok(Some(Text::of(alloc, last)?)),
            None => Ok(None),
        }
    }
}
