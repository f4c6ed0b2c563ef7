//! The names of elements.

ghost use Rattle.std.specs.Prelude.{◌≡◌, ◌==◌, ◌<◌, ◌≤◌, not, true, [], ◌∷◌, length, Some, MatchBool};
ghost use Rattle.std.specs.List.{suffix_len};
ghost use Rattle.s3_text.specs.Characters.{colon};
ghost use Rattle.s3_xml.specs.Ended.{local_name};
ghost use Rattle.s3_xml_reader.specs.Names.{left_by};

use arrayvec::ArrayVec;
use std::marker::Model;

/// How many elements may stand in each other.
pub(crate) const LEVELS: usize = 16;

/// The names of the elements that are open, the innermost first.
#[derive(Drop)]
pub(crate) struct Open<'a> {
    names: ArrayVec<&'a [u8], LEVELS>,
}

impl<'a> Model for Open<'a> {
    ghost use Rattle.std.specs.Prelude.{List, ℕ, ◌≤◌, length};
    ghost use Rattle.s3_xml_reader.specs.Names.{innermost_first};

    ghost Value = { List (List ℕ) };

    ghost view = { λ kept. innermost_first kept.names.items };

    ghost invariant = { λ kept. length kept.names.items ≤ 16 };
}

impl<'a> Open<'a> {
    /// None are open.
    pub(crate) fn new() -> Open<'a>
        ensures { result ≡ [] }
    {
        Open {
            names: ArrayVec::new(),
        }
    }

    /// How many are open.
    pub(crate) fn len(&self) -> usize
        ensures value { result ≡ length self.now }
        ensures most { result ≤ 16 }
    {
        self.names.len()
    }

    /// One more is open.
    pub(crate) fn push(&mut self, name: &'a [u8])
        requires { length self.old < 16 }
        ensures { self.new ≡ name.now ∷ self.old }
    {
        self.names.push(name);
    }

    /// Closes the innermost, if it has this name; else nothing changes.
    pub(crate) fn close(&mut self, name: &[u8]) -> bool
        ensures { MatchBool result
            (left_by self.old name.now ≡ Some self.new)
            ((left_by self.old name.now ≡ None) × (self.new ≡ self.old)) }
    {
        match self.names.pop() {
            Some(outer) => {
                if outer == name {
                    return true;
                }
                self.names.push(outer);
                false
            }
            None => false,
        }
    }
}

// How many bytes stand behind the last colon.
fn tail_len(name: &[u8]) -> usize
    ensures value { result ≡ suffix_len (λ b. not (b == colon)) name.now }
    ensures within { result ≤ length name.now }
{
    name.iter().rev().take_while(|b| **b != b':').count()
}

/// A name without its prefix.
pub(crate) fn local_name(name: &[u8]) -> &[u8]
    ensures { result.now ≡ local_name name.now }
{
    &name[name.len() - tail_len(name)..]
}
