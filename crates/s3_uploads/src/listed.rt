//! The parts that a completion lists.
ghost use Rattle.std.specs.Prelude.{◌≡◌, ◌≤◌, ◌+◌, ◌&&◌, IsTrue, length, nat_lt};
ghost use Rattle.std.specs.List.{list_all};
ghost use Rattle.s3_uploads.specs.Completion.{numbers_listed};
ghost use Rattle.s3_uploads.specs.Parts.{rises};

use s3_names::PartNumber;
use std::marker::Model;

/// The entity tag of a part, as a completion lists it: any text. A contract sees it as its bytes.
#[derive(Drop)]
pub struct ListedTag {
    text: Vec<u8>,
}

impl Model for ListedTag {
    ghost use Rattle.std.specs.Prelude.{ℕ, List};

    ghost Value = { List ℕ };

    ghost view = { λ tag. tag.text.items };
}

impl ListedTag {
    /// The tag of this text, which is moved and not copied.
    pub fn new(text: Vec<u8>) -> ListedTag
        ensures { result ≡ text.items }
    {
        ListedTag { text }
    }

    /// Its bytes.
    pub fn as_bytes(&self) -> &[u8]
        ensures { result.now ≡ self.now }
    {
        self.text.as_slice()
    }
}

/// A part that a completion lists.
#[derive(Drop)]
pub struct ListedPart {
    pub number: PartNumber,
    /// The tag that its UploadPart was answered, without double quotes.
    pub tag: ListedTag,
}

/// The parts that a completion lists, in their order. A contract sees them as a list.
#[derive(Drop)]
pub struct ListedParts {
    parts: Vec<ListedPart>,
}

impl Model for ListedParts {
    ghost use Rattle.std.specs.Prelude.{List};
    ghost use Rattle.s3_uploads.specs.declared.listed.ListedPart.{ListedPart};

    ghost Value = { List ListedPart };

    ghost view = { λ listed. listed.parts.items };
}

impl ListedParts {
    /// These parts, which are moved and not copied.
    pub fn new(parts: Vec<ListedPart>) -> ListedParts
        ensures { result ≡ parts.items }
    {
        ListedParts { parts }
    }

    /// The parts.
    pub fn as_slice(&self) -> &[ListedPart]
        ensures { result.now ≡ self.now }
    {
        self.parts.as_slice()
    }
}

/// Whether the listed numbers rise strictly. Where they do there are at most 10,000.
#[tactic(auto, unfolding(crate::specs::Parts::rises))]
pub(crate) fn are_rising(listed: &[ListedPart]) -> bool
    ensures value { result ≡ rises (numbers_listed listed.now) }
    ensures few { IsTrue result → length listed.now ≤ 10_000 }
{
    match listed.split_first() {
        None => true,
        Some((first, rest)) => rise_above(first.number, rest),
    }
}

// Whether the numbers rise, from one above this on.
fn rise_above(first: PartNumber, listed: &[ListedPart]) -> bool
    ensures value { result ≡ (list_all (nat_lt first) (numbers_listed listed.now) && rises (numbers_listed listed.now)) }
    ensures few { IsTrue result → 1 + length listed.now ≤ 10_000 }
{
    let mut last = first.get();
    for part in listed {
        if !is_above(last, part.number) {
            return false;
        }
        last = part.number.get();
    }
    true
}

// Whether a number is above this one.
fn is_above(last: u16, number: PartNumber) -> bool
    ensures { result ≡ nat_lt last number }
{
    number.get() > last
}
