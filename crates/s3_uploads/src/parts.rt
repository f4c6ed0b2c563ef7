//! The parts of an upload.
ghost use Rattle.std.specs.Prelude.{◌≡◌, ◌≢◌, IsTrue, [], None, IfOk, OnOk, OnErr, take};
ghost use Rattle.std.specs.Option.{option_copied};
ghost use Rattle.std.specs.BTreeMap.{IsOrdered};
ghost use Rattle.std.specs.BTreeMap.Range.{entries_between};
ghost use Rattle.std.specs.Ordering.{nat_cmp};
ghost use Rattle.std.specs.declared.ops.Bound.TheVariants.{Excluded, Unbounded};
ghost use Rattle.s3_uploads.specs.Parts.{rises, numbers_of, part_at, part_put, part_row, part_rows, rows_behind};

use crate::{Part, PartRow};
use s3_names::PartNumber;
use s3_terms::NoMemory;
use std::alloc::Global;
use std::collections::BTreeMap;
use std::marker::Model;
use std::ops::Bound;

/// The parts that were sent to an upload, by their numbers. Contracts see them as a list of numbers with their parts, and
/// the numbers rise.
#[derive(Drop)]
pub struct Parts<B> {
    by_number: BTreeMap<u64, Part<B>>,
}

impl<B> Model for Parts<B> {
    ghost use Rattle.std.specs.Prelude.{ℕ, List};
    ghost use Rattle.s3_uploads.specs.declared.part.Part.{Part};
    ghost use Rattle.s3_uploads.specs.Codes.{coded_parts};

    ghost Value = { List (ℕ × Part B) };

    ghost coded = { coded_parts B.code };

    ghost view = { λ parts. parts.by_number.entries };
}

impl<B: Drop> Parts<B> {
    /// No parts, which take no memory yet.
    pub fn new(alloc: Global) -> Parts<B>
        ensures { result ≡ [] }
    {
        Parts {
            by_number: BTreeMap::new(alloc),
        }
    }

    /// The part of this number.
    pub fn get(&self, number: PartNumber) -> Option<&Part<B>>
        ensures { option_copied result ≡ part_at number self.now }
    {
        self.by_number.get(&u64::from(number.get()))
    }

    /// Puts a part under its number, and answers the one that it replaces. `NoMemory` leaves the parts as they were, and
    /// the new one is dropped; it comes only where there was none of this number, so that one more has to be held.
    pub fn put(&mut self, number: PartNumber, part: Part<B>) -> Result<Option<Part<B>>, NoMemory>
        ensures ok { OnOk result (self.new ≡ part_put number part self.old) }
        ensures former { IfOk result (λ former. former ≡ part_at number self.old) }
        ensures err { OnErr result (self.new ≡ self.old) }
        ensures memory { OnErr result (part_at number self.old ≡ None) }
    {
        let former = self.by_number.insert(u64::from(number.get()), part)?;
        Ok(former)
    }

    /// The rows of the parts whose numbers are above this one, at most so many, by their numbers. `NoMemory` comes only
    /// where there is a row to tell.
    pub fn rows_behind(
        &self,
        alloc: Global,
        last: u64,
        most: usize,
    ) -> Result<Vec<PartRow>, NoMemory>
        ensures value { IfOk result (λ rows. rows.items ≡ take most (rows_behind last self.now)) }
        ensures rising { IsTrue (rises (numbers_of self.now)) }
        ensures memory { OnErr result (take most (rows_behind last self.now) ≢ []) }
    {
        rows_above(alloc, &self.by_number, last, most)
    }
}

// The rows of the parts above a number, until there are so many.
fn rows_above<B: Drop>(
    alloc: Global,
    parts: &BTreeMap<u64, Part<B>>,
    last: u64,
    most: usize,
) -> Result<Vec<PartRow>, NoMemory>
    ensures value { IfOk result (λ rows. rows.items
        ≡ take most (part_rows (entries_between nat_cmp (Excluded last) Unbounded parts.now.entries))) }
    ensures ordered { IsOrdered nat_cmp parts.now }
    ensures memory { OnErr result (
        take most (part_rows (entries_between nat_cmp (Excluded last) Unbounded parts.now.entries)) ≢ []) }
{
    let mut rows = Vec::new(alloc);
    for (number, part) in parts.range((Bound::Excluded(&last), Bound::Unbounded)) {
        if rows.len() >= most {
            return Ok(rows);
        }
        rows.push(row_of(*number, part))?;
    }
    Ok(rows)
}

// The row of a part.
fn row_of<B: Drop>(number: u64, part: &Part<B>) -> PartRow
    ensures { result ≡ part_row (number, part.now) }
{
    PartRow {
        number,
        moment: part.moment,
        tag: part.tag(),
        size: part.size,
    }
}
