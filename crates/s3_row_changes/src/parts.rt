//! Changes of the rows of parts.
ghost use Rattle.std.specs.Prelude.{◌≡◌, OnOk, OnErr, option_map};
ghost use Rattle.s3_rows.specs.Soundness.{AreSound, part_row};
ghost use Rattle.s3_rows.specs.TableChanges.{part_put};
ghost use Rattle.s3_stored_rows.specs.Changes.{part_columns};
ghost use Rattle.s3_stored_rows.specs.Leaving.{LeavesNoMore};
ghost use Rattle.s3_stored_rows.specs.Queries.{part_of_number};

use crate::dropping::replacing;
use s3_stored_rows::{Change, StoredPart, StoredRows, TableName};
use s3_terms::NoMemory;
use std::alloc::Global;

/// Puts in the row of a part, in the place of the one of its number. That one's rowid is `gone`, if there is one.
pub fn put_part<R: StoredRows>(
    rows: &mut R,
    alloc: Global,
    part: StoredPart,
    gone: Option<i64>,
) -> Result<(), NoMemory>
    requires sound { AreSound (R.tables rows.old) }
    requires gone { option_map part_row (part_of_number part.upload part.part (R.tables rows.old)) ≡ gone }
    ensures ok { OnOk result (R.tables rows.new ≡ part_put (part_columns part) (R.tables rows.old)) }
    ensures err { OnErr result (R.tables rows.new ≡ R.tables rows.old) }
    ensures stays { LeavesNoMore R.leaves rows.old rows.new }
{
    let changes = replacing(alloc, TableName::Parts, gone, Change::AddPart(part))?;
    rows.apply(changes.as_slice())
}
