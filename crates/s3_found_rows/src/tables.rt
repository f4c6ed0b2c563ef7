//! All tables of records, one after another.
ghost use Rattle.std.specs.Prelude.{◌≡◌, ◌≤ℤ◌, ◌++◌, IfOk};
ghost use Rattle.s3_rows.specs.Columns.{no_rows};
ghost use Rattle.s3_stored_rows.specs.Bodies.{numbers_named};
ghost use Rattle.s3_found_rows.specs.Fitting.{AreFilled};
ghost use Rattle.s3_found_rows.specs.Found.{tables_of};

use crate::buckets::put_buckets;
use crate::found_tables::FoundTables;
use crate::parts::put_parts;
use crate::uploads::put_uploads;
use crate::versions::put_versions;
use s3_progress::Progress;
use s3_storage::StorageFault;
use s3_stored_rows::StoredRows;
use std::alloc::Global;
use std::mem;

/// Puts all records that were found into rows that have none, and the numbers of bodies that they name behind these. Answers a rowid
/// above which there is none. What was found is moved out.
pub(crate) fn put_tables<R: StoredRows, P: Progress>(
    alloc: Global,
    rows: &mut R,
    found: &mut FoundTables,
    number: i64,
    bodies: &mut Vec<u64>,
    progress: &mut P,
) -> Result<i64, StorageFault>
    requires { R.tables rows.old ≡ record no_rows { store = (R.tables rows.old).store } }
    ensures filled { IfOk result (λ last. AreFilled last number (R.tables rows.new)) }
    ensures bodies { IfOk result (λ _. bodies.new.items ≡ bodies.old.items ++ numbers_named (R.tables rows.new)) }
    ensures same { IfOk result (λ _. R.tables rows.new ≡ record (tables_of found.old) { store = (R.tables rows.old).store }) }
{
    let buckets = put_buckets(rows, mem::replace(&mut found.buckets, Vec::new(alloc)))?;
    let versions = mem::replace(&mut found.versions, Vec::new(alloc));
    let versions = put_versions(alloc, rows, versions, number, bodies, progress)?;
    let mut rowids = Vec::new(alloc);
    let uploads = mem::replace(&mut found.uploads, Vec::new(alloc));
    let uploads = put_uploads(rows, uploads, number, &mut rowids)?;
    let parts = mem::replace(&mut found.parts, Vec::new(alloc));
    let parts = put_parts(alloc, rows, parts, &rowids, bodies)?;
    let low = higher(buckets, versions);
    let high = higher(uploads, parts);
    Ok(higher(low, high))
}

// The higher of two.
fn higher(a: i64, b: i64) -> i64
    ensures first { a ≤ℤ result }
    ensures second { b ≤ℤ result }
{
    if a < b { b } else { a }
}
