//! What rows name: buckets, and numbers of bodies.
ghost use Rattle.std.specs.Prelude.{◌≡◌, ◌++◌, reverse, IfOk, OnOk};
ghost use Rattle.s3_columns.specs.Numbers.{numbers_in};
ghost use Rattle.s3_rows.specs.Soundness.{has_bucket_row, is_count};

use s3_columns::read_numbers;
use s3_storage::StorageFault;
use s3_stored_rows::StoredRows;
use std::alloc::Global;

/// Whether an integer isn't below 0.
pub(crate) fn is_count(number: i64) -> bool
    ensures { result ≡ is_count number }
{
    number >= 0
}

/// Whether there is a bucket of this name.
pub(crate) fn has_bucket<R: StoredRows>(rows: &mut R, name: &[u8]) -> Result<bool, StorageFault>
    ensures value { IfOk result (λ there. there ≡ has_bucket_row (R.tables rows.old).buckets name.now) }
    ensures same { R.tables rows.new ≡ R.tables rows.old }
{
    let found = rows.bucket(name)?;
    Ok(found.is_some())
}

/// Puts the numbers that a column names behind others.
pub(crate) fn take_numbers(
    alloc: Global,
    column: &[u8],
    numbers: &mut Vec<u64>,
) -> Result<(), StorageFault>
    ensures { OnOk result (numbers.new.items ≡ numbers.old.items ++ numbers_in column.now) }
{
    let more = read_numbers(alloc, column)?;
    numbers.extend_from_slice(&more)?;
    Ok(())
}

/// The same rows from the last one to the first.
pub(crate) fn reversed<T: Drop>(rows: Vec<T>) -> Vec<T>
    ensures { result.items ≡ reverse rows.items }
{
    let mut rows = rows;
    rows.reverse();
    rows
}
