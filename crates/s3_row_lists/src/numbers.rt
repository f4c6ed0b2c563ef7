//! Numbers as rows and questions have them.
ghost use Rattle.std.specs.Prelude.{◌≡◌, ◌≤◌, ◌^◌, int_lt, pos, IfOk, MatchOption};

use s3_terms::NoMemory;

/// How many rows a question may ask for. More than 2^32 - 1 are no such number.
pub(crate) fn limit_of(most: usize) -> Result<u32, NoMemory>
    ensures { IfOk result (λ limit. limit ≡ most) }
{
    match u32::try_from(most) {
        Ok(limit) => Ok(limit),
        Err(_) => Err(NoMemory),
    }
}

/// The number as a column has it; `None` where it is 2^63 or more.
pub(crate) fn column_of(number: u64) -> Option<i64>
    ensures { MatchOption result (2 ^ 63 ≤ number) (λ column. column ≡ pos number) }
{
    i64::try_from(number).ok()
}

/// Whether a number of a column is below one.
pub(crate) fn is_below(column: i64, number: u64) -> bool
    ensures { result ≡ int_lt column (pos number) }
{
    match u64::try_from(column) {
        Ok(column) => column < number,
        Err(_) => true,
    }
}
