//! Numbers of 64 bits as bytes.
ghost use Rattle.std.specs.Prelude.{◌≡◌, ◌<◌, ◌≤◌, ◌+◌, length, IfOk, OnErr, MatchOption};
ghost use Rattle.s3_columns.specs.Numbers.{number_at, numbers_spelled, numbers_in};

use s3_terms::NoMemory;
use std::alloc::Global;

/// The numbers as bytes, eight for each with the highest first. Memory is asked for only where there is a number.
pub fn write_numbers(alloc: Global, numbers: &[u64]) -> Result<Vec<u8>, NoMemory>
    ensures value { IfOk result (λ bytes. bytes.items ≡ numbers_spelled numbers.now) }
    ensures memory { OnErr result (0 < length numbers.now) }
{
    let mut bytes = Vec::new(alloc);
    for number in numbers {
        bytes.extend_from_slice(&number.to_be_bytes())?;
    }
    Ok(bytes)
}

/// The numbers that bytes spell, eight bytes for each with the highest first. Where the length is no multiple of eight there are
/// none. Memory is asked for only where there are eight bytes.
pub fn read_numbers(alloc: Global, bytes: &[u8]) -> Result<Vec<u64>, NoMemory>
    ensures value { IfOk result (λ numbers. numbers.items ≡ numbers_in bytes.now) }
    ensures memory { OnErr result (8 ≤ length bytes.now) }
{
    let mut numbers = Vec::new(alloc);
    let mut rest = bytes;
    while !rest.is_empty() {
        let Some((number, behind)) = number_at(rest) else {
            return Ok(Vec::new(alloc));
        };
        numbers.push(number)?;
        rest = behind;
    }
    Ok(numbers)
}

// The number at the front of these bytes, and the bytes behind it; `None` where there are fewer than eight.
#[tactic(auto, unfolding(crate::specs::Numbers::number_at))]
fn number_at(bytes: &[u8]) -> Option<(u64, &[u8])>
    ensures value { MatchOption result
        (number_at bytes.now ≡ None)
        (λ read. number_at bytes.now ≡ Some (read.0, read.1.now)) }
    ensures shorter { MatchOption result (length bytes.now < 8) (λ read. length read.1.now + 8 ≡ length bytes.now) }
{
    let (number, rest) = bytes.split_first_chunk::<8>()?;
    Some((u64::from_be_bytes(*number), rest))
}
