//! What takes the bytes of a body: one by one, and data as it comes.

ghost use Rattle.std.specs.Prelude.{◌≡◌, ℕ, ◌<◌, ◌≤◌, ◌⊎◌, true, false, List, ◌++◌, length, take, IfOk, OnErr, Ok};
ghost use Rattle.s3_transfer_chunks.specs.Reading as reading;
ghost use Rattle.s3_transfer_chunks.specs.Decoder.{reading_in};
ghost use Rattle.s3_transfer_chunks.specs.Sinks.{Grows, got};

use crate::place::Place;
use crate::standing::{Standing, data_there};
use s3_bodies::Sink;
use s3_terms::NoMemory;

// Takes a front of the bytes that are to come, which are data of the chunk: as many of them as there are.
fn step_data<S: Sink>(
    standing: &mut Standing,
    left: u64,
    bytes: &[u8],
    sink: &mut S,
) -> Result<usize, NoMemory>
    requires some { 0 < length «bytes».now }
    requires place { standing.old.place ≡ Place.Data left }
    requires left { 0 < left }
    ensures count { IfOk result (λ n. (0 < n) × (n ≤ length «bytes».now)) }
    ensures value { IfOk result (λ n. (held : List ℕ)
        → reading_in standing.new (held ++ got (S.taken sink.old) (S.taken sink.new))
        ≡ reading.run (reading_in standing.old held) (take n «bytes».now)) }
    ensures reads { IfOk result (λ n. (held : List ℕ)
        → reading.count_taken (reading_in standing.old held) (take n «bytes».now) ≡ n) }
    ensures grows { Grows (S.taken sink.old) (S.taken sink.new) }
    ensures cause { OnErr result ((refused : List ℕ) × S.may_refuse sink.old refused) }
{
    let count = data_there(left, bytes.len());
    standing.take_data(left, &bytes[..count], sink)?;
    Ok(count)
}

// Takes the first of the bytes that are to come, which is no data.
fn step_byte(standing: &mut Standing, bytes: &[u8])
    requires some { 0 < length «bytes».now }
    requires place { reading.is_data standing.old.place ≡ false }
    requires open { reading.is_settled standing.old.place ≡ false }
    ensures value { (held : List ℕ)
        → reading_in standing.new held ≡ reading.run (reading_in standing.old held) (take 1 «bytes».now) }
    ensures reads { (held : List ℕ)
        → reading.count_taken (reading_in standing.old held) (take 1 «bytes».now) ≡ 1 }
{
    standing.take_byte(bytes[0]);
}

// Takes a front of the bytes that are to come: data of a chunk, or one byte.
fn step<S: Sink>(standing: &mut Standing, bytes: &[u8], sink: &mut S) -> Result<usize, NoMemory>
    requires some { 0 < length «bytes».now }
    requires open { reading.is_settled standing.old.place ≡ false }
    ensures count { IfOk result (λ n. (0 < n) × (n ≤ length «bytes».now)) }
    ensures value { IfOk result (λ n. (held : List ℕ)
        → reading_in standing.new (held ++ got (S.taken sink.old) (S.taken sink.new))
        ≡ reading.run (reading_in standing.old held) (take n «bytes».now)) }
    ensures reads { IfOk result (λ n. (held : List ℕ)
        → reading.count_taken (reading_in standing.old held) (take n «bytes».now) ≡ n) }
    ensures grows { Grows (S.taken sink.old) (S.taken sink.new) }
    ensures cause { OnErr result ((refused : List ℕ) × S.may_refuse sink.old refused) }
{
    match standing.place {
        Place::Data(left) if left > 0 => step_data(standing, left, bytes, sink),
        _ => {
            step_byte(standing, bytes);
            Ok(1)
        }
    }
}

// Takes these bytes up to the end of the body or a refusal, and says how many it took.
pub(crate) fn advance<S: Sink>(
    standing: &mut Standing,
    bytes: &[u8],
    sink: &mut S,
) -> Result<usize, NoMemory>
    ensures count { IfOk result (λ n. n ≤ length «bytes».now) }
    ensures all { IfOk result (λ n. (n ≡ length «bytes».now) ⊎ (reading.is_settled standing.new.place ≡ true)) }
    ensures value { IfOk result (λ n. (held : List ℕ)
        → reading_in standing.new (held ++ got (S.taken sink.old) (S.taken sink.new))
        ≡ reading.run (reading_in standing.old held) (take n «bytes».now)) }
    ensures reads { IfOk result (λ n. (held : List ℕ)
        → reading.count_taken (reading_in standing.old held) (take n «bytes».now) ≡ n) }
    ensures grows { Grows (S.taken sink.old) (S.taken sink.new) }
    ensures still { reading.is_settled standing.old.place ≡ true
        → (result ≡ Ok 0) × (standing.new ≡ standing.old) × (S.taken sink.new ≡ S.taken sink.old) }
    ensures some { OnErr result (0 < length «bytes».now) }
    ensures cause { OnErr result ((state : S) × (refused : List ℕ) × S.may_refuse state refused) }
{
    if standing.place.is_settled() {
        return Ok(0);
    }
    let mut taken = 0;
    while taken < bytes.len() && !standing.place.is_settled() {
        taken += step(standing, &bytes[taken..], sink)?;
    }
    Ok(taken)
}
