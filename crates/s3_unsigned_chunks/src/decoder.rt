//! What takes the bytes of a body, one by one, and data as it comes.

ghost use Rattle.std.specs.Prelude.{◌≡◌, ℕ, ◌+◌, ◌<◌, ◌≤◌, ◌⊎◌, true, false, List, ◌++◌, length, take, MatchResult, IfOk, OnErr};
ghost use Rattle.s3_unsigned_chunks.specs.Reading as reading;
ghost use Rattle.s3_unsigned_chunks.specs.Reader.{reading_in};
ghost use Rattle.s3_unsigned_chunks.specs.Sinks.{Grows, got};

use crate::place::Place;
use crate::standing::Standing;
use s3_bodies::Sink;
use s3_terms::NoMemory;

// Takes a front of the bytes that are to come, which are data of the chunk: as many of them as there are.
fn step_data<S: Sink>(
    standing: &mut Standing,
    encoded: u64,
    left: u32,
    bytes: &[u8],
    sink: &mut S,
) -> Result<usize, NoMemory>
    requires some { 0 < length «bytes».now }
    requires place { standing.old.place ≡ Place.Data left }
    requires left { 0 < left }
    requires open { standing.old.taken < encoded }
    ensures count { IfOk result (λ n. (0 < n) × (n ≤ length «bytes».now)) }
    ensures taken { MatchResult result
        (λ n. standing.new.taken ≡ standing.old.taken + n)
        (λ _. standing.new.taken ≡ standing.old.taken) }
    ensures value { IfOk result (λ n. (name : List ℕ) (decoded : ℕ) (held : List ℕ)
        → reading_in standing.new (held ++ got (S.taken sink.old) (S.taken sink.new))
        ≡ reading.run (record { name = name; encoded = encoded; decoded = decoded }) (reading_in standing.old held)
        (take n «bytes».now)) }
    ensures grows { Grows (S.taken sink.old) (S.taken sink.new) }
    ensures cause { OnErr result ((refused : List ℕ) × S.may_refuse sink.old refused) }
{
    let count = standing.data_there(encoded, left, bytes.len());
    standing.take_data(encoded, left, &bytes[..count], sink)?;
    Ok(count)
}

// Takes the first of the bytes that are to come, which is no data.
fn step_byte(standing: &mut Standing, name: &[u8], encoded: u64, bytes: &[u8])
    requires some { 0 < length «bytes».now }
    requires place { reading.is_data standing.old.place ≡ false }
    requires open { reading.is_closed encoded standing.old.place standing.old.taken ≡ false }
    ensures taken { standing.new.taken ≡ standing.old.taken + 1 }
    ensures value { (decoded : ℕ) (held : List ℕ)
        → reading_in standing.new held
        ≡ reading.run (record { name = name.now; encoded = encoded; decoded = decoded }) (reading_in standing.old held)
        (take 1 «bytes».now) }
{
    standing.take_byte(name, encoded, bytes[0]);
}

// Takes a front of the bytes that are to come: data of a chunk, or one byte.
fn step<S: Sink>(
    standing: &mut Standing,
    name: &[u8],
    encoded: u64,
    bytes: &[u8],
    sink: &mut S,
) -> Result<usize, NoMemory>
    requires some { 0 < length «bytes».now }
    requires open { reading.is_closed encoded standing.old.place standing.old.taken ≡ false }
    ensures count { IfOk result (λ n. (0 < n) × (n ≤ length «bytes».now)) }
    ensures taken { MatchResult result
        (λ n. standing.new.taken ≡ standing.old.taken + n)
        (λ _. standing.new.taken ≡ standing.old.taken) }
    ensures value { IfOk result (λ n. (decoded : ℕ) (held : List ℕ)
        → reading_in standing.new (held ++ got (S.taken sink.old) (S.taken sink.new))
        ≡ reading.run (record { name = name.now; encoded = encoded; decoded = decoded }) (reading_in standing.old held)
        (take n «bytes».now)) }
    ensures grows { Grows (S.taken sink.old) (S.taken sink.new) }
    ensures cause { OnErr result ((refused : List ℕ) × S.may_refuse sink.old refused) }
{
    match standing.place {
        Place::Data(left) if left > 0 => step_data(standing, encoded, left, bytes, sink),
        _ => {
            step_byte(standing, name, encoded, bytes);
            Ok(1)
        }
    }
}

// Takes these bytes up to where no byte is read any more, and says how many it took.
pub(crate) fn advance<S: Sink>(
    standing: &mut Standing,
    name: &[u8],
    encoded: u64,
    bytes: &[u8],
    sink: &mut S,
) -> Result<usize, NoMemory>
    ensures count { IfOk result (λ n. n ≤ length «bytes».now) }
    ensures all { IfOk result (λ n. (n ≡ length «bytes».now)
        ⊎ (reading.is_closed encoded standing.new.place standing.new.taken ≡ true)) }
    ensures taken { IfOk result (λ n. standing.new.taken ≡ standing.old.taken + n) }
    ensures counts { (standing.old.taken ≤ standing.new.taken)
        × (standing.new.taken ≤ standing.old.taken + length «bytes».now) }
    ensures value { IfOk result (λ n. (decoded : ℕ) (held : List ℕ)
        → reading_in standing.new (held ++ got (S.taken sink.old) (S.taken sink.new))
        ≡ reading.run (record { name = name.now; encoded = encoded; decoded = decoded }) (reading_in standing.old held)
        (take n «bytes».now)) }
    ensures grows { Grows (S.taken sink.old) (S.taken sink.new) }
    ensures some { OnErr result (0 < length «bytes».now) }
    ensures room { OnErr result (standing.old.taken < encoded) }
    ensures cause { OnErr result ((state : S) × (refused : List ℕ) × S.may_refuse state refused) }
{
    let mut taken = 0;
    while taken < bytes.len() && !standing.is_closed(encoded) {
        taken += step(standing, name, encoded, &bytes[taken..], sink)?;
    }
    Ok(taken)
}
