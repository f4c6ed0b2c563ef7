//! Several numbers at once, whatever keeps the bodies.
ghost use Rattle.std.specs.Prelude.{◌≡◌, ℕ, ◌<◌, ◌≤◌, true, All, length, map as each, IfOk, OnErr};
ghost use Rattle.std.specs.List.{concat, flat_map};
ghost use Rattle.s3_stored_bodies.specs.Numbers.{bytes_under, times, named_more, named_less, KeepsNamed, StillOutlive};

use crate::stored_bodies::StoredBodies;
use s3_bodies::Body;
use s3_terms::NoMemory;
use std::alloc::Global;

/// Takes back that a row names each of these numbers, once for each time that the number stands there. The bodies that no
/// row names any more go. It takes no memory.
pub fn give_up_all<B: StoredBodies>(bodies: &mut B, numbers: &[u64])
    requires { (number : ℕ) → times number numbers.now ≤ B.uses bodies.old number }
    ensures uses { B.uses bodies.new ≡ named_less numbers.now (B.uses bodies.old) }
    ensures contents { KeepsNamed (B.uses bodies.new) (B.contents bodies.old) (B.contents bodies.new) }
    ensures outlives { StillOutlive B.outlives bodies.old bodies.new }
{
    for number in numbers {
        bodies.give_up(*number);
    }
}

/// Lets one more row name each of these numbers, which are named already: once for each time that the number stands there.
/// `NoMemory` leaves all as it was.
pub fn share_all<B: StoredBodies>(bodies: &mut B, numbers: &[u64]) -> Result<(), NoMemory>
    requires { All (λ number. 0 < B.uses bodies.old number) numbers.now }
    ensures contents { B.contents bodies.new ≡ B.contents bodies.old }
    ensures uses { IfOk result (λ _. B.uses bodies.new ≡ named_more numbers.now (B.uses bodies.old)) }
    ensures err_uses { OnErr result (B.uses bodies.new ≡ B.uses bodies.old) }
    ensures outlives { StillOutlive B.outlives bodies.old bodies.new }
{
    for (done, number) in numbers.iter().enumerate() {
        if let Err(failed) = bodies.share(*number) {
            give_up_all(bodies, &numbers[..done]);
            return Err(failed);
        }
    }
    Ok(())
}

/// The bodies under these numbers, which are named, one behind another. The bytes are shared and not copied, as `body` does.
/// It costs some 50 bytes for each number, but for one alone. A keeper in memory has an error only where there are two
/// numbers or more, or any bytes.
pub fn joined<B: StoredBodies>(
    bodies: &mut B,
    alloc: Global,
    numbers: &[u64],
) -> Result<Body, NoMemory>
    requires { All (λ number. 0 < B.uses bodies.old number) numbers.now }
    ensures value { IfOk result (λ body. body ≡ flat_map (bytes_under (B.contents bodies.old)) numbers.now) }
    ensures contents { B.contents bodies.new ≡ B.contents bodies.old }
    ensures uses { B.uses bodies.new ≡ B.uses bodies.old }
    ensures outlives { StillOutlive B.outlives bodies.old bodies.new }
    ensures memory { OnErr result (B.is_in_memory ≡ true → length numbers.now ≤ 1
        → 0 < length (flat_map (bytes_under (B.contents bodies.old)) numbers.now)) }
{
    match numbers {
        [] => Ok(Body::empty()),
        [number] => bodies.body(alloc, *number),
        _ => join_several(bodies, alloc, numbers),
    }
}

// The same, without a word on memory.
fn join_several<B: StoredBodies>(
    bodies: &mut B,
    alloc: Global,
    numbers: &[u64],
) -> Result<Body, NoMemory>
    requires { All (λ number. 0 < B.uses bodies.old number) numbers.now }
    ensures value { IfOk result (λ body. body ≡ flat_map (bytes_under (B.contents bodies.old)) numbers.now) }
    ensures contents { B.contents bodies.new ≡ B.contents bodies.old }
    ensures uses { B.uses bodies.new ≡ B.uses bodies.old }
    ensures outlives { StillOutlive B.outlives bodies.old bodies.new }
{
    let parts = bodies_under(bodies, alloc, numbers)?;
    join(alloc, parts.as_slice())
}

// The bodies under these numbers.
fn bodies_under<B: StoredBodies>(
    bodies: &mut B,
    alloc: Global,
    numbers: &[u64],
) -> Result<Vec<Body>, NoMemory>
    requires { All (λ number. 0 < B.uses bodies.old number) numbers.now }
    ensures value { IfOk result (λ parts. parts.items ≡ each (bytes_under (B.contents bodies.old)) numbers.now) }
    ensures contents { B.contents bodies.new ≡ B.contents bodies.old }
    ensures uses { B.uses bodies.new ≡ B.uses bodies.old }
    ensures outlives { StillOutlive B.outlives bodies.old bodies.new }
{
    let mut parts = Vec::with_capacity(alloc, numbers.len())?;
    for number in numbers {
        let body = bodies.body(alloc, *number)?;
        parts.push(body)?;
    }
    Ok(parts)
}

// These bodies, one behind another.
fn join(alloc: Global, parts: &[Body]) -> Result<Body, NoMemory>
    ensures { IfOk result (λ body. body ≡ concat parts.now) }
{
    let mut lent = Vec::with_capacity(alloc, parts.len())?;
    for part in parts {
        lent.push(part)?;
    }
    Body::join(alloc, lent.as_slice())
}
