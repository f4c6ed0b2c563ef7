//! Tests of `s3_stored_bodies`: bodies under numbers, by calls that any keeper of bodies takes.
ghost use Rattle.std.specs.Prelude.{◌≡◌, ℕ, ◌<◌, ◌≤◌, All, IfOk};

use s3_bodies::Body;
use s3_stored_bodies::{MemoryBodies, StoredBodies, give_up_all, joined, share_all};
use s3_terms::NoMemory;
use std::alloc::Global;

// Keeps a body of these bytes for one row, and answers its number.
fn keep<B: StoredBodies>(bodies: &mut B, alloc: Global, bytes: &[u8]) -> Result<u64, NoMemory>
    ensures named { IfOk result (λ number. 0 < B.uses bodies.new number) }
    ensures others { IfOk result (λ number. (other : ℕ) → B.uses bodies.old other ≤ B.uses bodies.new other) }
{
    let body = Body::of(alloc, bytes)?;
    bodies.keep(alloc, body)
}

// Whether a body has these bytes.
fn shows(alloc: Global, body: &Body, wanted: &[u8]) -> bool {
    match body.to_vec(alloc) {
        Ok(bytes) => bytes.as_slice() == wanted,
        Err(_) => false,
    }
}

// Whether a body was found, and has these bytes.
fn has(alloc: Global, found: Result<Body, NoMemory>, wanted: &[u8]) -> bool {
    match found {
        Ok(body) => shows(alloc, &body, wanted),
        Err(_) => false,
    }
}

// Whether the bodies under these numbers are these bytes, one behind another.
fn are<B: StoredBodies>(bodies: &mut B, alloc: Global, numbers: &[u64], wanted: &[u8]) -> bool
    requires { All (λ number. 0 < B.uses bodies.old number) numbers.now }
    ensures { B.uses bodies.new ≡ B.uses bodies.old }
{
    let found = joined(bodies, alloc, numbers);
    has(alloc, found, wanted)
}

// Whether the body under this number has these bytes, and tells so many.
fn is<B: StoredBodies>(bodies: &mut B, alloc: Global, number: u64, wanted: &[u8]) -> bool
    requires { 0 < B.uses bodies.old number }
    ensures { B.uses bodies.new ≡ B.uses bodies.old }
{
    let size = bodies.size(number);
    let found = bodies.body(alloc, number);
    has(alloc, found, wanted) && size == wanted.len() as u64
}

// Whether the bodies `one`, no bytes, and `three` under these numbers are found while rows name them: each for one row in the
// beginning, and the first not any more in the end.
fn stay<B: StoredBodies>(
    bodies: &mut B,
    alloc: Global,
    one: u64,
    none: u64,
    three: u64,
) -> Result<bool, NoMemory>
    requires one { 0 < B.uses bodies.old one }
    requires none { 0 < B.uses bodies.old none }
    requires three { 0 < B.uses bodies.old three }
{
    share_all(bodies, &[three, one, three])?;
    bodies.give_up(three);
    let shared = are(bodies, alloc, &[three, none, one], b"threeone");
    give_up_all(bodies, &[three, one]);
    let alone = are(bodies, alloc, &[one], b"one");
    let no_bytes = are(bodies, alloc, &[], b"");
    bodies.give_up(one);
    Ok(shared & alone & no_bytes)
}

// Whether bodies are kept, shared and given up.
fn are_kept<B: StoredBodies>(bodies: &mut B, alloc: Global) -> Result<bool, NoMemory> {
    let one = keep(bodies, alloc, b"one")?;
    let none = keep(bodies, alloc, b"")?;
    let three = keep(bodies, alloc, b"three")?;
    let told = is(bodies, alloc, none, b"") & is(bodies, alloc, three, b"three");
    Ok(stay(bodies, alloc, one, none, three)? & told)
}

/// Whether bodies in memory are.
pub(crate) fn hold(alloc: Global) -> bool {
    let mut bodies = MemoryBodies::new(alloc);
    are_kept(&mut bodies, alloc).unwrap_or(false)
}
