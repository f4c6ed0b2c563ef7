//! What goes out in one write.

ghost use Rattle.std.specs.Prelude.{◌≡◌, ℕ, ◌+◌, ◌<◌, ◌≤◌, List, ◌++◌, length, take, drop};
ghost use Rattle.std.specs.Io.Slices.{io_slices_bytes};

use s3_bodies::Body;
use std::io::IoSlice;

// A text by itself.
pub(crate) fn alone(text: &[u8]) -> [IoSlice<'_>; 4]
    ensures { io_slices_bytes result ≡ text.now }
{
    let nothing = IoSlice::new(&[]);
    [IoSlice::new(text), nothing, nothing, nothing]
}

// Some bytes of a body that lie together, from a place on, and the place behind them; none at its end.
fn next_of(body: &Body, from: u64) -> (&[u8], u64)
    requires { from ≤ length body.now }
    ensures place { result.1 ≡ from + length result.0.now }
    ensures within { result.1 ≤ length body.now }
    ensures stands { take (length result.0.now) (drop from body.now) ≡ result.0.now }
    ensures some { from < length body.now → 0 < length result.0.now }
{
    if from == body.size() {
        return (&[], from);
    }
    let piece = body.piece(from).bytes();
    (piece, from + piece.len() as u64)
}

// A text and behind it a body from a place on, as much of it as lies in three blocks.
pub(crate) fn with_body<'a>(text: &'a [u8], body: &'a Body, from: u64) -> [IoSlice<'a>; 4]
    requires { from < length body.now }
    ensures beginning { (more : List ℕ) → take (length (io_slices_bytes result)) (text.now ++ (drop from body.now ++ more)) ≡ io_slices_bytes result }
    ensures some { 0 < length (io_slices_bytes result) }
{
    let (first, at) = next_of(body, from);
    let (second, at) = next_of(body, at);
    let (third, _) = next_of(body, at);
    [
        IoSlice::new(text),
        IoSlice::new(first),
        IoSlice::new(second),
        IoSlice::new(third),
    ]
}
