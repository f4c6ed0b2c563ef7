//! The bytes that a column names by the numbers of bodies.
ghost use Rattle.std.specs.Prelude.{◌≡◌, ◌<◌, All, IfOk};
ghost use Rattle.s3_stored_bodies.specs.Numbers.{StillOutlive};
ghost use Rattle.s3_columns.specs.Numbers.{numbers_in};
ghost use Rattle.s3_stored_rows.specs.Bodies.{bytes_in};

use s3_bodies::Body;
use s3_columns::read_numbers;
use s3_stored_bodies::{StoredBodies, joined};
use s3_terms::NoMemory;
use std::alloc::Global;

/// The bytes of the bodies that a column names, one behind another. They are shared and not copied where they lie in memory.
#[tactic(auto, unfolding(s3_stored_rows::specs::Bodies::bytes_in))]
pub(crate) fn body_in<B: StoredBodies>(
    alloc: Global,
    bodies: &mut B,
    column: &[u8],
) -> Result<Body, NoMemory>
    requires { All (λ number. 0 < B.uses bodies.old number) (numbers_in column.now) }
    ensures value { IfOk result (λ body. body ≡ bytes_in (B.contents bodies.old) column.now) }
    ensures contents { B.contents bodies.new ≡ B.contents bodies.old }
    ensures uses { B.uses bodies.new ≡ B.uses bodies.old }
    ensures outlives { StillOutlive B.outlives bodies.old bodies.new }
{
    let numbers = read_numbers(alloc, column)?;
    joined(bodies, alloc, numbers.as_slice())
}
