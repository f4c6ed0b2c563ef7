//! Numbers of bodies that rows no more name.
ghost use Rattle.std.specs.Prelude.{◌≡◌, ◌≤◌, ◌++◌, ℕ};
ghost use Rattle.s3_stored_bodies.specs.Numbers.{times, named_less, KeepsNamed, StillOutlive};

use s3_stored_bodies::{StoredBodies, give_up_all};

/// Takes back that rows name these numbers, and those.
pub(crate) fn give_up_both<B: StoredBodies>(bodies: &mut B, first: &[u64], second: &[u64])
    requires { (number : ℕ) → times number (first.now ++ second.now) ≤ B.uses bodies.old number }
    ensures uses { B.uses bodies.new ≡ named_less (first.now ++ second.now) (B.uses bodies.old) }
    ensures contents { KeepsNamed (B.uses bodies.new) (B.contents bodies.old) (B.contents bodies.new) }
    ensures outlives { StillOutlive B.outlives bodies.old bodies.new }
{
    give_up_all(bodies, first);
    give_up_all(bodies, second);
}
