//! Bodies outlive a crash.
ghost use Rattle.std.specs.Prelude.{◌≡◌, ◌<◌, ℕ, List, Some, IsTrue, IfOk};
ghost use Rattle.std.specs.FinMap as map;
ghost use Rattle.s3_stored_bodies.specs.Numbers.{times};
ghost use Rattle.s3_block_bodies.specs.Stored.{IsSettled};
ghost use Rattle.s3_block_bodies.specs.Parts.{contents_in, uses_in, disk_in};

use crate::BlockBodies;
use s3_progress::Nobody;
use s3_storage::StorageFault;
use sqlite_disk::Crash;
use std::alloc::Global;

/// The keeper that an open after a crash gives. Where rows name the body of a number, it has the bytes that were settled under that
/// number, if no wrong answer of the disk was taken as true.
pub fn opened_after_crash<D: Crash + Drop>(
    alloc: Global,
    bodies: BlockBodies<D>,
    numbers: &[u64],
) -> Result<BlockBodies<D>, StorageFault>
    ensures uses { IfOk result (λ after. uses_in after ≡ (λ number. times number numbers.now)) }
    ensures survive { IfOk result (λ after. IsTrue (D.Disk.is_clean (disk_in after)) → (number : ℕ) (bytes : List ℕ)
        → IsSettled D.Disk.may_leave D.Disk.is_clean (disk_in bodies) bodies.granules number bytes → 0 < times number numbers.now → map.get (contents_in after) number ≡ Some bytes) }
{
    let mut disk = bodies.into_disk();
    disk.crash();
    let after = BlockBodies::open(alloc, disk, numbers, &mut Nobody)?;
    after.are_housed();
    Ok(after)
}
