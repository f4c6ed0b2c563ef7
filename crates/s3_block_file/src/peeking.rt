//! Bytes are read before the extents are known.
ghost use Rattle.std.specs.Prelude.{◌≡◌, ◌⊎◌, ◌+◌, ◌<◌, ◌^◌, ℕ, List, length, IsTrue, IfErr, OnOk, IsErrOf};
ghost use Rattle.sqlite_disk.specs.Disk.{Holds};
ghost use Rattle.s3_storage.specs.declared.storage_fault.StorageFault.TheVariants.{Damaged, Failed};
ghost use Rattle.s3_block_file.specs.Extent.{offset_at};
ghost use Rattle.s3_block_file.specs.Faults.{HasCause};

use crate::disk_calls;
use crate::extent::{GRANULE, MAX_GRANULE};
use s3_storage::StorageFault;
use sqlite_disk::Disk;

/// Reads the bytes that lie from the start of a granule on, as those of a header that tells how long a body is.
///
/// # Errors
///
/// `Damaged` where they don't all lie within the file, else `Failed`.
pub fn read_at<D: Disk>(disk: &mut D, granule: usize, buf: &mut [u8]) -> Result<(), StorageFault>
    requires { IsTrue (D.Disk.is_usable disk.old) }
    ensures read { OnOk result (IsTrue (D.Disk.is_clean disk.new) → 0 < length buf.old → Holds (D.Disk.seen disk.old) (offset_at granule) buf.new) }
    ensures outside { IsErrOf result Damaged → IsTrue (D.Disk.is_clean disk.new) → (2 ^ 40 < granule) ⊎ (length (D.Disk.seen disk.old) < offset_at granule + length buf.old) }
    ensures kinds { IfErr result (λ e. (e ≡ Damaged) ⊎ (e ≡ Failed)) }
    ensures cause { IsTrue (D.Disk.is_clean disk.new) → HasCause result (D.Disk.faults disk.old) (D.Disk.faults disk.new) }
    ensures seen { D.Disk.seen disk.new ≡ D.Disk.seen disk.old }
    ensures crash { (left : List ℕ) → D.Disk.may_leave disk.new left → D.Disk.may_leave disk.old left }
    ensures usable { IsTrue (D.Disk.is_usable disk.new) }
    ensures clean { IsTrue (D.Disk.is_clean disk.new) → IsTrue (D.Disk.is_clean disk.old) }
    ensures tally { D.Disk.tally_of disk.new ≡ D.Disk.tally_of disk.old }
{
    if granule > MAX_GRANULE {
        return Err(StorageFault::Damaged);
    }
    let at = granule * GRANULE;
    let size = disk_calls::size(disk)?;
    if at > size || buf.len() > size - at {
        return Err(StorageFault::Damaged);
    }
    disk_calls::read(disk, at, buf)?;
    Ok(())
}
