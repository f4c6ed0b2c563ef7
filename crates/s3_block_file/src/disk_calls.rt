//! Calls of a disk, whose errors are the faults of a store.
ghost use Rattle.std.specs.Prelude.{◌≡◌, ◌+◌, ◌<◌, ◌≤◌, ℕ, List, length, if◌then◌else◌, is_ok, IsTrue, IfOk, IfErr, OnOk, IsErrOf};
ghost use Rattle.sqlite_disk.specs.Disk.{Holds, Torn, Follows, Only, CountsFault, CountsFaultIf};
ghost use Rattle.sqlite_disk.specs.Refusal.{is_no_room as finds_full};
ghost use Rattle.s3_storage.specs.declared.storage_fault.StorageFault.TheVariants.{NoRoom, Damaged, Failed};
ghost use Rattle.s3_block_file.specs.Faults.{TellsRoom, HasCause, IsOpenFault};

use s3_storage::StorageFault;
use sqlite_disk::{Disk, is_no_room};
use std::io;

/// What an error of a call that writes means.
fn write_fault(error: &io::Error) -> StorageFault
    ensures { result ≡ if finds_full error.now then NoRoom else Failed }
{
    if is_no_room(error) {
        StorageFault::NoRoom
    } else {
        StorageFault::Failed
    }
}

/// Writes bytes from this place of the file on. After an error what lies in their range isn't known.
pub(crate) fn write<D: Disk>(disk: &mut D, at: usize, piece: &[u8]) -> Result<(), StorageFault>
    requires usable { IsTrue (D.Disk.is_usable disk.old) }
    requires some { 0 < length piece.now }
    ensures written { OnOk result (Holds (D.Disk.seen disk.new) at piece.now) }
    ensures others { Torn at (length piece.now) (D.Disk.seen disk.old) (D.Disk.seen disk.new) }
    ensures crash { Follows (Torn at (length piece.now)) (D.Disk.may_leave disk.old) (D.Disk.may_leave disk.new) }
    ensures usable { IsTrue (D.Disk.is_usable disk.new) }
    ensures clean { D.Disk.is_clean disk.new ≡ D.Disk.is_clean disk.old }
    ensures cause { CountsFault result (D.Disk.faults disk.old) (D.Disk.faults disk.new) }
    ensures told { TellsRoom result (D.Disk.tally_of disk.old).refused (D.Disk.tally_of disk.new).refused }
{
    match disk.write_at(at, piece) {
        Ok(()) => Ok(()),
        Err(error) => Err(write_fault(&error)),
    }
}

/// After it a crash leaves what a read returns now. After an error the disk isn't usable.
pub(crate) fn sync<D: Disk>(disk: &mut D) -> Result<(), StorageFault>
    requires { IsTrue (D.Disk.is_usable disk.old) }
    ensures settled { OnOk result (Only (D.Disk.seen disk.old) (D.Disk.may_leave disk.new)) }
    ensures seen { D.Disk.seen disk.new ≡ D.Disk.seen disk.old }
    ensures crash { (left : List ℕ) → D.Disk.may_leave disk.new left → D.Disk.may_leave disk.old left }
    ensures usable { D.Disk.is_usable disk.new ≡ is_ok result }
    ensures clean { D.Disk.is_clean disk.new ≡ D.Disk.is_clean disk.old }
    ensures cause { CountsFault result (D.Disk.faults disk.old) (D.Disk.faults disk.new) }
    ensures told { TellsRoom result (D.Disk.tally_of disk.old).refused (D.Disk.tally_of disk.new).refused }
    ensures undamaged { IsErrOf result Damaged → ⊥ }
    ensures kinds { IfErr result IsOpenFault }
{
    match disk.sync() {
        Ok(()) => Ok(()),
        Err(error) => Err(write_fault(&error)),
    }
}

/// How many bytes the file has.
pub(crate) fn size<D: Disk>(disk: &mut D) -> Result<usize, StorageFault>
    requires { IsTrue (D.Disk.is_usable disk.old) }
    ensures size { IfOk result (λ n. IsTrue (D.Disk.is_clean disk.new) → n ≡ length (D.Disk.seen disk.old)) }
    ensures seen { D.Disk.seen disk.new ≡ D.Disk.seen disk.old }
    ensures crash { (left : List ℕ) → D.Disk.may_leave disk.new left → D.Disk.may_leave disk.old left }
    ensures usable { IsTrue (D.Disk.is_usable disk.new) }
    ensures clean { IsTrue (D.Disk.is_clean disk.new) → IsTrue (D.Disk.is_clean disk.old) }
    ensures cause { HasCause result (D.Disk.faults disk.old) (D.Disk.faults disk.new) }
    ensures tally { D.Disk.tally_of disk.new ≡ D.Disk.tally_of disk.old }
    ensures failed { IfErr result (λ e. e ≡ Failed) }
    ensures undamaged { IsErrOf result Damaged → ⊥ }
    ensures kinds { IfErr result IsOpenFault }
{
    match disk.len() {
        Ok(size) => Ok(size),
        Err(_) => Err(StorageFault::Failed),
    }
}

/// Reads the bytes from this place of the file on.
pub(crate) fn read<D: Disk>(disk: &mut D, at: usize, buf: &mut [u8]) -> Result<(), StorageFault>
    requires { IsTrue (D.Disk.is_usable disk.old) }
    ensures read { OnOk result (IsTrue (D.Disk.is_clean disk.new) → 0 < length buf.old → Holds (D.Disk.seen disk.old) at buf.new) }
    ensures seen { D.Disk.seen disk.new ≡ D.Disk.seen disk.old }
    ensures crash { (left : List ℕ) → D.Disk.may_leave disk.new left → D.Disk.may_leave disk.old left }
    ensures usable { IsTrue (D.Disk.is_usable disk.new) }
    ensures clean { IsTrue (D.Disk.is_clean disk.new) → IsTrue (D.Disk.is_clean disk.old) }
    ensures cause { (IsTrue (D.Disk.is_clean disk.old) → at + length buf.old ≤ length (D.Disk.seen disk.old)) → HasCause result (D.Disk.faults disk.old) (D.Disk.faults disk.new) }
    ensures tally { D.Disk.tally_of disk.new ≡ D.Disk.tally_of disk.old }
    ensures failed { IfErr result (λ e. e ≡ Failed) }
{
    match disk.read_at(at, buf) {
        Ok(()) => Ok(()),
        Err(_) => Err(StorageFault::Failed),
    }
}
