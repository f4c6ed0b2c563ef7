//! A body is written into the file.
ghost use Rattle.std.specs.Prelude.{◌≡◌, ◌+◌, ℕ, length, slice_index, IsTrue, IfOk, OnOk, OnErr};
ghost use Rattle.s3_block_file.specs.declared.extent.Extent.{Extent as Place};
ghost use Rattle.s3_block_file.specs.Extent.{granules_for, IsAddressable, AreApart, Stores, StartsWith};
ghost use Rattle.s3_block_file.specs.Uses.{AreFree, OneMore};
ghost use Rattle.s3_block_file.specs.BlockFile.{disk_of, uses_of, IsLive};
ghost use Rattle.s3_block_bodies.specs.Header.{header_of, stored};
ghost use Rattle.s3_block_bodies.specs.Spares.{Spares, SparesLive};

use crate::header::{HEADER_SIZE, Header};
use s3_block_file::{BlockFile, Extent};
use s3_bodies::Body;
use s3_storage::StorageFault;
use sqlite_disk::Disk;
use std::alloc::Global;

/// Writes a body where none lies, behind its header. Until the file is synced a crash may leave other bytes there. After an error the
/// file has what it had, and all room that it had.
pub(crate) fn store<D: Disk + Drop>(
    alloc: Global,
    file: &mut BlockFile<D>,
    body: &Body,
) -> Result<Extent, StorageFault>
    requires { IsTrue (D.Disk.is_usable (disk_of file.old)) }
    ensures size { IfOk result (λ e. e.size ≡ length body.now + 32) }
    ensures addressable { IfOk result (λ e. IsAddressable e) }
    ensures fresh { IfOk result (λ e. AreFree (uses_of file.old) e.first (granules_for e.size)) }
    ensures takes { IfOk result (λ e. OneMore e.first (granules_for e.size) (uses_of file.old) (uses_of file.new)) }
    ensures apart { IfOk result (λ e. (x : Place) → IsLive file.old x → AreApart x e) }
    ensures live { IfOk result (λ e. IsLive file.new e) }
    ensures stored { IfOk result (λ e. Stores (D.Disk.seen (disk_of file.new)) e (stored body.now)) }
    ensures spares { SparesLive D.Disk.seen D.Disk.may_leave D.Disk.is_clean file.old file.new }
    ensures usable { IsTrue (D.Disk.is_usable (disk_of file.new)) }
    ensures room { OnErr result ((granule : ℕ) → slice_index (uses_of file.new) granule ≡ slice_index (uses_of file.old) granule) }
{
    let Some(size) = body.size().checked_add(HEADER_SIZE as u64) else {
        return Err(StorageFault::NoRoom);
    };
    let extent = file.reserve(size as usize)?;
    match write(alloc, file, extent, body) {
        Ok(()) => Ok(extent),
        Err(fault) => {
            file.free(extent);
            Err(fault)
        }
    }
}

// Writes a body into its extent.
fn write<D: Disk + Drop>(
    alloc: Global,
    file: &mut BlockFile<D>,
    extent: Extent,
    body: &Body,
) -> Result<(), StorageFault>
    requires usable { IsTrue (D.Disk.is_usable (disk_of file.old)) }
    requires addressable { IsAddressable extent }
    requires size { extent.size ≡ length body.now + 32 }
    ensures stored { OnOk result (Stores (D.Disk.seen (disk_of file.new)) extent (stored body.now)) }
    ensures spares { Spares D.Disk.seen D.Disk.may_leave D.Disk.is_clean extent file.old file.new }
    ensures usable { IsTrue (D.Disk.is_usable (disk_of file.new)) }
{
    put_header(alloc, file, extent, body)?;
    put_bytes(file, extent, body)
}

// Writes the header of a body to the start of its extent.
fn put_header<D: Disk + Drop>(
    alloc: Global,
    file: &mut BlockFile<D>,
    extent: Extent,
    body: &Body,
) -> Result<(), StorageFault>
    requires usable { IsTrue (D.Disk.is_usable (disk_of file.old)) }
    requires addressable { IsAddressable extent }
    requires size { extent.size ≡ length body.now + 32 }
    ensures begun { OnOk result (StartsWith (D.Disk.seen (disk_of file.new)) extent (header_of body.now)) }
    ensures spares { Spares D.Disk.seen D.Disk.may_leave D.Disk.is_clean extent file.old file.new }
    ensures usable { IsTrue (D.Disk.is_usable (disk_of file.new)) }
{
    let header = Header::of(body).to_bytes(alloc)?;
    file.put(extent, 0, header.as_slice())
}

// Writes the bytes of a body behind its header.
fn put_bytes<D: Disk + Drop>(
    file: &mut BlockFile<D>,
    extent: Extent,
    body: &Body,
) -> Result<(), StorageFault>
    requires usable { IsTrue (D.Disk.is_usable (disk_of file.old)) }
    requires addressable { IsAddressable extent }
    requires size { extent.size ≡ length body.now + 32 }
    requires begun { StartsWith (D.Disk.seen (disk_of file.old)) extent (header_of body.now) }
    ensures whole { OnOk result (Stores (D.Disk.seen (disk_of file.new)) extent (stored body.now)) }
    ensures spares { Spares D.Disk.seen D.Disk.may_leave D.Disk.is_clean extent file.old file.new }
    ensures usable { IsTrue (D.Disk.is_usable (disk_of file.new)) }
{
    let mut at = 0;
    while at < body.size() {
        let piece = body.piece(at).bytes();
        file.put(extent, HEADER_SIZE + at as usize, piece)?;
        at += piece.len() as u64;
    }
    Ok(())
}
