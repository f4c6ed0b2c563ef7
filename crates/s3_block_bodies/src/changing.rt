//! Bodies come and go, in memory and in the file.
ghost use Rattle.std.specs.Prelude.{false, ◌≡◌, ◌+◌, ◌<◌, ◌^◌, List, [], ◌∷◌, ℕ, length, slice_index, Some, IfOk, OnErr};
ghost use Rattle.std.specs.FinMap as map;
ghost use Rattle.s3_stored_bodies.specs.Numbers.{named_more, named_less, KeepsNamed};
ghost use Rattle.s3_stored_bodies.specs.Held.{contents_of, uses_of};
ghost use Rattle.s3_block_file.specs.declared.extent.Extent.{Extent as Place};
ghost use Rattle.s3_block_file.specs.Extent.{granules_for, IsAddressable, AreApart, Stores};
ghost use Rattle.s3_block_file.specs.Uses.{OneMore};
ghost use Rattle.s3_block_file.specs.BlockFile.{disk_of, uses_of as granules_of, IsLive};
ghost use Rattle.s3_block_bodies.specs.Header.{stored};
ghost use Rattle.s3_block_bodies.specs.Stored.{extent_of, AreHoused, NoneWaits, IsSettled, IsWaiting, IsSound};

use crate::header::HEADER_SIZE;
use crate::writing::store;
use s3_block_file::{BlockFile, Extent};
use s3_bodies::Body;
use s3_stored_bodies::{MemoryBodies, StoredBodies};
use s3_terms::NoMemory;
use sqlite_disk::Disk;
use std::alloc::Global;

/// Keeps a body for one row: first in the file, and then in memory. An error leaves the bodies as they were.
pub(crate) fn keep<D: Disk + Drop>(
    memory: &mut MemoryBodies,
    file: &mut BlockFile<D>,
    waiting: &[Extent],
    alloc: Global,
    body: Body,
) -> Result<u64, NoMemory>
    requires sound { IsSound D.Disk.seen D.Disk.may_leave D.Disk.is_clean (contents_of memory.old) waiting.now false (disk_of file.old) (granules_of file.old) }
    ensures sound { IsSound D.Disk.seen D.Disk.may_leave D.Disk.is_clean (contents_of memory.new) waiting.now false (disk_of file.new) (granules_of file.new) }
    ensures contents { IfOk result (λ number. contents_of memory.new ≡ map.insert (contents_of memory.old) number body) }
    ensures uses { IfOk result (λ number. uses_of memory.new ≡ named_more (number ∷ []) (uses_of memory.old)) }
    ensures unnamed { IfOk result (λ number. uses_of memory.old number ≡ 0) }
    ensures below { IfOk result (λ number. number < 2 ^ 63) }
    ensures err { OnErr result (memory.new ≡ memory.old) }
    ensures room { OnErr result ((granule : ℕ) → slice_index (granules_of file.new) granule ≡ slice_index (granules_of file.old) granule) }
    ensures settled { (n : ℕ) (bytes : List ℕ) → IsSettled D.Disk.may_leave D.Disk.is_clean (disk_of file.old) (granules_of file.old) n bytes
        → IsSettled D.Disk.may_leave D.Disk.is_clean (disk_of file.new) (granules_of file.new) n bytes }
{
    if !file.is_usable() {
        return Err(NoMemory);
    }
    match store(alloc, file, &body) {
        Ok(extent) => hold(memory, file, waiting, extent, body),
        Err(_) => Err(NoMemory),
    }
}

// Keeps a body in memory that is in the file already. An error gives its room back.
fn hold<D: Disk + Drop>(
    memory: &mut MemoryBodies,
    file: &mut BlockFile<D>,
    waiting: &[Extent],
    extent: Extent,
    body: Body,
) -> Result<u64, NoMemory>
    requires sound { IsSound D.Disk.seen D.Disk.may_leave D.Disk.is_clean (contents_of memory.old) waiting.now false (disk_of file.old) (granules_of file.old) }
    requires size { extent.size ≡ length body + 32 }
    requires addressable { IsAddressable extent }
    requires live { IsLive file.old extent }
    requires apart { (number : ℕ) (bytes : List ℕ) → map.get (contents_of memory.old) number ≡ Some bytes → AreApart (extent_of number (length bytes)) extent }
    requires none_waits { NoneWaits waiting.now extent }
    requires unnamed { uses_of memory.old extent.first ≡ 0 }
    requires stored { Stores (D.Disk.seen (disk_of file.old)) extent (stored body) }
    ensures sound { IsSound D.Disk.seen D.Disk.may_leave D.Disk.is_clean (contents_of memory.new) waiting.now false (disk_of file.new) (granules_of file.new) }
    ensures contents { IfOk result (λ number. contents_of memory.new ≡ map.insert (contents_of memory.old) number body) }
    ensures uses { IfOk result (λ number. uses_of memory.new ≡ named_more (number ∷ []) (uses_of memory.old)) }
    ensures number { IfOk result (λ number. number ≡ extent.first) }
    ensures err { OnErr result (memory.new ≡ memory.old) }
    ensures room { OnErr result (OneMore extent.first (granules_for extent.size) (granules_of file.new) (granules_of file.old)) }
    ensures disk { disk_of file.new ≡ disk_of file.old }
    ensures keeps { (x : Place) → AreApart x extent → IsLive file.old x → IsLive file.new x }
{
    let number = extent.first as u64;
    match memory.keep_under(number, body) {
        Ok(()) => Ok(number),
        Err(failed) => {
            file.free(extent);
            Err(failed)
        }
    }
}

/// Takes back that one row names a number. With the last one the body goes, and its room waits to be free. There is memory for that since
/// it was kept; were there none, it would stay taken until the next open.
pub(crate) fn give_up<D: Disk + Drop>(
    memory: &mut MemoryBodies,
    file: &BlockFile<D>,
    waiting: &mut Vec<Extent>,
    number: u64,
)
    requires named { 0 < uses_of memory.old number }
    requires housed { AreHoused (contents_of memory.old) (granules_of file.now) }
    requires waits { IsWaiting (contents_of memory.old) waiting.old.items (granules_of file.now) }
    ensures waits { IsWaiting (contents_of memory.new) waiting.new.items (granules_of file.now) }
    ensures uses { uses_of memory.new ≡ named_less (number ∷ []) (uses_of memory.old) }
    ensures contents { KeepsNamed (uses_of memory.new) (contents_of memory.old) (contents_of memory.new) }
{
    let _file = file;
    let size = memory.size(number) as usize;
    memory.give_up(number);
    if memory.is_named(number) {
        return;
    }
    let room = size + HEADER_SIZE;
    let _ = waiting.push(Extent {
        first: number as usize,
        size: room,
    });
}
