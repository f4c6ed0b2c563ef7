//! All bodies that rows name are read from the file.
ghost use Rattle.std.specs.Prelude.{◌≡◌, ◌<◌, ◌≤◌, ℕ, [], ◌∷◌, length, IsTrue, IfOk, OnOk};
ghost use Rattle.s3_stored_bodies.specs.Numbers.{times, named_more};
ghost use Rattle.s3_stored_bodies.specs.Held.{contents_of, uses_of};
ghost use Rattle.s3_block_bodies.specs.Stored.{AreStored};
ghost use Rattle.s3_block_bodies.specs.Loading.{AreListed};

use crate::header::HEADER_SIZE;
use crate::reading::{read_body, size_of};
use s3_block_file::Extent;
use s3_progress::Progress;
use s3_storage::StorageFault;
use s3_stored_bodies::{MemoryBodies, StoredBodies};
use sqlite_disk::Disk;
use std::alloc::Global;

/// Bodies that were read, and where each lies.
#[derive(Drop)]
pub(crate) struct Loaded {
    pub(crate) memory: MemoryBodies,
    pub(crate) extents: Vec<Extent>,
}

// Lets one more row name a number, whose body is read from a file of so many bytes unless it was already.
fn load<D: Disk>(
    loaded: &mut Loaded,
    alloc: Global,
    disk: &mut D,
    file_size: usize,
    number: u64,
) -> Result<(), StorageFault>
    requires usable { IsTrue (D.Disk.is_usable disk.old) }
    requires size { IsTrue (D.Disk.is_clean disk.old) → file_size ≡ length (D.Disk.seen disk.old) }
    ensures uses { OnOk result (uses_of loaded.new.memory ≡ named_more (number ∷ []) (uses_of loaded.old.memory)) }
    ensures listed { OnOk result (AreListed (contents_of loaded.old.memory) loaded.old.extents.items
        → AreListed (contents_of loaded.new.memory) loaded.new.extents.items) }
    ensures stored { OnOk result (IsTrue (D.Disk.is_clean disk.new) → AreStored (contents_of loaded.old.memory) (D.Disk.seen disk.old)
        → AreStored (contents_of loaded.new.memory) (D.Disk.seen disk.old)) }
    ensures seen { D.Disk.seen disk.new ≡ D.Disk.seen disk.old }
    ensures usable { IsTrue (D.Disk.is_usable disk.new) }
    ensures clean { IsTrue (D.Disk.is_clean disk.new) → IsTrue (D.Disk.is_clean disk.old) }
{
    if loaded.memory.is_named(number) {
        loaded.memory.share(number)?;
        return Ok(());
    }
    let body = read_body(alloc, disk, file_size, number)?;
    let room = body.size() as usize + HEADER_SIZE;
    loaded.extents.push(Extent {
        first: number as usize,
        size: room,
    })?;
    loaded.memory.keep_under(number, body)?;
    Ok(())
}

/// Reads the bodies of these numbers, each once. A number counts as often as it stands there, and is a step of the progress.
pub(crate) fn load_all<D: Disk, P: Progress>(
    alloc: Global,
    disk: &mut D,
    numbers: &[u64],
    progress: &mut P,
) -> Result<Loaded, StorageFault>
    requires { IsTrue (D.Disk.is_usable disk.old) }
    ensures uses { IfOk result (λ loaded. uses_of loaded.memory ≡ (λ number. times number numbers.now)) }
    ensures listed { IfOk result (λ loaded. AreListed (contents_of loaded.memory) loaded.extents.items) }
    ensures stored { IfOk result (λ loaded. IsTrue (D.Disk.is_clean disk.new) → AreStored (contents_of loaded.memory) (D.Disk.seen disk.old)) }
    ensures seen { D.Disk.seen disk.new ≡ D.Disk.seen disk.old }
    ensures usable { IsTrue (D.Disk.is_usable disk.new) }
    ensures clean { IsTrue (D.Disk.is_clean disk.new) → IsTrue (D.Disk.is_clean disk.old) }
{
    let file_size = size_of(disk)?;
    let mut loaded = Loaded {
        memory: MemoryBodies::new(alloc),
        extents: Vec::new(alloc),
    };
    for number in numbers {
        load(&mut loaded, alloc, disk, file_size, *number)?;
        progress.step();
    }
    Ok(loaded)
}
