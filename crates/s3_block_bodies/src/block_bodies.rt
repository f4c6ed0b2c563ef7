//! Bodies in memory and in a file.
ghost use Rattle.std.specs.Prelude.{◌≡◌, ℕ, true, IsTrue, IfOk};
ghost use Rattle.std.specs.FinMap as map;
ghost use Rattle.s3_stored_bodies.specs.Numbers.{times};
ghost use Rattle.s3_stored_bodies.specs.Held.{named_where_held};
ghost use Rattle.s3_block_bodies.specs.Stored.{AreStored, HasNamed, MayFind, AreHoused, IsSettled};
ghost use Rattle.s3_block_bodies.specs.Parts.{contents_in, uses_in, disk_in};

use crate::changing;
use crate::loading::{Loaded, load_all};
use s3_block_file::{BlockFile, Extent};
use s3_bodies::Body;
use s3_progress::Progress;
use s3_storage::StorageFault;
use s3_stored_bodies::{MemoryBodies, NotSettled, StoredBodies};
use s3_terms::NoMemory;
use sqlite_disk::Disk;
use std::alloc::Global;
use std::marker::Model;

/// Bodies in memory and in a file, from which a later run has them again. The number of a body is the granule of the file at
/// which it begins.
///
/// `keep` writes a body to the file, and `settle` syncs all that was written. The room of a body that no row names waits until it is
/// let go, and is free then. What a crash leaves, and what an `open` finds, is told as long as no wrong answer of the disk was taken
/// as true (`is_clean`); all else holds whatever the disk does, since the bytes are read from memory. After a sync that failed nothing
/// more is asked of the file, and each `keep` and `settle` has an error.
#[derive(Drop)]
pub struct BlockBodies<D: Disk> {
    memory: MemoryBodies,
    file: BlockFile<D>,
    // The room of bodies that went, which isn't free yet. It has memory for that of all bodies that are there.
    waiting: Vec<Extent>,
    // Whether the file was synced since a body was last written.
    is_synced: bool,
}

impl<D: Disk> Model for BlockBodies<D> {
    ghost use Rattle.s3_stored_bodies.specs.Held.{contents_of};
    ghost use Rattle.s3_block_file.specs.BlockFile.{disk_of, uses_of as granules_of};
    ghost use Rattle.s3_block_bodies.specs.Stored.{IsSound};
    ghost use Rattle.s3_block_bodies.specs.Parts.{Parts, coded_parts};

    ghost Value = { Parts D };

    ghost coded = { coded_parts D.code };

    ghost view = { λ bodies. record {
      held = bodies.memory;
      disk = disk_of bodies.file;
      granules = granules_of bodies.file;
    } };

    ghost invariant = { λ bodies. IsSound D.Disk.seen D.Disk.may_leave D.Disk.is_clean (contents_of bodies.memory) bodies.waiting.items bodies.is_synced (disk_of bodies.file) (granules_of bodies.file) };
}

impl<D: Disk + Drop> BlockBodies<D> {
    /// The bodies that a file has under the numbers that rows name: each number as often as rows name it, in any order. All
    /// other room of the file is free. Each number is a step of the progress.
    ///
    /// # Errors
    ///
    /// `Damaged` where a number has no body, a checksum isn't that of the bytes, or two bodies have a granule in common.
    /// `NoMemory`. `NoRoom` or `Failed` where a call of the disk failed.
    pub fn open<P: Progress>(
        alloc: Global,
        mut disk: D,
        numbers: &[u64],
        progress: &mut P,
    ) -> Result<BlockBodies<D>, StorageFault>
        requires { IsTrue (D.Disk.is_usable disk) }
        ensures uses { IfOk result (λ bodies. uses_in bodies ≡ (λ number. times number numbers.now)) }
        ensures found { IfOk result (λ bodies. IsTrue (D.Disk.is_clean (disk_in bodies)) → AreStored (contents_in bodies) (D.Disk.seen disk)) }
        ensures seen { IfOk result (λ bodies. D.Disk.seen (disk_in bodies) ≡ D.Disk.seen disk) }
        ensures live { IfOk result (λ bodies. IsTrue (D.Disk.is_usable (disk_in bodies))) }
        ensures clean { IfOk result (λ bodies. IsTrue (D.Disk.is_clean (disk_in bodies)) → IsTrue (D.Disk.is_clean disk)) }
    {
        let loaded = load_all(alloc, &mut disk, numbers, progress)?;
        let Loaded { memory, extents } = loaded;
        let waiting = Vec::with_capacity(alloc, extents.len())?;
        let file = BlockFile::open(alloc, disk, extents.as_slice())?;
        Ok(BlockBodies {
            memory,
            file,
            waiting,
            is_synced: true,
        })
    }

    /// That the disk has each body that a row names, that nothing else is written where it lies, and that what the disk has under
    /// a number that is named stands there. It costs nothing.
    pub fn are_housed(&self)
        ensures housed { AreHoused (contents_in self.now) self.now.granules }
        ensures stored { IsTrue (D.Disk.is_clean (disk_in self.now)) → AreStored (contents_in self.now) (D.Disk.seen (disk_in self.now)) }
        ensures found { IsTrue (D.Disk.is_clean (disk_in self.now)) → HasNamed (D.Disk.seen (disk_in self.now)) (uses_in self.now) (contents_in self.now) }
    {
        let _ = &self.file;
    }

    /// How many bytes of the file are free in front of the last body that it has, or had since it was opened. It serves to tell of it, and no clause does. It takes
    /// one pass over the granules of the file.
    pub fn free_bytes(&self) -> u64 {
        self.file.free_bytes()
    }

    /// The disk, as it is.
    pub fn into_disk(self) -> D
        ensures { result ≡ disk_in self }
    {
        let BlockBodies {
            memory: _,
            file,
            waiting: _,
            is_synced: _,
        } = self;
        file.into_disk()
    }
}

/// A call of `keep` takes the time to write the body, and `settle` that to sync what was written; all others don't touch the file.
impl<D: Disk + Drop> StoredBodies for BlockBodies<D> {
    ghost contents = { contents_in };

    ghost uses = { uses_in };

    ghost is_in_memory = { true };

    ghost leaves = { λ bodies. MayFind D.Disk.may_leave D.Disk.is_clean (disk_in bodies) };

    ghost outlives = { λ bodies. IsSettled D.Disk.may_leave D.Disk.is_clean (disk_in bodies) bodies.granules };

    ghost named_where_there = { λ bodies. named_where_held bodies.held };

    fn outlive_crashes(&self) {
        let _ = &self.file;
    }

    fn settle(&mut self) -> Result<(), NotSettled> {
        if self.is_synced {
            return Ok(());
        }
        if !self.file.is_usable() {
            return Err(NotSettled);
        }
        match self.file.sync() {
            Ok(()) => {
                self.is_synced = true;
                Ok(())
            }
            Err(_) => Err(NotSettled),
        }
    }

    fn let_go(&mut self) {
        self.file.free_all(self.waiting.as_slice());
        self.waiting.clear();
    }

    fn keep(&mut self, alloc: Global, body: Body) -> Result<u64, NoMemory> {
        self.waiting.reserve(self.memory.count().saturating_add(1))?;
        self.is_synced = false;
        changing::keep(
            &mut self.memory,
            &mut self.file,
            self.waiting.as_slice(),
            alloc,
            body,
        )
    }

    fn share(&mut self, number: u64) -> Result<(), NoMemory> {
        self.memory.share(number)
    }

    fn give_up(&mut self, number: u64) {
        changing::give_up(&mut self.memory, &self.file, &mut self.waiting, number);
    }

    fn body(&mut self, alloc: Global, number: u64) -> Result<Body, NoMemory> {
        self.memory.body(alloc, number)
    }

    fn size(&self, number: u64) -> u64 {
        self.memory.size(number)
    }
}
