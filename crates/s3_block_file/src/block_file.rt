//! A file of bodies.
ghost use Rattle.std.specs.Prelude.{◌≡◌, ◌⊎◌, ◌+◌, ◌<◌, ◌≤◌, ◌^◌, ℕ, List, [], ◌++◌, length, slice_index, count_by, All, Bool, is_ok, IsTrue, IfOk, IfErr, OnOk, OnErr, IsErrOf, Err};
ghost use Rattle.sqlite_disk.specs.Disk.{Holds, Torn, Follows, Only, CountsFault};
ghost use Rattle.s3_storage.specs.declared.storage_fault.StorageFault.TheVariants.{NoMemory as OutOfMemory, Damaged, NoRoom, Failed};
ghost use Rattle.s3_block_file.specs.declared.extent.Extent.{Extent as Place};
ghost use Rattle.s3_block_file.specs.Extent.{granules_for, offset_of, lies_in, IsAddressable, IsInside, EndsWithin, AreApart, AreDisjoint, Stores, StartsWith};
ghost use Rattle.s3_block_file.specs.Uses.{AreFree, HaveRoom, OneMore};
ghost use Rattle.s3_block_file.specs.Faults.{TellsRoom, HasCause, IsOpenFault};
ghost use Rattle.s3_block_file.specs.BlockFile.{disk_of, uses_of, IsLive, Survives};

use crate::disk_calls;
use crate::extent::{Extent, GRANULE, MAX_SIZE, granule_count};
use crate::granules::{Granules, lower_all};
use s3_storage::StorageFault;
use sqlite_disk::Disk;
use std::alloc::Global;

/// A file of bodies, and how many bodies have each of its granules.
///
/// After an error of `sync` nothing more may be asked of the file, and `is_usable` says so: then it is opened anew.
#[derive(Drop)]
pub struct BlockFile<D: Disk> {
    disk: D,
    granules: Granules,
}

impl<D: Disk + Drop> BlockFile<D> {
    /// Takes a file whose live bodies lie in these extents, each listed once, and syncs it. All the rest is free.
    ///
    /// # Errors
    ///
    /// `Damaged` where an extent doesn't lie within the file and the limits, or two have a granule in common. `NoMemory`. `NoRoom` or
    /// `Failed` where a call of the disk failed.
    pub fn open(alloc: Global, mut disk: D, live: &[Extent]) -> Result<BlockFile<D>, StorageFault>
        requires { IsTrue (D.Disk.is_usable disk) }

        // How many listed extents have each granule; so what none has is free.
        ensures counts { IfOk result (λ file. (k : ℕ) → slice_index (uses_of file) k ≡ count_by (lies_in k) live.now) }
        ensures listed { IfOk result (λ file. All (IsLive file) live.now) }

        ensures disjoint { OnOk result (AreDisjoint live.now) }
        ensures addressable { OnOk result (All IsAddressable live.now) }
        ensures within { IfOk result (λ file. IsTrue (D.Disk.is_clean (disk_of file)) → All (EndsWithin (length (D.Disk.seen disk))) live.now) }

        // Of a kind of disk that never lies, it is known whose fault it is.
        ensures damaged { IsErrOf result Damaged → ((d : D) → IsTrue (D.Disk.is_clean d)) → All IsAddressable live.now → All (EndsWithin (length (D.Disk.seen disk))) live.now → AreDisjoint live.now → ⊥ }
        ensures kinds { IfErr result IsOpenFault }

        ensures seen { IfOk result (λ file. D.Disk.seen (disk_of file) ≡ D.Disk.seen disk) }
        ensures settled { IfOk result (λ file. Only (D.Disk.seen disk) (D.Disk.may_leave (disk_of file))) }
        ensures usable { IfOk result (λ file. IsTrue (D.Disk.is_usable (disk_of file))) }
        ensures clean { IfOk result (λ file. IsTrue (D.Disk.is_clean (disk_of file)) → IsTrue (D.Disk.is_clean disk)) }
        ensures faults { IfOk result (λ file. D.Disk.faults (disk_of file) ≡ D.Disk.faults disk) }
    {
        disk_calls::sync(&mut disk)?;
        let size = disk_calls::size(&mut disk)?;
        let granules = Granules::counted(alloc, live, size)?;
        Ok(BlockFile { disk, granules })
    }

    /// Whether calls may still be asked of the file: no sync of it has failed.
    pub fn is_usable(&self) -> bool
        ensures { result ≡ D.Disk.is_usable (disk_of self.now) }
    {
        self.disk.may_be_used()
    }

    /// How many bytes in granules that no body has, up to the last one that a body had. It serves to tell of it, and no clause
    /// does. It takes one pass over the granules.
    pub fn free_bytes(&self) -> u64 {
        (self.granules.free_count() as u64).saturating_mul(GRANULE as u64)
    }

    /// The disk, as it is.
    pub fn into_disk(self) -> D
        ensures { result ≡ disk_of self }
    {
        let BlockFile { disk, granules: _ } = self;
        disk
    }

    /// Takes room for a body of so many bytes where no live one lies. Nothing is written: its bytes come by `put`.
    ///
    /// # Errors
    ///
    /// `NoRoom` where the body or its place would be past the limits, and `NoMemory`. Then all is as it was.
    pub fn reserve(&mut self, size: usize) -> Result<Extent, StorageFault>
        requires { 0 < size }
        ensures size { IfOk result (λ e. e.size ≡ size) }
        ensures addressable { IfOk result (λ e. IsAddressable e) }

        // Where it lies nothing did, and now it does; so it is apart from what is live, which stays live.
        ensures fresh { IfOk result (λ e. AreFree (uses_of self.old) e.first (granules_for e.size)) }
        ensures takes { IfOk result (λ e. OneMore e.first (granules_for e.size) (uses_of self.old) (uses_of self.new)) }
        ensures live { IfOk result (λ e. IsLive self.new e) }
        ensures apart { IfOk result (λ e. (x : Place) → IsLive self.old x → AreApart x e) }
        ensures keeps { (x : Place) → IsLive self.old x → IsLive self.new x }

        // There is no place for it before the one that it gets.
        ensures first { IfOk result (λ e. (at : ℕ) → at < e.first → AreFree (uses_of self.old) at (granules_for e.size) → ⊥) }

        ensures full { IsErrOf result NoRoom → (2 ^ 50 < size) ⊎ (2 ^ 40 < length (uses_of self.old)) }
        ensures kinds { IfErr result (λ e. (e ≡ NoRoom) ⊎ (e ≡ OutOfMemory)) }
        ensures unchanged { OnErr result (uses_of self.new ≡ uses_of self.old) }
        ensures disk { disk_of self.new ≡ disk_of self.old }
    {
        if size > MAX_SIZE {
            return Err(StorageFault::NoRoom);
        }
        let first = self.granules.take(granule_count(size))?;
        Ok(Extent { first, size })
    }

    /// Writes the next piece of a body, into room that is reserved. Until a `sync` a crash may leave any bytes there.
    ///
    /// # Errors
    ///
    /// `NoRoom` or `Failed`. What lies in the range of the piece isn't known then.
    pub fn put(&mut self, extent: Extent, from: usize, piece: &[u8]) -> Result<(), StorageFault>
        requires usable { IsTrue (D.Disk.is_usable (disk_of self.old)) }
        requires inside { IsInside extent from (length piece.now) }
        requires some { 0 < length piece.now }

        // The piece lies where it was put, so behind what was put before.
        ensures placed { OnOk result (Holds (D.Disk.seen (disk_of self.new)) (offset_of extent + from) piece.now) }
        ensures more { OnOk result ((before : List ℕ) → length before ≡ from → StartsWith (D.Disk.seen (disk_of self.old)) extent before → StartsWith (D.Disk.seen (disk_of self.new)) extent (before ++ piece.now)) }
        ensures whole { OnOk result ((before : List ℕ) → length before ≡ from → from + length piece.now ≡ extent.size → StartsWith (D.Disk.seen (disk_of self.old)) extent before → Stores (D.Disk.seen (disk_of self.new)) extent (before ++ piece.now)) }

        // All other bytes stay, and so do bodies that lie apart, also in what a crash may leave.
        ensures others { Torn (offset_of extent + from) (length piece.now) (D.Disk.seen (disk_of self.old)) (D.Disk.seen (disk_of self.new)) }
        ensures crash { Follows (Torn (offset_of extent + from) (length piece.now)) (D.Disk.may_leave (disk_of self.old)) (D.Disk.may_leave (disk_of self.new)) }
        ensures stay { (x : Place) (bytes : List ℕ) → AreApart x extent → Stores (D.Disk.seen (disk_of self.old)) x bytes → Stores (D.Disk.seen (disk_of self.new)) x bytes }
        ensures survive { (x : Place) (bytes : List ℕ) → AreApart x extent → Survives D.Disk.may_leave self.old x bytes → Survives D.Disk.may_leave self.new x bytes }

        ensures live { uses_of self.new ≡ uses_of self.old }
        ensures usable { IsTrue (D.Disk.is_usable (disk_of self.new)) }
        ensures clean { D.Disk.is_clean (disk_of self.new) ≡ D.Disk.is_clean (disk_of self.old) }
        ensures cause { CountsFault result (D.Disk.faults (disk_of self.old)) (D.Disk.faults (disk_of self.new)) }
        ensures told { TellsRoom result (D.Disk.tally_of (disk_of self.old)).refused (D.Disk.tally_of (disk_of self.new)).refused }
    {
        disk_calls::write(&mut self.disk, extent.offset() + from, piece)
    }

    /// After it each crash leaves what a read returns now, so all that was put.
    ///
    /// # Errors
    ///
    /// `NoRoom` or `Failed`. Then the file isn't usable any more, and a crash may leave what it might have left before.
    pub fn sync(&mut self) -> Result<(), StorageFault>
        requires { IsTrue (D.Disk.is_usable (disk_of self.old)) }
        ensures durable { OnOk result ((x : Place) (bytes : List ℕ) → Stores (D.Disk.seen (disk_of self.old)) x bytes → Survives D.Disk.may_leave self.new x bytes) }
        ensures settled { OnOk result (Only (D.Disk.seen (disk_of self.old)) (D.Disk.may_leave (disk_of self.new))) }
        ensures usable { D.Disk.is_usable (disk_of self.new) ≡ is_ok result }
        ensures seen { D.Disk.seen (disk_of self.new) ≡ D.Disk.seen (disk_of self.old) }
        ensures live { uses_of self.new ≡ uses_of self.old }
        ensures survive { (x : Place) (bytes : List ℕ) → Survives D.Disk.may_leave self.old x bytes → Survives D.Disk.may_leave self.new x bytes }
        ensures crash { (left : List ℕ) → D.Disk.may_leave (disk_of self.new) left → D.Disk.may_leave (disk_of self.old) left }
        ensures clean { D.Disk.is_clean (disk_of self.new) ≡ D.Disk.is_clean (disk_of self.old) }
        ensures cause { CountsFault result (D.Disk.faults (disk_of self.old)) (D.Disk.faults (disk_of self.new)) }
        ensures told { TellsRoom result (D.Disk.tally_of (disk_of self.old)).refused (D.Disk.tally_of (disk_of self.new)).refused }
    {
        disk_calls::sync(&mut self.disk)?;
        Ok(())
    }

    /// One body less has this extent. With the last one its granules are free, and may be written again.
    pub fn free(&mut self, extent: Extent)
        requires { IsLive self.old extent }
        ensures gives { OneMore extent.first (granules_for extent.size) (uses_of self.new) (uses_of self.old) }
        ensures keeps { (x : Place) → AreApart x extent → IsLive self.old x → IsLive self.new x }
        ensures disk { disk_of self.new ≡ disk_of self.old }
    {
        self.granules.lower(extent.first, extent.granules());
    }

    /// One body less has each of these extents, as `free` says for one. Each granule has to have as many bodies as there are extents
    /// with it.
    pub fn free_all(&mut self, extents: &[Extent])
        requires { (k : ℕ) → count_by (lies_in k) extents.now ≤ slice_index (uses_of self.old) k }
        ensures gives { (k : ℕ) → slice_index (uses_of self.new) k + count_by (lies_in k) extents.now ≡ slice_index (uses_of self.old) k }
        ensures disk { disk_of self.new ≡ disk_of self.old }
    {
        lower_all(&mut self.granules, extents);
    }

    /// One body more has this extent, as a copy does.
    ///
    /// # Errors
    ///
    /// `NoRoom` where 2^32 - 1 bodies have a granule of it. Then all is as it was.
    pub fn share(&mut self, extent: Extent) -> Result<(), StorageFault>
        requires { IsLive self.old extent }
        ensures takes { OnOk result (OneMore extent.first (granules_for extent.size) (uses_of self.old) (uses_of self.new)) }
        ensures keeps { (x : Place) → IsLive self.old x → IsLive self.new x }
        ensures full { IsErrOf result NoRoom → HaveRoom (uses_of self.old) extent.first (granules_for extent.size) → ⊥ }
        ensures kinds { IfErr result (λ e. e ≡ NoRoom) }
        ensures unchanged { OnErr result (uses_of self.new ≡ uses_of self.old) }
        ensures disk { disk_of self.new ≡ disk_of self.old }
    {
        self.granules.raise(extent.first, extent.granules())?;
        Ok(())
    }

    /// Reads bytes of a body, from this one of them on.
    ///
    /// # Errors
    ///
    /// `Damaged` where they aren't all in the extent, or it isn't within the limits, else `Failed`.
    pub fn read(&mut self, extent: Extent, from: usize, buf: &mut [u8]) -> Result<(), StorageFault>
        requires { IsTrue (D.Disk.is_usable (disk_of self.old)) }
        ensures read { OnOk result ((bytes : List ℕ) → IsTrue (D.Disk.is_clean (disk_of self.new)) → Stores (D.Disk.seen (disk_of self.old)) extent bytes
            → (i : ℕ) → i < length buf.new → slice_index buf.new i ≡ slice_index bytes (from + i)) }
        ensures outside { (IsInside extent from (length buf.old) → ⊥) → result ≡ Err Damaged }
        ensures inside { IsInside extent from (length buf.old) → IfErr result (λ e. e ≡ Failed) }
        ensures cause { (bytes : List ℕ) → IsTrue (D.Disk.is_clean (disk_of self.old)) → Stores (D.Disk.seen (disk_of self.old)) extent bytes
            → HasCause result (D.Disk.faults (disk_of self.old)) (D.Disk.faults (disk_of self.new)) }
        ensures seen { D.Disk.seen (disk_of self.new) ≡ D.Disk.seen (disk_of self.old) }
        ensures live { uses_of self.new ≡ uses_of self.old }
        ensures survive { (x : Place) (bytes : List ℕ) → Survives D.Disk.may_leave self.old x bytes → Survives D.Disk.may_leave self.new x bytes }
        ensures crash { (left : List ℕ) → D.Disk.may_leave (disk_of self.new) left → D.Disk.may_leave (disk_of self.old) left }
        ensures usable { IsTrue (D.Disk.is_usable (disk_of self.new)) }
        ensures clean { IsTrue (D.Disk.is_clean (disk_of self.new)) → IsTrue (D.Disk.is_clean (disk_of self.old)) }
        ensures tally { D.Disk.tally_of (disk_of self.new) ≡ D.Disk.tally_of (disk_of self.old) }
    {
        if !extent.is_inside(from, buf.len()) {
            return Err(StorageFault::Damaged);
        }
        disk_calls::read(&mut self.disk, extent.offset() + from, buf)?;
        Ok(())
    }
}
