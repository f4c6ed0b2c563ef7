//! A body is read from the file.
ghost use Rattle.std.specs.Prelude.{◌≡◌, ◌+◌, ◌≤◌, ◌<◌, ◌^◌, ℕ, length, IsTrue, IfOk, OnOk, IfErr};
ghost use Rattle.sqlite_disk.specs.Disk.{Holds};
ghost use Rattle.s3_storage.specs.declared.storage_fault.StorageFault.TheVariants.{Failed};
ghost use Rattle.s3_block_file.specs.Extent.{EndsWithin};
ghost use Rattle.s3_block_bodies.specs.Header.{header_for};
ghost use Rattle.s3_block_bodies.specs.Stored.{extent_of, IsStored};

use crate::header::{HEADER_SIZE, Header, sum_of_body};
use s3_block_file::{GRANULE, MAX_GRANULE};
use s3_bodies::{Body, BodyBuilder, Sink};
use s3_storage::StorageFault;
use sqlite_disk::Disk;
use std::alloc::Global;

/// Bytes are read in pieces of at most so many.
const PIECE_SIZE: usize = 65_536;

/// How many bytes the file has. The error is `Failed`.
pub(crate) fn size_of<D: Disk>(disk: &mut D) -> Result<usize, StorageFault>
    requires { IsTrue (D.Disk.is_usable disk.old) }
    ensures size { IfOk result (λ size. IsTrue (D.Disk.is_clean disk.new) → size ≡ length (D.Disk.seen disk.old)) }
    ensures kinds { IfErr result (λ e. e ≡ Failed) }
    ensures seen { D.Disk.seen disk.new ≡ D.Disk.seen disk.old }
    ensures usable { IsTrue (D.Disk.is_usable disk.new) }
    ensures clean { IsTrue (D.Disk.is_clean disk.new) → IsTrue (D.Disk.is_clean disk.old) }
{
    match disk.len() {
        Ok(size) => Ok(size),
        Err(_) => Err(StorageFault::Failed),
    }
}

// Fills a buffer with the bytes from a place on. The error is `Failed`.
fn fill<D: Disk>(disk: &mut D, at: usize, buf: &mut [u8]) -> Result<(), StorageFault>
    requires { IsTrue (D.Disk.is_usable disk.old) }
    ensures read { OnOk result (IsTrue (D.Disk.is_clean disk.new) → 0 < length buf.old → Holds (D.Disk.seen disk.old) at buf.new) }
    ensures kinds { IfErr result (λ e. e ≡ Failed) }
    ensures seen { D.Disk.seen disk.new ≡ D.Disk.seen disk.old }
    ensures usable { IsTrue (D.Disk.is_usable disk.new) }
    ensures clean { IsTrue (D.Disk.is_clean disk.new) → IsTrue (D.Disk.is_clean disk.old) }
{
    match disk.read_at(at, buf) {
        Ok(()) => Ok(()),
        Err(_) => Err(StorageFault::Failed),
    }
}

// The header that stands at a place of a file of so many bytes, in which the header and the body end.
fn read_header<D: Disk>(
    alloc: Global,
    disk: &mut D,
    file_size: usize,
    at: usize,
) -> Result<Header, StorageFault>
    requires { IsTrue (D.Disk.is_usable disk.old) }
    ensures stands { IfOk result (λ header. IsTrue (D.Disk.is_clean disk.new) → Holds (D.Disk.seen disk.old) at (header_for header.size header.sum)) }
    ensures ends { IfOk result (λ header. at + (header.size + 32) ≤ file_size) }
    ensures seen { D.Disk.seen disk.new ≡ D.Disk.seen disk.old }
    ensures usable { IsTrue (D.Disk.is_usable disk.new) }
    ensures clean { IsTrue (D.Disk.is_clean disk.new) → IsTrue (D.Disk.is_clean disk.old) }
{
    if file_size < HEADER_SIZE || at > file_size - HEADER_SIZE {
        return Err(StorageFault::Damaged);
    }
    let mut bytes = [0; 32];
    fill(disk, at, &mut bytes)?;
    let header = Header::in_bytes(&bytes);
    let meant = header.to_bytes(alloc)?;
    if meant.as_slice() != bytes.as_slice() {
        return Err(StorageFault::Damaged);
    }
    if header.size > (file_size - HEADER_SIZE - at) as u64 {
        return Err(StorageFault::Damaged);
    }
    Ok(header)
}

// Fills a buffer with the bytes from a place on, and puts them behind those that a builder has.
fn read_piece<D: Disk>(
    disk: &mut D,
    at: usize,
    buf: &mut [u8],
    builder: &mut BodyBuilder,
) -> Result<(), StorageFault>
    requires usable { IsTrue (D.Disk.is_usable disk.old) }
    requires some { 0 < length buf.old }
    ensures size { OnOk result (length builder.new ≡ length builder.old + length buf.old) }
    ensures read { OnOk result (IsTrue (D.Disk.is_clean disk.new) → (start : ℕ) → start + length builder.old ≡ at
        → Holds (D.Disk.seen disk.old) start builder.old → Holds (D.Disk.seen disk.old) start builder.new) }
    ensures seen { D.Disk.seen disk.new ≡ D.Disk.seen disk.old }
    ensures usable { IsTrue (D.Disk.is_usable disk.new) }
    ensures clean { IsTrue (D.Disk.is_clean disk.new) → IsTrue (D.Disk.is_clean disk.old) }
{
    fill(disk, at, buf)?;
    builder.take(buf)?;
    Ok(())
}

// So many bytes from a place on, which are within the file. Room for them is taken as they come.
fn read_bytes<D: Disk>(
    alloc: Global,
    disk: &mut D,
    at: usize,
    size: usize,
) -> Result<Body, StorageFault>
    requires usable { IsTrue (D.Disk.is_usable disk.old) }
    requires fits { at + size < 2 ^ 64 }
    requires within { IsTrue (D.Disk.is_clean disk.old) → at + size ≤ length (D.Disk.seen disk.old) }
    ensures size { IfOk result (λ body. length body ≡ size) }
    ensures read { IfOk result (λ body. IsTrue (D.Disk.is_clean disk.new) → Holds (D.Disk.seen disk.old) at body) }
    ensures seen { D.Disk.seen disk.new ≡ D.Disk.seen disk.old }
    ensures usable { IsTrue (D.Disk.is_usable disk.new) }
    ensures clean { IsTrue (D.Disk.is_clean disk.new) → IsTrue (D.Disk.is_clean disk.old) }
{
    let mut builder = BodyBuilder::new(alloc, size as u64);
    let mut room = vec![in alloc; 0; PIECE_SIZE.min(size)]?;
    let mut from = 0;
    while from < size {
        let count = PIECE_SIZE.min(size - from);
        read_piece(disk, at + from, &mut room[..count], &mut builder)?;
        from += count;
    }
    Ok(builder.finish()?)
}

/// The body that a file of so many bytes has under a number. `Damaged` where there is none, or its header or its bytes don't
/// fit their checksums.
pub(crate) fn read_body<D: Disk>(
    alloc: Global,
    disk: &mut D,
    file_size: usize,
    number: u64,
) -> Result<Body, StorageFault>
    requires usable { IsTrue (D.Disk.is_usable disk.old) }
    requires size { IsTrue (D.Disk.is_clean disk.old) → file_size ≡ length (D.Disk.seen disk.old) }
    ensures stored { IfOk result (λ body. IsTrue (D.Disk.is_clean disk.new) → IsStored (D.Disk.seen disk.old) number body) }
    ensures near { OnOk result (number ≤ 2 ^ 40) }
    ensures ends { IfOk result (λ body. EndsWithin file_size (extent_of number (length body))) }
    ensures seen { D.Disk.seen disk.new ≡ D.Disk.seen disk.old }
    ensures usable { IsTrue (D.Disk.is_usable disk.new) }
    ensures clean { IsTrue (D.Disk.is_clean disk.new) → IsTrue (D.Disk.is_clean disk.old) }
{
    if number > MAX_GRANULE as u64 {
        return Err(StorageFault::Damaged);
    }
    let at = number as usize * GRANULE;
    let header = read_header(alloc, disk, file_size, at)?;
    let body = read_bytes(alloc, disk, at + HEADER_SIZE, header.size as usize)?;
    if sum_of_body(&body) != header.sum {
        return Err(StorageFault::Damaged);
    }
    Ok(body)
}
