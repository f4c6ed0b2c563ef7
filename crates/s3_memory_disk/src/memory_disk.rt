//! A disk in memory.
ghost use Rattle.std.specs.Prelude.{◌≡◌, [], true, false, refl, is_ok};
ghost use Rattle.sqlite_disk.specs.Disk.{CountsFault};
ghost use Rattle.sqlite_disk.specs.Refusal.{finds_no_room};

use crate::content::Content;
use sqlite_disk::{Disk, Tally};
use std::alloc::{AllocError, Global};
use std::io;

/// A file in memory, which ends with the process. A read returns what was written, and no crash leaves anything else. Its
/// one fault is that memory runs out, and then its bytes stay as they were.
#[derive(Drop)]
pub struct MemoryDisk {
    content: Content,
    faults: u64,
}

impl MemoryDisk {
    ghost use Rattle.s3_memory_disk.specs.MemoryDisk.{disk_bytes, disk_faults};

    /// An empty disk. Takes no memory.
    pub fn new(alloc: Global) -> MemoryDisk
        ensures empty { disk_bytes result ≡ [] }
        ensures faults { disk_faults result ≡ 0 }
    {
        MemoryDisk {
            content: Content::new(alloc),
            faults: 0,
        }
    }
}

/// A read or a write takes time with its own length alone. Memory is taken by chunks of 65,536 bytes.
impl Disk for MemoryDisk {
    ghost seen = { λ disk. disk.content };

    ghost may_leave = { λ disk left. left ≡ disk.content };

    ghost is_usable = { λ _. true };

    ghost faults = { λ disk. disk.faults };

    ghost is_clean = { λ _. true };

    ghost tally_of = { λ _. record { caught = 0; refused = 0 } };

    ghost key_of = { λ _. 0 };

    ghost is_fair = { λ _ _. true };

    ghost fair_if_clean = { λ _ _ _. refl };

    ghost seen_may_stay = { λ _. refl };

    fn mixes(&self) -> bool {
        false
    }

    // Memory tells no lie, so it needs no secret.
    fn key(&self) -> u64 {
        0
    }

    fn tally(&self) -> Tally {
        Tally {
            caught: 0,
            refused: 0,
        }
    }

    fn may_be_used(&self) -> bool {
        true
    }

    fn len(&mut self) -> io::Result<usize> {
        Ok(self.content.len())
    }

    fn read_at(&mut self, at: usize, buf: &mut [u8]) -> io::Result<()> {
        let len = self.content.len();
        if at > len || buf.len() > len - at {
            return Err(io::ErrorKind::UnexpectedEof.into());
        }
        self.content.read(at, buf);
        Ok(())
    }

    // The caller shows that what was written has the digest that is wanted, so there is nothing to test.
    fn read_checked(&mut self, _key: u64, _want: u64, at: usize, buf: &mut [u8]) -> io::Result<()> {
        self.read_at(at, buf)
    }

    fn write_at(&mut self, at: usize, bytes: &[u8]) -> io::Result<()> {
        counted(self.content.write(at, bytes), &mut self.faults)
    }

    fn set_len(&mut self, len: usize) -> io::Result<()> {
        counted(self.content.resize(len), &mut self.faults)
    }

    fn sync(&mut self) -> io::Result<()> {
        Ok(())
    }
}

// The outcome as a disk answers it. One more fault is counted where memory ran out.
fn counted(outcome: Result<(), AllocError>, faults: &mut u64) -> io::Result<()>
    ensures variant { is_ok result ≡ is_ok outcome }
    ensures kind { finds_no_room result ≡ false }
    ensures faults { CountsFault result faults.old faults.new }
{
    if outcome.is_err() {
        *faults = faults.saturating_add(1);
        return Err(io::Error::from(io::ErrorKind::OutOfMemory));
    }
    Ok(())
}
