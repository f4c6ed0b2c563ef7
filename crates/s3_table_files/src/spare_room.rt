//! Room on the disk that is held for changes of the tables.
ghost use Rattle.std.specs.Prelude.{IfErr};
ghost use Rattle.s3_table_files.specs.Faults.{IsOfSystem};

use crate::faults::system_fault;
use s3_storage::StorageFault;
use std::alloc::Global;
use std::fs::File;
use std::io;
use std::os::unix::fs::FileExt;

/// How many bytes are held: more than the changes of one commit take, as long as they are a few hundred.
const ROOM: u64 = 1 << 24;

/// Zeros are written in pieces of so many bytes.
const PIECE_SIZE: u64 = 65_536;

/// A file of zeros, whose room is given back to the disk where a commit of the tables finds none. So a change that may only be
/// written later knows that there is room for it.
#[derive(Drop)]
pub struct SpareRoom {
    file: File,
    alloc: Global,
    is_held: bool,
}

impl SpareRoom {
    /// Opens the file at a path, or makes it, and holds its room where the disk has as much.
    ///
    /// `NoMemory` comes where memory runs out, `NoRoom` where the disk has none for the name, and `Failed` where the system refuses it.
    pub fn open(rt: &HostRuntime, alloc: Global, path: &str) -> Result<SpareRoom, StorageFault>
        ensures { IfErr result IsOfSystem }
    {
        match File::create(rt, path) {
            Ok(file) => {
                let mut spare = SpareRoom {
                    file,
                    alloc,
                    is_held: false,
                };
                let _ = spare.hold();
                Ok(spare)
            }
            Err(error) => Err(system_fault(&error)),
        }
    }

    /// Whether the room is held: where it isn't, it is taken again if the disk has as much. Of less nothing is kept.
    pub fn hold(&mut self) -> bool {
        if !self.is_held {
            match self.fill() {
                Ok(()) => self.is_held = true,
                Err(_) => {
                    let _ = self.file.set_len(0);
                }
            }
        }
        self.is_held
    }

    /// Gives the room back to the disk.
    pub fn give_back(&mut self) {
        self.is_held = false;
        let _ = self.file.set_len(0);
    }

    // Writes zeros over all of the room.
    fn fill(&self) -> io::Result<()> {
        let zeros = vec![in self.alloc; 0u8; PIECE_SIZE as usize]?;
        for piece in 0..ROOM / PIECE_SIZE {
            self.file
                .write_all_at(zeros.as_slice(), piece * PIECE_SIZE)?;
        }
        Ok(())
    }
}
