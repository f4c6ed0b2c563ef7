//! The folder of a store.
ghost use Rattle.std.specs.Prelude.{IfErr};
ghost use Rattle.s3_table_files.specs.Faults.{IsOfOpening};

use crate::faults::system_fault;
use s3_storage::StorageFault;
use std::alloc::Alloc;
use std::fs::{self, File, Files, OpenFile};
use std::io::{self, ErrorKind};

/// Makes a folder at a path, whose name a crash leaves. That it is there already is fine. Folders above it aren't made.
///
/// `NotAStore` comes where something else stands there, `NoMemory` where memory runs out, `NoRoom` where the disk has none, and
/// `Failed` where the system refuses it.
pub fn make_folder(files: &(impl Files + Alloc), path: &str) -> Result<(), StorageFault>
    ensures { IfErr result IsOfOpening }
{
    match fs::create_dir(files, path) {
        Ok(()) => match sync_name(files, path) {
            Ok(()) => Ok(()),
            Err(error) => Err(system_fault(&error)),
        },
        Err(error) if error.kind() == ErrorKind::AlreadyExists => {
            let _ = sync_name(files, path);
            is_folder(files, path)
        }
        Err(error) => Err(system_fault(&error)),
    }
}

// Syncs the folder in which the one at the path stands.
fn sync_name(files: &(impl Files + Alloc), path: &str) -> io::Result<()> {
    let mut parent = fs::canonicalize(files, path)?;
    parent.pop();
    File::open(files, parent.as_str())?.sync_all()
}

// That what stands at the path is a folder.
fn is_folder(files: &(impl Files + Alloc), path: &str) -> Result<(), StorageFault>
    ensures { IfErr result IsOfOpening }
{
    match fs::metadata(files, path) {
        Ok(found) if found.is_dir() => Ok(()),
        Ok(_) => Err(StorageFault::NotAStore),
        Err(error) => Err(system_fault(&error)),
    }
}
