//! Files that are read whole, or appended to.

ghost use Rattle.std.specs.Prelude.{◌≡◌, ◌≢◌, ℕ, List, Option, None, IfOk, IfErr, IfSome};
ghost use Rattle.std.specs.IoError.{error_kind};
ghost use Rattle.s3_settings.specs.Fault.{IsReadFault};

use crate::fault::Fault;
use std::alloc::Global;
use std::io::{self, ErrorKind};

/// Files that are read whole or appended to, each under its path.
pub trait Files {
    // The bytes of the file at a path, where they are known.
    ghost known: { Self → List ℕ → Option (List ℕ) } = { λ _ _. None };

    /// All bytes of the file at a path. An error of the kind `OutOfMemory` says that there was no
    /// memory for them, and any other that the file cannot be read.
    fn read(&self, alloc: Global, path: &str) -> io::Result<Vec<u8>>
        ensures bytes { IfOk result (λ bytes. IfSome (known self.now path.now) (λ text. bytes.items ≡ text)) }
        ensures unknown { IfErr result (λ error. error_kind error ≢ ErrorKind.OutOfMemory → known self.now path.now ≡ None) };

    /// Appends these bytes to the file at a path, which is made where it isn't there; the path `-` is the standard error.
    /// They may be written in part where it fails.
    fn append(&self, _path: &str, _bytes: &[u8]) -> io::Result<()> {
        Err(io::Error::from(ErrorKind::Unsupported))
    }
}

/// All bytes of the file at a path.
pub fn read_file<'a, F: Files>(
    alloc: Global,
    files: &F,
    path: &'a str,
) -> Result<Vec<u8>, Fault<'a>>
    ensures bytes { IfOk result (λ bytes. IfSome (F.known files.now path.entry.now) (λ text. bytes.items ≡ text)) }
    ensures refused { IfErr result (IsReadFault (F.known files.now path.entry.now) path.entry.now) }
{
    match files.read(alloc, path) {
        Ok(bytes) => Ok(bytes),
        Err(error) => Err(fault_of(error, Fault::CannotRead(path))),
    }
}

// What an error of a file means: out of memory, or else `other`.
fn fault_of<'a>(error: io::Error, other: Fault<'a>) -> Fault<'a>
    ensures memory { error_kind error ≡ ErrorKind.OutOfMemory → result ≡ Fault.OutOfMemory }
    ensures other { error_kind error ≢ ErrorKind.OutOfMemory → result ≡ other.entry }
{
    match error.kind() {
        ErrorKind::OutOfMemory => Fault::OutOfMemory,
        _ => other,
    }
}
