//! The faults.

ghost use Rattle.std.specs.Prelude.{◌≡◌};
ghost use Rattle.s3_storage.specs.declared.storage_fault.StorageFault.TheVariants as fault;

use s3_terms::NoMemory;
use std::alloc::{AllocError, AllocFailed};

/// What is wrong with the files of a store.
#[derive(Clone, Copy, PartialEq, Eq)]
pub enum StorageFault {
    /// Memory ran out.
    NoMemory,
    /// Another process has them.
    Held,
    /// They are there and hold something else.
    NotAStore,
    /// They have a later form than this program knows.
    LaterForm,
    /// What they hold isn't whole.
    Damaged,
    /// The disk has no room.
    NoRoom,
    /// The system failed.
    Failed,
}

impl From<NoMemory> for StorageFault {
    ghost from_gives = { λ _ e. e ≡ fault.NoMemory };

    fn from(_e: NoMemory) -> StorageFault {
        StorageFault::NoMemory
    }
}

impl From<AllocError> for StorageFault {
    ghost from_gives = { λ _ e. e ≡ fault.NoMemory };

    fn from(_e: AllocError) -> StorageFault {
        StorageFault::NoMemory
    }
}

/// The value that was not stored is dropped.
impl<T: Drop> From<AllocFailed<T>> for StorageFault {
    ghost from_gives = { λ _ e. e ≡ fault.NoMemory };

    fn from(_e: AllocFailed<T>) -> StorageFault {
        StorageFault::NoMemory
    }
}
