//! Why a request is not signed.

ghost use Rattle.std.specs.Prelude.{◌≡◌};
ghost use Rattle.s3_signer.specs.declared.unsigned.Unsigned.TheVariants.{OutOfMemory};

use s3_terms::NoMemory;
use std::alloc::{AllocError, AllocFailed};

/// Why a request is not signed.
#[derive(Clone, Copy)]
pub enum Unsigned {
    /// What would be written is not a message that says what was asked for.
    NotSignable,
    /// Memory ran out.
    OutOfMemory,
}

impl From<NoMemory> for Unsigned {
    ghost from_gives = { λ _ e. e ≡ OutOfMemory };

    fn from(_e: NoMemory) -> Unsigned {
        Unsigned::OutOfMemory
    }
}

impl From<AllocError> for Unsigned {
    ghost from_gives = { λ _ e. e ≡ OutOfMemory };

    fn from(_e: AllocError) -> Unsigned {
        Unsigned::OutOfMemory
    }
}

impl<T: Drop> From<AllocFailed<T>> for Unsigned {
    ghost from_gives = { λ _ e. e ≡ OutOfMemory };

    fn from(_e: AllocFailed<T>) -> Unsigned {
        Unsigned::OutOfMemory
    }
}
