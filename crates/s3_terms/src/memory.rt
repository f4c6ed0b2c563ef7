//! What a call answers that ran out of memory.
ghost use Rattle.std.specs.Prelude.{◌≡◌};
ghost use Rattle.s3_terms.specs.declared.code.Code.TheVariants.{InternalError};

use crate::code::Code;
use std::alloc::{AllocError, AllocFailed};

/// Memory ran out, and the call did nothing that lasts. It is the one error of calls that refuse no
/// request.
#[derive(Clone, Copy, PartialEq, Eq)]
pub struct NoMemory;

impl From<AllocError> for NoMemory {
    ghost from_gives = { λ _ e. e ≡ record {} };

    fn from(_e: AllocError) -> NoMemory {
        NoMemory
    }
}

/// The value that was not stored is dropped.
impl<T: Drop> From<AllocFailed<T>> for NoMemory {
    ghost from_gives = { λ _ e. e ≡ record {} };

    fn from(_e: AllocFailed<T>) -> NoMemory {
        NoMemory
    }
}

/// In a call that answers a code, out of memory is `InternalError`.
impl From<NoMemory> for Code {
    ghost from_gives = { λ _ code. code ≡ InternalError };

    fn from(_e: NoMemory) -> Code {
        Code::InternalError
    }
}

impl From<AllocError> for Code {
    ghost from_gives = { λ _ code. code ≡ InternalError };

    fn from(_e: AllocError) -> Code {
        Code::from(NoMemory)
    }
}

impl<T: Drop> From<AllocFailed<T>> for Code {
    ghost from_gives = { λ _ code. code ≡ InternalError };

    fn from(_e: AllocFailed<T>) -> Code {
        Code::from(NoMemory)
    }
}
