//! Why a reader reads no further.

ghost use Rattle.std.specs.Prelude.{◌≡◌};
ghost use Rattle.s3_xml_reader.specs.declared.error.Error.TheVariants.{NoMemory};

use std::alloc::AllocError;

/// Why a reader reads no further: the text isn't that of a document, or memory runs out.
#[derive(Clone, Copy, Debug, PartialEq, Eq)]
pub enum Error {
    Malformed,
    NoMemory,
}

impl From<AllocError> for Error {
    ghost from_gives = { λ _ error. error ≡ NoMemory };

    fn from(_error: AllocError) -> Error {
        Error::NoMemory
    }
}
