//! Tests of `s3_terms`: how out of memory becomes an error of each kind.

use s3_terms::{Code, NoMemory};
use std::alloc::Global;

fn kept(alloc: Global) -> Result<usize, NoMemory> {
    let bytes = Vec::from_slice(alloc, b"7")?;
    Ok(bytes.len())
}

fn answered(alloc: Global) -> Result<usize, Code> {
    let bytes = Vec::from_slice(alloc, b"7")?;
    Ok(bytes.len())
}

/// Whether they do.
pub(crate) fn hold(alloc: Global) -> bool {
    kept(alloc) == Ok(1) && answered(alloc) == Ok(1) && Code::from(NoMemory).number() == 34
}
