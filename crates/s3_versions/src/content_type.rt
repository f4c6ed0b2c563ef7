//! The media type of an object.
ghost use Rattle.std.specs.Prelude.{◌≡◌, ◌≤◌, length, IfOk};
ghost use Rattle.s3_terms.specs.Fault.{FollowsToEnd};
ghost use Rattle.s3_versions.specs.ContentType.{content_type};

use s3_terms::{Code, NoMemory};
use std::alloc::Global;
use std::marker::Model;

/// The longest media type, in bytes.
const TYPE_MAX: usize = 255;

/// The media type of an object, as the Content-Type of its put told it. A contract sees it as its bytes, which
/// are 255 at most.
#[derive(Drop)]
pub struct ContentType {
    bytes: Vec<u8>,
}

impl Model for ContentType {
    ghost use Rattle.std.specs.Prelude.{ℕ, ◌≤◌, List, length};

    ghost Value = { List ℕ };

    ghost view = { λ kind. kind.bytes.items };

    ghost invariant = { λ kind. length kind.bytes.items ≤ 255 };
}

impl ContentType {
    /// The media type of these bytes, which it copies: `InvalidArgument` above 255 of them. `InternalError` says
    /// that they are not too many and there was no memory for the copy.
    #[tactic(auto, unfolding(crate::specs::ContentType::content_type))]
    pub fn read(alloc: Global, bytes: &[u8]) -> Result<ContentType, Code>
        ensures { FollowsToEnd result (content_type bytes.now) }
    {
        if bytes.len() > TYPE_MAX {
            return Err(Code::InvalidArgument);
        }
        let bytes = copied(alloc, bytes)?;
        Ok(ContentType { bytes })
    }

    /// Its bytes.
    pub fn as_bytes(&self) -> &[u8]
        ensures value { result.now ≡ self.now }
        ensures bound { length self.now ≤ 255 }
    {
        self.bytes.as_slice()
    }

    /// A copy, at the cost of its bytes.
    pub fn copy(&self, alloc: Global) -> Result<ContentType, NoMemory>
        ensures { IfOk result (λ copied. copied ≡ self.now) }
    {
        let bytes = copied(alloc, self.as_bytes())?;
        Ok(ContentType { bytes })
    }
}

// The same bytes.
fn copied(alloc: Global, bytes: &[u8]) -> Result<Vec<u8>, NoMemory>
    ensures { IfOk result (λ copied. copied.items ≡ bytes.now) }
{
    let copied = Vec::from_slice(alloc, bytes)?;
    Ok(copied)
}
