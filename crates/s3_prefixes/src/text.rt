//! Texts that lists are asked by, and that they tell.
ghost use Rattle.std.specs.Prelude.{◌≡◌, ◌<◌, length, IsUtf8, IfOk, OnOk, OnErr};
ghost use Rattle.s3_terms.specs.Fault.{FollowsToEnd};
ghost use Rattle.s3_prefixes.specs.Text.{text_read};

use s3_terms::{Code, NoMemory};
use s3_text::is_text;
use std::alloc::Global;
use std::marker::Model;

/// A text of UTF-8 of any length, which may be empty. A contract sees it as its bytes.
#[derive(Drop)]
pub struct Text {
    bytes: Vec<u8>,
}

impl Model for Text {
    ghost use Rattle.std.specs.Prelude.{ℕ, List, IsUtf8};

    ghost Value = { List ℕ };

    ghost view = { λ text. text.bytes.items };

    ghost invariant = { λ text. IsUtf8 text.bytes.items };
}

impl Text {
    /// Reads a text from its bytes, which it copies. `InvalidArgument` says that they are no UTF-8, and `InternalError` that
    /// they are and there was no memory for the copy.
    #[tactic(auto, using(crate::proofs::TextLemmas::texts), unfolding(crate::specs::Text::text_read))]
    pub fn read(alloc: Global, bytes: &[u8]) -> Result<Text, Code>
        ensures value { IfOk result (λ text. text ≡ bytes.now) }
        ensures valid { OnOk result (IsUtf8 bytes.now) }
        ensures rule { FollowsToEnd result (text_read bytes.now) }
    {
        if !is_text(bytes) {
            return Err(Code::InvalidArgument);
        }
        let text = Text::of(alloc, bytes)?;
        Ok(text)
    }

    /// The text of these bytes, which it copies. `NoMemory` comes only where there are bytes to copy.
    pub fn of(alloc: Global, bytes: &[u8]) -> Result<Text, NoMemory>
        requires { IsUtf8 bytes.now }
        ensures value { IfOk result (λ text. text ≡ bytes.now) }
        ensures memory { OnErr result (0 < length bytes.now) }
    {
        let mut copied = Vec::new(alloc);
        copied.extend_from_slice(bytes)?;
        Ok(Text { bytes: copied })
    }

    /// Its bytes.
    pub fn as_bytes(&self) -> &[u8]
        ensures value { result.now ≡ self.now }
        ensures utf8 { IsUtf8 self.now }
    {
        self.bytes.as_slice()
    }

    /// A copy of the text. `NoMemory` comes only where there are bytes to copy.
    pub fn copy(&self) -> Result<Text, NoMemory>
        ensures value { IfOk result (λ copied. copied ≡ self.now) }
        ensures memory { OnErr result (0 < length self.now) }
    {
        Text::of(*self.bytes.allocator(), self.as_bytes())
    }
}
