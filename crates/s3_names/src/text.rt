//! The bytes that a name or a key is kept as.
ghost use Rattle.std.specs.Prelude.{◌≡◌, ◌<◌, Some, IfOk, OnErr, length, nat_eq, refl};
ghost use Rattle.std.specs.Cmp.{partial_equiv_from_equiv};
ghost use Rattle.std.specs.Cmp.Lexicographic.{pointwise, nat_list_eq_equiv, nat_list_cmp_total, texts_ties, texts_po};
ghost use Rattle.s3_text.specs.Order.{byte_order};

use crate::short::{SHORT_MAX, Short};
use s3_terms::NoMemory;
use std::alloc::Global;
use std::cmp::Ordering;
use std::marker::Model;

/// Where the bytes of a text are.
#[derive(Drop)]
enum Bytes {
    /// In place.
    Short(Short),
    /// In memory of their own.
    Long(Vec<u8>),
}

/// The bytes of a name or a key. A contract sees them as a list, and they are ordered byte by byte. Up to 38 are kept in place, and
/// take no memory beside it.
#[derive(Drop)]
pub(crate) struct Text {
    bytes: Bytes,
}

impl Model for Text {
    ghost use Rattle.std.specs.Prelude.{ℕ, List};
    ghost use Rattle.s3_names.specs.Text.{bytes_of};

    ghost Value = { List ℕ };

    ghost view = { λ text. bytes_of text.bytes };
}

impl Text {
    /// The text of these bytes, which it copies.
    pub(crate) fn of(alloc: Global, bytes: &[u8]) -> Result<Text, NoMemory>
        ensures value { IfOk result (λ text. text ≡ bytes.now) }
        ensures memory { OnErr result (38 < length bytes.now) }
    {
        if bytes.len() <= SHORT_MAX {
            let bytes = Bytes::Short(Short::of(bytes));
            return Ok(Text { bytes });
        }
        let mut copied = Vec::new(alloc);
        copied.extend_from_slice(bytes)?;
        let bytes = Bytes::Long(copied);
        Ok(Text { bytes })
    }

    /// Its bytes.
    pub(crate) fn as_bytes(&self) -> &[u8]
        ensures { result.now ≡ self.now }
    {
        match &self.bytes {
            Bytes::Short(bytes) => bytes.as_bytes(),
            Bytes::Long(bytes) => bytes.as_slice(),
        }
    }

    /// A text of the same bytes.
    pub(crate) fn copy(&self) -> Result<Text, NoMemory>
        ensures value { IfOk result (λ copied. copied ≡ self.now) }
        ensures memory { OnErr result (38 < length self.now) }
    {
        match &self.bytes {
            Bytes::Short(bytes) => {
                let bytes = Bytes::Short(bytes.copy());
                Ok(Text { bytes })
            }
            Bytes::Long(bytes) => Text::of(*bytes.allocator(), bytes.as_slice()),
        }
    }
}

impl PartialEq for Text {
    ghost eq = { pointwise nat_eq };

    ghost laws = { partial_equiv_from_equiv nat_list_eq_equiv };

    fn eq(&self, other: &Text) -> bool {
        self.as_bytes() == other.as_bytes()
    }
}

impl Eq for Text {
    ghost laws = { nat_list_eq_equiv };
}

impl PartialOrd for Text {
    ghost partial_cmp = { λ a b. Some (byte_order a b) };

    ghost laws = { texts_po };

    fn partial_cmp(&self, other: &Text) -> Option<Ordering> {
        Some(self.cmp(other))
    }
}

impl Ord for Text {
    ghost cmp = { byte_order };

    ghost total = { nat_list_cmp_total };

    ghost matches_partial_cmp = { λ a b. refl };

    ghost matches_eq = { texts_ties };

    fn cmp(&self, other: &Text) -> Ordering {
        self.as_bytes().cmp(other.as_bytes())
    }
}
