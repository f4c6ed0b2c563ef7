//! Writes of several parts.

ghost use Rattle.std.specs.Prelude.{◌≡◌, ◌<◌, length, take};
ghost use Rattle.std.specs.Io.{WritesAtMost};
ghost use Rattle.std.specs.Io.KnownBytes.{WriteAppends};
ghost use Rattle.std.specs.Io.Slices.{io_slices_bytes};

use std::io::{self, IoSlice, Write};

/// A writer that is given several parts at once.
pub trait WriteParts: Write {
    /// Writes a beginning of these parts, which stand one behind another, and answers how many bytes it has. Where the writer
    /// has no call for several, it writes of the first one that has bytes.
    fn write_parts(&mut self, parts: &[IoSlice<'_>]) -> io::Result<usize>
        ensures bound { WritesAtMost result (io_slices_bytes parts.now) }
        ensures bytes { WriteAppends (Self.contents self.old) (Self.contents self.new) result (io_slices_bytes parts.now) }
    {
        self.write(first_part(parts))
    }
}

// The first part that has bytes, or none.
fn first_part<'a>(parts: &[IoSlice<'a>]) -> &'a [u8]
    ensures { result.now ≡ take (length result.now) (io_slices_bytes parts.now) }
{
    for part in parts {
        let bytes = part.as_slice();
        if !bytes.is_empty() {
            return bytes;
        }
    }
    &[]
}
