//! The text of a header's value.

ghost use Rattle.std.specs.Prelude.{◌≡◌, ◌++◌, IfOk};
ghost use Rattle.s3_canonical.specs.Request.{single_spaced};

use std::alloc::AllocError;

// Writes the value with each run of spaces made one: a space goes where another follows it.
pub(crate) fn push_single_spaced(value: &[u8], text: &mut Vec<u8>) -> Result<(), AllocError>
    ensures { IfOk result (λ _. text.new.items ≡ text.old.items ++ single_spaced value.now) }
{
    for (i, byte) in value.iter().enumerate() {
        if !value[i..].starts_with(b"  ") {
            text.push(*byte)?;
        }
    }
    Ok(())
}
