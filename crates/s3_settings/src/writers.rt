//! Bytes that a writer takes to their end, or until it fails.

ghost use Rattle.std.specs.Prelude.{◌≡◌, ◌≤◌, length, take, IfOk, OnOk, IfErr, OnErr};
ghost use Rattle.std.specs.Io.KnownBytes.{Appends, Keeps};
ghost use Rattle.s3_settings.specs.Devices.{AppendsBeginning};

use crate::fault::Fault;
use std::io::{self, ErrorKind, Write};

/// Writes all of the bytes and flushes them. `OutputFailed` where the writer fails, which has then
/// taken a beginning of them.
pub fn write_flushed<'a, W: Write>(output: &mut W, bytes: &[u8]) -> Result<(), Fault<'a>>
    ensures written { OnOk result (Appends (W.contents output.old) (W.contents output.new) bytes.now) }
    ensures refused { IfErr result (λ fault. fault ≡ Fault.OutputFailed) }
    ensures part { OnErr result (AppendsBeginning (W.contents output.old) (W.contents output.new) bytes.now) }
{
    write_bytes(output, bytes).map_err(|_| Fault::OutputFailed)?;
    output.flush().map_err(|_| Fault::OutputFailed)
}

// Writes all of the bytes, or a beginning of them where the writer fails. `write_all` of the writer
// itself does not say what it took before it failed.
fn write_bytes<W: Write>(output: &mut W, bytes: &[u8]) -> io::Result<()>
    ensures written { OnOk result (Appends (W.contents output.old) (W.contents output.new) bytes.now) }
    ensures part { OnErr result (AppendsBeginning (W.contents output.old) (W.contents output.new) bytes.now) }
{
    let mut left = bytes;
    for _ in 0..u64::MAX {
        if left.is_empty() {
            return Ok(());
        }
        let count = write_some(output, left)?;
        left = &left[count..];
    }
    Err(io::Error::from(ErrorKind::Interrupted))
}

// Writes a beginning of the bytes, of which there are some, and answers how long it is: 0 where the
// writer was interrupted. An error where it takes none.
#[tactic(auto, using(crate::proofs::WriterLemmas::kept))]
fn write_some<W: Write>(output: &mut W, bytes: &[u8]) -> io::Result<usize>
    ensures within { IfOk result (λ count. count ≤ length bytes.now) }
    ensures taken { IfOk result (λ count. Appends (W.contents output.old) (W.contents output.new) (take count bytes.now)) }
    ensures refused { OnErr result (Keeps (W.contents output.old) (W.contents output.new)) }
{
    match output.write(bytes) {
        Ok(0) => Err(io::Error::from(ErrorKind::WriteZero)),
        Ok(count) => Ok(count),
        Err(error) => {
            if error.kind() == ErrorKind::Interrupted {
                return Ok(0);
            }
            Err(error)
        }
    }
}
