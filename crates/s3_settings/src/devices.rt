//! What comes over a device, in pieces, and what goes, to its end or until the device fails.

ghost use Rattle.std.specs.Prelude.{◌≡◌, ◌≢◌, ◌<◌, ◌≤◌, [], length, take, suc, IfOk, OnOk, IfErr, IfSome};
ghost use Rattle.s3_settings.specs.Devices.{Takes, TakesBeginning};
ghost use Rattle.s3_settings.specs.Devices as rules;

use crate::fault::Fault;
use s3_devices::{Device, Reading, Writing};
use std::io::IoSlice;
use std::sync::Wait;

/// Reads what the device gives next to the front of the buffer, which has some room, and answers how many bytes that
/// are, and `None` at the end. It is 0 where the read would have had to wait; the device has waited then. `InputFailed`
/// where the read failed, whatever the reason: memory that the device lacks too.
pub fn read_piece<'a, D: Device>(
    device: &mut D,
    buffer: &mut [u8],
) -> Result<Option<usize>, Fault<'a>>
    requires room { 0 < length buffer.old }
    ensures within { IfOk result (λ read. IfSome read (λ count. count ≤ length buffer.new)) }
    ensures read { IfOk result (λ read. rules.Reads read (D.traffic device.old) (D.traffic device.new) buffer.new) }
    ensures refused { IfErr result (λ fault. (fault ≡ Fault.InputFailed)
        × (D.traffic device.new ≡ record (D.traffic device.old) { failed_reads = suc (D.traffic device.old).failed_reads })) }
{
    match device.read(buffer) {
        Reading::Bytes(count) => Ok(Some(count)),
        Reading::End => Ok(None),
        Reading::Later => {
            device.wait_for_input();
            Ok(Some(0))
        }
        Reading::Failed => Err(Fault::InputFailed),
    }
}

/// Writes all of the bytes. `OutputFailed` where a write fails: the device has taken a beginning of them then. It may wait
/// for the device, and then never return.
pub fn write_output<'a, R: Wait, D: Device>(
    rt: &R,
    device: &mut D,
    bytes: &[u8],
) -> Result<(), Fault<'a>>
    ensures written { OnOk result (Takes (D.traffic device.old) (D.traffic device.new) bytes.now) }
    ensures refused { IfErr result (λ fault. (fault ≡ Fault.OutputFailed)
        × TakesBeginning (D.traffic device.old) (D.traffic device.new) bytes.now) }
{
    let mut left = bytes;
    for _ in rt.forever() {
        if left.is_empty() {
            return Ok(());
        }
        let count = write_piece(device, left)?;
        left = &left[count..];
    }
    // `forever` has no last turn.
    unreachable!()
}

// Writes a beginning of the bytes, of which there are some, and answers how long it is: 0 where the write would have had to
// wait; the device has waited then.
fn write_piece<'a, D: Device>(device: &mut D, bytes: &[u8]) -> Result<usize, Fault<'a>>
    requires some { bytes.now ≢ [] }
    ensures within { IfOk result (λ count. count ≤ length bytes.now) }
    ensures taken { IfOk result (λ count. Takes (D.traffic device.old) (D.traffic device.new) (take count bytes.now)) }
    ensures refused { IfErr result (λ fault. (fault ≡ Fault.OutputFailed)
        × (D.traffic device.new ≡ record (D.traffic device.old) { failed_writes = suc (D.traffic device.old).failed_writes })) }
{
    match device.write(&[IoSlice::new(bytes)]) {
        Writing::Took(count) => Ok(count),
        Writing::Later => {
            device.wait_for_room();
            Ok(0)
        }
        Writing::Failed => Err(Fault::OutputFailed),
    }
}
