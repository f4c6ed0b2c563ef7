//! Why the program ends with status 1, and the line that tells it.

ghost use Rattle.std.specs.Prelude.{◌≡◌, ◌++◌, ◌∷◌, [], codes, Some, OnOk, IfErr};
ghost use Rattle.s3_settings.specs.Devices.{IsTold, Takes, TakesBeginning};
ghost use Rattle.s3_settings.specs.Fault.{reason_text, text_of, line_of};
ghost use Rattle.s3_settings.specs.declared.fault.Fault.TheVariants.{OutOfMemory};

use crate::devices::write_output;
use itoa::Buffer;
use s3_devices::Device;
use s3_storage::StorageFault;
use s3_terms::NoMemory;
use std::alloc::{AllocError, AllocFailed};
use std::fmt;
use std::sync::Wait;

/// Why the program ends with status 1. Its `Display` is what the line on the standard error says after `s3d: `.
#[derive(Clone, Copy)]
pub enum Fault<'a> {
    /// The file at this path could not be read.
    CannotRead(&'a str),
    /// Nothing could be written to the file at this path.
    CannotWrite(&'a str),
    /// The line of the keys file with this number, from 1, is no credential.
    BadKeysLine(usize),
    /// The event line with this number, from 1, is wrong.
    BadEventLine(usize),
    /// An option is out of its form, or the settings are none that a server accepts.
    BadSetting,
    /// This is no address of the system's, or not one that this program may listen on.
    CannotListen(&'a str),
    /// The folder at this path can't be used, for this reason.
    CannotUse(&'a str, StorageFault),
    /// The standard input could not be read.
    InputFailed,
    /// The standard output did not take everything.
    OutputFailed,
    /// There was no memory.
    OutOfMemory,
}

// Why a folder can't be used.
fn reason(fault: StorageFault) -> &'static str
    ensures { result.now ≡ reason_text fault }
{
    match fault {
        StorageFault::NoMemory => ": out of memory",
        StorageFault::Held => ": held",
        StorageFault::NotAStore => ": not a store",
        StorageFault::LaterForm => ": later form",
        StorageFault::Damaged => ": damaged",
        StorageFault::NoRoom => ": no room",
        StorageFault::Failed => ": failed",
    }
}

impl<'a> Fault<'a> {
    // The text of the fault in three parts, of which the last may be in the buffer.
    fn parts<'b>(&self, digits: &'b mut Buffer) -> (&'b str, &'b str, &'b str)
    where
        'a: 'b,
        ensures { result.0.now ++ (result.1.now ++ result.2.now) ≡ text_of self.now }
    {
        match self {
            Fault::CannotRead(path) => ("", "cannot read ", path),
            Fault::CannotWrite(path) => ("", "cannot write ", path),
            Fault::BadKeysLine(number) => ("", "bad keys line ", digits.format(*number)),
            Fault::BadEventLine(number) => ("", "bad event line ", digits.format(*number)),
            Fault::BadSetting => ("", "bad setting", ""),
            Fault::CannotListen(address) => ("", "cannot listen on ", address),
            Fault::CannotUse(path, fault) => ("cannot use ", path, reason(*fault)),
            Fault::InputFailed => ("", "input failed", ""),
            Fault::OutputFailed => ("", "output failed", ""),
            Fault::OutOfMemory => ("", "out of memory", ""),
        }
    }

    /// Writes the line that tells the fault to `errors`: `s3d: `, the text of the fault and a line feed. `errors` takes the
    /// whole line, or a beginning of it, and then a write to it failed; nothing more is written after that. It may wait for
    /// `errors`, and then never return.
    pub fn tell<R: Wait, E: Device>(&self, rt: &R, errors: &mut E)
        ensures { IsTold (E.traffic errors.old) (E.traffic errors.new) (line_of self.now) }
    {
        let mut digits = Buffer::new();
        let (first, second, third) = self.parts(&mut digits);
        let _ = write_line(
            rt,
            errors,
            first.as_bytes(),
            second.as_bytes(),
            third.as_bytes(),
        );
    }
}

// Writes the line of a fault whose text has these three parts.
fn write_line<'a, R: Wait, E: Device>(
    rt: &R,
    errors: &mut E,
    first: &[u8],
    second: &[u8],
    third: &[u8],
) -> Result<(), Fault<'a>>
    ensures told { OnOk result (Takes (E.traffic errors.old) (E.traffic errors.new) (((codes "s3d: " ++ first.now) ++ (second.now ++ third.now)) ++ 10 ∷ [])) }
    ensures refused { IfErr result (λ fault. (fault ≡ Fault.OutputFailed)
        × TakesBeginning (E.traffic errors.old) (E.traffic errors.new) (((codes "s3d: " ++ first.now) ++ (second.now ++ third.now)) ++ 10 ∷ [])) }
{
    match write_four(rt, errors, b"s3d: ", first, second, third) {
        Ok(()) => write_output(rt, errors, b"\n"),
        Err(fault) => Err(fault),
    }
}

// Writes four texts, one after the other.
fn write_four<'a, R: Wait, E: Device>(
    rt: &R,
    errors: &mut E,
    first: &[u8],
    second: &[u8],
    third: &[u8],
    fourth: &[u8],
) -> Result<(), Fault<'a>>
    ensures told { OnOk result (Takes (E.traffic errors.old) (E.traffic errors.new) ((first.now ++ second.now) ++ (third.now ++ fourth.now))) }
    ensures refused { IfErr result (λ fault. (fault ≡ Fault.OutputFailed)
        × TakesBeginning (E.traffic errors.old) (E.traffic errors.new) ((first.now ++ second.now) ++ (third.now ++ fourth.now))) }
{
    match write_both(rt, errors, first, second) {
        Ok(()) => write_both(rt, errors, third, fourth),
        Err(fault) => Err(fault),
    }
}

// Writes one text and then the other.
fn write_both<'a, R: Wait, E: Device>(
    rt: &R,
    errors: &mut E,
    first: &[u8],
    second: &[u8],
) -> Result<(), Fault<'a>>
    ensures told { OnOk result (Takes (E.traffic errors.old) (E.traffic errors.new) (first.now ++ second.now)) }
    ensures refused { IfErr result (λ fault. (fault ≡ Fault.OutputFailed)
        × TakesBeginning (E.traffic errors.old) (E.traffic errors.new) (first.now ++ second.now)) }
{
    match write_output(rt, errors, first) {
        Ok(()) => write_output(rt, errors, second),
        Err(fault) => Err(fault),
    }
}

impl fmt::Display for Fault<'_> {
    ghost output = { λ fault. Some (text_of fault) };

    fn fmt<W: fmt::Write>(&self, f: &mut fmt::Formatter<W>) -> fmt::Result {
        let mut digits = Buffer::new();
        let (first, second, third) = self.parts(&mut digits);
        f.write_str(first)?;
        f.write_str(second)?;
        f.write_str(third)
    }
}

impl From<AllocError> for Fault<'_> {
    ghost from_gives = { λ _ fault. fault ≡ OutOfMemory };

    fn from(_e: AllocError) -> Self {
        Fault::OutOfMemory
    }
}

impl<T: Drop> From<AllocFailed<T>> for Fault<'_> {
    ghost from_gives = { λ _ fault. fault ≡ OutOfMemory };

    fn from(_e: AllocFailed<T>) -> Self {
        Fault::OutOfMemory
    }
}

impl From<NoMemory> for Fault<'_> {
    ghost from_gives = { λ _ fault. fault ≡ OutOfMemory };

    fn from(_e: NoMemory) -> Self {
        Fault::OutOfMemory
    }
}
