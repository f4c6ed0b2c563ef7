//! What connections were answered is printed, and which of their messages were refused.

ghost use Rattle.std.specs.Prelude.{◌≡◌, ◌++◌, List, ℕ, [], ◌∷◌, length, take, decimal, OnOk, OnErr};
ghost use Rattle.hex.specs.Hex.{encode_lower};
ghost use Rattle.s3_terms.specs.Code.{name_of};
ghost use Rattle.s3_events.specs.Printing.{fault_line, output_line, outputs_text};

use itoa::Buffer;
use s3_terms::{Code, NoMemory};

/// Adds to `text` the line of a connection and its output: the connection's number, a space, the output in
/// lower-case hexadecimal digits, and LF. Where the text has the lines of all connections before this one, it has
/// those up to this one afterwards. `NoMemory` leaves the text as it was.
pub fn print_output(text: &mut Vec<u8>, connection: u32, output: &[u8]) -> Result<(), NoMemory>
    ensures line { OnOk result (text.new.items ≡ text.old.items ++ output_line connection output.now) }
    ensures text { (before : List (List ℕ)) → text.old.items ≡ outputs_text before → connection ≡ length before
        → OnOk result (text.new.items ≡ outputs_text (before ++ output.now ∷ [])) }
    ensures unchanged { OnErr result (text.new.items ≡ text.old.items) }
{
    let size = text.len();
    let added = add_line(text, connection, output);
    whole_line(text, size, added)
}

/// Adds to `text` the line of the first message of a connection that was refused: `refused`, the connection's number, the
/// message's and the name of its code, with one space between each two, and LF. `NoMemory` leaves the text as it was.
pub fn print_fault(
    text: &mut Vec<u8>,
    connection: u32,
    message: u64,
    code: Code,
) -> Result<(), NoMemory>
    ensures line { OnOk result (text.new.items ≡ text.old.items ++ fault_line connection message (name_of code)) }
    ensures unchanged { OnErr result (text.new.items ≡ text.old.items) }
{
    let size = text.len();
    let added = add_fault(text, connection, message, code);
    whole_line(text, size, added)
}

// Leaves a text to which a line was added as it is, and cuts one with the beginning of a line to the size before it.
fn whole_line(text: &mut Vec<u8>, size: usize, added: Result<(), NoMemory>) -> Result<(), NoMemory>
    ensures same { result ≡ added }
    ensures whole { OnOk added (text.new.items ≡ text.old.items) }
    ensures cut { OnErr added (text.new.items ≡ take size text.old.items) }
{
    if added.is_err() {
        text.truncate(size);
    }
    added
}

// Adds the line of an output, or the beginning of it for which there is memory.
fn add_line(text: &mut Vec<u8>, connection: u32, output: &[u8]) -> Result<(), NoMemory>
    ensures line { OnOk result (text.new.items ≡ text.old.items ++ output_line connection output.now) }
    ensures before { take (length text.old.items) text.new.items ≡ text.old.items }
{
    add_number(text, u64::from(connection))?;
    text.push(b' ')?;
    add_hex(text, output)?;
    text.push(b'\n')?;
    Ok(())
}

// Adds the line of a refused message, or the beginning of it for which there is memory.
fn add_fault(text: &mut Vec<u8>, connection: u32, message: u64, code: Code) -> Result<(), NoMemory>
    ensures line { OnOk result (text.new.items ≡ text.old.items ++ fault_line connection message (name_of code)) }
    ensures before { take (length text.old.items) text.new.items ≡ text.old.items }
{
    text.extend_from_slice(b"refused ")?;
    add_number(text, u64::from(connection))?;
    text.push(b' ')?;
    add_number(text, message)?;
    text.push(b' ')?;
    text.extend_from_slice(code.name().as_bytes())?;
    text.push(b'\n')?;
    Ok(())
}

// Adds the decimal digits of a number, or nothing where there is no memory for them.
fn add_number(text: &mut Vec<u8>, number: u64) -> Result<(), NoMemory>
    ensures digits { OnOk result (text.new.items ≡ text.old.items ++ decimal number) }
    ensures before { take (length text.old.items) text.new.items ≡ text.old.items }
{
    let mut digits = Buffer::new();
    text.extend_from_slice(digits.format(number).as_bytes())?;
    Ok(())
}

// Adds the digits of some bytes, or those of the first ones for which there is memory.
fn add_hex(text: &mut Vec<u8>, bytes: &[u8]) -> Result<(), NoMemory>
    ensures digits { OnOk result (text.new.items ≡ text.old.items ++ encode_lower bytes.now) }
    ensures before { take (length text.old.items) text.new.items ≡ text.old.items }
{
    for byte in bytes {
        text.extend_from_slice(&byte_digits(*byte))?;
    }
    Ok(())
}

// The two digits of a byte.
fn byte_digits(byte: u8) -> [u8; 2]
    ensures { result ≡ encode_lower (byte ∷ []) }
{
    let mut digits = [0; 2];
    hex::encode_to_slice([byte], &mut digits).unwrap();
    digits
}
