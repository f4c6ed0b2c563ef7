//! Where a reader stands in the spelling of a body, and what one more byte says.

ghost use Rattle.std.specs.Prelude.{◌≡◌, ℕ};
ghost use Rattle.s3_unsigned_chunks.specs.Place as spelling;
ghost use Rattle.s3_unsigned_chunks.specs.Place.{HasRoom};

use crate::digits::Digits;
use crate::trailer_value::VALUE_MAX;
use s3_terms::Code;

/// What is wrong with a body.
#[derive(Clone, Copy)]
pub(crate) enum Fault {
    /// It is no body, or has other lengths than its head says.
    Invalid,
    /// It ends too early.
    Incomplete,
}

impl Fault {
    ghost use Rattle.s3_unsigned_chunks.specs.Reading.{code_of};

    // The code of the refusal.
    pub(crate) fn code(self) -> Code
        ensures { result ≡ code_of self }
    {
        match self {
            Fault::Invalid => Code::InvalidRequest,
            Fault::Incomplete => Code::IncompleteBody,
        }
    }
}

/// Where a reader stands.
#[derive(Clone, Copy)]
pub(crate) enum Place {
    /// In a size, behind these digits.
    Size(Digits),
    /// Behind the CR that follows a size.
    SizeEnd(u32),
    /// In the data of a chunk, of which so many bytes are to come.
    Data(u32),
    /// Behind the CR that follows the data.
    DataEnd,
    /// In the name of the trailer, behind so many bytes that are as announced.
    Name(usize),
    /// In the value of the trailer.
    Value,
    /// Behind the line feed that may follow the value.
    Gap,
    /// Behind the CR that ends the line of the value.
    ValueEnd,
    /// Behind the line of the trailer.
    Last,
    /// Behind the CR that follows that line.
    LastEnd,
    /// Behind the body, with all bytes and nothing wrong.
    Over,
    /// Refused.
    Refused(Fault),
}

impl Place {
    ghost use Rattle.std.specs.Prelude.{List};
    ghost use Rattle.s3_unsigned_chunks.specs.Verdict.{accepts, verdict_at};
    ghost use Rattle.s3_unsigned_chunks.specs.Reading.{code_at, is_settled, place_behind};

    // In the size of a chunk, before its first digit.
    pub(crate) fn start() -> Place
        ensures { result ≡ Place.Size (0, 0) }
    {
        Place::Size(Digits::new())
    }

    // Where a line with this size leads to.
    pub(crate) fn behind(size: u32) -> Place
        ensures { result ≡ place_behind size }
    {
        if size == 0 {
            Place::Name(0)
        } else {
            Place::Data(size)
        }
    }

    // Whether nothing more is read.
    pub(crate) fn is_settled(self) -> bool
        ensures { result ≡ is_settled self }
    {
        matches!(self, Place::Over | Place::Refused(_))
    }

    // Whether the body has ended, with nothing wrong.
    pub(crate) fn is_over(self) -> bool
        ensures { (taken : ℕ) (value held : List ℕ) → result ≡ accepts (verdict_at self taken value held) }
    {
        matches!(self, Place::Over)
    }

    // The code, where it refused.
    pub(crate) fn code(self) -> Option<Code>
        ensures { result ≡ code_at self }
    {
        match self {
            Place::Refused(fault) => Some(fault.code()),
            _ => None,
        }
    }
}

/// What one byte says that is no data.
#[derive(Clone, Copy)]
pub(crate) enum Step {
    /// No body goes on so.
    Misspelled,
    /// The reader stands here now.
    Moves(Place),
    /// It ends the line of this size.
    Opens(u32),
    /// It belongs to the value of the trailer.
    Spells,
    /// It ends the body.
    Ends,
}

// Where the reader stands behind a byte that has to be this one.
fn expect(byte: u8, wanted: u8, place: Place) -> Step
    ensures value { result ≡ spelling.expected byte wanted place }
    ensures room { (count : ℕ) → HasRoom result count }
{
    if byte == wanted {
        Step::Moves(place)
    } else {
        Step::Misspelled
    }
}

// What a byte of a size says, or the CR behind it.
fn read_size(digits: Digits, byte: u8) -> Step
    ensures value { result ≡ spelling.read_size digits byte }
    ensures room { (count : ℕ) → HasRoom result count }
{
    if byte == b'\r' && digits.count() > 0 {
        return Step::Moves(Place::SizeEnd(digits.value()));
    }
    match digits.more(byte) {
        Some(digits) => Step::Moves(Place::Size(digits)),
        None => Step::Misspelled,
    }
}

// What a byte of the trailer's name says, or the colon behind it.
fn read_name(name: &[u8], count: usize, byte: u8) -> Step
    ensures value { result ≡ spelling.read_name name.now count byte }
    ensures room { (count : ℕ) → HasRoom result count }
{
    if count >= name.len() {
        return expect(byte, b':', Place::Value);
    }
    if byte.eq_ignore_ascii_case(&name[count]) {
        Step::Moves(Place::Name(count + 1))
    } else {
        Step::Misspelled
    }
}

// What a byte of the trailer's value says, of which so many have come, or what may stand behind it: a line feed, or the CR.
fn read_value(count: u8, byte: u8) -> Step
    ensures value { result ≡ spelling.read_value count byte }
    ensures room { HasRoom result count }
{
    if byte == b'\r' && count > 0 {
        Step::Moves(Place::ValueEnd)
    } else if byte == b'\n' && count > 0 {
        Step::Moves(Place::Gap)
    } else if byte.is_ascii_graphic() && count < VALUE_MAX {
        Step::Spells
    } else {
        Step::Misspelled
    }
}

/// What a byte says that is no data of a chunk, where the trailer's value has so many bytes.
#[tactic(auto, unfolding(crate::specs::Place::read))]
pub(crate) fn read(name: &[u8], count: u8, place: Place, byte: u8) -> Step
    ensures value { result ≡ spelling.read name.now count place byte }
    ensures room { HasRoom result count }
{
    match place {
        Place::Size(digits) => read_size(digits, byte),
        Place::SizeEnd(size) => read_size_end(size, byte),
        Place::Data(_) => expect(byte, b'\r', Place::DataEnd),
        Place::DataEnd => expect(byte, b'\n', Place::start()),
        Place::Name(count) => read_name(name, count, byte),
        Place::Value => read_value(count, byte),
        Place::Gap => expect(byte, b'\r', Place::ValueEnd),
        Place::ValueEnd => expect(byte, b'\n', Place::Last),
        Place::Last => expect(byte, b'\r', Place::LastEnd),
        Place::LastEnd => read_end(byte),
        Place::Over | Place::Refused(_) => Step::Misspelled,
    }
}

// What the byte behind a size's CR says.
fn read_size_end(size: u32, byte: u8) -> Step
    ensures value { result ≡ spelling.read_size_end size byte }
    ensures room { (count : ℕ) → HasRoom result count }
{
    if byte == b'\n' {
        Step::Opens(size)
    } else {
        Step::Misspelled
    }
}

// What the last byte says.
fn read_end(byte: u8) -> Step
    ensures value { result ≡ spelling.read_end byte }
    ensures room { (count : ℕ) → HasRoom result count }
{
    if byte == b'\n' {
        Step::Ends
    } else {
        Step::Misspelled
    }
}
