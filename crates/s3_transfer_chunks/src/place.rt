//! Where a decoder stands in the spelling of a body, and what one more byte says.

ghost use Rattle.std.specs.Prelude.{◌≡◌, ℕ};
ghost use Rattle.s3_transfer_chunks.specs.Place as spelling;

use crate::digits::Digits;
use s3_terms::Code;

/// What is wrong with a body.
#[derive(Clone, Copy)]
pub(crate) enum Fault {
    /// No body is spelled so.
    Invalid,
    /// Its sizes come to more than the limit.
    TooLarge,
    /// It ends too early.
    Incomplete,
}

impl Fault {
    ghost use Rattle.s3_transfer_chunks.specs.Reading.{code_of};

    // The code of the refusal.
    pub(crate) fn code(self) -> Code
        ensures { result ≡ code_of self }
    {
        match self {
            Fault::Invalid => Code::InvalidRequest,
            Fault::TooLarge => Code::EntityTooLarge,
            Fault::Incomplete => Code::IncompleteBody,
        }
    }
}

/// What stands behind a size in its line.
#[derive(Clone, Copy)]
pub(crate) enum Tail {
    /// Spaces and tabs, which an extension follows.
    Blanks,
    /// An extension.
    Extension,
    /// The CR that ends the line.
    End,
}

/// Where a decoder stands.
#[derive(Clone, Copy)]
pub(crate) enum Place {
    /// In a size, behind these digits.
    Size(Digits),
    /// In the line of this size, behind its digits.
    Line(u64, Tail),
    /// In the data of a chunk, of which so many bytes are to come.
    Data(u64),
    /// Behind the CR that follows the data.
    DataEnd,
    /// Behind the line of the last size.
    Last,
    /// Behind the CR that follows that line.
    LastEnd,
    /// Behind the body, with nothing wrong.
    Over,
    /// Refused.
    Refused(Fault),
}

impl Place {
    ghost use Rattle.std.specs.Prelude.{List};
    ghost use Rattle.s3_transfer_chunks.specs.Verdict.{accepts, verdict_at};
    ghost use Rattle.s3_transfer_chunks.specs.Reading.{code_at, is_settled};
    ghost use Rattle.s3_transfer_chunks.specs.Place.{place_behind};

    // In the size of a chunk, before its first digit.
    pub(crate) fn start() -> Place
        ensures { result ≡ Place.Size (0, 0) }
    {
        Place::Size(Digits::new())
    }

    // Where a line with this size leads to.
    fn behind(size: u64) -> Place
        ensures { result ≡ place_behind size }
    {
        if size == 0 {
            Place::Last
        } else {
            Place::Data(size)
        }
    }

    // Whether nothing more is read.
    pub(crate) fn is_settled(self) -> bool
        ensures { result ≡ is_settled self }
    {
        matches!(self, Place::Over | Place::Refused(_))
    }

    // Whether the body has ended, with nothing wrong.
    pub(crate) fn is_over(self) -> bool
        ensures { (taken : ℕ) (held : List ℕ) → result ≡ accepts (verdict_at self taken held) }
    {
        matches!(self, Place::Over)
    }

    // The code, where it refused.
    pub(crate) fn code(self) -> Option<Code>
        ensures { result ≡ code_at self }
    {
        match self {
            Place::Refused(fault) => Some(fault.code()),
            _ => None,
        }
    }
}

/// What one byte says that is no data.
#[derive(Clone, Copy)]
pub(crate) enum Step {
    /// No body goes on so.
    Misspelled,
    /// The decoder stands here now.
    Moves(Place),
    /// A size has ended, and this stands behind it.
    Announces(u64, Tail),
}

// Where the decoder stands behind a byte that has to be this one.
fn expect(byte: u8, wanted: u8, place: Place) -> Step
    ensures { result ≡ spelling.expected byte wanted place }
{
    if byte == wanted {
        Step::Moves(place)
    } else {
        Step::Misspelled
    }
}

// Whether a byte may stand between a size and its extension.
fn is_blank(byte: u8) -> bool
    ensures { result ≡ spelling.is_blank byte }
{
    byte == b' ' || byte == b'\t'
}

// Whether an extension may have a byte.
fn is_passed(byte: u8) -> bool
    ensures { result ≡ spelling.is_passed byte }
{
    byte == b'\t' || (byte >= b' ' && byte != 0x7F)
}

// What the byte behind the digits of a size says.
fn read_tail(size: u64, byte: u8) -> Step
    ensures { result ≡ spelling.read_tail size byte }
{
    if byte == b'\r' {
        Step::Announces(size, Tail::End)
    } else if byte == b';' {
        Step::Announces(size, Tail::Extension)
    } else if is_blank(byte) {
        Step::Announces(size, Tail::Blanks)
    } else {
        Step::Misspelled
    }
}

// What a byte of a size says, or the one behind it.
fn read_size(digits: Digits, byte: u8) -> Step
    ensures { result ≡ spelling.read_size digits byte }
{
    if let Some(more) = digits.more(byte) {
        return Step::Moves(Place::Size(more));
    }
    if digits.count() == 0 {
        Step::Misspelled
    } else {
        read_tail(digits.value(), byte)
    }
}

// What a byte of an extension says, or the CR behind it.
fn read_extension(size: u64, byte: u8) -> Step
    ensures { result ≡ spelling.read_line size Tail.Extension byte }
{
    if byte == b'\r' {
        Step::Moves(Place::Line(size, Tail::End))
    } else if is_passed(byte) {
        Step::Moves(Place::Line(size, Tail::Extension))
    } else {
        Step::Misspelled
    }
}

// What a blank says that stands behind a size, or the semicolon behind such blanks.
fn read_blank(size: u64, byte: u8) -> Step
    ensures { result ≡ spelling.read_line size Tail.Blanks byte }
{
    if is_blank(byte) {
        Step::Moves(Place::Line(size, Tail::Blanks))
    } else {
        expect(byte, b';', Place::Line(size, Tail::Extension))
    }
}

// What a byte of the line of a size says, behind its digits.
fn read_line(size: u64, tail: Tail, byte: u8) -> Step
    ensures { result ≡ spelling.read_line size tail byte }
{
    match tail {
        Tail::Blanks => read_blank(size, byte),
        Tail::Extension => read_extension(size, byte),
        Tail::End => expect(byte, b'\n', Place::behind(size)),
    }
}

/// What a byte says that is no data of a chunk.
#[tactic(auto, unfolding(crate::specs::Place::read))]
pub(crate) fn read(place: Place, byte: u8) -> Step
    ensures { result ≡ spelling.read place byte }
{
    match place {
        Place::Size(digits) => read_size(digits, byte),
        Place::Line(size, tail) => read_line(size, tail, byte),
        Place::Data(_) => expect(byte, b'\r', Place::DataEnd),
        Place::DataEnd => expect(byte, b'\n', Place::start()),
        Place::Last => expect(byte, b'\r', Place::LastEnd),
        Place::LastEnd => expect(byte, b'\n', Place::Over),
        Place::Over | Place::Refused(_) => Step::Misspelled,
    }
}
