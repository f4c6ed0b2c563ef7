//! Where a reader stands in the spelling of a body, and what one more byte says.

ghost use Rattle.std.specs.Prelude.{◌≡◌, ◌==◌, ◌&&◌, nat_lt, slice_index};
ghost use Rattle.s3_text.specs.Characters.{is_lower_hex};
ghost use Rattle.s3_aws_chunked.specs.Chunk.{label};
ghost use Rattle.s3_aws_chunked.specs.Phase as spelling;
ghost use Rattle.s3_aws_chunked.specs.Phase.{IsEvent};

use crate::digits::Digits;
use s3_terms::Code;

/// What stands between a size and a signature.
pub(crate) const LABEL: &[u8; 17] = b";chunk-signature=";

/// What is wrong with a body.
#[derive(Clone, Copy)]
pub(crate) enum Fault {
    /// It is no body, or has other lengths than its head says.
    Invalid,
    /// A signature is not the formula.
    Forged,
    /// It ends too early.
    Incomplete,
}

impl Fault {
    ghost use Rattle.s3_aws_chunked.specs.Decoder.{code_of};

    // The code of the refusal.
    pub(crate) fn code(self) -> Code
        ensures { result ≡ code_of self }
    {
        match self {
            Fault::Invalid => Code::InvalidRequest,
            Fault::Forged => Code::SignatureDoesNotMatch,
            Fault::Incomplete => Code::IncompleteBody,
        }
    }
}

/// Where a reader stands.
#[derive(Clone, Copy)]
pub(crate) enum Phase {
    /// In a size, behind these digits.
    Size(Digits),
    /// In a first line with this size, behind so many bytes that follow the size.
    Line(u8, u32),
    /// In the data of a chunk, of which so many bytes are to come; whether it is the empty chunk.
    Data(u32, bool),
    /// Behind the CR that follows the data; whether it is the empty chunk.
    Ending(bool),
    /// Behind the empty chunk, with all bytes and nothing wrong.
    Over,
    /// Refused.
    Refused(Fault),
}

impl Phase {
    ghost use Rattle.s3_aws_chunked.specs.Decoder.{fault_at, is_at_end, is_settled};

    // In the size of a chunk, before its first digit.
    pub(crate) fn start() -> Phase
        ensures { result ≡ Phase.Size (0, 0) }
    {
        Phase::Size(Digits::new())
    }

    // Whether nothing more is read.
    pub(crate) fn is_settled(self) -> bool
        ensures { result ≡ is_settled self }
    {
        matches!(self, Phase::Over | Phase::Refused(_))
    }

    // Whether the first line of the last chunk has come.
    pub(crate) fn is_at_end(self) -> bool
        ensures { result ≡ is_at_end self }
    {
        match self {
            Phase::Data(_, last) => last,
            Phase::Size(_) | Phase::Line(_, _) | Phase::Ending(_) => false,
            Phase::Over | Phase::Refused(_) => false,
        }
    }

    // What is wrong, where it refused.
    pub(crate) fn fault(self) -> Option<Fault>
        ensures { result ≡ fault_at self }
    {
        match self {
            Phase::Refused(fault) => Some(fault),
            _ => None,
        }
    }
}

/// What one byte says that is no data.
#[derive(Clone, Copy)]
pub(crate) enum Event {
    /// No body goes on so.
    Misspelled,
    /// The reader stands here now.
    Moves(Phase),
    /// It is the digit of a signature at this place, in a first line with this size.
    Signs(u8, u32),
    /// It ends a first line with this size.
    Opens(u32),
    /// It ends a chunk; whether the empty one.
    Closes(bool),
}

// Where the reader stands behind a byte of a size, or the semicolon behind it.
fn read_size(digits: Digits, byte: u8) -> Event
    ensures value { result ≡ spelling.read_size digits byte }
    ensures form { IsEvent result }
{
    if byte == b';' && digits.count() > 0 {
        return Event::Moves(Phase::Line(1, digits.value()));
    }
    match digits.more(byte) {
        Some(digits) => Event::Moves(Phase::Size(digits)),
        None => Event::Misspelled,
    }
}

// Whether the byte is a lower-case hexadecimal digit.
fn is_lower_hex(byte: u8) -> bool
    ensures { result ≡ is_lower_hex byte }
{
    matches!(byte, b'0'..=b'9' | b'a'..=b'f')
}

// Whether the byte stands at this place of the label.
fn is_label_byte(place: u8, byte: u8) -> bool
    ensures { result ≡ (nat_lt place 17 && byte == slice_index label place) }
{
    place < 17 && byte == LABEL[place as usize]
}

// What a byte of a first line says, so many bytes behind its size.
fn read_line(place: u8, size: u32, byte: u8) -> Event
    ensures value { result ≡ spelling.read_line place size byte }
    ensures form { IsEvent result }
{
    if is_label_byte(place, byte) {
        Event::Moves(Phase::Line(place + 1, size))
    } else if place > 16 && place < 81 && is_lower_hex(byte) {
        Event::Signs(place - 17, size)
    } else if place == 81 && byte == b'\r' {
        Event::Moves(Phase::Line(82, size))
    } else if place == 82 && byte == b'\n' {
        Event::Opens(size)
    } else {
        Event::Misspelled
    }
}

/// What a byte says that is no data of a chunk.
#[tactic(auto, unfolding(crate::specs::Phase::read))]
pub(crate) fn read(phase: Phase, byte: u8) -> Event
    ensures value { result ≡ spelling.read phase byte }
    ensures form { IsEvent result }
{
    match phase {
        Phase::Size(digits) => read_size(digits, byte),
        Phase::Line(place, size) => read_line(place, size, byte),
        Phase::Data(_, last) => {
            if byte == b'\r' {
                Event::Moves(Phase::Ending(last))
            } else {
                Event::Misspelled
            }
        }
        Phase::Ending(last) => {
            if byte == b'\n' {
                Event::Closes(last)
            } else {
                Event::Misspelled
            }
        }
        Phase::Over | Phase::Refused(_) => Event::Misspelled,
    }
}
