//! What happens to connections, one event after another.

ghost use Rattle.std.specs.Prelude.{◌≡◌};
ghost use Rattle.s3_events.specs.Script.{connection_of_event};

/// What happens to one of several connections, which are numbered from 0.
#[derive(Drop)]
pub enum Event {
    /// More of its bytes come.
    Piece { connection: u32, bytes: Vec<u8> },
    /// No more of its bytes come.
    End { connection: u32 },
    /// Its command, if one waits, has its turn.
    Turn { connection: u32 },
}

impl Event {
    /// The connection to which it happens.
    pub fn connection(&self) -> u32
        ensures { result ≡ connection_of_event self.now }
    {
        match self {
            Event::Piece { connection, .. } => *connection,
            Event::End { connection } => *connection,
            Event::Turn { connection } => *connection,
        }
    }
}
