//! How the lines of a connection begin.

ghost use Rattle.std.specs.Prelude.{◌≡◌, ◌≢◌, true, false, IfOk};
ghost use Rattle.s3_log.specs.Line as rules;

use s3_calendar::Moment;
use s3_documents::{Field, Leaf, Printer};
use s3_terms::NoMemory;
use std::alloc::Global;
use std::marker::Model;

// What a beginning takes.
const ROOM: usize = 96;

/// How each line begins of the messages of this moment on the connection of this number: it is printed once for all of them.
/// Contracts see the moment and the number.
#[derive(Drop)]
pub struct Beginning {
    moment: Moment,
    connection: u64,
    text: Vec<u8>,
}

impl Model for Beginning {
    ghost use Rattle.std.specs.Prelude.{◌≡◌};
    ghost use Rattle.s3_log.specs.Line.{Begun, beginning};

    ghost Value = { Begun };

    ghost view = { λ b. record { moment = b.moment; connection = b.connection } };

    ghost invariant = { λ b. b.text.items ≡ beginning b.moment b.connection };
}

impl Beginning {
    /// The beginning of these lines.
    #[tactic(auto, using(crate::proofs::LineLemmas::without_brace))]
    pub fn new(alloc: Global, moment: Moment, connection: u64) -> Result<Beginning, NoMemory>
        ensures { IfOk result (λ b. b ≡ record { moment = moment; connection = connection }) }
    {
        let mut text = document_of(alloc, moment, connection)?;
        text.truncate(text.len().saturating_sub(1));
        Ok(Beginning {
            moment,
            connection,
            text,
        })
    }

    /// Whether it is that of this moment and this connection.
    pub(crate) fn is_of(&self, moment: Moment, connection: u64) -> bool
        ensures is { result ≡ true → self.now ≡ record { moment = moment; connection = connection } }
        ensures other { result ≡ false → self.now ≢ record { moment = moment; connection = connection } }
    {
        self.moment == moment && self.connection == connection
    }

    /// Its text.
    pub(crate) fn as_slice(&self) -> &[u8]
        ensures { result.now ≡ rules.beginning self.now.moment self.now.connection }
    {
        &self.text
    }
}

// The document that tells a moment and a connection, and nothing else.
fn document_of(alloc: Global, moment: Moment, connection: u64) -> Result<Vec<u8>, NoMemory>
    ensures { IfOk result (λ text. text.items ≡ rules.begun_document moment connection) }
{
    let mut printer = Printer::new(alloc, ROOM)?;
    printer.fields(&[
        Field {
            name: "time",
            value: Leaf::Moment(moment),
        },
        Field {
            name: "connection",
            value: Leaf::Number(connection),
        },
    ])?;
    Ok(printer.finish()?)
}
