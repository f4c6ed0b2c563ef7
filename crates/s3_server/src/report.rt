//! What is told of servers that have ended.

ghost use Rattle.std.specs.Prelude.{◌≡◌, ◌++◌, ◌∷◌, [], IfSome};
ghost use Rattle.s3_journal.specs.Noted.{front_of};
ghost use Rattle.s3_journal.specs.Roster.{all_gone};

use s3_driver::Account;
use s3_history::{Describes, Recorder};
use s3_journal::{Closed, Ground};
use s3_records::Records;
use std::marker::Model;

/// What a server has done that has ended. No value of it is made: a history consists of them, which stands in the proofs alone.
pub struct EndedServer;

impl Model for EndedServer {
    ghost use Rattle.s3_server.specs.Served as rules;
    ghost use Rattle.s3_server.specs.Served.{nothing_done};

    ghost Value = { rules.ServerRun };

    ghost view = { λ server. nothing_done };
}

// What its shared store leaves tells that.
struct AsLeft;

impl<J: Ground, K: Records + Drop> Describes<Closed<J, K, Account>, EndedServer> for AsLeft {
    ghost use Rattle.s3_journal.specs.Noted.{front_of};
    ghost use Rattle.s3_journal.specs.Roster.{all_gone};

    ghost entry = { λ closed. record { history = closed.recorded_store.entries; committed = front_of closed.recorded_store.committed; gone = all_gone closed.rosters.value.items } };
}

/// What is told of servers that have ended: of each the history of its store, what of it was committed, and the connections that left it, with the accounts of
/// what their sockets gave and took. It stands in the proofs alone, and has a few words. Contracts see it.
#[derive(Drop)]
pub struct ServerReport {
    ended: Recorder<EndedServer>,
}

impl Model for ServerReport {
    ghost use Rattle.std.specs.Prelude.{List};
    ghost use Rattle.s3_server.specs.Served as rules;

    ghost Value = { List rules.ServerRun };

    ghost view = { λ report. report.ended.entries };
}

impl ServerReport {
    /// Nothing is told. `None` never comes, though no contract can say so.
    pub fn new() -> Option<ServerReport>
        ensures { IfSome result (λ report. report ≡ []) }
    {
        Some(ServerReport {
            ended: Recorder::new()?,
        })
    }

    // Tells what a server has done whose shared store left this.
    pub(crate) fn tell<J: Ground, K: Records + Drop>(&mut self, closed: &Closed<J, K, Account>)
        ensures { self.new ≡ self.old
            ++ record { history = closed.now.recorded_store.entries; committed = front_of closed.now.recorded_store.committed; gone = all_gone closed.now.rosters.value.items } ∷ [] }
    {
        self.ended.record::<Closed<J, K, Account>, AsLeft>(closed);
    }
}
