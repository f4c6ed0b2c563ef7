//! A connection over a store of its own, whose bytes come in pieces.

ghost use Rattle.std.specs.Prelude.{◌≡◌, ◌≢◌, ◌<◌, ◌++◌, ℕ, false, List, [], length, IfOk, OnOk, OnErr, None, Some};
ghost use Rattle.s3_config.specs.Settings.{Settings};
ghost use Rattle.s3_store.specs.Steps.{Standing as Base};
ghost use Rattle.s3_simulation.specs.Played.{turn_of};
ghost use Rattle.s3_simulation.specs.Replaying.{HasCome, HasTaken, ReplaysFrom};

use crate::played::Played;
use s3_calendar::Moment;
use s3_config::Config;
use s3_connection::connections_write;
use s3_journal::RecordedStore;
use s3_machine::Rules;
use s3_records::{CommitError, Records};
use s3_store::Store;
use s3_terms::NoMemory;
use std::alloc::Global;
use std::marker::Model;
use std::slice;

// How many bytes go through the connection at once, at most: so many are kept at most while a command has its turn.
const PIECE: usize = 65_536;

// The number that the entries of the only connection have.
const SEAT: u64 = 0;

/// One connection over a store of its own, which may hold anything and has any keeper of records. All its messages have one
/// moment, and each of its commands has its turn at once.
///
/// It takes its bytes in pieces of any size (`feed`), and hands out at the end what the connection wrote (`written`).
/// Of the bytes it keeps what the connection keeps. No more is read after a reply that closes, after a refusal, and
/// where memory ran out. It takes what follows then, and drops it.
#[derive(Drop)]
pub struct Replay<'a, R: Records + Drop> {
    alloc: Global,
    config: &'a Config,
    played: Played<'a>,
    recorded_store: RecordedStore<R>,
}

impl<'a, R: Records + Drop> Model for Replay<'a, R> {
    ghost use Rattle.std.specs.Coded.{codes};
    ghost use Rattle.s3_store.specs.Steps.{coded_standing};
    ghost use Rattle.s3_simulation.specs.Replaying.{Replaying};

    ghost Value = { Replaying };

    ghost coded = { Prim.hlevel (codes, coded_standing) };

    ghost view = { λ r. record { settings = r.config.now; played = r.played; recorded_store = r.recorded_store } };
}

impl<'a, R: Records + Drop> Replay<'a, R> {
    /// A connection of which nothing has come, over this store, which is committed first. All its messages will have this moment.
    ///
    /// # Errors
    ///
    /// `NoMemory` where that commit fails. Of records in memory it never comes, though no contract can say so.
    pub fn new(
        alloc: Global,
        config: &'a Config,
        store: Store<R>,
        moment: &'a Moment,
    ) -> Result<Replay<'a, R>, NoMemory>
        ensures { IfOk result (λ replay. HasTaken replay store.standing config.now moment.now []) }
    {
        let rules = Rules::of(config);
        let recorded_store = RecordedStore::new(alloc, rules, store)?;
        Ok(Replay {
            alloc,
            config,
            played: Played::new(alloc, slice::from_ref(moment)),
            recorded_store,
        })
    }

    /// Takes more of the connection's bytes, and gives the commands in them their turns. It costs what
    /// `Connection::piece` of `s3_connection` and the commands do.
    ///
    /// # Errors
    ///
    /// `NoMemory` where there is no memory for bytes that may have to be kept. It comes too where more turns would be
    /// needed than there are numbers for commands. Some of the bytes may have been taken then, and the replay may only
    /// be dropped.
    pub fn feed(&mut self, bytes: &[u8]) -> Result<(), NoMemory>
        ensures taken { (base : Base) (settings : Settings) (moment : ℕ) (before : List ℕ) → HasTaken self.old base settings moment before
            → OnOk result (HasTaken self.new base settings moment (before ++ bytes.now)) }
        ensures memory { OnErr result (bytes.now ≢ []) }
    {
        let mut rest = bytes;
        while !rest.is_empty() {
            let (piece, behind) = rest.split_at(PIECE.min(rest.len()));
            self.take(piece)?;
            rest = behind;
        }
        Ok(())
    }

    // Takes a piece of the connection's bytes, and gives the commands in it their turns.
    fn take(&mut self, piece: &[u8]) -> Result<(), NoMemory>
        ensures taken { (base : Base) (settings : Settings) (moment : ℕ) (before : List ℕ) → HasTaken self.old base settings moment before
            → OnOk result (HasTaken self.new base settings moment (before ++ piece.now)) }
    {
        self.piece(piece)?;
        for _ in 0..u64::MAX {
            if !self.turn() {
                return Ok(());
            }
        }
        Err(NoMemory)
    }

    // Gives a piece to the connection.
    fn piece(&mut self, piece: &[u8]) -> Result<(), NoMemory>
        ensures { (base : Base) (settings : Settings) (moment : ℕ) (before : List ℕ) → HasCome self.old base settings moment before
            → OnOk result (HasCome self.new base settings moment (before ++ piece.now)) }
    {
        self.played.feed(self.alloc, self.config, piece)
    }

    // Gives the command that waits its turn, if one does: whether one did.
    fn turn(&mut self) -> bool
        ensures stays { (base : Base) (settings : Settings) (moment : ℕ) (bytes : List ℕ) → HasCome self.old base settings moment bytes
            → HasCome self.new base settings moment bytes }
        ensures none { result ≡ false → turn_of self.new.played ≡ None }
    {
        self.played
            .take_turn(self.alloc, self.config, &mut self.recorded_store, SEAT)
    }

    /// Commits all that was answered so far: it may be told after that.
    ///
    /// # Errors
    ///
    /// Those of `RecordedStore::commit`. The replay is as it was. Records in memory have no error here.
    pub fn commit(&mut self) -> Result<(), CommitError>
        ensures committed { OnOk result (self.new.recorded_store.committed ≡ Some self.new.recorded_store.entries) }
        ensures kept { OnOk result (self.new ≡ record self.old { recorded_store = record self.old.recorded_store { committed = Some self.old.recorded_store.entries } }) }
        ensures same { OnErr result (self.new ≡ self.old) }
        ensures memory { OnErr result (R.is_in_memory ≡ false) }
    {
        self.recorded_store.commit()
    }

    /// All that the connection writes, whose bytes end here. From now on it takes none.
    ///
    /// # Errors
    ///
    /// `NoMemory` where something is written and memory runs out.
    pub fn written(&mut self) -> Result<Vec<u8>, NoMemory>
        ensures output { (base : Base) (settings : Settings) (moment : ℕ) (bytes : List ℕ) → HasTaken self.old base settings moment bytes
            → IfOk result (λ out. ReplaysFrom base settings moment bytes out.items) }
        ensures memory { (base : Base) (settings : Settings) (moment : ℕ) (bytes : List ℕ) → HasTaken self.old base settings moment bytes
            → OnErr result ((out : List ℕ) × ReplaysFrom base settings moment bytes out × (0 < length out)) }
        ensures store { self.new.recorded_store ≡ self.old.recorded_store }
    {
        connections_write();
        self.played.end();
        let _store = self.recorded_store.store();
        self.played.all(self.alloc)
    }
}
