//! Connections that share one store.

ghost use Rattle.std.specs.Prelude.{◌≡◌, ◌≢◌, ◌++◌, ◌∷◌, ◌<◌, ℕ, true, List, [], length, IfOk, OnOk, OnErr, IfSome, None, Some, false};
ghost use Rattle.s3_events.specs.declared.event.Event.{Event as Happening};
ghost use Rattle.s3_events.specs.Script.{connection_of_event};
ghost use Rattle.s3_connection.specs.declared.stage.Wants.{Wants};
ghost use Rattle.s3_session.specs.Output.{Over, is_dead, is_waiting};
ghost use Rattle.s3_simulation.specs.Events.{brings_bytes, received};
ghost use Rattle.s3_simulation.specs.Faults.{FaultOf, HasNoFaultOf};
ghost use Rattle.s3_simulation.specs.World.{IsEntered, turn_of_event};
ghost use Rattle.s3_simulation.specs.Run.{each_moments, moments_of, output_of};
ghost use Rattle.s3_simulation.specs.Shown.{standing_at, wanted_at, written_by_all};
ghost use Rattle.s3_simulation.specs.StandsAfter.{StandsAfter};

use crate::connections::{all_of_one, fault_of_one, fresh, meet_one};
use crate::played::Played;
use s3_calendar::Moment;
use s3_config::Config;
use s3_connection::{connections_write, outputs_are_one};
use s3_events::Event;
use s3_journal::RecordedStore;
use s3_machine::Rules;
use s3_records::{CommitError, Records};
use s3_session::Fault;
use s3_store::Store;
use s3_terms::NoMemory;
use std::alloc::Global;
use std::marker::Model;

/// Connections that share one store. Their bytes come in pieces, and their commands have their turns at the store, in
/// any order of events. No memory holds the events, nor the history of the store.
///
/// It makes no call of the system: the caller moves the bytes. Contracts see the settings, the connections and the recorded store
/// of the store. `StandsAfter` says how they stand after some events.
#[derive(Drop)]
pub struct World<'a, R: Records + Drop> {
    alloc: Global,
    config: &'a Config,
    connections: Vec<Played<'a>>,
    recorded_store: RecordedStore<R>,
}

impl<'a, R: Records + Drop> Model for World<'a, R> {
    ghost use Rattle.std.specs.Coded.{codes};
    ghost use Rattle.s3_store.specs.Steps.{coded_standing};
    ghost use Rattle.s3_simulation.specs.Events.{brings_bytes};
    ghost use Rattle.s3_simulation.specs.World.{Serving};

    ghost Value = { Serving };

    ghost coded = { Prim.hlevel (codes, coded_standing) };

    ghost view = { λ w. record { settings = w.config.now; connections = w.connections.items; recorded_store = w.recorded_store } };
}

impl<'a, R: Records + Drop> World<'a, R> {
    /// Connections of which nothing came, one for each list of moments. Their numbers are the places of the lists, from
    /// 0. The store may hold anything, and is committed first.
    ///
    /// The messages of a connection have the moments of its list, in their order. Where the list has run out, its last
    /// moment comes again.
    ///
    /// # Errors
    ///
    /// `NoMemory` where there is no memory for the connections, or that commit fails. Records in memory don't fail there.
    pub fn new(
        alloc: Global,
        config: &'a Config,
        store: Store<R>,
        moments: &'a [Vec<Moment>],
    ) -> Result<World<'a, R>, NoMemory>
        ensures begins { IfOk result (λ world. StandsAfter world (each_moments moments.now) []) }
        ensures settings { IfOk result (λ world. world.settings ≡ config.now) }
        ensures opens { IfOk result (λ world. world.recorded_store.opening ≡ store.standing) }
    {
        let connections = fresh(alloc, moments)?;
        let rules = Rules::of(config);
        let recorded_store = RecordedStore::new(alloc, rules, store)?;
        Ok(World {
            alloc,
            config,
            connections,
            recorded_store,
        })
    }

    /// Does what an event says to the connection that it names. It does nothing where there is no such connection.
    ///
    /// - `Piece`: more of its bytes come. They are kept while a command waits, and dropped after its end.
    /// - `End`: no more of its bytes come. A second end does nothing.
    /// - `Turn`: the store answers the command that waits, if one does. What came meanwhile then goes through the
    ///   connection.
    ///
    /// Where the store finds no memory for a command, the connection says so and ends. If the rows of the store are in
    /// memory and numbers are left, that is only so for a command that isn't refused and takes room.
    ///
    /// A piece costs what `Connection::piece` of `s3_connection` does. An end takes no memory. A turn costs what its
    /// command does, and what `Connection::go_on` does.
    ///
    /// # Errors
    ///
    /// `NoMemory` for a piece that isn't empty, where there is no memory for it while a command waits. The world is as
    /// it was then.
    ///
    /// ```text
    /// let mut world = World::new(alloc, &config, store, &moments)?;
    /// world.step(&Event::Piece { connection: 0, bytes })?;
    /// world.step(&Event::Turn { connection: 0 })?;
    /// let written = world.out(0)?;
    /// ```
    pub fn step(&mut self, event: &Event) -> Result<(), NoMemory>
        ensures stands { (moments : List (List ℕ)) (happened : List Happening) → StandsAfter self.old moments happened
            → OnOk result (StandsAfter self.new moments (happened ++ event.now ∷ [])) }
        ensures entered { IsEntered R.is_in_memory self.old.recorded_store self.new.recorded_store (turn_of_event self.old.connections event.now) }
        ensures settings { self.new.settings ≡ self.old.settings }
        ensures opens { self.new.recorded_store.opening ≡ self.old.recorded_store.opening }
        ensures same { OnErr result (self.new ≡ self.old) }
        ensures memory { OnErr result (brings_bytes event.now ≡ true) }
        ensures there { OnErr result (connection_of_event event.now < length self.old.connections) }
        ensures waits { OnErr result (wanted_at self.old.connections (connection_of_event event.now) ≢ Wants.Input) }
    {
        connections_write();
        outputs_are_one();
        let met = meet_one(
            self.alloc,
            self.config,
            &mut self.connections,
            &mut self.recorded_store,
            event,
        );
        let _store = self.recorded_store.store();
        met
    }

    /// Commits all entries so far: their answers may be told after it.
    ///
    /// # Errors
    ///
    /// Those of `RecordedStore::commit`. The world is as it was. Records in memory have no error here.
    pub fn commit(&mut self) -> Result<(), CommitError>
        ensures committed { OnOk result (self.new.recorded_store.committed ≡ Some self.new.recorded_store.entries) }
        ensures kept { OnOk result (self.new ≡ record self.old { recorded_store = record self.old.recorded_store { committed = Some self.old.recorded_store.entries } }) }
        ensures same { OnErr result (self.new ≡ self.old) }
        ensures memory { OnErr result (R.is_in_memory ≡ false) }
    {
        self.recorded_store.commit()
    }

    /// How many connections there are. It takes no memory.
    pub fn connections(&self) -> usize
        ensures { result ≡ length self.now.connections }
    {
        self.connections.len()
    }

    /// How many commands had their turns and were answered: the entries of the store's history, which no memory holds. It
    /// takes no memory.
    pub fn entries(&self) -> u64
        ensures { result ≡ length self.now.recorded_store.entries }
    {
        self.recorded_store.entries()
    }

    /// The first message of a connection that was refused, if one was; none where it isn't there, or where memory ran out in it.
    /// What is kept while a command waits isn't judged yet. It takes no memory.
    pub fn fault(&self, connection: u32) -> Option<Fault>
        ensures some { (moments : List (List ℕ)) (happened : List Happening) → StandsAfter self.now moments happened
            → IfSome result (λ fault. FaultOf self.now.settings (moments_of connection moments) (received connection happened) fault.message fault.code) }
        ensures over { result ≢ None → standing_at self.now.connections connection ≡ Over }
        ensures none { (moments : List (List ℕ)) (happened : List Happening) → StandsAfter self.now moments happened
            → connection < length moments → is_dead (standing_at self.now.connections connection) ≡ false
            → is_waiting (standing_at self.now.connections connection) ≡ false
            → result ≡ None → HasNoFaultOf self.now.settings (moments_of connection moments) (received connection happened) }
    {
        fault_of_one(&self.connections, connection as usize)
    }

    /// A copy of all that a connection wrote; nothing where it isn't there.
    ///
    /// # Errors
    ///
    /// `NoMemory` where it wrote something and memory runs out.
    pub fn out(&self, connection: u32) -> Result<Vec<u8>, NoMemory>
        ensures all { IfOk result (λ out. out.items ≡ output_of connection (written_by_all self.now.connections)) }
        ensures memory { OnErr result (output_of connection (written_by_all self.now.connections) ≢ []) }
    {
        all_of_one(self.alloc, &self.connections, connection as usize)
    }
}
