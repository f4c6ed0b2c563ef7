//! The script of several connections, which grows line by line.

ghost use Rattle.std.specs.Prelude.{◌≡◌, ◌+◌, ◌++◌, ◌==◌, ◌||◌, ◌&&◌, ◌<◌, ℕ, List, [], ◌∷◌, not, true, false, max, length, map, get_or, slice_set, Some, OnOk, is_some};
ghost use Rattle.std.specs.List.{list_any};
ghost use Rattle.s3_events.specs.Lines.{Said, are_moments, connection};
ghost use Rattle.s3_events.specs.Script.{connection_of_event, connections};
ghost use Rattle.s3_events.specs.Reading.{Collects, is_named, meaning};

use crate::checked::{Checked, bytes, moments};
use crate::event::Event;
use s3_calendar::Moment;
use s3_terms::NoMemory;
use std::alloc::Global;

/// What event lines say: how the clock goes for each connection, and what happens.
#[derive(Drop)]
pub struct Script {
    /// For each connection from 0 to the greatest that is named, the moments of its messages, from the first
    /// on; none where no line says them.
    pub moments: Vec<Vec<Moment>>,
    /// What happens, in its order.
    pub events: Vec<Event>,
}

impl Script {
    // The script of no lines.
    pub(crate) fn new(alloc: Global) -> Script
        ensures { Collects 0 result [] }
    {
        Script {
            moments: Vec::new(alloc),
            events: Vec::new(alloc),
        }
    }

    // Whether something was said of the connection.
    pub(crate) fn names(&self, connection: u32) -> bool
        ensures { (size : ℕ) (all : List Said) → Collects size self.now all → result ≡ is_named connection all }
    {
        self.has_moments(connection) || happens_to(self.events.as_slice(), connection)
    }

    // Whether moments of the connection were said.
    fn has_moments(&self, connection: u32) -> bool
        ensures { result ≡ not (length (get_or (map (λ list. list.items) self.now.moments.items) connection []) == 0) }
    {
        match self.moments.as_slice().get(connection as usize) {
            Some(moments) => !moments.is_empty(),
            None => false,
        }
    }

    // Adds what a checked line says, which isn't moments of a connection that was named before.
    pub(crate) fn add(&mut self, alloc: Global, line: &Checked<'_>) -> Result<(), NoMemory>
        requires { is_some (meaning line.now) ≡ true }
        ensures { (all : List Said) (said : Said) → Collects (connections all) self.old all → meaning line.now ≡ Some said
            → (are_moments said && is_named (connection said) all) ≡ false
            → OnOk result (Collects (connections (all ++ said ∷ [])) self.new (all ++ said ∷ [])) }
    {
        make_room(alloc, &mut self.moments, line.connection())?;
        match line {
            Checked::Moments { connection, fields } => {
                let moments = moments(alloc, fields)?;
                self.put_moments(*connection, moments);
                Ok(())
            }
            Checked::Piece { connection, digits } => {
                let bytes = bytes(alloc, digits)?;
                self.push(Event::Piece {
                    connection: *connection,
                    bytes,
                })
            }
            Checked::End { connection } => self.push(Event::End {
                connection: *connection,
            }),
            Checked::Turn { connection } => self.push(Event::Turn {
                connection: *connection,
            }),
        }
    }

    // Puts the moments of a connection in place of those that it has.
    fn put_moments(&mut self, connection: u32, moments: Vec<Moment>)
        requires { connection < length self.old.moments.items }
        ensures moments { map (λ list. list.items) self.new.moments.items ≡ slice_set (map (λ list. list.items) self.old.moments.items) connection moments.items }
        ensures events { self.new.events.items ≡ self.old.events.items }
    {
        self.moments[connection as usize] = moments;
    }

    // Adds an event behind the others.
    fn push(&mut self, event: Event) -> Result<(), NoMemory>
        ensures events { OnOk result (self.new.events.items ≡ self.old.events.items ++ event ∷ []) }
        ensures moments { self.new.moments.items ≡ self.old.moments.items }
    {
        self.events.push(event)?;
        Ok(())
    }
}

// Whether one of the events happens to the connection.
fn happens_to(events: &[Event], connection: u32) -> bool
    ensures { result ≡ list_any (λ event. connection_of_event event == connection) events.now }
{
    events.iter().any(|event| event.connection() == connection)
}

// Adds empty lists until the connection has one.
fn make_room(alloc: Global, moments: &mut Vec<Vec<Moment>>, connection: u32) -> Result<(), NoMemory>
    ensures size { OnOk result (length moments.new.items ≡ max (length moments.old.items) (connection + 1)) }
    ensures same { OnOk result ((c : ℕ) → get_or (map (λ list. list.items) moments.new.items) c [] ≡ get_or (map (λ list. list.items) moments.old.items) c []) }
{
    while moments.len() <= connection as usize {
        moments.push(Vec::new(alloc))?;
    }
    Ok(())
}
