//! Events without what is refused.

ghost use Rattle.std.specs.Prelude.{◌≡◌, ◌≢◌, ◌++◌, ◌∷◌, ℕ, false, List, [], map, IfOk, OnOk, OnErr, None};
ghost use Rattle.s3_events.specs.declared.event.Event.{Event as Happening};
ghost use Rattle.s3_events.specs.Script.{connection_of_event, said_of_event};
ghost use Rattle.s3_simulation.specs.Events.{received};
ghost use Rattle.s3_simulation.specs.Run.{each_moments};
ghost use Rattle.s3_simulation.specs.Trimmed.{AreKept, AreShares, AreTrimmed, IsShare, piece_of};
ghost use Rattle.s3_simulation.specs.Trying.{EndsWithin, HasHeard, ReadsOn, Tries, kept_now, left_of, said_if, share_at, share_of, size_of};

use crate::share::Kept;
use crate::trial::{Trial, nothing_is_sound};
use s3_calendar::Moment;
use s3_config::Config;
use s3_events::Event;
use s3_terms::NoMemory;
use std::alloc::Global;
use std::mem::drop;

/// The events without what is refused. All events of a connection are dropped of which no message is sound, or that isn't there; of
/// the others the bytes are dropped, and the end, behind the byte at which the first message is refused. Pieces without bytes are
/// dropped, and all else is kept, in its order.
///
/// The bytes of each connection go once through a session of their own, in which each command is answered at once, by an answer that
/// nobody reads: so nothing is stored, and nothing is read from a store. Each event is looked at once for each connection. Memory is
/// taken for one session at a time, for the shares of the connections, and for the events that are kept.
///
/// # Errors
///
/// `NoMemory` where there is no memory for that, or a connection has more bytes than there are numbers: it comes only where there are
/// connections and events.
pub fn trim(
    alloc: Global,
    config: &Config,
    moments: &[Vec<Moment>],
    events: &[Event],
) -> Result<Vec<Event>, NoMemory>
    ensures trimmed { IfOk result (λ trimmed. AreTrimmed config.now (each_moments moments.now) events.now trimmed.items) }
    ensures memory { OnErr result ((moments.now ≢ []) × (events.now ≢ [])) }
{
    nothing_is_sound(alloc);
    if moments.is_empty() {
        return Ok(Vec::new(alloc));
    }
    if events.is_empty() {
        return Ok(Vec::new(alloc));
    }
    trimmed(alloc, config, moments, events)
}

// The same, where there are connections and events.
fn trimmed(
    alloc: Global,
    config: &Config,
    moments: &[Vec<Moment>],
    events: &[Event],
) -> Result<Vec<Event>, NoMemory>
    ensures { IfOk result (λ trimmed. AreTrimmed config.now (each_moments moments.now) events.now trimmed.items) }
{
    let mut shares = shares(alloc, config, moments, events)?;
    kept(alloc, &mut shares, events)
}

// How much of the events of each connection is kept.
fn shares(
    alloc: Global,
    config: &Config,
    moments: &[Vec<Moment>],
    events: &[Event],
) -> Result<Vec<Kept>, NoMemory>
    ensures { IfOk result (λ shares. AreShares config.now (each_moments moments.now) events.now (share_at shares.items)) }
{
    let mut shares = Vec::new(alloc);
    for number in 0..moments.len() {
        let share = share(alloc, config, moments[number].as_slice(), number, events)?;
        shares.push(share)?;
    }
    Ok(shares)
}

// How much of the events of a connection is kept, whose messages have these moments.
fn share(
    alloc: Global,
    config: &Config,
    moments: &[Moment],
    connection: usize,
    events: &[Event],
) -> Result<Kept, NoMemory>
    ensures { IfOk result (λ kept. IsShare config.now moments.now (received connection events.now) (share_of kept)) }
{
    let mut trial = Trial::new(alloc, moments);
    let kept = hear_all(alloc, config, &mut trial, connection, events);
    drop(trial);
    kept
}

// Lets a connection on trial hear of all events, and answers how much of its events is kept.
fn hear_all(
    alloc: Global,
    config: &Config,
    trial: &mut Trial<'_>,
    connection: usize,
    events: &[Event],
) -> Result<Kept, NoMemory>
    requires reads { ReadsOn trial.old }
    ensures { (moments : List ℕ) → Tries trial.old config.now moments []
        → IfOk result (λ kept. IsShare config.now moments (received connection events.now) (share_of kept)) }
{
    for number in 0..events.len() {
        if let Some(kept) = hear(alloc, config, trial, connection, &events[number])? {
            return Ok(kept);
        }
    }
    Ok(trial.kept())
}

// Lets a connection on trial hear of an event, and answers how much of its events is kept, once that is settled.
fn hear(
    alloc: Global,
    config: &Config,
    trial: &mut Trial<'_>,
    connection: usize,
    event: &Event,
) -> Result<Option<Kept>, NoMemory>
    requires reads { ReadsOn trial.old }
    ensures heard { (moments : List ℕ) (before : List Happening) → (received connection before).ended ≡ false
        → Tries trial.old config.now moments (received connection before).bytes
        → IfOk result (λ told. HasHeard told trial.new config.now moments connection (before ++ event.now ∷ [])) }
    ensures reads { IfOk result (λ told. told ≡ None → ReadsOn trial.new) }
{
    let number = event.connection() as usize;
    if number != connection {
        return Ok(None);
    }
    match event {
        Event::Piece { bytes, .. } => trial.take(alloc, config, bytes.as_slice()),
        Event::End { .. } => Ok(Some(trial.end())),
        Event::Turn { .. } => Ok(None),
    }
}

// What is kept of the events, by what each connection's share leaves to be kept.
fn kept(alloc: Global, shares: &mut [Kept], events: &[Event]) -> Result<Vec<Event>, NoMemory>
    ensures { ((c : ℕ) → EndsWithin (share_at shares.old c) (received c events.now))
        → IfOk result (λ made. AreKept (share_at shares.old) events.now made.items) }
{
    let mut made = Vec::new(alloc);
    for number in 0..events.len() {
        keep(alloc, shares, &mut made, &events[number])?;
    }
    Ok(made)
}

// Adds what is kept of an event, and leaves what is kept of those behind it.
fn keep(
    alloc: Global,
    shares: &mut [Kept],
    made: &mut Vec<Event>,
    event: &Event,
) -> Result<(), NoMemory>
    ensures made { OnOk result (map said_of_event made.new.items
        ≡ map said_of_event made.old.items ++ kept_now (share_at shares.old (connection_of_event event.now)) event.now) }
    ensures own { OnOk result (share_at shares.new (connection_of_event event.now)
        ≡ left_of (share_at shares.old (connection_of_event event.now)) (size_of event.now)) }
    ensures others { OnOk result ((c : ℕ) → c ≢ connection_of_event event.now → share_at shares.new c ≡ share_at shares.old c) }
{
    let number = event.connection() as usize;
    if number < shares.len() {
        add(alloc, &mut shares[number], made, event)
    } else {
        Ok(())
    }
}

// The same for the share of its connection.
fn add(
    alloc: Global,
    share: &mut Kept,
    made: &mut Vec<Event>,
    event: &Event,
) -> Result<(), NoMemory>
    ensures made { OnOk result (map said_of_event made.new.items
        ≡ map said_of_event made.old.items ++ kept_now (share_of share.old) event.now) }
    ensures share { OnOk result (share_of share.new ≡ left_of (share_of share.old) (size_of event.now)) }
{
    match event {
        Event::Piece { connection, bytes } => {
            let size = bytes.len();
            let count = share.count(size);
            *share = share.behind(size);
            add_piece(alloc, made, *connection, &bytes[..count])
        }
        Event::End { connection } => {
            let connection = *connection;
            add_if(made, share.keeps_end(), Event::End { connection })
        }
        Event::Turn { connection } => {
            let connection = *connection;
            add_if(made, share.keeps_turns(), Event::Turn { connection })
        }
    }
}

// Adds a piece, if it has bytes.
fn add_piece(
    alloc: Global,
    made: &mut Vec<Event>,
    connection: u32,
    piece: &[u8],
) -> Result<(), NoMemory>
    ensures { OnOk result (map said_of_event made.new.items ≡ map said_of_event made.old.items ++ piece_of connection piece.now) }
{
    if piece.is_empty() {
        return Ok(());
    }
    let mut bytes = Vec::new(alloc);
    bytes.extend_from_slice(piece)?;
    made.push(Event::Piece { connection, bytes })?;
    Ok(())
}

// Adds an event, if it is kept.
fn add_if(made: &mut Vec<Event>, is_kept: bool, event: Event) -> Result<(), NoMemory>
    ensures { OnOk result (map said_of_event made.new.items ≡ map said_of_event made.old.items ++ said_if is_kept event) }
{
    if is_kept {
        made.push(event)?;
    }
    Ok(())
}
