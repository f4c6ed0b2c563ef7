//! What an event does to one of several connections.

ghost use Rattle.std.specs.Prelude.{◌≡◌, ◌≢◌, ◌<◌, true, [], length, IfOk, OnOk, OnErr};
ghost use Rattle.s3_events.specs.Script.{connection_of_event};
ghost use Rattle.s3_connection.specs.declared.stage.Wants.{Wants};
ghost use Rattle.std.specs.List.{slice_get};
ghost use Rattle.s3_simulation.specs.Events.{brings_bytes};
ghost use Rattle.s3_simulation.specs.Faults.{TellsIn};
ghost use Rattle.s3_simulation.specs.Run.{each_moments, output_of};
ghost use Rattle.s3_simulation.specs.Shown.{wanted_at, written_by_all};
ghost use Rattle.s3_simulation.specs.StandsAfter.{AreFresh, HasHappened};
ghost use Rattle.s3_simulation.specs.World.{IsEntered, turn_of_event};

use crate::played::Played;
use s3_calendar::Moment;
use s3_config::Config;
use s3_events::Event;
use s3_journal::RecordedStore;
use s3_records::Records;
use s3_session::Fault;
use s3_terms::NoMemory;
use std::alloc::Global;

/// Connections of which nothing came, one for each list of moments.
///
/// # Errors
///
/// `NoMemory` where there is no memory for them.
pub(crate) fn fresh<'a>(
    alloc: Global,
    moments: &'a [Vec<Moment>],
) -> Result<Vec<Played<'a>>, NoMemory>
    ensures { IfOk result (λ made. AreFresh made.items (each_moments moments.now) (length moments.now)) }
{
    let mut made = Vec::new(alloc);
    for number in 0..moments.len() {
        made.push(Played::new(alloc, moments[number].as_slice()))?;
    }
    Ok(made)
}

/// A copy of all that the connection of this number wrote.
///
/// # Errors
///
/// `NoMemory` where it wrote something and memory runs out.
pub(crate) fn all_of_one(
    alloc: Global,
    connections: &[Played<'_>],
    number: usize,
) -> Result<Vec<u8>, NoMemory>
    ensures all { IfOk result (λ all. all.items ≡ output_of number (written_by_all connections.now)) }
    ensures memory { OnErr result (output_of number (written_by_all connections.now) ≢ []) }
{
    if number < connections.len() {
        connections[number].all(alloc)
    } else {
        Ok(Vec::new(alloc))
    }
}

/// The first message of the connection of this number that was refused, if one was.
pub(crate) fn fault_of_one(connections: &[Played<'_>], number: usize) -> Option<Fault>
    ensures { TellsIn (slice_get connections.now number) result }
{
    if number < connections.len() {
        connections[number].fault()
    } else {
        None
    }
}

/// Does what an event says with its connection, if that is there.
///
/// # Errors
///
/// As `Played::meet`.
pub(crate) fn meet_one<R: Records + Drop>(
    alloc: Global,
    config: &Config,
    connections: &mut [Played<'_>],
    recorded_store: &mut RecordedStore<R>,
    event: &Event,
) -> Result<(), NoMemory>
    ensures happened { OnOk result (HasHappened config.now event.now connections.old connections.new recorded_store.old recorded_store.new) }
    ensures entered { IsEntered R.is_in_memory recorded_store.old recorded_store.new (turn_of_event connections.old event.now) }
    ensures opens { recorded_store.new.opening ≡ recorded_store.old.opening }
    ensures same { OnErr result (connections.new ≡ connections.old) }
    ensures recorded_store { OnErr result (recorded_store.new ≡ recorded_store.old) }
    ensures memory { OnErr result (brings_bytes event.now ≡ true) }
    ensures there { OnErr result (connection_of_event event.now < length connections.old) }
    ensures waits { OnErr result (wanted_at connections.old (connection_of_event event.now) ≢ Wants.Input) }
{
    let number = event.connection() as usize;
    if number < connections.len() {
        connections[number].meet(alloc, config, recorded_store, event)
    } else {
        Ok(())
    }
}
