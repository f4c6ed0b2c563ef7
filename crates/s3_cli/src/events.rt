//! The events of several connections, which the input spells line by line, are run, and what the connections wrote is
//! printed, and their first faults where these are wanted.

ghost use Rattle.std.specs.Prelude.{◌≡◌, ◌<◌, ◌+◌, ◌++◌, ℕ, Bool, List, length, take, IfOk, OnOk, IfErr};
ghost use Rattle.s3_text.specs.Lines.{lines_of};
ghost use Rattle.s3_events.specs.Printing.{outputs_text};
ghost use Rattle.s3_events.specs.Script.{IsScriptOf};
ghost use Rattle.s3_events.specs.declared.event.Event.{Event as Happening};
ghost use Rattle.s3_events.specs.declared.script.Script.{Script as Happenings};
ghost use Rattle.s3_records.specs.Catalogue.{opening};
ghost use Rattle.s3_store.specs.Steps.{opened};
ghost use Rattle.s3_settings.specs.Devices.{GivesAll};
ghost use Rattle.s3_settings.specs.declared.mode.ReplayMode.TheVariants.{Events as InEvents};
ghost use Rattle.s3_simulation.specs.Run.{each_moments};
ghost use Rattle.s3_simulation.specs.Shown.{written_by_all};
ghost use Rattle.s3_simulation.specs.StandsAfter.{StandsAfter};
ghost use Rattle.s3_cli.specs.Run.{IsEventsAnswered, IsScriptAnsweredAs};
ghost use Rattle.s3_cli.specs.Reading.{IsAnswerFault, IsLinesFault, IsReadingFault, TellsFirst};

use crate::opening::opened_store;
use crate::run::PIECE;
use s3_config::Config;
use s3_devices::Device;
use s3_events::{EventsError, Script, print_fault, print_output, read_events};
use s3_keepers::Keeper;
use s3_records::Records;
use s3_settings::{Fault, read_piece};
use s3_simulation::{World, run, worlds_run};
use s3_store::Store;
use s3_terms::NoMemory;
use std::alloc::Global;
use std::sync::Wait;

/// What the connections are answered whose events all the input spells, under some settings: a line each, in the order of
/// their numbers; and behind these, where `faults` says so, a line for each first fault, in the same order. All lines are read
/// before the first event happens. Their store has the records that a keeper makes. It may wait for the device, and then never
/// return.
///
/// # Errors
///
/// `InputFailed` where a read failed, `BadEventLine` with the number of its first bad line, and
/// `OutOfMemory`.
pub fn events_answered<'a, R: Wait, Q: Keeper, D: Device>(
    rt: &R,
    alloc: Global,
    keeper: &Q,
    config: &Config,
    faults: bool,
    device: &mut D,
) -> Result<Vec<u8>, Fault<'a>>
    ensures value { IfOk result (λ text. GivesAll (λ bytes. IsEventsAnswered faults (opened (opening config.now.buckets)) config.now bytes text.items) (D.traffic device.old) (D.traffic device.new)) }
    ensures refused { IfErr result (IsAnswerFault (InEvents faults) (D.traffic device.old) (D.traffic device.new)) }
{
    let script = script_read(rt, alloc, device)?;
    let text = script_answered(alloc, keeper, config, faults, &script)?;
    Ok(text)
}

// Adds all that the device gives to a text, in pieces as they are read.
fn read_all<'a, R: Wait, D: Device>(
    rt: &R,
    text: &mut Vec<u8>,
    device: &mut D,
) -> Result<(), Fault<'a>>
    ensures all { OnOk result (GivesAll (λ given. text.new.items ≡ text.old.items ++ given) (D.traffic device.old) (D.traffic device.new)) }
    ensures refused { IfErr result (IsReadingFault (D.traffic device.old) (D.traffic device.new)) }
{
    let mut buffer = [0; PIECE];
    for _ in rt.forever() {
        match read_piece(device, &mut buffer)? {
            Some(count) => text.extend_from_slice(&buffer[..count])?,
            None => return Ok(()),
        }
    }
    // `forever` has no last turn.
    unreachable!()
}

/// The script that event lines make, which are all that the device gives. It may wait for the device, and then never return.
///
/// # Errors
///
/// `InputFailed` where a read failed, `BadEventLine` with the number of its first bad line, and `OutOfMemory`.
pub fn script_read<'a, R: Wait, D: Device>(
    rt: &R,
    alloc: Global,
    device: &mut D,
) -> Result<Script, Fault<'a>>
    ensures value { IfOk result (λ script. GivesAll (λ bytes. IsScriptOf (lines_of bytes) script) (D.traffic device.old) (D.traffic device.new)) }
    ensures refused { IfErr result (λ fault. (faults : Bool) → IsAnswerFault (InEvents faults) (D.traffic device.old) (D.traffic device.new) fault) }
{
    let mut text = Vec::new(alloc);
    read_all(rt, &mut text, device)?;
    script_of(alloc, text.as_slice())
}

// The script that event lines make.
fn script_of<'a>(alloc: Global, text: &[u8]) -> Result<Script, Fault<'a>>
    ensures value { IfOk result (IsScriptOf (lines_of text.now)) }
    ensures refused { IfErr result (IsLinesFault text.now) }
{
    match read_events(alloc, text) {
        Ok(script) => Ok(script),
        Err(EventsError::BadLine(number)) => Err(Fault::BadEventLine(number)),
        Err(EventsError::OutOfMemory) => Err(Fault::OutOfMemory),
    }
}

// What a script is answered, with the first faults where these are wanted.
fn script_answered<Q: Keeper>(
    alloc: Global,
    keeper: &Q,
    config: &Config,
    faults: bool,
    script: &Script,
) -> Result<Vec<u8>, NoMemory>
    ensures { IfOk result (λ out. IsScriptAnsweredAs faults (opened (opening config.now.buckets)) config.now script.now out.items) }
{
    let world = world_of(alloc, keeper, config, script)?;
    world_text(alloc, &world, faults)
}

/// The lines of what the connections of a world wrote, with those of their first faults behind them where these are wanted: what the
/// script is answered that the world has run.
pub fn world_text<K: Records + Drop>(
    alloc: Global,
    world: &World<'_, K>,
    faults: bool,
) -> Result<Vec<u8>, NoMemory>
    ensures { (script : Happenings) → StandsAfter world.now (each_moments script.moments.items) script.events.items
        → IfOk result (λ out. IsScriptAnsweredAs faults world.now.recorded_store.opening world.now.settings script out.items) }
{
    worlds_run();
    let text = printed(alloc, world)?;
    if faults {
        with_faults(text, world)
    } else {
        Ok(text)
    }
}

// The world after the events of a script, over a store of its own with the records that a keeper makes.
fn world_of<'a, Q: Keeper>(
    alloc: Global,
    keeper: &Q,
    config: &'a Config,
    script: &'a Script,
) -> Result<World<'a, Q::Kept>, NoMemory>
    ensures stands { IfOk result (λ world. StandsAfter world (each_moments script.now.moments.items) script.now.events.items) }
    ensures settings { IfOk result (λ world. world.settings ≡ config.now) }
    ensures opens { IfOk result (λ world. world.recorded_store.opening ≡ opened (opening config.now.buckets)) }
{
    let store = opened_store(alloc, keeper, config)?;
    world_over(alloc, store, config, script)
}

/// The world after the events of a script, over this store.
pub fn world_over<'a, K: Records + Drop>(
    alloc: Global,
    store: Store<K>,
    config: &'a Config,
    script: &'a Script,
) -> Result<World<'a, K>, NoMemory>
    ensures stands { IfOk result (λ world. StandsAfter world (each_moments script.now.moments.items) script.now.events.items) }
    ensures settings { IfOk result (λ world. world.settings ≡ config.now) }
    ensures opens { IfOk result (λ world. world.recorded_store.opening ≡ store.standing) }
{
    let (moments, events) = (script.moments.as_slice(), script.events.as_slice());
    run(alloc, config, store, moments, events)
}

// The lines of what the connections wrote.
fn printed<K: Records + Drop>(alloc: Global, world: &World<'_, K>) -> Result<Vec<u8>, NoMemory>
    ensures { IfOk result (λ text. text.items ≡ outputs_text (written_by_all world.now.connections)) }
{
    let count = count_of(world)?;
    let mut text = Vec::new(alloc);
    for connection in 0..count {
        print_one(&mut text, world, connection)?;
    }
    Ok(text)
}

// How many connections there are.
fn count_of<K: Records + Drop>(world: &World<'_, K>) -> Result<u32, NoMemory>
    ensures { IfOk result (λ count. count ≡ length world.now.connections) }
{
    match u32::try_from(world.connections()) {
        Ok(count) => Ok(count),
        Err(_) => Err(NoMemory),
    }
}

// Adds the line of what a connection wrote behind those of the connections before it.
fn print_one<K: Records + Drop>(
    text: &mut Vec<u8>,
    world: &World<'_, K>,
    connection: u32,
) -> Result<(), NoMemory>
    requires { connection < length world.now.connections }
    ensures { text.old.items ≡ outputs_text (take connection (written_by_all world.now.connections))
        → OnOk result (text.new.items ≡ outputs_text (take (connection + 1) (written_by_all world.now.connections))) }
{
    let output = world.out(connection)?;
    print_output(text, connection, output.as_slice())
}

// The text with the lines of the first faults of the connections behind it.
fn with_faults<K: Records + Drop>(text: Vec<u8>, world: &World<'_, K>) -> Result<Vec<u8>, NoMemory>
    ensures { (moments : List (List ℕ)) (happened : List Happening) → StandsAfter world.now moments happened
        → IfOk result (λ with. TellsFirst world.now moments happened (length world.now.connections) text.items with.items) }
{
    let count = count_of(world)?;
    let mut text = text;
    for connection in 0..count {
        tell_one(&mut text, world, connection)?;
    }
    Ok(text)
}

// Adds the line of the first fault of a connection, if it has one, behind those of the connections before it.
fn tell_one<K: Records + Drop>(
    text: &mut Vec<u8>,
    world: &World<'_, K>,
    connection: u32,
) -> Result<(), NoMemory>
    requires { connection < length world.now.connections }
    ensures { (moments : List (List ℕ)) (happened : List Happening) (before : List ℕ) → StandsAfter world.now moments happened
        → TellsFirst world.now moments happened connection before text.old.items
        → OnOk result (TellsFirst world.now moments happened (connection + 1) before text.new.items) }
{
    match world.fault(connection) {
        Some(fault) => print_fault(text, connection, fault.message, fault.code),
        None => Ok(()),
    }
}
