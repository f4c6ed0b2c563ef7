//! What a replay is answered over the records in a folder. They are opened before the input is read, and what changed there is
//! committed before any answer is handed out.

ghost use Rattle.std.specs.Prelude.{◌≡◌, ℕ, List, [], IfErr, IfOk, IsTrue, OnOk, Some};
ghost use Rattle.s3_config.specs.Settings.{Settings};
ghost use Rattle.s3_events.specs.declared.script.Script.{Script as Happenings};
ghost use Rattle.s3_settings.specs.Devices.{GivesAll};
ghost use Rattle.s3_settings.specs.declared.mode.ReplayMode.TheVariants.{Events as InEvents};
ghost use Rattle.s3_store.specs.Steps.{Standing};
ghost use Rattle.s3_simulation.specs.Replaying.{HasTaken, ReplaysFrom};
ghost use Rattle.s3_simulation.specs.Run.{each_moments};
ghost use Rattle.s3_simulation.specs.StandsAfter.{StandsAfter};
ghost use Rattle.s3_cli.specs.Run.{IsAnsweredOver, IsEventsAnswered, IsScriptAnsweredAs, is_before_input};
ghost use Rattle.s3_cli.specs.Reading.{IsAnswerFault, IsKeepingFault, IsKeptFault, IsOpenedFault, IsReadingFault, commit_fault};

use crate::events::{script_read, world_over, world_text};
use crate::opening::found_store;
use crate::run::written_after;
use s3_calendar::Moment;
use s3_config::Config;
use s3_devices::Device;
use s3_events::Script;
use s3_keepers::FolderKeeper;
use s3_records::{CommitError, Records};
use s3_settings::{Fault, ReplayMode};
use s3_simulation::{Replay, World};
use s3_storage::StorageFault;
use s3_store::Store;
use std::alloc::Global;
use std::mem::drop;
use std::sync::Wait;

/// What all the input is answered, read in a mode and under some settings, over the records that the folder at a path keeps. It may
/// wait for the device, and then never return.
///
/// # Errors
///
/// `CannotUse` where the folder can't be used, of which nothing is read then, or where it doesn't commit what changed; `OutOfMemory`;
/// and those of the input. What changed isn't known to be kept then.
pub fn kept_answer<'a, R: Wait, G: FolderKeeper, D: Device>(
    rt: &R,
    alloc: Global,
    path: &'a str,
    folders: &mut G,
    config: &Config,
    mode: ReplayMode,
    device: &mut D,
) -> Result<Vec<u8>, Fault<'a>>
    ensures value { IfOk result (λ text. GivesAll (λ bytes. IsAnsweredOver (Some path.entry) config.now mode bytes text.items) (D.traffic device.old) (D.traffic device.new)) }
    ensures refused { IfErr result (IsKeptFault path.entry mode (D.traffic device.old) (D.traffic device.new)) }
    ensures unread { IfErr result (λ fault. IsTrue (is_before_input fault) → device.new ≡ device.old) }
{
    let store = found_store(alloc, folders, path, config)?;
    match mode {
        ReplayMode::AtMoment(moment) => {
            connection_kept(rt, alloc, store, path, config, moment, device)
        }
        ReplayMode::Events { faults } => {
            events_kept(rt, alloc, store, path, config, faults, device)
        }
    }
}

// What the connection of all the input is answered, over a store of the folder.
fn connection_kept<'a, K: Records + Drop, R: Wait, D: Device>(
    rt: &R,
    alloc: Global,
    store: Store<K>,
    path: &'a str,
    config: &Config,
    moment: Moment,
    device: &mut D,
) -> Result<Vec<u8>, Fault<'a>>
    ensures value { IfOk result (λ text. GivesAll (λ bytes. ReplaysFrom store.standing config.now moment bytes text.items) (D.traffic device.old) (D.traffic device.new)) }
    ensures refused { IfErr result (IsOpenedFault path.entry IsReadingFault (D.traffic device.old) (D.traffic device.new)) }
{
    let mut replay = Replay::new(alloc, config, store, &moment)?;
    let written = kept_after(rt, &mut replay, path, device);
    drop(replay);
    written
}

// What a replay writes that takes all that the device gives and then ends, once all that it answered is committed.
fn kept_after<'a, K: Records + Drop, R: Wait, D: Device>(
    rt: &R,
    replay: &mut Replay<'_, K>,
    path: &'a str,
    device: &mut D,
) -> Result<Vec<u8>, Fault<'a>>
    ensures value { (base : Standing) (settings : Settings) (moment : ℕ) → HasTaken replay.old base settings moment []
        → IfOk result (λ text. GivesAll (λ bytes. ReplaysFrom base settings moment bytes text.items) (D.traffic device.old) (D.traffic device.new)) }
    ensures committed { OnOk result (replay.new.recorded_store.committed ≡ Some replay.new.recorded_store.entries) }
    ensures refused { IfErr result (IsOpenedFault path.entry IsReadingFault (D.traffic device.old) (D.traffic device.new)) }
{
    let text = written_after(rt, replay, device)?;
    match replay.commit() {
        Ok(()) => Ok(text),
        Err(error) => {
            drop(text);
            Err(uncommitted(path, error))
        }
    }
}

// What event lines are answered, which are all that the device gives, over a store of the folder.
fn events_kept<'a, K: Records + Drop, R: Wait, D: Device>(
    rt: &R,
    alloc: Global,
    store: Store<K>,
    path: &'a str,
    config: &Config,
    faults: bool,
    device: &mut D,
) -> Result<Vec<u8>, Fault<'a>>
    ensures value { IfOk result (λ text. GivesAll (λ bytes. IsEventsAnswered faults store.standing config.now bytes text.items) (D.traffic device.old) (D.traffic device.new)) }
    ensures refused { IfErr result (IsOpenedFault path.entry (IsAnswerFault (InEvents faults)) (D.traffic device.old) (D.traffic device.new)) }
{
    match script_read(rt, alloc, device) {
        Ok(script) => script_kept(alloc, store, path, config, faults, &script),
        Err(fault) => {
            drop(store);
            Err(fault)
        }
    }
}

// What a script is answered over a store of the folder.
fn script_kept<'a, K: Records + Drop>(
    alloc: Global,
    store: Store<K>,
    path: &'a str,
    config: &Config,
    faults: bool,
    script: &Script,
) -> Result<Vec<u8>, Fault<'a>>
    ensures value { IfOk result (λ out. IsScriptAnsweredAs faults store.standing config.now script.now out.items) }
    ensures refused { IfErr result (IsKeepingFault path.entry) }
{
    let mut world = world_over(alloc, store, config, script)?;
    let text = world_kept(alloc, &mut world, path, faults);
    drop(world);
    text
}

// What the script is answered that a world has run, once all its entries are committed.
fn world_kept<'a, K: Records + Drop>(
    alloc: Global,
    world: &mut World<'_, K>,
    path: &'a str,
    faults: bool,
) -> Result<Vec<u8>, Fault<'a>>
    ensures value { (script : Happenings) → StandsAfter world.old (each_moments script.moments.items) script.events.items
        → IfOk result (λ out. IsScriptAnsweredAs faults world.old.recorded_store.opening world.old.settings script out.items) }
    ensures committed { OnOk result (world.new.recorded_store.committed ≡ Some world.new.recorded_store.entries) }
    ensures refused { IfErr result (IsKeepingFault path.entry) }
{
    let text = world_text(alloc, world, faults)?;
    match world.commit() {
        Ok(()) => Ok(text),
        Err(error) => {
            drop(text);
            Err(uncommitted(path, error))
        }
    }
}

// The fault of a folder that doesn't commit what changed there.
fn uncommitted<'a>(path: &'a str, error: CommitError) -> Fault<'a>
    ensures { result ≡ commit_fault path.entry error }
{
    match error {
        CommitError::NoMemory => Fault::CannotUse(path, StorageFault::NoRoom),
        CommitError::Failed => Fault::CannotUse(path, StorageFault::Failed),
    }
}
