//! A run of the program, from its words to its status, or to the options of a server.

ghost use Rattle.std.specs.Prelude.{◌≡◌, ◌≢◌, ◌≤◌, ◌⊎◌, ⊤, ℕ, List, [], IfOk, OnOk, IfErr, IsTrue, map, true};
ghost use Rattle.s3_config.specs.Settings.{Settings};
ghost use Rattle.s3_session.specs.Replay.{Replays};
ghost use Rattle.s3_store.specs.Steps.{Standing};
ghost use Rattle.s3_simulation.specs.Replaying.{HasTaken, ReplaysFrom};
ghost use Rattle.s3_settings.specs.Devices.{GivesAll, IsTold, IsToldSome, IsUnread};
ghost use Rattle.s3_settings.specs.Fault.{line_of};
ghost use Rattle.s3_cli.specs.Run.{IsAnswered, IsAnsweredOver, IsReplayed, IsReplayFault, IsDone, IsTaskText, IsTextFault, IsTaskDone, IsTaskFault, is_before_input, is_signing, IsRunFault, HasFailed};
ghost use Rattle.s3_cli.specs.Reading.{IsAnswerFault, IsFed, IsOverFault, IsReadingFault};
ghost use Rattle.s3_command_line.specs.Words.{AreRightWords, AreSignWords, IsAskedBy};
ghost use Rattle.s3_command_line.specs.declared.task.Asked.TheVariants.{Server};
ghost use Rattle.s3_settings.specs.declared.options.ServeOptions.{ServeOptions};
ghost use Rattle.s3_cli.specs.declared.run.Ran.TheVariants.{Ended, Serve};

use crate::events::events_answered;
use crate::kept::kept_answer;
use crate::opening::opened_store;
use crate::sign::signed_text;
use s3_calendar::Moment;
use s3_command_line::{Asked, Task, WordsError, read_words};
use s3_config::Config;
use s3_devices::Device;
use s3_keepers::{FolderKeeper, Keeper, MapKeeper};
use s3_records::Records;
use s3_settings::{
    Fault, Files, RecordsKind, ReplayMode, ReplayOptions, ServeOptions, Setup, configure,
    read_piece, write_output,
};
use s3_simulation::{Replay, opened_replays_are_replays};
use std::alloc::Global;
use std::convert::AsStr;
use std::mem::drop;
use std::sync::Wait;

// How many bytes of the input are read at once, at most.
pub(crate) const PIECE: usize = 65_536;

// The status of a run that did its work.
const DONE: u8 = 0;

// The status of a run that failed.
const FAILED: u8 = 1;

// The status of a run whose words were wrong or asked for help.
const USAGE: u8 = 2;

/// What came of a run.
#[derive(Clone, Copy)]
pub enum Ran<'a> {
    /// It ended with this exit status.
    Ended(u8),
    /// The words ask for a server with these options, and nothing was done yet.
    Serve(ServeOptions<'a>),
}

/// Runs the program on the words of its command line, of which the first is the program's name, and answers its exit
/// status, or the options of the server that the words ask for. A server isn't started here: the caller has the sockets.
///
/// `device` gives the input and takes the output. `files` has the keys file and the body of a request. `errors` takes what
/// the user is told. It may wait for `device` and `errors`, and then never return. Records are kept in maps, or as `tables`
/// keeps them where the words ask for `sql`, or by `folders` where they name a folder.
///
/// The status is one of these:
///
/// - 0: the work is done, and `errors` takes nothing. What changed in a folder was committed before any of it was told.
/// - 1: the work failed. `errors` takes the line of the fault ([`Fault::tell`]). Where a folder can't be used, nothing is read.
/// - 2: the words are wrong, or ask for help or the version. `errors` takes the text for that.
///
/// Where a write to `errors` fails, `errors` has taken a beginning of its text, and the status stays. Where a read fails,
/// whatever the reason, the input failed: for memory that the device lacks too.
pub fn run_words<'a, R: Wait, S: AsStr, F: Files, Q: Keeper, G: FolderKeeper, D: Device, E: Device>(
    rt: &R,
    alloc: Global,
    words: &'a [S],
    files: &F,
    tables: &Q,
    folders: &mut G,
    device: &mut D,
    errors: &mut E,
) -> Ran<'a>
    ensures status { (status : ℕ) → result ≡ Ended status → status ≤ 2 }
    ensures silent { result ≡ Ended 0 → errors.new ≡ errors.old }
    ensures done { result ≡ Ended 0 → IsDone (map S.text words.entry.now) (F.known files.now) (D.traffic device.old) (D.traffic device.new) }
    ensures usage { result ≡ Ended 2 → ¬ AreRightWords (map S.text words.entry.now) }
    ensures shown { result ≡ Ended 2 → IsToldSome (E.traffic errors.old) (E.traffic errors.new) }
    ensures untouched { result ≡ Ended 2 → device.new ≡ device.old }
    ensures input { AreSignWords (map S.text words.entry.now) → IsUnread (D.traffic device.old) (D.traffic device.new) }
    ensures failed { result ≡ Ended 1 → HasFailed (IsRunFault (map S.text words.entry.now) (F.known files.now) (D.traffic device.old) (D.traffic device.new)) (E.traffic errors.old) (E.traffic errors.new) (device.new ≡ device.old) }
    ensures server { (options : ServeOptions) → result ≡ Serve options → IsAskedBy (map S.text words.entry.now) (Server options) }
    ensures undone { (options : ServeOptions) → result ≡ Serve options → (errors.new ≡ errors.old) × (device.new ≡ device.old) }
{
    match read_words(alloc, words) {
        Ok(Asked::Work(task)) => Ran::Ended(run_task(
            rt, alloc, &task, files, tables, folders, device, errors,
        )),
        Ok(Asked::Server(options)) => Ran::Serve(options),
        Err(error) => Ran::Ended(refused(rt, errors, error)),
    }
}

// Runs a task and answers its status; a fault is told.
fn run_task<'a, R: Wait, F: Files, Q: Keeper, G: FolderKeeper, D: Device, E: Device>(
    rt: &R,
    alloc: Global,
    task: &Task<'a>,
    files: &F,
    tables: &Q,
    folders: &mut G,
    device: &mut D,
    errors: &mut E,
) -> u8
    ensures status { (result ≡ DONE) ⊎ (result ≡ FAILED) }
    ensures silent { result ≡ DONE → errors.new ≡ errors.old }
    ensures done { result ≡ DONE → IsTaskDone (F.known files.now) (D.traffic device.old) (D.traffic device.new) task.now }
    ensures failed { result ≡ FAILED → HasFailed (IsTaskFault (F.known files.now) (D.traffic device.old) (D.traffic device.new) task.now) (E.traffic errors.old) (E.traffic errors.new) (device.new ≡ device.old) }
    ensures input { is_signing task.now ≡ true → IsUnread (D.traffic device.old) (D.traffic device.new) }
{
    match work(rt, alloc, task, files, tables, folders, device) {
        Ok(()) => DONE,
        Err(fault) => failed(rt, errors, fault),
    }
}

// Tells why words ask for no task, and answers the status.
#[tactic(auto, using(crate::proofs::RunLemmas::told_some))]
fn refused<R: Wait, E: Device>(rt: &R, errors: &mut E, error: WordsError) -> u8
    ensures status { (result ≡ USAGE) ⊎ (result ≡ FAILED) }
    ensures usage { result ≡ USAGE → error ≢ WordsError.OutOfMemory }
    ensures shown { result ≡ USAGE → IsToldSome (E.traffic errors.old) (E.traffic errors.new) }
    ensures told { result ≡ FAILED → IsTold (E.traffic errors.old) (E.traffic errors.new) (line_of Fault.OutOfMemory) }
{
    match error {
        WordsError::OutOfMemory => failed(rt, errors, Fault::OutOfMemory),
        WordsError::Usage(usage) => {
            let _ = write_output(rt, errors, usage.text().as_bytes());
            USAGE
        }
    }
}

// Tells a fault and answers its status; where it cannot be told, the status says enough.
fn failed<R: Wait, E: Device>(rt: &R, errors: &mut E, fault: Fault<'_>) -> u8
    ensures status { result ≡ FAILED }
    ensures told { IsTold (E.traffic errors.old) (E.traffic errors.new) (line_of fault.entry) }
{
    fault.tell(rt, errors);
    FAILED
}

// Does what the words ask for.
#[tactic(auto, using(crate::proofs::RunLemmas::runs))]
fn work<'a, R: Wait, F: Files, Q: Keeper, G: FolderKeeper, D: Device>(
    rt: &R,
    alloc: Global,
    task: &Task<'a>,
    files: &F,
    tables: &Q,
    folders: &mut G,
    device: &mut D,
) -> Result<(), Fault<'a>>
    ensures done { OnOk result (IsTaskDone (F.known files.now) (D.traffic device.old) (D.traffic device.new) task.now) }
    ensures refused { IfErr result (IsTaskFault (F.known files.now) (D.traffic device.old) (D.traffic device.new) task.now) }
    ensures unread { IfErr result (λ fault. IsTrue (is_before_input fault) → device.new ≡ device.old) }
    ensures input { is_signing task.now ≡ true → IsUnread (D.traffic device.old) (D.traffic device.new) }
{
    let text = task_text(rt, alloc, task, files, tables, folders, device)?;
    write_output(rt, device, text.as_slice())
}

// What the words ask to write.
fn task_text<'a, R: Wait, F: Files, Q: Keeper, G: FolderKeeper, D: Device>(
    rt: &R,
    alloc: Global,
    task: &Task<'a>,
    files: &F,
    tables: &Q,
    folders: &mut G,
    device: &mut D,
) -> Result<Vec<u8>, Fault<'a>>
    ensures value { IfOk result (λ text. IsTaskText (F.known files.now) (D.traffic device.old) (D.traffic device.new) task.now text.items) }
    ensures refused { IfErr result (IsTextFault (F.known files.now) (D.traffic device.old) (D.traffic device.new) task.now) }
    ensures unread { IfErr result (λ fault. IsTrue (is_before_input fault) → device.new ≡ device.old) }
    ensures input { is_signing task.now ≡ true → D.traffic device.new ≡ D.traffic device.old }
{
    match task {
        Task::Replay(options) => replay(rt, alloc, options, files, tables, folders, device),
        Task::Sign(options) => signed_text(alloc, options, files),
    }
}

// What all the input is answered, read as the options say.
#[tactic(auto, using(crate::proofs::KeptLemmas::replaying))]
fn replay<'a, R: Wait, F: Files, Q: Keeper, G: FolderKeeper, D: Device>(
    rt: &R,
    alloc: Global,
    options: &ReplayOptions<'a>,
    files: &F,
    tables: &Q,
    folders: &mut G,
    device: &mut D,
) -> Result<Vec<u8>, Fault<'a>>
    ensures value { IfOk result (λ text. IsReplayed (F.known files.now) (D.traffic device.old) (D.traffic device.new) options.now text.items) }
    ensures refused { IfErr result (IsReplayFault (F.known files.now) (D.traffic device.old) (D.traffic device.new) options.now) }
    ensures unread { IfErr result (λ fault. IsTrue (is_before_input fault) → device.new ≡ device.old) }
{
    let mode = ReplayMode::read(options)?;
    let setup = Setup::read(alloc, &options.common)?;
    let records = setup.records;
    let config = configure(alloc, setup, files)?;
    answered_over(
        rt,
        alloc,
        options.folder,
        records,
        tables,
        folders,
        &config,
        mode,
        device,
    )
}

// What all the input is answered, read in a mode and under some settings, over the records in a folder, or in memory, of a kind.
#[tactic(auto, using(crate::proofs::KeptLemmas::over))]
fn answered_over<'a, R: Wait, Q: Keeper, G: FolderKeeper, D: Device>(
    rt: &R,
    alloc: Global,
    folder: Option<&'a str>,
    records: RecordsKind,
    tables: &Q,
    folders: &mut G,
    config: &Config,
    mode: ReplayMode,
    device: &mut D,
) -> Result<Vec<u8>, Fault<'a>>
    ensures value { IfOk result (λ text. GivesAll (λ bytes. IsAnsweredOver folder.entry config.now mode bytes text.items) (D.traffic device.old) (D.traffic device.new)) }
    ensures refused { IfErr result (IsOverFault folder.entry mode (D.traffic device.old) (D.traffic device.new)) }
    ensures unread { IfErr result (λ fault. IsTrue (is_before_input fault) → device.new ≡ device.old) }
{
    match folder {
        Some(path) => kept_answer(rt, alloc, path, folders, config, mode, device),
        None => answered(rt, alloc, records, tables, config, mode, device),
    }
}

// The same over records of a kind in memory.
fn answered<'a, R: Wait, Q: Keeper, D: Device>(
    rt: &R,
    alloc: Global,
    records: RecordsKind,
    tables: &Q,
    config: &Config,
    mode: ReplayMode,
    device: &mut D,
) -> Result<Vec<u8>, Fault<'a>>
    ensures value { IfOk result (λ text. GivesAll (λ bytes. IsAnswered config.now mode bytes text.items) (D.traffic device.old) (D.traffic device.new)) }
    ensures refused { IfErr result (IsAnswerFault mode (D.traffic device.old) (D.traffic device.new)) }
{
    match records {
        RecordsKind::Map => answered_by(rt, alloc, &MapKeeper, config, mode, device),
        RecordsKind::Sql => answered_by(rt, alloc, tables, config, mode, device),
    }
}

// The same over the records that a keeper makes.
#[tactic(auto, using(crate::proofs::ReadingLemmas::readings))]
fn answered_by<'a, R: Wait, Q: Keeper, D: Device>(
    rt: &R,
    alloc: Global,
    keeper: &Q,
    config: &Config,
    mode: ReplayMode,
    device: &mut D,
) -> Result<Vec<u8>, Fault<'a>>
    ensures value { IfOk result (λ text. GivesAll (λ bytes. IsAnswered config.now mode bytes text.items) (D.traffic device.old) (D.traffic device.new)) }
    ensures refused { IfErr result (IsAnswerFault mode (D.traffic device.old) (D.traffic device.new)) }
{
    match mode {
        ReplayMode::AtMoment(moment) => answers(rt, alloc, keeper, config, moment, device),
        ReplayMode::Events { faults } => events_answered(rt, alloc, keeper, config, faults, device),
    }
}

// What the connection of all the input is answered, under some settings at a moment.
fn answers<'a, R: Wait, Q: Keeper, D: Device>(
    rt: &R,
    alloc: Global,
    keeper: &Q,
    config: &Config,
    moment: Moment,
    device: &mut D,
) -> Result<Vec<u8>, Fault<'a>>
    ensures value { IfOk result (λ text. GivesAll (λ bytes. Replays config.now moment bytes text.items) (D.traffic device.old) (D.traffic device.new)) }
    ensures refused { IfErr result (IsReadingFault (D.traffic device.old) (D.traffic device.new)) }
{
    opened_replays_are_replays();
    let store = opened_store(alloc, keeper, config)?;
    let mut replay = Replay::new(alloc, config, store, &moment)?;
    let written = written_after(rt, &mut replay, device);
    drop(replay);
    written
}

/// What a replay writes that takes all that the device gives and then ends.
pub(crate) fn written_after<'a, K: Records + Drop, R: Wait, D: Device>(
    rt: &R,
    replay: &mut Replay<'_, K>,
    device: &mut D,
) -> Result<Vec<u8>, Fault<'a>>
    ensures value { (base : Standing) (settings : Settings) (moment : ℕ) → HasTaken replay.old base settings moment []
        → IfOk result (λ text. GivesAll (λ bytes. ReplaysFrom base settings moment bytes text.items) (D.traffic device.old) (D.traffic device.new)) }
    ensures all { OnOk result (GivesAll (λ bytes. ⊤) (D.traffic device.old) (D.traffic device.new)) }
    ensures refused { IfErr result (IsReadingFault (D.traffic device.old) (D.traffic device.new)) }
{
    feed_input(rt, replay, device)?;
    written(replay)
}

// What a replay writes that ends here.
fn written<'a, K: Records + Drop>(replay: &mut Replay<'_, K>) -> Result<Vec<u8>, Fault<'a>>
    ensures value { (base : Standing) (settings : Settings) (moment : ℕ) (bytes : List ℕ) → HasTaken replay.old base settings moment bytes
        → IfOk result (λ text. ReplaysFrom base settings moment bytes text.items) }
    ensures refused { IfErr result (λ fault. fault ≡ Fault.OutOfMemory) }
{
    let text = replay.written()?;
    Ok(text)
}

// Feeds a replay with all that the device gives, in pieces as they are read.
fn feed_input<'a, K: Records + Drop, R: Wait, D: Device>(
    rt: &R,
    replay: &mut Replay<'_, K>,
    device: &mut D,
) -> Result<(), Fault<'a>>
    ensures fed { OnOk result (GivesAll (IsFed replay.old replay.new) (D.traffic device.old) (D.traffic device.new)) }
    ensures refused { IfErr result (IsReadingFault (D.traffic device.old) (D.traffic device.new)) }
{
    let mut buffer = [0; PIECE];
    for _ in rt.forever() {
        match read_piece(device, &mut buffer)? {
            Some(count) => replay.feed(&buffer[..count])?,
            None => return Ok(()),
        }
    }
    // `forever` has no last turn.
    unreachable!()
}
