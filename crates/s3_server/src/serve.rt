//! A server from its options to its end.

ghost use Rattle.std.specs.Prelude.{◌≡◌, ◌⊎◌, ◌≤◌, length, Some, None, IfOk, IfErr, OnErr, OnOk};
ghost use Rattle.s3_records.specs.Catalogue.{opening};
ghost use Rattle.s3_machine.specs.Bases.{IsSoundBase};
ghost use Rattle.s3_store.specs.Steps.{opened};
ghost use Rattle.s3_settings.specs.Devices.{IsTold};
ghost use Rattle.s3_settings.specs.Fault.{line_of};
ghost use Rattle.s3_settings.specs.declared.fault.Fault.{Fault};
ghost use Rattle.s3_server.specs.Serve.{IsServeFault, IsFolderFault, IsKeptFault, IsModeFault, IsToldFault};
ghost use Rattle.s3_keepers.specs.Begun.{HasBuckets};
ghost use Rattle.s3_server.specs.Served.{WasAskedToListen, HasServedAs, HasServedAndTold, HasServedSo, IsToldInPart, IsToldPlace, most_rounds};

use crate::jobs::{Jobs, all_jobs};
use crate::logging::Logging;
use crate::report::ServerReport;
use crate::rounds::serve_rounds;
use crate::starting::start;
use crate::telling::tell_address;
use s3_bodies::Body;
use s3_config::Config;
use s3_devices::Device;
use s3_journal::Start;
use s3_keepers::{FolderKeeper, Keeper, MapKeeper, Opened};
use s3_records::{Records, numbers_stay_below};
use s3_settings::{Fault, Files, RecordsKind, ServeMode, ServeOptions, server_settings};
use s3_sockets::{Listener, Network};
use s3_storage::StorageFault;
use s3_store::Store;
use s3_terms::NoMemory;
use std::alloc::Global;
use std::io::Write;
use std::net::Net;
use std::sync::Wait;
use std::thread::Threads;
use std::time::{Clock, Instant};

// The status of a server that ended.
const DONE: u8 = 0;

// The status of a server that failed.
const FAILED: u8 = 1;

/// Starts a server as `options` say, serves until its end, and answers the exit status. `files` has the keys file, and
/// takes the log. Records are kept in maps, or as `tables` keeps them where the options ask for `sql`, or by `folders` where they
/// name a folder. The log gets one line for what was found in the folder, before the server listens, and one for each message, or
/// for its loss.
///
/// It listens once. Then it serves as many connections as are asked for, as often as is asked for: in each round workers of its own
/// have doors of their own, which are closed at its end, and the history begins anew at the store that the round before left. A
/// connection that comes between two rounds waits in the system's queue, and is served in the next.
///
/// `output` takes `listening ADDR` at the beginning, with the port that was taken, and `entries K` after each round: the number of
/// commands that the store answered in this round and those before.
///
/// The status is one of these:
///
/// - 0: the last connection that was asked for has ended, and `errors` takes nothing. A worker whose waiting fails ends with
///   its connections; the others go on. A round ends too after the last such worker. (No clause knows how many came.)
/// - 1: the server failed, also where a further round can't be begun. `errors` takes the line of the fault ([`Fault::tell`]), and
///   `output` has a beginning of its lines. Where the folder fails while the server runs, its workers end at once, with all their
///   connections: no answer is told that a crash may undo, and no number of entries of this round. (No clause knows when a folder
///   fails.)
///
/// For status 0, `served` says what the server has done, of the network that it was handed and of the report that it made: it listened
/// on the address of the options, and served as many rounds as they ask for, with a door for each worker in each; each socket that a
/// door handed out has its account in this round, and no account is of anything else; the entries of a round are those of its
/// connections, and each wrote what it has to; the entries of all rounds, joined, are one legal history of the store; and K is the
/// number of those so far. To be read is that `Network` binds the address that it was asked for, that `Door::accept`
/// notes each socket that the system hands out, and that `Recorded` notes what the system's socket did.
pub fn serve_words<
    R: Wait + Threads + Clock + Sync,
    N: Net,
    F: Files + Sync,
    Q: Keeper,
    D: FolderKeeper,
    W: Write,
    E: Device,
>(
    rt: &R,
    alloc: Global,
    options: &ServeOptions<'_>,
    files: &F,
    tables: &Q,
    folders: &mut D,
    network: &mut Network<'_, N>,
    report: &mut ServerReport,
    output: &mut W,
    errors: &mut E,
) -> u8
    ensures status { (result ≡ DONE) ⊎ (result ≡ FAILED) }
    ensures silent { result ≡ DONE → errors.new ≡ errors.old }
    ensures served { result ≡ DONE → HasServedAs (F.known files.now) options.now network.old network.new report.old report.new
        (W.contents output.old) (W.contents output.new) }
    ensures failed { result ≡ FAILED → (fault : Fault) × IsServeFault (F.known files.now) options.now fault
        × IsTold (E.traffic errors.old) (E.traffic errors.new) (line_of fault) }
    ensures begun { result ≡ FAILED → IsToldInPart (most_rounds options.now) (W.contents output.old) (W.contents output.new) }
{
    let served = serve(
        rt, alloc, options, files, tables, folders, network, report, output,
    );
    match served {
        Ok(()) => DONE,
        Err(fault) => {
            fault.tell(rt, errors);
            FAILED
        }
    }
}

// Serves as the options say.
#[tactic(auto, using(crate::proofs::ToldLemmas::telling))]
fn serve<
    'a,
    R: Wait + Threads + Clock + Sync,
    N: Net,
    F: Files + Sync,
    Q: Keeper,
    D: FolderKeeper,
    W: Write,
>(
    rt: &R,
    alloc: Global,
    options: &ServeOptions<'a>,
    files: &'a F,
    tables: &Q,
    folders: &mut D,
    network: &mut Network<'_, N>,
    report: &mut ServerReport,
    output: &mut W,
) -> Result<(), Fault<'a>>
    ensures served { OnOk result (HasServedAs (F.known files.now) options.now network.old network.new report.old report.new
        (W.contents output.old) (W.contents output.new)) }
    ensures refused { IfErr result (IsServeFault (F.known files.now) options.now) }
    ensures begun { OnErr result (IsToldInPart (most_rounds options.now) (W.contents output.old) (W.contents output.new)) }
{
    let (mode, records, config) = server_settings(alloc, options, files)?;
    serve_mode(
        rt, alloc, &mode, &config, files, records, tables, folders, network, report, output,
    )
}

// Serves with these settings, over records of a kind.
fn serve_mode<
    'a,
    R: Wait + Threads + Clock + Sync,
    N: Net,
    F: Files + Sync,
    Q: Keeper,
    D: FolderKeeper,
    W: Write,
>(
    rt: &R,
    alloc: Global,
    mode: &ServeMode<'a>,
    config: &Config,
    files: &'a F,
    records: RecordsKind,
    tables: &Q,
    folders: &mut D,
    network: &mut Network<'_, N>,
    report: &mut ServerReport,
    output: &mut W,
) -> Result<(), Fault<'a>>
    requires rounds { 1 ≤ mode.now.rounds }
    ensures served { OnOk result (HasServedSo config.now mode.now network.old network.new report.old report.new
        (W.contents output.old) (W.contents output.new)) }
    ensures refused { IfErr result (IsModeFault mode.now) }
    ensures begun { OnErr result (IsToldInPart mode.now.rounds (W.contents output.old) (W.contents output.new)) }
{
    let logging = Logging::asked(alloc, mode, files)?;
    let logging = logging.as_ref();
    match mode.folder {
        Some(path) => serve_folder(
            rt, alloc, mode, config, logging, path, folders, network, report, output,
        ),
        None => serve_kind(
            rt, alloc, mode, config, logging, records, tables, network, report, output,
        ),
    }
}

// The same over records in memory, of a kind.
fn serve_kind<'a, R: Wait + Threads + Clock + Sync, N: Net, F: Files + Sync, Q: Keeper, W: Write>(
    rt: &R,
    alloc: Global,
    mode: &ServeMode<'a>,
    config: &Config,
    logging: Option<&Logging<'a, F>>,
    records: RecordsKind,
    tables: &Q,
    network: &mut Network<'_, N>,
    report: &mut ServerReport,
    output: &mut W,
) -> Result<(), Fault<'a>>
    requires folder { mode.now.folder ≡ None }
    requires rounds { 1 ≤ mode.now.rounds }
    ensures served { OnOk result (HasServedSo config.now mode.now network.old network.new report.old report.new
        (W.contents output.old) (W.contents output.new)) }
    ensures refused { IfErr result (IsKeptFault mode.now) }
    ensures begun { OnErr result (IsToldInPart mode.now.rounds (W.contents output.old) (W.contents output.new)) }
{
    match records {
        RecordsKind::Map => serve_by(
            rt, alloc, mode, config, logging, &MapKeeper, network, report, output,
        ),
        RecordsKind::Sql => serve_by(
            rt, alloc, mode, config, logging, tables, network, report, output,
        ),
    }
}

// The same over the records that a keeper makes.
#[tactic(auto, using(crate::proofs::ToldLemmas::telling))]
fn serve_by<'a, R: Wait + Threads + Clock + Sync, N: Net, F: Files + Sync, Q: Keeper, W: Write>(
    rt: &R,
    alloc: Global,
    mode: &ServeMode<'a>,
    config: &Config,
    logging: Option<&Logging<'a, F>>,
    keeper: &Q,
    network: &mut Network<'_, N>,
    report: &mut ServerReport,
    output: &mut W,
) -> Result<(), Fault<'a>>
    requires folder { mode.now.folder ≡ None }
    requires rounds { 1 ≤ mode.now.rounds }
    ensures served { OnOk result (HasServedSo config.now mode.now network.old network.new report.old report.new
        (W.contents output.old) (W.contents output.new)) }
    ensures refused { IfErr result (IsKeptFault mode.now) }
    ensures begun { OnErr result (IsToldInPart mode.now.rounds (W.contents output.old) (W.contents output.new)) }
{
    let store = opened_store(alloc, keeper, config)?;
    serve_store(
        rt, alloc, mode, config, logging, store, network, report, output,
    )
}

// The same over the records in a folder.
#[tactic(auto, using(crate::proofs::ToldLemmas::telling))]
fn serve_folder<
    'a,
    R: Wait + Threads + Clock + Sync,
    N: Net,
    F: Files + Sync,
    D: FolderKeeper,
    W: Write,
>(
    rt: &R,
    alloc: Global,
    mode: &ServeMode<'a>,
    config: &Config,
    logging: Option<&Logging<'a, F>>,
    path: &'a str,
    folders: &mut D,
    network: &mut Network<'_, N>,
    report: &mut ServerReport,
    output: &mut W,
) -> Result<(), Fault<'a>>
    requires folder { mode.now.folder ≡ Some path }
    requires rounds { 1 ≤ mode.now.rounds }
    ensures served { OnOk result (HasServedSo config.now mode.now network.old network.new report.old report.new
        (W.contents output.old) (W.contents output.new)) }
    ensures refused { IfErr result (IsKeptFault mode.now) }
    ensures begun { OnErr result (IsToldInPart mode.now.rounds (W.contents output.old) (W.contents output.new)) }
{
    let store = found_store(rt, alloc, logging, folders, path, config)?;
    serve_store(
        rt, alloc, mode, config, logging, store, network, report, output,
    )
}

// The same with this store.
#[tactic(auto, using(crate::proofs::ToldLemmas::telling))]
fn serve_store<
    'a,
    K: Records + Drop + Send,
    R: Wait + Threads + Clock + Sync,
    N: Net,
    F: Files + Sync,
    W: Write,
>(
    rt: &R,
    alloc: Global,
    mode: &ServeMode<'a>,
    config: &Config,
    logging: Option<&Logging<'a, F>>,
    store: Store<K>,
    network: &mut Network<'_, N>,
    report: &mut ServerReport,
    output: &mut W,
) -> Result<(), Fault<'a>>
    requires rounds { 1 ≤ mode.now.rounds }
    ensures served { OnOk result (HasServedAndTold config.now store.standing mode.now.address.now mode.now.workers mode.now.rounds network.old network.new report.old report.new
        (W.contents output.old) (W.contents output.new)) }
    ensures refused { IfErr result (IsKeptFault mode.now) }
    ensures begun { OnErr result (IsToldInPart mode.now.rounds (W.contents output.old) (W.contents output.new)) }
{
    let first = store.number();
    let start = start(alloc, config, store, mode.workers)?;
    serve_start(
        rt, alloc, mode, config, logging, first, start, network, report, output,
    )
}

// A store over the records in a folder, of which the log tells what was found.
#[tactic(auto, using(crate::proofs::BaseLemmas::basing))]
fn found_store<'a, R: Clock, F: Files, D: FolderKeeper>(
    rt: &R,
    alloc: Global,
    logging: Option<&Logging<'a, F>>,
    folders: &mut D,
    path: &'a str,
    config: &Config,
) -> Result<Store<D::Kept>, Fault<'a>>
    ensures buckets { IfOk result (λ store. HasBuckets config.now.buckets store.standing.state) }
    ensures sound { IfOk result (λ store. IsSoundBase store.standing.state store.standing.number) }
    ensures refused { IfErr result (IsFolderFault (Some path.entry)) }
{
    let since = Instant::now(rt).ok();
    match folders.open(alloc, path, config.buckets()) {
        Ok(opened) => {
            let Opened {
                records,
                number,
                found,
                ..
            } = opened;
            Logging::tell_found(rt, alloc, logging, path, found, since);
            Ok(Store::over(records, number))
        }
        Err(StorageFault::NoMemory) => Err(Fault::OutOfMemory),
        Err(fault) => Err(Fault::CannotUse(path, fault)),
    }
}

// A store with the opening buckets, over the records that a keeper makes.
fn opened_store<Q: Keeper>(
    alloc: Global,
    keeper: &Q,
    config: &Config,
) -> Result<Store<Q::Kept>, NoMemory>
    ensures { IfOk result (λ store. store.standing ≡ opened (opening config.now.buckets)) }
{
    numbers_stay_below::<Body>();
    let records = keeper.keep(alloc, config.buckets())?;
    Ok(Store::over(records, 0))
}

// Serves from there, an entry of the first number being the next one: listens, tells where, and serves all rounds.
#[tactic(auto, using(crate::proofs::ToldLemmas::telling))]
fn serve_start<
    'a,
    K: Records + Drop + Send,
    R: Wait + Threads + Clock + Sync,
    N: Net,
    F: Files + Sync,
    W: Write,
>(
    rt: &R,
    alloc: Global,
    mode: &ServeMode<'a>,
    config: &Config,
    logging: Option<&Logging<'a, F>>,
    first: u64,
    start: Start<K>,
    network: &mut Network<'_, N>,
    report: &mut ServerReport,
    output: &mut W,
) -> Result<(), Fault<'a>>
    requires settings { start.base.settings ≡ config.now }
    requires first { first ≡ start.base.store.number }
    requires rounds { 1 ≤ mode.now.rounds }
    ensures served { OnOk result (HasServedAndTold config.now start.base.store mode.now.address.now mode.now.workers mode.now.rounds network.old network.new report.old report.new
        (W.contents output.old) (W.contents output.new)) }
    ensures refused { IfErr result (IsKeptFault mode.now) }
    ensures begun { OnErr result (IsToldInPart mode.now.rounds (W.contents output.old) (W.contents output.new)) }
{
    match listening(alloc, mode, network, output) {
        Ok((listener, jobs)) => serve_rounds(
            rt, alloc, mode, config, logging, first, start, jobs, &listener, network, report,
            output,
        ),
        Err(fault) => {
            drop(start);
            Err(fault)
        }
    }
}

// The listener on the address that was asked for, and what is to be done for the first who come, once the address is told.
#[tactic(auto, using(crate::proofs::ToldLemmas::telling))]
fn listening<'a, N: Net, W: Write>(
    alloc: Global,
    mode: &ServeMode<'a>,
    network: &mut Network<'_, N>,
    output: &mut W,
) -> Result<(Listener, Jobs), Fault<'a>>
    ensures listened { OnOk result (WasAskedToListen mode.now.address.now network.old network.new) }
    ensures workers { IfOk result (λ opened. length opened.1.opened.items ≡ mode.now.workers) }
    ensures told { OnOk result (IsToldPlace (W.contents output.old) (W.contents output.new)) }
    ensures refused { IfErr result (IsToldFault mode.now.address) }
    ensures begun { OnErr result (IsToldInPart mode.now.rounds (W.contents output.old) (W.contents output.new)) }
{
    let listener = listen(mode.address, network)?;
    match jobs_told(alloc, mode, &listener, network, output) {
        Ok(jobs) => Ok((listener, jobs)),
        Err(fault) => {
            drop(listener);
            Err(fault)
        }
    }
}

// What is to be done for those who come to a listener, whose address is told then.
#[tactic(auto, using(crate::proofs::ToldLemmas::telling))]
fn jobs_told<'a, N: Net, W: Write>(
    alloc: Global,
    mode: &ServeMode<'a>,
    listener: &Listener,
    network: &mut Network<'_, N>,
    output: &mut W,
) -> Result<Jobs, Fault<'a>>
    ensures workers { IfOk result (λ jobs. length jobs.opened.items ≡ mode.now.workers) }
    ensures asked { network.new.asked ≡ network.old.asked }
    ensures closed { network.new.closed ≡ network.old.closed }
    ensures told { OnOk result (IsToldPlace (W.contents output.old) (W.contents output.new)) }
    ensures refused { IfErr result (IsToldFault mode.now.address) }
    ensures begun { OnErr result (IsToldInPart mode.now.rounds (W.contents output.old) (W.contents output.new)) }
{
    let jobs = all_jobs(alloc, mode, listener, network)?;
    match tell_address(alloc, mode, listener, output) {
        Ok(()) => Ok(jobs),
        Err(fault) => {
            drop(jobs);
            Err(fault)
        }
    }
}

// Listens on this address.
fn listen<'a, N: Net>(address: &'a str, network: &mut Network<'_, N>) -> Result<Listener, Fault<'a>>
    ensures listened { WasAskedToListen address.now network.old network.new }
    ensures refused { IfErr result (λ fault. fault ≡ Fault.CannotListen address.entry) }
{
    match network.listen(address) {
        Ok(listener) => Ok(listener),
        Err(_) => Err(Fault::CannotListen(address)),
    }
}
