//! The rounds of a server: each serves the connections that were asked for, and goes on with the store that the one before left.

ghost use Rattle.std.specs.Prelude.{◌≡◌, ◌⊎◌, ◌*◌, ◌≤◌, ◌-◌, length, Ok, IfOk, IfErr, OnErr, OnOk};
ghost use Rattle.std.specs.Io.KnownBytes.{Appends};
ghost use Rattle.s3_machine.specs.Rules.{rules_of};
ghost use Rattle.s3_journal.specs.SharedStore.{seats_each};
ghost use Rattle.s3_journal.specs.RecordedStore.{Journal};
ghost use Rattle.s3_server.specs.Serve.{IsFolderFault, IsKeptFault};
ghost use Rattle.s3_server.specs.Served.{AreCountedInPart, HasWorked, IsCountedInPart, SoManyHaveWorked, entries_line};

use crate::jobs::{Jobs, all_jobs};
use crate::logging::Logging;
use crate::report::ServerReport;
use crate::running::run;
use crate::slots::Slots;
use crate::starting::folded;
use crate::telling::tell_entries;
use s3_config::Config;
use s3_journal::{RecordedStore, Start};
use s3_machine::histories_are_cut_anywhere;
use s3_records::Records;
use s3_settings::{Fault, Files, ServeMode};
use s3_sockets::{Listener, Network};
use s3_storage::StorageFault;
use s3_terms::NoMemory;
use std::alloc::Global;
use std::io::Write;
use std::marker::Brand;
use std::net::Net;
use std::sync::Wait;
use std::thread::Threads;
use std::time::Clock;

/// Serves all rounds that were asked for, the first from there and with these jobs. `first` is the number of its first entry. After
/// each round it tells how many entries there are since.
pub(crate) fn serve_rounds<
    'a,
    K: Records + Drop + Send,
    R: Wait + Threads + Clock + Sync,
    N: Net,
    F: Files + Sync,
    W: Write,
>(
    rt: &R,
    alloc: Global,
    mode: &ServeMode<'a>,
    config: &Config,
    logging: Option<&Logging<'a, F>>,
    first: u64,
    start: Start<K>,
    jobs: Jobs,
    listener: &Listener,
    network: &mut Network<'_, N>,
    report: &mut ServerReport,
    output: &mut W,
) -> Result<(), Fault<'a>>
    requires settings { start.base.settings ≡ config.now }
    requires first { first ≡ start.base.store.number }
    requires workers { length jobs.opened.items ≡ mode.now.workers }
    requires rounds { 1 ≤ mode.now.rounds }
    ensures worked { OnOk result ((left : Journal) × SoManyHaveWorked mode.now.rounds config.now start.base.store mode.now.workers
        network.old network.new report.old report.new (W.contents output.old) (W.contents output.new) left) }
    ensures refused { IfErr result (IsKeptFault mode.now) }
    ensures begun { OnErr result (AreCountedInPart mode.now.rounds (W.contents output.old) (W.contents output.new)) }
{
    histories_are_cut_anywhere();
    let mut left = serve_round(
        rt, alloc, mode, config, logging, first, start, jobs, network, report, output,
    )?;
    for _ in 1..mode.rounds {
        left = serve_next(
            rt, alloc, mode, config, logging, first, left, listener, network, report, output,
        )?;
    }
    drop(left);
    Ok(())
}

// Serves the round that follows the one which left this store, with a log of its own, if there is one.
#[tactic(auto, using(crate::proofs::ToldLemmas::telling))]
fn serve_next<
    'a,
    K: Records + Drop + Send,
    R: Wait + Threads + Clock + Sync,
    N: Net,
    F: Files + Sync,
    W: Write,
>(
    rt: &R,
    alloc: Global,
    mode: &ServeMode<'a>,
    config: &Config,
    logging: Option<&Logging<'a, F>>,
    first: u64,
    left: RecordedStore<K>,
    listener: &Listener,
    network: &mut Network<'_, N>,
    report: &mut ServerReport,
    output: &mut W,
) -> Result<RecordedStore<K>, Fault<'a>>
    requires rules { left.rules ≡ rules_of config.now }
    requires first { first ≤ left.store.number }
    ensures worked { IfOk result (HasWorked config.now left.store mode.now.workers network.old network.new report.old report.new) }
    ensures told { IfOk result (λ next. Appends (W.contents output.old) (W.contents output.new) (entries_line (next.store.number - first))) }
    ensures refused { IfErr result (IsKeptFault mode.now) }
    ensures begun { OnErr result (IsCountedInPart first left.store.number (W.contents output.old) (W.contents output.new)) }
{
    match Logging::again(alloc, logging) {
        Ok(again) => serve_again(
            rt,
            alloc,
            mode,
            config,
            again.as_ref(),
            first,
            left,
            listener,
            network,
            report,
            output,
        ),
        Err(NoMemory) => {
            drop(left);
            Err(Fault::OutOfMemory)
        }
    }
}

// The same with this log. The history begins anew before it.
#[tactic(auto, using(crate::proofs::ToldLemmas::telling))]
fn serve_again<
    'a,
    K: Records + Drop + Send,
    R: Wait + Threads + Clock + Sync,
    N: Net,
    F: Files + Sync,
    W: Write,
>(
    rt: &R,
    alloc: Global,
    mode: &ServeMode<'a>,
    config: &Config,
    logging: Option<&Logging<'a, F>>,
    first: u64,
    left: RecordedStore<K>,
    listener: &Listener,
    network: &mut Network<'_, N>,
    report: &mut ServerReport,
    output: &mut W,
) -> Result<RecordedStore<K>, Fault<'a>>
    requires rules { left.rules ≡ rules_of config.now }
    requires first { first ≤ left.store.number }
    ensures worked { IfOk result (HasWorked config.now left.store mode.now.workers network.old network.new report.old report.new) }
    ensures told { IfOk result (λ next. Appends (W.contents output.old) (W.contents output.new) (entries_line (next.store.number - first))) }
    ensures refused { IfErr result (IsKeptFault mode.now) }
    ensures begun { OnErr result (IsCountedInPart first left.store.number (W.contents output.old) (W.contents output.new)) }
{
    let start = folded(config, left, mode.workers)?;
    match all_jobs(alloc, mode, listener, network) {
        Ok(jobs) => serve_round(
            rt, alloc, mode, config, logging, first, start, jobs, network, report, output,
        ),
        Err(fault) => {
            drop(start);
            Err(fault)
        }
    }
}

// Serves a round from there, and tells how many entries there are from the one of the first number on.
#[tactic(auto, using(crate::proofs::ToldLemmas::telling))]
fn serve_round<
    'a,
    K: Records + Drop + Send,
    R: Wait + Threads + Clock + Sync,
    N: Net,
    F: Files + Sync,
    W: Write,
>(
    rt: &R,
    alloc: Global,
    mode: &ServeMode<'a>,
    config: &Config,
    logging: Option<&Logging<'a, F>>,
    first: u64,
    start: Start<K>,
    jobs: Jobs,
    network: &mut Network<'_, N>,
    report: &mut ServerReport,
    output: &mut W,
) -> Result<RecordedStore<K>, Fault<'a>>
    requires settings { start.base.settings ≡ config.now }
    requires first { first ≤ start.base.store.number }
    requires workers { length jobs.opened.items ≡ mode.now.workers }
    ensures worked { IfOk result (HasWorked config.now start.base.store mode.now.workers network.old network.new report.old report.new) }
    ensures told { IfOk result (λ left. Appends (W.contents output.old) (W.contents output.new) (entries_line (left.store.number - first))) }
    ensures refused { IfErr result (IsKeptFault mode.now) }
    ensures begun { OnErr result (IsCountedInPart first start.base.store.number (W.contents output.old) (W.contents output.new)) }
{
    let left = worked(
        rt, alloc, mode, config, logging, start, jobs, network, report,
    )?;
    told(alloc, first, left, output)
}

// Tells how many entries there are from the one of the first number on, and hands out the store.
fn told<'a, K: Records + Drop, W: Write>(
    alloc: Global,
    first: u64,
    left: RecordedStore<K>,
    output: &mut W,
) -> Result<RecordedStore<K>, Fault<'a>>
    requires first { first ≤ left.store.number }
    ensures same { IfOk result (λ store. store ≡ left) }
    ensures told { OnOk result (Appends (W.contents output.old) (W.contents output.new) (entries_line (left.store.number - first))) }
    ensures refused { IfErr result (λ fault. (fault ≡ Fault.OutOfMemory) ⊎ (fault ≡ Fault.OutputFailed)) }
    ensures begun { OnErr result (IsCountedInPart first left.store.number (W.contents output.old) (W.contents output.new)) }
{
    match tell_entries(alloc, left.store().number() - first, output) {
        Ok(()) => Ok(left),
        Err(fault) => {
            drop(left);
            Err(fault)
        }
    }
}

// Has all the work of a round done, and hands out the store that it leaves.
fn worked<'a, K: Records + Drop + Send, R: Wait + Threads + Clock + Sync, N: Net, F: Files + Sync>(
    rt: &R,
    alloc: Global,
    mode: &ServeMode<'a>,
    config: &Config,
    logging: Option<&Logging<'a, F>>,
    start: Start<K>,
    jobs: Jobs,
    network: &mut Network<'_, N>,
    report: &mut ServerReport,
) -> Result<RecordedStore<K>, Fault<'a>>
    requires settings { start.base.settings ≡ config.now }
    ensures worked { IfOk result (HasWorked config.now start.base.store (length jobs.opened.items) network.old network.new report.old report.new) }
    ensures refused { IfErr result (IsFolderFault mode.now.folder) }
{
    let slots = Slots::new(mode.connections, mode.most_held);
    let left = run_all(
        rt, alloc, config, &slots, logging, start, jobs, network, report,
    );
    left_of(mode.folder, &slots, left)
}

// The store that a round leaves, where what keeps the records hasn't failed, and there was memory.
fn left_of<'a, K: Records + Drop>(
    folder: Option<&'a str>,
    slots: &Slots,
    left: Result<RecordedStore<K>, NoMemory>,
) -> Result<RecordedStore<K>, Fault<'a>>
    ensures same { IfOk result (λ store. left ≡ Ok store) }
    ensures refused { IfErr result (IsFolderFault folder.entry) }
{
    if slots.has_failed() {
        drop(left);
        return Err(keeper_fault(folder));
    }
    Ok(left?)
}

// Why a server fails where what keeps the records has failed. Without a folder it is in memory, of which there is no more then.
fn keeper_fault<'a>(folder: Option<&'a str>) -> Fault<'a>
    ensures { IsFolderFault folder.entry result }
{
    match folder {
        Some(path) => Fault::CannotUse(path, StorageFault::Failed),
        None => Fault::OutOfMemory,
    }
}

// Has each of these done in a thread of its own, and hands out the store that is left.
fn run_all<K: Records + Drop + Send, R: Wait + Threads + Clock + Sync, N: Net, F: Files + Sync>(
    rt: &R,
    alloc: Global,
    config: &Config,
    slots: &Slots,
    logging: Option<&Logging<'_, F>>,
    start: Start<K>,
    jobs: Jobs,
    network: &mut Network<'_, N>,
    report: &mut ServerReport,
) -> Result<RecordedStore<K>, NoMemory>
    requires settings { start.base.settings ≡ config.now }
    ensures worked { IfOk result (HasWorked config.now start.base.store (length jobs.opened.items) network.old network.new report.old report.new) }
{
    run::<Brand, K, R, N, F>(
        rt, alloc, config, slots, logging, start, jobs, network, report,
    )
}
