//! The threads of a server, from the opening of its store to its close.

ghost use Rattle.std.specs.Prelude.{◌≡◌, ◌*◌, [], length, IfOk, IfSome, OnOk};
ghost use Rattle.s3_journal.specs.SharedStore.{seats_each};
ghost use Rattle.s3_journal.specs.Gone.{IsClosed};
ghost use Rattle.s3_journal.specs.Roster.{AreBack, AreNew, NobodyIsOut, all_gone};
ghost use Rattle.s3_driver.specs.Account.{Fits};
ghost use Rattle.s3_sockets.specs.Network.{AllAreClosed};
ghost use Rattle.s3_server.specs.Served.{HasLeft, HasWorked, HaveClosed};

use crate::jobs::{Jobs, Opened};
use crate::logging::Logging;
use crate::report::ServerReport;
use crate::slots::Slots;
use crate::worker::{Means, Worker};
use s3_config::Config;
use s3_driver::Account;
use s3_journal::{Closed, Ground, RecordedStore, Roster, SharedStore, Start};
use s3_log::{Log, LogWriter};
use s3_records::Records;
use s3_settings::Files;
use s3_sockets::{Door, Network, Service, Sharing, WorkerClock};
use s3_terms::NoMemory;
use std::alloc::Global;
use std::net::Net;
use std::sync::Wait;
use std::thread::{self, Threads};
use std::time::Clock;

/// Has all of this done at the shared store of a brand, a thread each, and hands out the store that is left, with its history.
/// `NoMemory` comes too where a worker's door isn't back, or a connection hasn't left by it, though none is kept.
pub(crate) fn run<
    J: Ground + Send + Sync,
    K: Records + Drop + Send,
    R: Wait + Threads + Clock + Sync,
    N: Net,
    F: Files + Sync,
>(
    rt: &R,
    alloc: Global,
    config: &Config,
    slots: &Slots,
    logging: Option<&Logging<'_, F>>,
    start: Start<K>,
    jobs: Jobs,
    network: &mut Network<'_, N>,
    report: &mut ServerReport,
) -> Result<RecordedStore<K>, NoMemory>
    requires name { J.name ≡ start.name }
    requires base { J.base ≡ start.base }
    requires parts { J.parts ≡ start.rosters * seats_each }
    requires settings { J.base.settings ≡ config.now }
    ensures worked { IfOk result (HasWorked config.now J.base.store (length jobs.opened.items) network.old network.new report.old report.new) }
{
    let (shared, rosters) = SharedStore::<J, K>::open::<Account>(alloc, start)?;
    let back = all_back(
        rt, alloc, config, slots, &shared, logging, jobs, rosters, network,
    );
    match back {
        Ok(rosters) => end(config, report, shared, rosters),
        Err(none) => {
            drop(shared);
            Err(none)
        }
    }
}

// Has all of this done at a shared store with these rosters, and hands the rosters out once all doors are closed.
fn all_back<
    J: Ground + Send + Sync,
    K: Records + Drop + Send,
    R: Wait + Threads + Clock + Sync,
    N: Net,
    F: Files + Sync,
>(
    rt: &R,
    alloc: Global,
    config: &Config,
    slots: &Slots,
    shared: &SharedStore<J, K>,
    logging: Option<&Logging<'_, F>>,
    jobs: Jobs,
    rosters: Vec<Roster<J, Account>>,
    network: &mut Network<'_, N>,
) -> Result<Vec<Roster<J, Account>>, NoMemory>
    requires new { AreNew 0 rosters.items }
    requires settings { J.base.settings ≡ config.now }
    ensures closed { IfOk result (λ rosters. HaveClosed network.old network.new rosters.items) }
    ensures all { OnOk result (AllAreClosed network.new) }
    ensures each { IfOk result (λ rosters. length rosters.items ≡ length jobs.opened.items) }
{
    let workers = jobs.opened.len();
    let tasks = tasks(alloc, jobs, rosters)?;
    let doors = work_all(rt, alloc, config, slots, shared, logging, tasks)?;
    let rosters = close_doors(alloc, network, doors)?;
    if network.is_closed() && rosters.len() == workers {
        Ok(rosters)
    } else {
        drop(rosters);
        Err(NoMemory)
    }
}

// Ends a shared store whose rosters have come back, reports what it left, and hands that out.
fn end<J: Ground, K: Records + Drop>(
    config: &Config,
    report: &mut ServerReport,
    shared: SharedStore<J, K>,
    rosters: Vec<Roster<J, Account>>,
) -> Result<RecordedStore<K>, NoMemory>
    requires settings { J.base.settings ≡ config.now }
    ensures left { IfOk result (HasLeft config.now J.base.store (all_gone rosters.items) report.old report.new) }
    ensures back { OnOk result (AreBack 0 rosters.items) }
{
    match shared.close::<Account>(rosters) {
        Some(closed) => Ok(tell_left(config, report, closed)),
        None => Err(NoMemory),
    }
}

// Reports what a shared store left, and hands that out.
#[tactic(auto, using(crate::proofs::ServedLemmas::has_left))]
fn tell_left<J: Ground, K: Records + Drop>(
    config: &Config,
    report: &mut ServerReport,
    closed: Closed<J, K, Account>,
) -> RecordedStore<K>
    requires closed { IsClosed (Fits J.base.settings) J.base closed.recorded_store (all_gone closed.rosters.value.items) }
    requires settings { J.base.settings ≡ config.now }
    ensures left { HasLeft config.now J.base.store (all_gone closed.rosters.value.items) report.old report.new result }
{
    let _ = config;
    report.tell(&closed);
    let Closed {
        recorded_store,
        rosters: _,
    } = closed;
    recorded_store
}

// What one thread does.
#[derive(Drop)]
enum Task<J: Ground> {
    // The work of the worker of a number, which are counted from 0.
    Work(usize, Means, Door<J>),
    // The writing of the log.
    Write(LogWriter),
}

// These jobs, with a door for each worker, the last first. The writing of the log stands behind them, so that it doesn't stand
// in front of a worker for which the system makes no thread.
fn tasks<J: Ground>(
    alloc: Global,
    jobs: Jobs,
    rosters: Vec<Roster<J, Account>>,
) -> Result<Vec<Task<J>>, NoMemory>
    requires new { AreNew 0 rosters.items }
{
    let Jobs { opened, writer } = jobs;
    let mut tasks = work_tasks(alloc, opened, rosters)?;
    if let Some(writer) = writer {
        tasks.push(Task::Write(writer))?;
    }
    Ok(tasks)
}

// The work of each worker, the last first.
fn work_tasks<J: Ground>(
    alloc: Global,
    opened: Vec<Opened>,
    rosters: Vec<Roster<J, Account>>,
) -> Result<Vec<Task<J>>, NoMemory>
    requires new { AreNew 0 rosters.items }
{
    let mut tasks = Vec::with_capacity(alloc, opened.len())?;
    let (mut opened, mut rosters) = (opened, rosters);
    while let Some(roster) = rosters.pop() {
        let Some(one) = opened.pop() else {
            return Err(NoMemory);
        };
        tasks.push(work_task(opened.len(), one, roster))?;
    }
    Ok(tasks)
}

// The work of the worker of this number, to which nobody has come.
fn work_task<J: Ground>(number: usize, opened: Opened, roster: Roster<J, Account>) -> Task<J>
    requires nobody { NobodyIsOut roster }
    requires nobody_left { roster.gone ≡ [] }
{
    let Opened { means, entrance } = opened;
    Task::Work(number, means, Door::new(entrance, roster))
}

// Has all of these done, and hands out the doors.
fn work_all<
    J: Ground + Send + Sync,
    K: Records + Drop + Send,
    R: Wait + Threads + Clock + Sync,
    F: Files + Sync,
>(
    rt: &R,
    alloc: Global,
    config: &Config,
    slots: &Slots,
    shared: &SharedStore<J, K>,
    logging: Option<&Logging<'_, F>>,
    tasks: Vec<Task<J>>,
) -> Result<Vec<Door<J>>, NoMemory>
    requires settings { J.base.settings ≡ config.now }
{
    let mut doors = Vec::with_capacity(alloc, tasks.len())?;
    let worked = thread::map_vec(
        rt,
        tasks,
        &|task: Task<J>| { does(rt, alloc, config, slots, shared, logging, task) },
    )?;
    for door in worked {
        if let Some(door) = door {
            doors.push(door)?;
        }
    }
    Ok(doors)
}

// Closes the doors, the last first, and hands out their rosters in this order.
fn close_doors<J: Ground, N: Net>(
    alloc: Global,
    network: &mut Network<'_, N>,
    doors: Vec<Door<J>>,
) -> Result<Vec<Roster<J, Account>>, NoMemory>
    ensures closed { IfOk result (λ rosters. HaveClosed network.old network.new rosters.items) }
{
    let mut rosters = Vec::with_capacity(alloc, doors.len())?;
    let mut doors = doors;
    while let Some(door) = doors.pop() {
        let Some(roster) = network.close_door(door) else {
            return Err(NoMemory);
        };
        rosters.push(roster)?;
    }
    Ok(rosters)
}

// Does one of these to its end, and hands out its door, if it is a worker's.
fn does<J: Ground, K: Records + Drop, R: Wait + Clock, F: Files>(
    rt: &R,
    alloc: Global,
    config: &Config,
    slots: &Slots,
    shared: &SharedStore<J, K>,
    logging: Option<&Logging<'_, F>>,
    task: Task<J>,
) -> Option<Door<J>>
    requires settings { J.base.settings ≡ config.now }
{
    match task {
        Task::Work(number, means, door) => {
            let log = log_of(logging, number);
            Some(works(rt, alloc, config, slots, shared, log, means, door))
        }
        Task::Write(writer) => {
            if let Some(logging) = logging {
                logging.write(rt, alloc, writer);
            }
            None
        }
    }
}

// The log of the worker of this number, if there is one.
fn log_of<'l, F: Files>(logging: Option<&'l Logging<'_, F>>, number: usize) -> Option<&'l Log> {
    match logging {
        Some(logging) => logging.log(number),
        None => None,
    }
}

// Has a worker with these means work to its end. It tells no more then.
fn works<J: Ground, K: Records + Drop, R: Wait + Clock>(
    rt: &R,
    alloc: Global,
    config: &Config,
    slots: &Slots,
    shared: &SharedStore<J, K>,
    log: Option<&Log>,
    means: Means,
    door: Door<J>,
) -> Door<J>
    requires settings { J.base.settings ≡ config.now }
{
    let sharing = Sharing::new(rt, alloc, config, shared, log);
    let door = works_with(&sharing, slots, means, door);
    if let Some(log) = log {
        log.leave(rt);
    }
    door
}

// The same with what serves its connections. There is no worker without a clock.
fn works_with<S: Service>(service: &S, slots: &Slots, means: Means, door: S::Door) -> S::Door {
    match WorkerClock::new() {
        Some(clock) => Worker::new(service, slots, means, clock, door).work(),
        None => door,
    }
}
