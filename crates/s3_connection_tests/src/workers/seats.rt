//! Those who share a store, each in a thread of its own.
ghost use Rattle.std.specs.Prelude.{◌≡◌, ◌*◌};
ghost use Rattle.s3_journal.specs.SharedStore.{seats_each};

use crate::workers::gate_overlap::{Marks, overlaps};
use crate::workers::old_bytes::replaces;
use crate::workers::play::{PLAYERS, finds_others, plays};
use crate::workers::served::store;
use crate::workers::shared_store_handle::leave;
use s3_config::Config;
use s3_journal::{Ground, Roster, SharedStore, Start};
use s3_records::MapRecords;
use std::alloc::Global;
use std::marker::Brand;
use std::mem::drop;
use std::sync::Wait;
use std::thread;
use std::thread::Threads;
use std::time::Clock;

// What those do who share a store.
#[derive(Clone, Copy)]
enum Work<'a> {
    // Each puts and gets under its own key.
    Play,
    // Each serves the connection of its number, of which one is held inside its body.
    Overlap(&'a Config, &'a Marks),
    // The same, where one is held behind the head of a reply.
    Replace(&'a Config, &'a Marks),
}

// One of those who share a store: their number, the roster that they come to, and whether all went well.
#[derive(Drop)]
struct Sharer<J: Ground> {
    number: u64,
    roster: Roster<J, ()>,
    went_well: bool,
}

// Whether all goes well with the player of this number, who comes, puts and gets, and leaves.
fn plays_once<J: Ground>(
    rt: &impl Wait,
    alloc: Global,
    shared: &SharedStore<J, MapRecords>,
    roster: &mut Roster<J, ()>,
    number: u64,
) -> bool {
    let Ok(mut seat) = roster.seat() else {
        return false;
    };
    let went_well = plays(rt, alloc, shared, &mut seat, number);
    leave(seat, roster);
    went_well
}

// Whether one who comes last finds what the others have put, and whoever comes then has seen no other history.
fn reads_back<J: Ground>(
    rt: &impl Wait,
    alloc: Global,
    shared: &SharedStore<J, MapRecords>,
    roster: &mut Roster<J, ()>,
) -> bool {
    let (Ok(mut first), Ok(second)) = (roster.seat(), roster.seat()) else {
        return false;
    };
    let finds = finds_others(rt, alloc, shared, &mut first);
    first.meet(&second);
    leave(first, roster);
    leave(second, roster);
    finds
}

// Whether all goes well with the one of this number.
fn goes_well<J: Ground, R: Wait + Clock>(
    rt: &R,
    alloc: Global,
    shared: &SharedStore<J, MapRecords>,
    roster: &mut Roster<J, ()>,
    work: &Work<'_>,
    number: u64,
) -> bool {
    match work {
        Work::Play => plays_once(rt, alloc, shared, roster, number),
        Work::Overlap(config, marks) => overlaps(rt, alloc, shared, roster, config, marks, number),
        Work::Replace(config, marks) => replaces(rt, alloc, shared, roster, config, marks, number),
    }
}

// Has one of them do their work.
fn works<J: Ground, R: Wait + Clock>(
    rt: &R,
    alloc: Global,
    shared: &SharedStore<J, MapRecords>,
    work: &Work<'_>,
    sharer: Sharer<J>,
) -> Sharer<J> {
    let Sharer {
        number,
        mut roster,
        ..
    } = sharer;
    let went_well = goes_well(rt, alloc, shared, &mut roster, work, number);
    Sharer {
        number,
        roster,
        went_well,
    }
}

// One for each roster, in their order.
fn sharers<J: Ground>(alloc: Global, rosters: Vec<Roster<J, ()>>) -> Vec<Sharer<J>> {
    let mut sharers = Vec::new(alloc);
    for roster in rosters {
        let number = sharers.len() as u64;
        drop(sharers.push(Sharer {
            number,
            roster,
            went_well: false,
        }));
    }
    sharers
}

// Has all do their work, each in a thread of its own, and hands out the rosters of those with whom all went well.
fn all_work<J: Ground + Send + Sync, R: Threads + Wait + Clock + Sync>(
    rt: &R,
    alloc: Global,
    shared: &SharedStore<J, MapRecords>,
    work: &Work<'_>,
    rosters: Vec<Roster<J, ()>>,
) -> Vec<Roster<J, ()>> {
    let mut left = Vec::new(alloc);
    let sharers = sharers(alloc, rosters);
    let worked = thread::map_vec(
        rt,
        sharers,
        &|sharer: Sharer<J>| { works(rt, alloc, shared, work, sharer) },
    );
    if let Ok(worked) = worked {
        for sharer in worked {
            let Sharer {
                roster,
                went_well,
                ..
            } = sharer;
            if went_well {
                drop(left.push(roster));
            }
        }
    }
    left
}

// How many entries a shared store leaves, where all went well: one that lacks a roster can't be closed.
fn entries_of<J: Ground + Send + Sync, R: Threads + Wait + Clock + Sync>(
    rt: &R,
    alloc: Global,
    shared: SharedStore<J, MapRecords>,
    rosters: Vec<Roster<J, ()>>,
    work: &Work<'_>,
) -> Option<u64> {
    let mut rosters = all_work(rt, alloc, &shared, work, rosters);
    let is_found = match (work, rosters.last_mut()) {
        (Work::Play, Some(roster)) => reads_back(rt, alloc, &shared, roster),
        (Work::Play, None) => false,
        (_, _) => true,
    };
    match shared.close::<()>(rosters) {
        Some(closed) if is_found => Some(closed.recorded_store.entries()),
        _ => None,
    }
}

// The same at a shared store that is to be opened.
fn entries_left<J: Ground + Send + Sync, R: Threads + Wait + Clock + Sync>(
    rt: &R,
    alloc: Global,
    start: Start<MapRecords>,
    work: &Work<'_>,
) -> Option<u64>
    requires name { J.name ≡ start.name }
    requires base { J.base ≡ start.base }
    requires parts { J.parts ≡ start.rosters * seats_each }
{
    match SharedStore::<J, MapRecords>::open::<()>(alloc, start) {
        Ok((shared, rosters)) => entries_of(rt, alloc, shared, rosters, work),
        Err(_) => None,
    }
}

// The same at a shared store over a new store, of so many rosters.
fn entries_of_new<R: Threads + Wait + Clock + Sync>(
    rt: &R,
    alloc: Global,
    config: &Config,
    work: &Work<'_>,
    rosters: u16,
) -> Option<u64> {
    match Start::new(alloc, config, store(alloc, config)?, rosters) {
        Ok(start) => entries_left::<Brand, R>(rt, alloc, start, work),
        Err(_) => None,
    }
}

/// Whether those that play leave so many entries, and those that serve, both of whose waits end because what they wait for comes.
pub(crate) fn seats_work<R: Threads + Wait + Clock + Sync>(
    rt: &R,
    alloc: Global,
    config: &Config,
) -> bool {
    let marks = Marks::new();
    let played = entries_of_new(rt, alloc, config, &Work::Play, PLAYERS);
    let served = entries_of_new(rt, alloc, config, &Work::Overlap(config, &marks), 2);
    played == Some(1_607) && served == Some(2) && marks.met() == 2
}

/// Whether a reply that is on its way has the bytes that stood there when it was made, though they are replaced meanwhile.
pub(crate) fn old_bytes_are_sent<R: Threads + Wait + Clock + Sync>(
    rt: &R,
    alloc: Global,
    config: &Config,
) -> bool {
    let marks = Marks::new();
    let replaced = entries_of_new(rt, alloc, config, &Work::Replace(config, &marks), 2);
    replaced == Some(3) && marks.met() == 2
}
