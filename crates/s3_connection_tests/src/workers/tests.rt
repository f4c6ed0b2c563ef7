//! All that is tested at one server.
use crate::checks::{check, check_none};
use crate::workers::batches::first_other_batch;
use crate::workers::connections::first_other_connection;
use crate::workers::journal::two_seats_are_answered;
use crate::workers::limits::waits_are_limited;
use crate::workers::lines::{losses_are_told, messages_are_told};
use crate::workers::seats::{old_bytes_are_sent, seats_work};
use crate::workers::served::config;
use crate::workers::turns::two_take_turns;
use crate::workers::within::waits_are_told;
use crate::workers::worlds::first_other_world;
use s3_config::Config;
use s3_driver::Driver;
use s3_journal::Seat;
use std::alloc::Global;
use std::marker::Brand;
use std::mem::{drop, size_of};
use std::sync::Wait;
use std::test::*;
use std::thread::Threads;
use std::time::Clock;

// The name of the first that comes out in another way.
fn first_other<R: Threads + Wait + Clock + Sync>(
    rt: &R,
    alloc: Global,
    config: &Config,
) -> Option<&'static str> {
    if !two_seats_are_answered(alloc, config) {
        return Some("two seats of a recorded store");
    }
    if !seats_work(rt, alloc, config) {
        return Some("seats of a shared store in threads");
    }
    if !old_bytes_are_sent(rt, alloc, config) {
        return Some("old bytes of an object that is replaced");
    }
    if !two_take_turns(alloc, config) {
        return Some("two connections in turns");
    }
    if !waits_are_told(alloc, config) {
        return Some("what a connection waits for");
    }
    if !waits_are_limited(rt) {
        return Some("limits of time");
    }
    if !messages_are_told(rt, alloc, config) {
        return Some("lines of a log");
    }
    if !losses_are_told(rt, alloc, config) {
        return Some("lines of a log that can't be written");
    }
    if let Some(name) = first_other_world(alloc, config) {
        return Some(name);
    }
    if let Some(name) = first_other_batch(rt, alloc, config) {
        return Some(name);
    }
    first_other_connection(rt, alloc, config)
}

// The same at a server of its own.
fn first_other_anew<R: Threads + Wait + Clock + Sync>(
    rt: &R,
    alloc: Global,
) -> Option<&'static str> {
    match config(alloc) {
        Some(config) => {
            let other = first_other(rt, alloc, &config);
            drop(config);
            other
        }
        None => Some("the settings"),
    }
}

// For how many bytes of a head an idle connection keeps memory at most.
const HEAD_ROOM: usize = 1_024;

#[test]
fn all_comes_out(rt: HostRuntime) {
    let other = first_other_anew(&rt, rt.alloc());
    check_none(&rt, other);
    check(
        &rt,
        size_of::<Driver>() + HEAD_ROOM <= 4_096 && size_of::<Seat<Brand>>() == 16,
        "sizes",
    );
}
