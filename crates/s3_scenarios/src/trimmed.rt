//! Events without what is refused leave the same entries, and the same outputs of the connections that are kept.

use s3_config::Config;
use s3_events::{Event, Script, read_events};
use s3_records::MapRecords;
use s3_simulation::{World, run, trim};
use s3_store::Store;
use std::alloc::Global;
use std::mem::drop;

// The connections after these events, over a store of their own.
fn world_after<'a>(
    alloc: Global,
    config: &'a Config,
    script: &'a Script,
    events: &[Event],
) -> Option<World<'a, MapRecords>> {
    let store = Store::open(alloc, config.buckets()).ok()?;
    run(alloc, config, store, script.moments.as_slice(), events).ok()
}

// Whether a connection is left out of these events.
fn is_dropped(events: &[Event], connection: u32) -> bool {
    !events.iter().any(|event| event.connection() == connection)
}

// Whether this is what a connection wrote.
fn has_written(world: &World<'_, MapRecords>, connection: u32, wanted: &[u8]) -> bool {
    match world.out(connection) {
        Ok(out) => out.as_slice() == wanted,
        Err(_) => false,
    }
}

// Whether a connection wrote the same in both, or nothing with the events from which it is dropped.
fn wrote_same(
    whole: &World<'_, MapRecords>,
    trimmed: &World<'_, MapRecords>,
    events: &[Event],
    connection: u32,
) -> bool {
    if is_dropped(events, connection) {
        return has_written(trimmed, connection, b"");
    }
    match whole.out(connection) {
        Ok(out) => has_written(trimmed, connection, out.as_slice()),
        Err(_) => false,
    }
}

// Whether each connection did.
fn all_wrote_same(
    whole: &World<'_, MapRecords>,
    trimmed: &World<'_, MapRecords>,
    events: &[Event],
) -> bool {
    let Ok(count) = u32::try_from(whole.connections()) else {
        return false;
    };
    let mut all = whole.entries() == trimmed.entries();
    for connection in 0..count {
        all = wrote_same(whole, trimmed, events, connection) && all;
    }
    all
}

// The same of the connections after the events that are left.
fn same_as(
    alloc: Global,
    config: &Config,
    script: &Script,
    events: &[Event],
    whole: &World<'_, MapRecords>,
) -> bool {
    match world_after(alloc, config, script, events) {
        Some(trimmed) => {
            let same = all_wrote_same(whole, &trimmed, events);
            drop(trimmed);
            same
        }
        None => false,
    }
}

// The same of those after all events.
fn same_events(alloc: Global, config: &Config, script: &Script, events: &[Event]) -> bool {
    match world_after(alloc, config, script, script.events.as_slice()) {
        Some(whole) => {
            let same = same_as(alloc, config, script, events, &whole);
            drop(whole);
            same
        }
        None => false,
    }
}

// Whether a script leaves the same without what is refused.
fn same_script(alloc: Global, config: &Config, script: &Script) -> bool {
    match trim(
        alloc,
        config,
        script.moments.as_slice(),
        script.events.as_slice(),
    ) {
        Ok(events) => {
            let same = same_events(alloc, config, script, events.as_slice());
            drop(events);
            same
        }
        Err(_) => false,
    }
}

// Whether these event lines do.
fn same_lines(alloc: Global, config: &Config, lines: &[u8]) -> bool {
    match read_events(alloc, lines) {
        Ok(script) => {
            let same = same_script(alloc, config, &script);
            drop(script);
            same
        }
        Err(_) => false,
    }
}

/// Whether event lines leave the same without what is refused, over a store with these settings; not so where there are none,
/// the lines are none, or memory ran out.
pub(crate) fn leave_same(alloc: Global, config: Option<Config>, lines: &[u8]) -> bool {
    match config {
        Some(config) => {
            let same = same_lines(alloc, &config, lines);
            drop(config);
            same
        }
        None => false,
    }
}
