//! Events of two connections that share one store, and what is written for each.
use crate::workers::acts::{Act, Sent, events};
use crate::workers::answers::got;
use s3_calendar::Moment;
use s3_config::Config;
use s3_events::{Event, read_events};
use s3_records::MapRecords;
use s3_session::Fault;
use s3_simulation::{World, run};
use s3_store::Store;
use s3_terms::Code;
use std::alloc::Global;
use std::mem::drop;

// Events, what is written for the first connection and for the second, how many entries there are, and which message of each is
// refused since it has no head that can be read.
struct Row {
    name: &'static str,
    acts: &'static [Act],
    outs: [&'static str; 2],
    entries: u64,
    refused: [Option<u64>; 2],
}

static ROWS: [Row; 5] = [
    Row {
        name: "two puts of one key, the second connection first",
        acts: &[
            Act::Send(0, Sent::Hello),
            Act::Send(1, Sent::WorldAndGet),
            Act::Turn(1),
            Act::Turn(0),
            Act::Turn(1),
        ],
        outs: [
            "HTTP/1.1 200 OK\r\nDate: Fri, 24 May 2013 00:00:00 GMT\r\nx-amz-request-id: 0000000000000001\r\n\
             ETag: \"5d41402abc4b2a76b9719d911017c592\"\r\nContent-Length: 0\r\n\r\n",
            got!(
                "HTTP/1.1 200 OK\r\nDate: Fri, 24 May 2013 00:00:00 GMT\r\nx-amz-request-id: 0000000000000000\r\n\
             ETag: \"7d793037a0760186574b0282f2f435e7\"\r\nContent-Length: 0\r\n\r\n",
                2,
                "5d41402abc4b2a76b9719d911017c592",
                5,
                "hello"
            ),
        ],
        entries: 3,
        refused: [None, None],
    },
    Row {
        name: "two puts of one key, the first connection first",
        acts: &[
            Act::Send(0, Sent::Hello),
            Act::Send(1, Sent::WorldAndGet),
            Act::Turn(0),
            Act::Turn(1),
            Act::Turn(1),
        ],
        outs: [
            "HTTP/1.1 200 OK\r\nDate: Fri, 24 May 2013 00:00:00 GMT\r\nx-amz-request-id: 0000000000000000\r\n\
             ETag: \"5d41402abc4b2a76b9719d911017c592\"\r\nContent-Length: 0\r\n\r\n",
            got!(
                "HTTP/1.1 200 OK\r\nDate: Fri, 24 May 2013 00:00:00 GMT\r\nx-amz-request-id: 0000000000000001\r\n\
             ETag: \"7d793037a0760186574b0282f2f435e7\"\r\nContent-Length: 0\r\n\r\n",
                2,
                "7d793037a0760186574b0282f2f435e7",
                5,
                "world"
            ),
        ],
        entries: 3,
        refused: [None, None],
    },
    Row {
        name: "pieces, ends and turns behind the end",
        acts: &[
            Act::Turn(0),
            Act::Send(0, Sent::Hello),
            Act::End(0),
            Act::Send(0, Sent::Get),
            Act::Turn(0),
            Act::Turn(0),
            Act::End(0),
            Act::Send(1, Sent::Nothing),
            Act::Turn(1),
        ],
        outs: [
            "HTTP/1.1 200 OK\r\nDate: Fri, 24 May 2013 00:00:00 GMT\r\nx-amz-request-id: 0000000000000000\r\n\
             ETag: \"5d41402abc4b2a76b9719d911017c592\"\r\nContent-Length: 0\r\n\r\n",
            "",
        ],
        entries: 1,
        refused: [None, None],
    },
    Row {
        name: "a connection that isn't there",
        acts: &[
            Act::Send(2, Sent::Hello),
            Act::Turn(2),
            Act::End(2),
            Act::Turn(4_294_967_295),
        ],
        outs: ["", ""],
        entries: 0,
        refused: [None, None],
    },
    Row {
        name: "messages that are refused",
        acts: &[
            Act::Send(0, Sent::Hello),
            Act::Turn(0),
            Act::Send(0, Sent::NoHead),
            Act::Send(0, Sent::Get),
            Act::Send(1, Sent::NoHead),
            Act::Turn(1),
        ],
        outs: [
            "HTTP/1.1 200 OK\r\nDate: Fri, 24 May 2013 00:00:00 GMT\r\nx-amz-request-id: 0000000000000000\r\n\
             ETag: \"5d41402abc4b2a76b9719d911017c592\"\r\nContent-Length: 0\r\n\r\n\
             HTTP/1.1 400 Bad Request\r\nDate: Fri, 24 May 2013 00:00:00 GMT\r\nConnection: close\r\n\
             x-amz-request-id: 0000000000000000\r\nContent-Type: application/json\r\nContent-Length: 59\r\n\r\n\
             {\"Code\":\"MalformedHead\",\"Message\":\"The head is malformed.\"}",
            "HTTP/1.1 400 Bad Request\r\nDate: Fri, 24 May 2013 00:00:00 GMT\r\nConnection: close\r\n\
             x-amz-request-id: 0000000000000000\r\nContent-Type: application/json\r\nContent-Length: 59\r\n\r\n\
             {\"Code\":\"MalformedHead\",\"Message\":\"The head is malformed.\"}",
        ],
        entries: 1,
        refused: [Some(1), Some(0)],
    },
];

// The moments of two connections: 2013-05-24T00:00:00Z for all messages.
const MOMENTS: &[u8] = b"moments 0 1369353600\nmoments 1 1369353600\n";

// Whether this is all that a connection wrote.
fn has_written(world: &World<'_, MapRecords>, connection: u32, wanted: &str) -> bool {
    match world.out(connection) {
        Ok(out) => out.as_slice() == wanted.as_bytes(),
        Err(_) => false,
    }
}

// Which message of a connection is refused since it has no head that can be read.
fn malformed(world: &World<'_, MapRecords>, connection: u32) -> Option<u64> {
    match world.fault(connection) {
        Some(
            Fault {
                message,
                code: Code::MalformedHead,
            },
        ) => Some(message),
        _ => None,
    }
}

// Whether a world is as the row says.
fn is_as(world: &World<'_, MapRecords>, row: &Row) -> bool {
    let refused = row.refused;
    has_written(world, 0, row.outs[0])
        && has_written(world, 1, row.outs[1])
        && world.entries() == row.entries
        && malformed(world, 0) == refused[0]
        && malformed(world, 1) == refused[1]
}

// Whether these events come out as the row says.
fn come_out(
    alloc: Global,
    config: &Config,
    moments: &[Vec<Moment>],
    events: &[Event],
    row: &Row,
) -> bool {
    match Store::<MapRecords>::open(alloc, config.buckets()) {
        Ok(store) => match run(alloc, config, store, moments, events) {
            Ok(world) => {
                let is_wanted = is_as(&world, row);
                drop(world);
                is_wanted
            }
            Err(_) => false,
        },
        Err(_) => false,
    }
}

// Whether the events of a row come out as it says.
fn holds(alloc: Global, config: &Config, moments: &[Vec<Moment>], row: &Row) -> bool {
    let events = events(alloc, row.acts);
    let come_out = come_out(alloc, config, moments, &events, row);
    drop(events);
    come_out
}

// The name of the first row that goes in another way.
fn first_other(alloc: Global, config: &Config, moments: &[Vec<Moment>]) -> Option<&'static str> {
    for row in &ROWS {
        if !holds(alloc, config, moments, row) {
            return Some(row.name);
        }
    }
    None
}

/// The same of a server of these settings; `None` where all go as they have to.
pub(crate) fn first_other_world(alloc: Global, config: &Config) -> Option<&'static str> {
    match read_events(alloc, MOMENTS) {
        Ok(script) => {
            let other = first_other(alloc, config, &script.moments);
            drop(script);
            other
        }
        Err(_) => Some("the moments"),
    }
}
