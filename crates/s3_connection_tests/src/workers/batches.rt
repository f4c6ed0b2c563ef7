//! Two connections at one shared store, whose turns are answered there in batches: what a worker does with those that it serves.
ghost use Rattle.std.specs.Prelude.{◌≡◌, ◌*◌};
ghost use Rattle.s3_journal.specs.SharedStore.{seats_each};

use crate::workers::served::{Sent, moment, store};
use crate::workers::stream::{Manner, MemoryStream, PLAIN};
use crate::workers::turns::{FIRST, SECOND};
use s3_config::Config;
use s3_devices::Recorded;
use s3_driver::{
    Account, AnsweredConnection, Ending, Nobody, ServedConnection, State, new_driver, turn_away,
};
use s3_history::Recorder;
use s3_journal::{Committed, Ground, Roster, SharedStore, Start};
use s3_records::{CommitError, MapRecords};
use std::alloc::Global;
use std::marker::Brand;
use std::mem::drop;
use std::sync::Wait;
use std::time::{Clock, Instant};

// What a connection sends, how its stream gives and takes, what it writes, how it stands in each round before its turn is answered, and
// whether its stream was told that nothing more is written.
struct One {
    sent: Sent,
    manner: Manner,
    written: &'static str,
    states: &'static [u8],
    is_shut: bool,
}

// Two connections, of which the first has its turn before the second in each batch, and how many entries they leave.
struct Row {
    name: &'static str,
    both: &'static [One; 2],
    entries: u64,
}

// How many rounds there are. In each both go on as far as they can, and then their turns are answered in one batch.
const ROUNDS: u32 = 4;

// How many bytes the head has that is refused.
const REFUSED_HEAD: usize = 19;

const REFUSAL: &str = "HTTP/1.1 400 Bad Request\r\n\
    Date: Fri, 24 May 2013 00:00:00 GMT\r\n\
    Connection: close\r\n\
    x-amz-request-id: 0000000000000000\r\n\
    Content-Type: application/json\r\n\
    Content-Length: 59\r\n\
    \r\n\
    {\"Code\":\"MalformedHead\",\"Message\":\"The head is malformed.\"}";

static ROWS: [Row; 3] = [
    Row {
        name: "two connections whose turns come in batches",
        both: &[
            One {
                sent: Sent::PutAndGet,
                manner: PLAIN,
                written: FIRST,
                states: b"TTee",
                is_shut: false,
            },
            One {
                sent: Sent::ChunksAndGet,
                manner: PLAIN,
                written: SECOND,
                states: b"TTee",
                is_shut: false,
            },
        ],
        entries: 4,
    },
    Row {
        name: "a connection whose read fails in the end, and one whose reply isn't taken",
        both: &[
            One {
                sent: Sent::PutAndGet,
                manner: Manner {
                    failing_read: 2,
                    ..PLAIN
                },
                written: FIRST,
                states: b"TTrr",
                is_shut: false,
            },
            One {
                sent: Sent::ChunksAndGet,
                manner: Manner {
                    failing_write: 1,
                    ..PLAIN
                },
                written: "",
                states: b"Twww",
                is_shut: false,
            },
        ],
        entries: 3,
    },
    Row {
        name: "two connections that are refused, of which one waits for what its peer still sends",
        both: &[
            One {
                sent: Sent::NoHead,
                manner: Manner {
                    first: REFUSED_HEAD,
                    ..PLAIN
                },
                written: REFUSAL,
                states: b"Ceee",
                is_shut: true,
            },
            One {
                sent: Sent::NoHead,
                manner: PLAIN,
                written: REFUSAL,
                states: b"eeee",
                is_shut: true,
            },
        ],
        entries: 0,
    },
];

// What a letter of `states` says: the first of a state's name, or how the connection has ended.
fn letter_of(state: State) -> u8 {
    match state {
        State::Message => b'M',
        State::Head => b'H',
        State::Body => b'B',
        State::Turn => b'T',
        State::Room => b'R',
        State::Closing => b'C',
        State::Ended(Ending::Closed) => b'e',
        State::Ended(Ending::ReadFailed) => b'r',
        State::Ended(Ending::WriteFailed) => b'w',
    }
}

// A connection of these tests.
type Connection<J> = ServedConnection<J, Recorded<MemoryStream<'static>>, Nobody>;

// The same with the answer to its turn.
type Answered<J> = AnsweredConnection<J, Recorded<MemoryStream<'static>>, Nobody>;

// One that has a seat of this roster; `None` where there is no memory for it.
fn connect<J: Ground>(
    alloc: Global,
    roster: &mut Roster<J, Account>,
    one: &One,
    now: Instant,
) -> Option<Connection<J>> {
    let (recorder, moments) = (Recorder::new()?, Recorder::new()?);
    let driver = new_driver(alloc).ok()?;
    match roster.seat() {
        Ok(seat) => {
            let stream = MemoryStream::new(one.sent.bytes(), Vec::new(alloc), one.manner);
            let device = Recorded::named(stream, recorder, seat.number());
            Some(ServedConnection::new(driver, device, seat, moments, Nobody, now))
        }
        Err(_) => None,
    }
}

// Has it go on as far as it can, and notes how it stands.
fn go_on<J: Ground>(
    alloc: Global,
    config: &Config,
    connection: &mut Connection<J>,
    states: &mut Vec<u8>,
    now: Instant,
)
    requires settings { J.base.settings ≡ config.now }
{
    let moved = connection.go_on(alloc, config, &mut [0; 4096], moment(), now);
    drop(states.push(letter_of(moved.state)));
}

// Both, where both are there.
fn both_of<T: Drop>(first: Option<T>, second: Option<T>) -> Option<(T, T)> {
    match (first, second) {
        (Some(first), Some(second)) => Some((first, second)),
        _ => None,
    }
}

// One that has heard its answer; `None` where it may not.
fn heard<J: Ground>(
    alloc: Global,
    mut answered: Answered<J>,
    committed: &Committed<J>,
    now: Instant,
) -> Option<Connection<J>> {
    if answered.may_hear(committed) {
        Some(answered.hear(alloc, now))
    } else {
        drop(answered);
        None
    }
}

// Both, which have heard their answers, where these are committed.
fn both_heard<J: Ground>(
    alloc: Global,
    first: Answered<J>,
    second: Answered<J>,
    committed: Result<Committed<J>, CommitError>,
    now: Instant,
) -> Option<(Connection<J>, Connection<J>)> {
    match committed {
        Ok(committed) => both_of(
            heard(alloc, first, &committed, now),
            heard(alloc, second, &committed, now),
        ),
        Err(_) => {
            drop(first);
            drop(second);
            None
        }
    }
}

// Takes the turns of both to the shared store in one batch, and gives them their answers; `None` where the batch isn't committed,
// which never happens over a store in memory.
fn take_turns<J: Ground, R: Wait>(
    rt: &R,
    alloc: Global,
    shared: &SharedStore<J, MapRecords>,
    first: Connection<J>,
    second: Connection<J>,
    now: Instant,
) -> Option<(Connection<J>, Connection<J>)> {
    let mut turns = shared.turns(rt);
    let first = first.submit(&mut turns);
    let second = second.submit(&mut turns);
    both_heard(alloc, first, second, turns.commit(), now)
}

// Whether a connection was served as is wanted.
fn is_as<J: Ground>(connection: &Connection<J>, states: &[u8], one: &One) -> bool {
    let stream = connection.stream().stream();
    (stream.output.as_slice() == one.written.as_bytes())
        & (stream.is_shut == one.is_shut)
        & (states == one.states)
}

// It leaves the roster.
fn leave<J: Ground>(connection: Connection<J>, roster: &mut Roster<J, Account>) {
    if roster.has(connection.number()) {
        drop(connection.leave(roster));
    } else {
        drop(connection);
    }
}

// Whether nothing is written to one that comes and is turned away, which leaves the roster.
fn is_turned_away<J: Ground>(alloc: Global, roster: &mut Roster<J, Account>) -> bool {
    let Some(recorder) = Recorder::new() else {
        return false;
    };
    let Ok(seat) = roster.seat() else {
        return false;
    };
    let number = seat.number();
    let stream = MemoryStream::new(b"GET", Vec::new(alloc), PLAIN);
    let device = turn_away(
        alloc,
        Recorded::named(stream, recorder, number),
        seat,
        roster,
    );
    device.stream().output.is_empty() & !roster.has(number)
}

// Whether both are served as is wanted, which then leave the roster.
fn leave_as<J: Ground, R: Wait>(
    rt: &R,
    alloc: Global,
    config: &Config,
    shared: &SharedStore<J, MapRecords>,
    roster: &mut Roster<J, Account>,
    mut first: Connection<J>,
    mut second: Connection<J>,
    both: &[One; 2],
    now: Instant,
) -> bool
    requires settings { J.base.settings ≡ config.now }
{
    let (mut one, mut other) = (Vec::new(alloc), Vec::new(alloc));
    for _ in 0..ROUNDS {
        go_on(alloc, config, &mut first, &mut one, now);
        go_on(alloc, config, &mut second, &mut other, now);
        let Some(served) = take_turns(rt, alloc, shared, first, second, now) else {
            return false;
        };
        (first, second) = served;
    }
    let are_right = is_as(&first, &one, &both[0]) & is_as(&second, &other, &both[1]);
    leave(first, roster);
    leave(second, roster);
    are_right
}

// The same of two that come, and whether one that is turned away then is told nothing.
fn are_served<J: Ground, R: Wait>(
    rt: &R,
    alloc: Global,
    config: &Config,
    shared: &SharedStore<J, MapRecords>,
    roster: &mut Roster<J, Account>,
    both: &[One; 2],
    now: Instant,
) -> bool
    requires settings { J.base.settings ≡ config.now }
{
    let first = connect(alloc, roster, &both[0], now);
    let second = connect(alloc, roster, &both[1], now);
    let are_right = match both_of(first, second) {
        Some((first, second)) => {
            leave_as(rt, alloc, config, shared, roster, first, second, both, now)
        }
        None => false,
    };
    are_right && is_turned_away(alloc, roster)
}

// How many entries a shared store leaves to whose roster both come, where they are served as is wanted.
fn entries_of<J: Ground, R: Wait>(
    rt: &R,
    alloc: Global,
    config: &Config,
    shared: SharedStore<J, MapRecords>,
    mut rosters: Vec<Roster<J, Account>>,
    both: &[One; 2],
    now: Instant,
) -> Option<u64>
    requires settings { J.base.settings ≡ config.now }
{
    let are_served = match rosters.first_mut() {
        Some(roster) => are_served(rt, alloc, config, &shared, roster, both, now),
        None => false,
    };
    match shared.close::<Account>(rosters) {
        Some(closed) if are_served => Some(closed.recorded_store.entries()),
        _ => None,
    }
}

// The same at a shared store that is to be opened.
fn entries_left<J: Ground, R: Wait>(
    rt: &R,
    alloc: Global,
    config: &Config,
    start: Start<MapRecords>,
    both: &[One; 2],
    now: Instant,
) -> Option<u64>
    requires name { J.name ≡ start.name }
    requires base { J.base ≡ start.base }
    requires parts { J.parts ≡ start.rosters * seats_each }
    requires settings { J.base.settings ≡ config.now }
{
    match SharedStore::<J, MapRecords>::open::<Account>(alloc, start) {
        Ok((shared, rosters)) => entries_of(rt, alloc, config, shared, rosters, both, now),
        Err(_) => None,
    }
}

// The same at a shared store over a new store.
fn entries_of_new<R: Wait>(
    rt: &R,
    alloc: Global,
    config: &Config,
    both: &[One; 2],
    now: Instant,
) -> Option<u64> {
    match Start::new(alloc, config, store(alloc, config)?, 1) {
        Ok(start) => entries_left::<Brand, R>(rt, alloc, config, start, both, now),
        Err(_) => None,
    }
}

/// The name of the first row that comes out in another way.
pub(crate) fn first_other_batch<R: Wait + Clock>(
    rt: &R,
    alloc: Global,
    config: &Config,
) -> Option<&'static str> {
    let Ok(now) = Instant::now(rt) else {
        return Some("the clock");
    };
    for row in &ROWS {
        if entries_of_new(rt, alloc, config, row.both, now) != Some(row.entries) {
            return Some(row.name);
        }
    }
    None
}
