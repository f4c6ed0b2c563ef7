//! A connection to its end.

ghost use Rattle.std.specs.Prelude.{◌≡◌, ◌≢◌, ◌<◌, ℕ, List, [], length, false, None, IfSome};
ghost use Rattle.s3_config.specs.Settings.{Settings};
ghost use Rattle.s3_connection.specs.Connection.{taken_of, turn_of, wants_of};
ghost use Rattle.s3_devices.specs.Device.{Traffic};
ghost use Rattle.s3_devices.specs.Recorded.{no_traffic};
ghost use Rattle.s3_driver.specs.Ended.{Ends, Fails};
ghost use Rattle.s3_driver.specs.Served.{HasCalled, HaveMore, IsServed, StandsAt};

use crate::driver::Driver;
use crate::handle::StoreHandle;
use crate::laws::{connections_are_served, connections_end};
use crate::observer::Nobody;
use crate::state::{Ending, Moved, State};
use s3_calendar::Moment;
use s3_config::Config;
use s3_connection::Wants;
use s3_devices::Device;
use s3_history::Recorder;
use std::alloc::Global;
use std::sync::Wait;

// How many moves it makes in a turn of the loop. What it is decides nothing.
const MOVES: u32 = 1024;

/// Serves a connection over its device, from the first byte to its end, and says how it has ended. All its messages have this
/// moment, and `buffer` is what the device is read into. Each turn is taken to the handle at once.
///
/// What the connection wrote is its output for what was read, for the moments that the recorder was told, and for the entries that
/// the handle gained (`Ends` says it for each ending). It may wait for its device and for the handle, and then never return.
///
/// Takes time and memory as `Driver::go_on` does.
pub fn serve<R: Wait, N: StoreHandle, D: Device>(
    rt: &R,
    alloc: Global,
    config: &Config,
    handle: &mut N,
    moments: &mut Recorder<Moment>,
    device: &mut D,
    buffer: &mut [u8],
    now: Moment,
) -> Ending
    requires fresh { D.traffic device.old ≡ no_traffic }
    requires none { moments.old.entries ≡ [] }
    requires nothing { N.entries handle.old ≡ [] }
    requires room { 0 < length buffer.old }
    ensures ended { Ends config.now (D.traffic device.new) moments.new.entries (N.entries handle.new) result }
    ensures moments { HaveMore now moments.old.entries moments.new.entries }

    // It ends at the first failure of its device.
    ensures fails { Fails result (D.traffic device.old) (D.traffic device.new) }
{
    connections_are_served();
    connections_end();
    let mut driver = Driver::new(alloc);
    let ending = serve_on(
        rt,
        alloc,
        config,
        handle,
        moments,
        device,
        &mut driver,
        buffer,
        now,
    );
    drop(driver);
    ending
}

// Serves a connection over its device to its end.
fn serve_on<R: Wait, N: StoreHandle, D: Device>(
    rt: &R,
    alloc: Global,
    config: &Config,
    handle: &mut N,
    moments: &mut Recorder<Moment>,
    device: &mut D,
    driver: &mut Driver,
    buffer: &mut [u8],
    now: Moment,
) -> Ending
    requires room { 0 < length buffer.old }
    ensures served { IsServed config.now driver.old (D.traffic device.old) moments.old.entries (N.entries handle.old)
        → IsServed config.now driver.new (D.traffic device.new) moments.new.entries (N.entries handle.new) }
    ensures moments { HaveMore now moments.old.entries moments.new.entries }
    ensures stands { StandsAt (State.Ended result) driver.new }
    ensures fails { Fails result (D.traffic device.old) (D.traffic device.new) }
{
    for _ in rt.forever() {
        let moved = driver.go_on(
            alloc,
            config,
            moments,
            &mut Nobody,
            device,
            buffer,
            now,
            MOVES,
        );
        match moved.state {
            State::Ended(ending) => return ending,
            State::Turn => answer_turn(alloc, handle, driver),
            _ => wait_for(device, moved),
        }
    }
    // `forever` has no last turn.
    unreachable!()
}

// Waits for what a connection waits for, unless it may go on.
fn wait_for<D: Device>(device: &mut D, moved: Moved)
    ensures { D.traffic device.new ≡ D.traffic device.old }
{
    if moved.may_go_on {
        return;
    }
    match moved.state {
        State::Room => device.wait_for_room(),
        State::Message | State::Head | State::Body => device.wait_for_input(),
        State::Turn | State::Closing | State::Ended(_) => {}
    }
}

// Takes the turn that waits to the handle, and gives its answer to the connection.
fn answer_turn<N: StoreHandle>(alloc: Global, handle: &mut N, driver: &mut Driver)
    ensures answered { (settings : Settings) (traffic : Traffic) (moments : List ℕ)
        → IsServed settings driver.old traffic moments (N.entries handle.old)
        → IsServed settings driver.new traffic moments (N.entries handle.new) }
    ensures called { IfSome (turn_of driver.old) (HasCalled (N.may_lack handle.new) (N.entries handle.old) (N.entries handle.new) driver.old driver.new) }
{
    if let Some(turn) = driver.take_turn() {
        let answered = handle.call(turn);
        driver.answer(alloc, &mut Nobody, answered);
    }
}
