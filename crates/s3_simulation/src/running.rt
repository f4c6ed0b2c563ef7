//! A whole run: events, one after another.

ghost use Rattle.std.specs.Prelude.{◌≡◌, ℕ, List, [], IfOk, OnOk};
ghost use Rattle.s3_simulation.specs.Entered.{EntersEach};
ghost use Rattle.s3_simulation.specs.Run.{RunsFrom, each_moments};
ghost use Rattle.s3_simulation.specs.Shown.{written_by_all};
ghost use Rattle.s3_simulation.specs.StandsAfter.{StandsAfter};
ghost use Rattle.s3_simulation.specs.World.{Serving};

use crate::laws::worlds_run;
use crate::world::World;
use s3_calendar::Moment;
use s3_config::Config;
use s3_events::Event;
use s3_records::Records;
use s3_store::Store;
use s3_terms::NoMemory;
use std::alloc::Global;

/// The world after these events, one after another. Its history and what its connections wrote are a run of the events over the
/// store as it was (`specs/Run.antt`).
///
/// There is a connection for each list of moments, as in `World::new`. It costs what `World::step` does for each event.
///
/// # Errors
///
/// Those of `World::new` and of `World::step`. The world is dropped then.
pub fn run<'a, R: Records + Drop>(
    alloc: Global,
    config: &'a Config,
    store: Store<R>,
    moments: &'a [Vec<Moment>],
    events: &[Event],
) -> Result<World<'a, R>, NoMemory>
    ensures runs { IfOk result (λ world.
        RunsFrom store.standing config.now (each_moments moments.now) events.now (written_by_all world.connections) world.recorded_store.entries) }
    ensures stands { IfOk result (λ world. StandsAfter world (each_moments moments.now) events.now) }
    ensures settings { IfOk result (λ world. world.settings ≡ config.now) }
    ensures opens { IfOk result (λ world. world.recorded_store.opening ≡ store.standing) }

    // Each turn that waits has its entry at its event, or memory may be lacking for it.
    ensures entered { IfOk result (λ world. (first : Serving) × StandsAfter first (each_moments moments.now) []
        × (first.settings ≡ config.now) × (first.recorded_store.opening ≡ store.standing)
        × EntersEach R.is_in_memory (each_moments moments.now) [] first events.now world) }
{
    worlds_run();
    let mut world = World::new(alloc, config, store, moments)?;
    step_all(&mut world, events)?;
    Ok(world)
}

// Does what events say, one after another.
fn step_all<R: Records + Drop>(world: &mut World<'_, R>, events: &[Event]) -> Result<(), NoMemory>
    ensures stands { (moments : List (List ℕ)) → StandsAfter world.old moments []
        → OnOk result (StandsAfter world.new moments events.now) }
    ensures settings { world.new.settings ≡ world.old.settings }
    ensures opens { world.new.recorded_store.opening ≡ world.old.recorded_store.opening }
    ensures entered { (moments : List (List ℕ)) → StandsAfter world.old moments []
        → OnOk result (EntersEach R.is_in_memory moments [] world.old events.now world.new) }
{
    for number in 0..events.len() {
        world.step(&events[number])?;
    }
    Ok(())
}
