//! What is known of all worlds: laws, with nothing to run.

ghost use Rattle.s3_simulation.specs.Laws.{OneRun};
ghost use Rattle.s3_simulation.specs.Replaying.{OpenedReplays};
ghost use Rattle.s3_simulation.specs.StandsAfter.{WorldsRun};

use s3_connection::{connections_write, outputs_are_one};

/// A law: a world that stands after some events has made a run of them over the store with which it began, in which its connections
/// stand as they do, and whose outputs are what they wrote. There is nothing to run.
pub fn worlds_run()
    ensures { WorldsRun }
{
    connections_write();
}

/// A law: settings, moments and events fix each entry of a run and each output, as long as memory does not run out in a
/// connection; and events that bring the same to each connection up to each turn, in the same order of turns, leave the
/// same ones. There is nothing to run.
pub fn runs_are_one()
    ensures { OneRun }
{
    outputs_are_one();
}

/// A law: what one connection writes over a store with the opening buckets, and nothing else, is what a replay of it writes. There is
/// nothing to run.
pub fn opened_replays_are_replays()
    ensures { OpenedReplays }
{}
