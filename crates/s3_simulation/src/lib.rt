//! Connections that share one store (`World`). Their bytes come in pieces, and their commands have their turns, in any
//! order of events. `specs/Run.antt` says what a run of events is, and the laws say what holds of all runs.
//!
//! Beside these it has one connection over a store of its own, whose commands have their turns at once (`Replay`,
//! `replay_one`). And it takes out of events what is refused (`trim`), which leaves the same entries.
#![tactic(auto)]

mod alike;
mod connections;
mod laws;
mod played;
mod replay;
mod running;
mod share;
mod trial;
mod trimmed;
mod trimming;
mod whole;
mod world;

pub use alike::{cuts_and_moves_are_alike, deaths_show};
pub use laws::{opened_replays_are_replays, runs_are_one, worlds_run};
pub use replay::Replay;
pub use running::run;
pub use trimmed::{faults_have_places, refused_leaves_nothing, trims_are_one};
pub use trimming::trim;
pub use whole::replay_one;
pub use world::World;
