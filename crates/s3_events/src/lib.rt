//! Events of several connections: the lines that spell them, and the lines that tell what each connection was
//! answered, and which of its messages was refused.
#![tactic(auto)]

mod checked;
mod error;
mod event;
mod printing;
mod reading;
mod script;

pub use error::EventsError;
pub use event::Event;
pub use printing::{print_fault, print_output};
pub use reading::read_events;
pub use script::Script;
