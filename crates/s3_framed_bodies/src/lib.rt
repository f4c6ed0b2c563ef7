//! The bodies of messages as their bytes arrive, however their end is told: by a length, or by the chunked transfer coding
//! (RFC 9112, 6.2 and 7.1).
#![tactic(auto)]

mod coded;
mod data;
mod laws;
mod reader;

pub use laws::{
    accepted_bodies_are_whole, bodies_are_judged, open_bodies_are_short, refusals_stand,
    verdicts_are_final,
};
pub use reader::BodyReader;
