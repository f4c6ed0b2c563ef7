//! Bodies in the chunked transfer coding of HTTP/1.1 (RFC 9112, 7.1), in which a message is sent whose length is not known
//! when it begins. They are read as they come: the data is handed on, and where the body ends, or is none, is told at the
//! byte that shows it. What such a body is stands in `specs/Body.antt`.
#![tactic(auto)]

mod decoder;
mod digits;
mod finality;
mod laws;
mod place;
mod standing;
mod steps;
#[cfg(test)]
mod tests;

pub use decoder::TransferDecoder;
pub use finality::{open_bodies_take_all, refusals_stand, verdicts_are_final};
pub use laws::{
    bodies_are_accepted, decoders_judge, open_bodies_hold_so_far, refused_begin_no_body,
};
pub use s3_bodies::Sink;
