//! The printed replies: the exact bytes of every answer of the machine and of every refusal. Nothing
//! here takes memory or fails: all but the bytes of an object and the document of a list fits into 8,192 bytes.
#![tactic(auto)]

mod body;
mod context;
mod date;
mod document;
mod errors;
mod head;
mod laws;
mod lines;
mod objects;
mod replies;
mod room;
mod statuses;
mod told;
mod values;

pub use context::Context;
pub use laws::{refusals_are_unique, replies_are_unique, replies_show_what_came};
pub use replies::{
    CONTINUE, INTERNAL_ERROR, continue_reply, internal_error_reply, print_reply, refusal,
};
pub use room::Room;
pub use statuses::reply_status;
