//! As what a list of a bucket's objects tells a key: as itself, as its common prefix, or not at all, by what is asked of the
//! list; and the texts that lists are asked by. What that is stands in `specs/Items.antt` and `Text.antt`.
#![tactic(auto)]

mod asked;
mod rolling;
mod text;

pub use asked::{ListVersion, ObjectsAsked};
pub use rolling::{Telling, is_before, is_behind_token, is_last, prefix_len, told_as};
pub use text::Text;
