//! Heads of HTTP/1.1 messages: where a head text ends, what it says, and where its body ends.
#![tactic(auto)]

mod body_length;
mod find;
mod head;
mod method;
mod parameters;
mod search;
mod target;
mod text;

pub use body_length::{
    BodyFraming, announced_length, decoded_length, framing, messages_are_cut_once,
};
pub use find::{
    Found, HEAD_LIMIT, find_head, pairs_may_be_dropped, skipped, verdict_is_exact, verdicts_stay,
};
pub use head::{Head, LINE_LIMIT, lines_are_whole, texts_say_one_thing};
pub use method::Method;
pub use search::{HeadSearch, searches_find};
pub use target::{Target, has_bad_escape};
pub use text::{is_named, trimmed};
