//! What a read may ask of the version that it picks (RFC 9110, sections 13.1 and 14.2): entity tags, dates and a range of bytes, as
//! a request spells them, and the judgement of a version by them.
#![tactic(auto)]

mod conditions;
mod dates;
mod laws;
mod range;
mod tags;

pub use conditions::{Conditions, Selection, judge};
pub use dates::read_date;
pub use laws::{
    examples_hold, parts_are_what_is_asked, parts_lie_in_the_object, plain_reads_show_all,
};
pub use range::ByteRange;
pub use tags::{TagList, unquoted};
