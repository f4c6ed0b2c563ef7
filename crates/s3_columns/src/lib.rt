//! How columns of rows are spelled: the attributes of an object, the numbers of its bodies, its entity tag, the id of a
//! version and the versioning of a bucket. Each is written as one text of bytes or one number, and read back exactly.
//! It knows no database.
#![tactic(auto)]

mod ids;
mod kept;
mod laws;
mod modes;
mod numbers;
mod pairs;
mod reading;
mod tags;

pub use ids::write_id;
pub use kept::{Kept, read_kept, write_kept};
pub use laws::{
    attributes_are_found, ids_are_found, numbers_are_found, pairs_are_read_again,
    versioning_is_found,
};
pub use modes::{read_mode, write_mode};
pub use numbers::{read_numbers, write_numbers};
pub use tags::read_tag;
