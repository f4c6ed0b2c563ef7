//! The lists of a store's rows: what records tell from a place on, read from the rows in pages.
#![tactic(auto)]

mod finding;
mod keys;
mod last_key;
mod numbers;
mod parts;
mod uploads;
mod versions;

pub use keys::keys_from;
pub use parts::parts_from;
pub use uploads::uploads_from;
pub use versions::versions_from;
