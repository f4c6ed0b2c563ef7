//! What the rows of the tables of a store mean: the columns of each table, and the catalogue that they are. Its functions are
//! laws: each change of records is a few rows that are put in and taken out, and what a query tells is what the catalogue has.
#![tactic(auto)]

mod laws;

pub use laws::{
    rows_add_buckets, rows_begin_uploads, rows_complete_uploads, rows_delete, rows_drop_buckets,
    rows_drop_uploads, rows_drop_versions, rows_list_uploads, rows_list_versions, rows_mark,
    rows_open, rows_put_parts, rows_put_versions, rows_set_versioning, rows_tell_buckets,
    rows_tell_uploads, rows_tell_versions,
};
