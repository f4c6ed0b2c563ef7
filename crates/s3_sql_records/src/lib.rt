//! Records in SQLite tables in memory, with their bytes beside them: the keeper that `--records sql` asks for. It is the one
//! crate that puts the tables and the records together.
#![tactic(auto)]

mod sql_keeper;

pub use sql_keeper::{SqlKeeper, SqlRecords};
