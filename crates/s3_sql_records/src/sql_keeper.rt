//! Records in SQLite tables.

use s3_keepers::Keeper;
use s3_names::BucketName;
use s3_sql_rows::SqlRows;
use s3_stored_bodies::MemoryBodies;
use s3_table_records::{TableRecords, open_buckets};
use s3_terms::NoMemory;
use std::alloc::Global;

/// Records whose rows stand in SQLite tables in memory, and whose bytes stand in memory too.
pub type SqlRecords = TableRecords<SqlRows, MemoryBodies>;

/// Keeps records in SQLite tables, in memory.
#[derive(Clone, Copy)]
pub struct SqlKeeper;

impl Keeper for SqlKeeper {
    type Kept = SqlRecords;

    fn keep(&self, alloc: Global, buckets: &[BucketName]) -> Result<SqlRecords, NoMemory> {
        let mut records = TableRecords::new(SqlRows::new(alloc)?, MemoryBodies::new(alloc));
        match open_buckets(&mut records, alloc, buckets) {
            Ok(()) => Ok(records),
            Err(failed) => {
                drop(records);
                Err(failed)
            }
        }
    }
}
