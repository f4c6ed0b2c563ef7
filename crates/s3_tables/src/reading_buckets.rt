//! What is asked of the buckets, and the row of `store`. A call that reads changes nothing, whatever it answers. It fails where
//! the disk does, and where memory runs out.

ghost use Rattle.std.specs.Prelude.{IsTrue, IfOk, OnOk, map, option_map, slice_get, ◌≡◌};
ghost use Rattle.sqlite.specs.State.{HasCleanDisk};
ghost use Rattle.sqlite.specs.Held.{state};
ghost use Rattle.s3_stored_rows.specs.Changes.{bucket_columns, store_columns};
ghost use Rattle.s3_tables.specs.Keeping.{tables, Reads};
ghost use Rattle.s3_stored_rows.specs.Queries as spec;

use crate::decoding::{all_buckets, first_bucket, first_store};
use crate::table_file::TableFile;
use s3_stored_rows::{StoreNumbers, StoredBucket};
use sqlite::{Alter, Error, params};
use std::alloc::Global;

impl<S: Alter> TableFile<S> {
    /// The bucket of a name.
    pub fn bucket(&mut self, name: &[u8]) -> Result<Option<StoredBucket>, Error>
        ensures value { HasCleanDisk (state S.Store self.new) → IfOk result (λ found. option_map bucket_columns found ≡ spec.bucket_named name.now (tables (state S.Store self.old))) }
        ensures stays { HasCleanDisk (state S.Store self.new) → OnOk result (IsTrue (state S.Store self.new).is_open) }
        ensures reads { Reads (state S.Store self.old) (state S.Store self.new) }
    {
        let rows = self.query(
            "SELECT row, name, made, mode FROM buckets WHERE name = ?1 ORDER BY row LIMIT 1",
            params![name],
        )?;
        first_bucket(rows.as_slice())
    }

    /// All buckets, by name in the order of bytes.
    pub fn buckets(&mut self, alloc: Global) -> Result<Vec<StoredBucket>, Error>
        ensures value { HasCleanDisk (state S.Store self.new) → IfOk result (λ all. map bucket_columns all.items ≡ spec.buckets_by_name (tables (state S.Store self.old))) }
        ensures stays { HasCleanDisk (state S.Store self.new) → OnOk result (IsTrue (state S.Store self.new).is_open) }
        ensures reads { Reads (state S.Store self.old) (state S.Store self.new) }
    {
        let rows = self.query(
            "SELECT row, name, made, mode FROM buckets ORDER BY name, row",
            &[],
        )?;
        all_buckets(alloc, rows.as_slice())
    }

    /// The row of `store`.
    pub fn store(&mut self) -> Result<Option<StoreNumbers>, Error>
        ensures value { HasCleanDisk (state S.Store self.new) → IfOk result (λ found. option_map store_columns found ≡ slice_get (tables (state S.Store self.old)).store 0) }
        ensures stays { HasCleanDisk (state S.Store self.new) → OnOk result (IsTrue (state S.Store self.new).is_open) }
        ensures reads { Reads (state S.Store self.old) (state S.Store self.new) }
    {
        let rows = self.query(
            "SELECT row, form, number FROM store ORDER BY row LIMIT 1",
            &[],
        )?;
        first_store(rows.as_slice())
    }
}
