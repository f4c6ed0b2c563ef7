//! All rows of a table, in the order of rowids. They are read where rows go from one keeper to another. A call
//! that reads changes nothing, whatever it answers. It fails where the disk does, and where memory runs out. What it reads
//! stands in memory twice until it answers.

ghost use Rattle.std.specs.Prelude.{IsTrue, IfOk, OnOk, map, ◌≡◌};
ghost use Rattle.sqlite.specs.State.{HasCleanDisk};
ghost use Rattle.sqlite.specs.Held.{state};
ghost use Rattle.s3_stored_rows.specs.Changes.{bucket_columns, version_columns, upload_columns, part_columns, store_columns};
ghost use Rattle.s3_tables.specs.Keeping.{tables, Reads};

use crate::decoding::{all_buckets, all_parts, all_stores, all_uploads, all_versions};
use crate::table_file::TableFile;
use s3_stored_rows::{StoreNumbers, StoredBucket, StoredPart, StoredUpload, StoredVersion};
use sqlite::{Alter, Error};
use std::alloc::Global;

impl<S: Alter> TableFile<S> {
    /// All buckets, by rowid.
    pub fn bucket_rows(&mut self, alloc: Global) -> Result<Vec<StoredBucket>, Error>
        ensures value { HasCleanDisk (state S.Store self.new) → IfOk result (λ all. map bucket_columns all.items ≡ (tables (state S.Store self.old)).buckets) }
        ensures stays { HasCleanDisk (state S.Store self.new) → OnOk result (IsTrue (state S.Store self.new).is_open) }
        ensures reads { Reads (state S.Store self.old) (state S.Store self.new) }
    {
        let rows = self.query(
            "SELECT row, name, made, mode FROM buckets ORDER BY row",
            &[],
        )?;
        all_buckets(alloc, rows.as_slice())
    }

    /// All versions, by rowid.
    pub fn version_rows(&mut self, alloc: Global) -> Result<Vec<StoredVersion>, Error>
        ensures value { HasCleanDisk (state S.Store self.new) → IfOk result (λ all. map version_columns all.items ≡ (tables (state S.Store self.old)).versions) }
        ensures stays { HasCleanDisk (state S.Store self.new) → OnOk result (IsTrue (state S.Store self.new).is_open) }
        ensures reads { Reads (state S.Store self.old) (state S.Store self.new) }
    {
        let rows = self.query(
            "SELECT row, bucket, key, number, id, moment, marker, tag, kept, size, bodies FROM versions ORDER BY row",
            &[],
        )?;
        all_versions(alloc, rows.as_slice())
    }

    /// All uploads, by rowid.
    pub fn upload_rows(&mut self, alloc: Global) -> Result<Vec<StoredUpload>, Error>
        ensures value { HasCleanDisk (state S.Store self.new) → IfOk result (λ all. map upload_columns all.items ≡ (tables (state S.Store self.old)).uploads) }
        ensures stays { HasCleanDisk (state S.Store self.new) → OnOk result (IsTrue (state S.Store self.new).is_open) }
        ensures reads { Reads (state S.Store self.old) (state S.Store self.new) }
    {
        let rows = self.query(
            "SELECT row, bucket, key, id, moment, kept FROM uploads ORDER BY row",
            &[],
        )?;
        all_uploads(alloc, rows.as_slice())
    }

    /// All parts, by rowid.
    pub fn part_rows(&mut self, alloc: Global) -> Result<Vec<StoredPart>, Error>
        ensures value { HasCleanDisk (state S.Store self.new) → IfOk result (λ all. map part_columns all.items ≡ (tables (state S.Store self.old)).parts) }
        ensures stays { HasCleanDisk (state S.Store self.new) → OnOk result (IsTrue (state S.Store self.new).is_open) }
        ensures reads { Reads (state S.Store self.old) (state S.Store self.new) }
    {
        let rows = self.query(
            "SELECT row, upload, part, digest, moment, size, bodies FROM parts ORDER BY row",
            &[],
        )?;
        all_parts(alloc, rows.as_slice())
    }

    /// All rows of `store`, by rowid.
    pub fn store_rows(&mut self, alloc: Global) -> Result<Vec<StoreNumbers>, Error>
        ensures value { HasCleanDisk (state S.Store self.new) → IfOk result (λ all. map store_columns all.items ≡ (tables (state S.Store self.old)).store) }
        ensures stays { HasCleanDisk (state S.Store self.new) → OnOk result (IsTrue (state S.Store self.new).is_open) }
        ensures reads { Reads (state S.Store self.old) (state S.Store self.new) }
    {
        let rows = self.query("SELECT row, form, number FROM store ORDER BY row", &[])?;
        all_stores(alloc, rows.as_slice())
    }
}
