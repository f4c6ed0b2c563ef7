//! What is asked of the versions. A call that reads changes nothing, whatever it answers. It fails where the disk does, and
//! where memory runs out. An index has each order that is asked for, so that a call visits the rows that it shows.

ghost use Rattle.std.specs.Prelude.{IsTrue, IfOk, OnOk, map, option_map, take, ◌≡◌};
ghost use Rattle.sqlite.specs.State.{HasCleanDisk};
ghost use Rattle.sqlite.specs.Held.{state};
ghost use Rattle.s3_stored_rows.specs.Changes.{version_columns};
ghost use Rattle.s3_tables.specs.Keeping.{tables, Reads};
ghost use Rattle.s3_stored_rows.specs.Queries as spec;

use crate::decoding::{all_versions, first_version, has_row};
use crate::table_file::TableFile;
use s3_stored_rows::StoredVersion;
use sqlite::{Alter, Error, params};
use std::alloc::Global;

impl<S: Alter> TableFile<S> {
    /// The newest version under a key.
    pub fn newest(&mut self, bucket: &[u8], key: &[u8]) -> Result<Option<StoredVersion>, Error>
        ensures value { HasCleanDisk (state S.Store self.new) → IfOk result (λ found. option_map version_columns found ≡ spec.newest_version bucket.now key.now (tables (state S.Store self.old))) }
        ensures stays { HasCleanDisk (state S.Store self.new) → OnOk result (IsTrue (state S.Store self.new).is_open) }
        ensures reads { Reads (state S.Store self.old) (state S.Store self.new) }
    {
        let rows = self.query(
            "SELECT row, bucket, key, number, id, moment, marker, tag, kept, size, bodies FROM versions WHERE bucket = ?1 AND key = ?2 ORDER BY number DESC, row LIMIT 1",
            params![bucket, key],
        )?;
        first_version(rows.as_slice())
    }

    /// The version of an id under a key.
    pub fn version(
        &mut self,
        bucket: &[u8],
        key: &[u8],
        id: i64,
    ) -> Result<Option<StoredVersion>, Error>
        ensures value { HasCleanDisk (state S.Store self.new) → IfOk result (λ found. option_map version_columns found ≡ spec.version_of_id bucket.now key.now id (tables (state S.Store self.old))) }
        ensures stays { HasCleanDisk (state S.Store self.new) → OnOk result (IsTrue (state S.Store self.new).is_open) }
        ensures reads { Reads (state S.Store self.old) (state S.Store self.new) }
    {
        let rows = self.query(
            "SELECT row, bucket, key, number, id, moment, marker, tag, kept, size, bodies FROM versions WHERE bucket = ?1 AND key = ?2 AND id = ?3 ORDER BY row LIMIT 1",
            params![bucket, key, id],
        )?;
        first_version(rows.as_slice())
    }

    /// The versions under a key whose numbers are below one, newest first, and at most so many.
    pub fn versions_below(
        &mut self,
        alloc: Global,
        bucket: &[u8],
        key: &[u8],
        number: i64,
        most: u32,
    ) -> Result<Vec<StoredVersion>, Error>
        ensures value { HasCleanDisk (state S.Store self.new) → IfOk result (λ all. map version_columns all.items ≡ take most (spec.versions_below bucket.now key.now number (tables (state S.Store self.old)))) }
        ensures stays { HasCleanDisk (state S.Store self.new) → OnOk result (IsTrue (state S.Store self.new).is_open) }
        ensures reads { Reads (state S.Store self.old) (state S.Store self.new) }
    {
        let rows = self.query(
            "SELECT row, bucket, key, number, id, moment, marker, tag, kept, size, bodies FROM versions WHERE bucket = ?1 AND key = ?2 AND number < ?3 ORDER BY number DESC, row LIMIT ?4",
            params![bucket, key, number, most],
        )?;
        all_versions(alloc, rows.as_slice())
    }

    /// The versions of a bucket from a key on, by key in the order of bytes and newest first under one key, and at most so many.
    pub fn versions_from(
        &mut self,
        alloc: Global,
        bucket: &[u8],
        key: &[u8],
        most: u32,
    ) -> Result<Vec<StoredVersion>, Error>
        ensures value { HasCleanDisk (state S.Store self.new) → IfOk result (λ all. map version_columns all.items ≡ take most (spec.versions_from bucket.now key.now (tables (state S.Store self.old)))) }
        ensures stays { HasCleanDisk (state S.Store self.new) → OnOk result (IsTrue (state S.Store self.new).is_open) }
        ensures reads { Reads (state S.Store self.old) (state S.Store self.new) }
    {
        let rows = self.query(
            "SELECT row, bucket, key, number, id, moment, marker, tag, kept, size, bodies FROM versions WHERE bucket = ?1 AND key >= ?2 ORDER BY key, number DESC, row LIMIT ?3",
            params![bucket, key, most],
        )?;
        all_versions(alloc, rows.as_slice())
    }

    /// The versions of a bucket behind a key, in the same order, and at most so many.
    pub fn versions_behind(
        &mut self,
        alloc: Global,
        bucket: &[u8],
        key: &[u8],
        most: u32,
    ) -> Result<Vec<StoredVersion>, Error>
        ensures value { HasCleanDisk (state S.Store self.new) → IfOk result (λ all. map version_columns all.items ≡ take most (spec.versions_behind bucket.now key.now (tables (state S.Store self.old)))) }
        ensures stays { HasCleanDisk (state S.Store self.new) → OnOk result (IsTrue (state S.Store self.new).is_open) }
        ensures reads { Reads (state S.Store self.old) (state S.Store self.new) }
    {
        let rows = self.query(
            "SELECT row, bucket, key, number, id, moment, marker, tag, kept, size, bodies FROM versions WHERE bucket = ?1 AND key > ?2 ORDER BY key, number DESC, row LIMIT ?3",
            params![bucket, key, most],
        )?;
        all_versions(alloc, rows.as_slice())
    }

    /// Whether there is a version in a bucket.
    pub fn has_versions(&mut self, bucket: &[u8]) -> Result<bool, Error>
        ensures value { HasCleanDisk (state S.Store self.new) → IfOk result (λ found. found ≡ spec.has_versions bucket.now (tables (state S.Store self.old))) }
        ensures stays { HasCleanDisk (state S.Store self.new) → OnOk result (IsTrue (state S.Store self.new).is_open) }
        ensures reads { Reads (state S.Store self.old) (state S.Store self.new) }
    {
        let rows = self.query(
            "SELECT row FROM versions WHERE bucket = ?1 LIMIT 1",
            params![bucket],
        )?;
        Ok(has_row(rows.as_slice()))
    }
}
