//! What is asked of the uploads and their parts. A call that reads changes nothing, whatever it answers. It fails where the disk
//! does, and where memory runs out. An index has each order that is asked for, so that a call visits the rows that it shows.

ghost use Rattle.std.specs.Prelude.{IsTrue, IfOk, OnOk, map, option_map, take, ◌≡◌};
ghost use Rattle.sqlite.specs.State.{HasCleanDisk};
ghost use Rattle.sqlite.specs.Held.{state};
ghost use Rattle.s3_stored_rows.specs.Changes.{part_columns, upload_columns};
ghost use Rattle.s3_tables.specs.Keeping.{tables, Reads};
ghost use Rattle.s3_stored_rows.specs.Queries as spec;

use crate::decoding::{all_parts, all_uploads, first_part, first_upload, has_row};
use crate::table_file::TableFile;
use s3_stored_rows::{StoredPart, StoredUpload};
use sqlite::{Alter, Error, params};
use std::alloc::Global;

impl<S: Alter> TableFile<S> {
    /// The upload of an id to a key.
    pub fn upload(
        &mut self,
        bucket: &[u8],
        key: &[u8],
        id: i64,
    ) -> Result<Option<StoredUpload>, Error>
        ensures value { HasCleanDisk (state S.Store self.new) → IfOk result (λ found. option_map upload_columns found ≡ spec.upload_of_id bucket.now key.now id (tables (state S.Store self.old))) }
        ensures stays { HasCleanDisk (state S.Store self.new) → OnOk result (IsTrue (state S.Store self.new).is_open) }
        ensures reads { Reads (state S.Store self.old) (state S.Store self.new) }
    {
        let rows = self.query(
            "SELECT row, bucket, key, id, moment, kept FROM uploads WHERE bucket = ?1 AND key = ?2 AND id = ?3 ORDER BY row LIMIT 1",
            params![bucket, key, id],
        )?;
        first_upload(rows.as_slice())
    }

    /// The uploads in a bucket from a key on, by key in the order of bytes and by id, and at most so many.
    pub fn uploads_from(
        &mut self,
        alloc: Global,
        bucket: &[u8],
        key: &[u8],
        most: u32,
    ) -> Result<Vec<StoredUpload>, Error>
        ensures value { HasCleanDisk (state S.Store self.new) → IfOk result (λ all. map upload_columns all.items ≡ take most (spec.uploads_from bucket.now key.now (tables (state S.Store self.old)))) }
        ensures stays { HasCleanDisk (state S.Store self.new) → OnOk result (IsTrue (state S.Store self.new).is_open) }
        ensures reads { Reads (state S.Store self.old) (state S.Store self.new) }
    {
        let rows = self.query(
            "SELECT row, bucket, key, id, moment, kept FROM uploads WHERE bucket = ?1 AND key >= ?2 ORDER BY key, id, row LIMIT ?3",
            params![bucket, key, most],
        )?;
        all_uploads(alloc, rows.as_slice())
    }

    /// The uploads in a bucket behind a key, in the same order, and at most so many.
    pub fn uploads_behind(
        &mut self,
        alloc: Global,
        bucket: &[u8],
        key: &[u8],
        most: u32,
    ) -> Result<Vec<StoredUpload>, Error>
        ensures value { HasCleanDisk (state S.Store self.new) → IfOk result (λ all. map upload_columns all.items ≡ take most (spec.uploads_behind bucket.now key.now (tables (state S.Store self.old)))) }
        ensures stays { HasCleanDisk (state S.Store self.new) → OnOk result (IsTrue (state S.Store self.new).is_open) }
        ensures reads { Reads (state S.Store self.old) (state S.Store self.new) }
    {
        let rows = self.query(
            "SELECT row, bucket, key, id, moment, kept FROM uploads WHERE bucket = ?1 AND key > ?2 ORDER BY key, id, row LIMIT ?3",
            params![bucket, key, most],
        )?;
        all_uploads(alloc, rows.as_slice())
    }

    /// The uploads to a key whose ids are above one, by id, and at most so many.
    pub fn uploads_above(
        &mut self,
        alloc: Global,
        bucket: &[u8],
        key: &[u8],
        id: i64,
        most: u32,
    ) -> Result<Vec<StoredUpload>, Error>
        ensures value { HasCleanDisk (state S.Store self.new) → IfOk result (λ all. map upload_columns all.items ≡ take most (spec.uploads_above bucket.now key.now id (tables (state S.Store self.old)))) }
        ensures stays { HasCleanDisk (state S.Store self.new) → OnOk result (IsTrue (state S.Store self.new).is_open) }
        ensures reads { Reads (state S.Store self.old) (state S.Store self.new) }
    {
        let rows = self.query(
            "SELECT row, bucket, key, id, moment, kept FROM uploads WHERE bucket = ?1 AND key = ?2 AND id > ?3 ORDER BY id, row LIMIT ?4",
            params![bucket, key, id, most],
        )?;
        all_uploads(alloc, rows.as_slice())
    }

    /// The part of a number of the upload in a row.
    pub fn part(&mut self, upload: i64, part: i64) -> Result<Option<StoredPart>, Error>
        ensures value { HasCleanDisk (state S.Store self.new) → IfOk result (λ found. option_map part_columns found ≡ spec.part_of_number upload part (tables (state S.Store self.old))) }
        ensures stays { HasCleanDisk (state S.Store self.new) → OnOk result (IsTrue (state S.Store self.new).is_open) }
        ensures reads { Reads (state S.Store self.old) (state S.Store self.new) }
    {
        let rows = self.query(
            "SELECT row, upload, part, digest, moment, size, bodies FROM parts WHERE upload = ?1 AND part = ?2 ORDER BY row LIMIT 1",
            params![upload, part],
        )?;
        first_part(rows.as_slice())
    }

    /// The parts of the upload in a row whose numbers are above one, by number, and at most so many.
    pub fn parts_above(
        &mut self,
        alloc: Global,
        upload: i64,
        part: i64,
        most: u32,
    ) -> Result<Vec<StoredPart>, Error>
        ensures value { HasCleanDisk (state S.Store self.new) → IfOk result (λ all. map part_columns all.items ≡ take most (spec.parts_above upload part (tables (state S.Store self.old)))) }
        ensures stays { HasCleanDisk (state S.Store self.new) → OnOk result (IsTrue (state S.Store self.new).is_open) }
        ensures reads { Reads (state S.Store self.old) (state S.Store self.new) }
    {
        let rows = self.query(
            "SELECT row, upload, part, digest, moment, size, bodies FROM parts WHERE upload = ?1 AND part > ?2 ORDER BY part, row LIMIT ?3",
            params![upload, part, most],
        )?;
        all_parts(alloc, rows.as_slice())
    }

    /// Whether there is an upload in a bucket.
    pub fn has_uploads(&mut self, bucket: &[u8]) -> Result<bool, Error>
        ensures value { HasCleanDisk (state S.Store self.new) → IfOk result (λ found. found ≡ spec.has_uploads bucket.now (tables (state S.Store self.old))) }
        ensures stays { HasCleanDisk (state S.Store self.new) → OnOk result (IsTrue (state S.Store self.new).is_open) }
        ensures reads { Reads (state S.Store self.old) (state S.Store self.new) }
    {
        let rows = self.query(
            "SELECT row FROM uploads WHERE bucket = ?1 LIMIT 1",
            params![bucket],
        )?;
        Ok(has_row(rows.as_slice()))
    }
}
