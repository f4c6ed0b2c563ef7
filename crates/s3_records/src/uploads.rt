//! The open uploads of one bucket, in memory.
ghost use Rattle.std.specs.Prelude.{◌≡◌, ◌≢◌, [], Some, None, IfOk, OnOk, OnErr, IsTrue, ◌==◌, ◌≤◌, ◌++◌, nat_lt, is_some, filter, length, take, option_map};
ghost use Rattle.std.specs.List.{flat_map};
ghost use Rattle.std.specs.Option.{option_copied};
ghost use Rattle.std.specs.FinMap as map;
ghost use Rattle.s3_uploads.specs.Parts.{part_at};
ghost use Rattle.s3_uploads.specs.Uploads.{with_part};
ghost use Rattle.s3_records.specs.OpenUploads.{parts_sent, is_upload_from, upload_rows_of};

use crate::adding::put;
use crate::listing::first_key;
use crate::rows::{Start, UploadRow, UploadStart};
use crate::upload_listing::{add_ids, add_keys};
use s3_bodies::Body;
use s3_names::{Key, PartNumber, UploadId};
use s3_terms::NoMemory;
use s3_uploads::{Part, Upload};
use std::alloc::Global;
use std::collections::BTreeMap;
use std::marker::Model;
use std::ops::Bound;

/// The open uploads to one key. Contracts see them as a finite map from their ids.
#[derive(Drop)]
pub(crate) struct OpenUploads {
    by_id: BTreeMap<u64, Upload<Body>>,
}

impl Model for OpenUploads {
    ghost use Rattle.std.specs.Prelude.{ℕ, List};
    ghost use Rattle.std.specs.FinMap as map;
    ghost use Rattle.s3_versions.specs.Codes.{coded_bytes};
    ghost use Rattle.s3_records.specs.Catalogue.{KeyUploads};
    ghost use Rattle.s3_records.specs.Codes.{coded_key_uploads};

    ghost Value = { KeyUploads (List ℕ) };

    ghost coded = { coded_key_uploads coded_bytes };

    ghost view = { λ uploads. map.from_entries uploads.by_id.entries };
}

impl OpenUploads {
    ghost use Rattle.s3_records.specs.Changes.{with_id};

    /// No uploads, which takes no memory yet.
    fn new(alloc: Global) -> OpenUploads
        ensures { result ≡ map.empty }
    {
        OpenUploads {
            by_id: BTreeMap::new(alloc),
        }
    }

    /// This upload alone.
    fn of(alloc: Global, id: UploadId, upload: Upload<Body>) -> Result<OpenUploads, NoMemory>
        ensures { IfOk result (λ uploads. uploads ≡ with_id map.empty id (Some upload)) }
    {
        let mut uploads = OpenUploads::new(alloc);
        match uploads.put(id, upload) {
            Ok(()) => Ok(uploads),
            Err(failed) => {
                drop(uploads);
                Err(failed)
            }
        }
    }

    /// Whether there is none.
    fn is_empty(&self) -> bool
        ensures { result ≡ (map.len self.now == 0) }
    {
        self.by_id.len() == 0
    }

    /// The upload of this id.
    fn get(&self, id: UploadId) -> Option<&Upload<Body>>
        ensures { option_copied result ≡ map.get self.now id }
    {
        self.by_id.get(&id.number())
    }

    /// Adds the rows of the uploads, which are to this key, until there are so many.
    pub(crate) fn add_rows(
        &self,
        rows: &mut Vec<UploadRow>,
        key: &Key,
        most: usize,
    ) -> Result<(), NoMemory>
        requires { length rows.old.items ≤ most }
        ensures ok { OnOk result (rows.new.items ≡ take most (rows.old.items ++ upload_rows_of (key.now, self.now))) }
        ensures memory { OnErr result (take most (rows.old.items ++ upload_rows_of (key.now, self.now)) ≢ []) }
    {
        add_ids(rows, key, &self.by_id, Bound::Unbounded, most)
    }

    /// The rows of the uploads behind an id, which are to this key, at most so many.
    fn rows_behind(
        &self,
        alloc: Global,
        key: &Key,
        id: UploadId,
        most: usize,
    ) -> Result<Vec<UploadRow>, NoMemory>
        ensures value { IfOk result (λ rows. rows.items
            ≡ take most (filter (λ row. nat_lt id row.id) (upload_rows_of (key.now, self.now)))) }
        ensures memory { OnErr result (
            take most (filter (λ row. nat_lt id row.id) (upload_rows_of (key.now, self.now))) ≢ []) }
    {
        let mut rows = Vec::new(alloc);
        let behind = Bound::Excluded(&id.number());
        match add_ids(&mut rows, key, &self.by_id, behind, most) {
            Ok(()) => Ok(rows),
            Err(failed) => {
                drop(rows);
                Err(failed)
            }
        }
    }

    /// Puts in an upload, in the place of the one that has its id. `NoMemory` leaves the uploads as they were.
    fn put(&mut self, id: UploadId, upload: Upload<Body>) -> Result<(), NoMemory>
        ensures ok { OnOk result (self.new ≡ with_id self.old id (Some upload)) }
        ensures err { OnErr result (self.new ≡ self.old) }
    {
        put(&mut self.by_id, id.number(), Ok(upload))
    }

    /// Puts a part to the upload of this id, which is there, and answers the one that it replaces. `NoMemory`, which comes only
    /// where none is replaced, leaves the uploads as they were.
    fn put_part(
        &mut self,
        id: UploadId,
        number: PartNumber,
        part: Part<Body>,
    ) -> Result<Option<Part<Body>>, NoMemory>
        requires { IsTrue (is_some (map.get self.old id)) }
        ensures ok { OnOk result (self.new ≡ with_id self.old id (option_map (with_part number part) (map.get self.old id))) }
        ensures former { IfOk result (λ former. former ≡ part_at number (parts_sent (map.get self.old id))) }
        ensures err { OnErr result (self.new ≡ self.old) }
        ensures memory { OnErr result (part_at number (parts_sent (map.get self.old id)) ≡ None) }
    {
        match self.by_id.get_mut(&id.number()) {
            // The caller knows that the upload is open.
            None => unreachable!(),
            Some(upload) => upload.put_part(number, part),
        }
    }

    /// Takes out the upload of this id, and answers it.
    fn drop_upload(&mut self, id: UploadId) -> Option<Upload<Body>>
        ensures value { self.new ≡ with_id self.old id None }
        ensures gone { result ≡ map.get self.old id }
    {
        self.by_id.remove(&id.number())
    }
}

/// The open uploads to each key of a bucket. Contracts see them as a finite map from the keys that have some.
#[derive(Drop)]
pub(crate) struct UploadMap {
    by_key: BTreeMap<Key, OpenUploads>,
}

impl Model for UploadMap {
    ghost use Rattle.std.specs.Prelude.{ℕ, List};
    ghost use Rattle.std.specs.FinMap as map;
    ghost use Rattle.s3_versions.specs.Codes.{coded_bytes};
    ghost use Rattle.s3_records.specs.Catalogue.{Uploads};
    ghost use Rattle.s3_records.specs.Codes.{coded_uploads};

    ghost Value = { Uploads (List ℕ) };

    ghost coded = { coded_uploads coded_bytes };

    ghost view = { λ uploads. map.from_entries uploads.by_key.entries };
}

impl UploadMap {
    ghost use Rattle.s3_records.specs.Catalogue.{has_no_uploads};
    ghost use Rattle.s3_records.specs.Changes.{with_upload};
    ghost use Rattle.s3_records.specs.OpenUploads.{uploads_under, upload_under};
    ghost use Rattle.s3_records.specs.declared.rows.UploadStart.TheVariants.{At, BehindUpload};

    /// No uploads, which takes no memory yet.
    pub(crate) fn new(alloc: Global) -> UploadMap
        ensures { result ≡ map.empty }
    {
        UploadMap {
            by_key: BTreeMap::new(alloc),
        }
    }

    /// Whether to no key an upload is open.
    pub(crate) fn is_empty(&self) -> bool
        ensures { result ≡ has_no_uploads self.now }
    {
        self.by_key.len() == 0
    }

    // The uploads to a key; `None` where there are none.
    fn under(&self, key: &Key) -> Option<&OpenUploads>
        ensures { option_copied result ≡ map.get self.now key.now }
    {
        self.by_key.get(key)
    }

    /// The upload of this id to the key.
    pub(crate) fn get(&self, key: &Key, id: UploadId) -> Option<&Upload<Body>>
        ensures { option_copied result ≡ upload_under self.now key.now id }
    {
        match self.under(key) {
            None => None,
            Some(uploads) => uploads.get(id),
        }
    }

    /// The rows of the uploads from a place on, at most so many.
    pub(crate) fn rows_from(
        &self,
        alloc: Global,
        start: &UploadStart,
        most: usize,
    ) -> Result<Vec<UploadRow>, NoMemory>
        ensures value { IfOk result (λ rows. rows.items
            ≡ take most (filter (is_upload_from start.now) (flat_map upload_rows_of (map.entries self.now)))) }
        ensures memory { OnErr result (
            take most (filter (is_upload_from start.now) (flat_map upload_rows_of (map.entries self.now))) ≢ []) }
    {
        match start {
            UploadStart::At(start) => self.rows_at(alloc, start, most),
            UploadStart::BehindUpload(key, id) => self.rows_behind(alloc, key, *id, most),
        }
    }

    // The rows of the uploads to the keys from a place on.
    fn rows_at(&self, alloc: Global, start: &Start, most: usize) -> Result<Vec<UploadRow>, NoMemory>
        ensures value { IfOk result (λ rows. rows.items
            ≡ take most (filter (is_upload_from (At start.now)) (flat_map upload_rows_of (map.entries self.now)))) }
        ensures memory { OnErr result (
            take most (filter (is_upload_from (At start.now)) (flat_map upload_rows_of (map.entries self.now))) ≢ []) }
    {
        let mut rows = Vec::new(alloc);
        match add_keys(&mut rows, &self.by_key, first_key(start), most) {
            Ok(()) => Ok(rows),
            Err(failed) => {
                drop(rows);
                Err(failed)
            }
        }
    }

    // The rows of the uploads to a key behind an id, and to the keys behind that.
    fn rows_behind(
        &self,
        alloc: Global,
        key: &Key,
        id: UploadId,
        most: usize,
    ) -> Result<Vec<UploadRow>, NoMemory>
        ensures value { IfOk result (λ rows. rows.items
            ≡ take most (filter (is_upload_from (BehindUpload key.now id)) (flat_map upload_rows_of (map.entries self.now)))) }
        ensures memory { OnErr result (
            take most (filter (is_upload_from (BehindUpload key.now id)) (flat_map upload_rows_of (map.entries self.now))) ≢ []) }
    {
        let mut rows = self.ids_behind(alloc, key, id, most)?;
        match add_keys(&mut rows, &self.by_key, Bound::Excluded(key), most) {
            Ok(()) => Ok(rows),
            Err(failed) => {
                drop(rows);
                Err(failed)
            }
        }
    }

    // The rows of the uploads to a key behind an id.
    fn ids_behind(
        &self,
        alloc: Global,
        key: &Key,
        id: UploadId,
        most: usize,
    ) -> Result<Vec<UploadRow>, NoMemory>
        ensures value { IfOk result (λ rows. rows.items
            ≡ take most (filter (λ row. nat_lt id row.id) (upload_rows_of (key.now, uploads_under self.now key.now)))) }
        ensures memory { OnErr result (
            take most (filter (λ row. nat_lt id row.id) (upload_rows_of (key.now, uploads_under self.now key.now))) ≢ []) }
    {
        match self.under(key) {
            None => Ok(Vec::new(alloc)),
            Some(uploads) => uploads.rows_behind(alloc, key, id, most),
        }
    }

    /// Puts in an upload, in the place of the one that has its key and its id. `NoMemory` leaves the uploads as they were.
    pub(crate) fn add(
        &mut self,
        alloc: Global,
        key: Key,
        id: UploadId,
        upload: Upload<Body>,
    ) -> Result<(), NoMemory>
        ensures ok { OnOk result (self.new ≡ with_upload self.old key id (Some upload)) }
        ensures err { OnErr result (self.new ≡ self.old) }
    {
        match self.by_key.get_mut(&key) {
            Some(uploads) => {
                drop(key);
                uploads.put(id, upload)
            }
            None => put(&mut self.by_key, key, OpenUploads::of(alloc, id, upload)),
        }
    }

    /// Puts a part to the upload of this id to the key, which is there, and answers the one that it replaces. `NoMemory`, which
    /// comes only where none is replaced, leaves the uploads as they were.
    pub(crate) fn put_part(
        &mut self,
        key: &Key,
        id: UploadId,
        number: PartNumber,
        part: Part<Body>,
    ) -> Result<Option<Part<Body>>, NoMemory>
        requires { IsTrue (is_some (upload_under self.old key.now id)) }
        ensures ok { OnOk result (self.new
            ≡ with_upload self.old key.now id (option_map (with_part number part) (upload_under self.old key.now id))) }
        ensures former { IfOk result (λ former. former ≡ part_at number (parts_sent (upload_under self.old key.now id))) }
        ensures err { OnErr result (self.new ≡ self.old) }
        ensures memory { OnErr result (part_at number (parts_sent (upload_under self.old key.now id)) ≡ None) }
    {
        match self.by_key.get_mut(key) {
            // The caller knows that the key has an open upload.
            None => unreachable!(),
            Some(uploads) => uploads.put_part(id, number, part),
        }
    }

    /// Takes out the upload of this id to the key, and answers it. Takes no memory.
    pub(crate) fn drop_upload(&mut self, key: &Key, id: UploadId) -> Option<Upload<Body>>
        ensures value { self.new ≡ with_upload self.old key.now id None }
        ensures gone { result ≡ upload_under self.old key.now id }
    {
        match self.by_key.get_mut(key) {
            None => None,
            Some(uploads) => {
                let gone = uploads.drop_upload(id);
                if uploads.is_empty() {
                    drop(self.by_key.remove(key));
                }
                gone
            }
        }
    }
}
