//! The rows of a store in tables of SQL.
ghost use Rattle.std.specs.Prelude.{◌≡◌, pos, IfOk};
ghost use Rattle.std.specs.Result.{result_ok};
ghost use Rattle.s3_tables.specs.Making.{first_tables};

use s3_memory_database::open_in_memory;
use s3_memory_disk::MemoryDisk;
use s3_records::CommitError;
use s3_stored_rows::{
    Change, StoreNumbers, StoredBucket, StoredPart, StoredRows, StoredUpload, StoredVersion,
};
use s3_tables::{TableFile, stored_rows_are_unique};
use s3_terms::NoMemory;
use sqlite::{Error, FileStore};
use std::alloc::Global;
use std::marker::Model;
use std::snapshot::Snapshot;

/// The rows of a store in tables of SQL, which lie in memory and end with it.
///
/// Contracts see the tables. Where the connection below is shut, as a fault of its store leaves it, they are as they were
/// then, and each call has an error.
pub struct SqlRows {
    file: TableFile<FileStore<MemoryDisk>>,
    // The file as it was made, or as its last change left it. It has no bytes.
    known: Snapshot<TableFile<FileStore<MemoryDisk>>>,
}

impl Model for SqlRows {
    ghost use Rattle.sqlite.specs.Files.{file_state};
    ghost use Rattle.s3_rows.specs.Columns.{Tables};
    ghost use Rattle.s3_tables.specs.Keeping.{tables};
    ghost use Rattle.s3_sql_rows.specs.Known.{IsKnown};

    ghost Value = { Tables };

    ghost view = { λ s. tables (file_state s.known.value) };

    ghost invariant = { λ s. IsKnown (file_state s.file) (file_state s.known.value) };
}

// It is written out, so that no crate above proves again how a store over files is dropped.
impl Drop for SqlRows {
    fn drop(self) {
        let SqlRows { file: _, known: _ } = self;
    }
}

// What a call answered, where each error is one of memory.
fn told<T>(answer: Result<T, Error>) -> Result<T, NoMemory>
    ensures { result_ok result ≡ result_ok answer }
{
    match answer {
        Ok(found) => Ok(found),
        Err(_) => Err(NoMemory),
    }
}

impl SqlRows {
    /// Tables in memory with no rows but that of `store`, whose next entry has the number 0.
    pub fn new(alloc: Global) -> Result<SqlRows, NoMemory>
        ensures { IfOk result (λ rows. rows ≡ first_tables (record { row = pos 1; form = pos 1; number = pos 0 })) }
    {
        stored_rows_are_unique();
        let Ok(database) = open_in_memory(alloc) else {
            return Err(NoMemory);
        };
        let store = StoreNumbers {
            row: 1,
            form: 1,
            number: 0,
        };
        match TableFile::make(database, &store) {
            Ok(file) => Ok(SqlRows {
                known: Snapshot::of(&file),
                file,
            }),
            Err(_) => Err(NoMemory),
        }
    }
}

/// A call takes the time of its statements: those that ask visit the rows that they show, and a change syncs the log once. A crash
/// leaves nothing.
impl StoredRows for SqlRows {
    ghost tables = { λ rows. rows };

    ghost leaves = { λ _ _. ⊥ };

    fn are_unique(&self) {
        let _ = &self.known;
    }

    fn commit(&mut self) -> Result<(), CommitError> {
        Ok(())
    }

    fn apply(&mut self, changes: &[Change]) -> Result<(), NoMemory> {
        stored_rows_are_unique();
        match self.file.apply(changes) {
            Ok(()) => {
                self.known = Snapshot::of(&self.file);
                Ok(())
            }
            Err(_) => Err(NoMemory),
        }
    }

    fn bucket(&mut self, name: &[u8]) -> Result<Option<StoredBucket>, NoMemory> {
        told(self.file.bucket(name))
    }

    fn buckets(&mut self, alloc: Global) -> Result<Vec<StoredBucket>, NoMemory> {
        told(self.file.buckets(alloc))
    }

    fn newest(&mut self, bucket: &[u8], key: &[u8]) -> Result<Option<StoredVersion>, NoMemory> {
        told(self.file.newest(bucket, key))
    }

    fn version(
        &mut self,
        bucket: &[u8],
        key: &[u8],
        id: i64,
    ) -> Result<Option<StoredVersion>, NoMemory> {
        told(self.file.version(bucket, key, id))
    }

    fn versions_below(
        &mut self,
        alloc: Global,
        bucket: &[u8],
        key: &[u8],
        number: i64,
        most: u32,
    ) -> Result<Vec<StoredVersion>, NoMemory> {
        told(self.file.versions_below(alloc, bucket, key, number, most))
    }

    fn versions_from(
        &mut self,
        alloc: Global,
        bucket: &[u8],
        key: &[u8],
        most: u32,
    ) -> Result<Vec<StoredVersion>, NoMemory> {
        told(self.file.versions_from(alloc, bucket, key, most))
    }

    fn versions_behind(
        &mut self,
        alloc: Global,
        bucket: &[u8],
        key: &[u8],
        most: u32,
    ) -> Result<Vec<StoredVersion>, NoMemory> {
        told(self.file.versions_behind(alloc, bucket, key, most))
    }

    fn has_versions(&mut self, bucket: &[u8]) -> Result<bool, NoMemory> {
        told(self.file.has_versions(bucket))
    }

    fn upload(
        &mut self,
        bucket: &[u8],
        key: &[u8],
        id: i64,
    ) -> Result<Option<StoredUpload>, NoMemory> {
        told(self.file.upload(bucket, key, id))
    }

    fn uploads_from(
        &mut self,
        alloc: Global,
        bucket: &[u8],
        key: &[u8],
        most: u32,
    ) -> Result<Vec<StoredUpload>, NoMemory> {
        told(self.file.uploads_from(alloc, bucket, key, most))
    }

    fn uploads_behind(
        &mut self,
        alloc: Global,
        bucket: &[u8],
        key: &[u8],
        most: u32,
    ) -> Result<Vec<StoredUpload>, NoMemory> {
        told(self.file.uploads_behind(alloc, bucket, key, most))
    }

    fn uploads_above(
        &mut self,
        alloc: Global,
        bucket: &[u8],
        key: &[u8],
        id: i64,
        most: u32,
    ) -> Result<Vec<StoredUpload>, NoMemory> {
        told(self.file.uploads_above(alloc, bucket, key, id, most))
    }

    fn has_uploads(&mut self, bucket: &[u8]) -> Result<bool, NoMemory> {
        told(self.file.has_uploads(bucket))
    }

    fn part(&mut self, upload: i64, part: i64) -> Result<Option<StoredPart>, NoMemory> {
        told(self.file.part(upload, part))
    }

    fn parts_above(
        &mut self,
        alloc: Global,
        upload: i64,
        part: i64,
        most: u32,
    ) -> Result<Vec<StoredPart>, NoMemory> {
        told(self.file.parts_above(alloc, upload, part, most))
    }

    fn store(&mut self) -> Result<Option<StoreNumbers>, NoMemory> {
        told(self.file.store())
    }
}
