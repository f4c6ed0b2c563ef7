//! The keeper of rows that reads from memory and writes to a file too.
ghost use Rattle.std.specs.Prelude.{◌≡◌, length, take, IsTrue, OnOk, OnErr};
ghost use Rattle.sqlite.specs.State.{HasCleanDisk};
ghost use Rattle.s3_rows.specs.Columns.{Tables};
ghost use Rattle.s3_stored_rows.specs.Changes.{after_all};
ghost use Rattle.s3_tables.specs.Keeping.{tables as file_tables};
ghost use Rattle.s3_mirrored_rows.specs.Mirror.{MayLeave};

use crate::committing::{add_waiting, commit};
use s3_records::CommitError;
use s3_sql_rows::SqlRows;
use s3_stored_rows::{
    Change, StoreNumbers, StoredBucket, StoredPart, StoredRows, StoredUpload, StoredVersion,
};
use s3_table_files::{LastingTables, SpareRoom};
use s3_tables::stored_tables_are_one;
use s3_terms::NoMemory;
use std::alloc::Global;
use std::marker::Model;

/// Rows in memory, and a file of the same tables. All that is asked is answered from memory. A list of changes is made in memory, and
/// waits to be made in the file: `commit` makes all that wait in one transaction, which syncs the disk of the file.
///
/// Contracts see the rows in memory and the connection of the file. A change has an error where memory runs out, and where the folder
/// doesn't hold the room that is spared for a commit; then it changes nothing, and nothing waits for it. Where a commit has an error, all
/// that waited waits on for the next one; a file that the disk has shut takes no more.
#[derive(Drop)]
pub struct MirroredRows<F: LastingTables> {
    memory: SqlRows,
    file: F,
    // Copies of the changes that memory has and the file hasn't, oldest first.
    waiting: Vec<Change>,
    spare: SpareRoom,
}

impl<F: LastingTables> Model for MirroredRows<F> {
    ghost use Rattle.std.specs.Coded.{codes};
    ghost use Rattle.s3_mirrored_rows.specs.Mirror.{Mirror, mirror_code, Awaits};

    ghost Value = { Mirror F };

    ghost coded = { mirror_code (Prim.hlevel codes) F.code };

    ghost view = { λ m. record { memory = m.memory; file = m.file } };

    ghost invariant = { λ m. Awaits (F.LastingTables.state m.file) m.waiting.items m.memory };
}

impl<F: LastingTables> MirroredRows<F> {
    /// The rows in memory over a file that has the same, and answers, in a folder that has this room to spare.
    pub fn new(alloc: Global, memory: SqlRows, file: F, spare: SpareRoom) -> MirroredRows<F>
        requires open { HasCleanDisk (F.LastingTables.state file) → IsTrue (F.LastingTables.state file).is_open }
        requires same { HasCleanDisk (F.LastingTables.state file) → file_tables (F.LastingTables.state file) ≡ memory }
        ensures value { result ≡ record { memory = memory; file = file } }
        ensures durable { (t : Tables) → MayLeave (F.LastingTables.state file) t → t ≡ memory }
    {
        stored_tables_are_one();
        let _is_live = file.is_live();
        MirroredRows {
            memory,
            file,
            waiting: Vec::new(alloc),
            spare,
        }
    }

    /// The tables in files.
    pub fn file(&self) -> &F
        ensures { result.now ≡ self.now.file }
    {
        &self.file
    }
}

// Makes changes in memory, and has them wait for the file. An error leaves memory as it was, and those that waited in front.
fn apply_both(
    memory: &mut SqlRows,
    waiting: &mut Vec<Change>,
    changes: &[Change],
) -> Result<(), NoMemory>
    ensures ok { OnOk result (memory.new ≡ after_all changes.now memory.old) }
    ensures err { OnErr result (memory.new ≡ memory.old) }
    ensures more { OnOk result ((t : Tables) → after_all waiting.new.items t ≡ after_all changes.now (after_all waiting.old.items t)) }
    ensures front { take (length waiting.old.items) waiting.new.items ≡ waiting.old.items }
{
    add_waiting(waiting, changes)?;
    memory.apply(changes)
}

/// A call that asks takes the time of the rows in memory, and a change that too; a commit takes that of the file, with its sync.
impl<F: LastingTables> StoredRows for MirroredRows<F> {
    ghost tables = { λ rows. rows.memory };

    ghost leaves = { λ rows t. MayLeave (F.LastingTables.state rows.file) t };

    fn are_unique(&self) {
        self.memory.are_unique();
    }

    fn commit(&mut self) -> Result<(), CommitError> {
        commit(&mut self.file, &mut self.waiting, &mut self.spare)
    }

    fn apply(&mut self, changes: &[Change]) -> Result<(), NoMemory> {
        if !self.spare.hold() {
            return Err(NoMemory);
        }
        let before = self.waiting.len();
        match apply_both(&mut self.memory, &mut self.waiting, changes) {
            Ok(()) => Ok(()),
            Err(failed) => {
                self.waiting.truncate(before);
                Err(failed)
            }
        }
    }

    fn bucket(&mut self, name: &[u8]) -> Result<Option<StoredBucket>, NoMemory> {
        self.memory.bucket(name)
    }

    fn buckets(&mut self, alloc: Global) -> Result<Vec<StoredBucket>, NoMemory> {
        self.memory.buckets(alloc)
    }

    fn newest(&mut self, bucket: &[u8], key: &[u8]) -> Result<Option<StoredVersion>, NoMemory> {
        self.memory.newest(bucket, key)
    }

    fn version(
        &mut self,
        bucket: &[u8],
        key: &[u8],
        id: i64,
    ) -> Result<Option<StoredVersion>, NoMemory> {
        self.memory.version(bucket, key, id)
    }

    fn versions_below(
        &mut self,
        alloc: Global,
        bucket: &[u8],
        key: &[u8],
        number: i64,
        most: u32,
    ) -> Result<Vec<StoredVersion>, NoMemory> {
        self.memory.versions_below(alloc, bucket, key, number, most)
    }

    fn versions_from(
        &mut self,
        alloc: Global,
        bucket: &[u8],
        key: &[u8],
        most: u32,
    ) -> Result<Vec<StoredVersion>, NoMemory> {
        self.memory.versions_from(alloc, bucket, key, most)
    }

    fn versions_behind(
        &mut self,
        alloc: Global,
        bucket: &[u8],
        key: &[u8],
        most: u32,
    ) -> Result<Vec<StoredVersion>, NoMemory> {
        self.memory.versions_behind(alloc, bucket, key, most)
    }

    fn has_versions(&mut self, bucket: &[u8]) -> Result<bool, NoMemory> {
        self.memory.has_versions(bucket)
    }

    fn upload(
        &mut self,
        bucket: &[u8],
        key: &[u8],
        id: i64,
    ) -> Result<Option<StoredUpload>, NoMemory> {
        self.memory.upload(bucket, key, id)
    }

    fn uploads_from(
        &mut self,
        alloc: Global,
        bucket: &[u8],
        key: &[u8],
        most: u32,
    ) -> Result<Vec<StoredUpload>, NoMemory> {
        self.memory.uploads_from(alloc, bucket, key, most)
    }

    fn uploads_behind(
        &mut self,
        alloc: Global,
        bucket: &[u8],
        key: &[u8],
        most: u32,
    ) -> Result<Vec<StoredUpload>, NoMemory> {
        self.memory.uploads_behind(alloc, bucket, key, most)
    }

    fn uploads_above(
        &mut self,
        alloc: Global,
        bucket: &[u8],
        key: &[u8],
        id: i64,
        most: u32,
    ) -> Result<Vec<StoredUpload>, NoMemory> {
        self.memory.uploads_above(alloc, bucket, key, id, most)
    }

    fn has_uploads(&mut self, bucket: &[u8]) -> Result<bool, NoMemory> {
        self.memory.has_uploads(bucket)
    }

    fn part(&mut self, upload: i64, part: i64) -> Result<Option<StoredPart>, NoMemory> {
        self.memory.part(upload, part)
    }

    fn parts_above(
        &mut self,
        alloc: Global,
        upload: i64,
        part: i64,
        most: u32,
    ) -> Result<Vec<StoredPart>, NoMemory> {
        self.memory.parts_above(alloc, upload, part, most)
    }

    fn store(&mut self) -> Result<Option<StoreNumbers>, NoMemory> {
        self.memory.store()
    }
}
