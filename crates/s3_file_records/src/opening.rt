//! A folder is opened: its rows are read and checked, then the bodies that these name.
ghost use Rattle.std.specs.Prelude.{◌≡◌, ℕ, List, length, false, IsTrue, IfOk, OnOk};
ghost use Rattle.sqlite_trees.specs.Tree.{Trees};
ghost use Rattle.sqlite_wal.specs.Files.{image_at};
ghost use Rattle.sqlite.specs.State.{HasCleanDisk};
ghost use Rattle.sqlite.specs.Files.{HoldsDatabase, file_state};
ghost use Rattle.s3_records.specs.Catalogue.{Catalogue};
ghost use Rattle.s3_keepers.specs.Begun.{HasBuckets, with_buckets};
ghost use Rattle.s3_keepers.specs.Sound.{IsSoundCatalogue};
ghost use Rattle.s3_rows.specs.Columns.{Tables};
ghost use Rattle.s3_stored_bodies.specs.Numbers.{times};
ghost use Rattle.s3_block_bodies.specs.Stored.{HasNamed};
ghost use Rattle.s3_block_bodies.specs.Parts.{contents_in, uses_in, disk_in};
ghost use Rattle.s3_tables.specs.Stored.{Stores};
ghost use Rattle.s3_tables.specs.Keeping.{tables as file_tables};
ghost use Rattle.s3_found_rows.specs.Found.{tables_of};
ghost use Rattle.s3_table_files.specs.Opening.{StaysTo};
ghost use Rattle.s3_table_files.specs.Blocks.{file_is_clean};
ghost use Rattle.s3_mirrored_rows.specs.Mirror.{MayLeave};
ghost use Rattle.s3_table_records.specs.Kept.{catalogue, kept_in};
ghost use Rattle.s3_table_records.specs.Numbered.{SaysNumber};
ghost use Rattle.s3_file_records.specs.Found.{said, IsFound, WasOpen, HasOtherStore, AreAsFound, AreOf, catalogue_in};

use crate::file_keeper::{FileBodies, FileRecords};
use crate::numbers::{begin, begun};
use crate::progress::OpeningProgress;
use crate::system_keeper::SystemRecords;
use crate::system_tables::SystemTables;
use s3_block_bodies::BlockBodies;
use s3_found_rows::{Found, FoundTables, load};
use s3_keepers::{FoundAmounts, Opened, add_missing};
use s3_mirrored_rows::MirroredRows;
use s3_names::BucketName;
use s3_progress::Progress;
use s3_records::{CommitError, Records};
use s3_sql_rows::SqlRows;
use s3_storage::StorageFault;
use s3_stored_bodies::StoredBodies;
use s3_stored_rows::StoredRows;
use s3_table_files::{FileTables, LastingTables, SpareRoom, make_folder, open_blocks};
use s3_table_records::TableRecords;
use sqlite_disk::Disk;
use sqlite_std_file::{FileFrom, Start, Unknown};
use std::alloc::Global;
use std::snapshot::Snapshot;

/// The records of the folder at a path, as `FolderKeeper::open` says.
pub(crate) fn opened<S: Start, T: Start>(
    rt: &HostRuntime,
    alloc: Global,
    path: &str,
    buckets: &[BucketName],
    rows: S,
    bodies: T,
) -> Result<Opened<FileRecords<S, T>>, StorageFault>
    ensures held { IfOk result (λ opened. (held : Catalogue (List ℕ)) (number : ℕ)
        → AreOf (file_state opened.first.value.rows.file.tables) (IsTrue (file_is_clean T.Start (disk_in opened.first.value.bodies))) (image_at S.Start) T.Start.db held number
        → (catalogue_in opened.first.value ≡ held) × (opened.number ≡ number)) }
    ensures made { IfOk result (λ opened. catalogue_in opened.records ≡ with_buckets buckets.now (catalogue_in opened.first.value)) }
    ensures sound { IfOk result (λ opened. IsSoundCatalogue (catalogue_in opened.records) opened.number) }
    ensures buckets { IfOk result (λ opened. HasBuckets buckets.now (catalogue_in opened.records)) }
{
    let mut progress = OpeningProgress::new(rt);
    let (file, memory, found) = read_folder(rt, alloc, path, rows, &mut progress)?;
    over_file(
        rt,
        alloc,
        path,
        memory,
        file,
        &found,
        buckets,
        bodies,
        &mut progress,
    )
}

/// The same over files of which nothing is known, so that no clause says what they held.
pub(crate) fn opened_in_system(
    rt: &HostRuntime,
    alloc: Global,
    path: &str,
    buckets: &[BucketName],
) -> Result<Opened<SystemRecords>, StorageFault>
    ensures made { IfOk result (λ opened. catalogue_in opened.records ≡ with_buckets buckets.now (catalogue_in opened.first.value)) }
    ensures sound { IfOk result (λ opened. IsSoundCatalogue (catalogue_in opened.records) opened.number) }
    ensures buckets { IfOk result (λ opened. HasBuckets buckets.now (catalogue_in opened.records)) }
{
    let mut progress = OpeningProgress::new(rt);
    let (file, memory, found) = read_folder(rt, alloc, path, Unknown, &mut progress)?;
    over_file(
        rt,
        alloc,
        path,
        memory,
        SystemTables::of(file),
        &found,
        buckets,
        Unknown,
        &mut progress,
    )
}

// The rows of a folder in its file and in memory, and what is known of them.
fn read_folder<S: Start, P: Progress>(
    rt: &HostRuntime,
    alloc: Global,
    path: &str,
    rows: S,
    progress: &mut P,
) -> Result<(FileTables<FileFrom<S>>, SqlRows, Found), StorageFault>
    ensures found { IfOk result (λ read. IsFound read.2 read.1) }
    ensures store { IfOk result (λ read. SaysNumber read.2.number read.1) }
    ensures same { IfOk result (λ read. HasCleanDisk (file_state read.0.tables) → IsTrue (file_state read.0.tables).is_open → file_tables (file_state read.0.tables) ≡ read.1) }
    ensures held { IfOk result (λ read. HasCleanDisk (file_state read.0.tables) → IsTrue (file_state read.0.tables).is_open → (db : Trees) (there : Tables)
        → HoldsDatabase (image_at S.Start) db → Stores db there → read.1 ≡ there) }
{
    make_folder(rt, path)?;
    let name = format!(in alloc; "{path}/records.db")?;
    let mut file = FileTables::open(rt, name.as_str(), rows)?;
    match loaded(alloc, &mut file, progress) {
        Ok((memory, found)) => Ok((file, memory, found)),
        Err(fault) => {
            progress.end();
            drop(file);
            Err(fault)
        }
    }
}

// The records over rows that were found in a file, and the bodies that these name.
fn over_file<F: LastingTables + Drop, T: Start, P: Progress>(
    rt: &HostRuntime,
    alloc: Global,
    path: &str,
    memory: SqlRows,
    file: F,
    found: &Found,
    buckets: &[BucketName],
    start: T,
    progress: &mut P,
) -> Result<Opened<TableRecords<MirroredRows<F>, FileBodies<T>>>, StorageFault>
    requires found { IsFound found.now memory }
    requires store { SaysNumber found.now.number memory }
    requires same { HasCleanDisk (F.LastingTables.state file) → IsTrue (F.LastingTables.state file).is_open → file_tables (F.LastingTables.state file) ≡ memory }
    ensures first { IfOk result (λ opened. AreAsFound memory found.now.bodies.items (F.LastingTables.state file) (F.LastingTables.state opened.first.value.rows.file)
        (IsTrue (file_is_clean T.Start (disk_in opened.first.value.bodies))) T.Start.db opened.first.value.rows.memory (contents_in opened.first.value.bodies)) }
    ensures number { IfOk result (λ opened. opened.number ≡ found.now.number) }
    ensures made { IfOk result (λ opened. catalogue_in opened.records ≡ with_buckets buckets.now (catalogue_in opened.first.value)) }
    ensures sound { IfOk result (λ opened. IsSoundCatalogue (catalogue_in opened.records) opened.number) }
    ensures buckets { IfOk result (λ opened. HasBuckets buckets.now (catalogue_in opened.records)) }
{
    match found_bodies(rt, alloc, path, found, start, progress) {
        Ok(bodies) => {
            progress.end();
            over_both(rt, alloc, path, memory, file, bodies, found, buckets)
        }
        Err(fault) => {
            progress.end();
            drop(memory);
            drop(file);
            Err(fault)
        }
    }
}

// The same with these bodies.
fn over_both<F: LastingTables + Drop, D: Disk + Drop>(
    rt: &HostRuntime,
    alloc: Global,
    path: &str,
    memory: SqlRows,
    file: F,
    bodies: BlockBodies<D>,
    found: &Found,
    buckets: &[BucketName],
) -> Result<Opened<TableRecords<MirroredRows<F>, BlockBodies<D>>>, StorageFault>
    requires found { IsFound found.now memory }
    requires store { SaysNumber found.now.number memory }
    requires same { HasCleanDisk (F.LastingTables.state file) → IsTrue (F.LastingTables.state file).is_open → file_tables (F.LastingTables.state file) ≡ memory }
    requires named { uses_in bodies ≡ (λ number. times number found.now.bodies.items) }
    ensures rows { IfOk result (λ opened. HasOtherStore memory opened.first.value.rows.memory) }
    ensures was { IfOk result (λ opened. HasCleanDisk (F.LastingTables.state opened.first.value.rows.file) → WasOpen (F.LastingTables.state file)) }
    ensures bodies { IfOk result (λ opened. opened.first.value.bodies ≡ bodies) }
    ensures number { IfOk result (λ opened. opened.number ≡ found.now.number) }
    ensures made { IfOk result (λ opened. catalogue_in opened.records ≡ with_buckets buckets.now (catalogue_in opened.first.value)) }
    ensures sound { IfOk result (λ opened. IsSoundCatalogue (catalogue_in opened.records) opened.number) }
    ensures buckets { IfOk result (λ opened. HasBuckets buckets.now (catalogue_in opened.records)) }
{
    let free = bodies.free_bytes();
    match mirrored(rt, alloc, path, memory, file, found) {
        Ok(rows) => begin_with(alloc, rows, bodies, found, free, buckets),
        Err(fault) => {
            drop(bodies);
            Err(fault)
        }
    }
}

// The records over rows and bodies that were found, with these buckets.
fn begin_with<R: StoredRows + Drop, B: StoredBodies + Drop>(
    alloc: Global,
    rows: R,
    bodies: B,
    found: &Found,
    free: u64,
    buckets: &[BucketName],
) -> Result<Opened<TableRecords<R, B>>, StorageFault>
    requires found { IsFound found.now (R.tables rows) }
    requires says { SaysNumber (said found.now.number) (R.tables rows) }
    requires left { (t : Tables) → R.leaves rows t → t ≡ R.tables rows }
    requires named { B.uses bodies ≡ (λ number. times number found.now.bodies.items) }
    ensures rows { IfOk result (λ opened. opened.first.value.rows ≡ rows) }
    ensures bodies { IfOk result (λ opened. opened.first.value.bodies ≡ bodies) }
    ensures number { IfOk result (λ opened. opened.number ≡ found.now.number) }
    ensures made { IfOk result (λ opened. catalogue (kept_in R.tables B.contents B.uses opened.records)
        ≡ with_buckets buckets.now (catalogue (kept_in R.tables B.contents B.uses opened.first.value))) }
    ensures sound { IfOk result (λ opened. IsSoundCatalogue (catalogue (kept_in R.tables B.contents B.uses opened.records)) opened.number) }
    ensures buckets { IfOk result (λ opened. HasBuckets buckets.now (catalogue (kept_in R.tables B.contents B.uses opened.records))) }
{
    let mut records = TableRecords::over(rows, bodies, found.next, begun(found.number));
    let first = Snapshot::of(&records);
    match make_missing(&mut records, alloc, found.number, buckets) {
        Ok(()) => Ok(Opened {
            records,
            number: found.number,
            first,
            found: amounts(found, free),
        }),
        Err(fault) => {
            drop(records);
            Err(fault)
        }
    }
}

// How much was found, where so many bytes are free.
fn amounts(found: &Found, free: u64) -> FoundAmounts {
    FoundAmounts {
        versions: found.versions,
        bytes: found.bytes,
        free,
    }
}

// Makes the buckets of these names that are missing, and commits them, with the number of the next entry.
fn make_missing<K: Records>(
    records: &mut K,
    alloc: Global,
    next: u64,
    buckets: &[BucketName],
) -> Result<(), StorageFault>
    ensures made { OnOk result (K.catalogue records.new ≡ with_buckets buckets.now (K.catalogue records.old)) }
    ensures there { OnOk result (HasBuckets buckets.now (K.catalogue records.new)) }
    ensures sound { (number : ℕ) → IsSoundCatalogue (K.catalogue records.old) number → IsSoundCatalogue (K.catalogue records.new) number }
{
    add_missing(records, alloc, buckets)?;
    match records.commit(next) {
        Ok(()) => Ok(()),
        Err(CommitError::NoMemory) => Err(StorageFault::NoMemory),
        Err(CommitError::Failed) => Err(StorageFault::Failed),
    }
}

// The rows of a file in memory, and what is known of them.
fn loaded<D: Disk, P: Progress>(
    alloc: Global,
    file: &mut FileTables<D>,
    progress: &mut P,
) -> Result<(SqlRows, Found), StorageFault>
    ensures found { IfOk result (λ loaded. IsFound loaded.1 loaded.0) }
    ensures store { IfOk result (λ loaded. SaysNumber loaded.1.number loaded.0) }
    ensures same { IfOk result (λ loaded. HasCleanDisk (file_state file.new.tables) → IsTrue (file_state file.new.tables).is_open → file_tables (file_state file.new.tables) ≡ loaded.0) }
    ensures stays { IfOk result (λ _. StaysTo (file_state file.old.tables) (file_state file.new.tables)) }
{
    let mut found = file.read(alloc)?;
    in_memory(alloc, &mut found, progress)
}

// The rows that were found in memory, and what is known of them.
fn in_memory<P: Progress>(
    alloc: Global,
    tables: &mut FoundTables,
    progress: &mut P,
) -> Result<(SqlRows, Found), StorageFault>
    ensures found { IfOk result (λ loaded. IsFound loaded.1 loaded.0) }
    ensures store { IfOk result (λ loaded. SaysNumber loaded.1.number loaded.0) }
    ensures same { IfOk result (λ loaded. loaded.0 ≡ tables_of tables.old) }
{
    let mut memory = SqlRows::new(alloc)?;
    match load(alloc, tables, &mut memory, progress) {
        Ok(found) => Ok((memory, found)),
        Err(fault) => {
            drop(memory);
            Err(fault)
        }
    }
}

// Rows in memory over a file that has the same, of a folder that is begun, and the room that it spares.
fn mirrored<F: LastingTables + Drop>(
    rt: &HostRuntime,
    alloc: Global,
    path: &str,
    memory: SqlRows,
    file: F,
    found: &Found,
) -> Result<MirroredRows<F>, StorageFault>
    requires found { IsFound found.now memory }
    requires store { SaysNumber found.now.number memory }
    requires same { HasCleanDisk (F.LastingTables.state file) → IsTrue (F.LastingTables.state file).is_open → file_tables (F.LastingTables.state file) ≡ memory }
    ensures found { IfOk result (λ rows. IsFound found.now rows.memory) }
    ensures says { IfOk result (λ rows. SaysNumber (said found.now.number) rows.memory) }
    ensures left { IfOk result (λ rows. (t : Tables) → MayLeave (F.LastingTables.state rows.file) t → t ≡ rows.memory) }
    ensures rest { IfOk result (λ rows. HasOtherStore memory rows.memory) }
    ensures was { IfOk result (λ rows. HasCleanDisk (F.LastingTables.state rows.file) → WasOpen (F.LastingTables.state file)) }
{
    match spare_room(rt, alloc, path) {
        Ok(spare) => with_room(alloc, memory, file, spare, found),
        Err(fault) => {
            drop(memory);
            drop(file);
            Err(fault)
        }
    }
}

// The same with this room.
fn with_room<F: LastingTables + Drop>(
    alloc: Global,
    memory: SqlRows,
    file: F,
    spare: SpareRoom,
    found: &Found,
) -> Result<MirroredRows<F>, StorageFault>
    requires found { IsFound found.now memory }
    requires store { SaysNumber found.now.number memory }
    requires same { HasCleanDisk (F.LastingTables.state file) → IsTrue (F.LastingTables.state file).is_open → file_tables (F.LastingTables.state file) ≡ memory }
    ensures found { IfOk result (λ rows. IsFound found.now rows.memory) }
    ensures says { IfOk result (λ rows. SaysNumber (said found.now.number) rows.memory) }
    ensures left { IfOk result (λ rows. (t : Tables) → MayLeave (F.LastingTables.state rows.file) t → t ≡ rows.memory) }
    ensures rest { IfOk result (λ rows. HasOtherStore memory rows.memory) }
    ensures was { IfOk result (λ rows. HasCleanDisk (F.LastingTables.state rows.file) → WasOpen (F.LastingTables.state file)) }
{
    let (mut memory, mut file) = (memory, file);
    match begin(&mut memory, &mut file, found.number) {
        Ok(()) => Ok(MirroredRows::new(alloc, memory, file, spare)),
        Err(fault) => {
            drop(memory);
            drop(file);
            drop(spare);
            Err(fault)
        }
    }
}

// The room that a folder spares for changes.
fn spare_room(rt: &HostRuntime, alloc: Global, path: &str) -> Result<SpareRoom, StorageFault> {
    let name = format!(in alloc; "{path}/spare")?;
    SpareRoom::open(rt, alloc, name.as_str())
}

// The bodies that rows name. Where the rows are those of a new store there may be no bytes: else these are of rows that were lost.
fn found_bodies<T: Start, P: Progress>(
    rt: &HostRuntime,
    alloc: Global,
    path: &str,
    found: &Found,
    start: T,
    progress: &mut P,
) -> Result<FileBodies<T>, StorageFault>
    ensures named { IfOk result (λ bodies. uses_in bodies ≡ (λ number. times number found.now.bodies.items)) }
    ensures found { IfOk result (λ bodies. IsTrue (file_is_clean T.Start (disk_in bodies)) → HasNamed T.Start.db (λ n. times n found.now.bodies.items) (contents_in bodies)) }
{
    let name = format!(in alloc; "{path}/blocks")?;
    let disk = open_blocks(rt, name.as_str(), start)?;
    bodies_on(alloc, disk, found, progress)
}

// The same of a file.
fn bodies_on<D: Disk + Drop, P: Progress>(
    alloc: Global,
    disk: D,
    found: &Found,
    progress: &mut P,
) -> Result<BlockBodies<D>, StorageFault>
    requires { IsTrue (D.Disk.is_usable disk) }
    ensures named { IfOk result (λ bodies. uses_in bodies ≡ (λ number. times number found.now.bodies.items)) }
    ensures found { IfOk result (λ bodies. IsTrue (D.Disk.is_clean (disk_in bodies)) → HasNamed (D.Disk.seen disk) (λ n. times n found.now.bodies.items) (contents_in bodies)) }
{
    let mut disk = disk;
    if found.number == 0 && has_bytes(&mut disk) {
        drop(disk);
        return Err(StorageFault::Damaged);
    }
    all_bodies(alloc, disk, found.bodies.as_slice(), progress)
}

// The bodies of these numbers in a file.
fn all_bodies<D: Disk + Drop, P: Progress>(
    alloc: Global,
    disk: D,
    numbers: &[u64],
    progress: &mut P,
) -> Result<BlockBodies<D>, StorageFault>
    requires { IsTrue (D.Disk.is_usable disk) }
    ensures named { IfOk result (λ bodies. uses_in bodies ≡ (λ number. times number numbers.now)) }
    ensures found { IfOk result (λ bodies. IsTrue (D.Disk.is_clean (disk_in bodies)) → HasNamed (D.Disk.seen disk) (λ n. times n numbers.now) (contents_in bodies)) }
{
    let bodies = BlockBodies::open(alloc, disk, numbers, progress)?;
    bodies.are_housed();
    Ok(bodies)
}

// Whether a file has bytes. One whose length can't be asked for may have some.
fn has_bytes<D: Disk>(disk: &mut D) -> bool
    requires { IsTrue (D.Disk.is_usable disk.old) }
    ensures usable { IsTrue (D.Disk.is_usable disk.new) }
    ensures seen { D.Disk.seen disk.new ≡ D.Disk.seen disk.old }
    ensures none { result ≡ false → IsTrue (D.Disk.is_clean disk.new) → length (D.Disk.seen disk.old) ≡ 0 }
{
    match disk.len() {
        Ok(length) => length > 0,
        Err(_) => true,
    }
}
