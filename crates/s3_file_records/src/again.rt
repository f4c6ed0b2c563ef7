//! What the next run finds.
ghost use Rattle.std.specs.Prelude.{◌≡◌, ◌≤◌, ℕ, List, IsTrue, IfOk};
ghost use Rattle.sqlite_wal.specs.Files.{image_at};
ghost use Rattle.sqlite.specs.State.{HasCleanDisk};
ghost use Rattle.sqlite.specs.Files.{file_state};
ghost use Rattle.s3_records.specs.Catalogue.{Catalogue};
ghost use Rattle.s3_records.specs.Leaving.{IsOneOf};
ghost use Rattle.s3_keepers.specs.Begun.{with_buckets};
ghost use Rattle.s3_block_bodies.specs.Stored.{IsSettled};
ghost use Rattle.s3_block_bodies.specs.Parts.{disk_in};
ghost use Rattle.s3_mirrored_rows.specs.Mirror.{MayLeave};
ghost use Rattle.s3_table_files.specs.Blocks.{file_is_clean, file_may_leave};
ghost use Rattle.s3_table_records.specs.Leaving.{LeavesOneOf};
ghost use Rattle.s3_table_records.specs.Numbered.{LeavesNumber};
ghost use Rattle.s3_file_records.specs.Found.{AreLeft, catalogue_in};

use crate::file_keeper::{FileKeeper, FileRecords};
use s3_keepers::{FolderKeeper, Opened};
use s3_names::BucketName;
use s3_storage::StorageFault;
use s3_table_files::LastingTables;
use sqlite_std_file::Start;
use std::alloc::Global;

/// A law in the form of a function, which no program has to call. It opens a folder again, once the records over it have gone, as by a
/// crash at this moment: `S` and `T` stand for what is left of its files, as `P` and `Q` do for what these held before.
///
/// Where that is what a crash may leave of them, and no wrong answer of the files was taken as true by either, what is found is one of
/// the catalogues of which it was known that a crash leaves one: so after a commit that answered Ok, and no change since, that of
/// the commit. And the next entry gets no number below one of which that was known.
///
/// Of the rows it is supposed that their files hold a database which their connection may leave: that a crash leaves such files is what
/// the kit's `opens_again` says (`sqlite`). A crash within a call is as one behind it where all calls of the files from then on fail.
///
/// # Errors
///
/// Those of `FolderKeeper::open`.
pub fn opened_again<P: Start, Q: Start, S: Start + Send, T: Start + Send>(
    former: FileRecords<P, Q>,
    keeper: &mut FileKeeper<'_, S, T>,
    alloc: Global,
    path: &str,
    buckets: &[BucketName],
) -> Result<Opened<FileRecords<S, T>>, StorageFault>
    ensures found { IfOk result (λ opened.
        AreLeft (file_state former.rows.file.tables) (IsTrue (file_is_clean Q.Start (disk_in former.bodies))) (file_may_leave Q.Start (disk_in former.bodies)) (image_at S.Start) T.Start.db
        → HasCleanDisk (file_state opened.first.value.rows.file.tables) → IsTrue (file_is_clean T.Start (disk_in opened.first.value.bodies))
        → (known : List (Catalogue (List ℕ)))
        → LeavesOneOf (MayLeave (file_state former.rows.file.tables)) (IsSettled (file_may_leave Q.Start) (file_is_clean Q.Start) (disk_in former.bodies) former.bodies.granules) known
        → IsOneOf (catalogue_in opened.first.value) known) }
    ensures numbered { IfOk result (λ opened.
        AreLeft (file_state former.rows.file.tables) (IsTrue (file_is_clean Q.Start (disk_in former.bodies))) (file_may_leave Q.Start (disk_in former.bodies)) (image_at S.Start) T.Start.db
        → HasCleanDisk (file_state opened.first.value.rows.file.tables) → IsTrue (file_is_clean T.Start (disk_in opened.first.value.bodies))
        → (known : List (Catalogue (List ℕ)))
        → LeavesOneOf (MayLeave (file_state former.rows.file.tables)) (IsSettled (file_may_leave Q.Start) (file_is_clean Q.Start) (disk_in former.bodies) former.bodies.granules) known
        → (number : ℕ) → LeavesNumber (MayLeave (file_state former.rows.file.tables)) number → number ≤ opened.number) }
    ensures made { IfOk result (λ opened. catalogue_in opened.records ≡ with_buckets buckets.now (catalogue_in opened.first.value)) }
{
    let _is_live = former.rows().file().is_live();
    drop(former);
    keeper.open(alloc, path, buckets)
}
