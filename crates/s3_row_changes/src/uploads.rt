//! Changes of the rows of uploads, which go with those of their parts.
ghost use Rattle.std.specs.Prelude.{◌≡◌, IfOk, OnOk, OnErr, IfSome, MatchOption, None, option_map};
ghost use Rattle.std.specs.Option.{option_copied};
ghost use Rattle.s3_rows.specs.Soundness.{AreSound, version_row};
ghost use Rattle.s3_rows.specs.TableChanges.{version_put, upload_put, upload_dropped};
ghost use Rattle.s3_stored_rows.specs.Changes.{version_columns, upload_columns};
ghost use Rattle.s3_stored_rows.specs.Leaving.{LeavesNoMore};
ghost use Rattle.s3_stored_rows.specs.Queries.{version_of_id, upload_of_id};
ghost use Rattle.s3_row_changes.specs.Uploads.{AreRowsOf};

use crate::dropping::{any_upload_drops, push_replacing, upload_drops};
use s3_stored_rows::{Change, StoredPart, StoredRows, StoredUpload, StoredVersion, TableName};
use s3_terms::NoMemory;
use std::alloc::Global;

// How many numbers parts have, from 1 on.
const PARTS: u32 = 10_000;

/// The row of an upload, with those of its parts by number.
#[derive(Drop)]
pub struct UploadRows {
    pub upload: StoredUpload,
    pub parts: Vec<StoredPart>,
}

/// The rows of the upload of an id to a key; `None` where there is none. It costs its parts.
pub fn upload_rows<R: StoredRows>(
    rows: &mut R,
    alloc: Global,
    bucket: &[u8],
    key: &[u8],
    id: i64,
) -> Result<Option<UploadRows>, NoMemory>
    requires sound { AreSound (R.tables rows.old) }
    ensures found { IfOk result (λ found. option_map (λ (u : UploadRows). upload_columns u.upload) found ≡ upload_of_id bucket.now key.now id (R.tables rows.old)) }
    ensures rows { IfOk result (λ found. IfSome found (AreRowsOf (R.tables rows.old))) }
    ensures same { R.tables rows.new ≡ R.tables rows.old }
    ensures stays { LeavesNoMore R.leaves rows.old rows.new }
{
    let Some(upload) = rows.upload(bucket, key, id)? else {
        return Ok(None);
    };
    let parts = rows.parts_above(alloc, upload.row, 0, PARTS)?;
    Ok(Some(UploadRows { upload, parts }))
}

/// Puts in the row of an upload, in the place of the one that has its id, which goes with its parts, if there is one.
pub fn put_upload<R: StoredRows>(
    rows: &mut R,
    alloc: Global,
    upload: StoredUpload,
    gone: Option<&UploadRows>,
) -> Result<(), NoMemory>
    requires sound { AreSound (R.tables rows.old) }
    requires found { option_map (λ (u : UploadRows). upload_columns u.upload) (option_copied gone) ≡ upload_of_id upload.bucket.items upload.key.items upload.id (R.tables rows.old) }
    requires rows { IfSome (option_copied gone) (AreRowsOf (R.tables rows.old)) }
    ensures ok { OnOk result (R.tables rows.new ≡ upload_put (upload_columns upload) (R.tables rows.old)) }
    ensures err { OnErr result (R.tables rows.new ≡ R.tables rows.old) }
    ensures stays { LeavesNoMore R.leaves rows.old rows.new }
{
    let mut changes = any_upload_drops(alloc, gone)?;
    changes.push(Change::AddUpload(upload))?;
    rows.apply(changes.as_slice())
}

/// Takes out the row of an upload with those of its parts.
pub fn drop_upload<R: StoredRows>(
    rows: &mut R,
    alloc: Global,
    gone: &UploadRows,
) -> Result<(), NoMemory>
    requires sound { AreSound (R.tables rows.old) }
    requires rows { AreRowsOf (R.tables rows.old) gone.now }
    ensures ok { OnOk result (R.tables rows.new ≡ upload_dropped gone.now.upload.bucket.items gone.now.upload.key.items gone.now.upload.id (R.tables rows.old)) }
    ensures err { OnErr result (R.tables rows.new ≡ R.tables rows.old) }
    ensures stays { LeavesNoMore R.leaves rows.old rows.new }
{
    let changes = upload_drops(alloc, gone)?;
    rows.apply(changes.as_slice())
}

/// Does both at once: puts in the row of a version, in the place of the one that has its id, whose rowid is `gone`, if there is
/// one; and takes out that of an upload with its parts.
pub fn complete<R: StoredRows>(
    rows: &mut R,
    alloc: Global,
    version: StoredVersion,
    gone: Option<i64>,
    upload: &UploadRows,
) -> Result<(), NoMemory>
    requires sound { AreSound (R.tables rows.old) }
    requires gone { option_map version_row (version_of_id version.bucket.items version.key.items version.id (R.tables rows.old)) ≡ gone }
    requires rows { AreRowsOf (R.tables rows.old) upload.now }
    ensures ok { OnOk result (R.tables rows.new
        ≡ upload_dropped upload.now.upload.bucket.items upload.now.upload.key.items upload.now.upload.id (version_put (version_columns version) (R.tables rows.old))) }
    ensures err { OnErr result (R.tables rows.new ≡ R.tables rows.old) }
    ensures stays { LeavesNoMore R.leaves rows.old rows.new }
{
    let mut changes = upload_drops(alloc, upload)?;
    push_replacing(
        &mut changes,
        TableName::Versions,
        gone,
        Change::AddVersion(version),
    )?;
    rows.apply(changes.as_slice())
}
