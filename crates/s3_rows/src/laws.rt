//! Laws of rows, with nothing to run: what they mean as they are put in and taken out. Each is of all tables that are sound, and
//! leaves them sound (`specs/Soundness.antt`).
ghost use Rattle.s3_rows.specs.BucketLaws.{RowsOpen, RowsAddBuckets, RowsDropBuckets, RowsSetVersioning, RowsTellBuckets, RowsTellEmptiness};
ghost use Rattle.s3_rows.specs.KeyListLaws.{RowsListKeys};
ghost use Rattle.s3_rows.specs.ListLaws.{RowsListParts, RowsListUploads};
ghost use Rattle.s3_rows.specs.ReadingLaws.{RowsTellFacts, RowsListBuckets, RowsTellVersions, RowsTellCurrent, RowsTellVersion, RowsTellUpload, RowsTellParts};
ghost use Rattle.s3_rows.specs.UploadLaws.{RowsBeginUploads, RowsDropUploads, RowsPutParts, RowsCompleteUploads};
ghost use Rattle.s3_rows.specs.VersionListLaws.{RowsListVersions};
ghost use Rattle.s3_rows.specs.VersionLaws.{RowsPutVersions, RowsMark, RowsDelete, RowsDropVersions};

use s3_bodies::Body;
use s3_records::changes_follow_rules;

/// A law, with nothing to run: tables with nothing in them are sound, and are the catalogue without buckets.
pub fn rows_open()
    ensures { RowsOpen }
{}

/// A law, with nothing to run: to put in the row of a bucket, where there is none of its name, is to make the bucket.
pub fn rows_add_buckets()
    ensures { RowsAddBuckets }
{}

/// A law, with nothing to run: to take out the row of an empty bucket is to drop the bucket.
pub fn rows_drop_buckets()
    ensures { RowsDropBuckets }
{}

/// A law, with nothing to run: to replace the row of a bucket is to set its versioning.
pub fn rows_set_versioning()
    ensures { RowsSetVersioning }
{}

/// A law, with nothing to run: a bucket is there where its row is, with the facts that the row tells, and it is empty where no row of
/// a version and none of an upload stands in it. The list of all buckets is that of their rows by name.
pub fn rows_tell_buckets()
    ensures there { RowsTellBuckets }
    ensures facts { RowsTellFacts }
    ensures empty { RowsTellEmptiness }
    ensures all { RowsListBuckets }
{}

/// A law, with nothing to run: the versions under a key are those of its rows, newest first. The current one is that of the first of
/// these, and the one of an id is that of the row with the id.
pub fn rows_tell_versions()
    ensures all { RowsTellVersions }
    ensures current { RowsTellCurrent }
    ensures one { RowsTellVersion }
{}

/// A law, with nothing to run: an upload is that of its row, and its parts are those of their rows, by number.
pub fn rows_tell_uploads()
    ensures one { RowsTellUpload }
    ensures parts { RowsTellParts }
{}

/// A law, with nothing to run: to put in the row of a version, in the place of the one that has its id, is to put the version.
pub fn rows_put_versions()
    ensures { RowsPutVersions }
{}

/// A law, with nothing to run: to put in the row of a delete marker, in the place of the version that has its id, is to delete the
/// key where the bucket's versioning is enabled or suspended.
pub fn rows_mark()
    ensures { RowsMark }
{}

/// A law, with nothing to run: to take out the row of the version `null` is to delete the key where the bucket is unversioned.
pub fn rows_delete()
    ensures { RowsDelete }
{}

/// A law, with nothing to run: to take out the row of the version of an id is to drop the version.
pub fn rows_drop_versions()
    ensures { RowsDropVersions }
{}

/// A law, with nothing to run: to put in the row of an upload is to begin it.
pub fn rows_begin_uploads()
    ensures { RowsBeginUploads }
{}

/// A law, with nothing to run: to take out the row of an upload and those of its parts is to drop it.
pub fn rows_drop_uploads()
    ensures { RowsDropUploads }
{}

/// A law, with nothing to run: to put in the row of a part, in the place of the one that has its number, is to put the part.
pub fn rows_put_parts()
    ensures { RowsPutParts }
{}

/// A law, with nothing to run: to put in the row of a version, and to take out that of an upload with its parts, is to complete
/// the upload.
pub fn rows_complete_uploads()
    ensures { RowsCompleteUploads }
{
    changes_follow_rules::<Body>();
}

/// A law, with nothing to run: the uploads of a bucket from a place on are those of its rows from there on, by key and by id, and
/// the parts of an upload behind a number are those of the rows above it, by number.
pub fn rows_list_uploads()
    ensures uploads { RowsListUploads }
    ensures parts { RowsListParts }
{}

/// A law, with nothing to run: the versions of a bucket from a key on are those of its rows from there on, by key and of one key
/// newest first, and of each key the first is the current one. The keys are told by the first row of each.
pub fn rows_list_versions()
    ensures versions { RowsListVersions }
    ensures keys { RowsListKeys }
{}
