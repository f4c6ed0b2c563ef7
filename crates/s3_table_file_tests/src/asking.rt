//! What tables are asked, and the text of what they answer.

use crate::spelling::{add_all, add_any, add_found};
use s3_tables::TableFile;
use sqlite::Alter;
use std::alloc::Global;

/// A call that reads, with its arguments.
pub(crate) enum Asked {
    Bucket(&'static [u8]),
    Buckets,
    Store,
    Newest(&'static [u8], &'static [u8]),
    Version(&'static [u8], &'static [u8], i64),
    VersionsBelow(&'static [u8], &'static [u8], i64, u32),
    VersionsFrom(&'static [u8], &'static [u8], u32),
    VersionsBehind(&'static [u8], &'static [u8], u32),
    HasVersions(&'static [u8]),
    Upload(&'static [u8], &'static [u8], i64),
    UploadsFrom(&'static [u8], &'static [u8], u32),
    UploadsBehind(&'static [u8], &'static [u8], u32),
    UploadsAbove(&'static [u8], &'static [u8], i64, u32),
    HasUploads(&'static [u8]),
    Part(i64, i64),
    PartsAbove(i64, i64, u32),
}

/// A call, and the text of its answer.
pub(crate) type Question = (Asked, &'static [u8]);

// Adds what is answered: of buckets and the store, of uploads and parts, or of versions.
fn add_answer<S: Alter>(alloc: Global, out: &mut Vec<u8>, file: &mut TableFile<S>, asked: &Asked) {
    match asked {
        Asked::Bucket(name) => add_found(out, file.bucket(*name)),
        Asked::Buckets => add_all(out, file.buckets(alloc)),
        Asked::Store => add_found(out, file.store()),
        Asked::Upload(bucket, key, id) => add_found(out, file.upload(*bucket, *key, *id)),
        Asked::UploadsFrom(bucket, key, most) => {
            add_all(out, file.uploads_from(alloc, *bucket, *key, *most))
        }
        Asked::UploadsBehind(bucket, key, most) => {
            add_all(out, file.uploads_behind(alloc, *bucket, *key, *most))
        }
        Asked::UploadsAbove(bucket, key, id, most) => {
            add_all(out, file.uploads_above(alloc, *bucket, *key, *id, *most))
        }
        Asked::HasUploads(bucket) => add_any(out, file.has_uploads(*bucket)),
        Asked::Part(upload, part) => add_found(out, file.part(*upload, *part)),
        Asked::PartsAbove(upload, part, most) => {
            add_all(out, file.parts_above(alloc, *upload, *part, *most))
        }
        _ => add_versions(alloc, out, file, asked),
    }
}

// Adds what is answered of versions.
fn add_versions<S: Alter>(
    alloc: Global,
    out: &mut Vec<u8>,
    file: &mut TableFile<S>,
    asked: &Asked,
) {
    match asked {
        Asked::Newest(bucket, key) => add_found(out, file.newest(*bucket, *key)),
        Asked::Version(bucket, key, id) => add_found(out, file.version(*bucket, *key, *id)),
        Asked::VersionsBelow(bucket, key, number, most) => {
            add_all(
                out,
                file.versions_below(alloc, *bucket, *key, *number, *most),
            )
        }
        Asked::VersionsFrom(bucket, key, most) => {
            add_all(out, file.versions_from(alloc, *bucket, *key, *most))
        }
        Asked::VersionsBehind(bucket, key, most) => {
            add_all(out, file.versions_behind(alloc, *bucket, *key, *most))
        }
        Asked::HasVersions(bucket) => add_any(out, file.has_versions(*bucket)),
        _ => {}
    }
}

// Whether this is answered so.
fn is_answered<S: Alter>(alloc: Global, file: &mut TableFile<S>, question: &Question) -> bool {
    let mut out = Vec::new(alloc);
    add_answer(alloc, &mut out, file, &question.0);
    out.as_slice() == question.1
}

/// Whether all is answered so.
pub(crate) fn are_answered<S: Alter>(
    alloc: Global,
    file: &mut TableFile<S>,
    questions: &[Question],
) -> bool {
    for question in questions {
        if !is_answered(alloc, file, question) {
            return false;
        }
    }
    true
}
