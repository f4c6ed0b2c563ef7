//! Changes as data, and how they are given to tables.

use s3_stored_rows::{
    Change, StoreNumbers, StoredBucket, StoredPart, StoredUpload, StoredVersion, TableName,
};
use s3_tables::TableFile;
use sqlite::Alter;
use std::alloc::Global;
use std::mem::drop;

/// A change: the columns of a row that is added, in the order of its table, or the table and the rowid of one that goes.
pub(crate) enum Given {
    Bucket(i64, &'static [u8], i64, i64),
    Version(
        i64,
        &'static [u8],
        &'static [u8],
        i64,
        i64,
        i64,
        i64,
        &'static [u8],
        &'static [u8],
        i64,
        &'static [u8],
    ),
    Upload(i64, &'static [u8], &'static [u8], i64, i64, &'static [u8]),
    Part(i64, i64, i64, &'static [u8], i64, i64, &'static [u8]),
    Store(i64, i64, i64),
    DropRow(TableName, i64),
}

// A copy of the bytes. Where there is no memory for them, it is not as it has to be, which the tests see.
fn copied(alloc: Global, bytes: &[u8]) -> Vec<u8> {
    let mut copied = Vec::new(alloc);
    drop(copied.extend_from_slice(bytes));
    copied
}

fn change_of(alloc: Global, given: &Given) -> Change {
    match given {
        Given::Bucket(row, name, made, mode) => Change::AddBucket(StoredBucket {
            row: *row,
            name: copied(alloc, *name),
            made: *made,
            mode: *mode,
        }),
        Given::Version(row, bucket, key, number, id, moment, marker, tag, kept, size, bodies) =>
            Change::AddVersion(StoredVersion {
                row: *row,
                bucket: copied(alloc, *bucket),
                key: copied(alloc, *key),
                number: *number,
                id: *id,
                moment: *moment,
                marker: *marker,
                tag: copied(alloc, *tag),
                kept: copied(alloc, *kept),
                size: *size,
                bodies: copied(alloc, *bodies),
            }),
        Given::Upload(row, bucket, key, id, moment, kept) => Change::AddUpload(StoredUpload {
            row: *row,
            bucket: copied(alloc, *bucket),
            key: copied(alloc, *key),
            id: *id,
            moment: *moment,
            kept: copied(alloc, *kept),
        }),
        Given::Part(row, upload, part, digest, moment, size, bodies) => {
            Change::AddPart(StoredPart {
                row: *row,
                upload: *upload,
                part: *part,
                digest: copied(alloc, *digest),
                moment: *moment,
                size: *size,
                bodies: copied(alloc, *bodies),
            })
        }
        Given::Store(row, form, number) => Change::AddStore(StoreNumbers {
            row: *row,
            form: *form,
            number: *number,
        }),
        Given::DropRow(table, row) => Change::DropRow(*table, *row),
    }
}

// All of these changes.
fn changes_of(alloc: Global, given: &[Given]) -> Vec<Change> {
    let mut changes = Vec::new(alloc);
    for one in given {
        drop(changes.push(change_of(alloc, one)));
    }
    changes
}

/// Whether the tables make these changes.
pub(crate) fn are_made<S: Alter>(alloc: Global, file: &mut TableFile<S>, given: &[Given]) -> bool {
    let changes = changes_of(alloc, given);
    file.apply(changes.as_slice()).is_ok()
}
