//! The rows of the tables, as they are given and found. `row` is the rowid, and the other fields are the columns.

/// Which table.
#[derive(Clone, Copy)]
pub enum TableName {
    Buckets,
    Versions,
    Uploads,
    Parts,
    Store,
}

/// A row of `buckets`.
#[derive(Drop)]
pub struct StoredBucket {
    pub row: i64,
    pub name: Vec<u8>,
    pub made: i64,
    pub mode: i64,
}

/// A row of `versions`.
#[derive(Drop)]
pub struct StoredVersion {
    pub row: i64,
    pub bucket: Vec<u8>,
    pub key: Vec<u8>,
    pub number: i64,
    pub id: i64,
    pub moment: i64,
    pub marker: i64,
    pub tag: Vec<u8>,
    pub kept: Vec<u8>,
    pub size: i64,
    pub bodies: Vec<u8>,
}

/// A row of `uploads`.
#[derive(Drop)]
pub struct StoredUpload {
    pub row: i64,
    pub bucket: Vec<u8>,
    pub key: Vec<u8>,
    pub id: i64,
    pub moment: i64,
    pub kept: Vec<u8>,
}

/// A row of `parts`. `upload` is the rowid of its upload.
#[derive(Drop)]
pub struct StoredPart {
    pub row: i64,
    pub upload: i64,
    pub part: i64,
    pub digest: Vec<u8>,
    pub moment: i64,
    pub size: i64,
    pub bodies: Vec<u8>,
}

/// The row of `store`.
#[derive(Drop)]
pub struct StoreNumbers {
    pub row: i64,
    pub form: i64,
    pub number: i64,
}
