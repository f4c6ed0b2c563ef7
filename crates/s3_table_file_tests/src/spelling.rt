//! Rows as a text: the columns with `|` between them, and `;` at the end.

use itoa::Buffer;
use s3_stored_rows::{StoreNumbers, StoredBucket, StoredPart, StoredUpload, StoredVersion};
use sqlite::Error;
use std::mem::drop;

// Adds some bytes. Where there is no memory for them, the text is not as it has to be, which the tests see.
fn add(out: &mut Vec<u8>, bytes: &[u8]) {
    drop(out.extend_from_slice(bytes));
}

// Adds a column of bytes, or of a number, with the character that follows it.
fn add_bytes(out: &mut Vec<u8>, bytes: &[u8], end: &[u8]) {
    add(out, bytes);
    add(out, end);
}

fn add_number(out: &mut Vec<u8>, number: i64, end: &[u8]) {
    add(out, Buffer::new().format(number).as_bytes());
    add(out, end);
}

/// What has a text.
pub(crate) trait Spelled {
    /// Adds its text.
    fn spell(&self, out: &mut Vec<u8>);
}

impl Spelled for StoredBucket {
    fn spell(&self, out: &mut Vec<u8>) {
        add_number(out, self.row, b"|");
        add_bytes(out, self.name.as_slice(), b"|");
        add_number(out, self.made, b"|");
        add_number(out, self.mode, b";");
    }
}

impl Spelled for StoredVersion {
    fn spell(&self, out: &mut Vec<u8>) {
        add_number(out, self.row, b"|");
        add_bytes(out, self.bucket.as_slice(), b"|");
        add_bytes(out, self.key.as_slice(), b"|");
        add_number(out, self.number, b"|");
        add_number(out, self.id, b"|");
        add_number(out, self.moment, b"|");
        add_number(out, self.marker, b"|");
        add_bytes(out, self.tag.as_slice(), b"|");
        add_bytes(out, self.kept.as_slice(), b"|");
        add_number(out, self.size, b"|");
        add_bytes(out, self.bodies.as_slice(), b";");
    }
}

impl Spelled for StoredUpload {
    fn spell(&self, out: &mut Vec<u8>) {
        add_number(out, self.row, b"|");
        add_bytes(out, self.bucket.as_slice(), b"|");
        add_bytes(out, self.key.as_slice(), b"|");
        add_number(out, self.id, b"|");
        add_number(out, self.moment, b"|");
        add_bytes(out, self.kept.as_slice(), b";");
    }
}

impl Spelled for StoredPart {
    fn spell(&self, out: &mut Vec<u8>) {
        add_number(out, self.row, b"|");
        add_number(out, self.upload, b"|");
        add_number(out, self.part, b"|");
        add_bytes(out, self.digest.as_slice(), b"|");
        add_number(out, self.moment, b"|");
        add_number(out, self.size, b"|");
        add_bytes(out, self.bodies.as_slice(), b";");
    }
}

impl Spelled for StoreNumbers {
    fn spell(&self, out: &mut Vec<u8>) {
        add_number(out, self.row, b"|");
        add_number(out, self.form, b"|");
        add_number(out, self.number, b";");
    }
}

/// Adds the row that was found, if one was.
pub(crate) fn add_found<T: Spelled + Drop>(out: &mut Vec<u8>, found: Result<Option<T>, Error>) {
    match found {
        Ok(Some(row)) => row.spell(out),
        Ok(None) => {}
        Err(_) => add(out, b"error"),
    }
}

/// Adds all rows that were found.
pub(crate) fn add_all<T: Spelled + Drop>(out: &mut Vec<u8>, found: Result<Vec<T>, Error>) {
    match found {
        Ok(rows) => {
            for row in &rows {
                row.spell(out);
            }
        }
        Err(_) => add(out, b"error"),
    }
}

/// Adds 1 where any was found, and else 0.
pub(crate) fn add_any(out: &mut Vec<u8>, found: Result<bool, Error>) {
    match found {
        Ok(true) => add(out, b"1;"),
        Ok(false) => add(out, b"0;"),
        Err(_) => add(out, b"error"),
    }
}
