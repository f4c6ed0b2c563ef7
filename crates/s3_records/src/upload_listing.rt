//! The rows of lists of open uploads, from what is in memory.
ghost use Rattle.std.specs.Prelude.{◌≡◌, ◌≢◌, ◌≤◌, List, [], ◌++◌, length, take, IfOk, OnOk, OnErr, map as each};
ghost use Rattle.std.specs.List.{flat_map};
ghost use Rattle.std.specs.BTreeMap.{IsOrdered};
ghost use Rattle.std.specs.BTreeMap.Range.{entries_between};
ghost use Rattle.std.specs.Ordering.{nat_cmp};
ghost use Rattle.std.specs.Range.Bound.{bound_map};
ghost use Rattle.std.specs.declared.ops.Bound.TheVariants.{Unbounded};
ghost use Rattle.s3_text.specs.Order.{byte_order};
ghost use Rattle.s3_records.specs.OpenUploads.{upload_row, upload_rows_of};

use crate::adding::push;
use crate::rows::UploadRow;
use crate::uploads::OpenUploads;
use s3_bodies::Body;
use s3_names::{Key, UploadId};
use s3_terms::NoMemory;
use s3_uploads::Upload;
use std::collections::BTreeMap;
use std::ops::Bound;

/// Adds the rows of the uploads to the keys from a place on, until there are so many.
pub(crate) fn add_keys(
    rows: &mut Vec<UploadRow>,
    keys: &BTreeMap<Key, OpenUploads>,
    first: Bound<&Key>,
    most: usize,
) -> Result<(), NoMemory>
    requires { length rows.old.items ≤ most }
    ensures ok { OnOk result (rows.new.items
        ≡ take most (rows.old.items ++ flat_map upload_rows_of (entries_between byte_order (bound_map (λ x. x.now) first.entry) Unbounded keys.now.entries))) }
    ensures rising { IsOrdered byte_order keys.now }
    ensures memory { OnErr result (
        take most (rows.old.items ++ flat_map upload_rows_of (entries_between byte_order (bound_map (λ x. x.now) first.entry) Unbounded keys.now.entries)) ≢ []) }
{
    for (key, uploads) in keys.range((first, Bound::Unbounded)) {
        if rows.len() >= most {
            return Ok(());
        }
        match uploads.add_rows(rows, key, most) {
            Ok(()) => {}
            Err(failed) => return Err(failed),
        }
    }
    Ok(())
}

/// Adds the rows of the uploads to one key from an id on, until there are so many.
pub(crate) fn add_ids(
    rows: &mut Vec<UploadRow>,
    key: &Key,
    ids: &BTreeMap<u64, Upload<Body>>,
    first: Bound<&u64>,
    most: usize,
) -> Result<(), NoMemory>
    requires { length rows.old.items ≤ most }
    ensures ok { OnOk result (rows.new.items
        ≡ take most (rows.old.items ++ each (upload_row key.now) (entries_between nat_cmp (bound_map (λ x. x.now) first.entry) Unbounded ids.now.entries))) }
    ensures rising { IsOrdered nat_cmp ids.now }
    ensures memory { OnErr result (
        take most (rows.old.items ++ each (upload_row key.now) (entries_between nat_cmp (bound_map (λ x. x.now) first.entry) Unbounded ids.now.entries)) ≢ []) }
{
    for (id, upload) in ids.range((first, Bound::Unbounded)) {
        if rows.len() >= most {
            return Ok(());
        }
        match push(rows, upload_row(key, UploadId::of(*id), upload)) {
            Ok(()) => {}
            Err(failed) => return Err(failed),
        }
    }
    Ok(())
}

// The row of an upload.
fn upload_row(key: &Key, id: UploadId, upload: &Upload<Body>) -> Result<UploadRow, NoMemory>
    ensures { IfOk result (λ row. row ≡ upload_row key.now (id, upload.now)) }
{
    match key.copy() {
        Ok(key) => Ok(UploadRow {
            key,
            id,
            moment: upload.moment,
        }),
        Err(failed) => Err(failed),
    }
}
