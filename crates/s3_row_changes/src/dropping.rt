//! Lists of changes that take rows out by their rowids.
ghost use Rattle.std.specs.Prelude.{◌≡◌, [], ◌∷◌, ◌++◌, IfOk, OnOk};
ghost use Rattle.std.specs.Option.{option_copied};
ghost use Rattle.s3_row_changes.specs.Dropping.{drops_row, drops_upload, drops_any_upload};

use crate::uploads::UploadRows;
use s3_stored_rows::{Change, TableName};
use s3_terms::NoMemory;
use std::alloc::Global;

/// Adds the change that takes the row of this rowid out of a table, if there is one.
pub fn push_drop(
    changes: &mut Vec<Change>,
    table: TableName,
    gone: Option<i64>,
) -> Result<(), NoMemory>
    ensures { OnOk result (changes.new.items ≡ changes.old.items ++ drops_row table gone) }
{
    match gone {
        Some(row) => {
            changes.push(Change::DropRow(table, row))?;
            Ok(())
        }
        None => Ok(()),
    }
}

/// Adds the same, and one more change.
pub fn push_replacing(
    changes: &mut Vec<Change>,
    table: TableName,
    gone: Option<i64>,
    change: Change,
) -> Result<(), NoMemory>
    ensures { OnOk result (changes.new.items ≡ (changes.old.items ++ drops_row table gone) ++ change ∷ []) }
{
    push_drop(changes, table, gone)?;
    changes.push(change)?;
    Ok(())
}

/// The change that takes the row of this rowid out of a table, if there is one, and one more change.
pub fn replacing(
    alloc: Global,
    table: TableName,
    gone: Option<i64>,
    change: Change,
) -> Result<Vec<Change>, NoMemory>
    ensures { IfOk result (λ changes. changes.items ≡ drops_row table gone ++ change ∷ []) }
{
    let mut changes = Vec::with_capacity(alloc, 2)?;
    push_replacing(&mut changes, table, gone, change)?;
    Ok(changes)
}

// For how many changes there is room behind the ones that take parts out.
const MORE: usize = 3;

/// The changes that take out the row of an upload, after those of its parts.
pub fn upload_drops(alloc: Global, gone: &UploadRows) -> Result<Vec<Change>, NoMemory>
    ensures { IfOk result (λ changes. changes.items ≡ drops_upload gone.now) }
{
    let mut changes = Vec::with_capacity(alloc, gone.parts.len() + MORE)?;
    for part in &gone.parts {
        changes.push(Change::DropRow(TableName::Parts, part.row))?;
    }
    changes.push(Change::DropRow(TableName::Uploads, gone.upload.row))?;
    Ok(changes)
}

/// The same, where there may be no such upload, and so no change.
pub fn any_upload_drops(alloc: Global, gone: Option<&UploadRows>) -> Result<Vec<Change>, NoMemory>
    ensures { IfOk result (λ changes. changes.items ≡ drops_any_upload (option_copied gone.entry)) }
{
    match gone {
        Some(gone) => upload_drops(alloc, gone),
        None => Ok(Vec::with_capacity(alloc, 1)?),
    }
}
