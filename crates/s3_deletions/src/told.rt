//! What is told of the objects that a DeleteObjects names.

use crate::DeletionFault;
use s3_names::{Key, VersionId};
use std::marker::Model;

/// What is told of one object (Amazon S3 API Reference, DeletedObject and Error).
#[derive(Drop)]
pub enum DeletionRow {
    /// The key, or its version of this id, is not there now. A delete marker of the id `marker` was made, or is gone.
    Deleted {
        key: Key,
        version: Option<VersionId>,
        marker: Option<VersionId>,
    },
    /// It can't be deleted.
    Fault(DeletionFault),
}

/// The rows of a DeleteObjects, in the order of its objects. A contract sees them as a list.
#[derive(Drop)]
pub struct DeletionRows {
    rows: Vec<DeletionRow>,
}

impl Model for DeletionRows {
    ghost use Rattle.std.specs.Prelude.{List};
    ghost use Rattle.s3_deletions.specs.declared.told.DeletionRow.{DeletionRow};

    ghost Value = { List DeletionRow };

    ghost view = { λ told. told.rows.items };
}

impl DeletionRows {
    ghost use Rattle.std.specs.Prelude.{◌≡◌};

    /// These rows, which are moved and not copied.
    pub fn new(rows: Vec<DeletionRow>) -> DeletionRows
        ensures { result ≡ rows.items }
    {
        DeletionRows { rows }
    }

    /// The rows.
    pub fn as_slice(&self) -> &[DeletionRow]
        ensures { result.now ≡ self.now }
    {
        self.rows.as_slice()
    }
}

/// For each object that a DeleteObjects names the id of the delete marker that was made or is gone, if one was. A contract
/// sees them as a list.
#[derive(Drop)]
pub struct Markers {
    ids: Vec<Option<VersionId>>,
}

impl Model for Markers {
    ghost use Rattle.std.specs.Prelude.{List, Option};
    ghost use Rattle.s3_names.specs.declared.ids.VersionId.{VersionId};

    ghost Value = { List (Option VersionId) };

    ghost view = { λ markers. markers.ids.items };
}

impl Markers {
    ghost use Rattle.std.specs.Prelude.{◌≡◌};

    /// These ids, which are moved and not copied.
    pub fn new(ids: Vec<Option<VersionId>>) -> Markers
        ensures { result ≡ ids.items }
    {
        Markers { ids }
    }

    /// The ids.
    pub fn as_slice(&self) -> &[Option<VersionId>]
        ensures { result.now ≡ self.now }
    {
        self.ids.as_slice()
    }
}
