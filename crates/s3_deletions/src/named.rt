//! The objects that a DeleteObjects names.

use s3_names::{Key, VersionId};
use s3_prefixes::Text;
use s3_terms::Code;
use std::marker::Model;

/// A key that is to be deleted, or its version of this id (Amazon S3 API Reference, ObjectIdentifier).
#[derive(Drop)]
pub struct KeyDeletion {
    pub key: Key,
    pub version: Option<VersionId>,
}

/// What is named and can't be deleted, since it names no key or no version: as it was sent, and why.
#[derive(Drop)]
pub struct DeletionFault {
    pub key: Text,
    pub version: Option<Text>,
    pub code: Code,
}

/// An object that a DeleteObjects names.
#[derive(Drop)]
pub enum NamedObject {
    Object(KeyDeletion),
    Fault(DeletionFault),
}

/// The objects that a DeleteObjects names, in their order. A contract sees them as a list.
#[derive(Drop)]
pub struct NamedObjects {
    objects: Vec<NamedObject>,
}

impl Model for NamedObjects {
    ghost use Rattle.std.specs.Prelude.{List};
    ghost use Rattle.s3_deletions.specs.declared.named.NamedObject.{NamedObject};

    ghost Value = { List NamedObject };

    ghost view = { λ named. named.objects.items };
}

impl NamedObjects {
    ghost use Rattle.std.specs.Prelude.{◌≡◌};

    /// These objects, which are moved and not copied.
    pub fn new(objects: Vec<NamedObject>) -> NamedObjects
        ensures { result ≡ objects.items }
    {
        NamedObjects { objects }
    }

    /// The objects.
    pub fn as_slice(&self) -> &[NamedObject]
        ensures { result.now ≡ self.now }
    {
        self.objects.as_slice()
    }
}

/// What a DeleteObjects asks for (Amazon S3 API Reference, DeleteObjects, `Delete`).
#[derive(Drop)]
pub struct Deletion {
    /// 1 to 1,000 of them, where a request brought them.
    pub objects: NamedObjects,
    /// Whether only faults are to be told.
    pub is_quiet: bool,
}
