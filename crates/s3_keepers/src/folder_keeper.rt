//! What a keeper promises of the records in a folder.

ghost use Rattle.std.specs.Prelude.{◌≡◌, ℕ, List, IfOk};
ghost use Rattle.s3_records.specs.Catalogue.{Catalogue};
ghost use Rattle.s3_keepers.specs.Begun.{HasBuckets, with_buckets};
ghost use Rattle.s3_keepers.specs.Sound.{IsSoundCatalogue};

use s3_names::BucketName;
use s3_records::Records;
use s3_storage::StorageFault;
use std::alloc::Global;
use std::snapshot::Snapshot;

/// How much an open found in a folder. It is told to those who run a server, and no clause speaks of it.
#[derive(Clone, Copy)]
pub struct FoundAmounts {
    /// How many versions, delete markers among them.
    pub versions: u64,
    /// How many bytes the bodies of versions and of parts have.
    pub bytes: u64,
    /// How many bytes of the file of blocks are free in front of its last body.
    pub free: u64,
}

/// Records with which a store goes on.
#[derive(Drop)]
pub struct Opened<K: Records + Drop> {
    /// The records, with the buckets that were missing.
    pub records: K,
    /// The number of the next entry.
    pub number: u64,
    /// The records as they were before a bucket was made. It takes no memory, and clauses alone read it.
    pub first: Snapshot<K>,
    /// How much was found.
    pub found: FoundAmounts,
}

/// Opens the records that a folder keeps, to keep in it what they become.
pub trait FolderKeeper {
    /// The records that it opens.
    type Kept: Records + Drop + Send;

    // That these records, as they were found, are those of a folder that held this catalogue, and this number for the next entry. A
    // keeper that reads from a disk says so of what the disk held, as long as that gave back what was written to it.
    ghost finds: { Self.Kept → Catalogue (List ℕ) → ℕ → Type 0 };

    /// The records that the folder at a path keeps, which is begun where it has none; and the number of the next entry, which is
    /// above those of all entries that made versions or began open uploads there. What was found is sound, whoever wrote it, so
    /// that an entry of this number may come next. A bucket of each of these names is made where it isn't there. A keeper opens one
    /// folder, once: a later call may fail.
    ///
    /// # Errors
    ///
    /// Why the folder can't be used: `Damaged` where what was found isn't sound. The records that it keeps are as they were then,
    /// but for buckets of these names.
    fn open(
        &mut self,
        alloc: Global,
        path: &str,
        buckets: &[BucketName],
    ) -> Result<Opened<Self::Kept>, StorageFault>
        ensures held { IfOk result (λ opened. (held : Catalogue (List ℕ)) (number : ℕ) → finds opened.first.value held number
            → (Self.Kept.catalogue opened.first.value ≡ held) × (opened.number ≡ number)) }
        ensures made { IfOk result (λ opened. Self.Kept.catalogue opened.records ≡ with_buckets buckets.now (Self.Kept.catalogue opened.first.value)) }
        ensures sound { IfOk result (λ opened. IsSoundCatalogue (Self.Kept.catalogue opened.records) opened.number) }
        ensures buckets { IfOk result (λ opened. HasBuckets buckets.now (Self.Kept.catalogue opened.records)) };
}
