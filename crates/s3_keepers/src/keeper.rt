//! What every kind of records promises of those that a server begins with.

ghost use Rattle.std.specs.Prelude.{◌≡◌, ◌≢◌, [], true, IfOk, OnErr};
ghost use Rattle.s3_records.specs.Catalogue.{opening};

use s3_names::BucketName;
use s3_records::Records;
use s3_terms::NoMemory;
use std::alloc::Global;

/// Makes the records that a server begins with.
pub trait Keeper {
    /// The records that it makes.
    type Kept: Records + Drop + Send;

    /// Records with these first buckets, which are unversioned and empty, and were made at moment 0. A name that stands
    /// twice is one bucket.
    ///
    /// # Errors
    ///
    /// `NoMemory` where there is no memory for the records. If they are in memory, it comes only where there is a name.
    fn keep(&self, alloc: Global, buckets: &[BucketName]) -> Result<Self::Kept, NoMemory>
        ensures value { IfOk result (λ records. Self.Kept.catalogue records ≡ opening buckets.now) }
        ensures memory { OnErr result (Self.Kept.is_in_memory ≡ true → buckets.now ≢ []) };
}
