//! The first buckets of records that were found.
ghost use Rattle.std.specs.Prelude.{◌≡◌, ℕ, List, true, IfOk, OnOk};
ghost use Rattle.s3_records.specs.Catalogue.{has_bucket};
ghost use Rattle.s3_keepers.specs.Begun.{HasBuckets, with_bucket, with_buckets};
ghost use Rattle.s3_keepers.specs.Sound.{IsSoundCatalogue};

use crate::laws::new_buckets_stay_sound;
use s3_bodies::Body;
use s3_calendar::Moment;
use s3_names::BucketName;
use s3_records::Records;
use s3_terms::NoMemory;
use std::alloc::Global;

/// Makes a bucket of each of these names where there is none: unversioned and empty, at moment 0. What stands there stays, and
/// records that are sound stay so. An error may leave some of them made.
pub fn add_missing<K: Records>(
    records: &mut K,
    alloc: Global,
    names: &[BucketName],
) -> Result<(), NoMemory>
    ensures value { OnOk result (K.catalogue records.new ≡ with_buckets names.now (K.catalogue records.old)) }
    ensures there { OnOk result (HasBuckets names.now (K.catalogue records.new)) }
    ensures sound { (number : ℕ) → IsSoundCatalogue (K.catalogue records.old) number → IsSoundCatalogue (K.catalogue records.new) number }
{
    for name in names {
        add_if_missing(records, alloc, name)?;
    }
    Ok(())
}

// The same of one.
fn add_if_missing<K: Records>(
    records: &mut K,
    alloc: Global,
    name: &BucketName,
) -> Result<(), NoMemory>
    ensures value { OnOk result (K.catalogue records.new ≡ with_bucket (K.catalogue records.old) name.now) }
    ensures there { OnOk result (has_bucket (K.catalogue records.new) name.now ≡ true) }
    ensures others { (other : List ℕ) → has_bucket (K.catalogue records.old) other ≡ true → has_bucket (K.catalogue records.new) other ≡ true }
    ensures sound { (number : ℕ) → IsSoundCatalogue (K.catalogue records.old) number → IsSoundCatalogue (K.catalogue records.new) number }
{
    new_buckets_stay_sound::<Body>();
    match records.bucket(alloc, name)? {
        Some(_) => Ok(()),
        None => {
            let name = name.copy()?;
            records.add_bucket(alloc, name, first_moment()?)
        }
    }
}

// The first moment there is.
fn first_moment() -> Result<Moment, NoMemory>
    ensures { IfOk result (λ moment. moment ≡ 0) }
{
    match Moment::new(0) {
        Some(moment) => Ok(moment),
        None => Err(NoMemory),
    }
}
