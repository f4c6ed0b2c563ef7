//! The first buckets of records.
ghost use Rattle.std.specs.Prelude.{◌≡◌, ℕ, List, [], IfOk, OnOk};
ghost use Rattle.std.specs.FinMap as map;
ghost use Rattle.s3_records.specs.Catalogue.{opening, new_bucket};

use s3_calendar::Moment;
use s3_names::BucketName;
use s3_records::Records;
use s3_terms::NoMemory;
use std::alloc::Global;

/// Makes the first buckets of records that have none: unversioned and empty, at moment 0. A name that stands twice is one bucket.
/// An error may leave some of them made.
pub fn open_buckets<K: Records>(
    records: &mut K,
    alloc: Global,
    names: &[BucketName],
) -> Result<(), NoMemory>
    requires { K.catalogue records.old ≡ opening [] }
    ensures { OnOk result (K.catalogue records.new ≡ opening names.now) }
{
    for name in names {
        open_bucket(records, alloc, name)?;
    }
    Ok(())
}

// Makes one of them, where it isn't there.
fn open_bucket<K: Records>(
    records: &mut K,
    alloc: Global,
    name: &BucketName,
) -> Result<(), NoMemory>
    requires { (names : List (List ℕ)) × (K.catalogue records.old ≡ opening names) }
    ensures { OnOk result (K.catalogue records.new ≡ map.insert (K.catalogue records.old) name.now (new_bucket 0)) }
{
    match records.bucket(alloc, name)? {
        Some(_) => Ok(()),
        None => {
            let name = name.copy()?;
            records.add_bucket(alloc, name, first_moment()?)
        }
    }
}

// The first moment there is.
fn first_moment() -> Result<Moment, NoMemory>
    ensures { IfOk result (λ moment. moment ≡ 0) }
{
    match Moment::new(0) {
        Some(moment) => Ok(moment),
        None => Err(NoMemory),
    }
}
