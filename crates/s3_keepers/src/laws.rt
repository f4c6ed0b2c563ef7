//! A law of the records that a server goes on with, with nothing to run.
ghost use Rattle.s3_keepers.specs.Sound.{NewBucketsStaySound};

use s3_records::{
    changes_are_by_upload, empty_has_nothing, numbers_stay_below, versions_stay_in_order,
};

/// A law, with nothing to run: records that are sound are so with one bucket more.
pub fn new_buckets_stay_sound<B>()
    ensures { NewBucketsStaySound B }
{
    numbers_stay_below::<B>();
    versions_stay_in_order::<B>();
    changes_are_by_upload::<B>();
    empty_has_nothing::<B>();
}
