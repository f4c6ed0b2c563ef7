//! What stays of a bucket over a run of changes.
ghost use Rattle.s3_catalogue_laws.specs.Runs.{MadeBucketsStay, DroppedBucketsStayGone, SetVersioningStays, FilledBucketsAreKept};

use s3_records::{changes_are_local, empty_has_nothing};

/// A law, with nothing to run: a bucket that was made is there and is listed with its moment, whatever changes, until a change
/// makes or drops a bucket of its name; one that was dropped is neither until a change makes or drops a bucket of its name; and the
/// versioning that was set stays until a change sets it, or makes or drops the bucket. One in which a version, a delete marker or
/// an open upload stands may not be dropped.
pub fn buckets_stay_until_dropped<B>()
    ensures made { MadeBucketsStay B }
    ensures dropped { DroppedBucketsStayGone B }
    ensures versioning { SetVersioningStays B }
    ensures filled { FilledBucketsAreKept B }
{
    changes_are_local::<B>();
    empty_has_nothing::<B>();
}
