//! What is known of buckets in all histories: laws, with nothing to run.
ghost use Rattle.s3_machine.specs.Bases.{EverySoundHistory};
ghost use Rattle.s3_machine.specs.Buckets.{FullBucketsStay, EmptyBucketsAreDropped, VersioningIsTold, NewBucketsAreUnversioned, RegionIsTold};
ghost use Rattle.s3_machine.specs.Kept.{EveryHistory};

use crate::history::histories_leave_sound_bases;
use crate::laws::steps_keep;
use s3_bodies::Body;
use s3_records::{deletions_are_by_place, empty_has_nothing};

/// A law, with nothing to run: in a legal history a bucket with something in it, a version, a delete marker or an upload that is
/// open, isn't dropped: who asks for it is refused with BucketNotEmpty, and all is as it was. From a sound base one that is there
/// and in which nothing is, is dropped.
pub fn full_buckets_stay()
    ensures full { EveryHistory FullBucketsStay }
    ensures empty { EverySoundHistory EmptyBucketsAreDropped }
{
    empty_has_nothing::<Body>();
    histories_leave_sound_bases();
    steps_keep();
}

/// A law, with nothing to run: in a legal history who asks for a bucket's versioning is told the status to which it was set last,
/// and that it never was, where none was set since the bucket was made.
pub fn versioning_is_told()
    ensures told { EveryHistory VersioningIsTold }
    ensures unversioned { EveryHistory NewBucketsAreUnversioned }
{
    deletions_are_by_place::<Body>();
}

/// A law, with nothing to run: in a legal history who looks for a bucket is told the region of the server's rules where it is there,
/// and is refused with NoSuchBucket where it isn't.
pub fn region_is_told()
    ensures { EveryHistory RegionIsTold }
{}
