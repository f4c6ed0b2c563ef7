//! What is told of buckets.
ghost use Rattle.s3_catalogue_laws.specs.Buckets.{BucketsAreListed, ListedBucketsAreThere, NamesRise, OpeningIsListed, MadeBucketsAreNew, DroppedBucketsAreGone, OtherBucketsStay, ChangesAreTold, SwitchesAreTold, VersioningIsTold};

use s3_records::changes_are_local;

/// A law, with nothing to run: a bucket is listed exactly where it is there, once, with the moment at which it was made, and by
/// name in the order of bytes. The versioning that is told of it is that by which its keys change. A catalogue opens with the
/// named buckets, made at moment 0.
pub fn buckets_are_listed<B>()
    ensures listed { BucketsAreListed B }
    ensures there { ListedBucketsAreThere B }
    ensures once { NamesRise B }
    ensures versioning { VersioningIsTold B }
    ensures opening { OpeningIsListed B }
{}

/// A law, with nothing to run: a bucket that was made is there and is listed, with nothing in it, and is unversioned; one that
/// was dropped is neither there nor listed; a change of another leaves it there, listed and versioned as before. What is told of
/// it after a change is when it was made and the versioning that was set last.
pub fn buckets_come_and_go<B>()
    ensures made { MadeBucketsAreNew B }
    ensures dropped { DroppedBucketsAreGone B }
    ensures others { OtherBucketsStay B }
    ensures told { ChangesAreTold B }
    ensures switched { SwitchesAreTold B }
{
    changes_are_local::<B>();
}
