//! That an id is given once.
ghost use Rattle.s3_catalogue_laws.specs.Ids.{VersionsAreToldOnce, UploadsAreToldOnce, OldIdsNameOneVersion, NewIdsNameNone, RunsStayBelow, OldIdsNameOneUpload, NewIdsNameNoUpload, UploadsStayBelow, ToldIdsAreOfMarkers};

use s3_records::{
    changes_are_by_place, changes_are_by_upload, changes_follow_rules, numbers_stay_below,
    uploads_are_listed,
};

/// A law, with nothing to run: a list tells no id of a key twice, of versions or of uploads. Where the numbers of entries don't
/// fall, the id of an earlier one names the version that it names for good, or none, and so does that of an upload, as it was
/// begun; that of a later entry than those of all versions names none, and so does that of a later one than those of all open
/// uploads.
pub fn ids_are_given_once<B>()
    ensures versions { VersionsAreToldOnce B }
    ensures uploads { UploadsAreToldOnce B }
    ensures old { OldIdsNameOneVersion B }
    ensures new { NewIdsNameNone B }
    ensures below { RunsStayBelow B }
    ensures begun { OldIdsNameOneUpload B }
    ensures unbegun { NewIdsNameNoUpload B }
    ensures uploads_below { UploadsStayBelow B }
{
    changes_are_by_place::<B>();
    changes_are_by_upload::<B>();
    numbers_stay_below::<B>();
    uploads_are_listed::<B>();
}

/// A law, with nothing to run: the id that is told of the delete marker that a delete makes is the marker's. A read by it is
/// refused as `MethodNotAllowed`, and where the version of this id is deleted nothing stands under it.
pub fn told_markers_are_there<B>()
    ensures { ToldIdsAreOfMarkers B }
{
    changes_are_by_place::<B>();
    changes_follow_rules::<B>();
}
