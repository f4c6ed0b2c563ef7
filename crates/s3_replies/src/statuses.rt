//! The statuses of the replies to what comes of commands.

ghost use Rattle.std.specs.Prelude.{◌≡◌};
ghost use Rattle.s3_replies.specs.Replies.{HasStatus};
ghost use Rattle.s3_replies.specs.Statuses as rules;

use s3_conditions::Selection;
use s3_machine::Outcome;
use s3_terms::Status;

/// The status of the reply to what came of a command: every reply to it has this one.
pub fn reply_status(outcome: &Outcome) -> Status
    ensures value { result ≡ rules.reply_status outcome.now }
    ensures shown { HasStatus outcome.now result }
{
    match outcome {
        Outcome::Told { .. }
        | Outcome::BucketMade { .. }
        | Outcome::BucketFound { .. }
        | Outcome::VersioningSet
        | Outcome::BucketVersioning { .. }
        | Outcome::Put { .. }
        | Outcome::Copied { .. }
        | Outcome::PartPut { .. }
        | Outcome::PartCopied { .. }
        | Outcome::Completed { .. }
        | Outcome::NoTags { .. } => Status::Ok,
        Outcome::BucketDropped | Outcome::UploadDropped | Outcome::Deleted { .. } => {
            Status::NoContent
        }
        Outcome::Got { selection, .. } => status_with(*selection),
        Outcome::OutOfRange { .. } => Status::RangeNotSatisfiable,
        Outcome::Refused { code, .. } => code.status(),
    }
}

/// The status of a reply that shows this of a version.
fn status_with(selection: Selection) -> Status
    ensures { result ≡ rules.status_with selection }
{
    match selection {
        Selection::Whole => Status::Ok,
        Selection::Part { .. } => Status::PartialContent,
        Selection::Unchanged => Status::NotModified,
        Selection::Outside => Status::RangeNotSatisfiable,
    }
}
