//! What DeleteObjects does.
ghost use Rattle.std.specs.Prelude.{◌≡◌, ℕ, true, false, IfOk, OnErr, IsTrue};
ghost use Rattle.s3_records.specs.Catalogue.{has_bucket};
ghost use Rattle.s3_records.specs.Leaving.{StaysKnown};
ghost use Rattle.s3_records.specs.Places.{AreBelow};
ghost use Rattle.s3_machine.specs.declared.rules.Rules.{Rules};
ghost use Rattle.s3_machine.specs.Effects.{is_refused};
ghost use Rattle.s3_machine.specs.Step.{step};
ghost use Rattle.s3_store.specs.Steps.{deletion_step};

use crate::bucket_steps::refused;
use s3_calendar::Moment;
use s3_deletions::Deletion;
use s3_documents::{DeletionDraft, Document};
use s3_machine::{Command, Outcome};
use s3_names::BucketName;
use s3_records::Records;
use s3_terms::{Code, NoMemory};
use std::alloc::Global;

/// DeleteObjects, as the entry of this number: all objects that are named are deleted, or none. `NoMemory` leaves the
/// records as they were.
#[tactic(auto, unfolding(s3_machine::specs::Step::done))]
pub(crate) fn delete_objects<R: Records>(
    records: &mut R,
    alloc: Global,
    bucket: &BucketName,
    deletion: Deletion,
    number: u64,
    moment: Moment,
) -> Result<Outcome, NoMemory>
    requires { AreBelow number (R.catalogue records.old) }
    ensures ok { IfOk result (λ outcome. (rules : Rules)
        → step rules (R.catalogue records.old) number moment (Command.DeleteObjects bucket.now deletion)
        ≡ (R.catalogue records.new, outcome)) }
    ensures err { OnErr result (R.catalogue records.new ≡ R.catalogue records.old) }
    ensures memory { OnErr result (R.is_in_memory ≡ true → (rules : Rules)
        → is_refused (step rules (R.catalogue records.old) number moment (Command.DeleteObjects bucket.now deletion)).1 ≡ false) }
    ensures stays { StaysKnown R.leaves_one_of records.old records.new }
{
    match records.bucket(alloc, bucket) {
        Ok(Some(_)) => delete_in_bucket(records, alloc, bucket, deletion, number, moment),
        Ok(None) => {
            drop(deletion);
            Ok(refused(Code::NoSuchBucket))
        }
        Err(no_memory) => {
            drop(deletion);
            Err(no_memory)
        }
    }
}

// The same in a bucket that is there. The document's room is taken before anything is deleted.
fn delete_in_bucket<R: Records>(
    records: &mut R,
    alloc: Global,
    bucket: &BucketName,
    deletion: Deletion,
    number: u64,
    moment: Moment,
) -> Result<Outcome, NoMemory>
    requires there { IsTrue (has_bucket (R.catalogue records.old) bucket.now) }
    requires below { AreBelow number (R.catalogue records.old) }
    ensures ok { IfOk result (λ outcome.
        deletion_step (R.catalogue records.old) number moment bucket.now deletion ≡ (R.catalogue records.new, outcome)) }
    ensures err { OnErr result (R.catalogue records.new ≡ R.catalogue records.old) }
    ensures stays { StaysKnown R.leaves_one_of records.old records.new }
{
    let draft = Document::of_deletions(alloc, deletion)?;
    delete_drafted(records, alloc, bucket, draft, number, moment)
}

// The same with the draft of its document.
fn delete_drafted<R: Records>(
    records: &mut R,
    alloc: Global,
    bucket: &BucketName,
    draft: DeletionDraft,
    number: u64,
    moment: Moment,
) -> Result<Outcome, NoMemory>
    requires there { IsTrue (has_bucket (R.catalogue records.old) bucket.now) }
    requires below { AreBelow number (R.catalogue records.old) }
    ensures ok { IfOk result (λ outcome.
        deletion_step (R.catalogue records.old) number moment bucket.now draft ≡ (R.catalogue records.new, outcome)) }
    ensures err { OnErr result (R.catalogue records.new ≡ R.catalogue records.old) }
    ensures stays { StaysKnown R.leaves_one_of records.old records.new }
{
    match records.delete_all(alloc, bucket, draft.objects(), number, moment) {
        Ok(markers) => Ok(Outcome::Told {
            document: draft.told(markers),
        }),
        Err(no_memory) => {
            drop(draft);
            Err(no_memory)
        }
    }
}
