//! What every command does.
ghost use Rattle.std.specs.Prelude.{◌≡◌, true, false, IfOk, OnErr, IsTrue};
ghost use Rattle.s3_records.specs.Leaving.{StaysKnown};
ghost use Rattle.s3_records.specs.Places.{AreBelow};
ghost use Rattle.s3_machine.specs.Effects.{is_refused, takes_room};
ghost use Rattle.s3_machine.specs.Step.{step};

use crate::bucket_steps::take_on_bucket;
use crate::deletions::delete_objects;
use crate::key_steps::take_on_key;
use crate::list_steps::tell_buckets;
use crate::upload_steps::take_on_upload;
use s3_calendar::Moment;
use s3_machine::{Command, Outcome, Rules};
use s3_records::Records;
use s3_terms::NoMemory;
use std::alloc::Global;

/// Takes the step of a command, as the entry of this number, which is above those of all versions. `NoMemory` leaves the
/// records as they were.
#[tactic(auto, using(crate::proofs::StepLemmas::all_steps))]
pub(crate) fn take<R: Records>(
    records: &mut R,
    alloc: Global,
    rules: &Rules,
    command: Command,
    number: u64,
    moment: Moment,
) -> Result<Outcome, NoMemory>
    requires { AreBelow number (R.catalogue records.old) }
    ensures ok { IfOk result (λ outcome.
        step rules.now (R.catalogue records.old) number moment command ≡ (R.catalogue records.new, outcome)) }
    ensures err { OnErr result (R.catalogue records.new ≡ R.catalogue records.old) }
    ensures memory { OnErr result (R.is_in_memory ≡ true
        → is_refused (step rules.now (R.catalogue records.old) number moment command).1 ≡ false) }
    ensures room { OnErr result (R.is_in_memory ≡ true → IsTrue (takes_room (R.catalogue records.old) command)) }
    ensures stays { StaysKnown R.leaves_one_of records.old records.new }
{
    match command {
        Command::ListBuckets => tell_buckets(records, alloc),
        Command::Bucket { name, asked } => take_on_bucket(
            records, alloc, rules, &name, asked, moment,
        ),
        Command::Key { bucket, key, asked } => {
            take_on_key(records, alloc, &bucket, key, asked, number, moment)
        }
        Command::Upload {
            bucket,
            key,
            id,
            asked,
        } => take_on_upload(
            records, alloc, rules, &bucket, key, id, asked, number, moment,
        ),
        Command::DeleteObjects { bucket, deletion } => {
            delete_objects(records, alloc, &bucket, deletion, number, moment)
        }
    }
}
