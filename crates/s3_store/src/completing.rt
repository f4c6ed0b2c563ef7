//! What the completion of an upload does.
ghost use Rattle.std.specs.Prelude.{◌≡◌, Some, true, false, IfOk, OnErr};
ghost use Rattle.s3_records.specs.Leaving.{StaysKnown};
ghost use Rattle.s3_records.specs.OpenUploads.{bytes_listed, completed_at, upload_at};
ghost use Rattle.s3_documents.specs.Document as documents;
ghost use Rattle.s3_machine.specs.Effects.{is_refused};
ghost use Rattle.s3_store.specs.Steps.{upload_step, completion_step, completed_as, completion_code, MayEnter};

use crate::bucket_steps::refused;
use crate::conditions::bar;
use crate::reading::shown;
use s3_bodies::Body;
use s3_calendar::Moment;
use s3_documents::Document;
use s3_machine::{Outcome, Rules, UploadCommand, WriteCondition};
use s3_names::{BucketName, Key, Tag, UploadId};
use s3_records::Records;
use s3_terms::{Code, NoMemory};
use s3_uploads::{ListedPart, ListedParts};
use s3_versions::{Data, Versioning};
use std::alloc::Global;

/// CompleteMultipartUpload. The bytes of the parts are shared, and none is copied. `NoMemory` leaves the records as they
/// were, and so does a refusal: the upload is still open. Whether its condition holds is judged before it takes room.
#[tactic(auto, using(crate::proofs::UploadLemmas::completion_steps))]
pub(crate) fn complete<R: Records>(
    records: &mut R,
    alloc: Global,
    rules: &Rules,
    bucket: &BucketName,
    versioning: Versioning,
    key: Key,
    id: UploadId,
    listed: &ListedParts,
    condition: &WriteCondition,
    number: u64,
    moment: Moment,
) -> Result<Outcome, NoMemory>
    requires { MayEnter (R.catalogue records.old) number bucket.now versioning }
    ensures ok { IfOk result (λ outcome.
        upload_step rules.now (R.catalogue records.old) number moment bucket.now key id (UploadCommand.Complete listed.now condition.now)
        ≡ (R.catalogue records.new, outcome)) }
    ensures err { OnErr result (R.catalogue records.new ≡ R.catalogue records.old) }
    ensures memory { OnErr result (R.is_in_memory ≡ true
        → is_refused
        (upload_step rules.now (R.catalogue records.old) number moment bucket.now key id (UploadCommand.Complete listed.now condition.now)).1
        ≡ false) }
    ensures stays { StaysKnown R.leaves_one_of records.old records.new }
{
    match bar(records, alloc, bucket, &key, condition) {
        Ok(None) => join(
            records,
            alloc,
            rules.least_part,
            bucket,
            versioning,
            key,
            id,
            listed,
            number,
            moment,
        ),
        Ok(Some(code)) => refuse_barred(records, alloc, bucket, &key, id, code),
        Err(no_memory) => Err(no_memory),
    }
}

// The refusal of a completion that this code keeps from storing: `NoSuchUpload` comes first.
#[tactic(auto, using(crate::proofs::UploadLemmas::barred_codes))]
fn refuse_barred<R: Records>(
    records: &mut R,
    alloc: Global,
    bucket: &BucketName,
    key: &Key,
    id: UploadId,
    code: Code,
) -> Result<Outcome, NoMemory>
    ensures ok { IfOk result (λ outcome. outcome
        ≡ Outcome.Refused (completion_code code (upload_at (R.catalogue records.old) bucket.now key.now id)) false) }
    ensures same { R.catalogue records.new ≡ R.catalogue records.old }
    ensures memory { OnErr result (R.is_in_memory ≡ false) }
    ensures stays { StaysKnown R.leaves_one_of records.old records.new }
{
    if records.has_upload(alloc, bucket, key, id)? {
        Ok(refused(code))
    } else {
        Ok(refused(Code::NoSuchUpload))
    }
}

// A completion whose condition holds, or that has none.
#[tactic(auto, using(crate::proofs::UploadLemmas::joined_parts))]
fn join<R: Records>(
    records: &mut R,
    alloc: Global,
    least_part: u64,
    bucket: &BucketName,
    versioning: Versioning,
    key: Key,
    id: UploadId,
    listed: &ListedParts,
    number: u64,
    moment: Moment,
) -> Result<Outcome, NoMemory>
    requires { MayEnter (R.catalogue records.old) number bucket.now versioning }
    ensures ok { IfOk result (λ outcome.
        completed_as (R.catalogue records.old) number moment bucket.now key id
        (completed_at least_part listed.now (upload_at (R.catalogue records.old) bucket.now key id))
        ≡ (R.catalogue records.new, outcome)) }
    ensures err { OnErr result (R.catalogue records.new ≡ R.catalogue records.old) }
    ensures memory { OnErr result (R.is_in_memory ≡ true
        → is_refused (completed_as (R.catalogue records.old) number moment bucket.now key id
        (completed_at least_part listed.now (upload_at (R.catalogue records.old) bucket.now key id))).1
        ≡ false) }
    ensures stays { StaysKnown R.leaves_one_of records.old records.new }
{
    match records.completed(alloc, bucket, &key, id, least_part, listed.as_slice())? {
        Err(code) => Ok(refused(code)),
        Ok(stored) => put_joined(
            records,
            alloc,
            bucket,
            versioning,
            key,
            id,
            listed.as_slice(),
            stored,
            number,
            moment,
        ),
    }
}

// What is told of the version with this tag, by names of its own.
fn completed_document(
    alloc: Global,
    bucket: &BucketName,
    key: &Key,
    tag: &Tag,
) -> Result<Document, NoMemory>
    ensures { IfOk result (λ document. document ≡ documents.completed bucket.now key.now tag.now) }
{
    let bucket = bucket.copy()?;
    let key = key.copy()?;
    Document::of_completed(alloc, bucket, key, tag.copy())
}

// Puts what the listed parts make, which has their bytes, and drops the upload with all its parts.
fn put_joined<R: Records>(
    records: &mut R,
    alloc: Global,
    bucket: &BucketName,
    versioning: Versioning,
    key: Key,
    id: UploadId,
    listed: &[ListedPart],
    stored: Data<Body>,
    number: u64,
    moment: Moment,
) -> Result<Outcome, NoMemory>
    requires enters { MayEnter (R.catalogue records.old) number bucket.now versioning }
    requires joined { bytes_listed listed.now (upload_at (R.catalogue records.old) bucket.now key id) ≡ Some stored.body }
    ensures ok { IfOk result (λ outcome.
        completion_step (R.catalogue records.old) number moment bucket.now key id stored ≡ (R.catalogue records.new, outcome)) }
    ensures err { OnErr result (R.catalogue records.new ≡ R.catalogue records.old) }
    ensures stays { StaysKnown R.leaves_one_of records.old records.new }
{
    let tag = stored.tag.copy();
    let Ok(document) = completed_document(alloc, bucket, &key, &tag) else {
        drop(stored);
        return Err(NoMemory);
    };
    match records.complete(alloc, bucket, key, id, number, moment, listed, stored) {
        Ok(gone) => {
            drop(gone);
            let shown = shown(versioning, versioning.new_id(number));
            Ok(Outcome::Completed {
                document,
                tag,
                shown,
            })
        }
        Err(no_memory) => {
            drop(document);
            Err(no_memory)
        }
    }
}
