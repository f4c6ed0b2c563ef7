//! What the commands on uploads do.
ghost use Rattle.std.specs.Prelude.{◌≡◌, ℕ, true, false, is_some, IfOk, OnErr, IsTrue};
ghost use Rattle.s3_bodies.specs.Payload.{tag_of};
ghost use Rattle.s3_uploads.specs.Parts.{part_sent};
ghost use Rattle.s3_records.specs.Catalogue.{has_bucket};
ghost use Rattle.s3_records.specs.Changes.{changed, PartPut};
ghost use Rattle.s3_records.specs.Leaving.{StaysKnown};
ghost use Rattle.s3_records.specs.OpenUploads.{parts_at, upload_at};
ghost use Rattle.s3_records.specs.Places.{AreBelow};
ghost use Rattle.s3_listings.specs.Parts.{parts_page};
ghost use Rattle.s3_documents.specs.Document as documents;
ghost use Rattle.s3_machine.specs.Effects.{is_refused, takes_room, takes_room_in_upload};
ghost use Rattle.s3_machine.specs.Step.{step};
ghost use Rattle.s3_store.specs.Steps.{key_step, upload_step, MayEnter};

use crate::bucket_steps::refused;
use crate::completing::complete;
use crate::part_copies::copy_part;
use s3_bodies::Payload;
use s3_calendar::Moment;
use s3_documents::Document;
use s3_listings::{PartsAsked, list_parts};
use s3_machine::{Command, Description, KeyCommand, Outcome, Rules, UploadCommand};
use s3_names::{BucketName, Key, PartNumber, UploadId};
use s3_records::Records;
use s3_terms::{Code, NoMemory};
use s3_uploads::{Part, Upload};
use s3_versions::Versioning;
use std::alloc::Global;

/// CreateMultipartUpload, as the entry of this number, which is the upload's id. `NoMemory` leaves the records as they were.
#[tactic(auto, unfolding(s3_machine::specs::Step::key_done))]
pub(crate) fn begin<R: Records>(
    records: &mut R,
    alloc: Global,
    bucket: &BucketName,
    key: Key,
    asked: Description,
    number: u64,
    moment: Moment,
) -> Result<Outcome, NoMemory>
    requires { IsTrue (has_bucket (R.catalogue records.old) bucket.now) }
    ensures ok { IfOk result (λ outcome.
        key_step (R.catalogue records.old) number moment bucket.now key (KeyCommand.Begin asked)
        ≡ (R.catalogue records.new, outcome)) }
    ensures err { OnErr result (R.catalogue records.new ≡ R.catalogue records.old) }
    ensures memory { OnErr result (R.is_in_memory ≡ true
        → is_refused (key_step (R.catalogue records.old) number moment bucket.now key (KeyCommand.Begin asked)).1 ≡ false) }
    ensures stays { StaysKnown R.leaves_one_of records.old records.new }
{
    let id = UploadId::of(number);
    let document = begun_document(alloc, bucket, &key, id)?;
    let upload = Upload::new(alloc, moment, asked.content_type, asked.metadata);
    match records.add_upload(alloc, bucket, key, id, upload) {
        Ok(()) => Ok(Outcome::Told { document }),
        Err(no_memory) => {
            drop(document);
            Err(no_memory)
        }
    }
}

// What is told of the upload of this id, by names of its own.
fn begun_document(
    alloc: Global,
    bucket: &BucketName,
    key: &Key,
    id: UploadId,
) -> Result<Document, NoMemory>
    ensures { IfOk result (λ document. document ≡ documents.begun bucket.now key.now id) }
{
    let bucket = bucket.copy()?;
    let key = key.copy()?;
    Document::of_begun(alloc, bucket, key, id)
}

/// Takes the step of a command on an upload, as the entry of this number. `NoMemory` leaves the records as they were.
#[tactic(auto, using(crate::proofs::StepLemmas::versioning_told), unfolding(s3_machine::specs::Step::done))]
pub(crate) fn take_on_upload<R: Records>(
    records: &mut R,
    alloc: Global,
    rules: &Rules,
    bucket: &BucketName,
    key: Key,
    id: UploadId,
    asked: UploadCommand,
    number: u64,
    moment: Moment,
) -> Result<Outcome, NoMemory>
    requires { AreBelow number (R.catalogue records.old) }
    ensures ok { IfOk result (λ outcome.
        step rules.now (R.catalogue records.old) number moment (Command.Upload bucket.now key id asked)
        ≡ (R.catalogue records.new, outcome)) }
    ensures err { OnErr result (R.catalogue records.new ≡ R.catalogue records.old) }
    ensures memory { OnErr result (R.is_in_memory ≡ true
        → is_refused (step rules.now (R.catalogue records.old) number moment (Command.Upload bucket.now key id asked)).1 ≡ false) }
    ensures room { OnErr result (R.is_in_memory ≡ true → IsTrue (takes_room (R.catalogue records.old) (Command.Upload bucket.now key id asked))) }
    ensures stays { StaysKnown R.leaves_one_of records.old records.new }
{
    match records.bucket(alloc, bucket) {
        Ok(Some(facts)) => take_in_bucket(
            records,
            alloc,
            rules,
            bucket,
            facts.versioning,
            key,
            id,
            asked,
            number,
            moment,
        ),
        Ok(None) => {
            let_go_of_upload(key, asked);
            Ok(refused(Code::NoSuchBucket))
        }
        Err(no_memory) => {
            let_go_of_upload(key, asked);
            Err(no_memory)
        }
    }
}

// Drops a command on an upload that takes no step.
fn let_go_of_upload(key: Key, asked: UploadCommand) {
    drop(key);
    drop(asked);
}

// The same in a bucket that is there, and has this versioning.
fn take_in_bucket<R: Records>(
    records: &mut R,
    alloc: Global,
    rules: &Rules,
    bucket: &BucketName,
    versioning: Versioning,
    key: Key,
    id: UploadId,
    asked: UploadCommand,
    number: u64,
    moment: Moment,
) -> Result<Outcome, NoMemory>
    requires { MayEnter (R.catalogue records.old) number bucket.now versioning }
    ensures ok { IfOk result (λ outcome.
        upload_step rules.now (R.catalogue records.old) number moment bucket.now key id asked ≡ (R.catalogue records.new, outcome)) }
    ensures err { OnErr result (R.catalogue records.new ≡ R.catalogue records.old) }
    ensures memory { OnErr result (R.is_in_memory ≡ true
        → is_refused (upload_step rules.now (R.catalogue records.old) number moment bucket.now key id asked).1 ≡ false) }
    ensures room { OnErr result (R.is_in_memory ≡ true → IsTrue (takes_room_in_upload asked)) }
    ensures stays { StaysKnown R.leaves_one_of records.old records.new }
{
    match asked {
        UploadCommand::PutPart {
            number: part,
            payload,
        } => put_part(records, alloc, bucket, &key, id, part, payload, moment),
        UploadCommand::CopyPart { number: part, copy } => {
            copy_part(records, alloc, bucket, &key, id, part, copy, moment)
        }
        UploadCommand::Complete { listed, condition } => complete(
            records, alloc, rules, bucket, versioning, key, id, &listed, &condition, number, moment,
        ),
        UploadCommand::Abort => abort(records, alloc, bucket, &key, id),
        UploadCommand::ListParts(asked) => tell_parts(records, alloc, bucket, key, id, asked),
    }
}

// UploadPart. The part that it replaces is dropped.
#[tactic(auto, using(crate::proofs::UploadLemmas::upload_steps))]
fn put_part<R: Records>(
    records: &mut R,
    alloc: Global,
    bucket: &BucketName,
    key: &Key,
    id: UploadId,
    part: PartNumber,
    payload: Payload,
    moment: Moment,
) -> Result<Outcome, NoMemory>
    requires { IsTrue (has_bucket (R.catalogue records.old) bucket.now) }
    ensures ok { IfOk result (λ outcome. (rules : Rules) (n : ℕ)
        → upload_step rules (R.catalogue records.old) n moment bucket.now key.now id (UploadCommand.PutPart part payload)
        ≡ (R.catalogue records.new, outcome)) }
    ensures err { OnErr result (R.catalogue records.new ≡ R.catalogue records.old) }
    ensures memory { OnErr result (R.is_in_memory ≡ true → (rules : Rules) (n : ℕ)
        → is_refused (upload_step rules (R.catalogue records.old) n moment bucket.now key.now id (UploadCommand.PutPart part payload)).1
        ≡ false) }
    ensures stays { StaysKnown R.leaves_one_of records.old records.new }
{
    match records.has_upload(alloc, bucket, key, id) {
        Ok(true) => send_part(records, alloc, bucket, key, id, part, payload, moment),
        Ok(false) => {
            drop(payload);
            Ok(refused(Code::NoSuchUpload))
        }
        Err(no_memory) => {
            drop(payload);
            Err(no_memory)
        }
    }
}

// The same of an upload that is open.
fn send_part<R: Records>(
    records: &mut R,
    alloc: Global,
    bucket: &BucketName,
    key: &Key,
    id: UploadId,
    part: PartNumber,
    payload: Payload,
    moment: Moment,
) -> Result<Outcome, NoMemory>
    requires there { IsTrue (has_bucket (R.catalogue records.old) bucket.now) }
    requires is_open { IsTrue (is_some (upload_at (R.catalogue records.old) bucket.now key.now id)) }
    ensures records { IfOk result (λ outcome. R.catalogue records.new
        ≡ changed (R.catalogue records.old) bucket.now (PartPut key.now id part (part_sent moment payload))) }
    ensures outcome { IfOk result (λ outcome. outcome ≡ Outcome.PartPut (tag_of payload)) }
    ensures err { OnErr result (R.catalogue records.new ≡ R.catalogue records.old) }
    ensures stays { StaysKnown R.leaves_one_of records.old records.new }
{
    let tag = payload.tag();
    let sent = Part::sent(moment, payload)?;
    let replaced = records.put_part(alloc, bucket, key, id, part, sent)?;
    drop(replaced);
    Ok(Outcome::PartPut { tag })
}

// AbortMultipartUpload. The parts are dropped.
#[tactic(auto, using(crate::proofs::UploadLemmas::upload_steps))]
fn abort<R: Records>(
    records: &mut R,
    alloc: Global,
    bucket: &BucketName,
    key: &Key,
    id: UploadId,
) -> Result<Outcome, NoMemory>
    requires { IsTrue (has_bucket (R.catalogue records.old) bucket.now) }
    ensures ok { IfOk result (λ outcome. (rules : Rules) (n t : ℕ)
        → upload_step rules (R.catalogue records.old) n t bucket.now key.now id UploadCommand.Abort ≡ (R.catalogue records.new, outcome)) }
    ensures err { OnErr result (R.catalogue records.new ≡ R.catalogue records.old) }
    ensures memory { OnErr result (R.is_in_memory ≡ false) }
    ensures stays { StaysKnown R.leaves_one_of records.old records.new }
{
    if !records.has_upload(alloc, bucket, key, id)? {
        return Ok(refused(Code::NoSuchUpload));
    }
    let gone = records.drop_upload(alloc, bucket, key, id)?;
    drop(gone);
    Ok(Outcome::UploadDropped)
}

// ListParts.
#[tactic(auto, using(crate::proofs::UploadLemmas::upload_steps))]
fn tell_parts<R: Records>(
    records: &mut R,
    alloc: Global,
    bucket: &BucketName,
    key: Key,
    id: UploadId,
    asked: PartsAsked,
) -> Result<Outcome, NoMemory>
    ensures ok { IfOk result (λ outcome. (rules : Rules) (n t : ℕ)
        → upload_step rules (R.catalogue records.old) n t bucket.now key id (UploadCommand.ListParts asked)
        ≡ (R.catalogue records.new, outcome)) }
    ensures same { R.catalogue records.new ≡ R.catalogue records.old }
    ensures memory { OnErr result (R.is_in_memory ≡ true → (rules : Rules) (n t : ℕ)
        → is_refused (upload_step rules (R.catalogue records.old) n t bucket.now key id (UploadCommand.ListParts asked)).1 ≡ false) }
    ensures stays { StaysKnown R.leaves_one_of records.old records.new }
{
    if !records.has_upload(alloc, bucket, &key, id)? {
        return Ok(refused(Code::NoSuchUpload));
    }
    let document = parts_told_of(records, alloc, bucket, key, id, asked)?;
    Ok(Outcome::Told { document })
}

// The document of the page of an upload's parts.
fn parts_told_of<R: Records>(
    records: &mut R,
    alloc: Global,
    bucket: &BucketName,
    key: Key,
    id: UploadId,
    asked: PartsAsked,
) -> Result<Document, NoMemory>
    ensures value { IfOk result (λ document. document
        ≡ documents.parts bucket.now key id asked (parts_page asked (parts_at (R.catalogue records.old) bucket.now key id))) }
    ensures same { R.catalogue records.new ≡ R.catalogue records.old }
    ensures stays { StaysKnown R.leaves_one_of records.old records.new }
{
    let name = bucket.copy()?;
    let page = list_parts(records, alloc, bucket, &key, id, &asked)?;
    Document::of_parts(alloc, name, key, id, asked, page)
}
