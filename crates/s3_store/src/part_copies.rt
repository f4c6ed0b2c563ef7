//! What the copy of a part does.
ghost use Rattle.std.specs.Prelude.{◌≡◌, ◌+◌, ℕ, true, false, min, drop, take, ◌++◌, is_some, is_ok, IfOk, OnErr, IsTrue};
ghost use Rattle.md5.specs.Md5.{md5};
ghost use Rattle.s3_records.specs.Catalogue.{has_bucket};
ghost use Rattle.s3_records.specs.Leaving.{StaysKnown};
ghost use Rattle.s3_records.specs.OpenUploads.{upload_at};
ghost use Rattle.s3_machine.specs.declared.rules.Rules.{Rules};
ghost use Rattle.s3_machine.specs.Effects.{is_refused};
ghost use Rattle.s3_machine.specs.Step as steps;
ghost use Rattle.s3_store.specs.Steps.{upload_step, part_step, part_source, source_in};

use crate::key_steps::refused_with;
use crate::sources::{find_source, refusal_of};
use itoa::Buffer;
use md5::{Digest, Md5};
use s3_bodies::Body;
use s3_calendar::Moment;
use s3_machine::{CopyRange, Found, Outcome, PartCopy, Source, UploadCommand};
use s3_names::{BucketName, Key, PartNumber, Tag, UploadId};
use s3_records::Records;
use s3_terms::{Code, NoMemory};
use s3_uploads::Part;
use s3_versions::{Data, Refusal};
use std::alloc::Global;

/// UploadPartCopy. The bytes are shared: none is copied, and none is hashed. The part that it replaces is dropped.
/// `NoMemory` leaves the records as they were. The upload has to be open before the source is looked for.
pub(crate) fn copy_part<R: Records>(
    records: &mut R,
    alloc: Global,
    bucket: &BucketName,
    key: &Key,
    id: UploadId,
    part: PartNumber,
    copy: PartCopy,
    moment: Moment,
) -> Result<Outcome, NoMemory>
    requires { IsTrue (has_bucket (R.catalogue records.old) bucket.now) }
    ensures ok { IfOk result (λ outcome. (rules : Rules) (n : ℕ)
        → upload_step rules (R.catalogue records.old) n moment bucket.now key.now id (UploadCommand.CopyPart part copy)
        ≡ (R.catalogue records.new, outcome)) }
    ensures err { OnErr result (R.catalogue records.new ≡ R.catalogue records.old) }
    ensures memory { OnErr result (R.is_in_memory ≡ true → (rules : Rules) (n : ℕ)
        → is_refused (upload_step rules (R.catalogue records.old) n moment bucket.now key.now id (UploadCommand.CopyPart part copy)).1
        ≡ false) }
    ensures stays { StaysKnown R.leaves_one_of records.old records.new }
{
    let PartCopy { source, range } = copy;
    let found = find_for_part(records, alloc, bucket, key, id, &source, range);
    drop(source);
    match found? {
        Err(refusal) => Ok(refused_with(refusal)),
        Ok(found) => put_found(records, alloc, bucket, key, id, part, range, found, moment),
    }
}

// What is copied to an upload, which has to be open before the source is looked for.
#[tactic(auto, using(crate::proofs::SourceLemmas::part_sources))]
fn find_for_part<R: Records>(
    records: &mut R,
    alloc: Global,
    bucket: &BucketName,
    key: &Key,
    id: UploadId,
    source: &Source,
    range: Option<CopyRange>,
) -> Result<Result<Found<Body>, Refusal>, NoMemory>
    ensures value { IfOk result (λ read. read
        ≡ part_source (upload_at (R.catalogue records.old) bucket.now key.now id) (source_in (R.catalogue records.old) source.now range)) }
    ensures same { R.catalogue records.new ≡ R.catalogue records.old }
    ensures memory { OnErr result (R.is_in_memory ≡ true
        → is_ok (part_source (upload_at (R.catalogue records.old) bucket.now key.now id) (source_in (R.catalogue records.old) source.now range))
        ≡ true) }
    ensures stays { StaysKnown R.leaves_one_of records.old records.new }
{
    if !records.has_upload(alloc, bucket, key, id)? {
        return Ok(Err(refusal_of(Code::NoSuchUpload)));
    }
    find_source(records, alloc, source, range)
}

// Puts what was found as a part of an upload that is open.
fn put_found<R: Records>(
    records: &mut R,
    alloc: Global,
    bucket: &BucketName,
    key: &Key,
    id: UploadId,
    part: PartNumber,
    range: Option<CopyRange>,
    found: Found<Body>,
    moment: Moment,
) -> Result<Outcome, NoMemory>
    requires there { IsTrue (has_bucket (R.catalogue records.old) bucket.now) }
    requires is_open { IsTrue (is_some (upload_at (R.catalogue records.old) bucket.now key.now id)) }
    ensures ok { IfOk result (λ outcome.
        part_step (R.catalogue records.old) moment bucket.now key.now id part range found ≡ (R.catalogue records.new, outcome)) }
    ensures err { OnErr result (R.catalogue records.new ≡ R.catalogue records.old) }
    ensures stays { StaysKnown R.leaves_one_of records.old records.new }
{
    let source = found.shown;
    let made = part_of(range, found.stored, moment);
    let tag = made.tag();
    let replaced = records.put_part(alloc, bucket, key, id, part, made)?;
    drop(replaced);
    Ok(Outcome::PartCopied {
        tag,
        moment,
        source,
    })
}

// The part that the range of a version makes.
fn part_of(range: Option<CopyRange>, stored: Data<Body>, moment: Moment) -> Part<Body>
    ensures { result ≡ steps.part_copied moment range stored }
{
    let digest = digest_of(&stored.tag, range);
    let body = cut(range, stored.body);
    Part {
        digest,
        moment,
        size: body.size(),
        body,
    }
}

// The bytes of the range, which are shared.
fn cut(range: Option<CopyRange>, body: Body) -> Body
    ensures { result ≡ steps.cut range body }
{
    match range {
        None => body,
        Some(range) => cut_out(range, body),
    }
}

// The same of a range that is named: from its first position, or from the end of the body, to its last, or to that end.
#[tactic(auto, using(crate::proofs::SourceLemmas::cut_within))]
fn cut_out(range: CopyRange, body: Body) -> Body
    ensures { result ≡ drop range.first (take (range.last + 1) body) }
{
    let end = end_of(range.last, body.size());
    let first = range.first.min(end);
    body.slice(first, end - first)
}

// How many of so many bytes there are up to a position.
fn end_of(last: u64, size: u64) -> u64
    ensures { result ≡ min (last + 1) size }
{
    if last < size { last + 1 } else { size }
}

// The digest of a part that is copied: the MD5 of the tag of its source and of the range.
fn digest_of(tag: &Tag, range: Option<CopyRange>) -> [u8; 16]
    ensures { result ≡ md5 (tag.now ++ steps.range_text range) }
{
    let mut hasher = Md5::new();
    hasher.update(tag.text().as_bytes());
    let Some(range) = range else {
        return hasher.finalize();
    };
    let mut digits = Buffer::new();
    hasher.update(b"bytes=");
    hasher.update(digits.format(range.first).as_bytes());
    hasher.update(b"-");
    hasher.update(digits.format(range.last).as_bytes());
    hasher.finalize()
}
