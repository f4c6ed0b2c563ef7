//! What the commands on keys do.
ghost use Rattle.std.specs.Prelude.{◌≡◌, ℕ, true, false, None, Some, IfOk, OnErr, IsTrue, option_map};
ghost use Rattle.std.specs.Option.{unwrap_or};
ghost use Rattle.s3_versions.specs.Rules.{is_delete_marker};
ghost use Rattle.s3_records.specs.Catalogue.{has_bucket, versioning_of};
ghost use Rattle.s3_records.specs.Leaving.{StaysKnown};
ghost use Rattle.s3_records.specs.Places.{AreBelow};
ghost use Rattle.s3_machine.specs.declared.rules.Rules.{Rules};
ghost use Rattle.s3_machine.specs.Effects.{is_refused, takes_room, takes_room_at_key};
ghost use Rattle.s3_machine.specs.Step.{step, data_of, makes_marker};
ghost use Rattle.s3_store.specs.Steps.{key_step, put_step, got_of, selected_by, tags_of, MayEnter};

use crate::bucket_steps::refused;
use crate::conditions::{bar, bar_by_tags};
use crate::copying::copy;
use crate::reading::{look, shown};
use crate::upload_steps::begin;
use s3_bodies::{Body, Payload};
use s3_calendar::Moment;
use s3_conditions::{Conditions, Selection, TagList, judge};
use s3_machine::{Command, Found, KeyCommand, ObjectPut, ObjectRead, Outcome, Overrides};
use s3_names::{BucketName, Key, VersionId};
use s3_records::Records;
use s3_terms::{Code, NoMemory};
use s3_versions::{Data, Facts, Refusal, Version, Versioning};
use std::alloc::Global;

/// Takes the step of a command on a key, as the entry of this number. `NoMemory` leaves the records as they were.
#[tactic(auto, using(crate::proofs::StepLemmas::versioning_told), unfolding(s3_machine::specs::Step::done))]
pub(crate) fn take_on_key<R: Records>(
    records: &mut R,
    alloc: Global,
    bucket: &BucketName,
    key: Key,
    asked: KeyCommand,
    number: u64,
    moment: Moment,
) -> Result<Outcome, NoMemory>
    requires { AreBelow number (R.catalogue records.old) }
    ensures ok { IfOk result (λ outcome. (rules : Rules)
        → step rules (R.catalogue records.old) number moment (Command.Key bucket.now key asked) ≡ (R.catalogue records.new, outcome)) }
    ensures err { OnErr result (R.catalogue records.new ≡ R.catalogue records.old) }
    ensures memory { OnErr result (R.is_in_memory ≡ true → (rules : Rules)
        → is_refused (step rules (R.catalogue records.old) number moment (Command.Key bucket.now key asked)).1 ≡ false) }
    ensures room { OnErr result (R.is_in_memory ≡ true → IsTrue (takes_room (R.catalogue records.old) (Command.Key bucket.now key asked))) }
    ensures stays { StaysKnown R.leaves_one_of records.old records.new }
{
    match records.bucket(alloc, bucket) {
        Ok(Some(facts)) => take_in_bucket(
            records,
            alloc,
            bucket,
            facts.versioning,
            key,
            asked,
            number,
            moment,
        ),
        Ok(None) => {
            let_go_at_key(key, asked);
            Ok(refused(Code::NoSuchBucket))
        }
        Err(no_memory) => {
            let_go_at_key(key, asked);
            Err(no_memory)
        }
    }
}

// Drops a command on a key that takes no step.
fn let_go_at_key(key: Key, asked: KeyCommand) {
    drop(key);
    drop(asked);
}

// The same in a bucket that is there, and has this versioning.
fn take_in_bucket<R: Records>(
    records: &mut R,
    alloc: Global,
    bucket: &BucketName,
    versioning: Versioning,
    key: Key,
    asked: KeyCommand,
    number: u64,
    moment: Moment,
) -> Result<Outcome, NoMemory>
    requires { MayEnter (R.catalogue records.old) number bucket.now versioning }
    ensures ok { IfOk result (λ outcome.
        key_step (R.catalogue records.old) number moment bucket.now key asked ≡ (R.catalogue records.new, outcome)) }
    ensures err { OnErr result (R.catalogue records.new ≡ R.catalogue records.old) }
    ensures memory { OnErr result (R.is_in_memory ≡ true
        → is_refused (key_step (R.catalogue records.old) number moment bucket.now key asked).1 ≡ false) }
    ensures room { OnErr result (R.is_in_memory ≡ true → IsTrue (takes_room_at_key versioning asked)) }
    ensures stays { StaysKnown R.leaves_one_of records.old records.new }
{
    match asked {
        KeyCommand::Put(asked) => put(
            records, alloc, bucket, versioning, key, asked, number, moment,
        ),
        KeyCommand::Copy(asked) => copy(
            records, alloc, bucket, versioning, key, asked, number, moment,
        ),
        KeyCommand::Read(asked) => read(records, alloc, bucket, versioning, &key, asked),
        KeyCommand::ReadTags { version } => {
            read_tags(records, alloc, bucket, versioning, &key, version)
        }
        KeyCommand::Delete { version } => delete(
            records, alloc, bucket, versioning, key, version, number, moment,
        ),
        KeyCommand::DeleteMatching { tags } => delete_matching(
            records, alloc, bucket, versioning, key, tags, number, moment,
        ),
        KeyCommand::Begin(asked) => begin(records, alloc, bucket, key, asked, number, moment),
    }
}

// PutObject. Whether its condition holds is judged before it takes room.
#[tactic(auto, using(crate::proofs::StepLemmas::put_steps))]
fn put<R: Records>(
    records: &mut R,
    alloc: Global,
    bucket: &BucketName,
    versioning: Versioning,
    key: Key,
    asked: ObjectPut,
    number: u64,
    moment: Moment,
) -> Result<Outcome, NoMemory>
    requires { MayEnter (R.catalogue records.old) number bucket.now versioning }
    ensures ok { IfOk result (λ outcome.
        key_step (R.catalogue records.old) number moment bucket.now key (KeyCommand.Put asked)
        ≡ (R.catalogue records.new, outcome)) }
    ensures err { OnErr result (R.catalogue records.new ≡ R.catalogue records.old) }
    ensures memory { OnErr result (R.is_in_memory ≡ true
        → is_refused (key_step (R.catalogue records.old) number moment bucket.now key (KeyCommand.Put asked)).1 ≡ false) }
    ensures stays { StaysKnown R.leaves_one_of records.old records.new }
{
    match bar(records, alloc, bucket, &key, &asked.condition) {
        Ok(None) => store(
            records, alloc, bucket, versioning, key, asked, number, moment,
        ),
        Ok(Some(code)) => {
            let_go_of_put(key, asked);
            Ok(refused(code))
        }
        Err(no_memory) => {
            let_go_of_put(key, asked);
            Err(no_memory)
        }
    }
}

// Drops a put that stores nothing.
fn let_go_of_put(key: Key, asked: ObjectPut) {
    drop(key);
    drop(asked);
}

// A put whose condition holds, or that has none.
fn store<R: Records>(
    records: &mut R,
    alloc: Global,
    bucket: &BucketName,
    versioning: Versioning,
    key: Key,
    asked: ObjectPut,
    number: u64,
    moment: Moment,
) -> Result<Outcome, NoMemory>
    requires { MayEnter (R.catalogue records.old) number bucket.now versioning }
    ensures ok { IfOk result (λ outcome.
        put_step (R.catalogue records.old) number moment bucket.now key (data_of asked) ≡ (R.catalogue records.new, outcome)) }
    ensures err { OnErr result (R.catalogue records.new ≡ R.catalogue records.old) }
    ensures stays { StaysKnown R.leaves_one_of records.old records.new }
{
    let tag = asked.payload.tag();
    let stored = stored_of(asked)?;
    records.put_version(alloc, bucket, key, number, moment, stored)?;
    let shown = shown(versioning, versioning.new_id(number));
    Ok(Outcome::Put { tag, shown })
}

// What a put stores, which is moved and not copied.
fn stored_of(asked: ObjectPut) -> Result<Data<Body>, NoMemory>
    ensures { IfOk result (λ stored. stored ≡ data_of asked) }
{
    let tag = asked.payload.tag();
    let body = asked.payload.into_body()?;
    let size = body.size();
    Ok(Data {
        tag,
        content_type: asked.content_type,
        metadata: asked.metadata,
        size,
        body,
    })
}

// GetObject and HeadObject.
#[tactic(auto, using(crate::proofs::StepLemmas::read_steps))]
fn read<R: Records>(
    records: &mut R,
    alloc: Global,
    bucket: &BucketName,
    versioning: Versioning,
    key: &Key,
    asked: ObjectRead,
) -> Result<Outcome, NoMemory>
    requires { versioning ≡ versioning_of (R.catalogue records.old) bucket.now }
    ensures ok { IfOk result (λ outcome. (n t : ℕ)
        → key_step (R.catalogue records.old) n t bucket.now key.now (KeyCommand.Read asked) ≡ (R.catalogue records.new, outcome)) }
    ensures same { R.catalogue records.new ≡ R.catalogue records.old }
    ensures memory { OnErr result (R.is_in_memory ≡ true → (n t : ℕ)
        → is_refused (key_step (R.catalogue records.old) n t bucket.now key.now (KeyCommand.Read asked)).1 ≡ false) }
    ensures stays { StaysKnown R.leaves_one_of records.old records.new }
{
    let facts = records.facts(alloc, bucket, key, asked.version)?;
    match selected(facts, &asked.conditions) {
        Ok(selection) => {
            let read = look(records, alloc, bucket, versioning, key, asked.version)?;
            Ok(got(read, selection, asked.overrides))
        }
        Err(outcome) => Ok(outcome),
    }
}

// What is shown of the bytes of a version that is read, by the conditions of the read, or what comes of a read that shows
// none of them and needs no look at them.
fn selected(facts: Result<Facts, Refusal>, conditions: &Conditions) -> Result<Selection, Outcome>
    ensures { result ≡ selected_by conditions.now facts }
{
    match facts {
        Ok(facts) => match judge(conditions, facts.moment, &facts.tag, facts.size) {
            Ok(Selection::Outside) => Err(Outcome::OutOfRange { size: facts.size }),
            Ok(selection) => Ok(selection),
            Err(code) => Err(refused(code)),
        },
        Err(refusal) => Err(refused_with(refusal)),
    }
}

// What came of a read that is shown this, and of which this is to be said.
fn got(read: Result<Found<Body>, Refusal>, selection: Selection, overrides: Overrides) -> Outcome
    ensures { result ≡ got_of selection overrides read }
{
    match read {
        Ok(found) => Outcome::Got {
            found,
            selection,
            overrides,
        },
        Err(refusal) => refused_with(refusal),
    }
}

// GetObjectTagging.
#[tactic(auto, using(crate::proofs::StepLemmas::tags_steps))]
fn read_tags<R: Records>(
    records: &mut R,
    alloc: Global,
    bucket: &BucketName,
    versioning: Versioning,
    key: &Key,
    version: Option<VersionId>,
) -> Result<Outcome, NoMemory>
    requires { versioning ≡ versioning_of (R.catalogue records.old) bucket.now }
    ensures ok { IfOk result (λ outcome. (n t : ℕ)
        → key_step (R.catalogue records.old) n t bucket.now key.now (KeyCommand.ReadTags version) ≡ (R.catalogue records.new, outcome)) }
    ensures same { R.catalogue records.new ≡ R.catalogue records.old }
    ensures memory { OnErr result (R.is_in_memory ≡ true → (n t : ℕ)
        → is_refused (key_step (R.catalogue records.old) n t bucket.now key.now (KeyCommand.ReadTags version)).1 ≡ false) }
    ensures stays { StaysKnown R.leaves_one_of records.old records.new }
{
    let read = look(records, alloc, bucket, versioning, key, version)?;
    Ok(tags_of(read))
}

// What came of a look at a version whose tags are asked for.
fn tags_of(read: Result<Found<Body>, Refusal>) -> Outcome
    ensures { result ≡ tags_of read }
{
    match read {
        Ok(found) => Outcome::NoTags { shown: found.shown },
        Err(refusal) => refused_with(refusal),
    }
}

// DeleteObject.
fn delete<R: Records>(
    records: &mut R,
    alloc: Global,
    bucket: &BucketName,
    versioning: Versioning,
    key: Key,
    version: Option<VersionId>,
    number: u64,
    moment: Moment,
) -> Result<Outcome, NoMemory>
    requires { MayEnter (R.catalogue records.old) number bucket.now versioning }
    ensures ok { IfOk result (λ outcome.
        key_step (R.catalogue records.old) number moment bucket.now key (KeyCommand.Delete version)
        ≡ (R.catalogue records.new, outcome)) }
    ensures err { OnErr result (R.catalogue records.new ≡ R.catalogue records.old) }
    ensures memory { OnErr result (R.is_in_memory ≡ true
        → is_refused (key_step (R.catalogue records.old) number moment bucket.now key (KeyCommand.Delete version)).1 ≡ false) }
    ensures room { OnErr result (R.is_in_memory ≡ true → IsTrue (takes_room_at_key versioning (KeyCommand.Delete version))) }
    ensures stays { StaysKnown R.leaves_one_of records.old records.new }
{
    match version {
        None => delete_key(records, alloc, bucket, versioning, key, number, moment),
        Some(id) => drop_version(records, alloc, bucket, versioning, &key, id),
    }
}

// DeleteObject with `If-Match`, which deletes what one that names no version does. Whether its condition holds is judged
// before it takes room.
#[tactic(auto, using(crate::proofs::StepLemmas::match_steps))]
fn delete_matching<R: Records>(
    records: &mut R,
    alloc: Global,
    bucket: &BucketName,
    versioning: Versioning,
    key: Key,
    tags: TagList,
    number: u64,
    moment: Moment,
) -> Result<Outcome, NoMemory>
    requires { MayEnter (R.catalogue records.old) number bucket.now versioning }
    ensures ok { IfOk result (λ outcome.
        key_step (R.catalogue records.old) number moment bucket.now key (KeyCommand.DeleteMatching tags)
        ≡ (R.catalogue records.new, outcome)) }
    ensures err { OnErr result (R.catalogue records.new ≡ R.catalogue records.old) }
    ensures memory { OnErr result (R.is_in_memory ≡ true
        → is_refused (key_step (R.catalogue records.old) number moment bucket.now key (KeyCommand.DeleteMatching tags)).1 ≡ false) }
    ensures room { OnErr result (R.is_in_memory ≡ true → IsTrue (makes_marker versioning)) }
    ensures stays { StaysKnown R.leaves_one_of records.old records.new }
{
    match bar_by_tags(records, alloc, bucket, &key, tags) {
        Ok(None) => delete_key(records, alloc, bucket, versioning, key, number, moment),
        Ok(Some(code)) => {
            drop(key);
            Ok(refused(code))
        }
        Err(no_memory) => {
            drop(key);
            Err(no_memory)
        }
    }
}

// DeleteObject that names no version.
#[tactic(auto, unfolding(s3_machine::specs::Step::key_done))]
fn delete_key<R: Records>(
    records: &mut R,
    alloc: Global,
    bucket: &BucketName,
    versioning: Versioning,
    key: Key,
    number: u64,
    moment: Moment,
) -> Result<Outcome, NoMemory>
    requires { MayEnter (R.catalogue records.old) number bucket.now versioning }
    ensures ok { IfOk result (λ outcome.
        key_step (R.catalogue records.old) number moment bucket.now key (KeyCommand.Delete None)
        ≡ (R.catalogue records.new, outcome)) }
    ensures err { OnErr result (R.catalogue records.new ≡ R.catalogue records.old) }
    ensures memory { OnErr result (R.is_in_memory ≡ true
        → is_refused (key_step (R.catalogue records.old) number moment bucket.now key (KeyCommand.Delete None)).1 ≡ false) }
    ensures room { OnErr result (R.is_in_memory ≡ true → IsTrue (makes_marker versioning)) }
    ensures stays { StaysKnown R.leaves_one_of records.old records.new }
{
    records.delete(alloc, bucket, key, number, moment)?;
    Ok(Outcome::Deleted {
        shown: shown(versioning, versioning.new_id(number)),
        is_delete_marker: has_markers(versioning),
    })
}

// DeleteObject of the version of this id.
#[tactic(auto, unfolding(s3_machine::specs::Step::key_done))]
fn drop_version<R: Records>(
    records: &mut R,
    alloc: Global,
    bucket: &BucketName,
    versioning: Versioning,
    key: &Key,
    id: VersionId,
) -> Result<Outcome, NoMemory>
    requires there { IsTrue (has_bucket (R.catalogue records.old) bucket.now) }
    requires versioning { versioning ≡ versioning_of (R.catalogue records.old) bucket.now }
    ensures ok { IfOk result (λ outcome. (n t : ℕ)
        → key_step (R.catalogue records.old) n t bucket.now key.now (KeyCommand.Delete (Some id)) ≡ (R.catalogue records.new, outcome)) }
    ensures err { OnErr result (R.catalogue records.new ≡ R.catalogue records.old) }
    ensures memory { OnErr result (R.is_in_memory ≡ false) }
    ensures stays { StaysKnown R.leaves_one_of records.old records.new }
{
    let gone = records.drop_version(alloc, bucket, key, id)?;
    Ok(Outcome::Deleted {
        shown: shown(versioning, id),
        is_delete_marker: was_marker(&gone),
    })
}

// A refusal that tells whether what was asked for is a delete marker.
pub(crate) fn refused_with(refusal: Refusal) -> Outcome
    ensures { result ≡ Outcome.Refused refusal.code refusal.is_delete_marker }
{
    Outcome::Refused {
        code: refusal.code,
        is_delete_marker: refusal.is_delete_marker,
    }
}

// Whether a delete that names no version makes a delete marker.
fn has_markers(versioning: Versioning) -> bool
    ensures { result ≡ makes_marker versioning }
{
    match versioning {
        Versioning::Unversioned => false,
        Versioning::Enabled | Versioning::Suspended => true,
    }
}

// Whether a version is a delete marker.
fn was_marker(version: &Option<Version<Body>>) -> bool
    ensures { result ≡ unwrap_or (option_map is_delete_marker version.now) false }
{
    match version {
        None => false,
        Some(version) => version.is_delete_marker(),
    }
}
