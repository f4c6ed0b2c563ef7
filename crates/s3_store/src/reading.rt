//! What is told of a version that is read.
ghost use Rattle.std.specs.Prelude.{◌≡◌, ◌≢◌, ℕ, List, true, IsTrue, is_some, Some, None, IfOk, OnErr, option_and_then};
ghost use Rattle.s3_versions.specs.declared.version.Data.{Data};
ghost use Rattle.s3_versions.specs.declared.version.Version.{Version};
ghost use Rattle.s3_versions.specs.Rules.{asked_for, judged, pick, stored};
ghost use Rattle.s3_records.specs.Catalogue.{versions_of};
ghost use Rattle.s3_records.specs.Leaving.{StaysKnown};
ghost use Rattle.s3_machine.specs.Step.{shown_in, found_in};
ghost use Rattle.s3_store.specs.Steps.{read_as_found};

use s3_bodies::Body;
use s3_machine::Found;
use s3_names::{BucketName, Key, VersionId};
use s3_records::Records;
use s3_terms::NoMemory;
use s3_versions::{Content, Data, Refusal, Version, Versioning, judge};
use std::alloc::Global;

/// The id that a reply shows.
pub(crate) fn shown(versioning: Versioning, id: VersionId) -> Option<VersionId>
    ensures { result ≡ shown_in versioning id }
{
    match versioning {
        Versioning::Unversioned => None,
        Versioning::Enabled | Versioning::Suspended => Some(id),
    }
}

/// What is told of the version that a request reads in a bucket of this versioning, with its bytes, or the refusal.
pub(crate) fn look<R: Records>(
    records: &mut R,
    alloc: Global,
    bucket: &BucketName,
    versioning: Versioning,
    key: &Key,
    asked: Option<VersionId>,
) -> Result<Result<Found<Body>, Refusal>, NoMemory>
    ensures value { IfOk result (λ read. read
        ≡ read_as_found versioning (pick asked (versions_of (R.catalogue records.old) bucket.now key.now))) }
    ensures same { R.catalogue records.new ≡ R.catalogue records.old }
    ensures memory { OnErr result (R.is_in_memory ≡ true
        → option_and_then stored (asked_for asked (versions_of (R.catalogue records.old) bucket.now key.now)) ≢ None) }
    ensures stays { StaysKnown R.leaves_one_of records.old records.new }
{
    let found = records.version(alloc, bucket, key, asked)?;
    Ok(read(versioning, asked, found))
}

// What is told of the version that was found, or the refusal. What it stores is moved and not copied.
fn read(
    versioning: Versioning,
    asked: Option<VersionId>,
    found: Option<Version<Body>>,
) -> Result<Found<Body>, Refusal>
    ensures { result ≡ read_as_found versioning (judged asked found) }
{
    match judge(asked, found.as_ref()) {
        Err(refusal) => Err(refusal),
        Ok(_) => Ok(told(versioning, found)),
    }
}

// What is told of a version that is no delete marker.
fn told(versioning: Versioning, found: Option<Version<Body>>) -> Found<Body>
    requires { IsTrue (is_some (option_and_then stored found)) }
    ensures { (v : Version (List ℕ)) (d : Data (List ℕ)) → found ≡ Some v → stored v ≡ Some d → result ≡ found_in versioning (v, d) }
{
    match found {
        Some(version) => {
            let id = version.id();
            found_under(shown(versioning, id), version)
        }
        // The caller knows that there is a version.
        None => unreachable!(),
    }
}

// The same, with the id that is shown.
fn found_under(shown: Option<VersionId>, version: Version<Body>) -> Found<Body>
    requires { IsTrue (is_some (stored version)) }
    ensures { (d : Data (List ℕ)) → stored version ≡ Some d
        → result ≡ record { shown = shown; moment = version.moment; stored = d } }
{
    let moment = version.moment;
    match version.content {
        Content::Stored(stored) => Found {
            shown,
            moment,
            stored,
        },
        // The caller knows that it is no delete marker.
        Content::DeleteMarker => unreachable!(),
    }
}
