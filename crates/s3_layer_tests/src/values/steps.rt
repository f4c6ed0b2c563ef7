//! Steps that puts and deletes of one key take, for tests.
ghost use Rattle.std.specs.Prelude.{◌≡◌, IsTrue};
ghost use Rattle.s3_versions.specs.Rules.{is_new_number};

use s3_calendar::Moment;
use s3_names::{Tag, VersionId};
use s3_terms::Code;
use s3_versions::{
    Content, ContentType, Data, Metadata, MetadataEntry, Version, Versioning, Versions,
};
use std::alloc::Global;
use std::mem::drop;

/// What an entry does with a key.
#[derive(Clone, Copy)]
pub(crate) enum Act {
    Put,
    Delete,
    /// The end of the version of this id, which is that of this number, if there is one.
    DropVersion(VersionId, Option<u64>),
}

/// One entry: its number, the versioning of its bucket, and what it does.
pub(crate) type Entry = (u64, Versioning, Act);

/// What a put stores whose bytes are these, or something that stands for them.
pub(crate) fn stored_with<B: Drop>(alloc: Global, body: B) -> Result<Data<B>, Code> {
    let content_type = ContentType::read(alloc, b"text/plain")?;
    Ok(Data {
        tag: Tag::of_digest([7; 16]),
        content_type,
        metadata: metadata_of_one(alloc)?,
        size: 3,
        body,
    })
}

fn metadata_of_one(alloc: Global) -> Result<Metadata, Code> {
    let name = Vec::from_slice(alloc, b"x-amz-meta-colour")?;
    let value = Vec::from_slice(alloc, b"red")?;
    let mut entries = Vec::new(alloc);
    entries.push(MetadataEntry::new(name, value))?;
    Metadata::new(entries)
}

/// 2013-05-24T00:00:00Z.
pub(crate) fn moment() -> Moment {
    match Moment::new(1_369_353_600) {
        Some(moment) => moment,
        None => unreachable!(),
    }
}

/// Whether the number is above those of the versions.
#[tactic(auto, unfolding(s3_versions::specs::Rules::is_new_number))]
pub(crate) fn is_new<B>(number: u64, versions: &[Version<B>]) -> bool
    ensures { result ≡ is_new_number number versions.now }
{
    versions.iter().all(|version| version.number < number)
}

// The number of the entry that made the version that went, if one went.
fn number_of(gone: Option<Version<u64>>) -> Option<u64> {
    match gone {
        Some(version) => {
            let number = version.number;
            drop(version);
            Some(number)
        }
        None => None,
    }
}

// Deletes without naming a version: the version `null` goes where versioning never was enabled, and elsewhere a delete
// marker is added. Answers whether that was done.
fn deletes(versions: &mut Versions<u64>, number: u64, versioning: Versioning) -> bool
    requires { IsTrue (is_new_number number versions.old) }
{
    match versioning {
        Versioning::Unversioned => {
            drop(versions.delete_version(VersionId::Null));
            true
        }
        Versioning::Enabled | Versioning::Suspended => {
            let marker = Content::DeleteMarker;
            versions.add(versioning, number, moment(), marker).is_ok()
        }
    }
}

/// Takes a step with a new number, and answers whether it was made. What a put stores has the number for its bytes.
pub(crate) fn takes(alloc: Global, versions: &mut Versions<u64>, entry: &Entry) -> bool {
    let (number, versioning, act) = *entry;
    if !is_new(number, versions.as_slice()) {
        return false;
    }
    match act {
        Act::Put => match stored_with(alloc, number) {
            Ok(stored) => {
                let content = Content::Stored(stored);
                versions.add(versioning, number, moment(), content).is_ok()
            }
            Err(_) => false,
        },
        Act::Delete => deletes(versions, number, versioning),
        Act::DropVersion(id, gone) => number_of(versions.delete_version(id)) == gone,
    }
}

/// A version, by its id and whether it is a delete marker.
pub(crate) type Known = (&'static [u8], bool);

fn is_known<B>(version: &Version<B>, known: &Known) -> bool {
    version.id().text().as_bytes() == known.0 && version.is_delete_marker() == known.1
}

/// Whether these are the versions, newest first.
pub(crate) fn are<B>(versions: &[Version<B>], wanted: &[Known]) -> bool {
    if versions.len() != wanted.len() {
        return false;
    }
    for at in 0..wanted.len() {
        if !is_known(&versions[at], &wanted[at]) {
            return false;
        }
    }
    true
}
