//! The rules of one deletion among several of an entry.
ghost use Rattle.std.specs.Prelude.{◌≡◌};
ghost use Rattle.std.specs.Option.{option_map_or};
ghost use Rattle.s3_deletions.specs.Deletions as rules;

use s3_names::VersionId;
use s3_versions::{Version, Versioning};

/// Whether this is the id of what the entry of this number makes.
pub fn is_own(number: u64, id: VersionId) -> bool
    ensures { result ≡ rules.is_own number id }
{
    match id {
        VersionId::Null => false,
        VersionId::Numbered(own) => own == number,
    }
}

/// Whether one of several deletions by the entry of this number changes the versions under its key: one that names no
/// version does unless the entry made one of these, and one that names a version does unless its id is that number.
pub fn acts<B: Drop>(number: u64, version: Option<VersionId>, versions: &[Version<B>]) -> bool
    ensures { result ≡ rules.acts number version versions.now }
{
    match version {
        None => !has_made(number, versions),
        Some(id) => !is_own(number, id),
    }
}

// Whether the entry of this number made one of these versions.
fn has_made<B: Drop>(number: u64, versions: &[Version<B>]) -> bool
    ensures { result ≡ rules.has_made number versions.now }
{
    versions.iter().any(|version| version.number == number)
}

/// The id of the delete marker that it makes, or that is gone by it, if there is one.
pub fn marker_told<B: Drop>(
    versioning: Versioning,
    number: u64,
    version: Option<VersionId>,
    versions: &[Version<B>],
) -> Option<VersionId>
    ensures { result ≡ rules.marker_told versioning number version versions.now }
{
    if !acts(number, version, versions) {
        return None;
    }
    match version {
        None => match versioning {
            Versioning::Unversioned => None,
            Versioning::Enabled | Versioning::Suspended => Some(versioning.new_id(number)),
        },
        Some(id) => {
            if is_marker_under(id, versions) {
                Some(id)
            } else {
                None
            }
        }
    }
}

// Whether the version of this id is a delete marker.
fn is_marker_under<B: Drop>(id: VersionId, versions: &[Version<B>]) -> bool
    ensures { result ≡ rules.is_marker_under id versions.now }
{
    match versions.iter().find(|version| version.is_under(id)) {
        Some(version) => version.is_delete_marker(),
        None => false,
    }
}
