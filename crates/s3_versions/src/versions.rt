//! The list of a key's versions, as puts and deletes change it.
ghost use Rattle.std.specs.Prelude.{◌≡◌, ◌<◌, ◌↔◌, ◌∷◌, [], Some, None, IfSome, IfNone, IfOk, OnOk, OnErr, IsTrue, find, length, remove, position, slice_get, vec_len, vec_capacity, false};
ghost use Rattle.s3_versions.specs.Rules.{id_of, is_under, made, after_adding, replaced, without, are_versions, is_new_number};

use crate::{Content, Version, Versioning};
use s3_calendar::Moment;
use s3_names::VersionId;
use s3_terms::NoMemory;
use std::alloc::Global;
use std::marker::Model;

/// The versions of one key, newest first. A contract sees them as a list. The numbers of the entries that made them
/// fall. At most one version has the id `null`, so no two have one id.
///
/// ```
/// let mut versions = Versions::new(alloc);
/// versions.add(Versioning::Enabled, 7, moment, Content::Stored(data))?;
/// versions.add(Versioning::Enabled, 9, moment, Content::DeleteMarker)?;   // the marker is current
/// let marker = versions.delete_version(VersionId::of(9));   // what entry 7 put is current again
/// ```
#[derive(Drop)]
pub struct Versions<B> {
    list: Vec<Version<B>>,
}

impl<B> Model for Versions<B> {
    ghost use Rattle.std.specs.Prelude.{List, IsTrue};
    ghost use Rattle.std.specs.Coded.{coded_list};
    ghost use Rattle.s3_versions.specs.declared.version.Version.{Version};
    ghost use Rattle.s3_versions.specs.Codes.{coded_version};
    ghost use Rattle.s3_versions.specs.Rules.{are_versions};

    ghost Value = { List (Version B) };

    ghost coded = { coded_list (coded_version B.code) };

    ghost view = { λ versions. versions.list.items };

    ghost invariant = { λ versions. IsTrue (are_versions versions.list.items) };
}

impl<B: Drop> Versions<B> {
    /// No versions, which take no memory yet.
    #[tactic(auto, unfolding(crate::specs::Rules::are_versions))]
    pub fn new(alloc: Global) -> Versions<B>
        ensures { result ≡ [] }
    {
        Versions {
            list: Vec::new(alloc),
        }
    }

    /// The versions, newest first.
    pub fn as_slice(&self) -> &[Version<B>]
        ensures value { result.now ≡ self.now }
        ensures valid { IsTrue (are_versions self.now) }
    {
        self.list.as_slice()
    }

    /// Whether there is no version.
    pub fn is_empty(&self) -> bool
        ensures { IsTrue result ↔ (self.now ≡ []) }
    {
        self.list.is_empty()
    }

    /// Adds what the entry of this number makes at this moment, and puts it in front: under an id of its own
    /// where versioning is enabled, and otherwise under `null`, in the place of the version that had that id,
    /// which is dropped. The number is above those of the versions here. Costs the list's length.
    ///
    /// `NoMemory` leaves the versions as they were, and `content` is dropped; it comes only where no version
    /// goes, so that one more has to be held.
    pub fn add(
        &mut self,
        versioning: Versioning,
        number: u64,
        moment: Moment,
        content: Content<B>,
    ) -> Result<(), NoMemory>
        requires { IsTrue (is_new_number number self.old) }
        ensures ok { OnOk result (self.new ≡ after_adding versioning number moment content self.old) }
        ensures err { OnErr result (self.new ≡ self.old) }
        ensures memory { OnErr result (replaced versioning number self.old ≡ None) }
    {
        self.put_first(version_made(versioning, number, moment, content))
    }

    /// Takes out the version under this id, and answers it. Takes no memory, and costs the list's length.
    pub fn delete_version(&mut self, id: VersionId) -> Option<Version<B>>
        ensures value { self.new ≡ without id self.old }
        ensures gone { result ≡ find (is_under id) self.old }
    {
        match self.place_of(id) {
            None => None,
            Some(place) => Some(take_at(&mut self.list, place)),
        }
    }

    // Where in the list the version under this id is.
    #[tactic(auto, using(crate::proofs::VersionLemmas::places))]
    fn place_of(&self, id: VersionId) -> Option<usize>
        ensures absent { IfNone result (find (is_under id) self.now ≡ None) }
        ensures all { IfNone result (without id self.now ≡ self.now) }
        ensures within { IfSome result (λ place. place < length self.now) }
        ensures found { IfSome result (λ place. find (is_under id) self.now ≡ slice_get self.now place) }
        ensures left { IfSome result (λ place. remove self.now place ≡ without id self.now) }
        ensures valid { IsTrue (are_versions (without id self.now)) }
    {
        first_under(&self.list, id)
    }

    // Puts a version in front, in the place of the one that has its id.
    #[tactic(auto, using(crate::proofs::VersionLemmas::new_precedes))]
    fn put_first(&mut self, version: Version<B>) -> Result<(), NoMemory>
        requires { IsTrue (is_new_number version.number self.old) }
        ensures ok { OnOk result (self.new ≡ version ∷ without (id_of version) self.old) }
        ensures err { OnErr result (self.new ≡ self.old) }
        ensures memory { OnErr result (find (is_under (id_of version)) self.old ≡ None) }
    {
        match self.place_of(version.id()) {
            None => insert_first(&mut self.list, version),
            Some(place) => {
                replace_at(&mut self.list, place, version);
                Ok(())
            }
        }
    }
}

// The version that the entry of this number makes at this moment.
fn version_made<B: Drop>(
    versioning: Versioning,
    number: u64,
    moment: Moment,
    content: Content<B>,
) -> Version<B>
    ensures { result ≡ made versioning number moment content }
{
    Version {
        is_null: versioning.makes_null(),
        number,
        moment,
        content,
    }
}

// Where the first version under this id is.
fn first_under<B: Drop>(versions: &[Version<B>], id: VersionId) -> Option<usize>
    ensures value { result ≡ position (is_under id) versions.now }
    ensures bound { IfSome result (λ place. place < length versions.now) }
{
    versions.iter().position(|version| version.is_under(id))
}

// Puts a version in front. The first one gets room for itself alone, since most keys have no other.
fn insert_first<B: Drop>(
    versions: &mut Vec<Version<B>>,
    version: Version<B>,
) -> Result<(), NoMemory>
    ensures ok { OnOk result (versions.new.items ≡ version ∷ versions.old.items) }
    ensures err { OnErr result (versions.new.items ≡ versions.old.items) }
{
    if versions.is_empty() {
        versions.reserve_exact(1)?;
    }
    versions.insert(0, version)?;
    Ok(())
}

// Takes out the version at this place.
fn take_at<B: Drop>(versions: &mut Vec<Version<B>>, place: usize) -> Version<B>
    requires { place < vec_len versions.old }
    ensures items { versions.new.items ≡ remove versions.old.items place }
    ensures gone { slice_get versions.old.items place ≡ Some result }
    ensures room { vec_len versions.new < vec_capacity versions.new }
{
    versions.remove(place)
}

// Drops the version at this place and puts another in front, which needs no more room.
fn replace_at<B: Drop>(versions: &mut Vec<Version<B>>, place: usize, version: Version<B>)
    requires { place < vec_len versions.old }
    ensures { versions.new.items ≡ version ∷ remove versions.old.items place }
{
    let _ = take_at(versions, place);
    match versions.insert(0, version) {
        Ok(()) => {}
        // The place of the version that went is free, so nothing is allocated.
        Err(_) => unreachable!(),
    }
}
