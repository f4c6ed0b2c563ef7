//! The keys of one bucket, with their versions, in memory.
ghost use Rattle.std.specs.Prelude.{◌≡◌, ◌≢◌, [], None, IfOk, OnOk, OnErr, IsTrue, false, find, filter, take, ◌++◌, map as each};
ghost use Rattle.std.specs.List.{flat_map};
ghost use Rattle.std.specs.Ordering.{is_lt};
ghost use Rattle.std.specs.Option.{option_copied};
ghost use Rattle.std.specs.FinMap as map;
ghost use Rattle.s3_text.specs.Order.{byte_order};
ghost use Rattle.s3_versions.specs.Rules.{is_under, without, after_adding, replaced, is_new_number};

use crate::adding::put;
use crate::listing::{add_keys, add_older, behind, first_key, key_rows_from};
use crate::rows::{KeyRow, Start, VersionRow, VersionStart};
use s3_bodies::Body;
use s3_calendar::Moment;
use s3_names::{Key, VersionId};
use s3_terms::NoMemory;
use s3_versions::{Content, Version, Versioning, Versions};
use std::alloc::Global;
use std::collections::BTreeMap;
use std::marker::Model;
use std::ops::Bound;

/// The versions under each key of a bucket. Contracts see them as a finite map from the keys that have
/// versions.
#[derive(Drop)]
pub(crate) struct KeyMap {
    pub(crate) by_key: BTreeMap<Key, Versions<Body>>,
}

impl Model for KeyMap {
    ghost use Rattle.std.specs.Prelude.{ℕ, List};
    ghost use Rattle.std.specs.FinMap as map;
    ghost use Rattle.s3_versions.specs.Codes.{coded_bytes};
    ghost use Rattle.s3_records.specs.Catalogue.{Keys, HaveVersions};
    ghost use Rattle.s3_records.specs.Codes.{coded_keys};

    ghost Value = { Keys (List ℕ) };

    ghost coded = { coded_keys coded_bytes };

    ghost view = { λ keys. map.from_entries keys.by_key.entries };

    ghost invariant = { λ keys. HaveVersions (map.from_entries keys.by_key.entries) };
}

impl KeyMap {
    ghost use Rattle.s3_records.specs.Catalogue.{versions_at, has_no_keys};
    ghost use Rattle.s3_records.specs.Changes.{with_versions};
    ghost use Rattle.s3_records.specs.Rows.{is_from, key_row, version_row, behind_version, rows_of, rows_at};
    ghost use Rattle.s3_records.specs.declared.rows.VersionStart.TheVariants.{At};

    /// No keys, which takes no memory yet.
    pub(crate) fn new(alloc: Global) -> KeyMap
        ensures { result ≡ map.empty }
    {
        KeyMap {
            by_key: BTreeMap::new(alloc),
        }
    }

    /// Whether no key has a version.
    pub(crate) fn is_empty(&self) -> bool
        ensures { result ≡ has_no_keys self.now }
    {
        self.by_key.len() == 0
    }

    /// The versions under the key; `None` where there are none.
    pub(crate) fn get(&self, key: &Key) -> Option<&Versions<Body>>
        ensures { option_copied result ≡ map.get self.now key.now }
    {
        self.by_key.get(key)
    }

    /// The rows of the keys from a place on, at most so many.
    pub(crate) fn keys_from(
        &self,
        alloc: Global,
        start: &Start,
        most: usize,
    ) -> Result<Vec<KeyRow>, NoMemory>
        ensures value { IfOk result (λ rows. rows.items
            ≡ take most (filter (λ row. is_from start.now row.key) (each key_row (map.entries self.now)))) }
        ensures memory { OnErr result (
            take most (filter (λ row. is_from start.now row.key) (each key_row (map.entries self.now))) ≢ []) }
    {
        key_rows_from(alloc, &self.by_key, first_key(start), most)
    }

    /// The rows of the versions from a place on, at most so many.
    pub(crate) fn versions_from(
        &self,
        alloc: Global,
        start: &VersionStart,
        most: usize,
    ) -> Result<Vec<VersionRow>, NoMemory>
        ensures value { IfOk result (λ rows. rows.items ≡ take most (flat_map (rows_at start.now) (map.entries self.now))) }
        ensures memory { OnErr result (take most (flat_map (rows_at start.now) (map.entries self.now)) ≢ []) }
    {
        match start {
            VersionStart::At(start) => self.rows_at(alloc, start, most),
            VersionStart::BehindVersion(key, id) => self.rows_behind(alloc, key, *id, most),
        }
    }

    // The rows of the versions of the keys from a place on.
    fn rows_at(
        &self,
        alloc: Global,
        start: &Start,
        most: usize,
    ) -> Result<Vec<VersionRow>, NoMemory>
        ensures value { IfOk result (λ rows. rows.items ≡ take most (flat_map (rows_at (At start.now)) (map.entries self.now))) }
        ensures memory { OnErr result (take most (flat_map (rows_at (At start.now)) (map.entries self.now)) ≢ []) }
    {
        let mut rows = Vec::new(alloc);
        match add_keys(&mut rows, &self.by_key, first_key(start), most) {
            Ok(()) => Ok(rows),
            Err(failed) => {
                drop(rows);
                Err(failed)
            }
        }
    }

    // The rows of the versions of a key behind the one of an id, and of the keys behind that.
    fn rows_behind(
        &self,
        alloc: Global,
        key: &Key,
        id: VersionId,
        most: usize,
    ) -> Result<Vec<VersionRow>, NoMemory>
        ensures value { IfOk result (λ rows. rows.items
            ≡ take most (each (version_row key.now false) (behind_version id (versions_at self.now key.now))
            ++ flat_map rows_of (filter (λ e. is_lt (byte_order key.now e.0)) (map.entries self.now)))) }
        ensures memory { OnErr result (
            take most (each (version_row key.now false) (behind_version id (versions_at self.now key.now))
            ++ flat_map rows_of (filter (λ e. is_lt (byte_order key.now e.0)) (map.entries self.now))) ≢ []) }
    {
        let mut rows = Vec::new(alloc);
        add_older(&mut rows, key, self.versions_behind(key, id), most)?;
        match add_keys(&mut rows, &self.by_key, Bound::Excluded(key), most) {
            Ok(()) => Ok(rows),
            Err(failed) => {
                drop(rows);
                Err(failed)
            }
        }
    }

    // The versions under the key behind the one of an id.
    fn versions_behind(&self, key: &Key, id: VersionId) -> &[Version<Body>]
        ensures { result.now ≡ behind_version id (versions_at self.now key.now) }
    {
        match self.get(key) {
            None => &[],
            Some(versions) => behind(versions.as_slice(), id),
        }
    }

    /// Adds what an entry makes to the versions under the key, by the rules of `Versions::add`. `NoMemory`
    /// leaves the keys as they were.
    pub(crate) fn add(
        &mut self,
        alloc: Global,
        key: Key,
        versioning: Versioning,
        number: u64,
        moment: Moment,
        content: Content<Body>,
    ) -> Result<(), NoMemory>
        requires { IsTrue (is_new_number number (versions_at self.old key)) }
        ensures ok { OnOk result (self.new
            ≡ with_versions self.old key (after_adding versioning number moment content (versions_at self.old key))) }
        ensures err { OnErr result (self.new ≡ self.old) }
        ensures memory { OnErr result (replaced versioning number (versions_at self.old key) ≡ None) }
    {
        match self.by_key.get_mut(&key) {
            Some(versions) => {
                drop(key);
                versions.add(versioning, number, moment, content)
            }
            None => {
                let first = first_version(alloc, versioning, number, moment, content);
                put(&mut self.by_key, key, first)
            }
        }
    }

    /// The same, where the key is borrowed: it is copied where it has no versions yet.
    pub(crate) fn add_at(
        &mut self,
        alloc: Global,
        key: &Key,
        versioning: Versioning,
        number: u64,
        moment: Moment,
        content: Content<Body>,
    ) -> Result<(), NoMemory>
        requires { IsTrue (is_new_number number (versions_at self.old key.now)) }
        ensures ok { OnOk result (self.new
            ≡ with_versions self.old key.now (after_adding versioning number moment content (versions_at self.old key.now))) }
        ensures err { OnErr result (self.new ≡ self.old) }
        ensures memory { OnErr result (replaced versioning number (versions_at self.old key.now) ≡ None) }
    {
        match self.by_key.get_mut(key) {
            Some(versions) => versions.add(versioning, number, moment, content),
            None => match key.copy() {
                Ok(key) => self.add(alloc, key, versioning, number, moment, content),
                Err(failed) => {
                    drop(content);
                    Err(failed)
                }
            },
        }
    }

    /// Takes the version of this id from those under the key, and answers it. Takes no memory.
    pub(crate) fn drop_version(&mut self, key: &Key, id: VersionId) -> Option<Version<Body>>
        ensures value { self.new ≡ with_versions self.old key.now (without id (versions_at self.old key.now)) }
        ensures gone { result ≡ find (is_under id) (versions_at self.old key.now) }
    {
        match self.by_key.get_mut(key) {
            None => None,
            Some(versions) => {
                let gone = versions.delete_version(id);
                if versions.is_empty() {
                    drop(self.by_key.remove(key));
                }
                gone
            }
        }
    }
}

// The versions of a key that had none, after an entry has added to them.
#[tactic(auto, unfolding(s3_versions::specs::Rules::is_new_number))]
fn first_version(
    alloc: Global,
    versioning: Versioning,
    number: u64,
    moment: Moment,
    content: Content<Body>,
) -> Result<Versions<Body>, NoMemory>
    ensures { IfOk result (λ versions. versions ≡ after_adding versioning number moment content []) }
{
    let mut versions = Versions::new(alloc);
    match versions.add(versioning, number, moment, content) {
        Ok(()) => Ok(versions),
        Err(failed) => {
            drop(versions);
            Err(failed)
        }
    }
}
