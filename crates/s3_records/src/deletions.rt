//! Several deletions in the keys of one bucket, by one entry: all of them, or none.
ghost use Rattle.std.specs.Prelude.{◌≡◌, ◌≢◌, ◌+◌, ℕ, List, false, None, IfOk, OnOk, OnErr, IsTrue, if◌then◌else◌};
ghost use Rattle.std.specs.List.{list_any};
ghost use Rattle.s3_versions.specs.Rules.{is_new_number, after_delete};
ghost use Rattle.s3_records.specs.Catalogue.{versions_at};
ghost use Rattle.s3_records.specs.Changes.{with_versions};
ghost use Rattle.s3_records.specs.Deletions as rules;

use crate::keys::KeyMap;
use s3_bodies::Body;
use s3_calendar::Moment;
use s3_deletions::{NamedObject, acts, marker_told};
use s3_names::{Key, VersionId};
use s3_terms::NoMemory;
use s3_versions::{Content, Version, Versioning, stay_versions};
use std::alloc::Global;

impl KeyMap {
    /// Deletes the objects that are named, by the entry of this number, which is above those of all versions. It answers
    /// for each the id of the delete marker that was made or is gone. `NoMemory` leaves the keys as they were.
    ///
    /// Where no delete marker can be made, it is done in place. Else it is done in copies of the versions under the keys
    /// that are named, which take the place of these in the end.
    pub(crate) fn delete_all(
        &mut self,
        alloc: Global,
        versioning: Versioning,
        number: u64,
        moment: Moment,
        objects: &[NamedObject],
    ) -> Result<Vec<Option<VersionId>>, NoMemory>
        requires { (key : List ℕ) → IsTrue (is_new_number number (versions_at self.old key)) }
        ensures ok { OnOk result (self.new ≡ rules.all_deleted_in versioning number moment self.old objects.now) }
        ensures markers { IfOk result (λ ids. ids.items ≡ rules.markers_in versioning number moment self.old objects.now) }
        ensures err { OnErr result (self.new ≡ self.old) }
    {
        if any_may_mark(versioning, objects) {
            self.delete_apart(alloc, versioning, number, moment, objects)
        } else {
            self.delete_each(alloc, versioning, number, moment, objects)
        }
    }

    // The same, in copies of the versions under the keys that are named.
    fn delete_apart(
        &mut self,
        alloc: Global,
        versioning: Versioning,
        number: u64,
        moment: Moment,
        objects: &[NamedObject],
    ) -> Result<Vec<Option<VersionId>>, NoMemory>
        requires { (key : List ℕ) → IsTrue (is_new_number number (versions_at self.old key)) }
        ensures ok { OnOk result (self.new ≡ rules.all_deleted_in versioning number moment self.old objects.now) }
        ensures markers { IfOk result (λ ids. ids.items ≡ rules.markers_in versioning number moment self.old objects.now) }
        ensures err { OnErr result (self.new ≡ self.old) }
    {
        let mut apart = self.copies(alloc, objects)?;
        match apart.delete_each(alloc, versioning, number, moment, objects) {
            Ok(ids) => match self.take_over(alloc, apart, objects) {
                Ok(()) => Ok(ids),
                Err(failed) => {
                    drop(ids);
                    Err(failed)
                }
            },
            Err(failed) => {
                drop(apart);
                Err(failed)
            }
        }
    }

    // The same, one after another. `NoMemory` leaves the keys as they were only where no delete marker can be made: else
    // some of the objects may be deleted.
    fn delete_each(
        &mut self,
        alloc: Global,
        versioning: Versioning,
        number: u64,
        moment: Moment,
        objects: &[NamedObject],
    ) -> Result<Vec<Option<VersionId>>, NoMemory>
        requires { (key : List ℕ) → IsTrue (is_new_number number (versions_at self.old key)) }
        ensures ok { OnOk result (self.new ≡ rules.all_deleted_in versioning number moment self.old objects.now) }
        ensures markers { IfOk result (λ ids. ids.items ≡ rules.markers_in versioning number moment self.old objects.now) }
        ensures err { OnErr result (list_any (rules.may_mark versioning) objects.now ≡ false → self.new ≡ self.old) }
    {
        stay_versions::<Body>();
        let mut ids = Vec::with_capacity(alloc, objects.len())?;
        for object in objects {
            match self.delete_one(alloc, versioning, number, moment, object) {
                Ok(id) => ids.push_reserved(id),
                Err(failed) => {
                    drop(ids);
                    return Err(failed);
                }
            }
        }
        Ok(ids)
    }

    // Deletes one of them, and answers its delete marker.
    fn delete_one(
        &mut self,
        alloc: Global,
        versioning: Versioning,
        number: u64,
        moment: Moment,
        object: &NamedObject,
    ) -> Result<Option<VersionId>, NoMemory>
        requires { (key : List ℕ) → IsTrue (is_new_number (number + 1) (versions_at self.old key)) }
        ensures ok { OnOk result (self.new ≡ rules.deleted_in versioning number moment self.old object.now) }
        ensures marker { IfOk result (λ id. id ≡ rules.marker_in versioning number self.old object.now) }
        ensures memory { OnErr result (IsTrue (rules.may_mark versioning object.now)) }
    {
        match object {
            NamedObject::Fault(_) => Ok(None),
            NamedObject::Object(deletion) => self.delete_key(
                alloc,
                versioning,
                number,
                moment,
                &deletion.key,
                deletion.version,
            ),
        }
    }

    // Deletes a key, or its version of an id, unless the entry itself made that.
    fn delete_key(
        &mut self,
        alloc: Global,
        versioning: Versioning,
        number: u64,
        moment: Moment,
        key: &Key,
        version: Option<VersionId>,
    ) -> Result<Option<VersionId>, NoMemory>
        requires { (key : List ℕ) → IsTrue (is_new_number (number + 1) (versions_at self.old key)) }
        ensures ok { OnOk result (self.new
            ≡ rules.key_deleted_in versioning number moment self.old (record { key = key.now; version = version })) }
        ensures marker { IfOk result (λ id. id
            ≡ rules.marker_in versioning number self.old (NamedObject.Object (record { key = key.now; version = version }))) }
        ensures memory { OnErr result (IsTrue
            (rules.may_mark versioning (NamedObject.Object (record { key = key.now; version = version })))) }
    {
        let versions = self.under(key);
        if !acts(number, version, versions) {
            return Ok(None);
        }
        let told = marker_told(versioning, number, version, versions);
        match version {
            Some(id) => {
                drop(self.drop_version(key, id));
                Ok(told)
            }
            None => match self.delete(alloc, key, versioning, number, moment) {
                Ok(()) => Ok(told),
                Err(failed) => Err(failed),
            },
        }
    }

    // Deletes a key without naming a version. `NoMemory`, which comes only where a delete marker has to be held, leaves the
    // keys as they were.
    fn delete(
        &mut self,
        alloc: Global,
        key: &Key,
        versioning: Versioning,
        number: u64,
        moment: Moment,
    ) -> Result<(), NoMemory>
        requires { IsTrue (is_new_number number (versions_at self.old key.now)) }
        ensures ok { OnOk result (self.new
            ≡ with_versions self.old key.now (after_delete versioning number moment (versions_at self.old key.now))) }
        ensures err { OnErr result (self.new ≡ self.old) }
        ensures memory { OnErr result (versioning ≢ Versioning.Unversioned) }
    {
        match versioning {
            Versioning::Unversioned => {
                drop(self.drop_version(key, VersionId::Null));
                Ok(())
            }
            Versioning::Enabled | Versioning::Suspended => {
                let content = Content::DeleteMarker;
                self.add_at(alloc, key, versioning, number, moment, content)
            }
        }
    }

    // The versions under the key.
    fn under(&self, key: &Key) -> &[Version<Body>]
        ensures { result.now ≡ versions_at self.now key.now }
    {
        match self.get(key) {
            None => &[],
            Some(versions) => versions.as_slice(),
        }
    }
}

// Whether the deletion of one of them may make a delete marker.
fn any_may_mark(versioning: Versioning, objects: &[NamedObject]) -> bool
    ensures { result ≡ list_any (rules.may_mark versioning) objects.now }
{
    objects.iter().any(|object| may_mark(versioning, object))
}

// Whether the deletion of this one may.
fn may_mark(versioning: Versioning, object: &NamedObject) -> bool
    ensures { result ≡ rules.may_mark versioning object.now }
{
    match versioning {
        Versioning::Unversioned => false,
        Versioning::Enabled | Versioning::Suspended => match object {
            NamedObject::Object(deletion) => deletion.version.is_none(),
            NamedObject::Fault(_) => false,
        },
    }
}
