//! Copies of the versions under some keys of a bucket.
ghost use Rattle.std.specs.Prelude.{◌≡◌, ◌∷◌, ℕ, List, None, IfOk, OnOk, IsTrue, if◌then◌else◌};
ghost use Rattle.std.specs.BTreeMap.{get as value_in};
ghost use Rattle.std.specs.FinMap as map;
ghost use Rattle.std.specs.Option.{option_or};
ghost use Rattle.s3_text.specs.Order.{byte_order};
ghost use Rattle.s3_versions.specs.Rules.{are_versions, makes_null};
ghost use Rattle.s3_versions.specs.declared.version.Version.{Version};
ghost use Rattle.s3_records.specs.Deletions.{is_key_of, is_key_of_any};

use crate::adding::put;
use crate::keys::KeyMap;
use s3_bodies::Body;
use s3_deletions::NamedObject;
use s3_names::Key;
use s3_terms::NoMemory;
use s3_versions::{Version, Versioning, Versions};
use std::alloc::Global;
use std::collections::BTreeMap;

impl KeyMap {
    /// Copies of the versions under the keys that are named.
    pub(crate) fn copies(&self, alloc: Global, objects: &[NamedObject]) -> Result<KeyMap, NoMemory>
        ensures { IfOk result (λ copies. (key : List ℕ)
            → map.get copies key ≡ (if is_key_of_any key objects.now then map.get self.now key else None)) }
    {
        match copies_of(alloc, &self.by_key, objects) {
            Ok(by_key) => Ok(KeyMap { by_key }),
            Err(failed) => Err(failed),
        }
    }
}

// Copies of what stands in a tree under the keys that are named.
fn copies_of(
    alloc: Global,
    from: &BTreeMap<Key, Versions<Body>>,
    objects: &[NamedObject],
) -> Result<BTreeMap<Key, Versions<Body>>, NoMemory>
    ensures { IfOk result (λ copies. (q : List ℕ)
        → value_in byte_order copies q ≡ (if is_key_of_any q objects.now then value_in byte_order from.now q else None)) }
{
    let mut copies = BTreeMap::new(alloc);
    for object in objects {
        match copy_one(alloc, &mut copies, from, object) {
            Ok(()) => {}
            Err(failed) => {
                drop(copies);
                return Err(failed);
            }
        }
    }
    Ok(copies)
}

// Adds a copy of what stands under one of them, unless one is there.
fn copy_one(
    alloc: Global,
    copies: &mut BTreeMap<Key, Versions<Body>>,
    from: &BTreeMap<Key, Versions<Body>>,
    object: &NamedObject,
) -> Result<(), NoMemory>
    ensures { OnOk result ((q : List ℕ) → value_in byte_order copies.new q
        ≡ (if is_key_of q object.now then option_or (value_in byte_order copies.old q) (value_in byte_order from.now q)
        else value_in byte_order copies.old q)) }
{
    match object {
        NamedObject::Fault(_) => Ok(()),
        NamedObject::Object(deletion) => {
            if copies.contains_key(&deletion.key) {
                return Ok(());
            }
            match from.get(&deletion.key) {
                None => Ok(()),
                Some(versions) => put(copies, deletion.key.copy()?, copy_of(alloc, versions)),
            }
        }
    }
}

// A copy of the versions of a key, at the cost of a copy of each, which shares its body.
fn copy_of(alloc: Global, versions: &Versions<Body>) -> Result<Versions<Body>, NoMemory>
    ensures { IfOk result (λ copied. copied ≡ versions.now) }
{
    let list = versions.as_slice();
    let mut copied = Versions::new(alloc);
    // The oldest comes first, since each is put in front.
    for index in 0..list.len() {
        let version = &list[list.len() - 1 - index];
        match put_first(&mut copied, version.copy(alloc)) {
            Ok(()) => {}
            Err(failed) => {
                drop(copied);
                return Err(failed);
            }
        }
    }
    Ok(copied)
}

// Puts a version, where it could be made, in front of those that are older.
fn put_first(
    versions: &mut Versions<Body>,
    made: Result<Version<Body>, NoMemory>,
) -> Result<(), NoMemory>
    requires { IfOk made (λ version. IsTrue (are_versions (version ∷ versions.old))) }
    ensures { (version : Version (List ℕ)) → IfOk made (λ is. is ≡ version) → OnOk result (versions.new ≡ version ∷ versions.old) }
{
    match made {
        Ok(version) => {
            let Version {
                moment,
                content,
                is_null,
                number,
            } = version;
            versions.add(versioning_of(is_null), number, moment, content)
        }
        Err(failed) => Err(failed),
    }
}

// The versioning under which an entry makes a version that is `null`, or has an id of its own.
fn versioning_of(is_null: bool) -> Versioning
    ensures { makes_null result ≡ is_null }
{
    if is_null {
        Versioning::Suspended
    } else {
        Versioning::Enabled
    }
}
