//! How the versions under some keys of a bucket are replaced: all of them, or none.
ghost use Rattle.std.specs.Prelude.{◌≡◌, ◌≢◌, ℕ, List, [], None, Some, MatchBool, IfOk, OnOk, OnErr, IsTrue, is_some, if◌then◌else◌};
ghost use Rattle.std.specs.BTreeMap.{get as value_in};
ghost use Rattle.std.specs.FinMap as map;
ghost use Rattle.std.specs.Option.{option_or};
ghost use Rattle.std.specs.Str.{bytes_eq};
ghost use Rattle.s3_text.specs.Order.{byte_order};
ghost use Rattle.s3_records.specs.Catalogue.{found_versions};
ghost use Rattle.s3_records.specs.Deletions.{is_key_of, is_key_of_any};
ghost use Rattle.s3_records.specs.Merging.{held, kept_by, IsKeptOrPlaced};

use crate::adding::put;
use crate::keys::KeyMap;
use s3_bodies::Body;
use s3_deletions::NamedObject;
use s3_names::Key;
use s3_terms::NoMemory;
use s3_versions::Versions;
use std::alloc::Global;
use std::collections::BTreeMap;

impl KeyMap {
    /// Puts the versions that stand in `from` under each key that is named in the place of those here. `NoMemory` leaves
    /// the keys as they were.
    pub(crate) fn take_over(
        &mut self,
        alloc: Global,
        from: KeyMap,
        objects: &[NamedObject],
    ) -> Result<(), NoMemory>
        ensures ok { OnOk result ((key : List ℕ)
            → map.get self.new key ≡ (if is_key_of_any key objects.now then map.get from key else map.get self.old key)) }
        ensures err { OnErr result (self.new ≡ self.old) }
    {
        match make_places(alloc, &mut self.by_key, objects) {
            Ok(()) => {
                let KeyMap { by_key } = from;
                drop_others(&mut self.by_key, &by_key, objects);
                put_each(&mut self.by_key, by_key, objects);
                Ok(())
            }
            Err(failed) => {
                drop_places(&mut self.by_key, objects);
                drop(from);
                Err(failed)
            }
        }
    }
}

// Makes a place for the versions under each key that is named: one without versions, where there is none. `NoMemory` may
// leave some of these.
fn make_places(
    alloc: Global,
    tree: &mut BTreeMap<Key, Versions<Body>>,
    objects: &[NamedObject],
) -> Result<(), NoMemory>
    ensures placed { (q : List ℕ)
        → IsKeptOrPlaced (is_key_of_any q objects.now) (value_in byte_order tree.old q) (value_in byte_order tree.new q) }
    ensures ok { OnOk result ((q : List ℕ)
        → IsTrue (is_key_of_any q objects.now) → IsTrue (is_some (value_in byte_order tree.new q))) }
{
    for object in objects {
        make_place(alloc, tree, object)?;
    }
    Ok(())
}

// Makes the place for one of them.
fn make_place(
    alloc: Global,
    tree: &mut BTreeMap<Key, Versions<Body>>,
    object: &NamedObject,
) -> Result<(), NoMemory>
    ensures placed { (q : List ℕ)
        → IsKeptOrPlaced (is_key_of q object.now) (value_in byte_order tree.old q) (value_in byte_order tree.new q) }
    ensures ok { OnOk result ((q : List ℕ)
        → IsTrue (is_key_of q object.now) → IsTrue (is_some (value_in byte_order tree.new q))) }
{
    match object {
        NamedObject::Fault(_) => Ok(()),
        NamedObject::Object(deletion) => {
            if tree.contains_key(&deletion.key) {
                return Ok(());
            }
            put(tree, deletion.key.copy()?, Ok(Versions::new(alloc)))
        }
    }
}

// Drops the places under the keys that are named where there are no versions.
fn drop_places(tree: &mut BTreeMap<Key, Versions<Body>>, objects: &[NamedObject])
    ensures { (q : List ℕ) → value_in byte_order tree.new q
        ≡ (if is_key_of_any q objects.now then held (found_versions (value_in byte_order tree.old q)) else value_in byte_order tree.old q) }
{
    for object in objects {
        drop_place(tree, object);
    }
}

// Drops one of them.
fn drop_place(tree: &mut BTreeMap<Key, Versions<Body>>, object: &NamedObject)
    ensures { (q : List ℕ) → value_in byte_order tree.new q
        ≡ (if is_key_of q object.now then held (found_versions (value_in byte_order tree.old q)) else value_in byte_order tree.old q) }
{
    match object {
        NamedObject::Fault(_) => {}
        NamedObject::Object(deletion) => {
            if is_without(tree, &deletion.key) {
                drop(tree.remove(&deletion.key));
            }
        }
    }
}

// Whether a key is there without versions.
fn is_without(tree: &BTreeMap<Key, Versions<Body>>, key: &Key) -> bool
    ensures { MatchBool result (value_in byte_order tree.now key.now ≡ Some []) (value_in byte_order tree.now key.now ≢ Some []) }
{
    match tree.get(key) {
        None => false,
        Some(versions) => versions.is_empty(),
    }
}

// Drops the keys that are named and aren't in another tree.
fn drop_others(
    tree: &mut BTreeMap<Key, Versions<Body>>,
    from: &BTreeMap<Key, Versions<Body>>,
    objects: &[NamedObject],
)
    ensures { (q : List ℕ) → value_in byte_order tree.new q
        ≡ (if is_key_of_any q objects.now then kept_by (value_in byte_order from.now q) (value_in byte_order tree.old q) else value_in byte_order tree.old q) }
{
    for object in objects {
        drop_other(tree, from, object);
    }
}

// Drops one of them.
fn drop_other(
    tree: &mut BTreeMap<Key, Versions<Body>>,
    from: &BTreeMap<Key, Versions<Body>>,
    object: &NamedObject,
)
    ensures { (q : List ℕ) → value_in byte_order tree.new q
        ≡ (if is_key_of q object.now then kept_by (value_in byte_order from.now q) (value_in byte_order tree.old q) else value_in byte_order tree.old q) }
{
    match object {
        NamedObject::Fault(_) => {}
        NamedObject::Object(deletion) => {
            if !from.contains_key(&deletion.key) {
                drop(tree.remove(&deletion.key));
            }
        }
    }
}

// Puts the versions that stand in another tree under each key that is named in the place of those here, which have one.
fn put_each(
    tree: &mut BTreeMap<Key, Versions<Body>>,
    mut from: BTreeMap<Key, Versions<Body>>,
    objects: &[NamedObject],
)
    requires { (q : List ℕ) → IsTrue (is_key_of_any q objects.now) → IsTrue (is_some (value_in byte_order from q))
        → IsTrue (is_some (value_in byte_order tree.old q)) }
    ensures { (q : List ℕ) → value_in byte_order tree.new q
        ≡ (if is_key_of_any q objects.now then option_or (value_in byte_order from q) (value_in byte_order tree.old q)
        else value_in byte_order tree.old q) }
{
    for object in objects {
        put_one(tree, &mut from, object);
    }
    drop(from);
}

// Moves those under one of them.
fn put_one(
    tree: &mut BTreeMap<Key, Versions<Body>>,
    from: &mut BTreeMap<Key, Versions<Body>>,
    object: &NamedObject,
)
    requires { (q : List ℕ) → IsTrue (is_key_of q object.now) → IsTrue (is_some (value_in byte_order from.old q))
        → IsTrue (is_some (value_in byte_order tree.old q)) }
    ensures put { (q : List ℕ) → value_in byte_order tree.new q
        ≡ (if is_key_of q object.now then option_or (value_in byte_order from.old q) (value_in byte_order tree.old q)
        else value_in byte_order tree.old q) }
    ensures moved { (q : List ℕ) → value_in byte_order from.new q
        ≡ (if is_key_of q object.now then None else value_in byte_order from.old q) }
{
    match object {
        NamedObject::Fault(_) => {}
        NamedObject::Object(deletion) => match from.remove(&deletion.key) {
            None => {}
            Some(versions) => set(tree, &deletion.key, versions),
        },
    }
}

// Puts versions in the place of those under a key that is there.
fn set(tree: &mut BTreeMap<Key, Versions<Body>>, key: &Key, versions: Versions<Body>)
    requires { IsTrue (is_some (value_in byte_order tree.old key.now)) }
    ensures { (q : List ℕ) → value_in byte_order tree.new q
        ≡ (if bytes_eq key.now q then Some versions else value_in byte_order tree.old q) }
{
    match tree.get_mut(key) {
        // The caller knows that the key is there.
        None => unreachable!(),
        Some(place) => *place = versions,
    }
}
