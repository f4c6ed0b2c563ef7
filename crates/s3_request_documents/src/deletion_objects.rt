//! The object that the texts of a key and of the id of a version name for deletion.
ghost use Rattle.std.specs.Prelude.{◌≡◌, true, Some, None, IfOk, IfErr};
ghost use Rattle.std.specs.Str.{is_utf8};
ghost use Rattle.s3_terms.specs.Fault.{Follows};
ghost use Rattle.s3_request_documents.specs.Deletion.{tells_key, tells_id, version_asked, deletion_asked, named, object_of};

use crate::root_field::FieldText;
use s3_deletions::{DeletionFault, KeyDeletion, NamedObject};
use s3_names::{Key, VersionId};
use s3_prefixes::Text;
use s3_terms::{Code, NoMemory};
use s3_text::is_text;
use s3_xml_reader::Error;
use std::alloc::Global;

/// The longest key, in bytes.
const KEY_MAX: usize = 1024;

// Whether a text tells a key.
fn tells_key(text: &[u8]) -> bool
    ensures { result ≡ tells_key text.now }
{
    is_text(text) && !text.is_empty()
}

// Whether the id of a version, if there is one, is a text.
fn tells_id(id: &Option<FieldText>) -> bool
    ensures { result ≡ tells_id id.now }
{
    match id {
        Some(text) => is_text(text.as_bytes()),
        None => true,
    }
}

// The version that is asked for, if one is.
fn version_asked(id: &Option<FieldText>) -> Result<Option<VersionId>, Code>
    ensures { result ≡ version_asked id.now }
{
    let Some(text) = id else {
        return Ok(None);
    };
    match VersionId::read(text.as_bytes()) {
        Some(version) => Ok(Some(version)),
        None => Err(Code::InvalidArgument),
    }
}

// The deletion that is asked for.
#[tactic(auto, unfolding(crate::specs::Deletion::deletion_asked))]
fn deletion_asked(alloc: Global, key: &[u8], id: &Option<FieldText>) -> Result<KeyDeletion, Code>
    requires key { tells_key key.now ≡ true }
    ensures { Follows result (deletion_asked key.now id.now) }
{
    if key.len() > KEY_MAX {
        return Err(Code::KeyTooLongError);
    }
    let version = version_asked(id)?;
    match Key::read(alloc, key) {
        Ok(key) => Ok(KeyDeletion { key, version }),
        Err(code) => Err(code),
    }
}

// A copy of a text.
#[tactic(auto, using(crate::proofs::DeletionRowLemmas::texts))]
fn copied(alloc: Global, text: &[u8]) -> Result<Text, NoMemory>
    requires { is_utf8 text.now ≡ true }
    ensures { IfOk result (λ copied. copied ≡ text.now) }
{
    Text::of(alloc, text)
}

// A copy of the id of a version, if there is one.
fn copied_id(alloc: Global, id: &Option<FieldText>) -> Result<Option<Text>, NoMemory>
    requires { tells_id id.now ≡ true }
    ensures { IfOk result (λ copied. copied ≡ id.now) }
{
    match id {
        Some(text) => Ok(Some(copied(alloc, text.as_bytes())?)),
        None => Ok(None),
    }
}

// What can't be deleted, as it was sent.
fn fault(
    alloc: Global,
    key: &[u8],
    id: &Option<FieldText>,
    code: Code,
) -> Result<DeletionFault, NoMemory>
    requires key { tells_key key.now ≡ true }
    requires id { tells_id id.now ≡ true }
    ensures { IfOk result (λ fault. fault ≡ record { key = key.now; version = id.now; code = code }) }
{
    let key = copied(alloc, key)?;
    let version = copied_id(alloc, id)?;
    Ok(DeletionFault { key, version, code })
}

// The object that these texts name.
fn named(alloc: Global, key: &[u8], id: &Option<FieldText>) -> Result<NamedObject, NoMemory>
    requires key { tells_key key.now ≡ true }
    requires id { tells_id id.now ≡ true }
    ensures { IfOk result (λ object. object ≡ named key.now id.now) }
{
    match deletion_asked(alloc, key, id) {
        Ok(deletion) => Ok(NamedObject::Object(deletion)),
        Err(Code::InternalError) => Err(NoMemory),
        Err(code) => Ok(NamedObject::Fault(fault(alloc, key, id, code)?)),
    }
}

/// The object that the text of a key names, and that of the id of a version, if there is one. Each is copied at most once.
///
/// # Errors
///
/// `Malformed` where no key is told: there is no text, or an empty one, or one that isn't UTF-8. `NoMemory` where memory
/// runs out.
pub(crate) fn object_of(
    alloc: Global,
    key: &Option<FieldText>,
    id: &Option<FieldText>,
) -> Result<NamedObject, Error>
    ensures object { IfOk result (λ object. object_of key.now id.now ≡ Some object) }
    ensures malformed { IfErr result (λ e. e ≡ Error.Malformed → object_of key.now id.now ≡ None) }
{
    let Some(key) = key else {
        return Err(Error::Malformed);
    };
    let key = key.as_bytes();
    if !tells_key(key) || !tells_id(id) {
        return Err(Error::Malformed);
    }
    match named(alloc, key, id) {
        Ok(object) => Ok(object),
        Err(NoMemory) => Err(Error::NoMemory),
    }
}
