//! Turns that store something in the bucket `pail`, or read it.
use s3_bodies::{Body, PayloadBuilder, Sink};
use s3_calendar::Moment;
use s3_conditions::Conditions;
use s3_machine::{Command, KeyCommand, ObjectPut, ObjectRead, Overrides, Turn, WriteCondition};
use s3_names::{BucketName, Key};
use s3_versions::{ContentType, Metadata};
use std::alloc::Global;

// What a put asks of its key.
fn condition(if_absent: bool) -> WriteCondition {
    if if_absent {
        WriteCondition::IfAbsent
    } else {
        WriteCondition::Unconditional
    }
}

// What stores these bytes as a plain text without metadata, and only where the key has no object if so wanted; or reads where
// there are none.
fn asked(alloc: Global, bytes: Option<&[u8]>, if_absent: bool) -> Option<KeyCommand> {
    let Some(bytes) = bytes else {
        return Some(KeyCommand::Read(ObjectRead {
            version: None,
            conditions: Conditions::plain(),
            overrides: Overrides::none(alloc),
        }));
    };
    let mut builder = PayloadBuilder::new(alloc, bytes.len() as u64);
    builder.take(bytes).ok()?;
    let payload = builder.finish();
    let Ok(metadata) = Metadata::new(Vec::new(alloc)) else {
        return None;
    };
    match ContentType::read(alloc, b"text/plain") {
        Ok(content_type) => Some(KeyCommand::Put(ObjectPut {
            content_type,
            metadata,
            condition: condition(if_absent),
            payload,
        })),
        Err(_) => None,
    }
}

/// A turn that stores these bytes under a key, and only where it has no object if so wanted; or reads what stands there where
/// there are none.
pub(crate) fn turn(
    alloc: Global,
    key: &[u8],
    bytes: Option<&[u8]>,
    if_absent: bool,
) -> Option<Turn> {
    let moment = Moment::new(7)?;
    let Ok(bucket) = BucketName::read(alloc, b"pail") else {
        return None;
    };
    let Ok(key) = Key::read(alloc, key) else {
        return None;
    };
    let asked = asked(alloc, bytes, if_absent)?;
    let command = Command::Key { bucket, key, asked };
    Some(Turn { command, moment })
}

/// Whether a body has these bytes.
pub(crate) fn is_body(alloc: Global, body: &Body, bytes: &[u8]) -> bool {
    match body.to_vec(alloc) {
        Ok(copy) => copy.as_slice() == bytes,
        Err(_) => false,
    }
}
