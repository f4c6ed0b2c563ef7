//! What a completion stores.
ghost use Rattle.std.specs.Prelude.{◌≡◌, ◌≤◌, length, map as each, IfOk, IfErr, OnOk};
ghost use Rattle.std.specs.List.{list_all, list_any};
ghost use Rattle.s3_uploads.specs.Completion.{is_sent, is_small, front_of, parts_listed, completed_parts, completed, joined_tag, joined_body, joined_data, Completes};

use crate::listed::are_rising;
use crate::{ListedPart, Part, Parts, Upload};
use md5::{Digest, Md5};
use s3_bodies::Body;
use s3_names::Tag;
use s3_terms::{Code, NoMemory};
use s3_versions::Data;
use std::alloc::Global;

/// Why an upload isn't completed.
#[derive(Clone, Copy)]
pub enum CompletionError {
    /// What is listed can't be joined: `InvalidPartOrder`, `InvalidPart` or `EntityTooSmall`.
    Refused(Code),
    /// It can, and there was no memory for it.
    NoMemory,
}

impl Upload<Body> {
    /// What the version stores that these parts make, joined in this order: their bytes, which are shared and not copied,
    /// with the media type and the metadata that the upload was begun with. The first that applies refuses it:
    ///
    /// 1. `InvalidPartOrder` where the listed numbers don't rise strictly.
    /// 2. `InvalidPart` where a listed part was not sent, or has another tag.
    /// 3. `EntityTooSmall` where a listed part, but for the last, has fewer bytes than the least size.
    ///
    /// Costs the count of listed parts by the logarithm of that of the parts, whatever their size.
    #[tactic(auto, unfolding(crate::specs::Completion::completed))]
    pub fn complete(
        &self,
        alloc: Global,
        least: u64,
        listed: &[ListedPart],
    ) -> Result<Data<Body>, CompletionError>
        ensures { Completes result (completed least listed.now self.now) }
    {
        if let Err(code) = judge(&self.parts, least, listed) {
            return Err(CompletionError::Refused(code));
        }
        match joined_data(alloc, self, listed) {
            Ok(stored) => Ok(stored),
            Err(NoMemory) => Err(CompletionError::NoMemory),
        }
    }
}

// The first refusal of what is listed.
#[tactic(auto, unfolding(crate::specs::Completion::completed_parts))]
fn judge<B: Drop>(parts: &Parts<B>, least: u64, listed: &[ListedPart]) -> Result<(), Code>
    ensures ok { OnOk result (completed_parts least listed.now parts.now ≡ Ok (parts_listed listed.now parts.now)) }
    ensures refused { IfErr result (λ code. completed_parts least listed.now parts.now ≡ Err code) }
    ensures few { OnOk result (length listed.now ≤ 10_000) }
{
    if !are_rising(listed) {
        return Err(Code::InvalidPartOrder);
    }
    if !are_sent(parts, listed) {
        return Err(Code::InvalidPart);
    }
    if has_small(parts, least, front_of(listed)) {
        return Err(Code::EntityTooSmall);
    }
    Ok(())
}

// Whether all listed parts were sent, with the tags that are listed.
fn are_sent<B: Drop>(parts: &Parts<B>, listed: &[ListedPart]) -> bool
    ensures { result ≡ list_all (is_sent parts.now) listed.now }
{
    listed.iter().all(|part| is_sent(parts, part))
}

// Whether this part was sent, with the tag that is listed.
fn is_sent<B: Drop>(parts: &Parts<B>, listed: &ListedPart) -> bool
    ensures { result ≡ is_sent parts.now listed.now }
{
    match parts.get(listed.number) {
        Some(part) => part.tag().text().as_bytes() == listed.tag.as_bytes(),
        None => false,
    }
}

// Whether one of these parts has fewer bytes than the least size.
fn has_small<B: Drop>(parts: &Parts<B>, least: u64, listed: &[ListedPart]) -> bool
    ensures { result ≡ list_any (is_small least parts.now) listed.now }
{
    listed.iter().any(|part| is_small(parts, least, part))
}

// Whether this part has fewer.
fn is_small<B: Drop>(parts: &Parts<B>, least: u64, listed: &ListedPart) -> bool
    ensures { result ≡ is_small least parts.now listed.now }
{
    match parts.get(listed.number) {
        Some(part) => part.size < least,
        None => false,
    }
}

// All but the last.
fn front_of(listed: &[ListedPart]) -> &[ListedPart]
    ensures { result.now ≡ front_of listed.now }
{
    &listed[..listed.len().saturating_sub(1)]
}

// What the version stores that the listed parts make.
fn joined_data(
    alloc: Global,
    upload: &Upload<Body>,
    listed: &[ListedPart],
) -> Result<Data<Body>, NoMemory>
    requires { length listed.now ≤ 10_000 }
    ensures { IfOk result (λ stored. stored ≡ joined_data upload.now (parts_listed listed.now upload.now.parts)) }
{
    let content_type = upload.content_type.copy(alloc)?;
    let metadata = upload.metadata.copy(alloc)?;
    let (tag, body) = joined(alloc, &upload.parts, listed)?;
    Ok(Data {
        tag,
        content_type,
        metadata,
        size: body.size(),
        body,
    })
}

// The tag and the bytes of the listed parts.
fn joined(
    alloc: Global,
    parts: &Parts<Body>,
    listed: &[ListedPart],
) -> Result<(Tag, Body), NoMemory>
    requires { length listed.now ≤ 10_000 }
    ensures tag { IfOk result (λ joined. joined.0 ≡ joined_tag (parts_listed listed.now parts.now)) }
    ensures body { IfOk result (λ joined. joined.1 ≡ joined_body (parts_listed listed.now parts.now)) }
{
    let parts = found(alloc, parts, listed)?;
    let body = joined_body(alloc, parts.as_slice())?;
    Ok((joined_tag(parts.as_slice()), body))
}

// The listed parts, in their order.
fn found<'a, B: Drop>(
    alloc: Global,
    parts: &'a Parts<B>,
    listed: &[ListedPart],
) -> Result<Vec<&'a Part<B>>, NoMemory>
    ensures value { IfOk result (λ found. each (λ part. part.now) found.items ≡ parts_listed listed.now parts.now) }
    ensures few { IfOk result (λ found. length found.items ≤ length listed.now) }
{
    let mut found = Vec::new(alloc);
    for part in listed {
        match parts.get(part.number) {
            Some(part) => found.push(part)?,
            None => {}
        }
    }
    Ok(found)
}

// The tag of these parts.
fn joined_tag<B: Drop>(parts: &[&Part<B>]) -> Tag
    requires { length parts.now ≤ 10_000 }
    ensures { result ≡ joined_tag (each (λ part. part.now) parts.now) }
{
    let mut digests = Md5::new();
    for part in parts {
        digests.update(&part.digest);
    }
    Tag::joined(digests.finalize(), parts.len() as u16)
}

// The bytes of these parts.
fn joined_body(alloc: Global, parts: &[&Part<Body>]) -> Result<Body, NoMemory>
    ensures { IfOk result (λ body. body ≡ joined_body (each (λ part. part.now) parts.now)) }
{
    let mut bodies = Vec::new(alloc);
    for part in parts {
        bodies.push(&part.body)?;
    }
    Body::join(alloc, bodies.as_slice())
}
