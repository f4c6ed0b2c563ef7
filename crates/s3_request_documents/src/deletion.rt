//! The objects that the body of a request names for deletion.
ghost use Rattle.std.specs.Prelude.{◌≡◌, ◌<◌, length, Some, None, Err, IfOk, IfErr};
ghost use Rattle.s3_terms.specs.Fault.{Follows};
ghost use Rattle.s3_terms.specs.declared.code.Code.TheVariants.{MalformedXML};
ghost use Rattle.s3_xml_reader.specs.Place.{as_ended};
ghost use Rattle.s3_request_documents.specs.Deletion.{truth_spelled, truth_told, deletion_read};
ghost use Rattle.s3_request_documents.specs.DeletionTold.{nothing_told, quiet_with, told_with, judged_told, answered};

use crate::deletion_rows::{ObjectFields, ObjectRows, Objects, with_element};
use crate::white::trimmed;
use s3_deletions::Deletion;
use s3_terms::Code;
use s3_xml_reader::{Element, Error, Reader};
use std::alloc::Global;

// What elements tell: rows, whether only faults are to be told, unless what says so is no truth value, and whether the
// last one that ended has the root's name.
#[derive(Drop)]
struct Told {
    rows: ObjectRows,
    quiet: Option<bool>,
    is_root: bool,
}

/// What the body of a DeleteObjects asks for in XML (Amazon S3 API Reference, DeleteObjects, "Request Syntax"): each
/// element `Object` right in the root `Delete`, 1 to 1,000 of them, names an object by its `Key`, a text of one byte or
/// more, and a version of it by its `VersionId`, if it has one. `Quiet` right in the root is `true` or `false`, with
/// white space around it or not, and `false` where there is none. Of several of one name the last one counts; other
/// elements are ignored. An object whose key has more than 1,024 bytes is a fault with `KeyTooLongError`, and else one
/// whose id isn't of the form of ids a fault with `InvalidArgument`: a fault refuses nothing else.
///
/// # Errors
///
/// `MalformedXML` where it is no such document; where nothing is malformed, `NotImplemented` for an object with an
/// `ETag`, a `LastModifiedTime` or a `Size`, which are conditions. `InternalError` where memory runs out, which comes
/// only where there is a body.
pub fn read_deletion(alloc: Global, body: &[u8]) -> Result<Deletion, Code>
    ensures rule { Follows result (deletion_read body.now) }
    ensures memory { IfErr result (λ code. code ≡ Code.InternalError → 0 < length body.now) }
{
    if body.is_empty() {
        return Err(Code::MalformedXML);
    }
    match all_told(alloc, body) {
        Ok(told) => answered(told),
        Err(Error::Malformed) => Err(Code::MalformedXML),
        Err(Error::NoMemory) => Err(Code::InternalError),
    }
}

// What the elements of a document tell.
#[tactic(auto, using(crate::proofs::DeletionLemmas::tells))]
fn all_told(alloc: Global, body: &[u8]) -> Result<Told, Error>
    ensures told { IfOk result (λ told. deletion_read body.now ≡ answered told) }
    ensures malformed { IfErr result (λ e. e ≡ Error.Malformed → deletion_read body.now ≡ Err MalformedXML) }
{
    let mut reader = Reader::new(alloc, body)?;
    let mut told = nothing_told(alloc);
    while let Some(element) = reader.next()? {
        told = told_with(alloc, told, element)?;
    }
    Ok(told)
}

// Nothing is told yet.
fn nothing_told(alloc: Global) -> Told
    ensures { result ≡ nothing_told }
{
    Told {
        rows: ObjectRows {
            fields: ObjectFields::new(),
            objects: Objects::new(alloc),
            have_conditions: false,
        },
        quiet: Some(false),
        is_root: false,
    }
}

// The truth value that a word spells.
fn truth_spelled(word: &[u8]) -> Option<bool>
    ensures { result ≡ truth_spelled word.now }
{
    if word == b"true".as_slice() {
        return Some(true);
    }
    if word == b"false".as_slice() {
        return Some(false);
    }
    None
}

// Whether only faults are to be told, with one more element.
fn quiet_with(quiet: Option<bool>, element: &Element<'_>) -> Option<bool>
    ensures { result ≡ quiet_with quiet (as_ended element.now) }
{
    if element.level == 2 && element.name == b"Quiet".as_slice() {
        truth_spelled(trimmed(element.content.as_slice()))
    } else {
        quiet
    }
}

// What is told with one more element.
fn told_with(alloc: Global, told: Told, element: Element<'_>) -> Result<Told, Error>
    ensures told { IfOk result (λ new. told_with told (as_ended element.entry) ≡ Some new) }
    ensures malformed { IfErr result (λ e. e ≡ Error.Malformed → told_with told (as_ended element.entry) ≡ None) }
{
    let Told {
        rows,
        quiet,
        is_root: _,
    } = told;
    let quiet = quiet_with(quiet, &element);
    let is_root = element.name == b"Delete".as_slice();
    let rows = with_element(alloc, rows, element)?;
    Ok(Told {
        rows,
        quiet,
        is_root,
    })
}

// The first refusal of what is told, or else whether only faults are to be told.
fn judged_told(told: &Told) -> Result<bool, Code>
    ensures { result ≡ judged_told told.now }
{
    if !told.is_root {
        return Err(Code::MalformedXML);
    }
    let Some(is_quiet) = told.quiet else {
        return Err(Code::MalformedXML);
    };
    if told.rows.objects.len() == 0 {
        return Err(Code::MalformedXML);
    }
    if told.rows.have_conditions {
        return Err(Code::NotImplemented);
    }
    Ok(is_quiet)
}

// What is answered to what is told.
fn answered(told: Told) -> Result<Deletion, Code>
    ensures { result ≡ answered told }
{
    let is_quiet = judged_told(&told)?;
    let objects = told.rows.objects.named();
    Ok(Deletion { objects, is_quiet })
}
