//! The parts that the body of a completion lists in XML.
ghost use Rattle.std.specs.Prelude.{◌≡◌, ◌<◌, length, Some, None, option_map, IfOk, IfErr};
ghost use Rattle.s3_terms.specs.Fault.{Follows};
ghost use Rattle.s3_xml.specs.Ended.{elements_of};
ghost use Rattle.s3_xml_reader.specs.Place.{as_ended};
ghost use Rattle.s3_request_documents.specs.Completion.{completion_in_xml};
ghost use Rattle.s3_request_documents.specs.CompletionTold.{completion_of, nothing_told, told_with, answered};

use crate::completion::PARTS_MAX;
use crate::completion_rows::{Fields, Parts, Rows, with_element};
use s3_terms::Code;
use s3_uploads::ListedParts;
use s3_xml_reader::{Element, Error, Reader};
use std::alloc::{AllocError, Global};

// What elements tell: rows, and whether the last one that ended has the root's name.
#[derive(Drop)]
struct Told {
    rows: Rows,
    is_root: bool,
}

/// The parts that a body lists in XML: each element `Part` right in the root `CompleteMultipartUpload`, 1 to 10,000 of
/// them, with an `ETag`, of which the double quotes at both ends are dropped, and a `PartNumber` in decimal digits,
/// which white space may surround. Of several of one name the last one counts; other elements are ignored.
/// `MalformedXML` where it is no such document; where nothing is malformed, `InvalidArgument` for a number outside 1 to
/// 10,000. `InternalError` where memory runs out, which comes only where there is a body.
#[tactic(auto, using(crate::proofs::RowLemmas::answers))]
pub(crate) fn in_xml(alloc: Global, body: &[u8]) -> Result<ListedParts, Code>
    ensures rule { Follows result (completion_in_xml body.now) }
    ensures memory { IfErr result (λ code. code ≡ Code.InternalError → 0 < length body.now) }
{
    if body.is_empty() {
        return Err(Code::MalformedXML);
    }
    match all_told(alloc, body) {
        Ok(told) => answered(told),
        Err(Error::Malformed) => Err(Code::MalformedXML),
        Err(Error::NoMemory) => Err(Code::InternalError),
    }
}

// What the elements of a document tell.
#[tactic(auto, using(crate::proofs::RowLemmas::tells))]
fn all_told(alloc: Global, body: &[u8]) -> Result<Told, Error>
    ensures told { IfOk result (λ told. option_map completion_of (elements_of body.now) ≡ Some (answered told)) }
    ensures malformed { IfErr result (λ e. e ≡ Error.Malformed → elements_of body.now ≡ None) }
{
    let mut reader = Reader::new(alloc, body)?;
    let mut told = nothing_told(alloc);
    while let Some(element) = reader.next()? {
        told = told_with(alloc, told, &element)?;
    }
    Ok(told)
}

// Nothing is told yet.
fn nothing_told(alloc: Global) -> Told
    ensures { result ≡ nothing_told }
{
    Told {
        rows: Rows {
            fields: Fields::new(),
            parts: Parts::new(alloc),
            count: 0,
            are_parts: true,
            are_numbered: true,
        },
        is_root: false,
    }
}

// What is told with one more element.
fn told_with(alloc: Global, told: Told, element: &Element<'_>) -> Result<Told, AllocError>
    ensures { IfOk result (λ new. new ≡ told_with told (as_ended element.now)) }
{
    let Told { rows, is_root: _ } = told;
    let rows = with_element(alloc, rows, element)?;
    Ok(Told {
        rows,
        is_root: element.name == b"CompleteMultipartUpload".as_slice(),
    })
}

// What is answered to what is told.
fn answered(told: Told) -> Result<ListedParts, Code>
    ensures { result ≡ answered told }
{
    let Told { rows, is_root } = told;
    if !is_root || rows.count == 0 || rows.count > PARTS_MAX || !rows.are_parts {
        return Err(Code::MalformedXML);
    }
    if !rows.are_numbered {
        return Err(Code::InvalidArgument);
    }
    Ok(rows.parts.listed())
}
