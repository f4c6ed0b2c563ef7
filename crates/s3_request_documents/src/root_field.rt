//! A field of the root of a document in XML.
ghost use Rattle.std.specs.Prelude.{◌≡◌, ◌<◌, ◌⊎◌, length, Some, None, option_map, IfOk, IfErr};
ghost use Rattle.s3_xml.specs.Ended.{elements_of};
ghost use Rattle.s3_xml_reader.specs.Place.{as_ended};
ghost use Rattle.s3_request_documents.specs.FieldTold.{told_of, told_with};
ghost use Rattle.s3_request_documents.specs.Xml.{root_field};

use s3_terms::Code;
use s3_xml_reader::{Element, Error, Reader};
use std::alloc::Global;
use std::marker::Model;

/// The text of a field. A contract sees it as its bytes.
#[derive(Drop)]
pub(crate) struct FieldText {
    text: Vec<u8>,
}

impl Model for FieldText {
    ghost use Rattle.std.specs.Prelude.{ℕ, List};

    ghost Value = { List ℕ };

    ghost view = { λ field. field.text.items };
}

impl FieldText {
    /// The text of these bytes, which are moved and not copied.
    pub(crate) fn new(text: Vec<u8>) -> FieldText
        ensures { result ≡ text.items }
    {
        FieldText { text }
    }

    /// Its bytes.
    pub(crate) fn as_bytes(&self) -> &[u8]
        ensures { result.now ≡ self.now }
    {
        self.text.as_slice()
    }
}

// What elements tell: the text of the last field of a name, and whether the last one that ended has the root's name.
#[derive(Drop)]
struct Told {
    field: Option<FieldText>,
    is_root: bool,
}

/// The text of the element of a name right in the root of a document, which has to have this name; the last one where
/// there are several, and none where there is none.
///
/// # Errors
///
/// `MalformedXML` where the body is no such document, and `InternalError` where memory runs out, which comes only where
/// there is a body.
#[tactic(auto, using(crate::proofs::FieldLemmas::answers))]
pub(crate) fn root_field(
    alloc: Global,
    root: &[u8],
    name: &[u8],
    body: &[u8],
) -> Result<Option<FieldText>, Code>
    ensures found { IfOk result (λ field. root_field root.now name.now body.now ≡ Some field) }
    ensures refused { IfErr result (λ code. (code ≡ Code.InternalError) ⊎ ((code ≡ Code.MalformedXML) × (root_field root.now name.now body.now ≡ None))) }
    ensures memory { IfErr result (λ code. code ≡ Code.InternalError → 0 < length body.now) }
{
    if body.is_empty() {
        return Err(Code::MalformedXML);
    }
    match all_told(alloc, root, name, body) {
        Ok(told) => {
            if !told.is_root {
                return Err(Code::MalformedXML);
            }
            Ok(told.field)
        }
        Err(Error::Malformed) => Err(Code::MalformedXML),
        Err(Error::NoMemory) => Err(Code::InternalError),
    }
}

// What the elements of a document tell.
#[tactic(auto, using(crate::proofs::FieldLemmas::tells))]
fn all_told(alloc: Global, root: &[u8], name: &[u8], body: &[u8]) -> Result<Told, Error>
    ensures told { IfOk result (λ told. option_map (told_of root.now name.now) (elements_of body.now) ≡ Some told) }
    ensures malformed { IfErr result (λ e. e ≡ Error.Malformed → elements_of body.now ≡ None) }
{
    let mut reader = Reader::new(alloc, body)?;
    let mut told = Told {
        field: None,
        is_root: false,
    };
    while let Some(element) = reader.next()? {
        told = told_with(root, name, told, element);
    }
    Ok(told)
}

// What is told with one more element.
fn told_with(root: &[u8], name: &[u8], told: Told, element: Element<'_>) -> Told
    ensures { result ≡ told_with root.now name.now told (as_ended element.entry) }
{
    let is_root = element.name == root;
    if element.level == 2 && element.name == name {
        let Element { content, .. } = element;
        return Told {
            field: Some(FieldText { text: content }),
            is_root,
        };
    }
    let Told { field, .. } = told;
    Told { field, is_root }
}
