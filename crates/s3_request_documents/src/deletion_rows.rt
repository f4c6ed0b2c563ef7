//! The objects that the rows of a DeleteObjects name, as far as they were read.
ghost use Rattle.std.specs.Prelude.{◌≡◌, [], ◌∷◌, ◌++◌, length, Some, None, IfOk, IfErr, OnOk};
ghost use Rattle.s3_xml_reader.specs.Place.{as_ended};
ghost use Rattle.s3_request_documents.specs.Deletion.{is_condition};
ghost use Rattle.s3_request_documents.specs.DeletionTold.{no_fields, with_field, with_object, with_row, with_element};

use crate::deletion_objects::object_of;
use crate::root_field::FieldText;
use s3_deletions::{NamedObject, NamedObjects};
use s3_xml_reader::{Element, Error};
use std::alloc::{AllocError, Global};
use std::marker::Model;

/// The most objects that a deletion may name.
const OBJECTS_MAX: usize = 1_000;

/// What the fields of a row tell, as far as they were read: the texts of a key and of the id of a version, and whether
/// there is a condition.
#[derive(Drop)]
pub(crate) struct ObjectFields {
    key: Option<FieldText>,
    id: Option<FieldText>,
    has_condition: bool,
}

/// The objects that were named. A contract sees them as a list.
#[derive(Drop)]
pub(crate) struct Objects {
    named: Vec<NamedObject>,
}

impl Model for Objects {
    ghost use Rattle.std.specs.Prelude.{List};
    ghost use Rattle.s3_deletions.specs.declared.named.NamedObject.{NamedObject};

    ghost Value = { List NamedObject };

    ghost view = { λ objects. objects.named.items };
}

/// The rows that were read, of which each names an object and there are no more than there may be: the fields of the one
/// that hasn't ended, the objects, and whether one has a condition.
#[derive(Drop)]
pub(crate) struct ObjectRows {
    pub(crate) fields: ObjectFields,
    pub(crate) objects: Objects,
    pub(crate) have_conditions: bool,
}

impl Objects {
    /// None.
    pub(crate) fn new(alloc: Global) -> Objects
        ensures { result ≡ [] }
    {
        Objects {
            named: Vec::new(alloc),
        }
    }

    /// How many they are.
    pub(crate) fn len(&self) -> usize
        ensures { result ≡ length self.now }
    {
        self.named.len()
    }

    // One more.
    fn push(&mut self, object: NamedObject) -> Result<(), AllocError>
        ensures { OnOk result (self.new ≡ self.old ++ object ∷ []) }
    {
        self.named.push(object)?;
        Ok(())
    }

    /// Those that are named.
    pub(crate) fn named(self) -> NamedObjects
        ensures { result ≡ self }
    {
        let Objects { named } = self;
        NamedObjects::new(named)
    }
}

impl ObjectFields {
    /// None has been read.
    pub(crate) fn new() -> ObjectFields
        ensures { result ≡ no_fields }
    {
        ObjectFields {
            key: None,
            id: None,
            has_condition: false,
        }
    }
}

// Whether an element is a condition on what is to be deleted.
fn is_condition(element: &Element<'_>) -> bool
    ensures { result ≡ is_condition (as_ended element.now) }
{
    element.name == b"ETag".as_slice()
        || element.name == b"LastModifiedTime".as_slice()
        || element.name == b"Size".as_slice()
}

// One more field, whose text is moved.
fn with_field(fields: ObjectFields, element: Element<'_>) -> ObjectFields
    ensures { result ≡ with_field fields (as_ended element.entry) }
{
    let mut fields = fields;
    if element.name == b"Key".as_slice() {
        let Element { content, .. } = element;
        fields.key = Some(FieldText::new(content));
        return fields;
    }
    if element.name == b"VersionId".as_slice() {
        let Element { content, .. } = element;
        fields.id = Some(FieldText::new(content));
        return fields;
    }
    fields.has_condition = fields.has_condition || is_condition(&element);
    fields
}

// A row ends that names this object.
fn with_object(rows: ObjectRows, object: NamedObject) -> Result<ObjectRows, AllocError>
    ensures { IfOk result (λ new. new ≡ with_object rows object) }
{
    let mut rows = rows;
    rows.objects.push(object)?;
    rows.have_conditions = rows.have_conditions || rows.fields.has_condition;
    rows.fields = ObjectFields::new();
    Ok(rows)
}

// A row ends.
fn with_row(alloc: Global, rows: ObjectRows) -> Result<ObjectRows, Error>
    ensures row { IfOk result (λ new. with_row rows ≡ Some new) }
    ensures malformed { IfErr result (λ e. e ≡ Error.Malformed → with_row rows ≡ None) }
{
    if rows.objects.len() >= OBJECTS_MAX {
        return Err(Error::Malformed);
    }
    let object = object_of(alloc, &rows.fields.key, &rows.fields.id)?;
    Ok(with_object(rows, object)?)
}

/// An element ends.
///
/// # Errors
///
/// `Malformed` where it is a row that names no object, or one more than there may be, and `NoMemory` where memory runs
/// out.
pub(crate) fn with_element(
    alloc: Global,
    rows: ObjectRows,
    element: Element<'_>,
) -> Result<ObjectRows, Error>
    ensures row { IfOk result (λ new. with_element rows (as_ended element.entry) ≡ Some new) }
    ensures malformed { IfErr result (λ e. e ≡ Error.Malformed → with_element rows (as_ended element.entry) ≡ None) }
{
    let mut rows = rows;
    if element.level == 3 {
        rows.fields = with_field(rows.fields, element);
        return Ok(rows);
    }
    if element.level != 2 {
        return Ok(rows);
    }
    if element.name == b"Object".as_slice() {
        return with_row(alloc, rows);
    }
    rows.fields = ObjectFields::new();
    Ok(rows)
}
