//! The list of a bucket's objects, as a document.
ghost use Rattle.std.specs.Prelude.{◌≡◌, ◌+◌, ◌*◌, [], length, Some, IfOk, OnOk, option_map};
ghost use Rattle.std.specs.Option.{option_copied};
ghost use Rattle.s3_documents.specs.Copied.{tag_told};
ghost use Rattle.s3_documents.specs.ObjectList.{object_row, prefix_row, key_count, token_told, delimiter_told, objects_fields, page_tree};
ghost use Rattle.s3_documents.specs.Xml.{objects_manner, object_events, object_before, object_behind, prefix_events, in_first, in_second, marker_asked, next_marker, objects_before, objects_between, objects_behind};
ghost use Rattle.s3_documents.specs.Document.{objects};
ghost use Rattle.s3_documents.specs.Printed.{branches_tokens, begun, fields_of, text_kept, value_of, room_of, TakesRoom, IsRoomFor};
ghost use Rattle.s3_documents.specs.Tree.{encodable, number};

use crate::printer::{Field, Leaf, Printer, Row, text_of};
use crate::reserved::Told;
use crate::room::{Bounded, known_of, room_of_fields, room_of_rows, room_of_text};
use crate::texts::{key_told, name_told, quoted, text_told};
use crate::xml::{Entry, Manner, encoding_leaf, put_element, put_lists, put_owned, room_of_lists};
use s3_listings::{ListedObject, ObjectPage};
use s3_names::BucketName;
use s3_prefixes::{ListVersion, ObjectsAsked, Text};
use s3_terms::NoMemory;
use s3_xml::Writer;
use std::alloc::{AllocError, Global};

/// No row of an object takes more room, beside that for its key.
const ROW_MAX: usize = 706;

/// Nor does one of a common prefix, beside that.
const PREFIX_ROW_MAX: usize = 46;

/// The document of a ListObjects or a ListObjectsV2, for later: what was asked, and the page that is told, of the bucket
/// of this name. A token stands in it in hexadecimal digits; a marker, the first version's token, as it is.
#[derive(Drop)]
pub(crate) struct ObjectsList {
    name: BucketName,
    asked: ObjectsAsked,
    page: ObjectPage,
    token: Option<String>,
    next: Option<String>,
    ghost digits: { option_map text_kept token ≡ option_map token_told asked.token },
    ghost next_digits: { option_map text_kept next ≡ option_map token_told page.next },
}

impl ObjectsList {
    /// It takes memory for the tokens.
    pub fn of(
        alloc: Global,
        name: BucketName,
        asked: ObjectsAsked,
        page: ObjectPage,
    ) -> Result<ObjectsList, NoMemory>
        ensures { IfOk result (λ list. objects list.name list.asked list.page ≡ objects name asked page) }
    {
        let (token, next) = digits_of(alloc, &asked, &page)?;
        Ok(ObjectsList {
            name,
            asked,
            page,
            token,
            next,
        })
    }
}

impl Told for ObjectsList {
    ghost document = { λ list. objects list.name list.asked list.page };

    fn print(&self, printer: &mut Printer) -> Result<(), AllocError> {
        let fields = fields_told(&self.name, &self.asked, &self.page, &self.token, &self.next);
        printed(printer, self.page.prefixes(), self.page.contents(), &fields)
    }

    fn root(&self) -> &'static str {
        "ListBucketResult"
    }

    fn write(&self, writer: &mut Writer) -> Result<(), AllocError> {
        let before = before(&self.asked, &self.page);
        let between = between(&self.name, &self.asked);
        let behind = behind(&self.asked, &self.page, &self.token, &self.next);
        let (contents, prefixes) = (self.page.contents(), self.page.prefixes());
        let manner = manner_of(&self.asked);
        put_lists(
            writer, manner, &before, contents, &between, prefixes, &behind,
        )
    }

    fn room(&self) -> usize {
        let fields = fields_told(&self.name, &self.asked, &self.page, &self.token, &self.next);
        let json = room_for(self.page.prefixes(), self.page.contents(), &fields);
        let before = before(&self.asked, &self.page);
        let between = between(&self.name, &self.asked);
        let behind = behind(&self.asked, &self.page, &self.token, &self.next);
        let (contents, prefixes) = (self.page.contents(), self.page.prefixes());
        json.max(room_of_lists(&before, contents, &between, prefixes, &behind))
    }
}

// Prints these common prefixes and objects, with these fields beside them.
#[tactic(auto, using(crate::proofs::RowLemmas::page_room))]
fn printed(
    printer: &mut Printer,
    prefixes: &[Text],
    contents: &[ListedObject],
    fields: &[Field<'_>],
) -> Result<(), AllocError>
    ensures tokens { OnOk result (printer.old.tokens ≡ begun []
        → printer.new.tokens ≡ begun (page_tree prefixes.now contents.now (fields_of fields.now))) }
    ensures room { TakesRoom result printer.old.spare printer.new.spare
        (branches_tokens (page_tree prefixes.now contents.now (fields_of fields.now))) }
{
    printer.rows("CommonPrefixes", prefixes)?;
    printer.rows("Contents", contents)?;
    printer.fields(fields)?;
    Ok(())
}

// The room for that.
#[tactic(auto, using(crate::proofs::RowLemmas::page_room, crate::proofs::RoomLemmas::leaves_room))]
fn room_for(prefixes: &[Text], contents: &[ListedObject], fields: &[Field<'_>]) -> usize
    ensures { IsRoomFor result
        (room_of (branches_tokens (page_tree prefixes.now contents.now (fields_of fields.now)))) }
{
    room_of_rows("CommonPrefixes", prefixes)
        .saturating_add(room_of_rows("Contents", contents))
        .saturating_add(room_of_fields(fields))
}

// What stands beside the rows.
fn fields_told<'a>(
    name: &'a BucketName,
    asked: &'a ObjectsAsked,
    page: &'a ObjectPage,
    token: &'a Option<String>,
    next: &'a Option<String>,
) -> [Field<'a>; 9]
    requires token { option_map text_kept token.now ≡ option_map token_told asked.now.token }
    requires next { option_map text_kept next.now ≡ option_map token_told page.now.next }
    ensures { fields_of result ≡ objects_fields name.now asked.now page.now }
{
    [
        Field {
            name: "ContinuationToken",
            value: digits_told(token),
        },
        Field {
            name: "Delimiter",
            value: delimiter_leaf(&asked.delimiter),
        },
        Field {
            name: "IsTruncated",
            value: Leaf::Truth(page.next().is_some()),
        },
        Field {
            name: "KeyCount",
            value: Leaf::Number(count_of(page)),
        },
        Field {
            name: "MaxKeys",
            value: Leaf::Number(asked.max_keys as u64),
        },
        Field {
            name: "Name",
            value: Leaf::Text(name_told(name)),
        },
        Field {
            name: "NextContinuationToken",
            value: digits_told(next),
        },
        Field {
            name: "Prefix",
            value: Leaf::Encodable(text_told(&asked.prefix)),
        },
        Field {
            name: "StartAfter",
            value: start_leaf(&asked.start_after),
        },
    ]
}

// What is asked of the form in XML.
fn manner_of(asked: &ObjectsAsked) -> Manner
    ensures { result ≡ objects_manner asked.now }
{
    Manner {
        is_url_encoded: asked.is_url_encoded,
        tells_owner: asked.tells_owner,
    }
}

// What stands in front of the objects in XML.
fn before<'a>(asked: &'a ObjectsAsked, page: &'a ObjectPage) -> [Field<'a>; 3]
    ensures { fields_of result ≡ objects_before asked.now page.now }
{
    [
        Field {
            name: "IsTruncated",
            value: Leaf::Truth(page.next().is_some()),
        },
        Field {
            name: "Marker",
            value: marker_leaf(asked.version, &asked.token),
        },
        Field {
            name: "NextMarker",
            value: next_marker_leaf(asked.version, &asked.delimiter, page),
        },
    ]
}

// What stands between them and the common prefixes.
fn between<'a>(name: &'a BucketName, asked: &'a ObjectsAsked) -> [Field<'a>; 4]
    ensures { fields_of result ≡ objects_between name.now asked.now }
{
    [
        Field {
            name: "Name",
            value: Leaf::Text(name_told(name)),
        },
        Field {
            name: "Prefix",
            value: Leaf::Encodable(text_told(&asked.prefix)),
        },
        Field {
            name: "Delimiter",
            value: delimiter_leaf(&asked.delimiter),
        },
        Field {
            name: "MaxKeys",
            value: Leaf::Number(asked.max_keys as u64),
        },
    ]
}

// What stands behind these.
fn behind<'a>(
    asked: &'a ObjectsAsked,
    page: &'a ObjectPage,
    token: &'a Option<String>,
    next: &'a Option<String>,
) -> [Field<'a>; 5]
    requires token { option_map text_kept token.now ≡ option_map token_told asked.now.token }
    requires next { option_map text_kept next.now ≡ option_map token_told page.now.next }
    ensures { fields_of result ≡ objects_behind asked.now page.now }
{
    [
        Field {
            name: "EncodingType",
            value: encoding_leaf(asked.is_url_encoded),
        },
        Field {
            name: "KeyCount",
            value: count_leaf(asked.version, page),
        },
        Field {
            name: "ContinuationToken",
            value: token_leaf(asked.version, token),
        },
        Field {
            name: "NextContinuationToken",
            value: token_leaf(asked.version, next),
        },
        Field {
            name: "StartAfter",
            value: start_after_leaf(asked.version, &asked.start_after),
        },
    ]
}

impl Row for ListedObject {
    ghost told = { object_row };

    fn print(&self, printer: &mut Printer) -> Result<(), AllocError> {
        let tag = quoted(&self.facts.tag);
        printer.row(&object_fields(self, text_of(tag.as_slice())))
    }
}

impl Entry for ListedObject {
    ghost events = { object_events };

    fn write(&self, writer: &mut Writer, manner: Manner) -> Result<(), AllocError> {
        let tag = quoted(&self.facts.tag);
        put_owned(
            writer,
            manner,
            "Contents",
            &elements_before(self, text_of(tag.as_slice())),
            &elements_behind(self),
        )
    }
}

impl Bounded for ListedObject {
    #[tactic(auto, using(crate::proofs::RowLemmas::object_row_room, crate::proofs::XmlRoomLemmas::object_events_room))]
    fn room(&self) -> usize {
        known_of(&self.facts.tag, self.facts.size);
        room_of_object(self.key.as_bytes().len())
    }
}

impl Row for Text {
    ghost told = { prefix_row };

    fn print(&self, printer: &mut Printer) -> Result<(), AllocError> {
        printer.row(&prefix_fields(self))
    }
}

impl Entry for Text {
    ghost events = { prefix_events };

    fn write(&self, writer: &mut Writer, manner: Manner) -> Result<(), AllocError> {
        put_element(writer, manner, "CommonPrefixes", &prefix_fields(self))
    }
}

impl Bounded for Text {
    #[tactic(auto, using(crate::proofs::RowLemmas::prefix_row_room, crate::proofs::XmlRoomLemmas::prefix_events_room))]
    fn room(&self) -> usize {
        room_of_prefix(self.as_bytes().len())
    }
}

// The room for the row of an object with a key of so many bytes.
fn room_of_object(key_len: usize) -> usize
    ensures { IsRoomFor result (6 * key_len + 710) }
{
    room_of_text(key_len).saturating_add(ROW_MAX)
}

// The same of a common prefix.
fn room_of_prefix(len: usize) -> usize
    ensures { IsRoomFor result (6 * len + 50) }
{
    room_of_text(len).saturating_add(PREFIX_ROW_MAX)
}

fn object_fields<'a>(object: &'a ListedObject, tag: &'a str) -> [Field<'a>; 4]
    requires { tag.now ≡ tag_told object.now.facts.tag }
    ensures { fields_of result ≡ object_row object.now }
{
    [
        Field {
            name: "ETag",
            value: Leaf::Text(tag),
        },
        Field {
            name: "Key",
            value: Leaf::Encodable(key_told(&object.key)),
        },
        Field {
            name: "LastModified",
            value: Leaf::Moment(object.facts.moment),
        },
        Field {
            name: "Size",
            value: Leaf::Number(object.facts.size),
        },
    ]
}

fn elements_before<'a>(object: &'a ListedObject, tag: &'a str) -> [Field<'a>; 3]
    requires { tag.now ≡ tag_told object.now.facts.tag }
    ensures { fields_of result ≡ object_before object.now }
{
    [
        Field {
            name: "ETag",
            value: Leaf::Text(tag),
        },
        Field {
            name: "Key",
            value: Leaf::Encodable(key_told(&object.key)),
        },
        Field {
            name: "LastModified",
            value: Leaf::Moment(object.facts.moment),
        },
    ]
}

fn elements_behind(object: &ListedObject) -> [Field<'_>; 2]
    ensures { fields_of result ≡ object_behind object.now }
{
    [
        Field {
            name: "Size",
            value: Leaf::Number(object.facts.size),
        },
        Field {
            name: "StorageClass",
            value: Leaf::Text("STANDARD"),
        },
    ]
}

fn prefix_fields(prefix: &Text) -> [Field<'_>; 1]
    ensures { fields_of result ≡ prefix_row prefix.now }
{
    [Field {
        name: "Prefix",
        value: Leaf::Encodable(text_told(prefix)),
    }]
}

// The token that was asked for and that of the next page, in hexadecimal digits.
fn digits_of(
    alloc: Global,
    asked: &ObjectsAsked,
    page: &ObjectPage,
) -> Result<(Option<String>, Option<String>), AllocError>
    ensures token { IfOk result (λ told. option_map text_kept told.0 ≡ option_map token_told asked.now.token) }
    ensures next { IfOk result (λ told. option_map text_kept told.1 ≡ option_map token_told page.now.next) }
{
    let token = hexadecimal(alloc, asked.token.as_ref())?;
    let next = hexadecimal(alloc, page.next())?;
    Ok((token, next))
}

// The bytes of a text in hexadecimal digits, if there is one.
fn hexadecimal(alloc: Global, text: Option<&Text>) -> Result<Option<String>, AllocError>
    ensures { IfOk result (λ told. option_map text_kept told ≡ option_map token_told (option_copied text.entry)) }
{
    match text {
        Some(text) => Ok(Some(hex::encode(alloc, text.as_bytes())?)),
        None => Ok(None),
    }
}

fn digits_told(token: &Option<String>) -> Leaf<'_>
    ensures { value_of result ≡ option_map text_kept token.now }
{
    match token {
        Some(token) => Leaf::Text(token.as_str()),
        None => Leaf::Absent,
    }
}

pub(crate) fn delimiter_leaf(delimiter: &Text) -> Leaf<'_>
    ensures { value_of result ≡ delimiter_told delimiter.now }
{
    if delimiter.as_bytes().is_empty() {
        Leaf::Absent
    } else {
        Leaf::Encodable(text_told(delimiter))
    }
}

fn start_leaf(start: &Option<Text>) -> Leaf<'_>
    ensures { value_of result ≡ option_map encodable start.now }
{
    match start {
        Some(start) => Leaf::Encodable(text_told(start)),
        None => Leaf::Absent,
    }
}

// The marker that was asked for, empty where there is none: in the first version of the list.
fn marker_leaf(version: ListVersion, marker: &Option<Text>) -> Leaf<'_>
    ensures { value_of result ≡ in_first version (Some (marker_asked marker.now)) }
{
    match version {
        ListVersion::First => Leaf::Encodable(marker_text(marker)),
        ListVersion::Second => Leaf::Absent,
    }
}

fn marker_text(marker: &Option<Text>) -> &str
    ensures { encodable result.now ≡ marker_asked marker.now }
{
    match marker {
        Some(marker) => text_told(marker),
        None => "",
    }
}

// The marker of the next page, in the first version.
fn next_marker_leaf<'a>(version: ListVersion, delimiter: &Text, page: &'a ObjectPage) -> Leaf<'a>
    ensures { value_of result ≡ in_first version (next_marker delimiter.now page.now.next) }
{
    match version {
        ListVersion::First => next_leaf(delimiter, page),
        ListVersion::Second => Leaf::Absent,
    }
}

// The same, where there is one and a delimiter was asked for.
fn next_leaf<'a>(delimiter: &Text, page: &'a ObjectPage) -> Leaf<'a>
    ensures { value_of result ≡ next_marker delimiter.now page.now.next }
{
    if delimiter.as_bytes().is_empty() {
        return Leaf::Absent;
    }
    match page.next() {
        Some(next) => Leaf::Encodable(text_told(next)),
        None => Leaf::Absent,
    }
}

// How many items the page has, in the second version of the list.
fn count_leaf(version: ListVersion, page: &ObjectPage) -> Leaf<'static>
    ensures { value_of result ≡ in_second version (Some (number (key_count page.now))) }
{
    match version {
        ListVersion::First => Leaf::Absent,
        ListVersion::Second => Leaf::Number(count_of(page)),
    }
}

// A token, in the second version.
fn token_leaf(version: ListVersion, token: &Option<String>) -> Leaf<'_>
    ensures { value_of result ≡ in_second version (option_map text_kept token.now) }
{
    match version {
        ListVersion::First => Leaf::Absent,
        ListVersion::Second => digits_told(token),
    }
}

// Where the list starts, in the second version.
fn start_after_leaf(version: ListVersion, start: &Option<Text>) -> Leaf<'_>
    ensures { value_of result ≡ in_second version (option_map encodable start.now) }
{
    match version {
        ListVersion::First => Leaf::Absent,
        ListVersion::Second => start_leaf(start),
    }
}

// How many items the page has.
fn count_of(page: &ObjectPage) -> u64
    ensures { result ≡ key_count page.now }
{
    page.contents().len() as u64 + page.prefixes().len() as u64
}
