//! The list of a bucket's versions, as a document.
ghost use Rattle.std.specs.Prelude.{◌≡◌, ◌+◌, ◌*◌, IfSome, IsUtf8, option_map};
ghost use Rattle.std.specs.Option.{option_copied};
ghost use Rattle.s3_listings.specs.Rolled.{next_row};
ghost use Rattle.s3_names.specs.Ids.{version_id_text};
ghost use Rattle.s3_documents.specs.Copied.{tag_told};
ghost use Rattle.s3_documents.specs.Document.{versions};
ghost use Rattle.s3_documents.specs.NextPage.{next_key};
ghost use Rattle.s3_documents.specs.Printed.{fields_of, value_of, IsRoomFor};
ghost use Rattle.s3_documents.specs.VersionList.{tag_of_facts, size_of_facts, version_fields, key_of_row, id_of_row, marker_told, versions_fields};
ghost use Rattle.s3_documents.specs.Xml.{version_name, version_before, version_behind, version_events, versions_before, versions_between, versions_behind, standard};

use crate::list::{print_list, room_of_list};
use crate::object_list::delimiter_leaf;
use crate::printer::{Field, Leaf, Printer, Row, text_of};
use crate::reserved::Told;
use crate::room::{Bounded, known_of, room_of_text};
use crate::texts::{ID_MAX, id_told, key_told, name_told, quoted, text_told};
use crate::xml::{Entry, Manner, encoding_leaf, owned_manner, put_lists, put_owned, room_of_lists};
use arrayvec::ArrayVec;
use s3_listings::{VersionPage, VersionsAsked};
use s3_names::BucketName;
use s3_records::VersionRow;
use s3_versions::Facts;
use s3_xml::Writer;
use std::alloc::AllocError;

/// No row takes more room, beside that for its key.
const ROW_MAX: usize = 890;

/// The document of a ListObjectVersions, for later: what was asked, and the page that is told, of the bucket of this
/// name.
#[derive(Drop)]
pub(crate) struct VersionsList {
    pub name: BucketName,
    pub asked: VersionsAsked,
    pub page: VersionPage,
}

impl Told for VersionsList {
    ghost document = { λ list. versions list.name list.asked list.page };

    fn print(&self, printer: &mut Printer) -> Result<(), AllocError> {
        let next = self.page.next_row();
        let marker = id_told(self.asked.id_marker);
        let next_behind = row_id(next);
        let fields = fields_told(self, next, text_of(&marker), text_of(&next_behind));
        print_list(printer, &fields, "Versions", self.page.rows(), &[])
    }

    fn root(&self) -> &'static str {
        "ListVersionsResult"
    }

    fn write(&self, writer: &mut Writer) -> Result<(), AllocError> {
        let next = self.page.next_row();
        let marker = id_told(self.asked.id_marker);
        let next_behind = row_id(next);
        let before = fields_before(self, next, text_of(&marker), text_of(&next_behind));
        let between = fields_between(self);
        let behind = fields_behind(self);
        let (rows, prefixes) = (self.page.rows(), self.page.prefixes());
        let manner = owned_manner(self.asked.is_url_encoded);
        put_lists(writer, manner, &before, rows, &between, prefixes, &behind)
    }

    fn room(&self) -> usize {
        let next = self.page.next_row();
        let marker = id_told(self.asked.id_marker);
        let next_behind = row_id(next);
        let fields = fields_told(self, next, text_of(&marker), text_of(&next_behind));
        let before = fields_before(self, next, text_of(&marker), text_of(&next_behind));
        let json = room_of_list(&fields, "Versions", self.page.rows(), &[]);
        let between = fields_between(self);
        let behind = fields_behind(self);
        let (rows, prefixes) = (self.page.rows(), self.page.prefixes());
        json.max(room_of_lists(&before, rows, &between, prefixes, &behind))
    }
}

// What stands in front of the rows: `next` is the row behind which the next page goes on, and these are the texts of the
// id behind which this one does, and of that row's id.
fn fields_told<'a>(
    list: &'a VersionsList,
    next: Option<&'a VersionRow>,
    behind: &'a str,
    next_behind: &'a str,
) -> [Field<'a>; 8]
    requires next { option_copied next ≡ next_row list.now.page }
    requires behind { behind.now ≡ marker_told list.now.asked.id_marker }
    requires next_behind { IfSome (option_copied next) (λ row. next_behind.now ≡ version_id_text row.id) }
    ensures { fields_of result ≡ versions_fields list.now.name list.now.asked list.now.page }
{
    [
        Field {
            name: "IsTruncated",
            value: Leaf::Truth(list.page.is_truncated()),
        },
        Field {
            name: "KeyMarker",
            value: Leaf::Encodable(text_told(&list.asked.key_marker)),
        },
        Field {
            name: "MaxKeys",
            value: Leaf::Number(list.asked.max_keys as u64),
        },
        Field {
            name: "Name",
            value: Leaf::Text(name_told(&list.name)),
        },
        Field {
            name: "NextKeyMarker",
            value: next_leaf(&list.page, next),
        },
        Field {
            name: "NextVersionIdMarker",
            value: id_leaf(next, next_behind),
        },
        Field {
            name: "Prefix",
            value: Leaf::Encodable(text_told(&list.asked.prefix)),
        },
        Field {
            name: "VersionIdMarker",
            value: Leaf::Text(behind),
        },
    ]
}

// What stands in front of the rows in XML, of the same.
fn fields_before<'a>(
    list: &'a VersionsList,
    next: Option<&'a VersionRow>,
    behind: &'a str,
    next_behind: &'a str,
) -> [Field<'a>; 5]
    requires next { option_copied next ≡ next_row list.now.page }
    requires behind { behind.now ≡ marker_told list.now.asked.id_marker }
    requires next_behind { IfSome (option_copied next) (λ row. next_behind.now ≡ version_id_text row.id) }
    ensures { fields_of result ≡ versions_before list.now.asked list.now.page }
{
    [
        Field {
            name: "IsTruncated",
            value: Leaf::Truth(list.page.is_truncated()),
        },
        Field {
            name: "KeyMarker",
            value: Leaf::Encodable(text_told(&list.asked.key_marker)),
        },
        Field {
            name: "VersionIdMarker",
            value: Leaf::Text(behind),
        },
        Field {
            name: "NextKeyMarker",
            value: next_leaf(&list.page, next),
        },
        Field {
            name: "NextVersionIdMarker",
            value: id_leaf(next, next_behind),
        },
    ]
}

// Between them and the common prefixes.
fn fields_between(list: &VersionsList) -> [Field<'_>; 4]
    ensures { fields_of result ≡ versions_between list.now.name list.now.asked }
{
    [
        Field {
            name: "Name",
            value: Leaf::Text(name_told(&list.name)),
        },
        Field {
            name: "Prefix",
            value: Leaf::Encodable(text_told(&list.asked.prefix)),
        },
        Field {
            name: "Delimiter",
            value: delimiter_leaf(&list.asked.delimiter),
        },
        Field {
            name: "MaxKeys",
            value: Leaf::Number(list.asked.max_keys as u64),
        },
    ]
}

// And behind these.
fn fields_behind(list: &VersionsList) -> [Field<'_>; 1]
    ensures { fields_of result ≡ versions_behind list.now.asked }
{
    [Field {
        name: "EncodingType",
        value: encoding_leaf(list.asked.is_url_encoded),
    }]
}

impl Row for VersionRow {
    ghost told = { version_fields };

    fn print(&self, printer: &mut Printer) -> Result<(), AllocError> {
        let id = id_told(Some(self.id));
        match &self.facts {
            Some(facts) => {
                let tag = quoted(&facts.tag);
                printer.row(&row_fields(self, text_of(tag.as_slice()), text_of(&id)))
            }
            None => printer.row(&row_fields(self, "", text_of(&id))),
        }
    }
}

impl Entry for VersionRow {
    ghost events = { version_events };

    fn write(&self, writer: &mut Writer, manner: Manner) -> Result<(), AllocError> {
        let id = id_told(Some(self.id));
        let behind = elements_behind(self, text_of(&id));
        match &self.facts {
            Some(facts) => {
                let tag = quoted(&facts.tag);
                put_owned(
                    writer,
                    manner,
                    "Version",
                    &elements_before(self, text_of(tag.as_slice())),
                    &behind,
                )
            }
            None => put_owned(
                writer,
                manner,
                "DeleteMarker",
                &elements_before(self, ""),
                &behind,
            ),
        }
    }
}

fn elements_before<'a>(row: &'a VersionRow, tag: &'a str) -> [Field<'a>; 4]
    requires { IfSome row.now.facts (λ facts. tag.now ≡ tag_told facts.tag) }
    ensures { fields_of result ≡ version_before row.now }
{
    [
        Field {
            name: "ETag",
            value: tag_leaf(&row.facts, tag),
        },
        Field {
            name: "IsLatest",
            value: Leaf::Truth(row.is_latest),
        },
        Field {
            name: "Key",
            value: Leaf::Encodable(key_told(&row.key)),
        },
        Field {
            name: "LastModified",
            value: Leaf::Moment(row.moment),
        },
    ]
}

fn elements_behind<'a>(row: &'a VersionRow, id: &'a str) -> [Field<'a>; 3]
    requires { id.now ≡ version_id_text row.now.id }
    ensures { fields_of result ≡ version_behind row.now }
{
    [
        Field {
            name: "Size",
            value: size_leaf(&row.facts),
        },
        Field {
            name: "StorageClass",
            value: class_leaf(&row.facts),
        },
        Field {
            name: "VersionId",
            value: Leaf::Text(id),
        },
    ]
}

// The storage class of a version, if it stores something.
fn class_leaf(facts: &Option<Facts>) -> Leaf<'_>
    ensures { value_of result ≡ option_map (λ facts. standard) facts.now }
{
    match facts {
        Some(_) => Leaf::Text("STANDARD"),
        None => Leaf::Absent,
    }
}

impl Bounded for VersionRow {
    #[tactic(auto, using(crate::proofs::RowLemmas::version_row_room, crate::proofs::RowLemmas::marker_row_room, crate::proofs::XmlRoomLemmas::version_events_room, crate::proofs::XmlRoomLemmas::marker_events_room))]
    fn room(&self) -> usize {
        if let Some(facts) = &self.facts {
            known_of(&facts.tag, facts.size);
        }
        room_of_version(self.key.as_bytes().len())
    }
}

// The room for the row of a version whose key has so many bytes.
fn room_of_version(key_len: usize) -> usize
    ensures { IsRoomFor result (6 * key_len + 894) }
{
    room_of_text(key_len).saturating_add(ROW_MAX)
}

fn row_fields<'a>(row: &'a VersionRow, tag: &'a str, id: &'a str) -> [Field<'a>; 7]
    requires tag { IfSome row.now.facts (λ facts. tag.now ≡ tag_told facts.tag) }
    requires id { id.now ≡ version_id_text row.now.id }
    ensures { fields_of result ≡ version_fields row.now }
{
    [
        Field {
            name: "DeleteMarker",
            value: Leaf::Truth(row.facts.is_none()),
        },
        Field {
            name: "ETag",
            value: tag_leaf(&row.facts, tag),
        },
        Field {
            name: "IsLatest",
            value: Leaf::Truth(row.is_latest),
        },
        Field {
            name: "Key",
            value: Leaf::Encodable(key_told(&row.key)),
        },
        Field {
            name: "LastModified",
            value: Leaf::Moment(row.moment),
        },
        Field {
            name: "Size",
            value: size_leaf(&row.facts),
        },
        Field {
            name: "VersionId",
            value: Leaf::Text(id),
        },
    ]
}

// The tag of a version, which is told as this, if it has one.
fn tag_leaf<'a>(facts: &'a Option<Facts>, tag: &'a str) -> Leaf<'a>
    requires { IfSome facts.now (λ facts. tag.now ≡ tag_told facts.tag) }
    ensures { value_of result ≡ option_map tag_of_facts facts.now }
{
    match facts {
        Some(_) => Leaf::Text(tag),
        None => Leaf::Absent,
    }
}

fn size_leaf(facts: &Option<Facts>) -> Leaf<'_>
    ensures { value_of result ≡ option_map size_of_facts facts.now }
{
    match facts {
        Some(facts) => Leaf::Number(facts.size),
        None => Leaf::Absent,
    }
}

// The text of a row's id, if there is one.
fn row_id(row: Option<&VersionRow>) -> ArrayVec<u8, ID_MAX>
    ensures value { IfSome (option_copied row.entry) (λ row. result.items ≡ version_id_text row.id) }
    ensures utf8 { IsUtf8 result.items }
{
    match row {
        Some(row) => id_told(Some(row.id)),
        None => ArrayVec::new(),
    }
}

// The text behind which the next page goes on: a common prefix, or the key of this row, if there is one.
fn next_leaf<'a>(page: &'a VersionPage, next: Option<&'a VersionRow>) -> Leaf<'a>
    requires { option_copied next ≡ next_row page.now }
    ensures { value_of result ≡ next_key key_of_row page.now }
{
    match page.next_prefix() {
        Some(prefix) => Leaf::Encodable(text_told(prefix)),
        None => key_leaf(next),
    }
}

fn key_leaf(row: Option<&VersionRow>) -> Leaf<'_>
    ensures { value_of result ≡ option_map key_of_row (option_copied row.entry) }
{
    match row {
        Some(row) => Leaf::Encodable(key_told(&row.key)),
        None => Leaf::Absent,
    }
}

// The id of a row, whose text this is, if there is one.
fn id_leaf<'a>(row: Option<&'a VersionRow>, text: &'a str) -> Leaf<'a>
    requires { IfSome (option_copied row) (λ row. text.now ≡ version_id_text row.id) }
    ensures { value_of result ≡ option_map id_of_row (option_copied row.entry) }
{
    match row {
        Some(_) => Leaf::Text(text),
        None => Leaf::Absent,
    }
}
