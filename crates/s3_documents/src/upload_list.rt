//! The list of the uploads in a bucket, as a document.
ghost use Rattle.std.specs.Prelude.{◌≡◌, ◌+◌, ◌*◌, IfSome, IsUtf8, option_map};
ghost use Rattle.std.specs.Option.{option_copied};
ghost use Rattle.s3_listings.specs.Rolled.{next_row};
ghost use Rattle.s3_names.specs.Ids.{upload_id_text};
ghost use Rattle.s3_records.specs.declared.rows.UploadRow.{UploadRow as UploadAs};
ghost use Rattle.s3_documents.specs.Document.{uploads};
ghost use Rattle.s3_documents.specs.NextPage.{next_key};
ghost use Rattle.s3_documents.specs.Printed.{fields_of, value_of, IsRoomFor};
ghost use Rattle.s3_documents.specs.UploadList.{upload_fields, upload_marker_told, key_of_upload, id_of_upload, uploads_fields};
ghost use Rattle.s3_documents.specs.Xml.{upload_events, begun_before, begun_behind, uploads_before, uploads_behind};

use crate::list::{print_list, room_of_list};
use crate::object_list::delimiter_leaf;
use crate::printer::{Field, Leaf, Printer, Row, text_of};
use crate::reserved::Told;
use crate::room::{Bounded, room_of_text};
use crate::texts::{ID_MAX, key_told, name_told, text_told, upload_id_told};
use crate::xml::{Entry, Manner, encoding_leaf, owned_manner, put_lists, put_owned, room_of_lists};
use arrayvec::ArrayVec;
use s3_listings::{UploadPage, UploadsAsked};
use s3_names::BucketName;
use s3_records::UploadRow;
use s3_xml::Writer;
use std::alloc::AllocError;

/// No row takes more room, beside that for its key.
const ROW_MAX: usize = 433;

/// The document of a ListMultipartUploads, for later: what was asked, and the page that is told, of the bucket of this name.
#[derive(Drop)]
pub(crate) struct UploadsList {
    pub name: BucketName,
    pub asked: UploadsAsked,
    pub page: UploadPage,
}

impl Told for UploadsList {
    ghost document = { λ list. uploads list.name list.asked list.page };

    fn print(&self, printer: &mut Printer) -> Result<(), AllocError> {
        let next = self.page.next_row();
        let marker = upload_id_told(self.asked.id_marker);
        let next_behind = row_id(next);
        let fields = fields_told(self, next, text_of(&marker), text_of(&next_behind));
        print_list(printer, &fields, "Uploads", self.page.rows(), &[])
    }

    fn root(&self) -> &'static str {
        "ListMultipartUploadsResult"
    }

    fn write(&self, writer: &mut Writer) -> Result<(), AllocError> {
        let next = self.page.next_row();
        let marker = upload_id_told(self.asked.id_marker);
        let next_behind = row_id(next);
        let before = fields_before(self, next, text_of(&marker), text_of(&next_behind));
        let behind = fields_behind(self);
        let (rows, prefixes) = (self.page.rows(), self.page.prefixes());
        let manner = owned_manner(self.asked.is_url_encoded);
        put_lists(writer, manner, &before, rows, &[], prefixes, &behind)
    }

    fn room(&self) -> usize {
        let next = self.page.next_row();
        let marker = upload_id_told(self.asked.id_marker);
        let next_behind = row_id(next);
        let fields = fields_told(self, next, text_of(&marker), text_of(&next_behind));
        let before = fields_before(self, next, text_of(&marker), text_of(&next_behind));
        let json = room_of_list(&fields, "Uploads", self.page.rows(), &[]);
        let behind = fields_behind(self);
        let (rows, prefixes) = (self.page.rows(), self.page.prefixes());
        json.max(room_of_lists(&before, rows, &[], prefixes, &behind))
    }
}

// What stands in front of the rows: `next` is the row behind which the next page goes on, and these are the texts of the
// id behind which this one does, and of that row's id.
fn fields_told<'a>(
    list: &'a UploadsList,
    next: Option<&'a UploadRow>,
    behind: &'a str,
    next_behind: &'a str,
) -> [Field<'a>; 8]
    requires next { option_copied next ≡ next_row list.now.page }
    requires behind { behind.now ≡ upload_marker_told list.now.asked.id_marker }
    requires next_behind { IfSome (option_copied next) (λ row. next_behind.now ≡ upload_id_text row.id) }
    ensures { fields_of result ≡ uploads_fields list.now.name list.now.asked list.now.page }
{
    [
        Field {
            name: "Bucket",
            value: Leaf::Text(name_told(&list.name)),
        },
        Field {
            name: "IsTruncated",
            value: Leaf::Truth(list.page.is_truncated()),
        },
        Field {
            name: "KeyMarker",
            value: Leaf::Encodable(text_told(&list.asked.key_marker)),
        },
        Field {
            name: "MaxUploads",
            value: Leaf::Number(list.asked.max_uploads as u64),
        },
        Field {
            name: "NextKeyMarker",
            value: next_leaf(&list.page, next),
        },
        Field {
            name: "NextUploadIdMarker",
            value: id_leaf(next, next_behind),
        },
        Field {
            name: "Prefix",
            value: Leaf::Encodable(text_told(&list.asked.prefix)),
        },
        Field {
            name: "UploadIdMarker",
            value: Leaf::Text(behind),
        },
    ]
}

// What stands in front of the rows in XML, of the same.
fn fields_before<'a>(
    list: &'a UploadsList,
    next: Option<&'a UploadRow>,
    behind: &'a str,
    next_behind: &'a str,
) -> [Field<'a>; 9]
    requires next { option_copied next ≡ next_row list.now.page }
    requires behind { behind.now ≡ upload_marker_told list.now.asked.id_marker }
    requires next_behind { IfSome (option_copied next) (λ row. next_behind.now ≡ upload_id_text row.id) }
    ensures { fields_of result ≡ uploads_before list.now.name list.now.asked list.now.page }
{
    [
        Field {
            name: "Bucket",
            value: Leaf::Text(name_told(&list.name)),
        },
        Field {
            name: "KeyMarker",
            value: Leaf::Encodable(text_told(&list.asked.key_marker)),
        },
        Field {
            name: "UploadIdMarker",
            value: Leaf::Text(behind),
        },
        Field {
            name: "NextKeyMarker",
            value: next_leaf(&list.page, next),
        },
        Field {
            name: "Prefix",
            value: Leaf::Encodable(text_told(&list.asked.prefix)),
        },
        Field {
            name: "Delimiter",
            value: delimiter_leaf(&list.asked.delimiter),
        },
        Field {
            name: "NextUploadIdMarker",
            value: id_leaf(next, next_behind),
        },
        Field {
            name: "MaxUploads",
            value: Leaf::Number(list.asked.max_uploads as u64),
        },
        Field {
            name: "IsTruncated",
            value: Leaf::Truth(list.page.is_truncated()),
        },
    ]
}

// And behind the common prefixes, which follow them.
fn fields_behind(list: &UploadsList) -> [Field<'_>; 1]
    ensures { fields_of result ≡ uploads_behind list.now.asked }
{
    [Field {
        name: "EncodingType",
        value: encoding_leaf(list.asked.is_url_encoded),
    }]
}

impl Row for UploadRow {
    ghost told = { upload_fields };

    fn print(&self, printer: &mut Printer) -> Result<(), AllocError> {
        let id = upload_id_told(Some(self.id));
        printer.row(&row_fields(self, text_of(&id)))
    }
}

impl Entry for UploadRow {
    ghost events = { upload_events };

    fn write(&self, writer: &mut Writer, manner: Manner) -> Result<(), AllocError> {
        let id = upload_id_told(Some(self.id));
        put_owned(
            writer,
            manner,
            "Upload",
            &elements_before(self),
            &elements_behind(text_of(&id)),
        )
    }
}

fn elements_before(row: &UploadRow) -> [Field<'_>; 2]
    ensures { fields_of result ≡ begun_before row.now }
{
    [
        Field {
            name: "Initiated",
            value: Leaf::Moment(row.moment),
        },
        Field {
            name: "Key",
            value: Leaf::Encodable(key_told(&row.key)),
        },
    ]
}

fn elements_behind(id: &str) -> [Field<'_>; 2]
    ensures { (row : UploadAs) → id.now ≡ upload_id_text row.id → fields_of result ≡ begun_behind row }
{
    [
        Field {
            name: "StorageClass",
            value: Leaf::Text("STANDARD"),
        },
        Field {
            name: "UploadId",
            value: Leaf::Text(id),
        },
    ]
}

impl Bounded for UploadRow {
    #[tactic(auto, using(crate::proofs::RowLemmas::upload_row_room, crate::proofs::XmlRoomLemmas::upload_events_room))]
    fn room(&self) -> usize {
        room_of_upload(self.key.as_bytes().len())
    }
}

// The room for the row of an upload whose key has so many bytes.
fn room_of_upload(key_len: usize) -> usize
    ensures { IsRoomFor result (6 * key_len + 437) }
{
    room_of_text(key_len).saturating_add(ROW_MAX)
}

fn row_fields<'a>(row: &'a UploadRow, id: &'a str) -> [Field<'a>; 3]
    requires { id.now ≡ upload_id_text row.now.id }
    ensures { fields_of result ≡ upload_fields row.now }
{
    [
        Field {
            name: "Initiated",
            value: Leaf::Moment(row.moment),
        },
        Field {
            name: "Key",
            value: Leaf::Encodable(key_told(&row.key)),
        },
        Field {
            name: "UploadId",
            value: Leaf::Text(id),
        },
    ]
}

// The text of a row's id, if there is one.
fn row_id(row: Option<&UploadRow>) -> ArrayVec<u8, ID_MAX>
    ensures value { IfSome (option_copied row.entry) (λ row. result.items ≡ upload_id_text row.id) }
    ensures utf8 { IsUtf8 result.items }
{
    match row {
        Some(row) => upload_id_told(Some(row.id)),
        None => ArrayVec::new(),
    }
}

// The text behind which the next page goes on: a common prefix, or the key of this row, if there is one.
fn next_leaf<'a>(page: &'a UploadPage, next: Option<&'a UploadRow>) -> Leaf<'a>
    requires { option_copied next ≡ next_row page.now }
    ensures { value_of result ≡ next_key key_of_upload page.now }
{
    match page.next_prefix() {
        Some(prefix) => Leaf::Encodable(text_told(prefix)),
        None => key_leaf(next),
    }
}

fn key_leaf(row: Option<&UploadRow>) -> Leaf<'_>
    ensures { value_of result ≡ option_map key_of_upload (option_copied row.entry) }
{
    match row {
        Some(row) => Leaf::Encodable(key_told(&row.key)),
        None => Leaf::Absent,
    }
}

// The id of a row, whose text this is, if there is one.
fn id_leaf<'a>(row: Option<&'a UploadRow>, text: &'a str) -> Leaf<'a>
    requires { IfSome (option_copied row) (λ row. text.now ≡ upload_id_text row.id) }
    ensures { value_of result ≡ option_map id_of_upload (option_copied row.entry) }
{
    match row {
        Some(_) => Leaf::Text(text),
        None => Leaf::Absent,
    }
}
