//! The list of an upload's parts, as a document.
ghost use Rattle.std.specs.Prelude.{◌≡◌, ℕ, option_map};
ghost use Rattle.std.specs.Option.{option_copied};
ghost use Rattle.s3_listings.specs.Pages.{next_of};
ghost use Rattle.s3_names.specs.Ids.{upload_id_text};
ghost use Rattle.s3_documents.specs.Copied.{tag_told};
ghost use Rattle.s3_documents.specs.Document.{parts};
ghost use Rattle.s3_documents.specs.PartList.{part_fields, number_of_part, parts_fields, upload_named};
ghost use Rattle.s3_documents.specs.Xml.{part_events, parts_before, parts_behind};
ghost use Rattle.s3_documents.specs.Printed.{fields_of, value_of};

use crate::list::{print_list, room_of_list};
use crate::printer::{Field, Leaf, Printer, Row, text_of};
use crate::reserved::Told;
use crate::room::{Bounded, known_of};
use crate::texts::{key_told, name_told, quoted, upload_id_told};
use crate::xml::{Entry, Manner, PLAIN, put_element, put_list_owned, room_of_listed_owned};
use s3_listings::{PartPage, PartsAsked};
use s3_names::{BucketName, Key, UploadId};
use s3_uploads::PartRow;
use s3_xml::Writer;
use std::alloc::AllocError;

/// No row takes more room.
const ROW_MAX: usize = 717;

/// The document of a ListParts, for later: what was asked, and the page that is told, of the upload of this id.
#[derive(Drop)]
pub(crate) struct PartsList {
    pub name: BucketName,
    pub key: Key,
    pub id: UploadId,
    pub asked: PartsAsked,
    pub page: PartPage,
}

impl Told for PartsList {
    ghost document = { λ list. parts list.name list.key list.id list.asked list.page };

    fn print(&self, printer: &mut Printer) -> Result<(), AllocError> {
        let id = upload_id_told(Some(self.id));
        let before = fields_told(self);
        let behind = id_fields(text_of(&id));
        print_list(printer, &before, "Parts", self.page.rows(), &behind)
    }

    fn root(&self) -> &'static str {
        "ListPartsResult"
    }

    fn write(&self, writer: &mut Writer) -> Result<(), AllocError> {
        let id = upload_id_told(Some(self.id));
        let before = fields_before(self, text_of(&id));
        put_list_owned(writer, PLAIN, &before, self.page.rows(), &class_fields())
    }

    fn room(&self) -> usize {
        let id = upload_id_told(Some(self.id));
        let before = fields_told(self);
        let behind = id_fields(text_of(&id));
        let json = room_of_list(&before, "Parts", self.page.rows(), &behind);
        let before = fields_before(self, text_of(&id));
        json.max(room_of_listed_owned(&before, self.page.rows(), &class_fields()))
    }
}

// What stands in front of the rows.
fn fields_told(list: &PartsList) -> [Field<'_>; 6]
    ensures { fields_of result ≡ parts_fields list.now.name list.now.key list.now.asked list.now.page }
{
    [
        Field {
            name: "Bucket",
            value: Leaf::Text(name_told(&list.name)),
        },
        Field {
            name: "IsTruncated",
            value: Leaf::Truth(list.page.is_truncated()),
        },
        Field {
            name: "Key",
            value: Leaf::Text(key_told(&list.key)),
        },
        Field {
            name: "MaxParts",
            value: Leaf::Number(list.asked.max_parts as u64),
        },
        Field {
            name: "NextPartNumberMarker",
            value: number_leaf(list.page.next()),
        },
        Field {
            name: "PartNumberMarker",
            value: Leaf::Number(list.asked.marker),
        },
    ]
}

// What stands behind them: the upload's id, whose text this is.
fn id_fields(id: &str) -> [Field<'_>; 1]
    ensures { (number : ℕ) → id.now ≡ upload_id_text number → fields_of result ≡ upload_named number }
{
    [Field {
        name: "UploadId",
        value: Leaf::Text(id),
    }]
}

// What stands in front of the rows in XML; this is the text of the upload's id.
fn fields_before<'a>(list: &'a PartsList, id: &'a str) -> [Field<'a>; 7]
    requires { id.now ≡ upload_id_text list.now.id }
    ensures { fields_of result ≡ parts_before list.now.name list.now.key list.now.id list.now.asked list.now.page }
{
    [
        Field {
            name: "Bucket",
            value: Leaf::Text(name_told(&list.name)),
        },
        Field {
            name: "Key",
            value: Leaf::Text(key_told(&list.key)),
        },
        Field {
            name: "UploadId",
            value: Leaf::Text(id),
        },
        Field {
            name: "PartNumberMarker",
            value: Leaf::Number(list.asked.marker),
        },
        Field {
            name: "NextPartNumberMarker",
            value: number_leaf(list.page.next()),
        },
        Field {
            name: "MaxParts",
            value: Leaf::Number(list.asked.max_parts as u64),
        },
        Field {
            name: "IsTruncated",
            value: Leaf::Truth(list.page.is_truncated()),
        },
    ]
}

// And behind them and the owner.
fn class_fields() -> [Field<'static>; 1]
    ensures { fields_of result ≡ parts_behind }
{
    [Field {
        name: "StorageClass",
        value: Leaf::Text("STANDARD"),
    }]
}

impl Row for PartRow {
    ghost told = { part_fields };

    fn print(&self, printer: &mut Printer) -> Result<(), AllocError> {
        let tag = quoted(&self.tag);
        printer.row(&row_fields(self, text_of(tag.as_slice())))
    }
}

impl Entry for PartRow {
    ghost events = { part_events };

    fn write(&self, writer: &mut Writer, manner: Manner) -> Result<(), AllocError> {
        let tag = quoted(&self.tag);
        put_element(
            writer,
            manner,
            "Part",
            &row_fields(self, text_of(tag.as_slice())),
        )
    }
}

impl Bounded for PartRow {
    #[tactic(auto, using(crate::proofs::RowLemmas::part_row_room, crate::proofs::XmlRoomLemmas::part_events_room))]
    fn room(&self) -> usize {
        known_of(&self.tag, self.size);
        let _fits = self.number;
        ROW_MAX
    }
}

fn row_fields<'a>(row: &'a PartRow, tag: &'a str) -> [Field<'a>; 4]
    requires { tag.now ≡ tag_told row.now.tag }
    ensures { fields_of result ≡ part_fields row.now }
{
    [
        Field {
            name: "ETag",
            value: Leaf::Text(tag),
        },
        Field {
            name: "LastModified",
            value: Leaf::Moment(row.moment),
        },
        Field {
            name: "PartNumber",
            value: Leaf::Number(row.number),
        },
        Field {
            name: "Size",
            value: Leaf::Number(row.size),
        },
    ]
}

fn number_leaf(row: Option<&PartRow>) -> Leaf<'_>
    ensures { value_of result ≡ option_map number_of_part (option_copied row.entry) }
{
    match row {
        Some(row) => Leaf::Number(row.number),
        None => Leaf::Absent,
    }
}
