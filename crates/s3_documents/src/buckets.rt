//! The list of buckets, as a document.
ghost use Rattle.std.specs.Prelude.{◌≡◌, ◌+◌, ◌*◌, length};
ghost use Rattle.s3_documents.specs.Buckets.{bucket_row};
ghost use Rattle.s3_documents.specs.Document.{buckets};
ghost use Rattle.s3_documents.specs.Printed.{fields_of, IsRoomFor};
ghost use Rattle.s3_documents.specs.Xml.{bucket_events};

use crate::printer::{Field, Leaf, Printer, Row};
use crate::reserved::Told;
use crate::room::{Bounded, room_of_rows, room_of_text};
use crate::texts::name_told;
use crate::xml::{Entry, Manner, PLAIN, put_element, put_owner, put_within, room_within};
use s3_records::ListedBucket;
use s3_xml::Writer;
use std::alloc::AllocError;

/// No row takes more room, beside that for its name.
const ROW_MAX: usize = 199;

/// The document of a ListBuckets, for later: the rows in their order.
#[derive(Drop)]
pub(crate) struct BucketsList {
    pub rows: Vec<ListedBucket>,
}

impl Told for BucketsList {
    ghost document = { λ list. buckets list.rows.items };

    fn print(&self, printer: &mut Printer) -> Result<(), AllocError> {
        printer.rows("Buckets", self.rows.as_slice())
    }

    fn root(&self) -> &'static str {
        "ListAllMyBucketsResult"
    }

    fn write(&self, writer: &mut Writer) -> Result<(), AllocError> {
        put_within(writer, PLAIN, "Buckets", self.rows.as_slice())?;
        put_owner(writer)
    }

    fn room(&self) -> usize {
        let rows = self.rows.as_slice();
        room_of_rows("Buckets", rows).max(room_within("Buckets", rows))
    }
}

impl Row for ListedBucket {
    ghost told = { bucket_row };

    fn print(&self, printer: &mut Printer) -> Result<(), AllocError> {
        printer.row(&row_of(self))
    }
}

impl Entry for ListedBucket {
    ghost events = { bucket_events };

    fn write(&self, writer: &mut Writer, manner: Manner) -> Result<(), AllocError> {
        put_element(writer, manner, "Bucket", &row_of(self))
    }
}

impl Bounded for ListedBucket {
    #[tactic(auto, using(crate::proofs::RowLemmas::bucket_row_room, crate::proofs::XmlRoomLemmas::bucket_events_room))]
    fn room(&self) -> usize {
        room_of_bucket(self.name.as_bytes().len())
    }
}

// The room for the row of a bucket with a name of so many bytes.
fn room_of_bucket(name_len: usize) -> usize
    ensures { IsRoomFor result (6 * name_len + 203) }
{
    room_of_text(name_len).saturating_add(ROW_MAX)
}

fn row_of(bucket: &ListedBucket) -> [Field<'_>; 2]
    ensures { fields_of result ≡ bucket_row bucket.now }
{
    [
        Field {
            name: "CreationDate",
            value: Leaf::Moment(bucket.made),
        },
        Field {
            name: "Name",
            value: Leaf::Text(name_told(&bucket.name)),
        },
    ]
}
