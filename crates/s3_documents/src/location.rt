//! The region of a bucket, as a document.
ghost use Rattle.std.specs.Prelude.{◌≡◌};
ghost use Rattle.s3_documents.specs.Document.{location};
ghost use Rattle.s3_documents.specs.Location.{constraint_told, location_fields};
ghost use Rattle.s3_documents.specs.Printed.{fields_of};

use crate::printer::{Field, Leaf, Printer};
use crate::reserved::Told;
use crate::room::room_of_fields;
use crate::texts::text_told;
use s3_prefixes::Text;
use s3_xml::Writer;
use std::alloc::AllocError;

/// The document of a GetBucketLocation, for later: the region.
#[derive(Drop)]
pub(crate) struct BucketLocation {
    pub region: Text,
}

impl Told for BucketLocation {
    ghost document = { λ told. location told.region };

    fn print(&self, printer: &mut Printer) -> Result<(), AllocError> {
        printer.fields(&fields_told(&self.region))
    }

    fn root(&self) -> &'static str {
        "LocationConstraint"
    }

    fn write(&self, writer: &mut Writer) -> Result<(), AllocError> {
        writer.text(constraint(&self.region).as_bytes())
    }

    #[tactic(auto, using(crate::proofs::RoomLemmas::leaves_room))]
    fn room(&self) -> usize {
        room_of_fields(&fields_told(&self.region))
    }
}

fn fields_told(region: &Text) -> [Field<'_>; 1]
    ensures { fields_of result ≡ location_fields region.now }
{
    [Field {
        name: "LocationConstraint",
        value: Leaf::Text(constraint(region)),
    }]
}

// The constraint that buckets of a region have.
fn constraint(region: &Text) -> &str
    ensures { result.now ≡ constraint_told region.now }
{
    if region.as_bytes() == b"us-east-1".as_slice() {
        return "";
    }
    text_told(region)
}
