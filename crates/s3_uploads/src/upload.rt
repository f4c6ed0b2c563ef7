//! An upload.
ghost use Rattle.std.specs.Prelude.{◌≡◌, ◌≢◌, [], None, IfOk, OnOk, OnErr, take};
ghost use Rattle.s3_uploads.specs.Parts.{part_at, rows_behind};
ghost use Rattle.s3_uploads.specs.Uploads.{with_part};

use crate::{Part, PartRow, Parts};
use s3_calendar::Moment;
use s3_names::PartNumber;
use s3_terms::NoMemory;
use s3_versions::{ContentType, Metadata};
use std::alloc::Global;

/// An upload that was begun and isn't completed. `B` is what stands for the bytes of a part.
#[derive(Drop)]
pub struct Upload<B> {
    /// When it was begun.
    pub moment: Moment,
    /// What the version gets that its completion stores.
    pub content_type: ContentType,
    pub metadata: Metadata,
    /// The parts that were sent.
    pub parts: Parts<B>,
}

impl<B: Drop> Upload<B> {
    /// An upload that begins, without parts. It takes no memory.
    pub fn new(
        alloc: Global,
        moment: Moment,
        content_type: ContentType,
        metadata: Metadata,
    ) -> Upload<B>
        ensures { result ≡ record { moment = moment; content_type = content_type; metadata = metadata; parts = [] } }
    {
        Upload {
            moment,
            content_type,
            metadata,
            parts: Parts::new(alloc),
        }
    }

    /// Puts a part under its number, and answers the one that it replaces. `NoMemory` leaves the upload as it was, and the
    /// new part is dropped; it comes only where there was none of this number, so that one more has to be held.
    pub fn put_part(
        &mut self,
        number: PartNumber,
        part: Part<B>,
    ) -> Result<Option<Part<B>>, NoMemory>
        ensures ok { OnOk result (self.new ≡ with_part number part self.old) }
        ensures former { IfOk result (λ former. former ≡ part_at number self.old.parts) }
        ensures err { OnErr result (self.new ≡ self.old) }
        ensures memory { OnErr result (part_at number self.old.parts ≡ None) }
    {
        self.parts.put(number, part)
    }

    /// The rows of the parts whose numbers are above this one, at most so many.
    pub fn parts_behind(
        &self,
        alloc: Global,
        last: u64,
        most: usize,
    ) -> Result<Vec<PartRow>, NoMemory>
        ensures value { IfOk result (λ rows. rows.items ≡ take most (rows_behind last self.now.parts)) }
        ensures memory { OnErr result (take most (rows_behind last self.now.parts) ≢ []) }
    {
        self.parts.rows_behind(alloc, last, most)
    }
}
