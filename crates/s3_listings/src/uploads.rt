//! The list of the uploads in a bucket, page by page.
ghost use Rattle.std.specs.Prelude.{◌≡◌, ◌<◌, take, IfOk, OnErr};
ghost use Rattle.s3_records.specs.OpenUploads.{upload_rows, uploads_from};
ghost use Rattle.s3_records.specs.Leaving.{StaysKnown};
ghost use Rattle.s3_listings.specs.Uploads.{marked, uploads_told};

use crate::sought::{Listed, Wanted, page_asked};
use crate::{UploadPage, UploadsAsked};
use s3_names::{BucketName, Key, UploadId};
use s3_records::{Records, Start, UploadRow, UploadStart, uploads_are_listed};
use s3_terms::NoMemory;
use std::alloc::Global;

impl Listed for UploadRow {
    type Name = UploadId;

    ghost key = { λ row. row.key };

    ghost all = { λ c name. upload_rows c name };

    ghost behind = { λ c name key id. uploads_from c name (marked key id) };

    fn key(&self) -> &Key {
        &self.key
    }

    fn into_key(self) -> Key {
        self.key
    }

    fn rows_from<R: Records>(
        records: &mut R,
        alloc: Global,
        bucket: &BucketName,
        start: Start,
        most: usize,
    ) -> Result<Vec<UploadRow>, NoMemory> {
        records.uploads_from(alloc, bucket, &UploadStart::At(start), most)
    }

    fn rows_behind<R: Records>(
        records: &mut R,
        alloc: Global,
        bucket: &BucketName,
        marker: Key,
        id: Option<UploadId>,
        most: usize,
    ) -> Result<Vec<UploadRow>, NoMemory>
        ensures value { IfOk result (λ rows. rows.items ≡ take most (uploads_from (R.catalogue records.old) bucket.now (marked marker id))) }
        ensures same { R.catalogue records.new ≡ R.catalogue records.old }
        ensures stays { StaysKnown R.leaves_one_of records.old records.new }
    {
        records.uploads_from(alloc, bucket, &marked(marker, id), most)
    }

    fn stand_by_key() {
        // Contracts see the bytes of an object as they see a key, as a list.
        uploads_are_listed::<Key>();
    }
}

// Where the list goes on: behind a key, or behind an upload of it.
fn marked(key: Key, id: Option<UploadId>) -> UploadStart
    ensures { result ≡ marked key id }
{
    match id {
        None => UploadStart::At(Start::Behind(key)),
        Some(id) => UploadStart::BehindUpload(key, id),
    }
}

/// The page of the uploads in a bucket that is asked for, which is there or not. Costs as many uploads as the page may
/// have, also where fewer begin with the prefix, and, to find the first, the logarithm of how many there are. `NoMemory`
/// comes only where the page may have an upload.
#[tactic(auto, unfolding(crate::specs::Uploads::uploads_told))]
pub fn list_uploads<R: Records>(
    records: &mut R,
    alloc: Global,
    bucket: &BucketName,
    asked: &UploadsAsked,
) -> Result<UploadPage, NoMemory>
    ensures value { IfOk result (λ page. page ≡ uploads_told asked.now (R.catalogue records.old) bucket.now) }
    ensures same { R.catalogue records.new ≡ R.catalogue records.old }
    ensures memory { OnErr result (0 < asked.now.max_uploads) }
    ensures stays { StaysKnown R.leaves_one_of records.old records.new }
{
    let wanted = Wanted {
        prefix: asked.prefix.as_bytes(),
        marker: asked.key_marker.as_bytes(),
        id: asked.id_marker,
    };
    page_asked(
        records,
        alloc,
        bucket,
        &wanted,
        &asked.prefix,
        &asked.delimiter,
        asked.max_uploads,
    )
}
