//! The list of an upload's parts, page by page.
ghost use Rattle.std.specs.Prelude.{◌≡◌, ◌<◌, IfOk, OnErr};
ghost use Rattle.s3_records.specs.OpenUploads.{parts_at};
ghost use Rattle.s3_records.specs.Leaving.{StaysKnown};
ghost use Rattle.s3_listings.specs.Parts.{parts_page};

use crate::{ListPage, PartPage, PartsAsked};
use s3_names::{BucketName, Key, UploadId};
use s3_records::Records;
use s3_terms::NoMemory;
use std::alloc::Global;

/// The page of an upload's parts that is asked for; an upload that isn't there has none. Costs as many parts as the page
/// has, and, to find the first, the logarithm of how many there are. `NoMemory` comes only where the page may have a part.
#[tactic(auto, unfolding(crate::specs::Parts::parts_page))]
pub fn list_parts<R: Records>(
    records: &mut R,
    alloc: Global,
    bucket: &BucketName,
    key: &Key,
    id: UploadId,
    asked: &PartsAsked,
) -> Result<PartPage, NoMemory>
    ensures value { IfOk result (λ page. page ≡ parts_page asked.now (parts_at (R.catalogue records.old) bucket.now key.now id)) }
    ensures same { R.catalogue records.new ≡ R.catalogue records.old }
    ensures memory { OnErr result (0 < asked.now.max_parts) }
    ensures stays { StaysKnown R.leaves_one_of records.old records.new }
{
    let most = asked.max_parts as usize;
    if most == 0 {
        return Ok(ListPage::empty(alloc));
    }
    let rows = records.parts_from(alloc, bucket, key, id, asked.marker, most + 1)?;
    Ok(ListPage::of(rows, most))
}
