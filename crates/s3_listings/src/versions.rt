//! The list of a bucket's versions, page by page.
ghost use Rattle.std.specs.Prelude.{◌≡◌, ◌<◌, take, IfOk, OnErr};
ghost use Rattle.s3_records.specs.Rows.{version_rows, versions_from};
ghost use Rattle.s3_records.specs.Leaving.{StaysKnown};
ghost use Rattle.s3_listings.specs.Versions.{marked, versions_told};

use crate::sought::{Listed, Wanted, page_asked};
use crate::{VersionPage, VersionsAsked};
use s3_names::{BucketName, Key, VersionId};
use s3_records::{Records, Start, VersionRow, VersionStart};
use s3_terms::NoMemory;
use std::alloc::Global;

impl Listed for VersionRow {
    type Name = VersionId;

    ghost key = { λ row. row.key };

    ghost all = { λ c name. version_rows c name };

    ghost behind = { λ c name key id. versions_from c name (marked key id) };

    fn key(&self) -> &Key {
        &self.key
    }

    fn into_key(self) -> Key {
        self.key
    }

    fn rows_from<R: Records>(
        records: &mut R,
        alloc: Global,
        bucket: &BucketName,
        start: Start,
        most: usize,
    ) -> Result<Vec<VersionRow>, NoMemory> {
        records.versions_from(alloc, bucket, &VersionStart::At(start), most)
    }

    fn rows_behind<R: Records>(
        records: &mut R,
        alloc: Global,
        bucket: &BucketName,
        marker: Key,
        id: Option<VersionId>,
        most: usize,
    ) -> Result<Vec<VersionRow>, NoMemory>
        ensures value { IfOk result (λ rows. rows.items ≡ take most (versions_from (R.catalogue records.old) bucket.now (marked marker id))) }
        ensures same { R.catalogue records.new ≡ R.catalogue records.old }
        ensures stays { StaysKnown R.leaves_one_of records.old records.new }
    {
        records.versions_from(alloc, bucket, &marked(marker, id), most)
    }

    fn stand_by_key() {}
}

// Where the list goes on: behind a key, or behind the version of an id under it.
fn marked(key: Key, id: Option<VersionId>) -> VersionStart
    ensures { result ≡ marked key id }
{
    match id {
        None => VersionStart::At(Start::Behind(key)),
        Some(id) => VersionStart::BehindVersion(key, id),
    }
}

/// The page of a bucket's versions that is asked for, whose bucket is there or not. Costs as many versions as the page
/// may have, also where fewer begin with the prefix, and, to find the first, the logarithm of how many keys the bucket
/// has. `NoMemory` comes only where the page may have a version.
#[tactic(auto, unfolding(crate::specs::Versions::versions_told))]
pub fn list_versions<R: Records>(
    records: &mut R,
    alloc: Global,
    bucket: &BucketName,
    asked: &VersionsAsked,
) -> Result<VersionPage, NoMemory>
    ensures value { IfOk result (λ page. page ≡ versions_told asked.now (R.catalogue records.old) bucket.now) }
    ensures same { R.catalogue records.new ≡ R.catalogue records.old }
    ensures memory { OnErr result (0 < asked.now.max_keys) }
    ensures stays { StaysKnown R.leaves_one_of records.old records.new }
{
    let wanted = Wanted {
        prefix: asked.prefix.as_bytes(),
        marker: asked.key_marker.as_bytes(),
        id: asked.id_marker,
    };
    page_asked(
        records,
        alloc,
        bucket,
        &wanted,
        &asked.prefix,
        &asked.delimiter,
        asked.max_keys,
    )
}
