//! The store that the connections of a replay begin with.

ghost use Rattle.std.specs.Prelude.{◌≡◌, IfErr, IfOk};
ghost use Rattle.s3_records.specs.Catalogue.{opening};
ghost use Rattle.s3_store.specs.Steps.{opened};
ghost use Rattle.s3_cli.specs.Reading.{IsOpeningFault};
ghost use Rattle.s3_cli.specs.Run.{IsFound};

use s3_bodies::Body;
use s3_config::Config;
use s3_keepers::{FolderKeeper, Keeper, Opened};
use s3_records::numbers_stay_below;
use s3_settings::Fault;
use s3_storage::StorageFault;
use s3_store::Store;
use s3_terms::NoMemory;
use std::alloc::Global;

/// A store with the opening buckets, over the records that a keeper makes.
pub fn opened_store<Q: Keeper>(
    alloc: Global,
    keeper: &Q,
    config: &Config,
) -> Result<Store<Q::Kept>, NoMemory>
    ensures { IfOk result (λ store. store.standing ≡ opened (opening config.now.buckets)) }
{
    numbers_stay_below::<Body>();
    let records = keeper.keep(alloc, config.buckets())?;
    Ok(Store::over(records, 0))
}

/// A store over the records that the folder at a path keeps, where the opening buckets are made that aren't there.
///
/// # Errors
///
/// `CannotUse` with the reason for which the folder can't be used, and `OutOfMemory`.
#[tactic(auto, using(crate::proofs::BaseLemmas::basing))]
pub fn found_store<'a, G: FolderKeeper>(
    alloc: Global,
    folders: &mut G,
    path: &'a str,
    config: &Config,
) -> Result<Store<G::Kept>, Fault<'a>>
    ensures found { IfOk result (λ store. IsFound config.now store.standing) }
    ensures refused { IfErr result (IsOpeningFault path.entry) }
{
    match folders.open(alloc, path, config.buckets()) {
        Ok(opened) => {
            let Opened {
                records,
                number,
                ..
            } = opened;
            Ok(Store::over(records, number))
        }
        Err(StorageFault::NoMemory) => Err(Fault::OutOfMemory),
        Err(fault) => Err(Fault::CannotUse(path, fault)),
    }
}
