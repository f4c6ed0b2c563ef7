//! What the shared store of a round is opened with.

ghost use Rattle.std.specs.Prelude.{◌≡◌, IfOk};
ghost use Rattle.s3_machine.specs.Rules.{rules_of};

use s3_config::Config;
use s3_journal::{RecordedStore, Start};
use s3_records::Records;
use s3_store::Store;
use s3_terms::NoMemory;
use std::alloc::Global;

/// That of the first round, over this store, with so many workers.
pub(crate) fn start<K: Records + Drop>(
    alloc: Global,
    config: &Config,
    store: Store<K>,
    workers: u64,
) -> Result<Start<K>, NoMemory>
    ensures settings { IfOk result (λ start. start.base.settings ≡ config.now) }
    ensures store { IfOk result (λ start. start.base.store ≡ store.standing) }
{
    Start::new(alloc, config, store, rosters(workers))
}

/// That of the round after the one which left this store. Its history is folded.
pub(crate) fn folded<K: Records + Drop>(
    config: &Config,
    left: RecordedStore<K>,
    workers: u64,
) -> Result<Start<K>, NoMemory>
    requires rules { left.rules ≡ rules_of config.now }
    ensures settings { IfOk result (λ start. start.base.settings ≡ config.now) }
    ensures store { IfOk result (λ start. start.base.store ≡ left.store) }
{
    let mut left = left;
    match left.fold() {
        Ok(()) => Ok(Start::again(config, left, rosters(workers))),
        Err(none) => {
            drop(left);
            Err(none)
        }
    }
}

// How many rosters a shared store has for so many workers.
fn rosters(workers: u64) -> u16 {
    u16::try_from(workers).unwrap_or(u16::MAX)
}
