//! What a shared store stands on, and what it is opened with.

ghost use Rattle.std.specs.Prelude.{◌≡◌, ◌*◌, [], IfOk};
ghost use Rattle.s3_machine.specs.Rules.{rules_of};
ghost use Rattle.s3_journal.specs.SharedStore.{Continues, seats_each};

use crate::recorded_store::RecordedStore;
use s3_config::Config;
use s3_machine::Rules;
use s3_records::Records;
use s3_store::Store;
use s3_terms::NoMemory;
use std::alloc::Global;
use std::marker::{Brand, Model};
use std::snapshot::Snapshot;
use std::sync::ledger::{self, Blank, Ledger, Share};

/// How many parts of the ledger each roster has, and how many numbers.
pub(crate) const SEATS: u64 = 1 << 40;

/// The brand of a shared store, which tells it from all others: what it stands on, and, as a ledger, how many parts its rosters
/// have. What uses a shared store is generic in the brand, and its caller passes `Brand` of `std::marker` for it.
pub trait Ground: Ledger {
    ghost use Rattle.s3_journal.specs.SharedStore.{Base};

    ghost base: { Base };
}

impl Ground for Brand {
    ghost use Rattle.s3_journal.specs.SharedStore.{no_base};

    ghost base = { no_base };
}

/// What a shared store is opened with: a new recorded store, the settings, and a ledger that no shared store has yet. One shared
/// store uses it up, and it can't be copied, so no two shared stores have one ledger.
#[derive(Drop)]
pub struct Start<R: Records + Drop> {
    recorded_store: RecordedStore<R>,
    blank: Blank,
    settings: Snapshot<Config>,
    rosters: u16,
}

impl<R: Records + Drop> Model for Start<R> {
    ghost use Rattle.std.specs.Prelude.{◌≡◌, ◌*◌, []};
    ghost use Rattle.std.specs.Coded.{codes};
    ghost use Rattle.s3_store.specs.Steps.{coded_standing};
    ghost use Rattle.s3_machine.specs.Rules.{rules_of};
    ghost use Rattle.s3_journal.specs.SharedStore.{Opening, seats_each};

    ghost Value = { Opening };

    ghost coded = { Prim.hlevel (codes, coded_standing) };

    ghost view = { λ s. record { name = s.blank.name; base = record { origin = s.recorded_store.origin; settings = s.settings.value; store = s.recorded_store.opening }; rosters = s.rosters } };

    ghost invariant = { λ s. (s.blank.parts ≡ s.rosters * seats_each) × (s.recorded_store.entries ≡ []) × (s.recorded_store.rules ≡ rules_of s.settings.value) };
}

impl<R: Records + Drop> Start<R> {
    /// What a shared store over this store is opened with, with these settings. It will have so many rosters, one for each
    /// worker; nobody comes to a shared store that has none.
    ///
    /// # Errors
    ///
    /// `NoMemory` never comes, though no contract can say so.
    pub fn new(
        alloc: Global,
        config: &Config,
        store: Store<R>,
        rosters: u16,
    ) -> Result<Start<R>, NoMemory>
        ensures settings { IfOk result (λ start. start.base.settings ≡ config.now) }
        ensures store { IfOk result (λ start. start.base.store ≡ store.standing) }
        ensures rosters { IfOk result (λ start. start.rosters ≡ rosters) }
    {
        let rules = Rules::of(config);
        let recorded_store = RecordedStore::new(alloc, rules, store)?;
        Ok(Start {
            recorded_store,
            blank: Blank::new(u64::from(rosters) * SEATS),
            settings: Snapshot::of(config),
            rosters,
        })
    }

    /// The same over a recorded store that was folded and answered nothing since, with the settings whose rules it goes by: the
    /// history goes on where the one before the fold ended. It takes no memory.
    pub fn again(config: &Config, recorded_store: RecordedStore<R>, rosters: u16) -> Start<R>
        requires folded { recorded_store.entries ≡ [] }
        requires rules { recorded_store.rules ≡ rules_of config.now }
        ensures settings { result.base.settings ≡ config.now }
        ensures store { result.base.store ≡ recorded_store.opening }
        ensures rosters { result.rosters ≡ rosters }
    {
        Start {
            recorded_store,
            blank: Blank::new(u64::from(rosters) * SEATS),
            settings: Snapshot::of(config),
            rosters,
        }
    }

    // The recorded store, the ledger that counts its entries, with all its shares, and how many rosters there will be.
    pub(crate) fn into_parts<J: Ground>(self) -> (RecordedStore<R>, ledger::Book<J>, Share<J>, u16)
        requires name { J.name ≡ self.name }
        requires base { J.base ≡ self.base }
        requires parts { J.parts ≡ self.rosters * seats_each }
        ensures recorded_store { Continues J.base result.0 × (result.0.entries ≡ []) }
        ensures total { result.1.total ≡ 0 }
        ensures shares { (result.2.parts ≡ J.parts) × (result.2.amount ≡ 0) }
        ensures rosters { result.3 ≡ self.rosters }
    {
        let Start {
            recorded_store,
            blank,
            settings: _,
            rosters,
        } = self;
        let (calls, shares) = blank.open::<J>();
        (recorded_store, calls, shares, rosters)
    }
}
