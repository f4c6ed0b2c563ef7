//! What is told of a connection that has left its worker.

use crate::state::Departure;
use s3_calendar::Moment;
use s3_devices::Device;
use s3_history::{Describes, Recorder};
use s3_journal::Report;
use std::marker::{Model, PhantomData};

/// What is told of a connection that has left its worker: what its stream gave and took, the moments of its messages,
/// and how it has left. No value of it is made: a history consists of them, which stands in the proofs alone.
pub struct Account;

impl Model for Account {
    ghost use Rattle.s3_driver.specs.Account as rules;
    ghost use Rattle.s3_driver.specs.Account.{turned_away};

    ghost Value = { rules.Account };

    ghost view = { λ account. turned_away 0 };
}

/// What it wrote is the output for what came, for these moments and for the entries of its seat, and tells those alone that were
/// committed.
impl Report for Account {
    ghost use Rattle.s3_driver.specs.Account.{Fits};

    ghost fits = { λ base account entries committed. Fits base.settings account entries committed };
}

// What an account is told of.
#[derive(Drop)]
pub(crate) struct Telling<'a, S> {
    pub(crate) stream: &'a S,
    pub(crate) moments: &'a Recorder<Moment>,
    pub(crate) departure: Departure,
}

// The account that tells so.
pub(crate) struct AsAccount<S>(PhantomData<S>);

impl<'a, S: Device> Describes<Telling<'a, S>, Account> for AsAccount<S> {
    ghost entry = { λ told. record { traffic = S.traffic told.stream.now; moments = told.moments.now.entries; departure = told.departure } };
}

// The account of one that was turned away, by its stream.
pub(crate) struct AsTurnedAway<S>(PhantomData<S>);

impl<S: Device> Describes<S, Account> for AsTurnedAway<S> {
    ghost use Rattle.std.specs.Prelude.{[]};
    ghost use Rattle.s3_driver.specs.declared.state.Departure.TheVariants as departures;

    ghost entry = { λ stream. record { traffic = S.traffic stream; moments = []; departure = departures.TurnedAway } };
}
