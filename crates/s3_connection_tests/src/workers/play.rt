//! Players who put and get, each with a seat at a shared store.
use crate::workers::asked::{is_body, turn};
use s3_journal::{Ground, Seat, SharedStore};
use s3_machine::Outcome;
use s3_records::MapRecords;
use std::alloc::Global;
use std::mem::drop;
use std::sync::Wait;

/// How many play.
pub(crate) const PLAYERS: u16 = 8;

// How often each puts and gets.
const ROUNDS: u64 = 100;

// The key of a player.
fn key_of(player: u64) -> [u8; 1] {
    [b'a'.wrapping_add(player.to_le_bytes()[0])]
}

// What a player puts in a round.
fn bytes_of(player: u64, round: u64) -> [u8; 16] {
    (u128::from(player) + u128::from(round) * 256).to_le_bytes()
}

// Whether something was stored where these bytes were put, or they were found.
fn is_outcome(alloc: Global, outcome: &Outcome, put: Option<&[u8]>, bytes: &[u8]) -> bool {
    match outcome {
        Outcome::Put { .. } => put.is_some(),
        Outcome::Got { found, .. } => put.is_none() && is_body(alloc, &found.stored.body, bytes),
        _ => false,
    }
}

// Whether these bytes are stored under the key of a player, or are found there where nothing is put.
fn has<J: Ground>(
    rt: &impl Wait,
    alloc: Global,
    store: &SharedStore<J, MapRecords>,
    seat: &mut Seat<J>,
    whose: u64,
    put: Option<&[u8]>,
    bytes: &[u8],
) -> bool {
    match turn(alloc, &key_of(whose), put, false) {
        Some(turn) => match store.submit(rt, seat, turn) {
            Ok(answer) => {
                let is_wanted = is_outcome(alloc, &answer.outcome, put, bytes);
                drop(answer);
                is_wanted
            }
            Err(_) => false,
        },
        None => false,
    }
}

/// Whether the player of this number reads back what it puts under its own key, in each of its rounds.
pub(crate) fn plays<J: Ground>(
    rt: &impl Wait,
    alloc: Global,
    store: &SharedStore<J, MapRecords>,
    seat: &mut Seat<J>,
    own: u64,
) -> bool {
    for round in 0..ROUNDS {
        let bytes = bytes_of(own, round);
        if !has(rt, alloc, store, seat, own, Some(&bytes), &bytes)
            || !has(rt, alloc, store, seat, own, None, &bytes)
        {
            return false;
        }
    }
    true
}

/// Whether a seat finds the last put of all players but the first.
pub(crate) fn finds_others<J: Ground>(
    rt: &impl Wait,
    alloc: Global,
    store: &SharedStore<J, MapRecords>,
    seat: &mut Seat<J>,
) -> bool {
    for other in 1..u64::from(PLAYERS) {
        let bytes = bytes_of(other, ROUNDS - 1);
        if !has(rt, alloc, store, seat, other, None, &bytes) {
            return false;
        }
    }
    true
}
