//! A connection over a store of its own, whose bytes come in one piece.

ghost use Rattle.std.specs.Prelude.{◌≡◌, ◌≢◌, ◌⊎◌, ℕ, true, false, [], IfOk, OnErr};
ghost use Rattle.s3_config.specs.Settings.{Settings};
ghost use Rattle.s3_http_heads.specs.Find.{found_in};
ghost use Rattle.s3_session.specs.Decision.{Judges, open_yet};
ghost use Rattle.s3_session.specs.Replay.{Replays};
ghost use Rattle.s3_store.specs.Steps.{Standing as Base};
ghost use Rattle.s3_simulation.specs.Replaying.{HasTaken, ReplaysFrom};

use crate::laws::opened_replays_are_replays;
use crate::replay::Replay;
use s3_calendar::Moment;
use s3_config::Config;
use s3_http_heads::{Found, find_head};
use s3_records::Records;
use s3_session::heads_decide;
use s3_store::Store;
use s3_terms::NoMemory;
use std::alloc::Global;
use std::mem::drop;

/// Replays one connection, whose bytes come in one piece and then end, over a store with the opening
/// buckets: every message has this moment, and every command its turn at once. The result is all that
/// the connection writes. Where the bytes have neither a head text nor too many bytes without one, that is nothing, and
/// no store is opened.
///
/// The cost is that of `Replay::feed` over all bytes, and a copy of the output.
///
/// # Errors
///
/// `NoMemory` says that there was no memory for the opening buckets, for the connection or for the output: it comes only
/// where there are bytes, and either a bucket to be opened or something to be written.
pub fn replay_one(
    alloc: Global,
    config: &Config,
    bytes: &[u8],
    moment: Moment,
) -> Result<Vec<u8>, NoMemory>
    ensures output { IfOk result (λ out. Replays config.now moment bytes.now out.items) }
    ensures asked { OnErr result (bytes.now ≢ []) }
    ensures memory { OnErr result ((config.now.buckets ≢ [])
        ⊎ ¬ (Judges config.now moment true bytes.now open_yet)) }
{
    heads_decide();
    if !has_front(bytes) {
        return Ok(Vec::new(alloc));
    }
    replayed(alloc, config, bytes, moment)
}

// Whether the bytes have a head text, or too many bytes without one.
fn has_front(bytes: &[u8]) -> bool
    ensures found { result ≡ true → found_in bytes.now ≢ Found.NeedMore }
    ensures nothing { result ≡ false → found_in bytes.now ≡ Found.NeedMore }
{
    match find_head(bytes) {
        Found::NeedMore => false,
        Found::TooLarge | Found::Head { .. } => true,
    }
}

// Replays a connection of these bytes.
fn replayed(
    alloc: Global,
    config: &Config,
    bytes: &[u8],
    moment: Moment,
) -> Result<Vec<u8>, NoMemory>
    ensures { IfOk result (λ out. Replays config.now moment bytes.now out.items) }
{
    opened_replays_are_replays();
    let store = Store::open(alloc, config.buckets())?;
    let mut replay = Replay::new(alloc, config, store, &moment)?;
    let written = written_after(&mut replay, bytes);
    drop(replay);
    written
}

// What a replay writes that takes these bytes and then ends.
fn written_after<R: Records + Drop>(
    replay: &mut Replay<'_, R>,
    bytes: &[u8],
) -> Result<Vec<u8>, NoMemory>
    ensures { (base : Base) (settings : Settings) (moment : ℕ) → HasTaken replay.old base settings moment []
        → IfOk result (λ out. ReplaysFrom base settings moment bytes.now out.items) }
{
    replay.feed(bytes)?;
    replay.written()
}
