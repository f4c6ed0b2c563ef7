//! What a session takes of bytes, and what becomes of the others.

ghost use Rattle.std.specs.Prelude.{◌≡◌, ◌≤◌, ℕ, true, false, List, [], ◌∷◌, ◌++◌, length, take, drop};
ghost use Rattle.s3_config.specs.Settings.{Settings};
ghost use Rattle.s3_machine.specs.History.{Entry};
ghost use Rattle.s3_session.specs.Output.{Past, Reading, is_waiting};
ghost use Rattle.s3_session.specs.Session as rules;
ghost use Rattle.s3_session.specs.Session.{Needs, moment_if, standing_of, turns_of};
ghost use Rattle.s3_session.specs.Stands.{Stands};
ghost use Rattle.s3_connection.specs.Connection.{IsFit, IsNext};
ghost use Rattle.s3_connection.specs.Holds.{IsBehind, IsTurn, Took};
ghost use Rattle.s3_connection.specs.Output.{HasWaiting, past_of};

use crate::stage::Stage;
use crate::unread_input::UnreadInput;
use s3_calendar::Moment;
use s3_config::Config;
use s3_machine::Turn;
use s3_session::{Fed, Need, Session};
use std::alloc::Global;

// What comes next before these bytes, which are kept where a command waits.
pub(crate) fn stage_before(
    session: &mut Session,
    kept: &mut UnreadInput,
    need: Need,
    behind: &[u8],
) -> Stage
    requires needs { Needs need (standing_of session.old) }
    requires goes_on { session.old.is_ended ≡ false }
    requires none { kept.old ≡ [] }
    ensures stays { (settings : Settings) (past : Past) (sent : List ℕ) → Stands session.old settings past sent
        → Stands session.new settings past sent }
    ensures waits { HasWaiting (standing_of session.new) (turns_of need) }
    ensures turn { IsTurn result (turns_of need) }
    ensures left { (need ≡ Need.More → behind.now ≡ []) → IsBehind result false kept.new behind.now false }
    ensures fit { IsFit result session.new kept.new false }
    ensures next { IsNext result }
    ensures goes_on { session.new.is_ended ≡ false }
{
    match need {
        Need::More => Stage::Reading,
        Need::Turn(turn) => keep_behind(session, kept, turn, behind),
        Need::Close => Stage::Done,
    }
}

// Keeps these bytes while a turn waits; where there is no memory for them, memory has run out at the turn.
fn keep_behind(session: &mut Session, kept: &mut UnreadInput, turn: Turn, behind: &[u8]) -> Stage
    requires waits { is_waiting (standing_of session.old) ≡ true }
    requires goes_on { session.old.is_ended ≡ false }
    requires none { kept.old ≡ [] }
    ensures stays { (settings : Settings) (past : Past) (sent : List ℕ) → Stands session.old settings past sent
        → Stands session.new settings past sent }
    ensures waits { HasWaiting (standing_of session.new) (turn ∷ []) }
    ensures turn { IsTurn result (turn ∷ []) }
    ensures left { IsBehind result false kept.new behind.now false }
    ensures fit { IsFit result session.new kept.new false }
    ensures next { IsNext result }
    ensures goes_on { session.new.is_ended ≡ false }
{
    match kept.add(behind) {
        Ok(()) => Stage::Waiting(turn),
        Err(e) => {
            drop(turn);
            session.answer(Err(e));
            Stage::Done
        }
    }
}

// Feeds a session that reads with what is kept, if something is, up to the end of the next message; what is behind that stays.
pub(crate) fn take_kept(
    alloc: Global,
    config: &Config,
    session: &mut Session,
    kept: &mut UnreadInput,
    now: Moment,
) -> (Stage, bool)
    requires reads { standing_of session.old ≡ Reading }
    requires goes_on { session.old.is_ended ≡ false }
    ensures took { (taken moments : List ℕ) (entries : List Entry) (sent : List ℕ)
        → Stands session.old config.now (past_of taken false moments entries []) sent
        → Took session.new kept.new result.0 config.now taken kept.old (moments ++ moment_if result.1 now) entries sent }
    ensures fit { IsFit result.0 session.new kept.new false }
    ensures next { IsNext result.0 }
    ensures goes_on { session.new.is_ended ≡ false }
{
    if kept.is_empty() {
        return (Stage::Reading, false);
    }
    let Fed {
        len,
        need,
        has_moment,
    } = session.feed(alloc, config, now, kept.as_slice());
    (stage_behind(alloc, kept, need, len), has_moment)
}

// What comes next behind so many bytes of those that are kept, which are dropped; where no command waits, all are.
fn stage_behind(alloc: Global, kept: &mut UnreadInput, need: Need, len: usize) -> Stage
    requires within { len ≤ length kept.old }
    ensures turn { IsTurn result (turns_of need) }
    ensures left { (need ≡ Need.More → drop len kept.old ≡ []) → IsBehind result false kept.new (drop len kept.old) false }
    ensures fit { (session : rules.Connection) → Needs need (standing_of session) → session.is_ended ≡ false
        → IsFit result session kept.new false }
    ensures next { IsNext result }
{
    match need {
        Need::More => {
            *kept = UnreadInput::new(alloc);
            Stage::Reading
        }
        Need::Turn(turn) => {
            kept.skip(alloc, len);
            Stage::Waiting(turn)
        }
        Need::Close => {
            *kept = UnreadInput::new(alloc);
            Stage::Done
        }
    }
}
