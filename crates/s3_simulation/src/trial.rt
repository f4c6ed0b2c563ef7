//! One connection on trial: each of its commands is answered at once, by an answer that nobody reads, to find out whether a message
//! of it is sound, and at which byte its first message is refused.

ghost use Rattle.std.specs.Prelude.{◌≡◌, ◌≤◌, ℕ, true, false, List, [], ◌++◌, length, take, IfOk, OnOk, None};
ghost use Rattle.s3_config.specs.Settings.{Settings};
ghost use Rattle.s3_session.specs.Output.{Over, is_waiting};
ghost use Rattle.s3_session.specs.Session.{Needs, standing_of};
ghost use Rattle.s3_simulation.specs.Faults.{HasNoFaultOf};
ghost use Rattle.s3_simulation.specs.Trimmed.{HasSound, IsShare};
ghost use Rattle.s3_simulation.specs.Trying as rules;

use crate::played::{left, next};
use crate::share::Kept;
use s3_calendar::Moment;
use s3_config::Config;
use s3_connection::outputs_are_one;
use s3_machine::{Answer, Outcome};
use s3_session::{
    Fed, Need, Next, Session, faults_are_one, faults_end, inputs_fix_outputs, outputs_stay,
    sessions_write,
};
use s3_terms::NoMemory;
use std::alloc::Global;
use std::marker::Model;

// What a piece led to.
#[derive(Clone, Copy, Drop)]
pub(crate) enum Passed {
    // All of it was taken, and more is read.
    All,
    // A command was answered, and more is read.
    Answered,
    // The reply to a command closed the connection.
    Replied,
    // A message was refused, or memory ran out.
    Stopped,
}

// What a step led to.
#[derive(Clone, Copy, Drop)]
pub(crate) enum Step {
    // All of the piece was taken.
    More,
    // So many of its bytes were taken, and the rest stands behind a message.
    Behind(usize),
    // So much of the events is kept, whatever follows.
    Settled(Kept),
}

// Whether a turn is asked for.
fn asks(need: &Need) -> bool
    ensures { result ≡ rules.asks need.now }
{
    match need {
        Need::Turn(_) => true,
        Need::More | Need::Close => false,
    }
}

// What a step led to: so many bytes were taken, which led to this, a message was refused or not, and so much is kept where the last
// of them refuses one. Where a reply closed the connection no message was refused.
fn step_behind(passed: Passed, len: usize, is_refused: bool, kept: Kept) -> Result<Step, NoMemory>
    ensures { IfOk result (λ step. rules.IsStepOf step passed len is_refused kept) }
{
    match passed {
        Passed::All => Ok(Step::More),
        Passed::Answered => Ok(Step::Behind(len)),
        Passed::Replied if !is_refused => Ok(Step::Settled(Kept::All)),
        Passed::Stopped if is_refused => Ok(Step::Settled(kept)),
        Passed::Replied | Passed::Stopped => Err(NoMemory),
    }
}

// No message is sound of a connection of which nothing came.
pub(crate) fn nothing_is_sound(alloc: Global)
    ensures { (settings : Settings) (moments : List ℕ) → ¬ (HasSound settings moments (rules.unended [])) }
{
    sessions_write();
    outputs_are_one();
    drop(Session::new(alloc));
}

// A connection on trial.
#[derive(Drop)]
pub(crate) struct Trial<'a> {
    session: Session,
    moments: &'a [Moment],
    // Whether a message of it was sound.
    is_sound: bool,
    // How many of its bytes were taken.
    taken: usize,
}

impl<'a> Model for Trial<'a> {
    ghost use Rattle.s3_simulation.specs.Trying.{Trying};

    ghost Value = { Trying };

    ghost view = { λ t. record { session = t.session; moments = t.moments.now; is_sound = t.is_sound; taken = t.taken } };
}

impl<'a> Trial<'a> {
    // A connection of which nothing came, whose messages have these moments. It takes no memory.
    pub(crate) fn new(alloc: Global, moments: &'a [Moment]) -> Trial<'a>
        ensures begins { (settings : Settings) → rules.Tries result settings moments.now [] }
        ensures reads { rules.ReadsOn result }
    {
        let trial = Trial {
            session: Session::new(alloc),
            moments,
            is_sound: false,
            taken: 0,
        };
        // None of its messages is refused yet, which nothing else says.
        trial.is_refused();
        trial
    }

    // Takes a piece of its bytes, and answers how much of its events is kept, once that is settled.
    pub(crate) fn take(
        &mut self,
        alloc: Global,
        config: &Config,
        piece: &[u8],
    ) -> Result<Option<Kept>, NoMemory>
        requires reads { rules.ReadsOn self.old }
        ensures takes { (moments bytes : List ℕ) → rules.Tries self.old config.now moments bytes
            → IfOk result (λ told. rules.HasTaken told self.new config.now moments (bytes ++ piece.now)) }
        ensures reads { IfOk result (λ told. told ≡ None → rules.ReadsOn self.new) }
    {
        let mut rest = piece;
        for _ in 0..u64::MAX {
            match self.step(alloc, config, rest)? {
                Step::More => return Ok(None),
                Step::Behind(len) => {
                    let (_, behind) = rest.split_at(len);
                    rest = behind;
                }
                Step::Settled(kept) => return Ok(Some(kept)),
            }
        }
        Err(NoMemory)
    }

    // Takes as much of a piece as its next message does. `NoMemory` comes where memory ran out for the message, or more bytes came
    // than there are numbers.
    fn step(&mut self, alloc: Global, config: &Config, piece: &[u8]) -> Result<Step, NoMemory>
        requires reads { rules.ReadsOn self.old }
        ensures steps { (moments bytes : List ℕ) → rules.Tries self.old config.now moments bytes
            → IfOk result (λ step. rules.HasStepped step self.new config.now moments bytes piece.now) }
        ensures on { IfOk result (λ step. rules.StepsOn step self.new (length piece.now)) }
    {
        sessions_write();
        outputs_stay();
        outputs_are_one();
        faults_are_one();
        let (len, passed) = self.pass(alloc, config, piece);
        self.count(len)?;
        let refused = self.is_refused();
        let kept = self.cut();
        step_behind(passed, len, refused, kept)
    }

    // Counts so many bytes. `NoMemory` comes where there is no number for them.
    fn count(&mut self, len: usize) -> Result<(), NoMemory>
        ensures { OnOk result (self.new ≡ rules.added_up self.old len) }
    {
        let Some(taken) = self.taken.checked_add(len) else {
            return Err(NoMemory);
        };
        self.taken = taken;
        Ok(())
    }

    // How much of its events is kept, where the last byte that was taken refuses a message.
    fn cut(&self) -> Kept
        ensures { rules.share_of result ≡ rules.up_to_if self.now.is_sound self.now.taken }
    {
        Kept::up_to_if(self.is_sound, self.taken)
    }

    // Gives its session a piece, and answers the command for which that asks a turn: how many of the bytes were taken, and what that
    // led to.
    fn pass(&mut self, alloc: Global, config: &Config, piece: &[u8]) -> (usize, Passed)
        requires reads { rules.ReadsOn self.old }
        ensures within { result.0 ≤ length piece.now }
        ensures tries { (moments bytes : List ℕ) → rules.HasTried self.old config.now moments bytes
            → rules.HasTried self.new config.now moments (bytes ++ take result.0 piece.now) }
        ensures all { (moments bytes : List ℕ) → rules.HasTried self.old config.now moments bytes
            → result.1 ≡ Passed.All → result.0 ≡ length piece.now }
        ensures first { (moments bytes : List ℕ) → rules.HasTried self.old config.now moments bytes
            → HasNoFaultOf config.now moments (rules.unended bytes) → result.1 ≡ Passed.Stopped → standing_of self.new.session ≡ Over
            → rules.HasNoneBefore config.now moments (bytes ++ take result.0 piece.now) }
        ensures standing { rules.IsPassed result.1 (standing_of self.new.session) }
        ensures sound { result.1 ≡ Passed.Replied → self.new.is_sound ≡ true }
        ensures end { self.new.session.is_ended ≡ false }
        ensures taken { self.new.taken ≡ self.old.taken }
    {
        let Fed { len, need, .. } = self.feed(alloc, config, piece);
        match need {
            Need::More => (len, Passed::All),
            Need::Turn(turn) => {
                drop(turn);
                (len, self.answer())
            }
            Need::Close => (len, Passed::Stopped),
        }
    }

    // Gives its session a piece.
    fn feed(&mut self, alloc: Global, config: &Config, piece: &[u8]) -> Fed
        requires reads { rules.ReadsOn self.old }
        ensures within { result.len ≤ length piece.now }
        ensures tries { (moments bytes : List ℕ) → rules.HasTried self.old config.now moments bytes
            → rules.HasTried self.new config.now moments (bytes ++ take result.len piece.now) }
        ensures all { (moments bytes : List ℕ) → rules.HasTried self.old config.now moments bytes
            → result.need ≡ Need.More → result.len ≡ length piece.now }
        ensures first { (moments bytes : List ℕ) → rules.HasTried self.old config.now moments bytes
            → HasNoFaultOf config.now moments (rules.unended bytes) → standing_of self.new.session ≡ Over
            → rules.HasNoneBefore config.now moments (bytes ++ take result.len piece.now) }
        ensures needs { Needs result.need (standing_of self.new.session) }
        ensures sound { rules.asks result.need ≡ true → self.new.is_sound ≡ true }
        ensures end { self.new.session.is_ended ≡ false }
        ensures taken { self.new.taken ≡ self.old.taken }
    {
        sessions_write();
        outputs_stay();
        inputs_fix_outputs();
        faults_are_one();
        faults_end();
        let now = next(self.moments);
        let fed = self.session.feed(alloc, config, now, piece);
        self.moments = left(self.moments, fed.has_moment);
        self.is_sound = asks(&fed.need) | self.is_sound;
        fed
    }

    // Answers the command that waits, and drops what was written. What the answer says changes nothing of how the connection stands
    // that is asked here.
    fn answer(&mut self) -> Passed
        requires waits { is_waiting (standing_of self.old.session) ≡ true }
        ensures tries { (settings : Settings) (moments bytes : List ℕ) → rules.HasTried self.old settings moments bytes
            → self.old.is_sound ≡ true → rules.HasTried self.new settings moments bytes }
        ensures standing { rules.IsPassed result (standing_of self.new.session) }
        ensures all { ¬ (result ≡ Passed.All) }
        ensures stopped { ¬ (result ≡ Passed.Stopped) }
        ensures sound { self.new.is_sound ≡ self.old.is_sound }
        ensures end { self.new.session.is_ended ≡ self.old.session.is_ended }
        ensures taken { self.new.taken ≡ self.old.taken }
    {
        let next = self.session.answer(Ok(Answer {
            number: 0,
            outcome: Outcome::VersioningSet,
        }));
        let count = self.session.out().len();
        self.session.sent(count);
        match next {
            Next::More => Passed::Answered,
            Next::Close => Passed::Replied,
        }
    }

    // Whether a message of it was refused.
    fn is_refused(&self) -> bool
        ensures { rules.TellsRefused self.now result }
    {
        self.session.fault().is_some()
    }

    // How much of its events is kept, where these bytes are all.
    pub(crate) fn kept(&self) -> Kept
        requires reads { rules.ReadsOn self.now }
        ensures { (settings : Settings) (moments bytes : List ℕ) → rules.Tries self.now settings moments bytes
            → IsShare settings moments (rules.unended bytes) (rules.share_of result) }
    {
        sessions_write();
        outputs_are_one();
        faults_are_one();
        Kept::all_if(self.is_sound)
    }

    // The same, where they have ended.
    pub(crate) fn end(&mut self) -> Kept
        requires reads { rules.ReadsOn self.old }
        ensures { (settings : Settings) (moments bytes : List ℕ) → rules.Tries self.old settings moments bytes
            → IsShare settings moments (record { bytes = bytes; ended = true }) (rules.share_of result) }
    {
        sessions_write();
        outputs_stay();
        outputs_are_one();
        faults_are_one();
        self.session.end();
        Kept::all_if(self.is_sound)
    }
}
