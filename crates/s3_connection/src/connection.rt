//! A connection.

ghost use Rattle.std.specs.Prelude.{◌≡◌, ◌≢◌, ◌↔◌, ◌⊎◌, ◌<◌, ◌≤◌, ℕ, true, false, List, [], ◌++◌, length, take, drop, is_none, IfOk, OnOk, OnErr, IfSome, Some, None};
ghost use Rattle.std.specs.Io.Slices.{io_slices_bytes};
ghost use mathlib.Core.List.{IsPrefix};
ghost use Rattle.s3_config.specs.Settings.{Settings};
ghost use Rattle.s3_http_heads.specs.Find.{skip_pairs};
ghost use Rattle.s3_http_heads.specs.Head.{HasNoHead};
ghost use Rattle.s3_http_heads.specs.Search as heads;
ghost use Rattle.s3_machine.specs.History.{Entry};
ghost use Rattle.s3_machine.specs.declared.turn.Turn.{Turn};
ghost use Rattle.s3_session.specs.Fault.{HasNoFault, IsFault};
ghost use Rattle.s3_session.specs.Output.{Reading, Over, Dead, is_closed, is_dead, is_waiting};
ghost use Rattle.s3_session.specs.Session.{moment_if};
ghost use Rattle.s3_session.specs.Verified.{HoldsVerified, RefusedTakes};
ghost use Rattle.s3_connection.specs.Holds.{Holds};
ghost use Rattle.s3_connection.specs.Output.{Input};

use crate::feeding::{stage_before, take_kept};
use crate::stage::{Stage, Wants};
use crate::unread_input::UnreadInput;
use s3_calendar::Moment;
use s3_config::Config;
use s3_machine::{Answer, Turn};
use s3_session::{Fault, Fed, Next, Session, faults_are_one};
use s3_terms::NoMemory;
use std::alloc::Global;
use std::io::IoSlice;
use std::marker::Model;
use std::mem;
use std::snapshot::Snapshot;

/// One connection that takes bytes at any time. It keeps those that come while a command waits.
///
/// It makes no call of the system. The caller moves the bytes, and says at which moment they come. It takes the turns
/// of commands, gives their answers, and has the connection go on after each. At rest a connection is small.
#[derive(Drop)]
pub struct Connection {
    session: Session,
    kept: UnreadInput,
    stage: Stage,
    is_ended: bool,
}

impl Model for Connection {
    ghost use Rattle.s3_connection.specs.Connection.{Connected, IsFit};

    ghost Value = { Connected };

    ghost view = { λ c. record { session = c.session; kept = c.kept; stage = c.stage; is_ended = c.is_ended } };

    ghost invariant = { λ c. IsFit c.stage c.session c.kept c.is_ended };
}

impl Connection {
    ghost use Rattle.s3_connection.specs.Connection as rules;

    /// A connection of which nothing has come. It wants input, and has written nothing. It takes no memory.
    pub fn new(alloc: Global) -> Connection
        ensures begins { (settings : Settings) → Holds result settings rules.nothing_received [] [] [] }
        ensures standing { rules.standing_of result ≡ Reading }
        ensures wants { rules.wants_of result ≡ Wants.Input }
        ensures end { result.is_ended ≡ false }
        ensures nothing { rules.unsent_of result ≡ [] }
    {
        Connection {
            session: Session::new(alloc),
            kept: UnreadInput::new(alloc),
            stage: Stage::Reading,
            is_ended: false,
        }
    }

    /// Takes a piece of what the peer sent. Answers whether a message has the moment `now`: the one whose head became
    /// whole, or too large, with this piece.
    ///
    /// What the connection wants (`wants`) decides what becomes of the piece:
    ///
    /// - `Input`: it goes through the session, up to the first message whose command waits. What comes after that
    ///   message is kept. Where there is no memory for this, the connection ends as it does where memory runs out at
    ///   that message's turn.
    /// - `Answer`, `ToGoOn`: it is kept, and goes through the session in a later call of `go_on`.
    /// - `Nothing`: it is dropped. So it is after `end`, whatever the connection wants.
    ///
    /// The settings have to be the same at every call for a connection, since its promises are about one.
    ///
    /// It takes time and memory as `Session::feed` does, and memory for what is kept.
    ///
    /// # Errors
    ///
    /// `NoMemory` where there is no memory for a piece that has to be kept whole. The connection is as it was then.
    ///
    /// ```text
    /// connection.piece(alloc, &config, now, &buffer[..count])?;
    /// while let Some(turn) = connection.take_turn() {
    ///     connection.answer(alloc, recorded_store.enter(seat, turn));
    ///     connection.go_on(alloc, &config, now);
    /// }
    /// let written = socket.write(connection.out())?;
    /// connection.sent(written);
    /// ```
    pub fn piece(
        &mut self,
        alloc: Global,
        config: &Config,
        now: Moment,
        piece: &[u8],
    ) -> Result<bool, NoMemory>
        ensures holds { (input : Input) (moments : List ℕ) (entries : List Entry) (sent : List ℕ)
            → Holds self.old config.now input moments entries sent
            → IfOk result (λ has_moment. Holds self.new config.now (rules.received input piece.now) (moments ++ moment_if has_moment now) entries sent) }
        ensures same { OnErr result (self.new ≡ self.old) }
        ensures memory { OnErr result ((piece.now ≢ []) × (self.old.is_ended ≡ false) × (is_closed (rules.standing_of self.old) ≡ false)
            × (rules.wants_of self.old ≢ Wants.Input)) }
        ensures end { self.new.is_ended ≡ self.old.is_ended }
        ensures next { rules.IsNext self.old.stage → rules.IsNext self.new.stage }
        ensures closed { is_closed (rules.standing_of self.old) ≡ true → rules.standing_of self.new ≡ rules.standing_of self.old }
    {
        if piece.is_empty() || self.is_ended {
            return Ok(false);
        }
        match self.stage.wants() {
            Wants::Input => Ok(self.read(alloc, config, now, piece)),
            Wants::Answer | Wants::ToGoOn => {
                self.keep(piece)?;
                Ok(false)
            }
            Wants::Nothing => Ok(false),
        }
    }

    // Keeps a piece that comes while a command waits, or before the connection has gone on after its answer.
    fn keep(&mut self, piece: &[u8]) -> Result<(), NoMemory>
        requires waits { (rules.wants_of self.old ≡ Wants.Answer) ⊎ (rules.wants_of self.old ≡ Wants.ToGoOn) }
        ensures kept { OnOk result (self.new ≡ record self.old { kept = self.old.kept ++ piece.now }) }
        ensures same { OnErr result (self.new ≡ self.old) }
    {
        self.kept.add(piece)
    }

    // Takes a piece where it reads.
    fn read(&mut self, alloc: Global, config: &Config, now: Moment, piece: &[u8]) -> bool
        requires reads { self.old.stage ≡ Stage.Reading }
        ensures holds { (input : Input) (moments : List ℕ) (entries : List Entry) (sent : List ℕ)
            → Holds self.old config.now input moments entries sent
            → Holds self.new config.now (rules.received input piece.now) (moments ++ moment_if result now) entries sent }
        ensures end { self.new.is_ended ≡ self.old.is_ended }
        ensures next { rules.IsNext self.new.stage }
    {
        let Fed {
            len,
            need,
            has_moment,
        } = self.session.feed(alloc, config, now, piece);
        let stage = stage_before(&mut self.session, &mut self.kept, need, &piece[len..]);
        self.stage.become_next(stage);
        has_moment
    }

    /// Says that no more bytes come. While a command waits, and until the connection has gone on after its answer, this
    /// is kept in mind. A second end does nothing. It takes no memory.
    pub fn end(&mut self)
        ensures holds { (settings : Settings) (input : Input) (moments : List ℕ) (entries : List Entry) (sent : List ℕ)
            → Holds self.old settings input moments entries sent
            → Holds self.new settings (record input { ended = true }) moments entries sent }
        ensures again { self.old.is_ended ≡ true → self.new ≡ self.old }
        ensures turn { rules.turn_of self.new ≡ rules.turn_of self.old }
        ensures wants { rules.wants_of self.old ≡ Wants.Input → rules.wants_of self.new ≡ Wants.Nothing }
        ensures next { rules.IsNext self.old.stage → rules.IsNext self.new.stage }
        ensures waits { is_waiting (rules.standing_of self.new) ≡ is_waiting (rules.standing_of self.old) }
        ensures closed { is_closed (rules.standing_of self.old) ≡ true → rules.standing_of self.new ≡ rules.standing_of self.old }
        ensures end { self.new.is_ended ≡ true }
    {
        self.is_ended = true;
        if self.stage.is_reading() {
            self.session.end();
            self.stage.become_next(Stage::Done);
        }
    }

    /// What it wants, once all that it wrote is out. It takes no memory.
    pub fn wants(&self) -> Wants
        ensures value { result ≡ rules.wants_of self.now }
        ensures waits { (result ≡ Wants.Answer) ↔ (is_waiting (rules.standing_of self.now) ≡ true) }
    {
        self.stage.wants()
    }

    /// Hands out the turn that waits, which the caller then has to answer. `None` where none waits, or where it was
    /// taken before. It takes no memory.
    pub fn take_turn(&mut self) -> Option<Turn>
        ensures value { result ≡ rules.turn_of self.old }
        ensures taken { rules.turn_of self.old ≢ None → rules.taken_of self.new ≡ result }
        ensures holds { (settings : Settings) (input : Input) (moments : List ℕ) (entries : List Entry) (sent : List ℕ)
            → Holds self.old settings input moments entries sent → Holds self.new settings input moments entries sent }
        ensures none { result ≡ None → self.new ≡ self.old }
        ensures waits { IfSome result (λ _. is_waiting (rules.standing_of self.old) ≡ true) }
        ensures rests { result ≡ None → rules.IsNext self.old.stage → is_waiting (rules.standing_of self.old) ≡ false }
        ensures standing { rules.standing_of self.new ≡ rules.standing_of self.old }
        ensures unsent { rules.unsent_of self.new ≡ rules.unsent_of self.old }
        ensures end { self.new.is_ended ≡ self.old.is_ended }
    {
        if !self.stage.has_turn() {
            return None;
        }
        let Stage::Waiting(turn) = mem::replace(&mut self.stage, Stage::Done) else {
            // A stage that has a turn is that one.
            unreachable!()
        };
        self.stage
            .become_next(Stage::HandedOut(Snapshot::of(&turn)));
        Some(turn)
    }

    /// Answers the turn that was taken. One has to have been taken, and not been answered yet.
    ///
    /// `Ok` has the answer of the store, whose reply is written. The connection then wants to go on (`go_on`), unless
    /// this reply closes it. `Err` tells that memory ran out at the turn. The reply that says so is written then, and
    /// nothing more is read. Where nothing more is read, what was kept is dropped. It takes no memory.
    pub fn answer(&mut self, alloc: Global, answered: Result<Answer, NoMemory>)
        requires taken { rules.taken_of self.old ≢ None }
        ensures holds { (settings : Settings) (input : Input) (moments : List ℕ) (entries : List Entry) (turn : Turn) (sent : List ℕ)
            → rules.taken_of self.old ≡ Some turn → Holds self.old settings input moments entries sent
            → Holds self.new settings input moments (rules.entries_with entries turn answered) sent }
        ensures dies { OnErr answered (rules.standing_of self.new ≡ Dead) }
        ensures over { OnErr answered (rules.wants_of self.new ≡ Wants.Nothing) }
        ensures taken { rules.taken_of self.new ≡ None }
        ensures turn { rules.turn_of self.new ≡ None }
        ensures end { self.new.is_ended ≡ self.old.is_ended }
    {
        let next = self.session.answer(answered);
        match next {
            Next::More => self.stage.become_next(Stage::Answered),
            Next::Close => {
                self.kept = UnreadInput::new(alloc);
                self.stage.become_next(Stage::Done);
            }
        }
    }

    /// Goes on after an answer: what is kept goes through the session, up to the next message whose command waits.
    /// After all of it the session hears of the end, if that has come. Where nothing was answered it does nothing.
    ///
    /// Answers whether a message has the moment `now`, as `piece` does. It takes time and memory as `Session::feed`
    /// does for what it takes.
    pub fn go_on(&mut self, alloc: Global, config: &Config, now: Moment) -> bool
        ensures holds { (input : Input) (moments : List ℕ) (entries : List Entry) (sent : List ℕ)
            → Holds self.old config.now input moments entries sent
            → Holds self.new config.now input (moments ++ moment_if result now) entries sent }
        ensures next { rules.taken_of self.old ≡ None → rules.IsNext self.new.stage }
        ensures closed { is_closed (rules.standing_of self.old) ≡ true → self.new ≡ self.old }
        ensures same { rules.wants_of self.old ≢ Wants.ToGoOn → (self.new ≡ self.old) × (result ≡ false) }
        ensures end { self.new.is_ended ≡ self.old.is_ended }
    {
        match self.stage.wants() {
            Wants::ToGoOn => self.take_on(alloc, config, now),
            Wants::Input | Wants::Answer | Wants::Nothing => false,
        }
    }

    // Takes what is kept after an answer, and then hears of the end, if it has come.
    fn take_on(&mut self, alloc: Global, config: &Config, now: Moment) -> bool
        requires answered { self.old.stage ≡ Stage.Answered }
        ensures holds { (input : Input) (moments : List ℕ) (entries : List Entry) (sent : List ℕ)
            → Holds self.old config.now input moments entries sent
            → Holds self.new config.now input (moments ++ moment_if result now) entries sent }
        ensures next { rules.IsNext self.new.stage }
        ensures end { self.new.is_ended ≡ self.old.is_ended }
    {
        let is_ended = self.is_ended;
        self.is_ended = false;
        let has_moment = self.read_kept(alloc, config, now);
        if is_ended {
            self.end();
        }
        has_moment
    }

    // Takes what is kept after an answer, where the end has not come.
    fn read_kept(&mut self, alloc: Global, config: &Config, now: Moment) -> bool
        requires answered { self.old.stage ≡ Stage.Answered }
        requires goes_on { self.old.is_ended ≡ false }
        ensures holds { (input : Input) (moments : List ℕ) (entries : List Entry) (sent : List ℕ)
            → Holds self.old config.now input moments entries sent
            → Holds self.new config.now input (moments ++ moment_if result now) entries sent }
        ensures next { rules.IsNext self.new.stage }
        ensures end { self.new.is_ended ≡ false }
    {
        let (stage, has_moment) = take_kept(alloc, config, &mut self.session, &mut self.kept, now);
        self.stage.become_next(stage);
        has_moment
    }

    /// Whether bytes are kept, of which the next message will be: for the time that its caller gives it. It takes no memory.
    pub fn has_kept(&self) -> bool
        ensures some { result ≡ true → self.now.kept ≢ [] }
        ensures none { result ≡ false → self.now.kept ≡ [] }
    {
        !self.kept.is_empty()
    }

    /// Whether the head of a message was admitted and its body isn't whole: for the time that its caller gives it. It takes no
    /// memory.
    pub fn is_in_body(&self) -> bool {
        self.session.in_body()
    }

    /// What has come of the head of the message at hand, until that is answered. `None` where memory ran out for it. It takes no
    /// memory.
    pub fn head(&self) -> Option<&[u8]>
        ensures text { (bytes : List ℕ) → heads.Holds self.now.session.search bytes → IfSome result (λ text. text.now ≡ skip_pairs bytes) }
        ensures lost { is_none result ≡ heads.is_lost self.now.session.search }

        // Where memory ran out for its message, it isn't malformed.
        ensures died { (settings : Settings) (input : Input) (moments : List ℕ) (entries : List Entry) (sent : List ℕ)
            → Holds self.now settings input moments entries sent → is_dead (rules.standing_of self.now) ≡ true
            → IfSome result (λ text. ¬ (HasNoHead text.now)) }
    {
        self.session.head()
    }

    /// Whether the signature of the message at hand was verified, for the log of a server. It is told until the message is
    /// answered, also where a later rule, the body or the command refuses the message.
    ///
    /// Where memory ran out for the message, false may be told of a signature that verifies. It takes no memory.
    pub fn is_verified(&self) -> bool
        ensures verified { (settings : Settings) (input : Input) (moments : List ℕ) (entries : List Entry) (sent : List ℕ)
            → Holds self.now settings input moments entries sent → result ≡ true → HoldsVerified settings self.now.session }
        ensures told { (settings : Settings) (input : Input) (moments : List ℕ) (entries : List Entry) (sent : List ℕ)
            → Holds self.now settings input moments entries sent → is_dead (rules.standing_of self.now) ≡ false
            → HoldsVerified settings self.now.session → result ≡ true }

        // Where memory ran out for that message, no rule refuses its head, or its routing takes memory.
        ensures died { (settings : Settings) (input : Input) (moments : List ℕ) (entries : List Entry) (sent : List ℕ)
            → Holds self.now settings input moments entries sent → is_dead (rules.standing_of self.now) ≡ true → result ≡ true
            → (h : HoldsVerified settings self.now.session) → RefusedTakes settings h.verifies.0 h.moment }
        ensures waits { (settings : Settings) (input : Input) (moments : List ℕ) (entries : List Entry) (sent : List ℕ)
            → Holds self.now settings input moments entries sent → is_waiting (rules.standing_of self.now) ≡ true → result ≡ true }
    {
        self.session.is_verified()
    }

    /// The first of its messages that was refused, if one was: of all that it received but what is kept, while a command waits or
    /// before it has gone on after an answer. It takes no memory.
    pub fn fault(&self) -> Option<Fault>
        ensures some { (settings : Settings) (input : Input) (moments : List ℕ) (entries : List Entry) (sent : List ℕ)
            → Holds self.now settings input moments entries sent
            → IfSome result (λ fault. IsFault settings input.bytes input.ended moments fault.message fault.code) }
        ensures over { result ≢ None → rules.standing_of self.now ≡ Over }

        // More moments make none, but where a command waits, after whose message others may stand.
        ensures none { (settings : Settings) (input : Input) (moments : List ℕ) (entries : List Entry) (sent given : List ℕ)
            → Holds self.now settings input moments entries sent
            → is_dead (rules.standing_of self.now) ≡ false → rules.wants_of self.now ≢ Wants.ToGoOn
            → IsPrefix moments given → (is_waiting (rules.standing_of self.now) ≡ true → given ≡ moments)
            → result ≡ None → HasNoFault settings input.bytes input.ended given }
    {
        faults_are_one();
        self.session.fault()
    }

    /// A beginning of what it has written and not sent, as long as it stands together; it is empty only where all is
    /// sent. It takes no memory.
    pub fn out(&self) -> &[u8]
        ensures beginning { take (length result.now) (rules.unsent_of self.now) ≡ result.now }
        ensures within { length result.now ≤ length (rules.unsent_of self.now) }
        ensures empty { result.now ≡ [] → rules.unsent_of self.now ≡ [] }
    {
        self.session.out()
    }

    /// The same in the parts in which it lies, for one write.
    pub fn parts(&self) -> [IoSlice<'_>; 4]
        ensures beginning { take (length (io_slices_bytes result)) (rules.unsent_of self.now) ≡ io_slices_bytes result }
        ensures within { length (io_slices_bytes result) ≤ length (rules.unsent_of self.now) }
        ensures empty { io_slices_bytes result ≡ [] → rules.unsent_of self.now ≡ [] }
    {
        self.session.parts()
    }

    /// Says that so many bytes in front were sent. They are dropped, and a body goes with its last byte. It takes no
    /// memory.
    pub fn sent(&mut self, count: usize)
        requires within { count ≤ length (rules.unsent_of self.old) }
        ensures holds { (settings : Settings) (input : Input) (moments : List ℕ) (entries : List Entry) (sent : List ℕ)
            → Holds self.old settings input moments entries sent
            → Holds self.new settings input moments entries (sent ++ take count (rules.unsent_of self.old)) }
        ensures left { rules.unsent_of self.new ≡ drop count (rules.unsent_of self.old) }
        ensures standing { rules.standing_of self.new ≡ rules.standing_of self.old }
        ensures stage { self.new.stage ≡ self.old.stage }
        ensures end { self.new.is_ended ≡ self.old.is_ended }
    {
        self.session.sent(count);
    }

    /// A copy of all that it has written and not sent.
    ///
    /// # Errors
    ///
    /// `NoMemory` where something is unsent and memory runs out.
    pub fn all(&self, alloc: Global) -> Result<Vec<u8>, NoMemory>
        ensures all { IfOk result (λ all. all.items ≡ rules.unsent_of self.now) }
        ensures memory { OnErr result (0 < length (rules.unsent_of self.now)) }
    {
        self.session.all(alloc)
    }
}
