//! One connection as a machine. It is fed with bytes as they come, and asks for a turn where a command waits. It is
//! given the answer, and hands out what it writes.

ghost use Rattle.std.specs.Prelude.{◌≡◌, ◌≢◌, ◌+◌, ◌<◌, ◌≤◌, ℕ, Bool, true, false, List, [], ◌∷◌, ◌++◌, length, take, drop, if◌then◌else◌, IfOk, OnOk, OnErr};
ghost use Rattle.s3_config.specs.Settings.{Settings};
ghost use Rattle.s3_http_heads.specs.Search.{Stands, Holds};
ghost use Rattle.s3_replies.specs.Replies.{Prints, PrintsRefusal, continue_line, internal_error};
ghost use Rattle.s3_session.specs.Incoming.{IsIncoming, IsInBody};
ghost use Rattle.s3_session.specs.declared.incoming.Incoming.{Incoming};
ghost use Rattle.s3_session.specs.Invitation.{Invites};
ghost use Rattle.s3_session.specs.Output.{HasText, Past, Reading, ReadsBody, is_closed, is_dead, is_waiting, nothing_yet};
ghost use Rattle.s3_session.specs.Session.{Connection, NeedsNext, standing_of};
ghost use Rattle.s3_session.specs.Stands.{IsReady};
ghost use Rattle.s3_session.specs.Verified.{IsNoted};

use crate::incoming::{Progress, Receiving};
use crate::laws::{inputs_fix_outputs, invitations_are_final, sessions_write, verdicts_stay};
use crate::opening::{Opening, open_text};
use crate::reply::AnswerTo;
use crate::signer::HeadSigner;
use s3_calendar::Moment;
use s3_config::Config;
use s3_framed_bodies::bodies_are_judged;
use s3_http_heads::{Found, HeadSearch, searches_find};
use s3_machine::{Answer, Command, Turn};
use s3_outbox::Outbox;
use s3_replies::{Context, continue_reply, internal_error_reply, refusal};
use s3_terms::{Code, Dialect, NoMemory};
use std::alloc::Global;
use std::marker::Model;
use std::mem;

/// What a connection needs next.
#[derive(Drop)]
pub enum Need {
    /// More bytes, or the end of the input.
    More,
    /// The answer to this command.
    Turn(Turn),
    /// That what it has still to send is sent, and nothing else: the connection ends with it.
    Close,
}

/// What a connection made of a piece.
#[derive(Drop)]
pub struct Fed {
    /// How many of its bytes it took.
    pub len: usize,
    /// What it needs next.
    pub need: Need,
    /// Whether the message at hand has the moment at which the piece came. With this piece its head became whole, or
    /// has more bytes than a head may have.
    pub has_moment: bool,
}

/// What a connection needs after an answer.
#[derive(Clone, Copy)]
pub enum Next {
    /// More bytes, or the end of the input.
    More,
    /// That what it has still to send is sent, and nothing else: the connection ends with it.
    Close,
}

// Why no more is read.
#[derive(Clone, Copy, Drop)]
pub(crate) enum Closing {
    // A reply closed the connection.
    Replied,
    // A message of this moment was refused with this code.
    Refused(Moment, Code),
    // Memory ran out for a message of this moment.
    Died(Moment),
}

// Where a connection stands.
#[derive(Drop)]
pub(crate) enum Stage {
    // The head of the next message has not come, or not its last byte.
    Reading,
    // The head of a message was admitted, and of its body something is still to come.
    Body(Receiving),
    // The command of a sound message waits for its answer.
    Waiting(Context),
    // No more is read.
    Closed(Closing),
}

// Goes on at the next stage. What the one before holds is dropped, which costs the proof of a function that names a stage more
// than all else in it, so that this stands here alone.
fn go_to(stage: &mut Stage, next: Stage)
    ensures { stage.new ≡ next }
{
    drop(mem::replace(stage, next));
}

// What a connection needs after a reply, which closes it or doesn't.
fn next_behind(closes: bool) -> Next
    ensures { (session : Connection) → IsReady closes session → NeedsNext result (standing_of session) }
{
    if closes { Next::Close } else { Next::More }
}

/// One connection. It takes its bytes in pieces of any size. As long as memory doesn't run out, what it writes doesn't
/// depend on how they are cut.
///
/// It makes no call of the system: the caller moves the bytes. `docs/ARCHITECTURE.md` ("A connection, state by state")
/// has the table of its states, and what a caller does in each.
#[derive(Drop)]
pub struct Session {
    pub(crate) search: HeadSearch,
    pub(crate) stage: Stage,
    pub(crate) outbox: Outbox,
    is_ended: bool,
    // How many messages were answered; the greatest number where there were more.
    pub(crate) answered: u64,
    // What is kept of heads that were verified. It decides nothing that is written.
    pub(crate) signer: HeadSigner,
}

impl Model for Session {
    ghost use Rattle.s3_session.specs.Session.{Connection, IsFit};

    ghost Value = { Connection };

    ghost view = { λ s. record { search = s.search; stage = s.stage; outbox = s.outbox; is_ended = s.is_ended; answered = s.answered; is_verified = s.signer.is_verified } };

    ghost invariant = { λ s. IsFit s.stage s.outbox };
}

impl Session {
    ghost use Rattle.s3_session.specs.Session as rules;
    ghost use Rattle.s3_session.specs.Stands as inside;

    /// A connection of which nothing has come. It reads, and has written nothing. It takes no memory.
    pub fn new(alloc: Global) -> Session
        ensures begins { (settings : Settings) → inside.Stands result settings nothing_yet [] }
        ensures standing { rules.standing_of result ≡ Reading }
        ensures goes_on { result.is_ended ≡ false }
        ensures nothing { rules.unsent_of result ≡ [] }
    {
        Session {
            search: HeadSearch::new(alloc),
            stage: Stage::Reading,
            outbox: Outbox::new(alloc),
            is_ended: false,
            answered: 0,
            signer: HeadSigner::new(),
        }
    }

    /// Takes a piece of what the peer sent, up to the end of the message at hand.
    ///
    /// `config` has the settings. They have to be the same at every call for a connection, since the promises are about
    /// one. `now` is the moment at which the piece comes. A message has the moment of the call with which its head
    /// becomes whole, or too large. `has_moment` tells whether that is this call. It may not be called while a turn
    /// waits, nor after `end`.
    ///
    /// The result tells how many bytes of the piece were taken (`len`), and what the connection needs next (`need`):
    ///
    /// - `More`: the whole piece was taken, and nothing is decided about the message yet.
    /// - `Turn`: the message is whole and sound, and its command waits for the answer. The other bytes of the piece
    ///   belong to later messages. The caller offers them again after `answer`.
    /// - `Close`: no more is read. That is so from the byte that refuses a message, after a reply that closes, and
    ///   where memory ran out. The caller sends what is unsent (`out`), and closes.
    ///
    /// A refusal is no error of the call: its reply is written. `docs/PROTOCOL.md` ("Refusals") has all of them in
    /// their order. Where memory runs out, the reply that says so is written, and the connection ends with it. Within a
    /// head this comes once the head is whole. A head that is too large is refused all the same.
    ///
    /// It takes time by the length of what it takes, and for each head that of `s3_signing::verify_head`; with the last
    /// byte of a body in the transfer coding by the length of all its data, which is then in memory twice. It takes
    /// memory for the bytes of a head, and for the Continue line and the reply. Once the head is verified, it takes
    /// memory for what is known of the message, and for the data of its body as they come. What the command reads in
    /// these takes memory too.
    ///
    /// ```text
    /// let Fed { len, need, .. } = session.feed(alloc, &config, now, piece);
    /// match need {
    ///     Need::More => {} // The next piece may come.
    ///     Need::Turn(Turn { command, moment }) => {
    ///         session.answer(store.apply(alloc, &rules, command, moment));
    ///         rest = &piece[len..]; // These are fed next.
    ///     }
    ///     Need::Close => {} // What is unsent is sent, and no more is read.
    /// }
    /// ```
    pub fn feed(&mut self, alloc: Global, config: &Config, now: Moment, piece: &[u8]) -> Fed
        requires answered { is_waiting (rules.standing_of self.old) ≡ false }
        requires goes_on { self.old.is_ended ≡ false }
        ensures within { result.len ≤ length piece.now }
        ensures stands { (past : Past) (sent : List ℕ) → inside.Stands self.old config.now past sent
            → inside.Stands self.new config.now
            (rules.fed past (take result.len piece.now) (rules.moment_if result.has_moment now) (rules.turns_of result.need)) sent }
        ensures needs { rules.Needs result.need (rules.standing_of self.new) }
        ensures closed { is_closed (rules.standing_of self.old) ≡ true → result.len ≡ 0 }
        ensures all { (past : Past) (sent : List ℕ) → inside.Stands self.old config.now past sent
            → result.need ≡ Need.More → result.len ≡ length piece.now }

        // Where memory doesn't run out, it stops at the first byte with which something is decided.
        ensures at_once { (past : Past) (sent : List ℕ) → inside.Stands self.old config.now past sent
            → is_dead (rules.standing_of self.new) ≡ false
            → rules.StaysOpen config.now past (take result.len piece.now) (rules.moment_if result.has_moment now) }
        ensures longer { rules.IsLonger (rules.unsent_of self.old) (rules.unsent_of self.new) }
        ensures goes_on { self.new.is_ended ≡ false }
    {
        verdicts_stay();
        invitations_are_final();
        s3_http_heads::verdicts_stay();
        match &self.stage {
            Stage::Reading => self.read_head(alloc, config, now, piece),
            Stage::Body(_) => {
                let Stage::Body(incoming) = mem::replace(&mut self.stage, Stage::Reading) else {
                    // The match has found that stage.
                    unreachable!()
                };
                let (len, need) = self.read_body(alloc, incoming, piece);
                Fed {
                    len,
                    need,
                    has_moment: false,
                }
            }
            Stage::Waiting(_) | Stage::Closed(_) => Fed {
                len: 0,
                need: Need::Close,
                has_moment: false,
            },
        }
    }

    // Takes as much of the piece as is the next message's, of whose head some bytes may have come.
    fn read_head(&mut self, alloc: Global, config: &Config, now: Moment, piece: &[u8]) -> Fed
        requires stage { self.old.stage ≡ Stage.Reading }
        requires goes_on { self.old.is_ended ≡ false }
        ensures within { result.len ≤ length piece.now }
        ensures fed { (rest : List ℕ) → Stands self.old.search rest
            → inside.IsFed config.now self.old self.new rest [] piece.now result.len result.need }
        ensures noted { (rest : List ℕ) → Stands self.old.search rest → IsNoted config.now self.old → IsNoted config.now self.new }
        ensures held { (rest : List ℕ) → Stands self.old.search rest → rules.moment_at self.new.stage ≢ []
            → inside.HoldsHead self.new (rest ++ take result.len piece.now) }
        ensures moment { rules.moment_at self.new.stage ≡ rules.moment_if result.has_moment now }
        ensures needs { rules.Needs result.need (rules.standing_of self.new) }
        ensures longer { rules.IsLonger (rules.unsent_of self.old) (rules.unsent_of self.new) }
        ensures end { self.new.is_ended ≡ false }
        ensures count { self.new.answered ≡ self.old.answered }
    {
        let (len, found) = self.search.feed(piece);
        match found {
            Found::NeedMore => Fed {
                len,
                need: Need::More,
                has_moment: false,
            },
            Found::TooLarge => {
                self.refuse(Code::HeadTooLarge, now, false, config.dialect());
                Fed {
                    len,
                    need: Need::Close,
                    has_moment: true,
                }
            }
            Found::Head { .. } => {
                let (behind, need) = self.begin(alloc, config, now, &piece[len..]);
                Fed {
                    len: len + behind,
                    need,
                    has_moment: true,
                }
            }
        }
    }

    // Judges the head that has come whole, and takes as much of the piece behind it as is its body's.
    fn begin(
        &mut self,
        alloc: Global,
        config: &Config,
        moment: Moment,
        piece: &[u8],
    ) -> (usize, Need)
        requires stage { self.old.stage ≡ Stage.Reading }
        ensures within { result.0 ≤ length piece.now }
        ensures fed { (rest : List ℕ) → Holds self.old.search rest → HasText rest
            → inside.IsFed config.now self.old self.new rest [] piece.now result.0 result.1 }
        ensures noted { (rest : List ℕ) → Holds self.old.search rest → HasText rest → IsNoted config.now self.new }
        ensures held { (rest : List ℕ) → Holds self.old.search rest → HasText rest
            → inside.HoldsHead self.new (rest ++ take result.0 piece.now) }
        ensures moment { rules.moment_at self.new.stage ≡ moment ∷ [] }
        ensures needs { rules.Needs result.1 (rules.standing_of self.new) }
        ensures longer { rules.IsLonger (rules.unsent_of self.old) (rules.unsent_of self.new) }
        ensures end { self.new.is_ended ≡ self.old.is_ended }
        ensures count { self.new.answered ≡ self.old.answered }
    {
        searches_find();
        bodies_are_judged();
        match open_text(alloc, config, self.search.text(), moment, &mut self.signer) {
            Opening::Admitted(incoming, invited) => match self.invite(invited) {
                Ok(()) => self.read_body(alloc, incoming, piece),
                Err(NoMemory) => {
                    drop(incoming);
                    self.die(moment);
                    (0, Need::Close)
                }
            },
            Opening::Refused { code, head_only } => {
                self.refuse(code, moment, head_only, config.dialect());
                (0, Need::Close)
            }
            Opening::Died => {
                self.die(moment);
                (0, Need::Close)
            }
        }
    }

    // Tells the client to send the body, if it is invited.
    fn invite(&mut self, invited: bool) -> Result<(), NoMemory>
        requires stage { self.old.stage ≡ Stage.Reading }
        ensures unended { self.new.outbox.is_ended ≡ false }
        ensures written { OnOk result (rules.unsent_of self.new ≡ rules.unsent_of self.old ++ (if invited then continue_line else [])) }
        ensures same { OnErr result (rules.unsent_of self.new ≡ rules.unsent_of self.old) }
        ensures cause { OnErr result ((invited ≡ true) × inside.LacksRoom self.old.outbox) }
        ensures head { rules.KeepsHead self.old self.new }
        ensures end { self.new.is_ended ≡ self.old.is_ended }
        ensures count { self.new.answered ≡ self.old.answered }
    {
        if invited {
            self.outbox.make_room()?;
            self.outbox.push(continue_reply(), None);
        }
        Ok(())
    }

    // Takes as much of the piece as is the body's.
    fn read_body(&mut self, alloc: Global, incoming: Receiving, piece: &[u8]) -> (usize, Need)
        requires unended { self.old.outbox.is_ended ≡ false }
        ensures within { result.0 ≤ length piece.now }
        ensures fed { (settings : Settings) (rest last : List ℕ) → IsIncoming settings incoming rest
            → Invites settings incoming.context.moment rest last
            → inside.IsFed settings self.old self.new rest last piece.now result.0 result.1 }
        ensures head { rules.KeepsHead self.old self.new }
        ensures moment { rules.moment_at self.new.stage ≡ incoming.context.moment ∷ [] }
        ensures needs { rules.Needs result.1 (rules.standing_of self.new) }
        ensures longer { rules.IsLonger (rules.unsent_of self.old) (rules.unsent_of self.new) }
        ensures end { self.new.is_ended ≡ self.old.is_ended }
        ensures count { self.new.answered ≡ self.old.answered }
    {
        invitations_are_final();
        s3_http_heads::verdicts_stay();
        let context = incoming.context();
        let (len, progress) = incoming.read(alloc, piece);
        (len, self.go_on(context, progress))
    }

    // Goes on with what became of a message.
    fn go_on(&mut self, context: Context, progress: Progress) -> Need
        requires unended { self.old.outbox.is_ended ≡ false }
        ensures goes_on { inside.GoesOn context progress self.old self.new result }
        ensures head { rules.KeepsHead self.old self.new }
        ensures needs { rules.Needs result (rules.standing_of self.new) }
        ensures longer { rules.IsLonger (rules.unsent_of self.old) (rules.unsent_of self.new) }
        ensures end { self.new.is_ended ≡ self.old.is_ended }
        ensures count { self.new.answered ≡ self.old.answered }
    {
        match progress {
            Progress::Open(incoming) => {
                go_to(&mut self.stage, Stage::Body(incoming));
                Need::More
            }
            Progress::Whole(command, checksum) => {
                let told = Context {
                    checksum,
                    ..context
                };
                self.ask(told, command)
            }
            Progress::Refused(code) => {
                self.refuse(code, context.moment, context.head_only, context.dialect);
                Need::Close
            }
            Progress::Died => {
                self.die(context.moment);
                Need::Close
            }
        }
    }

    // Asks for the turn of a command, once there is room for its reply.
    fn ask(&mut self, context: Context, command: Command) -> Need
        requires unended { self.old.outbox.is_ended ≡ false }
        ensures asks { inside.Asks context command self.old self.new result }
        ensures head { rules.KeepsHead self.old self.new }
        ensures needs { rules.Needs result (rules.standing_of self.new) }
        ensures longer { rules.IsLonger (rules.unsent_of self.old) (rules.unsent_of self.new) }
        ensures end { self.new.is_ended ≡ self.old.is_ended }
        ensures count { self.new.answered ≡ self.old.answered }
    {
        let moment = context.moment;
        match self.outbox.make_room() {
            Ok(()) => {
                go_to(&mut self.stage, Stage::Waiting(context));
                Need::Turn(Turn { command, moment })
            }
            Err(NoMemory) => {
                drop(command);
                self.die(moment);
                Need::Close
            }
        }
    }

    // Writes the refusal of a message of this moment, and ends.
    fn refuse(&mut self, code: Code, moment: Moment, head_only: bool, dialect: Dialect)
        requires { self.old.outbox.is_ended ≡ false }
        ensures stage { self.new.stage ≡ Stage.Closed (Closing.Refused moment code) }
        ensures head { rules.KeepsHead self.old self.new }
        ensures longer { rules.IsLonger (rules.unsent_of self.old) (rules.unsent_of self.new) }
        ensures printed { PrintsRefusal dialect code moment head_only (rules.added (rules.unsent_of self.old) (rules.unsent_of self.new)) }
        ensures end { self.new.is_ended ≡ self.old.is_ended }
        ensures count { self.new.answered ≡ self.old.answered }
    {
        let text = refusal(code, moment, head_only, dialect);
        self.outbox.end_with(text.as_slice());
        go_to(
            &mut self.stage,
            Stage::Closed(Closing::Refused(moment, code)),
        );
    }

    // Writes what stands for a reply to a message of this moment, for which memory ran out, and ends.
    fn die(&mut self, moment: Moment)
        requires { self.old.outbox.is_ended ≡ false }
        ensures stage { self.new.stage ≡ Stage.Closed (Closing.Died moment) }
        ensures head { rules.KeepsHead self.old self.new }
        ensures written { rules.unsent_of self.new ≡ rules.unsent_of self.old ++ internal_error }
        ensures end { self.new.is_ended ≡ self.old.is_ended }
        ensures count { self.new.answered ≡ self.old.answered }
    {
        self.outbox.end_with(internal_error_reply());
        go_to(&mut self.stage, Stage::Closed(Closing::Died(moment)));
    }

    /// Answers the turn that `feed` asked for, and tells what the connection needs next. A turn has to be waiting.
    ///
    /// `Ok` has the answer of the store, whose reply is written. The result is `Close` where this reply closes the
    /// connection, and `More` otherwise. `Err` tells that memory ran out at the turn. The reply that says so is written
    /// then, and the result is `Close`.
    ///
    /// It takes no memory: the room for the reply was taken before the turn was asked for.
    pub fn answer(&mut self, answered: Result<Answer, NoMemory>) -> Next
        requires waits { is_waiting (rules.standing_of self.old) ≡ true }
        ensures stands { (settings : Settings) (past : Past) (sent : List ℕ) → inside.Stands self.old settings past sent
            → inside.Stands self.new settings (rules.answered past answered) sent }
        ensures standing { rules.IsAnsweredTo answered (rules.standing_of self.new) }
        ensures needs { rules.NeedsNext result (rules.standing_of self.new) }
        ensures longer { rules.IsLonger (rules.unsent_of self.old) (rules.unsent_of self.new) }
        ensures end { self.new.is_ended ≡ self.old.is_ended }
    {
        let Stage::Waiting(context) = self.stage else {
            // The caller knows that a command waits.
            unreachable!()
        };
        match answered {
            Ok(answer) => {
                self.answered = self.answered.saturating_add(1);
                self.make_ready(context.closes);
                self.reply(answer, &context);
                next_behind(context.closes)
            }
            Err(NoMemory) => {
                self.die(context.moment);
                Next::Close
            }
        }
    }

    // Makes ready for the next message, or closes.
    fn make_ready(&mut self, closes: bool)
        requires unended { self.old.outbox.is_ended ≡ false }
        ensures ready { inside.IsReady closes self.new }
        ensures outbox { self.new.outbox ≡ self.old.outbox }
        ensures noted { self.new.is_verified ≡ false }
        ensures end { self.new.is_ended ≡ self.old.is_ended }
        ensures count { self.new.answered ≡ self.old.answered }
    {
        self.signer.begins();
        if closes {
            go_to(&mut self.stage, Stage::Closed(Closing::Replied));
        } else {
            self.search.clear();
            go_to(&mut self.stage, Stage::Reading);
        }
    }

    // Writes the reply to an answer.
    fn reply(&mut self, answer: Answer, context: &Context)
        requires ready { inside.IsReady context.now.closes self.old }
        requires room { self.old.outbox.has_room ≡ true }
        requires unended { self.old.outbox.is_ended ≡ false }
        ensures ready { inside.IsReady context.now.closes self.new }
        ensures head { rules.KeepsHead self.old self.new }
        ensures printed { Prints answer context.now (rules.added (rules.unsent_of self.old) (rules.unsent_of self.new)) }
        ensures longer { rules.IsLonger (rules.unsent_of self.old) (rules.unsent_of self.new) }
        ensures end { self.new.is_ended ≡ self.old.is_ended }
        ensures count { self.new.answered ≡ self.old.answered }
    {
        let context = *context;
        self.outbox.print(AnswerTo { answer, context });
    }

    /// Says that no more bytes come. What `feed` didn't take has to be offered before.
    ///
    /// A message whose body isn't whole is refused with `IncompleteBody`. Of a message whose head isn't whole nothing
    /// is said. A command that waits goes on waiting. It takes no memory.
    pub fn end(&mut self)
        ensures stands { (settings : Settings) (past : Past) (sent : List ℕ) → inside.Stands self.old settings past sent
            → inside.Stands self.new settings (record past { ended = true }) sent }
        ensures waits { is_waiting (rules.standing_of self.new) ≡ is_waiting (rules.standing_of self.old) }
        ensures lives { is_dead (rules.standing_of self.new) ≡ is_dead (rules.standing_of self.old) }
        ensures longer { rules.IsLonger (rules.unsent_of self.old) (rules.unsent_of self.new) }
        ensures end { self.new.is_ended ≡ true }
    {
        if self.is_ended {
            return;
        }
        verdicts_stay();
        invitations_are_final();
        s3_http_heads::verdicts_stay();
        self.is_ended = true;
        if self.is_in_body() {
            self.cut();
        }
    }

    // Refuses the message whose body is cut short.
    fn cut(&mut self)
        requires body { inside.is_in_body self.old.stage ≡ true }
        ensures cut { (incoming : Incoming) → self.old.stage ≡ Stage.Body incoming → (settings : Settings) (rest : List ℕ)
            → IsInBody settings incoming rest → inside.IsCutTo settings incoming.context rest self.old self.new }
        ensures head { rules.KeepsHead self.old self.new }
        ensures waits { is_waiting (rules.standing_of self.new) ≡ false }
        ensures lives { is_dead (rules.standing_of self.new) ≡ false }
        ensures longer { rules.IsLonger (rules.unsent_of self.old) (rules.unsent_of self.new) }
        ensures end { self.new.is_ended ≡ self.old.is_ended }
        ensures count { self.new.answered ≡ self.old.answered }
    {
        let Stage::Body(incoming) = mem::replace(&mut self.stage, Stage::Reading) else {
            // The caller knows that it is in a body.
            unreachable!()
        };
        let context = incoming.context();
        if let Err(code) = incoming.end() {
            self.refuse(code, context.moment, context.head_only, context.dialect);
        }
    }

    /// Whether the head of a message was admitted, and of its body, which isn't empty, nothing is decided yet.
    /// It takes no memory.
    pub fn in_body(&self) -> bool
        ensures reads { (settings : Settings) (past : Past) (sent : List ℕ) → inside.Stands self.now settings past sent
            → result ≡ true → ReadsBody settings past }
        ensures only { (settings : Settings) (past : Past) (sent : List ℕ) → inside.Stands self.now settings past sent
            → is_dead (rules.standing_of self.now) ≡ false → ReadsBody settings past → result ≡ true }
    {
        bodies_are_judged();
        sessions_write();
        inputs_fix_outputs();
        self.is_in_body()
    }

    // Whether it reads a body.
    fn is_in_body(&self) -> bool
        ensures { result ≡ inside.is_in_body self.now.stage }
    {
        matches!(self.stage, Stage::Body(_))
    }
}
