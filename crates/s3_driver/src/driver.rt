//! A connection that is driven over a device.

ghost use Rattle.std.specs.Prelude.{◌≡◌, ◌≢◌, ◌<◌, ◌≤◌, ◌+◌, ◌*◌, ℕ, List, [], ◌++◌, length, true, false, None, IfSome};
ghost use mathlib.Core.List.{IsPrefix};
ghost use Rattle.s3_config.specs.Settings.{Settings};
ghost use Rattle.s3_machine.specs.History.{Entry};
ghost use Rattle.s3_machine.specs.declared.turn.Turn.{Turn};
ghost use Rattle.s3_connection.specs.Connection as connections;
ghost use Rattle.s3_connection.specs.Connection.{entries_with, taken_of};
ghost use Rattle.s3_devices.specs.Device.{Traffic};
ghost use Rattle.s3_session.specs.Session.{moment_if};

use crate::observer::MessageObserver;
use crate::state::{Ending, Moved, State};
use crate::told::{Told, told_of};
use s3_calendar::Moment;
use s3_config::Config;
use s3_connection::{Connection, Wants};
use s3_devices::{Device, Reading, Writing};
use s3_history::{AsItself, Recorder};
use s3_machine::{Answer, Turn};
use s3_terms::{Code, NoMemory};
use std::alloc::Global;
use std::marker::Model;

/// One connection that is driven over a device. It makes no turn: it says that one waits, and its caller takes that to the store
/// and gives the answer back.
///
/// At rest it is small. The buffer that its device is read into belongs to whoever serves it. Of what was read it keeps
/// only the bytes after a message whose command waits, until the reply to that is out.
#[derive(Drop)]
pub struct Driver {
    connection: Connection,
    // Whether a part of a message has come, and whether the input's end. No clause sees them: they decide nothing that is
    // written.
    is_within: bool,
    has_ended: bool,
}

impl Model for Driver {
    ghost use Rattle.s3_connection.specs.Connection.{Connected};

    ghost Value = { Connected };

    ghost view = { λ d. d.connection };
}

impl Driver {
    ghost use Rattle.s3_driver.specs.Served as rules;

    /// A connection of which nothing has come. It takes no memory.
    pub fn new(alloc: Global) -> Driver
        ensures new { rules.IsNew result }
    {
        Driver {
            connection: Connection::new(alloc),
            is_within: false,
            has_ended: false,
        }
    }

    /// Has the connection go on until it waits for bytes, for room or for its turn, or has ended; and by at most `moves`
    /// moves. A move is a read, a write, or what came while a turn waited.
    ///
    /// What was written goes out first. While any of it isn't out, nothing is read, no turn is asked for, and nothing kept
    /// is taken. Messages whose heads become whole meanwhile have the moment `now`, which the recorder is told. The
    /// observer is told what becomes of messages.
    ///
    /// `buffer` is what the device is read into. It may not be empty, and nothing in it is needed after the call. The
    /// settings have to be the same at every call for a connection. Nobody else may use its device or its
    /// recorder, since the promises are about one connection.
    ///
    /// Where memory runs out, the connection writes the reply that says so, and ends. It takes time and memory as
    /// `Connection::piece` of `s3_connection` does for what it reads.
    pub fn go_on<D: Device, O: MessageObserver>(
        &mut self,
        alloc: Global,
        config: &Config,
        moments: &mut Recorder<Moment>,
        observer: &mut O,
        device: &mut D,
        buffer: &mut [u8],
        now: Moment,
        moves: u32,
    ) -> Moved
        requires room { 0 < length buffer.old }
        ensures served { (entries : List Entry) → rules.IsServed config.now self.old (D.traffic device.old) moments.old.entries entries
            → rules.IsServed config.now self.new (D.traffic device.new) moments.new.entries entries }
        ensures moments { rules.HaveMore now moments.old.entries moments.new.entries }
        ensures goes_on { rules.GoesOn (D.traffic device.old) (D.traffic device.new) }
        ensures told { rules.TellsMoves result (D.traffic device.old) (D.traffic device.new) }

        // It ends at the first failure of its device.
        ensures met { rules.HasMet result.may_go_on result.state (D.traffic device.old) (D.traffic device.new) }
        ensures stops { rules.StopsAt result.may_go_on result.state self.new }
        ensures idle { taken_of self.old ≡ None → taken_of self.new ≡ None }

        // It may go on only where it has made all moves.
        ensures moves { taken_of self.old ≡ None → result.may_go_on ≡ true
            → rules.progress_of self.old (D.traffic device.old) + moves ≤ rules.progress_of self.new (D.traffic device.new) }
    {
        let mut moved = Moved::on(self.state_in_motion(), false, false);
        for _ in 0..moves {
            let next = self.act(alloc, config, moments, observer, device, buffer, now);
            moved = moved.then(next);
            if !next.may_go_on {
                return moved;
            }
        }
        moved
    }

    // Makes one move, or stops.
    fn act<D: Device, O: MessageObserver>(
        &mut self,
        alloc: Global,
        config: &Config,
        moments: &mut Recorder<Moment>,
        observer: &mut O,
        device: &mut D,
        buffer: &mut [u8],
        now: Moment,
    ) -> Moved
        requires room { 0 < length buffer.old }
        ensures served { (entries : List Entry) → rules.IsServed config.now self.old (D.traffic device.old) moments.old.entries entries
            → rules.IsServed config.now self.new (D.traffic device.new) moments.new.entries entries }
        ensures moments { rules.HaveMore now moments.old.entries moments.new.entries }
        ensures goes_on { rules.GoesOn (D.traffic device.old) (D.traffic device.new) }
        ensures told { rules.TellsMoves result (D.traffic device.old) (D.traffic device.new) }
        ensures met { rules.HasMet result.may_go_on result.state (D.traffic device.old) (D.traffic device.new) }
        ensures stops { rules.StopsAt result.may_go_on result.state self.new }
        ensures idle { taken_of self.old ≡ None → taken_of self.new ≡ None }
        ensures moves { taken_of self.old ≡ None → result.may_go_on ≡ true
            → rules.progress_of self.old (D.traffic device.old) < rules.progress_of self.new (D.traffic device.new) }
    {
        if self.has_unsent() {
            return self.write(observer, device);
        }
        match self.connection.wants() {
            Wants::Input => self.read(alloc, config, moments, observer, device, buffer, now),
            Wants::Answer => {
                self.is_within = false;
                Moved::stopped(State::Turn)
            }
            Wants::ToGoOn => {
                self.take_kept(alloc, config, moments, observer, now);
                Moved::on(self.state_in_motion(), false, false)
            }
            Wants::Nothing => Moved::stopped(State::Ended(Ending::Closed)),
        }
    }

    /// Whether the end of its input was read. It takes no memory.
    pub fn has_ended(&self) -> bool {
        self.has_ended
    }

    /// Whether it reads a message whose first byte can begin no request line: neither a method does so, nor an empty line
    /// before it (RFC 9112, section 2.2). A TLS hello is one. It takes no memory.
    pub fn begins_no_head(&self) -> bool {
        match self.connection.head() {
            Some([first, ..]) => self.is_within && !may_begin(*first),
            _ => false,
        }
    }

    // Whether something that it wrote isn't out.
    fn has_unsent(&self) -> bool
        ensures some { result ≡ true → connections.unsent_of self.now ≢ [] }
        ensures none { result ≡ false → connections.unsent_of self.now ≡ [] }
    {
        !self.connection.out().is_empty()
    }

    // What it waits for where it waits for bytes.
    fn state_at_rest(&self) -> State
        ensures { rules.IsForInput result }
    {
        if self.connection.is_in_body() {
            State::Body
        } else if self.is_within {
            State::Head
        } else {
            State::Message
        }
    }

    // How it stands where it may go on: the time of a head of which a part has come runs on.
    fn state_in_motion(&self) -> State
        ensures { rules.IsForInput result }
    {
        if self.is_within && !self.connection.is_in_body() {
            State::Head
        } else {
            State::Body
        }
    }

    // Writes some of what is unsent.
    fn write<D: Device, O: MessageObserver>(&mut self, observer: &mut O, device: &mut D) -> Moved
        requires some { connections.unsent_of self.old ≢ [] }
        ensures sent { rules.HasSent self.old self.new (D.traffic device.old) (D.traffic device.new) }
        ensures told { rules.TellsMoves result (D.traffic device.old) (D.traffic device.new) }
        ensures met { rules.HasMet result.may_go_on result.state (D.traffic device.old) (D.traffic device.new) }
        ensures stops { rules.StopsAt result.may_go_on result.state self.new }
        ensures moves { result.may_go_on ≡ true → length (D.traffic device.old).sent < length (D.traffic device.new).sent }
    {
        match device.write(&self.connection.parts()) {
            Writing::Took(count) => {
                self.connection.sent(count);
                observer.wrote(count, !self.has_unsent());
                Moved::on(self.state_in_motion(), false, true)
            }
            Writing::Later => Moved::stopped(State::Room),
            Writing::Failed => Moved::stopped(State::Ended(Ending::WriteFailed)),
        }
    }

    // Reads a piece, and gives it to the connection, or tells it the end.
    fn read<D: Device, O: MessageObserver>(
        &mut self,
        alloc: Global,
        config: &Config,
        moments: &mut Recorder<Moment>,
        observer: &mut O,
        device: &mut D,
        buffer: &mut [u8],
        now: Moment,
    ) -> Moved
        requires reads { connections.wants_of self.old ≡ Wants.Input }
        requires none { connections.unsent_of self.old ≡ [] }
        requires room { 0 < length buffer.old }
        ensures read { rules.HasRead config.now now self.old self.new (D.traffic device.old) (D.traffic device.new) moments.old.entries moments.new.entries }
        ensures received { IsPrefix (D.traffic device.old).received (D.traffic device.new).received }
        ensures told { rules.TellsMoves result (D.traffic device.old) (D.traffic device.new) }
        ensures met { rules.HasMet result.may_go_on result.state (D.traffic device.old) (D.traffic device.new) }
        ensures stops { rules.StopsAt result.may_go_on result.state self.new }
        ensures moves { result.may_go_on ≡ true
            → rules.weight_of self.old (D.traffic device.old) < rules.weight_of self.new (D.traffic device.new) }
    {
        match device.read(buffer) {
            Reading::Bytes(len) => {
                if let Ok(is_given) = self.connection.piece(alloc, config, now, &buffer[..len]) {
                    tell(moments, observer, now, is_given);
                }
                self.tell_ended(observer, true);
                self.is_within = matches!(self.connection.wants(), Wants::Input);
                Moved::on(self.state_in_motion(), true, false)
            }
            Reading::End => {
                self.has_ended = true;
                self.connection.end();
                self.tell_ended(observer, false);
                Moved::on(self.state_in_motion(), false, false)
            }
            Reading::Later => Moved::stopped(self.state_at_rest()),
            Reading::Failed => Moved::stopped(State::Ended(Ending::ReadFailed)),
        }
    }

    // Takes what came while a turn waited, after its answer.
    fn take_kept<O: MessageObserver>(
        &mut self,
        alloc: Global,
        config: &Config,
        moments: &mut Recorder<Moment>,
        observer: &mut O,
        now: Moment,
    )
        requires answered { connections.wants_of self.old ≡ Wants.ToGoOn }
        ensures took { rules.HasTaken config.now now self.old self.new [] moments.old.entries moments.new.entries }
        ensures moves { taken_of self.old ≡ None → rules.stage_weight self.old.stage < rules.stage_weight self.new.stage }
    {
        let has_kept = self.connection.has_kept();
        let is_given = self.connection.go_on(alloc, config, now);
        tell(moments, observer, now, is_given);
        self.tell_ended(observer, is_given);
        self.is_within = has_kept && matches!(self.connection.wants(), Wants::Input);
    }

    /// Hands out the turn that waits, if one does. It has to be answered then (`answer`), before the connection goes on. It
    /// takes no memory.
    pub fn take_turn(&mut self) -> Option<Turn>
        ensures value { result ≡ connections.turn_of self.old }
        ensures asked { IfSome result (rules.HasAsked self.old self.new) }
        ensures none { result ≡ None → self.new ≡ self.old }
    {
        self.connection.take_turn()
    }

    /// Gives the answer to the turn that was taken, or tells that memory ran out at it. Its reply is written, and isn't out yet.
    /// It takes no memory.
    pub fn answer<O: MessageObserver>(
        &mut self,
        alloc: Global,
        observer: &mut O,
        answered: Result<Answer, NoMemory>,
    )
        requires taken { taken_of self.old ≢ None }
        ensures served { (settings : Settings) (traffic : Traffic) (moments : List ℕ) (entries : List Entry) (turn : Turn)
            → rules.IsAsking settings self.old traffic moments entries turn
            → rules.IsServed settings self.new traffic moments (entries_with entries turn answered) }
        ensures idle { taken_of self.new ≡ None }
    {
        self.tell_answered(observer, &answered);
        self.connection.answer(alloc, answered);
    }

    // Tells what the message at hand was answered.
    fn tell_answered<O: MessageObserver>(
        &self,
        observer: &mut O,
        answered: &Result<Answer, NoMemory>,
    ) {
        let told = told_of(answered);
        observer.ends(self.connection.head(), self.connection.is_verified(), told);
    }

    // Tells that the message at hand was refused, if one was; or that memory ran out for it, where no more is read for another reason
    // and it had begun.
    fn tell_ended<O: MessageObserver>(&self, observer: &mut O, had_begun: bool) {
        if !matches!(self.connection.wants(), Wants::Nothing) {
            return;
        }
        let code = match self.connection.fault() {
            Some(fault) => fault.code,
            None if had_begun => Code::InternalError,
            None => return,
        };
        let told = Told::refused(code);
        observer.ends(self.connection.head(), self.connection.is_verified(), told);
    }
}

// Whether this byte may begin a request line, or an empty line before one: the characters of a token (RFC 9110, section 5.6.2), and
// those of a line's end.
fn may_begin(byte: u8) -> bool {
    byte.is_ascii_alphanumeric() || b"!#$%&'*+-.^_`|~\r\n".contains(&byte)
}

// Tells the recorder a moment that a message has, if it does, and the observer that it begins.
fn tell<O: MessageObserver>(
    moments: &mut Recorder<Moment>,
    observer: &mut O,
    now: Moment,
    is_given: bool,
)
    ensures told { moments.new.entries ≡ moments.old.entries ++ moment_if is_given now }
    ensures origin { moments.new.origin ≡ moments.old.origin }
{
    if is_given {
        moments.record::<Moment, AsItself>(&now);
        observer.begins(now);
    }
}
