//! The body of a message whose head was admitted, as it comes.

ghost use Rattle.std.specs.Prelude.{◌≡◌, ◌≢◌, ◌⊎◌, ◌<◌, ◌≤◌, ◌-◌, ℕ, Bool, true, false, List, ◌++◌, length, take, IfOk};
ghost use Rattle.s3_config.specs.Settings.{Settings};
ghost use Rattle.s3_framed_bodies.specs.Framed.{FramedBody};
ghost use Rattle.s3_framed_bodies.specs.Reader.{Stands, taken_of, verdict_of};
ghost use Rattle.s3_session.specs.Decision.{Judges, open_yet};
ghost use Rattle.s3_session.specs.Incoming as rules;

use crate::admission::Admission;
use s3_bodies::Payload;
use s3_framed_bodies::{
    accepted_bodies_are_whole, bodies_are_judged, open_bodies_are_short, refusals_stand,
    verdicts_are_final,
};
use s3_integrity::Checksum;
use s3_machine::Command;
use s3_replies::Context;
use s3_requests::{Plan, command};
use s3_terms::{Code, NoMemory};
use std::alloc::Global;
use std::marker::Model;

// A message whose head was admitted: what it asks for, with the reader of its body, and what its reply takes from it.
#[derive(Drop)]
pub(crate) struct Incoming {
    pub(crate) admission: Admission,
    pub(crate) context: Context,
}

// The same in memory of its own, so that a connection at rest takes none for it.
#[derive(Drop)]
pub(crate) struct Receiving {
    incoming: Box<Incoming>,
}

impl Model for Receiving {
    ghost use Rattle.s3_session.specs.declared.incoming.Incoming.{Incoming};

    ghost Value = { Incoming };

    ghost view = { λ r. r.incoming.value };
}

// What became of it.
#[derive(Drop)]
pub(crate) enum Progress {
    // Bytes of the body are still to come.
    Open(Receiving),
    // It is sound: its command, and the checksum that was found of its body.
    Whole(Command, Option<Checksum>),
    // It is refused.
    Refused(Code),
    // Memory ran out.
    Died,
}

impl Receiving {
    // Puts it there.
    pub(crate) fn new(alloc: Global, incoming: Incoming) -> Result<Receiving, NoMemory>
        ensures { IfOk result (λ receiving. receiving ≡ incoming) }
    {
        Ok(Receiving {
            incoming: Box::new(alloc, incoming)?,
        })
    }

    // What its reply takes from it.
    pub(crate) fn context(&self) -> Context
        ensures { result ≡ self.now.context }
    {
        self.incoming.context
    }

    // Takes as much of the piece as is the body's: how many bytes those are, up to the one at which the body is refused,
    // and what became of the message with them.
    pub(crate) fn read(mut self, alloc: Global, piece: &[u8]) -> (usize, Progress)
        ensures within { result.0 ≤ length piece.now }
        ensures read { (settings : Settings) (rest : List ℕ) → rules.IsIncoming settings self rest
            → rules.Progresses settings self.context (rest ++ take result.0 piece.now) result.1 }
        ensures all { (settings : Settings) (rest : List ℕ) → rules.IsIncoming settings self rest
            → rules.is_open result.1 ≡ true → result.0 ≡ length piece.now }
        ensures at_once { (settings : Settings) (rest : List ℕ) → rules.IsIncoming settings self rest
            → result.1 ≢ Progress.Died → (n : ℕ) → n < result.0
            → Judges settings self.context.moment false (rest ++ take n piece.now) open_yet }
        ensures kept { rules.context_in self.context result.1 ≡ self.context }
    {
        bodies_are_judged();
        open_bodies_are_short();
        refusals_stand();
        accepted_bodies_are_whole();
        verdicts_are_final();
        s3_http_heads::verdicts_stay();
        let before = self.incoming.admission.reader.taken();
        match self.incoming.admission.reader.feed(piece) {
            Ok(len) => (len, self.settled(alloc)),
            Err(code) => {
                let len = self.taken_since(before);
                drop(self);
                (len, refused(code))
            }
        }
    }

    // How many bytes of the body were taken since so many had been.
    fn taken_since(&self, before: u64) -> usize
        requires { before ≤ taken_of self.now.admission.reader }
        ensures { result ≡ taken_of self.now.admission.reader - before }
    {
        (self.incoming.admission.reader.taken() - before) as usize
    }

    // Says that no more bytes of it come: with what code it is refused.
    pub(crate) fn end(mut self) -> Result<(), Code>
        ensures { (settings : Settings) (rest : List ℕ) → rules.IsInBody settings self rest → rules.IsCut settings self.context rest result }
    {
        bodies_are_judged();
        open_bodies_are_short();
        let ended = self.incoming.admission.reader.end();
        drop(self);
        ended
    }

    // What became of it with the bytes so far, where nothing refuses them.
    fn settled(self, alloc: Global) -> Progress
        ensures settles { (announced : FramedBody) (bytes : List ℕ) (ended : Bool)
            → Stands self.admission.reader announced bytes ended
            → rules.Settles announced.form self (verdict_of self.admission.reader) result }
        ensures kept { rules.context_in self.context result ≡ self.context }
    {
        if !self.incoming.admission.reader.is_whole() {
            return Progress::Open(self);
        }
        let Admission { reader, plan, .. } = Box::into_inner(self.incoming).admission;
        let sum = reader.sum();
        match reader.finish() {
            Ok(payload) => commanded(alloc, plan, sum, payload),
            Err(code) => {
                drop(plan);
                Progress::Refused(code)
            }
        }
    }
}

// What becomes of a message with its whole body, and the checksum that was found of it.
fn commanded(alloc: Global, plan: Plan, sum: Option<Checksum>, payload: Payload) -> Progress
    ensures settles { rules.IsCommanded plan sum payload result }
    ensures kept { (context : Context) → rules.context_in context result ≡ context }
{
    match command(alloc, plan, sum, payload) {
        Ok(command) => Progress::Whole(command, sum),
        Err(code) => refused(code),
    }
}

// What becomes of a message that its reader or its operation refuses.
fn refused(code: Code) -> Progress
    ensures { rules.IsRefusedBy code result }
{
    match code {
        Code::InternalError => Progress::Died,
        code => Progress::Refused(code),
    }
}
