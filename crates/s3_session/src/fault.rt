//! The first fault of a connection.

ghost use Rattle.std.specs.Prelude.{◌≡◌, ◌≢◌, ℕ, Bool, true, false, List, ◌++◌, IfSome, None};
ghost use mathlib.Core.List.{IsPrefix};
ghost use Rattle.s3_config.specs.Settings.{Settings};
ghost use Rattle.s3_session.specs.Fault.{HasNoFault, IsFault};
ghost use Rattle.s3_session.specs.Output.{Over, Past, is_dead, is_waiting};
ghost use Rattle.s3_session.specs.PrintedFault.{EndsWithRefusal};
ghost use Rattle.s3_session.specs.Session.{IsUnheard, refused_at, standing_of, unsent_of};
ghost use Rattle.s3_session.specs.Stands.{Stands};

use crate::laws::{invitations_are_final, verdicts_are_one, verdicts_stay};
use crate::session::{Closing, Session, Stage};
use s3_framed_bodies::bodies_are_judged;
use s3_terms::Code;

/// The first message of a connection that is refused. None after it is read.
#[derive(Clone, Copy)]
pub struct Fault {
    /// Which of the connection's messages it is, counted from 0; `u64::MAX` where that is more.
    pub message: u64,
    /// Why it is refused.
    pub code: Code,
}

// The code of the message that was refused, if one was.
pub(crate) fn refused_code(stage: &Stage) -> Option<Code>
    ensures { result ≡ refused_at stage.now }
{
    match stage {
        Stage::Closed(Closing::Refused(_, code)) => Some(*code),
        _ => None,
    }
}

impl Session {
    /// The first of its messages that was refused, if one was. What the connection has written ends with the refusal of that
    /// message. It takes no memory.
    pub fn fault(&self) -> Option<Fault>
        ensures some { (settings : Settings) (past : Past) (sent : List ℕ) → Stands self.now settings past sent
            → IfSome result (λ fault. IsFault settings past.bytes past.ended past.moments fault.message fault.code) }
        ensures printed { (settings : Settings) (past : Past) (sent : List ℕ) → Stands self.now settings past sent
            → IfSome result (λ fault. EndsWithRefusal settings past (sent ++ unsent_of self.now) fault.message fault.code) }
        ensures over { result ≢ None → standing_of self.now ≡ Over }

        // Else none is refused, whatever it hears of no more and whatever moments follow; where a command waits, up to its message.
        ensures none { (settings : Settings) (past : Past) (sent more : List ℕ) (ended : Bool) (moments : List ℕ) → Stands self.now settings past sent
            → is_dead (standing_of self.now) ≡ false → IsUnheard (standing_of self.now) past more ended
            → IsPrefix past.moments moments → (is_waiting (standing_of self.now) ≡ true → moments ≡ past.moments)
            → result ≡ None → HasNoFault settings (past.bytes ++ more) ended moments }
    {
        verdicts_are_one();
        verdicts_stay();
        invitations_are_final();
        s3_http_heads::verdicts_stay();
        bodies_are_judged();
        Some(Fault {
            message: self.answered,
            code: refused_code(&self.stage)?,
        })
    }
}
