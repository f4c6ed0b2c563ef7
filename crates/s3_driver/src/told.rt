//! What comes of a message, as its line tells it.

ghost use Rattle.std.specs.Prelude.{◌≡◌, true};
ghost use Rattle.s3_driver.specs.Told as rules;

use s3_conditions::Selection;
use s3_machine::{Answer, Outcome};
use s3_replies::reply_status;
use s3_terms::{Code, NoMemory, Status};

/// What comes of a message.
#[derive(Clone, Copy)]
pub struct Told {
    /// The status of its reply.
    pub status: Status,
    /// Why it was refused, if it was.
    pub code: Option<Code>,
    /// The number of the answer that its reply tells, if the store answered.
    pub number: Option<u64>,
}

impl Told {
    /// It was refused with this code.
    pub fn refused(code: Code) -> Told
        ensures { result ≡ rules.refused_with code }
    {
        Told {
            status: code.status(),
            code: Some(code),
            number: None,
        }
    }

    /// Whether it was answered with all that it asked for, as most are.
    pub fn is_answer(&self) -> bool
        ensures { result ≡ true → self.now ≡ rules.answered self.now.number }
    {
        matches!(
            self,
            Told {
                status: Status::Ok,
                code: None,
                number: _,
            }
        )
    }
}

/// What comes of a message whose command was answered so; where memory ran out at it, `InternalError`.
pub fn told_of(answered: &Result<Answer, NoMemory>) -> Told
    ensures { rules.IsToldOf answered.now result }
{
    match answered {
        Ok(answer) => Told {
            status: reply_status(&answer.outcome),
            code: code_of(&answer.outcome),
            number: Some(answer.number),
        },
        Err(NoMemory) => Told::refused(Code::InternalError),
    }
}

// Why the reply refuses, if it does.
fn code_of(outcome: &Outcome) -> Option<Code>
    ensures { result ≡ rules.code_in outcome.now }
{
    match outcome {
        Outcome::Refused { code, .. } => Some(*code),
        Outcome::Got {
            selection: Selection::Outside,
            ..
        }
        | Outcome::OutOfRange { .. } => Some(Code::InvalidRange),
        _ => None,
    }
}
