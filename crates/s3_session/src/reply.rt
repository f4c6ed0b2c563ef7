//! The reply to an answer, as it is printed into the room that waits for it.

ghost use Rattle.s3_replies.specs.Replies.{Prints};

use s3_bodies::Body;
use s3_machine::Answer;
use s3_outbox::PrintedReply;
use s3_replies::{Context, print_reply};

/// An answer of the machine, and what its reply takes from the message that it answers.
#[derive(Drop)]
pub(crate) struct AnswerTo {
    pub(crate) answer: Answer,
    pub(crate) context: Context,
}

impl PrintedReply for AnswerTo {
    ghost is_printed = { λ reply text. Prints reply.answer reply.context text };

    fn print(self, out: &mut Vec<u8>) -> Option<Body> {
        print_reply(self.answer, &self.context, out)
    }
}
