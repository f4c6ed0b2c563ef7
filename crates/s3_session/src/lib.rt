//! One connection as a machine (`Session`). It takes the bytes that a peer sent, hands out the turns of commands, and
//! has the bytes to send. It makes no call of the system. The laws say what all connections have in common; they run
//! nothing.
#![tactic(auto)]

mod admission;
mod fault;
mod heads;
mod incoming;
mod laws;
mod opening;
mod reply;
mod sending;
mod session;
mod signer;

pub use admission::{Admission, admit};
pub use fault::Fault;
pub use laws::{
    completions_are_read_back, copies_are_read_back, faults_are_one, faults_are_printed,
    faults_end, heads_decide, inputs_fix_outputs, invitations_are_final, outputs_are_one,
    outputs_stay, puts_are_read_back, sessions_write, sound_messages_stand_alone,
    sound_verdicts_are_exact, stored_is_read_back, verdicts_are_one, verdicts_exist, verdicts_stay,
};
pub use session::{Fed, Need, Next, Session};
pub use signer::HeadSigner;
