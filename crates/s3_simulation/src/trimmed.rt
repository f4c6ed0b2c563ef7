//! That what is refused leaves no trace: laws, with nothing to run.

ghost use Rattle.s3_simulation.specs.Trimmed.{FaultsHavePlaces, KeptRuns, OneTrim, OneTrimOneRun, RefusedLeavesNothing};

use s3_connection::outputs_are_one;
use s3_session::{faults_end, outputs_stay, sound_messages_stand_alone};

/// A law: where memory runs out in no connection, events leave the same entries, and the same outputs of the connections of which all
/// is kept for which they wrote something, without connections of which no message is sound, and of others without what stands behind
/// the byte that refuses a message, or without all that stands behind whole sound messages, where the next message is refused. So such
/// a message makes no entry and changes nothing that another connection writes, whoever sends it and whenever it comes. That the
/// messages in front of it are sound by themselves is asked for there (`IsRefusedAt`), and is so of each first fault
/// of a connection (`faults_have_places`). Memory ran out in no connection where no output ends with the reply that
/// says so (`deaths_show`). There is nothing to run.
pub fn refused_leaves_nothing()
    ensures runs { KeptRuns }
    ensures same { RefusedLeavesNothing }
{
    outputs_are_one();
    outputs_stay();
    faults_end();
}

/// A law: of each connection with a first fault, the message that is refused may be dropped with all behind it, since
/// those in front of it are sound by their own bytes alone. There is nothing to run.
pub fn faults_have_places()
    ensures { FaultsHavePlaces }
{
    sound_messages_stand_alone();
}

/// A law: events have one list of trimmed events; and two lists of events with the same trimmed events leave the same entries, and
/// the same outputs of the connections of which an event is left in these, where memory runs out in no connection. There is nothing
/// to run.
pub fn trims_are_one()
    ensures one { OneTrim }
    ensures run { OneTrimOneRun }
{
    outputs_are_one();
    outputs_stay();
    faults_end();
}
