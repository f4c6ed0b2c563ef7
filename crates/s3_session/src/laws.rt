//! What is known of all connections: laws, with nothing to run.

ghost use Rattle.s3_session.specs.ReadBack.{EveryReplay, StoredIsReadBack, VersionsAreReadBack, OnlyStoredIsReadBack, OnlyStoredIsShown, PutsAreReadBack, PutVersionsAreReadBack, CopiesAreReadBack, CopyVersionsAreReadBack, CompletionsAreReadBack, CompletionVersionsAreReadBack, PayloadsAreBrought, PayloadsAreSent};
ghost use Rattle.s3_session.specs.Fault.{FaultsEnd, FaultsStay, OneFault, RefusedIsNothing};
ghost use Rattle.s3_session.specs.PrintedFault.{FaultsArePrinted, PrintedAreFaults, TwoEnds};
ghost use Rattle.s3_session.specs.Laws.{EndsAreTold, HeadlessAreSilent, HeadsAreDecided, InvitationsStay, OneInvitation, OneOutput, OneVerdict, OneWriting, OutputsStay, VerdictsExist, VerdictsStay, SoundAlone, SoundMessages, SoundIsJudged, SoundWalksAlone};
ghost use Rattle.s3_session.specs.Stands.{SessionsWrite};

use s3_framed_bodies::{accepted_bodies_are_whole, bodies_are_judged, verdicts_are_final};
use s3_http_heads::{texts_say_one_thing, verdict_is_exact};
use s3_machine::{
    completions_are_kept, copies_are_kept, histories_leave_sound_bases, only_stored_is_given,
    parts_have_a_source, puts_are_kept, stored_is_kept,
};
use s3_replies::{refusals_are_unique, replies_are_unique, replies_show_what_came};
use s3_requests::{plans_are_unbroken, ready_plans_bring_nothing};

/// A law: a verdict, other than open, that is reached before the bytes have ended is the verdict on those
/// bytes followed by anything, so that how a connection's bytes are cut into pieces decides nothing. There
/// is nothing to run.
pub fn verdicts_stay()
    ensures { VerdictsStay }
{
    s3_http_heads::verdicts_stay();
    verdict_is_exact();
    verdicts_are_final();
    accepted_bodies_are_whole();
}

/// A law: settings, moment, bytes and whether they end leave at most one verdict, with one rest.
/// There is nothing to run.
pub fn verdicts_are_one()
    ensures { OneVerdict }
{
    texts_say_one_thing();
    verdicts_are_final();
}

/// A law: settings, moment, bytes and whether they end can't be without a verdict, so that `Judges` is
/// empty nowhere. There is nothing to run.
pub fn verdicts_exist()
    ensures { VerdictsExist }
{
    verdicts_are_final();
}

/// A law: a connection has at most one first fault, and it stays that, whatever bytes follow. There is nothing to run.
pub fn faults_are_one()
    ensures one { OneFault }
    ensures stay { FaultsStay }
{
    verdicts_are_one();
    verdicts_stay();
    invitations_are_final();
}

/// A law: and what stands behind the first message that is refused changes nothing of what a connection writes, nor of how it
/// stands, as long as memory does not run out; nor does that message itself change which commands wait, or were answered. There
/// is nothing to run.
pub fn faults_end()
    ensures end { FaultsEnd }
    ensures alone { RefusedIsNothing }
{
    verdicts_are_one();
    verdicts_stay();
    invitations_are_final();
}

/// A law: where a message of a connection is refused, what it has written ends with the refusal of the first such message, with
/// the code of that fault, as long as memory does not run out. In front of it are the replies to the messages before, and nothing
/// is behind it. A refusal that ends it so is that of the first fault; and where no more is read, it ends with a refusal or with
/// a reply that closes. There is nothing to run.
pub fn faults_are_printed()
    ensures printed { FaultsArePrinted }
    ensures told { PrintedAreFaults }
    ensures ends { TwoEnds }
{
    verdicts_are_one();
}

/// A law: a sound verdict is about a whole message at the front of the bytes, whose head is admitted, whose body
/// is accepted, and whose operation makes a command of it; and each such message has the sound verdict. Its body ends where its
/// head tells: by Content-Length, or by the chunked transfer coding. There is nothing to run.
pub fn sound_verdicts_are_exact()
    ensures message { SoundMessages }
    ensures judged { SoundIsJudged }
    ensures told { EndsAreTold }
{
    verdict_is_exact();
    verdicts_are_final();
    accepted_bodies_are_whole();
}

/// A law: a sound message is sound by its own bytes alone: without what stands behind it, it asks for the same, and
/// the same is written before its body is read. So are several, one behind another. There is nothing to run.
pub fn sound_messages_stand_alone()
    ensures alone { SoundAlone }
    ensures walks { SoundWalksAlone }
{
    sound_verdicts_are_exact();
    verdict_is_exact();
    verdicts_stay();
    invitations_are_final();
}

/// A law: settings, moment and bytes leave one text that is written before the body of the message at their
/// front is read, and once there is a head text, whatever follows changes nothing of it. There is nothing to run.
pub fn invitations_are_final()
    ensures one { OneInvitation }
    ensures stay { InvitationsStay }
{
    texts_say_one_thing();
    s3_http_heads::verdicts_stay();
    verdict_is_exact();
}

/// A law: settings, the bytes of a connection, whether they have ended, a list of moments of which its messages had the first
/// ones, and the answers to its commands fix what it writes, the turns that its commands wait for, how many of its messages had
/// a moment, and how it stands, as long as memory does not run out: so how the bytes are cut into pieces decides nothing. There
/// is nothing to run.
pub fn inputs_fix_outputs()
    ensures { OneWriting }
{
    verdicts_are_one();
    invitations_are_final();
    replies_are_unique();
    refusals_are_unique();
}

/// A law: where a command of a connection waits or nothing more is read, the bytes that follow, and their end, change
/// nothing of what it has written, nor of how it stands. There is nothing to run.
pub fn outputs_stay()
    ensures { OutputsStay }
{
    verdicts_stay();
    invitations_are_final();
    s3_http_heads::verdicts_stay();
}

/// A law: settings, moment and the bytes of a connection fix what a replay writes, as long as memory
/// does not run out. There is nothing to run.
pub fn outputs_are_one()
    ensures { OneOutput }
{
    verdicts_are_one();
    invitations_are_final();
    replies_are_unique();
    refusals_are_unique();
}

/// A law: once no more bytes come, something is decided about a message that has a head text, or too many bytes without
/// one; and a connection whose bytes have neither writes nothing. There is nothing to run.
pub fn heads_decide()
    ensures decided { HeadsAreDecided }
    ensures silent { HeadlessAreSilent }
{
    verdicts_are_final();
}

/// A law: a session that stands after some bytes, moments, turns and answers has written the output of the connection
/// that they make, sent or not. There is nothing to run.
pub fn sessions_write()
    ensures { SessionsWrite }
{
    verdicts_stay();
    bodies_are_judged();
}

/// A law: in the output of a connection, the reply to a read carries the bytes that the last message stored which changed
/// its key; the reply to a read of a version those that were stored in it, until a message replaces or deletes it; and a
/// reply that tells of success carries what such a message stored, or the part of it that the read's conditions select. There is
/// nothing to run.
pub fn stored_is_read_back()
    ensures back { EveryReplay StoredIsReadBack }
    ensures versions { EveryReplay VersionsAreReadBack }
    ensures only { EveryReplay OnlyStoredIsReadBack }
    ensures shown { EveryReplay OnlyStoredIsShown }
{
    sound_verdicts_are_exact();
    plans_are_unbroken();
    stored_is_kept();
    only_stored_is_given();
    histories_leave_sound_bases();
    replies_show_what_came();
}

/// A law: so the bytes of a put whose reply tells of success are read back. They are the payload of its message: its body,
/// or, where that is sent in signed chunks, the data in them. There is nothing to run.
pub fn puts_are_read_back()
    ensures back { EveryReplay PutsAreReadBack }
    ensures versions { EveryReplay PutVersionsAreReadBack }
    ensures payloads { PayloadsAreBrought }
{
    accepted_bodies_are_whole();
    sound_verdicts_are_exact();
    plans_are_unbroken();
    ready_plans_bring_nothing();
    puts_are_kept();
    only_stored_is_given();
    histories_leave_sound_bases();
    replies_show_what_came();
}

/// A law: and the bytes that a copy whose reply tells of success found at its source are read back by its own key and version, as
/// if they had been put, whatever it says of them. There is nothing to run.
pub fn copies_are_read_back()
    ensures back { EveryReplay CopiesAreReadBack }
    ensures versions { EveryReplay CopyVersionsAreReadBack }
{
    sound_verdicts_are_exact();
    plans_are_unbroken();
    copies_are_kept();
    only_stored_is_given();
    histories_leave_sound_bases();
    replies_show_what_came();
}

/// A law: and the parts of a completion whose reply tells of success are read back by its own key and version, one behind
/// another, each as the last message before it put it whose reply told of success: the payload of a message that sent the part, or,
/// where that was copied, the bytes that its range names of what was found at its source. There is nothing to run.
pub fn completions_are_read_back()
    ensures back { EveryReplay CompletionsAreReadBack }
    ensures versions { EveryReplay CompletionVersionsAreReadBack }
    ensures payloads { PayloadsAreSent }
{
    accepted_bodies_are_whole();
    sound_verdicts_are_exact();
    plans_are_unbroken();
    ready_plans_bring_nothing();
    completions_are_kept();
    parts_have_a_source();
    only_stored_is_given();
    histories_leave_sound_bases();
    replies_show_what_came();
}
