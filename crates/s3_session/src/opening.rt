//! What comes of a whole head.

ghost use Rattle.std.specs.Prelude.{◌≡◌, ◌≢◌, ◌⊎◌, true, false, option_copied};
ghost use Rattle.s3_session.specs.Admission.{admission_of};
ghost use Rattle.s3_session.specs.Admitting.{early_admission};
ghost use Rattle.s3_session.specs.Decision.{context_of};
ghost use Rattle.s3_session.specs.Incoming as rules;
ghost use Rattle.s3_session.specs.Invitation.{may_be_invited, may_have_bytes};
ghost use Rattle.s3_session.specs.Verified.{IsSigned, RefusedTakes, TextTakes, VerifiesIn, is_refused, opens_body};

use crate::admission::admit;
use crate::incoming::{Incoming, Receiving};
use crate::signer::HeadSigner;
use s3_calendar::Moment;
use s3_config::Config;
use s3_http_heads::{BodyFraming, Head, texts_say_one_thing};
use s3_replies::Context;
use s3_requests::asks_for_checksums;
use s3_terms::{Code, Dialect, NoMemory};
use std::alloc::Global;

// What comes of a whole head.
#[derive(Drop)]
pub(crate) enum Opening {
    // It is admitted; whether its client is told to go on.
    Admitted(Receiving, bool),
    // It is refused.
    Refused { code: Code, head_only: bool },
    // Memory ran out.
    Died,
}

// What comes of this head text; there is none where memory ran out for it. What was noted of the head before is taken back.
pub(crate) fn open_text(
    alloc: Global,
    config: &Config,
    text: Option<&[u8]>,
    moment: Moment,
    signer: &mut HeadSigner,
) -> Opening
    ensures opens { rules.Opens config.now moment (option_copied text.entry) result }
    ensures noted { signer.new.is_verified ≡ true → VerifiesIn config.now moment (option_copied text.entry) }
    ensures told { result ≢ Opening.Died → VerifiesIn config.now moment (option_copied text.entry) → signer.new.is_verified ≡ true }
    ensures admitted { opens_body result ≡ true → signer.new.is_verified ≡ true }
    ensures spared { is_refused result ≡ false → signer.new.is_verified ≡ true → TextTakes config.now moment (option_copied text.entry) }
{
    texts_say_one_thing();
    signer.begins();
    let Some(text) = text else {
        return Opening::Died;
    };
    match Head::read(alloc, text) {
        Ok(head) => open_head(alloc, config, &head, moment, signer),
        Err(Code::MalformedHead) => Opening::Refused {
            code: Code::MalformedHead,
            head_only: false,
        },
        Err(_) => Opening::Died,
    }
}

// What comes of this head.
#[tactic(auto, using(crate::proofs::LackLemmas::lacks_past))]
fn open_head(
    alloc: Global,
    config: &Config,
    head: &Head,
    moment: Moment,
    signer: &mut HeadSigner,
) -> Opening
    ensures opens { rules.HeadOpens config.now.dialect head.now moment (early_admission config.now head.now moment)
        (admission_of config.now head.now moment) result }
    ensures noted { signer.new.is_verified ≡ true → (signer.old.is_verified ≡ true) ⊎ IsSigned config.now head.now moment }
    ensures told { result ≢ Opening.Died → IsSigned config.now head.now moment → signer.new.is_verified ≡ true }
    ensures admitted { opens_body result ≡ true → signer.new.is_verified ≡ true }
    ensures spared { is_refused result ≡ false → signer.old.is_verified ≡ false → signer.new.is_verified ≡ true
        → RefusedTakes config.now head.now moment }
{
    match admit(alloc, config, head, moment, signer) {
        Ok(admission) => {
            let invited = may_be_invited(config.dialect(), head, admission.framing);
            let context = context_of(config, head, moment);
            admitted(alloc, Incoming { admission, context }, invited)
        }
        Err(Code::InternalError) => Opening::Died,
        Err(code) => Opening::Refused {
            code,
            head_only: head.asks_head_only(),
        },
    }
}

// What comes of a head that is admitted.
fn admitted(alloc: Global, incoming: Incoming, invited: bool) -> Opening
    ensures { (result ≡ Opening.Died) ⊎ (result ≡ Opening.Admitted incoming invited) }
{
    match Receiving::new(alloc, incoming) {
        Ok(receiving) => Opening::Admitted(receiving, invited),
        Err(NoMemory) => Opening::Died,
    }
}

// Whether a body whose end is told so may have bytes.
fn may_have_bytes(framing: BodyFraming) -> bool
    ensures { result ≡ may_have_bytes framing }
{
    match framing {
        BodyFraming::Sized(size) => size > 0,
        BodyFraming::Coded { .. } => true,
    }
}

// Whether the client waits to be told to send a body whose end is told so. Clients of S3 wait also before an empty one.
fn may_be_invited(dialect: Dialect, head: &Head, framing: BodyFraming) -> bool
    ensures { result ≡ may_be_invited dialect head.now framing }
{
    match dialect {
        Dialect::Json => head.expects_continue() && may_have_bytes(framing),
        Dialect::S3 => head.expects_continue(),
    }
}

// What a reply takes from a message with this head.
fn context_of(config: &Config, head: &Head, moment: Moment) -> Context
    ensures { result ≡ context_of config.now.dialect head.now moment }
{
    Context {
        moment,
        head_only: head.asks_head_only(),
        closes: head.closes(),
        dialect: config.dialect(),
        tells_checksums: asks_for_checksums(config.dialect(), head),
        checksum: None,
    }
}
