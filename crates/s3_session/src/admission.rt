//! Whether a head is admitted: what has to hold before its body is looked at.

ghost use Rattle.std.specs.Prelude.{◌≡◌, ◌⊎◌, true, false, Err, IfErr, IfOk};
ghost use Rattle.s3_requests.specs.Memory.{RouteTakes};
ghost use Rattle.s3_session.specs.Admission.{admission_of};
ghost use Rattle.s3_session.specs.Admitting as rules;
ghost use Rattle.s3_session.specs.Verified.{IsSigned};

use crate::signer::HeadSigner;
use s3_calendar::Moment;
use s3_config::Config;
use s3_framed_bodies::BodyReader;
use s3_http_heads::{BodyFraming, Head, framing};
use s3_requests::{Plan, route};
use s3_signing::verify_head;
use s3_terms::Code;
use std::alloc::Global;

/// What a head that nothing refuses asks for.
#[derive(Drop)]
pub struct Admission {
    /// How the end of its body is told.
    pub framing: BodyFraming,
    /// The reader of its body, of which nothing has come.
    pub reader: BodyReader,
    /// The operation.
    pub plan: Plan,
}

/// Judges a head that has been read: its framing, its signature, what it announces of its body, and its routing, in
/// this order (`docs/PROTOCOL.md`, "Refusals").
///
/// The error is the first fault. `InternalError` says that memory ran out; then nothing that shows before the signature
/// refuses the head. `signer` is told whether the head was verified, also where the head is refused after that, and keeps
/// what `verify_head` does. From the signature on, memory runs out only where `route` takes it.
#[tactic(auto, unfolding(crate::specs::Admission::admission_of, crate::specs::Admitting::early_admission, s3_signing::specs::Verdict::head_verdict), using(crate::proofs::SoundLemmas::announced_framing))]
pub fn admit(
    alloc: Global,
    config: &Config,
    head: &Head,
    moment: Moment,
    signer: &mut HeadSigner,
) -> Result<Admission, Code>
    ensures admits { rules.Admits (rules.early_admission config.now head.now moment) result
        (admission_of config.now head.now moment) }
    ensures admitted { IfOk result (λ _. signer.new.is_verified ≡ true) }
    ensures verified { signer.new.is_verified ≡ true → (signer.old.is_verified ≡ true) ⊎ IsSigned config.now head.now moment }

    // Whatever refuses it after its signature.
    ensures told { IsSigned config.now head.now moment → (signer.new.is_verified ≡ true) ⊎ (result ≡ Err Code.InternalError) }

    // From then on memory runs out only where its routing takes it.
    ensures routed { signer.old.is_verified ≡ false → signer.new.is_verified ≡ true
        → IfErr result (λ code. ((code ≡ Code.InternalError) × RouteTakes config.now.dialect head.now) ⊎ (admission_of config.now head.now moment ≡ Err code)) }
{
    let framing = framing(config.dialect(), head, config.body_limit())?;
    let verified = verify_head(alloc, config, head, moment, &mut signer.key)?;
    signer.is_verified = true;
    let reader = BodyReader::new(alloc, config, head, framing, verified)?;
    let plan = route(alloc, config, head)?;
    Ok(Admission {
        framing,
        reader,
        plan,
    })
}
