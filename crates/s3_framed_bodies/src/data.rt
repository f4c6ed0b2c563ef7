//! The data of a body that was sent in the transfer coding, once all of it has come.

ghost use Rattle.std.specs.Prelude.{◌≡◌, ◌⊎◌, ◌≤◌, ℕ, true, false, List, length, take, IfErr, IfOk, OnOk};
ghost use Rattle.s3_aws_chunked.specs.Verdict.{Refused};
ghost use Rattle.s3_payloads.specs.Reader.{HasFailed, HasPassed, Stands, verdict_of};
ghost use Rattle.s3_payloads.specs.Verdict.{Judges};
ghost use Rattle.s3_framed_bodies.specs.Data.{DataTold};
ghost use Rattle.s3_framed_bodies.specs.Framed.{announced_with};
ghost use Rattle.s3_framed_bodies.specs.Verdict as rules;

use s3_bodies::{Body, Payload};
use s3_integrity::Checksum;
use s3_payloads::{Form, PayloadReader, payloads_are_judged, verdicts_are_final};
use s3_signing::Verified;
use s3_terms::Code;
use std::alloc::Global;

// Whether there is as much data as the head says, where it is sent as it is.
fn has_length(form: Form, decoded: u64, size: u64) -> bool
    ensures { result ≡ rules.has_length form decoded size }
{
    match form {
        Form::Whole { .. } => size == decoded,
        Form::Chunks { .. } | Form::TrailedChunks { .. } => true,
    }
}

// A reader that was fed with the data, as a body of its length; or the code with which that is refused, or `InternalError`
// where memory ran out.
fn read_data(
    alloc: Global,
    form: Form,
    verified: &Verified,
    held: &Body,
) -> Result<PayloadReader, Code>
    ensures ok { IfOk result (λ reader. Stands reader (announced_with form verified.now (length held.now)) held.now false) }
    ensures err { IfErr result (λ code. (code ≡ Code.InternalError) ⊎ ((place : ℕ)
        × Judges (announced_with form verified.now (length held.now)) held.now true (Refused place code))) }
{
    payloads_are_judged();
    verdicts_are_final();
    let mut reader = PayloadReader::new(alloc, form, held.size(), verified);
    let mut at = 0;
    while at < held.size() {
        let piece = held.piece(at).bytes();
        reader.feed(piece)?;
        at += piece.len() as u64;
    }
    Ok(reader)
}

/// Judges the data of a body that was sent in this form, of which its head says that it has `decoded` bytes: its payload, and the
/// checksum that was found of it. It takes time by the length of the data, which is copied and hashed once.
///
/// # Errors
///
/// `IncompleteBody` where the data is sent as it is and has another length, those of a body that was sent with its length, and
/// `InternalError` where memory ran out.
pub(crate) fn judge_data(
    alloc: Global,
    form: Form,
    decoded: u64,
    verified: &Verified,
    held: &Body,
) -> Result<(Payload, Option<Checksum>), Code>
    ensures { (place : ℕ) → DataTold form verified.now decoded place held.now result }
{
    payloads_are_judged();
    if !has_length(form, decoded, held.size()) {
        return Err(Code::IncompleteBody);
    }
    let mut reader = read_data(alloc, form, verified, held)?;
    reader.end()?;
    let sum = reader.sum();
    Ok((reader.finish()?, sum))
}
