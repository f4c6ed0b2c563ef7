//! A server with one key, that of AWS's published examples: what it says of heads, how they are signed with its key, and
//! its readers of bodies.

ghost use Rattle.std.specs.Prelude.{◌≡◌, not};
ghost use Rattle.s3_http_heads.specs.Target.{is_unreadable};

use crate::texts::{Told, add};
use s3_calendar::{Moment, Stamp};
use s3_config::Config;
use s3_framed_bodies::BodyReader;
use s3_http_heads::{Head, framing};
use s3_signing::{KeptKey, Verified, sign_head, verify_head};
use s3_terms::{Code, Dialect};
use s3_test_servers::{ID, SECRET, config, config_in};
use std::alloc::Global;
use std::mem::drop;

pub(crate) const REGION: &[u8] = b"us-east-1";

pub(crate) const STAMP: &[u8] = b"20130524T000000Z";

/// 2013-05-24T00:00:00Z.
pub(crate) const MOMENT: u64 = 1_369_353_600;

// Whether the target of a head can be read.
#[tactic(auto, unfolding(s3_http_heads::specs::Target::target_of))]
fn is_readable(head: &Head) -> bool
    ensures { result ≡ not (is_unreadable head.now.target) }
{
    head.decoded_target().is_ok()
}

/// The authorization of a head by the key of the server.
pub(crate) fn authorization(alloc: Global, head: &Head) -> Told {
    let stamp = Stamp::read(STAMP).ok_or(Code::InternalError)?;
    if !is_readable(head) || head.count(b"x-amz-content-sha256") != 1 {
        return Err(Code::InvalidRequest);
    }
    Ok(sign_head(alloc, ID, SECRET, REGION, head, stamp)?)
}

// What the server says of a head at that second.
fn verdict_of(alloc: Global, config: &Config, head: &Head, seconds: u64) -> Result<Verified, Code> {
    let moment = Moment::new(seconds).ok_or(Code::InternalError)?;
    verify_head(alloc, config, head, moment, &mut KeptKey::new())
}

/// What a server in this region says of a head at that second.
pub(crate) fn verdict(
    alloc: Global,
    region: &[u8],
    head: &Head,
    seconds: u64,
) -> Result<Verified, Code> {
    match config(alloc, region, 5, 67_108_864, &[]) {
        Some(config) => verdict_of(alloc, &config, head, seconds),
        None => Err(Code::InternalError),
    }
}

// Adds these lines.
fn add_all(text: &mut Vec<u8>, lines: &[&[u8]]) {
    for line in lines {
        add(text, line);
    }
}

// The head with these lines.
fn head_of(alloc: Global, lines: &[&[u8]]) -> Result<Head, Code> {
    let mut text = Vec::new(alloc);
    add_all(&mut text, lines);
    let head = Head::read(alloc, &text);
    drop(text);
    head
}

// The head of these lines, with its authorization.
fn signed_head(alloc: Global, lines: &[u8]) -> Result<Head, Code> {
    match head_of(alloc, &[lines, b"\r\n"]) {
        Ok(head) => match authorization(alloc, &head) {
            Ok(value) => head_of(alloc, &[lines, b"authorization: ", &value, b"\r\n\r\n"]),
            Err(code) => Err(code),
        },
        Err(code) => Err(code),
    }
}

// The reader of the body behind this head, of the server with these settings.
fn reader_of(alloc: Global, config: &Config, head: &Head) -> Result<BodyReader, Code> {
    let told = framing(config.dialect(), head, config.body_limit())?;
    match verdict_of(alloc, config, head, MOMENT) {
        Ok(verified) => BodyReader::new(alloc, config, head, told, verified),
        Err(code) => Err(code),
    }
}

// The reader of the body behind this head, of a server of this dialect that takes bodies of at most so many bytes.
fn reader_behind(
    alloc: Global,
    dialect: Dialect,
    head: &Head,
    limit: u64,
) -> Result<BodyReader, Code> {
    match config_in(alloc, dialect, REGION, 5, limit, &[]) {
        Some(config) => reader_of(alloc, &config, head),
        None => Err(Code::InternalError),
    }
}

/// The reader of the body behind the head of these lines, which is signed here, of a server of this dialect that takes bodies
/// of at most `limit` bytes; or the head's refusal.
pub(crate) fn reader(
    alloc: Global,
    dialect: Dialect,
    lines: &[u8],
    limit: u64,
) -> Result<BodyReader, Code> {
    match signed_head(alloc, lines) {
        Ok(head) => reader_behind(alloc, dialect, &head, limit),
        Err(code) => Err(code),
    }
}
