//! A message that is written, read back, and compared with what it has to say.

ghost use Rattle.std.specs.Prelude.{◌≡◌, ◌↔◌, ◌++◌, [], true, map, IfOk, OnOk, IsErrOf};
ghost use Rattle.httparse.specs.Grammar.{print_request};
ghost use Rattle.httparse.specs.Spans.{name_and_value};
ghost use Rattle.s3_http_heads.specs.Head.{HasNoHead, Says, parts_of};
ghost use Rattle.s3_http_heads.specs.Message.{IsMessage};
ghost use Rattle.s3_signer.specs.Line.{IsMessageOf, head_with, pairs};
ghost use Rattle.s3_signer.specs.Request.{ReadsBack, field_of};

use crate::head_text::head_text;
use crate::line::Line;
use crate::unsigned::Unsigned;
use s3_http_heads::{
    Found, Head, announced_length, find_head, skipped, texts_say_one_thing, verdict_is_exact,
};
use s3_terms::Code;
use std::alloc::Global;

// Whether a head has these lines.
fn has_lines(head: &Head, lines: &[Line]) -> bool
    ensures { (result ≡ true) ↔ (head.now.headers ≡ map name_and_value (map field_of (pairs lines.now))) }
{
    if head.header_count() != lines.len() {
        return false;
    }
    for (index, line) in lines.iter().enumerate() {
        let (name, value) = head.header(index);
        if !line.reads_as(name, value) {
            return false;
        }
    }
    true
}

// Whether a head says this and no more.
fn says(head: &Head, method: &[u8], target: &[u8], lines: &[Line]) -> bool
    ensures { (result ≡ true) ↔ (head.now ≡ parts_of (head_with method.now target.now lines.now)) }
{
    head.method_name() == method
        && head.target() == target
        && head.minor() == 1
        && has_lines(head, lines)
}

// What a text says, if it is a head.
fn read(alloc: Global, text: &[u8]) -> Result<Head, Unsigned>
    ensures says { IfOk result (λ head. Says text.now head) }
    ensures refused { IsErrOf result Unsigned.NotSignable → HasNoHead text.now }
{
    match Head::read(alloc, text) {
        Ok(head) => Ok(head),
        Err(Code::MalformedHead) => Err(Unsigned::NotSignable),
        Err(_) => Err(Unsigned::OutOfMemory),
    }
}

// What a text says, if it is a head of this request line and these lines.
pub(crate) fn read_head(
    alloc: Global,
    text: &[u8],
    method: &[u8],
    target: &[u8],
    lines: &[Line],
) -> Result<Head, Unsigned>
    ensures head { IfOk result (λ head. head ≡ parts_of (head_with method.now target.now lines.now)) }
    ensures says { OnOk result (Says text.now (parts_of (head_with method.now target.now lines.now))) }
    ensures refused { IsErrOf result Unsigned.NotSignable
        → ¬ (Says text.now (parts_of (head_with method.now target.now lines.now))) }
{
    let head = read(alloc, text)?;
    texts_say_one_thing();
    if !says(&head, method, target, lines) {
        return Err(Unsigned::NotSignable);
    }
    Ok(head)
}

// The head of this request line and these lines: it is written and read back, and it says just that.
pub(crate) fn head(
    alloc: Global,
    method: &[u8],
    target: &[u8],
    lines: &[Line],
) -> Result<Head, Unsigned>
    ensures head { IfOk result (λ head. head ≡ parts_of (head_with method.now target.now lines.now)) }
    ensures says { OnOk result (ReadsBack (head_with method.now target.now lines.now)) }
    ensures refused { IsErrOf result Unsigned.NotSignable → ¬ (ReadsBack (head_with method.now target.now lines.now)) }
{
    let text = head_text(alloc, method, target, lines)?;
    read_head(alloc, &text, method, target, lines)
}

// The head of the bytes, if they are one message of this request line, these lines and this body.
fn read_message(
    alloc: Global,
    bytes: &[u8],
    method: &[u8],
    target: &[u8],
    lines: &[Line],
    body: &[u8],
) -> Result<Head, Unsigned>
    ensures head { IfOk result (λ head. head ≡ parts_of (head_with method.now target.now lines.now)) }
    ensures message { OnOk result
        (IsMessage bytes.now (parts_of (head_with method.now target.now lines.now)) body.now []) }
    ensures refused { IsErrOf result Unsigned.NotSignable
        → ¬ (IsMessage bytes.now (parts_of (head_with method.now target.now lines.now)) body.now []) }
{
    let Found::Head { len } = find_head(bytes) else {
        return Err(Unsigned::NotSignable);
    };
    verdict_is_exact();
    let (text, rest) = bytes[skipped(bytes)..].split_at(len);
    if rest != body {
        return Err(Unsigned::NotSignable);
    }
    let head = read_head(alloc, text, method, target, lines)?;
    if announced_length(&head) != Some(body.len() as u64) {
        return Err(Unsigned::NotSignable);
    }
    Ok(head)
}

// A message of this request line, these lines and this body, and its head: it is written and read back,
// and it says just that. The body is copied once, and looked at once more.
pub(crate) fn message(
    alloc: Global,
    method: &[u8],
    target: &[u8],
    lines: &[Line],
    body: &[u8],
) -> Result<(Vec<u8>, Head), Unsigned>
    ensures text { IfOk result
        (λ m. m.0.items ≡ print_request (head_with method.now target.now lines.now) ++ body.now) }
    ensures head { IfOk result (λ m. m.1 ≡ parts_of (head_with method.now target.now lines.now)) }
    ensures message { OnOk result (IsMessageOf (head_with method.now target.now lines.now) body.now) }
    ensures refused { IsErrOf result Unsigned.NotSignable
        → ¬ (IsMessageOf (head_with method.now target.now lines.now) body.now) }
{
    let mut text = head_text(alloc, method, target, lines)?;
    text.extend_from_slice(body)?;
    let head = read_message(alloc, &text, method, target, lines, body)?;
    Ok((text, head))
}
