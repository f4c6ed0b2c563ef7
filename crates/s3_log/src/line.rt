//! The line that tells of a message.

ghost use Rattle.std.specs.Prelude.{◌≡◌, ◌∷◌, [], ◌++◌, codes, IfOk, OnErr};
ghost use Rattle.s3_documents.specs.Printed.{begun};
ghost use Rattle.s3_documents.specs.Tree.{Fields, leaves, tree_text};
ghost use Rattle.s3_text.specs.Characters.{line_feed};
ghost use Rattle.s3_log.specs.Line as rules;
ghost use Rattle.s3_log.specs.Query.{shown_query};
ghost use Rattle.s3_log.specs.Room.{Keeps, Puts};

use crate::beginning::Beginning;
use crate::key_id::{id_in_head, id_in_query};
use crate::member::{put_code, put_count, put_number, put_texts};
use crate::query::{shown_parts, without_first};
use crate::request::Request;
use crate::room::put;
use s3_documents::{Field, Leaf, Printer};
use s3_driver::Told;
use s3_terms::NoMemory;
use s3_text::number_digits;
use std::alloc::Global;

// What the line of a loss takes.
const LOST_ROOM: usize = 40;

/// What is told of a message once it is answered or refused, and all is written for it.
#[derive(Clone, Copy)]
pub struct Message<'a> {
    /// The address of its connection's peer, as a text; empty where it isn't known.
    pub peer: &'a [u8],
    /// The text of its head; empty where that can't be read or isn't known.
    pub head: &'a [u8],
    /// Whether its signature was verified.
    pub is_verified: bool,
    /// What came of it.
    pub told: Told,
    /// How many bytes were written for it.
    pub bytes: u64,
    /// How many microseconds it took, where a clock told that.
    pub microseconds: Option<u64>,
}

/// Puts the line of a message at a place in room, where it fits there, and answers where it ends.
pub(crate) fn put_line(
    alloc: Global,
    room: &mut [u8],
    at: usize,
    beginning: &Beginning,
    message: &Message<'_>,
) -> Result<usize, NoMemory>
    ensures put { IfOk result (λ end. Puts (rules.line_of beginning.now message.now) at room.old room.new end) }
    ensures kept { OnErr result (Keeps at room.old room.new) }
{
    let front = put(room, at, beginning.as_slice());
    let head = put_front(alloc, room, front, message.peer, message.told.number)?;
    let told = put_head(alloc, room, head, message)?;
    let end = put_told(alloc, room, told, message.told)?;
    let brace = put_end(room, end, message);
    Ok(put(room, brace, b"}\n"))
}

// Puts who asks, and the id of the request.
fn put_front(
    alloc: Global,
    room: &mut [u8],
    at: usize,
    peer: &[u8],
    number: Option<u64>,
) -> Result<usize, NoMemory>
    ensures put { IfOk result (λ end. Puts (rules.behind (rules.front_fields peer.now number)) at room.old room.new end) }
    ensures kept { OnErr result (Keeps at room.old room.new) }
{
    match number {
        Some(number) => put_peer(alloc, room, at, peer, &number_digits(number)),
        None => put_peer(alloc, room, at, peer, &[]),
    }
}

// The same by the id as a text.
fn put_peer(
    alloc: Global,
    room: &mut [u8],
    at: usize,
    peer: &[u8],
    id: &[u8],
) -> Result<usize, NoMemory>
    ensures put { IfOk result (λ end.
        Puts (rules.behind (rules.texts_told (codes "peer") peer.now (codes "request_id") id.now)) at room.old room.new end) }
    ensures kept { OnErr result (Keeps at room.old room.new) }
{
    put_texts(
        alloc,
        room,
        at,
        b",\"peer\":",
        peer,
        b",\"request_id\":",
        id,
    )
}

// Puts what the head of a message says.
fn put_head(
    alloc: Global,
    room: &mut [u8],
    at: usize,
    message: &Message<'_>,
) -> Result<usize, NoMemory>
    ensures put { IfOk result (λ end.
        Puts (rules.behind (rules.head_fields message.now.is_verified message.now.head.now)) at room.old room.new end) }
    ensures kept { OnErr result (Keeps at room.old room.new) }
{
    let request = Request::read(message.head);
    if !message.is_verified {
        return put_request(alloc, room, at, request, &[]);
    }
    match id_in_head(message.head) {
        Some(id) => put_request(alloc, room, at, request, id),
        None => {
            let id = id_in_query(alloc, request.query)?;
            put_request(alloc, room, at, request, &id)
        }
    }
}

// Puts what is asked for, and the id of an access key.
fn put_request(
    alloc: Global,
    room: &mut [u8],
    at: usize,
    request: Request<'_>,
    id: &[u8],
) -> Result<usize, NoMemory>
    ensures put { IfOk result (λ end.
        Puts (rules.behind (rules.request_fields request.entry.operation.now request.entry.method.now request.entry.bucket.now request.entry.key.now request.entry.query.now id.now))
        at room.old room.new end) }
    ensures kept { OnErr result (Keeps at room.old room.new) }
{
    let bucket = put_asked(alloc, room, at, request.operation, request.method)?;
    let query = put_address(alloc, room, bucket, request.bucket, request.key)?;
    put_signed(alloc, room, query, request.query, id)
}

// Puts an operation and a method.
fn put_asked(
    alloc: Global,
    room: &mut [u8],
    at: usize,
    operation: &[u8],
    method: &[u8],
) -> Result<usize, NoMemory>
    ensures put { IfOk result (λ end.
        Puts (rules.behind (rules.texts_told (codes "operation") operation.now (codes "method") method.now)) at room.old room.new end) }
    ensures kept { OnErr result (Keeps at room.old room.new) }
{
    put_texts(
        alloc,
        room,
        at,
        b",\"operation\":",
        operation,
        b",\"method\":",
        method,
    )
}

// Puts a bucket and a key.
fn put_address(
    alloc: Global,
    room: &mut [u8],
    at: usize,
    bucket: &[u8],
    key: &[u8],
) -> Result<usize, NoMemory>
    ensures put { IfOk result (λ end.
        Puts (rules.behind (rules.texts_told (codes "bucket") bucket.now (codes "key") key.now)) at room.old room.new end) }
    ensures kept { OnErr result (Keeps at room.old room.new) }
{
    put_texts(alloc, room, at, b",\"bucket\":", bucket, b",\"key\":", key)
}

// Puts what may stand in a log of a query, and the id of an access key.
fn put_signed(
    alloc: Global,
    room: &mut [u8],
    at: usize,
    query: &[u8],
    id: &[u8],
) -> Result<usize, NoMemory>
    ensures put { IfOk result (λ end.
        Puts (rules.behind (rules.texts_told (codes "query") (shown_query query.now) (codes "access_key") id.now)) at room.old room.new end) }
    ensures kept { OnErr result (Keeps at room.old room.new) }
{
    if query.is_empty() {
        return put_shown(alloc, room, at, &[], id);
    }
    let parts = shown_parts(alloc, query)?;
    put_shown(alloc, room, at, without_first(&parts), id)
}

// The same of what is shown of a query.
fn put_shown(
    alloc: Global,
    room: &mut [u8],
    at: usize,
    shown: &[u8],
    id: &[u8],
) -> Result<usize, NoMemory>
    ensures put { IfOk result (λ end.
        Puts (rules.behind (rules.texts_told (codes "query") shown.now (codes "access_key") id.now)) at room.old room.new end) }
    ensures kept { OnErr result (Keeps at room.old room.new) }
{
    put_texts(
        alloc,
        room,
        at,
        b",\"query\":",
        shown,
        b",\"access_key\":",
        id,
    )
}

// Puts what came of a message. Most are answered, and with what was asked for.
fn put_told(alloc: Global, room: &mut [u8], at: usize, told: Told) -> Result<usize, NoMemory>
    ensures put { IfOk result (λ end. Puts (rules.behind (rules.told_fields told)) at room.old room.new end) }
    ensures kept { OnErr result (Keeps at room.old room.new) }
{
    if told.is_answer() {
        return Ok(put(room, at, b",\"status\":200"));
    }
    put_result(alloc, room, at, told)
}

// Puts what came of any message.
fn put_result(alloc: Global, room: &mut [u8], at: usize, told: Told) -> Result<usize, NoMemory>
    ensures put { IfOk result (λ end. Puts (rules.behind (rules.told_fields told)) at room.old room.new end) }
    ensures kept { OnErr result (Keeps at room.old room.new) }
{
    let code = put_number(room, at, b",\"status\":", u64::from(told.status.number()));
    put_code(alloc, room, code, b",\"code\":", told.code)
}

// Puts what was written for it, and how long it took.
fn put_end(room: &mut [u8], at: usize, message: &Message<'_>) -> usize
    ensures { Puts (rules.behind (rules.end_fields message.now.bytes message.now.microseconds)) at room.old room.new result }
{
    let behind = put_number(room, at, b",\"bytes\":", message.bytes);
    put_count(room, behind, b",\"microseconds\":", message.microseconds)
}

/// The line that tells how many lines were lost.
pub fn lost_line(alloc: Global, count: u64) -> Result<Vec<u8>, NoMemory>
    ensures { IfOk result (λ line. line.items ≡ tree_text (leaves (rules.lost_fields count)) ++ line_feed ∷ []) }
{
    let mut printer = Printer::new(alloc, LOST_ROOM)?;
    printer.fields(&[Field {
        name: "lost",
        value: Leaf::Number(count),
    }])?;
    line_of(printer)
}

// The line of what is printed.
fn line_of(printer: Printer) -> Result<Vec<u8>, NoMemory>
    ensures { IfOk result (λ line. (fields : Fields) → printer.tokens ≡ begun (leaves fields)
        → line.items ≡ tree_text (leaves fields) ++ line_feed ∷ []) }
{
    let mut line = printer.finish()?;
    line.push(b'\n')?;
    Ok(line)
}
