//! What is asked of a head, and the text that tells the answer.
//!
//! A row is the text of a head, a bar, and what is told of it: the answer, or the name of its refusal. A `^` stands between
//! two rows: one text costs less to prove than a table. `{t*255}` stands for 255 times `t`.
use crate::checks::Rows;
use crate::requests::canonical::{add_hash, add_joined, add_query, add_uri};
use crate::requests::heads::{add_framing, has_parts};
use crate::requests::plans::add_plan;
use crate::requests::targets::{add_parameters, add_target};
use crate::texts::{add, add_code, add_number, add_text, is_same};
use s3_http_heads::Head;
use s3_terms::Dialect;
use std::alloc::Global;
use std::mem::drop;

/// What is asked of a head.
pub(crate) enum Question {
    /// Whether the connection ends with the reply.
    Closes,
    /// Whether a reply is asked for before the body.
    Expects,
    /// How many header lines there are.
    Lines,
    /// Whether it has the parts of the head that `heads` prints.
    Parts,
    /// How the end of the body is told, where a body may have 100 bytes.
    Length,
    /// The same where documents are XML.
    LengthInXml,
    /// What the target says, a line each: the path, the bucket, the key, `?` where there is a query, and each parameter, as
    /// its name, a colon and its value.
    Target,
    /// How many parameters the target has, or `b` where one of them is called so.
    Parameters,
    /// The canonical URI.
    Uri,
    /// The canonical query.
    Query,
    /// The canonical lines of a name that is not there and of one that is.
    Joined,
    /// Whether the hash is that of the published example.
    Hash,
    /// The operation (Amazon S3 API Reference), its bucket, its key, and the id of the version that is asked for.
    Route,
    /// The operation alone.
    Operation,
    /// What a put says of its object: the media type, and in a line each the names of metadata, a colon, and their values.
    Description,
    /// The same where documents are XML.
    DescriptionInXml,
}

/// Texts of heads and what is told of them, with what stands before and behind each of these texts.
pub(crate) struct Table {
    pub(crate) question: Question,
    pub(crate) front: &'static str,
    pub(crate) rows: &'static str,
    pub(crate) end: &'static str,
}

// Adds whether it is so, in a word.
fn add_whether(out: &mut Vec<u8>, is_so: bool) {
    add(out, if is_so { b"yes" } else { b"no" });
}

// Adds the answer to a question.
fn add_answer(alloc: Global, out: &mut Vec<u8>, head: &Head, question: &Question) {
    match question {
        Question::Closes => add_whether(out, head.closes()),
        Question::Expects => add_whether(out, head.expects_continue()),
        Question::Lines => add_number(out, head.header_count() as u64),
        Question::Parts => add_whether(out, has_parts(head)),
        Question::Length => add_framing(out, Dialect::Json, head),
        Question::LengthInXml => add_framing(out, Dialect::S3, head),
        Question::Target => add_target(out, head),
        Question::Parameters => add_parameters(out, head),
        Question::Uri => add_uri(alloc, out, head),
        Question::Query => add_query(alloc, out, head),
        Question::Joined => add_joined(alloc, out, head),
        Question::Hash => add_hash(alloc, out, head),
        Question::DescriptionInXml => add_plan(alloc, out, Dialect::S3, head, question),
        _ => add_plan(alloc, out, Dialect::Json, head, question),
    }
}

// Adds the answer for the head of this text.
fn add_answer_of(alloc: Global, out: &mut Vec<u8>, question: &Question, text: &[u8]) {
    match Head::read(alloc, text) {
        Ok(head) => add_answer(alloc, out, &head, question),
        Err(code) => add_code(out, code),
    }
}

/// Whether this is what is told of the head of this text.
pub(crate) fn is_so(alloc: Global, question: &Question, text: &[u8], wanted: &[u8]) -> bool {
    let mut out = Vec::new(alloc);
    add_answer_of(alloc, &mut out, question, text);
    is_same(&out, wanted)
}

// Adds the text of a row's head; `None` says that it isn't well written.
fn add_row(out: &mut Vec<u8>, table: &Table, text: &str) -> Option<()> {
    add(out, table.front.as_bytes());
    add_text(out, text)?;
    add(out, table.end.as_bytes());
    Some(())
}

impl Rows for Table {
    fn rows(&self) -> &'static str {
        self.rows
    }

    fn holds(&self, alloc: Global, row: &str) -> Option<bool> {
        let (text, wanted) = row.split_once('|')?;
        let mut bytes = Vec::new(alloc);
        let is_spelled = add_row(&mut bytes, self, text).is_some();
        let is_so = is_so(alloc, &self.question, &bytes, wanted.as_bytes());
        drop(bytes);
        Some(is_spelled & is_so)
    }
}
