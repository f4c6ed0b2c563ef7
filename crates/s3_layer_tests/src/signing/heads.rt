//! What is asked of a head, and the text that tells the answer.
use crate::checks::Rows;
use crate::signing::server::{REGION, STAMP, authorization, verdict};
use crate::texts::{add, add_code, add_told, add_word, is_same, joined};
use s3_authorization::Authorization;
use s3_http_heads::Head;
use s3_signing::Verified;
use std::alloc::Global;
use std::mem::drop;

/// What is asked of a text.
pub(crate) enum Question {
    /// What the word of the head says of its body, once a server has verified it.
    Word,
    /// The same, or `example` where a server verifies it as the published one.
    Example,
    /// The authorization of the head by the key of the server.
    Authorization,
    /// The id and the signed names of this text, which is that of an authorization and of no head.
    Names,
}

/// Texts and what is told of them: names of `texts`, a bar, and the answer or the name of the refusal. A `^` stands
/// between two rows: one text costs less to prove than a table.
pub(crate) struct Table {
    pub(crate) question: Question,
    /// The second at which a server is asked.
    pub(crate) seconds: u64,
    pub(crate) rows: &'static str,
}

/// The key that signs AWS's published example, computed outside of this program, by Python's `hmac`.
pub(crate) const DAY_KEY: [u8; 32] = [
    0xdb, 0xb8, 0x93, 0xac, 0xc0, 0x10, 0x96, 0x49, 0x18, 0xf1, 0xfd, 0x43, 0x3a, 0xdd, 0x87, 0xc7,
    0x0e, 0x8b, 0x0d, 0xb6, 0xbe, 0x30, 0xc1, 0xfb, 0xea, 0xfe, 0xfa, 0x5e, 0xc6, 0xba, 0x83, 0x78,
];

const SEED: &[u8] = b"f0e8bdb87c964420e857bd35b5d6ed310bd44f0170aba48dd91039c6036bdb41";

const EMPTY: &[u8] = b"e3b0c44298fc1c149afbf4c8996fb92427ae41e4649b934ca495991b7852b855";

// Whether the example was stamped then, in the region, by that key, and says that word.
fn is_example(verified: &Verified) -> bool {
    is_same(verified.stamp().text(), STAMP)
        && is_same(verified.region(), REGION)
        && is_same(&verified.key(), &DAY_KEY)
        && is_same(&verified.seed(), SEED)
        && is_same(verified.word().text(), EMPTY)
}

// Adds what is told of a head that was verified.
fn add_verified(out: &mut Vec<u8>, question: &Question, verified: &Verified) {
    match question {
        Question::Example if is_example(verified) => add(out, b"example"),
        _ => add(out, verified.word().text()),
    }
}

// Adds what is told of an authorization.
fn add_names(out: &mut Vec<u8>, text: &[u8]) {
    match Authorization::read(text) {
        Ok(sent) => {
            add(out, sent.id());
            add_word(out, sent.signed());
        }
        Err(code) => add_code(out, code),
    }
}

// Adds what a server in this region says of a head at that second.
fn add_verdict(
    alloc: Global,
    out: &mut Vec<u8>,
    question: &Question,
    region: &[u8],
    head: &Head,
    seconds: u64,
) {
    match verdict(alloc, region, head, seconds) {
        Ok(verified) => add_verified(out, question, &verified),
        Err(code) => add_code(out, code),
    }
}

// Adds what is told of the head of this text.
fn add_head(
    alloc: Global,
    out: &mut Vec<u8>,
    question: &Question,
    region: &[u8],
    text: &[u8],
    seconds: u64,
) {
    match Head::read(alloc, text) {
        Ok(head) => match question {
            Question::Authorization => add_told(out, authorization(alloc, &head)),
            _ => add_verdict(alloc, out, question, region, &head, seconds),
        },
        Err(code) => add_code(out, code),
    }
}

/// Whether a server in this region says this at that second of the head of this text.
pub(crate) fn is_judged(
    alloc: Global,
    region: &[u8],
    text: &[u8],
    seconds: u64,
    wanted: &str,
) -> bool {
    let mut out = Vec::new(alloc);
    add_head(alloc, &mut out, &Question::Word, region, text, seconds);
    is_same(&out, wanted.as_bytes())
}

// Adds what is told of a text, which lacks the end of its head.
fn add_row(alloc: Global, out: &mut Vec<u8>, table: &Table, text: &mut Vec<u8>) {
    match &table.question {
        Question::Names => add_names(out, text),
        question => {
            add(text, b"\r\n");
            add_head(alloc, out, question, REGION, text, table.seconds);
        }
    }
}

// Whether that is told of this text.
fn is_so(alloc: Global, table: &Table, mut text: Vec<u8>, wanted: &str) -> bool {
    let mut out = Vec::new(alloc);
    add_row(alloc, &mut out, table, &mut text);
    is_same(&out, wanted.as_bytes())
}

impl Rows for Table {
    fn rows(&self) -> &'static str {
        self.rows
    }

    fn holds(&self, alloc: Global, row: &str) -> Option<bool> {
        let (names, wanted) = row.split_once('|')?;
        let text = joined(alloc, names)?;
        Some(is_so(alloc, self, text, wanted))
    }
}
