//! Where a head text begins and ends in the bytes of a connection.
ghost use Rattle.std.specs.Prelude.{◌≡◌, ◌≤◌, ◌<◌, ◌↔◌, ◌++◌, ℕ, List, length, take, drop};
ghost use Rattle.s3_http_heads.specs.Scan.{after_byte};
ghost use Rattle.s3_http_heads.specs.Find.{head_limit, skip_pairs, text_length, found_in, IsHeadText, HasNoHeadText};

/// The greatest size of a head text, in bytes.
pub const HEAD_LIMIT: usize = 16_384;

/// What the bytes of a connection begin with, after the skipped empty lines.
#[derive(Clone, Copy, PartialEq, Eq)]
pub enum Found {
    /// Neither a head text nor too many bytes yet.
    NeedMore,
    /// A head text of `len` bytes.
    Head { len: usize },
    /// 16,384 bytes without the end of a head.
    TooLarge,
}

/// What `bytes` begins with: the bytes that a connection has sent from the end of the former message
/// on. A `len` counts from the end of the skipped pairs of CR and LF.
///
/// Each byte is looked at once, and none past the head's end or the limit.
#[tactic(auto, unfolding(crate::specs::Find::found_in))]
pub fn find_head(bytes: &[u8]) -> Found
    ensures { result ≡ found_in bytes.now }
{
    let held = without_pairs(bytes);
    match head_within_limit(held) {
        Some(len) => Found::Head { len },
        None if held.len() < HEAD_LIMIT => Found::NeedMore,
        None => Found::TooLarge,
    }
}

/// The count of bytes in the pairs of CR and LF that `bytes` begins with.
pub fn skipped(bytes: &[u8]) -> usize
    ensures pairs { drop result bytes.now ≡ skip_pairs bytes.now }
    ensures within { result ≤ length bytes.now }
{
    let mut at = 0;
    while bytes[at..].starts_with(b"\r\n") {
        at += 2;
    }
    at
}

// The bytes without the pairs of CR and LF that they begin with.
fn without_pairs(bytes: &[u8]) -> &[u8]
    ensures { result.now ≡ skip_pairs bytes.now }
{
    &bytes[skipped(bytes)..]
}

// The length of the shortest beginning that ends with an empty line and has at most 16,384 bytes.
#[tactic(auto, using(std::proofs::lemmas::List::take_min))]
fn head_within_limit(held: &[u8]) -> Option<usize>
    ensures { result ≡ text_length (take head_limit held.now) }
{
    head_length(&held[..HEAD_LIMIT.min(held.len())])
}

// The length of the shortest beginning that ends with an empty line.
fn head_length(text: &[u8]) -> Option<usize>
    ensures { result ≡ text_length text.now }
{
    let mut matched = 0;
    for (index, byte) in text.iter().enumerate() {
        matched = matched_after(matched, *byte);
        if matched == 4 {
            return Some(index + 1);
        }
    }
    None
}

// How many bytes of an empty line a text ends with after `byte`, where it ended with `matched` before.
pub(crate) fn matched_after(matched: u8, byte: u8) -> u8
    ensures { result ≡ after_byte matched byte }
{
    match byte {
        b'\r' if matched == 2 => 3,
        b'\r' => 1,
        b'\n' if matched == 1 || matched == 3 => matched + 1,
        _ => 0,
    }
}

/// A law: `find_head` answers the head text at the front of the bytes exactly where there is one, and
/// tells too many bytes from too few exactly at the limit.
pub fn verdict_is_exact()
    ensures head { (bytes : List ℕ) (len : ℕ) → (found_in bytes ≡ Found.Head len) ↔ IsHeadText bytes len }
    ensures too_large { (bytes : List ℕ) → (found_in bytes ≡ Found.TooLarge)
        ↔ ((HEAD_LIMIT ≤ length (skip_pairs bytes)) × HasNoHeadText bytes) }
    ensures need_more { (bytes : List ℕ) → (found_in bytes ≡ Found.NeedMore)
        ↔ ((length (skip_pairs bytes) < HEAD_LIMIT) × HasNoHeadText bytes) }
{}

/// A law: what was found stays found, whatever bytes follow.
pub fn verdicts_stay()
    ensures head { (bytes more : List ℕ) (len : ℕ) → found_in bytes ≡ Found.Head len
        → found_in (bytes ++ more) ≡ Found.Head len }
    ensures too_large { (bytes more : List ℕ) → found_in bytes ≡ Found.TooLarge
        → found_in (bytes ++ more) ≡ Found.TooLarge }
    ensures pairs { (bytes more : List ℕ) (len : ℕ) → found_in bytes ≡ Found.Head len
        → skip_pairs (bytes ++ more) ≡ skip_pairs bytes ++ more }
{}

/// A law: the skipped pairs decide nothing, so that a connection may drop them as they come.
pub fn pairs_may_be_dropped()
    ensures found { (bytes more : List ℕ) → found_in (skip_pairs bytes ++ more) ≡ found_in (bytes ++ more) }
    ensures rest { (bytes more : List ℕ) → skip_pairs (skip_pairs bytes ++ more) ≡ skip_pairs (bytes ++ more) }
{}
