//! The search for the head text at the front of a connection's bytes, as they arrive.
ghost use Rattle.std.specs.Prelude.{◌≡◌, ◌≢◌, ◌≤◌, ◌<◌, ◌==◌, ◌&&◌, ◌⊎◌, ◌++◌, ◌+◌, ℕ, true, false, nat_eq, List, [], ◌∷◌, Some, None, is_none, if◌then◌else◌, length, take, drop, IfSome};
ghost use Rattle.std.specs.List.{starts_with};
ghost use Rattle.s3_text.specs.Characters.{line_feed};
ghost use Rattle.s3_http_heads.specs.Find.{head_limit, skip_pairs, found_by, found_in};
ghost use Rattle.s3_http_heads.specs.Search.{Holds, IsOpen, IsPassed, IsScanned, IsSearched, IsStep, Stands, is_lost, kept};

use crate::find::{Found, HEAD_LIMIT, matched_after, skipped};
use std::alloc::Global;

// How many bytes an empty line has with the end of the line before it, by which every head ends.
const HEAD_END: u8 = 4;

// For how many bytes a search keeps memory when it begins anew: a usual head is no longer.
const KEPT_ROOM: usize = 1_024;

/// Looks for the head text at the front of a connection's bytes as they arrive, and never looks again at
/// those that it has taken.
///
/// It never fails: where memory runs out it loses the text, and goes on by its position.
#[derive(Drop)]
pub struct HeadSearch {
    // The bytes without the skipped pairs; none where they are lost.
    text: Vec<u8>,
    position: Position,
    // Whether memory ran out for one of them.
    is_lost: bool,
}

// Where a search stands: how many bytes came since the skipped pairs, and how many bytes of an empty line
// are the last ones of them.
#[derive(Clone, Copy)]
struct Position {
    len: usize,
    matched: u8,
}

// The place at which a search begins.
const BEGINNING: Position = Position { len: 0, matched: 0 };

// What stays of the bytes before a piece, all or, where they began a pair of CR and LF, none; how many of
// the piece's bytes are skipped; and the place behind what stays.
#[derive(Clone, Copy)]
struct Front {
    is_anew: bool,
    passed: usize,
    position: Position,
}

// What a piece adds: its bytes from `start` to `end`, after those before it or anew.
#[derive(Clone, Copy)]
struct Step {
    is_anew: bool,
    start: usize,
    end: usize,
    position: Position,
}

// How far a scan came: how many bytes it passed, and how many bytes of an empty line are the last ones.
#[derive(Clone, Copy)]
struct Reach {
    passed: usize,
    matched: u8,
}

impl HeadSearch {
    /// A search that has taken nothing yet, and takes no memory before it is fed.
    pub fn new(alloc: Global) -> HeadSearch
        ensures begins { Stands result [] }
        ensures whole { is_lost result ≡ false }
    {
        HeadSearch {
            text: Vec::new(alloc),
            position: BEGINNING,
            is_lost: false,
        }
    }

    /// Begins anew, with the memory that it has, of which it gives back what is more than 1,024 bytes; it keeps
    /// all where memory runs out for the smaller block.
    pub fn clear(&mut self)
        ensures begins { Stands self.new [] }
        ensures whole { is_lost self.new ≡ false }
    {
        self.text.clear();
        self.text.shrink_to(KEPT_ROOM);
        self.position = BEGINNING;
        self.is_lost = false;
    }

    /// The bytes that it has taken, without the pairs of CR and LF in front: at most 16,384, and the head
    /// text where one was found. Nothing where memory ran out for one of them.
    pub fn text(&self) -> Option<&[u8]>
        ensures text { (bytes : List ℕ) → Holds self.now bytes → IfSome result (λ text. text.now ≡ skip_pairs bytes) }
        ensures within { (bytes : List ℕ) → Holds self.now bytes → IfSome result (λ text. length text.now ≤ head_limit) }
        ensures lost { is_none result ≡ is_lost self.now }
    {
        if self.is_lost { None } else { Some(&self.text) }
    }

    /// Takes as much of the piece as is the head's: up to the head's last byte, or to the byte that makes
    /// it too large, and else all. Gives how many bytes those are, and what is found with them.
    ///
    /// Once something was found, `clear` comes before the next piece.
    ///
    /// It takes room for those bytes alone, and never for those behind the head. Where memory runs out for
    /// one of them, the text is lost until the search begins anew.
    pub fn feed(&mut self, piece: &[u8]) -> (usize, Found)
        ensures within { result.0 ≤ length piece.now }
        ensures fed { (bytes : List ℕ) → Stands self.old bytes → IsSearched bytes piece.now result self.new }
        ensures kept { is_lost self.new ≡ true → (is_lost self.old ≡ true) ⊎ (0 < length piece.now) }
    {
        let step = advance(self.position, piece);
        let bytes = &piece[step.start..step.end];
        self.is_lost = hold(&mut self.text, self.is_lost, step.is_anew, bytes);
        // Field by field, so that what lies between them isn't written.
        self.position.len = step.position.len;
        self.position.matched = step.position.matched;
        (step.end, found_at(step.position))
    }
}

/// A law: a search that stands has found nothing, and where a head was found, the text is that head alone.
pub fn searches_find()
    ensures goes_on { (search : HeadSearch) (bytes : List ℕ) → Stands search bytes → found_in bytes ≡ Found.NeedMore }
    ensures head { (search : HeadSearch) (bytes : List ℕ) (len : ℕ) → Holds search bytes
        → found_in bytes ≡ Found.Head len → len ≡ length (skip_pairs bytes) }
{}

// Holds these bytes too, after those that are held or anew. Answers whether the text is lost.
fn hold(text: &mut Vec<u8>, was_lost: bool, is_anew: bool, bytes: &[u8]) -> bool
    ensures text { (held : List ℕ) → text.old.items ≡ kept was_lost held
        → text.new.items ≡ kept result (kept is_anew held ++ bytes.now) }
    ensures lost { result ≡ true → (was_lost ≡ true) ⊎ (0 < length bytes.now) }
{
    if is_anew {
        text.clear();
    } else if was_lost {
        return true;
    }
    if append(text, bytes) {
        return false;
    }
    text.clear();
    true
}

// Appends the bytes, if there is memory for them. One byte is pushed, which is quicker.
fn append(text: &mut Vec<u8>, bytes: &[u8]) -> bool
    ensures text { text.new.items ≡ (if result then text.old.items ++ bytes.now else text.old.items) }
    ensures refused { result ≡ false → 0 < length bytes.now }
{
    match bytes {
        [byte] => text.push(*byte).is_ok(),
        _ => text.extend_from_slice(bytes).is_ok(),
    }
}

// Whether a piece goes on with LF after a lone CR, so that they are a pair.
fn ends_pair(position: Position, piece: &[u8]) -> bool
    ensures { result ≡ (position.len == 1 && position.matched == 1 && starts_with nat_eq piece.now (line_feed ∷ [])) }
{
    position.len == 1 && position.matched == 1 && piece.starts_with(b"\n")
}

// What stays of the bytes before a piece, which begin with no pair of CR and LF, and of the piece.
fn front_of(position: Position, piece: &[u8]) -> Front
    ensures within { result.passed ≤ length piece.now }
    ensures open { (text : List ℕ) → IsOpen text position → IsOpen (kept result.is_anew text) result.position }
    ensures rest { (text : List ℕ) → IsOpen text position → (n : ℕ)
        → skip_pairs (text ++ take (result.passed + n) piece.now) ≡ kept result.is_anew text ++ take n (drop result.passed piece.now) }
{
    if position.len == 0 {
        return Front {
            is_anew: true,
            passed: skipped(piece),
            position: BEGINNING,
        };
    }
    if ends_pair(position, piece) {
        return Front {
            is_anew: true,
            passed: 1 + skipped(&piece[1..]),
            position: BEGINNING,
        };
    }
    Front {
        is_anew: false,
        passed: 0,
        position,
    }
}

// How a piece goes on from a position.
fn advance(position: Position, piece: &[u8]) -> Step
    ensures ordered { result.start ≤ result.end }
    ensures within { result.end ≤ length piece.now }
    ensures steps { (text : List ℕ) → IsOpen text position → IsStep text piece.now result }
{
    let front = front_of(position, piece);
    let rest = &piece[front.passed..];
    let room = rest
        .len()
        .min(HEAD_LIMIT.saturating_sub(front.position.len));
    let reach = scan(front.position.matched, &rest[..room]);
    Step {
        is_anew: front.is_anew,
        start: front.passed,
        end: front.passed + reach.passed,
        position: Position {
            len: front.position.len + reach.passed,
            matched: reach.matched,
        },
    }
}

// Passes these bytes up to the end of a head, or all: `matched` bytes of an empty line stood before them.
fn scan(matched: u8, bytes: &[u8]) -> Reach
    ensures within { result.passed ≤ length bytes.now }
    ensures scanned { (text : List ℕ) → IsPassed text matched
        → IsScanned (text ++ take result.passed bytes.now) result.matched }
    ensures all { result.matched ≢ 4 → result.passed ≡ length bytes.now }
{
    let mut matched = matched;
    for (index, byte) in bytes.iter().enumerate() {
        matched = matched_after(matched, *byte);
        if matched == HEAD_END {
            return Reach {
                passed: index + 1,
                matched,
            };
        }
    }
    Reach {
        passed: bytes.len(),
        matched,
    }
}

// What is found at a position, up to which all was scanned.
fn found_at(position: Position) -> Found
    ensures { result ≡ found_by (if position.matched == 4 then Some position.len else None) position.len }
{
    if position.matched == HEAD_END {
        return Found::Head { len: position.len };
    }
    if position.len < HEAD_LIMIT {
        Found::NeedMore
    } else {
        Found::TooLarge
    }
}
