//! A text, cut at a byte that may stand near or far away.

ghost use Rattle.std.specs.Prelude.{◌≡◌, ◌==◌, ◌<◌, [], ◌∷◌, length, position, None, MatchOption};
ghost use Rattle.s3_text.specs.Cut.{parts_at};
ghost use Rattle.s3_log.specs.Request.{before, behind};

use memchr::memchr;

/// The part before the first such byte and all that comes after it; `None` where there is none. It looks at many bytes at once.
pub(crate) fn cut_once(text: &[u8], byte: u8) -> Option<(&[u8], &[u8])>
    ensures parts { MatchOption result
        (parts_at byte text.now ≡ text.now ∷ [])
        (λ cut. parts_at byte text.now ≡ cut.0.now ∷ parts_at byte cut.1.now) }
    ensures before { MatchOption result (before byte text.now ≡ text.now) (λ cut. before byte text.now ≡ cut.0.now) }
    ensures behind { MatchOption result (behind byte text.now ≡ []) (λ cut. behind byte text.now ≡ cut.1.now) }
    ensures shorter { MatchOption result (result ≡ None) (λ cut. length cut.1.now < length text.now) }
{
    match first_place(text, byte) {
        Some(at) => Some((&text[..at], &text[at + 1..])),
        None => None,
    }
}

/// The part before the first such byte and all that comes after it; the whole text and nothing where there is none. It looks at many
/// bytes at once.
pub(crate) fn cut_far(text: &[u8], byte: u8) -> (&[u8], &[u8])
    ensures before { result.0.now ≡ before byte text.now }
    ensures behind { result.1.now ≡ behind byte text.now }
{
    match cut_once(text, byte) {
        Some(parts) => parts,
        None => (text, &[]),
    }
}

/// The same, one byte after another, which takes less time where the byte is near.
pub(crate) fn cut_near(text: &[u8], byte: u8) -> (&[u8], &[u8])
    ensures before { result.0.now ≡ before byte text.now }
    ensures behind { result.1.now ≡ behind byte text.now }
{
    match s3_text::cut_once(text, byte) {
        Some((front, rest)) => (front, rest),
        None => (text, &[]),
    }
}

// The first place of the byte.
#[tactic(auto, using(crate::proofs::CutLemmas::first_place))]
fn first_place(text: &[u8], byte: u8) -> Option<usize>
    ensures { result ≡ position (λ b. b == byte) text.now }
{
    memchr(byte, text)
}
