//! A text, cut at a byte.

ghost use Rattle.std.specs.Prelude.{◌≡◌, ◌==◌, ◌<◌, [], ◌∷◌, length, position, MatchOption};
ghost use Rattle.std.specs.List.{before_first, after_first};
ghost use Rattle.s3_text.specs.Cut.{parts_at};

// The first place of the byte.
pub(crate) fn first_place(text: &[u8], byte: u8) -> Option<usize>
    ensures { result ≡ position (λ b. b == byte) text.now }
{
    text.iter().position(|b| *b == byte)
}

/// The part before the first such byte and all that comes after it; `None` where there is none.
pub fn cut_once(text: &[u8], byte: u8) -> Option<(&[u8], &[u8])>
    ensures parts { MatchOption result
        (parts_at byte text.now ≡ text.now ∷ [])
        (λ cut. parts_at byte text.now ≡ cut.0.now ∷ parts_at byte cut.1.now) }
    ensures before { MatchOption result
        (before_first (λ b. b == byte) text.now ≡ text.now)
        (λ cut. before_first (λ b. b == byte) text.now ≡ cut.0.now) }
    ensures after { MatchOption result
        (after_first (λ b. b == byte) text.now ≡ [])
        (λ cut. after_first (λ b. b == byte) text.now ≡ cut.1.now) }
    ensures shorter { MatchOption result (result ≡ None) (λ cut. length cut.1.now < length text.now) }
{
    match first_place(text, byte) {
        Some(at) => Some((&text[..at], &text[at + 1..])),
        None => None,
    }
}

/// What stands before the first such byte; everything where there is none.
pub fn before_first(text: &[u8], byte: u8) -> &[u8]
    ensures { result.now ≡ before_first (λ b. b == byte) text.now }
{
    match cut_once(text, byte) {
        Some((front, _)) => front,
        None => text,
    }
}

/// What stands after the first such byte; nothing where there is none.
pub fn after_first(text: &[u8], byte: u8) -> &[u8]
    ensures { result.now ≡ after_first (λ b. b == byte) text.now }
{
    match cut_once(text, byte) {
        Some((_, rest)) => rest,
        None => &[],
    }
}
