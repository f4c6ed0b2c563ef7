//! A text, cut into lines.

ghost use Rattle.std.specs.Prelude.{◌≡◌, ◌<◌, [], ◌∷◌, length, IfSome, MatchOption};
ghost use Rattle.s3_text.specs.Lines.{lines_of};

use crate::cut::first_place;

/// The first line of a text without its end (LF), which the last line may lack, and what follows it; `None`
/// where there is no line.
#[tactic(auto, using(crate::proofs::LineLemmas::lines), unfolding(crate::specs::Lines::lines_of))]
pub fn next_line(text: &[u8]) -> Option<(&[u8], &[u8])>
    ensures value { MatchOption result (lines_of text.now ≡ []) (λ parts. lines_of text.now ≡ parts.0.now ∷ lines_of parts.1.now) }
    ensures smaller { IfSome result (λ parts. length parts.1.now < length text.now) }
{
    if text.is_empty() {
        return None;
    }
    match first_place(text, b'\n') {
        Some(at) => Some((&text[..at], &text[at + 1..])),
        None => Some((text, &text[text.len()..])),
    }
}
