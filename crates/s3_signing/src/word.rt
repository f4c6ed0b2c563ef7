//! The word that stands for the body of a signed request.

ghost use Rattle.std.specs.Prelude.{◌≡◌, true, false, MatchOption};
ghost use Rattle.s3_signing.specs.Verdict.{is_word, is_word_in, is_word_of_s3};
ghost use Rattle.s3_signing.specs.Word.{word_text};

use s3_terms::Dialect;
use s3_text::read_hex_digest;

/// What the value of `x-amz-content-sha256` says of the body (Amazon S3 API Reference,
/// "Authenticating requests: signature calculations").
#[derive(Clone, Copy)]
pub enum Word {
    /// The body's SHA-256, in 64 lower-case hexadecimal digits.
    Hash([u8; 64]),
    /// `UNSIGNED-PAYLOAD`: nothing is said of the body.
    Unsigned,
    /// `STREAMING-AWS4-HMAC-SHA256-PAYLOAD`: the body is chunks, and each has its own signature.
    Chunks,
    /// `STREAMING-UNSIGNED-PAYLOAD-TRAILER`: the body is chunks without signatures, with a checksum behind them.
    UnsignedChunks,
    /// `STREAMING-AWS4-HMAC-SHA256-PAYLOAD-TRAILER`: the body is chunks, and each has its own signature; behind them stands a
    /// checksum, and its signature.
    TrailedChunks,
}

const UNSIGNED: &[u8] = b"UNSIGNED-PAYLOAD";

const CHUNKS: &[u8] = b"STREAMING-AWS4-HMAC-SHA256-PAYLOAD";

const UNSIGNED_CHUNKS: &[u8] = b"STREAMING-UNSIGNED-PAYLOAD-TRAILER";

const TRAILED_CHUNKS: &[u8] = b"STREAMING-AWS4-HMAC-SHA256-PAYLOAD-TRAILER";

impl Word {
    // The word that a text is in a dialect; `None` for a text of no such form.
    #[tactic(auto, using(crate::proofs::WordFormLemmas::other_in, crate::proofs::WordFormLemmas::own_in, crate::proofs::WordFormLemmas::own_apart))]
    pub(crate) fn read_in(dialect: Dialect, text: &[u8]) -> Option<Word>
        ensures { MatchOption result
            (is_word_in dialect text.now ≡ false)
            (λ word. (is_word_in dialect text.now ≡ true) × (word_text word ≡ text.now)) }
    {
        let Some(word) = Word::read_of_s3(text) else {
            return Word::read(text);
        };
        match dialect {
            Dialect::S3 => Some(word),
            Dialect::Json => None,
        }
    }

    // The word of S3's dialect alone that a text is; `None` for another text.
    fn read_of_s3(text: &[u8]) -> Option<Word>
        ensures { MatchOption result
            (is_word_of_s3 text.now ≡ false)
            (λ word. (is_word_of_s3 text.now ≡ true) × (word_text word ≡ text.now)) }
    {
        if text == UNSIGNED_CHUNKS {
            return Some(Word::UnsignedChunks);
        }
        if text == TRAILED_CHUNKS {
            return Some(Word::TrailedChunks);
        }
        None
    }

    // The word of any dialect that a text is; `None` for a text of no such form.
    fn read(text: &[u8]) -> Option<Word>
        ensures { MatchOption result
            (is_word text.now ≡ false)
            (λ word. (is_word text.now ≡ true) × (word_text word ≡ text.now)) }
    {
        if text == UNSIGNED {
            return Some(Word::Unsigned);
        }
        if text == CHUNKS {
            return Some(Word::Chunks);
        }
        match read_hex_digest(text) {
            Some(digits) => Some(Word::Hash(digits)),
            None => None,
        }
    }

    /// The word as the header has it.
    pub fn text(&self) -> &[u8]
        ensures { result.now ≡ word_text self.now }
    {
        match self {
            Word::Hash(digits) => digits,
            Word::Unsigned => UNSIGNED,
            Word::Chunks => CHUNKS,
            Word::UnsignedChunks => UNSIGNED_CHUNKS,
            Word::TrailedChunks => TRAILED_CHUNKS,
        }
    }
}
