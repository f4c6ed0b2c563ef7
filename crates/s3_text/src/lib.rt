//! What texts are made of: characters, parts between marks, lines, and numbers and digests in digits. It knows
//! nothing of S3.
#![tactic(auto)]

mod characters;
mod cut;
mod digest;
mod digits;
mod lines;

pub use characters::{is_letter_or_digit, is_text};
pub use cut::{after_first, before_first, cut_once};
pub use digest::{hex_digest, read_hex_digest};
pub use digits::{decimal_number, has_digits_alone, number_digits, number_from};
pub use lines::next_line;
