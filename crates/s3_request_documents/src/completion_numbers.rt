//! The numbers of parts that a completion tells in XML.
ghost use Rattle.std.specs.Prelude.{◌≡◌, ◌+◌, ◌*◌, ◌<◌, ◌≤◌, true, min, option_map};
ghost use Rattle.std.specs.Char.{is_ascii_digit, digit_value};
ghost use Rattle.std.specs.List.{list_all};
ghost use Rattle.std.specs.Str.Parse.{digits_value};
ghost use Rattle.s3_names.specs.Ids.{as_part_number};
ghost use Rattle.s3_request_documents.specs.Xml.{number_told};

use crate::white::trimmed;
use s3_names::PartNumber;
use s3_text::has_digits_alone;

// The least number that no part has: each greater one counts as it.
const NO_PART: u64 = 10_001;

// The number of these digits and one more.
fn with_digit(number: u64, byte: u8) -> u64
    requires within { number ≤ 10_001 }
    requires digit { digit_value byte < 10 }
    ensures { result ≡ min (number * 10 + digit_value byte) 10_001 }
{
    let digit = (byte as char).to_digit(10).unwrap();
    let more = number * 10 + u64::from(digit);
    if more < NO_PART { more } else { NO_PART }
}

// The number that decimal digits spell, or the least that no part has where it is greater.
fn capped_number(digits: &[u8]) -> u64
    requires { list_all is_ascii_digit digits.now ≡ true }
    ensures { result ≡ min (digits_value 10 digits.now) 10_001 }
{
    let mut number = 0;
    for byte in digits {
        number = with_digit(number, *byte);
    }
    number
}

/// The number that a text tells in decimal digits, with white space around them or not, if it tells one; and the number
/// of a part that it is, if it is one.
#[tactic(auto, using(crate::proofs::NumberLemmas::told))]
pub(crate) fn part_number_told(text: &[u8]) -> Option<Option<PartNumber>>
    ensures { result ≡ option_map as_part_number (number_told text.now) }
{
    let digits = trimmed(text);
    if digits.is_empty() || !has_digits_alone(digits) {
        return None;
    }
    Some(PartNumber::of(capped_number(digits)))
}
