ghost use Rattle.std.specs.Prelude.{◌≡◌, ◌<◌, ◌≤◌, ◌^◌};
ghost use Rattle.std.specs.Char.{is_ascii_digit};
ghost use Rattle.std.specs.List.{list_all};
ghost use Rattle.std.specs.Str.Parse.{AllDigits, digits_value};
ghost use Rattle.s3_text.specs.Digits.{decimal_number, number_digits};

/// The number that a text of 1 to `most` decimal digits spells, leading zeros among them; `None` for
/// any other text, one with a sign or a space included.
#[tactic(auto, using(crate::proofs::DigitLemmas::decimal_digits, crate::proofs::DigitLemmas::decimal_room))]
pub fn decimal_number(text: &[u8], most: usize) -> Option<u64>
    requires { most ≤ 19 }
    ensures { result ≡ decimal_number most text.now }
{
    if text.is_empty() || text.len() > most || !has_digits_alone(text) {
        return None;
    }
    Some(number_from(10, text))
}

/// The number in sixteen lower-case hexadecimal digits, leading zeros among them.
#[tactic(auto, unfolding(crate::specs::Digits::number_digits))]
pub fn number_digits(number: u64) -> [u8; 16]
    ensures { result ≡ number_digits number }
{
    let mut digits = [0u8; 16];
    let _fits = hex::encode_to_slice(number.to_be_bytes(), &mut digits);
    digits
}

/// Whether the text has decimal digits and nothing else; the empty text has.
pub fn has_digits_alone(text: &[u8]) -> bool
    ensures { result ≡ list_all is_ascii_digit text.now }
{
    text.iter().all(|byte| byte.is_ascii_digit())
}

/// The number that digits of this radix, 2 to 36, spell, the highest first. It has to fit 64 bits.
#[tactic(auto, using(crate::proofs::DigitLemmas::digit_below, crate::proofs::DigitLemmas::number_so_far, std::proofs::lemmas::Int::Digits::digits_value_more))]
pub fn number_from(radix: u32, digits: &[u8]) -> u64
    requires lower_bound { 2 ≤ radix }
    requires upper_bound { radix ≤ 36 }
    requires digits { AllDigits radix digits.now }
    requires room { digits_value radix digits.now < 2 ^ 64 }
    ensures { result ≡ digits_value radix digits.now }
{
    let mut number: u64 = 0;
    for byte in digits {
        let digit = (*byte as char).to_digit(radix).unwrap();
        number = number * u64::from(radix) + u64::from(digit);
    }
    number
}
