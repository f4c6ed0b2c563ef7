//! Tests of `s3_text`: numbers in decimal and hexadecimal digits.

use crate::checks::{Row, all_hold};
use s3_text::{decimal_number, number_digits};
use std::alloc::Global;

// A text, and the number of at most three decimal digits that it is.
struct Decimal(&'static [u8], Option<u64>);

static DECIMALS: [Decimal; 6] = [
    Decimal(b"007", Some(7)),
    Decimal(b"999", Some(999)),
    Decimal(b"0070", None),
    Decimal(b"", None),
    Decimal(b"+7", None),
    Decimal(b" 7", None),
];

impl Row for Decimal {
    fn holds(&self, _alloc: Global) -> bool {
        decimal_number(self.0, 3) == self.1
    }
}

/// Whether numbers are read from decimal digits, and written in hexadecimal ones.
pub(crate) fn hold(alloc: Global) -> bool {
    all_hold(alloc, &DECIMALS)
        && number_digits(0x0123_4567_89ab_cdef) == *b"0123456789abcdef"
        && number_digits(u64::MAX) == *b"ffffffffffffffff"
}
