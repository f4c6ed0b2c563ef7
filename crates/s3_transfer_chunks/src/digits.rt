//! The size of a chunk, digit by digit.

ghost use Rattle.std.specs.Prelude.{◌≡◌};
ghost use Rattle.s3_transfer_chunks.specs.Place.{more_digits};

use std::marker::Model;

/// The most digits that a size has.
const DIGITS_MAX: u8 = 16;

/// The digits of a size so far: how many, and the number that they spell.
#[derive(Clone, Copy)]
pub(crate) struct Digits {
    count: u8,
    value: u64,
}

impl Model for Digits {
    ghost use Rattle.std.specs.Prelude.{ℕ, ◌≤◌, ◌<◌, ◌^◌};

    ghost Value = { ℕ × ℕ };

    ghost view = { λ d. (d.count, d.value) };

    ghost invariant = { λ d. (d.count ≤ 16) × (d.value < 16 ^ d.count) };

    ghost inverse = { λ v. record { count = v.0; value = v.1 } };
}

impl Digits {
    // No digit yet.
    pub(crate) fn new() -> Digits
        ensures { result ≡ (0, 0) }
    {
        Digits { count: 0, value: 0 }
    }

    // How many there are.
    pub(crate) fn count(self) -> u8
        ensures { result ≡ self.0 }
    {
        self.count
    }

    // The number that they spell.
    pub(crate) fn value(self) -> u64
        ensures { result ≡ self.1 }
    {
        self.value
    }

    // With one more digit; `None` for a byte that is none, and behind the last one that may stand.
    pub(crate) fn more(self, byte: u8) -> Option<Digits>
        ensures { result ≡ more_digits self byte }
    {
        let digit = char::from(byte).to_digit(16)?;
        if self.count >= DIGITS_MAX {
            return None;
        }
        Some(Digits {
            count: self.count + 1,
            value: self.value * 16 + u64::from(digit),
        })
    }
}
