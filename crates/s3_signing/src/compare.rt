//! Whether two signatures are the same.

ghost use Rattle.std.specs.Prelude.{◌≡◌};
ghost use Rattle.std.specs.Str.{bytes_eq};

// Whether the digits are the same. All of them are compared, and none decides when to stop, so that
// the time does not tell how many agree. That is by the look of this loop: it is not proved, and a
// compiler may undo it.
#[tactic(auto, using(crate::proofs::CompareLemmas::compare_more))]
pub(crate) fn same_digits(first: &[u8; 64], second: &[u8; 64]) -> bool
    ensures { result ≡ bytes_eq first.now second.now }
{
    let mut difference = 0;
    for i in 0..64 {
        difference |= first[i] ^ second[i];
    }
    difference == 0
}
