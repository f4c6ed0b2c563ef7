//! Names and values as bytes.
ghost use Rattle.std.specs.Prelude.{◌≡◌, ◌<◌, ◌^◌, ◌++◌, length, OnOk, MatchOption};
ghost use Rattle.std.specs.Int.{w16, w32};
ghost use Rattle.s3_columns.specs.Items.{text_at};
ghost use Rattle.s3_columns.specs.Pairs.{pair_at, pair_spelled};

use s3_terms::NoMemory;

// The text behind two bytes of length at the front of these bytes, and the bytes behind it; `None` where there are
// fewer.
#[tactic(auto, unfolding(crate::specs::Items::text_at))]
fn short_text_at(bytes: &[u8]) -> Option<(&[u8], &[u8])>
    ensures { MatchOption result
        (text_at w16 bytes.now ≡ None)
        (λ read. text_at w16 bytes.now ≡ Some (read.0.now, read.1.now)) }
{
    let (len, rest) = bytes.split_first_chunk::<2>()?;
    rest.split_at_checked(u16::from_be_bytes(*len) as usize)
}

// The same behind four bytes of length.
#[tactic(auto, unfolding(crate::specs::Items::text_at))]
fn long_text_at(bytes: &[u8]) -> Option<(&[u8], &[u8])>
    ensures { MatchOption result
        (text_at w32 bytes.now ≡ None)
        (λ read. text_at w32 bytes.now ≡ Some (read.0.now, read.1.now)) }
{
    let (len, rest) = bytes.split_first_chunk::<4>()?;
    rest.split_at_checked(u32::from_be_bytes(*len) as usize)
}

// The name and the value at the front of these bytes, and the bytes behind them; `None` where no pair is there.
#[tactic(auto, unfolding(crate::specs::Pairs::pair_at))]
pub(crate) fn pair_at(bytes: &[u8]) -> Option<(&[u8], &[u8], &[u8])>
    ensures { MatchOption result
        (pair_at bytes.now ≡ None)
        (λ read. pair_at bytes.now ≡ Some (record { name = read.0.now; value = read.1.now }, read.2.now)) }
{
    let (name, rest) = short_text_at(bytes)?;
    let (value, rest) = long_text_at(rest)?;
    Some((name, value, rest))
}

// Appends a pair.
pub(crate) fn add_pair(out: &mut Vec<u8>, name: &[u8], value: &[u8]) -> Result<(), NoMemory>
    requires name { length name.now < 2 ^ 16 }
    requires value { length value.now < 2 ^ 32 }
    ensures { OnOk result (out.new.items ≡ out.old.items ++ pair_spelled (record { name = name.now; value = value.now })) }
{
    out.extend_from_slice(&(name.len() as u16).to_be_bytes())?;
    out.extend_from_slice(name)?;
    out.extend_from_slice(&(value.len() as u32).to_be_bytes())?;
    out.extend_from_slice(value)?;
    Ok(())
}
